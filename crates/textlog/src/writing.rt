// Writes the lines of arrivals: three decimals after a comma, and no needless leading zeros.
ghost use Rattle.std.specs.Prelude.{◌≡◌, ◌+◌, ◌≤◌, length};
ghost use Rattle.octets.specs.Memory.{over, put};
ghost use Rattle.rfc4737.specs.Judge.{arrivals_most, arrivals_from};
ghost use Rattle.textlog.specs.Form.{arrival_line, log_of};

// The length of an arrival's line, in octets.
fn line_length(number: u32, time: u64) -> usize
    ensures { (result ≡ length (arrival_line (record { number = number; time = time }))) × (result ≤ 46) }
{
    decimal::count(number as u64) + decimal::count(time / 1000) + 6
}

// The length of the log of two lists, in octets.
pub(crate) fn log_length(numbers: &[u32], times: &[u64]) -> usize
    requires { (length times.now ≡ length numbers.now) × (length numbers.now ≤ arrivals_most) }
    ensures { (result ≡ length (log_of (arrivals_from numbers.now times.now))) × (result ≤ 188416) }
{
    let mut total = 0;
    for (number, time) in numbers.iter().zip(times) {
        total += line_length(*number, *time);
    }
    total
}

// The digit of a number below 10.
fn digit_of(n: u64) -> u8
    requires { n ≤ 9 }
    ensures { result ≡ 48 + n }
{
    (48 + n) as u8
}

// Writes an arrival's line from offset `at` on; returns the offset after it.
fn put_line(out: &mut [u8], at: usize, number: u32, time: u64) -> usize
    requires { at + length (arrival_line (record { number = number; time = time })) ≤ length out.old }
    ensures { (result ≡ at + length (arrival_line (record { number = number; time = time })))
        × (out.new ≡ put at (arrival_line (record { number = number; time = time })) out.old) }
{
    let first = at + decimal::put_decimal(out, at, number as u64);
    octets::put_octets(out, first, b";");
    let second = first + 1;
    let third = second + decimal::put_decimal(out, second, time / 1000);
    let rest = time % 1000;
    let decimals = [
        b',',
        digit_of(rest / 100),
        digit_of(rest / 10 % 10),
        digit_of(rest % 10),
        b'\n',
    ];
    octets::put_octets(out, third, &decimals);
    third + 5
}

// Writes the log of two lists from the start of `out`.
pub(crate) fn put_lines(numbers: &[u32], times: &[u64], out: &mut [u8])
    requires { (length times.now ≡ length numbers.now)
        × (length (log_of (arrivals_from numbers.now times.now)) ≤ length out.old) }
    ensures { out.new ≡ over (log_of (arrivals_from numbers.now times.now)) out.old }
{
    let mut at = 0;
    for (number, time) in numbers.iter().zip(times) {
        at = put_line(out, at, *number, *time);
    }
}
