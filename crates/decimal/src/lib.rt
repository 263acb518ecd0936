// The decimal digits of a number of 64 bits as ASCII octets, written into the caller's buffer; module `reading` reads them.
#![tactic(auto)]

ghost use Rattle.std.specs.Prelude.{◌≡◌, ◌+◌, ◌%◌, length};
ghost use Rattle.octets.specs.Memory.{put};
ghost use Rattle.decimal.specs.Decimal.{decimal_of};

pub mod reading;

// The number of digits of v, 1 to 20, counted four at a time.
pub fn count(v: u64) -> usize
    ensures { result ≡ length (decimal_of v) }
{
    let mut rest = v;
    let mut cut = 0;
    while 10000 <= rest {
        rest = rest / 10000;
        cut += 4;
    }
    if rest < 10 {
        return cut + 1;
    }
    if rest < 100 {
        return cut + 2;
    }
    if rest < 1000 {
        return cut + 3;
    }
    cut + 4
}

// The last digit of n, as an ASCII octet.
fn last_digit(n: u64) -> u8
    ensures { result ≡ 48 + n % 10 }
{
    (48 + n % 10) as u8
}

// Writes the digits of `v` over all of `out`, two at a time, the last ones first.
fn write_decimal(out: &mut [u8], v: u64)
    requires { length out.old ≡ length (decimal_of v) }
    ensures { out.new ≡ decimal_of v }
{
    let mut rest = v;
    let mut i = out.len();
    while 1 < i {
        i -= 2;
        let pair = rest % 100;
        out[i + 1] = last_digit(pair);
        out[i] = last_digit(pair / 10);
        rest /= 100;
    }
    if 0 < i {
        out[0] = last_digit(rest);
    }
}

// Writes the digits of `v` from `at` on if there is room for all of them; returns their number.
pub fn put_decimal(out: &mut [u8], at: usize, v: u64) -> usize
    ensures { (result ≡ length (decimal_of v)) × (out.new ≡ put at (decimal_of v) out.old) }
{
    let n = count(v);
    if octets::has_room(out.len(), at, n) {
        write_decimal(&mut out[at..at + n], v);
    }
    n
}
