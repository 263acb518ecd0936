// Reads a line of a text log; `None` stands for a malformed one. Crate `decimal` reads the digits, so a number may have any number of
// them. The public functions, which other crates use to look at a line, are total.
ghost use Rattle.std.specs.Prelude.{◌≡◌, ◌+◌, ◌*◌, ◌^◌, ◌-◌, ◌≤◌, ◌<◌, get_or, drop};
ghost use Rattle.textlog.specs.Decode.{is_decimal_mark, in_range, fraction_in, time_in, line_in};

use decimal::reading::number_at;

// A line that was read: the sequence number, the time in microseconds and the offset after the line. The line has the form, and its values
// fit their fields.
#[derive(Clone, Copy)]
pub struct ReadLine {
    pub number: u32,
    pub time: u64,
    pub end: usize,
}

// The greatest sequence number that its field holds.
pub const NUMBER_MOST: u64 = 4_294_967_295;

// The greatest number of decimals of a time.
pub const DECIMALS_MOST: usize = 3;

// The octet at offset `at`; 0 past the end.
pub fn octet_at(log: &[u8], at: usize) -> u8
    ensures { result ≡ get_or log.now at 0 }
{
    log.get(at).copied().unwrap_or(0)
}

// Whether an octet may stand before the decimals: it is a comma or a point.
#[tactic(auto, unfolding(crate::specs::Decode::is_decimal_mark))]
pub fn is_decimal_mark(octet: u8) -> bool
    ensures { result ≡ is_decimal_mark octet }
{
    octet == b',' || octet == b'.'
}

// The microseconds in `count` decimals of a millisecond, one to three, with the value `value`.
fn thousandths(value: u64, count: usize) -> u64
    requires { (1 ≤ count) × (count ≤ 3) × (value < 1000) }
    ensures { result ≡ value * 10 ^ (3 - count) }
{
    match count {
        1 => value * 100,
        2 => value * 10,
        _ => value,
    }
}

// A line that ends before `end`; `None` if its time is over the field's range.
fn in_range(number: u32, whole: u64, fraction: u64, end: usize) -> Option<ReadLine>
    ensures { result ≡ in_range number (1000 * whole + fraction) end }
{
    let time = whole.checked_mul(1000)?.checked_add(fraction)?;
    Some(ReadLine { number, time, end })
}

// Reads the rest of a line whose decimals begin at `at`.
fn fraction_at(log: &[u8], at: usize, number: u32, whole: u64) -> Option<ReadLine>
    ensures { result ≡ fraction_in number whole at (drop at log.now) }
{
    let digits = number_at(log, at);
    let end = digits.end;
    let count = end - at;
    if count == 0 || DECIMALS_MOST < count || octet_at(log, end) != b'\n' {
        return None;
    }
    in_range(number, whole, thousandths(digits.value, count), end + 1)
}

// Reads the rest of a line whose time begins at `at`.
fn time_at(log: &[u8], at: usize, number: u32) -> Option<ReadLine>
    ensures { result ≡ time_in number at (drop at log.now) }
{
    let digits = number_at(log, at);
    let end = digits.end;
    if end == at {
        return None;
    }
    let octet = octet_at(log, end);
    if octet == b'\n' {
        return in_range(number, digits.value, 0, end + 1);
    }
    if !is_decimal_mark(octet) {
        return None;
    }
    fraction_at(log, end + 1, number, digits.value)
}

// Reads the line that begins at `at`.
pub fn line_at(log: &[u8], at: usize) -> Option<ReadLine>
    ensures { result ≡ line_in at (drop at log.now) }
{
    let digits = number_at(log, at);
    let end = digits.end;
    if end == at {
        return None;
    }
    let Ok(number) = u32::try_from(digits.value) else {
        return None;
    };
    if octet_at(log, end) != b';' {
        return None;
    }
    time_at(log, end + 1, number)
}
