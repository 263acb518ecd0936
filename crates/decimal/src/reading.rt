// Reads decimal digits, any number of them. Their value is exact up to the greatest number of 64 bits; a greater value is read as that
// number.
ghost use Rattle.std.specs.Prelude.{◌≡◌, ◌+◌, ◌*◌, ◌-◌, ◌≤◌, min};
ghost use Rattle.decimal.specs.Reading.{digit, word_most, number_at, ReadsBack};

// Digits that were read: the offset after the last one, and their value, at most the greatest number of 64 bits. Where there are none, the
// end is the offset asked for and the value 0, as the definition `number_at` says, and not the `None` of an `Option`.
#[derive(Clone, Copy)]
pub struct Number {
    pub end: usize,
    pub value: u64,
}

// Whether an octet is a decimal digit.
#[tactic(auto, unfolding(crate::specs::Reading::digit))]
fn is_digit(octet: u8) -> bool
    ensures { result ≡ digit octet }
{
    b'0' <= octet && octet <= b'9'
}

// `value` with the digit `octet` appended, at most the greatest number of 64 bits.
fn with_digit(value: u64, octet: u8) -> u64
    requires { (48 ≤ octet) × (octet ≤ 57) }
    ensures { result ≡ min (value * 10 + (octet - 48)) word_most }
{
    value
        .saturating_mul(10)
        .saturating_add((octet - b'0') as u64)
}

// Reads the digits from offset `at` on. If there are none, the end is `at` and the value 0.
pub fn number_at(s: &[u8], at: usize) -> Number
    ensures value { result ≡ number_at at s.now }
    ensures back { ReadsBack }
{
    let mut value = 0;
    for end in at..s.len() {
        if !is_digit(s[end]) {
            return Number { end, value };
        }
        value = with_digit(value, s[end]);
    }
    Number {
        end: at.max(s.len()),
        value,
    }
}
