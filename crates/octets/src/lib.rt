// Big-endian numbers of up to 8 octets, read and written by one rule for every width, and octets copied into the caller's buffer.
// Each public function is total: it takes any offset and any width.
#![tactic(auto)]

ghost use Rattle.std.specs.Prelude.{◌≡◌, ◌+◌, ◌≤◌, min, leb, length};
ghost use Rattle.octets.specs.BigEndian.{be_value, be_octets};
ghost use Rattle.octets.specs.Memory.{part, put};
ghost use Rattle.octets.specs.RoundTrip.{ReadBack};

// The greatest width of a number, in octets: that of a u64.
const MAX_WIDTH: usize = 8;

// The width, cut to `MAX_WIDTH`.
fn octets_of(width: usize) -> usize
    ensures { result ≡ min width 8 }
{
    if width < MAX_WIDTH { width } else { MAX_WIDTH }
}

// Whether n octets from offset `at` on lie within the first `len`. The sum `at + n`, which may wrap, is never computed.
pub fn has_room(len: usize, at: usize, n: usize) -> bool
    ensures { result ≡ leb (at + n) len }
{
    n <= len && at <= len - n
}

// The value of the n octets from offset `at` on. By an index and not over the part: over an iterator, or with the width by `min`, the
// compiler reads a time of 8 octets by single octets, which doubles the cost of a file's check.
fn value_of(s: &[u8], at: usize, n: usize) -> u64
    requires { (n ≤ 8) × (at + n ≤ length s.now) }
    ensures { result ≡ be_value (part at n s.now) }
{
    let mut v: u64 = 0;
    let mut i: usize = 0;
    while i < n {
        let octet = s[at + i] as u64;
        v = v * 256 + octet;
        i += 1;
    }
    v
}

// Reads the number at offset `at`: the value of `width` octets, at most 8 of them. If `s` ends before that, the octets up to its end are
// read.
pub fn number_at(s: &[u8], at: usize, width: usize) -> u64
    ensures { result ≡ be_value (part at (min width 8) s.now) }
{
    let n = octets_of(width);
    if s.len() <= at {
        return 0;
    }
    let left = s.len() - at;
    if n <= left {
        return value_of(s, at, n);
    }
    value_of(s, at, left)
}

// Writes v over all of `out`, the last octet first.
fn write_number(out: &mut [u8], v: u64)
    ensures { out.new ≡ be_octets (length out.old) v }
{
    let mut rest = v;
    // By index: of what is written through `iter_mut().rev()` no contract speaks.
    for i in (0..out.len()).rev() {
        out[i] = (rest % 256) as u8;
        rest /= 256;
    }
}

// Writes v at offset `at` as `width` octets, at most 8 of them. Writes nothing if there is no room for all of them.
pub fn put_number(out: &mut [u8], at: usize, width: usize, v: u64)
    ensures out_after { out.new ≡ put at (be_octets (min width 8) v) out.old }
    ensures back { ReadBack }
{
    let n = width.min(MAX_WIDTH);
    if has_room(out.len(), at, n) {
        write_number(&mut out[at..at + n], v);
    }
}

// Copies s to `out` from offset `at` on. Writes nothing if there is no room for all of it.
pub fn put_octets(out: &mut [u8], at: usize, s: &[u8])
    ensures { out.new ≡ put at s.now out.old }
{
    if has_room(out.len(), at, s.len()) {
        // `copy_from_slice` tests whether both parts overlap, which costs a third more for the short texts that are written here.
        for (i, octet) in s.iter().enumerate() {
            out[at + i] = *octet;
        }
    }
}
