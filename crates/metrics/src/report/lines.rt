// The lines of a sample's listing, one by one: each call returns the line's length or, where the line differs from a text, how many octets
// agree. To write the listing, each line goes into the caller's buffer after the one before it. To
// compare the listing with a text, each line goes to the buffer's start, and from there is compared with the text at the offset that the
// listing has reached. Whether lines are compared is said beside the text. An `Option` of the text would be no plainer: each contract would
// have to say that its length is below 2^64, which is known of a slice alone.
ghost use Rattle.std.specs.Prelude.{◌≡◌, true, false, cond, ◌≤◌, length, take, drop};
ghost use Rattle.listing.specs.Lines.{header_line, record_line, end_line};
ghost use Rattle.listing.specs.DigitBounds.{AnswerWithin, CountsWithin, FourDigits};
ghost use Rattle.metrics.specs.Private.Taken.{Agreed, LineRoom, Taken, part_of};

use crate::report::line_agreement::compare_line;
use rfc4737::{Answer, Counts};

// The offset at which a line is written: its own or, if lines are compared, 0.
fn put_place(comparing: bool, at: usize) -> usize
    ensures { result ≡ cond comparing 0 at }
{
    if comparing {
        return 0;
    }
    at
}

// The result for a line of n octets that has been written: how far it agrees with the text, if lines are compared; else all of it.
fn line_part(out: &[u8], text: &[u8], comparing: bool, at: usize, n: usize) -> Result<usize, usize>
    requires { comparing ≡ true → (n ≤ length out.now) × (at ≤ length text.now) }
    ensures { (comparing ≡ false → part_of result ≡ record { octets = n; whole = true })
        × (comparing ≡ true → Agreed (take n out.now) (drop at text.now) (part_of result)) }
{
    if comparing {
        return compare_line(&out[..n], text, at);
    }
    Ok(n)
}

// Takes the first line.
pub(crate) fn take_header(
    out: &mut [u8],
    text: &[u8],
    comparing: bool,
    k: u32,
    a: u32,
) -> Result<usize, usize>
    requires { LineRoom comparing text.now 0 out.old × FourDigits k × FourDigits a }
    ensures { Taken comparing (header_line k a) text.now 0 out.old out.new (part_of result) }
{
    let n = listing::put_header(out, 0, k, a);
    line_part(out, text, comparing, 0, n)
}

// Takes the line of record i.
pub(crate) fn take_record(
    out: &mut [u8],
    text: &[u8],
    comparing: bool,
    at: usize,
    i: u32,
    number: u32,
    answer: Answer,
) -> Result<usize, usize>
    requires { LineRoom comparing text.now at out.old × FourDigits i × FourDigits number × AnswerWithin answer }
    ensures { Taken comparing (record_line i number answer) text.now at out.old out.new (part_of result) }
{
    let n = listing::put_record(out, put_place(comparing, at), i, number, answer);
    line_part(out, text, comparing, at, n)
}

// Takes the last line.
pub(crate) fn take_end(
    out: &mut [u8],
    text: &[u8],
    comparing: bool,
    at: usize,
    c: Counts,
) -> Result<usize, usize>
    requires { LineRoom comparing text.now at out.old × CountsWithin c }
    ensures { Taken comparing (end_line c) text.now at out.old out.new (part_of result) }
{
    let n = listing::put_end(out, put_place(comparing, at), c);
    line_part(out, text, comparing, at, n)
}
