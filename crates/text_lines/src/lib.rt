// Finds line n of a text. The public calls are total.
#![tactic(auto)]

ghost use Rattle.std.specs.Prelude.{◌≡◌, ◌+◌, ◌≤◌, length, drop};
ghost use Rattle.text_lines.specs.Line.{line_of, line_start, line_part, LineThere, FirstLineEnds};

// A part of a text: the offset of its first octet, and the number of its octets, which is how C receives a line. `line_of` returns the part
// itself.
#[derive(Clone, Copy)]
pub struct LinePart {
    pub start: usize,
    pub length: usize,
}

// The offset after the line that begins at `at`: after its line feed, or the end of the text.
fn line_end(text: &[u8], at: usize) -> usize
    requires { at ≤ length text.now }
    ensures { FirstLineEnds text.now at result }
{
    for end in at..text.len() {
        if text[end] == b'\n' {
            return end + 1;
        }
    }
    text.len()
}

// The offset of line n, counted from 0; the end of the text if there is none.
fn line_start(text: &[u8], n: usize) -> usize
    ensures { (result ≤ length text.now) × (line_of n text.now ≡ line_of 0 (drop result text.now))
        × (line_start n text.now ≡ result) }
{
    let mut at = 0;
    for _ in 0..n {
        if text.len() <= at {
            return at;
        }
        at = line_end(text, at);
    }
    at
}

// Returns the offset and the length of line n of a text, counted from 0, with the line feed that ends it. If there is no line n, returns
// the end of the text and 0. Cost: O(octets up to its end).
pub fn line_part(text: &[u8], n: usize) -> LinePart
    ensures value { result ≡ line_part n text.now }
    ensures there { LineThere n text.now }
{
    let start = line_start(text, n);
    let end = line_end(text, start);
    LinePart {
        start,
        length: end - start,
    }
}

// Returns line n of a text as a part of the text: the part that `line_part` tells.
pub fn line_of(text: &[u8], n: usize) -> &[u8]
    ensures { (result.now ≡ line_of n text.now)
        × (result.ref_ptr ≡ (text.entry.ref_ptr.0, line_start n text.now + text.entry.ref_ptr.1)) }
{
    let part = line_part(text, n);
    &text[part.start..part.start + part.length]
}
