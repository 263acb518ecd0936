// Writes the lines of the report into the caller's buffer. A public function writes its whole line, or nothing if there is no room for
// all of it, and returns the length of the line. A private function writes a part of a line, for which there is room, from offset `at`
// on and returns the offset after it; its caller names that offset after the field that goes there. It writes straight into the caller's
// buffer, since a report has a line for each arrival: in a `writing::Text` every octet would be written twice. `writing` also stands on the
// definition of a late time here.
#![tactic(auto)]

ghost use Rattle.std.specs.Prelude.{[], ◌∷◌, ◌++◌, ◌+◌, ◌≤◌, ◌<◌, length};
ghost use Rattle.decimal.specs.Decimal.{decimal_of};
ghost use Rattle.rfc4737.specs.declared.Answer.TheVariants.{Duplicate, InOrder, Reordered};
ghost use Rattle.listing.specs.Lines.{number, sign, late_time, line, answer_fields, header_line, record_line, end_line, refused_line, LinePut};
ghost use Rattle.listing.specs.Private.Written.{PartWritten, pair, four};

use rfc4737::judge::ARRIVALS_MOST;
use rfc4737::numbering::amount;
use rfc4737::{Answer, Counts, DuplicateFigures, InOrderFigures, LateTime, ReorderedFigures};

// The octet between two fields.
const SPACE: u8 = b' ';

// The octet at the end of a line.
const LINE_FEED: u8 = b'\n';

// The octet in front of the amount of a late time that is before.
const MINUS: u8 = b'-';

// The greatest length of a line, whatever its figures: `late`, six numbers of 32 bits, a time of 64 bits, an octet after each of these
// eight fields, and a minus.
pub const LINE: usize = 93;

// The octets that suffice for any listing: 64 for each of 4,096 records. The longest line of a record has 61. The rest holds the first
// line, of at most 24, and the last, of at most 38.
pub const LISTING_OCTETS: usize = 64 * ARRIVALS_MOST as usize;

// Writes a word and the octet after it.
fn write_word(out: &mut [u8], at: usize, word: &[u8], after: u8) -> usize
    requires { at + (length word.now + 1) ≤ length out.old }
    ensures { PartWritten at (length word.now + 1) result (word.now ++ (after ∷ []))
        out.old out.new }
{
    octets::put_octets(out, at, word);
    let end = at + word.len();
    out[end] = after;
    end + 1
}

// Writes the digits of a number and the octet after them.
fn write_digits(out: &mut [u8], at: usize, v: u64, after: u8) -> usize
    requires { at + (length (decimal_of v) + 1) ≤ length out.old }
    ensures { PartWritten at (length (decimal_of v) + 1) result (decimal_of v ++ (after ∷ [])) out.old out.new }
{
    let end = at + decimal::put_decimal(out, at, v);
    out[end] = after;
    end + 1
}

// Writes a digit.
fn write_digit(out: &mut [u8], at: usize, v: u32) -> usize
    requires { (at + 1 ≤ length out.old) × (v < 10) }
    ensures { PartWritten at 1 result ((48 + v) ∷ []) out.old out.new }
{
    out[at] = (48 + v) as u8;
    at + 1
}

// Writes the two digits of a number below 100, the first of which may be 0.
fn write_pair(out: &mut [u8], at: usize, v: u32) -> usize
    requires { (at + 2 ≤ length out.old) × (v < 100) }
    ensures { PartWritten at 2 result (pair v) out.old out.new }
{
    let second = write_digit(out, at, v / 10);
    write_digit(out, second, v % 10)
}

// Writes the four digits of a number below 10,000, the first of which may be 0.
fn write_four(out: &mut [u8], at: usize, v: u32) -> usize
    requires { (at + 4 ≤ length out.old) × (v < 10000) }
    ensures { PartWritten at 4 result (four v) out.old out.new }
{
    let half = write_pair(out, at, v / 100);
    write_pair(out, half, v % 100)
}

// Writes a number below 10,000.
fn write_up_to_four(out: &mut [u8], at: usize, v: u32) -> usize
    requires { (at + 4 ≤ length out.old) × (v < 10000) }
    ensures { PartWritten at 4 result (number v) out.old out.new }
{
    if v < 10 {
        return write_digit(out, at, v);
    }
    if v < 100 {
        return write_pair(out, at, v);
    }
    if v < 1000 {
        let rest = write_digit(out, at, v / 100);
        return write_pair(out, rest, v % 100);
    }
    write_four(out, at, v)
}

// Writes a number of 32 bits, four digits at a time.
fn write_up_to_ten(out: &mut [u8], at: usize, v: u32) -> usize
    requires { at + 10 ≤ length out.old }
    ensures { PartWritten at 10 result (number v) out.old out.new }
{
    if v < 10000 {
        return write_up_to_four(out, at, v);
    }
    if v < 100000000 {
        let low = write_up_to_four(out, at, v / 10000);
        return write_four(out, low, v % 10000);
    }
    let middle = write_up_to_four(out, at, v / 100000000);
    let low = write_four(out, middle, v / 10000 % 10000);
    write_four(out, low, v % 10000)
}

// Writes a number and the octet after it.
fn write_number(out: &mut [u8], at: usize, n: u32, after: u8) -> usize
    requires { at + 11 ≤ length out.old }
    ensures { PartWritten at 11 result (number n ++ (after ∷ [])) out.old out.new }
{
    let end = write_up_to_ten(out, at, n);
    out[end] = after;
    end + 1
}

// Writes the minus of a late time, if it has one.
fn write_sign(out: &mut [u8], at: usize, late: LateTime) -> usize
    requires { at + 1 ≤ length out.old }
    ensures { PartWritten at 1 result (sign late) out.old out.new }
{
    let LateTime::Before(t) = late else {
        return at;
    };
    if 0 < t {
        out[at] = MINUS;
        return at + 1;
    }
    at
}

// Writes a late time and the octet after it. `writing::Text` has its own: that crate lies above this one, and its text is not a caller's
// buffer.
fn write_late_time(out: &mut [u8], at: usize, late: LateTime, after: u8) -> usize
    requires { at + 22 ≤ length out.old }
    ensures { PartWritten at 22 result (late_time late ++ (after ∷ [])) out.old out.new }
{
    let digits = write_sign(out, at, late);
    write_digits(out, digits, amount(late), after)
}

// Writes the first line.
fn write_header(out: &mut [u8], at: usize, k: u32, a: u32) -> usize
    requires { at + 36 ≤ length out.old }
    ensures { PartWritten at 36 result (header_line k a) out.old out.new }
{
    let sent = write_word(out, at, b"sent", SPACE);
    let word = write_number(out, sent, k, SPACE);
    let arrivals = write_word(out, word, b"arrivals", SPACE);
    write_number(out, arrivals, a, LINE_FEED)
}

// Puts the first line: K and the number of arrivals. `put_end` and `put_refused` are like it with another line; each is a public call with
// its own contract, and one function for the three would take a closure whose contract is longer than these three lines.
pub fn put_header(out: &mut [u8], at: usize, k: u32, a: u32) -> usize
    ensures { LinePut at (header_line k a) out.old result out.new }
{
    let mut text = [0u8; LINE];
    let n = write_header(&mut text, 0, k, a);
    octets::put_octets(out, at, &text[..n]);
    n
}

// Writes the answer of a duplicate.
fn write_duplicate(out: &mut [u8], at: usize, figures: DuplicateFigures) -> usize
    requires { at + 16 ≤ length out.old }
    ensures { PartWritten at 16 result (line (answer_fields (Duplicate figures))) out.old out.new }
{
    let first = write_word(out, at, b"copy", SPACE);
    write_number(out, first, figures.first, LINE_FEED)
}

// Writes the answer of an in-order packet.
fn write_in_order(out: &mut [u8], at: usize, figures: InOrderFigures) -> usize
    requires { at + 25 ≤ length out.old }
    ensures { PartWritten at 25 result (line (answer_fields (InOrder figures))) out.old out.new }
{
    let position = write_word(out, at, b"in", SPACE);
    let jump = write_number(out, position, figures.position, SPACE);
    write_number(out, jump, figures.jump, LINE_FEED)
}

// Writes the answer of a reordered packet.
fn write_reordered(out: &mut [u8], at: usize, figures: ReorderedFigures) -> usize
    requires { at + 71 ≤ length out.old }
    ensures { PartWritten at 71 result (line (answer_fields (Reordered figures))) out.old out.new }
{
    let position = write_word(out, at, b"late", SPACE);
    let extent = write_number(out, position, figures.position, SPACE);
    let time = write_number(out, extent, figures.extent, SPACE);
    let late = figures.late;
    let offset = write_late_time(out, time, late, SPACE);
    let largest = write_number(out, offset, figures.offset, SPACE);
    write_number(out, largest, figures.largest, LINE_FEED)
}

// Writes an answer and the line feed after it.
fn write_answer(out: &mut [u8], at: usize, answer: Answer) -> usize
    requires { at + 71 ≤ length out.old }
    ensures { PartWritten at 71 result (line (answer_fields answer)) out.old out.new }
{
    match answer {
        Answer::Duplicate(f) => write_duplicate(out, at, f),
        Answer::InOrder(f) => write_in_order(out, at, f),
        Answer::Reordered(f) => write_reordered(out, at, f),
    }
}

// Writes a record's line.
fn write_record(out: &mut [u8], at: usize, record: u32, number: u32, answer: Answer) -> usize
    requires { at + 93 ≤ length out.old }
    ensures { PartWritten at 93 result (record_line «record» number answer) out.old out.new }
{
    let second = write_number(out, at, record, SPACE);
    let rest = write_number(out, second, number, SPACE);
    write_answer(out, rest, answer)
}

// Puts a record's line: the record, its number and its answer.
pub fn put_record(out: &mut [u8], at: usize, record: u32, number: u32, answer: Answer) -> usize
    ensures { LinePut at (record_line «record» number answer) out.old result out.new }
{
    if octets::has_room(out.len(), at, LINE) {
        return write_record(out, at, record, number, answer) - at;
    }
    let mut text = [0u8; LINE];
    let n = write_record(&mut text, 0, record, number, answer);
    octets::put_octets(out, at, &text[..n]);
    n
}

// Writes the last line.
fn write_end(out: &mut [u8], at: usize, counts: Counts) -> usize
    requires { at + 70 ≤ length out.old }
    ensures { PartWritten at 70 result (end_line counts) out.old out.new }
{
    let runs = counts.runs;
    let arrived = write_word(out, at, b"end", SPACE);
    let reordered = write_number(out, arrived, counts.arrived, SPACE);
    let duplicates = write_number(out, reordered, counts.reordered, SPACE);
    let closed = write_number(out, duplicates, counts.duplicates, SPACE);
    let squares = write_number(out, closed, runs.closed, SPACE);
    let current = write_number(out, squares, runs.squares, SPACE);
    write_number(out, current, runs.current, LINE_FEED)
}

// Puts the last line: L, reordered, duplicates, closed runs, sum of squares, open run.
pub fn put_end(out: &mut [u8], at: usize, counts: Counts) -> usize
    ensures { LinePut at (end_line counts) out.old result out.new }
{
    let mut text = [0u8; LINE];
    let n = write_end(&mut text, 0, counts);
    octets::put_octets(out, at, &text[..n]);
    n
}

// Writes the line of a refused input.
fn write_refused(out: &mut [u8], at: usize, refusal: u32) -> usize
    requires { at + 19 ≤ length out.old }
    ensures { PartWritten at 19 result (refused_line refusal) out.old out.new }
{
    let number = write_word(out, at, b"refused", SPACE);
    write_number(out, number, refusal, LINE_FEED)
}

// Puts the one line of a refused input.
pub fn put_refused(out: &mut [u8], at: usize, refusal: u32) -> usize
    ensures { LinePut at (refused_line refusal) out.old result out.new }
{
    let mut text = [0u8; LINE];
    let n = write_refused(&mut text, 0, refusal);
    octets::put_octets(out, at, &text[..n]);
    n
}
