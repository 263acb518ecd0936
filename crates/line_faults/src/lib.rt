// Explains why a line of a text log is refused with 14: what stands where the form breaks. The public call is total. The private
// functions take the line and an offset, and no struct of both, since the definitions that they name take the line and the offset.
#![tactic(auto)]

ghost use Rattle.std.specs.Prelude.{◌≡◌};
ghost use Rattle.line_faults.specs.Cases.{FaultsAsGiven};
ghost use Rattle.line_faults.specs.Faults.{has_byte_order_mark, stray_at, start_fault, end_fault, decimals_fault, time_fault, line_fault};

use decimal::reading::number_at;
use textlog::reading::{DECIMALS_MOST, NUMBER_MOST, is_decimal_mark, octet_at};

// The first fault of a line. `Formed` is a line of the form whose number fits; if it is refused with 14, its time is over the range. It is
// a case here, and not the `None` of an `Option`, since the definition `line_fault` and the table of `FaultsAsGiven` name it.
#[derive(Clone, Copy)]
pub enum LineFault {
    ByteOrderMark,
    EmptyLine,
    NoDigit,
    CarriageReturn,
    NoLineFeed,
    NumberOver,
    ManyDecimals,
    Formed,
    Other,
}

// The octet of a carriage return.
const CARRIAGE_RETURN: u8 = b'\r';

// Whether a line begins with the byte order mark of UTF-8: the octets EF, BB, BF.
#[tactic(auto, unfolding(crate::specs::Faults::has_byte_order_mark))]
fn has_byte_order_mark(line: &[u8]) -> bool
    ensures { result ≡ has_byte_order_mark line.now }
{
    line.starts_with(b"\xEF\xBB\xBF")
}

// The fault of a line whose form breaks at offset `at`.
#[tactic(auto, unfolding(crate::specs::Faults::stray_at))]
fn stray_at(line: &[u8], at: usize) -> LineFault
    ensures { result ≡ stray_at line.now at }
{
    if line.len() <= at {
        return LineFault::NoLineFeed;
    }
    if line[at] == CARRIAGE_RETURN {
        return LineFault::CarriageReturn;
    }
    LineFault::Other
}

// The fault of a line that begins with no digit.
#[tactic(auto, unfolding(crate::specs::Faults::start_fault))]
fn start_fault(line: &[u8]) -> LineFault
    ensures { result ≡ start_fault line.now }
{
    if has_byte_order_mark(line) {
        return LineFault::ByteOrderMark;
    }
    let octet = octet_at(line, 0);
    if octet == b'\n' {
        return LineFault::EmptyLine;
    }
    if octet == CARRIAGE_RETURN {
        return LineFault::CarriageReturn;
    }
    LineFault::NoDigit
}

// The fault of a line whose time ends before offset `at`, where the line feed must stand.
#[tactic(auto, unfolding(crate::specs::Faults::end_fault))]
fn end_fault(line: &[u8], at: usize) -> LineFault
    ensures { result ≡ end_fault line.now at }
{
    if octet_at(line, at) == b'\n' {
        return LineFault::Formed;
    }
    stray_at(line, at)
}

// The fault of a line whose decimals begin at offset `at`.
#[tactic(auto, unfolding(crate::specs::Faults::decimals_up_to))]
fn decimals_fault(line: &[u8], at: usize) -> LineFault
    ensures { result ≡ decimals_fault line.now at }
{
    let end = number_at(line, at).end;
    let count = end - at;
    if count == 0 {
        return stray_at(line, end);
    }
    if DECIMALS_MOST < count {
        return LineFault::ManyDecimals;
    }
    end_fault(line, end)
}

// The fault of a line whose time begins at offset `at`.
#[tactic(auto, unfolding(crate::specs::Faults::time_up_to))]
fn time_fault(line: &[u8], at: usize) -> LineFault
    ensures { result ≡ time_fault line.now at }
{
    let end = number_at(line, at).end;
    if end == at {
        return stray_at(line, end);
    }
    if line.len() <= end {
        return LineFault::NoLineFeed;
    }
    if is_decimal_mark(line[end]) {
        return decimals_fault(line, end + 1);
    }
    end_fault(line, end)
}

// The fault of a line, given with its line feed if it has one. Cost: O(octets).
#[tactic(auto, using(crate::proofs::Cases::faults_as_given), unfolding(crate::specs::Faults::number_fault))]
pub fn line_fault(line: &[u8]) -> LineFault
    ensures value { result ≡ line_fault line.now }
    ensures cases { FaultsAsGiven }
{
    let number = number_at(line, 0);
    let end = number.end;
    if end == 0 {
        return start_fault(line);
    }
    if NUMBER_MOST < number.value {
        return LineFault::NumberOver;
    }
    if line.len() <= end {
        return LineFault::NoLineFeed;
    }
    if line[end] != b';' {
        return stray_at(line, end);
    }
    time_fault(line, end + 1)
}
