// Says in words why an input is refused: the words of the refusal or, of a malformed line, what is wrong with it.
use line_faults::{LineFault, line_fault};
use program::{write_number, write_word, write_words};
use rfc4737::refusal::Refusal;
use std::io;
use text_lines::line_of;

// Writes what is wrong with a line.
fn write_fault(rt: &impl Print, fault: LineFault) -> io::Result<()> {
    match fault {
        LineFault::ByteOrderMark => write_word(rt, b"it begins with a byte order mark"),
        LineFault::EmptyLine => write_word(rt, b"it is empty"),
        LineFault::NoDigit => write_word(rt, b"it begins with no digit, as a header does"),
        LineFault::CarriageReturn => write_word(
            rt,
            b"a carriage return stands in it, as in a Windows file",
        ),
        LineFault::NoLineFeed => write_word(rt, b"no line feed ends it"),
        LineFault::NumberOver => write_word(rt, b"its sequence number is over 4294967295"),
        LineFault::ManyDecimals => write_word(rt, b"its time has more than three decimals"),
        LineFault::Formed => write_word(rt, b"its time is over 18446744073709551.615 milliseconds"),
        LineFault::Other => write_word(
            rt,
            b"it is not a sequence number, a semicolon and a time in milliseconds",
        ),
    }
}

// Writes why line `n` of a log is refused. Lines count from 1.
fn write_line_refusal(rt: &impl Print, refusal: u32, log: &[u8], n: u32) -> io::Result<()> {
    write_word(rt, b" at line ")?;
    write_number(rt, n as u64)?;
    write_word(rt, b": ")?;
    if refusal != Refusal::LineMalformed.number() {
        return write_words(rt, refusal);
    }
    if 0 < n {
        write_fault(rt, line_fault(line_of(log, n as usize - 1)))?;
    }
    Ok(())
}

// Writes the refusal of an input in words. `line` is the first refused line, if the refusal is about a line.
pub(crate) fn write_refusal(
    rt: &impl Print,
    refusal: u32,
    input: &[u8],
    line: Option<u32>,
) -> io::Result<()> {
    write_word(rt, b"refused ")?;
    write_number(rt, refusal as u64)?;
    match line {
        Some(line) => write_line_refusal(rt, refusal, input, line)?,
        None => {
            write_word(rt, b": ")?;
            write_words(rt, refusal)?;
        }
    }
    write_word(rt, b"\n")
}
