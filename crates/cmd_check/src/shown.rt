// Shows a line: printable octets as they are, others as a backslash, an x and two hexadecimal digits.
use std::io;

// The greatest number of octets of a line that are shown.
const MAX_SHOWN: usize = 120;

// Writes an octet visibly.
fn write_octet(rt: &impl Print, octet: u8) -> io::Result<()> {
    match octet {
        b' '..=b'~' => rt.write_all(&[octet]),
        _ => print!(rt; "\\x{octet:02X}"),
    }
}

// Writes octets visibly.
fn write_octets(rt: &impl Print, octets: &[u8]) -> io::Result<()> {
    for octet in octets {
        write_octet(rt, *octet)?;
    }
    Ok(())
}

// Writes the text of a line, cut if it is long. If the line has not `ended`, says that it has no line feed.
fn write_text(rt: &impl Print, text: &[u8], ended: bool) -> io::Result<()> {
    if MAX_SHOWN < text.len() {
        write_octets(rt, &text[0..MAX_SHOWN])?;
        return rt.print(" ..\n");
    }
    write_octets(rt, text)?;
    if ended {
        rt.print("\n")
    } else {
        rt.print(" (no line feed)\n")
    }
}

// Writes `words` and a line, or that there is no such line.
pub(crate) fn write_line(rt: &impl Print, words: &str, line: &[u8]) -> io::Result<()> {
    rt.print(words)?;
    match line {
        [] => rt.print("no such line\n"),
        [text @ .., b'\n'] => write_text(rt, text, true),
        _ => write_text(rt, line, false),
    }
}
