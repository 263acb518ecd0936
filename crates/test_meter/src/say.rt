// The lines of which one is written, and that leave the meter as it is.
use cases::fields::{field, number_in};
use cases::print::{write_either, write_number, write_word};
use meter::Meter;
use receiver_text::write_outcome;
use std::io;

// Writes, where a call is refused, whether the meter came back the same.
fn write_same(rt: &impl Print, refusal: u32, before: Meter, after: Meter) -> io::Result<()> {
    if refusal != 0 {
        write_either(rt, before == after, b", meter equal", b", meter CHANGED")?;
    }
    Ok(())
}

// The arrival of a line: writes what is said of it.
fn arrives(rt: &impl Print, m: Meter, line: &[u8]) -> io::Result<()> {
    let s = m.step(number_in(line, 2), number_in(line, 3), number_in(line, 4));
    write_outcome(rt, s.outcome)?;
    write_same(rt, s.outcome.refusal, m, s.state)
}

// The fresh start of a line: writes the refusal.
fn starts(rt: &impl Print, m: Meter, line: &[u8]) -> io::Result<()> {
    let s = m.start(number_in(line, 2), number_in(line, 3));
    write_number(rt, b"refused ", s.refusal)?;
    write_same(rt, s.refusal, m, s.state)
}

// Writes how many jumps the streams keep.
fn kept(rt: &impl Print, m: Meter) -> io::Result<()> {
    write_number(rt, b"stream 1 keeps ", m.first.stream.kept)?;
    write_number(rt, b", stream 2 keeps ", m.second.stream.kept)
}

// Writes what comes of a case.
fn say_case(rt: &impl Print, m: Meter, line: &[u8]) -> io::Result<()> {
    write_word(rt, b": ")?;
    match line.first() {
        Some(b'k') => kept(rt, m),
        Some(b's') => starts(rt, m, line),
        _ => arrives(rt, m, line),
    }
}

// Writes what a line says: the words of a line `words`, else the case's name and what comes of it.
pub(crate) fn say(rt: &impl Print, m: Meter, line: &[u8]) -> io::Result<()> {
    write_word(rt, field(line, 1))?;
    if line.first() != Some(&b'w') {
        say_case(rt, m, line)?;
    }
    write_word(rt, b"\n")
}
