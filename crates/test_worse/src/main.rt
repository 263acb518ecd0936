// Runs the cases of two samples, which stand on standard input. They try ratios that are greater, equal and undefined, empty labels, and
// each refusal of either sample. A line of the input has the case's name and the texts of the two samples (crate `sample_text`). A line is
// written for each case: the refusal, which sample is the worse one, and its label.
#![tactic(auto)]

use cases::fields::field;
use cases::print::{write_number, write_word};
use cases::text::{INPUT_OCTETS, lines};
use program::read_input;
use sample_text::{ROOM, sample_of};
use std::io;
use worse::{Link, compare, worse};

// Compares two samples, and prints the refusal, which is the worse one, and its label.
fn write_comparison(rt: &impl Print, first: &[u8], second: &[u8]) -> io::Result<()> {
    let comparison = compare(first, second);
    write_number(rt, b": refusal ", comparison.refusal)?;
    match comparison.link {
        Link::Refused => write_word(rt, b", none [")?,
        Link::First => write_word(rt, b", first [")?,
        Link::Second => write_word(rt, b", second [")?,
    }
    write_word(rt, worse(first, second))?;
    write_word(rt, b"]\n")
}

// Runs the case of a line.
fn run(rt: &impl Print, line: &[u8]) -> io::Result<()> {
    let mut a = [0u8; ROOM];
    let mut b = [0u8; ROOM];
    let first = sample_of(field(line, 1), &mut a);
    let second = sample_of(field(line, 2), &mut b);
    write_word(rt, field(line, 0))?;
    write_comparison(rt, first, second)
}

// Runs the cases of all lines.
fn main(rt: HostRuntime) -> io::Result<()> {
    let mut room = [0u8; INPUT_OCTETS];
    for line in lines(read_input(&rt, &mut room)?) {
        run(&rt, line)?;
    }
    Ok(())
}
