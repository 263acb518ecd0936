// Runs the cases of the total of disorder, which stand on standard input: P1 to P11 and others. A line of the input has the case's name and
// the text of its sample (crate `sample_text`). A line is written for each case: the refusal and the total.
#![tactic(auto)]

use cases::fields::field;
use cases::print::{write_number, write_word};
use cases::text::{INPUT_OCTETS, lines};
use program::read_input;
use sample_text::{ROOM, sample_of};
use std::io;

// Runs the case of a line.
fn run(rt: &impl Print, line: &[u8]) -> io::Result<()> {
    let mut file = [0u8; ROOM];
    let answer = disorder::total(sample_of(field(line, 1), &mut file));
    write_word(rt, field(line, 0))?;
    write_number(rt, b": refusal ", answer.refusal)?;
    write_number(rt, b", total ", answer.total)?;
    write_word(rt, b"\n")
}

// Runs the cases of all lines.
fn main(rt: HostRuntime) -> io::Result<()> {
    let mut room = [0u8; INPUT_OCTETS];
    for line in lines(read_input(&rt, &mut room)?) {
        run(&rt, line)?;
    }
    Ok(())
}
