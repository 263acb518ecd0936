// Runs the cases of text logs, which stand on standard input. They try lines of the form and others, ranges, the order of the refusals,
// short lists, long logs, and the writer. A line is written for each case, with what both lists hold after it. Before a call they are
// filled with 77 and 99, and the output with points. A line of the input begins with the kind of case and its name; then
//   read, or short and the bits of its numbers: K, the log, and the lengths of the lists of numbers and times;
//   lines: the length of each list, how many lines of `n;2` are read, the index of the line that is replaced, and its replacement;
//   digits: the digit of which there are over a million, the octets before them, the offset of the octets after them, these, and
//   where the log ends;
//   write: K, the numbers, the times, and the length of the output;
//   many: how many arrivals are written, and read again.
#![tactic(auto)]

mod fields;
mod lists;
mod long;
mod short;
mod writing;

use cases::text::{INPUT_OCTETS, lines};
use program::read_input;
use std::io;

// Runs the case of a line.
fn run(rt: &impl Print, line: &[u8]) -> io::Result<()> {
    match line.first() {
        Some(b'r' | b's') => short::run(rt, line),
        Some(b'l') => long::run_lines(rt, line),
        Some(b'd') => long::run_digits(rt, line),
        Some(b'w') => writing::run(rt, line),
        Some(b'm') => writing::run_many(rt, line),
        _ => Ok(()),
    }
}

// Runs the cases of all lines.
fn main(rt: HostRuntime) -> io::Result<()> {
    let mut room = [0u8; INPUT_OCTETS];
    for line in lines(read_input(&rt, &mut room)?) {
        run(&rt, line)?;
    }
    Ok(())
}
