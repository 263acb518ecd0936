// Runs the scope's cases of the sample file, which stand on standard input. They try the edges of the label, its octets, K, A, numbers,
// times and lengths, and each refusal of each call. The caller's lists are filled with a pattern before a call and compared after it. A
// line is written for each case. A line of the input begins with the kind of case and its name; then
//   file: the numbers of label octets, sizes and arrivals of a file; what is changed in it (offset, octets, value; up to four times);
//   and how many octets of it are read, if not all;
//   into: the lengths of the lists of sizes, numbers and times for the file of five arrivals;
//   lists: the numbers of label octets, sizes, numbers and times that a file is written from;
//   octet: the numbers of label octets and sizes, the offset of one octet in the label, and that octet;
//   small: the number of sizes, the numbers, the times, and the length of the output.
#![tactic(auto)]

mod build;
mod files;
mod memory;
mod writer;

use cases::text::{INPUT_OCTETS, lines};
use program::read_input;
use std::io;

// Runs the case of a line.
fn run(rt: &impl Print, line: &[u8]) -> io::Result<()> {
    match line.first() {
        Some(b'f') => files::run(rt, line),
        Some(b'i') => files::run_into(rt, line),
        _ => writer::run(rt, line),
    }
}

// Runs the cases of all lines.
fn main(rt: HostRuntime) -> io::Result<()> {
    let mut room = [0u8; INPUT_OCTETS];
    for line in lines(read_input(&rt, &mut room)?) {
        run(&rt, line)?;
    }
    Ok(())
}
