// Runs the cases of OWAMP packet records, which stand on standard input. They try lost records and arrivals, the order of the receive
// times and of the refusals, lengths that are no multiple of 25, many records, and the writer. A line is written for each case, with
// what both lists hold after it. Before a call they are filled with 77 and 99, and the output with 46. A line of the input begins with the
// kind of case and its name; then
//   few: K, how many octets are read, and of each record the sequence number, the seconds and the fraction of its receive time;
//   many: the length of each list, the order of the times (module `many`), how many arrivals are read with a lost record after each,
//   and the sequence number of arrival 4,096;
//   write: the numbers and the times of a sample's arrivals, how many octets of its file are read, and the length of the output;
//   all: nothing more; as many arrivals as a sample may have are written, and read again.
#![tactic(auto)]

mod few;
mod lists;
mod many;
mod writing;

use cases::text::{INPUT_OCTETS, lines};
use program::read_input;
use std::io;

// What the octets of a record hold that are not read: all but the four of the sequence number, at offset 0, and the eight of the receive
// time, at offset 16 (RFC 4656, section 3.9).
pub(crate) const OTHER: u8 = 9;

// Runs the case of a line.
fn run(rt: &impl Print, line: &[u8]) -> io::Result<()> {
    match line.first() {
        Some(b'f') => few::run(rt, line),
        Some(b'm') => many::run(rt, line),
        _ => writing::run(rt, line),
    }
}

// Runs the cases of all lines.
fn main(rt: HostRuntime) -> io::Result<()> {
    let mut room = [0u8; INPUT_OCTETS];
    for line in lines(read_input(&rt, &mut room)?) {
        run(&rt, line)?;
    }
    Ok(())
}
