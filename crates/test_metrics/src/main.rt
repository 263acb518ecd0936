// Runs the scope's cases on the figures of a sample, which are on standard input: each refusal of each call, the edges of record, n and
// room, and buffers of several sizes, with a line for each case; then the listings of P1 to P11, and of clocks that step. A line of the
// input has the kind of the case, its name, the text of its sample, and for
//   record: the record of which the answer and the gap are written;
//   n: the n of the degree of n-reordering;
//   octets: how many octets the listing is written into;
//   from: the number of records before the two whose rows are written;
//   steps: the least buffer size, the shift, and how many counts are written.
// For `all` each call's refusal is written, 0 for none, and its answer; for `listing` the listing.
#![tactic(auto)]

mod figures;
mod listings;

use cases::fields::{field, number_in};
use cases::print::write_word;
use cases::text::lines;
use figures::{Sizes, write_all, write_ratio, write_record, write_rows, write_steps};
use listings::{list, list_into};
use program::read_input;
use sample_text::{ROOM, sample_of};
use std::io;

// How many octets of cases are read at most.
const MOST: usize = 4096;

// Writes what a line asks of its sample.
fn write_case(rt: &impl Print, line: &[u8], file: &[u8]) -> io::Result<()> {
    let number = number_in::<u32>(line, 3);
    match line.first() {
        Some(b'a') => write_all(rt, file)?,
        Some(b'r') => write_record(rt, file, number)?,
        Some(b'n') => write_ratio(rt, file, number)?,
        Some(b'o') => list_into(rt, file, number as usize)?,
        Some(b'f') => write_rows(rt, file, number)?,
        Some(b's') => {
            let sizes = Sizes {
                low: number_in(line, 3),
                shift: number_in(line, 4),
                shown: number_in::<u64>(line, 5) as usize,
            };
            write_steps(rt, file, sizes)?
        }
        Some(b'l') => {
            write_word(rt, b"\n")?;
            return list(rt, file);
        }
        _ => {}
    }
    write_word(rt, b"\n")
}

// Runs the case of a line.
fn run(rt: &impl Print, line: &[u8]) -> io::Result<()> {
    let mut file = [0u8; ROOM];
    let octets = sample_of(field(line, 2), &mut file);
    write_word(rt, field(line, 1))?;
    write_case(rt, line, octets)
}

// Runs the cases of all lines.
fn main(rt: HostRuntime) -> io::Result<()> {
    let mut room = [0u8; MOST];
    for line in lines(read_input(&rt, &mut room)?) {
        run(&rt, line)?;
    }
    Ok(())
}
