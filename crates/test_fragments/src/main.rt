// Runs the cases of fragments, which stand on standard input. A line of the input has the lengths of the lists of flags and of usable
// arrivals, at most 6; the case's name; K; the lists of numbers, times, lengths, more-fragments flags and offsets; and, for more numbers
// than the line lists, their count: those that are not listed are 6. A line is written for each case, with what both lists hold after it.
// Before a call they are filled with 9.
#![tactic(auto)]

use cases::TOO_MANY;
use cases::fields::{field, number_in};
use cases::lists::{fill, filled, first};
use cases::print::{write_list, write_number, write_word};
use cases::text::{INPUT_OCTETS, lines, number};
use fragments::order;
use program::read_input;
use std::io;

// The number of numbers: `given`, or, if that is 0, the length `listed` of the list.
fn numbers_for(listed: usize, given: u32) -> usize {
    if given == 0 {
        return listed;
    }
    given as usize
}

// Prints a case's name, the refusal, and both lists after the call.
fn write_lists(
    rt: &impl Print,
    name: &[u8],
    refusal: u32,
    flags: &[u8],
    usable: &[u8],
) -> io::Result<()> {
    write_word(rt, name)?;
    write_number(rt, b": refused ", refusal)?;
    write_list(rt, b"; flags", flags)?;
    write_list(rt, b"; usable", usable)?;
    write_word(rt, b"\n")
}

// Runs the case of a line with these two lists.
fn run_into(rt: &impl Print, line: &[u8], flags: &mut [u8], usable: &mut [u8]) -> io::Result<()> {
    let mut numbers = [6u32; TOO_MANY];
    let mut times = [0u64; 6];
    let mut lengths = [0u16; 6];
    let mut mores = [0u8; 6];
    let mut offsets = [0u16; 6];
    let n = fill(field(line, 3), &mut numbers);
    let refusal = order(
        number_in(line, 2),
        first(&numbers, numbers_for(n, number_in(line, 8))),
        filled(field(line, 4), &mut times),
        filled(field(line, 5), &mut lengths),
        filled(field(line, 6), &mut mores),
        filled(field(line, 7), &mut offsets),
        flags,
        usable,
    );
    write_lists(rt, field(line, 1), refusal, flags, usable)
}

// Runs the case of a line.
fn run(rt: &impl Print, line: &[u8]) -> io::Result<()> {
    let mut flags = [9u8; 6];
    let mut usable = [9u8; 6];
    let lengths = field(line, 0);
    let f = flags.len().min(number(lengths, 0) as usize);
    let u = usable.len().min(number(lengths, 1) as usize);
    run_into(rt, line, &mut flags[..f], &mut usable[..u])
}

// Runs the cases of all lines.
fn main(rt: HostRuntime) -> io::Result<()> {
    let mut room = [0u8; INPUT_OCTETS];
    for line in lines(read_input(&rt, &mut room)?) {
        run(&rt, line)?;
    }
    Ok(())
}
