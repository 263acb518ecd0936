// Runs the cases of short sequence numbers, of 8 and of 10 bits, which stand on standard input. They try the first numbers after 0,
// each side of half the range, wraps, late numbers across a wrap, short numbers over their width, and the order of the refusals. They
// are run in lists, which are filled with 77 before, and by the receiver. A line is written for each case. A line of the input begins with
// the call and the width, the case's name, and K; then
//   list: the short numbers, the times, and the length of the list of numbers;
//   many: how many short numbers there are (of 8 bits each 256, with no times; of 10 bits each 0, all at time 0);
//   step: the short numbers that arrive at 5,000 before, and the one that is stepped, with its time;
//   next: what NextExp is set to in a fresh state, and the short number that is stepped, with its time.
#![tactic(auto)]

mod lists;
mod print;
mod steps;

use cases::fields::field;
use cases::text::{INPUT_OCTETS, lines, number};
use program::read_input;
use std::io;

// The bits of short numbers.
#[derive(Clone, Copy, PartialEq, Eq)]
pub(crate) enum Bits {
    Eight,
    Ten,
}

// The bits of the short numbers of a line.
pub(crate) fn bits_of(line: &[u8]) -> Bits {
    match number(field(line, 0), 1) {
        8 => Bits::Eight,
        _ => Bits::Ten,
    }
}

// Runs the case of a line.
fn run(rt: &impl Print, line: &[u8]) -> io::Result<()> {
    match line.first() {
        Some(b'l') => lists::run(rt, line),
        Some(b'm') => lists::run_many(rt, line),
        Some(b's') => steps::run(rt, line),
        Some(b'n') => steps::run_next(rt, line),
        _ => Ok(()),
    }
}

// Runs the cases of all lines.
fn main(rt: HostRuntime) -> io::Result<()> {
    let mut room = [0u8; INPUT_OCTETS];
    for line in lines(read_input(&rt, &mut room)?) {
        run(&rt, line)?;
    }
    Ok(())
}
