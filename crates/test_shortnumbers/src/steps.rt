// The receiver's steps with short numbers.
use crate::print::write_step;
use crate::{Bits, bits_of};
use cases::fields::{field, number_in};
use cases::lists::filled;
use receiver::{Receiver, StepAnswer};
use shortnumbers::{step_8, step_10};
use std::io;

// One step with a short number.
fn short_step(bits: Bits, r: Receiver, short: u16, time: u64) -> StepAnswer {
    match bits {
        Bits::Eight => step_8(r, short, time),
        Bits::Ten => step_10(r, short, time),
    }
}

// The receiver after short numbers that arrive at 5,000.
fn receiver_after(bits: Bits, start: Receiver, shorts: &[u16]) -> Receiver {
    shorts
        .iter()
        .fold(start, |r, short| short_step(bits, r, *short, 5000).state)
}

// Steps with the short number of a line, and prints what is said of it.
fn one_more(rt: &impl Print, line: &[u8], r: Receiver) -> io::Result<()> {
    let s = short_step(bits_of(line), r, number_in(line, 4), number_in(line, 5));
    write_step(rt, field(line, 1), s.outcome, &s.state)
}

// Feeds the short numbers of a line to a fresh receiver, and steps with the last one.
pub(crate) fn run(rt: &impl Print, line: &[u8]) -> io::Result<()> {
    let mut shorts = [0u16; 10];
    let start = Receiver::fresh(number_in(line, 2)).state;
    one_more(
        rt,
        line,
        receiver_after(bits_of(line), start, filled(field(line, 3), &mut shorts)),
    )
}

// Steps in a fresh state whose NextExp is set.
pub(crate) fn run_next(rt: &impl Print, line: &[u8]) -> io::Result<()> {
    let mut r = Receiver::fresh(number_in(line, 2)).state;
    r.stream.next = number_in(line, 3);
    one_more(rt, line, r)
}
