// What is printed of a list call, and of what a receiver says.
use cases::print::{write_list, write_number, write_word};
use receiver::{Outcome, Receiver, ReceiverAnswer};
use std::io;

// Prints what a list call returns, and all numbers of the list after it.
pub(crate) fn write_numbers(
    rt: &impl Print,
    name: &[u8],
    refusal: u32,
    numbers: &[u32],
) -> io::Result<()> {
    write_word(rt, name)?;
    write_number(rt, b": refused ", refusal)?;
    write_list(rt, b"; numbers", numbers)?;
    write_word(rt, b"\n")
}

// Prints what a receiver notes of an arrival.
fn write_noted(rt: &impl Print, noted: ReceiverAnswer) -> io::Result<()> {
    match noted {
        ReceiverAnswer::Duplicate => write_word(rt, b"duplicate"),
        ReceiverAnswer::InOrder(jump) => write_number(rt, b"in order, jump ", jump),
        ReceiverAnswer::Exact(l) => write_number(rt, b"reordered, extent ", l.extent),
        ReceiverAnswer::Beyond(l) => write_number(rt, b"beyond the window, extent ", l.extent),
    }
}

// Prints what is said of an arrival, and NextExp and L after it.
pub(crate) fn write_step(
    rt: &impl Print,
    name: &[u8],
    outcome: Outcome,
    after: &Receiver,
) -> io::Result<()> {
    write_word(rt, name)?;
    if outcome.refusal != 0 {
        write_number(rt, b": refused ", outcome.refusal)?;
    } else {
        write_word(rt, b": ")?;
        write_noted(rt, outcome.noted)?;
    }
    write_number(rt, b"; NextExp ", after.stream.next)?;
    write_number(rt, b", L ", after.stream.arrived)?;
    write_word(rt, b"\n")
}
