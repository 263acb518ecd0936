// What the programs of cases for receivers and meters share: they print the outcome of an arrival.
#![tactic(auto)]

use cases::print::{write_number, write_word};
use receiver::{Lateness, Outcome, ReceiverAnswer};
use rfc4737::LateTime;
use std::io;

// Prints the extent and the late time of a reordered packet; a late time before has a minus.
fn write_late(rt: &impl Print, word: &[u8], lateness: Lateness) -> io::Result<()> {
    write_word(rt, word)?;
    write_number(rt, b" extent ", lateness.extent)?;
    match lateness.late {
        LateTime::After(t) => write_number(rt, b" late ", t),
        LateTime::Before(t) => write_number(rt, b" late -", t),
    }
}

// Prints what a receiver notes of an arrival.
fn write_noted(rt: &impl Print, noted: ReceiverAnswer) -> io::Result<()> {
    match noted {
        ReceiverAnswer::Duplicate => write_word(rt, b"duplicate"),
        ReceiverAnswer::InOrder(jump) => write_number(rt, b"in order, jump ", jump),
        ReceiverAnswer::Exact(lateness) => write_late(rt, b"reordered,", lateness),
        ReceiverAnswer::Beyond(lateness) => write_late(rt, b"beyond the window,", lateness),
    }
}

// Prints the outcome of an arrival: the refusal, or what the receiver notes.
pub fn write_outcome(rt: &impl Print, outcome: Outcome) -> io::Result<()> {
    if outcome.refusal != 0 {
        write_number(rt, b"refused ", outcome.refusal)
    } else {
        write_noted(rt, outcome.noted)
    }
}
