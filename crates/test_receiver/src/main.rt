// Runs the scope's cases on the receiver that stand on standard input: the window, the edges of K, number and time, clocks that step
// back, and each refusal, where the receiver that comes back is compared with the one handed in. A line is written for each case. A
// line there begins with what it is, and those up to the next `new` are about one receiver:
//   new: K of a fresh receiver;
//   feed: the first number, how far each is above the one before, how many, and the same of the times;
//   set: NextExp, how many jumps are kept, and the greatest time that the receiver is to have;
//   case: the name of the case, and number and time of one arrival more, after which the receiver is what it was before;
//   made: the name of the case, K of a fresh receiver, and K of the one that it must be the same as.
#![tactic(auto)]

use cases::element::Element;
use cases::fields::{field, number_in};
use cases::print::{write_either, write_number, write_word};
use cases::series::Series;
use cases::text::lines;
use program::read_input;
use receiver::Receiver;
use receiver_text::write_outcome;
use std::io;

// How many octets of cases are read at most.
const MOST: usize = 4096;

// A fresh receiver for k packets.
fn receiver_for(k: u32) -> Receiver {
    Receiver::fresh(k).state
}

// The receiver after the arrivals of a line.
fn fed(start: Receiver, line: &[u8]) -> Receiver {
    let numbers = Series {
        next: number_in::<u32>(line, 1) as u64,
        step: number_in::<u32>(line, 2) as u64,
    };
    let times = Series {
        next: number_in(line, 4),
        step: number_in(line, 5),
    };
    let mut r = start;
    for (number, time) in numbers.zip(times).take(number_in::<u32>(line, 3) as usize) {
        r = r.step(u32::wrapped(number), time).state;
    }
    r
}

// The receiver with what a line sets.
fn changed(r: Receiver, line: &[u8]) -> Receiver {
    let mut other = r;
    other.stream.next = number_in(line, 1);
    other.stream.kept = number_in(line, 2);
    other.stream.greatest = number_in(line, 3);
    other
}

// Feeds the arrival of a line, and writes the case's name, what is said, and where that is a refusal whether the receiver came back the
// same.
fn arrives(rt: &impl Print, r: Receiver, line: &[u8]) -> io::Result<()> {
    let s = r.step(number_in(line, 2), number_in(line, 3));
    write_word(rt, field(line, 1))?;
    write_word(rt, b": ")?;
    write_outcome(rt, s.outcome)?;
    if s.outcome.refusal != 0 {
        write_either(rt, r == s.state, b", receiver equal", b", receiver CHANGED")?;
    }
    write_word(rt, b"\n")
}

// Makes the receiver of a line, and writes the case's name, the refusal, and whether it is the same as the other.
fn made(rt: &impl Print, line: &[u8]) -> io::Result<()> {
    let start = Receiver::fresh(number_in(line, 2));
    let expected = receiver_for(number_in(line, 3));
    write_word(rt, field(line, 1))?;
    write_number(rt, b": refused ", start.refusal)?;
    write_number(rt, b", K ", start.state.stream.sent)?;
    write_number(rt, b", NextExp ", start.state.stream.next)?;
    write_either(
        rt,
        start.state == expected,
        b", as fresh for K ",
        b", NOT as fresh for K ",
    )?;
    write_number(rt, b"", number_in::<u64>(line, 3))?;
    write_word(rt, b"\n")
}

// Does what a line says, and returns the receiver after it.
fn run(rt: &impl Print, r: Receiver, line: &[u8]) -> io::Result<Receiver> {
    match line.first() {
        Some(b'n') => return Ok(receiver_for(number_in(line, 1))),
        Some(b'f') => return Ok(fed(r, line)),
        Some(b's') => return Ok(changed(r, line)),
        Some(b'm') => made(rt, line)?,
        _ => arrives(rt, r, line)?,
    }
    Ok(r)
}

// Does what all lines say.
fn main(rt: HostRuntime) -> io::Result<()> {
    let mut room = [0u8; MOST];
    let mut r = receiver_for(1);
    for line in lines(read_input(&rt, &mut room)?) {
        r = run(&rt, r, line)?;
    }
    Ok(())
}
