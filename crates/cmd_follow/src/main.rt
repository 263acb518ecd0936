// The follow program: steps a receiver by the lines of a text log as they come on standard input. Its argument is K. For each line it
// writes the outcome on standard output at once, and the counts at the end. Its memory does not grow with the input. It ends when the
// input ends, when standard input can't be read, or when a line can't be written. Its exit status is 0, and it says on descriptor 3 how
// it ended: `done`, `unread`, `unwritten`, `gone` if what reads its output has gone away, or `refused` if K is refused.
#![tactic(auto)]

mod ends;

use ends::{End, say_end};
use follow::LINE_OCTETS;
use program::{argument, write_first};
use receiver::Receiver;
use rfc4737::refusal::{NONE, Refusal};
use std::io::{ErrorKind, Read};
use std::num::wrapping_add_u64;
use std::rt::Files;
use writing::Text;

// Room for a line, in octets. A longer line is cut there, so it has no line feed and is refused.
const HELD_OCTETS: usize = 256;

// The number of octets that are read at a time.
const BLOCK_OCTETS: usize = 4096;

// The state of the program between two octets.
#[derive(Drop)]
struct Progress {
    // The receiver.
    state: Receiver,
    // The octets of the current line that are held, and its number.
    held: Text<HELD_OCTETS>,
    line: u64,
    // Whether the program has said that the receiver is full.
    told: bool,
}

// Says that the receiver is full, and at which line a new one has to start.
fn tell_full(rt: &impl Eprint, line: u64) {
    let _ = eprintln!(rt;
        "krakobran: the receiver has accepted 4,096 arrivals and takes no more; to go on, start a new follow at line {line}"
    );
}

// Writes the first n octets of `out`.
fn write_line(rt: &impl Print, out: &[u8], n: usize) -> Result<(), End> {
    match write_first(rt, out, n) {
        Ok(true) => Ok(()),
        Ok(false) => Err(End::Unwritten),
        Err(e) if e.kind() == ErrorKind::BrokenPipe => Err(End::Gone),
        Err(_) => Err(End::Unwritten),
    }
}

// Ends the line that is held: steps the receiver and writes the outcome. Says that the receiver is full at the first line that is refused
// for it.
fn end_line(rt: &(impl Print + Eprint), progress: &mut Progress) -> Result<(), End> {
    let mut out = [0u8; LINE_OCTETS];
    let state = progress.state;
    let answer = follow::line(state, progress.held.octets(), &mut out);
    let after = answer.state;
    let written = write_line(rt, &out, answer.length as usize);
    if !progress.told && answer.refusal == Refusal::StateFull.number() {
        tell_full(rt, progress.line);
        progress.told = true;
    }
    progress.state = after;
    progress.held.clear();
    progress.line = wrapping_add_u64(progress.line, 1);
    written
}

// Takes one octet, and holds it if there is room for it. A line feed ends the line.
fn take_octet(rt: &(impl Print + Eprint), progress: &mut Progress, octet: u8) -> Result<(), End> {
    progress.held.octet(octet);
    if octet == b'\n' {
        end_line(rt, progress)?;
    }
    Ok(())
}

// Takes the octets of a block in turn.
fn take_block(
    rt: &(impl Print + Eprint),
    progress: &mut Progress,
    block: &[u8],
) -> Result<(), End> {
    for octet in block {
        take_octet(rt, progress, *octet)?;
    }
    Ok(())
}

// Reads a block and takes its octets. Returns whether there was one.
fn read_block(
    rt: &(impl Print + Eprint),
    from: &mut impl Read,
    progress: &mut Progress,
) -> Result<bool, End> {
    let mut block = [0u8; BLOCK_OCTETS];
    match from.read(&mut block) {
        Err(_) => Err(End::Unread),
        Ok(0) => Ok(false),
        Ok(n) => {
            take_block(rt, progress, &block[..n])?;
            Ok(true)
        }
    }
}

// Ends a last line without a line feed, which is refused.
fn end_last(rt: &(impl Print + Eprint), progress: &mut Progress) -> Result<(), End> {
    if progress.held.octets().is_empty() {
        return Ok(());
    }
    end_line(rt, progress)
}

// Reads block after block, and ends the last line. Every loop must be proved to end, so this one has a number of turns that no run reaches.
fn read_all(rt: &(impl Input + Print + Eprint), progress: &mut Progress) -> Result<(), End> {
    let mut from = rt.reader();
    for _ in 0..u64::MAX {
        if !read_block(rt, &mut from, progress)? {
            return end_last(rt, progress);
        }
    }
    Ok(())
}

// Writes the counts.
fn write_counts(rt: &impl Print, state: Receiver) -> Result<(), End> {
    let mut out = [0u8; LINE_OCTETS];
    let answer = follow::counts(state.stream, &mut out);
    write_line(rt, &out, answer.length as usize)
}

// Follows standard input with a fresh receiver.
fn follow_input(rt: &(impl Input + Print + Eprint), state: Receiver) -> Result<(), End> {
    let mut progress = Progress {
        state,
        held: Text::new(),
        line: 1,
        told: false,
    };
    read_all(rt, &mut progress)?;
    write_counts(rt, progress.state)
}

// Reads a word as K, if it is a number of at most 4,096.
fn sent_in(word: &[u8]) -> Option<u32> {
    let number = decimal::reading::number_at(word, 0);
    if number.end < word.len() || 4096 < number.value {
        return None;
    }
    Some(number.value as u32)
}

// Reads K, and follows standard input. Where K is no such number, the receiver is asked for with 0, which it refuses.
fn main(rt: HostRuntime) {
    let mut word = [0u8; 32];
    let fresh = Receiver::fresh(sent_in(argument(&rt, 1, &mut word)).unwrap_or(0));
    let state = fresh.state;
    if fresh.refusal != NONE {
        return say_end(&rt, Err(End::Refused));
    }
    say_end(&rt, follow_input(&rt, state));
}
