// Runs the cases of the checker. Standard input begins with the listing of the scope's example: 101 octets, whose seven lines begin at the
// offsets 0, 18, 29, 40, 51, 62 and 84. Each line after it is a case: its name, the text of its sample (crate `sample_text`), the offset in
// the listing from which octets are taken out, how many, and the octets that stand there instead. A line is written for each case. The
// example's sample has no label. In its file K stands at offset 2, A at 14, the time of record 4 at 56, and the number of record 5, which
// comes at time 70, at 64.
#![tactic(auto)]

mod changes;

use cases::fields::{field, number_in};
use cases::lists::{fill, first};
use cases::print::{write_number, write_word};
use cases::text::{INPUT_OCTETS, lines, part};
use changes::{OCTETS, every_change};
use checker::{Verdict, check};
use program::read_input;
use sample_text::{ROOM, sample_of};
use std::io;

// The octets from offset `n` on; none if there are no more.
fn octets_from(s: &[u8], n: usize) -> &[u8] {
    s.get(n..).unwrap_or(&[])
}

// Checks a listing, and prints the case's name, the refusal and the verdict.
fn write_sample_verdict(
    rt: &impl Print,
    name: &[u8],
    sample: &[u8],
    listing: &[u8],
) -> io::Result<()> {
    let result = check(sample, listing);
    write_word(rt, name)?;
    write_number(rt, b": refusal ", result.refusal)?;
    match result.verdict {
        Verdict::Agrees => write_word(rt, b", agrees")?,
        Verdict::WrongLine(n) => write_number(rt, b", line ", n)?,
    }
    write_word(rt, b"\n")
}

// Writes the listing with the edit that a case's line gives into `room`; returns it.
fn edited<'a>(listing: &[u8], line: &[u8], room: &'a mut [u8]) -> &'a [u8] {
    let mut given = [0u8; OCTETS];
    let n = fill(field(line, 4), &mut given);
    let at = number_in::<u16>(line, 2) as usize;
    let rest = octets_from(listing, at + number_in::<u16>(line, 3) as usize);
    let next = at.saturating_add(n);
    octets::put_octets(room, 0, first(listing, at));
    octets::put_octets(room, at, first(&given, n));
    octets::put_octets(room, next, rest);
    first(room, next.saturating_add(rest.len()))
}

// Runs the case of a line.
fn run(rt: &impl Print, listing: &[u8], line: &[u8]) -> io::Result<()> {
    let mut file = [0u8; ROOM];
    let mut text = [0u8; 256];
    let sample = sample_of(field(line, 1), &mut file);
    let changed = edited(listing, line, &mut text);
    write_sample_verdict(rt, field(line, 0), sample, changed)
}

// Runs the cases of all lines, then every change of one octet, with the sample of the first line.
fn run_all(rt: &impl Print, listing: &[u8], text: &[u8]) -> io::Result<()> {
    for line in lines(text) {
        run(rt, listing, line)?;
    }
    every_change(rt, field(part(text, b'\n', 0), 1), listing)
}

// Runs all cases.
fn main(rt: HostRuntime) -> io::Result<()> {
    let mut room = [0u8; INPUT_OCTETS];
    let text = read_input(&rt, &mut room)?;
    run_all(&rt, first(text, OCTETS), octets_from(text, OCTETS))
}
