// Runs the calls on buffers on the cases that stand on standard input. Each line there has the case's name, the text of its sample, a
// measure (1 packets, 2 octets, any other number time), the size of a buffer, a share as part and whole, and how many places the list of
// rows has, 64 at most. A line is written for each case: each call's refusal and answer, and the list of rows, which holds sevens before
// the call.
#![tactic(auto)]

use cases::fields::{field, number_in};
use cases::print::{write_list, write_number, write_word};
use cases::text::lines;
use program::read_input;
use rfc4737::Measure;
use sample_text::{ROOM, sample_of};
use std::io;

// How many octets of cases are read at most.
const INPUT_OCTETS: usize = 4096;

// How many places a list of rows has at most.
const ROW_PLACES: usize = 64;

// The measure of a number.
fn measure_of(number: u32) -> Measure {
    match number {
        1 => Measure::Packets,
        2 => Measure::Octets,
        _ => Measure::Time,
    }
}

// Writes the greatest needs of a sample.
fn write_needs(rt: &impl Print, file: &[u8]) -> io::Result<()> {
    let needs = metrics::greatest_needs(file);
    write_number(rt, b": needs ", needs.refusal)?;
    write_number(rt, b", packets ", needs.packets)?;
    write_number(rt, b", octets ", needs.octets)?;
    write_number(rt, b", time ", needs.time)
}

// Writes how many first arrivals a buffer accommodates.
fn write_accommodated(rt: &impl Print, file: &[u8], measure: Measure, size: u64) -> io::Result<()> {
    let found = metrics::accommodated(file, measure, size);
    write_number(rt, b"; accommodated ", found.refusal)?;
    write_number(rt, b", ", found.accommodated)?;
    write_number(rt, b" of ", found.arrived)
}

// Writes the least size for a share.
fn write_least(
    rt: &impl Print,
    file: &[u8],
    measure: Measure,
    share: u32,
    whole: u32,
) -> io::Result<()> {
    let found = buffering::least(file, measure, share, whole);
    write_number(rt, b"; least ", found.refusal)?;
    write_number(rt, b", ", found.size)
}

// Fills a list with the rows of a sample, and writes it.
fn fill_rows(rt: &impl Print, file: &[u8], rows: &mut [u64]) -> io::Result<()> {
    let layout = metrics::record_rows(file, rows);
    write_number(rt, b"; rows ", layout.refusal)?;
    write_list(rt, b",", rows)
}

// Writes the rows in a list of `places` places, if it has no more than 64.
fn write_rows(rt: &impl Print, file: &[u8], places: usize) -> io::Result<()> {
    let mut rows = [7u64; ROW_PLACES];
    if places <= ROW_PLACES {
        fill_rows(rt, file, &mut rows[..places])?;
    }
    Ok(())
}

// Runs the case of a line.
fn run(rt: &impl Print, line: &[u8]) -> io::Result<()> {
    let mut file = [0u8; ROOM];
    let octets = sample_of(field(line, 1), &mut file);
    let measure = measure_of(number_in(line, 2));
    write_word(rt, field(line, 0))?;
    write_needs(rt, octets)?;
    write_accommodated(rt, octets, measure, number_in(line, 3))?;
    write_least(rt, octets, measure, number_in(line, 4), number_in(line, 5))?;
    write_rows(rt, octets, number_in::<u64>(line, 6) as usize)?;
    write_word(rt, b"\n")
}

// Runs the cases of all lines.
fn main(rt: HostRuntime) -> io::Result<()> {
    let mut room = [0u8; INPUT_OCTETS];
    for line in lines(read_input(&rt, &mut room)?) {
        run(&rt, line)?;
    }
    Ok(())
}
