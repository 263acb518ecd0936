// The cases that write a log from K and lists.
use crate::lists::{Log, NUMBER, OCTET, TIME, Width, import_and_sum};
use crate::long::LONG_LENGTH;
use cases::TOO_MANY;
use cases::fields::{field, number_in};
use cases::lists::{filled, first};
use cases::print::{write_answer, write_word};
use std::io;

// The greatest length of the output for a short log.
const ROOM: usize = 32;

// Arrivals to write as a log: the case's name, K, and the numbers and the times.
#[derive(Clone, Copy)]
struct Arrivals<'a> {
    name: &'a [u8],
    k: u32,
    numbers: &'a [u32],
    times: &'a [u64],
}

// Writes a log into `out`, and prints the answer; returns the length of the log.
fn write_into(rt: &impl Print, arrivals: Arrivals<'_>, out: &mut [u8]) -> io::Result<usize> {
    let written = textlog::write(arrivals.k, arrivals.numbers, arrivals.times, out);
    write_answer(
        rt,
        arrivals.name,
        written.refusal,
        b": octets ",
        u64::from(written.length),
    )?;
    write_word(rt, b"\n")?;
    Ok(written.length as usize)
}

// Writes a log, and prints the whole output.
fn write_shown(rt: &impl Print, arrivals: Arrivals<'_>, out: &mut [u8]) -> io::Result<()> {
    write_into(rt, arrivals, out)?;
    write_word(rt, out)?;
    write_word(rt, b"\n")
}

// Runs the case of a line.
pub(crate) fn run(rt: &impl Print, line: &[u8]) -> io::Result<()> {
    let mut numbers = [0u32; 3];
    let mut times = [0u64; 3];
    let mut out = [OCTET; ROOM];
    let room = ROOM.min(number_in::<u32>(line, 5) as usize);
    let arrivals = Arrivals {
        name: field(line, 1),
        k: number_in(line, 2),
        numbers: filled(field(line, 3), &mut numbers),
        times: filled(field(line, 4), &mut times),
    };
    write_shown(rt, arrivals, &mut out[..room])
}

// Writes arrivals, and imports what was written.
fn write_and_import(rt: &impl Print, arrivals: Arrivals<'_>) -> io::Result<()> {
    let mut out = [OCTET; 40_000];
    let n = write_into(rt, arrivals, &mut out)?;
    let log = Log {
        name: b"and import them",
        width: Width::Full,
        k: arrivals.k,
        octets: first(&out, n),
    };
    import_and_sum(
        rt,
        log,
        &mut [NUMBER; LONG_LENGTH],
        &mut [TIME; LONG_LENGTH],
    )
}

// Runs the case of many arrivals.
pub(crate) fn run_many(rt: &impl Print, line: &[u8]) -> io::Result<()> {
    let n = number_in::<u32>(line, 2) as usize;
    let arrivals = Arrivals {
        name: field(line, 1),
        k: 1,
        numbers: first(&[1; TOO_MANY], n),
        times: first(&[4500; TOO_MANY], n),
    };
    write_and_import(rt, arrivals)
}
