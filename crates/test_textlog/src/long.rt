// The cases of long logs: 4,096 lines and more, and a million digits.
use crate::fields::octets_for;
use crate::lists::{Log, NUMBER, TIME, Width, import_and_sum, import_into};
use cases::fields::{field, number_in};
use cases::lists::first;
use cases::{MAX_ARRIVALS, TOO_MANY};
use std::io;

// The length of each line: line n is n in four digits, and `;2`.
const LINE: usize = 7;

// The number of lines.
const LINES: usize = TOO_MANY;

// The length of the log.
const OCTETS: usize = LINES * LINE;

// The greatest length of a list that the lines are imported into.
pub(crate) const LONG_LENGTH: usize = TOO_MANY + 1;

// The last digit of a number.
fn last_digit(n: usize) -> u8 {
    (n % 10) as u8 + 48
}

// Line n of the log.
fn line_of(n: usize) -> [u8; LINE] {
    [
        last_digit(n / 1000),
        last_digit(n / 100),
        last_digit(n / 10),
        last_digit(n),
        b';',
        b'2',
        b'\n',
    ]
}

// All lines in turn.
fn lines_in_turn() -> [u8; OCTETS] {
    let mut log = [0u8; OCTETS];
    for (line, n) in log.chunks_exact_mut(LINE).zip(1..=LINES) {
        octets::put_octets(line, 0, &line_of(n));
    }
    log
}

// Imports the first lines of a log into two lists; the case's line says how many, and the length of the lists, LONG_LENGTH at most.
fn import_lines(rt: &impl Print, line: &[u8], log: &[u8]) -> io::Result<()> {
    let mut numbers = [NUMBER; LONG_LENGTH];
    let mut times = [TIME; LONG_LENGTH];
    let n = LONG_LENGTH.min(number_in::<u32>(line, 2) as usize);
    let lines = Log {
        name: field(line, 1),
        width: Width::Full,
        k: MAX_ARRIVALS as u32,
        octets: first(log, number_in::<u32>(line, 3) as usize * LINE),
    };
    import_and_sum(rt, lines, &mut numbers[..n], &mut times[..n])
}

// Runs the case of many lines, of which one is replaced.
pub(crate) fn run_lines(rt: &impl Print, line: &[u8]) -> io::Result<()> {
    let mut log = lines_in_turn();
    let mut other = [0u8; LINE];
    let replaced = number_in::<u32>(line, 4) as usize * LINE;
    octets::put_octets(&mut log, replaced, octets_for(field(line, 5), &mut other));
    import_lines(rt, line, &log)
}

// What a log of many digits has besides them: octets at its start, octets from an offset on, and where it ends.
#[derive(Clone, Copy)]
struct Ends<'a> {
    start: &'a [u8],
    at: usize,
    last: &'a [u8],
    end: usize,
}

// Writes the ends of a log, and imports it.
fn import_between(rt: &impl Print, name: &[u8], log: &mut [u8], ends: Ends<'_>) -> io::Result<()> {
    octets::put_octets(log, 0, ends.start);
    octets::put_octets(log, ends.at, ends.last);
    let log = Log {
        name,
        width: Width::Full,
        k: 1,
        octets: first(log, ends.end),
    };
    import_into(rt, log, &mut [NUMBER; 3], &mut [TIME; 3])
}

// Does the same with a log of over a million octets `digit`.
fn import_digits(rt: &impl Print, name: &[u8], digit: u8, ends: Ends<'_>) -> io::Result<()> {
    let mut log = [digit; 1_000_010];
    import_between(rt, name, &mut log, ends)
}

// Runs the case of over a million digits.
pub(crate) fn run_digits(rt: &impl Print, line: &[u8]) -> io::Result<()> {
    let mut before = [0u8; 8];
    let mut after = [0u8; 8];
    let ends = Ends {
        start: octets_for(field(line, 3), &mut before),
        at: number_in::<u32>(line, 4) as usize,
        last: octets_for(field(line, 5), &mut after),
        end: number_in::<u32>(line, 6) as usize,
    };
    let digit = field(line, 2).first().copied().unwrap_or(0);
    import_digits(rt, field(line, 1), digit, ends)
}
