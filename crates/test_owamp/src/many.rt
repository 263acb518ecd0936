// The cases of many records: after each arrival a lost record of the greatest sequence number.
use crate::OTHER;
use crate::lists::{NUMBER, Records, TIME, import_and_sum};
use cases::fields::{field, number_in};
use cases::lists::first;
use cases::series::{Column, Series, put_series};
use cases::{MAX_ARRIVALS, TOO_MANY};
use std::io;

// The number of arrivals.
const ARRIVALS: u16 = TOO_MANY as u16;

// The octets of an arrival and of the lost record after it.
const PAIR: u16 = 50;

// The octets of the arrivals and of the lost record after each.
const OCTETS: usize = TOO_MANY * PAIR as usize;

// The greatest length of a list that the arrivals are imported into.
const LONG_LENGTH: usize = TOO_MANY + 1;

// The time between two arrivals, in units of 2^-32 seconds: 5 microseconds and a part of one.
const STEP: u64 = 25_000;

// A step back in time, modulo 2^64.
const STEP_BACK: u64 = 18_446_744_073_709_526_616;

// Eight steps.
const EIGHT_STEPS: u64 = 200_000;

// Writes a number of each arrival, or of the lost record after it: the first at offset `at`, and each of `width` octets.
fn put_each(records: &mut [u8], at: u32, width: u16, series: Series) {
    let column = Column {
        at,
        width,
        apart: PAIR,
    };
    put_series(records, column, ARRIVALS, series);
}

// Writes the times of all arrivals: `next`, and each `step` after the one before.
fn put_times(records: &mut [u8], next: u64, step: u64) {
    put_each(records, 16, 8, Series { next, step });
}

// Writes the times of arrivals that are in reverse order within groups of eight: in each group the first comes eight steps after the last
// group, and each other one a step before it.
fn put_nearly(records: &mut [u8]) {
    for i in 0..8u16 {
        let column = Column {
            at: 16 + (PAIR as u32) * (i as u32),
            width: 8,
            apart: 8 * PAIR,
        };
        let times = Series {
            next: EIGHT_STEPS - STEP * (i as u64),
            step: EIGHT_STEPS,
        };
        put_series(records, column, 513, times);
    }
}

// Writes the times of arrivals in an order: 0, each after the one before; 1, each before it; 2, reversed within groups of eight; 3, all at
// one time; 4, all lost.
fn put_order(records: &mut [u8], order: u32) {
    match order {
        0 => put_times(records, STEP, STEP),
        1 => put_times(records, 70_000 * STEP, STEP_BACK),
        2 => put_nearly(records),
        3 => put_times(records, STEP, 0),
        _ => put_times(records, 0, 0),
    }
}

// Imports records into two lists of the length that the line says, LONG_LENGTH at most.
fn import_records(rt: &impl Print, line: &[u8], octets: &[u8]) -> io::Result<()> {
    let mut numbers = [NUMBER; LONG_LENGTH];
    let mut times = [TIME; LONG_LENGTH];
    let n = LONG_LENGTH.min(number_in::<u32>(line, 2) as usize);
    let records = Records {
        name: field(line, 1),
        k: MAX_ARRIVALS as u32,
        octets,
    };
    import_and_sum(rt, records, &mut numbers[..n], &mut times[..n])
}

// Runs the case of a line.
pub(crate) fn run(rt: &impl Print, line: &[u8]) -> io::Result<()> {
    let mut records = [OTHER; OCTETS];
    put_each(&mut records, 0, 4, Series { next: 0, step: 1 });
    let lost = Series {
        next: 4_294_967_295,
        step: 0,
    };
    put_each(&mut records, 25, 4, lost);
    put_each(&mut records, 41, 8, Series { next: 0, step: 0 });
    put_order(&mut records, number_in(line, 3));
    octets::put_number(&mut records, 204_750, 4, number_in::<u32>(line, 5) as u64);
    let read = number_in::<u32>(line, 4) as usize * PAIR as usize;
    import_records(rt, line, first(&records, read))
}
