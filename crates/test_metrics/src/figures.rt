// The figures of a sample.
use crate::listings::list_into;
use cases::lists::first;
use cases::print::{write_either, write_list, write_number, write_word};
use listing::LISTING_OCTETS;
use metrics::STEPS;
use rfc4737::{Answer, LateTime, Measure, Ratio, Ratios, ReorderedFigures};
use std::io;

// The index of the last buffer size.
const LAST_STEP: usize = STEPS - 1;

// Writes a late time, with a leading minus for before.
fn write_time(rt: &impl Print, late: LateTime) -> io::Result<()> {
    match late {
        LateTime::After(t) => write_number(rt, b" ", t),
        LateTime::Before(t) => write_number(rt, b" -", t),
    }
}

// Writes the figures of a reordered packet.
fn write_reordered(rt: &impl Print, f: ReorderedFigures) -> io::Result<()> {
    write_number(rt, b" late ", f.position)?;
    write_number(rt, b" ", f.extent)?;
    write_time(rt, f.late)?;
    write_number(rt, b" ", f.offset)?;
    write_number(rt, b" ", f.largest)
}

// Writes the answer for a record as the report does, with its refusal.
fn write_answer(rt: &impl Print, file: &[u8], record: u32) -> io::Result<()> {
    let a = metrics::answer(file, record);
    write_number(rt, b": answer ", a.refusal)?;
    match a.answer {
        Answer::Duplicate(f) => write_number(rt, b" copy ", f.first),
        Answer::InOrder(f) => {
            write_number(rt, b" in ", f.position)?;
            write_number(rt, b" ", f.jump)
        }
        Answer::Reordered(f) => write_reordered(rt, f),
    }
}

// Writes the gap of a record: the refusal, and the positions where there is one.
fn write_gap(rt: &impl Print, file: &[u8], record: u32) -> io::Result<()> {
    let g = metrics::gap(file, record);
    write_number(rt, b"; gap ", g.refusal)?;
    match g.gap {
        None => write_word(rt, b" none"),
        Some(n) => write_number(rt, b" ", n),
    }
}

// Writes the answer and the gap for a record.
pub(crate) fn write_record(rt: &impl Print, file: &[u8], record: u32) -> io::Result<()> {
    write_answer(rt, file, record)?;
    write_gap(rt, file, record)
}

// Writes the counts of a sample as the report does, with their refusal.
fn write_counts(rt: &impl Print, file: &[u8]) -> io::Result<()> {
    let c = metrics::counts(file);
    let counts = c.counts;
    write_number(rt, b"; counts ", c.refusal)?;
    write_number(rt, b" ", counts.arrived)?;
    write_number(rt, b" ", counts.reordered)?;
    write_number(rt, b" ", counts.duplicates)?;
    write_number(rt, b" ", counts.runs.closed)?;
    write_number(rt, b" ", counts.runs.squares)?;
    write_number(rt, b" ", counts.runs.current)
}

// Writes the tally's refusal, the count of extent 2, and how many entries are not 0.
fn write_tally(rt: &impl Print, file: &[u8]) -> io::Result<()> {
    let t = metrics::tally(file);
    let filled = t.tally.iter().filter(|count| **count != 0).count();
    write_number(rt, b"; tally ", t.refusal)?;
    write_number(rt, b" of extent 2 ", t.tally[2])?;
    write_number(rt, b" places not 0 ", filled)
}

// Writes the degree of n-reordering: the refusals of the two calls, the counts, and whether the degree is their
// quotient.
pub(crate) fn write_ratio(rt: &impl Print, file: &[u8], n: u32) -> io::Result<()> {
    let c = metrics::n_reordered(file, n);
    let d = metrics::degree(file, n);
    write_number(rt, b"; n-reordered ", c.refusal)?;
    write_number(rt, b" ", c.reordered)?;
    write_number(rt, b" of ", c.arrived)?;
    write_number(rt, b"; degree ", d.refusal)?;
    match d.ratio {
        Ratio::Undefined => write_word(rt, b" undefined"),
        Ratio::Known(x) => {
            let quotient = c.reordered as f64 / c.arrived as f64;
            write_either(rt, x == quotient, b" their quotient", b" ANOTHER number")
        }
    }
}

// Writes the ratio figures' refusal, and whether they are known.
fn write_ratios(rt: &impl Print, file: &[u8]) -> io::Result<()> {
    let r = metrics::ratios(file);
    write_number(rt, b"; ratios ", r.refusal)?;
    match r.ratios {
        Ratios::Undefined => write_word(rt, b" undefined"),
        Ratios::Known(_) => write_word(rt, b" known"),
    }
}

// Writes the rows of two records after the first `from`, in a list of 17 places that are 7 before.
pub(crate) fn write_rows(rt: &impl Print, file: &[u8], from: u32) -> io::Result<()> {
    let mut rows = [7u64; 17];
    let layout = metrics::rows_from(file, from, &mut rows);
    write_number(rt, b"; rows ", layout.refusal)?;
    write_list(rt, b",", &rows)
}

// 128 buffer sizes: the least one, the shift of those after it, and how many counts are written.
#[derive(Clone, Copy)]
pub(crate) struct Sizes {
    pub(crate) low: u64,
    pub(crate) shift: u32,
    pub(crate) shown: usize,
}

// Writes of 128 buffer sizes in a measure: the refusal, the greatest need, the first arrivals, the first counts, and the last one.
fn write_measure(
    rt: &impl Print,
    word: &[u8],
    file: &[u8],
    measure: Measure,
    sizes: Sizes,
) -> io::Result<()> {
    let steps = metrics::accommodated_steps(file, measure, sizes.low, sizes.shift);
    write_number(rt, word, steps.refusal)?;
    write_number(rt, b" greatest ", steps.greatest)?;
    write_number(rt, b" of ", steps.arrived)?;
    write_list(rt, b" counts", first(&steps.counts, sizes.shown))?;
    write_number(rt, b" last ", steps.counts[LAST_STEP])
}

// Writes of 128 buffer sizes how many first arrivals each accommodates, in every measure.
pub(crate) fn write_steps(rt: &impl Print, file: &[u8], sizes: Sizes) -> io::Result<()> {
    write_measure(rt, b"; packets ", file, Measure::Packets, sizes)?;
    write_measure(rt, b"; octets ", file, Measure::Octets, sizes)?;
    write_measure(rt, b"; time ", file, Measure::Time, sizes)
}

// Writes the answer of each call.
pub(crate) fn write_all(rt: &impl Print, file: &[u8]) -> io::Result<()> {
    write_answer(rt, file, 5)?;
    write_gap(rt, file, 3)?;
    write_counts(rt, file)?;
    write_tally(rt, file)?;
    write_ratio(rt, file, 1)?;
    write_ratios(rt, file)?;
    list_into(rt, file, LISTING_OCTETS)
}
