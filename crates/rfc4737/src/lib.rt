// The types of the figures after RFC 4737: an arrival, the answer for a record, and the figures of a sample; specs/ defines each figure.
// The modules number the cases of an answer and the refusals, have the rules about times, and check K and the arrivals. All other
// crates share them.
#![tactic(auto)]

// The numbers of an answer's cases.
pub mod numbering;

// The numbers returned instead of an answer.
pub mod refusal;

// The rules about arrival times.
pub mod time;

// The check of K and the arrivals.
pub mod judge;

// An arrival of a test packet: its sequence number, and its arrival time in microseconds.
#[derive(Clone, Copy)]
pub struct Arrival {
    pub number: u32,
    pub time: u64,
}

// The figures of a duplicate: the record of the packet's first arrival.
#[derive(Clone, Copy)]
pub struct DuplicateFigures {
    pub first: u32,
}

// The figures of an in-order packet: its position among the first arrivals, and its jump size.
#[derive(Clone, Copy)]
pub struct InOrderFigures {
    pub position: u32,
    pub jump: u32,
}

// A late time in microseconds, with its direction: after the discontinuity's arrival, or before it. Equal times
// are after, by 0.
#[derive(Clone, Copy)]
pub enum LateTime {
    After(u64),
    Before(u64),
}

// The figures of a reordered packet: its position, extent, late time, byte offset and largest n.
#[derive(Clone, Copy)]
pub struct ReorderedFigures {
    pub position: u32,
    pub extent: u32,
    pub late: LateTime,
    pub offset: u32,
    pub largest: u32,
}

// The answer for a record.
#[derive(Clone, Copy)]
pub enum Answer {
    Duplicate(DuplicateFigures),
    InOrder(InOrderFigures),
    Reordered(ReorderedFigures),
}

// The runs of in-order packets: the number of closed runs, the sum of the squares of their lengths, and the
// length of the open run.
#[derive(Clone, Copy, PartialEq, Eq)]
#[repr(C)]
pub struct Runs {
    pub closed: u32,
    pub squares: u32,
    pub current: u32,
}

// The counts of a sample: first arrivals (L), reordered packets, duplicates, in-order packets, and runs.
#[derive(Clone, Copy)]
#[repr(C)]
pub struct Counts {
    pub arrived: u32,
    pub reordered: u32,
    pub duplicates: u32,
    pub inorder: u32,
    pub runs: Runs,
}

// A ratio of two counts, undefined if the denominator is 0. An enum with an undefined case, as the scope names the form:
// no number stands in for an undefined ratio.
#[derive(Clone, Copy)]
pub enum Ratio {
    Undefined,
    Known(f64),
}

// The ratio figures of a sample: the reordered ratio, and the degrees of n-reordering for n = 1 and n = 3.
#[derive(Clone, Copy)]
pub struct RatioFigures {
    pub reordered: f64,
    pub degree1: f64,
    pub degree3: f64,
}

// The ratio figures of a sample, undefined if it has no first arrival; the form is that of `Ratio`.
#[derive(Clone, Copy)]
pub enum Ratios {
    Undefined,
    Known(RatioFigures),
}

// The unit in which the size of a receiver's buffer is given (RFC 4737, section 1.1): packets, octets, or microseconds.
#[derive(Clone, Copy)]
pub enum Measure {
    Packets,
    Octets,
    Time,
}
