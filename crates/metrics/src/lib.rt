// Every figure of a sample, by the definitions of rfc4737 over what the file decodes to. Every call is total: it first checks the file,
// in one pass, and of a refused file it returns the refusal with the figures of no arrivals. A list or a buffer is lent if the caller
// owns it and passes it by reference.
// Cost, with A arrivals of K packets: O(A + K) for the check and for each pass, unless a call says otherwise. No call is quadratic.
// Tables of 4,096 entries are zeroed whatever A and K are.
#![tactic(auto)]

ghost use Rattle.std.specs.Prelude.{◌≡◌, ◌≤◌, length};
ghost use Rattle.rfc4737.specs.Cases.{CasesHold};
ghost use Rattle.rfc4737.specs.Reordered.{ReorderedHaveDiscontinuity, OffsetsBounded, FiguresBounded};
ghost use Rattle.sample.specs.Decode.{decode};
ghost use Rattle.metrics.specs.Figures.{record_answer, record_gap, sample_counts, sample_tally, degree_counts, sample_degree, sample_ratios, sample_accommodated, sample_needs, sample_steps};
ghost use Rattle.metrics.specs.Gaps.{GapsTo, GapsTell};
ghost use Rattle.metrics.specs.Rows.{row_of, RowsTo, RowsFromTo, RowsTell};
ghost use Rattle.listing.specs.Example.{ExampleHolds};
ghost use Rattle.listing.specs.Room.{listing_octets};
ghost use Rattle.metrics.specs.Report.{sample_text, ListedTo};
ghost use Rattle.metrics.specs.Moved.{ClockMoved};
ghost use Rattle.metrics.specs.Agreement.{sample_agreement};

mod engine;
mod figures;
mod report;

use engine::input::CheckedFile;
use figures::answers::answer_of;
use figures::gaps::{gap_of, put_gaps};
use figures::needs::{Sizes, greatest_need, needs_of, sum_up};
use figures::quotients::{ratio_of, ratios_of};
use figures::rows::{put_rows, rows_short};
use figures::{counts_of, shares_of, tally_of};
use report::compare::compare_listing;
use report::{check_room, write_listing};
use rfc4737::numbering::{
    DUPLICATE, IN_ORDER, REORDERED_AFTER, REORDERED_BEFORE, amount, by_direction,
};
use rfc4737::refusal::{NONE, Refusal};
use rfc4737::{Answer, InOrderFigures, Measure};
use sample::{Layout, WriteAnswer, refused_layout};

// The greatest extent that a tally counts by itself; all greater ones are counted at index 0.
const TALLY_MOST: u32 = 100;

// The length of a tally: index 0, and one for each extent from 1 to TALLY_MOST.
pub const TALLY_PLACES: usize = TALLY_MOST as usize + 1;

// The greatest n of a degree.
const DEGREE_MOST: u32 = 100;

// How many buffer sizes `accommodated_steps` tries in one pass.
pub const STEPS: usize = 128;

// In the answers below the refusal stands beside the figures, as a number, and not in place of them: the definitions of specs/Figures and
// specs/Agreement give both, for C too.

// The answer for a record, and the refusal (0 for none).
#[derive(Clone, Copy)]
pub struct RecordAnswer {
    pub refusal: u32,
    pub answer: rfc4737::Answer,
}

// The gap of a record, and the refusal (0 for none).
#[derive(Clone, Copy)]
pub struct RecordGap {
    pub refusal: u32,
    pub gap: Option<u32>,
}

// The counts of a sample, and the refusal (0 for none).
#[derive(Clone, Copy)]
#[repr(C)]
pub struct SampleCounts {
    pub refusal: u32,
    pub counts: rfc4737::Counts,
}

// The extent tally of a sample, and the refusal (0 for none).
#[derive(Clone, Copy)]
#[repr(C)]
pub struct SampleTally {
    pub refusal: u32,
    pub tally: [u32; TALLY_PLACES],
}

// The two counts of a degree of n-reordering, and the refusal (0 for none).
#[derive(Clone, Copy)]
#[repr(C)]
pub struct DegreeCounts {
    pub refusal: u32,
    pub reordered: u32,
    pub arrived: u32,
}

// A degree of n-reordering, and the refusal (0 for none).
#[derive(Clone, Copy)]
pub struct SampleDegree {
    pub refusal: u32,
    pub ratio: rfc4737::Ratio,
}

// The ratio figures of a sample, and the refusal (0 for none).
#[derive(Clone, Copy)]
pub struct SampleRatios {
    pub refusal: u32,
    pub ratios: rfc4737::Ratios,
}

// How many first arrivals of a sample a receiver's buffer accommodates, how many first arrivals there are, and the refusal (0 for none).
#[derive(Clone, Copy)]
#[repr(C)]
pub struct SampleAccommodated {
    pub refusal: u32,
    pub accommodated: u32,
    pub arrived: u32,
}

// The greatest extent, byte offset and late time of a sample, 0 where no packet is reordered, and the refusal (0 for none).
#[derive(Clone, Copy)]
#[repr(C)]
pub struct SampleNeeds {
    pub refusal: u32,
    pub packets: u64,
    pub octets: u64,
    pub time: u64,
}

// For each of STEPS buffer sizes, how many first arrivals of a sample it accommodates; how many first arrivals there are; the greatest
// need of any; and the refusal (0 for none).
#[derive(Clone, Copy)]
pub struct SampleSteps {
    pub refusal: u32,
    pub arrived: u32,
    pub greatest: u64,
    pub counts: [u32; STEPS],
}

// How many octets of a text agree with the listing of a sample, from the start on; whether the text is that listing; and the
// refusal (0 for none), with which none agree.
#[derive(Clone, Copy)]
pub struct SampleAgreement {
    pub refusal: u32,
    pub octets: usize,
    pub same: bool,
}

// The answer for a record: one pass over the arrivals before it, and one over the positions of its extent. O(A + K).
pub fn answer(file: &[u8], asked: u32) -> RecordAnswer
    ensures value { result ≡ record_answer (decode file.now) asked }
    ensures cases { CasesHold }
    ensures bounds { FiguresBounded result.answer }
    ensures discontinuity { ReorderedHaveDiscontinuity }
    ensures offsets { OffsetsBounded }
{
    match answer_of(&CheckedFile::new(file), asked) {
        Ok(answer) => RecordAnswer {
            refusal: NONE,
            answer,
        },
        Err(refusal) => RecordAnswer {
            refusal,
            answer: Answer::InOrder(InOrderFigures {
                position: 0,
                jump: 0,
            }),
        },
    }
}

// The counts of a sample: one pass, O(A + K).
pub fn counts(file: &[u8]) -> SampleCounts
    ensures { result ≡ sample_counts (decode file.now) }
{
    let file = CheckedFile::new(file);
    SampleCounts {
        refusal: file.layout.refusal,
        counts: counts_of(&file),
    }
}

// The extent tally of a sample: one pass, O(A + K).
pub fn tally(file: &[u8]) -> SampleTally
    ensures { result ≡ sample_tally (decode file.now) }
{
    let file = CheckedFile::new(file);
    SampleTally {
        refusal: file.layout.refusal,
        tally: tally_of(&file),
    }
}

// The gap of a record: one pass, and a search over the positions before it, O(A + K).
pub fn gap(file: &[u8], asked: u32) -> RecordGap
    ensures { result ≡ record_gap (decode file.now) asked }
{
    match gap_of(&CheckedFile::new(file), asked) {
        Ok(gap) => RecordGap { refusal: NONE, gap },
        Err(refusal) => RecordGap { refusal, gap: None },
    }
}

// The two counts of a degree of n-reordering: the n-reordered packets, and the first arrivals. One pass, O(A + K): all searches for a
// largest n together take at most two steps for each first arrival.
pub fn n_reordered(file: &[u8], n: u32) -> DegreeCounts
    ensures { result ≡ degree_counts (decode file.now) n }
{
    let file = CheckedFile::new(file);
    if let Err(refusal) = file.asked(1, DEGREE_MOST, n) {
        return DegreeCounts {
            refusal,
            reordered: 0,
            arrived: 0,
        };
    }
    let shares = shares_of(&file, n, n);
    DegreeCounts {
        refusal: NONE,
        reordered: shares.low,
        arrived: shares.whole,
    }
}

// The degree of n-reordering, at the cost of `n_reordered`.
pub fn degree(file: &[u8], n: u32) -> SampleDegree
    ensures { result ≡ sample_degree (decode file.now) n }
{
    let c = n_reordered(file, n);
    SampleDegree {
        refusal: c.refusal,
        ratio: ratio_of(c.reordered, c.arrived),
    }
}

// The ratio figures of a sample, at the cost of `n_reordered`.
pub fn ratios(file: &[u8]) -> SampleRatios
    ensures { result ≡ sample_ratios (decode file.now) }
{
    let file = CheckedFile::new(file);
    let shares = shares_of(&file, 1, 3);
    SampleRatios {
        refusal: file.layout.refusal,
        ratios: ratios_of(shares.reordered, shares.low, shares.high, shares.whole),
    }
}

// How many first arrivals a receiver's buffer of `size` accommodates: one pass, O(A + K), and O(A log K + K) in octets.
pub fn accommodated(file: &[u8], measure: Measure, size: u64) -> SampleAccommodated
    ensures { result ≡ sample_accommodated (decode file.now) measure size }
{
    let file = CheckedFile::new(file);
    let mut counts = [0u32; STEPS];
    let sizes = Sizes {
        low: size,
        shift: 0,
    };
    let needs = needs_of(&file, measure, sizes, &mut counts);
    SampleAccommodated {
        refusal: file.layout.refusal,
        accommodated: counts[0],
        arrived: needs.arrived,
    }
}

// For each size `low + k * 2^shift`, with k from 0 to STEPS - 1: how many first arrivals a buffer of that size accommodates. Besides, how
// many first arrivals there are, and the greatest need of any. No size wraps at 2^64, whatever `shift` is. One pass: O(A + K), and O(A
// log K + K) in octets.
pub fn accommodated_steps(file: &[u8], measure: Measure, low: u64, shift: u32) -> SampleSteps
    ensures { result ≡ sample_steps (decode file.now) measure low shift }
{
    let file = CheckedFile::new(file);
    let mut counts = [0u32; STEPS];
    let needs = needs_of(&file, measure, Sizes { low, shift }, &mut counts);
    sum_up(&mut counts);
    SampleSteps {
        refusal: file.layout.refusal,
        arrived: needs.arrived,
        greatest: needs.greatest,
        counts,
    }
}

// The greatest needs of a sample, in one pass for each measure.
pub fn greatest_needs(file: &[u8]) -> SampleNeeds
    ensures { result ≡ sample_needs (decode file.now) }
{
    let file = CheckedFile::new(file);
    SampleNeeds {
        refusal: file.layout.refusal,
        packets: greatest_need(&file, Measure::Packets),
        octets: greatest_need(&file, Measure::Octets),
        time: greatest_need(&file, Measure::Time),
    }
}

// Fills a lent list with the gap of every record, 0 where it has none: one pass, and one step for each record, O(A + K). With a refusal,
// the file's own or 8, the list stays as it was.
pub fn record_gaps(file: &[u8], gaps: &mut [u32]) -> Layout
    ensures gaps_to { GapsTo (decode file.now) gaps.old result gaps.new }
    ensures tell { GapsTell }
{
    let file = CheckedFile::new(file);
    let layout = file.layout;
    if layout.refusal != NONE {
        return layout;
    }
    if gaps.len() < layout.arrivals as usize {
        return refused_layout(Refusal::OutputShort.number());
    }
    put_gaps(&file, gaps);
    layout
}

// The row of an answer: the number of its case, position, jump size, extent, amount of the late time, byte offset, largest n, and the
// record of the first copy; figures that it lacks are 0. The case tells the direction of the late time.
pub fn row_of(answer: Answer) -> [u64; 8]
    ensures { result ≡ row_of answer }
{
    match answer {
        Answer::Duplicate(d) => [DUPLICATE as u64, 0, 0, 0, 0, 0, 0, d.first as u64],
        Answer::InOrder(d) => [
            IN_ORDER as u64,
            d.position as u64,
            d.jump as u64,
            0,
            0,
            0,
            0,
            0,
        ],
        Answer::Reordered(d) => {
            let late = d.late;
            [
                by_direction(REORDERED_AFTER, REORDERED_BEFORE, late) as u64,
                d.position as u64,
                0,
                d.extent as u64,
                amount(late),
                d.offset as u64,
                d.largest as u64,
                0,
            ]
        }
    }
}

// Every figure of every record, in rows of eight numbers from the start of a lent list: one pass, as that of `listing`. With a refusal,
// the file's own or 8, the list stays as it was.
pub fn record_rows(file: &[u8], rows: &mut [u64]) -> Layout
    ensures rows_to { RowsTo (decode file.now) rows.old result rows.new }
    ensures tell { RowsTell }
{
    let file = CheckedFile::new(file);
    let layout = file.layout;
    if layout.refusal != NONE {
        return layout;
    }
    if rows_short(layout.arrivals, rows.len()) {
        return refused_layout(Refusal::OutputShort.number());
    }
    put_rows(&file, 0, rows);
    layout
}

// The rows of the records after the first `from`, as many as `rows` has room for: as those of `record_rows`, from the start of `rows`, the
// rest of which stays as it was. The pass ends after the last of these records. With the file's refusal `rows` stays as it was.
pub fn rows_from(file: &[u8], from: u32, rows: &mut [u64]) -> Layout
    ensures { RowsFromTo (decode file.now) from rows.old result rows.new }
{
    let file = CheckedFile::new(file);
    put_rows(&file, from, rows);
    file.layout
}

// Writes the listing of a sample at the start of `out`, if `out` has room for it; LISTING_OCTETS octets have room for any. One pass, in
// which a reordered packet takes at most 11 steps to ask a tree of sums, and each first arrival at most 12 to enter it. Cost: O(A log K +
// K); twice that if `out` is shorter than LISTING_OCTETS.
pub fn listing(file: &[u8], out: &mut [u8]) -> WriteAnswer
    ensures listed_to { ListedTo (decode file.now) out.old result out.new }
    ensures room { length (sample_text (decode file.now)) ≤ listing_octets }
    ensures example { ExampleHolds }
    ensures moved { ClockMoved file.now }
{
    let file = CheckedFile::new(file);
    if let Err(refusal) = check_room(&file, out.len()) {
        return WriteAnswer { refusal, length: 0 };
    }
    WriteAnswer {
        refusal: NONE,
        length: write_listing(&file, out),
    }
}

// Compares a text with the listing of a sample, line by line, up to the first line that differs. Cost: a step for each octet that
// agrees, and the steps of `listing` for these lines.
pub fn agreement(file: &[u8], text: &[u8]) -> SampleAgreement
    ensures value { result ≡ sample_agreement (decode file.now) text.now }
    ensures room { length (sample_text (decode file.now)) ≤ listing_octets }
{
    let file = CheckedFile::new(file);
    if file.layout.refusal != NONE {
        return SampleAgreement {
            refusal: file.layout.refusal,
            octets: 0,
            same: false,
        };
    }
    match compare_listing(&file, text) {
        Ok(octets) => SampleAgreement {
            refusal: NONE,
            octets,
            same: octets == text.len(),
        },
        Err(octets) => SampleAgreement {
            refusal: NONE,
            octets,
            same: false,
        },
    }
}
