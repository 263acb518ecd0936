// Checks, reads and writes sample files. Every public call is total.
#![tactic(auto)]

ghost use Rattle.std.specs.Prelude.{◌≡◌, ℕ, ◌+◌, ◌*◌, List, IfOk};
ghost use Rattle.rfc4737.specs.Refused.{refusal_in};
ghost use Rattle.sample.specs.Format.{longest};
ghost use Rattle.sample.specs.Decode.{arrival_in, decode, refused, sample_of, layout_of};
ghost use Rattle.sample.specs.Places.{sizes_at, arrivals_at, size_found, arrival_found, SizeOfSample, ArrivalOfSample, ArrivalsFrom};
ghost use Rattle.sample.specs.Calls.{label_place, layout_in, ReadFrom, WrittenTo, lists_short};
ghost use Rattle.sample.specs.Output.{answer_in};
ghost use Rattle.sample.specs.Judge.{sample_refusal};
ghost use Rattle.sample.specs.Cases.{RefusalsInOrder};
ghost use Rattle.sample.specs.RoundTrip.{ExactFile, Lengths, WrittenAgain, ReadAgain};

mod fill;
mod judge;
mod sections;
pub mod widths;

use judge::{judge_file, some_unshown};
use rfc4737::Arrival;
use rfc4737::judge::{ARRIVALS_MOST, SENT_MOST, check_lists, outside};
use rfc4737::refusal::{NONE, Refusal};
use sections::{end_of, section_at};
use widths::{ARRIVAL_WIDTH, COUNT_WIDTH, NUMBER_WIDTH, OCTET_WIDTH, SIZE_WIDTH, TIME_WIDTH};

// The greatest length of a label, in octets.
const LABEL_MOST: u64 = 64;

// The length of the longest sample, in octets.
pub const LONGEST: usize = 57_414;

// The layout of a file: the refusal (0 for none), the length of the label, K and A. With a refusal the other three are 0. The
// refusal is a number, since `check` promises `layout_of (decode ..)`, which gives one; C receives the same.
#[derive(Clone, Copy)]
#[repr(C)]
pub struct Layout {
    pub refusal: u32,
    pub label: u32,
    pub sent: u32,
    pub arrivals: u32,
}

// A writer's answer: the refusal (0 for none), and the number of octets written, 0 with a refusal. The refusal is a
// number, as `Output` of specs/ and C have it.
#[derive(Clone, Copy)]
#[repr(C)]
pub struct WriteAnswer {
    pub refusal: u32,
    pub length: u32,
}

// The layout of a refused file. It takes any number: a `Refusal` would ask more of callers.
pub fn refused_layout(refusal: u32) -> Layout
    ensures { result ≡ layout_of (refused refusal) }
{
    Layout {
        refusal,
        label: 0,
        sent: 0,
        arrivals: 0,
    }
}

impl From<Result<Layout, Refusal>> for Layout {
    ghost from_gives = { λ checked layout. layout ≡ layout_in checked };

    // The layout of a file that was checked, also of a refused one.
    fn from(checked: Result<Layout, Refusal>) -> Layout {
        match checked {
            Ok(layout) => layout,
            Err(refusal) => refused_layout(refusal.number()),
        }
    }
}

impl From<Result<u32, Refusal>> for WriteAnswer {
    ghost from_gives = { λ written answer. answer ≡ answer_in written };

    // The answer of a writer that wrote this many octets, or none with a refusal.
    fn from(written: Result<u32, Refusal>) -> WriteAnswer {
        match written {
            Ok(length) => WriteAnswer {
                refusal: NONE,
                length,
            },
            Err(refusal) => WriteAnswer {
                refusal: refusal.number(),
                length: 0,
            },
        }
    }
}

// The layout of an accepted file. Checks in order: the label's section and its octets, the other two sections, the end of the file, then
// the arrivals in turn.
fn accepted_layout(file: &[u8]) -> Result<Layout, Refusal>
    ensures value { layout_in result ≡ layout_of (decode file.now) }
    ensures accepted { IfOk result (λ layout. layout.refusal ≡ 0) }
{
    let label = section_at(file, 0, OCTET_WIDTH, 0, LABEL_MOST, Refusal::LongLabel)?;
    if some_unshown(&file[COUNT_WIDTH..label.end]) {
        return Err(Refusal::OctetOutside);
    }
    let sent = section_at(
        file,
        label.end,
        SIZE_WIDTH,
        1,
        SENT_MOST,
        Refusal::SentOutside,
    )?;
    let arrived = section_at(
        file,
        sent.end,
        ARRIVAL_WIDTH,
        0,
        ARRIVALS_MOST,
        Refusal::ManyArrivals,
    )?;
    if arrived.end < file.len() {
        return Err(Refusal::OctetsFollow);
    }
    judge_file(
        file,
        sent.end + COUNT_WIDTH,
        sent.count as u64,
        arrived.count,
    )?;
    Ok(Layout {
        refusal: NONE,
        label: label.count as u32,
        sent: sent.count as u32,
        arrivals: arrived.count as u32,
    })
}

// Checks a whole file.
pub fn check(file: &[u8]) -> Layout
    ensures value { result ≡ layout_of (decode file.now) }
    ensures exact { ExactFile file.now }
    ensures lengths { (LONGEST ≡ longest) × Lengths file.now }
    ensures order { RefusalsInOrder }
{
    Layout::from(accepted_layout(file))
}

// Returns the label of a file, as a part of the file; for a refused file, the empty part at its start.
pub fn label(file: &[u8]) -> &[u8]
    ensures { (result.now ≡ (sample_of (decode file.now)).label)
        × (result.ref_ptr ≡ (file.entry.ref_ptr.0, label_place (decode file.now) + file.entry.ref_ptr.1)) }
{
    let Ok(layout) = accepted_layout(file) else {
        return &file[0..0];
    };
    let end = end_of(0, OCTET_WIDTH, layout.label as usize);
    &file[COUNT_WIDTH..end]
}

// The offset of the first payload size.
fn sizes_at(layout: Layout) -> usize
    ensures { result ≡ sizes_at layout }
{
    end_of(0, OCTET_WIDTH, layout.label as usize) + COUNT_WIDTH
}

// The offset of the first arrival of an accepted file.
pub fn arrivals_at(layout: Layout) -> usize
    ensures value { result ≡ arrivals_at layout }
    ensures sample { (file : List ℕ) → ArrivalsFrom file layout result }
{
    let sent_at = end_of(0, OCTET_WIDTH, layout.label as usize);
    end_of(sent_at, SIZE_WIDTH, layout.sent as usize) + COUNT_WIDTH
}

// Whether one of the caller's lists, of the lengths `sizes`, `numbers` and `times`, is too short for a file of this layout.
fn too_short(layout: Layout, sizes: usize, numbers: usize, times: usize) -> bool
    ensures { result ≡ lists_short layout sizes numbers times }
{
    let arrivals = layout.arrivals as usize;
    sizes < layout.sent as usize || numbers < arrivals || times < arrivals
}

// Fills the lists of sizes, numbers and times with the values of an accepted file. With a refusal they stay as they were.
fn read_lists(
    file: &[u8],
    sizes: &mut [u16],
    numbers: &mut [u32],
    times: &mut [u64],
) -> Result<Layout, Refusal>
    ensures { ReadFrom file.now sizes.old numbers.old times.old
        (layout_in result) sizes.new numbers.new times.new }
{
    let layout = accepted_layout(file)?;
    if too_short(layout, sizes.len(), numbers.len(), times.len()) {
        return Err(Refusal::OutputShort);
    }
    fill::fill_sizes(file, sizes_at(layout), layout.sent as usize, sizes);
    let arrivals = layout.arrivals as usize;
    fill::fill_arrivals(file, arrivals_at(layout), arrivals, numbers, times);
    Ok(layout)
}

// Reads a file: fills the lists of sizes, numbers and times from their start. With a refusal they stay as they were.
pub fn read(file: &[u8], sizes: &mut [u16], numbers: &mut [u32], times: &mut [u64]) -> Layout
    ensures read_from { ReadFrom file.now sizes.old numbers.old times.old
        result sizes.new numbers.new times.new }
    ensures again { WrittenAgain file.now }
{
    Layout::from(read_lists(file, sizes, numbers, times))
}

// Checks a label and lists: the first refusal that applies, as `sample_refusal` of specs/Judge says.
fn check_sample(label: &[u8], sizes: &[u16], numbers: &[u32], times: &[u64]) -> Result<(), Refusal>
    ensures { refusal_in result ≡ sample_refusal label.now sizes.now numbers.now times.now }
{
    if outside(0, LABEL_MOST, label.len() as u64) {
        return Err(Refusal::LongLabel);
    }
    if some_unshown(label) {
        return Err(Refusal::OctetOutside);
    }
    check_lists(sizes.len() as u64, numbers, times)
}

// Writes the file of a label and lists from the start of `out`; returns its length. With a refusal `out` stays as it was.
fn write_sample(
    label: &[u8],
    sizes: &[u16],
    numbers: &[u32],
    times: &[u64],
    out: &mut [u8],
) -> Result<u32, Refusal>
    ensures { WrittenTo label.now sizes.now numbers.now times.now
        out.old (answer_in result) out.new }
{
    check_sample(label, sizes, numbers, times)?;
    let sent_at = end_of(0, OCTET_WIDTH, label.len());
    let arrived_at = end_of(sent_at, SIZE_WIDTH, sizes.len());
    let end = end_of(arrived_at, ARRIVAL_WIDTH, numbers.len());
    if out.len() < end {
        return Err(Refusal::OutputShort);
    }
    sections::write_label(label, out);
    sections::write_sizes(sizes, out, sent_at);
    sections::write_arrivals(numbers, times, out, arrived_at);
    Ok(end as u32)
}

// Writes the file of a label and lists from the start of `out`. With a refusal `out` stays as it was.
pub fn write(
    label: &[u8],
    sizes: &[u16],
    numbers: &[u32],
    times: &[u64],
    out: &mut [u8],
) -> WriteAnswer
    ensures written_to { WrittenTo label.now sizes.now numbers.now times.now
        out.old result out.new }
    ensures again { ReadAgain label.now sizes.now numbers.now times.now }
{
    WriteAnswer::from(write_sample(label, sizes, numbers, times, out))
}

// The payload size of packet j + 1 of an accepted file.
pub fn payload_size(file: &[u8], layout: Layout, j: u32) -> u16
    ensures value { result ≡ size_found file.now layout j }
    ensures sample { SizeOfSample file.now layout j result }
{
    let at = sizes_at(layout) + SIZE_WIDTH * (j as usize);
    octets::number_at(file, at, SIZE_WIDTH) as u16
}

// Reads an arrival from its twelve octets. This is a function of its own so that the compiler knows the length of the part, and reads
// each number at once.
pub fn arrival_of(twelve: &[u8]) -> Arrival
    ensures { result ≡ arrival_in twelve.now }
{
    let number = octets::number_at(twelve, 0, NUMBER_WIDTH) as u32;
    let time = octets::number_at(twelve, NUMBER_WIDTH, TIME_WIDTH);
    Arrival { number, time }
}

// The arrival of record i + 1 of an accepted file; zeros if the file ends before it, as `arrival_found` says.
pub fn arrival(file: &[u8], layout: Layout, i: u32) -> Arrival
    ensures value { result ≡ arrival_found file.now layout i }
    ensures sample { ArrivalOfSample file.now layout i result }
{
    let start = arrivals_at(layout) + ARRIVAL_WIDTH * (i as usize);
    let end = start + ARRIVAL_WIDTH;
    if file.len() < end {
        return Arrival { number: 0, time: 0 };
    }
    let twelve = &file[start..end];
    arrival_of(twelve)
}
