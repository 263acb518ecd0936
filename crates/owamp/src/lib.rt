// OWAMP packet records (RFC 4656, section 3.9): imported into two of the caller's lists, and written from a sample file. Every public call
// is total.
#![tactic(auto)]

ghost use Rattle.std.specs.Prelude.{◌≡◌, ◌*◌, ◌≤◌, length};
ghost use Rattle.octets.specs.Memory.{splice};
ghost use Rattle.owamp.specs.Record.{record_width, records_arrivals};
ghost use Rattle.merging.specs.Order.{OnlyOne};
ghost use Rattle.owamp.specs.Order.{time_of};
ghost use Rattle.owamp.specs.Clock.{RoundedDown};
ghost use Rattle.owamp.specs.Calls.{import_in, RecordsImportedFrom, records_of, arrivals_of_file, RecordsWrittenTo};
ghost use Rattle.owamp.specs.RoundTrip.{AcceptedLists, RecordsReadAgain};
ghost use Rattle.owamp.specs.Cases.{RecordsReadAsGiven, RecordsWrittenAsGiven};
ghost use Rattle.sample.specs.Output.{answer_in};
ghost use Rattle.sample.specs.Decode.{decode, layout_of};

mod clock;
mod fill;
mod judge;
mod order;
mod records;

use fill::{fill_arrivals, to_microseconds};
use judge::{check_records, judge_seconds};
use records::{WIDTH, put_packet_record};
use rfc4737::refusal::{NONE, Refusal};
use sample::{Layout, WriteAnswer};

// The answer of `import`: the refusal (0 for none), and the number of arrivals, 0 if refused. The refusal is a number, as
// `RecordsImportedFrom` and C have it.
#[derive(Clone, Copy)]
#[repr(C)]
pub struct RecordsImport {
    pub refusal: u32,
    pub arrivals: u32,
}

impl From<Result<u32, Refusal>> for RecordsImport {
    ghost from_gives = { λ imported answer. answer ≡ import_in imported };

    // The answer of an importer that found this many arrivals, or none with a refusal.
    fn from(imported: Result<u32, Refusal>) -> RecordsImport {
        match imported {
            Ok(arrivals) => RecordsImport {
                refusal: NONE,
                arrivals,
            },
            Err(refusal) => RecordsImport {
                refusal: refusal.number(),
                arrivals: 0,
            },
        }
    }
}

// Judges records and fills the start of both lists with their arrivals. Returns their number.
fn import_records(
    records: &[u8],
    k: u32,
    numbers: &mut [u32],
    times: &mut [u64],
) -> Result<u32, Refusal>
    ensures { RecordsImportedFrom k records.now numbers.old times.old (import_in result) numbers.new times.new }
{
    let count = check_records(records, k)?;
    if numbers.len() < count || times.len() < count {
        return Err(Refusal::OutputShort);
    }
    fill_arrivals(records, numbers, times);
    to_microseconds(&mut times[..count]);
    Ok(count as u32)
}

// Imports the records of K sent packets: fills the start of both lists with the arrivals, sorted by receive time. If the import is refused,
// both lists stay unchanged. Cost: O(A) if the records are in order or reversed, O(A log A) at most.
pub fn import(records: &[u8], k: u32, numbers: &mut [u32], times: &mut [u64]) -> RecordsImport
    ensures records_imported_from { RecordsImportedFrom k records.now numbers.old times.old result numbers.new
        times.new }
    ensures order { OnlyOne time_of (records_arrivals records.now) }
    ensures clock { RoundedDown }
    ensures accepted { AcceptedLists k records.now }
    ensures cases { RecordsReadAsGiven }
{
    RecordsImport::from(import_records(records, k, numbers, times))
}

// Writes the arrivals of an accepted file as records to the start of `out`.
fn write_records(file: &[u8], layout: Layout, out: &mut [u8])
    requires { ((layout ≡ layout_of (decode file.now)) × (layout.refusal ≡ 0))
        × (record_width * layout.arrivals ≤ length out.old) }
    ensures { out.new ≡ splice 0 (records_of (arrivals_of_file file.now)) out.old }
{
    for i in 0..layout.arrivals {
        let arrival = sample::arrival(file, layout, i);
        let start = WIDTH * (i as usize);
        let end = start + WIDTH;
        let lent = &mut out[start..end];
        put_packet_record(lent, arrival.number, arrival.time);
    }
}

// Judges the times of an accepted file, and writes its arrivals as records to the start of `out`. Returns the number of octets.
fn write_accepted(file: &[u8], layout: Layout, out: &mut [u8]) -> Result<u32, Refusal>
    requires { (layout ≡ layout_of (decode file.now)) × (layout.refusal ≡ 0) }
    ensures { RecordsWrittenTo file.now out.old (answer_in result) out.new }
{
    judge_seconds(file, layout)?;
    let end = WIDTH * (layout.arrivals as usize);
    if out.len() < end {
        return Err(Refusal::OutputShort);
    }
    write_records(file, layout, out);
    Ok(end as u32)
}

// Writes the arrivals of a sample file as records to the start of `out`. If the call is refused, `out` stays unchanged. Cost: O(A).
pub fn write(file: &[u8], out: &mut [u8]) -> WriteAnswer
    ensures records_written_to { RecordsWrittenTo file.now out.old result out.new }
    ensures again { RecordsReadAgain file.now }
    ensures cases { RecordsWrittenAsGiven }
{
    let layout = sample::check(file);
    // `sample::check` gives C's layout, whose refusal is a number.
    if layout.refusal != NONE {
        return WriteAnswer {
            refusal: layout.refusal,
            length: 0,
        };
    }
    WriteAnswer::from(write_accepted(file, layout, out))
}
