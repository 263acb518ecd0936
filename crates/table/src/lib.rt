// Every record of a sample with named fields, as CSV or as JSON.
#![tactic(auto)]

ghost use Rattle.std.specs.Prelude.{true, false, ◌≤◌, length};
ghost use Rattle.sample.specs.Decode.{decode};
ghost use Rattle.table.specs.Text.{part_text, part_octets, PartTo, PartsJoin};

mod parts;
mod records;
mod whole;

use rfc4737::refusal::{NONE, Refusal};
use sample::WriteAnswer;
use whole::{Part, part_rows};

// The number of parts of a table.
pub const PARTS: u32 = 18;

// Room for any part, in octets.
pub const PART_OCTETS: usize = 131072;

// The length of the rows of a block of 256 records: 8 numbers for each.
const ROWS_LEN: usize = 2048;

// Writes a part of a sample's table to the start of `out` if it has room for it. The first `put` only finds the length of the part,
// since a refused call must leave `out` unchanged. `summary` does the same with all figures; one function for both would have a closure
// whose contract is longer than these lines.
fn write_part(file: &[u8], json: bool, part: u32, out: &mut [u8]) -> WriteAnswer
    ensures { PartTo json (decode file.now) part out.old result out.new
        × (length (part_text json (decode file.now) part) ≤ part_octets) × PartsJoin json (decode file.now) }
{
    let mut rows = [0u64; ROWS_LEN];
    let layout = part_rows(file, part, &mut rows);
    let whole = Part {
        file,
        layout,
        rows: &rows,
        counted: metrics::counts(file).counts,
        json,
        number: part,
    };
    let n = whole.put(&mut []);
    if layout.refusal != NONE {
        return WriteAnswer {
            refusal: layout.refusal,
            length: 0,
        };
    }
    if out.len() < n {
        return WriteAnswer::from(Err(Refusal::OutputShort));
    }
    whole.put(out);
    WriteAnswer::from(Ok(n as u32))
}

// Writes a part of a sample's table as comma-separated values: a line with the names of the fields, a line for each record, and a line with
// the counts. Parts 0 to 17, one after the other, are the whole table; any other part is empty. The part is written to the start of `out`;
// PART_OCTETS octets have room for any. Refusals: the file's; 8 if `out` is too short. If the call is refused, `out` stays unchanged. Cost:
// that of `metrics::record_rows`, and 16,384 octets of stack beside its own.
pub fn write_csv(file: &[u8], part: u32, out: &mut [u8]) -> WriteAnswer
    ensures part_to { PartTo false (decode file.now) part out.old result out.new }
    ensures room { length (part_text false (decode file.now) part) ≤ part_octets }
    ensures whole { PartsJoin false (decode file.now) }
{
    write_part(file, false, part, out)
}

// Writes a part of a sample's table as one JSON object: the label, every record as an object of named fields, and the counts. Parts, room,
// refusals and cost are those of `write_csv`.
pub fn write_json(file: &[u8], part: u32, out: &mut [u8]) -> WriteAnswer
    ensures part_to { PartTo true (decode file.now) part out.old result out.new }
    ensures room { length (part_text true (decode file.now) part) ≤ part_octets }
    ensures whole { PartsJoin true (decode file.now) }
{
    write_part(file, true, part, out)
}
