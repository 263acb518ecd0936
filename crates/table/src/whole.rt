// Writes the parts of a table: the text before the records, the records, and the text after them. A part is chosen by its number, as
// `part_text` has it.
ghost use Rattle.std.specs.Prelude.{◌≡◌, ◌+◌, ◌-◌, ◌*◌, ◌≤◌, ◌++◌, min, length};
ghost use Rattle.octets.specs.Below.{Octets};
ghost use Rattle.rfc4737.specs.Runs.{counts};
ghost use Rattle.sample.specs.Decode.{decode};
ghost use Rattle.metrics.specs.Sample.{answers_of};
ghost use Rattle.metrics.specs.Records.{FileLayout};
ghost use Rattle.writing.specs.Parts.{joined};
ghost use Rattle.writing.specs.Put.{Put};
ghost use Rattle.table.specs.Text.{start_text, end_text, records_from, part_text, part_octets};
ghost use Rattle.table.specs.Private.Pieces.{sent_pieces, count_pieces, run_pieces};
ghost use Rattle.table.specs.Private.Rows.{RowsKnown, PartRows};

use crate::parts::{Line, write_either, write_value};
use crate::records::{Row, write_record};
use rfc4737::{Counts, Runs};
use sample::Layout;

// Writes the text before the records.
#[tactic(auto, unfolding(crate::specs::Text::start_text))]
fn write_before(out: &mut Line, json: bool, label: &[u8])
    requires { (length out.old + 400 ≤ 512) × (length label.now ≤ 64) }
    ensures written { out.new ≡ out.old ++ start_text json label.now }
    ensures room { length out.new ≤ length out.old + 400 }
{
    if json {
        summary::write_label_member(out, label);
        out.word(b",\"records\":[\n");
    } else {
        out.word(
            b"record,number,time_us,kind,position,jump_size,extent,late_us,byte_offset,largest_n,first_copy,sent,arrivals,arrived,reordered,copies,closed_runs,sum_of_squares,open_run\n",
        );
    }
}

// Writes K and A.
#[tactic(auto, unfolding(crate::specs::Private::Pieces::sent_pieces))]
fn write_sent(out: &mut Line, json: bool, sent: u32, arrivals: u32)
    requires { length out.old + 112 ≤ 512 }
    ensures written { out.new ≡ out.old ++ joined (sent_pieces json sent arrivals) }
    ensures room { length out.new ≤ length out.old + 112 }
{
    write_value(
        out,
        json,
        b"\n],\"counts\":{\"sent\":",
        b",,,counts,,,,,,,,",
        sent as u64,
    );
    write_value(out, json, b",\"arrivals\":", b",", arrivals as u64);
}

// Writes L, the reordered packets and the copies.
#[tactic(auto, unfolding(crate::specs::Private::Pieces::count_pieces))]
fn write_counts(out: &mut Line, json: bool, counts: Counts)
    requires { length out.old + 168 ≤ 512 }
    ensures written { out.new ≡ out.old ++ joined (count_pieces json counts) }
    ensures room { length out.new ≤ length out.old + 168 }
{
    write_value(out, json, b",\"arrived\":", b",", counts.arrived as u64);
    write_value(out, json, b",\"reordered\":", b",", counts.reordered as u64);
    write_value(out, json, b",\"copies\":", b",", counts.duplicates as u64);
}

// Writes the runs, and the end of the text.
#[tactic(auto, unfolding(crate::specs::Private::Pieces::run_pieces))]
fn write_runs(out: &mut Line, json: bool, runs: Runs)
    requires { length out.old + 204 ≤ 512 }
    ensures written { out.new ≡ out.old ++ joined (run_pieces json runs) }
    ensures room { length out.new ≤ length out.old + 204 }
{
    write_value(out, json, b",\"closed_runs\":", b",", runs.closed as u64);
    write_value(
        out,
        json,
        b",\"sum_of_squares\":",
        b",",
        runs.squares as u64,
    );
    write_value(out, json, b",\"open_run\":", b",", runs.current as u64);
    write_either(out, json, b"}}\n", b"\n");
}

// Writes the text after the records.
fn write_after(out: &mut Line, json: bool, layout: Layout, counts: Counts)
    requires { length out.old + 484 ≤ 512 }
    ensures written { out.new ≡ out.old ++ end_text json layout.sent layout.arrivals counts }
    ensures room { length out.new ≤ length out.old + 484 }
{
    let runs = counts.runs;
    write_sent(out, json, layout.sent, layout.arrivals);
    write_counts(out, json, counts);
    write_runs(out, json, runs);
}

// Returns the number of records before block `block`. A block has 256 records.
fn block_start(block: u32, arrivals: u32) -> u32
    requires { block ≤ 16 }
    ensures { result ≡ min (256 * block) arrivals }
{
    arrivals.min(256 * block)
}

// Puts the rows of the records of a part to the start of `rows`, and returns the layout of the file. A part without
// records needs no pass of the engine.
pub(crate) fn part_rows(file: &[u8], part: u32, rows: &mut [u64]) -> Layout
    requires { length rows.old ≡ 2048 }
    ensures { FileLayout (decode file.now) result × PartRows (decode file.now) part rows.new }
{
    match part {
        1..=16 => metrics::rows_from(file, 256 * (part - 1), rows),
        _ => sample::check(file),
    }
}

// A part of the table of a file, with what it is written from: the file's layout, the rows of the part's records from the start of `rows`,
// and the counts.
#[derive(Clone, Copy)]
pub(crate) struct Part<'a> {
    pub file: &'a [u8],
    pub layout: Layout,
    pub rows: &'a [u64],
    pub counted: Counts,
    pub json: bool,
    pub number: u32,
    ghost laid: { FileLayout (decode file.now) layout },
    ghost octets: { Octets file.now },
    ghost known: { PartRows (decode file.now) number rows.now },
    ghost counts_known: { counted ≡ counts (answers_of (decode file.now)) },
}

impl Part<'_> {
    // Copies records from + 1 to `to`, whose rows are known, one after the other to the start of `out` if it has room for all of them.
    // Returns their length. The records are copied line by line, since a `Text` for a part would need 131,072 octets of stack.
    fn put_records(&self, from: u32, to: u32, out: &mut [u8]) -> usize
        requires { RowsKnown (decode self.now.file.now) from to self.now.rows.now
            × (from ≤ to) × (to ≤ self.now.layout.arrivals) × (to ≤ from + 256) }
        ensures { (result ≤ part_octets)
            × Put 0 result (records_from self.now.json (decode self.now.file.now) from (to - from)) out.old out.new }
    {
        let rows = self.rows;
        let mut line = Line::new();
        let mut at: usize = 0;
        for i in from..to {
            let arrival = sample::arrival(self.file, self.layout, i);
            let start = 8 * ((i - from) as usize);
            line.clear();
            let row = Row {
                numbers: &rows[start..start + 8],
            };
            write_record(&mut line, self.json, i, arrival, &row);
            let text = line.octets();
            octets::put_octets(out, at, text);
            at += text.len();
        }
        at
    }

    // Copies the part to the start of `out` if it has room for it. Returns the length of the part.
    pub(crate) fn put(&self, out: &mut [u8]) -> usize
        ensures { (result ≤ part_octets)
            × Put 0 result (part_text self.now.json (decode self.now.file.now) self.now.number) out.old out.new }
    {
        let mut line = Line::new();
        match self.number {
            0 => write_before(&mut line, self.json, sample::label(self.file)),
            1..=16 => {
                let from = block_start(self.number - 1, self.layout.arrivals);
                let to = block_start(self.number, self.layout.arrivals);
                return self.put_records(from, to, out);
            }
            17 => write_after(&mut line, self.json, self.layout, self.counted),
            _ => {}
        }
        let text = line.octets();
        octets::put_octets(out, 0, text);
        text.len()
    }
}
