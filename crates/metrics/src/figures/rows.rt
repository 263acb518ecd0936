// Every figure of some records, by one pass of the engine: a row of eight numbers for each, one row after the other.
ghost use Rattle.std.specs.Prelude.{◌≡◌, ◌+◌, ◌-◌, ◌*◌, ◌≤◌, length};
ghost use Rattle.octets.specs.Memory.{over};
ghost use Rattle.sample.specs.Decode.{decode};
ghost use Rattle.metrics.specs.Rows.{row_of, rows_short, rows_from};
ghost use Rattle.metrics.specs.Private.Rows.{with_row, PassEnd};

use crate::engine::Engine;
use crate::engine::input::CheckedFile;
use crate::row_of;
use rfc4737::Answer;

// Whether a list of `places` places is too short for the rows of `arrivals` records.
pub(crate) fn rows_short(arrivals: u32, places: usize) -> bool
    ensures { result ≡ rows_short arrivals places }
{
    places / 8 < arrivals as usize
}

// Puts the row of record i + 1 after those of records from + 1 to i.
fn put_answer(rows: &mut [u64], from: u32, i: u32, answer: Answer)
    requires { from ≤ i → 8 * (i - from) + 8 ≤ length rows.old }
    ensures { rows.new ≡ with_row from i (row_of answer) rows.old }
{
    if i < from {
        return;
    }
    let at = 8 * ((i - from) as usize);
    let row = row_of(answer);
    // One by one, so that the row stays in registers: `copy_from_slice` tests whether the two lists overlap, and takes twice the steps.
    for k in 0..8 {
        rows[at + k] = row[k];
    }
}

// Returns after how many records a pass may end that is to meet the next `most` records after the first `from`. Past the last record
// nothing is left to meet: 0.
fn pass_end(arrivals: u32, from: u32, most: usize) -> u32
    ensures { PassEnd arrivals from most result }
{
    if arrivals <= from {
        return 0;
    }
    if most < (arrivals - from) as usize {
        return from + most as u32;
    }
    arrivals
}

// Puts the rows of the records after the first `from`, as many as there is room for.
pub(crate) fn put_rows(file: &CheckedFile, from: u32, rows: &mut [u64])
    ensures { rows.new ≡ over (rows_from (decode file.now.file.now) from (length rows.old)) rows.old }
{
    let mut engine = Engine::new();
    for i in 0..pass_end(file.layout.arrivals, from, rows.len() / 8) {
        let arrival = file.arrival_at(i);
        let answer = engine.advance(file, i, arrival).answer;
        put_answer(rows, from, i, answer);
    }
}
