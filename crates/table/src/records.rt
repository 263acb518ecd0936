// Writes the text of a record.
ghost use Rattle.std.specs.Prelude.{◌≡◌, ◌+◌, ◌≤◌, ◌++◌, length};
ghost use Rattle.rfc4737.specs.declared.Answer.{Answer};
ghost use Rattle.rfc4737.specs.declared.LateTime.{LateTime};
ghost use Rattle.rfc4737.specs.declared.ReorderedFigures.{ReorderedFigures};
ghost use Rattle.rfc4737.specs.Numbering.{reordered_number, amount_of};
ghost use Rattle.metrics.specs.Rows.{row_of};
ghost use Rattle.writing.specs.Parts.{joined};
ghost use Rattle.table.specs.Text.{row_text};
ghost use Rattle.table.specs.Private.Pieces.{opening, start_pieces, in_order_pieces, lateness_pieces, offset_pieces, duplicate_pieces, answer_pieces};

use crate::parts::{Line, write_either, write_value};
use rfc4737::numbering::{DUPLICATE, IN_ORDER, REORDERED_BEFORE};
use rfc4737::{Arrival, LateTime};

// Writes the text before the number of record i + 1.
#[tactic(auto, unfolding(crate::specs::Private::Pieces::opening))]
fn write_opening(out: &mut Line, json: bool, i: u32)
    requires { length out.old + 36 ≤ 512 }
    ensures written { out.new ≡ out.old ++ opening json i }
    ensures room { length out.new ≤ length out.old + 36 }
{
    if i == 0 {
        write_either(out, json, b"{\"record\":", b"");
    } else {
        write_either(out, json, b",\n{\"record\":", b"");
    }
}

// Writes record i + 1, its sequence number and its arrival time.
#[tactic(auto, unfolding(crate::specs::Private::Pieces::start_pieces))]
fn write_start(out: &mut Line, json: bool, i: u32, arrival: Arrival)
    requires { length out.old + 168 ≤ 512 }
    ensures written { out.new ≡ out.old ++ joined (start_pieces json i arrival) }
    ensures room { length out.new ≤ length out.old + 168 }
{
    write_opening(out, json, i);
    out.number(i as u64 + 1);
    write_value(out, json, b",\"number\":", b",", arrival.number as u64);
    write_value(out, json, b",\"time_us\":", b",", arrival.time);
}

// Writes the answer for an in-order packet.
#[tactic(auto, unfolding(crate::specs::Private::Pieces::in_order_pieces))]
fn write_in_order(out: &mut Line, json: bool, position: u64, jump: u64)
    requires { length out.old + 148 ≤ 512 }
    ensures written { out.new ≡ out.old ++ joined (in_order_pieces json position jump) }
    ensures room { length out.new ≤ length out.old + 148 }
{
    write_value(
        out,
        json,
        b",\"kind\":\"in_order\",\"position\":",
        b",in_order,",
        position,
    );
    write_value(out, json, b",\"jump_size\":", b",", jump);
    write_either(out, json, b"}", b",,,,,,,,,,,,,\n");
}

// Returns the late time with the number `kind` of its case and the value `amount` without a sign.
fn late_in(kind: u64, amount: u64) -> LateTime
    ensures { (t : LateTime) → kind ≡ reordered_number t → amount ≡ amount_of t → result ≡ t }
{
    if kind == REORDERED_BEFORE as u64 {
        LateTime::Before(amount)
    } else {
        LateTime::After(amount)
    }
}

// The row of a record, as `metrics::record_rows` puts it: 8 numbers, a part of the list of all rows.
#[derive(Clone, Copy)]
pub(crate) struct Row<'a> {
    pub numbers: &'a [u64],
    ghost eight: { length numbers.now ≡ 8 },
}

// Writes the position, the extent and the late time of a reordered packet from its row.
#[tactic(auto, unfolding(crate::specs::Private::Pieces::lateness_pieces))]
fn write_lateness(out: &mut Line, json: bool, row: &Row)
    requires { length out.old + 169 ≤ 512 }
    ensures written { (f : ReorderedFigures) → row.now.numbers.now ≡ row_of (Answer.Reordered f) → out.new ≡ out.old ++ joined (lateness_pieces json f.position f.extent f.late) }
    ensures room { length out.new ≤ length out.old + 169 }
{
    write_value(
        out,
        json,
        b",\"kind\":\"reordered\",\"position\":",
        b",reordered,",
        row.numbers[1],
    );
    write_value(out, json, b",\"extent\":", b",,", row.numbers[3]);
    write_either(out, json, b",\"late_us\":", b",");
    out.late_time(late_in(row.numbers[0], row.numbers[4]));
}

// Writes the byte offset and the largest n of a reordered packet.
#[tactic(auto, unfolding(crate::specs::Private::Pieces::offset_pieces))]
fn write_offset(out: &mut Line, json: bool, offset: u64, largest: u64)
    requires { length out.old + 148 ≤ 512 }
    ensures written { out.new ≡ out.old ++ joined (offset_pieces json offset largest) }
    ensures room { length out.new ≤ length out.old + 148 }
{
    write_value(out, json, b",\"byte_offset\":", b",", offset);
    write_value(out, json, b",\"largest_n\":", b",", largest);
    write_either(out, json, b"}", b",,,,,,,,,\n");
}

// Writes the answer for a reordered packet from its row.
#[tactic(auto, unfolding(crate::specs::Private::Pieces::answer_pieces))]
fn write_reordered(out: &mut Line, json: bool, row: &Row)
    requires { length out.old + 317 ≤ 512 }
    ensures written { (f : ReorderedFigures) → row.now.numbers.now ≡ row_of (Answer.Reordered f) → out.new ≡ out.old ++ joined (answer_pieces json (Answer.Reordered f)) }
    ensures room { length out.new ≤ length out.old + 317 }
{
    write_lateness(out, json, row);
    write_offset(out, json, row.numbers[5], row.numbers[6]);
}

// Writes the answer for a duplicate.
#[tactic(auto, unfolding(crate::specs::Private::Pieces::duplicate_pieces))]
fn write_duplicate(out: &mut Line, json: bool, first: u64)
    requires { length out.old + 92 ≤ 512 }
    ensures written { out.new ≡ out.old ++ joined (duplicate_pieces json first) }
    ensures room { length out.new ≤ length out.old + 92 }
{
    write_value(
        out,
        json,
        b",\"kind\":\"copy\",\"first_copy\":",
        b",copy,,,,,,,",
        first,
    );
    write_either(out, json, b"}", b",,,,,,,,\n");
}

// Writes the answer for a record from its row.
#[tactic(auto, unfolding(crate::specs::Private::Pieces::answer_pieces))]
fn write_answer(out: &mut Line, json: bool, row: &Row)
    requires { length out.old + 317 ≤ 512 }
    ensures written { (a : Answer) → row.now.numbers.now ≡ row_of a → out.new ≡ out.old ++ joined (answer_pieces json a) }
    ensures room { length out.new ≤ length out.old + 317 }
{
    let kind = row.numbers[0];
    if kind == IN_ORDER as u64 {
        write_in_order(out, json, row.numbers[1], row.numbers[2]);
    } else if kind == DUPLICATE as u64 {
        write_duplicate(out, json, row.numbers[7]);
    } else {
        write_reordered(out, json, row);
    }
}

// Writes record i + 1.
pub(crate) fn write_record(out: &mut Line, json: bool, i: u32, arrival: Arrival, row: &Row)
    requires { length out.old + 485 ≤ 512 }
    ensures written { (a : Answer) → row.now.numbers.now ≡ row_of a → out.new ≡ out.old ++ row_text json i arrival a }
    ensures room { length out.new ≤ length out.old + 485 }
{
    write_start(out, json, i, arrival);
    write_answer(out, json, row);
}
