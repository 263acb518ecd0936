// The second engine: one pass over the arrivals of a checked sample, with a table by packet number. It fills the caller's lists with the
// flag, position, extent and late time of every record. Cost: O(A + K).
#![tactic(auto)]

ghost use Rattle.std.specs.Prelude.{◌≡◌};
ghost use Rattle.sample.specs.Decode.{decode};
ghost use Rattle.sweep.specs.Calls.{lent, SweptTo, EnginesAgree, ReportAgrees, SweepMoved, RowsAgree};

mod lists;
mod pass;
mod table;

use lists::Lists;
use pass::{CheckedFile, pass};
use rfc4737::refusal::{NONE, Refusal};
use sample::{Layout, refused_layout};
use table::clear;

// The figures of a record: the number of its answer's case, its position, its extent, and the amount of its late time. Figures that it
// lacks are 0.
#[derive(Clone, Copy)]
pub struct Figures {
    pub flag: u8,
    pub position: u32,
    pub extent: u32,
    pub late: u64,
}

// The lists are parallel, and the refusal is a number in the layout, since C lends and receives them so, and `SweptTo` of specs/Calls.antt
// says so of them.
//
// Fills the lists with the figures of every record of a file, and sets the first 4,096 numbers of the table to 0. Returns the layout of
// `sample::check`, or refusal 8 if the table or a list is too short. If the call is refused, table and lists stay unchanged.
pub fn sweep(
    file: &[u8],
    table: &mut [u16],
    flags: &mut [u8],
    positions: &mut [u32],
    extents: &mut [u32],
    lates: &mut [u64],
) -> Layout
    ensures swept_to { SweptTo (decode file.now)
        (lent table.old flags.old positions.old extents.old lates.old) result
        (lent table.new flags.new positions.new extents.new lates.new) }
    ensures engines { EnginesAgree (decode file.now) result
        (lent table.new flags.new positions.new extents.new lates.new) }
    ensures report { ReportAgrees (decode file.now) result
        (lent table.new flags.new positions.new extents.new lates.new) }
    ensures rows { RowsAgree }
    ensures moved { SweepMoved file.now }
{
    let layout = sample::check(file);
    if layout.refusal != NONE {
        return layout;
    }
    let mut lists = Lists {
        flags,
        positions,
        extents,
        lates,
    };
    if lists.too_short(layout.arrivals, table.len()) {
        return refused_layout(Refusal::OutputShort.number());
    }
    let checked = CheckedFile { file, layout };
    clear(table);
    pass(&checked, table, &mut lists);
    clear(table);
    layout
}
