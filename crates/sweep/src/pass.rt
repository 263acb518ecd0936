// The pass over the arrivals: stores the figures of each record in the lists, and updates the table.
ghost use Rattle.std.specs.Prelude.{◌≡◌, ◌+◌, ◌≤◌, ◌<◌, take, drop};
ghost use Rattle.sample.specs.Decode.{decode};
ghost use Rattle.metrics.specs.Records.{FileLayout, arrival_at, before, answer_at, answers_to};
ghost use Rattle.metrics.specs.Sample.{answers_of};
ghost use Rattle.sweep.specs.Figures.{figures_of, positions_of};
ghost use Rattle.sweep.specs.Calls.{table_places};
ghost use Rattle.sweep.specs.Private.{TableAfter, RoomIn, SweepReady, PutIn, FilledWith, SameLists, lent_in};

use crate::Figures;
use crate::lists::Lists;
use crate::table::{ARRIVED, State, note_skipped};
use rfc4737::Arrival;
use rfc4737::judge::ARRIVALS_MOST;
use rfc4737::numbering::{DUPLICATE, IN_ORDER, REORDERED_AFTER, REORDERED_BEFORE};
use sample::Layout;
use sample::widths::ARRIVAL_WIDTH;

// The flags: the numbers of an answer's cases, in one octet. They stay numbers, since the caller's list, in C too, holds octets.
const FLAG_IN_ORDER: u8 = IN_ORDER as u8;

const FLAG_AFTER: u8 = REORDERED_AFTER as u8;

const FLAG_BEFORE: u8 = REORDERED_BEFORE as u8;

const FLAG_DUPLICATE: u8 = DUPLICATE as u8;

// The greatest record. The mark of a packet that has arrived is greater.
const MAX_RECORD: usize = ARRIVALS_MOST as usize;

// A checked file with its layout.
#[derive(Clone, Copy)]
pub(crate) struct CheckedFile<'a> {
    pub file: &'a [u8],
    pub layout: Layout,
    pub ghost laid: { FileLayout (decode file.now) layout },
}

impl CheckedFile<'_> {
    // Returns the arrival of record i + 1, read without a test of the file's length.
    fn arrival_at(&self, i: usize) -> Arrival
        requires { i < self.now.layout.arrivals }
        ensures { (result ≡ arrival_at (decode self.now.file.now) i) × (1 ≤ result.number) × (result.number ≤ table_places) }
    {
        let start = sample::arrivals_at(self.layout) + ARRIVAL_WIDTH * i;
        let end = start + ARRIVAL_WIDTH;
        let twelve = &self.file[start..end];
        sample::arrival_of(twelve)
    }
}

// Passes record i + 1: stores its figures in the lists and updates the table. Cost of all records: O(A + K). Each case stores its own
// figures and returns, so that the compiler uses a branch and keeps the addresses of the lists in registers.
fn pass_record(
    checked: &CheckedFile,
    i: u32,
    table: &mut [u16],
    lists: &mut Lists,
    state: State,
) -> State
    requires { i < checked.now.layout.arrivals × TableAfter (before (decode checked.now.file.now) i) table.old state
        × RoomIn (i + 1) lists.old
        × (take i lists.old.positions.now ≡ positions_of (answers_to (decode checked.now.file.now) i)) }
    ensures { TableAfter (before (decode checked.now.file.now) (i + 1)) table.new result
        × (drop table_places table.new ≡ drop table_places table.old)
        × PutIn i (figures_of (answer_at (decode checked.now.file.now) i)) lists.old lists.new }
{
    let arrival = checked.arrival_at(i as usize);
    let number = arrival.number;
    let at = number as usize - 1;
    let mark = table[at] as usize;
    if MAX_RECORD < mark {
        let f = Figures {
            flag: FLAG_DUPLICATE,
            position: 0,
            extent: 0,
            late: 0,
        };
        lists.put(i, f);
        return state;
    }
    let count = state.count + 1;
    let next = state.next;
    if next <= number {
        let from = next as usize - 1;
        note_skipped(table, from, at, (i + 1) as u16);
        table[at] = ARRIVED;
        let f = Figures {
            flag: FLAG_IN_ORDER,
            position: count,
            extent: 0,
            late: 0,
        };
        lists.put(i, f);
        let after = number + 1;
        return State { count, next: after };
    }
    table[at] = ARRIVED;
    let jump = mark - 1;
    let extent = count - lists.positions[jump];
    let past = checked.arrival_at(jump).time;
    let own = arrival.time;
    if own < past {
        let f = Figures {
            flag: FLAG_BEFORE,
            position: count,
            extent,
            late: past - own,
        };
        lists.put(i, f);
        return State { count, next };
    }
    let f = Figures {
        flag: FLAG_AFTER,
        position: count,
        extent,
        late: own - past,
    };
    lists.put(i, f);
    State { count, next }
}

// Passes over all arrivals, with a table of zeros.
pub(crate) fn pass(checked: &CheckedFile, table: &mut [u16], lists: &mut Lists)
    requires { SweepReady (decode checked.now.file.now) checked.now.layout (lent_in table.old lists.old) }
    ensures { FilledWith (answers_of (decode checked.now.file.now)) (lent_in table.old lists.old) (lent_in table.new lists.new)
        × SameLists lists.old lists.new }
{
    let mut state = State { count: 0, next: 1 };
    for i in 0..checked.layout.arrivals {
        state = pass_record(checked, i, table, lists, state);
    }
}
