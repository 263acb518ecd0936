// The table by packet number. At index s - 1 it has ARRIVED if packet s has arrived, else the record of the jump that skipped it, or 0 if
// no jump has. Each index is written at most four times.
ghost use Rattle.std.specs.Prelude.{◌≡◌, ◌-◌, ◌≤◌, length, replicate};
ghost use Rattle.octets.specs.Memory.{over, splice};
ghost use Rattle.sweep.specs.Calls.{table_places};

use rfc4737::judge::{ARRIVALS_MOST, SENT_MOST};

// The length of the table: one number for each possible packet.
pub(crate) const PACKET_TABLE_LEN: usize = SENT_MOST as usize;

// The mark of a packet that has arrived.
pub(crate) const ARRIVED: u16 = ARRIVALS_MOST as u16 + 1;

// The state after the arrivals so far: the number of first arrivals, and NextExp.
#[derive(Clone, Copy)]
pub(crate) struct State {
    pub count: u32,
    pub next: u32,
}

// Sets the numbers of the table to 0.
pub(crate) fn clear(table: &mut [u16])
    requires { table_places ≤ length table.old }
    ensures { table.new ≡ over (replicate table_places 0) table.old }
{
    table[..PACKET_TABLE_LEN].fill(0);
}

// Stores the record of a jump at the indices from `from` to `to` - 1.
pub(crate) fn note_skipped(table: &mut [u16], from: usize, to: usize, jump: u16)
    requires { (from ≤ to) × (to ≤ length table.old) }
    ensures { table.new ≡ splice from (replicate (to - from) jump) table.old }
{
    table[from..to].fill(jump);
}
