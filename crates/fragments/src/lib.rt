// Fragments (RFC 4737, Appendix B): the order flag of packets that may be fragmented on the way, and which arrivals are usable in the
// figures of a sample. The call is total.
#![tactic(auto)]

ghost use Rattle.std.specs.Prelude.{◌≡◌, ◌≤◌, length};
ghost use Rattle.octets.specs.Memory.{over};
ghost use Rattle.rfc4737.specs.Judge.{sent_most, arrivals_most};
ghost use Rattle.rfc4737.specs.Refused.{refusal_in};
ghost use Rattle.fragments.specs.Pieces.{pieces_in};
ghost use Rattle.fragments.specs.Order.{flags};
ghost use Rattle.fragments.specs.Usable.{usable};
ghost use Rattle.fragments.specs.Private.{NumbersWithin};
ghost use Rattle.fragments.specs.Arrivals.{pieces};
ghost use Rattle.fragments.specs.Calls.{OrderedTo};
ghost use Rattle.fragments.specs.Whole.{WholeFlags};
ghost use Rattle.fragments.specs.Cases.{FlaggedAsGiven};

mod arrival;
mod arrivals;
mod cover;
mod flags;
mod judge;
mod notes;
mod sort;
mod tables;

use arrivals::Arrivals;
use flags::fill_flags_and_used;
use judge::accept;
use notes::note_arrivals;
use rfc4737::judge::SENT_MOST;
use rfc4737::refusal::{Refusal, number_in};

// The greatest number of packets, and of arrivals.
const MAX_PACKETS: usize = SENT_MOST as usize;

// An arrival: number, time, length in octets, more-fragments flag (set if not 0, as C lends it) and fragment offset.
#[derive(Clone, Copy)]
pub struct Piece {
    pub number: u32,
    pub time: u64,
    pub length: u16,
    pub more: u8,
    pub offset: u16,
}

// What is expected next: NextExp, FragSeq# and NextExpFrag.
#[derive(Clone, Copy)]
pub struct Expected {
    pub next: u32,
    pub packet: u32,
    pub fragment: u32,
}

// Fills both lists for accepted arrivals.
fn order_accepted(k: u32, arrivals: &Arrivals, flagged: &mut [u8], used: &mut [u8])
    requires { (k ≤ sent_most) × NumbersWithin k arrivals.now.numbers.now × (length arrivals.now.numbers.now ≤ arrivals_most)
        × (length arrivals.now.numbers.now ≤ length flagged.old) × (length arrivals.now.numbers.now ≤ length used.old) }
    ensures { (flagged.new ≡ over (flags (pieces arrivals.now)) flagged.old) × (used.new ≡ over (usable (pieces arrivals.now)) used.old) }
{
    let n = arrivals.len();
    let marks = &mut flagged[..n];
    let wholes = &mut used[..n];
    note_arrivals(k, arrivals, marks, wholes);
    fill_flags_and_used(arrivals, marks, wholes);
}

// Judges the lists and fills both lists for accepted arrivals.
fn try_order(
    k: u32,
    numbers: &[u32],
    times: &[u64],
    lengths: &[u16],
    mores: &[u8],
    offsets: &[u16],
    flagged: &mut [u8],
    used: &mut [u8],
) -> Result<(), Refusal>
    ensures { OrderedTo k numbers.now times.now lengths.now mores.now
        offsets.now flagged.old used.old (refusal_in result) flagged.new used.new }
{
    let flag_room = flagged.len();
    let used_room = used.len();
    let arrivals = accept(
        k, numbers, times, lengths, mores, offsets, flag_room, used_room,
    )?;
    order_accepted(k, &arrivals, flagged, used);
    Ok(())
}

// Fills the start of `flagged` with the order flags of the arrivals, and the start of `used` with 1 for each usable arrival and 0 for any
// other. Returns the refusal, 0 for none. If the call is refused, both lists stay unchanged. Cost: O(A log A + K) for A arrivals of K
// packets; O(A + K) if no packet has more than 16 arrivals.
pub fn order(
    k: u32,
    numbers: &[u32],
    times: &[u64],
    lengths: &[u16],
    mores: &[u8],
    offsets: &[u16],
    flagged: &mut [u8],
    used: &mut [u8],
) -> u32
    ensures ordered_to { OrderedTo k numbers.now times.now lengths.now mores.now
        offsets.now flagged.old used.old result flagged.new used.new }
    ensures whole { WholeFlags (pieces_in numbers.entry times.entry lengths.entry mores.entry offsets.entry) }
    ensures cases { FlaggedAsGiven }
{
    number_in(try_order(k, numbers, times, lengths, mores, offsets, flagged, used))
}
