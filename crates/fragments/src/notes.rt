// Notes of each arrival, made before the flags: whether an earlier arrival has its number, offset and length, and whether its packet is
// complete.
ghost use Rattle.std.specs.Prelude.{◌≡◌, ◌+◌, ◌≤◌, ◌<◌, length};
ghost use Rattle.rfc4737.specs.Judge.{sent_most, arrivals_most};
ghost use Rattle.fragments.specs.Private.{NumbersWithin};
ghost use Rattle.fragments.specs.Places.{Grouped, Run, NotedTo, Noted};
ghost use Rattle.fragments.specs.Arrivals.{pieces};

use crate::MAX_PACKETS;
use crate::arrivals::Arrivals;
use crate::cover::complete;
use crate::sort::put_in_order;
use crate::tables::{count_packets, fill_places, sum_counts};

// The length of the spare list: half of the greatest number of arrivals.
const SPARE_LEN: usize = MAX_PACKETS / 2;

// Notes the arrivals of packet s. `run` has their indices, sorted by key, so equal arrivals are neighbours.
fn note_run(arrivals: &Arrivals, s: u32, run: &[u16], marks: &mut [u8], wholes: &mut [u8])
    requires { Run (pieces arrivals.now) s run.now × NotedTo (pieces arrivals.now) s marks.old wholes.old }
    ensures { NotedTo (pieces arrivals.now) (s + 1) marks.new wholes.new }
{
    if run.is_empty() {
        return;
    }
    let whole = u8::from(complete(arrivals, s, run));
    let mut last = None;
    for place in run {
        let i = usize::from(*place);
        let key = arrivals.get(i).key();
        marks[i] = u8::from(last.is_some_and(|before| before == key));
        wholes[i] = whole;
        last = Some(key);
    }
}

// Notes the arrivals of each packet in turn.
fn note_packets(
    arrivals: &Arrivals,
    ends: &[u16],
    places: &mut [u16],
    marks: &mut [u8],
    wholes: &mut [u8],
)
    requires { NumbersWithin (length ends.now) arrivals.now.numbers.now × (length ends.now ≤ sent_most)
        × (length arrivals.now.numbers.now ≤ arrivals_most)
        × (length places.old ≡ length arrivals.now.numbers.now) × Grouped arrivals.now.numbers.now ends.now places.old
        × (length marks.old ≡ length arrivals.now.numbers.now) × (length wholes.old ≡ length arrivals.now.numbers.now) }
    ensures { Noted (pieces arrivals.now) marks.new wholes.new }
{
    let mut spare = [0u16; SPARE_LEN];
    let mut from = 0;
    for (p, end) in ends.iter().enumerate() {
        let to = usize::from(*end);
        let run = &mut places[from..to];
        put_in_order(arrivals, run, &mut spare);
        note_run(arrivals, p as u32 + 1, run, marks, wholes);
        from = to;
    }
}

// Notes all arrivals of `sent` packets.
pub(crate) fn note_arrivals(sent: u32, arrivals: &Arrivals, marks: &mut [u8], wholes: &mut [u8])
    requires { (sent ≤ sent_most) × NumbersWithin sent arrivals.now.numbers.now
        × (length arrivals.now.numbers.now ≤ arrivals_most)
        × (length marks.old ≡ length arrivals.now.numbers.now) × (length wholes.old ≡ length arrivals.now.numbers.now) }
    ensures { Noted (pieces arrivals.now) marks.new wholes.new }
{
    let mut table = [0u16; MAX_PACKETS];
    let mut order = [0u16; MAX_PACKETS];
    let k = sent as usize;
    let n = arrivals.len();
    let ends = &mut table[..k];
    let places = &mut order[..n];
    count_packets(arrivals.numbers, ends);
    sum_counts(ends);
    fill_places(arrivals.numbers, ends, places);
    note_packets(arrivals, ends, places, marks, wholes);
}
