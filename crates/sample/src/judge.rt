// Checks a label's octets and a file's arrivals.
ghost use Rattle.std.specs.Prelude.{◌≡◌, ◌+◌, ◌*◌, ◌≤◌, length, drop};
ghost use Rattle.rfc4737.specs.Judge.{judge};
ghost use Rattle.rfc4737.specs.Refused.{refusal_in};
ghost use Rattle.sample.specs.Format.{arrival_width, items_in};
ghost use Rattle.sample.specs.Judge.{some_unshown};
ghost use Rattle.sample.specs.Decode.{arrival_in};

use crate::arrival_of;
use crate::widths::ARRIVAL_WIDTH;
use rfc4737::judge::{judge_next, outside};
use rfc4737::refusal::Refusal;

// The least octet of a label.
const SHOWN_LEAST: u64 = 0x20;

// The greatest octet of a label.
const SHOWN_MOST: u64 = 0x7E;

// Whether one of the octets lies outside SHOWN_LEAST to SHOWN_MOST.
pub(crate) fn some_unshown(octets: &[u8]) -> bool
    ensures { result ≡ some_unshown octets.now }
{
    octets.iter().any(|octet| outside(SHOWN_LEAST, SHOWN_MOST, u64::from(*octet)))
}

// Judges the `count` arrivals from offset `at` on, in turn.
pub(crate) fn judge_file(file: &[u8], at: usize, sent: u64, count: usize) -> Result<(), Refusal>
    requires { at + arrival_width * count ≤ length file.now }
    ensures { refusal_in result
        ≡ judge sent 0 (items_in arrival_width arrival_in count (drop at file.now)) }
{
    let items = &file[at..at + ARRIVAL_WIDTH * count];
    let mut reference = 0;
    for twelve in items.chunks_exact(ARRIVAL_WIDTH) {
        let arrival = arrival_of(twelve);
        let judged = judge_next(sent, reference, u64::from(arrival.number), arrival.time);
        judged.refusal?;
        reference = judged.reference;
    }
    Ok(())
}
