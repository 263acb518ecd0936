// The numbers of a stream: fresh, fit, and as an accepted arrival changes them.

ghost use Rattle.std.specs.Prelude.{◌≡◌, ◌≤◌};
ghost use Rattle.rfc4737.specs.Judge.{sent_most};
ghost use Rattle.rfc4737.specs.Order.{next_after};
ghost use Rattle.rfc4737.specs.Runs.{lengthened, ended, squares_most};
ghost use Rattle.receiver.specs.Fit.{stream_fit};
ghost use Rattle.receiver.specs.Step.{fresh_stream, duplicate_stream, reordered_stream};
ghost use Rattle.receiver.specs.Private.{StreamFit, counted_in_order};

use crate::{Receiver, Stream};
use rfc4737::Runs;
use rfc4737::time::next_reference;

// The greatest sum of squares.
const SQUARES_MOST: u32 = 16777216;

impl Stream {
    // Returns the numbers of a stream for k packets, before any arrival.
    #[tactic(auto, unfolding(crate::specs::Step::fresh_stream))]
    pub(crate) fn fresh(k: u32) -> Stream
        ensures { result ≡ fresh_stream k }
    {
        Stream {
            sent: k,
            arrived: 0,
            duplicates: 0,
            inorder: 0,
            next: 1,
            kept: 0,
            greatest: 0,
            runs: Runs {
                closed: 0,
                squares: 0,
                current: 0,
            },
            dropped: 0,
        }
    }

    // Returns whether the numbers are fit.
    pub(crate) fn is_fit(&self) -> bool
        ensures { result ≡ stream_fit self.now }
    {
        if self.sent == 0 || Receiver::PACKETS < self.sent {
            return false;
        }
        if self.sent < self.arrived || Receiver::PACKETS - self.arrived < self.duplicates {
            return false;
        }
        if self.arrived < self.inorder || self.inorder < self.runs.current {
            return false;
        }
        if self.arrived < self.runs.closed || SQUARES_MOST < self.runs.squares {
            return false;
        }
        self.next != 0 && self.next - 1 <= self.sent
    }

    // Counts a duplicate.
    #[tactic(auto, unfolding(crate::specs::Step::duplicate_stream))]
    pub(crate) fn count_duplicate(&mut self, time: u64)
        requires { self.old.duplicates ≤ sent_most }
        ensures { self.new ≡ duplicate_stream self.old time }
    {
        self.duplicates += 1;
        self.greatest = next_reference(self.greatest, time);
    }

    // Counts an in-order packet, but for the jump that it may make, which `Places::keep` counts.
    #[tactic(auto, unfolding(rfc4737::specs::Runs::lengthened))]
    pub(crate) fn count_in_order(&mut self, number: u32, time: u64)
        requires { StreamFit self.old × (number ≤ sent_most) }
        ensures { self.new ≡ counted_in_order self.old number time }
    {
        self.arrived += 1;
        self.inorder += 1;
        self.runs.current += 1;
        self.next = next_after(self.next, number);
        self.greatest = next_reference(self.greatest, time);
    }

    // Counts a reordered packet, which closes the open run.
    #[tactic(auto, unfolding(crate::specs::Step::reordered_stream))]
    pub(crate) fn count_reordered(&mut self, number: u32, time: u64)
        requires { StreamFit self.old × (number ≤ sent_most) }
        ensures { self.new ≡ reordered_stream self.old number time }
    {
        self.arrived += 1;
        self.runs = closed(self.runs);
        self.next = next_after(self.next, number);
        self.greatest = next_reference(self.greatest, time);
    }
}

// Returns NextExp after the first arrival of the packet `number`.
fn next_after(next: u32, number: u32) -> u32
    requires { number ≤ sent_most }
    ensures { result ≡ next_after next number }
{
    if next <= number { number + 1 } else { next }
}

// Returns the runs after a reordered packet.
fn closed(runs: Runs) -> Runs
    requires { (runs.current ≤ sent_most) × ((runs.closed ≤ sent_most) × (runs.squares ≤ squares_most)) }
    ensures { result ≡ ended runs }
{
    Runs {
        closed: runs.closed + 1,
        squares: runs.squares + runs.current * runs.current,
        current: 0,
    }
}
