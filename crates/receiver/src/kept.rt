// The places of the kept jumps: whether they are fit, searching them for a jump with a greater number, and keeping a new one.
// The three arrays stay beside each other, since C has `Places` in this layout.

ghost use Rattle.std.specs.Prelude.{◌≡◌, false, ◌+◌, ◌<◌, ◌≤◌, ℕ, leb, ltb, get_or, IfSome};
ghost use Rattle.std.proofs.Math.Option.{some};
ghost use Rattle.rfc4737.specs.Refusals.{within};
ghost use Rattle.rfc4737.specs.Judge.{sent_most};
ghost use Rattle.receiver.specs.Limits.{window_places};
ghost use Rattle.receiver.specs.Outcomes.{lateness_from};
ghost use Rattle.receiver.specs.Parts.{place_from, oldest_first, in_count};
ghost use Rattle.receiver.specs.Fit.{places_fit};
ghost use Rattle.receiver.specs.Kept.{place_at, held_of, with_jump};
ghost use Rattle.receiver.specs.Private.{FirstAbove, first_pass, found_or, jump_of, with_jump_at, pushed, pushed_places};

use crate::{Jump, Lateness, Places, Receiver, Share, Stream};
use rfc4737::time::elapsed;

// The last index.
const LAST: usize = Receiver::WINDOW - 1;

// Returns the index of place i.
fn place(down: bool, i: usize) -> usize
    requires { i < window_places }
    ensures { (result ≡ place_from down i) × (result < window_places) }
{
    if down { LAST - i } else { i }
}

impl Places {
    // Returns whether the kept places are fit under the stream's K, L and greatest time.
    pub(crate) fn are_fit(&self, stream: &Stream, down: bool) -> bool
        requires { (stream.now.sent ≤ sent_most) × (stream.now.arrived ≤ sent_most) }
        ensures { result ≡ places_fit stream.now (in_count down self.now) }
    {
        let kept = stream.kept as usize;
        if Receiver::WINDOW < kept || stream.sent < stream.dropped {
            return false;
        }
        all_within(&self.positions, down, kept, stream.arrived as u16)
            && all_within(&self.numbers, down, kept, stream.sent as u16)
            && none_after(&self.times, down, kept, stream.greatest)
    }

    // Returns the place of the oldest kept jump whose number is above `number`, if there is one.
    pub(crate) fn above(&self, down: bool, kept: u32, number: u32) -> Option<usize>
        requires { kept ≤ window_places }
        ensures first { FirstAbove (oldest_first down self.now.numbers) kept number (found_or kept result) }
        ensures kept { IfSome result (λ i. i < kept) }
    {
        for i in 0..kept as usize {
            if number < self.numbers[place(down, i)] as u32 {
                return Some(i);
            }
        }
        None
    }

    // Returns extent and late time of the packet that arrives at `position` and `time`, measured from the jump in place `i`.
    pub(crate) fn lateness_from(&self, down: bool, i: usize, position: u32, time: u64) -> Lateness
        requires { (i < window_places) × (get_or (oldest_first down self.now.positions) i 0 ≤ position) }
        ensures { result ≡ lateness_from position time (some (place_at (in_count down self.now) i)) }
    {
        let jump = self.jump(down, i);
        Lateness {
            extent: position - jump.position as u32,
            late: elapsed(jump.time, time),
        }
    }

    // Keeps a new jump of the stream: it goes after the kept ones; if the stream's share is full, the oldest is dropped for it.
    pub(crate) fn keep(&mut self, stream: &mut Stream, share: Share, jump: Jump)
        requires { (stream.old.kept ≤ window_places) × ((1 ≤ share.most) × (share.most ≤ window_places)) }
        ensures jumps { held_of stream.new (in_count share.down self.new)
            ≡ with_jump (ltb stream.old.kept share.most) (held_of stream.old (in_count share.down self.old)) (jump_of jump) }
        ensures numbers { stream.new ≡ record stream.old { kept = stream.new.kept; dropped = stream.new.dropped } }
    {
        let kept = stream.kept as usize;
        if stream.kept < share.most {
            stream.kept += 1;
            self.put(share.down, kept, jump);
        } else {
            stream.dropped = self.jump(share.down, 0).number as u32;
            self.shift(share.down, kept, jump);
        }
    }

    // Drops the oldest of `kept` jumps, moves the others by one place and stores a new one after them. The case that all places are taken
    // has its own code, since a loop over a fixed number of places costs less.
    fn shift(&mut self, down: bool, kept: usize, jump: Jump)
        requires { (1 ≤ kept) × (kept ≤ window_places) }
        ensures { in_count down self.new ≡ pushed_places kept (in_count down self.old) (jump_of jump) }
    {
        if kept == Receiver::WINDOW {
            self.put_last(down, LAST, jump);
        } else {
            self.put_last(down, kept - 1, jump);
        }
    }

    // Moves the jumps after the oldest, up to `last`, by one place, and stores a new one at `last`.
    fn put_last(&mut self, down: bool, last: usize, jump: Jump)
        requires { last < window_places }
        ensures { in_count down self.new ≡ pushed_places (last + 1) (in_count down self.old) (jump_of jump) }
    {
        push_16(&mut self.positions, down, last, jump.position);
        push_16(&mut self.numbers, down, last, jump.number);
        push_64(&mut self.times, down, last, jump.time);
    }

    // Returns the jump in place i.
    fn jump(&self, down: bool, i: usize) -> Jump
        requires { i < window_places }
        ensures { jump_of result ≡ place_at (in_count down self.now) i }
    {
        let at = place(down, i);
        Jump {
            position: self.positions[at],
            number: self.numbers[at],
            time: self.times[at],
        }
    }

    // Stores a jump in place i.
    fn put(&mut self, down: bool, i: usize, jump: Jump)
        requires { i < window_places }
        ensures { in_count down self.new ≡ with_jump_at (in_count down self.old) i (jump_of jump) }
    {
        let at = place(down, i);
        self.positions[at] = jump.position;
        self.numbers[at] = jump.number;
        self.times[at] = jump.time;
    }
}

// Moves the values after the oldest, up to `last`, by one place, and stores a new one at `last`: from `last` on, each place hands its value
// on to the one before. So the stack has no copy of the array, and LLVM makes no memmove of the loop, which the archive does not ask of C:
// it would of a loop from the first place on, or of `copy_within`.
fn push_16(values: &mut [u16; Receiver::WINDOW], down: bool, last: usize, value: u16)
    requires { last < window_places }
    ensures { oldest_first down values.new ≡ pushed false (last + 1) (oldest_first down values.old) value }
{
    let mut carried = value;
    for i in (0..last + 1).rev() {
        let at = place(down, i);
        let held = values[at];
        values[at] = carried;
        carried = held;
    }
}

// The same for values of 64 bits. No generic function of the two: the definitions are over numbers.
fn push_64(values: &mut [u64; Receiver::WINDOW], down: bool, last: usize, value: u64)
    requires { last < window_places }
    ensures { oldest_first down values.new ≡ pushed false (last + 1) (oldest_first down values.old) value }
{
    let mut carried = value;
    for i in (0..last + 1).rev() {
        let at = place(down, i);
        let held = values[at];
        values[at] = carried;
        carried = held;
    }
}

// Returns whether a value is from 1 to `most`.
fn is_within(most: u16, value: u16) -> bool
    ensures { result ≡ within 1 most value }
{
    value != 0 && value <= most
}

// Returns whether each of the first `count` values is from 1 to `most`. Without an early return LLVM compares several at a time.
fn all_within(values: &[u16; Receiver::WINDOW], down: bool, count: usize, most: u16) -> bool
    requires { count ≤ window_places }
    ensures { result ≡ first_pass (within 1 most) (oldest_first down values.now) count }
{
    let mut fit = true;
    for i in 0..count {
        fit &= is_within(most, values[place(down, i)]);
    }
    fit
}

// Returns whether none of the first `count` times is after `greatest`, likewise without an early return. A closure for the test of a value
// would make one function of the two, with contracts on what each closure computes: no plainer.
fn none_after(times: &[u64; Receiver::WINDOW], down: bool, count: usize, greatest: u64) -> bool
    requires { count ≤ window_places }
    ensures { result ≡ first_pass (λ (t : ℕ). leb t greatest) (oldest_first down times.now) count }
{
    let mut fit = true;
    for i in 0..count {
        fit &= times[place(down, i)] <= greatest;
    }
    fit
}
