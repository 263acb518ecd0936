// The rules about arrival times: whether a time goes back too far, the reference for the next one, and the late time between two. Files,
// lists and the receiver share them.

ghost use Rattle.std.specs.Prelude.{◌≡◌};
ghost use Rattle.rfc4737.specs.Times.{too_early, next_reference, elapsed};

use crate::LateTime;

// How far below the greatest earlier time an arrival may be stamped, in microseconds.
pub const BACK_MOST: u64 = 1000;

// Whether `time` is over `BACK_MOST` below the reference, which is the greatest earlier time.
#[tactic(auto, unfolding(crate::specs::Times::too_early))]
pub fn too_early(reference: u64, time: u64) -> bool
    ensures { result ≡ too_early reference time }
{
    if reference < time {
        return false;
    }
    BACK_MOST < reference - time
}

// The reference for the next arrival: the greater of `reference` and `time`.
#[tactic(auto, unfolding(crate::specs::Times::next_reference))]
pub fn next_reference(reference: u64, time: u64) -> u64
    ensures { result ≡ next_reference reference time }
{
    if reference < time {
        return time;
    }
    reference
}

// The time from an arrival at `past` to one at `own`, with its direction.
#[tactic(auto, unfolding(crate::specs::Times::elapsed))]
pub fn elapsed(past: u64, own: u64) -> LateTime
    ensures { result ≡ elapsed past own }
{
    if own < past {
        return LateTime::Before(past - own);
    }
    LateTime::After(own - past)
}
