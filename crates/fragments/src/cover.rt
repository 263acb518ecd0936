// Finds how far the arrivals of a packet cover it, and whether it is complete.
ghost use Rattle.std.specs.Prelude.{◌≡◌, cond, ◌&&◌, ◌<◌, leb, ltb, length};
ghost use Rattle.fragments.specs.Pieces.{is_last, piece_start, piece_end};
ghost use Rattle.fragments.specs.Usable.{complete};
ghost use Rattle.fragments.specs.Private.{Reach};
ghost use Rattle.fragments.specs.Places.{Run};
ghost use Rattle.fragments.specs.Arrivals.{pieces};

use crate::Piece;
use crate::arrivals::Arrivals;

// Returns how far a packet is covered by an arrival too, if it was covered up to `reach`.
fn reach_after(reach: u32, piece: Piece) -> u32
    ensures { result ≡ cond (leb (piece_start piece) reach && ltb reach (piece_end piece)) (piece_end piece) reach }
{
    if piece.start() <= reach && reach < piece.end() {
        return piece.end();
    }
    reach
}

// Returns the first octet of packet s that is not covered, by one pass over its arrivals, which are sorted by start.
fn reach_of(arrivals: &Arrivals, s: u32, run: &[u16]) -> u32
    requires { Run (pieces arrivals.now) s run.now }
    ensures { Reach (pieces arrivals.now) s result }
{
    let mut reach: u32 = 0;
    for place in run {
        reach = reach_after(reach, arrivals.get(usize::from(*place)));
    }
    reach
}

// Returns whether an arrival is a last fragment and ends at `reach` or before.
fn ends_by(reach: u32, piece: Piece) -> bool
    ensures { result ≡ (is_last piece && leb (piece_end piece) reach) }
{
    piece.is_last() && piece.end() <= reach
}

// Returns whether packet s is complete: a last fragment ends at its first octet that is not covered, or before. Starts with its last
// arrival.
fn ends_covered(arrivals: &Arrivals, s: u32, run: &[u16]) -> bool
    requires { Run (pieces arrivals.now) s run.now }
    ensures { result ≡ complete (pieces arrivals.now) s }
{
    let reach = reach_of(arrivals, s, run);
    // By index: the proof speaks of the first m places of the run, and over `run.iter().rev()` it did not close.
    for m in (0..run.len()).rev() {
        if ends_by(reach, arrivals.get(usize::from(run[m]))) {
            return true;
        }
    }
    false
}

// Returns whether packet s is complete. `run` has the indices of its arrivals, at least one. A whole packet is complete by itself.
pub(crate) fn complete(arrivals: &Arrivals, s: u32, run: &[u16]) -> bool
    requires run { Run (pieces arrivals.now) s run.now }
    requires some { 0 < length run.now }
    ensures { result ≡ complete (pieces arrivals.now) s }
{
    arrivals.get(usize::from(run[0])).is_whole() || ends_covered(arrivals, s, run)
}
