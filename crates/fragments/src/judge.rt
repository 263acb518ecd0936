// Refusals of K, of the lists, and of the arrivals in turn.
ghost use Rattle.std.specs.Prelude.{◌≡◌, IfOk};
ghost use Rattle.rfc4737.specs.Refused.{refusal_in};
ghost use Rattle.fragments.specs.Pieces.{pieces_of};
ghost use Rattle.fragments.specs.Judge.{is_unfit, judge_piece, judge_pieces};
ghost use Rattle.fragments.specs.Arrivals.{pieces};
ghost use Rattle.fragments.specs.Calls.{same_lengths, order_refusal};

use crate::Piece;
use crate::arrivals::Arrivals;
use rfc4737::judge::{ARRIVALS_MOST, SENT_MOST, outside};
use rfc4737::refusal::Refusal;
use rfc4737::time::{next_reference, too_early};

// The greatest end of a fragment.
const END_MOST: u32 = 65535;

// Returns whether an arrival is a fragment that is refused with 17.
#[tactic(auto, unfolding(crate::specs::Judge::is_unfit))]
fn is_unfit(piece: Piece) -> bool
    ensures { result ≡ is_unfit piece }
{
    !piece.is_whole()
        && (piece.length == 0
            || !piece.is_last() && piece.length % 8 != 0
            || END_MOST < piece.end())
}

// Judges one arrival: 6 comes before 17, and 17 before 7.
fn judge_piece(k: u64, reference: u64, piece: Piece) -> Result<(), Refusal>
    ensures { refusal_in result ≡ judge_piece k reference piece }
{
    if outside(1, k, piece.number as u64) {
        return Err(Refusal::NumberOutside);
    }
    if is_unfit(piece) {
        return Err(Refusal::FragmentUnfit);
    }
    if too_early(reference, piece.time) {
        return Err(Refusal::TimeBack);
    }
    Ok(())
}

// Judges the arrivals in turn.
fn judge_pieces(k: u64, arrivals: &Arrivals) -> Result<(), Refusal>
    ensures { refusal_in result ≡ judge_pieces k (pieces arrivals.now) }
{
    let mut reference = 0;
    for i in 0..arrivals.len() {
        let piece = arrivals.get(i);
        judge_piece(k, reference, piece)?;
        reference = next_reference(reference, piece.time);
    }
    Ok(())
}

// Returns whether all lists have the same length.
#[tactic(auto, unfolding(crate::specs::Calls::same_lengths))]
fn same_lengths(n: usize, times: usize, lengths: usize, mores: usize, offsets: usize) -> bool
    ensures { result ≡ same_lengths n times lengths mores offsets }
{
    n == times && n == lengths && n == mores && n == offsets
}

// Returns the lists as arrivals, or the first refusal that applies, of K, the lists, the arrivals and the room for the answers.
pub(crate) fn accept<'a>(
    k: u32,
    numbers: &'a [u32],
    times: &'a [u64],
    lengths: &'a [u16],
    mores: &'a [u8],
    offsets: &'a [u16],
    flag_room: usize,
    used_room: usize,
) -> Result<Arrivals<'a>, Refusal>
    ensures refusal { refusal_in result ≡ order_refusal k numbers.now times.now lengths.now mores.now
        offsets.now flag_room used_room }
    ensures arrivals { IfOk result (λ a. (a.numbers.now ≡ numbers.now)
        × (pieces a ≡ pieces_of numbers.now times.now lengths.now mores.now offsets.now)) }
{
    if outside(1, SENT_MOST, k as u64) {
        return Err(Refusal::SentOutside);
    }
    let n = numbers.len();
    if outside(0, ARRIVALS_MOST, n as u64) {
        return Err(Refusal::ManyArrivals);
    }
    if !same_lengths(n, times.len(), lengths.len(), mores.len(), offsets.len()) {
        return Err(Refusal::ListsDiffer);
    }
    let arrivals = Arrivals {
        numbers,
        times,
        lengths,
        mores,
        offsets,
    };
    judge_pieces(k as u64, &arrivals)?;
    if flag_room < n || used_room < n {
        return Err(Refusal::OutputShort);
    }
    Ok(arrivals)
}
