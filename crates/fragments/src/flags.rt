// Fills two lists with the order flags and with which arrivals are usable.
ghost use Rattle.std.specs.Prelude.{◌≡◌, cond, not, ◌&&◌, ◌||◌, eqb, ◌≤◌, ◌<◌, length};
ghost use Rattle.rfc4737.specs.Judge.{sent_most, arrivals_most};
ghost use Rattle.rfc4737.specs.Numbering.{in_order_number, reordered_after_number, duplicate_number};
ghost use Rattle.fragments.specs.Pieces.{is_whole};
ghost use Rattle.fragments.specs.Order.{is_reordered_fragment, expected_after, flags};
ghost use Rattle.fragments.specs.Usable.{usable};
ghost use Rattle.fragments.specs.Private.{NumbersWithin};
ghost use Rattle.fragments.specs.Places.{Noted};
ghost use Rattle.fragments.specs.Arrivals.{pieces};

use crate::arrivals::Arrivals;
use crate::{Expected, MAX_PACKETS, Piece};
use rfc4737::numbering::{DUPLICATE, IN_ORDER, REORDERED_AFTER};

// The flags are the numbers of the cases of an answer: C receives them in its list.
const COPY: u8 = DUPLICATE as u8;

const REORDERED: u8 = REORDERED_AFTER as u8;

const ORDERED: u8 = IN_ORDER as u8;

// Returns whether an arrival is reordered: the three cases of section B.3.
#[tactic(auto, unfolding(crate::specs::Order::is_reordered_fragment))]
fn is_reordered(expected: Expected, piece: Piece) -> bool
    ensures { result ≡ is_reordered_fragment expected piece }
{
    piece.number < expected.next
        || piece.number < expected.packet
        || piece.number == expected.packet && u32::from(piece.offset) < expected.fragment
}

// Returns the flag of an arrival.
fn flag_of(copy: bool, expected: Expected, piece: Piece) -> u8
    ensures { result ≡ cond copy duplicate_number (cond (is_reordered_fragment expected piece) reordered_after_number in_order_number) }
{
    if copy {
        return COPY;
    }
    if is_reordered(expected, piece) {
        return REORDERED;
    }
    ORDERED
}

// Returns what is expected after an arrival.
#[tactic(auto, unfolding(crate::specs::Order::expected_after, crate::specs::Order::in_order_after))]
fn expected_after(copy: bool, expected: Expected, piece: Piece) -> Expected
    requires { piece.number < 4294967295 }
    ensures { result ≡ cond copy expected (expected_after expected piece) }
{
    if copy || is_reordered(expected, piece) {
        return expected;
    }
    if piece.is_last() {
        return Expected {
            next: piece.number + 1,
            packet: 0,
            fragment: 0,
        };
    }
    Expected {
        packet: piece.number,
        fragment: u32::from(piece.offset) + 1,
        ..expected
    }
}

// Returns 1 if an arrival is usable, else 0, as C receives it. `whole` is 1 if its packet is complete, else 0.
fn usable_of(copy: bool, whole: u8) -> u8
    ensures { result ≡ cond copy 0 whole }
{
    if copy { 0 } else { whole }
}

// Returns whether an arrival is a copy. `mark` is not 0 if an earlier arrival has its number, offset and length; `seen` tells whether an
// earlier whole packet has its number.
fn is_copy(piece: Piece, mark: u8, seen: bool) -> bool
    ensures { result ≡ (not (eqb mark 0) || (is_whole piece && seen)) }
{
    mark != 0 || piece.is_whole() && seen
}

// Returns `seen` after an arrival.
fn seen_after(piece: Piece, seen: bool) -> bool
    ensures { result ≡ (is_whole piece || seen) }
{
    piece.is_whole() || seen
}

// Replaces the notes in both lists, which C lends, by the flags of the arrivals and by which are usable.
pub(crate) fn fill_flags_and_used(arrivals: &Arrivals, flagged: &mut [u8], used: &mut [u8])
    requires { NumbersWithin sent_most arrivals.now.numbers.now
        × (length arrivals.now.numbers.now ≤ arrivals_most)
        × (length flagged.old ≡ length arrivals.now.numbers.now) × (length used.old ≡ length arrivals.now.numbers.now)
        × Noted (pieces arrivals.now) flagged.old used.old }
    ensures { (flagged.new ≡ flags (pieces arrivals.now)) × (used.new ≡ usable (pieces arrivals.now)) }
{
    let mut seen = [false; MAX_PACKETS];
    let mut expected = Expected {
        next: 1,
        packet: 0,
        fragment: 0,
    };
    for i in 0..arrivals.len() {
        let piece = arrivals.get(i);
        let p = (piece.number - 1) as usize;
        let old = seen[p];
        let copy = is_copy(piece, flagged[i], old);
        seen[p] = seen_after(piece, old);
        flagged[i] = flag_of(copy, expected, piece);
        used[i] = usable_of(copy, used[i]);
        expected = expected_after(copy, expected, piece);
    }
}
