// Answers for C: the outcome of a step of a receiver or a meter, as the refusal and the figures of what is noted of the arrival; and the
// answer of a call that writes, as its refusal and a length. Functions, and no From, as in figures.rt: all of these are types of other
// crates.

ghost use Rattle.std.specs.Prelude.{◌≡◌, [], ◌∷◌};
ghost use Rattle.rfc4737.specs.Numbering.{by_direction};
ghost use Rattle.receiver.specs.Outcomes.{refused_outcome};
ghost use Rattle.capi.specs.Outcomes.{late_figures, noted_figures};

use receiver::numbering::{BEYOND_AFTER, BEYOND_BEFORE};
use receiver::{Lateness, Outcome, ReceiverAnswer};
use rfc4737::numbering::{
    DUPLICATE, IN_ORDER, REORDERED_AFTER, REORDERED_BEFORE, amount, by_direction,
};
use sample::WriteAnswer;

// Returns the figures of a reordered packet. Its case is `after` or `before`, by the direction of its late time.
fn late_figures(after: u32, before: u32, l: Lateness) -> [u64; 4]
    ensures { result ≡ late_figures (by_direction after before l.late) l }
{
    let late = l.late;
    [
        by_direction(after, before, late) as u64,
        0,
        l.extent as u64,
        amount(late),
    ]
}

// Returns the figures of what is noted: the number of the case, jump size, extent, and amount of the late time. The case tells its
// direction.
pub fn noted_figures(noted: ReceiverAnswer) -> [u64; 4]
    ensures { result ≡ noted_figures noted }
{
    match noted {
        ReceiverAnswer::Duplicate => [DUPLICATE as u64, 0, 0, 0],
        ReceiverAnswer::InOrder(jump) => [IN_ORDER as u64, jump as u64, 0, 0],
        ReceiverAnswer::Exact(l) => late_figures(REORDERED_AFTER, REORDERED_BEFORE, l),
        ReceiverAnswer::Beyond(l) => late_figures(BEYOND_AFTER, BEYOND_BEFORE, l),
    }
}

// Returns the refusal of an outcome.
pub fn refusal_of(outcome: Outcome) -> u64
    ensures { result ≡ outcome.refusal }
{
    outcome.refusal as u64
}

// Returns the refusal of an outcome, and writes the figures of what is noted to `figures`.
pub fn outcome_told(outcome: Outcome, figures: &mut [u64; 4]) -> u64
    ensures { (result ≡ outcome.refusal) × (figures.new ≡ noted_figures outcome.noted) }
{
    *figures = noted_figures(outcome.noted);
    refusal_of(outcome)
}

// Returns the refusal of a call that writes, and writes the length of what it wrote to `length`.
pub fn write_told(written: WriteAnswer, length: &mut [u64; 1]) -> u64
    ensures { (result ≡ written.refusal) × (length.new ≡ written.length ∷ []) }
{
    *length = [written.length as u64];
    written.refusal as u64
}

// Returns the outcome of a refused call, which notes nothing.
pub fn refused_outcome(refusal: u32) -> Outcome
    ensures { result ≡ refused_outcome refusal }
{
    Outcome {
        refusal,
        noted: ReceiverAnswer::InOrder(0),
    }
}
