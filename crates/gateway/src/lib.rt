// The step of a borrowed receiver as a thin call over the step by value.
#![tactic(auto)]

ghost use Rattle.std.specs.Prelude.{◌≡◌};
ghost use Rattle.receiver.specs.Lent.{AsStep};

use receiver::{Outcome, Receiver};

// Steps the borrowed receiver in place; returns the outcome of `Receiver::step`.
pub fn step(r: &mut Receiver, number: u32, time: u64) -> Outcome
    ensures { AsStep r.old number time result r.new }
{
    let s = Receiver::step(*r, number, time);
    *r = s.state;
    s.outcome
}
