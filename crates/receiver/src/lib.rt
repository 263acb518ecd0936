// The receiver: fed one arrival at a time, it returns an outcome for each and keeps a state of fixed size, passed and
// returned by value, or borrowed and written in place. Its rule is specs/Step.antt, after the scope's "The receiver".
#![tactic(auto)]

pub mod advance;
mod kept;
mod marking;
pub mod numbering;
mod numbers;
pub mod parts;

ghost use Rattle.std.specs.Prelude.{◌≡◌, List, min, max};
ghost use Rattle.rfc4737.specs.declared.Arrival.{Arrival};
ghost use Rattle.rfc4737.specs.Moved.{MovedTwice};
ghost use Rattle.receiver.specs.Limits.{window_places};
ghost use Rattle.receiver.specs.Fit.{fit};
ghost use Rattle.receiver.specs.Parts.{outcome_by};
ghost use Rattle.receiver.specs.Step.{made_for, fresh_of, step_within, step_of};
ghost use Rattle.receiver.specs.Lent.{AsStep};
ghost use Rattle.receiver.specs.Demand3.{Demand3};
ghost use Rattle.receiver.specs.WindowCases.{WindowCasesHold};
ghost use Rattle.receiver.specs.Moved.{MovedAnswers};

use rfc4737::judge::{SENT_MOST, outside};
use rfc4737::refusal::{NONE, Refusal};
use rfc4737::{LateTime, Runs};

// The numbers that a step decides by: the packets sent (K), the first arrivals (L), the duplicates, the in-order count,
// NextExp, how many jumps are kept, the greatest time of an accepted arrival (0 at first), the runs, and the number of the
// last jump dropped (0 for none).
#[derive(Clone, Copy, PartialEq, Eq)]
#[repr(C)]
pub struct Stream {
    pub sent: u32,
    pub arrived: u32,
    pub duplicates: u32,
    pub inorder: u32,
    pub next: u32,
    pub kept: u32,
    pub greatest: u64,
    pub runs: Runs,
    pub dropped: u32,
}

// The places of the kept jumps: position, number and time of each, the oldest first. Those after the kept ones are unused.
#[derive(Clone, Copy, PartialEq, Eq)]
#[repr(C)]
pub struct Places {
    pub positions: [u16; Receiver::WINDOW],
    pub numbers: [u16; Receiver::WINDOW],
    pub times: [u64; Receiver::WINDOW],
}

// A kept jump: its position, number and time.
#[derive(Clone, Copy)]
struct Jump {
    position: u16,
    number: u16,
    time: u64,
}

// A stream's share of the places: it counts them from the first up, or from the last down, and keeps at most so many jumps in them.
#[derive(Clone, Copy)]
pub struct Share {
    pub down: bool,
    pub most: u32,
}

// The state of a receiver: the numbers of its stream, a bit for each packet that has arrived, and the places of its kept jumps.
#[derive(Clone, Copy, PartialEq, Eq)]
#[repr(C)]
pub struct Receiver {
    pub stream: Stream,
    pub marks: [u64; MARK_WORDS],
    pub places: Places,
}

// Extent and late time of a reordered packet.
#[derive(Clone, Copy)]
pub struct Lateness {
    pub extent: u32,
    pub late: LateTime,
}

// The case that a receiver notes of an arrival: a duplicate; in order, with the jump size; reordered, with exact extent and late time; or
// reordered beyond the window, with those of the oldest kept jump.
#[derive(Clone, Copy)]
pub enum ReceiverAnswer {
    Duplicate,
    InOrder(u32),
    Exact(Lateness),
    Beyond(Lateness),
}

// The outcome of an arrival: the refusal (0 for none), and the case noted. Both stand side by side, since the clauses of `step` and
// `AsStep` name both.
#[derive(Clone, Copy)]
pub struct Outcome {
    pub refusal: u32,
    pub noted: ReceiverAnswer,
}

// The answer of a step: the outcome, and the state after it.
#[derive(Clone, Copy)]
pub struct StepAnswer {
    pub outcome: Outcome,
    pub state: Receiver,
}

// The answer of `fresh`: the refusal (0 for none), and the state. A refusal leaves a state too, as `fresh_of` says.
#[derive(Clone, Copy)]
#[repr(C)]
pub struct FreshAnswer {
    pub refusal: u32,
    pub state: Receiver,
}

// The number of words of 64 bits that have a bit for each packet.
pub const MARK_WORDS: usize = (Receiver::PACKETS / 64) as usize;

impl Receiver {
    // The greatest number of kept jumps.
    pub const WINDOW: usize = 64;
    // The greatest K, and the greatest number of accepted arrivals.
    pub const PACKETS: u32 = SENT_MOST as u32;

    // Returns a fresh receiver for k packets; if k is refused, one for a single packet.
    pub fn fresh(k: u32) -> FreshAnswer
        ensures fresh { result ≡ fresh_of k }
        ensures demand3 { (fed : List Arrival) → Demand3 result.state.stream.sent fed }
        ensures windowcases { WindowCasesHold }
        ensures moved { MovedAnswers result.state.stream.sent }
        ensures twice { MovedTwice }
    {
        if outside(1, SENT_MOST, k as u64) {
            return FreshAnswer {
                refusal: Refusal::SentOutside.number(),
                state: made_for(1),
            };
        }
        FreshAnswer {
            refusal: NONE,
            state: made_for(k),
        }
    }

    // Steps the receiver with an arrival.
    pub fn step(self, number: u32, time: u64) -> StepAnswer
        ensures { result ≡ step_of self number time }
    {
        self.step_within(Share::WHOLE.most, number, time)
    }

    // The same for a receiver that keeps at most `most` jumps; 0 is taken as 1, and more than 64 as 64.
    pub fn step_within(mut self, most: u32, number: u32, time: u64) -> StepAnswer
        ensures { result ≡ step_within most self number time }
    {
        let share = Share {
            most,
            ..Share::WHOLE
        };
        let answer = self
            .stream
            .step(&mut self.marks, &mut self.places, share, number, time);
        StepAnswer {
            outcome: Outcome::of(answer),
            state: self,
        }
    }

    // Returns whether the state is fit.
    pub fn is_fit(self) -> bool
        ensures { result ≡ fit self }
    {
        self.stream.is_fit_with(&self.places, Share::WHOLE.down)
    }
}

impl Share {
    // The share of a receiver's only stream: all places, from the first up.
    pub const WHOLE: Share = Share {
        down: false,
        most: Receiver::WINDOW as u32,
    };

    // Returns how many jumps are kept at most: 0 is taken as 1, and more than 64 as 64.
    fn room(self) -> u32
        ensures { result ≡ max 1 (min self.most window_places) }
    {
        self.most.clamp(1, Share::WHOLE.most)
    }
}

impl Outcome {
    // Returns the outcome that an answer tells: what is noted, or the refusal, which notes nothing.
    pub fn of(answer: Result<ReceiverAnswer, Refusal>) -> Outcome
        ensures { result ≡ outcome_by answer }
    {
        match answer {
            Ok(noted) => Outcome {
                refusal: NONE,
                noted,
            },
            Err(refusal) => Outcome {
                refusal: refusal.number(),
                noted: ReceiverAnswer::InOrder(0),
            },
        }
    }
}

// Steps the borrowed receiver in place; returns the outcome of `Receiver::step`.
pub fn step_in_place(r: &mut Receiver, number: u32, time: u64) -> Outcome
    ensures { AsStep r.old number time result r.new }
{
    Outcome::of(
        r.stream
            .step(&mut r.marks, &mut r.places, Share::WHOLE, number, time),
    )
}

// Returns the receiver for k packets before any arrival.
#[tactic(auto, unfolding(crate::specs::Step::made_for))]
fn made_for(k: u32) -> Receiver
    ensures { result ≡ made_for k }
{
    Receiver {
        stream: Stream::fresh(k),
        marks: [0u64; MARK_WORDS],
        places: Places {
            positions: [0u16; Receiver::WINDOW],
            numbers: [0u16; Receiver::WINDOW],
            times: [0u64; Receiver::WINDOW],
        },
    }
}
