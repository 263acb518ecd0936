// The step of a stream, in place: an arrival is decided first, which only reads; then the stream's parts are written.

ghost use Rattle.std.specs.Prelude.{◌≡◌, []};
ghost use Rattle.rfc4737.specs.Refused.{refusal_in};
ghost use Rattle.receiver.specs.Parts.{in_count, receiver_by, outcome_by};
ghost use Rattle.receiver.specs.Step.{step_refusal, late_outcome, outcome_of, step_within};
ghost use Rattle.receiver.specs.Fit.{fit};
ghost use Rattle.receiver.specs.Private.{Unrefused};

use crate::marking::{is_marked, mark};
use crate::{Jump, MARK_WORDS, Outcome, Places, Receiver, ReceiverAnswer, Share, Stream};
use rfc4737::judge::judge_one;
use rfc4737::refusal::Refusal;

// The outcome of an arrival, and the stream's numbers after it.
#[derive(Clone, Copy)]
pub struct StreamStep {
    pub outcome: Outcome,
    pub stream: Stream,
}

impl Stream {
    // Steps the stream, whose marks and places are lent; it keeps its jumps in its share of the places. Returns what is noted of the
    // arrival, or its refusal, which leaves all as it was.
    pub fn step(
        &mut self,
        marks: &mut [u64; MARK_WORDS],
        places: &mut Places,
        share: Share,
        number: u32,
        time: u64,
    ) -> Result<ReceiverAnswer, Refusal>
        ensures { record {
          outcome = outcome_by result;
          state = receiver_by share.down self.new marks.new places.new;
        }
            ≡ step_within share.most (receiver_by share.down self.old marks.old places.old) number time }
    {
        let share = Share {
            most: share.room(),
            ..share
        };
        let noted = self.decide(marks, places, share.down, number, time)?;
        match noted {
            ReceiverAnswer::Duplicate => self.count_duplicate(time),
            ReceiverAnswer::InOrder(size) => {
                mark(marks, number);
                self.count_in_order(number, time);
                if size != 0 {
                    let jump = Jump {
                        position: self.arrived as u16,
                        number: number as u16,
                        time,
                    };
                    places.keep(self, share, jump);
                }
            }
            ReceiverAnswer::Exact(_) | ReceiverAnswer::Beyond(_) => {
                mark(marks, number);
                self.count_reordered(number, time);
            }
        }
        Ok(noted)
    }

    // Returns whether the stream is fit with these places.
    pub fn is_fit_with(&self, places: &Places, down: bool) -> bool
        ensures { result ≡ fit (receiver_by down self.now [] places.now) }
    {
        self.is_fit() && places.are_fit(self, down)
    }

    // Returns what is noted of an arrival, or its refusal.
    fn decide(
        &self,
        marks: &[u64; MARK_WORDS],
        places: &Places,
        down: bool,
        number: u32,
        time: u64,
    ) -> Result<ReceiverAnswer, Refusal>
        ensures { outcome_by result ≡ outcome_of (receiver_by down self.now marks.now places.now) number time }
    {
        self.check(places, down, number, time)?;
        if is_marked(marks, number) {
            return Ok(ReceiverAnswer::Duplicate);
        }
        if self.next <= number {
            return Ok(ReceiverAnswer::InOrder(number - self.next));
        }
        self.note_reordered(places, down, number, time)
    }

    // Judges an arrival by the state, its number and its time.
    fn check(&self, places: &Places, down: bool, number: u32, time: u64) -> Result<(), Refusal>
        ensures { refusal_in result ≡ step_refusal (receiver_by down self.now [] places.now) number time }
    {
        if !self.is_fit_with(places, down) {
            return Err(Refusal::StateUnfit);
        }
        if self.arrived + self.duplicates == Receiver::PACKETS {
            return Err(Refusal::StateFull);
        }
        judge_one(self.sent as u64, self.greatest, number as u64, time)
    }

    // Returns what is noted of a reordered packet; a state in which no kept jump has a greater number is unfit.
    fn note_reordered(
        &self,
        places: &Places,
        down: bool,
        number: u32,
        time: u64,
    ) -> Result<ReceiverAnswer, Refusal>
        requires { Unrefused (receiver_by down self.now [] places.now) number }
        ensures { outcome_by result ≡ late_outcome self.now (in_count down places.now) (record { number = number; time = time }) }
    {
        let Some(found) = places.above(down, self.kept, number) else {
            return Err(Refusal::StateUnfit);
        };
        let position = self.arrived + 1;
        if number < self.dropped {
            return Ok(ReceiverAnswer::Beyond(places.lateness_from(down, 0, position, time)));
        }
        Ok(ReceiverAnswer::Exact(places.lateness_from(down, found, position, time)))
    }
}
