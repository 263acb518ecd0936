// A meter: two streams, each with a receiver's numbers and marks, that share the places of their kept jumps. It is stepped in place
// (`step_in_place`), or passed and returned by value. Its rule is specs/Step.antt.
#![tactic(auto)]

ghost use Rattle.std.specs.Prelude.{◌≡◌, cond, not, [], List, ◌-◌, ◌≤◌, min, replicate};
ghost use Rattle.rfc4737.specs.Refusals.{state_unfit};
ghost use Rattle.rfc4737.specs.Refused.{refusal_in};
ghost use Rattle.receiver.specs.Outcomes.{refused_outcome};
ghost use Rattle.receiver.specs.Marks.{mark_words};
ghost use Rattle.receiver.specs.Fit.{fit};
ghost use Rattle.receiver.specs.Parts.{receiver_by, outcome_by};
ghost use Rattle.receiver.specs.Step.{fresh_stream, step_within};
ghost use Rattle.meter.specs.Streams.{shared, most_kept, stream_in};
ghost use Rattle.meter.specs.Step.{new_meter, meter_fit, meter_step, meter_start};
ghost use Rattle.meter.specs.Lent.{AsMeterStep, AsMeterStart};
ghost use Rattle.meter.specs.Private.{few_kept};
ghost use Rattle.meter.specs.Account.{Call};
ghost use Rattle.meter.specs.Demand3.{MeterDemand3};
ghost use Rattle.meter.specs.Independence.{Independence};

use receiver::parts::fresh_stream;
use receiver::{MARK_WORDS, Outcome, Places, Receiver, ReceiverAnswer, Share, Stream};
use rfc4737::judge::{SENT_MOST, outside};
use rfc4737::refusal::{Refusal, number_in};

// The part of a stream's state that is its own: its numbers, and a bit for each of its packets that has arrived.
#[derive(Clone, Copy, PartialEq, Eq)]
#[repr(C)]
pub struct StreamState {
    pub stream: Stream,
    pub marks: [u64; MARK_WORDS],
}

// The state of a meter: streams 1 and 2, and the places of their kept jumps. Stream 1 has the places from the first up, stream 2 those
// from the last down, the oldest jump first. Those between are free.
#[derive(Clone, Copy, PartialEq, Eq)]
#[repr(C)]
pub struct Meter {
    pub first: StreamState,
    pub second: StreamState,
    pub places: Places,
}

// The answer of a step: the outcome, and the meter after it.
#[derive(Clone, Copy)]
pub struct MeterStepAnswer {
    pub outcome: Outcome,
    pub state: Meter,
}

// A meter after a fresh start of a stream: the refusal (0 for none), and the meter. A refusal leaves a meter too, as `meter_start` says.
#[derive(Clone, Copy)]
#[repr(C)]
pub struct MeterStartAnswer {
    pub refusal: u32,
    pub state: Meter,
}

// The outcome of an arrival on a stream, and the numbers of both streams after it.
#[derive(Clone, Copy)]
pub struct StreamsStep {
    pub outcome: Outcome,
    pub first: Stream,
    pub second: Stream,
}

impl Meter {
    // How many places the streams share: those of one receiver. A receiver keeps at most Receiver::WINDOW jumps, a stream of a meter
    // at most MOST_KEPT.
    pub const PLACES: u32 = Receiver::WINDOW as u32;
    // The greatest number of jumps that one stream keeps.
    pub const MOST_KEPT: u32 = 48;

    // Returns a new meter: both streams fresh for a single packet.
    pub fn new() -> Meter
        ensures new { result ≡ new_meter }
        ensures demand3 { (calls : List Call) → MeterDemand3 calls }
        ensures independence { Independence }
    {
        let fresh = Receiver::fresh(1).state;
        let places = fresh.places;
        Meter {
            first: stream_in(fresh),
            second: stream_in(fresh),
            places,
        }
    }

    // Starts a stream afresh for k packets.
    pub fn start(mut self, stream: u32, k: u32) -> MeterStartAnswer
        ensures start { result ≡ meter_start self stream k }
        ensures refused { (result.refusal ≡ 0 → ⊥) → result.state ≡ self }
    {
        let started = self.restart(stream, k);
        MeterStartAnswer {
            refusal: number_in(started),
            state: self,
        }
    }

    // Steps a stream with an arrival.
    pub fn step(mut self, stream: u32, number: u32, time: u64) -> MeterStepAnswer
        ensures step { result ≡ meter_step self stream number time }
        ensures refused { (result.outcome.refusal ≡ 0 → ⊥) → result.state ≡ self }
    {
        let answer = self.advance(stream, number, time);
        MeterStepAnswer {
            outcome: Outcome::of(answer),
            state: self,
        }
    }

    // Steps a stream in place. The neighbour's fit test is made here, the stream's own by its step.
    fn advance(&mut self, stream: u32, number: u32, time: u64) -> Result<ReceiverAnswer, Refusal>
        ensures { record { outcome = outcome_by result; state = self.new } ≡ meter_step self.old stream number time }
    {
        if outside(1, 2, stream as u64) {
            return Err(Refusal::NoStream);
        }
        if !few(self.first.stream.kept, self.second.stream.kept) {
            return Err(Refusal::StateUnfit);
        }
        if stream == 1 {
            self.first
                .step_beside(&self.second.stream, &mut self.places, false, number, time)
        } else {
            self.second
                .step_beside(&self.first.stream, &mut self.places, true, number, time)
        }
    }

    // Starts a stream afresh for k packets in place; the places are only read.
    fn restart(&mut self, stream: u32, k: u32) -> Result<(), Refusal>
        ensures { record { refusal = refusal_in result; state = self.new } ≡ meter_start self.old stream k }
    {
        if outside(1, 2, stream as u64) {
            return Err(Refusal::NoStream);
        }
        if !self.is_fit() {
            return Err(Refusal::StateUnfit);
        }
        if outside(1, SENT_MOST, k as u64) {
            return Err(Refusal::SentOutside);
        }
        if stream == 1 {
            self.first.restart(k);
        } else {
            self.second.restart(k);
        }
        Ok(())
    }

    // Returns whether the meter is fit.
    fn is_fit(&self) -> bool
        ensures { result ≡ meter_fit self.now }
    {
        few(self.first.stream.kept, self.second.stream.kept)
            && self.first.stream.is_fit_with(&self.places, false)
            && self.second.stream.is_fit_with(&self.places, true)
    }
}

impl StreamState {
    // Steps the stream beside a neighbour, which has the places from the other end and must be fit.
    fn step_beside(
        &mut self,
        neighbour: &Stream,
        places: &mut Places,
        down: bool,
        number: u32,
        time: u64,
    ) -> Result<ReceiverAnswer, Refusal>
        requires { neighbour.now.kept ≤ most_kept }
        ensures { record {
          outcome = outcome_by result;
          state = receiver_by down self.new.stream self.new.marks places.new;
        }
            ≡ cond (fit (receiver_by (not down) neighbour.now [] places.old))
            (step_within (min most_kept (shared - neighbour.now.kept)) (receiver_by down self.old.stream self.old.marks places.old) number time)
            (record {
              outcome = refused_outcome state_unfit;
              state = receiver_by down self.old.stream self.old.marks places.old;
            }) }
    {
        if !neighbour.is_fit_with(places, !down) {
            return Err(Refusal::StateUnfit);
        }
        let share = Share {
            down,
            most: most_beside(neighbour.kept),
        };
        self.stream
            .step(&mut self.marks, places, share, number, time)
    }

    // Makes the stream a fresh one for k packets.
    fn restart(&mut self, k: u32)
        ensures { self.new ≡ record { stream = fresh_stream k; marks = replicate mark_words 0 } }
    {
        self.stream = fresh_stream(k);
        self.marks = [0u64; MARK_WORDS];
    }
}

// Returns the part of a receiver's state beside its places.
fn stream_in(r: Receiver) -> StreamState
    ensures { result ≡ stream_in r }
{
    let marks = r.marks;
    StreamState {
        stream: r.stream,
        marks,
    }
}

// Returns how many jumps a stream can keep beside a neighbour that keeps `kept`.
fn most_beside(kept: u32) -> u32
    requires { kept ≤ most_kept }
    ensures { result ≡ min most_kept (shared - kept) }
{
    Meter::MOST_KEPT.min(Meter::PLACES - kept)
}

// Returns whether two streams that keep `first` and `second` jumps keep few enough.
fn few(first: u32, second: u32) -> bool
    ensures { result ≡ few_kept first second }
{
    first <= Meter::MOST_KEPT && second <= Meter::MOST_KEPT && first + second <= Meter::PLACES
}

// Steps the borrowed meter in place; returns the outcome of `Meter::step`.
pub fn step_in_place(m: &mut Meter, stream: u32, number: u32, time: u64) -> Outcome
    ensures { AsMeterStep m.old stream number time result m.new }
{
    Outcome::of(m.advance(stream, number, time))
}

// Starts a stream of the borrowed meter afresh in place; returns an outcome with the refusal of `Meter::start` that notes nothing.
pub fn start_in_place(m: &mut Meter, stream: u32, k: u32) -> Outcome
    ensures { AsMeterStart m.old stream k result m.new }
{
    Outcome {
        refusal: number_in(m.restart(stream, k)),
        noted: ReceiverAnswer::InOrder(0),
    }
}
