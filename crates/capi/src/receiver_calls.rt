// A receiver for C, lent: made fresh, and stepped.

ghost use Rattle.std.specs.Prelude.{◌≡◌};
ghost use Rattle.receiver.specs.Parts.{whole};
ghost use Rattle.receiver.specs.Step.{step_of};
ghost use Rattle.capi.specs.Outcomes.{noted_figures};
ghost use Rattle.capi.specs.Receiver.{fresh_in};

use crate::outcomes::{outcome_told, refusal_of, refused_outcome};
use receiver::advance::StreamStep;
use receiver::parts::fresh_stream;
use receiver::{MARK_WORDS, Outcome, Receiver, Stream};
use rfc4737::judge::{SENT_MOST, outside};
use rfc4737::refusal::{NONE, Refusal};

// Makes the parts of a receiver those of a fresh one for K sent packets; a refused K leaves them as they were. Returns the refusal and the
// stream's numbers.
fn refresh<'a>(
    stream: Stream,
    marks: &'a mut [u64; MARK_WORDS],
    positions: &'a mut [u16; Receiver::WINDOW],
    numbers: &'a mut [u16; Receiver::WINDOW],
    times: &'a mut [u64; Receiver::WINDOW],
    sent: u32,
) -> StreamStep
    ensures { record {
      refusal = result.outcome.refusal;
      state = whole result.stream marks.new positions.new numbers.new times.new;
    }
        ≡ fresh_in (whole stream marks.old positions.old numbers.old times.old) sent }
{
    if outside(1, SENT_MOST, sent as u64) {
        return StreamStep {
            outcome: refused_outcome(Refusal::SentOutside.number()),
            stream,
        };
    }
    *marks = [0u64; MARK_WORDS];
    *positions = [0u16; Receiver::WINDOW];
    *numbers = [0u16; Receiver::WINDOW];
    *times = [0u64; Receiver::WINDOW];
    StreamStep {
        outcome: refused_outcome(NONE),
        stream: fresh_stream(sent),
    }
}

// Makes the borrowed receiver a fresh one for K sent packets; with a refusal it is as it was.
fn fresh_in_place(r: &mut Receiver, sent: u32) -> Outcome
    ensures { (result.refusal ≡ (fresh_in r.old sent).refusal)
        × (r.new ≡ (fresh_in r.old sent).state) }
{
    let a = refresh(
        r.stream,
        &mut r.marks,
        &mut r.places.positions,
        &mut r.places.numbers,
        &mut r.places.times,
        sent,
    );
    r.stream = a.stream;
    a.outcome
}

// Makes a receiver a fresh one for K sent packets.
#[unsafe(no_mangle)]
pub extern "C" fn krakobran_receiver_fresh(receiver: &mut Receiver, sent: u32) -> u64
    ensures { (result ≡ (fresh_in receiver.old sent).refusal)
        × (receiver.new ≡ (fresh_in receiver.old sent).state) }
{
    refusal_of(fresh_in_place(receiver, sent))
}

// Steps a receiver with an arrival.
#[unsafe(no_mangle)]
pub extern "C" fn krakobran_receiver_step(
    receiver: &mut Receiver,
    number: u32,
    time: u64,
    noted: &mut [u64; 4],
) -> u64
    ensures { (result ≡ (step_of receiver.old number time).outcome.refusal)
        × ((noted.new ≡ noted_figures (step_of receiver.old number time).outcome.noted)
        × (receiver.new ≡ (step_of receiver.old number time).state)) }
{
    outcome_told(receiver::step_in_place(receiver, number, time), noted)
}
