// A meter of two streams for C, lent: made new, a stream started, and stepped.

ghost use Rattle.std.specs.Prelude.{◌≡◌};
ghost use Rattle.receiver.specs.Parts.{places_of};
ghost use Rattle.meter.specs.Whole.{whole_meter};
ghost use Rattle.meter.specs.Step.{new_meter, meter_start, meter_step};
ghost use Rattle.capi.specs.Outcomes.{noted_figures};

use crate::outcomes::{outcome_told, refusal_of, refused_outcome};
use meter::{Meter, StreamsStep};
use receiver::parts::fresh_stream;
use receiver::{MARK_WORDS, Outcome, Receiver, Stream};
use rfc4737::refusal::NONE;

// Makes the parts of a meter those of a new one. Returns the numbers of both streams.
fn renew<'a>(
    _first: Stream,
    _second: Stream,
    marks1: &'a mut [u64; MARK_WORDS],
    marks2: &'a mut [u64; MARK_WORDS],
    positions: &'a mut [u16; Receiver::WINDOW],
    numbers: &'a mut [u16; Receiver::WINDOW],
    times: &'a mut [u64; Receiver::WINDOW],
) -> StreamsStep
    ensures { whole_meter result.first result.second marks1.new marks2.new
        (places_of positions.new numbers.new times.new)
        ≡ new_meter }
{
    *marks1 = [0u64; MARK_WORDS];
    *marks2 = [0u64; MARK_WORDS];
    *positions = [0u16; Receiver::WINDOW];
    *numbers = [0u16; Receiver::WINDOW];
    *times = [0u64; Receiver::WINDOW];
    StreamsStep {
        outcome: refused_outcome(NONE),
        first: fresh_stream(1),
        second: fresh_stream(1),
    }
}

// Makes the borrowed meter a new one.
fn new_in_place(m: &mut Meter) -> Outcome
    ensures { m.new ≡ new_meter }
{
    let a = renew(
        m.first.stream,
        m.second.stream,
        &mut m.first.marks,
        &mut m.second.marks,
        &mut m.places.positions,
        &mut m.places.numbers,
        &mut m.places.times,
    );
    m.first.stream = a.first;
    m.second.stream = a.second;
    a.outcome
}

// Makes a meter a new one.
#[unsafe(no_mangle)]
pub extern "C" fn krakobran_meter_new(meter: &mut Meter)
    ensures { meter.new ≡ new_meter }
{
    new_in_place(meter);
}

// Starts a stream of a meter afresh for K sent packets.
#[unsafe(no_mangle)]
pub extern "C" fn krakobran_meter_start(meter: &mut Meter, stream: u32, sent: u32) -> u64
    ensures { (result ≡ (meter_start meter.old stream sent).refusal)
        × (meter.new ≡ (meter_start meter.old stream sent).state) }
{
    refusal_of(meter::start_in_place(meter, stream, sent))
}

// Steps a stream of a meter with an arrival.
#[unsafe(no_mangle)]
pub extern "C" fn krakobran_meter_step(
    meter: &mut Meter,
    stream: u32,
    number: u32,
    time: u64,
    noted: &mut [u64; 4],
) -> u64
    ensures { (result ≡ (meter_step meter.old stream number time).outcome.refusal)
        × ((noted.new ≡ noted_figures (meter_step meter.old stream number time).outcome.noted)
        × (meter.new ≡ (meter_step meter.old stream number time).state)) }
{
    outcome_told(meter::step_in_place(meter, stream, number, time), noted)
}
