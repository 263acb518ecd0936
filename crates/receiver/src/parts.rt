// The receiver's rule over lent parts of a state, by value and array by array. The places of a stream are counted from the first up, or
// from the last down if `down`. All functions are total.

ghost use Rattle.std.specs.Prelude.{◌≡◌, []};
ghost use Rattle.receiver.specs.Parts.{whole_by, step_answer_by};
ghost use Rattle.receiver.specs.Fit.{fit};
ghost use Rattle.receiver.specs.Step.{fresh_stream, step_within};

use crate::advance::StreamStep;
use crate::{MARK_WORDS, Outcome, Places, Receiver, Share, Stream};

// Returns whether the stream is fit with these places.
pub fn is_fit<'a>(
    s: Stream,
    down: bool,
    positions: &'a [u16; Receiver::WINDOW],
    numbers: &'a [u16; Receiver::WINDOW],
    times: &'a [u64; Receiver::WINDOW],
) -> bool
    ensures { result ≡ fit (whole_by down s [] positions.now numbers.now times.now) }
{
    let places = Places {
        positions: *positions,
        numbers: *numbers,
        times: *times,
    };
    s.is_fit_with(&places, down)
}

// Steps a stream that keeps at most `most` jumps; 0 is taken as 1, and more than 64 as 64. A refused arrival leaves the parts as they
// were.
pub fn advance<'a>(
    s: Stream,
    down: bool,
    most: u32,
    marks: &'a mut [u64; MARK_WORDS],
    positions: &'a mut [u16; Receiver::WINDOW],
    numbers: &'a mut [u16; Receiver::WINDOW],
    times: &'a mut [u64; Receiver::WINDOW],
    number: u32,
    time: u64,
) -> StreamStep
    ensures { step_answer_by down result marks.new positions.new numbers.new times.new
        ≡ step_within most (whole_by down s marks.old positions.old numbers.old times.old)
        number time }
{
    let mut stream = s;
    let mut places = Places {
        positions: *positions,
        numbers: *numbers,
        times: *times,
    };
    let answer = stream.step(marks, &mut places, Share { down, most }, number, time);
    *positions = places.positions;
    *numbers = places.numbers;
    *times = places.times;
    StreamStep {
        outcome: Outcome::of(answer),
        stream,
    }
}

// Returns the numbers of a stream for k packets, before any arrival.
pub fn fresh_stream(k: u32) -> Stream
    ensures { result ≡ fresh_stream k }
{
    Stream::fresh(k)
}
