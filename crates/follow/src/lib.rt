// What a receiver says of the lines of a text log, one line at a time, as text.
#![tactic(auto)]

ghost use Rattle.std.specs.Prelude.{◌≡◌, ◌≤◌, length};
ghost use Rattle.textlog.specs.Decode.{decode_line};
ghost use Rattle.textlog.specs.Calls.{log_line};
ghost use Rattle.sample.specs.Output.{Output};
ghost use Rattle.follow.specs.Text.{line_text, line_octets, counts_text};
ghost use Rattle.follow.specs.Follow.{followed, followed_text, FollowedTo};

mod text;

use receiver::{Outcome, Receiver, ReceiverAnswer, StepAnswer, Stream};
use rfc4737::refusal::NONE;
use sample::WriteAnswer;
use text::{Line, write_counts, write_line};
use textlog::{LogLine, read_line};
use writing::hand_over;

// Room for the text of any line, and for the counts, in octets.
pub const LINE_OCTETS: usize = 256;

// The answer for a line: its refusal (0 for none), the length of its text, and the receiver after it. The refusal stays a number beside the
// text's length: a line that is refused has a text too, and `follow_answer` has it so.
#[derive(Clone, Copy)]
pub struct FollowAnswer {
    pub refusal: u32,
    pub length: u32,
    pub state: Receiver,
}

// Steps the receiver by the arrival of a line. A refused line leaves it unchanged.
#[tactic(auto, unfolding(crate::specs::Follow::followed))]
fn step_line(state: Receiver, read: LogLine) -> StepAnswer
    ensures { result ≡ followed state read }
{
    if read.refusal != 0 {
        let outcome = Outcome {
            refusal: read.refusal,
            noted: ReceiverAnswer::InOrder(0),
        };
        return StepAnswer { outcome, state };
    }
    state.step(read.number, read.time)
}

// Writes the text of a line to the start of `out`; LINE_OCTETS octets have room for any. `read` is the line as `textlog::read_line` reads
// it, and `outcome` the outcome of the receiver's step by it. If `out` is too short, the refusal is 8, and `out` stays unchanged.
pub fn line_text(read: LogLine, outcome: Outcome, out: &mut [u8]) -> WriteAnswer
    ensures output { Output 0 (line_text read outcome) out.old result out.new }
    ensures room { length (line_text read outcome) ≤ line_octets }
{
    let mut text = Line::new();
    write_line(&mut text, read, outcome);
    hand_over(NONE, text.octets(), out)
}

// Reads one line, steps the receiver by its arrival, and writes the outcome to the start of `out`; LINE_OCTETS octets have room for any. A
// malformed line is refused with 14. A refused line leaves the receiver unchanged. If `out` is too short, the refusal is 8, and the
// receiver and `out` stay unchanged.
pub fn line(state: Receiver, line: &[u8], out: &mut [u8]) -> FollowAnswer
    ensures followed_to { FollowedTo state (log_line (decode_line line.now)) out.old result out.new }
    ensures room { length (followed_text state (log_line (decode_line line.now))) ≤ line_octets }
{
    let read = read_line(line);
    let step = step_line(state, read);
    let outcome = step.outcome;
    let after = step.state;
    let written = line_text(read, outcome, out);
    if written.refusal != 0 {
        return FollowAnswer {
            refusal: written.refusal,
            length: 0,
            state,
        };
    }
    FollowAnswer {
        refusal: outcome.refusal,
        length: written.length,
        state: after,
    }
}

// Writes the counts of a stream to the start of `out`; LINE_OCTETS octets have room for any. If `out` is too short, the refusal is 8, and
// `out` stays unchanged.
pub fn counts(stream: Stream, out: &mut [u8]) -> WriteAnswer
    ensures output { Output 0 (counts_text stream) out.old result out.new }
    ensures room { length (counts_text stream) ≤ line_octets }
{
    let mut text = Line::new();
    write_counts(&mut text, stream);
    hand_over(NONE, text.octets(), out)
}
