// Writes the text of a line and of the counts.
ghost use Rattle.std.specs.Prelude.{◌≡◌, ◌+◌, ◌≤◌, ◌++◌, [], length};
ghost use Rattle.octets.specs.Text.{ascii};
ghost use Rattle.refusals.specs.Words.{words_of};
ghost use Rattle.follow.specs.Text.{arrival_text, extent_text, exact_text, beyond_text, noted_text, refusal_text, outcome_text, line_text};
ghost use Rattle.follow.specs.Text.{accepted_text, runs_text, counts_text};

use crate::LINE_OCTETS;
use receiver::{Lateness, Outcome, ReceiverAnswer, Stream};
use rfc4737::Runs;
use textlog::LogLine;
use writing::Text;

// A text that has room for any line.
pub(crate) type Line = Text<LINE_OCTETS>;

// Writes the arrival of a line that is not refused.
#[tactic(auto, unfolding(crate::specs::Text::arrival_text))]
fn write_arrival(out: &mut Line, read: LogLine)
    requires { length out.old + 60 ≤ 256 }
    ensures written { out.new ≡ out.old ++ arrival_text read }
    ensures room { length out.new ≤ length out.old + 60 }
{
    if read.refusal == 0 {
        out.between(b"", read.number as u64, b" at ");
        out.between(b"", read.time, b" us: ");
    }
}

// Writes an extent after `words`.
#[tactic(auto, unfolding(crate::specs::Text::extent_text))]
fn write_extent(out: &mut Line, words: &[u8], extent: u32)
    requires { length out.old + (length words.now + 30) ≤ 256 }
    ensures written { out.new ≡ out.old ++ extent_text words.now extent }
    ensures room { length out.new ≤ length out.old + (length words.now + 30) }
{
    if extent == 1 {
        out.between(words, extent as u64, b" packet, ");
    } else {
        out.between(words, extent as u64, b" packets, ");
    }
}

// Writes a reordered packet with exact extent and late time.
#[tactic(auto, unfolding(crate::specs::Text::exact_text))]
fn write_exact(out: &mut Line, l: Lateness)
    requires { length out.old + 100 ≤ 256 }
    ensures written { out.new ≡ out.old ++ exact_text l }
    ensures room { length out.new ≤ length out.old + 100 }
{
    let late = l.late;
    write_extent(out, b"late by ", l.extent);
    out.late_time(late);
    out.word(b" us\n");
}

// Writes a reordered packet beyond the window.
#[tactic(auto, unfolding(crate::specs::Text::beyond_text))]
fn write_beyond(out: &mut Line, l: Lateness)
    requires { length out.old + 100 ≤ 256 }
    ensures written { out.new ≡ out.old ++ beyond_text l }
    ensures room { length out.new ≤ length out.old + 100 }
{
    write_extent(out, b"late by more than ", l.extent);
    out.word(b"beyond the window\n");
}

// Writes what is noted of an arrival.
#[tactic(auto, unfolding(crate::specs::Text::noted_text, crate::specs::Text::in_order_text))]
fn write_noted(out: &mut Line, noted: ReceiverAnswer)
    requires { length out.old + 100 ≤ 256 }
    ensures written { out.new ≡ out.old ++ noted_text noted }
    ensures room { length out.new ≤ length out.old + 100 }
{
    match noted {
        ReceiverAnswer::Duplicate => out.word(b"copy\n"),
        ReceiverAnswer::InOrder(jump) => out.between(b"in order, jump ", jump as u64, b"\n"),
        ReceiverAnswer::Exact(l) => write_exact(out, l),
        ReceiverAnswer::Beyond(l) => write_beyond(out, l),
    }
}

// Writes the words of a refusal and a line feed, in one copy: of a copy of the words alone LLVM makes a memmove from their table, which the
// archive does not ask of C.
fn write_words(out: &mut Line, refusal: u32)
    requires { length out.old + 129 ≤ 256 }
    ensures written { out.new ≡ out.old ++ (words_of refusal ++ ascii "\n") }
    ensures room { length out.new ≤ length out.old + 129 }
{
    let mut words = [0u8; refusals::OCTETS + 1];
    let n = refusals::words(refusal, &mut words).length as usize;
    words[n] = b'\n';
    out.word(&words[..n + 1]);
}

// Writes a refusal, in words.
#[tactic(auto, unfolding(crate::specs::Text::refusal_text))]
fn write_refusal(out: &mut Line, refusal: u32)
    requires { length out.old + 180 ≤ 256 }
    ensures written { out.new ≡ out.old ++ refusal_text refusal }
    ensures room { length out.new ≤ length out.old + 180 }
{
    out.between(b"refused ", refusal as u64, b": ");
    write_words(out, refusal);
}

// Writes the outcome of a step.
#[tactic(auto, unfolding(crate::specs::Text::outcome_text))]
fn write_outcome(out: &mut Line, outcome: Outcome)
    requires { length out.old + 180 ≤ 256 }
    ensures written { out.new ≡ out.old ++ outcome_text outcome }
    ensures room { length out.new ≤ length out.old + 180 }
{
    let noted = outcome.noted;
    if outcome.refusal == 0 {
        write_noted(out, noted);
    } else {
        write_refusal(out, outcome.refusal);
    }
}

// Writes the text of a line into the caller's text: one that is returned would stand on the stack twice.
#[tactic(auto, unfolding(crate::specs::Text::line_text))]
pub(crate) fn write_line(out: &mut Line, read: LogLine, outcome: Outcome)
    requires { length out.old + 240 ≤ 256 }
    ensures written { out.new ≡ out.old ++ line_text read outcome }
    ensures room { length out.new ≤ length out.old + 240 }
{
    write_arrival(out, read);
    write_outcome(out, outcome);
}

// Writes the counts of the arrivals.
#[tactic(auto, unfolding(crate::specs::Text::accepted_text))]
fn write_accepted(out: &mut Line, stream: Stream)
    requires { length out.old + 135 ≤ 256 }
    ensures written { out.new ≡ out.old ++ accepted_text stream.arrived stream.inorder stream.duplicates }
    ensures room { length out.new ≤ length out.old + 135 }
{
    let accepted = stream.arrived as u64 + stream.duplicates as u64;
    let late = stream.arrived.saturating_sub(stream.inorder);
    out.between(b"accepted ", accepted, b", in order ");
    out.between(b"", stream.inorder as u64, b", reordered ");
    out.between(b"", late as u64, b", copies ");
    out.between(b"", stream.duplicates as u64, b", closed runs ");
}

// Writes the counts of the runs.
#[tactic(auto, unfolding(crate::specs::Text::runs_text))]
fn write_runs(out: &mut Line, runs: Runs)
    requires { length out.old + 120 ≤ 256 }
    ensures written { out.new ≡ out.old ++ runs_text runs.closed runs.current }
    ensures room { length out.new ≤ length out.old + 120 }
{
    out.between(b"", runs.closed as u64, b", open run ");
    out.between(b"", runs.current as u64, b"\n");
}

// Writes the text of the counts of a stream into the caller's text.
#[tactic(auto, unfolding(crate::specs::Text::counts_text))]
pub(crate) fn write_counts(out: &mut Line, stream: Stream)
    requires { length out.old + 255 ≤ 256 }
    ensures written { out.new ≡ out.old ++ counts_text stream }
    ensures room { length out.new ≤ length out.old + 255 }
{
    let runs = stream.runs;
    write_accepted(out, stream);
    write_runs(out, runs);
}
