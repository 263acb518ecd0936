// What `krakobran follow` says of a line and of the counts, for C. The caller steps its receiver itself, and passes the outcome as its
// refusal and its figures.

ghost use Rattle.std.specs.Prelude.{◌≡◌, [], ◌∷◌};
ghost use Rattle.sample.specs.Output.{Output};
ghost use Rattle.receiver.specs.declared.Stream.{Stream};
ghost use Rattle.textlog.specs.Decode.{decode_line};
ghost use Rattle.textlog.specs.Calls.{log_line};
ghost use Rattle.follow.specs.Text.{line_text, counts_text};
ghost use Rattle.capi.specs.Sample.{write_told};
ghost use Rattle.capi.specs.Outcomes.{noted_figures, noted_in, same_figures, ReadBack};
ghost use Rattle.capi.specs.Follow.{follow_refusal, follow_outcome, counted_stream};

use crate::outcomes::{noted_figures, refused_outcome, write_told};
use receiver::{Lateness, Outcome, ReceiverAnswer, Stream};
use rfc4737::refusal::{NONE, Refusal};
use rfc4737::{LateTime, Runs};
use sample::WriteAnswer;
use textlog::LogLine;

// The greatest number of 32 bits.
const MAX_32: u64 = 0xffff_ffff;

// Returns what is noted in the case with number `kind`, with those of the figures that the case has. Any number above 5 is read as 5.
fn noted_in(kind: u64, jump: u32, extent: u32, late: u64) -> ReceiverAnswer
    ensures { result ≡ noted_in kind jump extent late }
{
    let after = Lateness {
        extent,
        late: LateTime::After(late),
    };
    let before = Lateness {
        extent,
        late: LateTime::Before(late),
    };
    match kind {
        0 => ReceiverAnswer::InOrder(jump),
        1 => ReceiverAnswer::Exact(after),
        2 => ReceiverAnswer::Exact(before),
        3 => ReceiverAnswer::Duplicate,
        4 => ReceiverAnswer::Beyond(after),
        _ => ReceiverAnswer::Beyond(before),
    }
}

// Whether these are the figures of what is noted.
fn are_figures(noted: ReceiverAnswer, kind: u64, jump: u64, extent: u64, late: u64) -> bool
    ensures { result ≡ same_figures (noted_figures noted) (kind ∷ jump ∷ extent ∷ late ∷ []) }
{
    let figures = noted_figures(noted);
    if figures[0] != kind {
        return false;
    }
    if figures[1] != jump {
        return false;
    }
    if figures[2] != extent {
        return false;
    }
    figures[3] == late
}

// Refuses with 9: the refusal and the figures are those of no outcome.
fn no_outcome() -> WriteAnswer
    ensures { result ≡ record { refusal = 9; length = 0 } }
{
    WriteAnswer {
        refusal: Refusal::AskedOutside.number(),
        length: 0,
    }
}

// Writes what is said of a line read as `read`, by the outcome with this refusal and these figures.
fn write_line(
    read: LogLine,
    refusal: u64,
    kind: u64,
    jump: u64,
    extent: u64,
    late: u64,
    out: &mut [u8],
) -> WriteAnswer
    ensures { Output (follow_refusal read refusal (kind ∷ jump ∷ extent ∷ late ∷ []))
        (line_text read (follow_outcome read refusal (kind ∷ jump ∷ extent ∷ late ∷ []))) out.old result out.new }
{
    if read.refusal != NONE {
        return follow::line_text(read, refused_outcome(read.refusal), out);
    }
    if MAX_32 < refusal {
        return no_outcome();
    }
    if MAX_32 < jump {
        return no_outcome();
    }
    if MAX_32 < extent {
        return no_outcome();
    }
    let noted = noted_in(kind, jump as u32, extent as u32, late);
    if are_figures(noted, kind, jump, extent, late) {
        let outcome = Outcome {
            refusal: refusal as u32,
            noted,
        };
        return follow::line_text(read, outcome, out);
    }
    no_outcome()
}

// Writes what is said of a line of a text log, by the refusal and the figures of the step that its arrival made.
#[unsafe(no_mangle)]
pub extern "C" fn krakobran_follow_line(
    line: &[u8],
    refusal: u64,
    noted: &[u64; 4],
    out: &mut [u8],
    length: &mut [u64; 1],
) -> u64
    ensures output { Output (follow_refusal (log_line (decode_line line.now)) refusal noted.now)
        (line_text (log_line (decode_line line.now))
        (follow_outcome (log_line (decode_line line.now)) refusal noted.now)) out.old
        (write_told result length.new) out.new }
    ensures back { ReadBack }
{
    let read = textlog::read_line(line);
    write_told(
        write_line(read, refusal, noted[0], noted[1], noted[2], noted[3], out),
        length,
    )
}

// Writes the counts of a receiver, from those numbers of its stream that they are made of.
#[unsafe(no_mangle)]
pub extern "C" fn krakobran_follow_counts(
    arrived: u32,
    inorder: u32,
    duplicates: u32,
    closed: u32,
    current: u32,
    out: &mut [u8],
    length: &mut [u64; 1],
) -> u64
    ensures output { Output 0 (counts_text (counted_stream arrived inorder duplicates closed current)) out.old
        (write_told result length.new) out.new }
    ensures stream { (s : Stream) → counts_text (counted_stream s.arrived s.inorder s.duplicates s.runs.closed
        s.runs.current) ≡ counts_text s }
{
    let stream = Stream {
        sent: 0,
        arrived,
        duplicates,
        inorder,
        next: 0,
        kept: 0,
        greatest: 0,
        runs: Runs {
            closed,
            squares: 0,
            current,
        },
        dropped: 0,
    };
    write_told(follow::counts(stream, out), length)
}
