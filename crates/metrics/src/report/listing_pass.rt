// One pass over a sample, in which each line of its listing is taken: written into the caller's buffer, or compared with a
// text. The first line that differs ends the pass.
ghost use Rattle.sample.specs.Decode.{decode};
ghost use Rattle.metrics.specs.Private.Taken.{LineRoom, Taken, PassedTo, PassEnded, part_of};
ghost use Rattle.metrics.specs.Report.{sample_text};

use crate::engine::Engine;
use crate::engine::input::CheckedFile;
use crate::figures::{counts_after, no_counts};
use crate::report::line_agreement::part_after;
use crate::report::lines::{take_end, take_header, take_record};
use rfc4737::Counts;

// A pass over all records: the offset after their lines, and the counts of the answers.
#[derive(Clone, Copy)]
struct Passed {
    pub octets: usize,
    pub counts: Counts,
}

// Takes the lines of the records, from the offset `start` on, or returns the offset of the first difference.
fn take_records(
    file: &CheckedFile,
    out: &mut [u8],
    text: &[u8],
    comparing: bool,
    start: usize,
) -> Result<Passed, usize>
    requires { LineRoom comparing text.now start out.old
        × PassedTo (decode file.now.file.now) file.now.layout text.now comparing 0 start out.old out.old }
    ensures { PassEnded (decode file.now.file.now) file.now.layout text.now comparing out.old out.new result }
{
    let mut engine = Engine::new();
    let mut counts = no_counts();
    let mut at = start;
    for i in 0..file.layout.arrivals {
        let arrival = file.arrival_at(i);
        let step = engine.advance(file, i, arrival);
        let part = take_record(out, text, comparing, at, i + 1, arrival.number, step.answer);
        at = part_after(at, part)?;
        counts = counts_after(counts, step.class);
    }
    Ok(Passed { octets: at, counts })
}

// Takes all lines. Returns their length, or the offset of the first difference.
pub(crate) fn take_all(
    file: &CheckedFile,
    out: &mut [u8],
    text: &[u8],
    comparing: bool,
) -> Result<usize, usize>
    requires { LineRoom comparing text.now 0 out.old }
    ensures { Taken comparing (sample_text (decode file.now.file.now)) text.now 0 out.old out.new
        (part_of result) }
{
    let start = take_header(out, text, comparing, file.layout.sent, file.layout.arrivals)?;
    let passed = take_records(file, out, text, comparing, start)?;
    let last = take_end(out, text, comparing, passed.octets, passed.counts);
    part_after(passed.octets, last)
}
