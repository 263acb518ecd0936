// Writes the figures of a whole sample that its summary leaves out, line by line. A function `put_..` writes at an offset of the caller's
// buffer if it has room, and returns the offset after its text. These take the offset beside the buffer: the text may be longer than the
// buffer, and then its length is still counted. A value of `Text` would need room for 200,704 octets on the stack.
ghost use Rattle.std.specs.Prelude.{◌≡◌, List, ◌++◌, ◌+◌, ◌*◌, ◌≤◌, length};
ghost use Rattle.rfc4737.specs.declared.Answer.{Answer};
ghost use Rattle.sample.specs.Decode.{decode};
ghost use Rattle.sample.specs.Output.{Output};
ghost use Rattle.metrics.specs.Sample.{answers_of};
ghost use Rattle.summary.specs.All.{pair_line, extent_line, over_line, runs_line, count_lines, more_text, all_octets};
ghost use Rattle.writing.specs.Put.{Put};
ghost use Rattle.summary.specs.Private.Lines.{figure_line, figure_lines, DegreesOf, CountsOf, FiguresOf};

use metrics::TALLY_PLACES;
use rfc4737::Runs;
use rfc4737::refusal::{NONE, Refusal};
use sample::WriteAnswer;
use writing::Text;

// The greatest n with a line of its n-reordered packets.
pub(crate) const MAX_DEGREE: usize = 10;

// The greatest length of a line, which is that with the runs.
const MAX_LINE: usize = 140;

// A text that has room for any line.
type Line = Text<MAX_LINE>;

// What the lines of a section are about.
#[derive(Clone, Copy)]
pub(crate) enum Kind {
    Extent,
    Degree,
    Gap,
}

// Writes a line of two numbers.
#[tactic(auto, unfolding(crate::specs::All::pair_line))]
fn write_pair(line: &mut Line, first: u32, second: u32)
    requires { length line.old + 47 ≤ 140 }
    ensures written { line.new ≡ line.old ++ pair_line first second }
    ensures room { length line.new ≤ length line.old + 47 }
{
    line.word(b"    ");
    line.number(first as u64);
    line.word(b": ");
    line.number(second as u64);
    line.word(b"\n");
}

// Writes the line of an extent or of a record unless its figure is 0.
#[tactic(auto, unfolding(crate::specs::All::extent_line))]
fn write_nonzero(line: &mut Line, n: u32, figure: u32)
    requires { length line.old + 47 ≤ 140 }
    ensures written { line.new ≡ line.old ++ extent_line n figure }
    ensures room { length line.new ≤ length line.old + 47 }
{
    if figure != 0 {
        write_pair(line, n, figure);
    }
}

// Writes the line of `n` and its figure.
#[tactic(auto, unfolding(crate::specs::Private::Lines::figure_line))]
fn write_line(line: &mut Line, kind: Kind, n: u32, figure: u32)
    requires { length line.old + 47 ≤ 140 }
    ensures written { line.new ≡ line.old ++ figure_line kind n figure }
    ensures room { length line.new ≤ length line.old + 47 }
{
    match kind {
        Kind::Extent | Kind::Gap => write_nonzero(line, n, figure),
        Kind::Degree => write_pair(line, n, figure),
    }
}

// Writes the number of packets with an extent over 100.
#[tactic(auto, unfolding(crate::specs::All::over_line))]
fn write_over(line: &mut Line, packets: u32)
    requires { length line.old + 40 ≤ 140 }
    ensures written { line.new ≡ line.old ++ over_line packets }
    ensures room { length line.new ≤ length line.old + 40 }
{
    line.between(b"    over 100: ", packets as u64, b"\n");
}

// Writes the line with the runs.
#[tactic(auto, unfolding(crate::specs::All::runs_line))]
fn write_runs(line: &mut Line, runs: Runs)
    requires { length line.old + 140 ≤ 140 }
    ensures written { line.new ≡ line.old ++ runs_line runs.closed runs.squares runs.current }
    ensures room { length line.new ≤ length line.old + 140 }
{
    line.between(
        b"\nRuns in order: ",
        runs.closed as u64,
        b" ended, the sum of their squares ",
    );
    line.between(b"", runs.squares as u64, b", packets in the open one ");
    line.between(b"", runs.current as u64, b"\n");
}

// Copies a text.
fn put_text(out: &mut [u8], at: usize, text: &[u8]) -> usize
    requires { at + length text.now ≤ 200704 }
    ensures { Put at result text.now out.old out.new }
{
    octets::put_octets(out, at, text);
    at + text.len()
}

// Copies a line for each figure.
fn put_lines(out: &mut [u8], start: usize, kind: Kind, figures: &[u32]) -> usize
    requires { (length figures.now ≤ 4096) × (start + 47 * length figures.now ≤ 200704) }
    ensures { Put start result (figure_lines kind figures.now (length figures.now)) out.old
        out.new × (result ≤ start + 47 * length figures.now) }
{
    let mut line = Line::new();
    let mut at = start;
    for (i, figure) in figures.iter().enumerate() {
        line.clear();
        write_line(&mut line, kind, i as u32 + 1, *figure);
        at = put_text(out, at, line.octets());
    }
    at
}

// Copies a section: its head, and a line for each figure.
fn put_section(out: &mut [u8], at: usize, head: &[u8], kind: Kind, figures: &[u32]) -> usize
    requires { (length figures.now ≤ 4096) × (at + (length head.now + 47 * length figures.now) ≤ 200704) }
    ensures { Put at result (head.now ++ figure_lines kind figures.now (length figures.now))
        out.old out.new
        × (result ≤ at + (length head.now + 47 * length figures.now)) }
{
    let one = put_text(out, at, head);
    put_lines(out, one, kind, figures)
}

// Finds the numbers of n-reordered packets for n = 1 to MAX_DEGREE. Cost: a pass over the file for each n.
pub(crate) fn degrees_of(file: &[u8]) -> [u32; MAX_DEGREE]
    ensures { DegreesOf (answers_of (decode file.now)) result }
{
    let mut degrees = [0u32; MAX_DEGREE];
    for i in 0..MAX_DEGREE {
        degrees[i] = metrics::n_reordered(file, i as u32 + 1).reordered;
    }
    degrees
}

// Copies the line with the number of packets with an extent over 100.
fn put_over(out: &mut [u8], at: usize, packets: u32) -> usize
    requires { at + 40 ≤ 200704 }
    ensures { Put at result (over_line packets) out.old out.new × (result ≤ at + 40) }
{
    let mut line = Line::new();
    write_over(&mut line, packets);
    put_text(out, at, line.octets())
}

// Copies the line with the runs.
fn put_runs(out: &mut [u8], at: usize, runs: Runs) -> usize
    requires { at + 140 ≤ 200704 }
    ensures { Put at result (runs_line runs.closed runs.squares runs.current) out.old out.new × (result ≤ at + 140) }
{
    let mut line = Line::new();
    write_runs(&mut line, runs);
    put_text(out, at, line.octets())
}

// The figures of a sample that its summary leaves out. A gap stands as a number. The arrays are lent, so that the stack has them once.
#[derive(Clone, Copy)]
pub(crate) struct Others<'a> {
    pub tally: &'a [u32; TALLY_PLACES],
    pub degrees: &'a [u32; MAX_DEGREE],
    // One for each record.
    pub gaps: &'a [u32],
    pub runs: Runs,
    ghost few: { length gaps.now ≤ 4096 },
}

impl Others<'_> {
    // Copies the tally of extents and the numbers of n-reordered packets.
    fn put_counts(&self, out: &mut [u8], at: usize) -> usize
        requires { at ≤ 2048 }
        ensures { (result ≤ at + 5400) × ((l : List Answer) → CountsOf l self.now.tally.now self.now.degrees.now
            → Put at result (count_lines l) out.old out.new) }
    {
        let tally = self.tally;
        let degrees = self.degrees;
        let one = put_section(
            out,
            at,
            b"\nExtents, and how many packets have each:\n",
            Kind::Extent,
            &tally[1..],
        );
        let two = put_over(out, one, tally[0]);
        put_section(
            out,
            two,
            b"\nn, and how many packets are n-reordered:\n",
            Kind::Degree,
            degrees,
        )
    }

    // Copies the summary and the other figures to the start of `out` if it has room for them. Returns the length of the text.
    fn put_all(&self, out: &mut [u8], summary: &[u8]) -> usize
        requires { length summary.now ≤ 2048 }
        ensures { (result ≤ 200704) × ((l : List Answer)
            → FiguresOf l self.now.tally.now self.now.degrees.now self.now.gaps.now self.now.runs
            → Put 0 result (summary.now ++ more_text l (length self.now.gaps.now)) out.old out.new) }
    {
        let one = put_text(out, 0, summary);
        let two = self.put_counts(out, one);
        let three = put_section(
            out,
            two,
            b"\nRecords that have a gap, and the gap in positions:\n",
            Kind::Gap,
            self.gaps,
        );
        put_runs(out, three, self.runs)
    }

    // Writes the summary and the other figures to the start of `out` if nothing was refused and `out` has room for them. The first
    // `put_all` only finds the length of the text, since a refused call must leave `out` unchanged.
    pub(crate) fn hand_over(&self, refusal: u32, out: &mut [u8], summary: &[u8]) -> WriteAnswer
        requires { length summary.now ≤ 2048 }
        ensures { (l : List Answer) → FiguresOf l self.now.tally.now self.now.degrees.now self.now.gaps.now self.now.runs
            → Output refusal (summary.now ++ more_text l (length self.now.gaps.now)) out.old result out.new
            × (length (summary.now ++ more_text l (length self.now.gaps.now)) ≤ all_octets) }
    {
        let n = self.put_all(&mut [], summary);
        if refusal != NONE {
            return WriteAnswer { refusal, length: 0 };
        }
        if out.len() < n {
            return WriteAnswer::from(Err(Refusal::OutputShort));
        }
        self.put_all(out, summary);
        WriteAnswer::from(Ok(n as u32))
    }
}
