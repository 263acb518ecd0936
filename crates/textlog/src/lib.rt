// Text logs from suppliers: importing them into the caller's lists, reading one line, and writing. Every public call is total.
#![tactic(auto)]

ghost use Rattle.std.specs.Prelude.{◌≡◌, ◌+◌, ◌≤◌, max, length, IfSome};
ghost use Rattle.octets.specs.Memory.{over};
ghost use Rattle.rfc4737.specs.Judge.{sent_most, arrivals_most, numbers_of, times_of};
ghost use Rattle.sample.specs.Output.{answer_in};
ghost use Rattle.textlog.specs.Decode.{read_whole, decode_line, decoded_lines, judge_lines, judge_decoded, judge_log};
ghost use Rattle.textlog.specs.Numbers.{lines_by, arrivals_by};
ghost use Rattle.textlog.specs.Calls.{log_lists_short, judgement_in, import_in, LinesImported, LogImportedFrom, LogWrittenTo, log_line};
ghost use Rattle.textlog.specs.RoundTrip.{ExactLine, ExactLog, ImportedIsFit, LogReadAgain};
ghost use Rattle.textlog.specs.Cases.{LinesReadAsGiven, LinesWrittenAsGiven};
ghost use Rattle.textlog.specs.Private.{Fillable};

pub mod numbers;
pub mod reading;
mod writing;

use numbers::{Full, Numbers};
use reading::{ReadLine, line_at};
use rfc4737::judge::{ARRIVALS_MOST, SENT_MOST, check_lists, judge_next, outside};
use rfc4737::refusal::{NONE, Refusal};
use sample::WriteAnswer;
use writing::{log_length, put_lines};

// The result of an import: the refusal (0 for none), and the number of arrivals, 0 with a refusal. The refusal is a number, as
// `LogImportedFrom` and C have it.
#[derive(Clone, Copy)]
#[repr(C)]
pub struct LogImport {
    pub refusal: u32,
    pub arrivals: u32,
}

// The result of reading a line: the refusal (0, or 14 for a malformed line), the sequence number and the time in microseconds. With a
// refusal both are 0. The refusal is a number, as `log_line` and C have it.
#[derive(Clone, Copy)]
pub struct LogLine {
    pub refusal: u32,
    pub number: u32,
    pub time: u64,
}

// The judgement of a log: the refusal (0 for none), the number of arrivals (0 with a refusal), and the refused line. Lines are numbered
// from 1; 0 is no line.
#[derive(Clone, Copy)]
pub struct LogJudgement {
    pub refusal: u32,
    pub arrivals: u32,
    pub line: u32,
}

// Why a log is refused: the refusal, and the refused line, counted from 1; `None` if no line is to blame.
#[derive(Clone, Copy)]
pub struct LogRefusal {
    pub refusal: Refusal,
    pub line: Option<u32>,
}

impl From<LogRefusal> for Refusal {
    ghost from_gives = { λ log refusal. refusal ≡ log.refusal };

    fn from(log: LogRefusal) -> Refusal {
        log.refusal
    }
}

// The judgement of a refused log; `line` is 0 if no line is to blame.
pub fn refused_at(refusal: u32, line: u32) -> LogJudgement
    ensures { result ≡ record { refusal = refusal; arrivals = 0; line = line } }
{
    LogJudgement {
        refusal,
        arrivals: 0,
        line,
    }
}

impl From<Result<u32, LogRefusal>> for LogJudgement {
    ghost from_gives = { λ judged judgement. judgement ≡ judgement_in judged };

    // The judgement of a log of this many arrivals, or of a refused one.
    fn from(judged: Result<u32, LogRefusal>) -> LogJudgement {
        match judged {
            Ok(arrivals) => LogJudgement {
                refusal: NONE,
                arrivals,
                line: 0,
            },
            Err(refused) => refused_at(refused.refusal.number(), refused.line.unwrap_or(0)),
        }
    }
}

// The result of a refused import.
pub fn refused_import(refusal: u32) -> LogImport
    ensures { result ≡ record { refusal = refusal; arrivals = 0 } }
{
    LogImport {
        refusal,
        arrivals: 0,
    }
}

impl From<Result<u32, Refusal>> for LogImport {
    ghost from_gives = { λ imported answer. answer ≡ import_in imported };

    // The result of an import of this many arrivals, or of a refused one.
    fn from(imported: Result<u32, Refusal>) -> LogImport {
        match imported {
            Ok(arrivals) => LogImport {
                refusal: NONE,
                arrivals,
            },
            Err(refusal) => refused_import(refusal.number()),
        }
    }
}

// The refusal of the line after the first `count`.
fn refused_after(count: u32, refusal: Refusal) -> LogRefusal
    requires { count ≤ arrivals_most }
    ensures { result ≡ record { refusal = refusal; line = Some (count + 1) } }
{
    LogRefusal {
        refusal,
        line: Some(count + 1),
    }
}

// The greater of `greatest`, the greatest number so far, and `number`.
fn next_greatest(greatest: u16, number: u32) -> u16
    requires { number ≤ sent_most }
    ensures { result ≡ max greatest number }
{
    greatest.max(number as u16)
}

// Judges the lines of a log in turn, each by its full number; returns the number of arrivals. A line ends where its reading says, so the
// loop goes by the offset of the next line.
fn judge_lines<N: Numbers>(log: &[u8], k: u32) -> Result<u32, LogRefusal>
    requires { k ≤ sent_most }
    ensures { judgement_in result ≡ judge_lines k 0 0 (lines_by N.full 0 (decoded_lines log.now)) }
{
    let mut greatest: u16 = 0;
    let mut reference: u64 = 0;
    let mut at = 0;
    let mut count: u32 = 0;
    while at < log.len() {
        let Some(line) = line_at(log, at) else {
            return Err(refused_after(count, Refusal::LineMalformed));
        };
        if ARRIVALS_MOST <= count as u64 {
            return Err(refused_after(count, Refusal::ManyArrivals));
        }
        let number = N::full_number(greatest, line.number);
        let judged = judge_next(k as u64, reference, number as u64, line.time);
        if let Err(refusal) = judged.refusal {
            return Err(refused_after(count, refusal));
        }
        reference = judged.reference;
        greatest = next_greatest(greatest, number);
        at = line.end;
        count += 1;
    }
    Ok(count)
}

// Judges a whole log: K, then the lines; returns the number of arrivals.
fn judge_log<N: Numbers>(log: &[u8], k: u32) -> Result<u32, LogRefusal>
    ensures { judgement_in result ≡ judge_decoded k (lines_by N.full 0 (decoded_lines log.now)) }
{
    if outside(1, SENT_MOST, k as u64) {
        return Err(LogRefusal {
            refusal: Refusal::SentOutside,
            line: None,
        });
    }
    judge_lines::<N>(log, k)
}

// Fills the lists with the full numbers and the times of the `arrivals` lines of a log that is not refused.
fn fill_arrivals<N: Numbers>(log: &[u8], arrivals: usize, numbers: &mut [u32], times: &mut [u64])
    requires { Fillable N.full log.now arrivals numbers.old times.old }
    ensures { (numbers.new ≡ over (numbers_of (arrivals_by N.full log.now)) numbers.old)
        × (times.new ≡ over (times_of (arrivals_by N.full log.now)) times.old) }
{
    let mut greatest: u16 = 0;
    let mut at = 0;
    for i in 0..arrivals {
        let Some(line) = line_at(log, at) else {
            return;
        };
        let full = N::full_number(greatest, line.number);
        numbers[i] = full;
        times[i] = line.time;
        greatest = next_greatest(greatest, full);
        at = line.end;
    }
}

// Whether one of two lists, of the lengths `numbers` and `times`, is too short for `arrivals`.
pub fn too_short(arrivals: u32, numbers: usize, times: usize) -> bool
    ensures { result ≡ log_lists_short arrivals numbers times }
{
    numbers < arrivals as usize || times < arrivals as usize
}

// Judges a log, then fills the lists with its arrivals; returns their number. With a refusal the lists stay as they were.
fn import_lists<N: Numbers>(
    log: &[u8],
    k: u32,
    numbers: &mut [u32],
    times: &mut [u64],
) -> Result<u32, Refusal>
    ensures { LinesImported k (lines_by N.full 0 (decoded_lines log.now)) numbers.old times.old
        (import_in result) numbers.new times.new }
{
    let arrivals = judge_log::<N>(log, k)?;
    if too_short(arrivals, numbers.len(), times.len()) {
        return Err(Refusal::OutputShort);
    }
    fill_arrivals::<N>(log, arrivals as usize, numbers, times);
    Ok(arrivals)
}

// Imports a log as `import` does, with the full numbers that `N` finds of its lines.
pub fn import_by<N: Numbers>(
    log: &[u8],
    k: u32,
    numbers: &mut [u32],
    times: &mut [u64],
) -> LogImport
    ensures { LinesImported k (lines_by N.full 0 (decoded_lines log.now)) numbers.old times.old
        result numbers.new times.new }
{
    LogImport::from(import_lists::<N>(log, k, numbers, times))
}

// Imports the log of K sent packets: fills the lists of numbers and times from their start. With a refusal they stay as
// they were. Cost: O(octets of the log).
pub fn import(log: &[u8], k: u32, numbers: &mut [u32], times: &mut [u64]) -> LogImport
    ensures log_imported_from { LogImportedFrom k log.now numbers.old times.old
        result numbers.new times.new }
    ensures exact { ExactLine × ExactLog k log.now }
    ensures fit { ImportedIsFit k log.now }
    ensures cases { LinesReadAsGiven }
{
    import_by::<Full>(log, k, numbers, times)
}

// The number of the first refused line, as `refused_line` says, with the full numbers that `N` finds of the lines.
pub fn refused_line_by<N: Numbers>(log: &[u8], k: u32) -> u32
    ensures { result ≡ (judge_decoded k (lines_by N.full 0 (decoded_lines log.now))).line }
{
    LogJudgement::from(judge_log::<N>(log, k)).line
}

// The number of the first refused line of a log, from 1. It is 0 if no line is refused, also if K itself is; C receives this number. No
// list is filled, so refusal 8 does not arise.
pub fn refused_line(log: &[u8], k: u32) -> u32
    ensures { result ≡ (judge_log k log.now).line }
{
    refused_line_by::<Full>(log, k)
}

// Reads one line by itself: `None` if it is malformed or does not end the octets.
fn whole_line(line: &[u8]) -> Option<ReadLine>
    ensures read { read_whole (length line.now) result ≡ decode_line line.now }
    ensures ends { IfSome result (λ read. read.end ≡ length line.now) }
{
    line_at(line, 0).filter(|read| read.end == line.len())
}

// Reads one line by itself, with the line feed that ends it.
pub fn read_line(line: &[u8]) -> LogLine
    ensures { result ≡ log_line (decode_line line.now) }
{
    match whole_line(line) {
        Some(read) => LogLine {
            refusal: NONE,
            number: read.number,
            time: read.time,
        },
        None => LogLine {
            refusal: Refusal::LineMalformed.number(),
            number: 0,
            time: 0,
        },
    }
}

// Writes the log of the arrivals of K sent packets from the start of `out`; returns its length. With a refusal `out` stays as it was.
fn write_log(k: u32, numbers: &[u32], times: &[u64], out: &mut [u8]) -> Result<u32, Refusal>
    ensures { LogWrittenTo k numbers.now times.now out.old (answer_in result) out.new }
{
    check_lists(k as u64, numbers, times)?;
    let length = log_length(numbers, times);
    if out.len() < length {
        return Err(Refusal::OutputShort);
    }
    put_lines(numbers, times, out);
    Ok(length as u32)
}

// Writes the log of the arrivals of K sent packets from the start of `out`. With a refusal `out` stays as it was.
pub fn write(k: u32, numbers: &[u32], times: &[u64], out: &mut [u8]) -> WriteAnswer
    ensures log_written_to { LogWrittenTo k numbers.now times.now out.old result out.new }
    ensures again { LogReadAgain k numbers.now times.now }
    ensures cases { LinesWrittenAsGiven }
{
    WriteAnswer::from(write_log(k, numbers, times, out))
}
