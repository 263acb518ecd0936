// The summary of a sample, as text and as JSON: its counts, the least buffers of a receiver that restores order, and its ratios.
// `write_all` adds the other figures of the whole sample.
#![tactic(auto)]

ghost use Rattle.std.specs.Prelude.{◌≤◌, length};
ghost use Rattle.sample.specs.Decode.{decode};
ghost use Rattle.sample.specs.Format.{label_most};
ghost use Rattle.sample.specs.Output.{Output};
ghost use Rattle.summary.specs.All.{all_text, all_octets, AllTo};
ghost use Rattle.summary.specs.Json.{label_member, label_octets, LabelTo, summary_json, SummaryJsonTo};
ghost use Rattle.summary.specs.Text.{summary_text, summary_octets, SummaryTo};

mod all;
mod clock;
mod figures;
mod json;
mod lines;
mod parts;

use all::{Others, degrees_of};
pub use json::write_label_member;
use json::{put_label_member, write_object};
use lines::write_text;
use parts::Summary;
use rfc4737::judge::ARRIVALS_MOST;
use rfc4737::refusal::{NONE, Refusal};
use sample::WriteAnswer;
use writing::{Text, hand_over};

// Room for any summary, as text or as JSON, in octets.
pub const SUMMARY_OCTETS: usize = 2048;

// Room for the summary and the other figures of any sample.
pub const ALL_OCTETS: usize = 200_704;

// Room for any label as the first member of a JSON object.
pub const LABEL_OCTETS: usize = 139;

// The greatest number of records of a sample.
const MAX_RECORDS: usize = ARRIVALS_MOST as usize;

// The greatest length of a label.
const LABEL_MOST: usize = 64;

// Writes the summary of a sample to the start of `out`; SUMMARY_OCTETS octets have room for any. Refusals: the file's; 8 if `out` is too
// short. If the call is refused, `out` stays unchanged. Cost: fifteen searches by `buffering::least`, and seven passes over the file.
pub fn write(file: &[u8], out: &mut [u8]) -> WriteAnswer
    ensures summary_to { SummaryTo (decode file.now) out.old result out.new }
    ensures room { length (summary_text (decode file.now)) ≤ summary_octets }
{
    let layout = sample::check(file);
    let mut text = Summary::new();
    write_text(&mut text, file, layout);
    hand_over(layout.refusal, text.octets(), out)
}

// Writes the summary of a sample as one JSON object and a line feed. Room, refusals and cost are those of `write`.
pub fn write_json(file: &[u8], out: &mut [u8]) -> WriteAnswer
    ensures summary_json_to { SummaryJsonTo (decode file.now) out.old result out.new }
    ensures room { length (summary_json (decode file.now)) ≤ summary_octets }
{
    let layout = sample::check(file);
    let mut text = Summary::new();
    write_object(&mut text, file, layout);
    hand_over(layout.refusal, text.octets(), out)
}

// Writes a label as the first member of a JSON object to the start of `out`; LABEL_OCTETS octets have room for any label of at most 64
// octets. A longer label is refused with 3. If `out` is too short, it is refused with 8. In both cases `out` stays unchanged.
pub fn write_json_label(label: &[u8], out: &mut [u8]) -> WriteAnswer
    ensures label_to { LabelTo label.now out.old result out.new }
    ensures room { length label.now ≤ label_most → length (label_member label.now) ≤ label_octets }
{
    if LABEL_MOST < label.len() {
        return WriteAnswer::from(Err(Refusal::LongLabel));
    }
    let mut text = Text::<LABEL_OCTETS>::new();
    put_label_member(&mut text, label);
    hand_over(NONE, text.octets(), out)
}

// Writes the summary of a sample and the other figures of the whole sample. Refusals are those of `write`; ALL_OCTETS octets have room
// for any text. Cost: that of `write`, thirteen passes over the file, O(A + K) for each, and 20,480 octets of stack beside those of
// `metrics::record_gaps`.
pub fn write_all(file: &[u8], out: &mut [u8]) -> WriteAnswer
    ensures all_to { AllTo (decode file.now) out.old result out.new }
    ensures room { length (all_text (decode file.now)) ≤ all_octets }
{
    let layout = sample::check(file);
    let mut text = Summary::new();
    write_text(&mut text, file, layout);
    let tally = metrics::tally(file).tally;
    let degrees = degrees_of(file);
    let mut gaps = [0u32; MAX_RECORDS];
    metrics::record_gaps(file, &mut gaps);
    let others = Others {
        tally: &tally,
        degrees: &degrees,
        gaps: &gaps[..layout.arrivals as usize],
        runs: metrics::counts(file).counts.runs,
    };
    others.hand_over(layout.refusal, out, text.octets())
}
