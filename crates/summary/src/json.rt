// Writes the summary as one JSON object. Its functions stand beside those of `lines`, since each form has its own definitions, members
// and room; what both write alike is in `parts`.
ghost use Rattle.std.specs.Prelude.{◌≡◌, ◌+◌, ◌*◌, ◌<◌, ◌≤◌, ◌++◌, cond, ◌||◌, eqb, length};
ghost use Rattle.octets.specs.Text.{ascii};
ghost use Rattle.sample.specs.Decode.{decode};
ghost use Rattle.metrics.specs.Sample.{answers_of};
ghost use Rattle.metrics.specs.Records.{FileLayout};
ghost use Rattle.summary.specs.Figures.{sizes_for};
ghost use Rattle.sample.specs.Format.{label_most};
ghost use Rattle.summary.specs.Json.{label_octets, quote, backslash, escaped_octet, escaped, number_member, flag_member, label_member, counts_members, sizes_object, sizes_member, limit_members, share_member, ratio_members, disorder_member, summary_json};

use crate::figures::{Figures, Sizes, figures_of, sizes_for};
use crate::parts::{Summary, write_ratio};
use crate::{LABEL_MOST, LABEL_OCTETS};
use sample::Layout;
use writing::Text;

// Returns whether an octet of a label needs a backslash before it.
fn is_escaped(octet: u8) -> bool
    ensures { result ≡ (eqb octet quote || eqb octet backslash) }
{
    matches!(octet, b'"' | b'\\')
}

// Writes an octet of a label, escaped if necessary.
#[tactic(auto, unfolding(crate::specs::Json::escaped_octet))]
fn write_octet<const N: usize>(out: &mut Text<N>, octet: u8)
    requires { length out.old + 2 ≤ N }
    ensures written { out.new ≡ out.old ++ escaped_octet octet }
    ensures room { length out.new ≤ length out.old + 2 }
{
    if is_escaped(octet) {
        out.word(&[b'\\', octet]);
    } else {
        out.octet(octet);
    }
}

// Writes a label, with a backslash before each quote and backslash.
fn write_label<const N: usize>(out: &mut Text<N>, label: &[u8])
    requires { length out.old + 2 * length label.now ≤ N }
    ensures written { out.new ≡ out.old ++ escaped label.now }
    ensures room { length out.new ≤ length out.old + 2 * length label.now }
{
    for octet in label {
        write_octet(out, *octet);
    }
}

// Writes a member with a number.
#[tactic(auto, unfolding(crate::specs::Json::number_member))]
fn write_member(out: &mut Summary, name: &[u8], number: u64)
    requires { length out.old + (length name.now + 20) ≤ 2048 }
    ensures written { out.new ≡ out.old ++ number_member name.now number }
    ensures room { length out.new ≤ length out.old + (length name.now + 20) }
{
    out.word(name);
    out.number(number);
}

// Writes true or false.
fn write_bool(out: &mut Summary, flag: bool)
    requires { length out.old + 5 ≤ 2048 }
    ensures written { out.new ≡ out.old ++ (cond flag (ascii "true") (ascii "false")) }
    ensures room { length out.new ≤ length out.old + 5 }
{
    if flag {
        out.word(b"true");
    } else {
        out.word(b"false");
    }
}

// Writes a member with true or false.
#[tactic(auto, unfolding(crate::specs::Json::flag_member))]
fn write_flag(out: &mut Summary, name: &[u8], flag: bool)
    requires { length out.old + (length name.now + 5) ≤ 2048 }
    ensures written { out.new ≡ out.old ++ flag_member name.now flag }
    ensures room { length out.new ≤ length out.old + (length name.now + 5) }
{
    out.word(name);
    write_bool(out, flag);
}

// Writes the start of the object and a label of at most 64 octets, which have room.
#[tactic(auto, unfolding(crate::specs::Json::label_member))]
pub(crate) fn put_label_member<const N: usize>(out: &mut Text<N>, label: &[u8])
    requires { (length label.now ≤ label_most) × (length out.old + label_octets ≤ N) }
    ensures written { out.new ≡ out.old ++ label_member label.now }
    ensures room { length out.new ≤ length out.old + label_octets }
{
    out.word(b"{\"label\":\"");
    write_label(out, label);
    out.word(b"\"");
}

// Writes the start of the object and a label of at most 64 octets, if there is room for 139 octets. Else it writes nothing.
pub fn write_label_member<const N: usize>(out: &mut Text<N>, label: &[u8])
    ensures written { length label.now ≤ label_most → length out.old + label_octets ≤ N → out.new ≡ out.old ++ label_member label.now }
    ensures long { label_most < length label.now → out.new ≡ out.old }
    ensures full { N < length out.old + label_octets → out.new ≡ out.old }
    ensures room { length out.new ≤ length out.old + label_octets }
{
    if label.len() <= LABEL_MOST && LABEL_OCTETS <= N && out.octets().len() <= N - LABEL_OCTETS {
        put_label_member(out, label);
    }
}

// Writes the counts.
#[tactic(auto, unfolding(crate::specs::Json::counts_members))]
fn write_counts(out: &mut Summary, figures: Figures)
    requires { length out.old + 100 ≤ 2048 }
    ensures written { out.new ≡ out.old ++ counts_members figures.sent figures.arrived figures.copies }
    ensures room { length out.new ≤ length out.old + 100 }
{
    write_member(out, b",\"sent\":", figures.sent as u64);
    write_member(out, b",\"arrived\":", figures.arrived as u64);
    write_member(out, b",\"copies\":", figures.copies as u64);
}

// Writes the object with the least sizes for a share.
#[tactic(auto, unfolding(crate::specs::Json::sizes_object))]
fn write_sizes(out: &mut Summary, start: &[u8], share: u32, sizes: Sizes)
    requires { length out.old + (length start.now + 131) ≤ 2048 }
    ensures written { out.new ≡ out.old ++ sizes_object start.now share sizes }
    ensures room { length out.new ≤ length out.old + (length start.now + 131) }
{
    out.between(start, share as u64, b",\"waiting_time_us\":");
    out.between(b"", sizes.time, b",\"packets_held\":");
    out.between(b"", sizes.packets, b",\"octets_held\":");
    out.between(b"", sizes.octets, b"}");
}

// Finds the least sizes for `share` percent of the first arrivals, and writes their object.
fn write_row(out: &mut Summary, file: &[u8], start: &[u8], share: u32)
    requires { (length out.old + (length start.now + 131) ≤ 2048) × (1 ≤ share) × (share ≤ 100) }
    ensures written { out.new ≡ out.old ++ sizes_object start.now share (sizes_for (answers_of (decode file.now)) share) }
    ensures room { length out.new ≤ length out.old + (length start.now + 131) }
{
    let sizes = sizes_for(file, share);
    write_sizes(out, start, share, sizes);
}

// Writes the array of the least sizes.
#[tactic(auto, unfolding(crate::specs::Json::sizes_member))]
fn write_needs(out: &mut Summary, file: &[u8])
    requires { length out.old + 780 ≤ 2048 }
    ensures written { out.new ≡ out.old ++ sizes_member (answers_of (decode file.now)) }
    ensures room { length out.new ≤ length out.old + 780 }
{
    write_row(out, file, b",\"least_sizes\":[{\"share_percent\":", 50);
    write_row(out, file, b",{\"share_percent\":", 90);
    write_row(out, file, b",{\"share_percent\":", 95);
    write_row(out, file, b",{\"share_percent\":", 99);
    write_row(out, file, b",{\"share_percent\":", 100);
    out.word(b"]");
}

// Writes whether packets were lost and whether the clock steps back.
#[tactic(auto, unfolding(crate::specs::Json::limit_members))]
fn write_limits(out: &mut Summary, figures: Figures)
    requires { length out.old + 50 ≤ 2048 }
    ensures written { out.new ≡ out.old ++ limit_members figures.lost figures.back }
    ensures room { length out.new ≤ length out.old + 50 }
{
    write_flag(out, b",\"packets_lost\":", figures.lost);
    write_flag(out, b",\"clock_steps_back\":", figures.back);
}

// Writes a member with the number and the share of the first arrivals of one kind: `part` of `whole`.
#[tactic(auto, unfolding(crate::specs::Json::share_member))]
fn write_share(out: &mut Summary, name: &[u8], part: u32, whole: u32)
    requires { length out.old + (length name.now + 103) ≤ 2048 }
    ensures written { out.new ≡ out.old ++ share_member name.now part whole }
    ensures room { length out.new ≤ length out.old + (length name.now + 103) }
{
    write_ratio(
        out,
        name,
        b",\"of\":",
        b",\"percent\":",
        b"null",
        b"}",
        part,
        whole,
    );
}

// Writes the ratios.
#[tactic(auto, unfolding(crate::specs::Json::ratio_members))]
fn write_ratios(out: &mut Summary, figures: Figures)
    requires { length out.old + 400 ≤ 2048 }
    ensures written { out.new ≡ out.old ++ ratio_members figures.reordered figures.reordered1 figures.reordered3 figures.arrived }
    ensures room { length out.new ≤ length out.old + 400 }
{
    write_share(
        out,
        b",\"reordered\":{\"packets\":",
        figures.reordered,
        figures.arrived,
    );
    write_share(
        out,
        b",\"reordered_1\":{\"packets\":",
        figures.reordered1,
        figures.arrived,
    );
    write_share(
        out,
        b",\"reordered_3\":{\"packets\":",
        figures.reordered3,
        figures.arrived,
    );
}

// Writes the total of disorder and the end of the object.
#[tactic(auto, unfolding(crate::specs::Json::disorder_member))]
fn write_end(out: &mut Summary, total: u32)
    requires { length out.old + 40 ≤ 2048 }
    ensures written { out.new ≡ out.old ++ disorder_member total }
    ensures room { length out.new ≤ length out.old + 40 }
{
    out.between(b",\"disorder_pairs\":", total as u64, b"}\n");
}

// Writes the summary of a sample into the caller's text, as `lines::write_text` does.
#[tactic(auto, unfolding(crate::specs::Json::summary_json, crate::specs::Json::object_of))]
pub(crate) fn write_object(out: &mut Summary, file: &[u8], layout: Layout)
    requires { FileLayout (decode file.now) layout × (length out.old + 2048 ≤ 2048) }
    ensures written { out.new ≡ out.old ++ summary_json (decode file.now) }
    ensures room { length out.new ≤ length out.old + 2048 }
{
    let figures = figures_of(file, layout);
    put_label_member(out, sample::label(file));
    write_counts(out, figures);
    write_needs(out, file);
    write_limits(out, figures);
    write_ratios(out, figures);
    write_end(out, figures.disorder);
}
