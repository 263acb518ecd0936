// Writes the lines of the summary.
ghost use Rattle.std.specs.Prelude.{◌≡◌, ◌+◌, ◌≤◌, ◌++◌, length};
ghost use Rattle.sample.specs.Decode.{decode};
ghost use Rattle.metrics.specs.Sample.{answers_of};
ghost use Rattle.metrics.specs.Records.{FileLayout};
ghost use Rattle.summary.specs.Figures.{sizes_for};
ghost use Rattle.summary.specs.Text.{counts_line, share_line, sizes_line, row_lines, needs_lines, line_if, limit_lines, ratio_lines, disorder_line, summary_text};

use crate::figures::{Figures, Sizes, figures_of, sizes_for};
use crate::parts::{Summary, write_column, write_milliseconds, write_ratio};
use sample::Layout;

// Writes the line with the counts.
#[tactic(auto, unfolding(crate::specs::Text::counts_line))]
fn write_counts(out: &mut Summary, figures: Figures)
    requires { length out.old + 120 ≤ 2048 }
    ensures written { out.new ≡ out.old ++ counts_line figures.sent figures.arrived figures.copies }
    ensures room { length out.new ≤ length out.old + 120 }
{
    out.between(b"", figures.sent as u64, b" packets sent, ");
    out.between(b"", figures.arrived as u64, b" arrived, ");
    out.between(b"", figures.copies as u64, b" copies besides\n");
}

// Writes a line with the number and the share of the first arrivals of one kind: `part` of `whole`.
#[tactic(auto, unfolding(crate::specs::Text::share_line))]
fn write_share(out: &mut Summary, name: &[u8], part: u32, whole: u32)
    requires { length out.old + (length name.now + 92) ≤ 2048 }
    ensures written { out.new ≡ out.old ++ share_line name.now part whole }
    ensures room { length out.new ≤ length out.old + (length name.now + 92) }
{
    write_ratio(out, name, b" of ", b", ", b"-", b" %\n", part, whole);
}

// Writes the line with the least sizes for a share.
#[tactic(auto, unfolding(crate::specs::Text::sizes_line))]
fn write_sizes(out: &mut Summary, share: &[u8], sizes: Sizes)
    requires { length out.old + (length share.now + 174) ≤ 2048 }
    ensures written { out.new ≡ out.old ++ sizes_line share.now sizes }
    ensures room { length out.new ≤ length out.old + (length share.now + 174) }
{
    out.word(share);
    write_milliseconds(out, sizes.time);
    write_column(out, 16, sizes.packets);
    write_column(out, 15, sizes.octets);
    out.word(b"\n");
}

// Finds the least sizes for `share` percent of the first arrivals, and writes their row of the table.
fn write_row(out: &mut Summary, file: &[u8], name: &[u8], share: u32)
    requires { (length out.old + (length name.now + 174) ≤ 2048) × (1 ≤ share) × (share ≤ 100) }
    ensures written { out.new ≡ out.old ++ sizes_line name.now (sizes_for (answers_of (decode file.now)) share) }
    ensures room { length out.new ≤ length out.old + (length name.now + 174) }
{
    let sizes = sizes_for(file, share);
    write_sizes(out, name, sizes);
}

// Writes the rows of the table of the least sizes.
#[tactic(auto, unfolding(crate::specs::Text::row_lines))]
fn write_rows(out: &mut Summary, file: &[u8])
    requires { length out.old + 915 ≤ 2048 }
    ensures written { out.new ≡ out.old ++ row_lines (answers_of (decode file.now)) }
    ensures room { length out.new ≤ length out.old + 915 }
{
    write_row(out, file, b"     50 %", 50);
    write_row(out, file, b"     90 %", 90);
    write_row(out, file, b"     95 %", 95);
    write_row(out, file, b"     99 %", 99);
    write_row(out, file, b"      all", 100);
}

// Writes the table of the least sizes.
#[tactic(auto, unfolding(crate::specs::Text::needs_lines))]
fn write_needs(out: &mut Summary, file: &[u8])
    requires { length out.old + 1200 ≤ 2048 }
    ensures written { out.new ≡ out.old ++ needs_lines (answers_of (decode file.now)) }
    ensures room { length out.new ≤ length out.old + 1200 }
{
    out.word(
        b"\nA receiver that puts the packets back in order needs, for this share of those that arrived:\n\n    share    waiting time    packets held    octets held\n",
    );
    write_rows(out, file);
    out.word(
        b"\nPackets held is an extent, which can be more than a receiver has to hold. Packets that never arrived are not counted.\n",
    );
}

// Writes a line if `due`, else nothing.
#[tactic(auto, unfolding(crate::specs::Text::line_if))]
fn write_if(out: &mut Summary, due: bool, line: &[u8])
    requires { length out.old + length line.now ≤ 2048 }
    ensures written { out.new ≡ out.old ++ line_if due line.now }
    ensures room { length out.new ≤ length out.old + length line.now }
{
    if due {
        out.word(line);
    }
}

// Writes the lines that limit what the sizes mean: one if packets were lost, one if the clock steps back.
#[tactic(auto, unfolding(crate::specs::Text::limit_lines))]
fn write_limits(out: &mut Summary, figures: Figures)
    requires { length out.old + 220 ≤ 2048 }
    ensures written { out.new ≡ out.old ++ limit_lines figures.lost figures.back }
    ensures room { length out.new ≤ length out.old + 220 }
{
    write_if(
        out,
        figures.lost,
        b"Packets were lost in this sample; packets and octets held are told for samples without loss, and a receiver can hold more.\n",
    );
    write_if(
        out,
        figures.back,
        b"The clock steps back in this sample; the waiting times hold only for clocks that do not.\n",
    );
}

// Writes the lines with the ratios.
#[tactic(auto, unfolding(crate::specs::Text::ratio_lines))]
fn write_ratios(out: &mut Summary, figures: Figures)
    requires { length out.old + 330 ≤ 2048 }
    ensures written { out.new ≡ out.old ++ ratio_lines figures.reordered figures.reordered1 figures.reordered3 figures.arrived }
    ensures room { length out.new ≤ length out.old + 330 }
{
    write_share(
        out,
        b"\nReordered (late): ",
        figures.reordered,
        figures.arrived,
    );
    write_share(out, b"1-reordered: ", figures.reordered1, figures.arrived);
    write_share(out, b"3-reordered: ", figures.reordered3, figures.arrived);
}

// Writes the line with the total of disorder.
#[tactic(auto, unfolding(crate::specs::Text::disorder_line))]
fn write_disorder(out: &mut Summary, total: u32)
    requires { length out.old + 70 ≤ 2048 }
    ensures written { out.new ≡ out.old ++ disorder_line total }
    ensures room { length out.new ≤ length out.old + 70 }
{
    out.between(
        b"Total of disorder: ",
        total as u64,
        b" pairs in the wrong order\n",
    );
}

// Writes the summary of a sample into the caller's text: one that is returned would stand on the stack twice.
#[tactic(auto, unfolding(crate::specs::Text::summary_text, crate::specs::Text::text_of))]
pub(crate) fn write_text(out: &mut Summary, file: &[u8], layout: Layout)
    requires { FileLayout (decode file.now) layout × (length out.old + 2048 ≤ 2048) }
    ensures written { out.new ≡ out.old ++ summary_text (decode file.now) }
    ensures room { length out.new ≤ length out.old + 2048 }
{
    let figures = figures_of(file, layout);
    write_counts(out, figures);
    write_needs(out, file);
    write_limits(out, figures);
    write_ratios(out, figures);
    write_disorder(out, figures.disorder);
}
