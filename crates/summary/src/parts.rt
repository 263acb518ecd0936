// Parts that the summary has as text and as JSON.
ghost use Rattle.std.specs.Prelude.{◌≡◌, ◌+◌, ◌≤◌, ◌++◌, length, take};
ghost use Rattle.summary.specs.Text.{column, milliseconds, percent, ratio};

use crate::SUMMARY_OCTETS;
use writing::Text;

// A text that has room for any summary.
pub(crate) type Summary = Text<SUMMARY_OCTETS>;

// Writes a number with spaces before it, so that it fills `width` octets.
pub(crate) fn write_column(out: &mut Summary, width: usize, v: u64)
    requires { (width ≤ 16) × (length out.old + 36 ≤ 2048) }
    ensures written { out.new ≡ out.old ++ column width v }
    ensures room { length out.new ≤ length out.old + 36 }
{
    let spaces = width.saturating_sub(decimal::count(v));
    out.word(&b"                "[..spaces]);
    out.number(v);
}

// Writes a time, given in microseconds, in milliseconds with three decimals, in a column after a space.
#[tactic(auto, unfolding(crate::specs::Text::milliseconds))]
pub(crate) fn write_milliseconds(out: &mut Summary, time: u64)
    requires { length out.old + 101 ≤ 2048 }
    ensures written { out.new ≡ out.old ++ milliseconds time }
    ensures room { length out.new ≤ length out.old + 101 }
{
    out.word(b" ");
    write_column(out, 8, time / 1000);
    out.word(b".");
    out.number(time / 100 % 10);
    out.number(time / 10 % 10);
    out.number(time % 10);
    out.word(b" ms");
}

// Writes `part` of `whole` in percent with one decimal, or `none` if `whole` is 0.
#[tactic(auto, unfolding(crate::specs::Text::percent))]
pub(crate) fn write_percent(out: &mut Summary, none: &[u8], part: u32, whole: u32)
    requires { length out.old + (length none.now + 41) ≤ 2048 }
    ensures written { out.new ≡ out.old ++ percent none.now part whole }
    ensures room { length out.new ≤ length out.old + (length none.now + 41) }
{
    if whole == 0 {
        out.word(none);
        return;
    }
    let tenths = (2000 * (part as u64) + whole as u64) / (2 * (whole as u64));
    out.number(tenths / 10);
    out.word(b".");
    out.number(tenths % 10);
}

// Writes `part`, `whole` and `part` of `whole` in percent. `name` stands before `part`, `of` before `whole`, `share` before the percent,
// and `after` at the end. `none` replaces the percent if `whole` is 0.
#[tactic(auto, unfolding(crate::specs::Text::ratio))]
pub(crate) fn write_ratio(
    out: &mut Summary,
    name: &[u8],
    of: &[u8],
    share: &[u8],
    none: &[u8],
    after: &[u8],
    part: u32,
    whole: u32,
)
    requires { length out.old + (length name.now + (length of.now + (length share.now + (length none.now + (length after.now + 81))))) ≤ 2048 }
    ensures written { out.new ≡ out.old ++ ratio name.now of.now share.now none.now after.now part whole }
    ensures room { length out.new ≤ length out.old + (length name.now + (length of.now + (length share.now + (length none.now + (length after.now + 81))))) }
{
    out.between(name, part as u64, of);
    out.between(b"", whole as u64, share);
    write_percent(out, none, part, whole);
    out.word(after);
}
