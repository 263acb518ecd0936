// Compares the reordered ratios of two samples, and writes a ratio as a fraction and in percent with two decimals.
ghost use Rattle.std.specs.Prelude.{◌≡◌, ◌*◌, ◌<◌};
ghost use Rattle.summary.specs.Text.{tenths};
ghost use Rattle.cmd_worse.specs.Standing.{standing};

use rfc4737::Counts;
use std::io;
use worse::{greater, reordered_ratio};

// Which of two samples has the greater reordered ratio.
#[derive(Clone, Copy, Debug, PartialEq, Eq)]
pub(crate) enum Standing {
    Equal,
    First,
    Second,
}

// Compares the reordered ratios of two samples, given their counts.
pub(crate) fn standing_of(one: Counts, other: Counts) -> Standing
    ensures { result ≡ standing one other }
{
    let first = reordered_ratio(one);
    let second = reordered_ratio(other);
    if greater(first, second) {
        return Standing::First;
    }
    if greater(second, first) {
        return Standing::Second;
    }
    Standing::Equal
}

// Returns `part` of `whole` in hundredths of a percent, rounded as the summary rounds tenths: to the nearest, half up.
fn hundredths(part: u32, whole: u32) -> u64
    requires { 0 < whole }
    ensures { result ≡ tenths (10 * part) whole }
{
    (2000 * (10 * (part as u64)) + whole as u64) / (2 * (whole as u64))
}

// Writes the reordered ratio of a sample: `reordered` of `arrived` packets.
pub(crate) fn write_ratio(rt: &impl Print, reordered: u32, arrived: u32) -> io::Result<()> {
    if arrived == 0 {
        return rt.print("no ratio, as nothing arrived, which counts as 0");
    }
    let share = hundredths(reordered, arrived);
    let percent = share / 100;
    let decimals = share % 100;
    print!(rt; "{reordered}/{arrived} = {percent}.{decimals:02} %")
}
