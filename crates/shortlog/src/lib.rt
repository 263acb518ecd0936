// Text logs of short sequence numbers: each line has only the lowest 8 or 10 bits of its number. The full numbers are found, and the log
// is imported as by crate `textlog`. Every public call is total.
#![tactic(auto)]

ghost use Rattle.std.specs.Prelude.{◌≡◌};
ghost use Rattle.shortnumbers.specs.Number.{range_of, number_found};
ghost use Rattle.shortlog.specs.Found.{judge_short_log, ShortLogImportedFrom, EveryLog};
ghost use Rattle.shortlog.specs.Cases.{ShortLogsAsGiven};

use shortnumbers::number::number_found;
use textlog::numbers::Numbers;
use textlog::{LogImport, import_by, refused_line_by};

// The number of values of 8 bits.
const RANGE_8: u16 = 256;

// The number of values of 10 bits.
const RANGE_10: u16 = 1024;

// Lines that have only the lowest bits of their numbers, which take `RANGE` values.
struct Short<const RANGE: u16>;

impl<const RANGE: u16> Numbers for Short<RANGE> {
    ghost full = { λ greatest number. number_found RANGE greatest number };

    fn full_number(greatest: u16, number: u32) -> u32 {
        number_found(RANGE, greatest, number)
    }
}

// Imports the log of K sent packets, whose lines have the lowest 8 bits of their numbers: fills the lists of full numbers and times from
// their start. With a refusal they stay as they were. C calls the two widths by their names, so these stay beside the generic functions.
pub fn import_8(log: &[u8], k: u32, numbers: &mut [u32], times: &mut [u64]) -> LogImport
    ensures short_log_imported_from { ShortLogImportedFrom (range_of 8) k log.now numbers.old times.old
        result numbers.new times.new }
    ensures everywidth { EveryLog }
    ensures cases { ShortLogsAsGiven }
{
    import_by::<Short<RANGE_8>>(log, k, numbers, times)
}

// Imports a log as `import_8` does, of the lowest 10 bits.
pub fn import_10(log: &[u8], k: u32, numbers: &mut [u32], times: &mut [u64]) -> LogImport
    ensures short_log_imported_from { ShortLogImportedFrom (range_of 10) k log.now numbers.old times.old
        result numbers.new times.new }
    ensures everywidth { EveryLog }
    ensures cases { ShortLogsAsGiven }
{
    import_by::<Short<RANGE_10>>(log, k, numbers, times)
}

// The number of the first refused line of a log of 8 bits, from 1; 0 if no line is refused (as `textlog::refused_line`).
pub fn refused_line_8(log: &[u8], k: u32) -> u32
    ensures { result ≡ (judge_short_log (range_of 8) k log.now).line }
{
    refused_line_by::<Short<RANGE_8>>(log, k)
}

// The number of the first refused line of a log of 10 bits, from 1; 0 if no line is refused.
pub fn refused_line_10(log: &[u8], k: u32) -> u32
    ensures { result ≡ (judge_short_log (range_of 10) k log.now).line }
{
    refused_line_by::<Short<RANGE_10>>(log, k)
}
