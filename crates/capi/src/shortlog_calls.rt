// Text logs of short numbers for C.

ghost use Rattle.std.specs.Prelude.{◌≡◌, [], ◌∷◌};
ghost use Rattle.shortnumbers.specs.Number.{range_of};
ghost use Rattle.shortlog.specs.Found.{judge_short_log, ShortLogImportedFrom};
ghost use Rattle.capi.specs.Imports.{log_told};

// Imports a text log whose sequence numbers are the lowest 8 bits, into lists of full numbers and times. `sent` is K.
#[unsafe(no_mangle)]
pub extern "C" fn krakobran_log_import_8(
    log: &[u8],
    sent: u32,
    numbers: &mut [u32],
    times: &mut [u64],
    arrivals: &mut [u64; 1],
) -> u64
    ensures { ShortLogImportedFrom (range_of 8) sent log.now numbers.old times.old
        (log_told result arrivals.new) numbers.new times.new }
{
    let imported = shortlog::import_8(log, sent, numbers, times);
    *arrivals = [imported.arrivals as u64];
    imported.refusal as u64
}

// Imports a text log whose sequence numbers are the lowest 10 bits.
#[unsafe(no_mangle)]
pub extern "C" fn krakobran_log_import_10(
    log: &[u8],
    sent: u32,
    numbers: &mut [u32],
    times: &mut [u64],
    arrivals: &mut [u64; 1],
) -> u64
    ensures { ShortLogImportedFrom (range_of 10) sent log.now numbers.old times.old
        (log_told result arrivals.new) numbers.new times.new }
{
    let imported = shortlog::import_10(log, sent, numbers, times);
    *arrivals = [imported.arrivals as u64];
    imported.refusal as u64
}

// Finds the first refused line of a log with 8-bit numbers, from 1; 0 if no line is refused.
#[unsafe(no_mangle)]
pub extern "C" fn krakobran_log_refused_line_8(log: &[u8], sent: u32, line: &mut [u64; 1])
    ensures { line.new ≡ (judge_short_log (range_of 8) sent log.now).line ∷ [] }
{
    *line = [shortlog::refused_line_8(log, sent) as u64];
}

// Finds the first refused line of a log with 10-bit numbers.
#[unsafe(no_mangle)]
pub extern "C" fn krakobran_log_refused_line_10(log: &[u8], sent: u32, line: &mut [u64; 1])
    ensures { line.new ≡ (judge_short_log (range_of 10) sent log.now).line ∷ [] }
{
    *line = [shortlog::refused_line_10(log, sent) as u64];
}
