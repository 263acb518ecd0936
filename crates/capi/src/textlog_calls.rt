// Text logs for C.

ghost use Rattle.std.specs.Prelude.{◌≡◌, [], ◌∷◌};
ghost use Rattle.textlog.specs.Decode.{judge_log, decode_line};
ghost use Rattle.textlog.specs.Calls.{LogImportedFrom, LogWrittenTo, log_line};
ghost use Rattle.capi.specs.Sample.{write_told};
ghost use Rattle.capi.specs.Imports.{log_told, line_told};

use crate::outcomes::write_told;

// Imports a text log into lists of numbers and times. `sent` is K.
#[unsafe(no_mangle)]
pub extern "C" fn krakobran_log_import(
    log: &[u8],
    sent: u32,
    numbers: &mut [u32],
    times: &mut [u64],
    arrivals: &mut [u64; 1],
) -> u64
    ensures { LogImportedFrom sent log.now numbers.old times.old
        (log_told result arrivals.new) numbers.new times.new }
{
    let imported = textlog::import(log, sent, numbers, times);
    *arrivals = [imported.arrivals as u64];
    imported.refusal as u64
}

// Finds the first refused line of a text log, from 1; 0 if no line is refused.
#[unsafe(no_mangle)]
pub extern "C" fn krakobran_log_refused_line(log: &[u8], sent: u32, line: &mut [u64; 1])
    ensures { line.new ≡ (judge_log sent log.now).line ∷ [] }
{
    *line = [textlog::refused_line(log, sent) as u64];
}

// Reads one line of a text log, with its line feed, as a sequence number and a time.
#[unsafe(no_mangle)]
pub extern "C" fn krakobran_log_read_line(line: &[u8], arrival: &mut [u64; 2]) -> u64
    ensures { line_told result arrival.new ≡ log_line (decode_line line.now) }
{
    let read = textlog::read_line(line);
    *arrival = [read.number as u64, read.time];
    read.refusal as u64
}

// Writes arrivals as a text log. `sent` is K.
#[unsafe(no_mangle)]
pub extern "C" fn krakobran_log_write(
    sent: u32,
    numbers: &[u32],
    times: &[u64],
    out: &mut [u8],
    length: &mut [u64; 1],
) -> u64
    ensures { LogWrittenTo sent numbers.now times.now out.old
        (write_told result length.new) out.new }
{
    write_told(textlog::write(sent, numbers, times, out), length)
}
