// The summary of a sample for C, as text, as JSON, and with the other figures of the whole sample; and a label as JSON.

ghost use Rattle.sample.specs.Decode.{decode};
ghost use Rattle.summary.specs.Text.{SummaryTo};
ghost use Rattle.summary.specs.Json.{SummaryJsonTo, LabelTo};
ghost use Rattle.summary.specs.All.{AllTo};
ghost use Rattle.capi.specs.Sample.{write_told};

use crate::outcomes::write_told;

// Writes the summary of a sample.
#[unsafe(no_mangle)]
pub extern "C" fn krakobran_summary_write(file: &[u8], out: &mut [u8], length: &mut [u64; 1]) -> u64
    ensures { SummaryTo (decode file.now) out.old (write_told result length.new) out.new }
{
    write_told(summary::write(file, out), length)
}

// Writes the summary of a sample as one JSON object and a line feed.
#[unsafe(no_mangle)]
pub extern "C" fn krakobran_summary_json(file: &[u8], out: &mut [u8], length: &mut [u64; 1]) -> u64
    ensures { SummaryJsonTo (decode file.now) out.old (write_told result length.new) out.new }
{
    write_told(summary::write_json(file, out), length)
}

// Writes the summary of a sample, and the other figures of the whole sample.
#[unsafe(no_mangle)]
pub extern "C" fn krakobran_summary_all(file: &[u8], out: &mut [u8], length: &mut [u64; 1]) -> u64
    ensures { AllTo (decode file.now) out.old (write_told result length.new) out.new }
{
    write_told(summary::write_all(file, out), length)
}

// Writes a label as the first member of a JSON object.
#[unsafe(no_mangle)]
pub extern "C" fn krakobran_label_json(label: &[u8], out: &mut [u8], length: &mut [u64; 1]) -> u64
    ensures { LabelTo label.now out.old (write_told result length.new) out.new }
{
    write_told(summary::write_json_label(label, out), length)
}
