// The listing of a sample, in the caller's buffer.
ghost use Rattle.std.specs.Prelude.{◌≡◌, ◌≤◌, length, IfErr, OnOk};
ghost use Rattle.octets.specs.Memory.{over};
ghost use Rattle.sample.specs.Decode.{decode};
ghost use Rattle.metrics.specs.Report.{sample_text};
ghost use Rattle.metrics.specs.Private.Taken.{listing_refusal};

pub(crate) mod compare;
mod line_agreement;
mod lines;
mod listing_pass;

use crate::engine::input::CheckedFile;
use crate::report::listing_pass::take_all;
use rfc4737::refusal::{NONE, Refusal};

// Writes the lines of a sample at the start of `out` if it has room for all of them, and returns their length. If it has no room, some of
// them may be written.
pub(crate) fn write_listing(file: &CheckedFile, out: &mut [u8]) -> u32
    ensures { (result ≡ length (sample_text (decode file.now.file.now)))
        × (result ≤ length out.old → out.new ≡ over (sample_text (decode file.now.file.now)) out.old) }
{
    take_all(file, out, b"", false).unwrap_or(0) as u32
}

// Checks that a sample is not refused and that `room` octets are enough for its listing. The refusal, the file's own or 8, is a number, as
// the layout has it. If `room` is enough for any listing, no line is made; else all lines are made, into a buffer that has room for none,
// to know their length.
pub(crate) fn check_room(file: &CheckedFile, room: usize) -> Result<(), u32>
    ensures ok { OnOk result (listing_refusal (decode file.now.file.now) room ≡ 0) }
    ensures err { IfErr result (λ r. (r ≡ listing_refusal (decode file.now.file.now) room) × (1 ≤ r)) }
{
    if file.layout.refusal != NONE {
        return Err(file.layout.refusal);
    }
    if listing::LISTING_OCTETS <= room {
        return Ok(());
    }
    let mut none = [0u8; 1];
    if room < write_listing(file, &mut none) as usize {
        return Err(Refusal::OutputShort.number());
    }
    Ok(())
}
