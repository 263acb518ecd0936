// The sample file for C: check, read, label and write; and the check of K and lists.

ghost use Rattle.std.specs.Prelude.{◌≡◌};
ghost use Rattle.rfc4737.specs.Judge.{refusal_of_lists};
ghost use Rattle.sample.specs.Decode.{decode, decoded_refusal, layout_of};
ghost use Rattle.sample.specs.Calls.{ReadFrom, WrittenTo};
ghost use Rattle.capi.specs.Sample.{layout_figures, layout_told, label_part, label_figures, write_told};

use crate::outcomes::write_told;
use rfc4737::judge::check_lists;
use rfc4737::refusal::{NONE, number_in};
use sample::Layout;

// The offset and the length of the label in a file, and the file's refusal (0 for none). If it is refused, both are 0. The
// refusal stands beside the part, as `label_part` of specs/ gives both.
#[derive(Clone, Copy)]
pub struct LabelPart {
    pub refusal: u32,
    pub start: u32,
    pub length: u32,
}

// Returns the figures of a layout: the length of the label, K and A.
pub fn layout_figures(layout: Layout) -> [u64; 3]
    ensures { result ≡ layout_figures layout }
{
    [
        layout.label as u64,
        layout.sent as u64,
        layout.arrivals as u64,
    ]
}

// Returns the part of a file that is its label; if the file is refused, the empty part at its start.
pub fn label_part(file: &[u8]) -> LabelPart
    ensures { result ≡ label_part (decode file.now) }
{
    let layout = sample::check(file);
    if layout.refusal != NONE {
        return LabelPart {
            refusal: layout.refusal,
            start: 0,
            length: 0,
        };
    }
    LabelPart {
        refusal: NONE,
        start: 2,
        length: layout.label,
    }
}

// Checks a sample file.
#[unsafe(no_mangle)]
pub extern "C" fn krakobran_sample_check(file: &[u8], layout: &mut [u64; 3]) -> u64
    ensures { (result ≡ decoded_refusal (decode file.now))
        × (layout.new ≡ layout_figures (layout_of (decode file.now))) }
{
    let found = sample::check(file);
    *layout = layout_figures(found);
    found.refusal as u64
}

// Reads a sample file into lists of sizes, numbers and times.
#[unsafe(no_mangle)]
pub extern "C" fn krakobran_sample_read(
    file: &[u8],
    sizes: &mut [u16],
    numbers: &mut [u32],
    times: &mut [u64],
    layout: &mut [u64; 3],
) -> u64
    ensures { ReadFrom file.now sizes.old numbers.old times.old
        (layout_told result layout.new) sizes.new numbers.new times.new }
{
    let found = sample::read(file, sizes, numbers, times);
    *layout = layout_figures(found);
    found.refusal as u64
}

// Finds the offset and the length of the label in a sample file.
#[unsafe(no_mangle)]
pub extern "C" fn krakobran_sample_label(file: &[u8], part: &mut [u64; 2]) -> u64
    ensures { (result ≡ decoded_refusal (decode file.now))
        × (part.new ≡ label_figures (label_part (decode file.now))) }
{
    let found = label_part(file);
    *part = [found.start as u64, found.length as u64];
    found.refusal as u64
}

// Writes the sample file of a label and lists.
#[unsafe(no_mangle)]
pub extern "C" fn krakobran_sample_write(
    label: &[u8],
    sizes: &[u16],
    numbers: &[u32],
    times: &[u64],
    out: &mut [u8],
    length: &mut [u64; 1],
) -> u64
    ensures { WrittenTo label.now sizes.now numbers.now times.now out.old
        (write_told result length.new) out.new }
{
    write_told(sample::write(label, sizes, numbers, times, out), length)
}

// Returns the first refusal that applies to K and lists, as `krakobran_sample_write` does.
#[unsafe(no_mangle)]
pub extern "C" fn krakobran_lists_check(sent: u64, numbers: &[u32], times: &[u64]) -> u64
    ensures { result ≡ refusal_of_lists sent numbers.now times.now }
{
    number_in(check_lists(sent, numbers, times)) as u64
}
