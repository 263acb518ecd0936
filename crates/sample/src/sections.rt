// Reads and writes the sections of a file: a count, then the items.
ghost use Rattle.std.specs.Prelude.{◌≡◌, ◌^◌, ◌≤◌, ◌<◌, length, IfOk};
ghost use Rattle.octets.specs.Memory.{splice};
ghost use Rattle.rfc4737.specs.Judge.{arrivals_from};
ghost use Rattle.sample.specs.Format.{octet_width, size_width, arrival_width, items_at, end_of, section, size_octets, arrival_octets, item_octets};
ghost use Rattle.rfc4737.specs.Refusals.{outside, refusal_if};
ghost use Rattle.rfc4737.specs.Refused.{number_of, refusal_in};
ghost use Rattle.sample.specs.Decode.{count_at, section_stage};
ghost use Rattle.sample.specs.Private.{reading_to, section_of};

use crate::widths::{ARRIVAL_WIDTH, COUNT_WIDTH, NUMBER_WIDTH, SIZE_WIDTH, TIME_WIDTH};
use rfc4737::judge::outside;
use rfc4737::refusal::Refusal;

// The offset after a section that begins at `at`, with `count` items of `width` octets each.
pub(crate) fn end_of(at: usize, width: usize, count: usize) -> usize
    requires { end_of at width count < 2 ^ 64 }
    ensures { result ≡ end_of at width count }
{
    at + COUNT_WIDTH + width * count
}

// A section that the file has whole: the count of its items, and the offset after it.
#[derive(Clone, Copy)]
pub(crate) struct Section {
    pub(crate) count: usize,
    pub(crate) end: usize,
}

// Reads the count at offset `at`; `None` if the file ends before it does.
fn count_at(file: &[u8], at: usize) -> Option<usize>
    requires { at ≤ length file.now }
    ensures { result ≡ reading_to (items_at at) (count_at at file.now) file.now }
{
    if file.len() < at + COUNT_WIDTH {
        return None;
    }
    Some(octets::number_at(file, at, COUNT_WIDTH) as usize)
}

// `place`, unless the file ends before that offset.
fn place_in(file: &[u8], place: usize) -> Option<usize>
    ensures { result ≡ reading_to place place file.now }
{
    if file.len() < place {
        return None;
    }
    Some(place)
}

// Reads the section that begins at `at`: its count, which must be in `least` to `most` (else `refusal`), then its length.
pub(crate) fn section_at(
    file: &[u8],
    at: usize,
    width: usize,
    least: u64,
    most: u64,
    refusal: Refusal,
) -> Result<Section, Refusal>
    requires { (at ≤ length file.now) × (width ≤ arrival_width) }
    ensures refusal { refusal_in result
        ≡ section_stage at width (λ n. refusal_if (outside least most n) (number_of refusal)) file.now }
    ensures section { IfOk result (λ section. section ≡ section_of at width file.now) }
{
    let Some(count) = count_at(file, at) else {
        return Err(Refusal::EndsEarly);
    };
    if outside(least, most, count as u64) {
        return Err(refusal);
    }
    let Some(end) = place_in(file, end_of(at, width, count)) else {
        return Err(Refusal::EndsEarly);
    };
    Ok(Section { count, end })
}

// Writes the section of the label.
pub(crate) fn write_label(label: &[u8], out: &mut [u8])
    requires { end_of 0 octet_width (length label.now) ≤ length out.old }
    ensures { out.new ≡ splice 0 (section (length label.now) label.now) out.old }
{
    octets::put_number(out, 0, COUNT_WIDTH, label.len() as u64);
    octets::put_octets(out, COUNT_WIDTH, label);
}

// Writes the section of sent packets from offset `at` on.
pub(crate) fn write_sizes(sizes: &[u16], out: &mut [u8], at: usize)
    requires { end_of at size_width (length sizes.now) ≤ length out.old }
    ensures { out.new
        ≡ splice at (section (length sizes.now) (item_octets size_octets sizes.now)) out.old }
{
    octets::put_number(out, at, COUNT_WIDTH, sizes.len() as u64);
    let mut start = at + COUNT_WIDTH;
    for size in sizes {
        let end = start + SIZE_WIDTH;
        octets::put_number(&mut out[start..end], 0, SIZE_WIDTH, u64::from(*size));
        start = end;
    }
}

// Writes the section of arrivals from offset `at` on.
pub(crate) fn write_arrivals(numbers: &[u32], times: &[u64], out: &mut [u8], at: usize)
    requires { (length times.now ≡ length numbers.now) × (end_of at arrival_width (length numbers.now) ≤ length out.old) }
    ensures { out.new
        ≡ splice at
        (section (length numbers.now) (item_octets arrival_octets (arrivals_from numbers.now times.now)))
        out.old }
{
    octets::put_number(out, at, COUNT_WIDTH, numbers.len() as u64);
    let mut start = at + COUNT_WIDTH;
    for (number, time) in numbers.iter().zip(times) {
        let end = start + ARRIVAL_WIDTH;
        let arrival = &mut out[start..end];
        octets::put_number(arrival, 0, NUMBER_WIDTH, u64::from(*number));
        octets::put_number(arrival, NUMBER_WIDTH, TIME_WIDTH, *time);
        start = end;
    }
}
