// Fills the caller's lists with the values of a file, from their start.
ghost use Rattle.std.specs.Prelude.{◌≡◌, ◌+◌, ◌*◌, ◌≤◌, length, drop};
ghost use Rattle.octets.specs.BigEndian.{be_value};
ghost use Rattle.octets.specs.Memory.{over};
ghost use Rattle.rfc4737.specs.Judge.{numbers_of, times_of};
ghost use Rattle.sample.specs.Format.{size_width, arrival_width, items_in};
ghost use Rattle.sample.specs.Decode.{arrival_in};

use crate::arrival_of;
use crate::widths::{ARRIVAL_WIDTH, SIZE_WIDTH};

// Fills `sizes` with the `count` payload sizes from offset `at` on, the last one first: in the other order LLVM reads eight sizes at a
// time by single octets, which is slower.
pub(crate) fn fill_sizes(file: &[u8], at: usize, count: usize, sizes: &mut [u16])
    requires { (at + size_width * count ≤ length file.now) × (count ≤ length sizes.old) }
    ensures { sizes.new ≡ over (items_in size_width be_value count (drop at file.now)) sizes.old }
{
    for i in (0..count).rev() {
        let start = at + SIZE_WIDTH * i;
        let end = start + SIZE_WIDTH;
        let size = &file[start..end];
        sizes[i] = octets::number_at(size, 0, SIZE_WIDTH) as u16;
    }
}

// Fills `numbers` and `times` with the `count` arrivals from offset `at` on.
pub(crate) fn fill_arrivals(
    file: &[u8],
    at: usize,
    count: usize,
    numbers: &mut [u32],
    times: &mut [u64],
)
    requires { (at + arrival_width * count ≤ length file.now) × (count ≤ length numbers.old) × (count ≤ length times.old) }
    ensures { (numbers.new
        ≡ over (numbers_of (items_in arrival_width arrival_in count (drop at file.now))) numbers.old)
        × (times.new ≡ over (times_of (items_in arrival_width arrival_in count (drop at file.now))) times.old) }
{
    let items = &file[at..at + ARRIVAL_WIDTH * count];
    for (i, twelve) in items.chunks_exact(ARRIVAL_WIDTH).enumerate() {
        let arrival = arrival_of(twelve);
        numbers[i] = arrival.number;
        times[i] = arrival.time;
    }
}
