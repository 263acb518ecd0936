// Byte offset and largest n of a reordered packet, by a search over the first arrivals before it.
ghost use Rattle.std.specs.Prelude.{◌≡◌, List, ◌≤◌, take};
ghost use Rattle.rfc4737.specs.declared.Arrival.{Arrival};
ghost use Rattle.rfc4737.specs.Extent.{byte_offset, largest_n};
ghost use Rattle.rfc4737.specs.Judge.{sent_most};
ghost use Rattle.sample.specs.Decode.{decode};
ghost use Rattle.metrics.specs.Sample.{size_of};
ghost use Rattle.metrics.specs.Private.Tables.{NumberTable, Packets, Links};

use crate::engine::input::CheckedFile;
use crate::engine::seen::{MAX_FIRST_ARRIVALS, PACKET_TABLE_LEN};

// The byte offset of packet s: the sizes of the greater numbers from index `from` on, before which no number is greater.
pub(crate) fn offset(
    file: &CheckedFile,
    numbers: &[u16; MAX_FIRST_ARRIVALS],
    from: u32,
    count: u32,
    s: u32,
) -> u32
    requires { (count ≤ sent_most) × Packets numbers.now count file.now.layout.sent }
    ensures { (fs : List Arrival) → NumberTable fs numbers.now count
        → byte_offset (size_of (decode file.now.file.now)) (take from fs) s ≡ 0
        → result ≡ byte_offset (size_of (decode file.now.file.now)) fs s }
{
    let mut sum: u32 = 0;
    for p in from..count {
        let number = numbers[p as usize] as u32;
        if s < number {
            sum += file.size_of(number);
        }
    }
    sum
}

// The largest n of packet s: how many of the first arrivals directly before it have greater numbers. Where one record is asked for, no
// links are kept, so this goes back one by one, and `largest_by_links` stands beside it.
pub(crate) fn largest(numbers: &[u16; MAX_FIRST_ARRIVALS], count: u32, s: u32) -> u32
    requires { count ≤ sent_most }
    ensures { (fs : List Arrival) → NumberTable fs numbers.now count → result ≡ largest_n fs s }
{
    for p in (0..count).rev() {
        if numbers[p as usize] as u32 <= s {
            return count - 1 - p;
        }
    }
    count
}

// The largest n of packet s, by links. A first arrival with a greater number is skipped together with those directly before it that its
// own largest n counts, whose numbers are greater still. Invariant: `links[packet] + more == largest_n + 1`.
pub(crate) fn largest_by_links(
    numbers: &[u16; MAX_FIRST_ARRIVALS],
    links: &[u16; PACKET_TABLE_LEN],
    more: u32,
    count: u32,
    s: u32,
) -> u32
    requires { (count ≤ sent_most) × Links more numbers.now links.now count }
    ensures { (result ≤ sent_most) × ((fs : List Arrival) → NumberTable fs numbers.now count → result ≡ largest_n fs s) }
{
    let mut p = count;
    while 0 < p {
        let place = (p - 1) as usize;
        let number = numbers[place] as u32;
        if number <= s {
            return count - p;
        }
        let packet = number as usize;
        p = p - more - links[packet] as u32;
    }
    count - p
}
