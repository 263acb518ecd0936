// Fragments for C.

ghost use Rattle.fragments.specs.Calls.{OrderedTo};

// Fills two lists: the order flags of packets that may be fragmented on the way, and which arrivals are usable.
#[unsafe(no_mangle)]
pub extern "C" fn krakobran_fragment_order(
    sent: u32,
    numbers: &[u32],
    times: &[u64],
    lengths: &[u16],
    mores: &[u8],
    offsets: &[u16],
    flags: &mut [u8],
    usable: &mut [u8],
) -> u64
    ensures { OrderedTo sent numbers.now times.now lengths.now mores.now
        offsets.now flags.old usable.old result flags.new usable.new }
{
    fragments::order(sent, numbers, times, lengths, mores, offsets, flags, usable) as u64
}
