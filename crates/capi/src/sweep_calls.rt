// The sweep for C.

ghost use Rattle.sample.specs.Decode.{decode};
ghost use Rattle.sweep.specs.Calls.{lent};
ghost use Rattle.capi.specs.Sweep.{SweptWith};

// Fills the lists with the figures of every record of a file, and sets the first 4,096 numbers of the table to 0.
#[unsafe(no_mangle)]
pub extern "C" fn krakobran_sweep(
    file: &[u8],
    table: &mut [u16],
    kinds: &mut [u8],
    positions: &mut [u32],
    extents: &mut [u32],
    lates: &mut [u64],
) -> u64
    ensures { SweptWith (decode file.now)
        (lent table.old kinds.old positions.old extents.old lates.old) result
        (lent table.new kinds.new positions.new extents.new lates.new) }
{
    let layout = sweep::sweep(file, table, kinds, positions, extents, lates);
    layout.refusal as u64
}
