// The table of every record of a sample for C, as CSV and as JSON, in parts.

ghost use Rattle.std.specs.Prelude.{true, false};
ghost use Rattle.sample.specs.Decode.{decode};
ghost use Rattle.table.specs.Text.{PartTo};
ghost use Rattle.capi.specs.Sample.{write_told};

use crate::outcomes::write_told;

// Writes a part of the table as comma-separated values.
#[unsafe(no_mangle)]
pub extern "C" fn krakobran_table_csv(
    file: &[u8],
    part: u32,
    out: &mut [u8],
    length: &mut [u64; 1],
) -> u64
    ensures { PartTo false (decode file.now) part out.old (write_told result length.new)
        out.new }
{
    write_told(table::write_csv(file, part, out), length)
}

// Writes a part of the table as one JSON object.
#[unsafe(no_mangle)]
pub extern "C" fn krakobran_table_json(
    file: &[u8],
    part: u32,
    out: &mut [u8],
    length: &mut [u64; 1],
) -> u64
    ensures { PartTo true (decode file.now) part out.old (write_told result length.new)
        out.new }
{
    write_told(table::write_json(file, part, out), length)
}
