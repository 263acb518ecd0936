// OWAMP packet records for C.

ghost use Rattle.owamp.specs.Calls.{RecordsImportedFrom, RecordsWrittenTo};
ghost use Rattle.capi.specs.Sample.{write_told};
ghost use Rattle.capi.specs.Imports.{records_told};

use crate::outcomes::write_told;

// Imports OWAMP packet records into lists of numbers and times. `sent` is K.
#[unsafe(no_mangle)]
pub extern "C" fn krakobran_owamp_import(
    records: &[u8],
    sent: u32,
    numbers: &mut [u32],
    times: &mut [u64],
    arrivals: &mut [u64; 1],
) -> u64
    ensures { RecordsImportedFrom sent records.now numbers.old times.old
        (records_told result arrivals.new) numbers.new times.new }
{
    let imported = owamp::import(records, sent, numbers, times);
    *arrivals = [imported.arrivals as u64];
    imported.refusal as u64
}

// Writes the arrivals of a sample file as OWAMP packet records.
#[unsafe(no_mangle)]
pub extern "C" fn krakobran_owamp_write(file: &[u8], out: &mut [u8], length: &mut [u64; 1]) -> u64
    ensures { RecordsWrittenTo file.now out.old (write_told result length.new) out.new }
{
    write_told(owamp::write(file, out), length)
}
