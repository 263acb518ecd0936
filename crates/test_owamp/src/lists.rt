// The lists of an import: what fills them before it, and what is printed of them after it.
use cases::print::{write_answer, write_list, write_number, write_word};
use cases::totals::{Sums, sums_of};
use std::io;

// What numbers are filled with.
pub(crate) const NUMBER: u32 = 77;

// What times are filled with.
pub(crate) const TIME: u64 = 99;

// Records to import: the case's name, K, and their octets.
#[derive(Clone, Copy)]
pub(crate) struct Records<'a> {
    pub(crate) name: &'a [u8],
    pub(crate) k: u32,
    pub(crate) octets: &'a [u8],
}

// Imports records into two lists, and prints the answer.
fn import(
    rt: &impl Print,
    records: Records<'_>,
    numbers: &mut [u32],
    times: &mut [u64],
) -> io::Result<()> {
    let imported = owamp::import(records.octets, records.k, numbers, times);
    write_answer(
        rt,
        records.name,
        imported.refusal,
        b": arrivals ",
        u64::from(imported.arrivals),
    )
}

// Imports records into two lists, and prints the answer and both lists.
pub(crate) fn import_into(
    rt: &impl Print,
    records: Records<'_>,
    numbers: &mut [u32],
    times: &mut [u64],
) -> io::Result<()> {
    import(rt, records, numbers, times)?;
    write_list(rt, b"; numbers", numbers)?;
    write_list(rt, b"; times", times)?;
    write_word(rt, b"\n")
}

// Prints the sums of a list.
pub(crate) fn write_sums(rt: &impl Print, word: &[u8], all: Sums) -> io::Result<()> {
    write_number(rt, word, all.sum)?;
    write_number(rt, b" sums ", all.sums)
}

// Imports records into two long lists, and prints the answer and the sums of both.
pub(crate) fn import_and_sum(
    rt: &impl Print,
    records: Records<'_>,
    numbers: &mut [u32],
    times: &mut [u64],
) -> io::Result<()> {
    import(rt, records, numbers, times)?;
    write_sums(rt, b"; numbers sum ", sums_of(numbers))?;
    write_sums(rt, b"; times sum ", sums_of(times))?;
    write_word(rt, b"\n")
}
