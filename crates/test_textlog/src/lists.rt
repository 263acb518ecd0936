// The lists of an import: what fills them before it, and what is printed of them after it.
use cases::lists::first;
use cases::print::{write_answer, write_list, write_number, write_word};
use cases::totals::sums_of;
use std::fmt::Display;
use std::io;
use textlog::LogImport;

// What numbers are filled with.
pub(crate) const NUMBER: u32 = 77;

// What times are filled with.
pub(crate) const TIME: u64 = 99;

// What octets are filled with.
pub(crate) const OCTET: u8 = b'.';

// The numbers of a log: short ones of 8 or 10 bits, or full ones.
#[derive(Clone, Copy)]
pub(crate) enum Width {
    Eight,
    Ten,
    Full,
}

impl Width {
    // The width of short numbers of 8 or 10 bits or, for any other `bits`, of full numbers.
    pub(crate) fn of_bits(bits: u64) -> Width {
        match bits {
            8 => Width::Eight,
            10 => Width::Ten,
            _ => Width::Full,
        }
    }
}

// A log to import: the case's name, the width of its numbers, K, and its octets.
#[derive(Clone, Copy)]
pub(crate) struct Log<'a> {
    pub(crate) name: &'a [u8],
    pub(crate) width: Width,
    pub(crate) k: u32,
    pub(crate) octets: &'a [u8],
}

impl<'a> Log<'a> {
    // Imports the log into two lists.
    fn import(self, numbers: &mut [u32], times: &mut [u64]) -> LogImport {
        match self.width {
            Width::Eight => shortlog::import_8(self.octets, self.k, numbers, times),
            Width::Ten => shortlog::import_10(self.octets, self.k, numbers, times),
            Width::Full => textlog::import(self.octets, self.k, numbers, times),
        }
    }

    // The refused line of the log, 0 for none.
    fn refused_line(self) -> u32 {
        match self.width {
            Width::Eight => shortlog::refused_line_8(self.octets, self.k),
            Width::Ten => shortlog::refused_line_10(self.octets, self.k),
            Width::Full => textlog::refused_line(self.octets, self.k),
        }
    }
}

// Imports a log, and prints the answer and the number of the refused line, if one is refused.
fn write_import(
    rt: &impl Print,
    log: Log<'_>,
    numbers: &mut [u32],
    times: &mut [u64],
) -> io::Result<()> {
    let imported = log.import(numbers, times);
    let line = log.refused_line();
    write_answer(
        rt,
        log.name,
        imported.refusal,
        b": arrivals ",
        u64::from(imported.arrivals),
    )?;
    if line != 0 {
        write_number(rt, b" at line ", line)?;
    }
    Ok(())
}

// Imports a log into two lists, and prints the answer and both lists.
pub(crate) fn import_into(
    rt: &impl Print,
    log: Log<'_>,
    numbers: &mut [u32],
    times: &mut [u64],
) -> io::Result<()> {
    write_import(rt, log, numbers, times)?;
    write_list(rt, b"; numbers", numbers)?;
    write_list(rt, b"; times", times)?;
    write_word(rt, b"\n")
}

// Prints the first and the last element of a list, and the sum of all.
fn sum_up<T: Display + Copy + Into<u64>>(
    rt: &impl Print,
    word: &[u8],
    list: &[T],
) -> io::Result<()> {
    write_list(rt, word, first(list, 1))?;
    if let Some(last) = list.last() {
        write_number(rt, b" ", *last)?;
    }
    write_number(rt, b" ", sums_of(list).sum)
}

// Imports a log into two long lists, and prints the answer and, of each list, the first and the last element and the sum.
pub(crate) fn import_and_sum(
    rt: &impl Print,
    log: Log<'_>,
    numbers: &mut [u32],
    times: &mut [u64],
) -> io::Result<()> {
    write_import(rt, log, numbers, times)?;
    sum_up(rt, b"; numbers", numbers)?;
    sum_up(rt, b"; times", times)?;
    write_word(rt, b"\n")
}
