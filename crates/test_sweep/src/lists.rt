// Prints what the lists and the table hold after a call.
use crate::{FLAG, NUMBER, TIME};
use cases::MAX_ARRIVALS;
use cases::lists::{first, kept};
use cases::print::{write_either, write_list, write_number};
use cases::totals::{Sums, sums_of};
use std::fmt::Display;
use std::io;

// The lists of a sweep: flags, positions, extents and late times.
#[derive(Clone, Copy)]
pub(crate) struct Lists<'a> {
    pub(crate) flags: &'a [u8],
    pub(crate) positions: &'a [u32],
    pub(crate) extents: &'a [u32],
    pub(crate) lates: &'a [u64],
}

// Prints the first `n` elements of a list, and ` TOUCHED` unless the others hold what the list was filled with.
fn write_first<T: Display + Copy + PartialEq>(
    rt: &impl Print,
    word: &[u8],
    list: &[T],
    n: usize,
    filling: T,
) -> io::Result<()> {
    write_list(rt, word, first(list, n))?;
    write_either(rt, kept(list, n, filling), b"", b" TOUCHED")
}

// Prints the sum of a list, and the sum of its partial sums, which depends on the order.
fn write_sum(rt: &impl Print, word: &[u8], s: Sums) -> io::Result<()> {
    write_number(rt, word, s.sum)?;
    write_number(rt, b" ", s.sums)
}

// Prints the sums of each list.
fn write_sums(rt: &impl Print, lists: Lists<'_>) -> io::Result<()> {
    write_sum(rt, b"; flags ", sums_of(lists.flags))?;
    write_sum(rt, b"; positions ", sums_of(lists.positions))?;
    write_sum(rt, b"; extents ", sums_of(lists.extents))?;
    write_sum(rt, b"; late times ", sums_of(lists.lates))
}

// Prints what the line asks for: the sums of the lists, or the first `n` elements of each and whether the others are as they were.
pub(crate) fn write_lists(
    rt: &impl Print,
    line: &[u8],
    n: usize,
    lists: Lists<'_>,
) -> io::Result<()> {
    if let Some(b's') = line.first() {
        return write_sums(rt, lists);
    }
    write_first(rt, b"; flags", lists.flags, n, FLAG)?;
    write_first(rt, b"; positions", lists.positions, n, NUMBER)?;
    write_first(rt, b"; extents", lists.extents, n, NUMBER)?;
    write_first(rt, b"; late times", lists.lates, n, TIME)
}

// Whether the first 4,096 numbers of a table are 0, and all others are `before`.
fn cleared(table: &[u16], before: u16) -> bool {
    kept(first(table, MAX_ARRIVALS), 0, 0) && kept(table, MAX_ARRIVALS, before)
}

// Prints whether a table is cleared, as it must be after the call; with a refusal, whether it is untouched.
pub(crate) fn write_table(
    rt: &impl Print,
    refusal: u32,
    table: &[u16],
    before: u16,
) -> io::Result<()> {
    if refusal != 0 {
        write_either(
            rt,
            kept(table, 0, before),
            b"; table untouched\n",
            b"; table TOUCHED\n",
        )
    } else {
        write_either(
            rt,
            cleared(table, before),
            b"; table cleared\n",
            b"; table NOT CLEARED\n",
        )
    }
}
