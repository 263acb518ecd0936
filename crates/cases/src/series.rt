// Arithmetic series, modulo 2^64: each number is the one before it plus `step`. With the greatest step they fall by 1.
use crate::element::Element;

// A series, from its next number on.
#[derive(Clone, Copy)]
pub struct Series {
    pub next: u64,
    pub step: u64,
}

impl Iterator for Series {
    type Item = u64;

    fn next(&mut self) -> Option<u64> {
        let n = self.next;
        self.next = n.wrapping_add(self.step);
        Some(n)
    }
}

// Numbers at equal distances in a file: the offset and the width of the first, and the distance, in octets.
#[derive(Clone, Copy)]
pub struct Column {
    pub at: u32,
    pub width: u16,
    pub apart: u16,
}

// Fills a list with a series, each number modulo one more than the greatest of the list's type.
pub fn fill_series<T: Element>(out: &mut [T], series: Series) {
    for (element, n) in out.iter_mut().zip(series) {
        *element = T::wrapped(n);
    }
}

// Writes the first `count` numbers of a series into a column. A number for which there is no room is not written.
pub fn put_series(out: &mut [u8], column: Column, count: u16, series: Series) {
    let mut at = column.at as usize;
    for n in series.take(count as usize) {
        octets::put_number(out, at, column.width as usize, n);
        at = at.saturating_add(column.apart as usize);
    }
}
