// The fields of a case's line, and the numbers in them.
use crate::element::Element;
use crate::text::{number, part};

// What stands between the fields of a line.
const BAR: u8 = b'|';

// Field n of a line, from 0; empty past the last one.
pub fn field(line: &[u8], n: usize) -> &[u8] {
    part(line, BAR, n)
}

// The number in field n of a line, modulo one more than the greatest of its type.
pub fn number_in<T: Element>(line: &[u8], n: usize) -> T {
    T::wrapped(number(field(line, n), 0))
}
