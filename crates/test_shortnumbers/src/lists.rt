// Lists of short numbers.
use crate::print::write_numbers;
use crate::{Bits, bits_of};
use cases::TOO_MANY;
use cases::fields::{field, number_in};
use cases::lists::{filled, first};
use shortnumbers::{full_numbers_8, full_numbers_10};
use std::io;

// Finds the numbers of short ones, and prints the answer and the list.
fn find(
    rt: &impl Print,
    line: &[u8],
    shorts: &[u16],
    times: &[u64],
    numbers: &mut [u32],
) -> io::Result<()> {
    let k = number_in(line, 2);
    let refusal = match bits_of(line) {
        Bits::Eight => full_numbers_8(k, shorts, times, numbers),
        Bits::Ten => full_numbers_10(k, shorts, times, numbers),
    };
    write_numbers(rt, field(line, 1), refusal, numbers)
}

// Finds the numbers of a line's short ones, into a list.
fn find_into(rt: &impl Print, line: &[u8], numbers: &mut [u32]) -> io::Result<()> {
    let mut shorts = [0u16; 10];
    let mut times = [0u64; 10];
    find(
        rt,
        line,
        filled(field(line, 3), &mut shorts),
        filled(field(line, 4), &mut times),
        numbers,
    )
}

// Runs the case of a line, with a list of the length that it says.
pub(crate) fn run(rt: &impl Print, line: &[u8]) -> io::Result<()> {
    let mut numbers = [77u32; 10];
    let length = numbers.len().min(number_in::<u32>(line, 5) as usize);
    find_into(rt, line, &mut numbers[..length])
}

// Runs the case of many short numbers.
pub(crate) fn run_many(rt: &impl Print, line: &[u8]) -> io::Result<()> {
    let n = number_in::<u32>(line, 3) as usize;
    match bits_of(line) {
        Bits::Eight => find(rt, line, first(&[256; TOO_MANY], n), &[], &mut [77; 3]),
        Bits::Ten => find(
            rt,
            line,
            first(&[0; TOO_MANY], n),
            first(&[0; TOO_MANY], n),
            &mut [77; 2],
        ),
    }
}
