// A sample file, made from a case's text. The parts of the text stand between semicolons; a part that is left out is empty:
//   the label;
//   K, and the payload size of every packet;
//   the number of arrivals, and `first` and `step` of their numbers: arrival i, from 0, is packet (first + i * step) % 4096 + 1;
//   `first`, `rise` and `fall` of their times: arrival i comes at first + i * rise - i % 5 * fall;
//   numbers that replace those of the first arrivals;
//   times that replace those of the first arrivals;
//   one change of the file: the offset of a number in it, the width of this number in octets, and its new value;
//   the number of octets that are taken of the file, with zeros after its end; if the part is empty, the whole file.
#![tactic(auto)]

use cases::MAX_ARRIVALS;
use cases::element::Element;
use cases::lists::{fill, first};
use cases::series::{Series, fill_series};
use cases::text::{number, part};

// One octet more than the longest sample has.
pub const ROOM: usize = sample::LONGEST + 1;

// The greatest number of packets.
const PACKETS: u32 = MAX_ARRIVALS as u32;

// Part n of a text.
fn part_of(text: &[u8], n: usize) -> &[u8] {
    part(text, b';', n)
}

// Number i of part n of a text, modulo one more than the greatest of its type.
fn number_in_part<T: Element>(text: &[u8], n: usize, i: usize) -> T {
    T::wrapped(number(part_of(text, n), i))
}

// The numbers of the arrivals, by a series.
fn numbers_by(series: Series) -> [u32; MAX_ARRIVALS] {
    let mut numbers = [0u32; MAX_ARRIVALS];
    fill_series(&mut numbers, series);
    for number in &mut numbers {
        *number = *number % PACKETS + 1;
    }
    numbers
}

// The times of the arrivals: those of a series, and of each five in a row the later ones less `fall`, twice `fall` and so on.
fn times_by(series: Series, fall: u64) -> [u64; MAX_ARRIVALS] {
    let mut times = [0u64; MAX_ARRIVALS];
    fill_series(&mut times, series);
    for five in times.chunks_mut(5) {
        let falls = Series {
            next: 0,
            step: fall,
        };
        for (time, below) in five.iter_mut().zip(falls) {
            *time = time.wrapping_sub(below);
        }
    }
    times
}

// Writes the sample of a text; returns its length. The text's own numbers and times replace the first ones of `numbers` and `times`.
fn write_sample(text: &[u8], numbers: &mut [u32], times: &mut [u64], out: &mut [u8]) -> usize {
    let sizes = [number_in_part::<u16>(text, 1, 1); MAX_ARRIVALS];
    let arrivals = number_in_part::<u32>(text, 2, 0) as usize;
    fill(part_of(text, 4), numbers);
    fill(part_of(text, 5), times);
    let written = sample::write(
        part_of(text, 0),
        first(&sizes, number_in_part::<u32>(text, 1, 0) as usize),
        first(numbers, arrivals),
        first(times, arrivals),
        out,
    );
    written.length as usize
}

// Makes the change of the file that a text asks for.
fn change_number(text: &[u8], out: &mut [u8]) {
    octets::put_number(
        out,
        number_in_part::<u32>(text, 6, 0) as usize,
        number_in_part::<u32>(text, 6, 1) as usize,
        number_in_part(text, 6, 2),
    );
}

// Writes the file of a text into `room`; returns the octets that are taken of it, or all of `room` if it has fewer.
pub fn sample_of<'a>(text: &[u8], room: &'a mut [u8]) -> &'a [u8] {
    let mut numbers = numbers_by(Series {
        next: number_in_part(text, 2, 1),
        step: number_in_part(text, 2, 2),
    });
    let rising = Series {
        next: number_in_part(text, 3, 0),
        step: number_in_part(text, 3, 1),
    };
    let mut times = times_by(rising, number_in_part(text, 3, 2));
    let whole = write_sample(text, &mut numbers, &mut times, room);
    change_number(text, room);
    if part_of(text, 7).is_empty() {
        return first(room, whole);
    }
    first(room, number_in_part::<u32>(text, 7, 0) as usize)
}
