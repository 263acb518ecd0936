// The cases that read a file: each is checked, read into the caller's lists, its label shown, and written again.
use crate::build::put_file;
use crate::memory::{Lists, NUMBER, OCTET, ROOM, SIZE, TIME};
use cases::TOO_MANY;
use cases::fields::{field, number_in};
use cases::lists::{first, kept};
use cases::print::{write_either, write_number, write_word};
use cases::text::number;
use sample::Layout;
use std::io;

// The greatest length of a short list.
const SHORT_LENGTH: usize = 5;

// Prints the layout of a file: the refusal, or the length of the label, K and A.
fn write_layout(rt: &impl Print, layout: Layout) -> io::Result<()> {
    if layout.refusal != 0 {
        write_number(rt, b"refused ", layout.refusal)
    } else {
        write_number(rt, b"label ", layout.label)?;
        write_number(rt, b" K ", layout.sent)?;
        write_number(rt, b" A ", layout.arrivals)
    }
}

// Prints whether the octets written from what was read are the file.
fn write_again(rt: &impl Print, file: &[u8], lists: Lists<'_>) -> io::Result<()> {
    let mut out = [OCTET; ROOM];
    let w = lists.write(sample::label(file), &mut out);
    write_either(
        rt,
        first(&out, w.length as usize) == file,
        b"; written again the same",
        b"; written again ANOTHER",
    )
}

// Prints what was read of a file, whether the elements that are not filled are untouched, and the length of the label
// shown. For an accepted file it prints whether it is written again the same.
fn write_read(rt: &impl Print, layout: Layout, file: &[u8], lists: Lists<'_>) -> io::Result<()> {
    let sent = layout.sent as usize;
    let arrivals = layout.arrivals as usize;
    write_word(rt, b"; read ")?;
    write_layout(rt, layout)?;
    if kept(lists.sizes, sent, SIZE)
        && kept(lists.numbers, arrivals, NUMBER)
        && kept(lists.times, arrivals, TIME)
    {
        write_either(
            rt,
            layout.refusal == 0,
            b", the rest untouched",
            b", lists untouched",
        )?;
    } else {
        write_word(rt, b", places TOUCHED")?;
    }
    write_number(rt, b"; label shown ", sample::label(file).len())?;
    if layout.refusal == 0 {
        write_again(rt, file, lists.first(sent, arrivals))?;
    }
    Ok(())
}

// Reads a file into lists, and prints the result.
fn read_into(
    rt: &impl Print,
    file: &[u8],
    sizes: &mut [u16],
    numbers: &mut [u32],
    times: &mut [u64],
) -> io::Result<()> {
    let layout = sample::read(file, sizes, numbers, times);
    let lists = Lists {
        sizes,
        numbers,
        times,
    };
    write_read(rt, layout, file, lists)
}

// Prints the name of a file, its layout, and what is read into lists that are long enough.
fn read_all(rt: &impl Print, name: &[u8], file: &[u8]) -> io::Result<()> {
    let mut sizes = [SIZE; TOO_MANY];
    let mut numbers = [NUMBER; TOO_MANY];
    let mut times = [TIME; TOO_MANY];
    write_word(rt, name)?;
    write_word(rt, b": check ")?;
    write_layout(rt, sample::check(file))?;
    read_into(rt, file, &mut sizes, &mut numbers, &mut times)?;
    write_word(rt, b"\n")
}

// Makes change i of a file, from 0: the numbers 3 * i to 3 * i + 2 of `changes` are the offset, the width and the value of a number in it.
// If they are not given, the width is 0, and nothing changes.
fn change_number(file: &mut [u8], changes: &[u8], i: u16) {
    let n = 3 * (i as usize);
    let at = number(changes, n) % 65_536;
    let width = number(changes, n + 1) % 65_536;
    octets::put_number(file, at as usize, width as usize, number(changes, n + 2));
}

// The number in field n of a line; `other` if the field is empty.
fn number_or(line: &[u8], n: usize, other: usize) -> usize {
    if field(line, n).is_empty() {
        return other;
    }
    number_in::<u16>(line, n) as usize
}

// Runs the case of a file.
pub(crate) fn run(rt: &impl Print, line: &[u8]) -> io::Result<()> {
    let mut file = [b'x'; ROOM];
    let n = put_file(
        &mut file,
        number_in(line, 2),
        number_in(line, 3),
        number_in(line, 4),
    );
    for i in 0..4u16 {
        change_number(&mut file, field(line, 5), i);
    }
    read_all(rt, field(line, 1), first(&file, number_or(line, 6, n)))
}

// Runs the case of the file of five arrivals, read into lists of the lengths that the line says.
pub(crate) fn run_into(rt: &impl Print, line: &[u8]) -> io::Result<()> {
    let mut file = [b'x'; 76];
    put_file(&mut file, 0, 5, 5);
    let mut sizes = [SIZE; SHORT_LENGTH];
    let mut numbers = [NUMBER; SHORT_LENGTH];
    let mut times = [TIME; SHORT_LENGTH];
    let s = SHORT_LENGTH.min(number_in::<u16>(line, 2) as usize);
    let n = SHORT_LENGTH.min(number_in::<u16>(line, 3) as usize);
    let t = SHORT_LENGTH.min(number_in::<u16>(line, 4) as usize);
    write_word(rt, field(line, 1))?;
    read_into(
        rt,
        &file,
        &mut sizes[..s],
        &mut numbers[..n],
        &mut times[..t],
    )?;
    write_word(rt, b"\n")
}
