// The cases that write a file from a label and lists.
use crate::build::put_file;
use crate::memory::{Lists, OCTET, ROOM};
use cases::TOO_MANY;
use cases::fields::{field, number_in};
use cases::lists::{filled, first, kept};
use cases::print::{write_either, write_number, write_word};
use cases::series::{Series, fill_series};
use std::io;

// The greatest length of the output for a small file.
const SMALL: usize = 80;

// Writes a file into `out`, and prints the refusal or its length, and whether the octets after it are untouched. Returns
// the length.
fn write_into(
    rt: &impl Print,
    label: &[u8],
    lists: Lists<'_>,
    out: &mut [u8],
) -> io::Result<usize> {
    let w = lists.write(label, out);
    let n = w.length as usize;
    if w.refusal != 0 {
        write_number(rt, b": write refused ", w.refusal)?;
        write_word(rt, b", output")?;
    } else {
        write_number(rt, b": written, octets ", w.length)?;
        write_word(rt, b", the rest")?;
    }
    write_either(rt, kept(out, n, OCTET), b" untouched", b" TOUCHED")?;
    Ok(n)
}

// Prints whether a written file is the one that the format's rules build.
fn write_same(rt: &impl Print, written: &[u8], built: &[u8]) -> io::Result<()> {
    write_either(
        rt,
        written == built,
        b", as the format has it",
        b", NOT as the format has it",
    )
}

// Writes a file from as many label octets, sizes, numbers and times as the line says; returns its length.
fn write_lists(rt: &impl Print, line: &[u8], out: &mut [u8]) -> io::Result<usize> {
    let text = [b'x'; 65];
    let sizes = [100u16; TOO_MANY];
    let mut numbers = [0u32; TOO_MANY];
    let mut times = [0u64; TOO_MANY];
    fill_series(&mut numbers, Series { next: 1, step: 1 });
    fill_series(&mut times, Series { next: 10, step: 10 });
    let lists = Lists {
        sizes: first(&sizes, number_in::<u16>(line, 3) as usize),
        numbers: first(&numbers, number_in::<u16>(line, 4) as usize),
        times: first(&times, number_in::<u16>(line, 5) as usize),
    };
    let label = first(&text, number_in::<u16>(line, 2) as usize);
    write_into(rt, label, lists, out)
}

// Compares a file that `write_lists` wrote with the one that the format's rules build.
fn compare_lists(rt: &impl Print, line: &[u8], written: &[u8]) -> io::Result<()> {
    let mut file = [b'x'; ROOM];
    let end = put_file(
        &mut file,
        number_in(line, 2),
        number_in(line, 3),
        number_in(line, 4),
    );
    write_same(rt, written, first(&file, end))
}

// Runs a case of kind `lists`. A file that is written is compared.
fn run_lists(rt: &impl Print, line: &[u8]) -> io::Result<()> {
    let mut out = [OCTET; ROOM];
    write_word(rt, field(line, 1))?;
    let n = write_lists(rt, line, &mut out)?;
    if n != 0 {
        compare_lists(rt, line, first(&out, n))?;
    }
    write_word(rt, b"\n")
}

// Runs a case of kind `octet`: a label with one octet changed, no size or one, and one arrival. A file that is written is compared with
// the one that the format's rules build.
fn run_octet(rt: &impl Print, line: &[u8]) -> io::Result<()> {
    let mut text = [b'x'; 65];
    let mut out = [OCTET; 30];
    let mut file = [b'x'; 30];
    let at = number_in::<u16>(line, 4) as usize;
    let octet = number_in::<u16>(line, 5) as u64;
    let end = put_file(&mut file, number_in(line, 2), number_in(line, 3), 1);
    octets::put_number(&mut text, at, 1, octet);
    octets::put_number(&mut file, 2 + at, 1, octet);
    write_word(rt, field(line, 1))?;
    let lists = Lists {
        sizes: first(&[100], number_in::<u16>(line, 3) as usize),
        numbers: &[1],
        times: &[10],
    };
    let label = first(&text, number_in::<u16>(line, 2) as usize);
    let n = write_into(rt, label, lists, &mut out)?;
    if n != 0 {
        write_same(rt, first(&out, n), first(&file, end))?;
    }
    write_word(rt, b"\n")
}

// Runs a case of kind `small`: no label, a few sizes and a few arrivals.
fn run_small(rt: &impl Print, line: &[u8]) -> io::Result<()> {
    let mut numbers = [0u32; 5];
    let mut times = [0u64; 5];
    let mut out = [OCTET; SMALL];
    let room = SMALL.min(number_in::<u16>(line, 5) as usize);
    write_word(rt, field(line, 1))?;
    let lists = Lists {
        sizes: first(&[100; 5], number_in::<u16>(line, 2) as usize),
        numbers: filled(field(line, 3), &mut numbers),
        times: filled(field(line, 4), &mut times),
    };
    write_into(rt, b"", lists, &mut out[..room])?;
    write_word(rt, b"\n")
}

// Runs the case of a line that writes a file.
pub(crate) fn run(rt: &impl Print, line: &[u8]) -> io::Result<()> {
    match line.first() {
        Some(b'l') => run_lists(rt, line),
        Some(b'o') => run_octet(rt, line),
        Some(b's') => run_small(rt, line),
        _ => Ok(()),
    }
}
