// The cases that write records from a sample's file, and read them again. The files are of the label `ab` and of packets of 100
// octets.
use crate::lists::{NUMBER, Records, TIME, import_and_sum, import_into, write_sums};
use cases::MAX_ARRIVALS;
use cases::fields::{field, number_in};
use cases::lists::{filled, first};
use cases::print::{write_answer, write_list, write_word};
use cases::series::{Series, fill_series};
use cases::totals::sums_of;
use std::io;

// What octets are filled with.
const OCTET: u8 = 46;

// The greatest length of the output for a few records.
const ROOM: usize = 75;

// The step of numbers that fall by 1, modulo 2^32.
const DOWN: u64 = 4_294_967_295;

// Writes the records of a file into `out`, and prints the answer; returns their length.
fn write_into(rt: &impl Print, name: &[u8], file: &[u8], out: &mut [u8]) -> io::Result<usize> {
    let written = owamp::write(file, out);
    write_answer(
        rt,
        name,
        written.refusal,
        b": octets ",
        u64::from(written.length),
    )?;
    Ok(written.length as usize)
}

// Writes the records of a file, prints the whole output, and reads the records again with K = 3.
fn write_and_read(rt: &impl Print, name: &[u8], file: &[u8], out: &mut [u8]) -> io::Result<()> {
    let length = write_into(rt, name, file, out)?;
    write_list(rt, b";", out)?;
    write_word(rt, b"\n")?;
    let records = Records {
        name: b"  read again",
        k: 3,
        octets: first(out, length),
    };
    import_into(rt, records, &mut [NUMBER; 3], &mut [TIME; 3])
}

// Makes the file of three sent packets and of arrivals, cuts it to the length that the line says, and writes its records.
fn make_and_write(
    rt: &impl Print,
    line: &[u8],
    numbers: &[u32],
    times: &[u64],
    out: &mut [u8],
) -> io::Result<()> {
    let mut file = [0u8; 60];
    let made = sample::write(b"ab", &[100; 3], numbers, times, &mut file);
    let whole = first(&file, made.length as usize);
    let read = first(whole, number_in::<u32>(line, 4) as usize);
    write_and_read(rt, field(line, 1), read, out)
}

// Runs a case of kind `write`.
fn run_few(rt: &impl Print, line: &[u8]) -> io::Result<()> {
    let mut numbers = [0u32; 3];
    let mut times = [0u64; 3];
    let mut out = [OCTET; ROOM];
    let room = ROOM.min(number_in::<u32>(line, 5) as usize);
    make_and_write(
        rt,
        line,
        filled(field(line, 2), &mut numbers),
        filled(field(line, 3), &mut times),
        &mut out[..room],
    )
}

// Writes 4,096 records, and reads them again.
fn write_and_sum(rt: &impl Print, name: &[u8], file: &[u8], out: &mut [u8]) -> io::Result<()> {
    let length = write_into(rt, name, file, out)?;
    write_sums(rt, b"; sum ", sums_of(out))?;
    write_word(rt, b"\n")?;
    let records = Records {
        name: b"  read again",
        k: MAX_ARRIVALS as u32,
        octets: first(out, length),
    };
    import_and_sum(
        rt,
        records,
        &mut [NUMBER; MAX_ARRIVALS],
        &mut [TIME; MAX_ARRIVALS],
    )
}

// Runs the case of as many arrivals as a sample may have: of the numbers 4,096 to 1, at times that are 777,777 apart.
fn run_all_arrivals(rt: &impl Print, line: &[u8]) -> io::Result<()> {
    let mut file = [0u8; sample::LONGEST];
    let mut numbers = [0u32; MAX_ARRIVALS];
    let mut times = [0u64; MAX_ARRIVALS];
    let falling = Series {
        next: MAX_ARRIVALS as u64,
        step: DOWN,
    };
    let rising = Series {
        next: 0,
        step: 777_777,
    };
    fill_series(&mut numbers, falling);
    fill_series(&mut times, rising);
    let made = sample::write(b"ab", &[100; MAX_ARRIVALS], &numbers, &times, &mut file);
    write_and_sum(
        rt,
        field(line, 1),
        first(&file, made.length as usize),
        &mut [OCTET; 102_400],
    )
}

// Runs the case of a line that writes records.
pub(crate) fn run(rt: &impl Print, line: &[u8]) -> io::Result<()> {
    match line.first() {
        Some(b'w') => run_few(rt, line),
        Some(b'a') => run_all_arrivals(rt, line),
        _ => Ok(()),
    }
}
