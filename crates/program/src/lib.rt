// What the programs of the command share: writing to standard output, reading a file, and the arguments. Contracts can say nothing about
// what a program reads and writes, so these functions promise only that they end, and return an error where a read or a write fails. Only
// programs use this crate.
#![tactic(auto)]

ghost use Rattle.std.specs.Prelude.{◌≤◌, length, IfOk};

use std::env::FillError;
use std::io::Read;
use std::rt::{Env, Files};
use std::{fs, io};

// One octet more than the longest sample, so that input that is too long is noticed.
pub const SAMPLE_ROOM: usize = sample::LONGEST + 1;

// The greatest length of an argument that is read, in octets.
pub const ARGUMENT_OCTETS: usize = 4096;

// Writes a word.
pub fn write_word(rt: &impl Print, word: &[u8]) -> io::Result<()> {
    rt.write_all(word)
}

// Writes a number in decimal.
pub fn write_number(rt: &impl Print, n: u64) -> io::Result<()> {
    rt.print(n)
}

// Returns the first n octets.
fn start_of(octets: &[u8], n: usize) -> &[u8]
    requires { n ≤ length octets.now }
{
    &octets[0..n]
}

// Writes the first n octets. Returns whether there are n octets; else nothing is written. The buffer and the length stand apart, since a
// call that writes returns the length alone, as C receives it.
pub fn write_first(rt: &impl Print, octets: &[u8], n: usize) -> io::Result<bool> {
    if octets.len() < n {
        return Ok(false);
    }
    write_word(rt, start_of(octets, n))?;
    Ok(true)
}

// Writes the words of a refusal; nothing for a number that is no refusal.
pub fn write_words(rt: &impl Print, refusal: u32) -> io::Result<()> {
    let mut words = [0u8; refusals::OCTETS];
    let written = refusals::words(refusal, &mut words);
    write_first(rt, &words, written.length as usize)?;
    Ok(())
}

// Writes the line of a refusal, `refused N: WORDS`.
pub fn write_refusal(rt: &impl Print, refusal: u32) -> io::Result<()> {
    write_word(rt, b"refused ")?;
    write_number(rt, refusal as u64)?;
    write_word(rt, b": ")?;
    write_words(rt, refusal)?;
    write_word(rt, b"\n")
}

// Reads until `room` is full or the input ends. Returns the number of octets read.
fn fill(from: &mut impl Read, room: &mut [u8]) -> io::Result<usize>
    ensures { IfOk result (λ n. n ≤ length room.new) }
{
    let mut n = 0;
    while n < room.len() {
        let more = from.read(&mut room[n..])?;
        if more == 0 {
            return Ok(n);
        }
        n += more;
    }
    Ok(n)
}

// Reads an open file until `room` is full. Returns the start of `room` with the octets read.
pub fn read<'a>(from: &mut impl Read, room: &'a mut [u8]) -> io::Result<&'a [u8]> {
    let n = fill(from, room)?;
    Ok(start_of(room, n))
}

// Reads standard input in the same way.
pub fn read_input<'a>(rt: &impl Input, room: &'a mut [u8]) -> io::Result<&'a [u8]> {
    read(&mut rt.reader(), room)
}

// Returns the number of arguments, the name of the program among them.
pub fn argument_count(rt: &impl Env) -> usize {
    for i in 0..usize::MAX {
        if let Err(FillError::NotPresent) = rt.arg(i, &mut []) {
            return i;
        }
    }
    usize::MAX
}

// Reads the argument at an index. Returns the start of `room` with its octets. A missing argument, or one for which there is no room,
// counts as empty.
pub fn argument<'a>(rt: &impl Env, index: usize, room: &'a mut [u8]) -> &'a [u8] {
    let n = rt.arg(index, room).unwrap_or(0);
    start_of(room, n)
}

// Opens the file that the argument at an index names; `None` if it can't be opened.
pub fn open_argument<R: Env + Files>(rt: &R, index: usize) -> Option<R::File> {
    let mut room = [0u8; ARGUMENT_OCTETS];
    let path = str::from_utf8(argument(rt, index, &mut room)).ok()?;
    fs::open(rt, path).ok()
}

// Returns whether the argument at an index equals `word`. A missing argument, or one of over 4,096 octets, counts as empty.
pub fn argument_is(rt: &impl Env, index: usize, word: &[u8]) -> bool {
    let mut room = [0u8; ARGUMENT_OCTETS];
    argument(rt, index, &mut room) == word
}
