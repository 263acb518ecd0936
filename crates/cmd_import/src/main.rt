// The import program: reads a supplier's text log or OWAMP records on standard input and writes the sample file on standard output.
// Its arguments are the kind of input, the label of the sample, K, and the payload size of all packets. The kind is `log`, `log8` or
// `log10` for a log with only the lowest 8 or 10 bits of each sequence number, or `records`.
// If there is no sample, it writes one line of text instead. This line can't be taken for a sample, which begins with the octet 0.
#![tactic(auto)]

mod arguments;
mod convert;
mod faults;

use arguments::argument_in;
use convert::{Kind, Packets, convert};
use faults::write_refusal;
use program::{
    ARGUMENT_OCTETS, argument, argument_count, argument_is, read_input, write_first, write_word,
};
use std::io;
use std::rt::Env;

// The greatest length of the input: 4,096 lines of 64 octets, or some 10,000 records.
const MAX_INPUT: usize = 262_144;

// The indices of the arguments.
const KIND_INDEX: usize = 1;

const LABEL_INDEX: usize = 2;

const K_INDEX: usize = 3;

const SIZE_INDEX: usize = 4;

// One octet more, so that input that is too long is noticed.
const INPUT_OCTETS: usize = MAX_INPUT + 1;

// Returns the first refused line of the input, if a line is refused. Records have no lines.
fn refused_line(kind: Kind, input: &[u8], k: u32) -> Option<u32> {
    let line = match kind {
        Kind::Log => textlog::refused_line(input, k),
        Kind::Log8 => shortlog::refused_line_8(input, k),
        Kind::Log10 => shortlog::refused_line_10(input, k),
        Kind::Records => return None,
    };
    if line == 0 { None } else { Some(line) }
}

// Writes the sample file of the input, or its refusal.
fn write_sample(
    rt: &impl Print,
    kind: Kind,
    input: &[u8],
    label: &[u8],
    packets: Packets,
) -> io::Result<()> {
    let mut out = [0u8; sample::LONGEST];
    let converted = convert(kind, input, label, packets, &mut out);
    if converted.refusal != 0 {
        let line = refused_line(kind, input, packets.k);
        return write_refusal(rt, converted.refusal, input, line);
    }
    write_first(rt, &out, converted.length as usize)?;
    Ok(())
}

// Takes the label, reads the whole input and writes its sample file.
fn import(rt: &(impl Env + Input + Print), kind: Kind, packets: Packets) -> io::Result<()> {
    let mut word = [0u8; ARGUMENT_OCTETS];
    let label = argument(rt, LABEL_INDEX, &mut word);
    let mut room = [0u8; INPUT_OCTETS];
    let input = read_input(rt, &mut room)?;
    if MAX_INPUT < input.len() {
        return write_word(rt, b"the input has over 262144 octets\n");
    }
    write_sample(rt, kind, input, label, packets)
}

// Reads the argument at an index as a number.
fn number_at(rt: &impl Env, index: usize) -> Option<u32> {
    let mut word = [0u8; 32];
    argument_in(argument(rt, index, &mut word))
}

// Returns the kind of input that the argument at an index names; any other word means a text log.
fn kind_at(rt: &impl Env, index: usize) -> Kind {
    if argument_is(rt, index, b"records") {
        return Kind::Records;
    }
    if argument_is(rt, index, b"log8") {
        return Kind::Log8;
    }
    if argument_is(rt, index, b"log10") {
        return Kind::Log10;
    }
    Kind::Log
}

// Reads K and the payload size, and imports.
fn import_kind(rt: &(impl Env + Input + Print), kind: Kind) -> io::Result<()> {
    let Some(k) = number_at(rt, K_INDEX) else {
        return write_word(rt, b"K is no number from 0 to 4294967295\n");
    };
    let size = number_at(rt, SIZE_INDEX).and_then(|size| u16::try_from(size).ok());
    let Some(size) = size else {
        return write_word(rt, b"the payload size is no number from 0 to 65535\n");
    };
    import(rt, kind, Packets { k, size })
}

// Checks the number of arguments, and imports.
fn main(rt: HostRuntime) -> io::Result<()> {
    if argument_count(&rt) != 5 {
        return write_word(
            &rt,
            b"the arguments are the word log, log8, log10 or records, the label, K and the payload size\n",
        );
    }
    import_kind(&rt, kind_at(&rt, KIND_INDEX))
}
