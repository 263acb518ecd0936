// Runs the cases of the sweep, which stand on standard input. They try the worked cases, late times after and before, tables that are not
// zeros, short tables and lists, refused files, and long samples. A line is written for each case: the answer, and what the four lists
// and the table hold after the call. Before a call each list is filled with one value; elements that keep it are not written. A line of
// the input begins with `list`, if the lists are written, or `sums`, if only their sums are; then
//   the case's name, the text of its sample (crate `sample_text`), and the value that fills the table;
//   the lengths of the table and of the lists of flags, positions, extents and late times.
#![tactic(auto)]

mod lists;

ghost use Rattle.std.specs.Prelude.{◌≤◌};

use cases::fields::{field, number_in};
use cases::print::{write_number, write_word};
use cases::text::{INPUT_OCTETS, lines};
use lists::{Lists, write_lists, write_table};
use program::read_input;
use sample::Layout;
use sample_text::{ROOM, sample_of};
use std::io;

// The greatest length of the table and of each list.
const MAX_LENGTH: usize = 4100;

// What flags are filled with.
pub(crate) const FLAG: u8 = 99;

// What positions and extents are filled with.
pub(crate) const NUMBER: u32 = 77_777;

// What late times are filled with.
pub(crate) const TIME: u64 = 999_999_999_999;

// The length that field n of a line says, modulo MAX_LENGTH + 1.
fn length_in(line: &[u8], n: usize) -> usize
    ensures { result ≤ 4100 }
{
    (number_in::<u64>(line, n) % 4101) as usize
}

// Prints a case's name and its answer: the refusal, or K and A.
fn write_layout(rt: &impl Print, name: &[u8], layout: Layout) -> io::Result<()> {
    write_word(rt, name)?;
    if layout.refusal != 0 {
        write_number(rt, b": refused ", layout.refusal)
    } else {
        write_number(rt, b": K ", layout.sent)?;
        write_number(rt, b" A ", layout.arrivals)
    }
}

// Sweeps a file into the table and the lists; prints the answer and what they hold.
fn sweep_into(
    rt: &impl Print,
    line: &[u8],
    file: &[u8],
    table: &mut [u16],
    flags: &mut [u8],
    positions: &mut [u32],
    extents: &mut [u32],
    lates: &mut [u64],
) -> io::Result<()> {
    let layout = sweep::sweep(file, table, flags, positions, extents, lates);
    write_layout(rt, field(line, 1), layout)?;
    let lists = Lists {
        flags,
        positions,
        extents,
        lates,
    };
    write_lists(rt, line, layout.arrivals as usize, lists)?;
    write_table(rt, layout.refusal, table, number_in(line, 3))
}

// Sweeps a file into lists of the lengths that the line says.
fn sweep_lists(rt: &impl Print, line: &[u8], file: &[u8], table: &mut [u16]) -> io::Result<()> {
    let mut flags = [FLAG; MAX_LENGTH];
    let mut positions = [NUMBER; MAX_LENGTH];
    let mut extents = [NUMBER; MAX_LENGTH];
    let mut lates = [TIME; MAX_LENGTH];
    let f = length_in(line, 5);
    let p = length_in(line, 6);
    let e = length_in(line, 7);
    let l = length_in(line, 8);
    sweep_into(
        rt,
        line,
        file,
        table,
        &mut flags[..f],
        &mut positions[..p],
        &mut extents[..e],
        &mut lates[..l],
    )
}

// Runs the case of a line.
fn run(rt: &impl Print, line: &[u8]) -> io::Result<()> {
    let mut file = [0u8; ROOM];
    let octets = sample_of(field(line, 2), &mut file);
    let before: u16 = number_in(line, 3);
    let mut table = [before; MAX_LENGTH];
    let m = length_in(line, 4);
    sweep_lists(rt, line, octets, &mut table[..m])
}

// Runs the cases of all lines.
fn main(rt: HostRuntime) -> io::Result<()> {
    let mut room = [0u8; INPUT_OCTETS];
    for line in lines(read_input(&rt, &mut room)?) {
        run(&rt, line)?;
    }
    Ok(())
}
