// The table program: reads a sample on standard input and prints every record with named fields on standard output, or one line if the
// input is refused. The argument is `csv` or `json`. No sample has over 57,414 octets, so the first 57,415 octets decide about longer
// input.
#![tactic(auto)]

ghost use Rattle.std.specs.Prelude.{◌≡◌, ◌≤◌, length};
ghost use Rattle.octets.specs.Memory.{over};
ghost use Rattle.listing.specs.Lines.{refused_line};
ghost use Rattle.sample.specs.Decode.{decode};
ghost use Rattle.table.specs.Text.{part_text, part_octets, PartTo, PartsJoin};
ghost use Rattle.cmd_table.specs.Shown.{Shown, ShownJoin};

use program::{SAMPLE_ROOM, argument_is, read_input, write_first, write_word};
use rfc4737::refusal::NONE;
use sample::WriteAnswer;
use std::io;
use table::{PART_OCTETS, PARTS};

// Writes a part of the table of a sample to the start of `out`. The form is a `bool`, as `shown_text` and `PartTo` have it.
fn write_form(json: bool, input: &[u8], part: u32, out: &mut [u8]) -> WriteAnswer
    ensures { PartTo json (decode input.now) part out.old result out.new
        × (length (part_text json (decode input.now) part) ≤ part_octets) × PartsJoin json (decode input.now) }
{
    if json {
        return table::write_json(input, part, out);
    }
    table::write_csv(input, part, out)
}

// Writes the line of a refused input to the start of `out`, which has room for it. Returns its length.
// The summary's program has its own, whose buffer may be too short.
fn refuse(refusal: u32, out: &mut [u8]) -> usize
    requires { part_octets ≤ length out.old }
    ensures { (result ≡ length (refused_line refusal)) × (out.new ≡ over (refused_line refusal) out.old) }
{
    listing::put_refused(out, 0, refusal)
}

// Writes a part of the text of an input to the start of `out`, which has room for it. Returns its length.
fn put_part(json: bool, input: &[u8], part: u32, out: &mut [u8]) -> usize
    requires { part_octets ≤ length out.old }
    ensures shown { Shown json (decode input.now) part out.old result out.new }
    ensures whole { ShownJoin json (decode input.now) }
{
    let own = sample::check(input).refusal;
    if own == NONE {
        return write_form(json, input, part, out).length as usize;
    }
    if part == 0 {
        return refuse(own, out);
    }
    0
}

// Prints a part of the text of an input.
fn print_part(rt: &impl Print, json: bool, input: &[u8], part: u32) -> io::Result<()> {
    let mut out = [0u8; PART_OCTETS];
    let n = put_part(json, input, part, &mut out);
    write_first(rt, &out, n)?;
    Ok(())
}

// Prints all parts of the text of an input.
fn print_parts(rt: &impl Print, json: bool, input: &[u8]) -> io::Result<()> {
    for part in 0..PARTS {
        print_part(rt, json, input, part)?;
    }
    Ok(())
}

// Reads the whole input and prints its text.
fn print_table(rt: &(impl Input + Print), json: bool) -> io::Result<()> {
    let mut input = [0u8; SAMPLE_ROOM];
    print_parts(rt, json, read_input(rt, &mut input)?)
}

// Prints the table in the form that the argument names.
fn main(rt: HostRuntime) -> io::Result<()> {
    if argument_is(&rt, 1, b"csv") {
        return print_table(&rt, false);
    }
    if argument_is(&rt, 1, b"json") {
        return print_table(&rt, true);
    }
    write_word(&rt, b"the argument is csv or json\n")
}
