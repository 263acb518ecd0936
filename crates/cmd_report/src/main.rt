// The report program: reads a sample on standard input and prints its report on standard output, or one line if the input is refused. No
// sample has over 57,414 octets, so the first 57,415 octets decide about longer input.
#![tactic(auto)]

ghost use Rattle.std.specs.Prelude.{◌≤◌, length};
ghost use Rattle.listing.specs.Lines.{refused_line};
ghost use Rattle.listing.specs.Room.{listing_octets};
ghost use Rattle.sample.specs.Decode.{decode};
ghost use Rattle.cmd_report.specs.Text.{report_text, PutWhole};

use listing::LISTING_OCTETS;
use program::{SAMPLE_ROOM, read_input, write_first};
use rfc4737::refusal::NONE;
use std::io;

// Writes the line of a refused input to the start of `out` if it has room. Returns the number of octets written.
fn refuse(refusal: u32, out: &mut [u8]) -> usize
    ensures { PutWhole (refused_line refusal) out.old result out.new }
{
    let n = listing::put_refused(out, 0, refusal);
    if out.len() < n {
        return 0;
    }
    n
}

// Writes the text of an input to the start of `out` if it has room; LISTING_OCTETS octets have room for any. Returns the number of octets
// written.
fn report(input: &[u8], out: &mut [u8]) -> usize
    ensures put_whole { PutWhole (report_text (decode input.now)) out.old result out.new }
    ensures room { length (report_text (decode input.now)) ≤ listing_octets }
{
    let own = sample::check(input).refusal;
    if own != NONE {
        return refuse(own, out);
    }
    metrics::listing(input, out).length as usize
}

// Reads the whole input and prints its text.
fn main(rt: HostRuntime) -> io::Result<()> {
    let mut input = [0u8; SAMPLE_ROOM];
    let mut out = [0u8; LISTING_OCTETS];
    let length = report(read_input(&rt, &mut input)?, &mut out);
    write_first(&rt, &out, length)?;
    Ok(())
}
