// The check program: its arguments are the names of a sample file and of a listing. It prints that the listing is right; or the number of
// its first wrong line, that line and the right one; or the refusal of the sample in words. No sample has over 57,414 octets and no
// report over 262,144, so one octet more than these decides about longer files.
#![tactic(auto)]

mod shown;

ghost use Rattle.std.specs.Prelude.{◌≡◌, List, ℕ, ◌+◌, take};
ghost use Rattle.listing.specs.Room.{listing_octets};
ghost use Rattle.sample.specs.Decode.{decode};
ghost use Rattle.checker.specs.Verdict.{sample_verdict};

use checker::{SampleVerdict, Verdict};
use listing::LISTING_OCTETS;
use program::{SAMPLE_ROOM, argument_count, open_argument, read, write_refusal};
use rfc4737::refusal::NONE;
use shown::write_line;
use std::io;
use std::io::Read;
use text_lines::line_of;

// One octet more than the longest report.
const LISTING_ROOM: usize = LISTING_OCTETS + 1;

// Checks the start of a listing. The answer is the same as for the whole listing, since these octets decide.
fn check_start(file: &[u8], start: &[u8]) -> SampleVerdict
    ensures { (whole : List ℕ) → start.now ≡ take (listing_octets + 1) whole
        → result ≡ sample_verdict (decode file.now) whole }
{
    checker::check(file, start)
}

// Writes line n of the sample's report. Lines count from 0.
fn write_right_line(rt: &impl Print, file: &[u8], n: usize) -> io::Result<()> {
    let mut out = [0u8; LISTING_OCTETS];
    let length = metrics::listing(file, &mut out).length as usize;
    if let Some(report) = out.get(..length) {
        write_line(rt, "the sample gives: ", line_of(report, n))?;
    }
    Ok(())
}

// Writes that line n is wrong, that line and the right one. Lines count from 1.
fn write_wrong_line(rt: &impl Print, file: &[u8], start: &[u8], n: u32) -> io::Result<()> {
    print!(rt; "line {n} is wrong\n")?;
    if let Some(index) = n.checked_sub(1) {
        let index = index as usize;
        write_line(rt, "the listing has: ", line_of(start, index))?;
        write_right_line(rt, file, index)?;
    }
    Ok(())
}

// Checks the start of a listing against a sample, and writes the verdict.
fn write_verdict(rt: &impl Print, file: &[u8], start: &[u8]) -> io::Result<()> {
    let checked = check_start(file, start);
    if checked.refusal != NONE {
        return write_refusal(rt, checked.refusal);
    }
    match checked.verdict {
        Verdict::Agrees => rt.print("the listing is right\n"),
        Verdict::WrongLine(n) => write_wrong_line(rt, file, start, n),
    }
}

// Reads two open files, the first as a sample and the second as a listing, and checks.
fn check_files(rt: &impl Print, sample: &mut impl Read, listing: &mut impl Read) -> io::Result<()> {
    let mut file = [0u8; SAMPLE_ROOM];
    let mut start = [0u8; LISTING_ROOM];
    write_verdict(rt, read(sample, &mut file)?, read(listing, &mut start)?)
}

// Takes the arguments, and checks.
fn main(rt: HostRuntime) -> io::Result<()> {
    if argument_count(&rt) != 3 {
        return rt.print("the arguments are the names of a sample file and of a listing\n");
    }
    let Some(mut sample) = open_argument(&rt, 1) else {
        return rt.print("the sample can't be opened\n");
    };
    let Some(mut listing) = open_argument(&rt, 2) else {
        return rt.print("the listing can't be opened\n");
    };
    check_files(&rt, &mut sample, &mut listing)
}
