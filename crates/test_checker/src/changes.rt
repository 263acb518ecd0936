// Changes each octet of the example's listing to each of the 255 others. The checker must report each change at the line where it stands.
use cases::print::{write_number, write_word};
use checker::{Verdict, check};
use sample_text::{ROOM, sample_of};
use std::io;

// The length of the listing.
pub(crate) const OCTETS: usize = 101;

// Whether the checker says that the listing is wrong at `line`.
fn wrong_at(sample: &[u8], listing: &[u8], line: u32) -> bool {
    match check(sample, listing).verdict {
        Verdict::Agrees => false,
        Verdict::WrongLine(n) => n == line,
    }
}

// Changes the octet at `at`, which is on line `line`, to `octet`, checks the listing, and changes it back. Returns whether the change is
// reported.
fn reports_change(sample: &[u8], listing: &mut [u8], at: usize, octet: u8, line: u32) -> bool {
    let Some(own) = listing.get(at).copied() else {
        return false;
    };
    if octet == own {
        return false;
    }
    listing[at] = octet;
    let reported = wrong_at(sample, listing, line);
    listing[at] = own;
    reported
}

// The number of changes of the octet at `at`, which is on line `line`, that are reported.
fn changes_at(sample: &[u8], listing: &mut [u8], at: usize, line: u32) -> usize {
    (0..=255u8)
        .filter(|octet| reports_change(sample, listing, at, *octet, line))
        .count()
}

// The number of changes, of all octets, that are reported.
fn changes(sample: &[u8], listing: &mut [u8]) -> usize {
    let mut reported: usize = 0;
    let mut line: u32 = 1;
    // By an index: while an octet is changed, the checker reads the whole listing.
    for at in 0..listing.len() {
        reported = reported.saturating_add(changes_at(sample, listing, at, line));
        if listing[at] == b'\n' {
            line = line.saturating_add(1);
        }
    }
    reported
}

// Makes every change, with the sample of a text, and prints how many are reported at their lines.
pub(crate) fn every_change(rt: &impl Print, text: &[u8], listing: &[u8]) -> io::Result<()> {
    let mut file = [0u8; ROOM];
    let sample = sample_of(text, &mut file);
    let mut changed = [0u8; OCTETS];
    octets::put_octets(&mut changed, 0, listing);
    write_number(
        rt,
        b"changes of one octet found at their lines: ",
        changes(sample, &mut changed),
    )?;
    write_word(rt, b"\n")
}
