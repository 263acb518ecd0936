// The listing into lent octets.
use cases::lists::{first, kept};
use cases::print::{write_either, write_number, write_word};
use listing::LISTING_OCTETS;
use std::io;

// What lent octets are filled with.
const OCTET: u8 = 165;

// Writes the refusal of the listing, how many octets it has, and whether the octets after it are untouched.
fn write_listing(rt: &impl Print, file: &[u8], out: &mut [u8]) -> io::Result<()> {
    let l = metrics::listing(file, out);
    write_number(rt, b"; listing ", l.refusal)?;
    write_number(rt, b", octets ", l.length)?;
    write_either(
        rt,
        kept(out, l.length as usize, OCTET),
        b", the rest untouched",
        b", the rest TOUCHED",
    )
}

// Lists a file into `room` octets, at most as many as any listing has.
pub(crate) fn list_into(rt: &impl Print, file: &[u8], room: usize) -> io::Result<()> {
    let mut out = [OCTET; LISTING_OCTETS];
    if room <= LISTING_OCTETS {
        write_listing(rt, file, &mut out[..room])?;
    }
    Ok(())
}

// Writes the listing of a file.
pub(crate) fn list(rt: &impl Print, file: &[u8]) -> io::Result<()> {
    let mut out = [OCTET; LISTING_OCTETS];
    let l = metrics::listing(file, &mut out);
    write_word(rt, first(&out, l.length as usize))
}
