// How lengths, times, shares and counts are written.
use std::fmt;

// A length in tenths of a pixel, written in pixels, with one decimal if it is not whole.
#[derive(Clone, Copy)]
pub(crate) struct Pixels(pub(crate) u64);

impl fmt::Display for Pixels {
    fn fmt<W: fmt::Write>(&self, f: &mut fmt::Formatter<W>) -> fmt::Result {
        let pixels = self.0 / 10;
        let tenths = self.0 % 10;
        if tenths == 0 {
            write!(f, "{pixels}")
        } else {
            write!(f, "{pixels}.{tenths}")
        }
    }
}

// A time in microseconds, written in milliseconds with three decimals.
#[derive(Clone, Copy)]
pub(crate) struct Milliseconds(pub(crate) u64);

impl fmt::Display for Milliseconds {
    fn fmt<W: fmt::Write>(&self, f: &mut fmt::Formatter<W>) -> fmt::Result {
        let whole = self.0 / 1000;
        let thousandths = self.0 % 1000;
        write!(f, "{whole}.{thousandths:03} ms")
    }
}

// A share, written in percent, to the nearest tenth; a hyphen if `whole` is 0.
#[derive(Clone, Copy)]
pub(crate) struct Percent {
    pub(crate) part: u32,
    pub(crate) whole: u32,
}

impl fmt::Display for Percent {
    fn fmt<W: fmt::Write>(&self, f: &mut fmt::Formatter<W>) -> fmt::Result {
        let part = self.part as u64;
        let whole = self.whole as u64;
        if whole == 0 {
            return f.write_str("- %");
        }
        let tenths = (2000 * part + whole) / (2 * whole);
        let percent = tenths / 10;
        let decimal = tenths % 10;
        write!(f, "{percent}.{decimal} %")
    }
}

// A number of things, written with the word for one or for more of them.
#[derive(Clone, Copy)]
pub(crate) struct Counted<'a> {
    pub(crate) count: u32,
    pub(crate) one: &'a str,
    pub(crate) more: &'a str,
}

impl fmt::Display for Counted<'_> {
    fn fmt<W: fmt::Write>(&self, f: &mut fmt::Formatter<W>) -> fmt::Result {
        let count = self.count;
        let word = if count == 1 { self.one } else { self.more };
        write!(f, "{count} {word}")
    }
}
