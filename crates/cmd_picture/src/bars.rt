// The panel of extents: a bar for each of the bins 1, 2, 3-4, 5-8 and so on up to 2049-4095; the last bin drawn is the last with an extent.
ghost use Rattle.std.specs.Prelude.{◌≤◌, length};

use crate::axes::{Unit, begin_name_below, write_frame, write_ticks_below, write_title};
use crate::panel::{Panel, span_for};
use crate::records::Record;
use crate::shown::Pixels;
use std::{fmt, io};

// The number of bins.
const BINS: usize = 13;

// A bin: its least and its greatest extent.
#[derive(Clone, Copy)]
struct Bin {
    start: u64,
    end: u64,
}

// Written as its range, or as one number if it has only one.
impl fmt::Display for Bin {
    fn fmt<W: fmt::Write>(&self, f: &mut fmt::Formatter<W>) -> fmt::Result {
        let start = self.start;
        let end = self.end;
        if start < end {
            write!(f, "{start}-{end}")
        } else {
            write!(f, "{start}")
        }
    }
}

// The bins.
const ALL_BINS: [Bin; BINS] = [
    Bin { start: 1, end: 1 },
    Bin { start: 2, end: 2 },
    Bin { start: 3, end: 4 },
    Bin { start: 5, end: 8 },
    Bin { start: 9, end: 16 },
    Bin { start: 17, end: 32 },
    Bin { start: 33, end: 64 },
    Bin {
        start: 65,
        end: 128,
    },
    Bin {
        start: 129,
        end: 256,
    },
    Bin {
        start: 257,
        end: 512,
    },
    Bin {
        start: 513,
        end: 1024,
    },
    Bin {
        start: 1025,
        end: 2048,
    },
    Bin {
        start: 2049,
        end: 4095,
    },
];

// The bar of a bin: the number of extents in it.
#[derive(Clone, Copy)]
struct Bar {
    bin: Bin,
    count: u64,
}

// Returns the bar of a bin.
fn bar_of(records: &[Record], bin: Bin) -> Bar {
    let count = records
        .iter()
        .filter(|record| bin.start <= record.extent && record.extent <= bin.end)
        .count() as u64;
    Bar { bin, count }
}

// Writes a bar and the name of its bin. `from_end` is the number of bars from this one to the last of `bars`: the first is at the top.
fn write_bar(rt: &impl Print, bar: Bar, from_end: usize, bars: usize, span: u64) -> io::Result<()>
    requires { (1 ≤ from_end) × (from_end ≤ 13) × (bars ≤ 13) }
{
    let panel = Panel::Extents;
    let bin = bar.bin;
    let level = 10 * from_end as u64;
    let span_down = 10 * bars as u64;
    let top = Pixels(panel.down(level - 2, span_down));
    let end = Pixels(panel.down(level - 8, span_down));
    let base = Pixels(panel.down(level - 5, span_down) + 45);
    let left = Pixels(panel.left());
    let right = Pixels(panel.across(bar.count, span));
    let beside = Pixels(panel.left() - 70);
    print!(rt; "<text class='e' x='{beside}' y='{base}'>{bin}</text>")?;
    print!(rt; "<path class='b' d='M{left} {top}H{right}V{end}")?;
    print!(rt; "H{left}z'/>\n")
}

// Writes the bars.
fn write_rows(rt: &impl Print, bars: &[Bar], span: u64) -> io::Result<()>
    requires { length bars.now ≤ 13 }
{
    for (i, bar) in bars.iter().enumerate() {
        write_bar(rt, *bar, bars.len() - i, bars.len(), span)?;
    }
    Ok(())
}

// Writes the panel of the extents. There is at least one bar.
pub(crate) fn write_bars(rt: &impl Print, records: &[Record]) -> io::Result<()> {
    let panel = Panel::Extents;
    let bars = ALL_BINS.map(|bin| bar_of(records, bin));
    let last = bars.iter().rposition(|bar| bar.count != 0).unwrap_or(0);
    let greatest = bars.iter().map(|bar| bar.count).max().unwrap_or(0);
    let span = span_for(greatest, 10);
    write_ticks_below(rt, panel, span, span, Unit::Things)?;
    write_rows(rt, &bars[..=last], span)?;
    write_frame(rt, panel)?;
    write_title(rt, panel, "late packets by extent, in packets")?;
    begin_name_below(rt, panel)?;
    print!(rt; "late packets</text>\n")
}
