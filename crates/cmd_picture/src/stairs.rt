// The two stairs: the share of the first arrivals in order after a receiver restored the order, by its waiting time and by its buffer.
// `metrics::accommodated` gives the share at every second pixel.
ghost use Rattle.std.specs.Prelude.{◌≤◌};

use crate::axes::{Levels, Unit, begin_name_below, write_frame, write_ticks_below, write_title};
use crate::panel::{Panel, span_for};
use crate::settings::Settings;
use crate::shown::Pixels;
use metrics::{SampleAccommodated, accommodated};
use rfc4737::Measure;
use std::io;

// The number of sizes of a stair after 0: one for each second pixel.
const COLUMNS: u64 = 165;

// A stair of a sample: its panel, its measure and unit, the span of its sizes, and the settings for 95 percent and for all.
#[derive(Clone, Copy)]
struct Stair<'a> {
    file: &'a [u8],
    panel: Panel,
    measure: Measure,
    unit: Unit,
    span: u64,
    most: u64,
    all: u64,
}

// Returns the percent at the bottom of a stair's panel: the greatest of 0, 50, 80 and 90 that is at most the share. So 100 has a tick.
fn low_for(share: SampleAccommodated) -> u32
    ensures { result ≤ 90 }
{
    let tenfold = 10 * (share.accommodated as u64);
    let whole = share.arrived as u64;
    if tenfold < 5 * whole {
        0
    } else if tenfold < 8 * whole {
        50
    } else if tenfold < 9 * whole {
        80
    } else {
        90
    }
}

// Returns the size at a column: the span times the column over the number of columns. From 2^48 on, the span is divided first.
fn size_at(column: u64, span: u64) -> u64
    requires { column ≤ 165 }
{
    if column == COLUMNS {
        span
    } else if span < 281474976710656 {
        span * column / COLUMNS
    } else {
        span / COLUMNS * column
    }
}

impl Stair<'_> {
    // Returns the share that a size accommodates.
    fn share_at(self, size: u64) -> SampleAccommodated {
        accommodated(self.file, self.measure, size)
    }

    // Returns how far from the upper edge a share is drawn, if the bottom of the panel is `low` percent.
    fn y_of(self, share: SampleAccommodated, low: u32) -> Pixels
        requires { low ≤ 90 }
    {
        let whole = share.arrived as u64;
        let foot = whole * low as u64;
        let room = whole * (100 - low) as u64;
        let hundredfold = 100 * (share.accommodated as u64);
        if hundredfold < foot {
            return Pixels(self.panel.bottom());
        }
        Pixels(self.panel.down(hundredfold - foot, room))
    }

    // Writes the stair: a step at each column where the number of accommodated packets changes. `start` is the share of size 0.
    fn write_steps(self, rt: &impl Print, start: SampleAccommodated, low: u32) -> io::Result<()>
        requires { low ≤ 90 }
    {
        let left = Pixels(self.panel.left());
        let right = Pixels(self.panel.right());
        let y = self.y_of(start, low);
        print!(rt; "<path class='w' d='M{left} {y}")?;
        let mut last = start.accommodated;
        for column in 1..=COLUMNS {
            let share = self.share_at(size_at(column, self.span));
            if share.accommodated != last {
                last = share.accommodated;
                let x = Pixels(self.panel.across(column, COLUMNS));
                let y = self.y_of(share, low);
                print!(rt; "H{x}V{y}")?;
            }
        }
        print!(rt; "H{right}'/>\n")
    }

    // Writes the line of a setting; nothing for 0.
    fn write_size(self, rt: &impl Print, size: u64, class: &str) -> io::Result<()> {
        if size == 0 {
            return Ok(());
        }
        let x = Pixels(self.panel.across(size, self.span));
        let top = Pixels(self.panel.top());
        let bottom = Pixels(self.panel.bottom());
        print!(rt; "<path class='{class}' d='M{x} {top}V{bottom}'/>")
    }

    // Writes the panel with the stair.
    fn write(self, rt: &impl Print, title: &str) -> io::Result<()> {
        let start = self.share_at(0);
        let low = low_for(start);
        let levels = Levels {
            base: low as u64,
            below: 0,
            above: (100 - low) as u64,
        };
        write_ticks_below(rt, self.panel, self.span, self.span, self.unit)?;
        levels.write_ticks(rt, self.panel, Unit::Things)?;
        self.write_size(rt, self.most, "n")?;
        self.write_size(rt, self.all, "t")?;
        if start.arrived != 0 {
            self.write_steps(rt, start, low)?;
        }
        write_frame(rt, self.panel)?;
        write_title(rt, self.panel, title)?;
        begin_name_below(rt, self.panel)
    }
}

// Writes both panels.
pub(crate) fn write_stairs(rt: &impl Print, file: &[u8], settings: Settings) -> io::Result<()> {
    let span = span_for(settings.all.time, 1000);
    let by_time = Stair {
        file,
        panel: Panel::WaitingTime,
        measure: Measure::Time,
        unit: Unit::for_span(span),
        span,
        most: settings.most.time,
        all: settings.all.time,
    };
    let by_buffer = Stair {
        panel: Panel::Buffer,
        measure: Measure::Packets,
        unit: Unit::Things,
        span: span_for(settings.all.packets, 10),
        most: settings.most.packets,
        all: settings.all.packets,
        ..by_time
    };
    let unit = by_time.unit.name();
    by_time.write(rt, "packets in order, %, by waiting time")?;
    print!(rt; "waiting time, {unit}</text>\n")?;
    by_buffer.write(rt, "packets in order, %, by buffer")?;
    print!(rt; "buffer, packets</text>\n")
}
