// The axes of a panel: a grid line and a number at each tick, and the frame.
ghost use Rattle.std.specs.Prelude.{◌≤◌};

use crate::panel::{Panel, tick_step};
use crate::shown::Pixels;
use std::{fmt, io};

// The unit of an axis: a unit of time, for values in microseconds; positions, each drawn as two halves; or plain numbers.
#[derive(Clone, Copy, Debug, PartialEq, Eq)]
pub(crate) enum Unit {
    Milliseconds,
    Seconds,
    ThousandSeconds,
    MillionSeconds,
    BillionSeconds,
    Positions,
    Things,
}

impl Unit {
    // Returns the unit for a span of microseconds, so that its numbers have at most five digits before the point.
    pub(crate) fn for_span(span: u64) -> Unit {
        match span {
            0..100_000_000 => Unit::Milliseconds,
            100_000_000..100_000_000_000 => Unit::Seconds,
            100_000_000_000..100_000_000_000_000 => Unit::ThousandSeconds,
            100_000_000_000_000..100_000_000_000_000_000 => Unit::MillionSeconds,
            _ => Unit::BillionSeconds,
        }
    }

    // Returns the name of a unit of time.
    pub(crate) fn name(self) -> &'static str {
        match self {
            Unit::Milliseconds => "ms",
            Unit::Seconds => "s",
            Unit::ThousandSeconds => "thousand s",
            Unit::MillionSeconds => "million s",
            Unit::BillionSeconds => "billion s",
            Unit::Positions | Unit::Things => "",
        }
    }

    // Returns how far along its axis a value is.
    fn along(self, value: u64) -> u64 {
        match self {
            Unit::Positions => value.saturating_mul(2),
            _ => value,
        }
    }
}

// The value of a tick, written in its unit; milliseconds have decimals, without trailing zeros.
#[derive(Clone, Copy)]
struct Value {
    value: u64,
    unit: Unit,
}

impl fmt::Display for Value {
    fn fmt<W: fmt::Write>(&self, f: &mut fmt::Formatter<W>) -> fmt::Result {
        let value = self.value;
        let whole = match self.unit {
            Unit::Milliseconds => value / 1000,
            Unit::Seconds => value / 1_000_000,
            Unit::ThousandSeconds => value / 1_000_000_000,
            Unit::MillionSeconds => value / 1_000_000_000_000,
            Unit::BillionSeconds => value / 1_000_000_000_000_000,
            Unit::Positions | Unit::Things => value,
        };
        if self.unit != Unit::Milliseconds || value % 1000 == 0 {
            return write!(f, "{whole}");
        }
        let tenths = value / 100 % 10;
        let hundredths = value / 10 % 100;
        let thousandths = value % 1000;
        if value % 100 == 0 {
            write!(f, "{whole}.{tenths}")
        } else if value % 10 == 0 {
            write!(f, "{whole}.{hundredths:02}")
        } else {
            write!(f, "{whole}.{thousandths:03}")
        }
    }
}

// Writes the tick of a value on the axis below a panel.
fn write_tick_below(
    rt: &impl Print,
    panel: Panel,
    value: u64,
    span: u64,
    unit: Unit,
) -> io::Result<()> {
    let x = Pixels(panel.across(unit.along(value), span));
    let top = Pixels(panel.top());
    let bottom = Pixels(panel.bottom());
    let y = Pixels(panel.bottom() + 180);
    let value = Value { value, unit };
    print!(rt; "<path class='g' d='M{x} {top}V{bottom}'/>")?;
    print!(rt; "<text class='m' x='{x}' y='{y}'>{value}</text>\n")
}

// Writes the ticks on the axis below a panel, from 0 up to the greatest value, if the axis has a span.
pub(crate) fn write_ticks_below(
    rt: &impl Print,
    panel: Panel,
    greatest: u64,
    span: u64,
    unit: Unit,
) -> io::Result<()> {
    let step = tick_step(greatest);
    for tick in 0..=greatest / step {
        write_tick_below(rt, panel, tick * step, span, unit)?;
    }
    Ok(())
}

// Writes the tick of a value on the axis beside a panel, after a sign.
fn write_tick_beside(
    rt: &impl Print,
    panel: Panel,
    y: u64,
    sign: &str,
    value: u64,
    unit: Unit,
) -> io::Result<()>
    requires { y ≤ 14600 }
{
    let left = Pixels(panel.left());
    let right = Pixels(panel.right());
    let end = Pixels(panel.left() - 70);
    let base = Pixels(y + 45);
    let y = Pixels(y);
    let value = Value { value, unit };
    print!(rt; "<path class='g' d='M{left} {y}H{right}'/>")?;
    print!(rt; "<text class='e' x='{end}' y='{base}'>{sign}{value}</text>\n")
}

// The axis beside a panel: the value at its base, and how far it extends below and above the base.
#[derive(Clone, Copy)]
pub(crate) struct Levels {
    pub(crate) base: u64,
    pub(crate) below: u64,
    pub(crate) above: u64,
}

impl Levels {
    // Returns the length of the axis.
    pub(crate) fn span(self) -> u64 {
        self.below.saturating_add(self.above)
    }

    // Returns how far from the upper edge of the picture a value above the base is drawn.
    pub(crate) fn y_above(self, panel: Panel, value: u64) -> u64
        ensures { (2000 ≤ result) × (result ≤ 14600) }
    {
        panel.down(self.below.saturating_add(value), self.span())
    }

    // Returns how far from the upper edge of the picture a value below the base is drawn.
    pub(crate) fn y_below(self, panel: Panel, value: u64) -> u64
        ensures { (2000 ≤ result) × (result ≤ 14600) }
    {
        panel.down(self.below.saturating_sub(value), self.span())
    }

    // Writes the ticks of the axis: from the base up, and then those below it, which have a minus sign.
    pub(crate) fn write_ticks(self, rt: &impl Print, panel: Panel, unit: Unit) -> io::Result<()> {
        let step = tick_step(self.span());
        for tick in 0..=self.above / step {
            let value = tick * step;
            let y = self.y_above(panel, value);
            write_tick_beside(rt, panel, y, "", self.base.saturating_add(value), unit)?;
        }
        for tick in 1..=self.below / step {
            let value = tick * step;
            let y = self.y_below(panel, value);
            write_tick_beside(rt, panel, y, "-", value, unit)?;
        }
        Ok(())
    }
}

// Writes the two lines of a panel's frame.
pub(crate) fn write_frame(rt: &impl Print, panel: Panel) -> io::Result<()> {
    let left = Pixels(panel.left());
    let top = Pixels(panel.top());
    let bottom = Pixels(panel.bottom());
    let right = Pixels(panel.right());
    print!(rt; "<path class='a' d='M{left} {top}V{bottom}H{right}'/>\n")
}

// Writes the beginning of the name of the axis below a panel.
pub(crate) fn begin_name_below(rt: &impl Print, panel: Panel) -> io::Result<()> {
    let x = Pixels(panel.left() + panel.width() / 2);
    let y = Pixels(panel.bottom() + 390);
    print!(rt; "<text class='m' x='{x}' y='{y}'>")
}

// Writes the beginning of the name of the axis beside a panel on the left side.
pub(crate) fn begin_name_beside(rt: &impl Print, panel: Panel) -> io::Result<()> {
    let y = Pixels(panel.top() + panel.height() / 2);
    print!(rt; "<text class='m' transform='translate(24 {y})rotate(-90)'>")
}

// Writes the title of a panel.
pub(crate) fn write_title(rt: &impl Print, panel: Panel, words: &str) -> io::Result<()> {
    let x = Pixels(panel.left());
    let y = Pixels(panel.top() - 120);
    print!(rt; "<text x='{x}' y='{y}'>{words}</text>\n")
}
