// The panel of late times over arrival times: a dot for each packet in order, a dot with a stem from 0 for each late packet, and a line
// at the waiting time of each setting.
use crate::axes::{
    Levels, Unit, begin_name_below, begin_name_beside, write_frame, write_ticks_below,
};
use crate::panel::{Panel, span_for};
use crate::records::{Kind, Record};
use crate::settings::Settings;
use crate::shown::{Milliseconds, Pixels};
use rfc4737::LateTime;
use std::io;

// The panel: where it is drawn, the records and the settings, and the axes: the earliest arrival time, the span of all arrival times, and the
// late times.
#[derive(Clone, Copy)]
pub(crate) struct LatePanel<'a> {
    panel: Panel,
    records: &'a [Record],
    settings: Settings,
    earliest: u64,
    span: u64,
    levels: Levels,
}

// Returns the greatest amount by which a late packet is before its discontinuity in time.
fn greatest_before(records: &[Record]) -> u64 {
    records
        .iter()
        .map(|record| match record.late {
            LateTime::Before(amount) => amount,
            LateTime::After(_) => 0,
        })
        .max()
        .unwrap_or(0)
}

// Returns the axis of late times, from the greatest before a discontinuity to the greatest after, with room for a line of text above.
fn levels_for(before: u64, after: u64) -> Levels {
    let below = span_for(before, 0);
    Levels {
        base: 0,
        below,
        above: span_for(after, 1000).saturating_add(below / 12),
    }
}

impl<'a> LatePanel<'a> {
    // Returns the panel of a sample.
    pub(crate) fn new(panel: Panel, records: &'a [Record], settings: Settings) -> LatePanel<'a> {
        let earliest = records.iter().map(|record| record.time).min().unwrap_or(0);
        let latest = records.iter().map(|record| record.time).max().unwrap_or(0);
        let span = if earliest < latest {
            latest - earliest
        } else {
            1000
        };
        LatePanel {
            panel,
            records,
            settings,
            earliest,
            span,
            levels: levels_for(greatest_before(records), settings.all.time),
        }
    }

    // Returns how far from the left edge the arrival of a record is drawn.
    fn x_of(self, record: Record) -> Pixels {
        Pixels(
            self.panel
                .across(record.time.saturating_sub(self.earliest), self.span),
        )
    }

    // Returns how far from the upper edge the late time of a record is drawn.
    fn y_of(self, record: Record) -> Pixels {
        match record.late {
            LateTime::After(amount) => Pixels(self.levels.y_above(self.panel, amount)),
            LateTime::Before(amount) => Pixels(self.levels.y_below(self.panel, amount)),
        }
    }

    // Writes the stem of each late packet, from 0 to its late time.
    fn write_stems(self, rt: &impl Print) -> io::Result<()> {
        let zero = Pixels(self.levels.y_above(self.panel, 0));
        for record in self.records {
            if record.kind == Kind::Late {
                let x = self.x_of(*record);
                let y = self.y_of(*record);
                print!(rt; "M{x} {zero}V{y}")?;
            }
        }
        Ok(())
    }

    // Writes the dot of each record of a kind, at its time and its late time.
    fn write_dots(self, rt: &impl Print, kind: Kind) -> io::Result<()> {
        for record in self.records {
            if record.kind == kind {
                let x = self.x_of(*record);
                let y = self.y_of(*record);
                print!(rt; "M{x} {y}h0")?;
            }
        }
        Ok(())
    }

    // Writes the marks of all packets; those in order come last.
    fn write_layers(self, rt: &impl Print) -> io::Result<()> {
        rt.print("<path class='s' d='")?;
        self.write_stems(rt)?;
        rt.print("'/>\n<path class='l' d='")?;
        self.write_dots(rt, Kind::Late)?;
        rt.print("'/>\n<path class='i' d='")?;
        self.write_dots(rt, Kind::InOrder)?;
        rt.print("'/>\n")
    }

    // Writes the line of a waiting time; nothing for 0.
    fn write_level(self, rt: &impl Print, time: u64, class: &str) -> io::Result<()> {
        if time == 0 {
            return Ok(());
        }
        let left = Pixels(self.panel.left());
        let right = Pixels(self.panel.right());
        let y = Pixels(self.levels.y_above(self.panel, time));
        print!(rt; "<path class='{class}' d='M{left} {y}H{right}'/>")
    }

    // Writes the name and the time of the line of a waiting time; nothing for 0.
    fn write_level_name(
        self,
        rt: &impl Print,
        time: u64,
        class: &str,
        name: &str,
        x: u64,
    ) -> io::Result<()> {
        if time == 0 {
            return Ok(());
        }
        let x = Pixels(x);
        let y = Pixels(self.levels.y_above(self.panel, time) - 50);
        let time = Milliseconds(time);
        print!(rt; "<text class='{class}' x='{x}' y='{y}'>{name}: {time}</text>\n")
    }

    // Writes the lines of the waiting times for 95 percent and for all, with their names above.
    fn write_settings(self, rt: &impl Print) -> io::Result<()> {
        let most = self.settings.most.time;
        let all = self.settings.all.time;
        self.write_level(rt, most, "n")?;
        self.write_level(rt, all, "t")?;
        self.write_level_name(rt, most, "h", "95 in 100", self.panel.left() + 60)?;
        self.write_level_name(rt, all, "h e", "all", self.panel.right())
    }

    // Writes the names of both axes.
    fn write_names(self, rt: &impl Print) -> io::Result<()> {
        let below = Unit::for_span(self.span).name();
        let beside = Unit::for_span(self.levels.span()).name();
        begin_name_below(rt, self.panel)?;
        print!(rt; "arrival time, {below} after the earliest</text>\n")?;
        begin_name_beside(rt, self.panel)?;
        print!(rt; "late time, {beside}</text>\n")
    }

    // Writes the panel, and the legend above it.
    pub(crate) fn write(self, rt: &impl Print) -> io::Result<()> {
        let unit_below = Unit::for_span(self.span);
        let unit_beside = Unit::for_span(self.levels.span());
        write_ticks_below(rt, self.panel, self.span, self.span, unit_below)?;
        self.levels.write_ticks(rt, self.panel, unit_beside)?;
        self.write_layers(rt)?;
        write_frame(rt, self.panel)?;
        self.write_settings(rt)?;
        self.write_names(rt)?;
        rt.print(
            "<path class='i' d='M84 170h0'/><text x='94' y='174'>in order</text>\
            <path class='l' d='M164 170h0'/><text x='174' y='174'>late, at the late time</text>\n",
        )
    }
}
