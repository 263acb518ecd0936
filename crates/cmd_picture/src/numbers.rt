// The panel of sequence numbers over positions: a mark for each arrival, and a line from each late packet to its discontinuity. A first
// arrival is drawn at its position, a copy half a position after the last first arrival.
use crate::axes::{
    Levels, Unit, begin_name_below, begin_name_beside, write_frame, write_ticks_below,
};
use crate::panel::Panel;
use crate::records::{Kind, Record};
use crate::shown::Pixels;
use std::io;

// Where the panel is drawn.
const PANEL: Panel = Panel::Numbers;

// The panel: the records, and the ends of the axes: the last position and the greatest sequence number that arrived, each at least 1.
#[derive(Clone, Copy)]
pub(crate) struct NumberPanel<'a> {
    records: &'a [Record],
    positions: u64,
    numbers: u64,
}

impl<'a> NumberPanel<'a> {
    // Returns the panel of a sample.
    pub(crate) fn new(records: &'a [Record]) -> NumberPanel<'a> {
        let last = records.iter().map(|record| record.position).max();
        let greatest = records.iter().map(|record| record.number).max();
        NumberPanel {
            records,
            positions: last.unwrap_or(0).max(1),
            numbers: greatest.unwrap_or(0).max(1),
        }
    }

    // Returns the number of half positions on the axis, which ends half a position after the last.
    fn halves(self) -> u64 {
        self.positions.saturating_mul(2).saturating_add(1)
    }

    // Returns how far from the left edge a number of half positions is drawn.
    fn x_of(self, halves: u64) -> Pixels {
        Pixels(PANEL.across(halves, self.halves()))
    }

    // Returns how far from the upper edge a sequence number is drawn.
    fn y_of(self, number: u64) -> Pixels {
        Pixels(PANEL.down(number, self.numbers))
    }

    // Writes a mark for each record of a kind at its position and number.
    fn write_marks(self, rt: &impl Print, kind: Kind, mark: &str) -> io::Result<()> {
        let mut last: u64 = 0;
        for record in self.records {
            let halves = if record.position == 0 {
                last.saturating_mul(2).saturating_add(1)
            } else {
                last = record.position;
                last.saturating_mul(2)
            };
            if record.kind == kind {
                let x = self.x_of(halves);
                let y = self.y_of(record.number);
                print!(rt; "M{x} {y}{mark}")?;
            }
        }
        Ok(())
    }

    // Returns the sequence number of the first arrival at a position; 0 if there is none.
    fn number_at(self, position: u64) -> u64 {
        self.records
            .iter()
            .find(|record| record.position == position)
            .map_or(0, |record| record.number)
    }

    // Writes the line from a late packet to its discontinuity, whose position is the packet's position minus its extent.
    fn write_join(self, rt: &impl Print, late: Record) -> io::Result<()> {
        let other = late.position.saturating_sub(late.extent);
        let x = self.x_of(late.position.saturating_mul(2));
        let y = self.y_of(late.number);
        let other_x = self.x_of(other.saturating_mul(2));
        let other_y = self.y_of(self.number_at(other));
        print!(rt; "M{x} {y}L{other_x} {other_y}")
    }

    // Writes the lines of all late packets.
    fn write_joins(self, rt: &impl Print) -> io::Result<()> {
        for record in self.records {
            if record.kind == Kind::Late {
                self.write_join(rt, *record)?;
            }
        }
        Ok(())
    }

    // Writes all marks; those in order come last.
    fn write_layers(self, rt: &impl Print) -> io::Result<()> {
        rt.print("<path class='s' d='")?;
        self.write_joins(rt)?;
        rt.print("'/>\n<path class='c' d='")?;
        self.write_marks(rt, Kind::Copy, "m-3-3l6 6m0-6l-6 6")?;
        rt.print("'/>\n<path class='b' d='")?;
        self.write_marks(rt, Kind::Late, "m0-3.5l3.5 7h-7z")?;
        rt.print("'/>\n<path class='i' d='")?;
        self.write_marks(rt, Kind::InOrder, "h0")?;
        rt.print("'/>\n")
    }

    // Writes the panel.
    pub(crate) fn write(self, rt: &impl Print) -> io::Result<()> {
        let levels = Levels {
            base: 0,
            below: 0,
            above: self.numbers,
        };
        write_ticks_below(rt, PANEL, self.positions, self.halves(), Unit::Positions)?;
        levels.write_ticks(rt, PANEL, Unit::Things)?;
        self.write_layers(rt)?;
        write_frame(rt, PANEL)?;
        begin_name_below(rt, PANEL)?;
        rt.print("position among the first arrivals, packets</text>\n")?;
        begin_name_beside(rt, PANEL)?;
        rt.print(
            "sequence number</text>\n\
            <path class='i' d='M84 584h0'/><text x='94' y='588'>in order</text>\
            <path class='b' d='M164 580.5l3.5 7h-7z'/><text x='174' y='588'>late</text>\
            <path class='c' d='M221 581l6 6m0-6l-6 6'/><text x='234' y='588'>copy</text>\
            <path class='s' d='M284 584h24'/><text x='316' y='588'>from a late packet to its discontinuity</text>\n",
        )
    }
}
