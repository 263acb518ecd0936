// The picture program: reads a sample on standard input and draws it as SVG on standard output, or prints one line if the input is
// refused. No sample has over 57,414 octets, so the first 57,415 octets decide about longer input.
#![tactic(auto)]

mod axes;
mod bars;
mod head;
mod late;
mod numbers;
mod panel;
mod records;
mod settings;
mod shown;
mod stairs;

use bars::write_bars;
use head::write_head;
use late::LatePanel;
use numbers::NumberPanel;
use panel::Panel;
use program::{SAMPLE_ROOM, read_input};
use records::{MAX_RECORDS, Record, read_records};
use rfc4737::refusal::NONE;
use sample::Layout;
use settings::settings_of;
use stairs::write_stairs;
use std::io;

// The greatest number of arrivals whose sequence numbers are drawn over positions.
const MAX_NUMBERED: usize = 300;

// Draws an accepted sample. On the left late times, and below them sequence numbers if there are not too many.
fn draw(rt: &impl Print, file: &[u8], layout: Layout) -> io::Result<()> {
    let mut room = [Record::NONE; MAX_RECORDS];
    let records = read_records(file, layout, &mut room);
    let settings = settings_of(file);
    write_head(rt, file, layout, records, settings)?;
    if MAX_NUMBERED < records.len() {
        LatePanel::new(Panel::TallLateTimes, records, settings).write(rt)?;
    } else {
        LatePanel::new(Panel::LateTimes, records, settings).write(rt)?;
        NumberPanel::new(records).write(rt)?;
    }
    write_stairs(rt, file, settings)?;
    write_bars(rt, records)?;
    rt.print("</svg>\n")
}

// Draws a sample, or prints the line of a refused input.
fn draw_input(rt: &impl Print, file: &[u8]) -> io::Result<()> {
    let layout = sample::check(file);
    let refusal = layout.refusal;
    if refusal != NONE {
        return print!(rt; "refused {refusal}\n");
    }
    draw(rt, file, layout)
}

// Reads the whole input and draws it.
fn main(rt: HostRuntime) -> io::Result<()> {
    let mut input = [0u8; SAMPLE_ROOM];
    draw_input(&rt, read_input(&rt, &mut input)?)
}
