// The head of the picture: the label, the counts, and the table of the settings.
use crate::records::Record;
use crate::settings::{Settings, Sizes};
use crate::shown::{Counted, Milliseconds, Percent};
use rfc4737::Counts;
use sample::Layout;
use std::io;

// The size of the picture, its colours by class, for light and for dark, and its background. The classes: i in order, l late, s stem
// or join, b bar or triangle, c copy, w stair, n and t the settings for 95 percent and for all, a frame, g grid; m text that is centred
// at its point, e text that ends there, h text over lines.
const STYLE: &str = "</title>\n<style>\
    text{font:13px sans-serif;fill:#333}.m{text-anchor:middle}.e{text-anchor:end}\
    .h{paint-order:stroke;stroke:#fff;stroke-width:4px}.p,.h{stroke-linejoin:round}.p{fill:#fff}\
    path{fill:none}.g{stroke:#ddd}.a{stroke:#333}.n,.t{stroke:#333;stroke-dasharray:2 3}.t{stroke-dasharray:8 4}\
    .i,.l{stroke-linecap:round;stroke-width:5}.i,.w{stroke:#0072b2}.w{stroke-width:2}\
    .l,.s{stroke:#d55e00}.s{stroke-opacity:.6}.b{fill:#d55e00}.c{stroke:#009e73;stroke-width:1.5}\n\
    @media(prefers-color-scheme:dark){text{fill:#ddd}.h{stroke:#161616}.p{fill:#161616}.g{stroke:#3a3a3a}\
    .a,.n,.t{stroke:#ccc}.i,.w{stroke:#56b4e9}.l,.s{stroke:#f5883a}.b{fill:#f5883a}.c{stroke:#2fd0a0}}\
    </style>\n<path class='p' d='M0 0H1200V970H0z'/>\n";

// Writes an octet of the label, escaped for XML if necessary.
fn write_octet(rt: &impl Print, octet: u8) -> io::Result<()> {
    match octet {
        b'&' => rt.print("&amp;"),
        b'<' => rt.print("&lt;"),
        b'>' => rt.print("&gt;"),
        b'"' => rt.print("&quot;"),
        _ => rt.write_all(&[octet]),
    }
}

// Writes the name of the picture: the label or, if it is empty, what the picture shows.
fn write_name(rt: &impl Print, label: &[u8]) -> io::Result<()> {
    if label.is_empty() {
        return rt.print("Packet reordering");
    }
    for octet in label {
        write_octet(rt, *octet)?;
    }
    Ok(())
}

// Writes the title. A long label has smaller letters, so that 64 of the widest fit.
fn write_title(rt: &impl Print, label: &[u8]) -> io::Result<()> {
    rt.print(
        "<svg xmlns='http://www.w3.org/2000/svg' viewBox='0 0 1200 970' width='1200' height='970' role='img'>\n<title>",
    )?;
    write_name(rt, label)?;
    rt.print(STYLE)?;
    let size = if label.len() <= 48 { 18u32 } else { 14 };
    print!(rt;
        "<text x='80' y='40' style='font-size:{size}px;font-weight:bold' xml:space='preserve'>"
    )?;
    write_name(rt, label)?;
    rt.print("</text>\n")
}

// Writes the counts of the sample.
fn write_counts(rt: &impl Print, layout: Layout, counts: Counts) -> io::Result<()> {
    let packets = |count| Counted {
        count,
        one: "packet",
        more: "packets",
    };
    let sent = packets(layout.sent);
    let arrivals = Counted {
        count: layout.arrivals,
        one: "arrival",
        more: "arrivals",
    };
    let arrived = packets(counts.arrived);
    let copies = Counted {
        count: counts.duplicates,
        one: "copy",
        more: "copies",
    };
    let late = packets(counts.reordered);
    let share = Percent {
        part: counts.reordered,
        whole: counts.arrived,
    };
    print!(rt;
        "<text x='80' y='66'>{sent} sent, {arrivals}: {arrived}, {copies}; {late} late, {share}</text>\n"
    )
}

// Writes the sizes of a setting, as a row of the table at a height in pixels.
fn write_sizes(rt: &impl Print, sizes: Sizes, y: u32) -> io::Result<()> {
    let time = Milliseconds(sizes.time);
    let packets = sizes.packets;
    let octets = sizes.octets;
    print!(rt; "<text class='e' x='410' y='{y}'>{time}</text>")?;
    print!(rt; "<text class='e' x='530' y='{y}'>{packets}</text>")?;
    print!(rt; "<text class='e' x='650' y='{y}'>{octets}</text>\n")
}

// Writes the table of the settings.
fn write_settings(rt: &impl Print, settings: Settings) -> io::Result<()> {
    rt.print(
        "<text x='80' y='96'>to restore order</text><text class='e' x='410' y='96'>waiting time</text>\
        <text class='e' x='530' y='96'>packets held</text><text class='e' x='650' y='96'>octets held</text>\n\
        <path class='a' d='M80 102H650'/>\n\
        <path class='n' d='M80 114H112'/><text x='122' y='118'>for 95 in 100</text>",
    )?;
    write_sizes(rt, settings.most, 118)?;
    rt.print("<path class='t' d='M80 132H112'/><text x='122' y='136'>for all</text>")?;
    write_sizes(rt, settings.all, 136)
}

// Returns whether the clock steps back: whether an arrival has an earlier time than the arrival before it.
fn steps_back(records: &[Record]) -> bool {
    records
        .iter()
        .zip(records.iter().skip(1))
        .any(|(one, next)| next.time < one.time)
}

// Writes what limits the settings.
fn write_notes(rt: &impl Print, back: bool) -> io::Result<()> {
    rt.print("<text x='680' y='118'>Packets that never arrived are not counted.</text>\n")?;
    if back {
        rt.print(
            "<text x='680' y='136'>The clock steps back: the waiting times hold only for clocks that do not.</text>\n",
        )?;
    }
    Ok(())
}

// Writes the head.
pub(crate) fn write_head(
    rt: &impl Print,
    file: &[u8],
    layout: Layout,
    records: &[Record],
    settings: Settings,
) -> io::Result<()> {
    write_title(rt, sample::label(file))?;
    write_counts(rt, layout, metrics::counts(file).counts)?;
    write_settings(rt, settings)?;
    write_notes(rt, steps_back(records))
}
