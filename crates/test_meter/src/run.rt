// The lines that change the meter.
use crate::say::say;
use cases::element::Element;
use cases::fields::number_in;
use cases::series::Series;
use meter::Meter;
use std::io;

// The meter after the arrivals of a line.
fn fed(start: Meter, line: &[u8]) -> Meter {
    let stream = number_in(line, 1);
    let numbers = Series {
        next: number_in::<u32>(line, 2) as u64,
        step: number_in::<u32>(line, 3) as u64,
    };
    let times = Series {
        next: number_in(line, 5),
        step: number_in(line, 6),
    };
    let mut m = start;
    for (number, time) in numbers.zip(times).take(number_in::<u32>(line, 4) as usize) {
        m = m.step(stream, u32::wrapped(number), time).state;
    }
    m
}

// The meter with what a line sets.
fn changed(m: Meter, line: &[u8]) -> Meter {
    let mut other = m;
    other.first.stream.kept = number_in(line, 1);
    other.second.stream.kept = number_in(line, 2);
    other.second.stream.next = number_in(line, 3);
    other
}

// Does what a line says, and returns the meter after it.
pub(crate) fn run(rt: &impl Print, m: Meter, line: &[u8]) -> io::Result<Meter> {
    match line.first() {
        Some(b'n') => Ok(Meter::new()),
        Some(b'b') => Ok(m.start(number_in(line, 1), number_in(line, 2)).state),
        Some(b'f') => Ok(fed(m, line)),
        Some(b'm') => Ok(changed(m, line)),
        _ => {
            say(rt, m, line)?;
            Ok(m)
        }
    }
}
