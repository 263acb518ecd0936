// The cases of short logs, and of logs of short numbers.
use crate::fields::octets_for;
use crate::lists::{Log, NUMBER, TIME, Width, import_into};
use cases::fields::{field, number_in};
use cases::text::number;
use std::io;

// The greatest length of a short list.
const SHORT_LENGTH: usize = 5;

// Runs the case of a line.
pub(crate) fn run(rt: &impl Print, line: &[u8]) -> io::Result<()> {
    let mut octets = [0u8; 128];
    let mut numbers = [NUMBER; SHORT_LENGTH];
    let mut times = [TIME; SHORT_LENGTH];
    let n = SHORT_LENGTH.min(number_in::<u32>(line, 4) as usize);
    let t = SHORT_LENGTH.min(number_in::<u32>(line, 5) as usize);
    let log = Log {
        name: field(line, 1),
        width: Width::of_bits(number(field(line, 0), 1)),
        k: number_in(line, 2),
        octets: octets_for(field(line, 3), &mut octets),
    };
    import_into(rt, log, &mut numbers[..n], &mut times[..t])
}
