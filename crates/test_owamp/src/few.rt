// The cases of a few records, with two lists of length 5.
use crate::OTHER;
use crate::lists::{NUMBER, Records, TIME, import_into};
use cases::fields::{field, number_in};
use cases::lists::first;
use cases::text::number;
use octets::put_number;
use std::io;

// The length of a record, in octets.
const RECORD: usize = 25;

// The number of records.
const FEW: usize = 6;

// Writes record i + 1: number i of the sequence numbers, of the seconds and of the fractions, each 0 if none is given.
fn put_packet_record(record: &mut [u8], line: &[u8], i: usize) {
    put_number(record, 0, 4, number(field(line, 4), i));
    put_number(record, 16, 4, number(field(line, 5), i));
    put_number(record, 20, 4, number(field(line, 6), i));
}

// Runs the case of a line.
pub(crate) fn run(rt: &impl Print, line: &[u8]) -> io::Result<()> {
    let mut octets = [OTHER; FEW * RECORD];
    for (i, record) in octets.chunks_exact_mut(RECORD).enumerate() {
        put_packet_record(record, line, i);
    }
    let records = Records {
        name: field(line, 1),
        k: number_in(line, 2),
        octets: first(&octets, number_in::<u32>(line, 3) as usize),
    };
    import_into(rt, records, &mut [NUMBER; 5], &mut [TIME; 5])
}
