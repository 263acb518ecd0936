// Reads and writes one packet record (RFC 4656, section 3.9).
ghost use Rattle.std.specs.Prelude.{◌≡◌, ◌≤◌, ◌<◌, length, get_or};
ghost use Rattle.octets.specs.Memory.{put};
ghost use Rattle.owamp.specs.Record.{record_width, record_count, records_in};
ghost use Rattle.owamp.specs.Calls.{record_octets};
ghost use Rattle.sample.specs.Places.{no_arrival};

use crate::clock::{FRACTIONS, fraction_of, seconds_of};

// The length of a record in octets.
pub(crate) const WIDTH: usize = 25;

// The offset of each field.
const SEQUENCE_NUMBER: usize = 0;

const SEND_ERROR: usize = 4;

const RECEIVE_ERROR: usize = 6;

const SEND_TIME: usize = 8;

const RECEIVE_TIME: usize = 16;

const RECEIVE_FRACTION: usize = 20;

const TTL: usize = 24;

// Returns the packet number of record i + 1. Sequence number 0 is packet 1.
pub(crate) fn number_of(records: &[u8], i: usize) -> u64
    requires { i < record_count records.now }
    ensures { result ≡ (get_or (records_in records.now) i no_arrival).number }
{
    let start = WIDTH * i;
    let end = start + WIDTH;
    let one = &records[start..end];
    octets::number_at(one, SEQUENCE_NUMBER, 4) + 1
}

// Returns the receive time of record i + 1 as recorded. It is read as two numbers of 4 octets, which compile to one load.
pub(crate) fn time_of(records: &[u8], i: usize) -> u64
    requires { i < record_count records.now }
    ensures { result ≡ (get_or (records_in records.now) i no_arrival).time }
{
    let start = WIDTH * i;
    let end = start + WIDTH;
    let one = &records[start..end];
    let seconds = octets::number_at(one, RECEIVE_TIME, 4);
    let fraction = octets::number_at(one, RECEIVE_FRACTION, 4);
    seconds * FRACTIONS + fraction
}

// Writes the record of an arrival to `lent`.
pub(crate) fn put_packet_record(lent: &mut [u8], number: u32, time: u64)
    requires { (1 ≤ number) × (length lent.old ≡ record_width) }
    ensures { lent.new ≡ put 0 (record_octets (record { number = number; time = time })) lent.old }
{
    octets::put_number(lent, SEQUENCE_NUMBER, 4, number as u64 - 1);
    octets::put_number(lent, SEND_ERROR, 2, 1);
    octets::put_number(lent, RECEIVE_ERROR, 2, 1);
    octets::put_number(lent, SEND_TIME, 8, 0);
    octets::put_number(lent, RECEIVE_TIME, 4, seconds_of(time));
    octets::put_number(lent, RECEIVE_FRACTION, 4, fraction_of(time));
    octets::put_number(lent, TTL, 1, 255);
}
