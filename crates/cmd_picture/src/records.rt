// The records of a sample, as they are drawn.
use metrics::record_rows;
use rfc4737::judge::ARRIVALS_MOST;
use rfc4737::numbering::{IN_ORDER, REORDERED_AFTER, REORDERED_BEFORE};
use rfc4737::{Arrival, LateTime};
use sample::{Layout, arrival};

// The greatest number of records of a sample.
pub(crate) const MAX_RECORDS: usize = ARRIVALS_MOST as usize;

// The numbers of a record in its row of `metrics::record_rows`.
const ROW_LEN: usize = 8;

// The kind of a record. Late packets are one kind, whatever the direction of their late times.
#[derive(Clone, Copy, Debug, Default, PartialEq, Eq)]
pub(crate) enum Kind {
    InOrder,
    Late,
    #[default]
    Copy,
}

// A record: its sequence number and arrival time; its kind; its position among the first arrivals, 0 for a copy; and its extent and late
// time, 0 unless it is late.
#[derive(Clone, Copy)]
pub(crate) struct Record {
    pub(crate) number: u64,
    pub(crate) time: u64,
    pub(crate) kind: Kind,
    pub(crate) position: u64,
    pub(crate) extent: u64,
    pub(crate) late: LateTime,
}

impl Record {
    // No record: what the room of the records has where none is.
    pub(crate) const NONE: Record = Record {
        number: 0,
        time: 0,
        kind: Kind::Copy,
        position: 0,
        extent: 0,
        late: LateTime::After(0),
    };
}

// Returns the kind of a record by the number of its case, which is what a row has, as it has in C.
fn kind_of(case: u64) -> Kind {
    const ORDERED: u64 = IN_ORDER as u64;
    const AFTER: u64 = REORDERED_AFTER as u64;
    const BEFORE: u64 = REORDERED_BEFORE as u64;
    match case {
        ORDERED => Kind::InOrder,
        AFTER | BEFORE => Kind::Late,
        _ => Kind::Copy,
    }
}

// Returns the record of an arrival from its row.
fn record_of(arrival: Arrival, row: &[u64]) -> Record {
    let [case, position, _, extent, amount, ..] = *row else {
        return Record::NONE;
    };
    let late = if case == REORDERED_BEFORE as u64 {
        LateTime::Before(amount)
    } else {
        LateTime::After(amount)
    };
    Record {
        number: arrival.number as u64,
        time: arrival.time,
        kind: kind_of(case),
        position,
        extent,
        late,
    }
}

// Reads the records of a checked sample into `room`. Returns them as a part of it.
pub(crate) fn read_records<'a>(
    file: &[u8],
    layout: Layout,
    room: &'a mut [Record; MAX_RECORDS],
) -> &'a [Record] {
    let mut rows = [0u64; ROW_LEN * MAX_RECORDS];
    record_rows(file, &mut rows);
    for (i, (record, row)) in (0..layout.arrivals).zip(
        room.iter_mut().zip(rows.chunks_exact(ROW_LEN)),
    ) {
        *record = record_of(arrival(file, layout, i), row);
    }
    let count = room.len().min(layout.arrivals as usize);
    &room[..count]
}
