// Tables of what has arrived:
//   `numbers`: the numbers of the first arrivals, in order of position;
//   `records`: by packet number, the record of its first arrival, or 0 if it has not arrived;
//   `skipped`: by packet number, one of two things. For a packet below NextExp that has not arrived: the position of the jump that
//     skipped it. For one that has arrived: its largest n, if the pass asks for it.
// Index 0 of the tables by packet number is not used. An entry is a number of 16 bits, and 0 stands for none, as an `Option` would take
// twice the memory.
ghost use Rattle.std.specs.Prelude.{◌≡◌, ◌≤◌, length, replicate};
ghost use Rattle.rfc4737.specs.Judge.{sent_most};
ghost use Rattle.metrics.specs.Records.{number_places};
ghost use Rattle.metrics.specs.Private.Tables.{Filled, NextRecord, NotedRecord, NextSeen, NotedSeen};

use rfc4737::judge::SENT_MOST;

// The greatest number of first arrivals.
pub(crate) const MAX_FIRST_ARRIVALS: usize = SENT_MOST as usize;

// The length of a table by packet number.
pub(crate) const PACKET_TABLE_LEN: usize = SENT_MOST as usize + 1;

// Of the arrivals noted: how many are first arrivals, and NextExp. It stands beside the tables, and is passed by value, so that a pass
// keeps it in registers.
#[derive(Clone, Copy)]
pub(crate) struct State {
    pub count: u32,
    pub next: u32,
}

impl State {
    // The state before any arrival.
    pub(crate) const START: State = State { count: 0, next: 1 };
}

// The tables by packet number of the arrivals noted. They suffice for the classes, and a pass that takes nothing else keeps no others:
// a table that is only written takes its memory all the same.
#[derive(Drop)]
pub(crate) struct Seen {
    pub records: [u16; PACKET_TABLE_LEN],
    pub skipped: [u16; PACKET_TABLE_LEN],
}

// The tables of the arrivals noted.
#[derive(Drop)]
pub(crate) struct Tables {
    pub numbers: [u16; MAX_FIRST_ARRIVALS],
    pub seen: Seen,
}

// Notes that the jump at `position` skipped the packets from `from` to before `to`.
fn note_skipped(skipped: &mut [u16; PACKET_TABLE_LEN], from: u32, to: u32, position: u16)
    requires { (from ≤ to) × (to ≤ number_places) × (length skipped.old ≡ number_places) }
    ensures { Filled from to position skipped.old skipped.new }
{
    for packet in from..to {
        skipped[packet as usize] = position;
    }
}

impl Seen {
    // The tables before any arrival.
    pub(crate) fn new() -> Seen
        ensures { result ≡ record { records = replicate number_places 0; skipped = replicate number_places 0 } }
    {
        Seen {
            records: [0; PACKET_TABLE_LEN],
            skipped: [0; PACKET_TABLE_LEN],
        }
    }

    // Notes record i + 1, an arrival of packet `number`; if it is reordered, `largest` is its largest n. All calls of a pass together:
    // O(A + K).
    pub(crate) fn note(&mut self, i: u32, number: u32, largest: u16, state: State) -> State
        requires { NextSeen self.old.records self.old.skipped state i number }
        ensures { NotedSeen i number largest self.old.records self.old.skipped state self.new.records self.new.skipped result }
    {
        let packet = number as usize;
        if self.records[packet] != 0 {
            return state;
        }
        self.records[packet] = (i + 1) as u16;
        let count = state.count + 1;
        if number < state.next {
            self.skipped[packet] = largest;
            return State { count, ..state };
        }
        note_skipped(&mut self.skipped, state.next, number, count as u16);
        State {
            count,
            next: number + 1,
        }
    }
}

impl Tables {
    // The tables before any arrival.
    pub(crate) fn new() -> Tables
        ensures { result ≡ record {
          numbers = replicate sent_most 0;
          seen = record { records = replicate number_places 0; skipped = replicate number_places 0 };
        } }
    {
        Tables {
            numbers: [0; MAX_FIRST_ARRIVALS],
            seen: Seen::new(),
        }
    }

    // Notes record i + 1, as `Seen::note`. The number of a copy is put past those of the first arrivals, where the next one's comes. The
    // numbers come last: a write between the class and the noting would have the packet's record read twice.
    pub(crate) fn note(&mut self, i: u32, number: u32, largest: u16, state: State) -> State
        requires { NextRecord self.old.numbers self.old.seen.records self.old.seen.skipped state i number }
        ensures { NotedRecord i number largest self.old.numbers self.old.seen.records self.old.seen.skipped state
            self.new.numbers self.new.seen.records self.new.seen.skipped result }
    {
        let after = self.seen.note(i, number, largest, state);
        self.numbers[state.count as usize] = number as u16;
        after
    }
}
