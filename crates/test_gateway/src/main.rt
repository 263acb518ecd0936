// Feeds a list of arrivals to three receivers: one lent by reference, one passed by value, and one stepped in place. For each
// arrival and each receiver it writes what is said of the arrival and what the receiver then holds.
#![tactic(auto)]

ghost use Rattle.std.specs.Prelude.{◌≡◌};
ghost use Rattle.receiver.specs.Step.{step_of};

use cases::MAX_ARRIVALS;
use cases::print::{write_number, write_word};
use receiver::{Receiver, StepAnswer, Stream};
use receiver_text::write_outcome;
use rfc4737::Arrival;
use std::io;

// The number of arrivals that a receiver accepts.
const ARRIVALS: u32 = MAX_ARRIVALS as u32;

// The arrivals that are fed, K being 8.
const FED: [Arrival; 14] = [
    // In order, the third with a jump over 3 and 4.
    Arrival {
        number: 1,
        time: 1010,
    },
    Arrival {
        number: 2,
        time: 1020,
    },
    Arrival {
        number: 5,
        time: 1030,
    },
    // Reordered, and again.
    Arrival {
        number: 4,
        time: 1040,
    },
    Arrival {
        number: 4,
        time: 1050,
    },
    // Refused by 6, by 6 and by 7, 1,001 below the greatest time; and then taken, 1,000 below it.
    Arrival {
        number: 0,
        time: 1060,
    },
    Arrival {
        number: 9,
        time: 1060,
    },
    Arrival {
        number: 3,
        time: 49,
    },
    Arrival {
        number: 3,
        time: 50,
    },
    // A second jump, again, and the two packets that it skipped, one of them stamped before it.
    Arrival {
        number: 8,
        time: 1070,
    },
    Arrival {
        number: 8,
        time: 1080,
    },
    Arrival {
        number: 6,
        time: 1069,
    },
    Arrival {
        number: 7,
        time: 1090,
    },
    // The first packet again.
    Arrival {
        number: 1,
        time: 1100,
    },
];

// An arrival fed by reference: the receiver is held in a local, which is lent to the gateway's step. This function and `in_place` stay two,
// since each promises what its own call does; a generic one could only promise what its parameter does.
fn by_reference(state: Receiver, number: u32, time: u64) -> StepAnswer
    ensures { result ≡ step_of state number time }
{
    let mut held = state;
    let outcome = gateway::step(&mut held, number, time);
    StepAnswer {
        outcome,
        state: held,
    }
}

// An arrival fed in place: the receiver is held in a local, which is lent to the receiver's step in place.
fn in_place(state: Receiver, number: u32, time: u64) -> StepAnswer
    ensures { result ≡ step_of state number time }
{
    let mut held = state;
    let outcome = receiver::step_in_place(&mut held, number, time);
    StepAnswer {
        outcome,
        state: held,
    }
}

// Writes a line: by which way, what is said, and some of what the receiver holds.
fn write_fed(rt: &impl Print, way: &[u8], s: StepAnswer) -> io::Result<()> {
    let stream = s.state.stream;
    write_word(rt, way)?;
    write_outcome(rt, s.outcome)?;
    write_number(rt, b"; L ", stream.arrived)?;
    write_number(rt, b" duplicates ", stream.duplicates)?;
    write_number(rt, b" in order ", stream.inorder)?;
    write_number(rt, b" NextExp ", stream.next)?;
    write_number(rt, b" greatest ", stream.greatest)?;
    write_number(rt, b" jumps ", stream.kept)?;
    write_word(rt, b"\n")
}

// The three receivers.
#[derive(Clone, Copy)]
struct Three {
    lent: Receiver,
    value: Receiver,
    place: Receiver,
}

impl From<Receiver> for Three {
    // One receiver, three times.
    fn from(state: Receiver) -> Three {
        Three {
            lent: state,
            value: state,
            place: state,
        }
    }
}

// Feeds one arrival to each, and writes it and what comes of it.
fn feed(rt: &impl Print, p: Three, number: u32, time: u64) -> io::Result<Three> {
    let a = by_reference(p.lent, number, time);
    let b = p.value.step(number, time);
    let c = in_place(p.place, number, time);
    write_number(rt, b"", number)?;
    write_number(rt, b" at ", time)?;
    write_word(rt, b"\n")?;
    write_fed(rt, b"  lent:  ", a)?;
    write_fed(rt, b"  value: ", b)?;
    write_fed(rt, b"  place: ", c)?;
    Ok(Three {
        lent: a.state,
        value: b.state,
        place: c.state,
    })
}

// Feeds the list of arrivals.
fn main(rt: HostRuntime) -> io::Result<()> {
    let state = Receiver::fresh(8).state;
    let mut p = Three::from(state);
    for arrival in &FED {
        p = feed(&rt, p, arrival.number, arrival.time)?;
    }
    refused_states(&rt, state)
}

// Feeds an arrival to states that refuse every arrival, or a reordered one. The first has accepted 4,096 arrivals (11), the second has
// more first arrivals than packets (10), and in the third a reordered packet finds no greater jump (10).
fn refused_states(rt: &impl Print, state: Receiver) -> io::Result<()> {
    let full = Stream {
        duplicates: ARRIVALS,
        ..state.stream
    };
    let unfit = Stream {
        arrived: 9,
        ..state.stream
    };
    let late = Stream {
        next: 3,
        ..state.stream
    };
    for stream in &[full, unfit, late] {
        let refusing = Receiver {
            stream: *stream,
            ..state
        };
        feed(rt, Three::from(refusing), 1, 10)?;
    }
    Ok(())
}
