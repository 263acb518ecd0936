// Runs the cases on a meter that stand on standard input: the places that its streams share, fresh starts, each refusal, and meters that
// are not fit, where the meter that comes back is compared with the one handed in. A line is written for each case. A line there begins
// with what it is, and those up to the next `new` are about one meter:
//   new: nothing more;
//   begin: a stream that is started afresh, and for how many packets;
//   feed: a stream, the first number, how far each is above the one before, how many, and the same of the times;
//   make: how many jumps are kept of stream 1 and of stream 2, and NextExp of stream 2 that the meter is to have;
//   words: what is written on a line;
//   kept: the name of the case; how many jumps the streams keep is written;
//   case: the name of the case, and stream, number and time of one arrival more, after which the meter is what it was before;
//   start: the name of the case, and a stream and for how many packets it is started afresh, after which the meter is what it was before.
#![tactic(auto)]

mod run;
mod say;

use cases::text::lines;
use meter::Meter;
use program::read_input;
use run::run;
use std::io;

// How many octets of cases are read at most.
const MOST: usize = 4096;

// Does what all lines say.
fn main(rt: HostRuntime) -> io::Result<()> {
    let mut room = [0u8; MOST];
    let mut m = Meter::new();
    for line in lines(read_input(&rt, &mut room)?) {
        m = run(&rt, m, line)?;
    }
    Ok(())
}
