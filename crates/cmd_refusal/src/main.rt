// The refusal program: prints the words of the refusal whose number is the argument; an empty line for any other number.
#![tactic(auto)]

use program::{argument, write_words};
use std::io;

// Reads the argument, and writes its words and a line feed. A number of over 32 bits is taken as 0, which is no refusal.
fn main(rt: HostRuntime) -> io::Result<()> {
    let mut word = [0u8; 32];
    let number = decimal::reading::number_at(argument(&rt, 1, &mut word), 0).value;
    write_words(&rt, u32::try_from(number).unwrap_or(0))?;
    rt.print("\n")
}
