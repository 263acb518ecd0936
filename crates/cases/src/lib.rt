// What the programs of cases share. Cases are text on standard input: lines, each cut into fields, which hold words or numbers. The results
// are written to standard output.
#![tactic(auto)]

pub mod element;
pub mod fields;
pub mod lists;
pub mod print;
pub mod series;
pub mod text;
pub mod totals;

use rfc4737::judge::ARRIVALS_MOST;

// The greatest number of arrivals of a sample. It is also the greatest number of sent packets.
pub const MAX_ARRIVALS: usize = ARRIVALS_MOST as usize;

// One more than a sample may have.
pub const TOO_MANY: usize = MAX_ARRIVALS + 1;
