// What is wrong with a line of a text log, for C.

ghost use Rattle.std.specs.Prelude.{◌≡◌};
ghost use Rattle.line_faults.specs.Faults.{line_fault};
ghost use Rattle.capi.specs.Lines.{fault_number};

use line_faults::{LineFault, line_fault};

// Returns the number of a fault. A function, and no From, as in figures.rt: the fault and the number are both types of other crates.
fn fault_number(fault: LineFault) -> u64
    ensures { result ≡ fault_number fault }
{
    match fault {
        LineFault::Formed => 0,
        LineFault::ByteOrderMark => 1,
        LineFault::EmptyLine => 2,
        LineFault::NoDigit => 3,
        LineFault::CarriageReturn => 4,
        LineFault::NoLineFeed => 5,
        LineFault::NumberOver => 6,
        LineFault::ManyDecimals => 7,
        LineFault::Other => 8,
    }
}

// Returns the number of the fault of a line, given with its line feed.
#[unsafe(no_mangle)]
pub extern "C" fn krakobran_log_line_fault(line: &[u8]) -> u64
    ensures { result ≡ fault_number (line_fault line.now) }
{
    fault_number(line_fault(line))
}
