// The export program: reads a sample on standard input and writes its arrivals on standard output, as a text log with the argument `log`,
// as OWAMP records with `owamp`. If the sample is refused, it writes the line `refused N: WORDS` instead. This line can't be taken for
// either, since a line of a log begins with a digit and a record with the octet 0.
#![tactic(auto)]

mod log;

use log::put_log;
use program::{SAMPLE_ROOM, argument_is, read_input, write_first, write_refusal, write_word};
use rfc4737::refusal::NONE;
use sample::WriteAnswer;
use std::io;

// Room for any output: 4,096 lines of at most 46 octets, or records of 25.
const OUTPUT_OCTETS: usize = 188_416;

// Writes a sample's arrivals as `put` puts them, or the sample's refusal.
fn write_arrivals<F: Fn(&[u8], &mut [u8]) -> WriteAnswer>(
    rt: &impl Print,
    put: &F,
    file: &[u8],
) -> io::Result<()>
    requires { F.IsAlwaysCallable put.now }
{
    let mut out = [0u8; OUTPUT_OCTETS];
    let written = put(file, &mut out);
    if written.refusal != NONE {
        return write_refusal(rt, written.refusal);
    }
    write_first(rt, &out, written.length as usize)?;
    Ok(())
}

// Reads the whole input and writes its arrivals.
fn export<F: Fn(&[u8], &mut [u8]) -> WriteAnswer>(
    rt: &(impl Input + Print),
    put: &F,
) -> io::Result<()>
    requires { F.IsAlwaysCallable put.now }
{
    let mut input = [0u8; SAMPLE_ROOM];
    write_arrivals(rt, put, read_input(rt, &mut input)?)
}

// Exports in the form that the argument names.
fn main(rt: HostRuntime) -> io::Result<()> {
    if argument_is(&rt, 1, b"log") {
        return export(&rt, &put_log);
    }
    if argument_is(&rt, 1, b"owamp") {
        return export(&rt, &owamp::write);
    }
    write_word(&rt, b"the argument is log or owamp\n")
}
