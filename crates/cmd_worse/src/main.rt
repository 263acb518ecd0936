// The worse program: tells which of two samples is of the worse link. Its arguments are the paths of two sample files and, if wanted, the
// names to print for them. It prints one line: which sample has the greater reordered ratio, with the name, label and ratio of each; or
// which sample is refused.
#![tactic(auto)]

mod ratio;

use program::{ARGUMENT_OCTETS, SAMPLE_ROOM, argument, argument_count, open_argument, read};
use ratio::{Standing, standing_of, write_ratio};
use rfc4737::Counts;
use rfc4737::refusal::NONE;
use std::io;
use std::io::Read;
use std::rt::{Env, Files};

// A sample file, and the name to print for it.
#[derive(Clone, Copy)]
struct Named<'a> {
    name: &'a [u8],
    file: &'a [u8],
}

impl Named<'_> {
    // Returns the counts of the sample.
    fn counts(self) -> Counts {
        metrics::counts(self.file).counts
    }

    // Writes the accepted sample: its name, its label if it has one, and its ratio.
    fn write(self, rt: &impl Print, between: &str) -> io::Result<()> {
        rt.write_all(self.name)?;
        let label = sample::label(self.file);
        if !label.is_empty() {
            rt.print(" (")?;
            rt.write_all(label)?;
            rt.print(")")?;
        }
        rt.print(between)?;
        let counts = self.counts();
        write_ratio(rt, counts.reordered, counts.arrived)
    }
}

// Writes that a sample is worse than another. Both are accepted.
fn write_worse(rt: &impl Print, worse: Named<'_>, other: Named<'_>) -> io::Result<()> {
    worse.write(rt, " is worse: ")?;
    rt.print("; ")?;
    other.write(rt, ": ")?;
    rt.print("\n")
}

// Writes that the ratios of two accepted samples are equal.
fn write_equal(rt: &impl Print, first: Named<'_>, second: Named<'_>) -> io::Result<()> {
    rt.print("the ratios are equal: ")?;
    first.write(rt, ": ")?;
    rt.print("; ")?;
    second.write(rt, ": ")?;
    rt.print("\n")
}

// Writes which of two accepted samples is worse.
fn write_comparison(rt: &impl Print, first: Named<'_>, second: Named<'_>) -> io::Result<()> {
    match standing_of(first.counts(), second.counts()) {
        Standing::Equal => write_equal(rt, first, second),
        Standing::First => write_worse(rt, first, second),
        Standing::Second => write_worse(rt, second, first),
    }
}

// Returns the refusal of a sample, if any.
fn refusal_of(sample: Named<'_>) -> Option<u32> {
    let refusal = sample::check(sample.file).refusal;
    if refusal == NONE { None } else { Some(refusal) }
}

// Compares two samples, or writes the first refusal.
fn compare_files(rt: &impl Print, first: Named<'_>, second: Named<'_>) -> io::Result<()> {
    if let Some(refusal) = refusal_of(first) {
        rt.print("first ")?;
        return program::write_refusal(rt, refusal);
    }
    if let Some(refusal) = refusal_of(second) {
        rt.print("second ")?;
        return program::write_refusal(rt, refusal);
    }
    write_comparison(rt, first, second)
}

// Reads two open files and compares them. Their names are the arguments at two indices.
fn compare_open(
    rt: &(impl Env + Print),
    first: &mut impl Read,
    second: &mut impl Read,
    first_name: usize,
    second_name: usize,
) -> io::Result<()> {
    let mut file = [0u8; SAMPLE_ROOM];
    let mut other_file = [0u8; SAMPLE_ROOM];
    let mut name = [0u8; ARGUMENT_OCTETS];
    let mut other_name = [0u8; ARGUMENT_OCTETS];
    let one = Named {
        name: argument(rt, first_name, &mut name),
        file: read(first, &mut file)?,
    };
    let other = Named {
        name: argument(rt, second_name, &mut other_name),
        file: read(second, &mut other_file)?,
    };
    compare_files(rt, one, other)
}

// Opens both files and compares them. Their names are the arguments at two indices.
fn compare_named(
    rt: &(impl Env + Files + Print),
    first_name: usize,
    second_name: usize,
) -> io::Result<()> {
    let Some(mut first) = open_argument(rt, 1) else {
        return rt.print("the first sample can't be opened\n");
    };
    let Some(mut second) = open_argument(rt, 2) else {
        return rt.print("the second sample can't be opened\n");
    };
    compare_open(rt, &mut first, &mut second, first_name, second_name)
}

// Compares the files that the arguments name.
fn main(rt: HostRuntime) -> io::Result<()> {
    match argument_count(&rt) {
        3 => compare_named(&rt, 1, 2),
        5 => compare_named(&rt, 3, 4),
        _ => {
            rt.print("the arguments are the paths of two sample files, and their names or none\n")
        }
    }
}
