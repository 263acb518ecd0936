// The total of disorder of a sample: the number of pairs of its first arrivals that came in the wrong order. It is the sum of the byte
// offsets if every payload size is 1. It is also the least number of exchanges of neighbouring first arrivals that puts them in rising
// order.
#![tactic(auto)]

ghost use Rattle.std.specs.Prelude.{◌≡◌};
ghost use Rattle.sample.specs.Decode.{decode};
ghost use Rattle.disorder.specs.Disorder.{OffsetsCountPairs, PairsAreLeast};
ghost use Rattle.disorder.specs.Sample.{sample_disorder, SumsOffsets, DisorderMoved};

mod pairs;

use pairs::disorder_of;

// The total of disorder of a sample, at most 8,386,560, and the refusal (0 for none). If the file is refused, the total is 0. Both stand
// side by side, as numbers, since `sample_disorder` of specs/Sample.antt gives both, for C too.
#[derive(Clone, Copy)]
#[repr(C)]
pub struct SampleDisorder {
    pub refusal: u32,
    pub total: u32,
}

// Finds the total of disorder of a sample: checks the file, then passes over the arrivals once with a Fenwick tree.
// Cost: O(A log K + K), with at most 25 steps in the tree for each first arrival.
pub fn total(file: &[u8]) -> SampleDisorder
    ensures total { result ≡ sample_disorder (decode file.now) }
    ensures sums { SumsOffsets (decode file.now) }
    ensures offsets { OffsetsCountPairs }
    ensures least { PairsAreLeast }
    ensures moved { DisorderMoved file.now }
{
    let layout = sample::check(file);
    SampleDisorder {
        refusal: layout.refusal,
        total: disorder_of(file, layout),
    }
}
