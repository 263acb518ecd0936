// The figures of the summary, each found by its call of the library.
ghost use Rattle.std.specs.Prelude.{◌≡◌, ◌≤◌};
ghost use Rattle.sample.specs.Decode.{decode};
ghost use Rattle.metrics.specs.Sample.{answers_of};
ghost use Rattle.metrics.specs.Records.{FileLayout};
ghost use Rattle.buffering.specs.Least.{least_size};
ghost use Rattle.summary.specs.Figures.{figures_of, sizes_for};

use crate::clock::steps_back;
use rfc4737::Measure;
use sample::Layout;

// The figures of a sample that do not depend on a share.
#[derive(Clone, Copy)]
pub(crate) struct Figures {
    // K.
    pub sent: u32,
    // First arrivals.
    pub arrived: u32,
    pub copies: u32,
    pub reordered: u32,
    // 1-reordered and 3-reordered packets.
    pub reordered1: u32,
    pub reordered3: u32,
    // The total of disorder.
    pub disorder: u32,
    // Whether packets were lost.
    pub lost: bool,
    // Whether the clock steps back.
    pub back: bool,
}

// The least sizes for a share. The time is in microseconds.
#[derive(Clone, Copy)]
pub(crate) struct Sizes {
    pub time: u64,
    pub packets: u64,
    pub octets: u64,
}

// Finds the figures of a sample. Cost: seven passes over the file.
pub(crate) fn figures_of(file: &[u8], layout: Layout) -> Figures
    requires { FileLayout (decode file.now) layout }
    ensures { result ≡ figures_of (decode file.now) }
{
    let counts = metrics::counts(file).counts;
    let first = metrics::n_reordered(file, 1);
    let third = metrics::n_reordered(file, 3);
    let disorder = disorder::total(file).total;
    let back = steps_back(file, layout);
    Figures {
        sent: layout.sent,
        arrived: counts.arrived,
        copies: counts.duplicates,
        reordered: counts.reordered,
        reordered1: first.reordered,
        reordered3: third.reordered,
        disorder,
        lost: counts.arrived < layout.sent,
        back,
    }
}

// Finds the least size for `share` percent of the first arrivals.
fn size_for(file: &[u8], measure: Measure, share: u32) -> u64
    requires { (1 ≤ share) × (share ≤ 100) }
    ensures { result ≡ least_size measure share 100 (answers_of (decode file.now)) }
{
    buffering::least(file, measure, share, 100).size
}

// Finds the least sizes for `share` percent of the first arrivals. Cost: three searches by `buffering::least`.
pub(crate) fn sizes_for(file: &[u8], share: u32) -> Sizes
    requires { (1 ≤ share) × (share ≤ 100) }
    ensures { result ≡ sizes_for (answers_of (decode file.now)) share }
{
    let time = size_for(file, Measure::Time, share);
    let packets = size_for(file, Measure::Packets, share);
    let octets = size_for(file, Measure::Octets, share);
    Sizes {
        time,
        packets,
        octets,
    }
}
