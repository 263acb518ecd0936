// The least buffer with which a receiver that restores order accommodates a share of the first arrivals of a sample: in packets, in
// octets, or in time.
#![tactic(auto)]

ghost use Rattle.std.specs.Prelude.{◌≡◌, ◌*◌, ◌-◌, ◌^◌, ◌≤◌, ◌<◌, leb};
ghost use Rattle.sample.specs.Decode.{decode};
ghost use Rattle.metrics.specs.Sample.{answers_of};
ghost use Rattle.metrics.specs.Figures.{step_count};
ghost use Rattle.buffering.specs.Least.{sample_least, SizesAreLeast, OneLeast, MoreIsNoWorse, AllIsGreatest};
ghost use Rattle.buffering.specs.Restoring.{RestoresFile, HoldsOffset, RestoresOrder};
ghost use Rattle.buffering.specs.Private.{Between, FirstEnough};

use metrics::{STEPS, accommodated_steps};
use rfc4737::Measure;
use rfc4737::judge::outside;
use rfc4737::refusal::{NONE, Refusal};

// The least size of a buffer, and the refusal (0 for none); with a refusal the size is 0. Both stand side by side, as numbers, since
// `sample_least` of specs/Least.antt gives both, for C too.
#[derive(Clone, Copy)]
#[repr(C)]
pub struct SampleLeast {
    pub refusal: u32,
    pub size: u64,
}

// A share: `part` in `whole`.
#[derive(Clone, Copy)]
struct Share {
    part: u32,
    whole: u32,
}

impl Share {
    // Whether `some` of `all` is at least this share. A product of two numbers of 32 bits fits 64 bits.
    fn is_reached(self, some: u32, all: u32) -> bool
        ensures { result ≡ leb (self.part * all) (self.whole * some) }
    {
        let due = self.part as u64 * all as u64;
        let given = self.whole as u64 * some as u64;
        due <= given
    }

    // The index of the first of the counts that is at least this share of `all`; STEPS if none is. No Option: the caller goes on from the
    // size before the one found, which is the last one if none is, so it would turn `None` into STEPS.
    fn first_reached(self, counts: &[u32; STEPS], all: u32) -> usize
        ensures { FirstEnough self.part self.whole all counts.now result }
    {
        for (j, count) in counts.iter().enumerate() {
            if self.is_reached(*count, all) {
                return j;
            }
        }
        STEPS
    }
}

// The least shift with which STEPS sizes reach over `distance`. 57 is always enough, as STEPS is 2^7.
fn shift_for(distance: u64) -> u32
    ensures { (result ≤ 57) × (distance < step_count * 2 ^ result) }
{
    for shift in 0..57 {
        if distance >> shift < STEPS as u64 {
            return shift;
        }
    }
    57
}

// 2^`shift`.
fn power_of(shift: u32) -> u64
    requires { shift ≤ 57 }
    ensures { result ≡ 2 ^ shift }
{
    1u64 << shift
}

// Two sizes: all sizes below `low` are too small, and `high` is enough.
#[derive(Clone, Copy)]
struct Bounds {
    pub low: u64,
    pub high: u64,
}

impl Bounds {
    // Closes the bounds in by one pass over the sample, which tries STEPS sizes from `low` on.
    fn narrowed(self, file: &[u8], measure: Measure, share: Share) -> Bounds
        requires { (self.low < self.high) × Between measure share.part share.whole (answers_of (decode file.now)) self }
        ensures { Between measure share.part share.whole (answers_of (decode file.now)) result
            × (result.high - result.low < self.high - self.low) }
    {
        let Bounds { low, high } = self;
        let shift = shift_for(high - low);
        let steps = accommodated_steps(file, measure, low, shift);
        let at = share.first_reached(&steps.counts, steps.arrived);
        if at == 0 {
            return Bounds { low, high: low };
        }
        let width = power_of(shift);
        let below = low + (at - 1) as u64 * width;
        let next = below + 1;
        if high - below <= width {
            return Bounds { low: next, high };
        }
        Bounds {
            low: next,
            high: below + width,
        }
    }
}

// The least size of a buffer that accommodates at least `part` in `whole` of the first arrivals. One pass over the sample, and one more
// for every seven binary digits of the greatest need; each pass is O(A + K), and O(A log K + K) in octets. The contract `restores` says
// what the size means for a receiver that restores order.
pub fn least(file: &[u8], measure: Measure, part: u32, whole: u32) -> SampleLeast
    ensures value { result ≡ sample_least (decode file.now) measure part whole }
    ensures restores { RestoresFile (decode file.now) }
    ensures held { HoldsOffset }
    ensures order { RestoresOrder }
    ensures least { SizesAreLeast }
    ensures one { OneLeast }
    ensures more { MoreIsNoWorse }
    ensures all { AllIsGreatest }
{
    let steps = accommodated_steps(file, measure, 0, 0);
    if steps.refusal != NONE {
        return SampleLeast {
            refusal: steps.refusal,
            size: 0,
        };
    }
    if outside(1, whole as u64, part as u64) {
        return SampleLeast {
            refusal: Refusal::AskedOutside.number(),
            size: 0,
        };
    }
    let share = Share { part, whole };
    let mut bounds = Bounds {
        low: 0,
        high: steps.greatest,
    };
    while bounds.low < bounds.high {
        bounds = bounds.narrowed(file, measure, share);
    }
    SampleLeast {
        refusal: NONE,
        size: bounds.low,
    }
}
