// Finds which of two samples has the greater reordered ratio, and its label as a part of that sample. Ratios are compared exactly, as
// fractions of whole numbers.
#![tactic(auto)]

ghost use Rattle.std.specs.Prelude.{◌≡◌};
ghost use Rattle.sample.specs.Decode.{decode};
ghost use Rattle.worse.specs.declared.Link.{Link};
ghost use Rattle.worse.specs.Worse.{reordered_ratio, greater, comparison_of, worse_label, worse_place};

use metrics::counts;
use rfc4737::Counts;
use sample::label;

// One of two samples, or `Refused` if one of them is refused.
#[derive(Clone, Copy, Debug, PartialEq, Eq)]
pub enum Link {
    Refused,
    First,
    Second,
}

// The comparison of two samples: the refusal (0 for none), and the worse sample. The refusal stands beside the link as a number, since
// `comparison_of` of specs/Worse.antt gives both, for C too.
#[derive(Clone, Copy)]
pub struct Comparison {
    pub refusal: u32,
    pub link: Link,
}

impl Comparison {
    // Returns the comparison of two samples of which one is refused.
    fn refused(refusal: u32) -> Comparison
        ensures { result ≡ record { refusal = refusal; link = Link.Refused } }
    {
        Comparison {
            refusal,
            link: Link::Refused,
        }
    }
}

// A ratio of whole numbers.
#[derive(Clone, Copy)]
pub struct Fraction {
    pub part: u32,
    pub whole: u32,
}

// Returns the reordered ratio of a sample from its counts; 0 over 1 if it is undefined. No Option: the definition `reordered_ratio` counts
// an undefined ratio as 0.
pub fn reordered_ratio(counts: Counts) -> Fraction
    ensures { result ≡ reordered_ratio counts }
{
    if counts.arrived == 0 {
        return Fraction { part: 0, whole: 1 };
    }
    Fraction {
        part: counts.reordered,
        whole: counts.arrived,
    }
}

// Returns whether f is greater than g. A product of two 32-bit numbers fits in 64 bits. No derive orders fractions: 1 over 2 and 2 over 4
// are equal as ratios and differ as values.
pub fn greater(f: Fraction, g: Fraction) -> bool
    ensures { result ≡ greater f g }
{
    let ours = f.part as u64 * g.whole as u64;
    let theirs = g.part as u64 * f.whole as u64;
    theirs < ours
}

// Finds which of two samples has the greater reordered ratio; the first if they are equal. Cost: one pass over each.
pub fn compare(first: &[u8], second: &[u8]) -> Comparison
    ensures { result ≡ comparison_of (decode first.now) (decode second.now) }
{
    let one = counts(first);
    if one.refusal != 0 {
        return Comparison::refused(one.refusal);
    }
    let other = counts(second);
    if other.refusal != 0 {
        return Comparison::refused(other.refusal);
    }
    if greater(reordered_ratio(other.counts), reordered_ratio(one.counts)) {
        return Comparison {
            refusal: 0,
            link: Link::Second,
        };
    }
    Comparison {
        refusal: 0,
        link: Link::First,
    }
}

// Returns the label of the worse of two samples, as a part of it. If a sample is refused, returns the empty part at the start of `first`.
pub fn worse<'a>(first: &'a [u8], second: &'a [u8]) -> &'a [u8]
    ensures { (result.now ≡ worse_label (decode first.now) (decode second.now))
        × (result.ref_ptr ≡ worse_place (decode first.now) (decode second.now) first.entry.ref_ptr second.entry.ref_ptr) }
{
    match compare(first, second).link {
        Link::Refused => &first[0..0],
        Link::First => label(first),
        Link::Second => label(second),
    }
}
