// Checks a supplier's listing: it agrees with the report of the sample, or the number of its first wrong line.
#![tactic(auto)]

ghost use Rattle.std.specs.Prelude.{◌≡◌, cond, ◌≤◌, eqb, length};
ghost use Rattle.listing.specs.Room.{listing_octets};
ghost use Rattle.octets.specs.Text.{line_feed};
ghost use Rattle.sample.specs.Decode.{decode};
ghost use Rattle.checker.specs.Verdict.{sample_verdict};
ghost use Rattle.checker.specs.Claims.{AgreesExactly, StartDecides};
ghost use Rattle.checker.specs.Cases.{ListingCasesHold};
ghost use Rattle.checker.specs.Private.{feeds, wrong_after};

use rfc4737::refusal::NONE;

// The verdict on a listing: it agrees, or the number of its first wrong line, from 1. No `Option` of the line: `None` would not say that the
// listing agrees, and `verdict_on_lines` of specs/Verdict gives both cases by name.
#[derive(Clone, Copy, Debug, PartialEq, Eq)]
pub enum Verdict {
    Agrees,
    WrongLine(u32),
}

// The verdict, and the refusal of the sample (0 for none). If the sample is refused, the listing is not read, and the line is 0.
// A refusal stands beside the verdict, and not in place of it, since `sample_verdict` of specs/Verdict.antt gives both, for C too.
#[derive(Clone, Copy)]
pub struct SampleVerdict {
    pub refusal: u32,
    pub verdict: Verdict,
}

// Counts the line feeds in a text.
fn line_feeds_in(text: &[u8]) -> usize
    ensures { result ≡ feeds text.now }
{
    text.iter().filter(|x| **x == b'\n').count()
}

// Returns the first wrong line if the first `octets` octets agree: their number of line feeds, plus 1.
fn wrong_line(listing: &[u8], octets: usize) -> Verdict
    requires { (octets ≤ length listing.now) × (octets ≤ listing_octets) }
    ensures { result ≡ wrong_after octets listing.now }
{
    Verdict::WrongLine((1 + line_feeds_in(&listing[..octets])) as u32)
}

// Checks a listing against a sample: `Agrees` exactly if it is the report of the sample, else the number of its first wrong line.
// Cost: that of `metrics::agreement`, and a second pass over the octets that agree.
pub fn check(file: &[u8], listing: &[u8]) -> SampleVerdict
    ensures value { result ≡ sample_verdict (decode file.now) listing.now }
    ensures exactly { AgreesExactly (decode file.now) }
    ensures start { StartDecides (decode file.now) }
    ensures cases { ListingCasesHold }
{
    let agreement = metrics::agreement(file, listing);
    if agreement.refusal != NONE {
        return SampleVerdict {
            refusal: agreement.refusal,
            verdict: Verdict::WrongLine(0),
        };
    }
    let octets = agreement.octets;
    if agreement.same {
        return SampleVerdict {
            refusal: NONE,
            verdict: Verdict::Agrees,
        };
    }
    SampleVerdict {
        refusal: NONE,
        verdict: wrong_line(listing, octets),
    }
}
