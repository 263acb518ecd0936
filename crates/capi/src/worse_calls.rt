// Compares the reordered ratios of two samples, for C: the number of the worse sample, and the offset and length of its label.

ghost use Rattle.std.specs.Prelude.{◌≡◌};
ghost use Rattle.sample.specs.Decode.{decode};
ghost use Rattle.worse.specs.Worse.{comparison_of};
ghost use Rattle.capi.specs.Worse.{link_figures, worse_figures};

use crate::sample_calls::label_part;
use worse::{Link, compare};

// The number of the first sample.
pub const FIRST: u64 = 1;

// The number of the second sample.
pub const SECOND: u64 = 2;

// Returns the number of the worse sample, and the offset and length of its label in it; zeros if a sample is refused.
fn link_figures(link: Link, first: &[u8], second: &[u8]) -> [u64; 3]
    ensures { result ≡ link_figures link (decode first.now) (decode second.now) }
{
    match link {
        Link::Refused => [0, 0, 0],
        Link::First => {
            let part = label_part(first);
            [FIRST, part.start as u64, part.length as u64]
        }
        Link::Second => {
            let part = label_part(second);
            [SECOND, part.start as u64, part.length as u64]
        }
    }
}

// Finds which of two samples has the greater reordered ratio, and its label.
#[unsafe(no_mangle)]
pub extern "C" fn krakobran_worse(first: &[u8], second: &[u8], worse: &mut [u64; 3]) -> u64
    ensures { (result ≡ (comparison_of (decode first.now) (decode second.now)).refusal)
        × (worse.new ≡ worse_figures (decode first.now) (decode second.now)) }
{
    let comparison = compare(first, second);
    *worse = link_figures(comparison.link, first, second);
    comparison.refusal as u64
}
