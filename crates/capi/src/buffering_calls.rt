// Waiting time and buffer for C. A measure is a number, as C passes it: 0 packets, 1 octets, 2 time.

ghost use Rattle.std.specs.Prelude.{◌≡◌, IfSome, IfNone, true, false, [], ◌∷◌, length};
ghost use Rattle.rfc4737.specs.Refusals.{first_refusal, asked_outside, outside};
ghost use Rattle.sample.specs.Decode.{decode, decoded_refusal};
ghost use Rattle.metrics.specs.Figures.{sample_accommodated, sample_needs, step_count, sample_steps};
ghost use Rattle.buffering.specs.Least.{sample_least};
ghost use Rattle.capi.specs.Buffering.{measure_of, with_measure, need_figures, steps_told};

use metrics::STEPS;
use rfc4737::Measure;
use rfc4737::refusal::{NONE, Refusal};

// The figures of several sizes: L, the greatest need, and a count for each size.
const STEP_FIGURES: usize = STEPS + 2;

// Returns the measure with this number.
fn measure_of(measure: u32) -> Option<Measure>
    ensures some { IfSome result (λ m. (m ≡ measure_of measure) × (outside 0 2 measure ≡ false)) }
    ensures none { IfNone result (outside 0 2 measure ≡ true) }
{
    match measure {
        0 => Some(Measure::Packets),
        1 => Some(Measure::Octets),
        2 => Some(Measure::Time),
        _ => None,
    }
}

// Returns the refusal for a number that is no measure: the file's own, else 9.
fn no_measure(file: &[u8]) -> u64
    ensures { result ≡ first_refusal (decoded_refusal (decode file.now) ∷ asked_outside ∷ []) }
{
    let layout = sample::check(file);
    if layout.refusal != NONE {
        return layout.refusal as u64;
    }
    Refusal::AskedOutside.number() as u64
}

// Finds the greatest needs of a sample.
#[unsafe(no_mangle)]
pub extern "C" fn krakobran_greatest_needs(file: &[u8], needs: &mut [u64; 3]) -> u64
    ensures { (result ≡ (sample_needs (decode file.now)).refusal)
        × (needs.new ≡ need_figures (sample_needs (decode file.now))) }
{
    let found = metrics::greatest_needs(file);
    *needs = [found.packets, found.octets, found.time];
    found.refusal as u64
}

// Counts the first arrivals that a buffer of `size` accommodates, and L.
#[unsafe(no_mangle)]
pub extern "C" fn krakobran_accommodated(
    file: &[u8],
    measure: u32,
    size: u64,
    counts: &mut [u64; 2],
) -> u64
    ensures { (result ≡ (sample_accommodated (with_measure measure (decode file.now)) (measure_of measure) size).refusal)
        × (counts.new ≡ (sample_accommodated (with_measure measure (decode file.now)) (measure_of measure) size).accommodated
        ∷ (sample_accommodated (with_measure measure (decode file.now)) (measure_of measure) size).arrived ∷ []) }
{
    let Some(kind) = measure_of(measure) else {
        *counts = [0, 0];
        return no_measure(file);
    };
    let found = metrics::accommodated(file, kind, size);
    *counts = [found.accommodated as u64, found.arrived as u64];
    found.refusal as u64
}

// Returns the figures of several sizes.
fn step_figures(arrived: u32, greatest: u64, counts: [u32; STEPS]) -> [u64; STEP_FIGURES]
    requires { length counts ≡ step_count }
    ensures { result ≡ arrived ∷ greatest ∷ counts }
{
    let mut figures = [0u64; STEP_FIGURES];
    figures[0] = arrived as u64;
    figures[1] = greatest;
    for (j, count) in counts.iter().enumerate() {
        figures[2 + j] = *count as u64;
    }
    figures
}

// Counts the first arrivals that buffers of STEPS sizes accommodate, L, and the greatest need. The sizes are `low` and what is 2^`shift`
// apart from there on.
#[unsafe(no_mangle)]
pub extern "C" fn krakobran_accommodated_steps(
    file: &[u8],
    measure: u32,
    low: u64,
    shift: u32,
    steps: &mut [u64; STEP_FIGURES],
) -> u64
    ensures { steps_told result steps.new
        ≡ sample_steps (with_measure measure (decode file.now)) (measure_of measure) low shift }
{
    let Some(kind) = measure_of(measure) else {
        *steps = [0u64; STEP_FIGURES];
        return no_measure(file);
    };
    let found = metrics::accommodated_steps(file, kind, low, shift);
    *steps = step_figures(found.arrived, found.greatest, found.counts);
    found.refusal as u64
}

// Finds the least size of a buffer that accommodates at least `part` in `whole` of the first arrivals.
#[unsafe(no_mangle)]
pub extern "C" fn krakobran_least_size(
    file: &[u8],
    measure: u32,
    part: u32,
    whole: u32,
    size: &mut [u64; 1],
) -> u64
    ensures { (result ≡ (sample_least (with_measure measure (decode file.now)) (measure_of measure) part whole).refusal)
        × (size.new ≡ (sample_least (with_measure measure (decode file.now)) (measure_of measure) part whole).size ∷ []) }
{
    let Some(kind) = measure_of(measure) else {
        *size = [0];
        return no_measure(file);
    };
    let found = buffering::least(file, kind, part, whole);
    *size = [found.size];
    found.refusal as u64
}
