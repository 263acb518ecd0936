// Checks a listing against a sample, for C.

ghost use Rattle.std.specs.Prelude.{◌≡◌};
ghost use Rattle.checker.specs.Verdict.{sample_verdict};
ghost use Rattle.sample.specs.Decode.{decode};
ghost use Rattle.capi.specs.Checker.{verdict_figures};

use checker::{Verdict, check};

// Returns the figures of a verdict: 1 if the listing agrees, else 0; and the number of its first wrong line, 0 if it agrees. A
// function, and no From, as in figures.rt: the verdict and the array are both types of other crates.
fn verdict_figures(verdict: Verdict) -> [u64; 2]
    ensures { result ≡ verdict_figures verdict }
{
    match verdict {
        Verdict::Agrees => [1, 0],
        Verdict::WrongLine(line) => [0, line as u64],
    }
}

// Checks `report`, a supplier's listing, against a sample.
#[unsafe(no_mangle)]
pub extern "C" fn krakobran_report_check(file: &[u8], report: &[u8], verdict: &mut [u64; 2]) -> u64
    ensures { (result ≡ (sample_verdict (decode file.now) report.now).refusal)
        × (verdict.new ≡ verdict_figures (sample_verdict (decode file.now) report.now).verdict) }
{
    let found = check(file, report);
    *verdict = verdict_figures(found.verdict);
    found.refusal as u64
}
