// Ratios of counts: both made f64 and divided once, undefined over 0.
ghost use Rattle.std.specs.Prelude.{◌≡◌};
ghost use Rattle.rfc4737.specs.Ratios.{quotient};
ghost use Rattle.metrics.specs.Private.Steps.{ratio_by, ratios_by};

use rfc4737::{Ratio, RatioFigures, Ratios};

// A count over another.
fn quotient(part: u32, whole: u32) -> f64
    ensures { result ≡ quotient part whole }
{
    part as f64 / whole as f64
}

// The ratio of two counts.
pub(crate) fn ratio_of(part: u32, whole: u32) -> Ratio
    ensures { result ≡ ratio_by part whole }
{
    if whole == 0 {
        return Ratio::Undefined;
    }
    Ratio::Known(quotient(part, whole))
}

// The ratio figures: three counts over L.
pub(crate) fn ratios_of(reordered: u32, degree1: u32, degree3: u32, whole: u32) -> Ratios
    ensures { result ≡ ratios_by reordered degree1 degree3 whole }
{
    if whole == 0 {
        return Ratios::Undefined;
    }
    Ratios::Known(RatioFigures {
        reordered: quotient(reordered, whole),
        degree1: quotient(degree1, whole),
        degree3: quotient(degree3, whole),
    })
}
