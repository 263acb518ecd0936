// The figures of a sample as arrays of u64. An enum becomes the number of its case (or 1 if its value is known, else 0) and the figures
// of all cases. An f64 becomes its bits. These are functions, and no From: the structs and the arrays are both types of other crates, and
// Rust keeps an impl between those to their crates. For C the arrays stay arrays, and the cases numbers.

ghost use Rattle.std.specs.Prelude.{◌≡◌};
ghost use Rattle.std.specs.Float.{binary64};
ghost use Rattle.std.specs.Float.Ieee.{to_bits};
ghost use Rattle.capi.specs.Figures.{count_figures, gap_figures, degree_figures, ratios_figures};

use rfc4737::{Counts, Ratio, Ratios};

// Returns the counts of a sample: first arrivals (L), reordered packets, duplicates, in-order packets, closed runs, the sum of the
// squares of their lengths, and the length of the open run.
pub fn count_figures(counts: Counts) -> [u64; 7]
    ensures { result ≡ count_figures counts }
{
    let runs = counts.runs;
    [
        counts.arrived as u64,
        counts.reordered as u64,
        counts.duplicates as u64,
        counts.inorder as u64,
        runs.closed as u64,
        runs.squares as u64,
        runs.current as u64,
    ]
}

// Returns 1 and the gap of a record in positions, or 0 and 0 if it has none.
pub fn gap_figures(gap: Option<u32>) -> [u64; 2]
    ensures { result ≡ gap_figures gap }
{
    match gap {
        None => [0, 0],
        Some(positions) => [1, positions as u64],
    }
}

// Returns the bits of an f64. Every NaN gives the same bits, but no ratio is NaN.
fn bits_of(x: f64) -> u64
    ensures { result ≡ to_bits binary64 x }
{
    if x.is_nan() {
        return 0x7ff8_0000_0000_0000;
    }
    x.to_bits()
}

// Returns 1 and the bits of a degree of n-reordering, or 0 and 0 if it is undefined.
pub fn degree_figures(ratio: Ratio) -> [u64; 2]
    ensures { result ≡ degree_figures ratio }
{
    match ratio {
        Ratio::Undefined => [0, 0],
        Ratio::Known(x) => [1, bits_of(x)],
    }
}

// Returns 1 and the bits of the ratios of a sample: the reordered ratio and the degrees for n = 1 and n = 3. If they are undefined, returns
// zeros.
pub fn ratios_figures(ratios: Ratios) -> [u64; 4]
    ensures { result ≡ ratios_figures ratios }
{
    match ratios {
        Ratios::Undefined => [0, 0, 0, 0],
        Ratios::Known(f) => [
            1,
            bits_of(f.reordered),
            bits_of(f.degree1),
            bits_of(f.degree3),
        ],
    }
}
