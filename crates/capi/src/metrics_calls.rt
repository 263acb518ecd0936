// The figures and the report of a sample for C.

ghost use Rattle.std.specs.Prelude.{◌≡◌, [], ◌∷◌, length};
ghost use Rattle.octets.specs.Memory.{over};
ghost use Rattle.sample.specs.Decode.{decode, decoded_refusal};
ghost use Rattle.metrics.specs.Sample.{answers_of};
ghost use Rattle.metrics.specs.Figures.{record_answer, record_gap, sample_counts, sample_tally, degree_counts, sample_degree, sample_ratios};
ghost use Rattle.metrics.specs.Rows.{row_of, rows_of, rows_into, rows_from};
ghost use Rattle.metrics.specs.Gaps.{gaps_into, gap_numbers};
ghost use Rattle.metrics.specs.Report.{ListedTo};
ghost use Rattle.capi.specs.Sample.{write_told};
ghost use Rattle.capi.specs.Figures.{count_figures, gap_figures, degree_figures, ratios_figures};

use crate::figures::{count_figures, degree_figures, gap_figures, ratios_figures};
use crate::outcomes::write_told;
use metrics::TALLY_PLACES;

// Finds the answer for a record, as its row.
#[unsafe(no_mangle)]
pub extern "C" fn krakobran_answer(file: &[u8], asked: u32, row: &mut [u64; 8]) -> u64
    ensures { (result ≡ (record_answer (decode file.now) asked).refusal)
        × (row.new ≡ row_of (record_answer (decode file.now) asked).answer) }
{
    let found = metrics::answer(file, asked);
    *row = metrics::row_of(found.answer);
    found.refusal as u64
}

// Fills a list with the rows of all records.
#[unsafe(no_mangle)]
pub extern "C" fn krakobran_rows(file: &[u8], rows: &mut [u64]) -> u64
    ensures { (result ≡ decoded_refusal (rows_into (decode file.now) (length rows.old)))
        × (rows.new ≡ over (rows_of (answers_of (rows_into (decode file.now) (length rows.old))))
        rows.old) }
{
    let layout = metrics::record_rows(file, rows);
    layout.refusal as u64
}

// Fills a list with the rows of the records after the first `from`, as many as it has room for.
#[unsafe(no_mangle)]
pub extern "C" fn krakobran_rows_from(file: &[u8], from: u32, rows: &mut [u64]) -> u64
    ensures { (result ≡ decoded_refusal (decode file.now))
        × (rows.new ≡ over (rows_from (decode file.now) from (length rows.old)) rows.old) }
{
    let layout = metrics::rows_from(file, from, rows);
    layout.refusal as u64
}

// Fills a list with the gaps of all records, 0 for a record without a gap.
#[unsafe(no_mangle)]
pub extern "C" fn krakobran_gaps(file: &[u8], gaps: &mut [u32]) -> u64
    ensures { (result ≡ decoded_refusal (gaps_into (decode file.now) (length gaps.old)))
        × (gaps.new ≡ over (gap_numbers (answers_of (gaps_into (decode file.now) (length gaps.old))))
        gaps.old) }
{
    let layout = metrics::record_gaps(file, gaps);
    layout.refusal as u64
}

// Finds the counts of a sample.
#[unsafe(no_mangle)]
pub extern "C" fn krakobran_counts(file: &[u8], counts: &mut [u64; 7]) -> u64
    ensures { (result ≡ (sample_counts (decode file.now)).refusal)
        × (counts.new ≡ count_figures (sample_counts (decode file.now)).counts) }
{
    let found = metrics::counts(file);
    *counts = count_figures(found.counts);
    found.refusal as u64
}

// Finds the extent tally of a sample.
#[unsafe(no_mangle)]
pub extern "C" fn krakobran_tally(file: &[u8], tally: &mut [u32; TALLY_PLACES]) -> u64
    ensures { (result ≡ (sample_tally (decode file.now)).refusal)
        × (tally.new ≡ (sample_tally (decode file.now)).tally) }
{
    let found = metrics::tally(file);
    let places = found.tally;
    *tally = places;
    found.refusal as u64
}

// Finds the gap of a record.
#[unsafe(no_mangle)]
pub extern "C" fn krakobran_gap(file: &[u8], asked: u32, gap: &mut [u64; 2]) -> u64
    ensures { (result ≡ (record_gap (decode file.now) asked).refusal)
        × (gap.new ≡ gap_figures (record_gap (decode file.now) asked).gap) }
{
    let found = metrics::gap(file, asked);
    *gap = gap_figures(found.gap);
    found.refusal as u64
}

// Counts the n-reordered packets and the first arrivals (L), whose quotient is the degree of n-reordering.
#[unsafe(no_mangle)]
pub extern "C" fn krakobran_n_reordered(file: &[u8], n: u32, counts: &mut [u64; 2]) -> u64
    ensures { (result ≡ (degree_counts (decode file.now) n).refusal)
        × (counts.new ≡ (degree_counts (decode file.now) n).reordered
        ∷ (degree_counts (decode file.now) n).arrived ∷ []) }
{
    let found = metrics::n_reordered(file, n);
    *counts = [found.reordered as u64, found.arrived as u64];
    found.refusal as u64
}

// Finds the degree of n-reordering.
#[unsafe(no_mangle)]
pub extern "C" fn krakobran_degree(file: &[u8], n: u32, degree: &mut [u64; 2]) -> u64
    ensures { (result ≡ (sample_degree (decode file.now) n).refusal)
        × (degree.new ≡ degree_figures (sample_degree (decode file.now) n).ratio) }
{
    let found = metrics::degree(file, n);
    *degree = degree_figures(found.ratio);
    found.refusal as u64
}

// Finds the ratios of a sample.
#[unsafe(no_mangle)]
pub extern "C" fn krakobran_ratios(file: &[u8], ratios: &mut [u64; 4]) -> u64
    ensures { (result ≡ (sample_ratios (decode file.now)).refusal)
        × (ratios.new ≡ ratios_figures (sample_ratios (decode file.now)).ratios) }
{
    let found = metrics::ratios(file);
    *ratios = ratios_figures(found.ratios);
    found.refusal as u64
}

// Writes the report of a sample.
#[unsafe(no_mangle)]
pub extern "C" fn krakobran_report_write(file: &[u8], out: &mut [u8], length: &mut [u64; 1]) -> u64
    ensures { ListedTo (decode file.now) out.old (write_told result length.new) out.new }
{
    write_told(metrics::listing(file, out), length)
}
