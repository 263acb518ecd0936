// Refusals: of records and K, and of times to be written.
ghost use Rattle.std.specs.Prelude.{◌≡◌, IfOk, length};
ghost use Rattle.rfc4737.specs.Refusals.{refusal_if, number_outside};
ghost use Rattle.rfc4737.specs.Refused.{refusal_in};
ghost use Rattle.sample.specs.Decode.{decode, layout_of};
ghost use Rattle.owamp.specs.Record.{records_arrivals};
ghost use Rattle.owamp.specs.Judge.{judge_numbers, records_refusal, judge_time, judge_seconds};
ghost use Rattle.owamp.specs.Calls.{arrivals_of_file};

use crate::clock::seconds_of;
use crate::records::{WIDTH, number_of, time_of};
use rfc4737::judge::{ARRIVALS_MOST, SENT_MOST, outside};
use rfc4737::refusal::Refusal;
use rfc4737::time::next_reference;
use sample::Layout;

// The result of a pass over records: the number of arrivals, and whether the number of one is outside 1 to K.
#[derive(Clone, Copy)]
struct Judged {
    arrivals: usize,
    number_outside: bool,
}

// Counts the arrivals among records and judges their numbers. Skips lost records. One pass does both: the number of arrivals is judged
// before their numbers, and counting them first would read each record twice.
fn judge_arrivals(records: &[u8], k: u64) -> Judged
    ensures { (result.arrivals ≡ length (records_arrivals records.now))
        × (refusal_if result.number_outside number_outside ≡ judge_numbers k (records_arrivals records.now)) }
{
    let mut arrivals = 0;
    let mut number_outside = false;
    for i in 0..records.len() / WIDTH {
        if time_of(records, i) != 0 {
            arrivals += 1;
            number_outside |= outside(1, k, number_of(records, i));
        }
    }
    Judged {
        arrivals,
        number_outside,
    }
}

// Returns the number of arrivals, or the first refusal that applies to K and records: 15, 4, 5, 6.
pub(crate) fn check_records(records: &[u8], k: u32) -> Result<usize, Refusal>
    ensures refusal { refusal_in result ≡ records_refusal k records.now }
    ensures arrivals { IfOk result (λ n. n ≡ length (records_arrivals records.now)) }
{
    let judged = judge_arrivals(records, k as u64);
    if records.len() % WIDTH != 0 {
        return Err(Refusal::RecordCut);
    }
    if outside(1, SENT_MOST, k as u64) {
        return Err(Refusal::SentOutside);
    }
    if outside(0, ARRIVALS_MOST, judged.arrivals as u64) {
        return Err(Refusal::ManyArrivals);
    }
    if judged.number_outside {
        return Err(Refusal::NumberOutside);
    }
    Ok(judged.arrivals)
}

// Judges a time to be written: 18 if its seconds do not fit in 32 bits.
fn judge_time(time: u64) -> Result<(), Refusal>
    ensures { refusal_in result ≡ judge_time time }
{
    if u32::try_from(seconds_of(time)).is_err() {
        return Err(Refusal::SecondsOver);
    }
    Ok(())
}

// Judges the times of an accepted file. Judges only the greatest time: some time is refused exactly if that one is.
pub(crate) fn judge_seconds(file: &[u8], layout: Layout) -> Result<(), Refusal>
    requires { (layout ≡ layout_of (decode file.now)) × (layout.refusal ≡ 0) }
    ensures { refusal_in result ≡ judge_seconds (arrivals_of_file file.now) }
{
    let mut greatest: u64 = 0;
    for i in 0..layout.arrivals {
        greatest = next_reference(greatest, sample::arrival(file, layout, i).time);
    }
    judge_time(greatest)
}
