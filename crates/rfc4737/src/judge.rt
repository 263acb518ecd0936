// Checks K and the arrivals. Files, text logs and lists share these functions.
ghost use Rattle.std.specs.Prelude.{◌≡◌, length};
ghost use Rattle.rfc4737.specs.Refusals.{outside};
ghost use Rattle.rfc4737.specs.Refused.{refusal_in};
ghost use Rattle.rfc4737.specs.Times.{next_reference};
ghost use Rattle.rfc4737.specs.Judge.{arrivals_from, judge_one, judge, refusal_of_lists};

use crate::refusal::Refusal;
use crate::time::{next_reference, too_early};

// The greatest number of sent packets.
pub const SENT_MOST: u64 = 4096;

// The greatest number of arrivals.
pub const ARRIVALS_MOST: u64 = 4096;

// Whether `n` lies outside `low` to `high`.
#[tactic(auto, unfolding(crate::specs::Refusals::outside))]
pub fn outside(low: u64, high: u64, n: u64) -> bool
    ensures { result ≡ outside low high n }
{
    n < low || high < n
}

// Judges one arrival: 6 comes before 7.
#[tactic(auto, using(crate::proofs::Judged::judge_one_by_tests))]
pub fn judge_one(k: u64, reference: u64, number: u64, time: u64) -> Result<(), Refusal>
    ensures { refusal_in result ≡ judge_one k reference (record { number = number; time = time }) }
{
    if outside(1, k, number) {
        return Err(Refusal::NumberOutside);
    }
    if too_early(reference, time) {
        return Err(Refusal::TimeBack);
    }
    Ok(())
}

// The judgement of one arrival: its refusal, and the reference for the time of the next arrival, also where it is refused.
#[derive(Clone, Copy)]
pub struct Judged {
    pub refusal: Result<(), Refusal>,
    pub reference: u64,
}

// Judges the next of several arrivals. Most arrivals have a number in 1 to K and a time that does not go back, and take two tests; all
// others go to `judge_one`.
#[tactic(auto, using(crate::proofs::Judged::judge_one_by_tests), unfolding(crate::specs::Times::too_early, crate::specs::Times::next_reference))]
pub fn judge_next(k: u64, reference: u64, number: u64, time: u64) -> Judged
    ensures refusal { refusal_in result.refusal ≡ judge_one k reference (record { number = number; time = time }) }
    ensures next { result.reference ≡ next_reference reference time }
{
    if reference <= time && !outside(1, k, number) {
        return Judged {
            refusal: Ok(()),
            reference: time,
        };
    }
    Judged {
        refusal: judge_one(k, reference, number, time),
        reference: next_reference(reference, time),
    }
}

// Judges the arrivals of two lists in turn.
fn judge_lists(k: u64, numbers: &[u32], times: &[u64]) -> Result<(), Refusal>
    requires { length times.now ≡ length numbers.now }
    ensures { refusal_in result ≡ judge k 0 (arrivals_from numbers.now times.now) }
{
    let mut reference = 0;
    for (number, time) in numbers.iter().zip(times) {
        let judged = judge_next(k, reference, *number as u64, *time);
        judged.refusal?;
        reference = judged.reference;
    }
    Ok(())
}

// Judges K and the lists: the first refusal that applies, as `refusal_of_lists` of specs/Judge says.
#[tactic(auto, unfolding(crate::specs::Judge::refusal_of_lists))]
pub fn check_lists(k: u64, numbers: &[u32], times: &[u64]) -> Result<(), Refusal>
    ensures { refusal_in result ≡ refusal_of_lists k numbers.now times.now }
{
    if outside(1, SENT_MOST, k) {
        return Err(Refusal::SentOutside);
    }
    if outside(0, ARRIVALS_MOST, numbers.len() as u64) {
        return Err(Refusal::ManyArrivals);
    }
    if numbers.len() != times.len() {
        return Err(Refusal::ListsDiffer);
    }
    judge_lists(k, numbers, times)
}
