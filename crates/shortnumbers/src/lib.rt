// Short sequence numbers of 8 and of 10 bits: their full numbers, by the idea of RFC 4737, section 6. Every public call is total.
#![tactic(auto)]

ghost use Rattle.std.specs.Prelude.{◌≡◌, ◌+◌, ◌-◌, ◌≤◌, max, length};
ghost use Rattle.octets.specs.Memory.{over};
ghost use Rattle.rfc4737.specs.Judge.{sent_most, arrivals_most, arrivals_from, judge, refusal_of_lists};
ghost use Rattle.rfc4737.specs.Refused.{refusal_in};
ghost use Rattle.shortnumbers.specs.Number.{range_of, number_found};
ghost use Rattle.shortnumbers.specs.Lists.{numbers_found, FilledTo, EveryList};
ghost use Rattle.shortnumbers.specs.Steps.{short_step, AsShortStep, EveryStep};
ghost use Rattle.shortnumbers.specs.Cases.{FoundAsGiven};
ghost use Rattle.shortnumbers.specs.Private.{Narrow};

pub mod number;

use receiver::{Outcome, Receiver, StepAnswer};
use rfc4737::judge::{ARRIVALS_MOST, SENT_MOST, judge_next, outside};
use rfc4737::refusal::{Refusal, number_in};

// The range of 8 bits.
const RANGE_8: u32 = 256;

// The range of 10 bits.
const RANGE_10: u32 = 1024;

// Finds full numbers in turn, each from the greatest of those before it, 0 at first.
#[derive(Clone, Copy)]
struct Finder {
    range: u32,
    greatest: u32,
}

impl Finder {
    // Returns the full number of the next short one; 0 if there is none. No `Option`: the definition has 0 there, which the judge refuses.
    fn find(&mut self, short: u16) -> u32
        requires { Narrow self.old.range × (self.old.greatest ≤ 2147483648) }
        ensures number { result ≡ number_found self.old.range self.old.greatest short }
        ensures near { result ≤ self.old.greatest + 512 }
        ensures greatest { self.new ≡ record { range = self.old.range; greatest = max self.old.greatest result } }
    {
        let number = full_number(self.range, self.greatest, short);
        self.greatest = self.greatest.max(number);
        number
    }
}

// Returns the full number of `short`, found from `greatest`; 0 if there is none.
fn full_number(range: u32, greatest: u32, short: u16) -> u32
    requires { Narrow range × (greatest ≤ 2147483648) }
    ensures number { result ≡ number_found range greatest short }
    ensures near { result ≤ greatest + 512 }
{
    let x = short as u32;
    if range <= x {
        return 0;
    }
    let half = range / 2;
    let up = greatest + (x + (half + (range - greatest % range))) % range;
    up.saturating_sub(half)
}

// Judges the arrivals with the numbers found, in turn.
fn judge_found(range: u32, k: u64, shorts: &[u16], times: &[u64]) -> Result<(), Refusal>
    requires { Narrow range × (length shorts.now ≤ arrivals_most) × (length times.now ≡ length shorts.now) }
    ensures { refusal_in result ≡ judge k 0 (arrivals_from (numbers_found range shorts.now) times.now) }
{
    let mut finder = Finder { range, greatest: 0 };
    let mut reference = 0;
    for (i, short) in shorts.iter().enumerate() {
        let number = finder.find(*short);
        let judged = judge_next(k, reference, number as u64, times[i]);
        judged.refusal?;
        reference = judged.reference;
    }
    Ok(())
}

// Judges K and the lists with the numbers found: the first refusal that applies.
fn check_found(range: u32, k: u64, shorts: &[u16], times: &[u64]) -> Result<(), Refusal>
    requires { Narrow range }
    ensures { refusal_in result ≡ refusal_of_lists k (numbers_found range shorts.now) times.now }
{
    if outside(1, SENT_MOST, k) {
        return Err(Refusal::SentOutside);
    }
    if outside(0, ARRIVALS_MOST, shorts.len() as u64) {
        return Err(Refusal::ManyArrivals);
    }
    if shorts.len() != times.len() {
        return Err(Refusal::ListsDiffer);
    }
    judge_found(range, k, shorts, times)
}

// Fills a list with the numbers found.
fn fill_numbers(range: u32, shorts: &[u16], numbers: &mut [u32])
    requires { Narrow range × (length shorts.now ≤ arrivals_most) × (length shorts.now ≤ length numbers.old) }
    ensures { numbers.new ≡ over (numbers_found range shorts.now) numbers.old }
{
    let mut finder = Finder { range, greatest: 0 };
    for (i, short) in shorts.iter().enumerate() {
        numbers[i] = finder.find(*short);
    }
}

// The list call over a range: judges all arrivals, then fills in the numbers.
fn full_numbers(
    range: u32,
    k: u32,
    shorts: &[u16],
    times: &[u64],
    numbers: &mut [u32],
) -> Result<(), Refusal>
    requires { Narrow range }
    ensures { FilledTo range k shorts.now times.now numbers.old (refusal_in result) numbers.new }
{
    check_found(range, k as u64, shorts, times)?;
    if numbers.len() < shorts.len() {
        return Err(Refusal::OutputShort);
    }
    fill_numbers(range, shorts, numbers);
    Ok(())
}

// Writes the full numbers of short ones of 8 bits, of K sent packets, to the start of the caller's list. A refused call leaves it as it
// was. Returns the refusal, 0 for none, as C receives it.
pub fn full_numbers_8(k: u32, shorts: &[u16], times: &[u64], numbers: &mut [u32]) -> u32
    ensures filled_to { FilledTo (range_of 8) k shorts.now times.now numbers.old result numbers.new }
    ensures everywidth { EveryList }
    ensures cases { FoundAsGiven }
{
    number_in(full_numbers(RANGE_8, k, shorts, times, numbers))
}

// The same for 10 bits.
pub fn full_numbers_10(k: u32, shorts: &[u16], times: &[u64], numbers: &mut [u32]) -> u32
    ensures filled_to { FilledTo (range_of 10) k shorts.now times.now numbers.old result numbers.new }
    ensures everywidth { EveryList }
    ensures cases { FoundAsGiven }
{
    number_in(full_numbers(RANGE_10, k, shorts, times, numbers))
}

// Returns the greatest number accepted: NextExp less 1; 0 for a NextExp that no fit state has.
fn greatest_by(next: u32) -> u32
    ensures { (result ≤ sent_most) × (next ≤ sent_most + 1 → result ≡ next - 1) }
{
    if next == 0 || Receiver::PACKETS < next - 1 {
        return 0;
    }
    next - 1
}

// Steps the borrowed receiver in place with a short number, over a range; returns the outcome.
fn short_step(range: u32, r: &mut Receiver, short: u16, time: u64) -> Outcome
    requires { Narrow range }
    ensures { AsShortStep range r.old short time result r.new }
{
    let number = full_number(range, greatest_by(r.stream.next), short);
    receiver::step_in_place(r, number, time)
}

// Steps a receiver with a short number of 8 bits.
pub fn step_8(mut state: Receiver, short: u16, time: u64) -> StepAnswer
    ensures value { result ≡ short_step (range_of 8) state short time }
    ensures everywidth { EveryStep }
{
    let outcome = short_step(RANGE_8, &mut state, short, time);
    StepAnswer { outcome, state }
}

// Steps a receiver with a short number of 10 bits.
pub fn step_10(mut state: Receiver, short: u16, time: u64) -> StepAnswer
    ensures value { result ≡ short_step (range_of 10) state short time }
    ensures everywidth { EveryStep }
{
    let outcome = short_step(RANGE_10, &mut state, short, time);
    StepAnswer { outcome, state }
}

// Steps the borrowed receiver in place with a short number of 8 bits; returns the outcome of `step_8`.
pub fn step_8_in_place(r: &mut Receiver, short: u16, time: u64) -> Outcome
    ensures { AsShortStep (range_of 8) r.old short time result r.new }
{
    short_step(RANGE_8, r, short, time)
}

// Steps the borrowed receiver in place with a short number of 10 bits; returns the outcome of `step_10`.
pub fn step_10_in_place(r: &mut Receiver, short: u16, time: u64) -> Outcome
    ensures { AsShortStep (range_of 10) r.old short time result r.new }
{
    short_step(RANGE_10, r, short, time)
}
