// The figures of a whole sample, each in one pass over the arrivals.
ghost use Rattle.std.specs.Prelude.{◌≡◌, false, List, [], ◌∷◌, ◌++◌, ℕ, ◌+◌, ◌≤◌, ◌<◌, length, get_or};
ghost use Rattle.rfc4737.specs.declared.Arrival.{Arrival};
ghost use Rattle.rfc4737.specs.declared.Answer.{Answer};
ghost use Rattle.rfc4737.specs.Order.{next_after};
ghost use Rattle.rfc4737.specs.Runs.{counts};
ghost use Rattle.rfc4737.specs.Tally.{tally_place, tally_after, tally, tally_places};
ghost use Rattle.rfc4737.specs.Judge.{sent_most, arrivals_most};
ghost use Rattle.listing.specs.DigitBounds.{CountsWithin};
ghost use Rattle.sample.specs.Decode.{decode};
ghost use Rattle.metrics.specs.Sample.{size_of, sample_arrivals, answers_of};
ghost use Rattle.metrics.specs.Records.{number_places};
ghost use Rattle.metrics.specs.Private.Tables.{Links, ClassOf, IfLate};
ghost use Rattle.metrics.specs.Private.Steps.{kind_by, reached_by, shares_of, ShareTables};

pub(crate) mod answers;
pub(crate) mod gaps;
pub(crate) mod needs;
pub(crate) mod quotients;
pub(crate) mod rows;

use crate::engine::input::CheckedFile;
use crate::engine::kind::Class;
use crate::engine::largest_n::largest_by_links;
use crate::engine::seen::{MAX_FIRST_ARRIVALS, PACKET_TABLE_LEN, Seen, State};
use crate::{TALLY_MOST, TALLY_PLACES};
use rfc4737::{Counts, Runs};

// The counts of no arrivals. They are a struct of C, for which rfc4737 derives no `Default`.
pub(crate) fn no_counts() -> Counts
    ensures { result ≡ counts [] }
{
    Counts {
        arrived: 0,
        reordered: 0,
        duplicates: 0,
        inorder: 0,
        runs: Runs {
            closed: 0,
            squares: 0,
            current: 0,
        },
    }
}

// The counts after the next arrival: an in-order packet lengthens the open run, and a reordered one closes it.
pub(crate) fn counts_after(c: Counts, class: Class) -> Counts
    requires { CountsWithin c }
    ensures { (l : List Answer) (n : ℕ) (a : Answer) → c ≡ counts l → ClassOf n class a → result ≡ counts (l ++ (a ∷ [])) }
{
    let runs = c.runs;
    match class {
        Class::Duplicate(_) => Counts {
            duplicates: c.duplicates + 1,
            ..c
        },
        Class::InOrder(_) => Counts {
            arrived: c.arrived + 1,
            inorder: c.inorder + 1,
            runs: Runs {
                current: runs.current + 1,
                ..runs
            },
            ..c
        },
        Class::Reordered(_) => Counts {
            arrived: c.arrived + 1,
            reordered: c.reordered + 1,
            runs: Runs {
                closed: runs.closed + 1,
                squares: runs.squares + runs.current * runs.current,
                current: 0,
            },
            ..c
        },
    }
}

// The class of an arrival of packet `number`, with 0 in place of its figure, by the packets seen and NextExp. A packet that has arrived
// is below NextExp, so only numbers below NextExp are looked up.
fn kind_of(seen: &[bool; PACKET_TABLE_LEN], next: u32, number: u32) -> Class
    requires { (number ≤ sent_most) × (next ≤ number → get_or seen.now number false ≡ false) }
    ensures { result ≡ kind_by seen.now next number }
{
    if next <= number {
        return Class::InOrder(0);
    }
    let at = number as usize;
    if seen[at] {
        return Class::Duplicate(0);
    }
    Class::Reordered(0)
}

// NextExp after an arrival of packet `number`; a duplicate is below NextExp and leaves it.
fn next_after(next: u32, number: u32) -> u32
    requires { number ≤ sent_most }
    ensures { result ≡ next_after next number }
{
    if next <= number {
        return number + 1;
    }
    next
}

// The counts of a sample.
pub(crate) fn counts_of(file: &CheckedFile) -> Counts
    ensures { result ≡ counts (answers_of (decode file.now.file.now)) }
{
    let mut seen = [false; PACKET_TABLE_LEN];
    let mut next: u32 = 1;
    let mut c = no_counts();
    for i in 0..file.layout.arrivals {
        let number = file.number_of(i);
        let class = kind_of(&seen, next, number);
        c = counts_after(c, class);
        seen[number as usize] = true;
        next = next_after(next, number);
    }
    c
}

// The index of an extent in the tally.
fn tally_place(extent: u32) -> usize
    ensures { result ≡ tally_place extent }
{
    if extent <= TALLY_MOST {
        return extent as usize;
    }
    0
}

// Tallies the next arrival, after `count` first arrivals.
fn tally_after(tally: &mut [u32; TALLY_PLACES], count: u32, class: Class)
    requires { (length tally.old ≡ tally_places) × ((k : ℕ) → get_or tally.old k 0 ≤ arrivals_most) × (count ≤ sent_most)
        × IfLate (λ (at : ℕ). (1 ≤ at) × (at ≤ count)) class }
    ensures { (a : Answer) → ClassOf count class a → tally.new ≡ tally_after tally.old a }
{
    let Class::Reordered(at) = class else {
        return;
    };
    let place = tally_place(count + 1 - at);
    tally[place] += 1;
}

// The extent tally of a sample.
pub(crate) fn tally_of(file: &CheckedFile) -> [u32; TALLY_PLACES]
    ensures { result ≡ tally (answers_of (decode file.now.file.now)) }
{
    let mut seen = Seen::new();
    let mut state = State::START;
    let mut tally = [0u32; TALLY_PLACES];
    for i in 0..file.layout.arrivals {
        let number = file.number_of(i);
        let class = seen.class_of(state.next, number);
        tally_after(&mut tally, state.count, class);
        state = seen.note(i, number, 0, state);
    }
    tally
}

// Of the arrivals so far: how many are first arrivals, reordered, n-reordered for a low n, and n-reordered for a high n; and NextExp.
#[derive(Clone, Copy)]
pub(crate) struct Shares {
    pub whole: u32,
    pub reordered: u32,
    pub low: u32,
    pub high: u32,
    pub next: u32,
}

// `part` n-reordered packets, after another reordered one, whose largest n is `most`.
fn n_reordered_after(n: u32, most: u32, part: u32) -> u32
    requires { part < arrivals_most }
    ensures { result ≡ reached_by n most part }
{
    if n <= most {
        return part + 1;
    }
    part
}

// The shares after an arrival of packet `number`. A copy leaves them and the tables; any other packet is linked by 1 more than its
// largest n, which is 0 if it is in order.
fn shares_after(
    numbers: &mut [u16; MAX_FIRST_ARRIVALS],
    links: &mut [u16; PACKET_TABLE_LEN],
    low: u32,
    high: u32,
    number: u32,
    shares: Shares,
) -> Shares
    requires { (number ≤ sent_most) × (shares.whole < sent_most) × (shares.reordered < arrivals_most) × (shares.low < arrivals_most)
        × (shares.high < arrivals_most)
        × (length numbers.old ≡ sent_most) × (length links.old ≡ number_places) × Links 0 numbers.old links.old shares.whole }
    ensures { (size : ℕ → ℕ) (l : List Arrival) (a : Arrival) → a.number ≡ number
        → ShareTables low high size l numbers.old links.old shares
        → ShareTables low high size (l ++ (a ∷ [])) numbers.new links.new result }
{
    let packet = number as usize;
    if links[packet] != 0 {
        return shares;
    }
    let place = shares.whole as usize;
    if shares.next <= number {
        links[packet] = 1;
        numbers[place] = number as u16;
        return Shares {
            whole: shares.whole + 1,
            next: number + 1,
            ..shares
        };
    }
    let largest = largest_by_links(numbers, links, 0, shares.whole, number);
    links[packet] = (largest + 1) as u16;
    numbers[place] = number as u16;
    Shares {
        whole: shares.whole + 1,
        reordered: shares.reordered + 1,
        low: n_reordered_after(low, largest, shares.low),
        high: n_reordered_after(high, largest, shares.high),
        ..shares
    }
}

// The shares of a sample, in one pass with two tables: the numbers of the first arrivals in order of position; and, by packet number, 1
// more than its largest n, or 0 if it has not arrived.
pub(crate) fn shares_of(file: &CheckedFile, low: u32, high: u32) -> Shares
    ensures { result ≡ shares_of low high (size_of (decode file.now.file.now)) (sample_arrivals (decode file.now.file.now)) }
{
    let mut numbers = [0u16; MAX_FIRST_ARRIVALS];
    let mut links = [0u16; PACKET_TABLE_LEN];
    let mut shares = Shares {
        whole: 0,
        reordered: 0,
        low: 0,
        high: 0,
        next: 1,
    };
    for i in 0..file.layout.arrivals {
        let number = file.number_of(i);
        shares = shares_after(&mut numbers, &mut links, low, high, number, shares);
    }
    shares
}
