// What a receiver that restores order needs in one measure: the greatest need of any first arrival; and for each of STEPS buffer sizes,
// `low + k * 2^shift` with k from 0 on, how many first arrivals it accommodates. One pass with the tables of the records; only byte
// offsets take a tree of sums, and no need takes a largest n.
ghost use Rattle.std.specs.Prelude.{◌≡◌, List, [], ◌∷◌, ◌++◌, ℕ, suc, ◌+◌, ◌*◌, ◌^◌, ◌≤◌, ◌<◌, leb, length, get_or, replicate};
ghost use Rattle.rfc4737.specs.Arrivals.{firsts};
ghost use Rattle.rfc4737.specs.declared.Answer.{Answer};
ghost use Rattle.rfc4737.specs.declared.Measure.{Measure};
ghost use Rattle.metrics.specs.declared.engine.kind.Class.{Class};
ghost use Rattle.rfc4737.specs.Judge.{arrivals_most};
ghost use Rattle.sample.specs.Decode.{decode};
ghost use Rattle.metrics.specs.Sample.{size_of, answers_of};
ghost use Rattle.rfc4737.specs.Needs.{waiting_time, needed_for, greatest_need};
ghost use Rattle.metrics.specs.Figures.{step_count};
ghost use Rattle.metrics.specs.Records.{before, answer_at};
ghost use Rattle.metrics.specs.Private.Tables.{ClassOf};
ghost use Rattle.metrics.specs.Private.Engine.{SizeTree};
ghost use Rattle.metrics.specs.Private.Needs.{NeedInput, count_to, Counted, needs_with, NeedsOf};

use crate::STEPS;
use crate::engine::byte_offset::PairTree;
use crate::engine::input::CheckedFile;
use crate::engine::kind::Class;
use crate::engine::seen::{State, Tables};
use rfc4737::{Arrival, LateTime, Measure};

// The buffer sizes of a pass.
#[derive(Clone, Copy)]
pub(crate) struct Sizes {
    pub low: u64,
    pub shift: u32,
}

// Of the arrivals so far: how many are first arrivals, and the greatest need of any.
#[derive(Clone, Copy)]
pub(crate) struct Needs {
    pub arrived: u32,
    pub greatest: u64,
}

// How long a receiver waits for a packet of this late time.
fn waiting_time(late: LateTime) -> u64
    ensures { result ≡ waiting_time late }
{
    match late {
        LateTime::After(amount) => amount,
        LateTime::Before(_) => 0,
    }
}

// The need of record i + 1, a reordered packet with its discontinuity at position `at`.
fn late_need(
    file: &CheckedFile,
    measure: Measure,
    i: u32,
    arrival: Arrival,
    tables: &Tables,
    tree: &mut PairTree,
    count: u32,
    at: u32,
) -> u64
    requires { NeedInput (decode file.now.file.now) file.now.layout i arrival tables.now tree.old count (Class.Reordered at) }
    ensures { (result ≡ needed_for measure (answer_at (decode file.now.file.now) i))
        × SizeTree (size_of (decode file.now.file.now)) (firsts (before (decode file.now.file.now) i)) tree.new }
{
    match measure {
        Measure::Packets => (count + 1 - at) as u64,
        Measure::Octets => tree.offset(file, &tables.numbers, count, arrival.number) as u64,
        Measure::Time => waiting_time(tables.late_time(file, i, arrival.time, count, at)),
    }
}

// The need of record i + 1, of this class; 0 if it is not reordered.
fn need_of(
    file: &CheckedFile,
    measure: Measure,
    i: u32,
    arrival: Arrival,
    tables: &Tables,
    tree: &mut PairTree,
    count: u32,
    class: Class,
) -> u64
    requires { NeedInput (decode file.now.file.now) file.now.layout i arrival tables.now tree.old count class }
    ensures { (result ≡ needed_for measure (answer_at (decode file.now.file.now) i))
        × SizeTree (size_of (decode file.now.file.now)) (firsts (before (decode file.now.file.now) i)) tree.new }
{
    let Class::Reordered(at) = class else {
        return 0;
    };
    late_need(file, measure, i, arrival, tables, tree, count, at)
}

impl Sizes {
    // The least k with `need <= low + k * 2^shift`.
    fn step_of(self, need: u64) -> u64
        ensures { (j : ℕ) → leb result j ≡ leb need (self.low + j * 2 ^ self.shift) }
    {
        if need <= self.low {
            return 0;
        }
        let over = need - self.low - 1;
        if 64 <= self.shift {
            return 1;
        }
        (over >> self.shift) + 1
    }

    // Counts `need` at the index of the first size that is enough for it; a need above all sizes is not counted.
    fn count_need(self, counts: &mut [u32; STEPS], need: u64)
        requires { (length counts.old ≡ step_count) × ((k : ℕ) → k < step_count → get_or counts.old k 0 < arrivals_most) }
        ensures { Counted self.low self.shift need counts.old counts.new }
    {
        let step = self.step_of(need);
        if step < STEPS as u64 {
            counts[step as usize] += 1;
        }
    }

    // The needs after a first arrival whose need is `need`.
    fn needs_with(self, counts: &mut [u32; STEPS], needs: Needs, need: u64) -> Needs
        requires { (needs.arrived < arrivals_most) × (length counts.old ≡ step_count)
            × ((k : ℕ) → k < step_count → get_or counts.old k 0 < arrivals_most) }
        ensures { (result ≡ needs_with needs need) × Counted self.low self.shift need counts.old counts.new }
    {
        self.count_need(counts, need);
        Needs {
            arrived: needs.arrived + 1,
            greatest: needs.greatest.max(need),
        }
    }

    // The needs after an arrival of this class and need; a copy leaves them.
    fn needs_after(self, counts: &mut [u32; STEPS], needs: Needs, class: Class, need: u64) -> Needs
        requires { (needs.arrived < arrivals_most) × (length counts.old ≡ step_count)
            × ((k : ℕ) → k < step_count → get_or counts.old k 0 < arrivals_most) }
        ensures { (m : Measure) (count : ℕ) (l : List Answer) (a : Answer) → ClassOf count class a → need ≡ needed_for m a
            → NeedsOf m self.low self.shift l needs counts.old
            → NeedsOf m self.low self.shift (l ++ (a ∷ [])) result counts.new }
    {
        match class {
            Class::Duplicate(_) => needs,
            // An arm of its own, in which the need is known to be 0: one arm for both takes 11 steps more for each arrival in order.
            Class::InOrder(_) => self.needs_with(counts, needs, need),
            Class::Reordered(_) => self.needs_with(counts, needs, need),
        }
    }
}

// The needs of a sample in a measure: one pass, O(A + K), and O(A log K + K) in octets. Each first arrival is counted in `counts` at the
// first size that is enough for it.
pub(crate) fn needs_of(
    file: &CheckedFile,
    measure: Measure,
    sizes: Sizes,
    counts: &mut [u32; STEPS],
) -> Needs
    requires { counts.old ≡ replicate step_count 0 }
    ensures { NeedsOf measure sizes.low sizes.shift (answers_of (decode file.now.file.now)) result counts.new }
{
    let mut tables = Tables::new();
    let mut state = State::START;
    let mut tree = PairTree::new();
    let mut needs = Needs {
        arrived: 0,
        greatest: 0,
    };
    for i in 0..file.layout.arrivals {
        let arrival = file.arrival_at(i);
        let number = arrival.number;
        let class = tables.seen.class_of(state.next, number);
        let need = need_of(
            file,
            measure,
            i,
            arrival,
            &tables,
            &mut tree,
            state.count,
            class,
        );
        needs = sizes.needs_after(counts, needs, class, need);
        state = tables.note(i, number, 0, state);
    }
    needs
}

// The greatest need of a sample in a measure.
pub(crate) fn greatest_need(file: &CheckedFile, measure: Measure) -> u64
    ensures { result ≡ greatest_need measure (answers_of (decode file.now.file.now)) }
{
    let mut counts = [0u32; STEPS];
    let sizes = Sizes { low: 0, shift: 0 };
    needs_of(file, measure, sizes, &mut counts).greatest
}

// Replaces each count by the sum of the counts up to its index.
pub(crate) fn sum_up(counts: &mut [u32; STEPS])
    requires { (length counts.old ≡ step_count) × ((j : ℕ) → j < step_count → count_to counts.old (suc j) ≤ arrivals_most) }
    ensures { (length counts.new ≡ step_count)
        × ((j : ℕ) → j < step_count → get_or counts.new j 0 ≡ count_to counts.old (suc j)) }
{
    let mut sum: u32 = 0;
    for count in counts.iter_mut() {
        sum += *count;
        *count = sum;
    }
}
