// Byte offsets by a Fenwick tree of payload sizes over pairs of packets: packets 2k - 1 and 2k share index k. Pairs suffice, since packet
// s is asked for before it arrives: of the packets that have arrived, the indices up to s / 2 have exactly those with smaller numbers.
ghost use Rattle.std.specs.Prelude.{◌≡◌, false, List, ℕ, ◌≤◌, replicate};
ghost use Rattle.rfc4737.specs.declared.Arrival.{Arrival};
ghost use Rattle.rfc4737.specs.Arrivals.{has};
ghost use Rattle.rfc4737.specs.Extent.{byte_offset, largest_n};
ghost use Rattle.rfc4737.specs.Judge.{sent_most};
ghost use Rattle.sample.specs.Decode.{decode};
ghost use Rattle.metrics.specs.Sample.{size_of};
ghost use Rattle.metrics.specs.Private.Tables.{NumberTable, Links, IfLate};
ghost use Rattle.metrics.specs.Private.Engine.{SizeTree, FillInput};

use crate::engine::input::CheckedFile;
use crate::engine::kind::{Class, LateFigures};
use crate::engine::largest_n::largest_by_links;
use crate::engine::seen::{MAX_FIRST_ARRIVALS, Tables};

// The length of the tree: index 0, which is not used, and one for each pair of packets.
const PAIR_TREE_LEN: usize = 2049;

// The tree; how many of the first arrivals are in it, and the sum of their payload sizes.
#[derive(Drop)]
pub(crate) struct PairTree {
    pub sums: [u32; PAIR_TREE_LEN],
    pub filled: u32,
    pub total: u32,
}

impl PairTree {
    // The tree of no first arrivals.
    pub(crate) fn new() -> PairTree
        ensures { result ≡ record { sums = replicate 2049 0; filled = 0; total = 0 } }
    {
        PairTree {
            sums: [0; PAIR_TREE_LEN],
            filled: 0,
            total: 0,
        }
    }

    // Enters into the tree those of the first `count` first arrivals that are not in it yet.
    fn fill(&mut self, file: &CheckedFile, numbers: &[u16; MAX_FIRST_ARRIVALS], count: u32)
        requires { FillInput (decode file.now.file.now) file.now.layout numbers.now self.old count }
        ensures { (fs : List Arrival) → NumberTable fs numbers.now count
            → SizeTree (size_of (decode file.now.file.now)) fs self.old
            → SizeTree (size_of (decode file.now.file.now)) fs self.new × (self.new.filled ≡ count) }
    {
        let mut total = self.total;
        for p in self.filled..count {
            let number = numbers[p as usize] as u32;
            let size = file.size_of(number);
            sums::add(&mut self.sums, (number + 1) / 2, size);
            total += size;
        }
        self.filled = count;
        self.total = total;
    }

    // The byte offset of packet s after `count` first arrivals: their total size less that of those with smaller numbers.
    #[inline(always)]
    pub(crate) fn offset(
        &mut self,
        file: &CheckedFile,
        numbers: &[u16; MAX_FIRST_ARRIVALS],
        count: u32,
        s: u32,
    ) -> u32
        requires { FillInput (decode file.now.file.now) file.now.layout numbers.now self.old count × (1 ≤ s) × (s ≤ sent_most) }
        ensures { (fs : List Arrival) → NumberTable fs numbers.now count
            → SizeTree (size_of (decode file.now.file.now)) fs self.old
            → SizeTree (size_of (decode file.now.file.now)) fs self.new
            × (has s fs ≡ false → result ≡ byte_offset (size_of (decode file.now.file.now)) fs s) }
    {
        self.fill(file, numbers, count);
        self.total - sums::sum_to(&self.sums, s / 2)
    }

    // The byte offset, by the tree, and the largest n, by links, of packet s after `count` first arrivals; both are 0 if its class is not
    // `Reordered`. All packets of a sample together follow at most two links for each first arrival.
    pub(crate) fn late_figures(
        &mut self,
        file: &CheckedFile,
        tables: &Tables,
        count: u32,
        s: u32,
        class: Class,
    ) -> LateFigures
        requires { FillInput (decode file.now.file.now) file.now.layout tables.now.numbers self.old count × (1 ≤ s) × (s ≤ sent_most)
            × Links 1 tables.now.numbers tables.now.seen.skipped count }
        ensures { (result.largest ≤ sent_most) × ((fs : List Arrival) → NumberTable fs tables.now.numbers count
            → SizeTree (size_of (decode file.now.file.now)) fs self.old
            → SizeTree (size_of (decode file.now.file.now)) fs self.new
            × IfLate (λ (at : ℕ). (result.largest ≡ largest_n fs s) × (has s fs ≡ false
            → result.offset ≡ byte_offset (size_of (decode file.now.file.now)) fs s)) class) }
    {
        let Class::Reordered(_) = class else {
            return LateFigures {
                offset: 0,
                largest: 0,
            };
        };
        LateFigures {
            offset: self.offset(file, &tables.numbers, count, s),
            largest: largest_by_links(&tables.numbers, &tables.seen.skipped, 1, count, s),
        }
    }
}
