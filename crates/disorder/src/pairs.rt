// Counts the pairs of first arrivals in the wrong order.
ghost use Rattle.std.specs.Prelude.{◌≡◌, cond, List, [], ◌∷◌, ◌++◌, ℕ, ◌+◌, ◌≤◌, ◌<◌, length, replicate};
ghost use Rattle.rfc4737.specs.declared.Arrival.{Arrival};
ghost use Rattle.sample.specs.Decode.{decode};
ghost use Rattle.metrics.specs.Records.{FileLayout};
ghost use Rattle.disorder.specs.Sample.{disorder_of};
ghost use Rattle.disorder.specs.Private.{PairTree, FewPairs};

use rfc4737::judge::SENT_MOST;
use sample::Layout;

// The length of a table by packet number; index 0 is not used.
const PACKET_TABLE_LEN: usize = SENT_MOST as usize + 1;

// The number of first arrivals, the number of pairs of them in the wrong order, and their greatest sequence number.
#[derive(Clone, Copy, Default)]
pub(crate) struct Pairs {
    pub count: u32,
    pub wrong: u32,
    pub greatest: u32,
}

// Returns the pairs after the next arrival; `arrived` tells whether its packet arrived before. A first arrival makes a wrong pair with each
// greater number before it. If its number is the greatest so far, there is none, and the tree is not read.
fn pairs_after(counts: &mut [u32], arrived: bool, number: u32, p: Pairs) -> Pairs
    requires { (1 ≤ number) × (number < length counts.old) × FewPairs counts.old p }
    ensures { (k : ℕ) (fs : List Arrival) (a : Arrival) → a.number ≡ number → PairTree k fs counts.old p
        → PairTree k (cond arrived fs (fs ++ (a ∷ []))) counts.new result }
{
    if arrived {
        return p;
    }
    if p.greatest < number {
        sums::add(counts, number, 1);
        return Pairs {
            count: p.count + 1,
            greatest: number,
            ..p
        };
    }
    let lower = sums::sum_to(counts, number);
    sums::add(counts, number, 1);
    Pairs {
        count: p.count + 1,
        wrong: p.wrong + (p.count - lower),
        ..p
    }
}

// Finds the total of disorder of a sample. `counts` is a tree of zeros with an index for each packet number.
fn disorder_in(file: &[u8], layout: Layout, counts: &mut [u32]) -> u32
    requires { FileLayout (decode file.now) layout × (counts.old ≡ replicate (layout.sent + 1) 0) }
    ensures { result ≡ disorder_of (decode file.now) }
{
    let mut seen = [false; PACKET_TABLE_LEN];
    let mut p = Pairs::default();
    for i in 0..layout.arrivals {
        let number = sample::arrival(file, layout, i).number;
        let at = number as usize;
        let arrived = seen[at];
        p = pairs_after(counts, arrived, number, p);
        seen[at] = true;
    }
    p.wrong
}

// Finds the total of disorder of a sample. The tree ends at K, so that few packets cost few steps.
pub(crate) fn disorder_of(file: &[u8], layout: Layout) -> u32
    requires { FileLayout (decode file.now) layout }
    ensures { result ≡ disorder_of (decode file.now) }
{
    let mut counts = [0u32; PACKET_TABLE_LEN];
    let places = layout.sent as usize + 1;
    let tree = &mut counts[..places];
    disorder_in(file, layout, tree)
}
