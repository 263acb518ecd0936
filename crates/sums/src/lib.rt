// Sums of values that stand at numbers, by a Fenwick tree in the caller's buffer. `tree[i]` holds the sum of the values at the
// numbers above `rest(i)` and up to i. Here `rest(i)` is i with its lowest set bit cleared; `tree[0]` is not used. A tree of zeros has
// no values. Sums wrap at 2^32. Cost of both calls: O(log N), where N is the length of the tree.
#![tactic(auto)]

ghost use Rattle.std.specs.Prelude.{◌≡◌, ◌≤◌};
ghost use Rattle.sums.specs.Tree.{rest, Added, sum_to, ExactSum};

// i with its lowest set bit cleared.
#[tactic(auto, unfolding(crate::specs::Tree::rest))]
fn rest(i: usize) -> usize
    requires { 1 ≤ i }
    ensures { result ≡ rest i }
{
    i & (i - 1)
}

// Adds `value` at `number`. Nothing changes at number 0, and at a number from `tree.len()` on.
pub fn add(tree: &mut [u32], number: u32, value: u32)
    ensures { Added number value tree.old tree.new }
{
    if number == 0 {
        return;
    }
    let mut i = number as usize;
    while i < tree.len() {
        tree[i] = tree[i].wrapping_add(value);
        i += i - rest(i);
    }
}

// The sum of the values at the numbers from 1 to `number`; 0 from `tree.len()` on.
pub fn sum_to(tree: &[u32], number: u32) -> u32
    ensures value { result ≡ sum_to tree.now number }
    ensures exact { ExactSum tree.now number result }
{
    let mut i = number as usize;
    if tree.len() <= i {
        return 0;
    }
    let mut sum = 0u32;
    while i != 0 {
        sum = sum.wrapping_add(tree[i]);
        i = rest(i);
    }
    sum
}
