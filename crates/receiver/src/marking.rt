// The marks: one bit for each packet, in words of 64 bits.

ghost use Rattle.std.specs.Prelude.{◌≡◌, ◌≤◌};
ghost use Rattle.rfc4737.specs.Judge.{sent_most};
ghost use Rattle.receiver.specs.Marks.{mark_at, with_mark};

use crate::MARK_WORDS;

// Returns whether the packet `number` is marked.
#[tactic(auto, unfolding(crate::specs::Marks::mark_at))]
pub(crate) fn is_marked(marks: &[u64; MARK_WORDS], number: u32) -> bool
    requires { (1 ≤ number) × (number ≤ sent_most) }
    ensures { result ≡ mark_at marks.now number }
{
    let at = ((number - 1) / 64) as usize;
    (marks[at] >> ((number - 1) % 64)) % 2 == 1
}

// Marks the packet `number`.
pub(crate) fn mark(marks: &mut [u64; MARK_WORDS], number: u32)
    requires { (1 ≤ number) × (number ≤ sent_most) }
    ensures { marks.new ≡ with_mark marks.old number }
{
    let at = ((number - 1) / 64) as usize;
    let word = marks[at];
    marks[at] = word | 1u64 << ((number - 1) % 64);
}
