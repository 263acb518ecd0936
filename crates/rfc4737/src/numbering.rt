// The number of each case of an answer (specs/Numbering.antt), for C and for lists of flags, and the amount of a late time. The
// case's number says the direction of the late time.

ghost use Rattle.std.specs.Prelude.{◌≡◌};
ghost use Rattle.rfc4737.specs.Numbering.{by_direction, amount_of};

use crate::LateTime;

pub const IN_ORDER: u32 = 0;

pub const REORDERED_AFTER: u32 = 1;

pub const REORDERED_BEFORE: u32 = 2;

pub const DUPLICATE: u32 = 3;

// `after` or `before`, by the direction of the late time.
pub fn by_direction(after: u32, before: u32, late: LateTime) -> u32
    ensures { result ≡ by_direction after before late }
{
    match late {
        LateTime::After(_) => after,
        LateTime::Before(_) => before,
    }
}

// The amount of a late time, in either direction.
pub fn amount(late: LateTime) -> u64
    ensures { result ≡ amount_of late }
{
    match late {
        LateTime::After(t) | LateTime::Before(t) => t,
    }
}
