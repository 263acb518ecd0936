// The full number of one short number, over any range.
ghost use Rattle.std.specs.Prelude.{◌≡◌};
ghost use Rattle.shortnumbers.specs.Number.{number_found};

// Returns the full number of `short`, where `greatest` is the greatest full number accepted so far; 0 where there is none.
pub fn number_found(range: u16, greatest: u16, short: u32) -> u32
    ensures { result ≡ number_found range greatest short }
{
    let r = range as u32;
    if r <= short {
        return 0;
    }
    let top = (greatest as u32 + r / 2).saturating_sub(1);
    top.saturating_sub((top + (r - short)) % r)
}
