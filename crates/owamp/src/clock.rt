// Receive times and whole microseconds.
ghost use Rattle.std.specs.Prelude.{◌≡◌};
ghost use Rattle.owamp.specs.Clock.{microseconds, written_seconds, written_fraction};

// Fractions in a second.
pub(crate) const FRACTIONS: u64 = 4_294_967_296;

// Microseconds in a second.
const MICROS: u64 = 1_000_000;

// Returns a receive time in whole microseconds, rounded down.
#[tactic(auto, unfolding(crate::specs::Clock::microseconds))]
pub(crate) fn microseconds(stamp: u64) -> u64
    ensures { result ≡ microseconds stamp }
{
    stamp / FRACTIONS * MICROS + stamp % FRACTIONS * MICROS / FRACTIONS
}

// Returns the seconds of the receive time that is written for `time`.
pub(crate) fn seconds_of(time: u64) -> u64
    ensures { result ≡ written_seconds time }
{
    time / MICROS + 1
}

// Returns the fraction of that receive time, rounded down.
pub(crate) fn fraction_of(time: u64) -> u64
    ensures { result ≡ written_fraction time }
{
    time % MICROS * FRACTIONS / MICROS
}
