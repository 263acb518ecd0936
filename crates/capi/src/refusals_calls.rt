// The words of the refusals and the version of the library, for C.

ghost use Rattle.std.specs.Prelude.{◌≡◌};
ghost use Rattle.sample.specs.Output.{Output};
ghost use Rattle.refusals.specs.Words.{words_of, asked_refusal};
ghost use Rattle.capi.specs.Sample.{write_told};
ghost use Rattle.capi.specs.Version.{version};

use crate::outcomes::write_told;

// The greatest number of a refusal.
const MAX_REFUSAL: u64 = 18;

// Narrows `refusal` to 32 bits. Any number above 18 becomes 0: neither is a refusal, so both have no words.
fn narrow(refusal: u64) -> u32
    ensures { (asked_refusal result ≡ asked_refusal refusal) × (words_of result ≡ words_of refusal) }
{
    if MAX_REFUSAL < refusal {
        return 0;
    }
    refusal as u32
}

// Writes the words of a refusal.
#[unsafe(no_mangle)]
pub extern "C" fn krakobran_refusal_words(
    refusal: u64,
    out: &mut [u8],
    length: &mut [u64; 1],
) -> u64
    ensures { Output (asked_refusal refusal) (words_of refusal) out.old (write_told result length.new)
        out.new }
{
    write_told(refusals::words(narrow(refusal), out), length)
}

// Returns the version of the library: 1,000,000 for each major version, 1,000 for each minor one, and the patch.
#[unsafe(no_mangle)]
pub extern "C" fn krakobran_version() -> u64
    ensures { result ≡ version }
{
    12_000
}
