// A text of bounded length that is written part by part, how it is handed over to a caller, and the definitions and laws of both.
#![tactic(auto)]

ghost use Rattle.std.specs.Prelude.{◌≡◌, ◌<◌, ◌≤◌, ◌^◌, [], ◌∷◌, length};
ghost use Rattle.rfc4737.specs.Refusals.{first_refusal, output_short};
ghost use Rattle.sample.specs.Output.{Output, answer_in};

mod text;

use rfc4737::refusal::{NONE, Refusal};
use sample::WriteAnswer;
pub use text::Text;

// Copies a text to the start of `out`, or refuses with 8 if `out` has no room for it. Returns the length of the text.
fn put_whole(text: &[u8], out: &mut [u8]) -> Result<u32, Refusal>
    requires { length text.now < 2 ^ 32 }
    ensures { Output 0 text.now out.old (answer_in result) out.new }
{
    if out.len() < text.len() {
        return Err(Refusal::OutputShort);
    }
    octets::put_octets(out, 0, text);
    Ok(text.len() as u32)
}

// Copies a text to the start of `out` if nothing was refused and `out` has room for it. `refusal` is the number of the refusal, 0 for
// none, as the layout of a file has it; it comes first, then 8 if `out` is too short or the text has 2^32 octets or more. If the call is
// refused, `out` stays unchanged.
pub fn hand_over(refusal: u32, text: &[u8], out: &mut [u8]) -> WriteAnswer
    ensures written { length text.now < 2 ^ 32 → Output refusal text.now out.old result out.new }
    ensures long { 2 ^ 32 ≤ length text.now → (result ≡ record { refusal = first_refusal (refusal ∷ output_short ∷ []); length = 0 }) × (out.new ≡ out.old) }
{
    if refusal != NONE {
        return WriteAnswer { refusal, length: 0 };
    }
    if text.len() > u32::MAX as usize {
        return WriteAnswer::from(Err(Refusal::OutputShort));
    }
    WriteAnswer::from(put_whole(text, out))
}
