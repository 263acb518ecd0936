// The words of the refusals: one table for the programs, the header and the pages. The public call is total.
#![tactic(auto)]

ghost use Rattle.std.specs.Prelude.{◌≡◌, ◌<◌};
ghost use Rattle.sample.specs.Output.{Output, answer_in};
ghost use Rattle.refusals.specs.Words.{words_of, asked_refusal, WordsFit};

use rfc4737::judge::outside;
use rfc4737::refusal::Refusal;
use sample::WriteAnswer;

// The length that suffices for the words of any refusal, in octets.
pub const OCTETS: usize = 128;

// The words of each refusal at its number; index 0, which is no refusal, has none.
static WORDS: [&[u8]; 19] = [
    b"",
    b"the file ends before a count or a section does",
    b"octets follow the last section",
    b"label over 64 octets",
    b"K is 0 or over 4,096",
    b"over 4,096 arrivals",
    b"sequence number outside 1 to K; a short number over its width, or of which the number found is outside 1 to K",
    b"arrival time over 1,000 below the greatest earlier time",
    b"lent output too short",
    b"record outside 1 to A, n outside 1 to 100, a share's part outside 1 to its whole, or no such measure, refusal or outcome",
    b"state of a receiver or of a meter unfit, or a reordered packet with no greater kept jump",
    b"receiver has accepted 4,096 arrivals",
    b"lists of arrivals that differ in length: those of numbers and of times, or any two of the lists of fragments",
    b"a label octet outside hexadecimal 20 to 7E",
    b"a line not of the form, or a value over the field's range",
    b"a length that is no multiple of 25",
    b"a stream other than 1 or 2",
    b"a fragment of length 0, one with more to come and a length no multiple of 8, or one whose end is over 65,535",
    b"a written time whose seconds don't fit 32 bits",
];

// The words of a refusal, by its number.
fn words_of(refusal: usize) -> &'static [u8]
    requires { refusal < 19 }
    ensures { result.now ≡ words_of refusal }
{
    WORDS[refusal]
}

// Writes the words of a refusal from the start of `out`; returns their number of octets.
fn write_words(refusal: u32, out: &mut [u8]) -> Result<u32, Refusal>
    ensures { Output (asked_refusal refusal) (words_of refusal) out.old (answer_in result) out.new }
{
    if outside(1, 18, refusal as u64) {
        return Err(Refusal::AskedOutside);
    }
    let words = words_of(refusal as usize);
    if out.len() < words.len() {
        return Err(Refusal::OutputShort);
    }
    octets::put_octets(out, 0, words);
    Ok(words.len() as u32)
}

// Writes the words of a refusal from the start of `out`. It is given by its number, as C and the command give it. Refusals: 9 for a number
// that is no refusal, 8 if the words do not fit; `out` then stays as it was.
pub fn words(refusal: u32, out: &mut [u8]) -> WriteAnswer
    ensures output { Output (asked_refusal refusal) (words_of refusal) out.old result out.new }
    ensures fit { WordsFit }
{
    write_words(refusal, out).into()
}
