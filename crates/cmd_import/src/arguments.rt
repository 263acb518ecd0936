// Reads the arguments that are decimal numbers.
ghost use Rattle.std.specs.Prelude.{◌≡◌};
ghost use Rattle.cmd_import.specs.Arguments.{argument_in};

// Reads a word as a decimal number; `None` if it is not one, or too great.
#[tactic(auto, unfolding(crate::specs::Arguments::argument_of))]
pub(crate) fn argument_in(word: &[u8]) -> Option<u32>
    ensures { result ≡ argument_in word.now }
{
    let number = decimal::reading::number_at(word, 0);
    if number.end == 0 || number.end < word.len() {
        return None;
    }
    u32::try_from(number.value).ok()
}
