// A line compared with a text: how far they agree.
ghost use Rattle.std.specs.Prelude.{◌≡◌, ◌+◌, ◌^◌, ◌≤◌, ◌<◌, length, drop};
ghost use Rattle.metrics.specs.Agreement.{common};
ghost use Rattle.metrics.specs.Private.Taken.{Agreed, part_of, moved};

// How many octets two texts have in common, from their start on.
fn common(one: &[u8], other: &[u8]) -> usize
    ensures { result ≡ common one.now other.now }
{
    let shorter = one.len().min(other.len());
    for i in 0..shorter {
        if one[i] != other[i] {
            return i;
        }
    }
    shorter
}

// Compares a line with a text from the offset `at` on. Returns the line's length or, if it differs, how many octets agree.
pub(crate) fn compare_line(line: &[u8], text: &[u8], at: usize) -> Result<usize, usize>
    requires { at ≤ length text.now }
    ensures { Agreed line.now (drop at text.now) (part_of result) }
{
    let octets = common(line, &text[at..]);
    if octets == line.len() {
        return Ok(octets);
    }
    Err(octets)
}

// The agreement of all lines up to and including a part that begins at offset `at`.
pub(crate) fn part_after(at: usize, part: Result<usize, usize>) -> Result<usize, usize>
    requires { at + (part_of part).octets < 2 ^ 64 }
    ensures { result ≡ moved at part }
{
    match part {
        Ok(octets) => Ok(at + octets),
        Err(octets) => Err(at + octets),
    }
}
