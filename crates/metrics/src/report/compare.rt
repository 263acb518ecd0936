// A text compared with the listing that a sample must give, line by line. The first line that differs ends the pass.
ghost use Rattle.sample.specs.Decode.{decode};
ghost use Rattle.metrics.specs.Private.Taken.{Agreed, part_of};
ghost use Rattle.metrics.specs.Report.{sample_text};

use crate::engine::input::CheckedFile;
use crate::report::listing_pass::take_all;
use listing::LINE;

// Compares the listing of a sample with a text: each line is made in a buffer of one line, and compared there. Returns the listing's length
// or, if it differs, how many octets agree.
pub(crate) fn compare_listing(file: &CheckedFile, text: &[u8]) -> Result<usize, usize>
    ensures { Agreed (sample_text (decode file.now.file.now)) text.now (part_of result) }
{
    let mut line = [0u8; LINE];
    take_all(file, &mut line, text, true)
}
