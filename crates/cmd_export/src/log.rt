// Writes the text log of a sample's arrivals to the caller's buffer.
ghost use Rattle.sample.specs.Decode.{decode};
ghost use Rattle.cmd_export.specs.SampleLog.{LoggedTo};

use rfc4737::judge::ARRIVALS_MOST;
use sample::WriteAnswer;

// The length of each list: a sample has at most 4,096 packets and as many arrivals.
const LIST_LEN: usize = ARRIVALS_MOST as usize;

// Writes the log of a sample's arrivals to the start of `out`. If the sample is refused, `out` stays unchanged.
pub(crate) fn put_log(file: &[u8], out: &mut [u8]) -> WriteAnswer
    ensures { LoggedTo (decode file.now) out.old result out.new }
{
    let mut sizes = [0u16; LIST_LEN];
    let mut numbers = [0u32; LIST_LEN];
    let mut times = [0u64; LIST_LEN];
    let layout = sample::read(file, &mut sizes, &mut numbers, &mut times);
    // `sample::read` answers with the number of the refusal, as `ReadFrom` and C have it, so no `?` stands here.
    if layout.refusal != 0 {
        return WriteAnswer {
            refusal: layout.refusal,
            length: 0,
        };
    }
    let arrivals = layout.arrivals as usize;
    textlog::write(layout.sent, &numbers[..arrivals], &times[..arrivals], out)
}
