// Finds whether the clock of a sample steps back.
ghost use Rattle.std.specs.Prelude.{◌≡◌};
ghost use Rattle.rfc4737.specs.Times.{steps_back};
ghost use Rattle.sample.specs.Decode.{decode};
ghost use Rattle.metrics.specs.Sample.{sample_arrivals};
ghost use Rattle.metrics.specs.Records.{FileLayout};

use sample::Layout;

// Returns whether an arrival has an earlier time than the arrival before it. Cost: one pass over the file.
pub(crate) fn steps_back(file: &[u8], layout: Layout) -> bool
    requires { FileLayout (decode file.now) layout }
    ensures { result ≡ steps_back 0 (sample_arrivals (decode file.now)) }
{
    let mut last: u64 = 0;
    for i in 0..layout.arrivals {
        let time = sample::arrival(file, layout, i).time;
        if time < last {
            return true;
        }
        last = time;
    }
    false
}
