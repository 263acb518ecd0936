// The total of disorder for C.

ghost use Rattle.std.specs.Prelude.{◌≡◌, [], ◌∷◌};
ghost use Rattle.sample.specs.Decode.{decode};
ghost use Rattle.disorder.specs.Sample.{sample_disorder};

// Finds the total of disorder of a sample.
#[unsafe(no_mangle)]
pub extern "C" fn krakobran_disorder(file: &[u8], total: &mut [u64; 1]) -> u64
    ensures { (result ≡ (sample_disorder (decode file.now)).refusal)
        × (total.new ≡ (sample_disorder (decode file.now)).total ∷ []) }
{
    let found = disorder::total(file);
    *total = [found.total as u64];
    found.refusal as u64
}
