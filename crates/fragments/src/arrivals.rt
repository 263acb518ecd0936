// The caller's arrivals: five lists of one length, lent by C.
ghost use Rattle.std.specs.Prelude.{◌<◌, All};
ghost use Rattle.fragments.specs.Private.{Lists};

// The arrivals in the order in which they came: element i of each list is a part of arrival i.
#[derive(Clone, Copy)]
pub(crate) struct Arrivals<'a> {
    pub numbers: &'a [u32],
    pub times: &'a [u64],
    pub lengths: &'a [u16],
    pub mores: &'a [u8],
    pub offsets: &'a [u16],
    ghost same_lengths: { Lists numbers.now times.now lengths.now mores.now offsets.now },
    ghost short: { All (λ n. n < 65536) lengths.now },
}
