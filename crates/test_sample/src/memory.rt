// The caller's lists: the length of the longest file, and what each list is filled with before a call.
use cases::lists::first;
use sample::WriteAnswer;

// The length of a file that has one more of everything than a sample may have, and one octet after it.
pub(crate) const ROOM: usize = 57_430;

// What octets are filled with.
pub(crate) const OCTET: u8 = 165;

// What sizes are filled with.
pub(crate) const SIZE: u16 = 42405;

// What numbers are filled with.
pub(crate) const NUMBER: u32 = 2_779_096_485;

// What times are filled with.
pub(crate) const TIME: u64 = 11_936_128_518_282_651_045;

// The lists of a sample: the sizes of the sent packets, and the numbers and the times of the arrivals.
#[derive(Clone, Copy)]
pub(crate) struct Lists<'a> {
    pub(crate) sizes: &'a [u16],
    pub(crate) numbers: &'a [u32],
    pub(crate) times: &'a [u64],
}

impl<'a> Lists<'a> {
    // Writes the file of a label and the lists into `out`.
    pub(crate) fn write(self, label: &[u8], out: &mut [u8]) -> WriteAnswer {
        sample::write(label, self.sizes, self.numbers, self.times, out)
    }

    // The lists of the first sent packets and of the first arrivals.
    pub(crate) fn first(self, sent: usize, arrivals: usize) -> Lists<'a> {
        Lists {
            sizes: first(self.sizes, sent),
            numbers: first(self.numbers, arrivals),
            times: first(self.times, arrivals),
        }
    }
}
