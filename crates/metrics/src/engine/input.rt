// A file that has been checked, and the values that it has.
ghost use Rattle.std.specs.Prelude.{◌≡◌, ◌≤◌, ◌<◌, IfErr, OnOk};
ghost use Rattle.octets.specs.Below.{Octets};
ghost use Rattle.rfc4737.specs.Judge.{sent_most};
ghost use Rattle.sample.specs.Decode.{decode};
ghost use Rattle.metrics.specs.Sample.{size_of};
ghost use Rattle.metrics.specs.Figures.{asked_refusal};
ghost use Rattle.metrics.specs.Records.{arrival_at, FileLayout};

use rfc4737::Arrival;
use rfc4737::judge::outside;
use rfc4737::refusal::{NONE, Refusal};
use sample::Layout;

// A file with its layout.
#[derive(Clone, Copy)]
pub(crate) struct CheckedFile<'a> {
    pub file: &'a [u8],
    pub layout: Layout,
    pub ghost laid: { FileLayout (decode file.now) layout },
    pub ghost octets: { Octets file.now },
}

impl<'a> CheckedFile<'a> {
    // Checks a file.
    pub(crate) fn new(file: &'a [u8]) -> CheckedFile<'a>
        ensures { result.file.now ≡ file.now }
    {
        CheckedFile {
            file,
            layout: sample::check(file),
        }
    }

    // Checks what a call asks for, a number from low to high, and that the file is not refused. The refusal, the file's own or 9, is a
    // number, as the layout has it.
    pub(crate) fn asked(&self, low: u32, high: u32, asked: u32) -> Result<(), u32>
        ensures ok { OnOk result (asked_refusal (decode self.now.file.now) low high asked ≡ 0) }
        ensures err { IfErr result (λ r. (r ≡ asked_refusal (decode self.now.file.now) low high asked) × (1 ≤ r)) }
    {
        if self.layout.refusal != NONE {
            return Err(self.layout.refusal);
        }
        if outside(low as u64, high as u64, asked as u64) {
            return Err(Refusal::AskedOutside.number());
        }
        Ok(())
    }

    // The arrival of record i + 1. The callers' loops need not test the file's length: the check has.
    pub(crate) fn arrival_at(&self, i: u32) -> Arrival
        requires { i < self.now.layout.arrivals }
        ensures { (result ≡ arrival_at (decode self.now.file.now) i) × (1 ≤ result.number) × (result.number ≤ sent_most) }
    {
        let start = sample::arrivals_at(self.layout) + 12 * (i as usize);
        let end = start + 12;
        let twelve = &self.file[start..end];
        sample::arrival_of(twelve)
    }

    // The sequence number of record i + 1.
    pub(crate) fn number_of(&self, i: u32) -> u32
        requires { i < self.now.layout.arrivals }
        ensures { (result ≡ (arrival_at (decode self.now.file.now) i).number) × (1 ≤ result) × (result ≤ sent_most) }
    {
        self.arrival_at(i).number
    }

    // The arrival time of record i + 1.
    pub(crate) fn time_of(&self, i: u32) -> u64
        requires { i < self.now.layout.arrivals }
        ensures { result ≡ (arrival_at (decode self.now.file.now) i).time }
    {
        self.arrival_at(i).time
    }

    // The payload size of packet s.
    pub(crate) fn size_of(&self, s: u32) -> u32
        requires { (1 ≤ s) × (s ≤ self.now.layout.sent) }
        ensures { (result ≡ size_of (decode self.now.file.now) s) × (result ≤ 65535) }
    {
        sample::payload_size(self.file, self.layout, s - 1) as u32
    }
}
