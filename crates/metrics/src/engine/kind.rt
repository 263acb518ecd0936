// The class of an arrival and the answer for it, from the tables of the arrivals before it.
ghost use Rattle.std.specs.Prelude.{◌≡◌, ℕ, ◌≤◌, ◌<◌};
ghost use Rattle.rfc4737.specs.declared.Answer.{Answer};
ghost use Rattle.rfc4737.specs.declared.ReorderedFigures.{ReorderedFigures};
ghost use Rattle.rfc4737.specs.Arrivals.{firsts};
ghost use Rattle.rfc4737.specs.Extent.{byte_offset, largest_n};
ghost use Rattle.rfc4737.specs.Judge.{sent_most};
ghost use Rattle.sample.specs.Decode.{decode};
ghost use Rattle.metrics.specs.Sample.{size_of};
ghost use Rattle.metrics.specs.Records.{arrival_at, before, answer_at};
ghost use Rattle.metrics.specs.declared.engine.kind.Class.{Class};
ghost use Rattle.metrics.specs.Private.Tables.{NumberTable, RecordTable, class_by, ClassOf, IfLate};

use crate::engine::input::CheckedFile;
use crate::engine::seen::{Seen, Tables};
use rfc4737::{Answer, Arrival, DuplicateFigures, InOrderFigures, LateTime, ReorderedFigures};

// The class of an arrival: a duplicate, with the record of the first arrival; in order, with the jump size; or reordered, with the
// position of its discontinuity.
#[derive(Clone, Copy)]
pub(crate) enum Class {
    Duplicate(u32),
    InOrder(u32),
    Reordered(u32),
}

// The figures that only a reordered packet has: byte offset and largest n; 0 for the others.
#[derive(Clone, Copy)]
pub(crate) struct LateFigures {
    pub offset: u32,
    pub largest: u32,
}

impl Seen {
    // The class of an arrival of packet `number`, in one step.
    pub(crate) fn class_of(&self, next: u32, number: u32) -> Class
        requires { number ≤ sent_most }
        ensures { result ≡ class_by self.now.records self.now.skipped next number }
    {
        let packet = number as usize;
        let first = self.records[packet] as u32;
        if first != 0 {
            return Class::Duplicate(first);
        }
        if next <= number {
            return Class::InOrder(number - next);
        }
        Class::Reordered(self.skipped[packet] as u32)
    }
}

impl Tables {
    // The late time of record i + 1, a reordered packet that arrives at `time`, after `count` first arrivals, with its discontinuity at
    // position `at`. The tables lead from that position to its packet, from the packet to its record, and from the record to its time.
    pub(crate) fn late_time(
        &self,
        file: &CheckedFile,
        i: u32,
        time: u64,
        count: u32,
        at: u32,
    ) -> LateTime
        requires { (i < file.now.layout.arrivals) × ClassOf count (Class.Reordered at) (answer_at (decode file.now.file.now) i)
            × NumberTable (firsts (before (decode file.now.file.now) i)) self.now.numbers count
            × RecordTable (before (decode file.now.file.now) i) self.now.seen.records
            × (time ≡ (arrival_at (decode file.now.file.now) i).time) }
        ensures { (f : ReorderedFigures) → Answer.Reordered f ≡ answer_at (decode file.now.file.now) i → result ≡ f.late }
    {
        let place = (at - 1) as usize;
        let packet = self.numbers[place] as usize;
        let first = self.seen.records[packet] as u32;
        let past = file.time_of(first - 1);
        rfc4737::time::elapsed(past, time)
    }

    // The answer for record i + 1, from its class and, if it is reordered, its byte offset and its largest n.
    pub(crate) fn answer_by(
        &self,
        file: &CheckedFile,
        i: u32,
        arrival: Arrival,
        count: u32,
        class: Class,
        late: LateFigures,
    ) -> Answer
        requires { (i < file.now.layout.arrivals) × (arrival ≡ arrival_at (decode file.now.file.now) i)
            × NumberTable (firsts (before (decode file.now.file.now) i)) self.now.numbers count
            × RecordTable (before (decode file.now.file.now) i) self.now.seen.records
            × ClassOf count class (answer_at (decode file.now.file.now) i)
            × IfLate (λ (at : ℕ). (late.offset ≡ byte_offset (size_of (decode file.now.file.now)) (firsts (before (decode file.now.file.now) i))
            (arrival_at (decode file.now.file.now) i).number)
            × (late.largest ≡ largest_n (firsts (before (decode file.now.file.now) i)) (arrival_at (decode file.now.file.now) i).number)) class }
        ensures { result ≡ answer_at (decode file.now.file.now) i }
    {
        match class {
            Class::Duplicate(first) => Answer::Duplicate(DuplicateFigures { first }),
            Class::InOrder(jump) => Answer::InOrder(InOrderFigures {
                position: count + 1,
                jump,
            }),
            Class::Reordered(at) => Answer::Reordered(ReorderedFigures {
                position: count + 1,
                extent: count + 1 - at,
                late: self.late_time(file, i, arrival.time, count, at),
                offset: late.offset,
                largest: late.largest,
            }),
        }
    }
}
