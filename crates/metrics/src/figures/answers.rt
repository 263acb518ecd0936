// The answer for one record.
ghost use Rattle.std.specs.Prelude.{◌≡◌, List, ℕ, ◌+◌, ◌-◌, ◌≤◌, ◌<◌, take, IfOk, IfErr};
ghost use Rattle.rfc4737.specs.declared.Arrival.{Arrival};
ghost use Rattle.rfc4737.specs.Extent.{byte_offset, largest_n};
ghost use Rattle.rfc4737.specs.Judge.{sent_most};
ghost use Rattle.sample.specs.Decode.{decode};
ghost use Rattle.metrics.specs.Sample.{size_of};
ghost use Rattle.metrics.specs.Records.{before, answer_at};
ghost use Rattle.metrics.specs.Private.Tables.{NumberTable, Packets, IfLate, TablesAt};
ghost use Rattle.metrics.specs.Private.Steps.{answered, unanswered};
ghost use Rattle.metrics.specs.Figures.{record_answer};

use crate::engine::input::CheckedFile;
use crate::engine::kind::{Class, LateFigures};
use crate::engine::largest_n::{largest, offset};
use crate::engine::seen::{MAX_FIRST_ARRIVALS, State, Tables};
use rfc4737::Answer;

// Notes the first n records.
fn note_records(file: &CheckedFile, n: u32, tables: &mut Tables) -> State
    requires { (n ≤ file.now.layout.arrivals) × TablesAt (before (decode file.now.file.now) 0) tables.old (record { count = 0; next = 1 }) }
    ensures { TablesAt (before (decode file.now.file.now) n) tables.new result }
{
    let mut state = State::START;
    for i in 0..n {
        state = tables.note(i, file.number_of(i), 0, state);
    }
    state
}

// The byte offset and the largest n of the next arrival, by a search, if it is reordered, and 0 if not.
fn late_figures(
    file: &CheckedFile,
    numbers: &[u16; MAX_FIRST_ARRIVALS],
    count: u32,
    s: u32,
    class: Class,
) -> LateFigures
    requires { (count ≤ sent_most) × Packets numbers.now count file.now.layout.sent × IfLate (λ (at : ℕ). (1 ≤ at) × (at ≤ count)) class }
    ensures { (fs : List Arrival) → NumberTable fs numbers.now count
        → IfLate (λ (at : ℕ). (byte_offset (size_of (decode file.now.file.now)) (take (at - 1) fs) s ≡ 0
        → result.offset ≡ byte_offset (size_of (decode file.now.file.now)) fs s) × (result.largest ≡ largest_n fs s)) class }
{
    let Class::Reordered(at) = class else {
        return LateFigures {
            offset: 0,
            largest: 0,
        };
    };
    LateFigures {
        offset: offset(file, numbers, at - 1, count, s),
        largest: largest(numbers, count, s),
    }
}

// The answer for record i + 1 from the tables of the records before it: O(extent) for a reordered packet, else O(1).
fn answer_at(file: &CheckedFile, i: u32, tables: &Tables, state: State) -> Answer
    requires { (i < file.now.layout.arrivals) × TablesAt (before (decode file.now.file.now) i) tables.now state }
    ensures { result ≡ answer_at (decode file.now.file.now) i }
{
    let arrival = file.arrival_at(i);
    let number = arrival.number;
    let class = tables.seen.class_of(state.next, number);
    let late = late_figures(file, &tables.numbers, state.count, number, class);
    tables.answer_by(file, i, arrival, state.count, class, late)
}

// The answer for record `asked` of a file, or the refusal: a pass over the records before it, and O(extent) for a reordered packet.
pub(crate) fn answer_of(file: &CheckedFile, asked: u32) -> Result<Answer, u32>
    ensures ok { IfOk result (λ a. answered a ≡ record_answer (decode file.now.file.now) asked) }
    ensures err { IfErr result (λ r. unanswered r ≡ record_answer (decode file.now.file.now) asked) }
{
    file.asked(1, file.layout.arrivals, asked)?;
    let i = asked - 1;
    let mut tables = Tables::new();
    let state = note_records(file, i, &mut tables);
    Ok(answer_at(file, i, &tables, state))
}
