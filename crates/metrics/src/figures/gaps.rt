// Gaps, by a table that has at the position of each discontinuity the position of its discoverer, and 0 elsewhere. For one record the
// table is searched downward from the record's position; for all records it is read once, upward. An entry of 0 stands for none, as an
// `Option` would take twice the memory.
ghost use Rattle.std.specs.Prelude.{◌≡◌, List, [], ◌∷◌, ◌++◌, ℕ, ◌+◌, ◌-◌, ◌≤◌, ◌<◌, length, replicate, IfOk, IfErr, IfSome};
ghost use Rattle.std.proofs.Math.Option.{some};
ghost use Rattle.octets.specs.Memory.{over};
ghost use Rattle.rfc4737.specs.declared.Answer.{Answer};
ghost use Rattle.rfc4737.specs.Arrivals.{firsts};
ghost use Rattle.rfc4737.specs.Gaps.{position_of, gap_of};
ghost use Rattle.rfc4737.specs.Judge.{sent_most};
ghost use Rattle.sample.specs.Decode.{decode};
ghost use Rattle.metrics.specs.Sample.{sample_arrivals, answers_of};
ghost use Rattle.metrics.specs.Records.{before, answer_at, answers_to, number_places};
ghost use Rattle.metrics.specs.Figures.{record_gap};
ghost use Rattle.metrics.specs.Gaps.{gap_number, gap_numbers};
ghost use Rattle.metrics.specs.Private.Tables.{RecordTable, ClassOf, IfLate, SeenAt};
ghost use Rattle.metrics.specs.Private.Steps.{found, known, DiscoverersAt, last_to, count_after, PositionAt};

use crate::engine::input::CheckedFile;
use crate::engine::kind::Class;
use crate::engine::seen::{PACKET_TABLE_LEN, Seen, State};

// If the next arrival, after `count` first arrivals, is the first with its discontinuity, notes its position there.
fn note_discoverer(discoverers: &mut [u16; PACKET_TABLE_LEN], count: u32, class: Class)
    requires { (length discoverers.old ≡ number_places) × (count ≤ sent_most) × IfLate (λ (at : ℕ). (1 ≤ at) × (at ≤ count)) class }
    ensures { (l : List Answer) (a : Answer) → ClassOf count class a → DiscoverersAt l discoverers.old
        → DiscoverersAt (l ++ (a ∷ [])) discoverers.new }
{
    let Class::Reordered(at) = class else {
        return;
    };
    let place = at as usize;
    if discoverers[place] == 0 {
        discoverers[place] = (count + 1) as u16;
    }
}

// The position of an arrival, after `count` first arrivals; a duplicate has none.
fn position_of(count: u32, class: Class) -> Option<u32>
    requires { count ≤ sent_most }
    ensures { (a : Answer) → ClassOf count class a → found result ≡ position_of a }
{
    match class {
        Class::Duplicate(_) => None,
        Class::InOrder(_) | Class::Reordered(_) => Some(count + 1),
    }
}

// Goes over records `from` + 1 to `to`, and notes at each discontinuity the position of its discoverer.
fn note_to(
    file: &CheckedFile,
    from: u32,
    to: u32,
    seen: &mut Seen,
    discoverers: &mut [u16; PACKET_TABLE_LEN],
    start: State,
) -> State
    requires { (from ≤ to) × (to ≤ file.now.layout.arrivals) × SeenAt (before (decode file.now.file.now) from) seen.old start
        × DiscoverersAt (answers_to (decode file.now.file.now) from) discoverers.old }
    ensures { SeenAt (before (decode file.now.file.now) to) seen.new result
        × DiscoverersAt (answers_to (decode file.now.file.now) to) discoverers.new }
{
    let mut state = start;
    for i in from..to {
        let number = file.number_of(i);
        let class = seen.class_of(state.next, number);
        note_discoverer(discoverers, state.count, class);
        state = seen.note(i, number, 0, state);
    }
    state
}

// Notes at every discontinuity of a sample the position of its discoverer, and returns the position of the record asked for; a duplicate
// has none. The pass is split before that record, so that no loop tests for it.
fn note_discoverers(
    file: &CheckedFile,
    asked: u32,
    discoverers: &mut [u16; PACKET_TABLE_LEN],
) -> Option<u32>
    requires { (1 ≤ asked) × (asked ≤ file.now.layout.arrivals) × (discoverers.old ≡ replicate number_places 0) }
    ensures { (found result ≡ position_of (answer_at (decode file.now.file.now) (asked - 1)))
        × DiscoverersAt (answers_of (decode file.now.file.now)) discoverers.new }
{
    let mut seen = Seen::new();
    let i = asked - 1;
    let state = note_to(file, 0, i, &mut seen, discoverers, State::START);
    let class = seen.class_of(state.next, file.number_of(i));
    note_to(file, i, file.layout.arrivals, &mut seen, discoverers, state);
    position_of(state.count, class)
}

// The last discontinuity at a position from 1 to p, if there is one.
fn last_to(discoverers: &[u16; PACKET_TABLE_LEN], p: u32) -> Option<u32>
    requires { p ≤ sent_most }
    ensures { found result ≡ known (last_to discoverers.now p) }
{
    for q in (1..p + 1).rev() {
        if discoverers[q as usize] != 0 {
            return Some(q);
        }
    }
    None
}

// The gap of position p over `last`, the last discontinuity before it: there is one if `last` was discovered earlier.
fn gap_over(discoverers: &[u16; PACKET_TABLE_LEN], last: Option<u32>, p: u32) -> Option<u32>
    requires { (1 ≤ p) × (p ≤ sent_most) × (found last ≡ known (last_to discoverers.now (p - 1))) }
    ensures { (l : List Answer) → DiscoverersAt l discoverers.now → result ≡ gap_of l (some p) }
{
    let place = p as usize;
    if discoverers[place] == 0 {
        return None;
    }
    let Some(last) = last else {
        return None;
    };
    let neighbour = last as usize;
    if discoverers[neighbour] < discoverers[place] {
        return Some(p - last);
    }
    None
}

// The gap of position p. If it is no discontinuity, it has none, and nothing is searched.
fn gap_at(discoverers: &[u16; PACKET_TABLE_LEN], p: u32) -> Option<u32>
    requires { (1 ≤ p) × (p ≤ sent_most) }
    ensures { (l : List Answer) → DiscoverersAt l discoverers.now → result ≡ gap_of l (some p) }
{
    let place = p as usize;
    if discoverers[place] == 0 {
        return None;
    }
    let last = last_to(discoverers, p - 1);
    gap_over(discoverers, last, p)
}

// The gap of record `asked` of a file, or the refusal.
pub(crate) fn gap_of(file: &CheckedFile, asked: u32) -> Result<Option<u32>, u32>
    ensures ok { IfOk result (λ g. record { refusal = 0; gap = g } ≡ record_gap (decode file.now.file.now) asked) }
    ensures err { IfErr result (λ r. record { refusal = r; gap = None } ≡ record_gap (decode file.now.file.now) asked) }
{
    file.asked(1, file.layout.arrivals, asked)?;
    let mut discoverers = [0u16; PACKET_TABLE_LEN];
    let Some(position) = note_discoverers(file, asked, &mut discoverers) else {
        return Ok(None);
    };
    Ok(gap_at(&discoverers, position))
}

// Of the records whose gaps are listed: how many are first arrivals, and the last discontinuity among their positions, if there is one.
#[derive(Clone, Copy)]
struct Listed {
    pub count: u32,
    pub last: Option<u32>,
}

// The position of record i + 1, after `count` first arrivals; a duplicate has none. It is a first arrival if its packet's entry in
// `records` is i + 1.
fn position_at(
    file: &CheckedFile,
    records: &[u16; PACKET_TABLE_LEN],
    i: u32,
    count: u32,
) -> Option<u32>
    requires { (i < file.now.layout.arrivals) × RecordTable (sample_arrivals (decode file.now.file.now)) records.now
        × (count ≡ length (firsts (before (decode file.now.file.now) i))) }
    ensures { PositionAt (decode file.now.file.now) i count result }
{
    let packet = file.number_of(i) as usize;
    if records[packet] as u32 == i + 1 {
        return Some(count + 1);
    }
    None
}

// The gap of a position over `last`, the last discontinuity before it, as a number: 0 for no gap, and for no position.
fn gap_number(
    discoverers: &[u16; PACKET_TABLE_LEN],
    last: Option<u32>,
    position: Option<u32>,
) -> u32
    requires { IfSome position (λ p. (1 ≤ p) × (p ≤ sent_most) × (found last ≡ known (last_to discoverers.now (p - 1)))) }
    ensures { (l : List Answer) → DiscoverersAt l discoverers.now → result ≡ gap_number (gap_of l (found position)) }
{
    let Some(position) = position else {
        return 0;
    };
    match gap_over(discoverers, last, position) {
        None => 0,
        Some(gap) => gap,
    }
}

// `listed` after a record at `position`, the next one if it has one.
fn listed_after(
    discoverers: &[u16; PACKET_TABLE_LEN],
    listed: Listed,
    position: Option<u32>,
) -> Listed
    requires { IfSome position (λ p. (p ≡ listed.count + 1) × (p ≤ sent_most))
        × (found listed.last ≡ known (last_to discoverers.now listed.count)) }
    ensures { (result.count ≡ count_after listed.count position)
        × (found result.last ≡ known (last_to discoverers.now result.count)) }
{
    let Some(count) = position else {
        return listed;
    };
    if discoverers[count as usize] == 0 {
        return Listed { count, ..listed };
    }
    Listed {
        count,
        last: position,
    }
}

// Lists the gaps of all records by the tables of the whole sample. Positions rise by 1 with each first arrival, so the last discontinuity
// before each is known without a search.
fn list_gaps(
    file: &CheckedFile,
    records: &[u16; PACKET_TABLE_LEN],
    discoverers: &[u16; PACKET_TABLE_LEN],
    gaps: &mut [u32],
)
    requires { (file.now.layout.arrivals ≤ length gaps.old) × RecordTable (sample_arrivals (decode file.now.file.now)) records.now
        × DiscoverersAt (answers_of (decode file.now.file.now)) discoverers.now }
    ensures { gaps.new ≡ over (gap_numbers (answers_of (decode file.now.file.now))) gaps.old }
{
    let mut listed = Listed {
        count: 0,
        last: None,
    };
    for i in 0..file.layout.arrivals {
        let position = position_at(file, records, i, listed.count);
        gaps[i as usize] = gap_number(discoverers, listed.last, position);
        listed = listed_after(discoverers, listed, position);
    }
}

// Writes the gaps of all records: one pass notes the discoverers of all discontinuities, another lists the gaps.
pub(crate) fn put_gaps(file: &CheckedFile, gaps: &mut [u32])
    requires { file.now.layout.arrivals ≤ length gaps.old }
    ensures { gaps.new ≡ over (gap_numbers (answers_of (decode file.now.file.now))) gaps.old }
{
    let mut seen = Seen::new();
    let mut discoverers = [0u16; PACKET_TABLE_LEN];
    note_to(
        file,
        0,
        file.layout.arrivals,
        &mut seen,
        &mut discoverers,
        State::START,
    );
    list_gaps(file, &seen.records, &discoverers, gaps);
}
