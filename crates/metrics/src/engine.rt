// The engine: the state after some records, and the answer for the next one. Cost of a pass: O(A log K + K). A reordered packet takes at
// most 11 steps to ask the tree of sums, and each first arrival at most 12 to enter it; links take at most two steps for each first
// arrival in all.
ghost use Rattle.std.specs.Prelude.{◌≡◌, ◌+◌, ◌<◌};
ghost use Rattle.sample.specs.Decode.{Decoded, decode};
ghost use Rattle.metrics.specs.Records.{arrival_at, answer_at};
ghost use Rattle.metrics.specs.Private.Tables.{ClassOf};
ghost use Rattle.metrics.specs.Private.Engine.{EngineState};

pub(crate) mod byte_offset;
pub(crate) mod input;
pub(crate) mod kind;
pub(crate) mod largest_n;
pub(crate) mod seen;

use crate::engine::byte_offset::PairTree;
use crate::engine::input::CheckedFile;
use crate::engine::kind::Class;
use crate::engine::seen::{State, Tables};
use rfc4737::{Answer, Arrival};

// The state after some records: the tables with their state, and the tree of sums.
#[derive(Drop)]
pub(crate) struct Engine {
    pub tables: Tables,
    pub state: State,
    pub tree: PairTree,
}

// The answer for a record, and its class.
#[derive(Clone, Copy)]
pub(crate) struct EngineAnswer {
    pub answer: Answer,
    pub class: Class,
}

impl Engine {
    // The engine before any record.
    pub(crate) fn new() -> Engine
        ensures { (d : Decoded) → EngineState d 0 result }
    {
        Engine {
            tables: Tables::new(),
            state: State::START,
            tree: PairTree::new(),
        }
    }

    // Advances the engine by record i + 1, which is `arrival`.
    pub(crate) fn advance(&mut self, file: &CheckedFile, i: u32, arrival: Arrival) -> EngineAnswer
        requires { (i < file.now.layout.arrivals) × (arrival ≡ arrival_at (decode file.now.file.now) i)
            × EngineState (decode file.now.file.now) i self.old }
        ensures { (result.answer ≡ answer_at (decode file.now.file.now) i)
            × ClassOf self.old.state.count result.class (answer_at (decode file.now.file.now) i)
            × EngineState (decode file.now.file.now) (i + 1) self.new }
    {
        let number = arrival.number;
        let state = self.state;
        let class = self.tables.seen.class_of(state.next, number);
        let late = self
            .tree
            .late_figures(file, &self.tables, state.count, number, class);
        let answer = self
            .tables
            .answer_by(file, i, arrival, state.count, class, late);
        self.state = self.tables.note(i, number, late.largest as u16, state);
        EngineAnswer { answer, class }
    }
}
