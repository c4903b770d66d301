// "In use: active tokens, and what they reach by caller, cell, parent and binding."
ghost use Rattle.model.specs.declared.record.Machine.{Machine};
ghost use Rattle.record.specs.Holds.{Codes};
ghost use Rattle.reach.specs.Marks.{MarksOf};

use crate::marks::{mark_cells, mark_tokens};
use model::record::Machine;

// Which tokens and which cells are in use: a mark for each place.
#[derive(Drop)]
pub struct Marks {
    pub tokens: [bool; Machine::TOKENS],
    pub cells: [bool; Machine::CELLS],
}

impl Marks {
    // Those of a record.
    pub fn of(w: &[u32; Machine::WORDS]) -> Marks
        ensures { (m : Machine) → Codes w.now m → MarksOf m result }
    {
        let mut marks = Marks {
            tokens: [false; Machine::TOKENS],
            cells: [false; Machine::CELLS],
        };
        mark_tokens(w, &mut marks.tokens, Machine::TOKENS);
        mark_cells(w, &marks.tokens, &mut marks.cells, Machine::TOKENS);
        marks
    }
}
