// The calls on a record whose index rules hold: they are not tested again. The marks say what is in use, before a call and after it.
ghost use Rattle.model.specs.Machine.Limits.{paper};
ghost use Rattle.model.specs.Machine.Start.{start_machine};
ghost use Rattle.model.specs.declared.record.Machine.{Machine};
ghost use Rattle.record.specs.Holds.{Holds};
ghost use Rattle.reach.specs.Marks.{MarksOf};

use model::record::Machine;
use reach::used::Marks;

// The words of a start, and its marks: one token is in use, and no cell.
pub fn start(w: &mut [u32; Machine::WORDS], goal: u32) -> Marks
    ensures { Holds w.new (start_machine paper goal) × MarksOf (start_machine paper goal) result }
{
    record::start::start(w, goal);
    let mut marks = Marks {
        tokens: [false; Machine::TOKENS],
        cells: [false; Machine::CELLS],
    };
    marks.tokens[0] = true;
    marks
}
