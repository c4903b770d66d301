// The words of a start, in place of whatever stood there.
ghost use Rattle.std.specs.Prelude.{◌≡◌};
ghost use Rattle.model.specs.Machine.Limits.{paper};
ghost use Rattle.model.specs.Machine.Start.{start_machine};
ghost use Rattle.record.specs.Layout.{words_of};

use crate::layout::{LAST_CELL, QUEUE_LENGTH, READY_STATE};
use model::record::Machine;

// One ready token, at place 0 and at the goal's first node; the first cell takes place 0, so the last one given is the last there is.
pub fn start(w: &mut [u32; Machine::WORDS], goal: u32)
    ensures { w.new ≡ words_of (start_machine paper goal) }
{
    w.fill(0);
    w[0] = READY_STATE;
    w[2] = goal;
    w[QUEUE_LENGTH] = 1;
    w[LAST_CELL] = 31;
}
