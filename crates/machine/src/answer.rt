// An answer to an outside call.
ghost use Rattle.machine.specs.PublicCalls.{HasResult, answer_on};

use crate::lawful::lawful_marks;
use acts::report::plain;
use job::dag::WORDS;
use model::record::Machine;
use model::reply::{Refusal, Reply, Report};

// "An answer tests 14, 12." A refused one leaves every word.
pub fn answer(w: &mut [u32; Machine::WORDS], dag: &[u32; WORDS], handle: u32, value: i32) -> Report
    ensures { HasResult (answer_on dag.now w.old handle value) result w.new }
{
    if lawful_marks(w, dag).is_none() {
        return plain(Reply::Refused(Refusal::Rule));
    }
    unchecked::answer::answer(w, handle, value)
}
