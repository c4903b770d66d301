// The calls on a record whose index rules hold: they are not tested again. The marks say what is in use, before a call and after it.
ghost use Rattle.std.specs.Prelude.{◌≡◌, List, ℕ, ◌≤◌, IfErr};
ghost use Rattle.job.specs.Words.{dag_of};
ghost use Rattle.model.specs.Machine.Answer as Answer;
ghost use Rattle.model.specs.Machine.Limits.{paper};
ghost use Rattle.model.specs.declared.record.Machine.{Machine};
ghost use Rattle.model.specs.declared.reply.Refusal.TheVariants as refusals;
ghost use Rattle.reach.specs.Marks.{BlankFrom};
ghost use Rattle.acts.specs.Acting.{Lawful, Gives, call_report};
ghost use Rattle.reach.specs.declared.used.Marks.{Marks};

use crate::report::report;
use model::record::Machine;
use model::reply::{Refusal, Report};
use record::count::calls_made;

// The token of an open handle takes the value and is ready. It is in use before and after, and names what it named: the marks stay. A
// handle that no call was given is not looked for, and no token from the end on, where none is in use.
pub fn resume(
    w: &mut [u32; Machine::WORDS],
    handle: u32,
    value: i32,
    end: usize,
) -> Result<(), Refusal>
    requires { end ≤ 64 }
    ensures gives { (m : Machine) (dag : List ℕ) (used : Marks) → Lawful w.old used dag m → BlankFrom m end
        → Gives (Answer.answer paper (dag_of dag) m handle value) m w.new used (call_report result) }
    ensures not_open { IfErr result (λ e. e ≡ refusals.NotOpen) }
{
    if calls_made(w) <= handle {
        return Err(Refusal::NotOpen);
    }
    sites::answer::answer(w, handle, value, end)
}

pub fn answer(w: &mut [u32; Machine::WORDS], handle: u32, value: i32) -> Report
    ensures { (m : Machine) (dag : List ℕ) (used : Marks) → Lawful w.old used dag m
        → Gives (Answer.answer paper (dag_of dag) m handle value) m w.new used result }
{
    report(resume(w, handle, value, Machine::TOKENS))
}
