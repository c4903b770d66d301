// The calls on a record whose index rules hold: they are not tested again. The marks say what is in use, before a call and after it.
ghost use Rattle.std.specs.Prelude.{◌≡◌, List, ℕ, IfErr};
ghost use Rattle.job.specs.Words.{dag_of};
ghost use Rattle.model.specs.Machine.Clock as Clock;
ghost use Rattle.model.specs.Machine.Limits.{paper};
ghost use Rattle.model.specs.declared.record.Machine.{Machine};
ghost use Rattle.model.specs.declared.reply.Refusal.TheVariants as refusals;
ghost use Rattle.acts.specs.Acting.{Lawful, Gives, call_report};
ghost use Rattle.reach.specs.declared.used.Marks.{Marks};

use crate::report::report;
use clock::advance::{move_clock, takes_time};
use model::record::Machine;
use model::reply::{Refusal, Report};

// Tokens that wake are in use before and after, and name what they named: the marks stay.
pub fn move_to(w: &mut [u32; Machine::WORDS], time: u32) -> Result<(), Refusal>
    ensures gives { (m : Machine) (dag : List ℕ) (used : Marks) → Lawful w.old used dag m
        → Gives (Clock.advance paper (dag_of dag) m time) m w.new used (call_report result) }
    ensures wrong_time { IfErr result (λ e. e ≡ refusals.WrongTime) }
{
    if !takes_time(w, time) {
        return Err(Refusal::WrongTime);
    }
    move_clock(w, time);
    Ok(())
}

pub fn advance(w: &mut [u32; Machine::WORDS], time: u32) -> Report
    ensures { (m : Machine) (dag : List ℕ) (used : Marks) → Lawful w.old used dag m
        → Gives (Clock.advance paper (dag_of dag) m time) m w.new used result }
{
    report(move_to(w, time))
}
