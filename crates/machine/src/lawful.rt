// Index rules of words, once for both calls.
ghost use Rattle.std.specs.Prelude.{◌≡◌, is_some, IfSome};
ghost use Rattle.job.specs.Words.{dag_of};
ghost use Rattle.model.specs.Machine.Limits.{paper};
ghost use Rattle.model.specs.Machine.Rules.{rules_hold};
ghost use Rattle.job.specs.Test.{◌and◌};
ghost use Rattle.record.specs.LayoutDecoded.{machine_of};
ghost use Rattle.coded.specs.IsRecord.{is_record};
ghost use Rattle.acts.specs.Acting.{Lawful};

use job::dag::WORDS;
use model::record::Machine;
use reach::used::Marks;
use rules::rules::rules_hold;

// "14: dag or machine record breaks an index rule": none. Where none is broken, the marks of what is in use.
pub(crate) fn lawful_marks(w: &[u32; Machine::WORDS], dag: &[u32; WORDS]) -> Option<Marks>
    ensures value { is_some result ≡ (is_record w.now and rules_hold paper (dag_of dag.now) (machine_of w.now)) }
    ensures lawful { IfSome result (λ marks. Lawful w.now marks dag.now (machine_of w.now)) }
{
    let marks = Marks::of(w);
    if rules_hold(w, dag, &marks) {
        return Some(marks);
    }
    None
}
