// "Only its formals bound": what the parameters pass on, read before anything is written, and then written to all eight variables.
ghost use Rattle.std.specs.Prelude.{◌≡◌, true, List, map, ◌<◌, length};
ghost use Rattle.job.specs.Node.{param_holds};
ghost use Rattle.job.specs.Words.{param_of};
ghost use Rattle.model.specs.Machine.Blank.{token_at};
ghost use Rattle.model.specs.Machine.Update.{put};
ghost use Rattle.model.specs.Machine.Step.{passed, formals_bound};
ghost use Rattle.model.specs.declared.record.Machine.{Machine};
ghost use Rattle.model.specs.declared.token.Slot.{Slot};
ghost use Rattle.model.specs.declared.token.Token.{Token};
ghost use Rattle.record.specs.Changes.{with_binds};
ghost use Rattle.record.specs.Holds.{Codes, Holds};
ghost use Rattle.record.specs.Layout.{slot_words};
ghost use Rattle.sites.specs.Row.{ParamsHold, params_at};

use job::dag::{PARAMETER_COUNT, PARAMETER_KIND, PARAMETER_WORD, VARIABLE, WORDS};
use job::wide::wide;
use model::record::Machine;
use record::layout::{EMPTY_SLOT, VALUE_SLOT};
use record::token::{SlotWords, bind, set_bind};
use writes::actor::Actor;
use writes::dag::dag_word;

// "A variable's binding is passed on as it is, its cell set or unset": what one parameter passes on, by its kind and word.
fn passed(w: &[u32; Machine::WORDS], p: usize, kind: u32, number: u32) -> SlotWords
    requires { (p < 64) × (param_holds (param_of kind number) ≡ true) }
    ensures { (m : Machine) → Codes w.now m → result ≡ slot_words (passed (token_at m.tokens p).binds (param_of kind number)) }
{
    if kind == VARIABLE {
        return bind(w, p, wide(number));
    }
    SlotWords {
        kind: VALUE_SLOT,
        number,
    }
}

// What all parameters pass on; the variables behind them are empty.
pub(crate) fn passed_slots(
    w: &[u32; Machine::WORDS],
    dag: &[u32; WORDS],
    actor: Actor,
) -> [SlotWords; 8]
    requires { (actor.token < 64) × ParamsHold dag.now actor.row }
    ensures { let p = actor.token in (m : Machine) → Codes w.now m
        → result ≡ map slot_words (formals_bound (token_at m.tokens p).binds (params_at dag.now actor.row)) }
{
    let count = wide(dag_word(dag, actor.row + PARAMETER_COUNT));
    let mut slots = [SlotWords {
        kind: EMPTY_SLOT,
        number: 0,
    }; 8];
    for i in 0..count {
        let kind = dag_word(dag, actor.row + PARAMETER_KIND + 2 * i);
        let number = dag_word(dag, actor.row + PARAMETER_WORD + 2 * i);
        slots[i] = passed(w, actor.token, kind, number);
    }
    slots
}

// The slots whose words these are, bound to all eight variables.
pub(crate) fn bind_slots(w: &mut [u32; Machine::WORDS], p: usize, slots: &[SlotWords; 8])
    requires { p < 64 }
    ensures { (m : Machine) (t : Token) (bs : List Slot) → Holds w.old (put p t m) → length bs ≡ 8
        → slots.now ≡ map slot_words bs → Holds w.new (put p (with_binds bs t) m) }
{
    for (x, &slot) in slots.iter().enumerate() {
        set_bind(w, p, x, slot);
    }
}
