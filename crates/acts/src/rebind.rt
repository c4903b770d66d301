// Assign, remove: "bind or empty the variable, go on".
ghost use Rattle.std.specs.Prelude.{◌≡◌, ◌+◌, ◌<◌, ◌≤◌, ℕ, [], get_or};
ghost use Rattle.model.specs.Machine.Blank.{token_at};
ghost use Rattle.model.specs.declared.record.Machine.{Machine};
ghost use Rattle.record.specs.Changes.{dequeued};
ghost use Rattle.model.specs.Machine.Update.{with_node, with_binding, put, enqueue};
ghost use Rattle.model.specs.declared.token.Slot.{Slot};
ghost use Rattle.record.specs.Layout.{slot_words};
ghost use Rattle.job.specs.Words.{dag_of};
ghost use Rattle.model.specs.Machine.Limits.{paper};
ghost use Rattle.model.specs.Machine.Step as Step;
ghost use Rattle.acts.specs.Acting.{SomeMachine, Acting, Gives};
ghost use Rattle.model.specs.Machine.Reply.{accepted};
ghost use Rattle.model.specs.declared.reply.Reply.TheVariants as replies;
ghost use Rattle.model.specs.declared.token.Slot.TheVariants as slots;
ghost use Rattle.acts.specs.Acting.{Taking};

use crate::report::plain;
use job::dag::{NAMED_NUMBER, NEXT_NODE, WORDS};
use job::wide::wide;
use model::record::Machine;
use model::reply::{Reply, Report};
use reach::used::Marks;
use record::layout::{CELL_SLOT, EMPTY_SLOT, VALUE_SLOT};
use record::token::{SlotWords, bind, value};
use sweep::sweep::sweep;
use writes::actor::Actor;
use writes::dag::dag_word;
use writes::rebind::written;

// What was bound before may have been the last to name a cell.
fn rebind(
    w: &mut [u32; Machine::WORDS],
    marks: &mut Marks,
    dag: &[u32; WORDS],
    actor: Actor,
    words: SlotWords,
) -> Report
    requires { (actor.token < 64) × (actor.row + 12 ≤ 12331) × (get_or dag.now (actor.row + 1) 0 < 8) }
    ensures { let p = actor.token in (m : Machine) (s : Slot) → Taking w.old marks.old dag.now actor m
        → ((c : ℕ) → s ≡ slots.Cell c → ⊥) → slot_words s ≡ words
        → Gives (accepted replies.Done [] (enqueue p
        (put p (with_node (get_or dag.now (actor.row + 2) 0) (with_binding (get_or dag.now (actor.row + 1) 0) s (token_at m.tokens p)))
        (dequeued m actor.place)))) m w.new marks.new result }
{
    let x = wide(dag_word(dag, actor.row + NAMED_NUMBER));
    let next = dag_word(dag, actor.row + NEXT_NODE);
    let old = bind(w, actor.token, x).kind;
    written(w, actor, x, words, next);
    if old == CELL_SLOT {
        sweep(w, marks);
    }
    plain(Reply::Done)
}

// Assign: the token's value.
pub fn assign(
    w: &mut [u32; Machine::WORDS],
    marks: &mut Marks,
    dag: &[u32; WORDS],
    actor: Actor,
) -> Report
    requires { SomeMachine (Acting w.old marks.old dag.now actor 4) }
    ensures { (m : Machine) → Acting w.old marks.old dag.now actor 4 m
        → Gives (Step.step paper (dag_of dag.now) m actor.place) m w.new marks.new result }
{
    let words = SlotWords {
        kind: VALUE_SLOT,
        number: value(w, actor.token),
    };
    rebind(w, marks, dag, actor, words)
}

// Remove: nothing.
pub fn remove(
    w: &mut [u32; Machine::WORDS],
    marks: &mut Marks,
    dag: &[u32; WORDS],
    actor: Actor,
) -> Report
    requires { SomeMachine (Acting w.old marks.old dag.now actor 5) }
    ensures { (m : Machine) → Acting w.old marks.old dag.now actor 5 m
        → Gives (Step.step paper (dag_of dag.now) m actor.place) m w.new marks.new result }
{
    let words = SlotWords {
        kind: EMPTY_SLOT,
        number: 0,
    };
    rebind(w, marks, dag, actor, words)
}
