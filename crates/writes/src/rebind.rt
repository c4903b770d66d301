// Assign, remove: "bind or empty the variable, go on".
ghost use Rattle.std.specs.Prelude.{◌≡◌, ◌<◌};
ghost use Rattle.model.specs.Machine.Blank.{token_at};
ghost use Rattle.model.specs.declared.record.Machine.{Machine};
ghost use Rattle.record.specs.Changes.{dequeued};
ghost use Rattle.record.specs.Holds.{Holds};
ghost use Rattle.model.specs.Machine.Update.{with_node, with_binding, put, enqueue};
ghost use Rattle.model.specs.declared.token.Slot.{Slot};
ghost use Rattle.record.specs.Layout.{slot_words};

use crate::actor::Actor;
use model::record::Machine;
use record::order::{Queue, replace};
use record::token::{SlotWords, set_bind, set_node};

// The slot whose words these are is bound to x, and the token goes on.
pub fn written(w: &mut [u32; Machine::WORDS], actor: Actor, x: usize, words: SlotWords, next: u32)
    requires { (actor.token < 64) × (x < 8) }
    ensures { let p = actor.token in (m : Machine) (s : Slot) → Holds w.old m → actor.place < m.queued → slot_words s ≡ words
        → Holds w.new (enqueue p (put p (with_node next (with_binding x s (token_at m.tokens p))) (dequeued m actor.place))) }
{
    replace::<Queue>(w, actor.place, actor.token as u32);
    set_bind(w, actor.token, x, words);
    set_node(w, actor.token, next);
}
