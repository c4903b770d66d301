// Document 02, request 2: "the token itself becomes the callee and the callee inherits its caller".
ghost use Rattle.std.specs.Prelude.{◌≡◌, ◌<◌};
ghost use Rattle.model.specs.Machine.Blank.{token_at};
ghost use Rattle.model.specs.Machine.Update.{put, enqueue};
ghost use Rattle.model.specs.Machine.Step.{callee};
ghost use Rattle.model.specs.declared.record.Machine.{Machine};
ghost use Rattle.model.specs.declared.token.State.TheVariants as states;
ghost use Rattle.record.specs.Changes.{dequeued};
ghost use Rattle.record.specs.Holds.{Holds};
ghost use Rattle.sites.specs.Row.{ParamsHold, params_at};

use crate::passing::{bind_slots, passed_slots};
use job::dag::WORDS;
use model::record::Machine;
use record::order::{Queue, replace};
use record::token::{set_node, set_value};
use writes::actor::Actor;

// "with no value and only its formals bound": caller, cell and state stay.
pub fn written(w: &mut [u32; Machine::WORDS], dag: &[u32; WORDS], actor: Actor, root: u32)
    requires { (actor.token < 64) × ParamsHold dag.now actor.row }
    ensures { let p = actor.token in (m : Machine) → Holds w.old m → actor.place < m.queued → (token_at m.tokens p).state ≡ states.Ready
        → Holds w.new
        (enqueue p (put p
        (callee (token_at m.tokens p).caller (token_at m.tokens p) root (params_at dag.now actor.row))
        (dequeued m actor.place))) }
{
    let slots = passed_slots(w, dag, actor);
    replace::<Queue>(w, actor.place, actor.token as u32);
    bind_slots(w, actor.token, &slots);
    set_value(w, actor.token, 0, 0);
    set_node(w, actor.token, root);
}
