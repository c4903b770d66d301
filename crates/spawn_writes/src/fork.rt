// Fork: "left keeps the place, right is new".
ghost use Rattle.std.specs.Prelude.{◌<◌};
ghost use Rattle.model.specs.Machine.Blank.{token_at};
ghost use Rattle.model.specs.declared.record.Machine.{Machine};
ghost use Rattle.record.specs.Changes.{dequeued};
ghost use Rattle.record.specs.Holds.{Holds};
ghost use Rattle.model.specs.Machine.Update.{with_node, put, enqueue, new_token};

use crate::branches::Branches;
use model::record::Machine;
use record::count::set_last_token;
use record::order::{Queue, join, replace};
use record::token::{copy, set_node};
use writes::actor::Actor;

// What a fork writes, with the right token at the place `new`.
pub fn written(w: &mut [u32; Machine::WORDS], actor: Actor, new: usize, branches: Branches)
    requires { (actor.token < 64) × (new < 64) }
    ensures { let p = actor.token in (m : Machine) → Holds w.old m → actor.place < m.queued → m.queued < 64
        → Holds w.new
        (enqueue new (enqueue p
        (new_token new (with_node branches.right (token_at m.tokens p))
        (put p (with_node branches.left (token_at m.tokens p)) (dequeued m actor.place))))) }
{
    replace::<Queue>(w, actor.place, actor.token as u32);
    set_node(w, actor.token, branches.left);
    copy(w, actor.token, new);
    set_node(w, new, branches.right);
    set_last_token(w, new as u32);
    join::<Queue>(w, new as u32);
}
