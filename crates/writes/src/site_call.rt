// Site call: "parameters in order; the first unset cell makes the token wait there. Otherwise a built-in replies and the token goes on, or
// it is silent and the token ends; an outside call takes the next handle (from 0), and the token is called out at the next node". A call of
// rwait makes the token due later at the next node.
ghost use Rattle.std.specs.Prelude.{◌≡◌, [], ◌∷◌, ◌++◌, ◌<◌, ◌+◌, suc};
ghost use Rattle.model.specs.Machine.Blank.{token_at};
ghost use Rattle.model.specs.Machine.Update.{with_node, with_state, with_value, put, enqueue, with_counts, with_timers, timers_of};
ghost use Rattle.model.specs.declared.record.Machine.{Machine};
ghost use Rattle.model.specs.Machine.Held.{Held};
ghost use Rattle.model.specs.declared.token.State.TheVariants as states;
ghost use Rattle.record.specs.Changes.{dequeued, delayed};
ghost use Rattle.record.specs.Holds.{Holds};
ghost use Rattle.record.specs.Layout.{held_kind, held_number};

use crate::actor::Actor;
use model::record::Machine;
use record::count::set_calls_made;
use record::layout::{CALLED_STATE, DUE_STATE, WAITING_STATE};
use record::order::{CallOrder, Queue, WaitOrder, join, leave, replace};
use record::token::{set_node, set_state, set_value};

// "the first unset cell makes the token wait there": at the cell c.
pub fn wait(w: &mut [u32; Machine::WORDS], actor: Actor, c: u32)
    requires { actor.token < 64 }
    ensures { let p = actor.token in (m : Machine) → Holds w.old m → actor.place < m.queued → m.waiting < 64
        → Holds w.new (delayed p (put p (with_state (states.Waiting c) (token_at m.tokens p)) (dequeued m actor.place))) }
{
    leave::<Queue>(w, actor.place);
    set_state(w, actor.token, WAITING_STATE, c);
    join::<WaitOrder>(w, actor.token as u32);
}

// "A built-in replies and the token goes on", with the value that has these 32 bits.
pub fn reply(w: &mut [u32; Machine::WORDS], actor: Actor, bits: u32, next: u32)
    requires { actor.token < 64 }
    ensures { let p = actor.token in (m : Machine) (v : Held) → Holds w.old m → actor.place < m.queued → held_kind v ≡ 1 → held_number v ≡ bits
        → Holds w.new (enqueue p (put p (with_node next (with_value v (token_at m.tokens p))) (dequeued m actor.place))) }
{
    replace::<Queue>(w, actor.place, actor.token as u32);
    set_value(w, actor.token, 1, bits);
    set_node(w, actor.token, next);
}

// "The token is called out at the next node", under a handle.
pub fn call_out(w: &mut [u32; Machine::WORDS], actor: Actor, handle: u32, next: u32)
    requires { (actor.token < 64) × (handle < 1000000) }
    ensures { let p = actor.token in (m : Machine) → Holds w.old m → actor.place < m.queued
        → Holds w.new
        (with_counts (suc handle) m.lasttoken m.lastcell
        (put p (with_node next (with_state (states.Called handle) (token_at m.tokens p))) (dequeued m actor.place))) }
{
    leave::<Queue>(w, actor.place);
    set_state(w, actor.token, CALLED_STATE, handle);
    set_node(w, actor.token, next);
    set_calls_made(w, handle + 1);
}

// The token is due later, at this time and at the next node, and the last in the order of call.
pub fn due_later(w: &mut [u32; Machine::WORDS], actor: Actor, due: u32, next: u32)
    requires { actor.token < 64 }
    ensures { let p = actor.token in (m : Machine) → Holds w.old m → actor.place < m.queued → m.timed < 64
        → Holds w.new
        (with_timers (timers_of (dequeued m actor.place) ++ (p ∷ []))
        (put p (with_node next (with_state (states.Due due) (token_at m.tokens p))) (dequeued m actor.place))) }
{
    leave::<Queue>(w, actor.place);
    set_state(w, actor.token, DUE_STATE, due);
    set_node(w, actor.token, next);
    join::<CallOrder>(w, actor.token as u32);
}
