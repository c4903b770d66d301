// Where: "left binds x to the new cell; right is new and belongs to it".
ghost use Rattle.std.specs.Prelude.{◌≡◌, ◌<◌};
ghost use Rattle.model.specs.Machine.Blank.{token_at};
ghost use Rattle.model.specs.declared.record.Machine.{Machine};
ghost use Rattle.record.specs.Changes.{dequeued};
ghost use Rattle.record.specs.Holds.{Holds};
ghost use Rattle.model.specs.Machine.Update.{with_node, with_binding, in_cell, put, enqueue, new_token, new_cell};
ghost use Rattle.model.specs.declared.token.Slot.TheVariants as slots;
ghost use Rattle.record.specs.Changes.{unset_cell};

use crate::branches::Branches;
use model::record::Machine;
use record::cell::put_unset;
use record::count::{set_last_cell, set_last_token};
use record::layout::CELL_SLOT;
use record::order::{Queue, join, replace};
use record::token::{SlotWords, cell, copy, set_bind, set_cell, set_node};
use writes::actor::Actor;

// The two tokens: the right one is a copy at the place `new`, in the cell c; the left one binds x to c.
fn split_tokens(
    w: &mut [u32; Machine::WORDS],
    actor: Actor,
    new: usize,
    c: usize,
    x: usize,
    branches: Branches,
)
    requires { (actor.token < 64) × (new < 64) × (c < 32) × (x < 8) }
    ensures { let p = actor.token in (m : Machine) → Holds w.old m → (p ≡ new → ⊥)
        → Holds w.new
        (put new (in_cell c (with_node branches.right (token_at m.tokens p)))
        (put p (with_node branches.left (with_binding x (slots.Cell c) (token_at m.tokens p))) m)) }
{
    copy(w, actor.token, new);
    set_node(w, new, branches.right);
    set_cell(w, new, c as u32 + 1);
    let slot = SlotWords {
        kind: CELL_SLOT,
        number: c as u32,
    };
    set_bind(w, actor.token, x, slot);
    set_node(w, actor.token, branches.left);
}

// What a where writes, with the right token at the place `new` and the new cell at the place c.
pub fn written(
    w: &mut [u32; Machine::WORDS],
    actor: Actor,
    new: usize,
    c: usize,
    x: usize,
    branches: Branches,
)
    requires { (actor.token < 64) × (new < 64) × (c < 32) × (x < 8) }
    ensures { let p = actor.token in (m : Machine) → Holds w.old m → actor.place < m.queued → m.queued < 64 → (p ≡ new → ⊥)
        → Holds w.new
        (enqueue new (enqueue p
        (new_cell c (unset_cell (token_at m.tokens p).cell)
        (new_token new (in_cell c (with_node branches.right (token_at m.tokens p)))
        (put p (with_node branches.left (with_binding x (slots.Cell c) (token_at m.tokens p))) (dequeued m actor.place)))))) }
{
    let parent = cell(w, actor.token);
    replace::<Queue>(w, actor.place, actor.token as u32);
    split_tokens(w, actor, new, c, x, branches);
    set_last_token(w, new as u32);
    put_unset(w, c, parent);
    set_last_cell(w, c as u32);
    join::<Queue>(w, new as u32);
}
