// A token's row: readers and writers of its fields. A writer changes the token at its place and nothing else of the record.
ghost use Rattle.std.specs.Prelude.{◌≡◌, ◌<◌};
ghost use Rattle.model.specs.Machine.Blank.{blank_token, token_at, slot_at};
ghost use Rattle.model.specs.Machine.Update.{put, with_node, with_state, with_value, with_binding};
ghost use Rattle.model.specs.declared.record.Machine.{Machine};
ghost use Rattle.model.specs.Machine.Held.{Held, Place};
ghost use Rattle.model.specs.declared.token.Slot.{Slot};
ghost use Rattle.model.specs.declared.token.State.{State};
ghost use Rattle.model.specs.declared.token.Token.{Token};
ghost use Rattle.record.specs.Holds.{Codes, Holds};
ghost use Rattle.record.specs.Changes.{with_caller, with_cell};
ghost use Rattle.record.specs.Layout.{state_kind, state_number, place_number, held_kind, held_number, slot_words};

use crate::layout::{
    TOKEN_BIND_KIND, TOKEN_BIND_NUMBER, TOKEN_CALLER, TOKEN_CELL, TOKEN_NODE, TOKEN_STATE_NUMBER,
    TOKEN_VALUE, TOKEN_VALUE_KIND, TOKEN_WORDS,
};
use model::record::Machine;

// A slot as its two words.
#[derive(Clone, Copy)]
pub struct SlotWords {
    pub kind: u32,
    pub number: u32,
}

pub fn state(w: &[u32; Machine::WORDS], p: usize) -> u32
    requires { p < 64 }
    ensures { (m : Machine) → Codes w.now m → result ≡ state_kind (token_at m.tokens p).state }
{
    w[TOKEN_WORDS * p]
}

// The cell at which the token waits, the handle of its open call, or its due time.
pub fn state_number(w: &[u32; Machine::WORDS], p: usize) -> u32
    requires { p < 64 }
    ensures { (m : Machine) → Codes w.now m → result ≡ state_number (token_at m.tokens p).state }
{
    w[TOKEN_WORDS * p + TOKEN_STATE_NUMBER]
}

pub fn node(w: &[u32; Machine::WORDS], p: usize) -> u32
    requires { p < 64 }
    ensures { (m : Machine) → Codes w.now m → result ≡ (token_at m.tokens p).node }
{
    w[TOKEN_WORDS * p + TOKEN_NODE]
}

pub fn caller(w: &[u32; Machine::WORDS], p: usize) -> u32
    requires { p < 64 }
    ensures { (m : Machine) → Codes w.now m → result ≡ place_number (token_at m.tokens p).caller }
{
    w[TOKEN_WORDS * p + TOKEN_CALLER]
}

pub fn cell(w: &[u32; Machine::WORDS], p: usize) -> u32
    requires { p < 64 }
    ensures { (m : Machine) → Codes w.now m → result ≡ place_number (token_at m.tokens p).cell }
{
    w[TOKEN_WORDS * p + TOKEN_CELL]
}

pub fn value_kind(w: &[u32; Machine::WORDS], p: usize) -> u32
    requires { p < 64 }
    ensures { (m : Machine) → Codes w.now m → result ≡ held_kind (token_at m.tokens p).value }
{
    w[TOKEN_WORDS * p + TOKEN_VALUE_KIND]
}

pub fn value(w: &[u32; Machine::WORDS], p: usize) -> u32
    requires { p < 64 }
    ensures { (m : Machine) → Codes w.now m → result ≡ held_number (token_at m.tokens p).value }
{
    w[TOKEN_WORDS * p + TOKEN_VALUE]
}

// The slot to which a variable is bound.
pub fn bind(w: &[u32; Machine::WORDS], p: usize, x: usize) -> SlotWords
    requires { (p < 64) × (x < 8) }
    ensures { (m : Machine) → Codes w.now m → result ≡ slot_words (slot_at (token_at m.tokens p).binds x) }
{
    SlotWords {
        kind: w[TOKEN_WORDS * p + TOKEN_BIND_KIND + 2 * x],
        number: w[TOKEN_WORDS * p + TOKEN_BIND_NUMBER + 2 * x],
    }
}

pub fn set_node(w: &mut [u32; Machine::WORDS], p: usize, node: u32)
    requires { p < 64 }
    ensures { (m : Machine) (t : Token) → Holds w.old (put p t m) → Holds w.new (put p (with_node node t) m) }
{
    w[TOKEN_WORDS * p + TOKEN_NODE] = node;
}

pub fn set_caller(w: &mut [u32; Machine::WORDS], p: usize, number: u32)
    requires { p < 64 }
    ensures { (m : Machine) (t : Token) (q : Place) → Holds w.old (put p t m) → place_number q ≡ number
        → Holds w.new (put p (with_caller q t) m) }
{
    w[TOKEN_WORDS * p + TOKEN_CALLER] = number;
}

pub fn set_cell(w: &mut [u32; Machine::WORDS], p: usize, number: u32)
    requires { p < 64 }
    ensures { (m : Machine) (t : Token) (q : Place) → Holds w.old (put p t m) → place_number q ≡ number
        → Holds w.new (put p (with_cell q t) m) }
{
    w[TOKEN_WORDS * p + TOKEN_CELL] = number;
}

// The state whose words these are.
pub fn set_state(w: &mut [u32; Machine::WORDS], p: usize, kind: u32, number: u32)
    requires { p < 64 }
    ensures { (m : Machine) (t : Token) (s : State) → Holds w.old (put p t m) → state_kind s ≡ kind → state_number s ≡ number
        → Holds w.new (put p (with_state s t) m) }
{
    w[TOKEN_WORDS * p] = kind;
    w[TOKEN_WORDS * p + TOKEN_STATE_NUMBER] = number;
}

// The value whose words these are.
pub fn set_value(w: &mut [u32; Machine::WORDS], p: usize, kind: u32, number: u32)
    requires { p < 64 }
    ensures { (m : Machine) (t : Token) (v : Held) → Holds w.old (put p t m) → held_kind v ≡ kind → held_number v ≡ number
        → Holds w.new (put p (with_value v t) m) }
{
    w[TOKEN_WORDS * p + TOKEN_VALUE_KIND] = kind;
    w[TOKEN_WORDS * p + TOKEN_VALUE] = number;
}

// The slot whose words these are, bound to a variable.
pub fn set_bind(w: &mut [u32; Machine::WORDS], p: usize, x: usize, words: SlotWords)
    requires { (p < 64) × (x < 8) }
    ensures { (m : Machine) (t : Token) (s : Slot) → Holds w.old (put p t m) → slot_words s ≡ words
        → Holds w.new (put p (with_binding x s t) m) }
{
    w[TOKEN_WORDS * p + TOKEN_BIND_KIND + 2 * x] = words.kind;
    w[TOKEN_WORDS * p + TOKEN_BIND_NUMBER + 2 * x] = words.number;
}

// The token at one place becomes that at another.
pub fn copy(w: &mut [u32; Machine::WORDS], from: usize, place: usize)
    requires { (from < 64) × (place < 64) }
    ensures { (m : Machine) → Holds w.old m → Holds w.new (put place (token_at m.tokens from) m) }
{
    let at = TOKEN_WORDS * from;
    w.copy_within(at..at + TOKEN_WORDS, TOKEN_WORDS * place);
}

// Document 01: blank. The place holds nothing.
pub fn blank(w: &mut [u32; Machine::WORDS], p: usize)
    requires { p < 64 }
    ensures { (m : Machine) → Holds w.old m → Holds w.new (put p blank_token m) }
{
    let at = TOKEN_WORDS * p;
    w[at..at + TOKEN_WORDS].fill(0);
}
