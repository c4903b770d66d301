// An answer to an outside call: "gives its token the value and makes it ready".
ghost use Rattle.std.specs.Prelude.{◌≡◌, ◌≤◌, ◌<◌, ◌+◌, ◌*◌, IfSome};
ghost use Rattle.model.specs.Machine.Answer.{holder};
ghost use Rattle.model.specs.declared.record.Machine.{Machine};
ghost use Rattle.record.specs.Holds.{Codes};
ghost use Rattle.reach.specs.Marks.{BlankFrom};
ghost use Rattle.sites.specs.Answer.{Answered};

use crate::number::unsigned;
use model::record::Machine;
use model::reply::Refusal;
use record::layout::{CALLED_STATE, READY_STATE};
use record::order::Queue;
use record::{order, token};

// A state's kind and number as one number, so that both are compared at once.
fn as_one(kind: u32, number: u32) -> u64
    ensures { result ≡ 4294967296 * number + kind }
{
    u64::from(number) * 4294967296 + u64::from(kind)
}

// The place of the token that is called out under the handle.
fn find_open(w: &[u32; Machine::WORDS], handle: u32, end: usize) -> Option<usize>
    requires { end ≤ 64 }
    ensures place { (m : Machine) → Codes w.now m → BlankFrom m end → holder handle 0 m.tokens ≡ result }
    ensures before_end { IfSome result (λ p. p < end) }
{
    let open = as_one(CALLED_STATE, handle);
    for p in 0..end {
        if as_one(token::state(w, p), token::state_number(w, p)) == open {
            return Some(p);
        }
    }
    None
}

// "12: answer to a handle that is not open": the words stay as they are. From the end on no token is in use.
pub fn answer(
    w: &mut [u32; Machine::WORDS],
    handle: u32,
    value: i32,
    end: usize,
) -> Result<(), Refusal>
    requires { end ≤ 64 }
    ensures { Answered end handle value result w.old w.new }
{
    let p = find_open(w, handle, end).ok_or(Refusal::NotOpen)?;
    token::set_value(w, p, 1, unsigned(value));
    token::set_state(w, p, READY_STATE, 0);
    order::join::<Queue>(w, p as u32);
    Ok(())
}
