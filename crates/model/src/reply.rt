// What start, step, answer and advance hand back.
ghost use Rattle.std.specs.Prelude.{◌≡◌};
ghost use Rattle.model.specs.Machine.Reply.{number_of};

use crate::record::Machine;

// Why a call was declined.
#[derive(Clone, Copy)]
pub enum Refusal {
    NoToken,
    TokenLimit,
    CellLimit,
    NotOpen,
    CallLimit,
    Rule,
    WrongTime,
}

// Document 01's number; 15 is document 02's.
impl From<Refusal> for u8 {
    ghost from_gives = { λ refusal number. number ≡ number_of refusal };

    #[tactic(auto, unfolding(crate::specs::Machine::Reply::number_of))]
    fn from(refusal: Refusal) -> u8 {
        match refusal {
            Refusal::NoToken => 9,
            Refusal::TokenLimit => 10,
            Refusal::CellLimit => 11,
            Refusal::NotOpen => 12,
            Refusal::CallLimit => 13,
            Refusal::Rule => 14,
            Refusal::WrongTime => 15,
        }
    }
}

// What a call did. `Called` has the handle, the site and the number of parameter values.
#[derive(Clone, Copy)]
pub enum Reply {
    Done,
    Waits,
    Published(i32),
    Called(u32, u16, u8),
    Refused(Refusal),
}

// What a call on a lent record hands back: the reply, and the values of an outside call (the others are 0).
#[derive(Clone, Copy)]
pub struct Report {
    pub reply: Reply,
    pub values: [i32; 4],
}

// The reply, the values of an outside call (the others are 0), and the machine after the call.
#[derive(Clone, Copy)]
pub struct Outcome {
    pub reply: Reply,
    pub values: [i32; 4],
    pub machine: Machine,
}
