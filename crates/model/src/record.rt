// The machine record: its tables, orders and counts, its limits, and the record of a start.
ghost use Rattle.std.specs.Prelude.{◌≡◌};
ghost use Rattle.model.specs.Machine.Limits.{paper};
ghost use Rattle.model.specs.Machine.Start.{start_machine};

use crate::cell::Cell;
use crate::token::{Slot, State, Token};

// `queue`, `waits` and `timers` are in use up to `queued`, `waiting` and `timed`; `lasttoken` and `lastcell` are the last places given.
// `timers` is the order of call of the tokens that are due later, and `clock` the present time.
#[derive(Clone, Copy)]
pub struct Machine {
    pub tokens: [Token; Machine::TOKENS],
    pub cells: [Cell; Machine::CELLS],
    pub queue: [u8; Machine::TOKENS],
    pub queued: usize,
    pub waits: [u8; Machine::TOKENS],
    pub waiting: usize,
    pub calls: u32,
    pub lasttoken: u8,
    pub lastcell: u8,
    pub timers: [u8; Machine::TOKENS],
    pub timed: usize,
    pub clock: u32,
}

impl Machine {
    // "Tokens in use: at most 64."
    pub const TOKENS: usize = 64;
    // "Cells in use: at most 32."
    pub const CELLS: usize = 32;
    // The words of a record: crate `record` says which stands where.
    pub const WORDS: usize = 1863;

    // The record of a start: one ready token, at place 0 and at the goal's first node. The other crates work on a record's words, and
    // crate `record` writes those of a start.
    fn start(goal: u16) -> Machine
        ensures { result ≡ start_machine paper goal }
    {
        let blank = Token {
            node: 0,
            binds: [Slot::Empty; 8],
            value: None,
            caller: None,
            cell: None,
            state: State::Blank,
        };
        let cell = Cell {
            parent: None,
            value: None,
        };
        let mut tokens = [blank; Machine::TOKENS];
        tokens[0] = Token {
            node: goal,
            state: State::Ready,
            ..blank
        };
        Machine {
            tokens,
            cells: [cell; Machine::CELLS],
            queue: [0; Machine::TOKENS],
            queued: 1,
            waits: [0; Machine::TOKENS],
            waiting: 0,
            calls: 0,
            lasttoken: 0,
            lastcell: (Machine::CELLS - 1) as u8,
            timers: [0; Machine::TOKENS],
            timed: 0,
            clock: 0,
        }
    }
}
