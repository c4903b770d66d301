// A token: "node, 8 bindings (empty, value or cell), value, caller, cell and state".

// What a variable is bound to.
#[derive(Clone, Copy)]
pub enum Slot {
    Empty,
    Value(i32),
    Cell(u8),
}

// A value, where there is one.
pub(crate) type Held = Option<i32>;

// The place of a token or of a cell. As a cell, `None` is the root, which has no place.
pub(crate) type Place = Option<u8>;

// Document 01: ready, waiting, called-out, frame. `Waiting` names the cell at which the token waits, `Called` the handle of its open call.
// Document 02, request 1: due later. `Due` has the due time.
#[derive(Clone, Copy)]
pub enum State {
    Blank,
    Ready,
    Waiting(u8),
    Called(u32),
    Due(u32),
    Frame,
}

#[derive(Clone, Copy)]
pub struct Token {
    pub node: u16,
    pub binds: [Slot; 8],
    pub value: Held,
    pub caller: Place,
    pub cell: Place,
    pub state: State,
}
