// Where the words of a record stand: tokens, cells, queue, wait order, counts, order of call, clock. specs/Layout.antt has the same table.

// How many places there are, as a word of a record is held to them: a place is named by a smaller number.
pub const TOKEN_PLACE_COUNT: u32 = 64;

pub const CELL_PLACE_COUNT: u32 = 32;

// The last time that the clock can show, and at which a token can be due.
pub const LAST_TIME: u32 = 2147483647;

// The words of a token: state, its number, node, caller, cell, whether it has a value, the value, 0, and kind and number of each binding.
pub const TOKEN_WORDS: usize = 24;

pub const TOKEN_STATE_NUMBER: usize = 1;

pub(crate) const TOKEN_NODE: usize = 2;

pub(crate) const TOKEN_CALLER: usize = 3;

pub(crate) const TOKEN_CELL: usize = 4;

pub const TOKEN_VALUE_KIND: usize = 5;

pub const TOKEN_VALUE: usize = 6;

pub const TOKEN_UNUSED: usize = 7;

pub const TOKEN_BIND_KIND: usize = 8;

pub(crate) const TOKEN_BIND_NUMBER: usize = 9;

// The words of a cell: parent, whether it has a value, the value, 0.
pub const CELL_WORDS: usize = 4;

pub const CELL_VALUE_KIND: usize = 1;

pub const CELL_VALUE: usize = 2;

pub const CELL_UNUSED: usize = 3;

// Where each part begins.
pub const CELLS_START: usize = 1536;

pub const QUEUE_START: usize = 1664;

pub const WAITS_START: usize = 1728;

pub const QUEUE_LENGTH: usize = 1792;

pub(crate) const WAITS_LENGTH: usize = 1793;

pub(crate) const CALL_COUNT: usize = 1794;

pub(crate) const LAST_TOKEN: usize = 1795;

pub(crate) const LAST_CELL: usize = 1796;

pub const TIMERS_START: usize = 1797;

pub(crate) const TIMERS_LENGTH: usize = 1861;

pub(crate) const CLOCK: usize = 1862;

// A token's state.
pub const BLANK_STATE: u32 = 0;

pub const READY_STATE: u32 = 1;

pub const WAITING_STATE: u32 = 2;

pub const CALLED_STATE: u32 = 3;

pub const DUE_STATE: u32 = 4;

pub const FRAME_STATE: u32 = 5;

// What a variable is bound to.
pub const EMPTY_SLOT: u32 = 0;

pub const VALUE_SLOT: u32 = 1;

pub const CELL_SLOT: u32 = 2;
