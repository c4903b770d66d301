// The paper's numbers for tables and dags, each named once.

// "Counts are at most 4": parameters of a call, formals of a definition.
pub const PARAMETER_LIMIT: u32 = 4;

// "At most 8 are in scope".
pub const SCOPE_LIMIT: u32 = 8;

// "depth ends at 24".
pub const DEPTH_LIMIT: usize = 24;

// "D is 0 to 32" (also as the size of an array).
pub const DEFINITION_LIMIT: u32 = 32;

pub const MOST_DEFINITIONS: usize = 32;

// "N is 1 to 512".
pub const ENTRY_LIMIT: usize = 512;

// "At most 1,022 nodes".
pub const NODE_LIMIT: u32 = 1022;
