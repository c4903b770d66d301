// Why a table is refused, and at which entry.
ghost use Rattle.std.specs.Prelude.{◌≡◌};
ghost use Rattle.entries.specs.Refusal.{number_of};

use std::convert::From;

// What is wrong: the cases stand in the order of the paper's numbers, 1 to 8.
#[derive(Clone, Copy)]
pub enum TableRefusal {
    // "Fewer than 4 bytes, or length is not 4 + 5N".
    Length,
    // "D or N outside its range".
    Sizes,
    // "Kind unknown, or not one that may stand here".
    Kind,
    // "Operand breaks its row, site unknown, or built-in count wrong".
    Operand,
    // "Entries run out, or remain after the goal".
    EntryCount,
    // "Depth 25".
    Depth,
    // "Variable out of scope, or a binder where 8 are in scope".
    Scope,
    // "Definition missing, or its count of formals differs".
    Definition,
}

// The paper's number.
impl From<TableRefusal> for u8 {
    ghost from_gives = { λ why n. n ≡ number_of why };

    #[tactic(auto, unfolding(crate::specs::Refusal::number_of))]
    fn from(why: TableRefusal) -> u8 {
        match why {
            TableRefusal::Length => 1,
            TableRefusal::Sizes => 2,
            TableRefusal::Kind => 3,
            TableRefusal::Operand => 4,
            TableRefusal::EntryCount => 5,
            TableRefusal::Depth => 6,
            TableRefusal::Scope => 7,
            TableRefusal::Definition => 8,
        }
    }
}

// A refusal, with its entry.
#[derive(Clone, Copy)]
pub struct Refused {
    pub why: TableRefusal,
    pub entry: usize,
}
