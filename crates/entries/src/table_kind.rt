// The kinds of entries.
ghost use Rattle.std.specs.Prelude.{◌≡◌};
ghost use Rattle.job.specs.Entry.{kind_of, is_expression, is_binder};
ghost use Rattle.entries.specs.NamedKind.{kind_named, kind_meant};

use crate::refusal::TableRefusal;
use std::convert::TryFrom;

// f | g, f >x> g, f <x< g.
#[derive(Clone, Copy)]
pub enum JoinKind {
    Par,
    Seq,
    Prune,
}

#[derive(Clone, Copy)]
pub enum TableKind {
    Stop,
    Site,
    Call,
    Join(JoinKind),
    Definition,
    Variable,
    Constant,
}

// By its number in the table of kinds.
impl TryFrom<u8> for TableKind {
    type Error = TableRefusal;

    ghost try_from_gives = { λ k r. r ≡ kind_named (kind_of k) };

    #[tactic(auto, unfolding(job::specs::Entry::kind_of, crate::specs::NamedKind::kind_named))]
    fn try_from(kind: u8) -> Result<TableKind, TableRefusal> {
        match kind {
            0 => Ok(TableKind::Stop),
            1 => Ok(TableKind::Site),
            2 => Ok(TableKind::Call),
            3 => Ok(TableKind::Join(JoinKind::Par)),
            4 => Ok(TableKind::Join(JoinKind::Seq)),
            5 => Ok(TableKind::Join(JoinKind::Prune)),
            6 => Ok(TableKind::Definition),
            7 => Ok(TableKind::Variable),
            8 => Ok(TableKind::Constant),
            _ => Err(TableRefusal::Kind),
        }
    }
}

impl TableKind {
    // May it stand where an expression is read?
    #[tactic(auto, unfolding(job::specs::Entry::is_expression, crate::specs::NamedKind::kind_meant, crate::specs::NamedKind::join_meant))]
    pub(crate) fn is_expression(self) -> bool
        ensures { result ≡ is_expression (kind_meant self) }
    {
        match self {
            TableKind::Stop | TableKind::Site | TableKind::Call | TableKind::Join(_) => true,
            TableKind::Definition | TableKind::Variable | TableKind::Constant => false,
        }
    }

    // Does it bind a variable?
    #[tactic(auto, unfolding(job::specs::Entry::is_binder, crate::specs::NamedKind::kind_meant, crate::specs::NamedKind::join_meant))]
    pub(crate) fn is_binder(self) -> bool
        ensures { result ≡ is_binder (kind_meant self) }
    {
        match self {
            TableKind::Join(JoinKind::Seq | JoinKind::Prune) => true,
            TableKind::Join(JoinKind::Par) => false,
            TableKind::Stop | TableKind::Site | TableKind::Call => false,
            TableKind::Definition | TableKind::Variable | TableKind::Constant => false,
        }
    }
}
