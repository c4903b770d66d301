// The entries of a table: "N kind bytes, then N operands of 4 bytes".
ghost use Rattle.std.specs.Prelude.{◌≡◌, ◌<◌, length, get_or};
ghost use Rattle.job.specs.Entry.{kind_of, operand_at};
ghost use Rattle.entries.specs.NamedKind.{kind_named};
ghost use Rattle.entries.specs.Parts.{Parts, AllBytes};
ghost use Rattle.entries.specs.Refusal.{found_at};

use crate::entry::word_at;
use crate::refusal::Refused;
use crate::table_kind::TableKind;
use std::convert::TryFrom;

// The kinds and the operands of at most 512 entries.
#[derive(Clone, Copy)]
pub struct EntryParts<'a> {
    pub kinds: &'a [u8],
    pub operands: &'a [u8],
    ghost fit: { Parts kinds.now operands.now },
    ghost bytes: { AllBytes operands.now },
}

impl<'a> EntryParts<'a> {
    // How many entries there are.
    pub fn len(self) -> usize
        ensures { result ≡ length self.entry.kinds.now }
    {
        self.kinds.len()
    }

    // The kind of entry `at`.
    #[tactic(auto, unfolding(crate::specs::Refusal::found_at))]
    pub fn kind_at(self, at: usize) -> Result<TableKind, Refused>
        requires { at < length self.kinds.now }
        ensures { result ≡ found_at at (kind_named (kind_of (get_or self.entry.kinds.now at 0))) }
    {
        TableKind::try_from(self.kinds[at]).map_err(|why| Refused { why, entry: at })
    }

    // The operand of entry `at`.
    pub fn operand(self, at: usize) -> u32
        requires { at < length self.kinds.now }
        ensures { result ≡ operand_at self.entry.operands.now at }
    {
        word_at(self.operands, 4 * at)
    }
}
