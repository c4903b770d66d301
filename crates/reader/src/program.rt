// A table's entries: definitions, goal, leftovers, calls.
ghost use Rattle.std.specs.Prelude.{◌≡◌, ◌≤◌, length};
ghost use Rattle.std.proofs.lemmas.List.Edits.{sets};
ghost use Rattle.job.specs.Entry.{entries};
ghost use Rattle.job.specs.Read.{leftovers, read_entries};
ghost use Rattle.entries.specs.Checked.{checked_test, checked_program};
ghost use Rattle.entries.specs.Parts.{entries_from};
ghost use Rattle.reader.specs.Definition.{definitions_found, definition_sizes};

use crate::{calls, definition};
use entries::checked::Extent;
use entries::parts::EntryParts;
use entries::refusal::{Refused, TableRefusal};
use entries::{expression, scope};
use job::bounds::{DEPTH_LIMIT, MOST_DEFINITIONS};

// Does the table end at entry `at`?
fn check_end(parts: EntryParts, at: usize) -> Result<(), Refused>
    ensures { result ≡ checked_test (leftovers at (entries_from parts.entry.kinds.now parts.entry.operands.now at)) }
{
    if at < parts.len() {
        return Err(Refused {
            why: TableRefusal::EntryCount,
            entry: at,
        });
    }
    Ok(())
}

// The entries of a table with as many definitions as there are sizes: the first entry behind them and the number of nodes, or the refusal.
// The sizes of its definitions are kept, so that no body is walked again to count it.
pub(crate) fn check_program(parts: EntryParts, sizes: &mut [u32]) -> Result<Extent, Refused>
    requires { length sizes.old ≤ 32 }
    ensures value { result
        ≡ checked_program (read_entries (length sizes.old) (entries parts.entry.kinds.now parts.entry.operands.now)) }
    ensures sizes_after { sizes.new ≡ sets sizes.old 0
        (definition_sizes (definitions_found (length sizes.old) 0 (entries parts.entry.kinds.now parts.entry.operands.now))) }
{
    let mut formals = [0u32; MOST_DEFINITIONS];
    let found = definition::check_definitions(parts, &mut formals, sizes)?;
    let goal = expression::check_expression(parts, DEPTH_LIMIT, scope::of_formals(0), found.next)?;
    check_end(parts, goal.next)?;
    calls::check_calls(parts, &formals[..sizes.len()])?;
    Ok(Extent {
        next: goal.next,
        nodes: found.nodes + goal.nodes + 1,
    })
}
