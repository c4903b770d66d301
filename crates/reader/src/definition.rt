// The definitions in front of the goal.
ghost use Rattle.std.specs.Prelude.{◌≡◌, ◌≤◌, length};
ghost use Rattle.job.specs.Entry.{entries};
ghost use Rattle.job.specs.Read.{read_definition};
ghost use Rattle.entries.specs.Parts.{entries_from};
ghost use Rattle.reader.specs.Definition.{checked_definition, DefinitionsHold};

use entries::checked::Extent;
use entries::parts::EntryParts;
use entries::refusal::{Refused, TableRefusal};
use entries::table_kind::TableKind;
use entries::{expression, scope};
use job::bounds::{DEPTH_LIMIT, MOST_DEFINITIONS, PARAMETER_LIMIT};

// The definition from entry `at` on.
fn check_definition(parts: EntryParts, at: usize) -> Result<Extent, Refused>
    ensures { result
        ≡ checked_definition (read_definition at (entries_from parts.entry.kinds.now parts.entry.operands.now at)) }
{
    if parts.len() <= at {
        return Err(Refused {
            why: TableRefusal::EntryCount,
            entry: at,
        });
    }
    let TableKind::Definition = parts.kind_at(at)? else {
        return Err(Refused {
            why: TableRefusal::Kind,
            entry: at,
        });
    };
    let formals = parts.operand(at);
    if PARAMETER_LIMIT < formals {
        return Err(Refused {
            why: TableRefusal::Operand,
            entry: at,
        });
    }
    let scope = scope::of_formals(formals);
    let body = expression::check_expression(parts, DEPTH_LIMIT, scope, at + 1)?;
    Ok(Extent {
        next: body.next,
        nodes: body.nodes + 1,
    })
}

// As many definitions as there are sizes, from the first entry on. The count of formals and the number of nodes, its sink included, of
// each that is read before the first refusal are kept.
pub(crate) fn check_definitions(
    parts: EntryParts,
    formals: &mut [u32; MOST_DEFINITIONS],
    sizes: &mut [u32],
) -> Result<Extent, Refused>
    requires { length sizes.old ≤ 32 }
    ensures { DefinitionsHold (length sizes.old) (entries parts.entry.kinds.now parts.entry.operands.now) result
        formals.old formals.new sizes.old sizes.new }
{
    let mut at = 0;
    let mut nodes = 0;
    for (i, size) in sizes.iter_mut().enumerate() {
        let definition = check_definition(parts, at)?;
        formals[i] = parts.operand(at);
        *size = definition.nodes as u32;
        at = definition.next;
        nodes += definition.nodes;
    }
    Ok(Extent { next: at, nodes })
}
