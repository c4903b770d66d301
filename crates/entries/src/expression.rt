// An expression, from its first entry on.
ghost use Rattle.std.specs.Prelude.{◌≡◌, ◌<◌, true};
ghost use Rattle.job.specs.Entry.{is_binder};
ghost use Rattle.job.specs.Read.{read_exp};
ghost use Rattle.entries.specs.Checked.{checked_exp};
ghost use Rattle.entries.specs.ExpressionSides.{JoinHolds};
ghost use Rattle.entries.specs.NamedKind.{join_meant};
ghost use Rattle.entries.specs.Parts.{Parts, entries_from};
ghost use Rattle.entries.specs.Scope.{HasMeaning, ForEvery};

use crate::checked::Extent;
use crate::parts::EntryParts;
use crate::refusal::{Refused, TableRefusal};
use crate::scope::Scope;
use crate::table_kind::{JoinKind, TableKind};
use crate::{entry, parameter, scope};

// The scopes of a join's left and right side, and the nodes that the join makes itself.
#[derive(Clone, Copy)]
struct Sides {
    pub left: Scope,
    pub right: Scope,
    pub nodes: usize,
}

// The sides of a join: a binder takes the next number.
fn sides_of(kind: JoinKind, scope: Scope) -> Sides
    requires { is_binder (join_meant kind) ≡ true → scope.count < 8 }
    ensures { ForEvery scope (λ l. JoinHolds kind l result) }
{
    match kind {
        JoinKind::Par => Sides {
            left: scope,
            right: scope,
            nodes: 1,
        },
        JoinKind::Seq => Sides {
            left: scope,
            right: scope::bind(scope, scope.count),
            nodes: 2,
        },
        JoinKind::Prune => Sides {
            left: scope::bind(scope, scope.count),
            right: scope,
            nodes: 3,
        },
    }
}

// The expression from entry `at` on, where so many levels of depth are left.
pub fn check_expression(
    parts: EntryParts,
    left: usize,
    scope: Scope,
    at: usize,
) -> Result<Extent, Refused>
    requires { HasMeaning scope }
    ensures { ForEvery scope (λ l. result
        ≡ checked_exp (read_exp left l at (entries_from parts.entry.kinds.now parts.entry.operands.now at))) }
{
    if parts.len() <= at {
        return Err(Refused {
            why: TableRefusal::EntryCount,
            entry: at,
        });
    }
    let kind = parts.kind_at(at)?;
    let operand = parts.operand(at);
    entry::fault(kind, operand, left, scope, at)?;
    match kind {
        TableKind::Stop => Ok(Extent {
            next: at + 1,
            nodes: 1,
        }),
        TableKind::Site | TableKind::Call => {
            let next = parameter::check_parameters(
                parts,
                (operand / 65536) as usize,
                scope,
                at + 1,
            )?;
            Ok(Extent { next, nodes: 1 })
        }
        TableKind::Join(join) => {
            let sides = sides_of(join, scope);
            let first = check_expression(parts, left - 1, sides.left, at + 1)?;
            let second = check_expression(parts, left - 1, sides.right, first.next)?;
            Ok(Extent {
                next: second.next,
                nodes: sides.nodes + first.nodes + second.nodes,
            })
        }
        TableKind::Definition | TableKind::Variable | TableKind::Constant => unreachable!(),
    }
}
