// The parameters of a call.
ghost use Rattle.std.specs.Prelude.{◌≡◌};
ghost use Rattle.job.specs.Read.{read_param_list};
ghost use Rattle.entries.specs.Checked.{checked_param_list};
ghost use Rattle.entries.specs.EntryFault.{parameter_fault};
ghost use Rattle.entries.specs.Parts.{Parts, entries_from};
ghost use Rattle.entries.specs.Refusal.{found_at};
ghost use Rattle.entries.specs.Scope.{HasMeaning, ForEvery};

use crate::parts::EntryParts;
use crate::refusal::{Refused, TableRefusal};
use crate::scope;
use crate::scope::Scope;
use crate::table_kind::TableKind;

// What refuses the parameter at entry `at`.
fn parameter_fault(parts: EntryParts, scope: Scope, at: usize) -> Result<(), Refused>
    ensures { ForEvery scope (λ l. result
        ≡ found_at at (parameter_fault l (entries_from parts.entry.kinds.now parts.entry.operands.now at))) }
{
    if parts.len() <= at {
        return Err(Refused {
            why: TableRefusal::EntryCount,
            entry: at,
        });
    }
    match parts.kind_at(at)? {
        TableKind::Constant => Ok(()),
        TableKind::Variable => {
            if scope::is_bound(scope, parts.operand(at)) {
                return Ok(());
            }
            Err(Refused {
                why: TableRefusal::Scope,
                entry: at,
            })
        }
        _ => Err(Refused {
            why: TableRefusal::Kind,
            entry: at,
        }),
    }
}

// So many parameters from entry `at` on: the first entry behind them.
pub(crate) fn check_parameters(
    parts: EntryParts,
    count: usize,
    scope: Scope,
    at: usize,
) -> Result<usize, Refused>
    requires { HasMeaning scope }
    ensures { ForEvery scope (λ l. result
        ≡ checked_param_list (read_param_list count l at (entries_from parts.entry.kinds.now parts.entry.operands.now at))) }
{
    let mut next = at;
    for _ in 0..count {
        parameter_fault(parts, scope, next)?;
        next += 1;
    }
    Ok(next)
}
