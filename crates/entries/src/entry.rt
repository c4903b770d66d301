// One entry: the words of its bytes, its row, and what refuses it where an expression is read.
ghost use Rattle.std.specs.Prelude.{◌≡◌, ◌+◌, ◌*◌, ◌≤◌, length, take, drop};
ghost use Rattle.job.specs.Number.{number};
ghost use Rattle.job.specs.Entry.{row_holds};
ghost use Rattle.entries.specs.NamedKind.{kind_meant};
ghost use Rattle.entries.specs.EntryFault.{expression_fault};
ghost use Rattle.entries.specs.Refusal.{found_at};
ghost use Rattle.entries.specs.Scope.{ForEvery};

use crate::refusal::{Refused, TableRefusal};
use crate::scope::Scope;
use crate::table_kind::TableKind;
use job::bounds::{PARAMETER_LIMIT, SCOPE_LIMIT};
use job::site_parameters;

// Four bytes, the lowest first.
fn four_bytes(a: u8, b: u8, c: u8, d: u8) -> u32
    ensures { result ≡ a + 256 * (b + 256 * (c + 256 * d)) }
{
    u32::from_le_bytes([a, b, c, d])
}

// The number that the four bytes from an index on are.
pub fn word_at(bytes: &[u8], i: usize) -> u32
    requires { i + 4 ≤ length bytes.now }
    ensures { result ≡ number (take 4 (drop i bytes.now)) }
{
    four_bytes(bytes[i], bytes[i + 1], bytes[i + 2], bytes[i + 3])
}

// Does an operand keep to its kind's row of the table?
#[tactic(auto, unfolding(job::specs::Entry::row_holds, crate::specs::NamedKind::kind_meant, crate::specs::NamedKind::join_meant))]
fn row_holds(kind: TableKind, operand: u32) -> bool
    ensures { result ≡ row_holds (kind_meant kind) operand }
{
    match kind {
        TableKind::Stop | TableKind::Join(_) => operand == 0,
        TableKind::Site => site_parameters::takes(operand % 65536, operand / 65536),
        TableKind::Call => operand / 65536 <= PARAMETER_LIMIT,
        TableKind::Definition => operand <= PARAMETER_LIMIT,
        TableKind::Variable | TableKind::Constant => true,
    }
}

// What refuses the entry `at` by itself, where an expression is read: so many levels of depth are left.
pub(crate) fn fault(
    kind: TableKind,
    operand: u32,
    left: usize,
    scope: Scope,
    at: usize,
) -> Result<(), Refused>
    ensures { ForEvery scope (λ l. result ≡ found_at at (expression_fault left l (kind_meant kind) operand)) }
{
    if !kind.is_expression() {
        return Err(Refused {
            why: TableRefusal::Kind,
            entry: at,
        });
    }
    if !row_holds(kind, operand) {
        return Err(Refused {
            why: TableRefusal::Operand,
            entry: at,
        });
    }
    if left == 0 {
        return Err(Refused {
            why: TableRefusal::Depth,
            entry: at,
        });
    }
    if kind.is_binder() && SCOPE_LIMIT <= scope.count {
        return Err(Refused {
            why: TableRefusal::Scope,
            entry: at,
        });
    }
    Ok(())
}
