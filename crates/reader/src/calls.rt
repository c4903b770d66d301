// Calls of definitions: each names one that there is, with as many parameters as it has formals.
ghost use Rattle.std.specs.Prelude.{◌≡◌, ◌<◌, length, get_or};
ghost use Rattle.job.specs.Entry.{entry, entries, operand_at};
ghost use Rattle.job.specs.Read.{need, call_holds, definitions_hold};
ghost use Rattle.entries.specs.Checked.{checked_test};
ghost use Rattle.entries.specs.Parts.{Parts};

use entries::parts::EntryParts;
use entries::refusal::{Refused, TableRefusal};
use entries::table_kind::TableKind;

// May a call with this operand stand beside definitions with these counts of formals?
fn call_holds(operand: u32, formals: &[u32]) -> bool
    ensures { result ≡ call_holds formals.now (entry 2 operand) }
{
    match formals.get((operand % 65536) as usize) {
        Some(count) => operand / 65536 == *count,
        None => false,
    }
}

// The entry `at`, if it is a call. Those of other kinds are passed by, and their operands not read.
fn check_call(parts: EntryParts, formals: &[u32], at: usize) -> Result<(), Refused>
    requires { at < length parts.kinds.now }
    ensures { result ≡ checked_test (need (call_holds formals.now
        (entry (get_or parts.entry.kinds.now at 0) (operand_at parts.entry.operands.now at))) 8 at) }
{
    let Ok(kind) = parts.kind_at(at) else {
        return Ok(());
    };
    let TableKind::Call = kind else {
        return Ok(());
    };
    if call_holds(parts.operand(at), formals) {
        return Ok(());
    }
    Err(Refused {
        why: TableRefusal::Definition,
        entry: at,
    })
}

// The first call that may not stand there.
pub(crate) fn check_calls(parts: EntryParts, formals: &[u32]) -> Result<(), Refused>
    ensures { result ≡ checked_test (definitions_hold formals.now 0
        (entries parts.entry.kinds.now parts.entry.operands.now)) }
{
    for at in 0..parts.len() {
        check_call(parts, formals, at)?;
    }
    Ok(())
}
