// The delivery of a record.
ghost use Rattle.std.specs.Prelude.{List, ℕ, ◌+◌, ◌≤◌, length, take, drop};
ghost use Rattle.job.specs.Words.{dag_of};
ghost use Rattle.model.specs.Machine.Limits.{paper};
ghost use Rattle.job.specs.Number.{number};
ghost use Rattle.model.specs.Output.Orcrun.{delivered};
ghost use Rattle.model.specs.declared.record.Machine.{Machine};
ghost use Rattle.reach.specs.Marks.{BlankFrom};
ghost use Rattle.acts.specs.Acting.{Lawful, Gives, call_report};
ghost use Rattle.turns.specs.Turn.{IsDelivery};
ghost use Rattle.reach.specs.declared.used.Marks.{Marks};

use entries::entry::word_at;
use model::record::Machine;
use model::reply::Refusal;
use sites::number::signed;
use unchecked::advance::move_to;
use unchecked::answer::resume;

// "A record with handle 4294967295 names the time."
const CLOCK_HANDLE: u32 = 4294967295;

// Delivers the record at an index: "handle and signed value, each little-endian", or the time. From the end on no token is in use.
pub fn deliver(
    w: &mut [u32; Machine::WORDS],
    rest: &[u8],
    at: usize,
    end: usize,
) -> Result<(), Refusal>
    requires { (at + 8 ≤ length rest.now) × (end ≤ 64) }
    ensures gives { (m : Machine) (dag : List ℕ) (used : Marks) → Lawful w.old used dag m → BlankFrom m end
        → Gives (delivered paper (dag_of dag) m (number (take 4 (drop at rest.now)))
        (number (take 4 (drop (at + 4) rest.now)))) m w.new used (call_report result) }
    ensures delivery { IsDelivery result }
{
    let handle = word_at(rest, at);
    let value = word_at(rest, at + 4);
    if handle == CLOCK_HANDLE {
        return move_to(w, value);
    }
    resume(w, handle, signed(value), end)
}
