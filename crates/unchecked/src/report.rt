// What an answer or a clock move hands back.
ghost use Rattle.std.specs.Prelude.{◌≡◌};
ghost use Rattle.acts.specs.Acting.{call_report};

use acts::report::plain;
use model::reply::{Refusal, Reply, Report};

pub(crate) fn report(done: Result<(), Refusal>) -> Report
    ensures { result ≡ call_report done }
{
    match done {
        Ok(()) => plain(Reply::Done),
        Err(refusal) => plain(Reply::Refused(refusal)),
    }
}
