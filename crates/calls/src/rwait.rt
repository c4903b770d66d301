// A built-in's reply at the present time: a call of rwait is one that gives 0 now, one that falls due later, or a silent one. "The call
// falls due at the present time plus t. With a sum above 2147483647 the call never falls due ..; negative t is silent. With t = 0 the token
// joins the back of the queue in the call's own step, with value 0."
ghost use Rattle.std.specs.Prelude.{◌≡◌};
ghost use Rattle.job.specs.Site.{later};
ghost use Rattle.model.specs.declared.record.Machine.{Machine};
ghost use Rattle.record.specs.Holds.{Codes};
ghost use Rattle.sites.specs.SiteReply.{builtin_reply_of};
ghost use Rattle.calls.specs.TimedReply.{settled_at};

use model::record::Machine;
use record::count::clock;
use sites::due::due_time;
use sites::site::SiteReply;

#[derive(Clone, Copy)]
pub(crate) enum TimedReply {
    Gives(i32),
    Silent,
    Due(u32),
}

fn fall_due(present: u32, t: i32) -> TimedReply
    ensures { result ≡ settled_at present (later t) }
{
    match due_time(present, t) {
        Some(due) if present < due => TimedReply::Due(due),
        Some(_) => TimedReply::Gives(0),
        None => TimedReply::Silent,
    }
}

pub(crate) fn settle(w: &[u32; Machine::WORDS], said: SiteReply) -> TimedReply
    ensures { (m : Machine) → Codes w.now m → result ≡ settled_at m.clock (builtin_reply_of said) }
{
    match said {
        SiteReply::Gives(v) => TimedReply::Gives(v),
        SiteReply::Silent => TimedReply::Silent,
        SiteReply::Later(t) => fall_due(clock(w), t),
    }
}
