// Stop, publish, a silent site: "the token ends".
ghost use Rattle.std.specs.Prelude.{◌<◌};
ghost use Rattle.model.specs.declared.record.Machine.{Machine};
ghost use Rattle.record.specs.Changes.{dequeued};
ghost use Rattle.record.specs.Holds.{Holds};
ghost use Rattle.model.specs.Machine.Blank.{blank_token};
ghost use Rattle.model.specs.Machine.Update.{put};

use crate::actor::Actor;
use model::record::Machine;
use record::order::{Queue, leave};
use record::token::blank;

pub fn written(w: &mut [u32; Machine::WORDS], actor: Actor)
    requires { actor.token < 64 }
    ensures { let p = actor.token in (m : Machine) → Holds w.old m → actor.place < m.queued → Holds w.new (put p blank_token (dequeued m actor.place)) }
{
    leave::<Queue>(w, actor.place);
    blank(w, actor.token);
}
