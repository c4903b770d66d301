// Which replies refuse, and which are printed.
ghost use Rattle.std.specs.Prelude.{◌≡◌};
ghost use Rattle.model.specs.Machine.Reply.{is_refused};
ghost use Rattle.turns.specs.Turn.{has_line};

use model::reply::Reply;

#[tactic(auto, unfolding(model::specs::Machine::Reply::is_refused))]
pub fn is_refused(reply: Reply) -> bool
    ensures { result ≡ is_refused reply }
{
    matches!(reply, Reply::Refused(_))
}

#[tactic(auto, unfolding(crate::specs::Turn::has_line))]
pub fn has_line(reply: Reply) -> bool
    ensures { result ≡ has_line reply }
{
    !matches!(reply, Reply::Done | Reply::Waits)
}
