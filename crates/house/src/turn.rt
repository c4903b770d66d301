// A turn of a run and its line: the delivery of a record, or a step of the token at place 0. A reply is taken apart only where it has a
// line, so that a step without one costs nothing more.
ghost use Rattle.std.specs.Prelude.{◌≡◌, Bool, false, List, ℕ, ◌+◌, ◌≤◌, length};
ghost use Rattle.job.specs.Words.{dag_of};
ghost use Rattle.model.specs.declared.record.Machine.{Machine};
ghost use Rattle.model.specs.Output.Line.{refused, text_of};
ghost use Rattle.lines.specs.WindowShows.{ShowsMore};
ghost use Rattle.acts.specs.Acting.{SomeMachine, Lawful, QueueHasToken};
ghost use Rattle.acts.specs.SharedFrames.{OneCallee};
ghost use Rattle.turns.specs.Turn.{turn_outcome};
ghost use Rattle.house.specs.TurnLeaves.{TurnLeaves};

use job::dag::WORDS;
use lines::line::Line;
use lines::shown::Window;
use model::record::Machine;
use model::reply::Refusal;
use reach::marks::few_or_all;
use reach::used::Marks;
use turns::deliver::deliver;
use turns::reply::{has_line, is_refused};
use unchecked::step::step;

// The line of an answer to a handle that is not open: it is the same for all.
fn show_not_open(window: &mut Window)
    requires { window.old.total + 80 ≤ 1000000000 }
    ensures shows { ShowsMore window.old window.new (text_of (refused 12)) }
    ensures upper_bound { window.new.total ≤ window.old.total + 80 }
{
    window.show_line(Line::Refused(u8::from(Refusal::NotOpen)));
}

// The line of a refused record. Late answers may be many: theirs is put without a look at digits.
fn show_declined(number: u8, window: &mut Window)
    requires { window.old.total + 80 ≤ 1000000000 }
    ensures shows { ShowsMore window.old window.new (text_of (refused number)) }
    ensures upper_bound { window.new.total ≤ window.old.total + 80 }
{
    if number == u8::from(Refusal::NotOpen) {
        show_not_open(window);
    } else {
        window.show_line(Line::Refused(number));
    }
}

// "With the queue empty it delivers a record"; a refused answer or clock move doesn't end the run.
pub(crate) fn deliver_turn(
    w: &mut [u32; Machine::WORDS],
    marks: &Marks,
    rest: &[u8],
    at: usize,
    window: &mut Window,
)
    requires { (at + 8 ≤ length rest.now) × (window.old.total + 80 ≤ 1000000000) }
    ensures same_reference { window.new.output.ghost_name ≡ window.old.output.ghost_name }
    ensures from { window.new.from ≡ window.old.from }
    ensures leaves { (m : Machine) (dag : List ℕ) (shared : List Bool) → Lawful w.old marks.now dag m
        → OneCallee shared m → m.queued ≡ 0
        → TurnLeaves (turn_outcome (dag_of dag) m rest.now at) m w.new marks.now shared
        window.old.output.now window.old.from window.old.total window.new.output.now window.new.total false }
{
    let end = few_or_all(&marks.tokens);
    if let Err(refusal) = deliver(w, rest, at, end) {
        show_declined(u8::from(refusal), window);
    }
}

// "It runs house order"; "a refused step ends the run". Answers whether the run is over.
pub(crate) fn step_turn(
    w: &mut [u32; Machine::WORDS],
    marks: &mut Marks,
    shared: &mut [bool; Machine::TOKENS],
    dag: &[u32; WORDS],
    window: &mut Window,
) -> bool
    requires { SomeMachine (QueueHasToken w.old marks.old dag.now 0) × (window.old.total + 80 ≤ 1000000000) }
    ensures same_reference { window.new.output.ghost_name ≡ window.old.output.ghost_name }
    ensures from { window.new.from ≡ window.old.from }
    ensures leaves { (m : Machine) (rest : List ℕ) (at : ℕ)
        → QueueHasToken w.old marks.old dag.now 0 m
        → OneCallee shared.old m
        → TurnLeaves (turn_outcome (dag_of dag.now) m rest at) m w.new marks.new shared.new
        window.old.output.now window.old.from window.old.total window.new.output.now window.new.total result }
{
    let report = step(w, marks, shared, dag, 0);
    let reply = report.reply;
    if !has_line(reply) {
        return false;
    }
    let values = report.values;
    window.show_reply(reply, values);
    is_refused(reply)
}
