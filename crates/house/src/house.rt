// A house run: "it runs house order; with the queue empty it delivers a record". Its records are those of a run, so their index rules hold
// and are not tested again at each step.
ghost use Rattle.std.specs.Prelude.{◌≡◌, ◌≤◌, length};
ghost use Rattle.job.specs.Words.{dag_of};
ghost use Rattle.model.specs.Output.Line.{text_of_all};
ghost use Rattle.model.specs.Output.Orcrun.{run_lines};
ghost use Rattle.model.specs.Machine.Limits.{paper};
ghost use Rattle.model.specs.Machine.Start as Start;
ghost use Rattle.acts.specs.Acting.{Lawful};
ghost use Rattle.acts.specs.SharedFrames.{OneCallee};
ghost use Rattle.lines.specs.Shown.{ShowsBytes};
ghost use Rattle.house.specs.LoadedDag.{Accepted};

use crate::turn::{deliver_turn, step_turn};
use job::dag::{GOAL, WORDS};
use lines::line::Line;
use lines::shown::Window;
use model::record::Machine;
use reach::used::Marks;
use record::order::{self, Queue};
use unchecked::start::start;

// "With 100,000 steps made and a token ready: `limit`."
const STEPS: u32 = 100000;

// The turns of a run, from the record of its start.
fn run_turns(
    w: &mut [u32; Machine::WORDS],
    marks: &mut Marks,
    shared: &mut [bool; Machine::TOKENS],
    rest: &[u8],
    dag: &[u32; WORDS],
    output: &mut [u8],
    from: usize,
) -> usize
    requires accepted { Accepted dag.now × (length rest.now ≤ 65536) × Lawful w.old marks.old dag.now
        (Start.start paper (dag_of dag.now)).machine }
    requires one_callee { OneCallee shared.old (Start.start paper (dag_of dag.now)).machine }
    ensures { ShowsBytes output.old from 0 (text_of_all (run_lines paper 100000 (dag_of dag.now) rest.now))
        output.new result }
{
    let mut window = Window::new(output, from);
    let mut steps: u32 = 0;
    let mut at: usize = 0;
    loop {
        if order::count::<Queue>(w) == 0 {
            let left = rest.len() - at;
            if left < 8 {
                window.show_last(left, steps);
                return window.total();
            }
            deliver_turn(w, marks, rest, at, &mut window);
            at += 8;
            continue;
        }
        if steps == STEPS {
            window.show_limit(steps);
            return window.total();
        }
        if step_turn(w, marks, shared, dag, &mut window) {
            window.show_line(Line::End(steps));
            return window.total();
        }
        steps += 1;
    }
}

pub fn run(rest: &[u8], dag: &[u32; WORDS], output: &mut [u8], from: usize) -> usize
    requires { Accepted dag.now × (length rest.now ≤ 65536) }
    ensures { ShowsBytes output.old from 0 (text_of_all (run_lines paper 100000 (dag_of dag.now) rest.now))
        output.new result }
{
    let mut words = [0u32; Machine::WORDS];
    let mut shared = [false; Machine::TOKENS];
    let mut marks = start(&mut words, dag[GOAL]);
    run_turns(&mut words, &mut marks, &mut shared, rest, dag, output, from)
}
