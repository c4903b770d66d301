// The program `orcrun` as one function from the bytes of its input to the bytes that it prints.
ghost use Rattle.std.specs.Prelude.{◌≡◌, length};
ghost use Rattle.model.specs.Output.Orcrun.{orcrun};
ghost use Rattle.model.specs.Output.Line.{text_of};
ghost use Rattle.lines.specs.LineTold.{told, HasFewValues};
ghost use Rattle.lines.specs.Shown.{shown, ShowsBytes};
ghost use Rattle.run.specs.Input.{dag_after};

use crate::input::table_end;
use house::house::run;
use job::dag::WORDS;
use lines::line::Line;
use lines::shown::Window;
use loader::table::load;

// Shows a line of which the run has no other.
fn show_alone(line: Line, output: &mut [u8], from: usize) -> usize
    requires { HasFewValues line }
    ensures { ShowsBytes output.old from 0 (text_of (told line.entry)) output.new result }
{
    let mut window = Window::new(output, from);
    window.show_line(line);
    window.total()
}

// Runs the job of an input and stores what it prints from byte `from` on, as many bytes as the output has room for. Answers how many bytes
// it prints in all. The dag's words are room that the caller lends, whatever they hold: those that the table's dag does not use stay.
pub fn orcrun(input: &[u8], from: usize, dag: &mut [u32; WORDS], output: &mut [u8]) -> usize
    ensures value { result ≡ length (orcrun input.now) }
    ensures dag_after { dag.new ≡ dag_after input.now dag.old }
    ensures output_after { output.new ≡ shown output.old from (orcrun input.now) }
{
    if 65536 < input.len() {
        return show_alone(Line::Long, output, from);
    }
    let end = table_end(input);
    let answer = load(&input[0..end], dag);
    match answer {
        Err(refused) => {
            let number = u8::from(refused.why);
            show_alone(Line::Table(number, refused.entry as u32), output, from)
        }
        Ok(_) => run(&input[end..], dag, output, from),
    }
}
