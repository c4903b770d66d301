// The last lines of a run.
ghost use Rattle.std.specs.Prelude.{◌≡◌, [], ◌∷◌, ◌+◌, ◌≤◌};
ghost use Rattle.model.specs.Output.Line.{text_of_all, end, limit};
ghost use Rattle.lines.specs.LastLines.{last_lines};
ghost use Rattle.lines.specs.WindowShows.{ShowsMore};

use crate::line::Line;
use crate::shown::Window;

impl Window<'_> {
    // "With 100,000 steps made and a token ready: `limit`, then `end`."
    pub fn show_limit(&mut self, steps: u32)
        requires { self.old.total + 160 ≤ 1000000000 }
        ensures { ShowsMore self.old self.new (text_of_all (limit ∷ end steps ∷ [])) }
    {
        self.show_line(Line::Limit);
        self.show_line(Line::End(steps));
    }

    // "A trailing piece prints `short`": so many bytes are left, fewer than a record has. "Last .. `end` and accepted steps."
    pub fn show_last(&mut self, left: usize, steps: u32)
        requires { self.old.total + 160 ≤ 1000000000 }
        ensures { ShowsMore self.old self.new (text_of_all (last_lines left steps)) }
    {
        if left != 0 {
            self.show_line(Line::Short);
        }
        self.show_line(Line::End(steps));
    }
}
