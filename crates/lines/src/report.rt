// The line of a reply, where it has one.
ghost use Rattle.std.specs.Prelude.{◌≡◌, ◌+◌, ◌≤◌};
ghost use Rattle.lines.specs.Report.{reply_text};
ghost use Rattle.lines.specs.WindowShows.{ShowsMore};

use crate::line::Line;
use crate::shown::Window;
use model::reply::Reply;

impl Window<'_> {
    // (There are four values beside a reply.)
    pub fn show_reply(&mut self, reply: Reply, values: [i32; 4])
        requires { self.old.total + 80 ≤ 1000000000 }
        ensures shows { ShowsMore self.old self.new (reply_text reply values) }
        ensures upper_bound { self.new.total ≤ self.old.total + 80 }
    {
        match reply {
            Reply::Done | Reply::Waits => {}
            Reply::Published(v) => self.show_line(Line::Publish(v)),
            Reply::Called(handle, site, count) => {
                let most = usize::from(count).min(4);
                self.show_line(Line::Call(handle, site, &values[..most]));
            }
            Reply::Refused(refusal) => self.show_line(Line::Refused(u8::from(refusal))),
        }
    }
}
