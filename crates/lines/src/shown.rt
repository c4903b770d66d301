// The part of the printed bytes that a caller has room for: those from `from` on, as many as fit.
ghost use Rattle.std.specs.Prelude.{◌≡◌, true, ◌+◌, ◌-◌, ◌<◌, ◌≤◌, length};
ghost use Rattle.model.specs.Output.Line.{text_of};
ghost use Rattle.lines.specs.LineTold.{told, HasFewValues};
ghost use Rattle.lines.specs.Shown.{with_byte};
ghost use Rattle.lines.specs.WindowShows.{ShowsMore};

use crate::line::Line;

// A caller's output, which shows the printed bytes from `from` on; `total` are printed so far.
#[derive(Drop)]
pub struct Window<'a> {
    pub output: &'a mut [u8],
    pub from: usize,
    pub total: usize,
}

// The byte behind the first `total`.
fn show_byte(output: &mut [u8], from: usize, total: usize, byte: u8)
    ensures { output.new ≡ with_byte output.old from total byte }
{
    if from <= total {
        let i = total - from;
        if i < output.len() {
            output[i] = byte;
        }
    }
}

impl<'a> Window<'a> {
    pub fn new(output: &'a mut [u8], from: usize) -> Window<'a>
        ensures same_reference { result.output.ghost_name ≡ output.entry.ghost_name }
        ensures output { result.output.now ≡ output.old }
        ensures from { result.from ≡ from }
        ensures total { result.total ≡ 0 }
    {
        Window {
            output,
            from,
            total: 0,
        }
    }

    // How many bytes are printed, shown or not.
    pub fn total(&self) -> usize
        ensures { result ≡ self.now.total }
    {
        self.total
    }

    // Is there room for a whole line behind the bytes that are printed? Then it is put there at once, without a buffer.
    fn has_room(&self) -> bool
        requires { self.now.total + 80 ≤ 1000000000 }
        ensures { result ≡ true → (self.now.from ≤ self.now.total) × (self.now.total - self.now.from + 80 ≤ length self.now.output.now) }
    {
        self.from <= self.total && self.total - self.from + Line::LONGEST <= self.output.len()
    }

    // The bytes of a line.
    pub fn show_bytes(&mut self, line: &[u8])
        requires { self.old.total + length line.now ≤ 1000000000 }
        ensures { ShowsMore self.old self.new line.now }
    {
        // in locals, since through the window its words are read and written again for each byte
        let output = &mut *self.output;
        let from = self.from;
        let mut total = self.total;
        for &byte in line {
            show_byte(output, from, total, byte);
            total += 1;
        }
        self.total = total;
    }

    // Shows a line behind the bytes that are printed. Where there may be no room for it, it is put into a buffer first.
    #[inline(always)]
    pub fn show_line(&mut self, line: Line)
        requires { (self.old.total + 80 ≤ 1000000000) × HasFewValues line }
        ensures shows { ShowsMore self.old self.new (text_of (told line.entry)) }
        ensures upper_bound { self.new.total ≤ self.old.total + 80 }
    {
        if self.has_room() {
            let at = self.total - self.from;
            self.total = self.from + line.put(self.output, at);
        } else {
            let mut buffer = [0u8; Line::LONGEST];
            let n = line.put(&mut buffer, 0);
            self.show_bytes(&buffer[..n]);
        }
    }
}
