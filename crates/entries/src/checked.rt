// What the reader answers.

// What was read: the first entry behind it, and its number of nodes.
#[derive(Clone, Copy)]
pub struct Extent {
    pub next: usize,
    pub nodes: usize,
}
