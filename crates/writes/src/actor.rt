// The token that acts.
// Its index in the queue, its place, and the word of the dag at which its node's row begins.
#[derive(Clone, Copy)]
pub struct Actor {
    pub place: usize,
    pub token: usize,
    pub row: usize,
}
