// Where the two tokens of a fork or a where go on.

#[derive(Clone, Copy)]
pub struct Branches {
    pub left: u32,
    pub right: u32,
}
