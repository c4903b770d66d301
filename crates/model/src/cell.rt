// A cell: "cells hold parent and value".
use crate::token::{Held, Place};

#[derive(Clone, Copy)]
pub struct Cell {
    pub parent: Place,
    pub value: Held,
}
