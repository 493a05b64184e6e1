//! Where an order stands.

/// Where an order stands: at a line, from 0, with so many attempts left of it.
#[derive(Clone, Copy, PartialEq, Eq)]
pub struct Position {
    pub line: usize,
    pub left: u32,
}
