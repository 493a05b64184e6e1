// Definitions that wait for others.

/// A definition, and those for which it waits. Definitions are told apart by numbers, which the caller gives out.
#[derive(Drop)]
pub struct Step {
    pub from: usize,
    pub to: Vec<usize>,
}
