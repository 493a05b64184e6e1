//! What a line of a schedule says.

/// What is made absent.
#[derive(Clone, Copy, PartialEq, Eq)]
pub enum Target {
    /// The page with this number: an address shifted right by 9.
    Page(u32),
    /// Every page of the space.
    All,
}

/// `at T PAGE`: a page is made absent before the attempt of one turn.
#[derive(Clone, Copy)]
pub struct Fixed {
    /// The turn, from 1 to 10^15.
    pub turn: u64,
    /// The page's number.
    pub page: u32,
}

/// `each N PAGE` or `each N all`: the same before each turn that a number divides.
#[derive(Clone, Copy)]
pub struct Repeated {
    /// The number, from 1 to 10^9.
    pub turns: u64,
    /// What is made absent.
    pub target: Target,
}

/// A line of a schedule.
#[derive(Clone, Copy)]
pub enum Rule {
    At(Fixed),
    Each(Repeated),
}
