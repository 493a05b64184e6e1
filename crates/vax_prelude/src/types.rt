// Preludes, and the titles of the sources behind them.

/// A file that stands before each source: its name, and its text, whose last line ends.
#[derive(Drop)]
pub struct Prelude<'a> {
    pub name: &'a [u8],
    pub text: Vec<u8>,
}

/// The name of a source, and what stands before it.
#[derive(Clone, Copy)]
pub struct Title<'a> {
    pub preludes: &'a [Prelude<'a>],
    pub name: &'a [u8],
}
