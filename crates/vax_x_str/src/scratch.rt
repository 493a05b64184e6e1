//! The bytes that parts work on.

/// Bytes that the parts of string instructions work on: a part puts them there before it uses them, so that it begins with no buffer to clear.
/// What they hold between two parts means nothing.
#[derive(Drop)]
pub struct Scratch {
    /// Of the string, or the first string.
    pub(crate) first: [u8; 512],
    /// Of the second string.
    pub(crate) second: [u8; 512],
    /// The table.
    pub(crate) table: [u8; 256],
}

impl Default for Scratch {
    fn default() -> Scratch {
        Scratch::new()
    }
}

impl Scratch {
    /// Bytes for parts, at first zeros.
    pub fn new() -> Scratch {
        Scratch {
            first: [0; 512],
            second: [0; 512],
            table: [0; 256],
        }
    }
}
