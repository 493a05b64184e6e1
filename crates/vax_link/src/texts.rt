//! Names in the texts of errors.

use std::fmt;
use vax_space::Bytes;

/// A name as a text shows it: each byte is the character with its number. The names of a source are in ASCII.
#[derive(Clone, Copy)]
pub(crate) struct NameText<'a> {
    name: &'a [u8],
}

pub(crate) fn text_of(name: &Bytes) -> NameText<'_> {
    NameText {
        name: name.as_slice(),
    }
}

impl fmt::Display for NameText<'_> {
    fn fmt<W: fmt::Write>(&self, f: &mut fmt::Formatter<W>) -> fmt::Result {
        for byte in self.name {
            f.write_char(char::from(*byte))?;
        }
        Ok(())
    }
}
