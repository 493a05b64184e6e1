//! The directives of data of MACRO-32: what they leave in a section, and their faults (VAX MACRO and Instruction Set
//! Reference Manual, "VAX MACRO assembler directives").
//!
//! Each call carries out one directive where it stands: [`data`] `.BYTE` to `.OCTA`, [`addresses`] `.ADDRESS`, [`text`]
//! `.ASCII`, `.ASCIC`, `.ASCIZ` and `.ASCID`, [`space`] `.BLKB` to `.BLKQ`, [`align`] `.ALIGN`, [`even`] `.EVEN` and [`odd`] `.ODD`.
//! [`item`] is one item, as a part of a statement, [`masked_item`] one that is the mask of an entry, and [`move_to`] what `. = e` leaves.
#![tactic(auto)]

mod boundary;
mod items;
mod masks;
mod texts;

pub use boundary::{align, even, move_to, odd, space};
pub use items::{addresses, data, item};
pub use masks::masked_item;
pub use texts::{TextForm, text};
