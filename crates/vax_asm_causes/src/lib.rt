//! Where in a line a fault stands, and what causes it, in words (VAX MACRO and Instruction Set Reference Manual, "Diagnostic messages").
//!
//! What is proved of these is that the words can be printed, that the column lies within the line, and of most kinds of fault at which piece of the line
//! it is. Which words they are is tested. On which line of a source a name stands first is proved, and which remarks a source has.
#![tactic(auto)]

mod cause;
mod circle;
mod conditions;
mod count;
mod counts;
mod expansion;
mod facts;
mod form;
mod limits;
mod made;
mod names;
mod places;
mod range;
mod remarks;
mod statement;
mod templates;
mod token;
mod undefined;
mod words;

pub use cause::{Cause, Place, cause_of};
pub use expansion::{expansion_of, is_continued};
pub use facts::{Branch, Facts, KnownValue, Way, branch_of, expressions_in, names_of};
pub use names::{definition_of, is_definition};
pub use places::{Sought, first_line};
pub use remarks::{About, Remark, Wanted, remarks_of};
pub use statement::text_of;
