//! Tokens and expressions of the MACRO-32 assembler.
//!
//! [`scan`] cuts a line into its tokens, and [`evaluate`] finds the value of an expression among them. [`certain_fault`] tells
//! a fault that stays whatever names stand for that have no value yet.
//! The rules are those of the VAX MACRO and Instruction Set Reference Manual, "Components of MACRO
//! source statements", in the profile that docs/DECISIONS.md describes.
#![tactic(auto)]

mod certain;
mod character;
mod context;
mod expression;
mod head;
mod line;
mod name;
mod nesting;
mod token;
mod value;
mod words;

pub use certain::certain_fault;
pub use character::{is_blank, is_name_character, spells};
pub use expression::evaluate;
pub use line::{pieces, scan};
pub use name::CanonicalName;
pub use token::{LexError, Piece, PieceKind, Span, Token, TokenKind};
pub use value::{ExprError, Names, Value, fitted_number};
pub use words::names;
