// The types of lines and expansions.

ghost use Rattle.std.specs.Prelude.{◌≡◌, ◌≤◌, All, length};
ghost use Rattle.std.proofs.Props.{props};
ghost use Rattle.vax_lex.specs.Tokens.{pieces_of};

use crate::error::FaultKind;
use crate::template_types::Template;
use std::collections::VecDeque;
use std::rc::Rc;
use vax_dialect::Dialect;
use vax_lex::Piece;

/// A line that is still to come: the number of its place in the source, or of the outermost call, and how many
/// expansions it stands in.
#[derive(Drop)]
pub(crate) struct SourceLine {
    pub(crate) number: u32,
    pub(crate) depth: u32,
    pub(crate) text: Vec<u8>,
}

/// What is left of a line that was read: all of it, where its label was handed out, or the statement of an `.IIF`.
#[derive(Drop)]
pub(crate) struct Remainder {
    pub(crate) number: u32,
    pub(crate) depth: u32,
    pub(crate) text: Vec<u8>,
    pub(crate) labelled: bool,
    ghost short: { length text.items ≤ 1024 },
}

/// A line as it was read, in a dialect: its text, continuations joined, the pieces of the text, the lines that it was, and whether its
/// label was handed out.
#[derive(Drop)]
pub(crate) struct Reading {
    pub(crate) dialect: Dialect,
    pub(crate) number: u32,
    pub(crate) depth: u32,
    pub(crate) text: Vec<u8>,
    pub(crate) pieces: Vec<Piece>,
    pub(crate) parts: Vec<Vec<u8>>,
    pub(crate) labelled: bool,
    ghost short: { length text.items ≤ 1024 },
    ghost cut: { pieces.items ≡ pieces_of dialect text.items },
    ghost short_parts: { All (λ t. length t.items ≤ 1024) parts.items } by { Prim.hlevel props },
}

/// What comes of a line put behind others.
#[derive(Clone, Copy)]
pub(crate) enum Joined {
    Whole,
    /// It is continued.
    More,
    Fault(u32, FaultKind),
}

/// A line that was read, or the fault that it has.
#[derive(Drop)]
pub(crate) enum Read {
    Line(Reading),
    Fault(u32, FaultKind),
    Nothing,
}

/// An open expansion: its lines from a place on, in these texts, then so many copies of all of them, and then copies in
/// other texts.
#[derive(Drop)]
pub(crate) struct Frame {
    pub(crate) template: Rc<Template>,
    pub(crate) at: usize,
    pub(crate) texts: Vec<Vec<u8>>,
    pub(crate) copies: u64,
    pub(crate) others: VecDeque<Vec<Vec<u8>>>,
    pub(crate) number: u32,
    pub(crate) depth: u32,
}

/// The lines of the source and of open expansions.
#[derive(Drop)]
pub(crate) struct Lines {
    pub(crate) source: Vec<u8>,
    pub(crate) at: usize,
    pub(crate) number: u32,
    pub(crate) frames: VecDeque<Frame>,
}
