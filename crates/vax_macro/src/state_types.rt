// What is left to open of a source.

ghost use Rattle.std.specs.Prelude.{◌≤◌, All, length};
ghost use Rattle.std.proofs.Props.{props};

use crate::line_types::{Lines, SourceLine};
use crate::template_types::{Formals, Template};
use std::collections::{BTreeMap, VecDeque};
use std::rc::Rc;
use vax_dialect::Dialect;

/// Where a condition, a macro or a repeat begins: the number of its line, and how many lines were read with it.
#[derive(Clone, Copy, PartialEq, Eq)]
pub struct Begin {
    pub number: u32,
    pub place: u32,
}

/// What a body is for.
#[derive(Drop)]
pub(crate) enum Use {
    Macro {
        name: Vec<u8>,
        formals: Formals,
    },
    Copies(u64),
    /// A copy for each text of a formal argument.
    Each {
        formal: Vec<u8>,
        texts: Vec<Vec<u8>>,
    },
}

/// The body of a macro or a repeat that is being read, and how many begins in it have no end so far.
#[derive(Drop)]
pub(crate) struct Pending {
    pub(crate) use_of: Use,
    pub(crate) begin: Begin,
    pub(crate) depth: u32,
    pub(crate) nested: u32,
    pub(crate) lines: Vec<Vec<u8>>,
    ghost short: { All (λ t. length t.items ≤ 1024) lines.items } by { Prim.hlevel props },
}

/// An open condition: how many expansions it stands in, whether the text around it is read, whether it holds, and
/// whether the text here would be read.
#[derive(Clone, Copy)]
pub(crate) struct OpenCondition {
    pub(crate) begin: Begin,
    pub(crate) depth: u32,
    pub(crate) outer: bool,
    pub(crate) holds: bool,
    pub(crate) here: bool,
}

/// A macro that was called: how many expansions its lines stand in, and how many arguments without a keyword its call has.
#[derive(Clone, Copy)]
pub(crate) struct Call {
    pub(crate) depth: u32,
    pub(crate) arguments: usize,
}

/// What lines change: the lines to come, the macros, the body that is being read, the open conditions and the calls, and
/// how many labels were made.
#[derive(Drop)]
pub(crate) struct State {
    /// The dialect of the source.
    pub(crate) dialect: Dialect,
    pub(crate) lines: Lines,
    pub(crate) macros: BTreeMap<Vec<u8>, Rc<Template>>,
    pub(crate) collecting: Option<Pending>,
    pub(crate) conditions: VecDeque<OpenCondition>,
    pub(crate) calls: VecDeque<Call>,
    pub(crate) made: u32,
}

/// What a line did.
#[derive(Drop)]
pub(crate) enum Done {
    /// It changed what is left to open.
    Goes,
    /// It is a statement.
    Gives,
    /// This text is a statement in its place.
    Writes(Vec<u8>),
    /// The line is read again as this text.
    Turns(Vec<u8>),
    /// What is behind a place is read as a line of its own.
    Again(usize),
    /// The label up to a place is a statement, and the line is read again without it.
    Label(usize),
    Fails(crate::error::FaultKind),
}
