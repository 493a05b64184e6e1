// The types of templates.

use std::collections::BTreeMap;

/// A formal argument: its name, what stands for a missing one, and whether that is a new label.
#[derive(Drop)]
pub(crate) struct Formal {
    pub(crate) name: Vec<u8>,
    pub(crate) default: Vec<u8>,
    pub(crate) makes_label: bool,
}

/// Formal arguments, and the place of each name among them.
#[derive(Drop)]
pub(crate) struct Formals {
    pub(crate) list: Vec<Formal>,
    pub(crate) index: BTreeMap<Vec<u8>, usize>,
}

/// A formal argument's name in a line, and which formal argument it is.
#[derive(Clone, Copy)]
pub(crate) struct Slot {
    pub(crate) start: u32,
    pub(crate) end: u32,
    pub(crate) formal: usize,
}

/// A line of a body, with the places of formal arguments.
#[derive(Drop)]
pub(crate) struct BodyLine {
    pub(crate) text: Vec<u8>,
    pub(crate) slots: Vec<Slot>,
}

/// A macro, or what is repeated.
#[derive(Drop)]
pub(crate) struct Template {
    pub(crate) formals: Formals,
    pub(crate) lines: Vec<BodyLine>,
}

/// The texts that arguments have given so far, and the next place for one without a keyword, which is the number of those.
#[derive(Drop)]
pub(crate) struct Giving {
    pub(crate) next: usize,
    pub(crate) texts: Vec<Option<Vec<u8>>>,
}
