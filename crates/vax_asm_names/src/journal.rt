// What changed since a mark.

ghost use Rattle.std.specs.Prelude.{◌≡◌, ◌<◌, [], None, true, false, length, map};
ghost use Rattle.vax_asm_names.specs.ByName.{by_name};
ghost use Rattle.vax_asm_names.specs.Content.{name_of, names_in};
ghost use Rattle.vax_asm_names.specs.Journal.{Notes, said_of, undo, undone, with_said};
ghost use Rattle.vax_asm_names.specs.Names.{name_at};
ghost use Rattle.vax_asm_names.specs.declared.journal.Step.TheVariants.{Added, Changed, Begun};

use crate::types::{Content, DefinedBy, Name};
use std::alloc::Global;
use std::collections::BTreeMap;

/// All that is said of a name but its text.
#[derive(Clone, Copy)]
pub(crate) struct Said {
    pub(crate) definition: usize,
    pub(crate) defined_by: DefinedBy,
    pub(crate) global: bool,
    pub(crate) external: bool,
    pub(crate) weak: bool,
}

/// One change, with what was before it.
#[derive(Clone, Copy)]
pub(crate) enum Step {
    /// A name was added.
    Added,
    /// The name with this number became another, of which this was said.
    Changed { number: usize, was: Said },
    /// A block of local labels began, where this was the current one.
    Begun { block: usize },
}

/// The changes since the mark, if there is one.
#[derive(Drop)]
pub(crate) struct Journal {
    pub(crate) marked: bool,
    pub(crate) steps: Vec<Step>,
}

impl Journal {
    /// No mark.
    pub(crate) fn new(alloc: Global) -> Journal
        ensures { result.marked ≡ false }
    {
        Journal {
            marked: false,
            steps: Vec::new(alloc),
        }
    }

    /// Sets the mark here. What was noted before is forgotten.
    pub(crate) fn mark(&mut self)
        ensures marked { self.new.marked ≡ true }
        ensures empty { self.new.steps.items ≡ [] }
    {
        self.steps.clear();
        self.marked = true;
    }

    pub(crate) fn unmark(&mut self)
        ensures { self.new.marked ≡ false }
    {
        self.marked = false;
    }

    /// Notes a change, or drops the mark where memory is refused.
    pub(crate) fn note(&mut self, step: Step)
        ensures { Notes step self.old self.new }
    {
        if self.marked && self.steps.push(step).is_err() {
            self.marked = false;
        }
    }
}

impl Name {
    fn said(&self) -> Said
        ensures { result ≡ said_of (name_of self.now) }
    {
        Said {
            definition: self.definition,
            defined_by: self.defined_by,
            global: self.global,
            external: self.external,
            weak: self.weak,
        }
    }

    fn restore(&mut self, was: Said)
        ensures { name_of self.new ≡ with_said was (name_of self.old) }
    {
        self.definition = was.definition;
        self.defined_by = was.defined_by;
        self.global = was.global;
        self.external = was.external;
        self.weak = was.weak;
    }
}

/// Notes that a name is to change.
pub(crate) fn note_change(journal: &mut Journal, names: &[Name], number: usize)
    requires { number < length names.now }
    ensures { Notes (Changed number (said_of (name_at (map name_of names.now) number)))
        journal.old journal.new }
{
    if journal.marked {
        let was = names[number].said();
        journal.note(Step::Changed { number, was });
    }
}

/// Notes that a name with this text is to be added. A name that has the text already would lose its number for good, so the
/// mark is dropped then.
pub(crate) fn note_added(journal: &mut Journal, numbers: &BTreeMap<Vec<u8>, usize>, text: &[u8])
    ensures noted { Notes Added journal.old journal.new }
    ensures fresh { journal.new.marked ≡ true → by_name numbers.now text.now ≡ None }
{
    if !journal.marked {
        return;
    }
    if numbers.contains_key(text) {
        journal.unmark();
    } else {
        journal.note(Step::Added);
    }
}

impl Content {
    /// Takes the last name away, and its number.
    fn take_last(&mut self)
        ensures { names_in self.new ≡ undo Added (names_in self.old) }
    {
        if let Some(name) = self.names.pop() {
            self.numbers.remove(name.text.as_slice());
        }
    }

    /// Restores what was said of the name with this number.
    fn restore(&mut self, number: usize, was: Said)
        ensures { names_in self.new ≡ undo (Changed number was) (names_in self.old) }
    {
        if let Some(name) = self.names.get_mut(number) {
            name.restore(was);
        }
    }

    /// Takes the last block of local labels away, and goes on in the one with this number.
    fn take_block(&mut self, block: usize)
        ensures { names_in self.new ≡ undo (Begun block) (names_in self.old) }
    {
        self.further_blocks.pop();
        self.block = block;
    }

    /// Undoes a step.
    fn undo(&mut self, step: Step)
        ensures { names_in self.new ≡ undo step (names_in self.old) }
    {
        match step {
            Step::Added => self.take_last(),
            Step::Changed { number, was } => self.restore(number, was),
            Step::Begun { block } => self.take_block(block),
        }
    }

    /// Undoes these steps, the last one first.
    pub(crate) fn undo_all(&mut self, steps: &mut Vec<Step>)
        ensures { names_in self.new ≡ undone steps.old.items (names_in self.old) }
    {
        while let Some(step) = steps.pop() {
            self.undo(step);
        }
    }
}
