// What was put since a mark.

ghost use Rattle.std.specs.Prelude.{◌≡◌, ◌≤◌, [], true, false, unwrap_or};

use std::alloc::Global;

/// What a section's size and counter and the size of all were before something was put into it.
#[derive(Clone, Copy)]
pub(crate) struct Put {
    pub(crate) size: u32,
    pub(crate) counter: Option<u32>,
    pub(crate) total: u32,
    pub ghost short: { size ≤ 1048576 },
    pub ghost near: { unwrap_or counter 0 ≤ 1048576 },
}

/// What was put since the mark, if there is one.
#[derive(Drop)]
pub(crate) struct Journal {
    pub(crate) marked: bool,
    pub(crate) puts: Vec<Put>,
}

impl Journal {
    ghost use Rattle.vax_asm_sections.specs.Journal.{Notes};

    /// No mark.
    pub(crate) fn new(alloc: Global) -> Journal
        ensures { result.marked ≡ false }
    {
        Journal {
            marked: false,
            puts: Vec::new(alloc),
        }
    }

    /// Sets the mark here. What was noted before is forgotten.
    pub(crate) fn mark(&mut self)
        ensures marked { self.new.marked ≡ true }
        ensures empty { self.new.puts.items ≡ [] }
    {
        self.puts.clear();
        self.marked = true;
    }

    pub(crate) fn unmark(&mut self)
        ensures { self.new.marked ≡ false }
    {
        self.marked = false;
    }

    /// Notes what is put, or drops the mark where memory is refused.
    pub(crate) fn note(&mut self, put: Put)
        ensures { Notes put self.old self.new }
    {
        if self.marked && self.puts.push(put).is_err() {
            self.marked = false;
        }
    }
}
