// What was changed since a mark.

ghost use Rattle.std.specs.Prelude.{◌≡◌, true, []};
ghost use Rattle.vax_asm_values.specs.Marks.{Noted};

/// A change of definitions.
#[derive(Clone, Copy)]
pub(crate) enum Change {
    /// One more definition is there, the last one.
    Opened,
    /// The definition with this number was to come, and is there.
    Defined(usize),
    /// The definition with this number had no value, and has one.
    Known(usize),
}

/// The changes since a mark, which are written down only while there is one.
#[derive(Drop)]
pub(crate) struct Journal {
    pub(crate) marked: bool,
    pub(crate) changes: Vec<Change>,
}

impl Journal {
    /// Sets a mark here.
    pub(crate) fn mark(&mut self)
        ensures marked { self.new.marked ≡ true }
        ensures changes { self.new.changes.items ≡ [] }
    {
        self.changes.clear();
        self.marked = true;
    }

    /// Writes a change down, if there is a mark. Where memory is refused, there is no mark any more.
    pub(crate) fn note(&mut self, change: Change)
        ensures { Noted self.old self.new change }
    {
        if self.marked && self.changes.push(change).is_err() {
            self.marked = false;
        }
    }
}
