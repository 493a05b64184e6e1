//! The log of a transaction.
ghost use Rattle.std.specs.Prelude.{◌≡◌, []};

use crate::entry::Entry;
use arrayvec::ArrayVec;

/// Room for the old values that a transaction logs. It is made once and lent to one transaction after the other, so that none has to clear it;
/// what it holds between two of them means nothing.
#[derive(Drop)]
pub struct Log {
    pub(crate) entries: ArrayVec<Entry, 96>,
}

impl Default for Log {
    #[inline]
    fn default() -> Log {
        Log::new()
    }
}

impl Log {
    /// An empty log.
    pub fn new() -> Log {
        Log {
            entries: ArrayVec::new(),
        }
    }

    /// Takes the log back to empty. It has one or two entries as a rule, which go one by one; the many of a procedure call go at once.
    #[inline(always)]
    pub(crate) fn forget(&mut self)
        ensures { self.new.entries.items ≡ [] }
    {
        if self.entries.len() > 3 {
            self.entries.clear();
        }
        while self.entries.pop().is_some() {}
    }
}
