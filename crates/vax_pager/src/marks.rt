//! Marks of numbers.
ghost use Rattle.std.specs.Prelude.{◌≡◌, ◌<◌, true, IfOk};
ghost use Rattle.vax_pager.specs.Marks.{has_mark, no_mark};
ghost use Rattle.vax_pager.specs.Steps.{at};

use std::alloc::Global;
use std::marker::Model;
use vax_space::{NoMemory, PAGES};

/// For each number below `PAGES` whether it is marked. Takes a bit for each, 8,704 bytes.
#[derive(Drop)]
pub(crate) struct Marks {
    words: Vec<u64>,
}

impl Model for Marks {
    ghost use Rattle.std.specs.Prelude.{◌≡◌, ℕ, List, length};

    ghost Value = { List ℕ };

    ghost view = { λ m. m.words.items };

    ghost invariant = { λ m. length m.words.items ≡ 1088 };
}

impl Marks {
    /// No number is marked.
    pub(crate) fn new(alloc: Global) -> Result<Marks, NoMemory>
        ensures { IfOk result (λ marks. has_mark marks ≡ no_mark) }
    {
        let words = vec![in alloc; 0u64; PAGES / 64]?;
        Ok(Marks { words })
    }

    /// Whether a number is marked.
    pub(crate) fn has(&self, number: u32) -> bool
        requires few { number < 69632 }
        ensures { result ≡ has_mark self.now number }
    {
        self.words[number as usize / 64] >> (number % 64) & 1 == 1
    }

    /// Marks a number.
    pub(crate) fn set(&mut self, number: u32)
        requires few { number < 69632 }
        ensures { has_mark self.new ≡ at number true (has_mark self.old) }
    {
        self.words[number as usize / 64] |= 1 << (number % 64);
    }
}
