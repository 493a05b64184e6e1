//! A part of a page file.
ghost use Rattle.std.specs.Prelude.{◌≡◌};
ghost use Rattle.vax_window.specs.Windows.{window_of};

use vax_outside::{Failed, PageFile};

/// A part of a page file, lent: its block `n` is block `(first + n) mod 2^32` of the file.
#[derive(Drop)]
pub struct Window<'a, F: PageFile> {
    pub file: &'a mut F,
    pub first: u32,
}

impl<'a, F: PageFile> Window<'a, F> {
    /// The part that begins at block `first`.
    pub fn new(file: &'a mut F, first: u32) -> Window<'a, F>
        ensures lent { result.file.ghost_name ≡ file.entry.ghost_name }
        ensures now { result.file.now ≡ file.old }
        ensures first { result.first ≡ first }
    {
        Window { file, first }
    }

    /// Gives the file back.
    pub fn close(self)
        ensures { self.exit.0.now ≡ self.entry.file.now }
    {}
}

impl<'a, F: PageFile> PageFile for Window<'a, F> {
    ghost contents = { λ w. window_of w.first (F.contents w.file.now) };

    ghost faults = { λ w. F.faults w.file.now };

    ghost since = { λ start now. (now.file.ghost_name ≡ start.file.ghost_name)
        × (now.first ≡ start.first)
        × ((begin : F) → F.since begin start.file.now → F.since begin now.file.now) };

    fn read_block(&mut self, n: u32, into: &mut [u8; 512]) -> Result<(), Failed> {
        self.file.read_block(self.first.wrapping_add(n), into)
    }

    fn write_block(&mut self, n: u32, from: &[u8; 512]) -> Result<(), Failed> {
        self.file.write_block(self.first.wrapping_add(n), from)
    }
}
