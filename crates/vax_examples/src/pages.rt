//! A page file that may give other bytes than it was given.
ghost use Rattle.std.specs.Prelude.{None};
ghost use Rattle.vax_outside.specs.MemPages.{faults_of};

use vax_outside::{Failed, MemPages, PageFile};

/// A page file in memory that adds a number to the first byte of each block that it gives. It doesn't tell what it holds.
#[derive(Drop)]
pub(crate) struct Pages {
    pub(crate) blocks: MemPages,
    pub(crate) added: u8,
}

impl PageFile for Pages {
    ghost contents = { λ p. None };

    ghost faults = { λ p. faults_of p.blocks };

    ghost since = { λ start now. Unit {0} };

    fn read_block(&mut self, n: u32, into: &mut [u8; 512]) -> Result<(), Failed> {
        self.blocks.read_block(n, into)?;
        into[0] = into[0].wrapping_add(self.added);
        Ok(())
    }

    fn write_block(&mut self, n: u32, from: &[u8; 512]) -> Result<(), Failed> {
        self.blocks.write_block(n, from)
    }
}
