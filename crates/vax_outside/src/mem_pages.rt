//! A page file in memory.
ghost use Rattle.std.specs.Prelude.{◌≡◌, ◌≤◌, IfOk, OnErr, OnOk, Some, is_err, replicate, vec_capacity};
ghost use Rattle.std.specs.FinMap.{get};
ghost use Rattle.std.specs.Option.{option_map};
ghost use Rattle.vax_outside.specs.Blocks.{CountsRead, GivesBlock, PutsBlock, zeroed};
ghost use Rattle.vax_outside.specs.Faults.{CountsFailure, no_failures};

use crate::fails::{is_read_named, is_write_named};
use crate::faults::{Failures, raised};
use crate::{Fail, Failed, PageFile};
use std::alloc::Global;
use vax_space::NoMemory;

/// A page file in memory, which tells its blocks, its writes and the number of its reads.
#[derive(Drop)]
pub struct MemPages {
    blocks: Vec<[u8; 512]>,
    writes: Vec<(u32, [u8; 512])>,
    room: usize,
    fails: Vec<Fail>,
    reads: u64,
    calls: u64,
    read_calls: u64,
    write_calls: u64,
    faults: Failures,
    ghost reserved: { room ≤ vec_capacity writes },
}

impl MemPages {
    ghost use Rattle.vax_outside.specs.MemPages.{file_of, limits_of, calls_of, faults_of};

    /// So many blocks of zeros, numbered from 0, and room for so many entries in the list of writes. A call fails
    /// exactly where `fails` names it, its block isn't below `blocks`, or it is a write and the list is full.
    pub fn new(
        alloc: Global,
        blocks: u32,
        writes: u32,
        fails: Vec<Fail>,
    ) -> Result<MemPages, NoMemory>
        ensures file { IfOk result (λ m. file_of m ≡ zeroed blocks) }
        ensures limits { IfOk result
            (λ m. limits_of m ≡ record { blocks = blocks; writes = writes; fails = fails.items }) }
        ensures calls { IfOk result (λ m. calls_of m ≡ record { all = 0; reads = 0; writes = 0 }) }
        ensures faults { IfOk result (λ m. faults_of m ≡ no_failures) }
    {
        Ok(MemPages {
            blocks: zeros(alloc, blocks)?,
            writes: Vec::with_capacity(alloc, writes as usize)?,
            room: writes as usize,
            fails,
            reads: 0,
            calls: 0,
            read_calls: 0,
            write_calls: 0,
            faults: Failures::none(),
        })
    }

    /// Block `n`, or None where there is no such block.
    pub fn block(&self, n: u32) -> Option<&[u8; 512]>
        ensures { option_map (λ block. block.now) result ≡ get (file_of self.now).blocks n }
    {
        self.blocks.get(n as usize)
    }

    /// The number and the bytes of each block that was written, in the order of the writes.
    pub fn writes(&self) -> &[(u32, [u8; 512])]
        ensures { result.now ≡ (file_of self.now).writes }
    {
        &self.writes
    }

    /// How many blocks were read.
    pub fn reads(&self) -> u64
        ensures { result ≡ (file_of self.now).reads }
    {
        self.reads
    }
}

/// So many blocks of zeros.
fn zeros(alloc: Global, count: u32) -> Result<Vec<[u8; 512]>, NoMemory>
    ensures { IfOk result (λ blocks. blocks.items ≡ replicate count (replicate 512 0)) }
{
    let mut blocks = Vec::with_capacity(alloc, count as usize)?;
    for _ in 0..count {
        if blocks.push([0; 512]).is_err() {
            return Err(NoMemory);
        }
    }
    Ok(blocks)
}

impl PageFile for MemPages {
    ghost use Rattle.vax_outside.specs.MemPages.{file_of, limits_of, calls_of, faults_of, read_fails, write_fails, read_more, write_more};

    ghost contents = { λ m. Some (file_of m) };

    ghost faults = { λ m. faults_of m };

    ghost since = { λ start now. Unit {0} };

    fn read_block(&mut self, n: u32, into: &mut [u8; 512]) -> Result<(), Failed>
        ensures bytes { OnOk result (GivesBlock (Some (file_of self.old)) n into.new) }
        ensures ok { OnOk result (CountsRead (Some (file_of self.old)) (Some (file_of self.new))) }
        ensures err { OnErr result (Some (file_of self.new) ≡ Some (file_of self.old)) }
        ensures unread { OnErr result (into.new ≡ into.old) }
        ensures counts { CountsFailure (is_err result) (faults_of self.old) (faults_of self.new) }
        ensures last { (faults_of self.new).last ≡ is_err result }
        ensures failed { is_err result ≡ read_fails self.old n }
        ensures limits { limits_of self.new ≡ limits_of self.old }
        ensures calls { calls_of self.new ≡ read_more (calls_of self.old) }
    {
        self.calls = raised(self.calls);
        self.read_calls = raised(self.read_calls);
        let place = n as usize;
        if is_read_named(&self.fails, self.calls, self.read_calls) || self.blocks.len() <= place {
            self.faults.note(true);
            return Err(Failed);
        }
        *into = self.blocks[place];
        self.reads = raised(self.reads);
        self.faults.note(false);
        Ok(())
    }

    fn write_block(&mut self, n: u32, from: &[u8; 512]) -> Result<(), Failed>
        ensures ok { OnOk result
            (PutsBlock n from.now (Some (file_of self.old)) (Some (file_of self.new))) }
        ensures err { OnErr result (Some (file_of self.new) ≡ Some (file_of self.old)) }
        ensures counts { CountsFailure (is_err result) (faults_of self.old) (faults_of self.new) }
        ensures last { (faults_of self.new).last ≡ is_err result }
        ensures failed { is_err result ≡ write_fails self.old n }
        ensures limits { limits_of self.new ≡ limits_of self.old }
        ensures calls { calls_of self.new ≡ write_more (calls_of self.old) }
    {
        self.calls = raised(self.calls);
        self.write_calls = raised(self.write_calls);
        let place = n as usize;
        if is_write_named(&self.fails, self.calls, self.write_calls)
            || self.blocks.len() <= place
            || self.room <= self.writes.len()
        {
            self.faults.note(true);
            return Err(Failed);
        }
        self.blocks[place] = *from;
        self.writes.push((n, *from)).unwrap();
        self.faults.note(false);
        Ok(())
    }
}
