//! The traits of the outside, and what their calls answer.
ghost use Rattle.std.specs.Prelude.{is_err, ◌≡◌, ◌<◌, ◌≤◌, length, take, IfOk, OnErr, OnOk, Option};
ghost use Rattle.vax_outside.specs.Blocks.{BlockFile, GivesBlock, CountsRead, PutsBlock};
ghost use Rattle.vax_outside.specs.Channels.{Channels, Grew, kept, only, removed};
ghost use Rattle.vax_outside.specs.Directory.{Directory, AnswersRead, is_failed};
ghost use Rattle.vax_outside.specs.Faults.{CountsFailure};
ghost use Rattle.vax_outside.specs.declared.faults.Failures.{Failures};

use std::alloc::Global;
use thiserror::Error;

/// Why a file gave no bytes.
#[derive(Clone, Copy, PartialEq, Eq, Debug, Error)]
pub enum FilesFault {
    /// There is no file of this name.
    #[error("there is no file of this name")]
    Missing,
    /// The file has more bytes than the limit.
    #[error("the file has more bytes than the limit")]
    Large,
    /// The call failed.
    #[error("the file can't be read")]
    Failed,
    /// Memory was refused.
    #[error("out of memory")]
    NoMemory,
}

/// A call to the outside failed.
#[derive(Clone, Copy, PartialEq, Eq, Debug, Error)]
#[error("a call to the outside failed")]
pub struct Failed;

/// Files by name.
pub trait Files {
    /// The files' names and bytes, where the object tells them.
    ghost contents: { Self → Option Directory };

    /// How many calls have failed, and whether the last one did.
    ghost faults: { Self → Failures };

    /// Reads the file of this name, which may have at most `limit` bytes.
    fn read(&mut self, alloc: Global, name: &str, limit: u32) -> Result<Vec<u8>, FilesFault>
        ensures answer { AnswersRead result (contents self.old) name.now limit }
        ensures bound { IfOk result (λ bytes. length bytes.items ≤ limit) }
        ensures same { contents self.new ≡ contents self.old }
        ensures counts { CountsFailure (is_failed result) (faults self.old) (faults self.new) }
        ensures last { (faults self.new).last ≡ is_failed result };
}

/// The output channels: the guest's output, the report, the record of a run, and a saved state on its way to its file.
#[derive(Clone, Copy, PartialEq, Eq)]
pub enum Chan {
    Out,
    Report,
    Record,
    State,
}

/// What became of the file that a saved state is kept in.
#[derive(Clone, Copy, PartialEq, Eq)]
pub enum StateFile {
    /// The file of that name is what it was, or there is none.
    Untouched,
    /// There is no file of that name.
    Removed,
    /// It holds the state that was written.
    Kept,
}

/// Output channels.
pub trait Sink {
    /// What was written to each channel, where the object tells it.
    ghost contents: { Self → Option Channels };

    /// How many calls have failed, and whether the last one did.
    ghost faults: { Self → Failures };

    /// Appends a prefix of the bytes to a channel and answers its length, at least 1. After a failure each channel is
    /// as before.
    fn write(&mut self, chan: Chan, bytes: &[u8]) -> Result<usize, Failed>
        requires { 0 < length bytes.now }
        ensures some { IfOk result (λ n. 1 ≤ n) }
        ensures bound { IfOk result (λ n. n ≤ length bytes.now) }
        ensures ok { IfOk result
            (λ n. Grew (contents self.old) (contents self.new) (only chan (take n bytes.now))) }
        ensures err { OnErr result (contents self.new ≡ contents self.old) }
        ensures counts { CountsFailure (is_err result) (faults self.old) (faults self.new) }
        ensures last { (faults self.new).last ≡ is_err result };

    /// Ends a saved state: what was written to State becomes the state's file, in place of an older one. After a
    /// failure the older file is what it was.
    fn keep_state(&mut self) -> Result<(), Failed>
        ensures ok { OnOk result (Grew (contents self.old) (contents self.new) kept) }
        ensures err { OnErr result (contents self.new ≡ contents self.old) }
        ensures counts { CountsFailure (is_err result) (faults self.old) (faults self.new) }
        ensures last { (faults self.new).last ≡ is_err result };

    /// Removes an older state's file, if there is one.
    fn remove_state(&mut self) -> Result<(), Failed>
        ensures ok { OnOk result (Grew (contents self.old) (contents self.new) removed) }
        ensures err { OnErr result (contents self.new ≡ contents self.old) }
        ensures counts { CountsFailure (is_err result) (faults self.old) (faults self.new) }
        ensures last { (faults self.new).last ≡ is_err result };
}

/// A file of numbered blocks of 512 bytes.
pub trait PageFile {
    /// The blocks, the writes that succeeded and the number of reads that did, where the object tells them.
    ghost contents: { Self → Option BlockFile };

    /// How many calls have failed, and whether the last one did.
    ghost faults: { Self → Failures };

    /// What stays of the first object in the second, which came from it by calls of this trait alone.
    ghost since: { Self → Self → Type 0 };

    /// Reads block `n`. The bytes of a block that was never there are left open. After a failure `into` holds
    /// what it held before.
    fn read_block(&mut self, n: u32, into: &mut [u8; 512]) -> Result<(), Failed>
        ensures bytes { OnOk result (GivesBlock (contents self.old) n into.new) }
        ensures ok { OnOk result (CountsRead (contents self.old) (contents self.new)) }
        ensures err { OnErr result (contents self.new ≡ contents self.old) }
        ensures unread { OnErr result (into.new ≡ into.old) }
        ensures counts { CountsFailure (is_err result) (faults self.old) (faults self.new) }
        ensures last { (faults self.new).last ≡ is_err result }
        ensures since { (start : Self) → since start self.old → since start self.new };

    /// Writes block `n`, and no other.
    fn write_block(&mut self, n: u32, from: &[u8; 512]) -> Result<(), Failed>
        ensures ok { OnOk result (PutsBlock n from.now (contents self.old) (contents self.new)) }
        ensures err { OnErr result (contents self.new ≡ contents self.old) }
        ensures counts { CountsFailure (is_err result) (faults self.old) (faults self.new) }
        ensures last { (faults self.new).last ≡ is_err result }
        ensures since { (start : Self) → since start self.old → since start self.new };
}
