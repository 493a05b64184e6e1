//! The files, streams and page file of the system. They tell no content, and count what fails.
//!
//! Nothing says that the system does what it is asked: this is the trusted edge. A clause on what an object holds, or
//! on the files that there are, says nothing of these.
ghost use Rattle.std.specs.Prelude.{◌≡◌, ◌≤◌, ◌*◌, IfOk, None, is_err, length, not};
ghost use Rattle.vax_outside.specs.Directory.{is_failed};
ghost use Rattle.vax_outside.specs.Faults.{CountsFailure, no_failures};

use crate::faults::Failures;
use crate::limit::{Stream, is_beyond, is_stream_full, size_limit};
use crate::{Chan, Failed, Files, FilesFault, PageFile, Sink};
use std::alloc::Global;
use std::fs::{File, OpenFile, OpenOptions};
use std::io::{ErrorKind, Print, Read, Write};
use std::os::fd::AsFd;
use std::os::unix::fs::{FileExt, OpenOptionsExt};
use std::{fs, rt};

/// The file of a run's record or of a saved state.
const RECORD_NAME: &str = "vax.rec";

/// The new file that a saved state is written to, until it is whole.
const STATE_NAME: &str = "vax.rec.new";

/// The file of the blocks.
const PAGES_NAME: &str = "vax.pag";

/// The device that stands in for a standard stream.
const NULL_NAME: &str = "/dev/null";

/// How often a file is tried to be made anew, where another program makes one of its name each time.
const TRIES: u32 = 16;

/// Who may read and write a file that is made: its owner alone.
const OWNER_ONLY: u32 = 0o600;

/// What stands in for a standard stream that was closed when the program started: the null device, open for reading, so
/// that reading the stream gives the end and writing to it fails. Nothing stands in for one that is open.
///
/// The system gives a file the lowest number that is free. So the three streams are asked for in their order, before any
/// file is opened, and what stands in is kept to the end: then no file has the number of a stream.
pub fn stand_in<S: AsFd, R: rt::Files>(stream: &S, rt: &R) -> Result<Option<R::File>, Failed> {
    if stream.as_fd().try_clone_to_owned().is_ok() {
        return Ok(None);
    }
    fs::open(rt, NULL_NAME).map(Some).map_err(|_| Failed)
}

/// A new file of this name, in the place of the one that there was. Whoever has that one open keeps it.
fn make_anew<R: rt::Files>(rt: &R, name: &str) -> Option<R::File> {
    let mut options = OpenOptions::new();
    options
        .read(true)
        .write(true)
        .create_new(true)
        .mode(OWNER_ONLY);
    for _ in 0..TRIES {
        // Whether the name is free now is what the next call finds.
        let _ = fs::remove_file(rt, name);
        match options.open(rt, name) {
            Ok(file) => return Some(file),
            Err(e) if e.kind() == ErrorKind::AlreadyExists => {}
            Err(_) => return None,
        }
    }
    None
}

/// The system's files.
#[derive(Drop)]
pub struct HostFiles<R> {
    rt: R,
    faults: Failures,
}

impl<R: rt::Files> HostFiles<R> {
    /// The files that `rt` reaches.
    pub fn new(rt: R) -> HostFiles<R>
        ensures { result.faults ≡ no_failures }
    {
        HostFiles {
            rt,
            faults: Failures::none(),
        }
    }

    fn load(&self, alloc: Global, name: &str, limit: u32) -> Result<Vec<u8>, FilesFault>
        ensures { IfOk result (λ bytes. length bytes.items ≤ limit) }
    {
        let file = match fs::open(&self.rt, name) {
            Ok(file) => file,
            Err(e) if e.kind() == ErrorKind::NotFound => return Err(FilesFault::Missing),
            Err(e) => return Err(fault_of(e.kind())),
        };
        let mut bytes = Vec::new(alloc);
        match file.take(u64::from(limit) + 1).read_to_end(&mut bytes) {
            Ok(_) if bytes.len() > limit as usize => Err(FilesFault::Large),
            Ok(_) => Ok(bytes),
            Err(e) => Err(fault_of(e.kind())),
        }
    }
}

/// Whether a read failed.
fn is_failed(answer: &Result<Vec<u8>, FilesFault>) -> bool
    ensures { result ≡ is_failed answer.now }
{
    matches!(answer, Err(FilesFault::Failed))
}

/// Want of memory, or a failure.
fn fault_of(kind: ErrorKind) -> FilesFault {
    match kind {
        ErrorKind::OutOfMemory => FilesFault::NoMemory,
        _ => FilesFault::Failed,
    }
}

impl<R: rt::Files> Files for HostFiles<R> {
    ghost contents = { λ _. None };

    ghost faults = { λ f. f.faults };

    fn read(&mut self, alloc: Global, name: &str, limit: u32) -> Result<Vec<u8>, FilesFault> {
        let answer = self.load(alloc, name, limit);
        self.faults.note(is_failed(&answer));
        answer
    }
}

/// Writes some of the bytes to a stream. What a signal interrupts is tried again.
fn write_stream<P: Print>(stream: &P, bytes: &[u8]) -> Option<usize> {
    for _ in 0..u64::MAX {
        match stream.write_some(bytes) {
            Ok(count) => return Some(count),
            Err(e) if e.kind() == ErrorKind::Interrupted => {}
            Err(_) => return None,
        }
    }
    None
}

/// The same to a file.
fn write_file<W: Write>(file: &mut W, bytes: &[u8]) -> Option<usize> {
    for _ in 0..u64::MAX {
        match file.write(bytes) {
            Ok(count) => return Some(count),
            Err(e) if e.kind() == ErrorKind::Interrupted => {}
            Err(_) => return None,
        }
    }
    None
}

/// A file that was made anew, and how many bytes were written to it.
#[derive(Drop)]
struct Growing<F> {
    file: F,
    len: u64,
}

impl<F: Write> Growing<F> {
    /// Writes some of the bytes at the file's end.
    fn write(&mut self, bytes: &[u8], limit: Option<u64>) -> Option<usize> {
        if is_beyond(self.len, limit) {
            return None;
        }
        let count = write_file(&mut self.file, bytes)?;
        self.len = self.len.saturating_add(count as u64);
        Some(count)
    }
}

/// The system's output: Out is standard output, Report standard error, and Record the file `vax.rec`, which the first
/// write to it makes anew. State is a new file beside that one, which takes its name when it is whole.
#[derive(Drop)]
pub struct HostSink<O, E, R: rt::Files> {
    out: O,
    report: E,
    rt: R,
    limit: Option<u64>,
    record: Option<Growing<R::File>>,
    state: Option<Growing<R::File>>,
    faults: Failures,
}

impl<O: Print, E: Print, R: rt::Files> HostSink<O, E, R> {
    /// Standard output, standard error, and the files that `rt` reaches.
    pub fn new(out: O, report: E, rt: R) -> HostSink<O, E, R>
        ensures { result.faults ≡ no_failures }
    {
        let limit = size_limit(&rt);
        HostSink {
            out,
            report,
            rt,
            limit,
            record: None,
            state: None,
            faults: Failures::none(),
        }
    }

    fn write_out(&self, bytes: &[u8]) -> Option<usize> {
        if is_stream_full(&self.rt, Stream::Out, self.limit) {
            return None;
        }
        write_stream(&self.out, bytes)
    }

    fn write_report(&self, bytes: &[u8]) -> Option<usize> {
        if is_stream_full(&self.rt, Stream::Report, self.limit) {
            return None;
        }
        write_stream(&self.report, bytes)
    }

    fn write_record(&mut self, bytes: &[u8]) -> Option<usize>
        ensures { self.new.faults ≡ self.old.faults }
    {
        if self.record.is_none() {
            self.record = begin(&self.rt, RECORD_NAME);
        }
        match &mut self.record {
            Some(file) => file.write(bytes, self.limit),
            None => None,
        }
    }

    /// After a failure the next state begins a new file.
    fn write_state(&mut self, bytes: &[u8]) -> Option<usize>
        ensures { self.new.faults ≡ self.old.faults }
    {
        let mut file = match self.state.take() {
            Some(file) => file,
            None => begin(&self.rt, STATE_NAME)?,
        };
        let count = file.write(bytes, self.limit)?;
        self.state = Some(file);
        Some(count)
    }

    /// The new file takes the name of the old one, once the system has all its bytes.
    fn keep(&mut self) -> Option<()>
        ensures { self.new.faults ≡ self.old.faults }
    {
        let whole = match self.state.take() {
            Some(file) => file,
            None => begin(&self.rt, STATE_NAME)?,
        };
        whole.file.sync_all().ok()?;
        drop(whole);
        fs::rename(&self.rt, STATE_NAME, RECORD_NAME).ok()
    }

    fn remove(&self) -> bool {
        match fs::remove_file(&self.rt, RECORD_NAME) {
            Ok(()) => true,
            Err(e) => e.kind() == ErrorKind::NotFound,
        }
    }

    /// Counts a call that was done or failed.
    fn counted(&mut self, done: bool) -> Result<(), Failed>
        ensures answer { is_err result ≡ not done }
        ensures counts { CountsFailure (is_err result) self.old.faults self.new.faults }
        ensures last { self.new.faults.last ≡ is_err result }
    {
        self.faults.note(!done);
        if done { Ok(()) } else { Err(Failed) }
    }
}

/// A new file of this name, of which nothing is written yet.
fn begin<R: rt::Files>(rt: &R, name: &str) -> Option<Growing<R::File>> {
    let file = make_anew(rt, name)?;
    Some(Growing { file, len: 0 })
}

impl<O: Print, E: Print, R: rt::Files> Sink for HostSink<O, E, R> {
    ghost contents = { λ _. None };

    ghost faults = { λ s. s.faults };

    fn write(&mut self, chan: Chan, bytes: &[u8]) -> Result<usize, Failed> {
        let count = match chan {
            Chan::Out => self.write_out(bytes),
            Chan::Report => self.write_report(bytes),
            Chan::Record => self.write_record(bytes),
            Chan::State => self.write_state(bytes),
        };
        match count {
            Some(n) if 0 < n && n <= bytes.len() => {
                self.faults.note(false);
                Ok(n)
            }
            _ => {
                self.faults.note(true);
                Err(Failed)
            }
        }
    }

    fn keep_state(&mut self) -> Result<(), Failed> {
        let kept = self.keep().is_some();
        self.counted(kept)
    }

    fn remove_state(&mut self) -> Result<(), Failed> {
        let removed = self.remove();
        self.counted(removed)
    }
}

/// The page file `vax.pag`, which the first call makes anew. Block `n` is its bytes from `512 * n` on.
#[derive(Drop)]
pub struct HostPages<R> {
    rt: R,
    limit: Option<u64>,
    file: Option<File>,
    faults: Failures,
}

/// Where a block begins in the file.
fn offset(n: u32) -> u64
    ensures { result ≡ n * 512 }
{
    u64::from(n) * 512
}

impl<R: rt::Files<File = File>> HostPages<R> {
    /// The page file among the files that `rt` reaches.
    pub fn new(rt: R) -> HostPages<R>
        ensures { result.faults ≡ no_failures }
    {
        let limit = size_limit(&rt);
        HostPages {
            rt,
            limit,
            file: None,
            faults: Failures::none(),
        }
    }

    fn open(&mut self)
        ensures { self.new.faults ≡ self.old.faults }
    {
        if self.file.is_none() {
            self.file = make_anew(&self.rt, PAGES_NAME);
        }
    }
}

impl<R: rt::Files<File = File>> PageFile for HostPages<R> {
    ghost contents = { λ _. None };

    ghost faults = { λ p. p.faults };

    ghost since = { λ start now. Unit {0} };

    fn read_block(&mut self, n: u32, into: &mut [u8; 512]) -> Result<(), Failed> {
        self.open();
        // A read that fails may have changed the bytes that it was given.
        let mut block = [0; 512];
        let done = match &self.file {
            Some(file) => file.read_exact_at(&mut block, offset(n)).is_ok(),
            None => false,
        };
        if done {
            *into = block;
            self.faults.note(false);
            return Ok(());
        }
        self.faults.note(true);
        Err(Failed)
    }

    fn write_block(&mut self, n: u32, from: &[u8; 512]) -> Result<(), Failed> {
        self.open();
        // The whole block must be allowed, since a write that is cut is tried again after the limit.
        let done = match &self.file {
            Some(file) if !is_beyond(offset(n) + 511, self.limit) => {
                file.write_all_at(from, offset(n)).is_ok()
            }
            _ => false,
        };
        if done {
            self.faults.note(false);
            return Ok(());
        }
        self.faults.note(true);
        Err(Failed)
    }
}
