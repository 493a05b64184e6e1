//! Files in memory.
ghost use Rattle.std.specs.Prelude.{◌≡◌, ◌≤◌, IfOk, Some, length};
ghost use Rattle.std.specs.Option.{option_map};
ghost use Rattle.vax_outside.specs.Directory.{bytes_of, directory, AnswersRead, is_failed};
ghost use Rattle.vax_outside.specs.Faults.{CountsFailure, no_failures, raised};

use crate::fails::is_read_named;
use crate::faults::{Failures, raised};
use crate::{Fail, Files, FilesFault};
use std::alloc::Global;

/// Files in memory, which tell what they hold. Of two files of one name the first counts.
#[derive(Drop)]
pub struct MemFiles {
    files: Vec<(String, Vec<u8>)>,
    fails: Vec<Fail>,
    calls: u64,
    faults: Failures,
}

impl MemFiles {
    ghost use Rattle.vax_outside.specs.MemFiles.{directory_of, fails_of, calls_of, faults_of};

    /// Files with these names and bytes. A call fails exactly where `fails` names it.
    pub fn new(files: Vec<(String, Vec<u8>)>, fails: Vec<Fail>) -> MemFiles
        ensures files { directory_of result ≡ directory files.items }
        ensures fails { fails_of result ≡ fails.items }
        ensures calls { calls_of result ≡ 0 }
        ensures faults { faults_of result ≡ no_failures }
    {
        MemFiles {
            files,
            fails,
            calls: 0,
            faults: Failures::none(),
        }
    }
}

/// The bytes of the first file of this name.
fn find<'a>(files: &'a [(String, Vec<u8>)], name: &str) -> Option<&'a [u8]>
    ensures { option_map (λ bytes. bytes.now) result ≡ bytes_of (directory files.now) name.now }
{
    for file in files {
        if file.0.as_str() == name {
            return Some(&file.1);
        }
    }
    None
}

impl Files for MemFiles {
    ghost use Rattle.vax_outside.specs.MemFiles.{directory_of, fails_of, calls_of, faults_of, next_fails};

    ghost contents = { λ m. Some (directory_of m) };

    ghost faults = { λ m. faults_of m };

    fn read(&mut self, alloc: Global, name: &str, limit: u32) -> Result<Vec<u8>, FilesFault>
        ensures answer { AnswersRead result (Some (directory_of self.old)) name.now limit }
        ensures bound { IfOk result (λ bytes. length bytes.items ≤ limit) }
        ensures same { directory_of self.new ≡ directory_of self.old }
        ensures counts { CountsFailure (is_failed result) (faults_of self.old)
            (faults_of self.new) }
        ensures last { (faults_of self.new).last ≡ is_failed result }
        ensures failed { is_failed result ≡ next_fails self.old }
        ensures fails { fails_of self.new ≡ fails_of self.old }
        ensures calls { calls_of self.new ≡ raised (calls_of self.old) }
    {
        self.calls = raised(self.calls);
        if is_read_named(&self.fails, self.calls, self.calls) {
            self.faults.note(true);
            return Err(FilesFault::Failed);
        }
        self.faults.note(false);
        let Some(bytes) = find(&self.files, name) else {
            return Err(FilesFault::Missing);
        };
        if bytes.len() > limit as usize {
            return Err(FilesFault::Large);
        }
        match Vec::from_slice(alloc, bytes) {
            Ok(copy) => Ok(copy),
            Err(_) => Err(FilesFault::NoMemory),
        }
    }
}
