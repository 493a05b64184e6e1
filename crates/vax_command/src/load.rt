//! Reads them in order.
ghost use Rattle.std.specs.Prelude.{ℕ, ◌≡◌, ◌⊎◌, ◌≤◌, ◌++◌, [], ◌∷◌, Ok, IfOk, IfErr, IfSome, is_some, length, unwrap_or};
ghost use Rattle.std.specs.Option.{option_copied};
ghost use Rattle.vax_cli.specs.Said.{names_of, options as said_options};
ghost use Rattle.vax_command.specs.Around.{change};
ghost use Rattle.vax_command.specs.declared.load.Role.TheVariants as Role;
ghost use Rattle.vax_command.specs.Reading.{HasTexts, Reads, ReadEnds, ReadsOnly, all_sought, file_limit, given, is_linked, large_limit, limit_for, of_options, one_sought, sought};
ghost use Rattle.vax_command.specs.ReadingView.{bytes_of, given_seen, texts};
ghost use Rattle.vax_command.specs.Wanting.{OneEnds, ReadsOne};

use crate::name::Name;
use crate::status::Status;
use std::alloc::Global;
use vax_cli::Options;
use vax_outside::{Files, FilesFault};

/// The most bytes of a source, of the console's input, and of any file that the next limit isn't for.
const FILE_LIMIT: u32 = 4_194_304;

/// The most bytes of a linked program and of a schedule.
const LARGE_LIMIT: u32 = 67_108_864;

/// What a file is read for, by which goes how many bytes it may have.
#[derive(Clone, Copy, PartialEq, Eq)]
pub enum Role {
    /// A program, or the system under which one runs: a linked program by its first bytes, or a source.
    Program,
    /// A schedule.
    Schedule,
    /// Any other.
    Other,
}

/// The files of a run's options: the system, if it is given; the console's input, the schedule and a session's script, each
/// empty where it isn't.
#[derive(Drop)]
pub struct Given {
    pub system: Option<Vec<u8>>,
    pub input: Vec<u8>,
    pub schedule: Vec<u8>,
    pub script: Vec<u8>,
}

/// The answer for a file that isn't there.
fn missing(alloc: Global, name: &str) -> Status
    ensures { (result ≡ Status.Missing name.now) ⊎ (result ≡ Status.NoMemory) }
{
    match String::from_str(alloc, name) {
        Ok(text) => Status::Missing(Name::from(text)),
        Err(_) => Status::NoMemory,
    }
}

/// The answer for a file that is too long.
fn large(alloc: Global, name: &str) -> Status
    ensures { (result ≡ Status.Large name.now) ⊎ (result ≡ Status.NoMemory) }
{
    match String::from_str(alloc, name) {
        Ok(text) => Status::Large(Name::from(text)),
        Err(_) => Status::NoMemory,
    }
}

/// Reads a file of at most so many bytes.
pub(crate) fn load_within<S: Files>(
    alloc: Global,
    name: &str,
    limit: u32,
    files: &mut S,
) -> Result<Vec<u8>, Status>
    ensures only { ReadsOnly (change S.faults S.contents files.old files.new) result }
    ensures bound { IfOk result (λ v. length v.items ≤ limit) }
    ensures ok { IfOk result (λ v.
        ReadsOne (S.contents files.old) name.now limit (Ok (v.items ∷ []))) }
    ensures ends { IfErr result (λ status. OneEnds (change S.faults S.contents files.old files.new)
        name.now limit status) }
{
    match files.read(alloc, name, limit) {
        Ok(bytes) => Ok(bytes),
        Err(FilesFault::Missing) => Err(missing(alloc, name)),
        Err(FilesFault::Large) => Err(large(alloc, name)),
        Err(FilesFault::Failed) => Err(Status::ReadFault),
        Err(FilesFault::NoMemory) => Err(Status::NoMemory),
    }
}

/// Whether a file begins as an image or as an executable.
fn is_linked(bytes: &[u8]) -> bool
    ensures { result ≡ is_linked bytes.now }
{
    bytes.starts_with(b"VAXI") || bytes.starts_with(b"\x7FELF")
}

/// Reads the file of a program. It may have more bytes than a source where it begins as an image or as an executable.
#[tactic(auto, using(crate::proofs::LoadLaws::linked_fits, crate::proofs::LoadLaws::short_fits, crate::proofs::LoadLaws::linked_there, crate::proofs::LoadLaws::short_there, crate::proofs::LoadLaws::program_large, crate::proofs::LoadLaws::program_ends))]
fn load_program<S: Files>(alloc: Global, name: &str, files: &mut S) -> Result<Vec<u8>, Status>
    ensures only { ReadsOnly (change S.faults S.contents files.old files.new) result }
    ensures bound { IfOk result (λ v. length v.items ≤ limit_for Role.Program v.items) }
    ensures ok { IfOk result (λ v.
        Reads (S.contents files.old) (one_sought Role.Program name.now) (Ok (v.items ∷ []))) }
    ensures ends { IfErr result (λ status. ReadEnds (change S.faults S.contents files.old files.new)
        (one_sought Role.Program name.now) status) }
{
    let bytes = load_within(alloc, name, LARGE_LIMIT, files)?;
    if is_linked(&bytes) || bytes.len() <= FILE_LIMIT as usize {
        return Ok(bytes);
    }
    Err(large(alloc, name))
}

/// Reads a file.
fn load<S: Files>(alloc: Global, name: &str, role: Role, files: &mut S) -> Result<Vec<u8>, Status>
    ensures only { ReadsOnly (change S.faults S.contents files.old files.new) result }
    ensures bound { IfOk result (λ v. length v.items ≤ limit_for role v.items) }
    ensures ok { IfOk result (λ v.
        Reads (S.contents files.old) (one_sought role name.now) (Ok (v.items ∷ []))) }
    ensures ends { IfErr result (λ status. ReadEnds (change S.faults S.contents files.old files.new)
        (one_sought role name.now) status) }
{
    match role {
        Role::Program => load_program(alloc, name, files),
        Role::Schedule => load_within(alloc, name, LARGE_LIMIT, files),
        Role::Other => load_within(alloc, name, FILE_LIMIT, files),
    }
}

/// Reads files in order, up to the first that can't be read.
pub fn load_files<S: Files>(
    alloc: Global,
    names: &[&str],
    role: Role,
    files: &mut S,
) -> Result<Vec<Vec<u8>>, Status>
    ensures only { ReadsOnly (change S.faults S.contents files.old files.new) result }
    ensures count { IfOk result (λ v. length v.items ≡ length names.now) }
    ensures ok { IfOk result (λ v.
        Reads (S.contents files.old) (all_sought role (names_of names.now)) (Ok (texts v.items))) }
    ensures ends { IfErr result (λ status. ReadEnds (change S.faults S.contents files.old files.new)
        (all_sought role (names_of names.now)) status) }
{
    let mut all = Vec::new(alloc);
    for name in names {
        let bytes = load(alloc, name, role, files)?;
        if all.push(bytes).is_err() {
            return Err(Status::NoMemory);
        }
    }
    Ok(all)
}

/// Reads the file of an option, if it is given.
fn load_option<S: Files>(
    alloc: Global,
    name: Option<&str>,
    role: Role,
    files: &mut S,
) -> Result<Option<Vec<u8>>, Status>
    ensures only { ReadsOnly (change S.faults S.contents files.old files.new) result }
    ensures bound { IfOk result (λ o. IfSome o (λ v. length v.items ≤ limit_for role v.items)) }
    ensures given { IfOk result (λ o. is_some o ≡ is_some name.entry) }
    ensures ok { IfOk result (λ o. Reads (S.contents files.old)
        (sought role (option_copied name.entry)) (Ok (given (bytes_of o)))) }
    ensures ends { IfErr result (λ status. ReadEnds (change S.faults S.contents files.old files.new)
        (sought role (option_copied name.entry)) status) }
{
    match name {
        None => Ok(None),
        Some(name) => Ok(Some(load(alloc, name, role, files)?)),
    }
}

/// Reads the files of two options.
pub(crate) fn load_both<S: Files>(
    alloc: Global,
    first: Option<&str>,
    second: Option<&str>,
    roles: (Role, Role),
    files: &mut S,
) -> Result<(Option<Vec<u8>>, Option<Vec<u8>>), Status>
    ensures only { ReadsOnly (change S.faults S.contents files.old files.new) result }
    ensures bounds { IfOk result (λ r. IfSome r.0 (λ v. length v.items ≤ limit_for roles.0 v.items)
        × IfSome r.1 (λ v. length v.items ≤ limit_for roles.1 v.items)) }
    ensures given { IfOk result (λ r.
        (is_some r.0 ≡ is_some first.entry) × (is_some r.1 ≡ is_some second.entry)) }
    ensures ok { IfOk result (λ r. Reads (S.contents files.old)
        (sought roles.0 (option_copied first.entry) ++ sought roles.1 (option_copied second.entry))
        (Ok (given (bytes_of r.0) ++ given (bytes_of r.1)))) }
    ensures ends { IfErr result (λ status. ReadEnds (change S.faults S.contents files.old files.new)
        (sought roles.0 (option_copied first.entry) ++ sought roles.1 (option_copied second.entry))
        status) }
{
    let one = load_option(alloc, first, roles.0, files)?;
    let other = load_option(alloc, second, roles.1, files)?;
    Ok((one, other))
}

/// The bytes of a file, none where it isn't given.
pub(crate) fn or_empty(alloc: Global, file: Option<Vec<u8>>) -> Vec<u8>
    ensures bytes { result.items ≡ unwrap_or (bytes_of file) [] }
    ensures bound { (limit : ℕ) → IfSome file (λ v. length v.items ≤ limit)
        → length result.items ≤ limit }
{
    match file {
        Some(bytes) => bytes,
        None => Vec::new(alloc),
    }
}

/// Reads the files of a run's options and of a session's script: the system, the input, the schedule, the script.
pub fn load_options<S: Files>(
    alloc: Global,
    options: &Options<'_>,
    script: Option<&str>,
    files: &mut S,
) -> Result<Given, Status>
    ensures only { ReadsOnly (change S.faults S.contents files.old files.new) result }
    ensures input { IfOk result (λ g. length g.input.items ≤ file_limit) }
    ensures schedule { IfOk result (λ g. length g.schedule.items ≤ large_limit) }
    ensures script { IfOk result (λ g. length g.script.items ≤ file_limit) }
    ensures ok { IfOk result (λ g. HasTexts (S.contents files.old) []
        (said_options options.now) (option_copied script.entry) (given_seen [] g)) }
    ensures ends { IfErr result (λ status. ReadEnds (change S.faults S.contents files.old files.new)
        (of_options (said_options options.now) (option_copied script.entry)) status) }
{
    let inputs = (Role::Program, Role::Other);
    let (system, input) = load_both(alloc, options.system, options.input, inputs, files)?;
    let rules = (Role::Schedule, Role::Other);
    let (schedule, script) = load_both(alloc, options.schedule, script, rules, files)?;
    Ok(Given {
        system,
        input: or_empty(alloc, input),
        schedule: or_empty(alloc, schedule),
        script: or_empty(alloc, script),
    })
}

/// Reads the files of a run: its programs, and then those of its options and of its script.
pub fn load_run<S: Files>(
    alloc: Global,
    names: &[&str],
    options: &Options<'_>,
    script: Option<&str>,
    files: &mut S,
) -> Result<(Vec<Vec<u8>>, Given), Status>
    ensures only { ReadsOnly (change S.faults S.contents files.old files.new) result }
    ensures count { IfOk result (λ r. length r.0.items ≡ length names.now) }
    ensures input { IfOk result (λ r. length r.1.input.items ≤ file_limit) }
    ensures schedule { IfOk result (λ r. length r.1.schedule.items ≤ large_limit) }
    ensures script { IfOk result (λ r. length r.1.script.items ≤ file_limit) }
    ensures ok { IfOk result (λ r. HasTexts (S.contents files.old) (names_of names.now)
        (said_options options.now) (option_copied script.entry)
        (given_seen (texts r.0.items) r.1)) }
    ensures ends { IfErr result (λ status. ReadEnds (change S.faults S.contents files.old files.new)
        (all_sought Role.Program (names_of names.now)
        ++ of_options (said_options options.now) (option_copied script.entry)) status) }
{
    let programs = load_files(alloc, names, Role::Program, files)?;
    let given = load_options(alloc, options, script, files)?;
    Ok((programs, given))
}
