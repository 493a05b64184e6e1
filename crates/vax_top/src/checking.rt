//! The command `check`.
ghost use Rattle.std.specs.Prelude.{◌≡◌, ◌≤◌, ◌+◌, ◌∷◌, [], ℕ, List, IfOk, Some, drop, length, take};
ghost use Rattle.std.specs.Option.{option_copied, option_map};
ghost use Rattle.vax_check.specs.View.{titles_of};
ghost use Rattle.vax_cli.specs.Said.{names_of};
ghost use Rattle.vax_cli.specs.Words.{check};
ghost use Rattle.vax_command.specs.Around.{around, change, untouched, with_preludes};
ghost use Rattle.vax_command.specs.Ends.{Admits, Ends, EndsSo};
ghost use Rattle.vax_command.specs.Loaded.{loaded_seen};
ghost use Rattle.vax_command.specs.ReadingView.{texts as texts_seen};
ghost use Rattle.vax_outside.specs.Channels.{only};
ghost use Rattle.vax_program.specs.View.{Answers, refusal_seen};
ghost use Rattle.vax_prelude.specs.View.{preludes_seen};
ghost use Rattle.vax_top.specs.Checked.{IsChecking, answer_of, checked_names, found_in, is_bare, refusal_of};
ghost use Rattle.vax_top.specs.Loaded.{image_from, joined_files, user_loaded};
ghost use Rattle.vax_top.specs.Top.{Carries, base_for};

use crate::commands::base_for;
use crate::preludes::join_files;
use std::alloc::{AllocError, Global};
use vax_check::{Files as Checked, text_of};
use vax_cli::Target;
use vax_command::{Part, Programs, Role, Status, load_files, refuse};
use vax_dialect::Dialect;
use vax_image::Image;
use vax_outside::{Chan, Failed, Files, Sink, put_all};
use vax_prelude::Prelude;
use vax_program::{ProgramError, Refusal, link_parts, read_parts};
use vax_space::NoMemory;

/// The image of a program's files for a base.
fn image_of(
    alloc: Global,
    dialect: Dialect,
    base: vax_image::Base,
    files: &[Vec<u8>],
) -> Result<Image, ProgramError>
    requires some { 1 ≤ length files.now }
    requires few { length files.now ≤ 8 }
    ensures { Answers (λ image. image) result (image_from dialect base (texts_seen files.now)) }
{
    let parts = read_parts(alloc, dialect, base, 1, files)?;
    link_parts(alloc, parts)
}

/// A program in user mode and its system, of one file.
fn programs_of(
    alloc: Global,
    dialect: Dialect,
    files: &[Vec<u8>],
    system: &[Vec<u8>],
) -> Result<Programs, ProgramError>
    requires some { 1 ≤ length files.now }
    requires few { length files.now ≤ 8 }
    requires one { length system.now ≡ 1 }
    ensures { (text : List ℕ) → texts_seen system.now ≡ text ∷ [] →
        Answers loaded_seen result (user_loaded dialect (texts_seen files.now) (Some text)) }
{
    let user = read_parts(alloc, dialect, vax_image::Base::User, 1, files)?;
    let below = read_parts(alloc, dialect, vax_image::Base::Bare, 0, system)?;
    let user = link_parts(alloc, user)?;
    let system = link_parts(alloc, below)?;
    Ok(Programs {
        system,
        user: Some(user),
    })
}

/// Why files are no image for a base, if they aren't one.
#[tactic(auto, using(crate::proofs::CheckLaws::not_refused, crate::proofs::CheckLaws::refused_so))]
fn find_alone(
    alloc: Global,
    dialect: Dialect,
    base: vax_image::Base,
    files: &[Vec<u8>],
) -> Result<Option<Refusal>, NoMemory>
    requires some { 1 ≤ length files.now }
    requires few { length files.now ≤ 8 }
    ensures { IfOk result (λ o. option_map refusal_seen o
        ≡ refusal_of (image_from dialect base (texts_seen files.now))) }
{
    match image_of(alloc, dialect, base, files) {
        Ok(_) => Ok(None),
        Err(ProgramError::Refused(refusal)) => Ok(Some(refusal)),
        Err(ProgramError::NoMemory) => Err(NoMemory),
    }
}

/// Why files give no program under a system of one file, if they give none.
#[tactic(auto, using(crate::proofs::CheckLaws::not_refused, crate::proofs::CheckLaws::refused_so))]
fn find_under(
    alloc: Global,
    dialect: Dialect,
    files: &[Vec<u8>],
    system: &[Vec<u8>],
) -> Result<Option<Refusal>, NoMemory>
    requires some { 1 ≤ length files.now }
    requires few { length files.now ≤ 8 }
    requires one { length system.now ≡ 1 }
    ensures { (text : List ℕ) → texts_seen system.now ≡ text ∷ [] →
        IfOk result (λ o. option_map refusal_seen o
        ≡ refusal_of (user_loaded dialect (texts_seen files.now) (Some text))) }
{
    match programs_of(alloc, dialect, files, system) {
        Ok(_) => Ok(None),
        Err(ProgramError::Refused(refusal)) => Ok(Some(refusal)),
        Err(ProgramError::NoMemory) => Err(NoMemory),
    }
}

/// Why a program's files, and that of its system if there is one, give no program; none where they give one.
fn find(
    alloc: Global,
    dialect: Dialect,
    base: vax_image::Base,
    files: &[Vec<u8>],
    system: &[Vec<u8>],
) -> Result<Option<Refusal>, NoMemory>
    requires some { 1 ≤ length files.now }
    requires few { length files.now ≤ 8 }
    requires one { length system.now ≤ 1 }
    ensures { IfOk result (λ o. option_map refusal_seen o
        ≡ found_in dialect base (texts_seen files.now) (texts_seen system.now)) }
{
    if system.is_empty() {
        find_alone(alloc, dialect, base, files)
    } else {
        find_under(alloc, dialect, files, system)
    }
}

/// The answer to what was found.
fn answer_of(refusal: Option<&Refusal>) -> Status
    ensures { result ≡ answer_of (option_map (λ r. refusal_seen r.now) refusal.entry) }
{
    match refusal {
        None => Status::Done,
        Some(Refusal::Source { .. }) => Status::Told(Part::Source),
        Some(Refusal::Link { .. }) => Status::Told(Part::Link),
        Some(Refusal::Image { .. }) => Status::Told(Part::Image),
    }
}

/// Writes a text to Out, and gives an answer.
fn show_as<K: Sink>(text: &[u8], answer: Status, sink: &mut K) -> Status
    ensures { Ends (change K.faults K.contents sink.old sink.new)
        answer (only Chan.Out text.now) result }
{
    match put_all(sink, Chan::Out, text) {
        Ok(()) => answer,
        Err(Failed) => Status::WriteFault,
    }
}

/// Tells on Out why files give no program, if they give none.
#[tactic(auto, using(crate::proofs::CheckLaws::not_told, crate::proofs::CheckLaws::was_told))]
fn tell_of<K: Sink>(
    alloc: Global,
    files: Checked<'_>,
    refusal: Option<&Refusal>,
    sink: &mut K,
) -> Status
    ensures { EndsSo (change K.faults K.contents sink.old sink.new)
        (IsChecking untouched files.entry.dialect files.entry.bare
        (option_map (λ r. refusal_seen r.now) refusal.entry)
        (titles_of (preludes_seen files.entry.preludes.now) files.entry.names.now)
        (texts_seen files.entry.texts.now)) result }
{
    match text_of(alloc, files, refusal) {
        Ok(text) => show_as(&text, answer_of(refusal), sink),
        Err(NoMemory) => refuse(Status::NoMemory, sink),
    }
}

/// Tells on Out what keeps files from giving a program. The first so many are the program's.
fn tell<K: Sink>(
    alloc: Global,
    base: vax_image::Base,
    count: usize,
    files: Checked<'_>,
    sink: &mut K,
) -> Status
    requires some { 1 ≤ count }
    requires few { count ≤ 8 }
    requires all { count ≤ length files.texts.now }
    requires one { length files.texts.now ≤ count + 1 }
    ensures { let texts = texts_seen files.entry.texts.now in
        EndsSo (change K.faults K.contents sink.old sink.new)
        (IsChecking untouched files.entry.dialect files.entry.bare
        (found_in files.entry.dialect base (take count texts) (drop count texts))
        (titles_of (preludes_seen files.entry.preludes.now) files.entry.names.now) texts) result }
{
    let (own, system) = files.texts.split_at(count);
    match find(alloc, files.dialect, base, own, system) {
        Ok(None) => tell_of(alloc, files, None, sink),
        Ok(Some(refusal)) => tell_of(alloc, files, Some(&refusal), sink),
        Err(NoMemory) => refuse(Status::NoMemory, sink),
    }
}

/// Whether a base is the bare machine's.
fn is_bare(base: vax_image::Base) -> bool
    ensures { result ≡ is_bare base }
{
    match base {
        vax_image::Base::User => false,
        vax_image::Base::Bare => true,
    }
}

/// The names of a program's files, and behind them that of a system's, if it is given.
#[tactic(auto, using(crate::proofs::CheckLaws::name_behind, crate::proofs::CheckLaws::none_behind))]
fn all_names<'a>(
    alloc: Global,
    names: &[&'a str],
    system: Option<&'a str>,
) -> Result<Vec<&'a str>, AllocError>
    ensures { IfOk result (λ v. names_of v.items
        ≡ checked_names (names_of names.now) (option_copied system.entry)) }
{
    let mut all = Vec::from_slice(alloc, names)?;
    let Some(name) = system else {
        return Ok(all);
    };
    all.push(name)?;
    Ok(all)
}

/// Tells what keeps files with these names, of which the first so many are the program's, from giving a program.
fn check_read<K: Sink>(
    alloc: Global,
    preludes: &[Prelude<'_>],
    target: Target,
    count: usize,
    names: &[&str],
    texts: &[Vec<u8>],
    sink: &mut K,
) -> Status
    requires some { 1 ≤ count }
    requires few { count ≤ 8 }
    requires all { count ≤ length texts.now }
    requires one { length texts.now ≤ count + 1 }
    ensures { let sources = joined_files (preludes_seen preludes.now) (texts_seen texts.now) in
        EndsSo (change K.faults K.contents sink.old sink.new)
        (IsChecking untouched target.dialect (is_bare (base_for target.base))
        (found_in target.dialect (base_for target.base) (take count sources) (drop count sources))
        (titles_of (preludes_seen preludes.now) names.now) sources) result }
{
    let Ok(joined) = join_files(alloc, preludes, texts) else {
        return refuse(Status::NoMemory, sink);
    };
    let base = base_for(target.base);
    let checked = Checked {
        dialect: target.dialect,
        preludes,
        names,
        texts: &joined,
        bare: is_bare(base),
    };
    tell(alloc, base, count, checked, sink)
}

/// `check`: tells what keeps a program from being built, and nothing where it is built.
pub(crate) fn check<S: Files, K: Sink>(
    alloc: Global,
    names: &[&str],
    preludes: &[Prelude<'_>],
    target: Target,
    system: Option<&str>,
    files: &mut S,
    sink: &mut K,
) -> Status
    requires some { 1 ≤ length names.now }
    requires few { length names.now ≤ 8 }
    ensures carries { Carries (with_preludes (preludes_seen preludes.now) (around
        (change S.faults S.contents files.old files.new)
        (change K.faults K.contents sink.old sink.new)
        untouched))
        (check (names_of names.now) target (option_copied system.entry)) result }
    ensures read_failed { Admits (S.faults files.old) (S.faults files.new) Status.ReadFault result }
{
    let Ok(all) = all_names(alloc, names, system) else {
        return refuse(Status::NoMemory, sink);
    };
    match load_files(alloc, &all, Role::Program, files) {
        Ok(texts) => check_read(alloc, preludes, target, names.len(), &all, &texts, sink),
        Err(status) => refuse(status, sink),
    }
}
