//! The top call.
ghost use Rattle.std.specs.Prelude.{◌≡◌, ◌≢◌, ◌⊎◌, ℕ, List, None, Some, IfSome, false};
ghost use Rattle.vax_outside.specs.Faults.{Rose};
ghost use Rattle.vax_outside.specs.declared.traits.FilesFault.TheVariants as files_fault;
ghost use Rattle.vax_outside.specs.Channels.{Grew, only};
ghost use Rattle.vax_outside.specs.declared.traits.Chan.TheVariants.{Report};
ghost use Rattle.vax_cli.specs.Said.{IsAskedWithin, IsWithin, asked as asked_seen, said, texts};
ghost use Rattle.vax_cli.specs.Words.{command_of};
ghost use Rattle.vax_command.specs.Around.{around, beside, change, with_preludes};
ghost use Rattle.vax_command.specs.Ends.{Admits, EndsSo};
ghost use Rattle.vax_command.specs.Status.{refusal};
ghost use Rattle.vax_prelude.specs.View.{preludes_seen};
ghost use Rattle.vax_top.specs.Top.{Carries, CarriesAsked, Comes, IsAbout, IsUnread, asks_debug, is_debug};

use crate::checking::check;
use crate::commands::{build, list, list_sources, run_bare, run_user, run_work, show};
use crate::console::run_console;
use crate::debugging::run_debug;
use crate::jobs::run_together;
use crate::saving::{run_resume, run_save};
use crate::tracing::run_trace;
use crate::vectors::write_vectors;
use std::alloc::Global;
use vax_cli::{Asked, Command, WordsError, command_of};
use vax_command::{Role, Status, load_files, refuse};
use vax_input::Lines;
use vax_outside::{Files, PageFile, Sink};
use vax_prelude::{Prelude, preludes_of};

/// Writes the text about the program that the words ask for to Out.
fn tell<K: Sink>(alloc: Global, words: &[String], sink: &mut K) -> Status
    ensures { EndsSo (change K.faults K.contents sink.old sink.new) IsAbout result }
{
    match vax_cli::about(alloc, words) {
        Ok(text) => show(text.as_bytes(), sink),
        Err(_) => refuse(Status::NoMemory, sink),
    }
}

/// Carries a command out.
fn carry_out<S: Files, L: Lines, K: Sink, F: PageFile>(
    alloc: Global,
    words: &[String],
    preludes: &[Prelude<'_>],
    command: Command<'_>,
    files: &mut S,
    lines: &mut L,
    sink: &mut K,
    pages: &mut F,
) -> Status
    requires within { IsWithin (said command) }
    ensures carries { Carries (with_preludes (preludes_seen preludes.now)
        (beside (change L.faults L.rest lines.old lines.new) (around
        (change S.faults S.contents files.old files.new)
        (change K.faults K.contents sink.old sink.new)
        (change F.faults F.contents pages.old pages.new))))
        (said command.entry) result }
    ensures left { is_debug (said command.entry) ≡ false → lines.new ≡ lines.old }
    ensures read_failed { Admits (S.faults files.old) (S.faults files.new) Status.ReadFault result }
    ensures page_failed { Admits (F.faults pages.old) (F.faults pages.new) Status.PageFault result }
    ensures line_failed { Admits (L.faults lines.old) (L.faults lines.new) Status.LineFault result }
{
    match command {
        Command::Bare {
            files: names,
            options,
        } => run_bare(
            alloc,
            names.as_slice(),
            preludes,
            &options,
            files,
            sink,
            pages,
        ),
        Command::Run {
            files: names,
            options,
        } => run_user(
            alloc,
            names.as_slice(),
            preludes,
            &options,
            files,
            sink,
            pages,
        ),
        Command::Build {
            files: names,
            target,
            format,
        } => build(
            alloc,
            names.as_slice(),
            preludes,
            target,
            format,
            files,
            sink,
        ),
        Command::Work {
            seed,
            size,
            options,
        } => run_work(alloc, seed, size, &options, files, sink, pages),
        Command::Vectors(request) => write_vectors(alloc, request, sink),
        Command::About => tell(alloc, words, sink),
        Command::List {
            files: names,
            target,
        } => list(alloc, names.as_slice(), preludes, target, files, sink),
        Command::Listing {
            files: names,
            target,
        } => list_sources(alloc, names.as_slice(), target, files, sink),
        Command::Check {
            files: names,
            target,
            system,
        } => check(
            alloc,
            names.as_slice(),
            preludes,
            target,
            system,
            files,
            sink,
        ),
        Command::Console {
            files: names,
            base,
            script,
            options,
        } => run_console(
            alloc,
            names.as_slice(),
            preludes,
            base,
            script,
            &options,
            files,
            sink,
            pages,
        ),
        Command::Debug {
            files: names,
            base,
            prompt,
            options,
        } => run_debug(
            alloc,
            names.as_slice(),
            preludes,
            base,
            prompt,
            &options,
            files,
            lines,
            sink,
            pages,
        ),
        Command::Trace {
            files: names,
            base,
            tracing,
            options,
        } => run_trace(
            alloc,
            names.as_slice(),
            preludes,
            base,
            &tracing,
            &options,
            files,
            sink,
            pages,
        ),
        Command::Save {
            files: names,
            base,
            options,
        } => run_save(
            alloc,
            names.as_slice(),
            preludes,
            base,
            &options,
            files,
            sink,
            pages,
        ),
        Command::Resume { name, options } => {
            run_resume(alloc, name, &options, files, sink, pages)
        }
        Command::Jobs {
            files: names,
            options,
        } => run_together(
            alloc,
            names.as_slice(),
            preludes,
            &options,
            files,
            sink,
            pages,
        ),
    }
}

/// Reads the files of macros, and carries a command out behind them.
fn carry_asked<S: Files, L: Lines, K: Sink, F: PageFile>(
    alloc: Global,
    words: &[String],
    asked: Asked<'_>,
    files: &mut S,
    lines: &mut L,
    sink: &mut K,
    pages: &mut F,
) -> Status
    requires within { IsAskedWithin (asked_seen asked) }
    ensures carries { CarriesAsked (beside (change L.faults L.rest lines.old lines.new) (around
        (change S.faults S.contents files.old files.new)
        (change K.faults K.contents sink.old sink.new)
        (change F.faults F.contents pages.old pages.new)))
        (asked_seen asked.entry) result }
    ensures left { asks_debug (Some (asked_seen asked.entry)) ≡ false → lines.new ≡ lines.old }
    ensures read_failed { Admits (S.faults files.old) (S.faults files.new) Status.ReadFault result }
    ensures page_failed { Admits (F.faults pages.old) (F.faults pages.new) Status.PageFault result }
    ensures line_failed { Admits (L.faults lines.old) (L.faults lines.new) Status.LineFault result }
{
    let Asked { command, macros } = asked;
    let texts = match load_files(alloc, macros.as_slice(), Role::Other, files) {
        Ok(texts) => texts,
        Err(status) => return refuse(status, sink),
    };
    let Ok(preludes) = preludes_of(alloc, macros.as_slice(), &texts) else {
        return refuse(Status::NoMemory, sink);
    };
    carry_out(alloc, words, &preludes, command, files, lines, sink, pages)
}

/// Reads the words, and carries out the command that they ask for.
fn perform<S: Files, L: Lines, K: Sink, F: PageFile>(
    alloc: Global,
    words: &[String],
    files: &mut S,
    lines: &mut L,
    sink: &mut K,
    pages: &mut F,
) -> Status
    ensures headline { Comes (beside (change L.faults L.rest lines.old lines.new) (around
        (change S.faults S.contents files.old files.new)
        (change K.faults K.contents sink.old sink.new)
        (change F.faults F.contents pages.old pages.new)))
        (texts words.now) result }
    ensures left { asks_debug (command_of (texts words.now)) ≡ false → lines.new ≡ lines.old }
    ensures read_failed { Admits (S.faults files.old) (S.faults files.new) Status.ReadFault result }
    ensures page_failed { Admits (F.faults pages.old) (F.faults pages.new) Status.PageFault result }
    ensures line_failed { Admits (L.faults lines.old) (L.faults lines.new) Status.LineFault result }
{
    match command_of(alloc, words) {
        Err(WordsError::Usage) => refuse(Status::Usage, sink),
        Err(WordsError::NoMemory) => refuse(Status::NoMemory, sink),
        Ok(asked) => carry_asked(alloc, words, asked, files, lines, sink, pages),
    }
}

/// What the program does with its words.
pub fn vax_main<S: Files, L: Lines, K: Sink, F: PageFile>(
    alloc: Global,
    words: &[String],
    files: &mut S,
    lines: &mut L,
    sink: &mut K,
    pages: &mut F,
) -> Status
    ensures headline { Comes (beside (change L.faults L.rest lines.old lines.new) (around
        (change S.faults S.contents files.old files.new)
        (change K.faults K.contents sink.old sink.new)
        (change F.faults F.contents pages.old pages.new)))
        (texts words.now) result }
    ensures left { asks_debug (command_of (texts words.now)) ≡ false → lines.new ≡ lines.old }
    ensures usage { result ≡ Status.Usage → command_of (texts words.now) ≡ None }
    ensures not_plain { command_of (texts words.now) ≡ None →
        (result ≡ Status.Usage) ⊎ (result ≡ Status.WriteFault) }
    ensures missing { (name : List ℕ) → result ≡ Status.Missing name →
        IsUnread (S.contents files.old) (command_of (texts words.now))
        (name, files_fault.Missing) }
    ensures large { (name : List ℕ) → result ≡ Status.Large name →
        IsUnread (S.contents files.old) (command_of (texts words.now))
        (name, files_fault.Large) }
    ensures read { result ≡ Status.ReadFault → Rose (S.faults files.old) (S.faults files.new) }
    ensures page_fault { result ≡ Status.PageFault →
        Rose (F.faults pages.old) (F.faults pages.new) }
    ensures page_failed { Admits (F.faults pages.old) (F.faults pages.new) Status.PageFault result }
    ensures line_fault { result ≡ Status.LineFault →
        Rose (L.faults lines.old) (L.faults lines.new) }
    ensures line_failed { Admits (L.faults lines.old) (L.faults lines.new) Status.LineFault result }
    ensures write { result ≡ Status.WriteFault → Rose (K.faults sink.old) (K.faults sink.new) }
    ensures read_failed { Admits (S.faults files.old) (S.faults files.new) Status.ReadFault result }
    ensures write_failed { (K.faults sink.new).count ≢ (K.faults sink.old).count
        → result ≡ Status.WriteFault }
    ensures refused { IfSome (refusal result) (λ text.
        Grew (K.contents sink.old) (K.contents sink.new) (only Report text)) }
{
    perform(alloc, words, files, lines, sink, pages)
}
