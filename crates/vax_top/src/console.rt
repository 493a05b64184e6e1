//! The command `console`.
ghost use Rattle.std.specs.Prelude.{◌≤◌, IfOk, length};
ghost use Rattle.vax_cli.specs.Words.{console};
ghost use Rattle.vax_cli.specs.Said.{AreWithin, names_of, options as said_options};
ghost use Rattle.vax_command.specs.Around.{around, change, with_preludes};
ghost use Rattle.vax_command.specs.Ends.{Admits};
ghost use Rattle.vax_command.specs.ReadingView.{bytes_of, texts as texts_seen};
ghost use Rattle.vax_command.specs.Loaded.{AreSound, loaded_seen};
ghost use Rattle.vax_prelude.specs.View.{preludes_seen};
ghost use Rattle.vax_top.specs.LoadedView.{Loads};
ghost use Rattle.vax_top.specs.Top.{Carries, session_joined, session_loaded};

use crate::preludes::{join_files, join_given, tell_at};
use crate::programs::{load_bare, load_user};
use std::alloc::Global;
use vax_cli::{Base, Options};
use vax_command::{Given, Programs, Status, hold_session, load_run, refuse};
use vax_dialect::Dialect;
use vax_outside::{Files, PageFile, Sink};
use vax_prelude::Prelude;

/// The programs of a session: one in user mode under a system, or one for the bare machine.
fn load_joined(
    alloc: Global,
    dialect: Dialect,
    base: Base,
    texts: &[Vec<u8>],
    system: Option<Vec<u8>>,
) -> Result<Programs, Status>
    requires some { 1 ≤ length texts.now }
    requires few { length texts.now ≤ 8 }
    ensures loads { Loads loaded_seen result
        (session_joined dialect base (texts_seen texts.now) (bytes_of system)) }
    ensures sound { IfOk result AreSound }
{
    match base {
        Base::User => load_user(alloc, dialect, texts, system),
        Base::Bare => load_bare(alloc, dialect, texts),
    }
}

/// The same of files whose sources have preludes.
#[tactic(auto, using(crate::proofs::Retelling::told_loads, crate::proofs::Retelling::told_refused))]
pub(crate) fn load_session(
    alloc: Global,
    preludes: &[Prelude<'_>],
    dialect: Dialect,
    base: Base,
    texts: &[Vec<u8>],
    system: Option<Vec<u8>>,
) -> Result<Programs, Status>
    requires some { 1 ≤ length texts.now }
    requires few { length texts.now ≤ 8 }
    ensures loads { Loads loaded_seen result (session_loaded (preludes_seen preludes.now) dialect
        base (texts_seen texts.now) (bytes_of system)) }
    ensures sound { IfOk result AreSound }
{
    let Ok(joined) = join_files(alloc, preludes, texts) else {
        return Err(Status::NoMemory);
    };
    let Ok(below) = join_given(alloc, preludes, system) else {
        return Err(Status::NoMemory);
    };
    match load_joined(alloc, dialect, base, &joined, below) {
        Ok(programs) => Ok(programs),
        Err(status) => Err(tell_at(preludes, status)),
    }
}

/// `console`: holds a session on a program, as a script says.
pub(crate) fn run_console<S: Files, K: Sink, F: PageFile>(
    alloc: Global,
    names: &[&str],
    preludes: &[Prelude<'_>],
    base: Base,
    script: &str,
    options: &Options<'_>,
    files: &mut S,
    sink: &mut K,
    pages: &mut F,
) -> Status
    requires some { 1 ≤ length names.now }
    requires few { length names.now ≤ 8 }
    requires within { AreWithin (said_options options.now) }
    ensures carries { Carries (with_preludes (preludes_seen preludes.now) (around
        (change S.faults S.contents files.old files.new)
        (change K.faults K.contents sink.old sink.new)
        (change F.faults F.contents pages.old pages.new)))
        (console (names_of names.now) base script.now (said_options options.now)) result }
    ensures read_failed { Admits (S.faults files.old) (S.faults files.new) Status.ReadFault result }
    ensures page_failed { Admits (F.faults pages.old) (F.faults pages.new) Status.PageFault result }
{
    let (texts, given) = match load_run(alloc, names, options, Some(script), files) {
        Ok(loaded) => loaded,
        Err(status) => return refuse(status, sink),
    };
    let Given {
        system,
        input,
        schedule,
        script,
    } = given;
    match load_session(alloc, preludes, options.dialect, base, &texts, system) {
        Ok(programs) => hold_session(
            alloc, &programs, input, &schedule, &script, options, sink, pages,
        ),
        Err(status) => refuse(status, sink),
    }
}
