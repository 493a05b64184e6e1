//! The command `debug`.
ghost use Rattle.std.specs.Prelude.{◌≡◌, ◌≤◌, IfOk, length};
ghost use Rattle.vax_cli.specs.Words.{debug};
ghost use Rattle.vax_cli.specs.Said.{AreWithin, names_of, options as said_options};
ghost use Rattle.vax_command.specs.Around.{around, beside, change, with_preludes};
ghost use Rattle.vax_command.specs.Ends.{Admits};
ghost use Rattle.vax_command.specs.ReadingView.{bytes_of, texts as texts_seen};
ghost use Rattle.vax_command.specs.Loaded.{AreSound, loaded_seen};
ghost use Rattle.vax_debug_symbols.specs.Symbols.{IsTable};
ghost use Rattle.vax_prelude.specs.View.{preludes_seen};
ghost use Rattle.vax_top.specs.Loaded.{joined_files};
ghost use Rattle.vax_top.specs.LoadedView.{Loads};
ghost use Rattle.vax_top.specs.Top.{Carries, base_for, session_loaded};

use crate::commands::base_for;
use crate::console::load_session;
use crate::preludes::join_files;
use std::alloc::Global;
use vax_cli::{Base, Options};
use vax_command::{Given, Programs, Status, load_run, refuse};
use vax_command_debug::{Debuggee, debug_programs};
use vax_debug_names::Legend;
use vax_debug_symbols::{Table, table_of_files};
use vax_dialect::Dialect;
use vax_input::Lines;
use vax_outside::{Files, PageFile, Sink};
use vax_prelude::Prelude;
use vax_space::NoMemory;

/// The programs of a session, and the symbols and the source lines of its files.
fn load_named(
    alloc: Global,
    preludes: &[Prelude<'_>],
    dialect: Dialect,
    base: Base,
    texts: &[Vec<u8>],
    system: Option<Vec<u8>>,
) -> Result<(Programs, Table), Status>
    requires some { 1 ≤ length texts.now }
    requires few { length texts.now ≤ 8 }
    ensures loads { Loads (λ r. loaded_seen r.0) result
        (session_loaded (preludes_seen preludes.now) dialect base (texts_seen texts.now)
        (bytes_of system)) }
    ensures sound { IfOk result (λ r. AreSound r.0) }
    ensures named { IfOk result (λ r.
        IsTable dialect (base_for base)
        (joined_files (preludes_seen preludes.now) (texts_seen texts.now)) r.1) }
{
    let programs = load_session(alloc, preludes, dialect, base, texts, system)?;
    let Ok(joined) = join_files(alloc, preludes, texts) else {
        return Err(Status::NoMemory);
    };
    match table_of_files(alloc, dialect, base_for(base), &joined) {
        Ok(table) => Ok((programs, table)),
        Err(NoMemory) => Err(Status::NoMemory),
    }
}

/// What a program is told by: the symbols and the source lines of its files, with their names and what stands before their sources.
fn legend_of<'a>(table: &'a Table, names: &'a [&'a str], preludes: &'a [Prelude<'a>]) -> Legend<'a>
    ensures symbols { result.symbols.now ≡ table.entry.now.symbols.items }
    ensures lines { result.lines.now ≡ table.entry.now.lines.items }
    ensures names { result.names.now ≡ names.entry.now }
    ensures preludes { result.preludes.now ≡ preludes.entry.now }
{
    Legend {
        symbols: &table.symbols,
        lines: &table.lines,
        names,
        preludes,
    }
}

/// `debug`: holds a session with a debugger on a program, whose lines come one at a time.
pub(crate) fn run_debug<S: Files, L: Lines, K: Sink, F: PageFile>(
    alloc: Global,
    names: &[&str],
    preludes: &[Prelude<'_>],
    base: Base,
    prompts: bool,
    options: &Options<'_>,
    files: &mut S,
    lines: &mut L,
    sink: &mut K,
    pages: &mut F,
) -> Status
    requires some { 1 ≤ length names.now }
    requires few { length names.now ≤ 8 }
    requires within { AreWithin (said_options options.now) }
    ensures carries { Carries (beside (change L.faults L.rest lines.old lines.new)
        (with_preludes (preludes_seen preludes.now) (around
        (change S.faults S.contents files.old files.new)
        (change K.faults K.contents sink.old sink.new)
        (change F.faults F.contents pages.old pages.new))))
        (debug (names_of names.now) base prompts (said_options options.now)) result }
    ensures read_failed { Admits (S.faults files.old) (S.faults files.new) Status.ReadFault result }
    ensures page_failed { Admits (F.faults pages.old) (F.faults pages.new) Status.PageFault result }
    ensures line_failed { Admits (L.faults lines.old) (L.faults lines.new) Status.LineFault result }
{
    let (texts, given) = match load_run(alloc, names, options, None, files) {
        Ok(loaded) => loaded,
        Err(status) => return refuse(status, sink),
    };
    let Given {
        system,
        input,
        schedule,
        ..
    } = given;
    match load_named(alloc, preludes, options.dialect, base, &texts, system) {
        Ok((programs, table)) => {
            let legend = legend_of(&table, names, preludes);
            let debuggee = Debuggee {
                programs: &programs,
                legend: &legend,
                input,
                schedule: &schedule,
                prompts,
            };
            debug_programs(alloc, debuggee, options, lines, sink, pages)
        }
        Err(status) => refuse(status, sink),
    }
}
