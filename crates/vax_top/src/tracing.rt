//! The command `trace`.
ghost use Rattle.std.specs.Prelude.{◌≤◌, length};
ghost use Rattle.vax_cli.specs.Words.{trace};
ghost use Rattle.vax_cli.specs.Said.{AreWithin, names_of, options as said_options, tracing as said_tracing};
ghost use Rattle.vax_command.specs.Around.{around, change, with_preludes};
ghost use Rattle.vax_command.specs.Ends.{Admits};
ghost use Rattle.vax_prelude.specs.View.{preludes_seen};
ghost use Rattle.vax_top.specs.Top.{Carries};

use crate::console::load_session;
use std::alloc::Global;
use vax_cli::{Base, Options, Tracing};
use vax_command::{Given, Status, load_run, refuse, trace_programs};
use vax_outside::{Files, PageFile, Sink};
use vax_prelude::Prelude;

/// `trace`: runs a program and lists its steps.
pub(crate) fn run_trace<S: Files, K: Sink, F: PageFile>(
    alloc: Global,
    names: &[&str],
    preludes: &[Prelude<'_>],
    base: Base,
    tracing: &Tracing,
    options: &Options<'_>,
    files: &mut S,
    sink: &mut K,
    pages: &mut F,
) -> Status
    requires some { 1 ≤ length names.now }
    requires few { length names.now ≤ 8 }
    requires within { AreWithin (said_options options.now) }
    ensures carries { Carries (with_preludes (preludes_seen preludes.now) (around
        (change S.faults S.contents files.old files.new)
        (change K.faults K.contents sink.old sink.new)
        (change F.faults F.contents pages.old pages.new)))
        (trace (names_of names.now) base (said_tracing tracing.now) (said_options options.now))
        result }
    ensures read_failed { Admits (S.faults files.old) (S.faults files.new) Status.ReadFault result }
    ensures page_failed { Admits (F.faults pages.old) (F.faults pages.new) Status.PageFault result }
{
    let (texts, given) = match load_run(alloc, names, options, None, files) {
        Ok(loaded) => loaded,
        Err(status) => return refuse(status, sink),
    };
    let Given {
        system,
        input,
        schedule,
        ..
    } = given;
    match load_session(alloc, preludes, options.dialect, base, &texts, system) {
        Ok(programs) => trace_programs(
            alloc, &programs, input, &schedule, tracing, options, sink, pages,
        ),
        Err(status) => refuse(status, sink),
    }
}
