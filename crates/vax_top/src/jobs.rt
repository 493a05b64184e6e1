//! The command `jobs`.
ghost use Rattle.std.specs.Prelude.{◌≤◌, length};
ghost use Rattle.vax_cli.specs.Words.{jobs};
ghost use Rattle.vax_cli.specs.Said.{AreShared, jobs_options, names_of};
ghost use Rattle.vax_command.specs.Around.{around, change, with_preludes};
ghost use Rattle.vax_command.specs.Ends.{Admits};
ghost use Rattle.vax_prelude.specs.View.{preludes_seen};
ghost use Rattle.vax_top.specs.Top.{Carries};

use crate::together::load_together_for;
use std::alloc::Global;
use vax_cli::JobsOptions;
use vax_command::{Status, load_jobs, refuse, run_jobs};
use vax_outside::{Files, PageFile, Sink};
use vax_prelude::Prelude;

/// `jobs`: runs several programs in user mode, which take turns.
pub(crate) fn run_together<S: Files, K: Sink, F: PageFile>(
    alloc: Global,
    names: &[&str],
    preludes: &[Prelude<'_>],
    options: &JobsOptions<'_>,
    files: &mut S,
    sink: &mut K,
    pages: &mut F,
) -> Status
    requires some { 1 ≤ length names.now }
    requires few { length names.now ≤ 8 }
    requires within { AreShared (length names.now) (jobs_options options.now) }
    ensures carries { Carries (with_preludes (preludes_seen preludes.now) (around
        (change S.faults S.contents files.old files.new)
        (change K.faults K.contents sink.old sink.new)
        (change F.faults F.contents pages.old pages.new)))
        (jobs (names_of names.now) (jobs_options options.now)) result }
    ensures read_failed { Admits (S.faults files.old) (S.faults files.new) Status.ReadFault result }
    ensures page_failed { Admits (F.faults pages.old) (F.faults pages.new) Status.PageFault result }
{
    let (texts, given) = match load_jobs(alloc, names, options, files) {
        Ok(loaded) => loaded,
        Err(status) => return refuse(status, sink),
    };
    match load_together_for(alloc, preludes, options.dialect, &texts) {
        Ok(programs) => run_jobs(alloc, &programs, &given, options, sink, pages),
        Err(status) => refuse(status, sink),
    }
}
