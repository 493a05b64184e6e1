//! Runs processes and reports on them.
ghost use Rattle.std.specs.Prelude.{length};
ghost use Rattle.vax_outside.specs.Faults.{Rose};
ghost use Rattle.vax_order.specs.Orders.{IsOrder};
ghost use Rattle.vax_jobs.specs.Beginning.{machines, pooling};
ghost use Rattle.vax_jobs.specs.Running.{CountsEnd, setting_of, system_of};
ghost use Rattle.vax_jobs_report.specs.Reports.{machine_reports};
ghost use Rattle.vax_together.specs.Together.{Answers, OnlyReported, ReportsTo};

use vax_jobs::{Jobs, JobsEnd};
use vax_jobs_report::report_jobs;
use vax_order::Order;
use vax_outside::{PageFile, Sink};
use vax_report::Last;

/// Writes the reports on processes, and ends so, or by a write fault.
fn answer<K: Sink>(jobs: &Jobs, steps: u64, other: Last, end: JobsEnd, sink: &mut K) -> JobsEnd
    ensures { Answers end result (machine_reports steps other (machines jobs.now))
        (K.contents sink.old) (K.contents sink.new) (K.faults sink.old) (K.faults sink.new) }
{
    match report_jobs(jobs, steps, other, sink) {
        Ok(()) => end,
        Err(_) => JobsEnd::WriteFault,
    }
}

/// Runs processes in an order, up to where no process goes on or so many attempts were made, and reports on each, in their order. A process goes on that hasn't
/// ended and has completed fewer than `steps` steps.
pub fn run_and_report<F: PageFile, K: Sink>(
    jobs: Jobs,
    order: &Order,
    steps: u64,
    turns: u64,
    file: &mut F,
    sink: &mut K,
) -> JobsEnd
    requires { IsOrder (length (machines jobs)) order.now }
    ensures reports { ReportsTo result (Rose (F.faults file.old) (F.faults file.new))
        (setting_of order.now steps turns (pooling jobs))
        (system_of (pooling jobs) (machines jobs) (F.contents file.old))
        (K.contents sink.old) (K.contents sink.new) }
    ensures only { OnlyReported result (K.contents sink.old) (K.contents sink.new) }
    ensures counts { CountsEnd result (F.faults file.old) (F.faults file.new)
        (K.faults sink.old) (K.faults sink.new) }
{
    let mut jobs = jobs;
    match jobs.run(order, steps, turns, file, sink) {
        JobsEnd::Done => answer(&jobs, steps, Last::Turns, JobsEnd::Done, sink),
        JobsEnd::Turns => answer(&jobs, steps, Last::Turns, JobsEnd::Turns, sink),
        JobsEnd::PageFault => answer(&jobs, steps, Last::PageFault, JobsEnd::PageFault, sink),
        JobsEnd::WriteFault => JobsEnd::WriteFault,
    }
}
