//! Writes the reports.
ghost use Rattle.std.specs.Prelude.{◌≡◌, ◌++◌, ◌<◌, OnErr, OnOk, is_err};
ghost use Rattle.vax_outside.specs.Channels.{Grew, GrewByPrefix, only};
ghost use Rattle.vax_outside.specs.Faults.{CountsFailure};
ghost use Rattle.vax_jobs.specs.Beginning.{machines};
ghost use Rattle.vax_jobs_report.specs.Reports.{job_label, last_in, machine_reports, report_on};
ghost use Rattle.vax_machine.specs.Meaning.{engine};

use vax_jobs::Jobs;
use vax_machine::Machine;
use vax_outside::{Chan, Failed, Sink, Text, put_all};
use vax_report::{Last, write_report};

/// How a process ended, as its report tells it: by its ending or at the limit of its steps, else as all of them did.
fn last_of(machine: &Machine, steps: u64, other: Last) -> Last
    ensures { result ≡ last_in steps other (engine machine.now).ended (engine machine.now).steps }
{
    match machine.ended() {
        Some(ending) => Last::Ending(ending),
        None => {
            if machine.steps() < steps {
                other
            } else {
                Last::Steps
            }
        }
    }
}

/// Writes the line of a process, from 0.
#[tactic(auto, unfolding(crate::specs::Reports::job_label))]
fn put_label<K: Sink>(job: u8, sink: &mut K) -> Result<(), Failed>
    requires { job < 255 }
    ensures ok { OnOk result (Grew (K.contents sink.old) (K.contents sink.new)
        (only Chan.Report (job_label job))) }
    ensures prefix { OnErr result (GrewByPrefix (K.contents sink.old) (K.contents sink.new)
        (only Chan.Report (job_label job))) }
    ensures counts { CountsFailure (is_err result) (K.faults sink.old) (K.faults sink.new) }
{
    let mut text = Text::new();
    text.push(b"JOB ");
    text.push_decimal(u64::from(job) + 1);
    text.push(b"\n");
    put_all(sink, Chan::Report, text.as_slice())
}

/// Writes the line of a process and the report on it.
#[tactic(auto, using(vax_outside::proofs::Growth::report_first, vax_outside::proofs::Growth::report_last, vax_outside::proofs::Growth::report_grew))]
fn put_job<K: Sink>(job: u8, machine: &Machine, last: Last, sink: &mut K) -> Result<(), Failed>
    requires { job < 255 }
    ensures ok { OnOk result (Grew (K.contents sink.old) (K.contents sink.new)
        (only Chan.Report (job_label job ++ report_on last (engine machine.now)))) }
    ensures prefix { OnErr result (GrewByPrefix (K.contents sink.old) (K.contents sink.new)
        (only Chan.Report (job_label job ++ report_on last (engine machine.now)))) }
    ensures counts { CountsFailure (is_err result) (K.faults sink.old) (K.faults sink.new) }
{
    put_label(job, sink)?;
    write_report(
        machine.core(),
        last,
        machine.steps(),
        machine.units(),
        machine.taken(),
        &[],
        sink,
    )
}

/// Writes the report on each process, in their order, behind a line `JOB n` with its number from 1. A process that hasn't ended and has steps left of
/// `steps` ended as all of them did, by `other`.
pub fn report_jobs<K: Sink>(
    jobs: &Jobs,
    steps: u64,
    other: Last,
    sink: &mut K,
) -> Result<(), Failed>
    ensures ok { OnOk result (Grew (K.contents sink.old) (K.contents sink.new)
        (only Chan.Report (machine_reports steps other (machines jobs.now)))) }
    ensures prefix { OnErr result (GrewByPrefix (K.contents sink.old) (K.contents sink.new)
        (only Chan.Report (machine_reports steps other (machines jobs.now)))) }
    ensures counts { CountsFailure (is_err result) (K.faults sink.old) (K.faults sink.new) }
{
    for job in 0..jobs.count() {
        let machine = jobs.machine(job);
        put_job(job, machine, last_of(machine, steps, other), sink)?;
    }
    Ok(())
}
