//! Runs several programs together: makes their processes and their order, runs them, and reports on each.
ghost use Rattle.std.specs.Prelude.{◌≡◌, ◌⊎◌, ◌*◌, ◌++◌, ◌≤◌, IfErr, IfOk, IfSome, Ok, length};
ghost use Rattle.std.specs.Option.{option_copied};
ghost use Rattle.vax_image.specs.declared.Base.TheVariants as base;
ghost use Rattle.vax_order.specs.Orders.{IsOrder, order_of};
ghost use Rattle.vax_jobs.specs.Beginning.{machines};
ghost use Rattle.vax_cli.specs.Said.{AreShared, jobs_options, names_of};
ghost use Rattle.vax_command.specs.Around.{change, outside};
ghost use Rattle.vax_command.specs.Ends.{Admits};
ghost use Rattle.vax_command.specs.Jobs.{HasJobsTexts, IsOrderFault, JobsRan, jobs_answer_to, jobs_files, order_text};
ghost use Rattle.vax_command.specs.JobsView.{AreTogether, IsPreparedFor, jobs_texts_seen, together_seen};
ghost use Rattle.vax_command.specs.declared.load.Role.TheVariants as Role;
ghost use Rattle.vax_command.specs.Reading.{ReadEnds, ReadsOnly, all_sought, file_limit};
ghost use Rattle.vax_command.specs.ReadingView.{bytes_of, texts};

use crate::load::{Role, load_both, load_files, or_empty};
use crate::refusal::refuse;
use crate::status::Status;
use std::alloc::Global;
use vax_cli::JobsOptions;
use vax_image::Image;
use vax_jobs::{Jobs, JobsEnd};
use vax_order::{Order, OrderError, default_order};
use vax_outside::{Files, PageFile, Sink};
use vax_together::{make_jobs, run_and_report};

/// Programs in user mode, and the system under which each of them runs.
#[derive(Drop)]
pub struct Together {
    pub system: Image,
    pub users: Vec<Image>,
}

/// The files of the options of several programs: the console's input, empty where it isn't given, and the order, if it is given.
#[derive(Drop)]
pub struct JobsGiven {
    pub input: Vec<u8>,
    pub order: Option<Vec<u8>>,
}

/// Reads the files of several programs, and then their input and their order.
pub fn load_jobs<S: Files>(
    alloc: Global,
    names: &[&str],
    options: &JobsOptions<'_>,
    files: &mut S,
) -> Result<(Vec<Vec<u8>>, JobsGiven), Status>
    ensures only { ReadsOnly (change S.faults S.contents files.old files.new) result }
    ensures count { IfOk result (λ r. length r.0.items ≡ length names.now) }
    ensures input { IfOk result (λ r. length r.1.input.items ≤ file_limit) }
    ensures order { IfOk result (λ r. IfSome r.1.order (λ v. length v.items ≤ file_limit)) }
    ensures ok { IfOk result (λ r. HasJobsTexts (S.contents files.old) (names_of names.now)
        (jobs_options options.now) (jobs_texts_seen (texts r.0.items) r.1)) }
    ensures ends { IfErr result (λ status. ReadEnds (change S.faults S.contents files.old files.new)
        (all_sought Role.Program (names_of names.now) ++ jobs_files (jobs_options options.now))
        status) }
{
    let programs = load_files(alloc, names, Role::Program, files)?;
    let others = (Role::Other, Role::Other);
    let (input, order) = load_both(alloc, options.input, options.order, others, files)?;
    let input = or_empty(alloc, input);
    Ok((programs, JobsGiven { input, order }))
}

/// The text of an order: the one in which each makes an attempt in turn, where none is given.
#[tactic(auto, using(crate::proofs::JobsLaws::default_short))]
fn text_of<'a>(text: Option<&'a [u8]>, count: u8) -> &'a [u8]
    requires few { count ≤ 8 }
    requires short { IfSome (option_copied text) (λ t. length t ≤ file_limit) }
    ensures text { result.now ≡ order_text count (option_copied text.entry) }
    ensures short { length result.now ≤ file_limit }
{
    match text {
        Some(text) => text,
        None => default_order(count),
    }
}

/// The order of a text, or the one in which each makes an attempt in turn. The error is the answer to its first fault, or want of memory.
fn arrange(alloc: Global, text: Option<&[u8]>, count: u8) -> Result<Order, Status>
    requires few { count ≤ 8 }
    requires short { IfSome (option_copied text) (λ t. length t ≤ file_limit) }
    ensures ordered { IfOk result (λ order.
        order_of count (order_text count (option_copied text.entry)) ≡ Ok order) }
    ensures proper { IfOk result (IsOrder count) }
    ensures fault { IfErr result (λ status.
        IsOrderFault count (order_text count (option_copied text.entry)) status
        ⊎ (status ≡ Status.NoMemory)) }
{
    match Order::read(alloc, text_of(text, count), count) {
        Ok(order) => Ok(order),
        Err(OrderError::Fault { line, kind }) => Err(Status::Order { line, kind }),
        Err(OrderError::NoMemory) => Err(Status::NoMemory),
    }
}

/// The answer to the end of a run.
fn answer_to(end: JobsEnd) -> Status
    ensures { result ≡ jobs_answer_to end }
{
    match end {
        JobsEnd::Done => Status::Done,
        JobsEnd::Turns => Status::Turns,
        JobsEnd::PageFault => Status::PageFault,
        JobsEnd::WriteFault => Status::WriteFault,
    }
}

/// The processes of programs, and their order. The error is the answer to the order's first fault, or want of memory.
fn prepare_jobs(
    alloc: Global,
    programs: &Together,
    given: &JobsGiven,
    pool: u32,
) -> Result<(Jobs, Order), Status>
    requires together { AreTogether programs.now }
    requires least { 64 * length programs.now.users.items ≤ pool }
    requires most { pool ≤ 32768 }
    requires input { length given.now.input.items ≤ file_limit }
    requires order { IfSome given.now.order (λ v. length v.items ≤ file_limit) }
    ensures prepared { IfOk result (λ r.
        IsPreparedFor (together_seen programs.now) given.now.input.items pool r.0) }
    ensures ordered { IfOk result (λ r. order_of (length programs.now.users.items)
        (order_text (length programs.now.users.items) (bytes_of given.now.order)) ≡ Ok r.1) }
    ensures proper { IfOk result (λ r. IsOrder (length (machines r.0)) r.1) }
    ensures fault { IfErr result (λ status. IsOrderFault (length programs.now.users.items)
        (order_text (length programs.now.users.items) (bytes_of given.now.order)) status
        ⊎ (status ≡ Status.NoMemory)) }
{
    let order = arrange(alloc, given.order.as_deref(), programs.users.len() as u8)?;
    match make_jobs(alloc, &programs.system, &programs.users, &given.input, pool) {
        Ok(jobs) => Ok((jobs, order)),
        Err(_) => Err(Status::NoMemory),
    }
}

/// Runs several programs under their system in an order, each with all of the input, as far as the options let them go.
pub fn run_jobs<K: Sink, F: PageFile>(
    alloc: Global,
    programs: &Together,
    given: &JobsGiven,
    options: &JobsOptions<'_>,
    sink: &mut K,
    pages: &mut F,
) -> Status
    requires together { AreTogether programs.now }
    requires shared { AreShared (length programs.now.users.items) (jobs_options options.now) }
    requires input { length given.now.input.items ≤ file_limit }
    requires order { IfSome given.now.order (λ v. length v.items ≤ file_limit) }
    ensures ran { JobsRan
        (outside (change K.faults K.contents sink.old sink.new)
        (change F.faults F.contents pages.old pages.new))
        (together_seen programs.now) given.now.input.items
        (order_text (length programs.now.users.items) (bytes_of given.now.order))
        (jobs_options options.now) result }
    ensures failed { Admits (F.faults pages.old) (F.faults pages.new) Status.PageFault result }
{
    match prepare_jobs(alloc, programs, given, options.pool) {
        Ok((jobs, order)) => answer_to(run_and_report(
            jobs,
            &order,
            options.steps,
            options.turns,
            pages,
            sink,
        )),
        Err(status) => refuse(status, sink),
    }
}
