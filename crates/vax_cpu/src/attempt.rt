//! One attempt at a step, as a transaction that is kept or undone.
ghost use Rattle.std.specs.Prelude.{◌≡◌, ◌+◌, ◌<◌, ◌≤◌, ℕ, Option, None, Ok, true, false};
ghost use Rattle.vax_flat.specs.Accesses.{Accesses, Leaf};
ghost use Rattle.vax_flat.specs.State.{State};
ghost use Rattle.vax_flat.specs.OverPort.{Follows, Present};
ghost use Rattle.vax_flat.specs.Delivery.{interrupt};
ghost use Rattle.vax_flat.specs.System.{flow_of_delivery};
ghost use Rattle.vax_x_sys.specs.Frames.{IsLevel};
ghost use Rattle.vax_flat.specs.Step.{finished, handed_over, leaf, ticked, delivered, whole_delivery};
ghost use Rattle.vax_flat.specs.Parts.{begun_part, part, part_step, later, later_step};
ghost use Rattle.vax_undo.specs.FirstPart.{NothingOpen};
ghost use Rattle.vax_undo.specs.Rooms.{room_of_beginning, room_of_end, room_of_step, room_of_tick};
ghost use Rattle.vax_undo.specs.Trail.{FollowsTraced, Traced};
ghost use Rattle.vax_undo.specs.Transaction.{present, traced, room, told, undone, IsReady, IsSame, Keeps, KeepsUnlessDone, Does, Updates, seen};
ghost use Rattle.vax_x_str.specs.Ends.{ClosesIfDone};
ghost use Rattle.vax_cpu.specs.Tried.{IsFinal, IsLast, IsTried, KeepsClosed, KeepsClosedLater, KeepsTime, LeadsBack, Made, UnlessDone, came, is_done, put_again, start_by, tree_of, with_registers};
ghost use Rattle.vax_cpu.specs.Trail.{TracesTried, TrailedTried, traced_of};
ghost use Rattle.vax_cpu.specs.Attempt.{open_after};
ghost use Rattle.vax_cpu.specs.Batch.{Ran};

use crate::cpu::Open;
use crate::instruction::{execute, noted, resume};
use crate::interrupt::{requested, tick};
use vax_flat::{Delivery, Ending, Exception};
use vax_operand::{Cut, Flow};
use vax_quick::is_still;
use vax_undo::{CutShort, Log, Port, Term, Txn};
use vax_word::Core;
use vax_x_str::Scratch;
use vax_x_sys::{deliver, flow_of, interrupt};

/// What an attempt at a step, or at the delivery of an exception, came to.
#[derive(Clone, Copy, PartialEq, Eq)]
pub(crate) enum Tried {
    /// It was completed, and sent this byte.
    Step(Option<u8>),
    /// A part of a string instruction was completed: its opcode, the registers before it, and how many units it has.
    Part(Open),
    /// This page is needed and absent.
    Absent(u32),
    /// It ends the run.
    Ended(Ending),
    /// It raises this exception.
    Event(Exception),
}

/// Delivers an interrupt. It answers as [`noted`].
#[cold]
fn take_interrupt<P: Port>(txn: &mut Txn<P>, level: u8, other: &mut Result<Flow, CutShort>) -> bool
    requires of_level { IsLevel level }
    requires room { room_of_beginning ≤ room txn.old }
    ensures exact { Does P.view P.trail
        (λ s next. interrupt level s (λ how s. next (flow_of_delivery how) s))
        (came result other.new) txn.old txn.new }
    ensures keeps { Keeps P.view P.since room_of_beginning txn.old txn.new }
{
    match interrupt(txn, level) {
        Ok(how) => noted(Ok(flow_of(how)), other),
        Err(short) => noted(Err(short), other),
    }
}

/// An interrupt above the priority, or the instruction at PC, of a string instruction its first part. It answers as [`noted`].
#[inline(always)]
#[tactic(auto, using(vax_undo::proofs::Left::always), unfolding(vax_flat::specs::Parts::begun_part))]
fn begin<P: Port>(
    txn: &mut Txn<P>,
    other: &mut Result<Flow, CutShort>,
    scratch: &mut Scratch,
) -> bool
    requires { room_of_beginning ≤ room txn.old }
    ensures exact { Does P.view P.trail begun_part (came result other.new) txn.old txn.new }
    ensures keeps { KeepsUnlessDone P.view P.since room_of_beginning
        (came result other.new) txn.old txn.new }
    ensures same { IsSame P.since txn.old txn.new }
{
    let level = requested(txn);
    if txn.psl().ipl() < level {
        return take_interrupt(txn, level, other);
    }
    execute(txn, other, scratch)
}

/// What follows a delivery: the clock, where the handler is entered.
#[inline]
#[tactic(auto, unfolding(vax_flat::specs::Step::handed_over))]
fn hand_over<P: Port>(txn: &mut Txn<P>, how: Delivery) -> Result<Flow, CutShort>
    requires { room_of_tick ≤ room txn.old }
    ensures exact { Does P.view P.trail (handed_over how) result txn.old txn.new }
    ensures keeps { Keeps P.view P.since room_of_tick txn.old txn.new }
    ensures last { IsLast result }
{
    match how {
        Delivery::Entered => {
            tick(txn);
            Ok(Flow::Done)
        }
        Delivery::Ended(ending) => Ok(Flow::Ended(ending)),
    }
}

/// The delivery of an exception, and the clock.
#[cold]
#[tactic(auto, unfolding(vax_flat::specs::Step::delivered))]
fn deliver_and_tick<P: Port>(txn: &mut Txn<P>, exception: Exception) -> Result<Flow, CutShort>
    requires { room_of_end ≤ room txn.old }
    ensures exact { Does P.view P.trail (delivered exception) result txn.old txn.new }
    ensures keeps { Keeps P.view P.since room_of_end txn.old txn.new }
    ensures last { IsLast result }
{
    let how = deliver(txn, exception)?;
    hand_over(txn, how)
}

/// The interval clock counts an instruction that was completed.
#[inline]
fn complete<P: Port>(txn: &mut Txn<P>)
    requires { room_of_end ≤ room txn.old }
    ensures exact { Updates P.view P.trail ticked txn.old txn.new }
    ensures keeps { Keeps P.view P.since room_of_end txn.old txn.new }
{
    tick(txn);
}

/// What follows an instruction: a trap's delivery, and the clock.
#[cold]
#[inline(never)]
#[tactic(auto, using(vax_undo::proofs::Left::always, vax_undo::proofs::Left::kept_through, vax_undo::proofs::Left::left_then, crate::proofs::Attempts::closes), unfolding(vax_flat::specs::Step::finished, vax_flat::specs::Step::delivered))]
fn finish<P: Port>(txn: &mut Txn<P>, flow: Flow) -> Result<Flow, CutShort>
    requires { room_of_end ≤ room txn.old }
    ensures exact { Does P.view P.trail (finished flow) result txn.old txn.new }
    ensures keeps { (count : ℕ) → (start : _) →
        KeepsUnlessDone P.view P.since count (Ok flow) start txn.old
        → KeepsUnlessDone P.view P.since (count + room_of_end) result start txn.new }
    ensures same { IsSame P.since txn.old txn.new }
    ensures last { IsLast result }
    ensures closed { ClosesIfDone (Ok flow) txn.old.core.now.psl
        → ClosesIfDone result txn.new.core.now.psl }
{
    match flow {
        Flow::Done => {
            complete(txn);
            Ok(Flow::Done)
        }
        Flow::Clocked => Ok(Flow::Done),
        Flow::Trap(trap) => deliver_and_tick(txn, Exception::Arithmetic(trap)),
        Flow::More { opcode, units } => Ok(Flow::More { opcode, units }),
        Flow::Ended(ending) => Ok(Flow::Ended(ending)),
    }
}

/// A step up to its exception, if it raises one. It answers as [`noted`].
#[inline(always)]
#[tactic(auto, using(vax_undo::proofs::Left::left_then), unfolding(vax_flat::specs::Parts::part, vax_flat::specs::Step::finished))]
fn work<P: Port>(
    txn: &mut Txn<P>,
    other: &mut Result<Flow, CutShort>,
    scratch: &mut Scratch,
) -> bool
    requires { room_of_step ≤ room txn.old }
    ensures exact { Does P.view P.trail part (came result other.new) txn.old txn.new }
    ensures keeps { KeepsUnlessDone P.view P.since room_of_step
        (came result other.new) txn.old txn.new }
    ensures same { IsSame P.since txn.old txn.new }
    ensures last { IsLast (came result other.new) }
    ensures done { result ≡ is_done (came result other.new) }
{
    if begin(txn, other, scratch) {
        complete(txn);
        return true;
    }
    match *other {
        Ok(flow) => noted(finish(txn, flow), other),
        Err(_) => false,
    }
}

/// [`work`] as a call of its own, for the attempts outside the loop.
#[inline(never)]
fn work_once<P: Port>(txn: &mut Txn<P>, scratch: &mut Scratch) -> Result<Flow, CutShort>
    requires { room_of_step ≤ room txn.old }
    ensures exact { Does P.view P.trail part result txn.old txn.new }
    ensures keeps { KeepsUnlessDone P.view P.since room_of_step result txn.old txn.new }
    ensures same { IsSame P.since txn.old txn.new }
    ensures last { IsLast result }
{
    let mut other = Ok(Flow::Done);
    if work(txn, &mut other, scratch) {
        Ok(Flow::Done)
    } else {
        other
    }
}

/// A later part of the string instruction with this opcode.
#[cold]
#[tactic(auto, unfolding(vax_flat::specs::Parts::later))]
fn work_later<P: Port>(
    txn: &mut Txn<P>,
    opcode: u8,
    scratch: &mut Scratch,
) -> Result<Flow, CutShort>
    requires { room_of_step ≤ room txn.old }
    ensures exact { Does P.view P.trail (later opcode) result txn.old txn.new }
    ensures keeps { KeepsUnlessDone P.view P.since room_of_step result txn.old txn.new }
    ensures same { IsSame P.since txn.old txn.new }
    ensures last { IsLast result }
    ensures closed { ClosesIfDone result txn.new.core.now.psl }
{
    let flow = resume(txn, opcode, scratch)?;
    finish(txn, flow)
}

/// The delivery of an exception, and the clock.
#[inline]
#[tactic(auto, using(vax_undo::proofs::Left::always))]
fn work_delivery<P: Port>(txn: &mut Txn<P>, exception: Exception) -> Result<Flow, CutShort>
    requires { room_of_end ≤ room txn.old }
    ensures exact { Does P.view P.trail (delivered exception) result txn.old txn.new }
    ensures keeps { KeepsUnlessDone P.view P.since room_of_end result txn.old txn.new }
    ensures same { IsSame P.since txn.old txn.new }
    ensures last { IsLast result }
{
    deliver_and_tick(txn, exception)
}

/// Keeps a transaction whose work was completed, or a part of it, and undoes any other.
#[inline]
fn conclude<P: Port>(txn: Txn<P>, work: Result<Flow, CutShort>) -> Tried
    requires last { IsLast work }
    requires ready { UnlessDone work (IsReady P.view txn) }
    requires unsent { UnlessDone work ((undone P.view txn).state.sent ≡ None) }
    ensures tried { (old : Present) →
        (tree : State → (Flow → State → Accesses Leaf) → Accesses Leaf) →
        Follows (tree old.state) old (told txn.entry work) (present P.view txn.entry)
        → LeadsBack P.view old work txn.entry
        → IsTried (λ s. tree s leaf) old result
        (seen P.view txn.exit.0.now txn.exit.1.0.now txn.exit.1.1.0.now) }
    ensures traces { (old : Traced) →
        (tree : State → (Flow → State → Accesses Leaf) → Accesses Leaf) →
        FollowsTraced (tree old.state) old (told txn.entry work)
        (traced P.view P.trail txn.entry)
        → TracesTried (λ s. tree s leaf) old result (P.trail txn.exit.1.1.0.now) }
    ensures completed { (sent : Option ℕ) → result ≡ Tried.Step sent → work ≡ Ok Flow.Done }
    ensures unsent { txn.exit.1.0.now.out ≡ None }
    ensures input { txn.exit.1.0.now.input ≡ txn.entry.term.now.input }
    ensures clock { UnlessDone work ((undone P.view txn.entry).state.core.clock ≤ 999)
        → txn.entry.core.now.clock ≤ 999 → KeepsTime txn.exit.0.now.clock result }
    ensures closed { UnlessDone work (NothingOpen (undone P.view txn.entry).state.core.psl)
        → ClosesIfDone work txn.entry.core.now.psl → KeepsClosed txn.exit.0.now.psl result }
    ensures kept { (sent : Option ℕ) → result ≡ Tried.Step sent
        → txn.exit.0.now ≡ txn.entry.core.now }
    ensures since { (start : P) → P.since start txn.entry.port.now
        → P.since start txn.exit.1.1.0.now }
{
    let why = txn.why();
    match work {
        Ok(flow) => match flow {
            Flow::Done => Tried::Step(txn.commit()),
            Flow::More { opcode, units } => {
                let start = txn.commit_part();
                Tried::Part(Open {
                    opcode,
                    start,
                    units,
                })
            }
            Flow::Ended(ending) => {
                txn.unwind();
                Tried::Ended(ending)
            }
            // What follows an instruction makes something else of these.
            Flow::Clocked | Flow::Trap(_) => unreachable!(),
        },
        Err(CutShort) => {
            txn.unwind();
            match why {
                Cut::Absent(page) => Tried::Absent(page),
                Cut::Event(exception) => Tried::Event(exception),
            }
        }
    }
}

/// Makes an attempt at a step, which is undone where it isn't completed.
pub(crate) fn try_step<P: Port>(
    core: &mut Core,
    term: &mut Term,
    port: &mut P,
    log: &mut Log,
    scratch: &mut Scratch,
) -> Tried
    requires { term.old.out ≡ None }
    ensures tried { IsTried part_step (seen P.view core.old term.old port.old) result
        (seen P.view core.new term.new port.new) }
    ensures traces { TracesTried part_step
        (traced_of P.view P.trail core.old term.old port.old) result (P.trail port.new) }
    ensures unsent { term.new.out ≡ None }
    ensures input { term.new.input ≡ term.old.input }
    ensures clock { core.old.clock ≤ 999 → KeepsTime core.new.clock result }
    ensures closed { NothingOpen core.old.psl → KeepsClosed core.new.psl result }
    ensures since { (start : P) → P.since start port.old → P.since start port.new }
{
    let mut txn = Txn::begin(core, term, port, log);
    let done = work_once(&mut txn, scratch);
    conclude(txn, done)
}

/// Makes an attempt at the delivery of an exception, from the state at the start of the instruction. It raises no other.
#[cold]
fn try_delivery<P: Port>(
    core: &mut Core,
    term: &mut Term,
    port: &mut P,
    log: &mut Log,
    exception: Exception,
) -> Tried
    requires { term.old.out ≡ None }
    ensures quiet { IsFinal result }
    ensures tried { IsTried (whole_delivery exception) (seen P.view core.old term.old port.old)
        result (seen P.view core.new term.new port.new) }
    ensures traces { TracesTried (whole_delivery exception)
        (traced_of P.view P.trail core.old term.old port.old) result (P.trail port.new) }
    ensures unsent { term.new.out ≡ None }
    ensures input { term.new.input ≡ term.old.input }
    ensures clock { core.old.clock ≤ 999 → KeepsTime core.new.clock result }
    ensures closed { NothingOpen core.old.psl → KeepsClosed core.new.psl result }
    ensures since { (start : P) → P.since start port.old → P.since start port.new }
{
    let mut txn = Txn::begin(core, term, port, log);
    let done = work_delivery(&mut txn, exception);
    conclude(txn, done)
}

/// Makes an attempt at a later part of the string instruction with this opcode, which is undone where it isn't completed.
fn try_later<P: Port>(
    core: &mut Core,
    term: &mut Term,
    port: &mut P,
    opcode: u8,
    log: &mut Log,
    scratch: &mut Scratch,
) -> Tried
    requires { term.old.out ≡ None }
    ensures tried { IsTried (later_step opcode) (seen P.view core.old term.old port.old) result
        (seen P.view core.new term.new port.new) }
    ensures traces { TracesTried (later_step opcode)
        (traced_of P.view P.trail core.old term.old port.old) result (P.trail port.new) }
    ensures unsent { term.new.out ≡ None }
    ensures input { term.new.input ≡ term.old.input }
    ensures clock { core.old.clock ≤ 999 → KeepsTime core.new.clock result }
    ensures closed { (sent : Option ℕ) → result ≡ Tried.Step sent → NothingOpen core.new.psl }
    ensures since { (start : P) → P.since start port.old → P.since start port.new }
{
    let mut txn = Txn::begin(core, term, port, log);
    let done = work_later(&mut txn, opcode, scratch);
    conclude(txn, done)
}

/// Delivers the exception that an attempt at a step raised, if it raised one.
#[inline]
pub(crate) fn settle<P: Port>(
    core: &mut Core,
    term: &mut Term,
    port: &mut P,
    log: &mut Log,
    tried: Tried,
) -> Tried
    requires { term.old.out ≡ None }
    ensures kept { IsFinal tried → result ≡ tried }
    ensures quiet { IsFinal result }
    ensures made { (tree : State → Accesses Leaf) → (old : Present) →
        IsTried tree old tried (seen P.view core.old term.old port.old)
        → Made tree old.state.core old result (seen P.view core.new term.new port.new) }
    ensures trail { (tree : State → Accesses Leaf) → (old : Traced) →
        IsTried tree (record { state = old.state; view = old.view }) tried
        (seen P.view core.old term.old port.old)
        → TracesTried tree old tried (P.trail port.old)
        → TrailedTried tree old.state.core old result (P.trail port.new) }
    ensures unsent { term.new.out ≡ None }
    ensures input { term.new.input ≡ term.old.input }
    ensures clock { KeepsTime core.old.clock tried → KeepsTime core.new.clock result }
    ensures closed { KeepsClosed core.old.psl tried → KeepsClosed core.new.psl result }
    ensures since { (start : P) → P.since start port.old → P.since start port.new }
{
    match tried {
        Tried::Event(exception) => try_delivery(core, term, port, log, exception),
        _ => tried,
    }
}

/// Delivers an exception from the registers at an instruction's start. Where a page is absent, the registers are again those before.
fn deliver_from<P: Port>(
    core: &mut Core,
    term: &mut Term,
    port: &mut P,
    log: &mut Log,
    start: Core,
    exception: Exception,
) -> Tried
    requires { term.old.out ≡ None }
    ensures quiet { IsFinal result }
    ensures delivered { (mid : Present) ×
        IsTried (whole_delivery exception)
        (with_registers start (seen P.view core.old term.old port.old)) result mid
        × (seen P.view core.new term.new port.new ≡ put_again core.old result mid) }
    ensures traces { TracesTried (whole_delivery exception)
        (traced_of P.view P.trail start term.old port.old) result (P.trail port.new) }
    ensures unsent { term.new.out ≡ None }
    ensures input { term.new.input ≡ term.old.input }
    ensures clock { core.old.clock ≤ 999 → start.clock ≤ 999 → KeepsTime core.new.clock result }
    ensures closed { NothingOpen start.psl → KeepsClosedLater core.new.psl result }
    ensures since { (start : P) → P.since start port.old → P.since start port.new }
{
    let before = *core;
    *core = start;
    let delivered = try_delivery(core, term, port, log, exception);
    match delivered {
        Tried::Absent(_) => {
            *core = before;
            delivered
        }
        _ => delivered,
    }
}

/// What follows an attempt at a later part of an instruction that began with these registers: the delivery of its exception from these, and
/// these registers where it ends the run.
fn settle_later<P: Port>(
    core: &mut Core,
    term: &mut Term,
    port: &mut P,
    log: &mut Log,
    start: Core,
    tried: Tried,
) -> Tried
    requires { term.old.out ≡ None }
    ensures quiet { IsFinal result }
    ensures made { (tree : State → Accesses Leaf) → (old : Present) →
        IsTried tree old tried (seen P.view core.old term.old port.old)
        → Made tree start old result (seen P.view core.new term.new port.new) }
    ensures trail { (tree : State → Accesses Leaf) → (old : Traced) →
        IsTried tree (record { state = old.state; view = old.view }) tried
        (seen P.view core.old term.old port.old)
        → TracesTried tree old tried (P.trail port.old)
        → TrailedTried tree start old result (P.trail port.new) }
    ensures unsent { term.new.out ≡ None }
    ensures input { term.new.input ≡ term.old.input }
    ensures clock { KeepsTime core.old.clock tried → start.clock ≤ 999
        → KeepsTime core.new.clock result }
    ensures closed { NothingOpen start.psl
        → ((sent : Option ℕ) → tried ≡ Tried.Step sent → NothingOpen core.old.psl)
        → KeepsClosedLater core.new.psl result }
    ensures since { (start : P) → P.since start port.old → P.since start port.new }
{
    match tried {
        Tried::Event(exception) => deliver_from(core, term, port, log, start, exception),
        Tried::Ended(_) => {
            *core = start;
            tried
        }
        _ => tried,
    }
}

/// Makes one attempt at a step, or at the next part of the instruction that is open.
pub(crate) fn try_once<P: Port>(
    core: &mut Core,
    term: &mut Term,
    port: &mut P,
    latch: Option<Open>,
    log: &mut Log,
    scratch: &mut Scratch,
) -> Tried
    requires { term.old.out ≡ None }
    ensures quiet { IsFinal result }
    ensures made { Made (tree_of latch) (start_by latch core.old)
        (seen P.view core.old term.old port.old) result (seen P.view core.new term.new port.new) }
    ensures trail { TrailedTried (tree_of latch) (start_by latch core.old)
        (traced_of P.view P.trail core.old term.old port.old) result (P.trail port.new) }
    ensures unsent { term.new.out ≡ None }
    ensures input { term.new.input ≡ term.old.input }
    ensures clock { core.old.clock ≤ 999 → (start_by latch core.old).clock ≤ 999
        → KeepsTime core.new.clock result }
    ensures closed { NothingOpen (start_by latch core.old).psl
        → NothingOpen (start_by (open_after latch result) core.new).psl }
    ensures since { (start : P) → P.since start port.old → P.since start port.new }
{
    match latch {
        None => {
            let tried = try_step(core, term, port, log, scratch);
            settle(core, term, port, log, tried)
        }
        Some(latched) => {
            let tried = try_later(core, term, port, latched.opcode, log, scratch);
            settle_later(core, term, port, log, latched.start, tried)
        }
    }
}

/// Steps that were completed with no byte sent, and what the attempt after them came to.
#[derive(Clone, Copy, PartialEq, Eq)]
pub(crate) struct Several {
    pub(crate) steps: u64,
    pub(crate) last: Tried,
}

/// Makes at most `most` attempts at steps by transactions, up to the first that isn't completed at once or that sends a byte. They share one
/// log.
#[inline(never)]
fn try_logged<P: Port>(
    core: &mut Core,
    term: &mut Term,
    port: &mut P,
    most: u64,
    log: &mut Log,
    scratch: &mut Scratch,
) -> Several
    requires unsent { term.old.out ≡ None }
    requires some { 1 ≤ most }
    ensures ran { (mid : Present) × Ran result.steps (seen P.view core.old term.old port.old) mid
        × IsTried part_step mid result.last (seen P.view core.new term.new port.new) }
    ensures few { result.steps < most }
    ensures all { result.last ≡ Tried.Step None → result.steps + 1 ≡ most }
    ensures unsent { term.new.out ≡ None }
    ensures input { term.new.input ≡ term.old.input }
    ensures clock { core.old.clock ≤ 999 → KeepsTime core.new.clock result.last }
    ensures closed { NothingOpen core.old.psl → KeepsClosed core.new.psl result.last }
    ensures since { (start : P) → P.since start port.old → P.since start port.new }
{
    let mut txn = Txn::begin(core, term, port, log);
    let mut steps = 0;
    let mut other = Ok(Flow::Done);
    while steps + 1 < most {
        let done = work(&mut txn, &mut other, scratch);
        if !done {
            let last = conclude(txn, other);
            return Several { steps, last };
        }
        match txn.renew() {
            None => steps += 1,
            Some(byte) => {
                let _ = txn.commit();
                return Several {
                    steps,
                    last: Tried::Step(Some(byte)),
                };
            }
        }
    }
    let done = work_once(&mut txn, scratch);
    let last = conclude(txn, done);
    Several { steps, last }
}

/// [`work`] as a call of its own, for a transaction of one step.
#[inline(never)]
fn work_apart<P: Port>(
    txn: &mut Txn<P>,
    other: &mut Result<Flow, CutShort>,
    scratch: &mut Scratch,
) -> bool
    requires { room_of_step ≤ room txn.old }
    ensures exact { Does P.view P.trail part (came result other.new) txn.old txn.new }
    ensures keeps { KeepsUnlessDone P.view P.since room_of_step
        (came result other.new) txn.old txn.new }
    ensures same { IsSame P.since txn.old txn.new }
    ensures last { IsLast (came result other.new) }
    ensures done { result ≡ is_done (came result other.new) }
{
    work(txn, other, scratch)
}

/// Makes an attempt at a step, and says whether it completed it and sent no byte. What else it came to is left in `last`: what an attempt
/// comes to has a hundred bytes.
#[inline(always)]
fn try_apart<P: Port>(
    core: &mut Core,
    term: &mut Term,
    port: &mut P,
    log: &mut Log,
    scratch: &mut Scratch,
    last: &mut Tried,
) -> bool
    requires unsent { term.old.out ≡ None }
    requires silent { last.old ≡ Tried.Step None }
    ensures silent { result ≡ true → last.new ≡ Tried.Step None }
    ensures other { result ≡ false → last.new ≡ Tried.Step None → ⊥ }
    ensures tried { IsTried part_step (seen P.view core.old term.old port.old) last.new
        (seen P.view core.new term.new port.new) }
    ensures unsent { term.new.out ≡ None }
    ensures input { term.new.input ≡ term.old.input }
    ensures clock { core.old.clock ≤ 999 → KeepsTime core.new.clock last.new }
    ensures closed { NothingOpen core.old.psl → KeepsClosed core.new.psl last.new }
    ensures since { (start : P) → P.since start port.old → P.since start port.new }
{
    let mut txn = Txn::begin(core, term, port, log);
    let mut other = Ok(Flow::Done);
    let done = work_apart(&mut txn, &mut other, scratch);
    if !done {
        *last = conclude(txn, other);
        return false;
    }
    match txn.commit() {
        None => true,
        Some(byte) => {
            *last = Tried::Step(Some(byte));
            false
        }
    }
}

/// Makes at most `most` attempts at steps, up to the first that isn't completed at once or that sends a byte. Where no interrupt is asked for
/// and the interval clock is off, steps are made at once, on the registers, as long as that can be, and then one by a transaction. Else all
/// attempts are transactions.
pub(crate) fn try_steps<P: Port>(
    core: &mut Core,
    term: &mut Term,
    port: &mut P,
    most: u64,
    log: &mut Log,
    scratch: &mut Scratch,
) -> Several
    requires unsent { term.old.out ≡ None }
    requires some { 1 ≤ most }
    ensures ran { (mid : Present) × Ran result.steps (seen P.view core.old term.old port.old) mid
        × IsTried part_step mid result.last (seen P.view core.new term.new port.new) }
    ensures few { result.steps < most }
    ensures all { result.last ≡ Tried.Step None → result.steps + 1 ≡ most }
    ensures unsent { term.new.out ≡ None }
    ensures input { term.new.input ≡ term.old.input }
    ensures clock { core.old.clock ≤ 999 → KeepsTime core.new.clock result.last }
    ensures closed { NothingOpen core.old.psl → KeepsClosed core.new.psl result.last }
    ensures since { (start : P) → P.since start port.old → P.since start port.new }
{
    let mut last = Tried::Step(None);
    let mut steps = 0;
    while is_still(core) {
        let quick = vax_quick::run(core, port, most - steps - 1);
        steps += quick;
        let silent = try_apart(core, term, port, log, scratch, &mut last);
        if steps + 1 == most {
            return Several { steps, last };
        }
        if !silent {
            return Several { steps, last };
        }
        steps += 1;
    }
    let several = try_logged(core, term, port, most - steps, log, scratch);
    Several {
        steps: steps + several.steps,
        last: several.last,
    }
}
