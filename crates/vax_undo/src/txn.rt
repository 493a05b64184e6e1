//! Transactions.
ghost use Rattle.std.specs.Prelude.{◌≡◌, ◌+◌, ◌%◌, ◌^◌, ◌<◌, ◌≤◌, None, Some, is_some, length, slice_get, slice_index, vec_len, IfOk, OnOk, OnErr};
ghost use Rattle.vax_undo.specs.Answers.{err_of};

use crate::entry::{Entry, Kept};
use crate::log::Log;
use crate::port::Port;
use crate::term::Term;
use vax_flat::{Cut, Stop};
use vax_space::{Access, Violation};
use vax_word::{Core, Psl};

/// The work was cut short. The transaction says by what ([`Txn::why`]), so that a result that isn't cut short stays small.
#[derive(Clone, Copy, PartialEq, Eq)]
pub struct CutShort;

/// Work on the registers, the console and a port, with a log of the old values of all that it changed.
///
/// A transaction ends by [`Txn::commit`], by [`Txn::commit_part`] or by [`Txn::unwind`]. Its log takes 96 entries; a call that changes something takes at most one.
pub struct Txn<'a, P: Port> {
    core: &'a mut Core,
    term: &'a mut Term,
    port: &'a mut P,
    log: &'a mut Log,
    origin: Origin,
    /// What cut the work short, if something did.
    why: Cut,
}

/// PC, the status longword and the interval clock's count as they were at the start. Every instruction changes them, the count where the clock
/// is on, so they are kept here and not in the log.
#[derive(Clone, Copy)]
pub(crate) struct Origin {
    pub(crate) pc: u32,
    pub(crate) psl: Psl,
    pub(crate) clock: u16,
}

ghost use Rattle.vax_undo.specs.declared.txn.Origin.{Origin};
ghost use Rattle.vax_undo.specs.Transaction.{sent_of};

#[inline(always)]
fn origin_of(core: &Core) -> Origin
    ensures { result
        ≡ record { pc = slice_index core.now.regs 15; psl = core.now.psl; clock = core.now.clock } }
{
    Origin {
        pc: register_of(core, 15),
        psl: core.psl,
        clock: core.clock,
    }
}

/// A register behind a shared reference.
#[inline(always)]
fn register_of(core: &Core, n: u8) -> u32
    requires { n < 16 }
    ensures { result ≡ slice_index core.now.regs n }
{
    core.regs[n as usize]
}

/// A kept stack pointer behind a shared reference.
#[inline]
fn stack_of(core: &Core, i: u8) -> u32
    requires { i < 5 }
    ensures { result ≡ slice_index core.now.stacks i }
{
    core.stacks[i as usize]
}

/// What was sent to the console as a number: 256 stands for nothing.
#[inline]
fn sent_number(sent: Option<u8>) -> u64
    ensures { sent_of result ≡ sent }
{
    match sent {
        Some(byte) => byte as u64,
        None => 256,
    }
}

#[inline]
fn sent_of(number: u64) -> Option<u8>
    ensures { result ≡ sent_of number }
{
    if number < 256 {
        Some(number as u8)
    } else {
        None
    }
}

/// Whether a byte of the input is left, behind a shared reference.
#[inline]
fn input_is_left(term: &Term) -> bool
    ensures { result ≡ is_some (slice_get term.now.input.items term.now.place) }
{
    (term.place as usize) < term.input.len()
}

ghost use Rattle.vax_undo.specs.Transaction.{state_of, undo, trail_back, Allows, seen};

/// Puts the old value of an entry back.
#[tactic(auto, using(crate::proofs::Undo::put_again, crate::proofs::Trail::made_again))]
fn put_back<P: Port>(entry: Entry, core: &mut Core, term: &mut Term, port: &mut P)
    requires { Allows (vec_len term.old.input) (P.view port.old).areas (P.view port.old).resident
        (P.view port.old).marked entry.kept entry }
    ensures state { state_of core.new term.new
        ≡ (undo entry (seen P.view core.old term.old port.old)).state }
    ensures view { P.view port.new ≡ (undo entry (seen P.view core.old term.old port.old)).view }
    ensures trail { P.trail port.new ≡ trail_back entry.kept entry (P.trail port.old) }
    ensures input { term.new.input ≡ term.old.input }
    ensures since { (start : P) → P.since start port.old → P.since start port.new }
{
    match entry.kept {
        Kept::Register => core.regs[entry.number as usize] = entry.old as u32,
        Kept::Stack => core.stacks[entry.number as usize] = entry.old as u32,
        Kept::Requests => core.sisr = entry.old as u16,
        Kept::Timer => core.iccs = entry.old as u8,
        Kept::Taken => term.place = entry.old as u32,
        Kept::Sent => term.out = sent_of(entry.old),
        Kept::Bytes => {
            let _ = port.write(entry.addr, entry.number as u32, entry.old, entry.mode);
        }
    }
}

ghost use Rattle.vax_undo.specs.Transaction.{restored_by, FitsIn};

/// Puts the old value of an entry back into these registers, where it is one of theirs.
fn restore(entry: Entry, core: &mut Core)
    requires { FitsIn entry.kept entry }
    ensures { core.new ≡ restored_by entry.kept entry core.old }
{
    match entry.kept {
        Kept::Register => core.regs[entry.number as usize] = entry.old as u32,
        Kept::Stack => core.stacks[entry.number as usize] = entry.old as u32,
        Kept::Requests => core.sisr = entry.old as u16,
        Kept::Timer => core.iccs = entry.old as u8,
        Kept::Taken | Kept::Sent | Kept::Bytes => {}
    }
}

impl<'a, P: Port> Txn<'a, P> {
    ghost use Rattle.vax_space.specs.Reference.{violation};
    ghost use Rattle.vax_undo.specs.FirstPart.{first_part_done};
    ghost use Rattle.vax_flat.specs.State.{register, with_register, with_psl, with_stack, with_requests, with_timer, with_clock, with_sent};
    ghost use Rattle.vax_flat.specs.Memory.{bytes_from};
    ghost use Rattle.vax_flat.specs.Port.{loaded, stored, stored_run, stop, unmarked};
    ghost use Rattle.vax_undo.specs.Trail.{after_reading, after_writing, after_writing_run};
    ghost use Rattle.vax_undo.specs.Transaction.{bare, state_of, present, traced, trail_undone, undone, room, IsLeft, IsLeftOpen, IsReady, IsSame, Keeps, Updates, seen, with_view, next_byte, after_take};

    /// Begins a transaction, at which nothing is sent to the console yet. What the log held is forgotten.
    #[inline]
    pub fn begin(
        core: &'a mut Core,
        term: &'a mut Term,
        port: &'a mut P,
        log: &'a mut Log,
    ) -> Txn<'a, P>
        requires { term.old.out ≡ None }
        ensures core { result.core.ghost_name ≡ core.entry.ghost_name }
        ensures term { result.term.ghost_name ≡ term.entry.ghost_name }
        ensures port { result.port.ghost_name ≡ port.entry.ghost_name }
        ensures present { present P.view result ≡ seen P.view core.old term.old port.old }
        ensures lent { result.port.now ≡ port.old }
        ensures console { result.term.now ≡ term.old }
        ensures undone { undone P.view result ≡ bare (present P.view result) }
        ensures room { room result ≡ 96 }
        ensures ready { IsReady P.view result }
    {
        let origin = origin_of(core);
        log.forget();
        Txn {
            core,
            term,
            port,
            log,
            origin,
            why: Cut::Absent(0),
        }
    }

    /// Says what cuts the work short.
    #[cold]
    pub fn cut(&mut self, why: Cut) -> CutShort
        ensures why { self.new.why ≡ why }
        ensures present { traced P.view P.trail self.new ≡ traced P.view P.trail self.old }
        ensures keeps { Keeps P.view P.since 0 self.old self.new }
    {
        self.why = why;
        CutShort
    }

    /// What cut the work short, where something did.
    #[inline]
    pub fn why(&self) -> Cut
        ensures { result ≡ self.now.why }
    {
        self.why
    }

    /// The sixteen registers.
    #[inline(always)]
    pub fn registers(&self) -> &[u32]
        ensures exact { result.now ≡ (present P.view self.now).state.core.regs }
        ensures sixteen { length (present P.view self.now).state.core.regs ≡ 16 }
    {
        let registers: &[u32] = &self.core.regs;
        prove!(registers.len() == 16);
        registers
    }

    /// Register `n`, below 16.
    #[inline(always)]
    pub fn reg(&self, n: u8) -> u32
        requires { n < 16 }
        ensures { result ≡ register (present P.view self.now).state n }
    {
        register_of(self.core, n)
    }

    /// Sets register `n`, below 16.
    #[inline(always)]
    pub fn set_reg(&mut self, n: u8, v: u32)
        requires of_core { n < 16 }
        requires room { 1 ≤ room self.old }
        ensures present { Updates P.view P.trail (λ s. with_register s n v) self.old self.new }
        ensures keeps { Keeps P.view P.since 1 self.old self.new }
    {
        if n == 15 {
            self.core.regs[15] = v;
            return;
        }
        let old = register_of(self.core, n);
        self.core.regs[n as usize] = v;
        self.log
            .entries
            .push(Entry::of(Kept::Register, n, old as u64));
    }

    /// The processor status longword.
    #[inline(always)]
    pub fn psl(&self) -> Psl
        ensures { result ≡ (present P.view self.now).state.core.psl }
    {
        self.core.psl
    }

    /// Sets the processor status longword, in which first part done is set only where it was: this opens no instruction.
    #[inline(always)]
    pub fn set_psl(&mut self, v: Psl)
        requires closed { first_part_done v ≤ first_part_done self.old.core.now.psl }
        requires room { 1 ≤ room self.old }
        ensures present { Updates P.view P.trail (λ s. with_psl s v) self.old self.new }
        ensures keeps { Keeps P.view P.since 1 self.old self.new }
    {
        self.core.psl = v;
    }

    /// Sets the processor status longword behind a part of an instruction, which may leave that instruction open (first part done). The log
    /// still tells the registers at the start.
    #[inline]
    pub fn leave_open(&mut self, v: Psl)
        requires { 1 ≤ room self.old }
        ensures present { Updates P.view P.trail (λ s. with_psl s v) self.old self.new }
        ensures left { IsLeftOpen P.view P.since 1 self.old self.new }
    {
        self.core.psl = v;
    }

    /// The kept pointer of stack `i`, below 5.
    #[inline]
    pub fn stack(&self, i: u8) -> u32
        requires { i < 5 }
        ensures { result ≡ slice_index (present P.view self.now).state.core.stacks i }
    {
        stack_of(self.core, i)
    }

    #[inline]
    pub fn set_stack(&mut self, i: u8, v: u32)
        requires of_core { i < 5 }
        requires room { 1 ≤ room self.old }
        ensures present { Updates P.view P.trail (λ s. with_stack s i v) self.old self.new }
        ensures keeps { Keeps P.view P.since 1 self.old self.new }
    {
        let old = stack_of(self.core, i);
        self.log.entries.push(Entry::of(Kept::Stack, i, old as u64));
        self.core.stacks[i as usize] = v;
    }

    /// The software interrupt summary register.
    #[inline(always)]
    pub fn sisr(&self) -> u16
        ensures { result ≡ (present P.view self.now).state.core.sisr }
    {
        self.core.sisr
    }

    #[inline]
    pub fn set_sisr(&mut self, v: u16)
        requires { 1 ≤ room self.old }
        ensures present { Updates P.view P.trail (λ s. with_requests s v) self.old self.new }
        ensures keeps { Keeps P.view P.since 1 self.old self.new }
    {
        self.log
            .entries
            .push(Entry::of(Kept::Requests, 0, self.core.sisr as u64));
        self.core.sisr = v;
    }

    /// The interval clock's control and status.
    #[inline(always)]
    pub fn iccs(&self) -> u8
        ensures { result ≡ (present P.view self.now).state.core.iccs }
    {
        self.core.iccs
    }

    #[inline]
    pub fn set_iccs(&mut self, v: u8)
        requires { 1 ≤ room self.old }
        ensures present { Updates P.view P.trail (λ s. with_timer s v) self.old self.new }
        ensures keeps { Keeps P.view P.since 1 self.old self.new }
    {
        self.log
            .entries
            .push(Entry::of(Kept::Timer, 0, self.core.iccs as u64));
        self.core.iccs = v;
    }

    /// The steps that the interval clock has counted.
    #[inline(always)]
    pub fn clock(&self) -> u16
        ensures { result ≡ (present P.view self.now).state.core.clock }
    {
        self.core.clock
    }

    /// Sets what the interval clock has counted, at most 999: at the thousandth step it begins anew.
    #[inline(always)]
    pub fn set_clock(&mut self, v: u16)
        requires { v ≤ 999 }
        ensures present { Updates P.view P.trail (λ s. with_clock s v) self.old self.new }
        ensures keeps { Keeps P.view P.since 0 self.old self.new }
    {
        self.core.clock = v;
    }

    /// Takes the next byte of the console's input, if one is left.
    #[inline]
    pub fn take(&mut self) -> Option<u8>
        requires room { 1 ≤ room self.old }
        ensures answer { result ≡ next_byte (present P.view self.old).state }
        ensures present { Updates P.view P.trail after_take self.old self.new }
        ensures keeps { Keeps P.view P.since 1 self.old self.new }
    {
        let term = &mut *self.term;
        let place = term.place;
        if place as usize >= term.input.len() {
            return None;
        }
        let byte = term.input[place as usize];
        term.place = place + 1;
        self.log
            .entries
            .push(Entry::of(Kept::Taken, 0, place as u64));
        Some(byte)
    }

    /// Whether a byte of the console's input is left.
    #[inline]
    pub fn has_input(&self) -> bool
        ensures { result ≡ is_some (next_byte (present P.view self.now).state) }
    {
        input_is_left(self.term)
    }

    /// Sends a byte to the console, in place of one that was sent since the transaction began.
    #[inline]
    pub fn emit(&mut self, byte: u8)
        requires room { 1 ≤ room self.old }
        ensures present { Updates P.view P.trail (λ s. with_sent s (Some byte)) self.old self.new }
        ensures keeps { Keeps P.view P.since 1 self.old self.new }
    {
        let old = sent_number(self.term.out);
        self.log.entries.push(Entry::of(Kept::Sent, 0, old));
        self.term.out = Some(byte);
    }

    /// [`Port::check`].
    #[inline(always)]
    pub fn check(&self, addr: u32, len: u32, mode: u8, access: Access) -> Result<(), Violation>
        requires short { len ≤ 65536 }
        requires of_mode { mode ≤ 3 }
        ensures { err_of result
            ≡ violation (present P.view self.now).view.areas addr len mode access }
    {
        self.port.check(addr, len, mode, access)
    }

    /// [`Port::read`].
    #[inline(always)]
    pub fn read(&mut self, addr: u32, n: u32, mode: u8) -> Result<u64, Stop>
        requires some { 1 ≤ n }
        requires few { n ≤ 8 }
        requires of_mode { mode ≤ 3 }
        ensures answer { result ≡ loaded (present P.view self.old).view addr n mode }
        ensures fits { IfOk result (λ v. v < 256 ^ n) }
        ensures present { present P.view self.new ≡ present P.view self.old }
        ensures trail { P.trail self.new.port.now ≡ after_reading
            (present P.view self.old).view (P.trail self.old.port.now) addr n mode }
        ensures keeps { Keeps P.view P.since 0 self.old self.new }
    {
        self.port.read(addr, n, mode)
    }

    /// [`Port::write`], with the old bytes logged.
    #[inline(always)]
    pub fn write(&mut self, addr: u32, n: u32, value: u64, mode: u8) -> Result<(), Stop>
        requires some { 1 ≤ n }
        requires few { n ≤ 8 }
        requires of_mode { mode ≤ 3 }
        requires fits { value < 256 ^ n }
        requires room { 1 ≤ room self.old }
        ensures answer { err_of result
            ≡ stop (present P.view self.old).view addr n mode Access.Write }
        ensures present { present P.view self.new
            ≡ with_view (present P.view self.old)
            (stored (present P.view self.old).view addr n value mode) }
        ensures trail { P.trail self.new.port.now ≡ after_writing
            (present P.view self.old).view (P.trail self.old.port.now) addr n value mode }
        ensures keeps { Keeps P.view P.since 1 self.old self.new }
    {
        match self.port.write(addr, n, value, mode) {
            Ok(old) => {
                self.log.entries.push(Entry {
                    old,
                    addr,
                    number: n as u8,
                    mode,
                    kept: Kept::Bytes,
                    spare: 0,
                });
                Ok(())
            }
            Err(stop) => Err(stop),
        }
    }

    /// [`Port::read_run`].
    #[inline]
    pub fn read_run(&mut self, addr: u32, into: &mut [u8], mode: u8) -> Result<(), Stop>
        requires some { 1 ≤ length into.old }
        requires one_page { addr % 512 + length into.old ≤ 512 }
        requires of_mode { mode ≤ 3 }
        ensures answer { err_of result
            ≡ stop (present P.view self.old).view addr (length into.old) mode Access.Read }
        ensures bytes { OnOk result
            (into.new ≡ bytes_from (present P.view self.old).view.byte addr (length into.old)) }
        ensures unread { OnErr result (into.new ≡ into.old) }
        ensures present { present P.view self.new ≡ present P.view self.old }
        ensures trail { P.trail self.new.port.now ≡ after_reading (present P.view self.old).view
            (P.trail self.old.port.now) addr (length into.old) mode }
        ensures keeps { Keeps P.view P.since 0 self.old self.new }
    {
        self.port.read_run(addr, into, mode)
    }

    /// [`Port::write_run`], which isn't logged: it is the transaction's last use of the port, and once it succeeded the transaction
    /// isn't unwound.
    #[inline]
    pub fn write_run(&mut self, addr: u32, from: &[u8], mode: u8) -> Result<(), Stop>
        requires some { 1 ≤ length from.now }
        requires one_page { addr % 512 + length from.now ≤ 512 }
        requires of_mode { mode ≤ 3 }
        ensures answer { err_of result
            ≡ stop (present P.view self.old).view addr (length from.now) mode Access.Write }
        ensures present { present P.view self.new
            ≡ with_view (present P.view self.old)
            (stored_run (present P.view self.old).view addr from.now mode) }
        ensures trail { P.trail self.new.port.now ≡ after_writing_run
            (present P.view self.old).view (P.trail self.old.port.now) addr from.now mode }
        ensures keeps { OnErr result (Keeps P.view P.since 0 self.old self.new) }
        ensures left { IsLeftOpen P.view P.since 0 self.old self.new }
        ensures completed { IsLeft P.since 0 self.old self.new }
        ensures room { room self.new ≡ room self.old }
    {
        self.port.write_run(addr, from, mode)
    }

    /// Keeps all that was done so far, hands out the byte that was sent to the console, and begins anew with the same log, of which
    /// nothing is cleared.
    #[inline(always)]
    pub fn renew(&mut self) -> Option<u8>
        ensures sent { result ≡ (present P.view self.old).state.sent }
        ensures present { Updates P.view P.trail (λ s. with_sent s None) self.old self.new }
        ensures undone { undone P.view self.new ≡ bare (present P.view self.new) }
        ensures room { room self.new ≡ 96 }
        ensures ready { IsReady P.view self.new }
        ensures closed { first_part_done self.new.core.now.psl
            ≤ first_part_done self.old.core.now.psl }
        ensures same { IsSame P.since self.old self.new }
    {
        self.log.forget();
        self.origin = origin_of(self.core);
        let sent = self.term.out;
        self.term.out = None;
        sent
    }

    /// Keeps all, and hands out the byte that was sent to the console.
    #[inline]
    pub fn commit(self) -> Option<u8>
        ensures core { self.exit.0.now ≡ self.entry.core.now }
        ensures input { self.exit.1.0.now.input ≡ self.entry.term.now.input }
        ensures place { self.exit.1.0.now.place ≡ self.entry.term.now.place }
        ensures unsent { self.exit.1.0.now.out ≡ None }
        ensures port { self.exit.1.1.0.now ≡ self.entry.port.now }
        ensures sent { result ≡ self.entry.term.now.out }
    {
        let Txn {
            core: _,
            term,
            port: _,
            log: _,
            origin: _,
            why: _,
        } = self;
        let sent = term.out;
        term.out = None;
        sent
    }

    /// Keeps all, and tells the registers as they were when the transaction began: a part of an instruction was completed.
    #[cold]
    pub fn commit_part(self) -> Core
        requires { IsReady P.view self }
        ensures core { self.exit.0.now ≡ self.entry.core.now }
        ensures term { self.exit.1.0.now ≡ record self.entry.term.now { out = None } }
        ensures port { self.exit.1.1.0.now ≡ self.entry.port.now }
        ensures start { result ≡ (undone P.view self.entry).state.core }
    {
        let Txn {
            core,
            term,
            port: _,
            log,
            origin,
            why: _,
        } = self;
        let mut start = *core;
        while let Some(last) = log.entries.pop() {
            restore(last, &mut start);
        }
        start.regs[15] = origin.pc;
        start.psl = origin.psl;
        start.clock = origin.clock;
        term.out = None;
        start
    }

    /// Puts everything back as it was when the transaction began. Pages that were written to stay marked.
    pub fn unwind(self)
        requires { IsReady P.view self }
        ensures state { state_of self.exit.0.now self.exit.1.0.now
            ≡ (undone P.view self.entry).state }
        ensures view { unmarked (P.view self.exit.1.1.0.now) ≡ (undone P.view self.entry).view }
        ensures marks { (P.view self.exit.1.1.0.now).marked ≡ (P.view self.entry.port.now).marked }
        ensures trail { P.trail self.exit.1.1.0.now
            ≡ trail_undone self.entry.log.now.entries.items (P.trail self.entry.port.now) }
        ensures input { self.exit.1.0.now.input ≡ self.entry.term.now.input }
        ensures since { (start : P) → P.since start self.entry.port.now
            → P.since start self.exit.1.1.0.now }
    {
        let Txn {
            core,
            term,
            port,
            log,
            origin,
            why: _,
        } = self;
        while let Some(entry) = log.entries.pop() {
            put_back(entry, core, term, port);
        }
        core.regs[15] = origin.pc;
        core.psl = origin.psl;
        core.clock = origin.clock;
    }
}
