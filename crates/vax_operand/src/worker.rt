//! Who carries out an instruction.
ghost use Rattle.std.specs.Prelude.{◌≡◌, ◌+◌, ◌^◌, ◌<◌, ◌≤◌, ℕ, Ok, IfOk, OnErr, OnOk, false};
ghost use Rattle.vax_word.specs.Arithmetic.{bytes_of};
ghost use Rattle.vax_word.specs.Status.{codes_of};
ghost use Rattle.vax_isa.specs.Actions.{size_of};
ghost use Rattle.vax_flat.specs.declared.Flow.{Flow};
ghost use Rattle.vax_flat.specs.declared.Flow.TheVariants as flow;
ghost use Rattle.vax_flat.specs.State.{State, register, with_conditions, with_register};
ghost use Rattle.vax_flat.specs.Accesses.{Accesses, Leaf};
ghost use Rattle.vax_flat.specs.Control.{looped};
ghost use Rattle.vax_flat.specs.Operand.{IsPlace, read_at};
ghost use Rattle.vax_flat.specs.Rows.{read_value, modify_value, write_place, address_value, branch_target, stored, settled, answered, pushed};
ghost use Rattle.vax_undo.specs.Trail.{Landing};
ghost use Rattle.vax_undo.specs.Transaction.{room};
ghost use Rattle.vax_operand.specs.Logged.{always, any, reading_in, state_in, stops_in, Undoes};
ghost use Rattle.vax_operand.specs.Working.{Acts, Becomes, GoesOn, Moves, Performs, Reads};

use crate::access::{next_address, next_modified, next_place, next_target, next_value, store};
use crate::memory::read;
use crate::results::{answer, go_on, push, set_codes, settle};
use vax_flat::{Flow, Operand};
use vax_isa::Narrow;
use vax_undo::{CutShort, Port, Txn};
use vax_word::{Codes, Size};

/// Whoever carries out an instruction: a transaction with a log, or the registers themselves.
///
/// Each call does what a tree of accesses in `vax_flat` does, from the registers as they are. A call that is cut short leaves the instruction
/// undone: by a transaction, since an access can't be made, and by the registers themselves, since they leave it to a transaction.
pub trait Worker {
    /// What an instruction sees that the worker doesn't hold.
    ghost Rest: { Type 0 };

    /// What a tree of accesses comes to.
    ghost Out: { Type 0 };

    /// Registers and console, as an instruction sees them.
    ghost state: { Self → Rest → State };

    /// What a tree comes to over the memory as it is.
    ghost reading: { Self → Accesses Leaf → Out };

    /// A tree is cut short, as the worker was.
    ghost stops: { Self → Out → Type 0 };

    /// What was read of the instruction is what the memory has.
    ghost holds: { Self → Type 0 };

    /// What the worker saw of the instruction are the bytes at PC.
    ghost sound: { Self → Type 0 };

    /// How many more changes the worker can note.
    ghost room: { Self → ℕ };

    /// What a worker at the start and now have in common.
    ghost kept: { Self → Self → Type 0 };

    /// What was there at the start is there now, where the instruction is left to another.
    ghost stays: { Self → Self → Type 0 };

    /// What may follow an instruction that was completed.
    ghost follows: { Flow → Type 0 };

    /// Reads one operand at PC and its value.
    fn value(&mut self, size: Size) -> Result<u64, CutShort>
        requires sound { sound self.old }
        requires room { 4 ≤ room self.old }
        ensures exact { Performs state reading stops holds (read_value (bytes_of size))
            result self.old self.new }
        ensures fits { IfOk result (λ x. x < 256 ^ bytes_of size) }
        ensures sound { IfOk result (λ x. sound self.new) }
        ensures reads { Reads holds room kept stays 4 self.old self.new };

    /// Reads one operand at PC that is modified: where it is, checked for writing, and the value there.
    fn modified(&mut self, size: Size) -> Result<(Operand, u64), CutShort>
        requires sound { sound self.old }
        requires room { 4 ≤ room self.old }
        ensures exact { Performs state reading stops holds (modify_value (bytes_of size))
            result self.old self.new }
        ensures place { IfOk result (λ m. IsPlace (bytes_of size) m.0) }
        ensures fits { IfOk result (λ m. m.1 < 256 ^ bytes_of size) }
        ensures sound { IfOk result (λ m. sound self.new) }
        ensures reads { Reads holds room kept stays 4 self.old self.new };

    /// Reads one operand at PC that is written: where it is.
    fn place(&mut self, size: Size) -> Result<Operand, CutShort>
        requires sound { sound self.old }
        requires room { 4 ≤ room self.old }
        ensures exact { Performs state reading stops holds (write_place (bytes_of size))
            result self.old self.new }
        ensures place { IfOk result (IsPlace (bytes_of size)) }
        ensures sound { IfOk result (λ o. sound self.new) }
        ensures reads { Reads holds room kept stays 4 self.old self.new };

    /// Reads one operand at PC of which the address is taken.
    fn address(&mut self, size: Size) -> Result<u32, CutShort>
        requires sound { sound self.old }
        requires room { 4 ≤ room self.old }
        ensures exact { Performs state reading stops holds (address_value (bytes_of size))
            result self.old self.new }
        ensures sound { IfOk result (λ addr. sound self.new) }
        ensures reads { Reads holds room kept stays 4 self.old self.new };

    /// Reads the displacement at PC that a branch has: where the branch goes.
    fn target(&mut self, size: Narrow) -> Result<u32, CutShort>
        requires sound { sound self.old }
        requires room { 4 ≤ room self.old }
        ensures exact { Performs state reading stops holds (branch_target (bytes_of (size_of size)))
            result self.old self.new }
        ensures reads { Reads holds room kept stays 4 self.old self.new };

    /// The number that `n` bytes of memory are.
    fn read(&mut self, addr: u32, n: u32) -> Result<u64, CutShort>
        requires some { 1 ≤ n }
        requires few { n ≤ 8 }
        ensures exact { Performs state reading stops holds (read_at addr n)
            result self.old self.new }
        ensures fits { IfOk result (λ x. x < 256 ^ n) }
        ensures same { (rest : Rest) → state self.new rest ≡ state self.old rest }
        ensures reads { Reads holds room kept stays 0 self.old self.new };

    /// A register.
    fn register(&self, n: u8) -> u32
        requires of_core { n < 16 }
        ensures { (rest : Rest) → result ≡ register (state self.now rest) n };

    /// The condition codes.
    fn codes(&self) -> Codes
        ensures { (rest : Rest) → result ≡ codes_of (state self.now rest).core.psl };

    /// No more is read of the instruction, and what was read is what the memory has.
    fn whole(&mut self) -> Result<(), CutShort>
        ensures same { OnOk result (Becomes state reading (λ s. s) self.old self.new) }
        ensures stopped { OnErr result (holds self.new → (tree : Accesses Leaf)
            → stops self.new (reading self.old tree)) }
        ensures holds { OnOk result (holds self.new) }
        ensures reads { Reads holds room kept stays 0 self.old self.new };

    /// Sets a register but PC.
    fn set_register(&mut self, n: u8, value: u32)
        requires below { n < 15 }
        requires holds { holds self.old }
        requires room { 1 ≤ room self.old }
        ensures exact { Becomes state reading (λ s. with_register s n value) self.old self.new }
        ensures holds { holds self.new }
        ensures moves { Moves holds room kept 1 self.old self.new };

    /// Lets control go on at an address.
    fn jump(&mut self, target: u32)
        requires holds { holds self.old }
        requires room { 1 ≤ room self.old }
        ensures exact { Becomes state reading (λ s. with_register s 15 target)
            self.old self.new }
        ensures holds { holds self.new }
        ensures moves { Moves holds room kept 1 self.old self.new };

    /// Writes a value to an operand, with another result to come.
    fn store(&mut self, size: Size, place: Operand, value: u64) -> Result<(), CutShort>
        requires place { IsPlace (bytes_of size) place }
        requires fits { value < 256 ^ bytes_of size }
        requires room { 2 ≤ room self.old }
        ensures exact { Acts state reading stops holds (stored (bytes_of size) place value)
            result self.old self.new }
        ensures reads { Reads holds room kept stays 2 self.old self.new };

    /// Pushes a longword onto the stack in use, with nothing to come that can be cut short.
    fn push(&mut self, value: u32) -> Result<(), CutShort>
        requires room { 2 ≤ room self.old }
        ensures exact { Acts state reading stops holds (pushed value) result self.old self.new }
        ensures holds { OnOk result (holds self.new) }
        ensures moves { Moves holds room kept 2 self.old self.new }
        ensures stays { OnErr result ((start : Self) → stays start self.old
            → stays start self.new) };

    /// Writes a result to its place, and sets its codes. A trap may follow.
    fn answered(
        &mut self,
        size: Size,
        place: Operand,
        by_zero: bool,
        result_and_codes: (u64, Codes),
    ) -> Result<Flow, CutShort>
        requires place { IsPlace (bytes_of size) place }
        requires fits { result_and_codes.0 < 256 ^ bytes_of size }
        requires room { 3 ≤ room self.old }
        ensures exact { Performs state reading stops holds
            (answered (bytes_of size) place by_zero result_and_codes) result self.old self.new }
        ensures holds { OnOk result (holds self.new) }
        ensures moves { Moves holds room kept 3 self.old self.new }
        ensures stays { OnErr result ((start : Self) → stays start self.old
            → stays start self.new) }
        ensures follows { IfOk result follows };

    /// Sets the condition codes of an instruction that writes nothing else. A trap may follow.
    fn settled(&mut self, by_zero: bool, codes: Codes) -> Result<Flow, CutShort>
        requires room { 1 ≤ room self.old }
        ensures exact { Performs state reading stops holds (settled by_zero codes)
            result self.old self.new }
        ensures holds { OnOk result (holds self.new) }
        ensures moves { Moves holds room kept 1 self.old self.new }
        ensures stays { OnErr result ((start : Self) → stays start self.old
            → stays start self.new) }
        ensures follows { IfOk result follows };

    /// Sets the condition codes of an instruction after which this follows.
    fn end(&mut self, codes: Codes, flow: Flow) -> Result<Flow, CutShort>
        requires room { 1 ≤ room self.old }
        ensures exact { Performs state reading stops holds
            (λ s next. next flow (with_conditions s codes)) result self.old self.new }
        ensures holds { OnOk result (holds self.new) }
        ensures moves { Moves holds room kept 1 self.old self.new }
        ensures stays { OnErr result ((start : Self) → stays start self.old
            → stays start self.new) }
        ensures follows { IfOk result follows };

    /// Writes a loop's index, sets its codes but C, and lets control go on at the target or after the instruction. A trap may follow.
    fn looped(
        &mut self,
        size: Size,
        place: Operand,
        index: (u64, Codes),
        taken: bool,
        target: u32,
    ) -> Result<Flow, CutShort>
        requires place { IsPlace (bytes_of size) place }
        requires fits { index.0 < 256 ^ bytes_of size }
        requires room { 4 ≤ room self.old }
        ensures exact { Performs state reading stops holds (looped size place index taken target)
            result self.old self.new }
        ensures holds { OnOk result (holds self.new) }
        ensures moves { Moves holds room kept 4 self.old self.new }
        ensures stays { OnErr result ((start : Self) → stays start self.old
            → stays start self.new) }
        ensures follows { IfOk result follows };

    /// Sets the condition codes of an instruction that can't be cut short any more. No trap follows.
    fn complete(&mut self, codes: Codes) -> Flow
        requires holds { holds self.old }
        requires quiet { codes.v ≡ false }
        requires room { 1 ≤ room self.old }
        ensures exact { GoesOn state reading (settled false codes) result self.old self.new }
        ensures holds { holds self.new }
        ensures moves { Moves holds room kept 1 self.old self.new }
        ensures follows { follows result };

    /// Completes an instruction that sets no condition codes.
    fn finish(&mut self) -> Flow
        requires holds { holds self.old }
        ensures done { result ≡ flow.Done }
        ensures exact { Becomes state reading (λ s. s) self.old self.new }
        ensures holds { holds self.new }
        ensures moves { Moves holds room kept 0 self.old self.new }
        ensures follows { follows result };
}

impl<'a, P: Port> Worker for Txn<'a, P> {
    ghost Rest = { Unit {0} };

    ghost Out = { Landing Leaf };

    ghost state = { state_in P.view };

    ghost reading = { reading_in P.view P.trail };

    ghost stops = { stops_in P.view P.trail };

    ghost holds = { always };

    ghost sound = { always };

    ghost room = { room };

    ghost kept = { Undoes P.view P.since };

    ghost stays = { any };

    ghost follows = { λ flow. Unit {0} };

    #[inline(always)]
    #[tactic(auto, using(crate::proofs::Working::performed, crate::proofs::Working::reads))]
    fn value(&mut self, size: Size) -> Result<u64, CutShort> {
        next_value(self, size)
    }

    #[inline(always)]
    #[tactic(auto, using(crate::proofs::Working::performed, crate::proofs::Working::reads))]
    fn modified(&mut self, size: Size) -> Result<(Operand, u64), CutShort> {
        next_modified(self, size)
    }

    #[inline(always)]
    #[tactic(auto, using(crate::proofs::Working::performed, crate::proofs::Working::reads))]
    fn place(&mut self, size: Size) -> Result<Operand, CutShort> {
        next_place(self, size)
    }

    #[inline(always)]
    #[tactic(auto, using(crate::proofs::Working::performed, crate::proofs::Working::reads))]
    fn address(&mut self, size: Size) -> Result<u32, CutShort> {
        next_address(self, size)
    }

    #[inline(always)]
    #[tactic(auto, using(crate::proofs::Working::performed, crate::proofs::Working::reads))]
    fn target(&mut self, size: Narrow) -> Result<u32, CutShort> {
        next_target(self, size)
    }

    #[inline(always)]
    #[tactic(auto, using(crate::proofs::Working::performed, crate::proofs::Working::reads))]
    fn read(&mut self, addr: u32, n: u32) -> Result<u64, CutShort> {
        read(self, addr, n)
    }

    #[inline(always)]
    fn register(&self, n: u8) -> u32 {
        self.reg(n)
    }

    #[inline(always)]
    fn codes(&self) -> Codes {
        self.psl().codes()
    }

    #[inline(always)]
    fn whole(&mut self) -> Result<(), CutShort> {
        Ok(())
    }

    #[inline(always)]
    #[tactic(auto, using(crate::proofs::Working::moves))]
    fn set_register(&mut self, n: u8, value: u32) {
        self.set_reg(n, value);
    }

    #[inline(always)]
    #[tactic(auto, using(crate::proofs::Working::moves))]
    fn jump(&mut self, target: u32) {
        self.set_reg(15, target);
    }

    #[inline(always)]
    #[tactic(auto, using(crate::proofs::Working::acted, crate::proofs::Working::reads))]
    fn store(&mut self, size: Size, place: Operand, value: u64) -> Result<(), CutShort> {
        store(self, size, place, value)
    }

    #[inline(always)]
    #[tactic(auto, using(crate::proofs::Working::acted, crate::proofs::Working::moves))]
    fn push(&mut self, value: u32) -> Result<(), CutShort> {
        push(self, value)
    }

    #[inline(always)]
    #[tactic(auto, using(crate::proofs::Working::performed, crate::proofs::Working::moves))]
    fn answered(
        &mut self,
        size: Size,
        place: Operand,
        by_zero: bool,
        result_and_codes: (u64, Codes),
    ) -> Result<Flow, CutShort> {
        answer(self, size, place, by_zero, result_and_codes)
    }

    #[inline(always)]
    #[tactic(auto, using(crate::proofs::Working::performed, crate::proofs::Working::moves))]
    fn settled(&mut self, by_zero: bool, codes: Codes) -> Result<Flow, CutShort> {
        settle(self, by_zero, codes)
    }

    #[inline(always)]
    #[tactic(auto, using(crate::proofs::Working::moves))]
    fn end(&mut self, codes: Codes, flow: Flow) -> Result<Flow, CutShort> {
        set_codes(self, codes);
        Ok(flow)
    }

    #[inline(always)]
    #[tactic(auto, using(crate::proofs::Working::performed, crate::proofs::Working::moves))]
    fn looped(
        &mut self,
        size: Size,
        place: Operand,
        index: (u64, Codes),
        taken: bool,
        target: u32,
    ) -> Result<Flow, CutShort> {
        go_on(self, size, place, index, taken, target)
    }

    #[inline(always)]
    #[tactic(auto, using(crate::proofs::Working::moves), unfolding(vax_flat::specs::Rows::settled, vax_flat::specs::Rows::flow_of))]
    fn complete(&mut self, codes: Codes) -> Flow {
        set_codes(self, codes);
        Flow::Done
    }

    #[inline(always)]
    fn finish(&mut self) -> Flow {
        Flow::Done
    }
}
