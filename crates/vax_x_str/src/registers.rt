//! R0 to R5, PC and the processor status between the parts of an instruction.
ghost use Rattle.std.specs.Prelude.{◌≡◌, ◌+◌, ◌-◌, ◌<◌, ◌≤◌};
ghost use Rattle.vax_flat.specs.declared.Flow.TheVariants as flow;
ghost use Rattle.vax_flat.specs.State.{register, with_conditions, with_psl};
ghost use Rattle.vax_flat.specs.StringOperands.{begun};
ghost use Rattle.vax_flat.specs.String.{completed, continued, leaves, left, low_registers, no_part_done, suspended, with_low};
ghost use Rattle.vax_strpart.specs.Packing.{unpacked};
ghost use Rattle.vax_undo.specs.FirstPart.{NothingOpen};
ghost use Rattle.vax_undo.specs.Transaction.{present, room, IsLeftOpen, Keeps, KeepsUnlessDone, Does, Updates};

use vax_flat::Flow;
use vax_operand::set_codes;
use vax_strpart::{Progress, pack, unpack};
use vax_undo::{CutShort, Port, Txn};
use vax_word::{Codes, Psl};

/// R0 to R5.
#[tactic(auto, unfolding(vax_flat::specs::String::low_registers))]
pub(crate) fn low_registers<P: Port>(txn: &Txn<P>) -> [u32; 6]
    ensures { result ≡ low_registers (present P.view txn.now).state }
{
    [
        txn.reg(0),
        txn.reg(1),
        txn.reg(2),
        txn.reg(3),
        txn.reg(4),
        txn.reg(5),
    ]
}

/// Sets R0 to R5.
#[tactic(auto, unfolding(vax_flat::specs::String::with_low))]
fn set_low<P: Port>(txn: &mut Txn<P>, values: &[u32; 6])
    requires { 6 ≤ room txn.old }
    ensures exact { Updates P.view P.trail (with_low values.now) txn.old txn.new }
    ensures keeps { Keeps P.view P.since 6 txn.old txn.new }
{
    txn.set_reg(0, values[0]);
    txn.set_reg(1, values[1]);
    txn.set_reg(2, values[2]);
    txn.set_reg(3, values[3]);
    txn.set_reg(4, values[4]);
    txn.set_reg(5, values[5]);
}

/// Puts PC back at the instruction, and says that its first part is done.
#[tactic(auto, using(vax_undo::proofs::Left::open_through), unfolding(vax_flat::specs::String::left))]
fn leave<P: Port>(txn: &mut Txn<P>, delta: u8)
    requires { 2 ≤ room txn.old }
    ensures exact { Updates P.view P.trail (left delta) txn.old txn.new }
    ensures left { IsLeftOpen P.view P.since 2 txn.old txn.new }
{
    let pc = txn.reg(15).wrapping_sub(u32::from(delta));
    let Psl(bits) = txn.psl();
    txn.set_reg(15, pc);
    txn.leave_open(Psl(bits / 0x1000_0000 * 0x1000_0000 + 0x800_0000 + bits % 0x800_0000));
}

/// Says that no part is done.
#[tactic(auto, unfolding(vax_undo::specs::FirstPart::first_part_done))]
pub(crate) fn clear_part_done<P: Port>(txn: &mut Txn<P>)
    requires { 1 ≤ room txn.old }
    ensures exact { Updates P.view P.trail (λ s. with_psl s (no_part_done s.core.psl))
        txn.old txn.new }
    ensures closed { NothingOpen txn.new.core.now.psl }
    ensures keeps { Keeps P.view P.since 1 txn.old txn.new }
{
    let Psl(bits) = txn.psl();
    txn.set_psl(Psl(bits / 0x1000_0000 * 0x1000_0000 + bits % 0x800_0000));
}

/// What a string instruction begins from, behind its operands: no part is done. Answers PC, which is past the operands.
pub(crate) fn begin_anew<P: Port>(txn: &mut Txn<P>) -> u32
    requires { 1 ≤ room txn.old }
    ensures pc { result ≡ register (present P.view txn.old).state 15 }
    ensures exact { Updates P.view P.trail begun txn.old txn.new }
    ensures keeps { Keeps P.view P.since 1 txn.old txn.new }
{
    let pc = txn.registers()[15];
    clear_part_done(txn);
    pc
}

/// Puts PC past the instruction, and says that no part is done.
#[tactic(auto, unfolding(vax_flat::specs::String::continued))]
fn go_on<P: Port>(txn: &mut Txn<P>, delta: u8)
    requires { 2 ≤ room txn.old }
    ensures exact { Updates P.view P.trail (continued delta) txn.old txn.new }
    ensures closed { NothingOpen txn.new.core.now.psl }
    ensures keeps { Keeps P.view P.since 2 txn.old txn.new }
{
    let pc = txn.reg(15).wrapping_add(u32::from(delta));
    txn.set_reg(15, pc);
    clear_part_done(txn);
}

/// Leaves an instruction of which this remains, for a later part.
#[tactic(auto, using(vax_undo::proofs::Left::open_through), unfolding(vax_flat::specs::String::suspended))]
pub(crate) fn suspend<P: Port>(txn: &mut Txn<P>, rest: &Progress)
    requires { 8 ≤ room txn.old }
    ensures exact { Updates P.view P.trail (suspended rest.now) txn.old txn.new }
    ensures left { IsLeftOpen P.view P.since 8 txn.old txn.new }
{
    let old = low_registers(txn);
    set_low(txn, &pack(rest, &old));
    leave(txn, rest.delta);
}

/// Leaves an instruction of which so many units were made, and this remains.
#[tactic(auto, unfolding(vax_flat::specs::String::leaves))]
pub(crate) fn leave_rest<P: Port>(
    txn: &mut Txn<P>,
    rest: &Progress,
    units: u32,
) -> Result<Flow, CutShort>
    requires { 8 ≤ room txn.old }
    ensures exact { Does P.view P.trail (leaves rest.now units) result txn.old txn.new }
    ensures keeps { KeepsUnlessDone P.view P.since 8 result txn.old txn.new }
{
    suspend(txn, rest);
    Ok(Flow::More {
        opcode: rest.op,
        units,
    })
}

/// Sets R0 to R5 and the codes of an instruction that is completed.
pub(crate) fn set_completed<P: Port>(txn: &mut Txn<P>, values: &[u32; 6], codes: Codes)
    requires { 7 ≤ room txn.old }
    ensures exact { Updates P.view P.trail (λ s. with_low values.now (with_conditions s codes))
        txn.old txn.new }
    ensures keeps { Keeps P.view P.since 7 txn.old txn.new }
{
    set_codes(txn, codes);
    set_low(txn, values);
}

/// Completes an instruction, with R0 to R5 and the codes.
#[tactic(auto, unfolding(vax_flat::specs::String::completed))]
pub(crate) fn complete<P: Port>(
    txn: &mut Txn<P>,
    values: &[u32; 6],
    codes: Codes,
) -> Result<Flow, CutShort>
    requires { 7 ≤ room txn.old }
    ensures exact { Does P.view P.trail (completed values.now codes) result txn.old txn.new }
    ensures keeps { Keeps P.view P.since 7 txn.old txn.new }
{
    set_completed(txn, values, codes);
    Ok(Flow::Done)
}

/// What remains of an instruction by the registers, and goes on with it.
pub(crate) fn continue_from<P: Port>(txn: &mut Txn<P>, opcode: u8) -> Progress
    requires { 2 ≤ room txn.old }
    ensures progress { result ≡ unpacked opcode (low_registers (present P.view txn.old).state) }
    ensures exact { Updates P.view P.trail (continued result.delta) txn.old txn.new }
    ensures closed { NothingOpen txn.new.core.now.psl }
    ensures keeps { Keeps P.view P.since 2 txn.old txn.new }
{
    let rest = unpack(opcode, &low_registers(txn));
    go_on(txn, rest.delta);
    rest
}
