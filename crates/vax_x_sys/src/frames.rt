//! What a delivery pushes.
ghost use Rattle.std.specs.Prelude.{◌≡◌, ◌∷◌, ◌≤◌};
ghost use Rattle.vax_flat.specs.Delivery.{parameters, pushed_all, pushed_if, pushed_in, reason};
ghost use Rattle.vax_undo.specs.Transaction.{room, Keeps, Acts, Does};
ghost use Rattle.vax_x_sys.specs.Frames.{listed};

use vax_flat::Exception;
use vax_operand::{is_allowed, write_in};
use vax_space::{Access, Violation};
use vax_undo::{CutShort, Port, Txn};
use vax_word::Psl;

/// What is pushed behind PSL and PC.
#[derive(Clone, Copy)]
pub(crate) enum Parameters {
    None,
    One(u32),
    Two(u32, u32),
}

/// The reason of an access violation: bit 0 for a length, bit 2 for a write.
#[inline]
fn reason(violation: Violation) -> u32
    ensures { result ≡ reason violation }
{
    violation.length as u32 + 4 * violation.write as u32
}

/// What an exception pushes.
#[inline]
#[tactic(auto, unfolding(vax_flat::specs::Delivery::parameters))]
pub(crate) fn parameters_of(exception: Exception) -> Parameters
    ensures { listed result ≡ parameters exception }
{
    match exception {
        Exception::Access(violation) => Parameters::Two(violation.addr, reason(violation)),
        Exception::Arithmetic(trap) => Parameters::One(trap.number()),
        Exception::Privileged => Parameters::None,
        Exception::Customer => Parameters::None,
        Exception::Operand => Parameters::None,
        Exception::Mode => Parameters::None,
        Exception::Breakpoint => Parameters::None,
    }
}

/// Pushes a longword in an access mode.
#[inline]
#[tactic(auto, unfolding(vax_flat::specs::Delivery::pushed_in))]
pub(crate) fn push_in<P: Port>(txn: &mut Txn<P>, mode: u8, value: u32) -> Result<(), CutShort>
    requires of_mode { mode ≤ 3 }
    requires room { 2 ≤ room txn.old }
    ensures exact { Acts P.view P.trail (pushed_in mode value) result txn.old txn.new }
    ensures keeps { Keeps P.view P.since 2 txn.old txn.new }
{
    let top = txn.reg(14).wrapping_sub(4);
    write_in(txn, top, 4, value as u64, mode)?;
    txn.set_reg(14, top);
    Ok(())
}

/// Pushes a longword in kernel mode, if that is allowed.
#[inline]
#[tactic(auto, unfolding(vax_flat::specs::Delivery::pushed_if))]
pub(crate) fn push_if<P: Port>(txn: &mut Txn<P>, value: u32) -> Result<bool, CutShort>
    requires { 2 ≤ room txn.old }
    ensures exact { Does P.view P.trail (pushed_if value) result txn.old txn.new }
    ensures keeps { Keeps P.view P.since 2 txn.old txn.new }
{
    let top = txn.reg(14).wrapping_sub(4);
    if !is_allowed(txn, top, 4, 0, Access::Write) {
        return Ok(false);
    }
    push_in(txn, 0, value)?;
    Ok(true)
}

/// Pushes what stands behind PSL and PC.
#[inline]
#[tactic(auto, unfolding(vax_flat::specs::Delivery::pushed_all))]
fn push_parameters<P: Port>(txn: &mut Txn<P>, parameters: Parameters) -> Result<bool, CutShort>
    requires { 4 ≤ room txn.old }
    ensures exact { Does P.view P.trail (pushed_all (listed parameters)) result txn.old txn.new }
    ensures keeps { Keeps P.view P.since 4 txn.old txn.new }
{
    match parameters {
        Parameters::None => Ok(true),
        Parameters::One(only) => {
            if !push_if(txn, only)? {
                return Ok(false);
            }
            Ok(true)
        }
        Parameters::Two(first, second) => {
            if !push_if(txn, first)? {
                return Ok(false);
            }
            if !push_if(txn, second)? {
                return Ok(false);
            }
            Ok(true)
        }
    }
}

/// Pushes a frame in kernel mode; false where that isn't allowed.
#[tactic(auto, unfolding(vax_flat::specs::Delivery::pushed_all))]
pub(crate) fn push_frame<P: Port>(
    txn: &mut Txn<P>,
    psl: Psl,
    pc: u32,
    parameters: Parameters,
) -> Result<bool, CutShort>
    requires { 8 ≤ room txn.old }
    ensures exact { Does P.view P.trail (pushed_all (psl.0 ∷ pc ∷ listed parameters))
        result txn.old txn.new }
    ensures keeps { Keeps P.view P.since 8 txn.old txn.new }
{
    if !push_if(txn, psl.0)? {
        return Ok(false);
    }
    if !push_if(txn, pc)? {
        return Ok(false);
    }
    push_parameters(txn, parameters)
}
