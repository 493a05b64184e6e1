//! Moves, arithmetic, logic and addresses, made at once.
ghost use Rattle.std.specs.Prelude.{◌≡◌, ◌^◌, ◌<◌, None};
ghost use Rattle.vax_flat.specs.Integer as integer;
ghost use Rattle.vax_flat.specs.Operand.{IsPlace};
ghost use Rattle.vax_flat.specs.Rows.{stored};
ghost use Rattle.vax_quick.specs.Made.{Acts, IsKept, IsSeen, Leaves, Makes, computer};

use crate::access::set_value;
use crate::fast::{Fast, done};
use crate::window::Window;
use vax_isa::Integer;
use vax_operand::Operand;
use vax_undo::Port;
use vax_word::Core;
use vax_x_int::shapes;

/// Writes a longword to a register, as an operand. One in memory is left out.
#[inline(always)]
#[tactic(auto, unfolding(vax_flat::specs::Rows::stored))]
pub(crate) fn store_in_register<P: Port>(
    core: &mut Core,
    port: &P,
    operand: Operand,
    value: u64,
) -> Option<()>
    requires place { IsPlace 4 operand }
    requires fits { value < 256 ^ 4 }
    ensures exact { Acts (stored 4 operand value) result
        (computer P.view core.old port.now) (computer P.view core.new port.now) }
    ensures kept { IsKept core.old core.new }
    ensures none { result ≡ None → core.new ≡ core.old }
{
    let _ = port;
    match operand {
        Operand::Register(n) => {
            set_value(core, 4, n, value);
            Some(())
        }
        Operand::Value(_) => None,
        Operand::Memory(_) => None,
        Operand::FieldRegister(_) => None,
        Operand::Target(_) => None,
    }
}

/// The instruction by its shape.
#[inline(never)]
pub(crate) fn perform<P: Port>(
    core: &mut Core,
    port: &mut P,
    window: Window,
    instruction: Integer,
) -> Option<()>
    requires window { IsSeen (P.view port.old) core.old window }
    ensures exact { Makes (integer.performed instruction) result
        (computer P.view core.old port.old) (computer P.view core.new port.new) }
    ensures leaves { Leaves P.since core.old port.old core.new port.new }
{
    let mut fast = Fast { core, port, window };
    done(shapes::perform(&mut fast, instruction))
}
