//! Results written and pushed, with their codes. Where a trap would follow, nothing is done.
ghost use Rattle.std.specs.Prelude.{◌≡◌, ◌^◌, ◌<◌, ◌≤◌, true};
ghost use Rattle.vax_word.specs.Arithmetic.{bytes_of};
ghost use Rattle.vax_flat.specs.declared.Flow.TheVariants as flow;
ghost use Rattle.vax_flat.specs.Operand.{IsPlace};
ghost use Rattle.vax_flat.specs.Rows.{answered, pushed, settled};
ghost use Rattle.vax_undo.specs.FirstPart.{first_part_done};
ghost use Rattle.vax_quick.specs.Made.{Acts, GoesOn, IsKept, IsQuiet, Leaves, Makes, MakesOrStays, Tree, computer};

use crate::access::store;
use crate::memory::write;
use vax_operand::Operand;
use vax_undo::Port;
use vax_word::{Codes, Core, Psl, Size};

/// Puts back the registers that were put aside, where an instruction wasn't made of them.
#[inline(always)]
#[tactic(auto, using(crate::proofs::Stays::put_back, crate::proofs::Stays::made_stays))]
pub(crate) fn unless_made<P: Port>(
    core: &mut Core,
    port: &P,
    aside: Core,
    made: Option<()>,
) -> Option<()>
    ensures exact { (tree : Tree) → (before : P) → Makes tree made
        (computer P.view aside before) (computer P.view core.old port.now)
        → MakesOrStays tree result
        (computer P.view aside before) (computer P.view core.new port.now) }
    ensures timer { core.old.iccs ≡ aside.iccs → core.new.iccs ≡ aside.iccs }
    ensures requests { core.old.sisr ≡ aside.sisr → core.new.sisr ≡ aside.sisr }
    ensures clock { core.old.clock ≡ aside.clock → core.new.clock ≡ aside.clock }
    ensures closed { first_part_done core.old.psl ≤ first_part_done aside.psl
        → first_part_done core.new.psl ≤ first_part_done aside.psl }
{
    let _ = port;
    match made {
        Some(()) => Some(()),
        None => {
            *core = aside;
            None
        }
    }
}

/// Whether no trap follows a result with these codes.
#[inline(always)]
pub(crate) fn is_quiet(psl: Psl, by_zero: bool, codes: Codes) -> bool
    ensures { result ≡ true → IsQuiet by_zero codes psl }
{
    let Psl(bits) = psl;
    !(by_zero || codes.v && bits >> 5 & 1 == 1)
}

/// Sets the condition codes, where no trap follows.
#[inline(always)]
#[tactic(auto, using(crate::proofs::Quiet::settled_quiet, vax_undo::proofs::FirstPart::codes_closed))]
pub(crate) fn set_codes<P: Port>(core: &mut Core, port: &P, by_zero: bool, codes: Codes)
    requires quiet { IsQuiet by_zero codes core.old.psl }
    ensures exact { GoesOn (settled by_zero codes) flow.Done
        (computer P.view core.old port.now) (computer P.view core.new port.now) }
    ensures leaves { Leaves P.since core.old port.now core.new port.now }
{
    let _ = port;
    let _ = by_zero;
    core.psl = core.psl.with_codes(codes);
}

/// Sets the condition codes of an instruction that writes nothing.
#[inline(always)]
pub(crate) fn settle<P: Port>(core: &mut Core, port: &P, by_zero: bool, codes: Codes) -> Option<()>
    ensures exact { Makes (settled by_zero codes) result
        (computer P.view core.old port.now) (computer P.view core.new port.now) }
    ensures leaves { Leaves P.since core.old port.now core.new port.now }
{
    if !is_quiet(core.psl, by_zero, codes) {
        return None;
    }
    set_codes(core, port, by_zero, codes);
    Some(())
}

/// Writes a result to its place, and sets its codes.
#[inline(always)]
#[tactic(auto, using(crate::proofs::Quiet::quiet_still), unfolding(vax_flat::specs::Rows::answered))]
pub(crate) fn answer<P: Port>(
    core: &mut Core,
    port: &mut P,
    size: Size,
    place: Operand,
    by_zero: bool,
    result_and_codes: (u64, Codes),
) -> Option<()>
    requires place { IsPlace (bytes_of size) place }
    requires fits { result_and_codes.0 < 256 ^ bytes_of size }
    ensures exact { Makes (answered (bytes_of size) place by_zero result_and_codes) result
        (computer P.view core.old port.old) (computer P.view core.new port.new) }
    ensures leaves { Leaves P.since core.old port.old core.new port.new }
{
    let (value, codes) = result_and_codes;
    if !is_quiet(core.psl, by_zero, codes) {
        return None;
    }
    store(core, port, size, place, value)?;
    set_codes(core, port, by_zero, codes);
    Some(())
}

/// Pushes a longword onto the stack in use.
#[inline(always)]
#[tactic(auto, unfolding(vax_flat::specs::Rows::pushed))]
pub(crate) fn push<P: Port>(core: &mut Core, port: &mut P, value: u32) -> Option<()>
    ensures exact { Acts (pushed value) result
        (computer P.view core.old port.old) (computer P.view core.new port.new) }
    ensures kept { IsKept core.old core.new }
    ensures since { (start : P) → P.since start port.old → P.since start port.new }
{
    let top = core.regs[14].wrapping_sub(4);
    write(core, port, top, 4, value as u64)?;
    core.regs[14] = top;
    Some(())
}
