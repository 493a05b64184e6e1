//! Single accesses, in the current access mode.
ghost use Rattle.std.specs.Prelude.{◌≡◌, ◌^◌, ◌<◌, ◌≤◌, None, IfSome};
ghost use Rattle.vax_flat.specs.Operand.{check_at, read_at, write_at};
ghost use Rattle.vax_quick.specs.Made.{Acts, GoesOn, IsSeen, computer};
ghost use Rattle.vax_quick.specs.Frames.{IsWritten, MayWrite};
ghost use Rattle.vax_quick.specs.declared.window.Window.{Window};

use vax_space::Access;
use vax_undo::Port;
use vax_word::Core;

/// The number that `n` bytes are.
#[inline(always)]
#[tactic(auto, using(crate::proofs::Windows::read_there, crate::proofs::Windows::seen_still, crate::proofs::Windows::loaded_fits))]
pub(crate) fn read<P: Port>(core: &Core, port: &mut P, addr: u32, n: u32) -> Option<u64>
    requires some { 1 ≤ n }
    requires few { n ≤ 8 }
    ensures exact { IfSome result (λ x. GoesOn (read_at addr n) x
        (computer P.view core.now port.old) (computer P.view core.now port.new)) }
    ensures fits { IfSome result (λ x. x < 256 ^ n) }
    ensures window { (w : Window) → IsSeen (P.view port.old) core.now w
        → IsSeen (P.view port.new) core.now w }
    ensures same { P.view port.new ≡ P.view port.old }
    ensures since { (start : P) → P.since start port.old → P.since start port.new }
{
    let mode = core.psl.mode();
    match port.read(addr, n, mode) {
        Ok(value) => Some(value),
        Err(_) => None,
    }
}

/// Writes the `n` bytes of a number.
#[inline(always)]
#[tactic(auto, using(crate::proofs::Windows::write_there, crate::proofs::Windows::write_failed, crate::proofs::Frames::written, crate::proofs::Frames::refused))]
pub(crate) fn write<P: Port>(core: &Core, port: &mut P, addr: u32, n: u32, value: u64) -> Option<()>
    requires some { 1 ≤ n }
    requires few { n ≤ 8 }
    requires fits { value < 256 ^ n }
    ensures exact { Acts (write_at addr n value) result (computer P.view core.now port.old)
        (computer P.view core.now port.new) }
    ensures written { IfSome result
        (λ done. IsWritten (P.view port.old) core.now addr n value (P.view port.new)) }
    ensures refused { result ≡ None → MayWrite (P.view port.old) core.now addr n → ⊥ }
    ensures since { (start : P) → P.since start port.old → P.since start port.new }
{
    let mode = core.psl.mode();
    match port.write(addr, n, value, mode) {
        Ok(_) => Some(()),
        Err(_) => None,
    }
}

/// Checks that `n` bytes may be written, resident or not.
#[inline(always)]
#[tactic(auto, using(crate::proofs::Windows::check_there))]
pub(crate) fn check<P: Port>(core: &Core, port: &P, addr: u32, n: u32) -> Option<()>
    requires short { n ≤ 8 }
    ensures exact { Acts (check_at addr n Access.Write) result
        (computer P.view core.now port.now) (computer P.view core.now port.now) }
{
    let mode = core.psl.mode();
    match port.check(addr, n, mode, Access::Write) {
        Ok(()) => Some(()),
        Err(_) => None,
    }
}
