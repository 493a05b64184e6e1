//! The bytes of an instruction, seen at once.
ghost use Rattle.std.specs.Prelude.{◌≡◌, ◌-◌, ◌/◌, ◌%◌, ◌^◌, ◌<◌, ◌≤◌, IfSome, None};
ghost use Rattle.vax_flat.specs.Operand.{fetched};
ghost use Rattle.vax_flat.specs.Form.{IsDisplacement};
ghost use Rattle.vax_quick.specs.Made.{Gives, GoesOn, IsKept, IsMoved, IsSeen, Reads, computer};

use vax_undo::Port;
use vax_word::Core;

/// Bytes from PC on: how many, and the number that they are.
#[derive(Clone, Copy)]
pub(crate) struct Window {
    pub(crate) bytes: u64,
    pub(crate) left: u32,
}

/// Looks at the eight bytes from PC on.
#[inline(always)]
#[tactic(auto, using(crate::proofs::Windows::looked))]
pub(crate) fn look<P: Port>(core: &Core, port: &mut P) -> Option<Window>
    ensures window { IfSome result (λ w. IsSeen (P.view port.new) core.now w) }
    ensures eight { IfSome result (λ w. w.left ≡ 8) }
    ensures same { P.view port.new ≡ P.view port.old }
    ensures since { (start : P) → P.since start port.old → P.since start port.new }
{
    let pc = core.regs[15];
    let mode = core.psl.mode();
    match port.read(pc, 8, mode) {
        Ok(bytes) => Some(Window { bytes, left: 8 }),
        Err(_) => None,
    }
}

/// Looks again where too few bytes are left.
#[cold]
fn look_again<P: Port>(core: &Core, port: &mut P) -> Option<Window>
    ensures window { IfSome result (λ w. IsSeen (P.view port.new) core.now w) }
    ensures eight { IfSome result (λ w. w.left ≡ 8) }
    ensures same { P.view port.new ≡ P.view port.old }
    ensures since { (start : P) → P.since start port.old → P.since start port.new }
{
    look(core, port)
}

/// At least so many bytes from PC on.
#[inline(always)]
#[tactic(auto, using(crate::proofs::Windows::seen_still))]
fn at_least<P: Port>(core: &Core, port: &mut P, window: Window, n: u32) -> Option<Window>
    requires few { n ≤ 8 }
    requires window { IsSeen (P.view port.old) core.now window }
    ensures window { IfSome result (λ w. IsSeen (P.view port.new) core.now w) }
    ensures enough { IfSome result (λ w. n ≤ w.left) }
    ensures same { P.view port.new ≡ P.view port.old }
    ensures since { (start : P) → P.since start port.old → P.since start port.new }
{
    if n <= window.left {
        Some(window)
    } else {
        look_again(core, port)
    }
}

/// The number that the first `n` bytes are, 1, 2 or 4.
#[inline(always)]
fn first(bytes: u64, n: u32) -> u64
    requires width { IsDisplacement n }
    ensures exact { result ≡ bytes % 256 ^ n }
    ensures fits { result < 256 ^ n }
{
    match n {
        1 => bytes % 0x100,
        2 => bytes % 0x1_0000,
        _ => bytes % 0x1_0000_0000,
    }
}

/// The number that the bytes behind these are.
#[inline(always)]
fn behind(bytes: u64, n: u32) -> u64
    requires width { IsDisplacement n }
    ensures { result ≡ bytes / 256 ^ n }
{
    match n {
        1 => bytes / 0x100,
        2 => bytes / 0x1_0000,
        _ => bytes / 0x1_0000_0000,
    }
}

/// So many bytes of those that were seen. PC moves past them.
#[inline(always)]
#[tactic(auto, using(crate::proofs::Windows::fetched_seen, crate::proofs::Windows::passed))]
pub(crate) fn taken<P: Port>(core: &mut Core, port: &P, window: Window, n: u32) -> (u64, Window)
    requires width { IsDisplacement n }
    requires enough { n ≤ window.left }
    requires window { IsSeen (P.view port.now) core.old window }
    ensures exact { GoesOn (fetched n) result.0 (computer P.view core.old port.now)
        (computer P.view core.new port.now) }
    ensures fits { result.0 < 256 ^ n }
    ensures left { IsSeen (P.view port.now) core.new result.1 }
    ensures kept { IsKept core.old core.new }
    ensures moved { IsMoved core.old core.new }
{
    let _ = port;
    core.regs[15] = core.regs[15].wrapping_add(n);
    let bytes = behind(window.bytes, n);
    let left = window.left - n;
    (first(window.bytes, n), Window { bytes, left })
}

/// The number that the next `n` bytes of the instruction are, 1, 2 or 4. PC moves past them.
#[inline(always)]
pub(crate) fn fetch<P: Port>(
    core: &mut Core,
    port: &mut P,
    window: Window,
    n: u32,
) -> Option<(u64, Window)>
    requires width { IsDisplacement n }
    requires window { IsSeen (P.view port.old) core.old window }
    ensures exact { Gives (fetched n) result (computer P.view core.old port.old)
        (computer P.view core.new port.new) }
    ensures fits { IfSome result (λ r. r.0 < 256 ^ n) }
    ensures left { IfSome result (λ r. IsSeen (P.view port.new) core.new r.1) }
    ensures reads { Reads P.view P.since core.old port.old core.new port.new }
    ensures moved { IsMoved core.old core.new }
    ensures none { result ≡ None → core.new ≡ core.old }
{
    let window = at_least(core, port, window, n)?;
    Some(taken(core, port, window, n))
}
