//! The page of PC, which is looked up once for all the instructions in it.
ghost use Rattle.std.specs.Prelude.{◌≡◌, ◌<◌, IfSome};
ghost use Rattle.vax_quick.specs.Code.{IsKnown};
ghost use Rattle.vax_quick.specs.Made.{IsSeen, eight};

use crate::window::look;
use vax_undo::Port;
use vax_word::Core;

/// How many bytes a page has.
const PAGE_BYTES: u32 = 512;

/// A page from which instructions may be read in an access mode, and the frame that it lies in. A page that there isn't is none.
#[derive(Clone, Copy)]
pub(crate) struct Code {
    page: u32,
    frame: u32,
    mode: u8,
}

impl Code {
    /// No page is known.
    #[inline(always)]
    pub(crate) fn none<P: Port>(port: &P) -> Code
        ensures { IsKnown P.lies_in P.since result port.now }
    {
        let _ = port;
        Code {
            page: 0xFFFF_FFFF,
            frame: 0,
            mode: 0,
        }
    }
}

/// The eight bytes from PC on, if they lie in the page that is known.
#[inline(always)]
#[tactic(auto, using(crate::proofs::Coded::seen_if))]
fn look_in_page<P: Port>(core: &Core, port: &P, code: Code) -> Option<u64>
    requires known { IsKnown P.lies_in P.since code port.now }
    ensures seen { IfSome result (λ bytes. IsSeen (P.view port.now) core.now (eight bytes)) }
{
    let pc = core.regs[15];
    let mode = core.psl.mode();
    if pc / PAGE_BYTES != code.page || pc % PAGE_BYTES > 504 || mode != code.mode {
        return None;
    }
    port.code_in(code.frame, code.page, pc % PAGE_BYTES, mode)
}

/// The page of PC, if instructions may be read from it and the port tells its frame.
#[cold]
#[inline(never)]
fn find_page<P: Port>(core: &Core, port: &mut P, code: Code) -> Code
    requires known { IsKnown P.lies_in P.since code port.old }
    ensures known { IsKnown P.lies_in P.since result port.new }
    ensures same { P.view port.new ≡ P.view port.old }
    ensures since { (start : P) → P.since start port.old → P.since start port.new }
{
    let pc = core.regs[15];
    let mode = core.psl.mode();
    match port.frame_of_code(pc, mode) {
        Some(frame) => Code {
            page: pc / PAGE_BYTES,
            frame,
            mode,
        },
        None => code,
    }
}

/// The eight bytes from PC on, which may go on in the next page.
#[cold]
#[inline(never)]
fn look_anywhere<P: Port>(core: &Core, port: &mut P, code: Code) -> Option<u64>
    requires known { IsKnown P.lies_in P.since code port.old }
    ensures known { IsKnown P.lies_in P.since code port.new }
    ensures seen { IfSome result (λ bytes. IsSeen (P.view port.new) core.now (eight bytes)) }
    ensures same { P.view port.new ≡ P.view port.old }
    ensures since { (start : P) → P.since start port.old → P.since start port.new }
{
    if let Some(bytes) = look_in_page(core, port, code) {
        return Some(bytes);
    }
    match look(core, port) {
        Some(window) => Some(window.bytes),
        None => None,
    }
}

/// The eight bytes from PC on. The page that is known afterwards may be another.
#[inline(always)]
pub(crate) fn look_at_pc<P: Port>(core: &Core, port: &mut P, code: &mut Code) -> Option<u64>
    requires known { IsKnown P.lies_in P.since code.old port.old }
    ensures known { IsKnown P.lies_in P.since code.new port.new }
    ensures seen { IfSome result (λ bytes. IsSeen (P.view port.new) core.now (eight bytes)) }
    ensures same { P.view port.new ≡ P.view port.old }
    ensures since { (start : P) → P.since start port.old → P.since start port.new }
{
    match look_in_page(core, port, *code) {
        Some(bytes) => Some(bytes),
        None => {
            *code = find_page(core, port, *code);
            match look_anywhere(core, port, *code) {
                Some(bytes) => Some(bytes),
                None => None,
            }
        }
    }
}
