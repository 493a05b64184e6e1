//! The registers themselves, with no log, as one who carries out an instruction.
ghost use Rattle.std.specs.Prelude.{◌≡◌, ◌<◌, ◌≤◌, slice_index};
ghost use Rattle.vax_flat.specs.OverPort.{Arrival};
ghost use Rattle.vax_flat.specs.Accesses.{Leaf};
ghost use Rattle.vax_quick.specs.Fast.{always, done_of, follows_in, reading_in, room_in, sound_in, state_in, stays_in, stops_in, Console, IsOn};

use crate::access::{next_modified, next_place, next_value, set_value};
use crate::addresses::{next_address, next_target};
use crate::control::go_on;
use crate::memory::read;
use crate::results::{answer, push, set_codes, settle};
use crate::window::Window;
use vax_isa::Narrow;
use vax_operand::{CutShort, Flow, Operand, Worker, width_of};
use vax_undo::Port;
use vax_word::{Codes, Core, Size};

/// The registers, a port and what was seen of the instruction. A call that is cut short leaves the instruction to a transaction.
#[derive(Drop)]
pub(crate) struct Fast<'a, P: Port> {
    pub(crate) core: &'a mut Core,
    pub(crate) port: &'a mut P,
    pub(crate) window: Window,
}

/// A register behind a shared reference.
#[inline(always)]
fn register_of(core: &Core, n: u8) -> u32
    requires { n < 16 }
    ensures { result ≡ slice_index core.now.regs n }
{
    core.regs[n as usize]
}

/// Whether an instruction was made at once.
#[inline(always)]
pub(crate) fn done(made: Result<Flow, CutShort>) -> Option<()>
    ensures { result ≡ done_of made }
{
    match made {
        Ok(_) => Some(()),
        Err(_) => None,
    }
}

impl<'a, P: Port> Worker for Fast<'a, P> {
    ghost Rest = { Console };

    ghost Out = { Arrival Leaf };

    ghost state = { state_in };

    ghost reading = { reading_in P.view };

    ghost stops = { stops_in };

    ghost holds = { always };

    ghost sound = { sound_in P.view };

    ghost room = { room_in };

    ghost kept = { IsOn P.since };

    ghost stays = { stays_in P.view };

    ghost follows = { follows_in };

    #[inline(always)]
    fn value(&mut self, size: Size) -> Result<u64, CutShort> {
        match next_value(self.core, self.port, self.window, size) {
            Some((value, after)) => {
                self.window = after;
                Ok(value)
            }
            None => Err(CutShort),
        }
    }

    #[inline(always)]
    fn modified(&mut self, size: Size) -> Result<(Operand, u64), CutShort> {
        match next_modified(self.core, self.port, self.window, size) {
            Some((modified, after)) => {
                self.window = after;
                Ok(modified)
            }
            None => Err(CutShort),
        }
    }

    #[inline(always)]
    fn place(&mut self, size: Size) -> Result<Operand, CutShort> {
        match next_place(self.core, self.port, self.window, size) {
            Some((place, after)) => {
                self.window = after;
                Ok(place)
            }
            None => Err(CutShort),
        }
    }

    #[inline(always)]
    fn address(&mut self, size: Size) -> Result<u32, CutShort> {
        match next_address(self.core, self.port, self.window, size) {
            Some((addr, after)) => {
                self.window = after;
                Ok(addr)
            }
            None => Err(CutShort),
        }
    }

    #[inline(always)]
    fn target(&mut self, size: Narrow) -> Result<u32, CutShort> {
        match next_target(self.core, self.port, self.window, size) {
            Some((target, after)) => {
                self.window = after;
                Ok(target)
            }
            None => Err(CutShort),
        }
    }

    #[inline(always)]
    fn read(&mut self, addr: u32, n: u32) -> Result<u64, CutShort> {
        match read(self.core, self.port, addr, n) {
            Some(value) => Ok(value),
            None => Err(CutShort),
        }
    }

    #[inline(always)]
    fn register(&self, n: u8) -> u32 {
        register_of(self.core, n)
    }

    #[inline(always)]
    fn codes(&self) -> Codes {
        self.core.psl.codes()
    }

    #[inline(always)]
    fn whole(&mut self) -> Result<(), CutShort> {
        Ok(())
    }

    #[inline(always)]
    fn set_register(&mut self, n: u8, value: u32) {
        self.core.regs[n as usize] = value;
    }

    #[inline(always)]
    fn jump(&mut self, target: u32) {
        self.core.regs[15] = target;
    }

    #[inline(always)]
    #[tactic(auto, unfolding(vax_flat::specs::Rows::stored))]
    fn store(&mut self, size: Size, place: Operand, value: u64) -> Result<(), CutShort> {
        match place {
            Operand::Register(n) => {
                set_value(self.core, width_of(size), n, value);
                Ok(())
            }
            _ => Err(CutShort),
        }
    }

    #[inline(always)]
    fn push(&mut self, value: u32) -> Result<(), CutShort> {
        match push(self.core, self.port, value) {
            Some(()) => Ok(()),
            None => Err(CutShort),
        }
    }

    #[inline(always)]
    fn answered(
        &mut self,
        size: Size,
        place: Operand,
        by_zero: bool,
        result_and_codes: (u64, Codes),
    ) -> Result<Flow, CutShort> {
        match answer(self.core, self.port, size, place, by_zero, result_and_codes) {
            Some(()) => Ok(Flow::Done),
            None => Err(CutShort),
        }
    }

    #[inline(always)]
    fn settled(&mut self, by_zero: bool, codes: Codes) -> Result<Flow, CutShort> {
        match settle(self.core, self.port, by_zero, codes) {
            Some(()) => Ok(Flow::Done),
            None => Err(CutShort),
        }
    }

    #[inline(always)]
    #[tactic(auto, using(vax_undo::proofs::FirstPart::codes_closed))]
    fn end(&mut self, codes: Codes, flow: Flow) -> Result<Flow, CutShort> {
        match flow {
            Flow::Done => {
                self.core.psl = self.core.psl.with_codes(codes);
                Ok(Flow::Done)
            }
            _ => Err(CutShort),
        }
    }

    #[inline(always)]
    fn looped(
        &mut self,
        size: Size,
        place: Operand,
        index: (u64, Codes),
        taken: bool,
        target: u32,
    ) -> Result<Flow, CutShort> {
        match go_on(self.core, self.port, size, place, index, taken, target) {
            Some(()) => Ok(Flow::Done),
            None => Err(CutShort),
        }
    }

    #[inline(always)]
    fn complete(&mut self, codes: Codes) -> Flow {
        set_codes(self.core, self.port, false, codes);
        Flow::Done
    }

    #[inline(always)]
    fn finish(&mut self) -> Flow {
        Flow::Done
    }
}
