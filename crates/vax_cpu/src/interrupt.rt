//! Interrupts, and the interval clock (VAX Architecture Reference Manual, interrupts; interval clock).
ghost use Rattle.std.specs.Prelude.{◌≡◌, ◌<◌, ◌≤◌};
ghost use Rattle.vax_x_sys.specs.Frames.{IsLevel};
ghost use Rattle.vax_flat.specs.Step.{highest, level, ticked};
ghost use Rattle.vax_undo.specs.Rooms.{room_of_tick};
ghost use Rattle.vax_undo.specs.Transaction.{present, room, Keeps, Updates};

use vax_undo::{Port, Txn};

/// The highest software interrupt level of requests, sought from above; 0 where there is none.
#[cold]
#[tactic(auto, using(crate::proofs::Levels::highest_step, crate::proofs::Levels::highest_here), unfolding(vax_flat::specs::Step::highest))]
fn sought(requests: u16) -> u8
    ensures exact { result ≡ highest 15 requests }
    ensures within { result < 16 }
{
    let mut level = 15;
    while level > 0 && (requests >> level) % 2 != 1 {
        level -= 1;
    }
    level
}

/// The highest software interrupt level that is requested, or 0.
#[inline(always)]
#[tactic(auto, using(crate::proofs::Levels::highest_none))]
fn highest(requests: u16) -> u8
    ensures exact { result ≡ highest 15 requests }
    ensures within { result < 16 }
{
    if requests == 0 { 0 } else { sought(requests) }
}

/// The level of the interrupt that is requested, or 0.
#[inline(always)]
#[tactic(auto, unfolding(vax_flat::specs::Step::level))]
pub(crate) fn requested<P: Port>(txn: &Txn<P>) -> u8
    ensures exact { result ≡ level (present P.view txn.now).state.core }
    ensures of_level { IsLevel result }
{
    let timer = txn.iccs();
    if timer / 0x40 % 2 == 1 && timer / 0x80 % 2 == 1 {
        22
    } else {
        highest(txn.sisr())
    }
}

/// The interval clock counts a step, where it is on.
#[inline(always)]
#[tactic(auto, unfolding(vax_flat::specs::Step::ticked))]
pub(crate) fn tick<P: Port>(txn: &mut Txn<P>)
    requires { room_of_tick ≤ room txn.old }
    ensures exact { Updates P.view P.trail ticked txn.old txn.new }
    ensures keeps { Keeps P.view P.since room_of_tick txn.old txn.new }
{
    let timer = txn.iccs();
    if timer / 0x40 % 2 != 1 {
        return;
    }
    let count = txn.clock();
    if count < 999 {
        txn.set_clock(count + 1);
    } else {
        txn.set_clock(0);
        txn.set_iccs(timer % 128 + 128);
    }
}
