//! One function for each instruction.
ghost use Rattle.std.specs.Prelude.{◌≡◌, ◌≤◌};
ghost use Rattle.vax_flat.specs.Queue as queue;
ghost use Rattle.vax_undo.specs.Transaction.{room, Keeps, Does};

use vax_flat::{Cut, Exception, Flow, Operand};
use vax_isa::Queue;
use vax_operand::{
    answer, next_address, next_modified, next_place, next_value, read, set_codes, store, write,
};
use vax_undo::{CutShort, Port, Txn};
use vax_word::{Codes, Size, add, compare};

/// INSQUE.
#[tactic(auto, unfolding(vax_flat::specs::Queue::insert, vax_flat::specs::Queue::inserted))]
fn insert<P: Port>(txn: &mut Txn<P>) -> Result<Flow, CutShort>
    requires { 13 ≤ room txn.old }
    ensures exact { Does P.view P.trail queue.insert result txn.old txn.new }
    ensures keeps { Keeps P.view P.since 13 txn.old txn.new }
{
    let entry = next_address(txn, Size::B)?;
    let predecessor = next_address(txn, Size::B)?;
    let successor = read(txn, predecessor, 4)?;
    write(txn, entry, 4, successor)?;
    write(txn, entry.wrapping_add(4), 4, u64::from(predecessor))?;
    write(txn, (successor as u32).wrapping_add(4), 4, u64::from(entry))?;
    write(txn, predecessor, 4, u64::from(entry))?;
    set_codes(txn, compare(Size::L, successor, u64::from(predecessor)));
    Ok(Flow::Done)
}

/// REMQUE.
#[tactic(auto, unfolding(vax_flat::specs::Queue::remove, vax_flat::specs::Queue::removed))]
fn remove<P: Port>(txn: &mut Txn<P>) -> Result<Flow, CutShort>
    requires { 13 ≤ room txn.old }
    ensures exact { Does P.view P.trail queue.remove result txn.old txn.new }
    ensures keeps { Keeps P.view P.since 13 txn.old txn.new }
{
    let entry = next_address(txn, Size::B)?;
    let place = next_place(txn, Size::L)?;
    let successor = read(txn, entry, 4)?;
    let predecessor = read(txn, entry.wrapping_add(4), 4)?;
    write(txn, predecessor as u32, 4, successor)?;
    write(txn, (successor as u32).wrapping_add(4), 4, predecessor)?;
    store(txn, Size::L, place, u64::from(entry))?;
    let codes = Codes {
        v: predecessor == u64::from(entry),
        ..compare(Size::L, successor, predecessor)
    };
    set_codes(txn, codes);
    Ok(Flow::Done)
}

/// An address that isn't a multiple of 2.
#[inline]
#[tactic(auto, unfolding(vax_flat::specs::Queue::is_odd))]
fn is_odd(place: Operand) -> bool
    ensures { result ≡ queue.is_odd place }
{
    match place {
        Operand::Memory(addr) => addr % 2 == 1,
        Operand::Value(_) | Operand::Register(_) | Operand::FieldRegister(_) | Operand::Target(_) =>
            false,
    }
}

/// ADAWI.
#[tactic(auto, using(vax_undo::proofs::Trail::over_trail_raises), unfolding(vax_flat::specs::Queue::add_aligned, vax_flat::specs::Queue::aligned_sum))]
fn add_aligned<P: Port>(txn: &mut Txn<P>) -> Result<Flow, CutShort>
    requires { 11 ≤ room txn.old }
    ensures exact { Does P.view P.trail queue.add_aligned result txn.old txn.new }
    ensures keeps { Keeps P.view P.since 11 txn.old txn.new }
{
    let addend = next_value(txn, Size::W)?;
    let (place, old) = next_modified(txn, Size::W)?;
    if is_odd(place) {
        return Err(txn.cut(Cut::Event(Exception::Operand)));
    }
    answer(txn, Size::W, place, false, add(Size::W, old, addend, false))
}

/// The instruction by its name.
#[inline]
#[tactic(auto, unfolding(vax_flat::specs::Queue::performed))]
pub(crate) fn perform<P: Port>(txn: &mut Txn<P>, instruction: Queue) -> Result<Flow, CutShort>
    requires { 15 ≤ room txn.old }
    ensures exact { Does P.view P.trail (queue.performed instruction) result txn.old txn.new }
    ensures keeps { Keeps P.view P.since 15 txn.old txn.new }
{
    match instruction {
        Queue::Insert => insert(txn),
        Queue::Remove => remove(txn),
        Queue::AddAligned => add_aligned(txn),
    }
}
