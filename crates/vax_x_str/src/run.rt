//! Runs of bytes, in the current access mode.
ghost use Rattle.std.specs.Prelude.{◌≡◌, ◌+◌, ◌-◌, ◌/◌, ◌%◌, ◌<◌, ◌≤◌, length, OnErr, OnOk};
ghost use Rattle.vax_flat.specs.String.{read_run_at, read_span, write_run_at};
ghost use Rattle.vax_flat.specs.StringMove.{pieces_of, write_high_last, write_low_last, write_pieces, write_span};
ghost use Rattle.vax_undo.specs.Transaction.{present, room, IsLeft, IsLeftOpen, Keeps, Acts, Passes};

use vax_flat::Cut;
use vax_operand::write;
use vax_undo::{CutShort, Port, Txn, number_of};

/// Reads a run of 1 to 512 bytes that lies within one page.
#[tactic(auto, unfolding(vax_undo::specs::Trail::over_trail, vax_flat::specs::String::read_run_at))]
pub(crate) fn read_run<P: Port>(
    txn: &mut Txn<P>,
    addr: u32,
    into: &mut [u8],
) -> Result<(), CutShort>
    requires some { 1 ≤ length into.old }
    requires one_page { addr % 512 + length into.old ≤ 512 }
    ensures exact { Passes P.view P.trail
        (read_run_at addr (length into.old)) (λ next _. next into.new)
        result txn.old txn.new }
    ensures same { present P.view txn.new ≡ present P.view txn.old }
    ensures keeps { Keeps P.view P.since 0 txn.old txn.new }
{
    let mode = txn.psl().mode();
    match txn.read_run(addr, into, mode) {
        Ok(()) => Ok(()),
        Err(stop) => Err(txn.cut(Cut::from(stop))),
    }
}

/// Reads a run of 1 to 512 bytes that may go on in the next page.
#[tactic(auto, unfolding(vax_flat::specs::String::read_span))]
pub(crate) fn read_span<P: Port>(
    txn: &mut Txn<P>,
    addr: u32,
    into: &mut [u8],
) -> Result<(), CutShort>
    requires some { 1 ≤ length into.old }
    requires few { length into.old ≤ 512 }
    ensures exact { Passes P.view P.trail
        (read_span addr (length into.old)) (λ next _. next into.new)
        result txn.old txn.new }
    ensures same { present P.view txn.new ≡ present P.view txn.old }
    ensures keeps { Keeps P.view P.since 0 txn.old txn.new }
{
    let first = 512 - (addr % 512) as usize;
    if into.len() <= first {
        return read_run(txn, addr, into);
    }
    let (low, high) = into.split_at_mut(first);
    read_run(txn, addr, low)?;
    read_run(txn, addr.wrapping_add(first as u32), high)
}

/// Writes a run of 1 to 512 bytes that lies within one page, which isn't undone.
#[tactic(auto, unfolding(vax_undo::specs::Trail::over_trail, vax_flat::specs::String::write_run_at))]
pub(crate) fn write_run<P: Port>(txn: &mut Txn<P>, addr: u32, from: &[u8]) -> Result<(), CutShort>
    requires some { 1 ≤ length from.now }
    requires one_page { addr % 512 + length from.now ≤ 512 }
    ensures exact { Acts P.view P.trail (write_run_at addr from.now) result txn.old txn.new }
    ensures keeps { OnErr result (Keeps P.view P.since 0 txn.old txn.new) }
    ensures left { OnOk result (IsLeftOpen P.view P.since 0 txn.old txn.new) }
    ensures completed { OnOk result (IsLeft P.since 0 txn.old txn.new) }
{
    let mode = txn.psl().mode();
    match txn.write_run(addr, from, mode) {
        Ok(()) => Ok(()),
        Err(stop) => Err(txn.cut(Cut::from(stop))),
    }
}

/// Writes 1 to 8 bytes, which can be undone.
#[tactic(auto, using(crate::proofs::Pieces::as_number, crate::proofs::Pieces::number_below))]
fn write_few<P: Port>(txn: &mut Txn<P>, addr: u32, from: &[u8]) -> Result<(), CutShort>
    requires some { 1 ≤ length from.now }
    requires few { length from.now ≤ 8 }
    requires room { 1 ≤ room txn.old }
    ensures exact { Acts P.view P.trail (write_run_at addr from.now) result txn.old txn.new }
    ensures keeps { Keeps P.view P.since 1 txn.old txn.new }
{
    let value = number_of(from);
    write(txn, addr, from.len() as u32, value)
}

/// Writes 1 to 256 bytes in runs of at most 8, which can be undone.
#[tactic(auto, using(crate::proofs::Pieces::last_piece, crate::proofs::Pieces::next_piece))]
fn write_pieces<P: Port>(txn: &mut Txn<P>, addr: u32, from: &[u8]) -> Result<(), CutShort>
    requires some { 1 ≤ length from.now }
    requires few { length from.now ≤ 256 }
    requires room { (length from.now + 7) / 8 ≤ room txn.old }
    ensures exact { Acts P.view P.trail (write_pieces (pieces_of from.now) addr from.now)
        result txn.old txn.new }
    ensures keeps { Keeps P.view P.since ((length from.now + 7) / 8) txn.old txn.new }
{
    if from.len() <= 8 {
        return write_few(txn, addr, from);
    }
    let (low, high) = from.split_at(8);
    write_few(txn, addr, low)?;
    write_pieces(txn, addr.wrapping_add(8), high)
}

/// Writes a run that goes on in the next page, where its smaller piece is in the first. Once it succeeded it isn't undone.
#[tactic(auto, using(vax_undo::proofs::Left::open_through, vax_undo::proofs::Left::left_through), unfolding(vax_flat::specs::StringMove::write_high_last))]
fn write_high_last<P: Port>(txn: &mut Txn<P>, addr: u32, from: &[u8]) -> Result<(), CutShort>
    requires few { length from.now ≤ 512 }
    requires beyond { 512 < addr % 512 + length from.now }
    requires smaller { 256 ≤ addr % 512 }
    requires room { 33 ≤ room txn.old }
    ensures exact { Acts P.view P.trail (write_high_last addr from.now) result txn.old txn.new }
    ensures keeps { OnErr result (Keeps P.view P.since 33 txn.old txn.new) }
    ensures left { OnOk result (IsLeftOpen P.view P.since 33 txn.old txn.new) }
    ensures completed { OnOk result (IsLeft P.since 33 txn.old txn.new) }
{
    let first = 512 - (addr % 512) as usize;
    let (low, high) = from.split_at(first);
    write_pieces(txn, addr, low)?;
    write_run(txn, addr.wrapping_add(first as u32), high)
}

/// Writes a run that goes on in the next page, where its smaller piece is in that. Once it succeeded it isn't undone.
#[tactic(auto, using(vax_undo::proofs::Left::open_through, vax_undo::proofs::Left::left_through), unfolding(vax_flat::specs::StringMove::write_low_last))]
fn write_low_last<P: Port>(txn: &mut Txn<P>, addr: u32, from: &[u8]) -> Result<(), CutShort>
    requires few { length from.now ≤ 512 }
    requires beyond { 512 < addr % 512 + length from.now }
    requires smaller { addr % 512 < 256 }
    requires room { 33 ≤ room txn.old }
    ensures exact { Acts P.view P.trail (write_low_last addr from.now) result txn.old txn.new }
    ensures keeps { OnErr result (Keeps P.view P.since 33 txn.old txn.new) }
    ensures left { OnOk result (IsLeftOpen P.view P.since 33 txn.old txn.new) }
    ensures completed { OnOk result (IsLeft P.since 33 txn.old txn.new) }
{
    let first = 512 - (addr % 512) as usize;
    let (low, high) = from.split_at(first);
    write_few(txn, addr, &from[..1])?;
    write_pieces(txn, addr.wrapping_add(first as u32), high)?;
    write_run(txn, addr, low)
}

/// Writes a run of 1 to 512 bytes that may go on in the next page. Once it succeeded it isn't undone.
#[tactic(auto, unfolding(vax_flat::specs::StringMove::write_span))]
pub(crate) fn write_span<P: Port>(txn: &mut Txn<P>, addr: u32, from: &[u8]) -> Result<(), CutShort>
    requires some { 1 ≤ length from.now }
    requires few { length from.now ≤ 512 }
    requires room { 33 ≤ room txn.old }
    ensures exact { Acts P.view P.trail (write_span addr from.now) result txn.old txn.new }
    ensures keeps { OnErr result (Keeps P.view P.since 33 txn.old txn.new) }
    ensures left { OnOk result (IsLeftOpen P.view P.since 33 txn.old txn.new) }
    ensures completed { OnOk result (IsLeft P.since 33 txn.old txn.new) }
{
    let first = 512 - addr % 512;
    if from.len() as u32 <= first {
        return write_run(txn, addr, from);
    }
    if first <= 256 {
        write_high_last(txn, addr, from)
    } else {
        write_low_last(txn, addr, from)
    }
}
