//! Single accesses of an instruction, in the current access mode.
ghost use Rattle.std.specs.Prelude.{◌≡◌, ◌^◌, ◌<◌, ◌≤◌, IfOk, Ok};
ghost use Rattle.vax_flat.specs.Operand.{read_at, write_at, check_at, read_in, write_in, asked, fetched};
ghost use Rattle.vax_undo.specs.Transaction.{present, room, Keeps, Acts, Does};

use vax_flat::{Cut, Exception};
use vax_space::Access;
use vax_undo::{CutShort, Port, Txn};

/// The number that `n` bytes are.
#[inline(always)]
#[tactic(auto, unfolding(vax_undo::specs::Trail::over_trail, vax_flat::specs::Operand::read_at))]
pub fn read<P: Port>(txn: &mut Txn<P>, addr: u32, n: u32) -> Result<u64, CutShort>
    requires some { 1 ≤ n }
    requires few { n ≤ 8 }
    ensures exact { Does P.view P.trail (read_at addr n) result txn.old txn.new }
    ensures same { present P.view txn.new ≡ present P.view txn.old }
    ensures fits { IfOk result (λ x. x < 256 ^ n) }
    ensures keeps { Keeps P.view P.since 0 txn.old txn.new }
{
    let mode = txn.psl().mode();
    match txn.read(addr, n, mode) {
        Ok(value) => Ok(value),
        Err(stop) => Err(txn.cut(Cut::from(stop))),
    }
}

/// Writes the `n` bytes of a number. It stays a call, since most operands that are written are registers.
#[inline(never)]
#[tactic(auto, unfolding(vax_undo::specs::Trail::over_trail, vax_flat::specs::Operand::write_at))]
pub fn write<P: Port>(txn: &mut Txn<P>, addr: u32, n: u32, value: u64) -> Result<(), CutShort>
    requires some { 1 ≤ n }
    requires few { n ≤ 8 }
    requires fits { value < 256 ^ n }
    requires room { 1 ≤ room txn.old }
    ensures exact { Acts P.view P.trail (write_at addr n value) result txn.old txn.new }
    ensures keeps { Keeps P.view P.since 1 txn.old txn.new }
{
    let mode = txn.psl().mode();
    match txn.write(addr, n, value, mode) {
        Ok(()) => Ok(()),
        Err(stop) => Err(txn.cut(Cut::from(stop))),
    }
}

/// Checks that `n` bytes may be used so, resident or not.
#[inline(always)]
#[tactic(auto, unfolding(vax_undo::specs::Trail::over_trail, vax_flat::specs::Operand::check_at))]
pub fn check<P: Port>(txn: &mut Txn<P>, addr: u32, n: u32, access: Access) -> Result<(), CutShort>
    requires short { n ≤ 65536 }
    ensures exact { Acts P.view P.trail (check_at addr n access) result txn.old txn.new }
    ensures same { present P.view txn.new ≡ present P.view txn.old }
    ensures keeps { Keeps P.view P.since 0 txn.old txn.new }
{
    let mode = txn.psl().mode();
    match txn.check(addr, n, mode, access) {
        Ok(()) => Ok(()),
        Err(violation) => Err(txn.cut(Cut::Event(Exception::Access(violation)))),
    }
}

/// The number that `n` bytes are, in this access mode.
#[inline]
#[tactic(auto, unfolding(vax_undo::specs::Trail::over_trail, vax_flat::specs::Operand::read_in))]
pub fn read_in<P: Port>(txn: &mut Txn<P>, addr: u32, n: u32, mode: u8) -> Result<u64, CutShort>
    requires some { 1 ≤ n }
    requires few { n ≤ 8 }
    requires of_mode { mode ≤ 3 }
    ensures exact { Does P.view P.trail (read_in addr n mode) result txn.old txn.new }
    ensures same { present P.view txn.new ≡ present P.view txn.old }
    ensures fits { IfOk result (λ x. x < 256 ^ n) }
    ensures keeps { Keeps P.view P.since 0 txn.old txn.new }
{
    match txn.read(addr, n, mode) {
        Ok(value) => Ok(value),
        Err(stop) => Err(txn.cut(Cut::from(stop))),
    }
}

/// Writes the `n` bytes of a number, in this access mode.
#[inline]
#[tactic(auto, unfolding(vax_undo::specs::Trail::over_trail, vax_flat::specs::Operand::write_in))]
pub fn write_in<P: Port>(
    txn: &mut Txn<P>,
    addr: u32,
    n: u32,
    value: u64,
    mode: u8,
) -> Result<(), CutShort>
    requires some { 1 ≤ n }
    requires few { n ≤ 8 }
    requires of_mode { mode ≤ 3 }
    requires fits { value < 256 ^ n }
    requires room { 1 ≤ room txn.old }
    ensures exact { Acts P.view P.trail (write_in addr n value mode) result txn.old txn.new }
    ensures keeps { Keeps P.view P.since 1 txn.old txn.new }
{
    match txn.write(addr, n, value, mode) {
        Ok(()) => Ok(()),
        Err(stop) => Err(txn.cut(Cut::from(stop))),
    }
}

/// Whether this access mode may use `n` bytes so, resident or not.
#[inline]
#[tactic(auto, unfolding(vax_undo::specs::Trail::over_trail, vax_flat::specs::Operand::asked))]
pub fn is_allowed<P: Port>(txn: &Txn<P>, addr: u32, n: u32, mode: u8, access: Access) -> bool
    requires short { n ≤ 65536 }
    requires of_mode { mode ≤ 3 }
    ensures { Does P.view P.trail (asked addr n mode access) (Ok result) txn.now txn.now }
{
    txn.check(addr, n, mode, access).is_ok()
}

/// The number that the next `n` bytes of the instruction are. PC moves past them.
#[inline(always)]
#[tactic(auto, unfolding(vax_undo::specs::Trail::over_trail, vax_flat::specs::Operand::fetched, vax_flat::specs::Operand::read_at))]
pub fn fetch<P: Port>(txn: &mut Txn<P>, n: u32) -> Result<u64, CutShort>
    requires some { 1 ≤ n }
    requires few { n ≤ 8 }
    requires room { 1 ≤ room txn.old }
    ensures exact { Does P.view P.trail (fetched n) result txn.old txn.new }
    ensures fits { IfOk result (λ x. x < 256 ^ n) }
    ensures keeps { Keeps P.view P.since 1 txn.old txn.new }
{
    let pc = txn.reg(15);
    let mode = txn.psl().mode();
    match txn.read(pc, n, mode) {
        Ok(value) => {
            txn.set_reg(15, pc.wrapping_add(n));
            Ok(value)
        }
        Err(stop) => Err(txn.cut(Cut::from(stop))),
    }
}
