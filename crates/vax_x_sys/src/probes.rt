//! PROBER and PROBEW (VAX MACRO and Instruction Set Reference Manual, PROBE).
ghost use Rattle.std.specs.Prelude.{◌≡◌, ◌^◌, ◌<◌, ◌≤◌};
ghost use Rattle.vax_flat.specs.System.{accessing, probe, probed};
ghost use Rattle.vax_undo.specs.Transaction.{room, Keeps, Does};

use vax_flat::Flow;
use vax_operand::{is_allowed, next_address, next_value, set_codes};
use vax_space::Access;
use vax_undo::{CutShort, Port, Txn};
use vax_word::{Codes, Size};

#[inline]
fn accessing(writing: bool) -> Access
    ensures { result ≡ accessing writing }
{
    if writing { Access::Write } else { Access::Read }
}

/// Asks for the first and the last byte. No page is touched.
#[tactic(auto, unfolding(vax_flat::specs::System::probed))]
fn probe_by<P: Port>(
    txn: &mut Txn<P>,
    writing: bool,
    mode: u8,
    length: u32,
    base: u32,
) -> Result<Flow, CutShort>
    requires of_mode { mode ≤ 3 }
    requires length { length < 2 ^ 16 }
    requires room { 1 ≤ room txn.old }
    ensures exact { Does P.view P.trail (probed writing mode length base) result txn.old txn.new }
    ensures keeps { Keeps P.view P.since 1 txn.old txn.new }
{
    let access = accessing(writing);
    let last = base.wrapping_add(length.wrapping_sub(1));
    let first_allowed = is_allowed(txn, base, 1, mode, access);
    let last_allowed = is_allowed(txn, last, 1, mode, access);
    let codes = Codes {
        n: false,
        z: !(first_allowed && last_allowed),
        v: false,
        c: txn.psl().codes().c,
    };
    set_codes(txn, codes);
    Ok(Flow::Done)
}

/// PROBER, PROBEW.
#[tactic(auto, unfolding(vax_flat::specs::System::probe))]
pub(crate) fn probe<P: Port>(txn: &mut Txn<P>, writing: bool) -> Result<Flow, CutShort>
    requires { 13 ≤ room txn.old }
    ensures exact { Does P.view P.trail (probe writing) result txn.old txn.new }
    ensures keeps { Keeps P.view P.since 13 txn.old txn.new }
{
    let named = next_value(txn, Size::B)?;
    let length = next_value(txn, Size::W)?;
    let base = next_address(txn, Size::B)?;
    let mode = ((named % 4) as u8).max(txn.psl().prev());
    probe_by(txn, writing, mode, length as u32, base)
}
