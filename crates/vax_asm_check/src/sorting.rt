// Faults in the order of their lines.

ghost use Rattle.std.specs.Prelude.{OnOk};
ghost use Rattle.vax_asm_check.specs.Listed.{IsInOrder};

use vax_asm_second::Fault;
use vax_space::NoMemory;

/// Puts faults in order, by their lines and of one line by their kinds.
pub(crate) fn sort(faults: &mut Vec<Fault>) -> Result<(), NoMemory>
    ensures { OnOk result (IsInOrder faults.old.items faults.new.items) }
{
    match faults.sort_by_key(|fault| (fault.origin.place, fault.kind.code())) {
        Ok(()) => Ok(()),
        Err(_) => Err(NoMemory),
    }
}
