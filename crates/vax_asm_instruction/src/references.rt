// Operands without the name of an instruction.

ghost use Rattle.std.specs.Prelude.{◌≡◌, ◌≤◌, ◌<◌, ◌^◌, All, IfOk, length};
ghost use Rattle.vax_asm_instruction.specs.Stating.{front_stated, read_of, reference_stated, referred, referred_kind};
ghost use Rattle.vax_asm_instruction.specs.View.{Reaches};
ghost use Rattle.vax_isa.specs.Rows.{IsKind};
ghost use Rattle.vax_lex.specs.Tokens.{IsTokenOf};
ghost use Rattle.vax_asm_first.specs.View.{progress_of, site_seen, standing_of, States, KeepsMark};

use crate::statement::{Reached, state_operand};
use std::alloc::Global;
use std::rc::Rc;
use vax_asm_first::{FaultKind, Origin, Refused, Site, Standing, add, lowest, site_of};
use vax_asm_sections::Piece;
use vax_asm_statement::{Referring, parts};
use vax_isa::{Letter, OperandKind};
use vax_lex::Token;
use vax_space::NoMemory;
use vax_word::Size;

/// The operand of an instruction that reads so many bytes.
#[tactic(auto, using(crate::proofs::Referring::read_kind))]
pub(crate) fn read_of(size: Size) -> OperandKind
    ensures value { result ≡ read_of size }
    ensures kind { IsKind result }
{
    OperandKind {
        letter: Letter::Read,
        width: size.bytes() as u8,
    }
}

/// The operand, as an instruction has it.
#[tactic(auto, using(crate::proofs::Referring::written_kind))]
fn referred_kind(referring: Referring) -> OperandKind
    ensures value { result ≡ referred_kind referring }
    ensures kind { IsKind result }
{
    match referring {
        Referring::Read(size) => read_of(size),
        Referring::Pop => OperandKind {
            letter: Letter::Write,
            width: 4,
        },
    }
}

/// What stands before the operand.
fn state_front(
    standing: &mut Standing,
    alloc: Global,
    referring: Referring,
) -> Result<Reached, NoMemory>
    ensures reached { Reaches (front_stated referring) result standing.old standing.new }
    ensures near { IfOk result (λ r. r.at ≤ 1048578) }
    ensures mark { KeepsMark standing.old standing.new }
{
    let at = standing.section_size();
    match referring {
        Referring::Read(_) => Ok(Reached { at, fault: None }),
        Referring::Pop => {
            let bytes = vec![in alloc; 0xD0, 0x8E].map_err(|_| NoMemory)?;
            let fault = add(standing, 2, Piece::Bytes(bytes))?;
            Ok(Reached { at: at + 2, fault })
        }
    }
}

/// What stands before the operand, and the operand. The fault that counts, if one of them has any.
fn state(
    standing: &mut Standing,
    alloc: Global,
    site: Site<'_>,
    referring: Referring,
    one: &[Token],
) -> Result<Option<FaultKind>, NoMemory>
    requires tokens { All (IsTokenOf site.line.now.value.items) one.now }
    ensures stated { IfOk result (λ f. progress_of f standing.new
        ≡ (referred referring (site_seen site.entry) one.now (standing_of standing.old)).progress) }
    ensures mark { KeepsMark standing.old standing.new }
{
    let front = state_front(standing, alloc, referring)?;
    let kind = referred_kind(referring);
    let next = state_operand(standing, alloc, site, kind, one, front.at)?;
    Ok(lowest(front.fault, next.fault))
}

/// `.REF1`, `.REF2`, `.REF4`, `.REF8`: an operand as an instruction has it that reads so many bytes, without an opcode. `POPL`: the
/// bytes D0 and 8E, and an operand as an instruction has it that writes a longword, which `MOVL (SP)+` with this operand is.
///
/// [`Refused::Fault`]: `Count` where there isn't one operand, else the first that holds of `Form` where it has no form, or one
/// that may not stand there, `Range` where a value that is known doesn't fit, and `Large` where the section or the module would
/// be too long. [`Refused::NoMemory`] where memory is refused. Nothing of use is left then.
#[tactic(auto, unfolding(crate::specs::Stating::reference_stated))]
pub fn reference(
    standing: &mut Standing,
    alloc: Global,
    origin: Origin,
    line: &Rc<Vec<u8>>,
    referring: Referring,
    operands: &[Token],
) -> Result<(), Refused>
    requires tokens { All (IsTokenOf line.now.value.items) operands.now }
    requires few { length operands.now < 2 ^ 32 }
    ensures stands { States (reference_stated referring origin line.now.value.items operands.now)
        result standing.old standing.new }
    ensures mark { KeepsMark standing.old standing.new }
{
    let Ok(found) = parts(alloc, operands) else {
        return Err(Refused::NoMemory);
    };
    let one = match found.as_slice() {
        [one] => *one,
        _ => return Err(Refused::Fault(FaultKind::Count)),
    };
    let Ok(site) = site_of(origin, line, standing) else {
        return Err(Refused::NoMemory);
    };
    match state(standing, alloc, site, referring, one) {
        Ok(None) => Ok(()),
        Ok(Some(kind)) => Err(Refused::Fault(kind)),
        Err(NoMemory) => Err(Refused::NoMemory),
    }
}
