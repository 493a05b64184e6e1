// `.NTYPE`.

ghost use Rattle.std.specs.Prelude.{◌<◌, ◌^◌, All, length};
ghost use Rattle.vax_asm.specs.Placing.{type_of_operand, type_stated};
ghost use Rattle.vax_asm_first.specs.View.{States, KeepsMark};
ghost use Rattle.vax_lex.specs.Tokens.{IsTokenOf};

use std::alloc::Global;
use std::rc::Rc;
use vax_asm_first::{Origin, Refused, Standing};
use vax_asm_instruction::operand_type_here;
use vax_asm_labels::assign_number;
use vax_asm_statement::parts;
use vax_lex::Token;
use vax_macro::FaultKind;
use vax_space::NoMemory;

/// A name is assigned the type of an operand; that of none is 0.
fn assign_type(
    standing: &mut Standing,
    alloc: Global,
    origin: Origin,
    line: &Rc<Vec<u8>>,
    name: &[Token],
    operand: &[Token],
) -> Result<(), Refused>
    requires name { All (IsTokenOf line.now.value.items) name.now }
    requires operand { All (IsTokenOf line.now.value.items) operand.now }
    ensures stands { States (type_of_operand origin line.now.value.items name.now operand.now)
        result standing.old standing.new }
    ensures mark { KeepsMark standing.old standing.new }
{
    if operand.is_empty() {
        return assign_number(standing, alloc, origin, line, name, 0);
    }
    match operand_type_here(standing, alloc, origin, line, operand) {
        Ok(Ok(number)) => assign_number(standing, alloc, origin, line, name, u64::from(number)),
        Ok(Err(kind)) => Err(Refused::Fault(kind)),
        Err(NoMemory) => Err(Refused::NoMemory),
    }
}

/// `.NTYPE name,operand`: the name is assigned how the operand is addressed, and 0 without an operand.
pub(crate) fn operand_type(
    standing: &mut Standing,
    alloc: Global,
    origin: Origin,
    line: &Rc<Vec<u8>>,
    operands: &[Token],
) -> Result<(), Refused>
    requires tokens { All (IsTokenOf line.now.value.items) operands.now }
    requires few { length operands.now < 2 ^ 32 }
    ensures stands { States (type_stated origin line.now.value.items operands.now)
        result standing.old standing.new }
    ensures mark { KeepsMark standing.old standing.new }
{
    let Ok(found) = parts(alloc, operands) else {
        return Err(Refused::NoMemory);
    };
    match found.as_slice() {
        [name] => assign_type(standing, alloc, origin, line, name, &[]),
        [name, operand] => assign_type(standing, alloc, origin, line, name, operand),
        _ => Err(Refused::Fault(FaultKind::Count)),
    }
}
