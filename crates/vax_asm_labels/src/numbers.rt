// Numbers that a directive assigns.

ghost use Rattle.std.specs.Prelude.{All};
ghost use Rattle.vax_lex.specs.Tokens.{IsTokenOf};
ghost use Rattle.vax_asm_labels.specs.Numbers.{number_stated};
ghost use Rattle.vax_asm_first.specs.View.{States, KeepsMark};

use crate::assignments::assignment;
use std::alloc::Global;
use std::rc::Rc;
use vax_asm_first::{FaultKind, Origin, Refused, Standing};
use vax_asm_statement::name_alone;
use vax_lex::{Token, TokenKind};

/// A name is assigned a number, as `name = number` does it.
///
/// [`Refused::Fault`]: `Form` where the operand isn't a name, or is `.` or a local label, and `Duplicate` where it is a label.
/// [`Refused::NoMemory`] where memory is refused. Nothing of use is left then.
#[tactic(auto, unfolding(crate::specs::Numbers::number_stated), using(crate::proofs::Alone::alone_is_name, crate::proofs::Replacing::number_within))]
pub fn assign_number(
    standing: &mut Standing,
    alloc: Global,
    origin: Origin,
    line: &Rc<Vec<u8>>,
    name: &[Token],
    number: u64,
) -> Result<(), Refused>
    requires { All (IsTokenOf line.now.value.items) name.now }
    ensures stands { States (number_stated origin line.now.value.items name.now number)
        result standing.old standing.new }
    ensures mark { KeepsMark standing.old standing.new }
{
    let Some(name) = name_alone(line, name) else {
        return Err(Refused::Fault(FaultKind::Form));
    };
    let expression = [Token {
        kind: TokenKind::Number(number),
        start: name.start,
        end: name.end,
    }];
    let mut assignments = Vec::new(alloc);
    assignment(
        standing,
        &mut assignments,
        alloc,
        origin,
        line,
        name,
        false,
        &expression,
    )
}
