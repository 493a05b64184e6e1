// Functions of the assembler.

ghost use Rattle.std.specs.Prelude.{◌≡◌, ◌<◌, ◌^◌, All, length};
ghost use Rattle.vax_lex.specs.Tokens.{IsTokenOf};
ghost use Rattle.vax_asm_labels.specs.Functions.{function_at, function_of, functions_stated, is_called, is_idle, switched};
ghost use Rattle.vax_asm_first.specs.View.{States, KeepsMark};

use crate::labels::next_block;
use std::alloc::Global;
use vax_asm_first::{FaultKind, Refused, Standing};
use vax_asm_statement::{name_alone, parts, text_of};
use vax_lex::{Token, spells};

/// What a function of the assembler is here.
#[derive(Clone, Copy, PartialEq, Eq)]
pub enum Function {
    /// `DEBUG`, `SUPPRESSION`, `TRACEBACK`, `TRUNCATION`: nothing, whether it is enabled or not.
    Idle,
    /// `GLOBAL`: another module may define names that appear from here on.
    Externals,
    /// `ABSOLUTE`: an operand that is an expression alone is absolute.
    Absolute,
    /// `LOCAL_BLOCK`: a block of local labels goes on past labels and sections.
    LongBlocks,
}

fn is_called(long: &[u8], short: &[u8], name: &[u8]) -> bool
    ensures { result ≡ is_called long.now short.now name.now }
{
    spells(long, name) || spells(short, name)
}

/// Whether a function means nothing here.
fn is_idle(name: &[u8]) -> bool
    ensures { result ≡ is_idle name.now }
{
    is_called(b"DEBUG", b"DBG", name)
        || is_called(b"SUPPRESSION", b"SUP", name)
        || is_called(b"TRACEBACK", b"TBK", name)
        || is_called(b"TRUNCATION", b"FPT", name)
}

/// The function with this name.
fn function_of(name: &[u8]) -> Option<Function>
    ensures { result ≡ function_of name.now }
{
    if is_called(b"LOCAL_BLOCK", b"LSB", name) {
        Some(Function::LongBlocks)
    } else if is_called(b"GLOBAL", b"GBL", name) {
        Some(Function::Externals)
    } else if is_called(b"ABSOLUTE", b"AMA", name) {
        Some(Function::Absolute)
    } else if is_idle(name) {
        Some(Function::Idle)
    } else {
        None
    }
}

/// The function whose name an operand is.
fn function_at(line: &[u8], tokens: &[Token]) -> Option<Function>
    requires { All (IsTokenOf line.now) tokens.now }
    ensures { result ≡ function_at line.now tokens.now }
{
    let token = name_alone(line, tokens)?;
    function_of(text_of(line, token))
}

/// A function is enabled, or disabled.
#[tactic(auto, unfolding(vax_asm_first::specs::View::marked_standing))]
fn switch(
    standing: &mut Standing,
    alloc: Global,
    on: bool,
    function: Option<Function>,
) -> Result<(), Refused>
    ensures stands { States (switched on function) result standing.old standing.new }
    ensures mark { KeepsMark standing.old standing.new }
{
    match function {
        Some(Function::Idle) => Ok(()),
        Some(Function::Externals) => {
            standing.scope.assume_external(alloc, on);
            Ok(())
        }
        Some(Function::Absolute) => {
            standing.unmark();
            standing.absolute = on;
            Ok(())
        }
        Some(Function::LongBlocks) => {
            let Ok(()) = next_block(&mut standing.scope, alloc, !on) else {
                return Err(Refused::NoMemory);
            };
            standing.unmark();
            standing.keeps_block = on;
            Ok(())
        }
        None => Err(Refused::Fault(FaultKind::Form)),
    }
}

/// `.ENABLE`, where `on` is true, and `.DISABLE`: functions of the assembler.
///
/// [`Refused::Fault`]: `Count` where there are no operands, `Form` where one is no function's name.
/// [`Refused::NoMemory`] where memory is refused. Nothing of use is left then.
#[tactic(auto, using(crate::proofs::Switching::one_switched, crate::proofs::Switching::fault_switched), unfolding(crate::specs::Functions::functions_stated))]
pub fn functions(
    standing: &mut Standing,
    alloc: Global,
    line: &[u8],
    on: bool,
    operands: &[Token],
) -> Result<(), Refused>
    requires tokens { All (IsTokenOf line.now) operands.now }
    requires few { length operands.now < 2 ^ 32 }
    ensures stands { States (functions_stated on line.now operands.now)
        result standing.old standing.new }
    ensures mark { KeepsMark standing.old standing.new }
{
    if operands.is_empty() {
        return Err(Refused::Fault(FaultKind::Count));
    }
    let Ok(list) = parts(alloc, operands) else {
        return Err(Refused::NoMemory);
    };
    for part in &list {
        match switch(standing, alloc, on, function_at(line, part)) {
            Ok(()) => {}
            Err(Refused::Fault(kind)) => return Err(Refused::Fault(kind)),
            Err(Refused::NoMemory) => return Err(Refused::NoMemory),
        }
    }
    Ok(())
}
