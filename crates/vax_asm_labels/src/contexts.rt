// Sections that are put aside.

ghost use Rattle.std.specs.Prelude.{◌≡◌, ◌<◌, ◌^◌, All, length, map, option_map};
ghost use Rattle.vax_lex.specs.Tokens.{IsTokenOf};
ghost use Rattle.vax_asm_labels.specs.Contexts.{block_wanted, is_block, restored_by, restored_stated, saved_stated};
ghost use Rattle.vax_asm_first.specs.View.{saved_of, States, KeepsMark};
ghost use Rattle.vax_asm_statement.specs.Items.{name_alone};

use crate::sections::{NOTHING_SAID, choose_named};
use std::alloc::Global;
use vax_asm_first::{FaultKind, Refused, Saved, Standing};
use vax_asm_statement::{name_alone, parts, text_of};
use vax_lex::{Token, spells};

/// Whether an operand is `LOCAL_BLOCK`.
fn is_block(line: &[u8], tokens: &[Token]) -> bool
    requires { All (IsTokenOf line.now) tokens.now }
    ensures { result ≡ is_block line.now (name_alone line.now tokens.now) }
{
    match name_alone(line, tokens) {
        Some(token) => spells(b"LOCAL_BLOCK", text_of(line, token)),
        None => false,
    }
}

/// Whether the block of local labels is to be put aside too.
fn block_wanted(line: &[u8], operands: &[&[Token]]) -> Result<bool, FaultKind>
    requires { All (λ o. All (IsTokenOf line.now) o.now) operands.now }
    ensures { result ≡ block_wanted line.now (map (λ o. o.now) operands.now) }
{
    match operands {
        [] => Ok(false),
        [operand] => {
            if is_block(line, operand) {
                Ok(true)
            } else {
                Err(FaultKind::Form)
            }
        }
        _ => Err(FaultKind::Count),
    }
}

/// `.SAVE_PSECT`: the current section is put aside, and with `LOCAL_BLOCK` its block of local labels.
///
/// [`Refused::Fault`]: `Count` where there are more operands than one, `Form` where it is another, `Depth` where 31 sections are put
/// aside. [`Refused::NoMemory`] where memory is refused. Nothing of use is left then.
#[tactic(auto, unfolding(crate::specs::Contexts::saved_stated))]
pub fn save(
    standing: &mut Standing,
    alloc: Global,
    line: &[u8],
    operands: &[Token],
) -> Result<(), Refused>
    requires tokens { All (IsTokenOf line.now) operands.now }
    requires few { length operands.now < 2 ^ 32 }
    ensures stands { States (saved_stated line.now operands.now) result standing.old standing.new }
    ensures mark { KeepsMark standing.old standing.new }
{
    let Ok(found) = parts(alloc, operands) else {
        return Err(Refused::NoMemory);
    };
    match block_wanted(line, &found) {
        Ok(with_block) => standing.put_aside(alloc, with_block),
        Err(kind) => Err(Refused::Fault(kind)),
    }
}

/// A section that was put aside goes on.
#[tactic(auto, unfolding(vax_asm_first::specs::View::marked_standing))]
fn go_back(standing: &mut Standing, alloc: Global, saved: Option<Saved>) -> Result<(), Refused>
    ensures stands { States (restored_by (option_map saved_of saved))
        result standing.old standing.new }
    ensures mark { KeepsMark standing.old standing.new }
{
    let Some(saved) = saved else {
        return Err(Refused::Fault(FaultKind::Nesting));
    };
    choose_named(standing, alloc, &saved.section, NOTHING_SAID)?;
    if let Some(block) = saved.block {
        standing.scope.resume_block(alloc, block);
    }
    Ok(())
}

/// `.RESTORE_PSECT`: the section that was put aside last goes on where it ends, and the block of local labels that was put aside with it.
/// Where none was, a block begins as at `.PSECT`.
///
/// [`Refused::Fault`]: `Count` where there are operands, `Nesting` where no section is put aside. [`Refused::NoMemory`] where memory
/// is refused. Nothing of use is left then.
#[tactic(auto, unfolding(crate::specs::Contexts::restored_stated))]
pub fn restore(standing: &mut Standing, alloc: Global, operands: &[Token]) -> Result<(), Refused>
    ensures stands { States (restored_stated operands.now) result standing.old standing.new }
    ensures mark { KeepsMark standing.old standing.new }
{
    if !operands.is_empty() {
        return Err(Refused::Fault(FaultKind::Count));
    }
    let saved = standing.take_saved();
    go_back(standing, alloc, saved)
}
