// Labels.

ghost use Rattle.std.specs.Prelude.{◌≡◌, OnOk, true};
ghost use Rattle.vax_lex.specs.Tokens.{IsTokenOf};
ghost use Rattle.vax_asm_labels.specs.Naming.{label_stated, local_stated, named_label, next_block, shared, symbol_stated};
ghost use Rattle.vax_asm_first.specs.View.{Alters, KeepsMark};
ghost use Rattle.vax_asm_scope.specs.Kept.{scope_of, KeepsMark as KeepsScopeMark};
ghost use Rattle.vax_asm_statement.specs.Tokens.{is_name_token};

use crate::operands::{is_place, kept};
use std::alloc::Global;
use vax_asm_first::{FaultKind, Refused, Standing};
use vax_asm_scope::{LabelError, Linkage, Scope};
use vax_asm_statement::{Label, is_local};
use vax_space::NoMemory;

/// Other modules may use a name, if it is said that they may.
pub(crate) fn share(
    scope: &mut Scope,
    alloc: Global,
    global: bool,
    name: &[u8],
) -> Result<(), NoMemory>
    ensures scope { OnOk result (scope_of scope.new ≡ shared global name.now (scope_of scope.old)) }
    ensures mark { KeepsScopeMark scope.old scope.new }
{
    if global {
        scope.link(alloc, name, Linkage::Global)?;
    }
    Ok(())
}

/// Begins a block of local labels, unless the one before goes on.
pub(crate) fn next_block(scope: &mut Scope, alloc: Global, keeps: bool) -> Result<(), NoMemory>
    ensures scope { OnOk result (scope_of scope.new ≡ next_block keeps (scope_of scope.old)) }
    ensures mark { KeepsScopeMark scope.old scope.new }
{
    if !keeps {
        scope.begin_block(alloc)?;
    }
    Ok(())
}

/// A label that isn't local: it begins a block of local labels. After a fault all is as before.
#[tactic(auto, unfolding(vax_asm_first::specs::View::marked_standing))]
pub(crate) fn define(
    standing: &mut Standing,
    alloc: Global,
    global: bool,
    name: &[u8],
) -> Result<(), Refused>
    ensures stands { Alters (symbol_stated global name.now) result standing.old standing.new }
    ensures mark { KeepsMark standing.old standing.new }
{
    let Ok(here) = standing.here() else {
        return Err(Refused::NoMemory);
    };
    match standing.scope.label(alloc, name, here) {
        Ok(()) => {}
        Err(LabelError::Duplicate) => return Err(Refused::Fault(FaultKind::Duplicate)),
        Err(LabelError::NoMemory) => return Err(Refused::NoMemory),
    }
    let Ok(()) = share(&mut standing.scope, alloc, global, name) else {
        return Err(Refused::NoMemory);
    };
    let Ok(()) = next_block(&mut standing.scope, alloc, standing.keeps_block) else {
        return Err(Refused::NoMemory);
    };
    Ok(())
}

/// A local label. After a fault all is as before.
#[tactic(auto, unfolding(vax_asm_first::specs::View::marked_standing))]
fn define_local(
    standing: &mut Standing,
    alloc: Global,
    global: bool,
    name: &[u8],
) -> Result<(), Refused>
    ensures stands { Alters (local_stated global name.now) result standing.old standing.new }
    ensures mark { KeepsMark standing.old standing.new }
{
    if global {
        return Err(Refused::Fault(FaultKind::Form));
    }
    let Ok(here) = standing.here() else {
        return Err(Refused::NoMemory);
    };
    match standing.scope.label_local(alloc, name, here) {
        Ok(()) => Ok(()),
        Err(LabelError::Duplicate) => Err(Refused::Fault(FaultKind::Duplicate)),
        Err(LabelError::NoMemory) => Err(Refused::NoMemory),
    }
}

fn define_named(
    standing: &mut Standing,
    alloc: Global,
    global: bool,
    name: &[u8],
) -> Result<(), Refused>
    ensures stands { Alters (named_label global name.now) result standing.old standing.new }
    ensures mark { KeepsMark standing.old standing.new }
{
    if is_place(name) {
        return Err(Refused::Fault(FaultKind::Form));
    }
    if is_local(name) {
        return define_local(standing, alloc, global, name);
    }
    define(standing, alloc, global, name)
}

/// `name:`, and `name::` for other modules: the name has the value of the place where it stands. A local label has it in its
/// block; every other label begins a block, unless that goes on (`.ENABLE LOCAL_BLOCK`).
///
/// [`Refused::Fault`]: `Form` where the name is `.`, or a local label is to be one for other modules; `Duplicate` where the
/// name is defined already, a local label in its block. All is as before then. [`Refused::NoMemory`] where memory is refused;
/// nothing of use is left then.
#[tactic(auto, unfolding(crate::specs::Naming::label_stated))]
pub fn label(
    standing: &mut Standing,
    alloc: Global,
    line: &[u8],
    label: Label,
) -> Result<(), Refused>
    requires within { IsTokenOf line.now label.name }
    requires name { is_name_token label.name ≡ true }
    ensures stands { Alters (label_stated line.now label) result standing.old standing.new }
    ensures mark { KeepsMark standing.old standing.new }
{
    let name = kept(line, label.name);
    define_named(standing, alloc, label.global, name.as_bytes())
}
