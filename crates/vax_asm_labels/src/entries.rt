// Names that other modules use or have, and where a program begins.

ghost use Rattle.std.specs.Prelude.{◌≡◌, ◌<◌, ◌^◌, All, IfOk, None, Some, if◌then◌else◌, length, option_map, true};
ghost use Rattle.vax_lex.specs.KeptNames.{kept_name};
ghost use Rattle.vax_lex.specs.Tokens.{IsTokenOf};
ghost use Rattle.vax_asm_labels.specs.Naming.{begins_at, end_stated, entry_named, entry_stated, mask_kept, mask_noted, names_from, names_stated, symbol_stated};
ghost use Rattle.vax_asm_first.specs.Progress.{after_change, done_by};
ghost use Rattle.vax_asm_first.specs.View.{progress_of, site_seen, standing_of, States, KeepsMark};
ghost use Rattle.vax_asm_scope.specs.Kept.{scope_of, KeepsMark as KeepsScopeMark};
ghost use Rattle.vax_asm_statement.specs.Parts.{parts};

use crate::labels::define;
use crate::operands::name_of;
use std::alloc::Global;
use std::rc::Rc;
use vax_asm_data::item;
use vax_asm_encode::DataKind;
use vax_asm_first::{FaultKind, Origin, Refused, Site, Standing, Transfer, lowest, site_of};
use vax_asm_scope::{LabelError, Linkage, Scope};
use vax_asm_statement::parts;
use vax_lex::{CanonicalName, ExprError, Token, Value};
use vax_space::NoMemory;
use vax_word::Size;

/// The label of an entry. Its fault, if it has one.
fn state_label(
    standing: &mut Standing,
    alloc: Global,
    name: &[u8],
) -> Result<Option<FaultKind>, NoMemory>
    ensures stated { IfOk result (λ f. progress_of f standing.new
        ≡ after_change (standing_of standing.old)
        (symbol_stated true name.now (standing_of standing.old))) }
    ensures mark { KeepsMark standing.old standing.new }
{
    match define(standing, alloc, true, name) {
        Ok(()) => Ok(None),
        Err(Refused::Fault(kind)) => Ok(Some(kind)),
        Err(Refused::NoMemory) => Err(NoMemory),
    }
}

/// The mask of an entry is kept, if it is a number that is known.
#[tactic(auto, unfolding(vax_asm_first::specs::View::marked_standing))]
fn keep_mask(
    standing: &mut Standing,
    alloc: Global,
    name: &[u8],
    mask: Result<Value, ExprError>,
) -> Result<Option<FaultKind>, NoMemory>
    ensures stated { IfOk result (λ f. done_by f (standing_of standing.new)
        ≡ mask_kept name.now mask (standing_of standing.old)) }
    ensures mark { KeepsMark standing.old standing.new }
{
    let Ok(Value::Absolute(number)) = mask else {
        return Ok(None);
    };
    match standing
        .scope
        .label_mask(alloc, name, Value::Absolute(number))
    {
        Ok(()) => Ok(None),
        Err(LabelError::Duplicate) => Ok(Some(FaultKind::Duplicate)),
        Err(LabelError::NoMemory) => Err(NoMemory),
    }
}

/// The mask of an entry is kept for `.MASK`. Its fault, if it has one.
fn note_mask(
    standing: &mut Standing,
    alloc: Global,
    site: Site<'_>,
    name: &[u8],
    mask: &[Token],
) -> Result<Option<FaultKind>, NoMemory>
    requires { All (IsTokenOf site.line.now.value.items) mask.now }
    ensures stated { IfOk result (λ f. done_by f (standing_of standing.new)
        ≡ mask_noted (site_seen site.entry) name.now mask.now (standing_of standing.old)) }
    ensures mark { KeepsMark standing.old standing.new }
{
    let told = standing.tell(alloc, site.dialect, site.line, mask, site.here)?;
    keep_mask(standing, alloc, name, told.value)
}

/// The label of an entry and its mask. Their fault, if they have one.
fn state_entry(
    standing: &mut Standing,
    alloc: Global,
    site: Site<'_>,
    name: &[u8],
    mask: &[Token],
) -> Result<Option<FaultKind>, NoMemory>
    requires { All (IsTokenOf site.line.now.value.items) mask.now }
    ensures stated { IfOk result (λ f. done_by f (standing_of standing.new)
        ≡ entry_named (site_seen site.entry) (Some name.now) mask.now (standing_of standing.old)) }
    ensures mark { KeepsMark standing.old standing.new }
{
    let fault = state_label(standing, alloc, name)?;
    let found = item(standing, alloc, site, DataKind::Number(Size::W), mask)?;
    let fault = lowest(fault, found);
    if fault.is_some() || !site.dialect.has_further_directives() {
        return Ok(fault);
    }
    note_mask(standing, alloc, site, name, mask)
}

/// An entry with this name, if it is one.
fn enter(
    standing: &mut Standing,
    alloc: Global,
    site: Site<'_>,
    name: Option<CanonicalName>,
    mask: &[Token],
) -> Result<(), Refused>
    requires { All (IsTokenOf site.line.now.value.items) mask.now }
    ensures stands { States
        (entry_named (site_seen site.entry) (option_map kept_name name) mask.now)
        result standing.old standing.new }
    ensures mark { KeepsMark standing.old standing.new }
{
    let Some(name) = name else {
        return Err(Refused::Fault(FaultKind::Form));
    };
    match state_entry(standing, alloc, site, name.as_bytes(), mask) {
        Ok(None) => Ok(()),
        Ok(Some(kind)) => Err(Refused::Fault(kind)),
        Err(NoMemory) => Err(Refused::NoMemory),
    }
}

/// `.ENTRY name,mask`: a label for other modules, and a word that holds the mask. Where the dialect has `.MASK`, the mask is kept for that.
///
/// [`Refused::Fault`] with the fault that counts: `Count` where there aren't two operands, `Form` where the first is no name
/// or the mask is no absolute expression or uses `.`, `Duplicate` where the name is defined already, `Range` where the mask
/// doesn't fit a word, `Large` where the section or the module would be too long. [`Refused::NoMemory`] where memory is
/// refused. Nothing of use is left then.
#[tactic(auto, unfolding(crate::specs::Naming::entry_stated))]
pub fn entry(
    standing: &mut Standing,
    alloc: Global,
    origin: Origin,
    line: &Rc<Vec<u8>>,
    operands: &[Token],
) -> Result<(), Refused>
    requires tokens { All (IsTokenOf line.now.value.items) operands.now }
    requires few { length operands.now < 2 ^ 32 }
    ensures stands { States (entry_stated origin line.now.value.items operands.now)
        result standing.old standing.new }
    ensures mark { KeepsMark standing.old standing.new }
{
    let Ok(found) = parts(alloc, operands) else {
        return Err(Refused::NoMemory);
    };
    let [name, mask] = found.as_slice() else {
        return Err(Refused::Fault(FaultKind::Count));
    };
    let Ok(site) = site_of(origin, line, standing) else {
        return Err(Refused::NoMemory);
    };
    enter(standing, alloc, site, name_of(line, name), mask)
}

/// The names that operands are appear, for other modules or from them. Whether each is a name.
#[tactic(auto, using(crate::proofs::Listing::name_step))]
fn appear_all(
    scope: &mut Scope,
    alloc: Global,
    linkage: Linkage,
    line: &[u8],
    operands: &[Token],
) -> Result<bool, NoMemory>
    requires tokens { All (IsTokenOf line.now) operands.now }
    requires few { length operands.now < 2 ^ 32 }
    ensures scope { IfOk result (λ all. (if all then Some (scope_of scope.new) else None)
        ≡ names_from linkage line.now (parts operands.now) (Some (scope_of scope.old))) }
    ensures mark { KeepsScopeMark scope.old scope.new }
{
    let Ok(list) = parts(alloc, operands) else {
        return Err(NoMemory);
    };
    for part in &list {
        match name_of(line, part) {
            Some(name) => scope.link(alloc, name.as_bytes(), linkage)?,
            None => return Ok(false),
        }
    }
    Ok(true)
}

/// `.GLOBAL`: other modules may use these names, or have those of them that nothing here defines; `.WEAK`: the same, and where
/// none has one, that is 0; and `.EXTERNAL`: other modules have those of them that nothing here defines.
///
/// [`Refused::Fault`]: `Count` where there are no names, `Form` where an operand is no name. [`Refused::NoMemory`] where
/// memory is refused. Nothing of use is left then.
#[tactic(auto, unfolding(vax_asm_first::specs::View::marked_standing, crate::specs::Naming::names_stated))]
pub fn names(
    standing: &mut Standing,
    alloc: Global,
    line: &[u8],
    linkage: Linkage,
    operands: &[Token],
) -> Result<(), Refused>
    requires tokens { All (IsTokenOf line.now) operands.now }
    requires few { length operands.now < 2 ^ 32 }
    ensures stands { States (names_stated linkage line.now operands.now)
        result standing.old standing.new }
    ensures mark { KeepsMark standing.old standing.new }
{
    if operands.is_empty() {
        return Err(Refused::Fault(FaultKind::Count));
    }
    match appear_all(&mut standing.scope, alloc, linkage, line, operands) {
        Ok(true) => Ok(()),
        Ok(false) => Err(Refused::Fault(FaultKind::Form)),
        Err(NoMemory) => Err(Refused::NoMemory),
    }
}

/// The program begins at this name, if it is one.
#[tactic(auto, unfolding(vax_asm_first::specs::View::marked_standing))]
fn begin_at(
    standing: &mut Standing,
    alloc: Global,
    name: Option<CanonicalName>,
) -> Result<(), Refused>
    ensures stands { States (begins_at (option_map kept_name name))
        result standing.old standing.new }
    ensures mark { KeepsMark standing.old standing.new }
{
    let Some(name) = name else {
        return Err(Refused::Fault(FaultKind::Form));
    };
    let Ok(definition) = standing.scope.appear(alloc, name.as_bytes()) else {
        return Err(Refused::NoMemory);
    };
    if standing.scope.misses(name.as_bytes()) {
        return Err(Refused::Fault(FaultKind::Undefined));
    }
    let Ok(name) = name.as_bytes().to_vec(alloc) else {
        return Err(Refused::NoMemory);
    };
    standing.unmark();
    standing.transfer = Some(Transfer { name, definition });
    Ok(())
}

/// `.END`, and `.END name` with the name at which the program begins.
///
/// [`Refused::Fault`]: `Count` where there are two operands or more, `Form` where the one is no name, `Undefined` where neither
/// this module nor another one may define it. [`Refused::NoMemory`] where memory is refused. Nothing of use is left then.
#[tactic(auto, unfolding(crate::specs::Naming::end_stated))]
pub fn end(
    standing: &mut Standing,
    alloc: Global,
    line: &[u8],
    operands: &[Token],
) -> Result<(), Refused>
    requires tokens { All (IsTokenOf line.now) operands.now }
    requires few { length operands.now < 2 ^ 32 }
    ensures stands { States (end_stated line.now operands.now) result standing.old standing.new }
    ensures mark { KeepsMark standing.old standing.new }
{
    let Ok(found) = parts(alloc, operands) else {
        return Err(Refused::NoMemory);
    };
    match found.as_slice() {
        [] => Ok(()),
        [name] => begin_at(standing, alloc, name_of(line, name)),
        _ => Err(Refused::Fault(FaultKind::Count)),
    }
}
