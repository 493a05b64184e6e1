// Instructions as statements.

ghost use Rattle.std.specs.Prelude.{◌≡◌, ◌≤◌, ◌<◌, ◌+◌, ◌^◌, true, All, IfOk, OnOk, length, map};
ghost use Rattle.vax_asm_encode.specs.Operands.{may_stand};
ghost use Rattle.vax_asm_instruction.specs.Bytes.{HasInstruction};
ghost use Rattle.vax_asm_instruction.specs.Stating.{fault_at, fault_in, fixed, instruction_stated, opcode_stated, operand_stated, operands_stated, prepared, site_for, stands_at, unless_here};
ghost use Rattle.vax_asm_instruction.specs.View.{prepared_seen, reached_seen, Reaches};
ghost use Rattle.vax_isa.specs.Rows.{IsKind, IsFormed, plain};
ghost use Rattle.vax_asm_sections.specs.Layout.{current_of};
ghost use Rattle.vax_lex.specs.Tokens.{IsTokenOf};
ghost use Rattle.vax_asm_first.specs.Progress.{site_of};
ghost use Rattle.vax_asm_first.specs.View.{filling_of, progress_of, site_seen, standing_of, ChangesScope, States, KeepsMark};
ghost use Rattle.vax_asm_scope.specs.Kept.{scope_of};
ghost use Rattle.vax_asm_statement.specs.Modes.{seen};
ghost use Rattle.vax_asm_statement.specs.Parts.{parts};

use crate::placing::{
    Addressed, by_default, field_at, has_expression, operand_as, operand_at, operand_length,
};
use std::alloc::Global;
use std::rc::Rc;
use vax_asm_encode::{Field, Operand, field_of};
use vax_asm_first::{
    Content, FaultKind, Filling, Fixup, Origin, Refused, Site, Standing, add, fault_of_value,
    filling_of, lowest, misplaces, site_of,
};
use vax_asm_sections::Piece;
use vax_asm_statement::{Written, parts};
use vax_isa::{OperandKind, Row};
use vax_lex::{ExprError, Token, Value};
use vax_space::NoMemory;

/// An operand where it stands: how it is addressed, and what its field is filled with.
#[derive(Drop)]
pub(crate) struct Prepared {
    pub(crate) addressed: Addressed,
    pub(crate) filling: Filling,
}

/// The operands so far: where the next one begins, and the fault that counts, if one of them has any.
#[derive(Clone, Copy)]
pub(crate) struct Reached {
    pub(crate) at: u32,
    pub(crate) fault: Option<FaultKind>,
}

/// `.` may not stand in an operand, unless the dialect allows it.
fn unless_here(here: bool, value: Result<Value, ExprError>) -> Result<Value, ExprError>
    ensures { result ≡ unless_here here value }
{
    if here { Err(ExprError::Form) } else { value }
}

/// What is known of an operand where it stands, and what comes later.
pub(crate) fn prepare(
    standing: &mut Standing,
    alloc: Global,
    site: Site<'_>,
    operand: Written<'_>,
) -> Result<Prepared, NoMemory>
    requires { All (IsTokenOf site.line.now.value.items) operand.expression.now }
    ensures prepared { IfOk result (λ p. prepared_seen p (scope_of standing.new.scope)
        ≡ prepared (standing_of standing.old).dialect (site_seen site.entry)
        (seen operand.entry) (scope_of standing.old.scope)) }
    ensures same { OnOk result (ChangesScope standing.old standing.new) }
    ensures mark { KeepsMark standing.old standing.new }
{
    let Written {
        mode,
        expression,
        index,
    } = operand;
    if !has_expression(mode) {
        let zero = Value::Absolute(0);
        return Ok(Prepared {
            addressed: Addressed {
                mode,
                index,
                value: Ok(zero),
            },
            filling: Filling::Known(zero),
        });
    }
    let misplaced = misplaces(standing.dialect, site.line, expression);
    let told = standing.tell(alloc, site.dialect, site.line, expression, site.here)?;
    let value = unless_here(misplaced, told.settled);
    Ok(Prepared {
        addressed: Addressed { mode, index, value },
        filling: filling_of(told),
    })
}

fn fault_in(
    field: Option<Field>,
    section: u32,
    at: u32,
    value: Result<Value, ExprError>,
) -> Option<FaultKind>
    requires { at + 4 < 2 ^ 32 }
    ensures { result ≡ fault_in field section at value }
{
    fault_of_value(field?, section, at, value)
}

/// The fault of an operand whose field can't hold its value.
pub(crate) fn fault_at(
    kind: OperandKind,
    operand: Operand,
    section: u32,
    at: u32,
    addressed: Addressed,
) -> Option<FaultKind>
    requires { at + 6 < 2 ^ 32 }
    ensures { result ≡ fault_at kind operand section at addressed }
{
    let field = field_at(operand, at);
    fault_in(field_of(kind, operand), section, field, addressed.value)
}

/// The operand that begins at a place. Its fault, if it has one.
fn fix(
    standing: &mut Standing,
    site: Site<'_>,
    kind: OperandKind,
    operand: Operand,
    filling: Filling,
    at: u32,
) -> Result<Option<FaultKind>, NoMemory>
    requires kind { IsKind kind }
    requires stands { may_stand kind operand ≡ true }
    requires near { at + 6 < 2 ^ 32 }
    ensures stated { IfOk result (λ f. progress_of f standing.new ≡ fixed (site_seen site.entry)
        kind operand (filling_of filling) at (standing_of standing.old) None) }
    ensures mark { KeepsMark standing.old standing.new }
{
    let fixup = Fixup {
        origin: site.origin,
        at,
        content: Content::Operand { kind, operand },
        filling,
    };
    add(standing, operand_length(kind, operand), Piece::Field(fixup))
}

/// The operand that begins at a place, as its form and its value allow.
fn place(
    standing: &mut Standing,
    site: Site<'_>,
    kind: OperandKind,
    prepared: Prepared,
    at: u32,
) -> Result<Reached, NoMemory>
    requires kind { IsKind kind }
    requires near { at + 9 < 2 ^ 32 }
    ensures reached { Reaches (stands_at (site_seen site.entry)
        kind (prepared_seen prepared (scope_of standing.old.scope)) at)
        result standing.old standing.new }
    ensures near { IfOk result (λ r. r.at ≤ at + 9) }
    ensures mark { KeepsMark standing.old standing.new }
{
    let section = u32::try_from(standing.layout.number()).map_err(|_| NoMemory)?;
    let addressed = by_default(standing.displacement, section, prepared.addressed);
    let Some(operand) = operand_at(kind, addressed, section, at) else {
        return Ok(Reached {
            at,
            fault: Some(FaultKind::Form),
        });
    };
    let next = at + operand_length(kind, operand);
    let fault = fault_at(kind, operand, section, at, prepared.addressed);
    if fault.is_some() {
        return Ok(Reached { at: next, fault });
    }
    let fault = fix(standing, site, kind, operand, prepared.filling, at)?;
    Ok(Reached { at: next, fault })
}

/// The statement, with what `.` is worth in the operand that begins at a place.
pub(crate) fn site_for<'a>(
    standing: &Standing,
    site: Site<'a>,
    at: u32,
) -> Result<Site<'a>, NoMemory>
    ensures site { IfOk result (λ s. site_seen s
        ≡ site_for (standing_of standing.now) at (site_seen site.entry)) }
    ensures line { IfOk result (λ s. s.line.now.value.items
        ≡ site.entry.line.now.value.items) }
{
    if !standing.dialect.has_places_in_operands() {
        return Ok(site);
    }
    let section = u32::try_from(standing.layout.number()).map_err(|_| NoMemory)?;
    let here = Value::Section {
        section,
        offset: i64::from(at),
    };
    Ok(Site {
        dialect: site.dialect,
        origin: site.origin,
        line: site.line,
        here,
    })
}

/// One operand.
pub(crate) fn state_operand(
    standing: &mut Standing,
    alloc: Global,
    site: Site<'_>,
    kind: OperandKind,
    tokens: &[Token],
    at: u32,
) -> Result<Reached, NoMemory>
    requires kind { IsKind kind }
    requires tokens { All (IsTokenOf site.line.now.value.items) tokens.now }
    requires near { at + 9 < 2 ^ 32 }
    ensures reached { Reaches (operand_stated (site_seen site.entry) kind tokens.now at)
        result standing.old standing.new }
    ensures near { IfOk result (λ r. r.at ≤ at + 9) }
    ensures mark { KeepsMark standing.old standing.new }
{
    let written = operand_as(standing.absolute, kind, site.line, tokens);
    let here = site_for(standing, site, at)?;
    let prepared = prepare(standing, alloc, here, written)?;
    place(standing, site, kind, prepared, at)
}

/// The operands, behind what comes before them. The fault that counts, if one has any.
#[tactic(auto, using(crate::proofs::Stepping::operand_step))]
fn state_operands(
    standing: &mut Standing,
    alloc: Global,
    site: Site<'_>,
    row: &Row,
    operands: &[&[Token]],
    before: Reached,
) -> Result<Option<FaultKind>, NoMemory>
    requires formed { IsFormed (plain row.now) }
    requires count { length operands.now ≡ row.now.count }
    requires tokens { All (λ o. All (IsTokenOf site.line.now.value.items) o.now) operands.now }
    requires near { before.at ≤ 1048577 }
    ensures stated { IfOk result (λ f. progress_of f standing.new
        ≡ (operands_stated (site_seen site.entry) (map (λ o. o.now) operands.now)
        row.now.operands (reached_seen before standing.old)).progress) }
    ensures mark { KeepsMark standing.old standing.new }
{
    let Reached { mut at, mut fault } = before;
    for i in 0..operands.len() {
        let next = state_operand(standing, alloc, site, row.operands[i], operands[i], at)?;
        at = next.at;
        fault = lowest(fault, next.fault);
    }
    Ok(fault)
}

/// The opcode.
fn state_opcode(standing: &mut Standing, alloc: Global, row: &Row) -> Result<Reached, NoMemory>
    ensures reached { Reaches (opcode_stated (plain row.now)) result standing.old standing.new }
    ensures near { IfOk result (λ r. r.at ≤ 1048577) }
    ensures mark { KeepsMark standing.old standing.new }
{
    let at = standing.section_size() + 1;
    let code = vec![in alloc; row.code].map_err(|_| NoMemory)?;
    let fault = add(standing, 1, Piece::Bytes(code))?;
    Ok(Reached { at, fault })
}

/// The opcode, and the operands behind it.
fn state(
    standing: &mut Standing,
    alloc: Global,
    site: Site<'_>,
    row: &Row,
    operands: &[&[Token]],
) -> Result<Option<FaultKind>, NoMemory>
    requires formed { IsFormed (plain row.now) }
    requires count { length operands.now ≡ row.now.count }
    requires tokens { All (λ o. All (IsTokenOf site.line.now.value.items) o.now) operands.now }
    ensures stated { IfOk result (λ f. progress_of f standing.new
        ≡ (operands_stated (site_seen site.entry) (map (λ o. o.now) operands.now)
        row.now.operands (opcode_stated (plain row.now) (standing_of standing.old))).progress) }
    ensures mark { KeepsMark standing.old standing.new }
{
    let before = state_opcode(standing, alloc, row)?;
    state_operands(standing, alloc, site, row, operands, before)
}

/// An instruction, whose operands stand behind one another between commas.
///
/// [`Refused::Fault`] with the fault that counts: `Count` where the instruction has another number of operands, else the
/// first that holds of `Form` where an operand has no form, or one that may not stand there, `Range` where a value that is
/// known doesn't fit, and `Large` where the section or the module would be too long. [`Refused::NoMemory`] where memory is
/// refused. Nothing of use is left then.
#[tactic(auto, unfolding(crate::specs::Stating::instruction_stated))]
pub fn instruction(
    standing: &mut Standing,
    alloc: Global,
    origin: Origin,
    line: &Rc<Vec<u8>>,
    row: &Row,
    operands: &[Token],
) -> Result<(), Refused>
    requires formed { IsFormed (plain row.now) }
    requires tokens { All (IsTokenOf line.now.value.items) operands.now }
    requires few { length operands.now < 2 ^ 32 }
    ensures stated { States
        (instruction_stated (plain row.now) origin line.now.value.items operands.now)
        result standing.old standing.new }
    // The current section has grown by an instruction with this opcode, as the grammar of instructions reads it.
    ensures read_back { OnOk result
        (HasInstruction (plain row.now) (current_of (standing_of standing.old).sections)
        (current_of (standing_of standing.new).sections)) }
    ensures mark { KeepsMark standing.old standing.new }
{
    let Ok(list) = parts(alloc, operands) else {
        return Err(Refused::NoMemory);
    };
    if list.len() != row.count as usize {
        return Err(Refused::Fault(FaultKind::Count));
    }
    let Ok(site) = site_of(origin, line, standing) else {
        return Err(Refused::NoMemory);
    };
    match state(standing, alloc, site, row, &list) {
        Ok(None) => Ok(()),
        Ok(Some(kind)) => Err(Refused::Fault(kind)),
        Err(NoMemory) => Err(Refused::NoMemory),
    }
}
