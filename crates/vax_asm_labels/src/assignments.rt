// Assignments.

ghost use Rattle.std.specs.Prelude.{◌≡◌, ◌&&◌, All, IfOk, OnOk, length, map, not, option_map, true};
ghost use Rattle.vax_lex.specs.Tokens.{IsTokenOf};
ghost use Rattle.vax_asm_labels.specs.Naming.{assigned_by, assignment_stated, fault_of, name_assigned, named_assignment, offset_of, place_assigned, place_moved, target, waiting, waiting_as, waiting_by, with_waiting};
ghost use Rattle.vax_asm_labels.specs.View.{Leaves};
ghost use Rattle.vax_asm_first.specs.Progress.{done_by};
ghost use Rattle.vax_asm_first.specs.View.{assignment_of, site_seen, standing_of, told_of, Stands, States, KeepsMark};
ghost use Rattle.vax_asm_scope.specs.Kept.{scope_of};
ghost use Rattle.vax_asm_scope.specs.Scope.{assigned};
ghost use Rattle.vax_dialect.specs.Differences.{assigns_places};
ghost use Rattle.vax_asm_statement.specs.Tokens.{is_name_token};
ghost use Rattle.vax_asm_values.specs.Values.{Means, Worked};
ghost use Rattle.vax_asm_values.specs.View.{written_of};

use crate::labels::share;
use crate::operands::{is_place, kept};
use std::alloc::Global;
use std::rc::Rc;
use vax_asm_data::move_to;
use vax_asm_first::{
    Assignment, FaultKind, Origin, Refused, Site, Standing, Told, lowest, site_of,
};
use vax_asm_scope::LabelError;
use vax_asm_statement::is_local;
use vax_asm_values::Expression;
use vax_lex::{ExprError, Token, Value};
use vax_space::NoMemory;

/// The fault of what is assigned, which may have its value later.
fn fault_of(value: Result<Value, ExprError>) -> Option<FaultKind>
    ensures { result ≡ fault_of value }
{
    match value {
        Ok(_) | Err(ExprError::Unknown) => None,
        Err(ExprError::Form) => Some(FaultKind::Form),
        Err(ExprError::Range) => Some(FaultKind::Range),
    }
}

/// What is assigned, once more, where it has no value yet.
fn waiting(alloc: Global, told: &Told) -> Result<Option<Expression>, NoMemory>
    ensures { IfOk result (λ o. option_map written_of o
        ≡ waiting told.now.value (written_of told.now.expression)) }
{
    match told.value {
        Ok(_) => Ok(None),
        Err(_) => {
            let expression = told.expression.try_clone(alloc)?;
            Ok(Some(expression))
        }
    }
}

/// Keeps an assignment that has no value yet.
fn keep(
    assignments: &mut Vec<Assignment>,
    origin: Origin,
    definition: usize,
    waiting: Option<Expression>,
) -> Result<(), NoMemory>
    ensures { OnOk result (map assignment_of assignments.new.items
        ≡ with_waiting (waiting_as origin definition (option_map written_of waiting))
        (map assignment_of assignments.old.items)) }
{
    let Some(expression) = waiting else {
        return Ok(());
    };
    match assignments.push(Assignment {
        origin,
        definition,
        expression,
    }) {
        Ok(()) => Ok(()),
        Err(_) => Err(NoMemory),
    }
}

/// What is assigned is a name's definition.
#[tactic(auto, unfolding(vax_asm_first::specs::View::marked_standing))]
fn define(
    standing: &mut Standing,
    assignments: &mut Vec<Assignment>,
    alloc: Global,
    origin: Origin,
    global: bool,
    name: &[u8],
    told: Told,
) -> Result<(), Refused>
    requires { Means (length (scope_of standing.old.scope).sources)
        (Worked (written_of told.expression)) }
    ensures stands { Stands result
        (standing_of standing.new) (assigned_by global name.now (standing_of standing.old)
        (assigned name.now (written_of told.expression) (scope_of standing.old.scope))) }
    ensures waits { Leaves (waiting_by origin name.now (told_of told (scope_of standing.old.scope))
        (assigned name.now (written_of told.expression) (scope_of standing.old.scope)))
        result assignments.old assignments.new }
    ensures mark { KeepsMark standing.old standing.new }
{
    let Ok(waiting) = waiting(alloc, &told) else {
        return Err(Refused::NoMemory);
    };
    let definition = match standing.scope.assign(alloc, name, told.expression) {
        Ok(definition) => definition,
        Err(LabelError::Duplicate) => return Err(Refused::Fault(FaultKind::Duplicate)),
        Err(LabelError::NoMemory) => return Err(Refused::NoMemory),
    };
    let Ok(()) = share(&mut standing.scope, alloc, global, name) else {
        return Err(Refused::NoMemory);
    };
    let Ok(()) = keep(assignments, origin, definition, waiting) else {
        return Err(Refused::NoMemory);
    };
    Ok(())
}

/// An assignment to a name that isn't local. Its fault, if it has one.
#[tactic(auto, unfolding(vax_asm_first::specs::View::marked_standing))]
fn assign(
    standing: &mut Standing,
    assignments: &mut Vec<Assignment>,
    alloc: Global,
    site: Site<'_>,
    global: bool,
    name: &[u8],
    tokens: &[Token],
) -> Result<Option<FaultKind>, NoMemory>
    requires { All (IsTokenOf site.line.now.value.items) tokens.now }
    ensures result { IfOk result (λ f. done_by f (standing_of standing.new)
        ≡ (name_assigned (site_seen site.entry)
        global name.now tokens.now (standing_of standing.old)).result) }
    ensures waiting { OnOk result (map assignment_of assignments.new.items
        ≡ with_waiting (name_assigned (site_seen site.entry) global name.now tokens.now
        (standing_of standing.old)).waiting (map assignment_of assignments.old.items)) }
    ensures mark { KeepsMark standing.old standing.new }
{
    standing.scope.appear(alloc, name)?;
    let told = standing.tell(alloc, site.dialect, site.line, tokens, site.here)?;
    let fault = fault_of(told.settled);
    match define(
        standing,
        assignments,
        alloc,
        site.origin,
        global,
        name,
        told,
    ) {
        Ok(()) => Ok(fault),
        Err(Refused::Fault(kind)) => Ok(lowest(fault, Some(kind))),
        Err(Refused::NoMemory) => Err(NoMemory),
    }
}

fn offset_of(offset: i64) -> Result<u64, FaultKind>
    ensures { result ≡ offset_of offset }
{
    u64::try_from(offset).map_err(|_| FaultKind::Range)
}

/// The place that `.` is assigned, which is one of the current section: a number where that is absolute.
fn target(absolute: bool, current: usize, value: Result<Value, ExprError>) -> Result<u64, FaultKind>
    ensures { result ≡ target absolute current value }
{
    match value {
        Ok(Value::Section { section, offset }) => {
            if section as usize == current {
                offset_of(offset)
            } else {
                Err(FaultKind::Form)
            }
        }
        Ok(Value::Absolute(offset)) => {
            if absolute {
                offset_of(offset)
            } else {
                Err(FaultKind::Form)
            }
        }
        Ok(Value::External { .. }) => Err(FaultKind::Form),
        Err(ExprError::Form) => Err(FaultKind::Form),
        Err(ExprError::Unknown) => Err(FaultKind::Undefined),
        Err(ExprError::Range) => Err(FaultKind::Range),
    }
}

/// Goes on at the place that an expression is.
fn move_place(
    standing: &mut Standing,
    alloc: Global,
    site: Site<'_>,
    tokens: &[Token],
) -> Result<(), Refused>
    requires { All (IsTokenOf site.line.now.value.items) tokens.now }
    ensures stands { States (place_moved (site_seen site.entry) tokens.now)
        result standing.old standing.new }
    ensures mark { KeepsMark standing.old standing.new }
{
    let Ok(told) = standing.tell(alloc, site.dialect, site.line, tokens, site.here) else {
        return Err(Refused::NoMemory);
    };
    match target(standing.in_absolute(), standing.layout.number(), told.value) {
        Ok(to) => move_to(standing, to),
        Err(kind) => Err(Refused::Fault(kind)),
    }
}

/// An assignment to `.`, where the dialect has that.
fn assign_place(
    standing: &mut Standing,
    alloc: Global,
    site: Site<'_>,
    global: bool,
    tokens: &[Token],
) -> Result<(), Refused>
    requires { All (IsTokenOf site.line.now.value.items) tokens.now }
    ensures stands { States (λ s. place_assigned (assigns_places s.dialect && not global)
        (site_seen site.entry) tokens.now s) result standing.old standing.new }
    ensures mark { KeepsMark standing.old standing.new }
{
    if standing.dialect.assigns_places() && !global {
        move_place(standing, alloc, site, tokens)
    } else {
        Err(Refused::Fault(FaultKind::UnknownOperator))
    }
}

/// An assignment to a name.
fn assign_named(
    standing: &mut Standing,
    assignments: &mut Vec<Assignment>,
    alloc: Global,
    site: Site<'_>,
    global: bool,
    name: &[u8],
    tokens: &[Token],
) -> Result<(), Refused>
    requires { All (IsTokenOf site.line.now.value.items) tokens.now }
    ensures stands { States
        (λ s. (named_assignment (site_seen site.entry) global name.now tokens.now s).result)
        result standing.old standing.new }
    ensures waits { Leaves (named_assignment (site_seen site.entry) global name.now tokens.now
        (standing_of standing.old)).waiting result assignments.old assignments.new }
    ensures mark { KeepsMark standing.old standing.new }
{
    if is_place(name) {
        return assign_place(standing, alloc, site, global, tokens);
    }
    if is_local(name) {
        return Err(Refused::Fault(FaultKind::Form));
    }
    match assign(standing, assignments, alloc, site, global, name, tokens) {
        Ok(None) => Ok(()),
        Ok(Some(kind)) => Err(Refused::Fault(kind)),
        Err(NoMemory) => Err(Refused::NoMemory),
    }
}

/// `name = e`, and `name == e` for other modules: the name has the value of the expression, or will have it once all that it
/// rests on has one. In the expression the name means its definition before. Where it has no value yet, the assignment is
/// added to `assignments`, from which [`vax_asm_first::first_circle`] tells whether a name comes back to itself.
///
/// `. = e` goes on at a place of the current section, where the dialect has that: zero bytes stand up to it. In an absolute section, which
/// has no bytes, the place may lie before the next statement.
///
/// [`Refused::Fault`] with the fault that counts: `UnknownOperator` where the name is `.` and the dialect doesn't have that, `Form` where it is a local label or
/// the expression has no form, `Duplicate` where it is a label, `Range` where the expression divides by zero.
/// Of `. = e`: `Form` where it is no place of the current section, `Undefined` where it isn't known, `Range` where it is negative, or lies
/// before the next statement in a section that isn't absolute, `Large` where the section or the module would be too long.
/// [`Refused::NoMemory`] where memory is refused. Nothing of use is left then, but for the assignments.
#[tactic(auto, unfolding(crate::specs::Naming::assignment_stated))]
pub fn assignment(
    standing: &mut Standing,
    assignments: &mut Vec<Assignment>,
    alloc: Global,
    origin: Origin,
    line: &Rc<Vec<u8>>,
    name: Token,
    global: bool,
    expression: &[Token],
) -> Result<(), Refused>
    requires within { IsTokenOf line.now.value.items name }
    requires name { is_name_token name ≡ true }
    requires tokens { All (IsTokenOf line.now.value.items) expression.now }
    ensures stands { States
        (λ s. (assignment_stated origin line.now.value.items name global expression.now s).result)
        result standing.old standing.new }
    ensures waits { Leaves (assignment_stated origin line.now.value.items name global expression.now
        (standing_of standing.old)).waiting result assignments.old assignments.new }
    ensures mark { KeepsMark standing.old standing.new }
{
    let name = kept(line, name);
    let Ok(site) = site_of(origin, line, standing) else {
        return Err(Refused::NoMemory);
    };
    assign_named(
        standing,
        assignments,
        alloc,
        site,
        global,
        name.as_bytes(),
        expression,
    )
}
