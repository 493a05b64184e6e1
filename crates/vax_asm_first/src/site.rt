// A statement, part by part.

ghost use Rattle.std.specs.Prelude.{◌≡◌, All, IfOk, IfSome, OnOk, option_map};
ghost use Rattle.vax_asm_sections.specs.View.{part_of};
ghost use Rattle.vax_lex.specs.Grammar.{symbols_of};
ghost use Rattle.vax_lex.specs.Tokens.{IsTokenOf};
ghost use Rattle.vax_asm_first.specs.Fixups.{filling_by};
ghost use Rattle.vax_asm_first.specs.Progress.{added, counted, site_of};
ghost use Rattle.vax_asm_first.specs.Standing.{here_at, here_in, misplaces};
ghost use Rattle.vax_asm_first.specs.View.{counted_of, filling_of, part_seen, site_seen, standing_of, Advances, ChangesScope, KeepsMark};
ghost use Rattle.vax_asm_scope.specs.Kept.{scope_of};
ghost use Rattle.vax_asm_values.specs.View.{written_of};

use crate::faults::number_of;
use crate::types::{Filling, Fixup, Origin, Refused, Standing, Told};
use std::alloc::Global;
use std::rc::Rc;
use vax_asm_scope::uses_place;
use vax_asm_sections::Piece;
use vax_dialect::Dialect;
use vax_lex::{Token, Value};
use vax_macro::FaultKind;
use vax_space::NoMemory;

/// The statement: its dialect, where it comes from, its line, and what `.` is worth in it.
#[derive(Clone, Copy)]
pub struct Site<'a> {
    pub dialect: Dialect,
    pub origin: Origin,
    pub line: &'a Rc<Vec<u8>>,
    pub here: Value,
}

/// The statement that comes next.
pub fn site_of<'a>(
    origin: Origin,
    line: &'a Rc<Vec<u8>>,
    standing: &Standing,
) -> Result<Site<'a>, NoMemory>
    ensures { IfOk result (λ s. site_seen s
        ≡ site_of origin line.now.value.items (standing_of standing.now)) }
{
    let here = standing.here()?;
    Ok(Site {
        dialect: standing.dialect,
        origin,
        line,
        here,
    })
}

/// What `.` is worth in the item that comes next.
pub fn item_place(standing: &Standing, site: Site<'_>) -> Result<Value, NoMemory>
    ensures { IfOk result (λ v. v ≡ here_at (standing_of standing.now).dialect site.entry.here
        (here_in (standing_of standing.now).sections)) }
{
    if standing.dialect.has_places_in_operands() {
        standing.here()
    } else {
        Ok(site.here)
    }
}

/// Whether an operand or an item uses `.`, and may not.
pub fn misplaces(dialect: Dialect, line: &[u8], tokens: &[Token]) -> bool
    requires { All (IsTokenOf line.now) tokens.now }
    ensures { result ≡ misplaces dialect (symbols_of line.now tokens.now) }
{
    uses_place(line, tokens) && !dialect.has_places_in_operands()
}

/// What a field is filled with that holds an expression: its value where that is known, else the expression.
pub fn filling_of(told: Told) -> Filling
    ensures { filling_of result ≡ filling_by told.value (written_of told.expression) }
{
    match told.value {
        Ok(value) => Filling::Known(value),
        Err(_) => Filling::Later(told.expression),
    }
}

/// Adds so many bytes to the section that the next statement goes into. `Some` where the section or the module would be too
/// long, and all is as before then.
pub fn add(
    standing: &mut Standing,
    size: u32,
    piece: Piece<Fixup>,
) -> Result<Option<FaultKind>, NoMemory>
    ensures stated { Advances (added size (part_seen (part_of piece)))
        result standing.old standing.new }
    ensures mark { KeepsMark standing.old standing.new }
{
    match standing.put(size, piece) {
        Ok(()) => Ok(None),
        Err(Refused::Fault(kind)) => Ok(Some(kind)),
        Err(Refused::NoMemory) => Err(NoMemory),
    }
}

/// A number that must be known where it stands, as a count; 1 where none is written. Its fault where it is no number, isn't
/// known or is negative.
pub fn known_count(
    standing: &mut Standing,
    alloc: Global,
    site: Site<'_>,
    tokens: Option<&[Token]>,
) -> Result<Result<u64, FaultKind>, NoMemory>
    requires { IfSome tokens (λ t. All (IsTokenOf site.line.now.value.items) t.now) }
    ensures number { IfOk result (λ n. counted_of n (scope_of standing.new.scope)
        ≡ counted (site_seen site.entry)
        (option_map (λ t. t.now) tokens.entry) (scope_of standing.old.scope)) }
    ensures same { OnOk result (ChangesScope standing.old standing.new) }
    ensures mark { KeepsMark standing.old standing.new }
{
    let Some(tokens) = tokens else {
        return Ok(Ok(1));
    };
    let told = standing.tell(alloc, site.dialect, site.line, tokens, site.here)?;
    Ok(number_of(told.value))
}
