// One statement.

ghost use Rattle.std.specs.Prelude.{◌≡◌, ◌≤◌, ◌<◌, ◌^◌, ◌-◌, ℕ, List, All, IfOk, length, map};
ghost use Rattle.vax_asm.specs.Placing.{Placed as Meant, alone, placed, placed_as, beside, body_stated, directed, operation_stated, instructed, stated, is_listing, instruction_named, token_of, with_range};
ghost use Rattle.vax_asm.specs.Sound.{IsSound, IsSoundWhat};
ghost use Rattle.vax_asm_first.specs.Standing.{Standing as Before};
ghost use Rattle.vax_asm_statement.specs.Within.{Within, WhatWithin};
ghost use Rattle.vax_asm.specs.PlacingView.{IsPlaced, Places};
ghost use Rattle.vax_asm.specs.View.{assembly_of};
ghost use Rattle.vax_lex.specs.Tokens.{IsTokenOf, pieces_of};
ghost use Rattle.vax_asm_labels.specs.View.{Leaves};
ghost use Rattle.vax_asm_first.specs.Fixups.{Assignment as Waiting};
ghost use Rattle.vax_asm_first.specs.View.{standing_of, Stands, States, KeepsMark};
ghost use Rattle.vax_asm_statement.specs.Reading.{body_seen, parsed, statement_seen};

use crate::tokens::{are_tokens, directive, has_bad, has_wide, instruction, tokens_of};
use crate::types::operand_type;
use std::alloc::Global;
use std::rc::Rc;
use vax_asm_data::{TextForm, addresses, align, data, even, odd, space, text};
use vax_asm_first::{Assignment, Origin, Refused, Standing, first_of};
use vax_asm_instruction::reference;
use vax_asm_labels::{
    assignment, default, end, entry, functions, label, mask, names, restore, save, section,
};
use vax_asm_scope::Linkage;
use vax_asm_statement::{Body, Directive, Statement, read_statement, text_of};
use vax_dialect::Dialect;
use vax_lex::{Piece, Token, pieces};
use vax_macro::{FaultKind, Line};
use vax_space::NoMemory;

/// What comes of a statement.
pub enum Placed {
    Stands,
    /// A label that stands alone has this fault. All is as before, and its line may go on.
    FaultyLabel(FaultKind),
    /// The statement has this fault, and its line ends with it.
    Faulty(FaultKind),
}

/// A directive.
fn direct(
    standing: &mut Standing,
    alloc: Global,
    origin: Origin,
    line: &Rc<Vec<u8>>,
    directive: Directive,
    operands: &[Token],
) -> Result<(), Refused>
    requires tokens { All (IsTokenOf line.now.value.items) operands.now }
    requires few { length operands.now < 2 ^ 32 }
    ensures stands { States (directed directive origin line.now.value.items operands.now)
        result standing.old standing.new }
    ensures mark { KeepsMark standing.old standing.new }
{
    match directive {
        Directive::Section => section(standing, alloc, line, operands),
        Directive::Entry => entry(standing, alloc, origin, line, operands),
        Directive::Data(kind) => data(standing, alloc, origin, line, kind, operands),
        Directive::Address => addresses(standing, alloc, origin, line, operands),
        Directive::Text => text(standing, alloc, origin, line, TextForm::Plain, operands),
        Directive::CountedText => text(
            standing,
            alloc,
            origin,
            line,
            TextForm::CountFirst,
            operands,
        ),
        Directive::ZeroText => text(standing, alloc, origin, line, TextForm::ZeroLast, operands),
        Directive::DescribedText => text(
            standing,
            alloc,
            origin,
            line,
            TextForm::DescriptorFirst,
            operands,
        ),
        Directive::Space(kind) => space(standing, alloc, origin, line, kind, operands),
        Directive::Reference(referring) => {
            reference(standing, alloc, origin, line, referring, operands)
        }
        Directive::Align => align(standing, alloc, origin, line, operands),
        Directive::Even => even(standing, operands),
        Directive::Odd => odd(standing, operands),
        Directive::Global => names(standing, alloc, line, Linkage::Global, operands),
        Directive::Weak => names(standing, alloc, line, Linkage::Weak, operands),
        Directive::External => names(standing, alloc, line, Linkage::External, operands),
        Directive::Enable => functions(standing, alloc, line, true, operands),
        Directive::Disable => functions(standing, alloc, line, false, operands),
        Directive::Default => default(standing, alloc, line, operands),
        Directive::Save => save(standing, alloc, line, operands),
        Directive::Restore => restore(standing, alloc, operands),
        Directive::OperandType => operand_type(standing, alloc, origin, line, operands),
        Directive::Mask => mask(standing, alloc, origin, line, operands),
        Directive::Listing => Ok(()),
        Directive::Error => Err(Refused::Fault(FaultKind::Message)),
        Directive::End => end(standing, alloc, line, operands),
    }
}

/// An instruction.
fn instruct(
    standing: &mut Standing,
    alloc: Global,
    origin: Origin,
    line: &Rc<Vec<u8>>,
    name: &[u8],
    operands: &[Token],
) -> Result<(), Refused>
    requires tokens { All (IsTokenOf line.now.value.items) operands.now }
    requires few { length operands.now < 2 ^ 32 }
    ensures stands { States
        (instructed (instruction_named name.now) origin line.now.value.items operands.now)
        result standing.old standing.new }
    ensures mark { KeepsMark standing.old standing.new }
{
    match instruction(name) {
        Some(row) => vax_asm_instruction::instruction(
            standing, alloc, origin, line, &row, operands,
        ),
        None => Err(Refused::Fault(FaultKind::UnknownOperator)),
    }
}

/// An operator with its operands.
fn operate(
    standing: &mut Standing,
    alloc: Global,
    origin: Origin,
    line: &Rc<Vec<u8>>,
    name: &[u8],
    operands: &[Token],
) -> Result<(), Refused>
    requires tokens { All (IsTokenOf line.now.value.items) operands.now }
    requires few { length operands.now < 2 ^ 32 }
    ensures stands { States (operation_stated origin line.now.value.items name.now operands.now)
        result standing.old standing.new }
    ensures mark { KeepsMark standing.old standing.new }
{
    match directive(standing.dialect, name) {
        Some(found) => direct(standing, alloc, origin, line, found, operands),
        None => instruct(standing, alloc, origin, line, name, operands),
    }
}

/// What stands behind the label.
#[tactic(auto, unfolding(crate::specs::Placing::body_stated))]
fn state_body(
    standing: &mut Standing,
    assignments: &mut Vec<Assignment>,
    alloc: Global,
    origin: Origin,
    line: &Rc<Vec<u8>>,
    body: Body<'_>,
) -> Result<(), Refused>
    requires within { WhatWithin line.now.value.items (body_seen body) }
    requires sound { IsSoundWhat (2 ^ 32 - 1) (body_seen body) }
    ensures stands { States
        (λ s. (body_stated origin line.now.value.items (body_seen body.entry) s).result)
        result standing.old standing.new }
    ensures waits { Leaves (body_stated origin line.now.value.items (body_seen body.entry)
        (standing_of standing.old)).waiting result assignments.old assignments.new }
    ensures mark { KeepsMark standing.old standing.new }
{
    match body {
        Body::Nothing => Ok(()),
        Body::Assignment {
            name,
            global,
            expression,
        } => assignment(
            standing,
            assignments,
            alloc,
            origin,
            line,
            name,
            global,
            expression,
        ),
        Body::Operation { name, operands } => {
            operate(standing, alloc, origin, line, text_of(line, name), operands)
        }
        Body::Malformed => Err(Refused::Fault(FaultKind::Form)),
    }
}

/// A statement without a label, or behind one that stands.
fn state_rest(
    standing: &mut Standing,
    assignments: &mut Vec<Assignment>,
    alloc: Global,
    origin: Origin,
    line: &Rc<Vec<u8>>,
    body: Body<'_>,
) -> Result<Placed, NoMemory>
    requires within { WhatWithin line.now.value.items (body_seen body) }
    requires sound { IsSoundWhat (2 ^ 32 - 1) (body_seen body) }
    ensures placed { Places
        (λ s. alone (body_stated origin line.now.value.items (body_seen body.entry) s)) result
        (assembly_of standing.old assignments.old) (assembly_of standing.new assignments.new) }
    ensures mark { KeepsMark standing.old standing.new }
{
    match state_body(standing, assignments, alloc, origin, line, body) {
        Ok(()) => Ok(Placed::Stands),
        Err(Refused::Fault(kind)) => Ok(Placed::Faulty(kind)),
        Err(Refused::NoMemory) => Err(NoMemory),
    }
}

/// Behind a faulty label the rest is tried from what stood before, for a fault that goes before the label's.
fn state_beside(
    standing: &mut Standing,
    assignments: &mut Vec<Assignment>,
    alloc: Global,
    origin: Origin,
    line: &Rc<Vec<u8>>,
    body: Body<'_>,
    kind: FaultKind,
) -> Result<Placed, NoMemory>
    requires within { WhatWithin line.now.value.items (body_seen body) }
    requires sound { IsSoundWhat (2 ^ 32 - 1) (body_seen body) }
    ensures placed { Places (λ s. beside kind (body_seen body.entry)
        (body_stated origin line.now.value.items (body_seen body.entry) s)) result
        (assembly_of standing.old assignments.old) (assembly_of standing.new assignments.new) }
    ensures mark { KeepsMark standing.old standing.new }
{
    if let Body::Nothing = body {
        return Ok(Placed::FaultyLabel(kind));
    }
    match state_body(standing, assignments, alloc, origin, line, body) {
        Ok(()) => Ok(Placed::Faulty(kind)),
        Err(Refused::Fault(other)) => Ok(Placed::Faulty(first_of(kind, other))),
        Err(Refused::NoMemory) => Err(NoMemory),
    }
}

/// The label, and what stands behind it.
#[tactic(auto, unfolding(crate::specs::Placing::stated))]
fn state(
    standing: &mut Standing,
    assignments: &mut Vec<Assignment>,
    alloc: Global,
    origin: Origin,
    line: &Rc<Vec<u8>>,
    statement: Statement<'_>,
) -> Result<Placed, NoMemory>
    requires within { Within line.now.value.items (statement_seen statement) }
    requires sound { IsSound (2 ^ 32 - 1) (statement_seen statement) }
    ensures placed { Places
        (stated origin line.now.value.items (statement_seen statement.entry)) result
        (assembly_of standing.old assignments.old) (assembly_of standing.new assignments.new) }
    ensures mark { KeepsMark standing.old standing.new }
{
    let Some(found) = statement.label else {
        return state_rest(standing, assignments, alloc, origin, line, statement.body);
    };
    match label(standing, alloc, line, found) {
        Ok(()) => state_rest(standing, assignments, alloc, origin, line, statement.body),
        Err(Refused::Fault(kind)) => state_beside(
            standing,
            assignments,
            alloc,
            origin,
            line,
            statement.body,
            kind,
        ),
        Err(Refused::NoMemory) => Err(NoMemory),
    }
}

/// Whether the rest of the line may hold anything.
pub(crate) fn is_listing(dialect: Dialect, line: &[u8], body: Body<'_>) -> bool
    requires within { WhatWithin line.now (body_seen body) }
    ensures { result ≡ is_listing dialect line.now (body_seen body.entry) }
{
    match body {
        Body::Operation { name, .. } => match directive(dialect, text_of(line, name)) {
            Some(Directive::Listing | Directive::Error) => true,
            _ => false,
        },
        Body::Nothing | Body::Assignment { .. } | Body::Malformed => false,
    }
}

/// A number above 64 bits is out of range.
#[tactic(auto, using(crate::proofs::Statements::range_stands, crate::proofs::Statements::range_label, crate::proofs::Statements::range_faulty))]
fn with_range(placed: Placed) -> Placed
    ensures { (before after : Before) (assignments more : List Waiting) (p : Meant) →
        IsPlaced placed before after assignments more p →
        IsPlaced result before after assignments more (with_range p) }
{
    match placed {
        Placed::Stands => Placed::Faulty(FaultKind::Range),
        Placed::FaultyLabel(kind) | Placed::Faulty(kind) => {
            Placed::Faulty(first_of(kind, FaultKind::Range))
        }
    }
}

/// Carries out the statement that the tokens of a line are. What may be no token is asked of few lines.
fn carry_out(
    standing: &mut Standing,
    assignments: &mut Vec<Assignment>,
    alloc: Global,
    origin: Origin,
    line: &Rc<Vec<u8>>,
    found: &[Piece],
    statement: Statement<'_>,
) -> Result<Placed, NoMemory>
    requires within { Within line.now.value.items (statement_seen statement) }
    requires sound { IsSound (2 ^ 32 - 1) (statement_seen statement) }
    ensures placed { Places
        (placed_as origin line.now.value.items found.now (statement_seen statement.entry)) result
        (assembly_of standing.old assignments.old) (assembly_of standing.new assignments.new) }
    ensures mark { KeepsMark standing.old standing.new }
{
    if are_tokens(found) {
        return state(standing, assignments, alloc, origin, line, statement);
    }
    if is_listing(standing.dialect, line, statement.body) {
        return state(standing, assignments, alloc, origin, line, statement);
    }
    if has_bad(found) {
        return Ok(Placed::Faulty(FaultKind::Token));
    }
    let placed = state(standing, assignments, alloc, origin, line, statement)?;
    if has_wide(found) {
        return Ok(with_range(placed));
    }
    Ok(placed)
}

/// The tokens of a statement.
#[tactic(auto, using(crate::proofs::Within::few_tokens))]
pub(crate) fn read(alloc: Global, said: &Line) -> Result<Vec<Token>, NoMemory>
    ensures tokens { IfOk result
        (λ v. v.items ≡ map token_of (pieces_of said.now.dialect said.now.text.items)) }
    ensures within { IfOk result (λ v. All (IsTokenOf said.now.text.items) v.items) }
    ensures few { IfOk result (λ v. length v.items ≤ length said.now.text.items) }
{
    let tokens = tokens_of(alloc, &said.pieces)?;
    Ok(tokens)
}

/// The statement that the tokens of a line are.
pub(crate) fn statement_of<'a>(tokens: &'a [Token]) -> Statement<'a>
    requires few { length tokens.now ≤ 1024 }
    ensures statement { statement_seen result ≡ parsed tokens.now }
    ensures within { (line : List ℕ) →
        All (IsTokenOf line) tokens.now → Within line (statement_seen result) }
    ensures sound { IsSound (2 ^ 32 - 1) (statement_seen result) }
{
    read_statement(tokens)
}

/// A line whose pieces are those in a dialect: it is cut anew where it was one of the other.
fn line_in(alloc: Global, dialect: Dialect, said: Line) -> Result<Line, NoMemory>
    ensures text { IfOk result (λ l. l.text.items ≡ said.text.items) }
    ensures dialect { IfOk result (λ l. l.dialect ≡ dialect) }
{
    if said.dialect == dialect {
        return Ok(said);
    }
    let Line { number, text, .. } = said;
    let pieces = pieces(alloc, dialect, &text).map_err(|_| NoMemory)?;
    Ok(Line {
        dialect,
        number,
        text,
        pieces,
    })
}

/// Carries out a statement, from what stands before it. `assignments` are those that have no value yet. Behind a fault that ends
/// the line some of the statement may have been carried out.
///
/// # Errors
///
/// [`NoMemory`] where memory is refused.
#[tactic(auto, unfolding(crate::specs::Placing::placed))]
pub fn place(
    standing: &mut Standing,
    assignments: &mut Vec<Assignment>,
    alloc: Global,
    origin: Origin,
    said: Line,
) -> Result<Placed, NoMemory>
    ensures placed { Places (placed origin said.text.items) result
        (assembly_of standing.old assignments.old) (assembly_of standing.new assignments.new) }
    ensures mark { KeepsMark standing.old standing.new }
{
    let said = line_in(alloc, standing.dialect, said)?;
    let tokens = read(alloc, &said)?;
    let Line { text, pieces, .. } = said;
    let Ok(line) = Rc::new(alloc, text) else {
        return Err(NoMemory);
    };
    carry_out(
        standing,
        assignments,
        alloc,
        origin,
        &line,
        &pieces,
        statement_of(&tokens),
    )
}
