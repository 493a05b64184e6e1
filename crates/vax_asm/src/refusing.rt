// Statements that their text alone refuses.

ghost use Rattle.std.specs.Prelude.{◌≡◌, ◌<◌, ◌^◌, ◌-◌, IfOk, IfSome, length};
ghost use Rattle.vax_asm.specs.Placing.{instruction_named};
ghost use Rattle.vax_asm.specs.Refusal.{IsRefused, body_refusal, directive_refusal, instruction_refusal, refusal, refusal_as};
ghost use Rattle.vax_asm.specs.Sound.{IsSoundWhat};
ghost use Rattle.vax_asm_statement.specs.Reading.{body_seen, statement_seen};
ghost use Rattle.vax_asm_statement.specs.Within.{WhatWithin};

use crate::placing::{is_listing, read, statement_of};
use crate::tokens::{directive, has_bad, instruction};
use std::alloc::Global;
use vax_asm_statement::{Body, Directive, Label, Statement, parts, text_of};
use vax_dialect::Dialect;
use vax_lex::{Piece, Token};
use vax_macro::{FaultKind, Line};
use vax_space::NoMemory;

/// The fault of an operator that is no directive.
fn instruction_refusal(
    alloc: Global,
    name: &[u8],
    operands: &[Token],
) -> Result<Option<FaultKind>, NoMemory>
    requires few { length operands.now < 2 ^ 32 }
    ensures { IfOk result
        (λ o. o ≡ instruction_refusal (instruction_named name.now) operands.now) }
{
    let Some(row) = instruction(name) else {
        return Ok(Some(FaultKind::UnknownOperator));
    };
    let Ok(list) = parts(alloc, operands) else {
        return Err(NoMemory);
    };
    if list.len() != row.count as usize {
        return Ok(Some(FaultKind::Count));
    }
    Ok(None)
}

/// The fault of a directive that has it however its line goes on.
fn directive_refusal(label: Option<Label>, directive: Directive) -> Option<FaultKind>
    ensures { result ≡ directive_refusal label directive }
{
    match (label, directive) {
        (None, Directive::Error) => Some(FaultKind::Message),
        _ => None,
    }
}

/// The fault of what stands behind the label, or without one.
fn body_refusal(
    alloc: Global,
    dialect: Dialect,
    line: &[u8],
    label: Option<Label>,
    body: Body<'_>,
) -> Result<Option<FaultKind>, NoMemory>
    requires within { WhatWithin line.now (body_seen body) }
    requires sound { IsSoundWhat (2 ^ 32 - 1) (body_seen body) }
    ensures { IfOk result (λ o. o ≡ body_refusal dialect line.now label (body_seen body.entry)) }
{
    match body {
        Body::Nothing | Body::Assignment { .. } => Ok(None),
        Body::Operation { name, operands } => {
            let name = text_of(line, name);
            match directive(dialect, name) {
                Some(found) => Ok(directive_refusal(label, found)),
                None => instruction_refusal(alloc, name, operands),
            }
        }
        Body::Malformed => Ok(Some(FaultKind::Form)),
    }
}

/// The fault of a line that was cut into these pieces.
fn refusal_as(
    alloc: Global,
    dialect: Dialect,
    line: &[u8],
    pieces: &[Piece],
    statement: Statement<'_>,
) -> Result<Option<FaultKind>, NoMemory>
    requires within { WhatWithin line.now (body_seen statement.body) }
    requires sound { IsSoundWhat (2 ^ 32 - 1) (body_seen statement.body) }
    ensures { IfOk result
        (λ o. o ≡ refusal_as dialect line.now pieces.now (statement_seen statement.entry)) }
{
    if has_bad(pieces) && !is_listing(dialect, line, statement.body) {
        return Ok(Some(FaultKind::Token));
    }
    body_refusal(alloc, dialect, line, statement.label, statement.body)
}

/// The fault that a statement has in its dialect whatever stands before it, if its text alone decides that it has one: a byte where
/// no token begins, an operator that is none, a wrong number of an instruction's operands, a statement that begins with no
/// name, `.ERROR` without a label. [`place`](crate::place) then tells this fault too, even behind a faulty label.
///
/// # Errors
///
/// [`NoMemory`] where memory is refused.
pub fn refusal(alloc: Global, said: &Line) -> Result<Option<FaultKind>, NoMemory>
    ensures exact { IfOk result (λ o. o ≡ refusal said.now.dialect said.now.text.items) }
    ensures refused { IfOk result
        (λ o. IfSome o (IsRefused said.now.dialect said.now.text.items)) }
{
    let tokens = read(alloc, said)?;
    let statement = statement_of(&tokens);
    refusal_as(alloc, said.dialect, &said.text, &said.pieces, statement)
}
