// Operators on texts in lines of expansions.

ghost use Rattle.std.specs.Prelude.{◌≡◌, ◌+◌, ◌<◌, ◌≤◌, ◌^◌, ◌==◌, not, length, take, drop, option_map, decimal, IfOk, IfSome, Ok};
ghost use Rattle.std.specs.Str.{bytes_eq};
ghost use Rattle.std.specs.List.{prefix_len};
ghost use Rattle.vax_macro.specs.ArgumentViews.{taken_view};
ghost use Rattle.vax_macro.specs.ConditionViews.{Decides, same};
ghost use Rattle.vax_macro.specs.StringViews.{evaluated_view, found_view, operator_view, parted_view};
ghost use Rattle.vax_macro.specs.Strings.{count_in, evaluated, is_inner, last_operator, length_value, located, natural, operand, operator_at, part_value, parted, place_from, place_value, valued};

use crate::arguments::{Taken, behind_blanks, closing, edged};
use crate::conditions::Refusal;
use crate::error::FaultKind;
use crate::names::{begins_with, behind, copied, part};
use crate::values::number_of;
use itoa::Buffer;
use std::alloc::Global;
use vax_lex::{Names, spells};
use vax_space::NoMemory;

#[derive(Clone, Copy, PartialEq, Eq)]
pub(crate) enum Operator {
    Length,
    Place,
    Part,
}

/// An operator in a text, with its parenthesis: where it begins, and where its operands do.
#[derive(Clone, Copy)]
pub(crate) struct Found {
    pub(crate) operator: Operator,
    pub(crate) at: usize,
    pub(crate) operands: usize,
}

/// An operand's text, and what stands behind the byte that parts it from that.
#[derive(Clone, Copy)]
struct OperandText<'a> {
    text: &'a [u8],
    rest: &'a [u8],
}

/// The value of an operator, and what stands behind it.
#[derive(Drop)]
pub(crate) struct StringValue<'a> {
    pub(crate) text: Vec<u8>,
    pub(crate) rest: &'a [u8],
}

/// The operator with which a text begins that stands at this place.
#[tactic(auto, unfolding(crate::specs::Strings::operator_at))]
fn operator_at(at: usize, text: &[u8]) -> Option<Found>
    requires { at < 2 ^ 32 }
    ensures { option_map found_view result ≡ operator_at at text.now }
{
    let (operator, name) = if spells(b"%LENGTH(", part(text, 0, 8)) {
        (Operator::Length, 8)
    } else if spells(b"%LOCATE(", part(text, 0, 8)) {
        (Operator::Place, 8)
    } else if spells(b"%EXTRACT(", part(text, 0, 9)) {
        (Operator::Part, 9)
    } else {
        return None;
    };
    Some(Found {
        operator,
        at,
        operands: at + name,
    })
}

/// The last operator that begins before a place.
#[tactic(auto, unfolding(crate::specs::Strings::last_operator))]
pub(crate) fn last_operator(end: usize, text: &[u8]) -> Option<Found>
    requires { end < 2 ^ 32 }
    ensures { option_map found_view result ≡ last_operator end text.now }
{
    let mut at = end;
    while at > 0 {
        at -= 1;
        if let Some(found) = operator_at(at, behind(text, at)) {
            return Some(found);
        }
    }
    None
}

/// How many bytes stand before the first comma or parenthesis that closes.
#[tactic(auto, using(crate::proofs::Runs::runs))]
fn inner_length(text: &[u8]) -> usize
    ensures value { result ≡ prefix_len is_inner text.now }
    ensures bound { result ≤ length text.now }
{
    let mut count = 0;
    while count < text.len() && text[count] != b',' && text[count] != b')' {
        count += 1;
    }
    count
}

/// The operand at the head of a text.
#[tactic(auto, unfolding(crate::specs::Strings::operand))]
fn operand(text: &[u8]) -> Option<Taken<'_>>
    ensures { option_map taken_view result ≡ operand text.now }
{
    if begins_with(b'<', text) {
        let inner = behind(text, 1);
        let Some(length) = closing(inner) else {
            return None;
        };
        return Some(Taken {
            text: Some(&inner[..length]),
            rest: &inner[length + 1..],
        });
    }
    if begins_with(b'^', text) {
        return edged(behind(text, 1));
    }
    let length = inner_length(text);
    let (found, rest) = text.split_at(length);
    if length == 0 {
        return Some(Taken { text: None, rest });
    }
    Some(Taken {
        text: Some(found),
        rest,
    })
}

/// The operand at the head of a text, if this byte stands behind it.
#[tactic(auto, unfolding(crate::specs::Strings::parted))]
fn parted(byte: u8, text: &[u8]) -> Option<OperandText<'_>>
    ensures { option_map parted_view result ≡ parted byte text.now }
{
    let Some(found) = operand(behind_blanks(text)) else {
        return None;
    };
    let rest = behind_blanks(found.rest);
    if !begins_with(byte, rest) {
        return None;
    }
    let rest = behind(rest, 1);
    match found.text {
        Some(text) => Some(OperandText { text, rest }),
        None => Some(OperandText { text: &[], rest }),
    }
}

/// A number that isn't negative.
fn natural(number: i64) -> Result<u64, FaultKind>
    ensures { result ≡ natural (Ok number) }
{
    if number < 0 {
        return Err(FaultKind::Range);
    }
    Ok(number.unsigned_abs())
}

/// The number that isn't negative of an expression.
fn count_in<N: Names>(alloc: Global, names: &N, text: &[u8]) -> Result<u64, Refusal>
    ensures { Decides same result (count_in (N.meaning names.now) text.now) }
{
    let number = number_of(alloc, names, text)?;
    match natural(number) {
        Ok(count) => Ok(count),
        Err(kind) => Err(Refusal::Fault(kind)),
    }
}

/// Whether a text begins with another.
fn begins(wanted: &[u8], text: &[u8]) -> bool
    ensures { result ≡ bytes_eq wanted.now (take (length wanted.now) text.now) }
{
    wanted == part(text, 0, wanted.len())
}

/// The place of a text in another, looked for from a place on.
#[tactic(auto, unfolding(crate::specs::Strings::place_from))]
fn place_from(from: usize, wanted: &[u8], text: &[u8]) -> usize
    requires { from ≤ length text.now }
    ensures value { result ≡ place_from from wanted.now (drop from text.now) }
    ensures bound { result ≤ length text.now }
{
    let mut at = from;
    while at < text.len() {
        if begins(wanted, behind(text, at)) {
            return at;
        }
        at += 1;
    }
    at
}

/// The place of a text in another, or the place behind all of it.
fn located(from: u64, wanted: &[u8], text: &[u8]) -> usize
    ensures { result ≡ located from wanted.now text.now }
{
    if from > text.len() as u64 {
        return text.len();
    }
    place_from(from as usize, wanted, text)
}

/// A number in decimal digits.
fn digits(alloc: Global, number: usize) -> Result<Vec<u8>, NoMemory>
    ensures { IfOk result (λ v. v.items ≡ decimal number) }
{
    let mut buffer = Buffer::new();
    copied(alloc, buffer.format(number as u64).as_bytes())
}

/// A value of decimal digits.
fn number_value<'a>(
    alloc: Global,
    number: usize,
    rest: &'a [u8],
) -> Result<StringValue<'a>, Refusal>
    ensures { Decides evaluated_view result (valued (decimal number) rest.now) }
{
    let text = digits(alloc, number)?;
    Ok(StringValue { text, rest })
}

/// The length of a text.
fn length_value<'a>(alloc: Global, text: &'a [u8]) -> Result<StringValue<'a>, Refusal>
    ensures { Decides evaluated_view result (length_value (parted 41 text.now)) }
{
    let Some(found) = parted(b')', text) else {
        return Err(Refusal::Fault(FaultKind::Form));
    };
    number_value(alloc, found.text.len(), found.rest)
}

/// The place of a text in another.
fn place_value<'a, N: Names>(
    alloc: Global,
    names: &N,
    text: &'a [u8],
) -> Result<StringValue<'a>, Refusal>
    ensures { Decides evaluated_view result
        (place_value (N.meaning names.now) (parted 44 text.now)) }
{
    let Some(wanted) = parted(b',', text) else {
        return Err(Refusal::Fault(FaultKind::Form));
    };
    if let Some(found) = parted(b')', wanted.rest) {
        return number_value(alloc, located(0, wanted.text, found.text), found.rest);
    }
    let Some(found) = parted(b',', wanted.rest) else {
        return Err(Refusal::Fault(FaultKind::Form));
    };
    let Some(from) = parted(b')', found.rest) else {
        return Err(Refusal::Fault(FaultKind::Form));
    };
    let place = count_in(alloc, names, from.text)?;
    number_value(alloc, located(place, wanted.text, found.text), from.rest)
}

/// So many bytes of a text from a place on.
fn bytes_from(from: u64, count: u64, text: &[u8]) -> &[u8]
    ensures { result.now ≡ take count (drop from text.now) }
{
    if from >= text.len() as u64 {
        return &text[text.len()..];
    }
    let rest = &text[from as usize..];
    if count >= rest.len() as u64 {
        return rest;
    }
    &rest[..count as usize]
}

/// A part of a text.
fn part_value<'a, N: Names>(
    alloc: Global,
    names: &N,
    text: &'a [u8],
) -> Result<StringValue<'a>, Refusal>
    ensures { Decides evaluated_view result
        (part_value (N.meaning names.now) (parted 44 text.now)) }
{
    let Some(from) = parted(b',', text) else {
        return Err(Refusal::Fault(FaultKind::Form));
    };
    let Some(count) = parted(b',', from.rest) else {
        return Err(Refusal::Fault(FaultKind::Form));
    };
    let Some(found) = parted(b')', count.rest) else {
        return Err(Refusal::Fault(FaultKind::Form));
    };
    let from = count_in(alloc, names, from.text)?;
    let count = count_in(alloc, names, count.text)?;
    let text = copied(alloc, bytes_from(from, count, found.text))?;
    Ok(StringValue {
        text,
        rest: found.rest,
    })
}

/// What an operator gives of the operands at the head of a text.
#[tactic(auto, unfolding(crate::specs::Strings::evaluated))]
pub(crate) fn evaluated<'a, N: Names>(
    alloc: Global,
    names: &N,
    operator: Operator,
    text: &'a [u8],
) -> Result<StringValue<'a>, Refusal>
    ensures { Decides evaluated_view result
        (evaluated (N.meaning names.now) (operator_view operator) text.now) }
{
    match operator {
        Operator::Length => length_value(alloc, text),
        Operator::Place => place_value(alloc, names, text),
        Operator::Part => part_value(alloc, names, text),
    }
}
