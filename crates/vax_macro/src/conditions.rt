// Conditions, and counts of repeats.

ghost use Rattle.std.specs.Prelude.{◌≡◌, ◌+◌, ◌-◌, ◌<◌, ◌≤◌, ◌^◌, [], List, ℕ, unwrap_or, All, length, map, option_map, IfOk, IfSome};
ghost use Rattle.std.specs.List.{prefix_len};
ghost use Rattle.vax_lex.specs.Tokens.{IsPieceOf};
ghost use Rattle.vax_macro.specs.Conditions.{token_of, depth_behind, comma_in, has_wide, absolute, fitting, unless_wide, number_in, comparison_holds, condition_named, is_defined, as_wanted, defined_name, defined_in, is_blank_text, blank_arguments, same_arguments, condition_on, no_condition, named_condition, behind_name, name_end, condition_in, at_comma, second_argument, comma_behind, comma_behind_two, guarded_pieces, guarded_text, ends_by, guarded_on, guarded_in};
ghost use Rattle.vax_macro.specs.ArgumentViews.{argument_view, taken_view, lent_view, lent_arguments};
ghost use Rattle.vax_macro.specs.ConditionViews.{comparison_view, condition_view, guarded_view, Decides, same};

use crate::arguments::{Argument, NoKeyword, Taken, arguments, behind_blanks, take_text};
use crate::error::FaultKind;
use crate::heads::{
    code_end, code_from, has_bad, has_unprintable, is_mark_piece, is_name_piece, is_wide,
    piece_text,
};
use crate::names::{are_blanks, begins_with, behind, is_name};
use std::alloc::Global;
use vax_dialect::Dialect;
use vax_lex::{
    CanonicalName, ExprError, Names, Piece, PieceKind, Token, TokenKind, Value, evaluate,
    fitted_number, spells,
};
use vax_space::NoMemory;

/// How a number is compared with 0.
#[derive(Clone, Copy, PartialEq, Eq)]
pub(crate) enum Comparison {
    Equal,
    NotEqual,
    Greater,
    Less,
    GreaterOrEqual,
    LessOrEqual,
}

/// What a condition is on.
#[derive(Clone, Copy, PartialEq, Eq)]
pub(crate) enum Condition {
    Compares(Comparison),
    /// A name that is defined, or not.
    Defined(bool),
    /// A text that is blank, or not.
    Blank(bool),
    /// Two texts that are the same, or not.
    Identical(bool),
}

/// Whether a condition holds, and where the statement behind it begins.
#[derive(Clone, Copy)]
pub(crate) struct Guarded {
    pub(crate) holds: bool,
    pub(crate) statement: usize,
}

/// Why there is no answer: the line has a fault, or memory was refused.
#[derive(Clone, Copy)]
pub(crate) enum Refusal {
    Fault(FaultKind),
    NoMemory,
}

impl From<NoMemory> for Refusal {
    ghost use Rattle.std.specs.Prelude.{◌≡◌};
    ghost use Rattle.vax_macro.specs.ConditionViews.{refused};

    ghost from_gives = { λ _ r. r ≡ refused };

    fn from(_: NoMemory) -> Refusal {
        Refusal::NoMemory
    }
}

/// The token in place of a piece.
fn token_of(piece: Piece) -> Token
    ensures { result ≡ token_of piece }
{
    let kind = match piece.kind {
        PieceKind::Token(kind) => kind,
        PieceKind::Wide => TokenKind::Number(0),
        PieceKind::Bad => TokenKind::Mark(0),
    };
    Token {
        kind,
        start: piece.start,
        end: piece.end,
    }
}

/// The tokens in place of pieces.
fn tokens_of(alloc: Global, pieces: &[Piece]) -> Result<Vec<Token>, NoMemory>
    ensures { IfOk result (λ v. v.items ≡ map token_of pieces.now) }
{
    let mut tokens = Vec::new(alloc);
    for piece in pieces {
        tokens.push(token_of(*piece)).map_err(|_| NoMemory)?;
    }
    Ok(tokens)
}

/// How many brackets are open behind a piece.
fn depth_behind(depth: usize, kind: PieceKind) -> usize
    requires { depth < 2 ^ 63 }
    ensures value { result ≡ depth_behind depth kind }
    ensures bound { result ≤ depth + 1 }
{
    if is_mark_piece(b'<', kind) {
        depth + 1
    } else if is_mark_piece(b'>', kind) {
        depth.saturating_sub(1)
    } else {
        depth
    }
}

/// Where the first comma stands outside brackets.
pub(crate) fn comma_in(pieces: &[Piece]) -> Option<usize>
    ensures value { result ≡ comma_in pieces.now }
    ensures bound { IfSome result (λ k. k < length pieces.now) }
{
    let mut depth: usize = 0;
    for (at, piece) in pieces.iter().enumerate() {
        if depth == 0 && is_mark_piece(b',', piece.kind) {
            return Some(at);
        }
        depth = depth_behind(depth, piece.kind);
    }
    None
}

fn has_wide(pieces: &[Piece]) -> bool
    ensures { result ≡ has_wide pieces.now }
{
    pieces.iter().any(|piece| is_wide(piece.kind))
}

/// The number that a value has to be.
fn absolute(value: Result<Value, ExprError>) -> Result<i64, FaultKind>
    ensures { result ≡ absolute value }
{
    match value {
        Ok(Value::Absolute(number)) => Ok(number),
        Ok(_) => Err(FaultKind::Form),
        Err(ExprError::Form) => Err(FaultKind::Form),
        Err(ExprError::Unknown) => Err(FaultKind::Undefined),
        Err(ExprError::Range) => Err(FaultKind::Range),
    }
}

fn unless_wide(wide: bool, number: Result<i64, FaultKind>) -> Result<i64, FaultKind>
    ensures { result ≡ unless_wide wide number }
{
    match number {
        Ok(_) if wide => Err(FaultKind::Range),
        number => number,
    }
}

/// What conditions and counts see of a number.
fn fitting(dialect: Dialect, number: Result<i64, FaultKind>) -> Result<i64, FaultKind>
    ensures { result ≡ fitting dialect number }
{
    match number {
        Ok(number) => Ok(fitted_number(dialect, number)),
        Err(kind) => Err(kind),
    }
}

/// The one number that pieces of a text are.
#[tactic(auto, unfolding(crate::specs::Conditions::number_in))]
pub(crate) fn number_in<N: Names>(
    alloc: Global,
    names: &N,
    text: &[u8],
    pieces: &[Piece],
) -> Result<i64, Refusal>
    requires { All (IsPieceOf text.now) pieces.now }
    ensures { Decides same result (number_in (N.meaning names.now) text.now pieces.now) }
{
    if has_bad(pieces) {
        return Err(Refusal::Fault(FaultKind::Token));
    }
    if pieces.is_empty() || comma_in(pieces).is_some() {
        return Err(Refusal::Fault(FaultKind::Count));
    }
    let tokens = tokens_of(alloc, pieces)?;
    let number = absolute(evaluate(text, &tokens, names));
    match unless_wide(has_wide(pieces), fitting(names.dialect(), number)) {
        Ok(number) => Ok(number),
        Err(kind) => Err(Refusal::Fault(kind)),
    }
}

/// Whether a number compares so with 0.
fn comparison_holds(comparison: Comparison, number: i64) -> bool
    ensures { result ≡ comparison_holds (comparison_view comparison) number }
{
    match comparison {
        Comparison::Equal => number == 0,
        Comparison::NotEqual => number != 0,
        Comparison::Greater => number > 0,
        Comparison::Less => number < 0,
        Comparison::GreaterOrEqual => number >= 0,
        Comparison::LessOrEqual => number <= 0,
    }
}

/// The condition of this name.
#[tactic(auto, unfolding(crate::specs::Conditions::condition_named))]
fn condition_named(name: &[u8]) -> Option<Condition>
    ensures { option_map condition_view result ≡ condition_named name.now }
{
    if spells(b"EQ", name) || spells(b"EQUAL", name) {
        Some(Condition::Compares(Comparison::Equal))
    } else if spells(b"NE", name) || spells(b"NOT_EQUAL", name) {
        Some(Condition::Compares(Comparison::NotEqual))
    } else if spells(b"GT", name) || spells(b"GREATER", name) {
        Some(Condition::Compares(Comparison::Greater))
    } else if spells(b"LT", name) || spells(b"LESS_THAN", name) {
        Some(Condition::Compares(Comparison::Less))
    } else if spells(b"GE", name) || spells(b"GREATER_EQUAL", name) {
        Some(Condition::Compares(Comparison::GreaterOrEqual))
    } else if spells(b"LE", name) || spells(b"LESS_EQUAL", name) {
        Some(Condition::Compares(Comparison::LessOrEqual))
    } else if spells(b"DF", name) || spells(b"DEFINED", name) {
        Some(Condition::Defined(true))
    } else if spells(b"NDF", name) || spells(b"NOT_DEFINED", name) {
        Some(Condition::Defined(false))
    } else if spells(b"B", name) || spells(b"BLANK", name) {
        Some(Condition::Blank(true))
    } else if spells(b"NB", name) || spells(b"NOT_BLANK", name) {
        Some(Condition::Blank(false))
    } else if spells(b"IDN", name) || spells(b"IDENTICAL", name) {
        Some(Condition::Identical(true))
    } else if spells(b"DIF", name) || spells(b"DIFFERENT", name) {
        Some(Condition::Identical(false))
    } else {
        None
    }
}

/// Whether a name with this value is defined: an external one is not.
fn is_defined(value: Option<Value>) -> bool
    ensures { result ≡ is_defined value }
{
    matches!(value, Some(Value::Absolute(_) | Value::Section { .. }))
}

/// Whether a test comes out as wanted.
fn as_wanted(wanted: bool, holds: bool) -> bool
    ensures { result ≡ as_wanted wanted holds }
{
    if wanted { holds } else { !holds }
}

/// Whether the one name that pieces of a text are is defined.
#[tactic(auto, using(crate::proofs::Tokens::one_name_fits))]
fn defined_name<N: Names>(
    names: &N,
    wanted: bool,
    text: &[u8],
    pieces: &[Piece],
) -> Result<bool, FaultKind>
    requires { All (IsPieceOf text.now) pieces.now }
    ensures { result ≡ defined_name (N.meaning names.now) wanted text.now pieces.now }
{
    match pieces {
        [piece] => {
            let name = piece_text(text, *piece);
            if !is_name_piece(piece.kind) || !is_name(name) {
                return Err(FaultKind::Form);
            }
            let name = CanonicalName::of(name);
            Ok(as_wanted(wanted, is_defined(names.lookup(name.as_bytes()))))
        }
        _ => Err(FaultKind::Form),
    }
}

/// A condition on a name.
#[tactic(auto, unfolding(crate::specs::Conditions::defined_in))]
fn defined_in<N: Names>(
    names: &N,
    wanted: bool,
    text: &[u8],
    pieces: &[Piece],
) -> Result<bool, FaultKind>
    requires { All (IsPieceOf text.now) pieces.now }
    ensures { result ≡ defined_in (N.meaning names.now) wanted text.now pieces.now }
{
    if has_bad(pieces) {
        return Err(FaultKind::Token);
    }
    if pieces.is_empty() || comma_in(pieces).is_some() {
        return Err(FaultKind::Count);
    }
    defined_name(names, wanted, text, pieces)
}

fn is_blank_text(text: Option<&[u8]>) -> bool
    ensures { result ≡ is_blank_text (lent_view text.entry) }
{
    match text {
        Some(text) => are_blanks(text),
        None => true,
    }
}

/// A condition on a text.
fn blank_arguments(wanted: bool, arguments: Option<&[Argument]>) -> Result<bool, FaultKind>
    ensures { result ≡ blank_arguments wanted (lent_arguments arguments.entry) }
{
    match arguments {
        None => Err(FaultKind::Form),
        Some([]) => Ok(wanted),
        Some([argument]) => Ok(as_wanted(wanted, is_blank_text(argument.text.as_deref()))),
        Some(_) => Err(FaultKind::Count),
    }
}

pub(crate) fn text_of(argument: &Argument) -> &[u8]
    ensures { result.now ≡ unwrap_or (argument_view argument.now).text [] }
{
    match &argument.text {
        Some(text) => text,
        None => &[],
    }
}

/// A condition on two texts.
fn same_arguments(wanted: bool, arguments: Option<&[Argument]>) -> Result<bool, FaultKind>
    ensures { result ≡ same_arguments wanted (lent_arguments arguments.entry) }
{
    match arguments {
        None => Err(FaultKind::Form),
        Some([first, second]) => Ok(as_wanted(wanted, text_of(first) == text_of(second))),
        Some(_) => Err(FaultKind::Count),
    }
}

fn decided(answer: Result<bool, FaultKind>) -> Result<bool, Refusal>
    ensures { Decides same result answer }
{
    match answer {
        Ok(holds) => Ok(holds),
        Err(kind) => Err(Refusal::Fault(kind)),
    }
}

/// A condition on pieces of a text, which are behind its name.
#[tactic(auto, unfolding(crate::specs::Conditions::condition_on))]
fn condition_on<N: Names>(
    alloc: Global,
    names: &N,
    text: &[u8],
    condition: Condition,
    at: usize,
    pieces: &[Piece],
) -> Result<bool, Refusal>
    requires { All (IsPieceOf text.now) pieces.now }
    ensures { Decides same result
        (condition_on (N.meaning names.now) text.now (condition_view condition) at pieces.now) }
{
    match condition {
        Condition::Compares(comparison) => {
            let number = number_in(alloc, names, text, pieces)?;
            Ok(comparison_holds(comparison, number))
        }
        Condition::Defined(wanted) => decided(defined_in(names, wanted, text, pieces)),
        Condition::Blank(wanted) => {
            if has_unprintable(text, pieces) {
                return Err(Refusal::Fault(FaultKind::Token));
            }
            let found = arguments(alloc, false, &NoKeyword, code_from(at, pieces, text))?;
            decided(blank_arguments(wanted, found.as_deref()))
        }
        Condition::Identical(wanted) => {
            if has_unprintable(text, pieces) {
                return Err(Refusal::Fault(FaultKind::Token));
            }
            let found = arguments(alloc, false, &NoKeyword, code_from(at, pieces, text))?;
            decided(same_arguments(wanted, found.as_deref()))
        }
    }
}

/// The fault of a line whose condition has no such name.
fn no_condition(pieces: &[Piece]) -> FaultKind
    ensures { result ≡ no_condition pieces.now }
{
    if has_bad(pieces) {
        FaultKind::Token
    } else {
        FaultKind::Form
    }
}

/// The condition that a piece names.
fn named_condition(text: &[u8], piece: Piece) -> Option<Condition>
    ensures { option_map condition_view result ≡ named_condition text.now piece }
{
    if is_name_piece(piece.kind) {
        condition_named(piece_text(text, piece))
    } else {
        None
    }
}

/// The pieces behind a condition's name that ends at a place, and the place from which they are read.
#[tactic(auto, using(crate::proofs::Tokens::parts))]
pub(crate) fn behind_name(end: u32, pieces: &[Piece]) -> (&[Piece], usize)
    ensures pieces { result.0.now ≡ behind_name end pieces.now }
    ensures place { result.1 ≡ name_end end pieces.now }
    ensures within { (line : List ℕ) →
        All (IsPieceOf line) pieces.now → All (IsPieceOf line) result.0.now }
{
    match pieces.split_first() {
        Some((first, rest)) if is_mark_piece(b',', first.kind) && first.start == end => {
            (rest, first.end as usize)
        }
        _ => (pieces, end as usize),
    }
}

/// Whether the condition holds whose name and operands these pieces are.
#[tactic(auto, using(crate::proofs::Tokens::parts), unfolding(crate::specs::Conditions::condition_in))]
pub(crate) fn condition_in<N: Names>(
    alloc: Global,
    names: &N,
    text: &[u8],
    pieces: &[Piece],
) -> Result<bool, Refusal>
    requires { All (IsPieceOf text.now) pieces.now }
    ensures { Decides same result (condition_in (N.meaning names.now) text.now pieces.now) }
{
    let Some((first, rest)) = pieces.split_first() else {
        return Err(Refusal::Fault(FaultKind::Count));
    };
    let (operands, at) = behind_name(first.end, rest);
    match named_condition(text, *first) {
        Some(condition) => condition_on(alloc, names, text, condition, at, operands),
        None => Err(Refusal::Fault(no_condition(pieces))),
    }
}

/// Where the comma stands in the text behind an argument, which ends at a place.
fn at_comma(end: usize, text: &[u8]) -> Option<usize>
    ensures value { result ≡ at_comma end text.now }
    ensures bound { IfSome result (λ k. k ≤ end) }
{
    let rest = behind_blanks(text);
    if begins_with(b',', rest) {
        Some(end.saturating_sub(rest.len()))
    } else {
        None
    }
}

/// The text from the second of two arguments on.
fn second_argument(text: &[u8]) -> &[u8]
    ensures { result.now ≡ second_argument text.now }
{
    let rest = behind_blanks(text);
    if begins_with(b',', rest) {
        behind_blanks(behind(rest, 1))
    } else {
        rest
    }
}

fn comma_behind(end: usize, found: Option<Taken<'_>>) -> Result<usize, FaultKind>
    ensures value { result ≡ comma_behind end (option_map taken_view found.entry) }
    ensures bound { IfOk result (λ k. k ≤ end) }
{
    let Some(found) = found else {
        return Err(FaultKind::Form);
    };
    match at_comma(end, found.rest) {
        Some(place) => Ok(place),
        None => Err(FaultKind::Count),
    }
}

fn comma_behind_two(end: usize, found: Option<Taken<'_>>) -> Result<usize, FaultKind>
    ensures value { result ≡ comma_behind_two end (option_map taken_view found.entry) }
    ensures bound { IfOk result (λ k. k ≤ end) }
{
    let Some(found) = found else {
        return Err(FaultKind::Form);
    };
    comma_behind(end, take_text(false, second_argument(found.rest)))
}

/// A condition before a comma among the pieces.
#[tactic(auto, using(crate::proofs::Tokens::parts))]
fn guarded_pieces<N: Names>(
    alloc: Global,
    names: &N,
    text: &[u8],
    condition: Condition,
    at: usize,
    pieces: &[Piece],
) -> Result<Guarded, Refusal>
    requires { All (IsPieceOf text.now) pieces.now }
    ensures { Decides guarded_view result
        (guarded_pieces (N.meaning names.now) text.now (condition_view condition) at pieces.now
        (comma_in pieces.now)) }
{
    let Some(comma) = comma_in(pieces) else {
        let kind = if has_bad(pieces) {
            FaultKind::Token
        } else {
            FaultKind::Count
        };
        return Err(Refusal::Fault(kind));
    };
    match condition_on(alloc, names, text, condition, at, &pieces[..comma]) {
        Ok(holds) => Ok(Guarded {
            holds,
            statement: pieces[comma].end as usize,
        }),
        Err(Refusal::Fault(_)) if has_bad(pieces) => Err(Refusal::Fault(FaultKind::Token)),
        Err(refusal) => Err(refusal),
    }
}

/// How many pieces before end by a place.
fn ending_by(place: usize, pieces: &[Piece]) -> usize
    ensures value { result ≡ prefix_len (ends_by place) pieces.now }
    ensures bound { result ≤ length pieces.now }
{
    for (count, piece) in pieces.iter().enumerate() {
        if piece.end as usize > place {
            return count;
        }
    }
    pieces.len()
}

/// A condition before a comma in the text.
#[tactic(auto, using(crate::proofs::Tokens::parts))]
fn guarded_text<N: Names>(
    alloc: Global,
    names: &N,
    text: &[u8],
    condition: Condition,
    at: usize,
    pieces: &[Piece],
    comma: Result<usize, FaultKind>,
) -> Result<Guarded, Refusal>
    requires pieces { All (IsPieceOf text.now) pieces.now }
    requires small { IfOk comma (λ k. k < 2 ^ 63) }
    ensures { Decides guarded_view result
        (guarded_text (N.meaning names.now) text.now (condition_view condition) at pieces.now
        comma) }
{
    match comma {
        Ok(comma) => {
            let part = &pieces[..ending_by(comma, pieces)];
            let holds = condition_on(alloc, names, text, condition, at, part)?;
            Ok(Guarded {
                holds,
                statement: comma + 1,
            })
        }
        Err(kind) => {
            if has_unprintable(text, pieces) {
                return Err(Refusal::Fault(FaultKind::Token));
            }
            Err(Refusal::Fault(kind))
        }
    }
}

/// A condition of an `.IIF`, on pieces that are behind its name.
#[tactic(auto, unfolding(crate::specs::Conditions::guarded_on))]
fn guarded_on<N: Names>(
    alloc: Global,
    names: &N,
    text: &[u8],
    condition: Condition,
    at: usize,
    pieces: &[Piece],
) -> Result<Guarded, Refusal>
    requires { All (IsPieceOf text.now) pieces.now }
    ensures { Decides guarded_view result
        (guarded_on (N.meaning names.now) text.now (condition_view condition) at pieces.now) }
{
    let end = code_end(pieces);
    match condition {
        Condition::Compares(_) | Condition::Defined(_) => {
            guarded_pieces(alloc, names, text, condition, at, pieces)
        }
        Condition::Blank(_) => {
            let first = take_text(false, behind_blanks(code_from(at, pieces, text)));
            guarded_text(
                alloc,
                names,
                text,
                condition,
                at,
                pieces,
                comma_behind(end, first),
            )
        }
        Condition::Identical(_) => {
            let first = take_text(false, behind_blanks(code_from(at, pieces, text)));
            guarded_text(
                alloc,
                names,
                text,
                condition,
                at,
                pieces,
                comma_behind_two(end, first),
            )
        }
    }
}

/// The condition of an `.IIF`, and where its statement begins.
#[tactic(auto, using(crate::proofs::Tokens::parts), unfolding(crate::specs::Conditions::guarded_in))]
pub(crate) fn guarded_in<N: Names>(
    alloc: Global,
    names: &N,
    text: &[u8],
    pieces: &[Piece],
) -> Result<Guarded, Refusal>
    requires { All (IsPieceOf text.now) pieces.now }
    ensures { Decides guarded_view result (guarded_in (N.meaning names.now) text.now pieces.now) }
{
    let Some((first, rest)) = pieces.split_first() else {
        return Err(Refusal::Fault(FaultKind::Count));
    };
    let (operands, at) = behind_name(first.end, rest);
    match named_condition(text, *first) {
        Some(condition) => guarded_on(alloc, names, text, condition, at, operands),
        None => Err(Refusal::Fault(no_condition(pieces))),
    }
}
