// What is open before a term: signs and brackets, one in another.

ghost use Rattle.std.specs.Prelude.{◌≡◌, ◌<◌, [], ◌∷◌, All, MatchOption, OnSome, length};
ghost use Rattle.vax_lex.specs.Grammar.{symbols_of};
ghost use Rattle.vax_lex.specs.Nesting.{Closes, applied, innermost_first, is_bracket};
ghost use Rattle.vax_lex.specs.Reading.{ReadsTerm};
ghost use Rattle.vax_lex.specs.Tokens.{IsTokenOf};

use crate::expression::{Read, Start, begun, is_mark_at, operator_at};
use crate::token::Token;
use crate::value::{Binary, Names, Outcome, combined, complement_of, minus_of};
use arrayvec::ArrayVec;
use vax_dialect::Dialect;

/// A sign before a term, or a bracket that the term is in.
#[derive(Clone, Copy, Default)]
pub(crate) enum Open {
    /// `+`.
    #[default]
    Plus,
    /// `-`.
    Minus,
    /// `^C`.
    Complement,
    /// `<`, with nothing between it and the term.
    Bracket,
    /// `<`, with terms of this value and an operator between it and the term.
    Operator(Outcome, Binary),
}

/// What is open before a term, the outermost first.
type Opened = ArrayVec<Open, 16>;

/// What follows a term.
#[derive(Clone, Copy)]
enum Closed {
    /// An operator in a bracket, and the term that begins at this place.
    Next(usize),
    /// The end of all that was open: the whole has been read.
    Whole(Read),
    /// Neither an operator nor the end of the bracket.
    Nothing,
}

/// Opens one more, inside the others.
fn push(stack: &mut Opened, opening: Open)
    requires { length (innermost_first stack.old) < 16 }
    ensures { innermost_first stack.new ≡ opening ∷ innermost_first stack.old }
{
    stack.push(opening);
}

/// Closes the innermost, if anything is open.
fn pop(stack: &mut Opened) -> Option<Open>
    ensures last { MatchOption result (innermost_first stack.old ≡ [])
        (λ opening. innermost_first stack.old ≡ opening ∷ innermost_first stack.new) }
    ensures room { OnSome result (length (innermost_first stack.new) < 16) }
{
    let _room = stack.len();
    stack.pop()
}

/// Whether this is a bracket.
fn is_bracket(opening: Open) -> bool
    ensures { result ≡ is_bracket opening }
{
    match opening {
        Open::Plus | Open::Minus | Open::Complement => false,
        Open::Bracket | Open::Operator(_, _) => true,
    }
}

/// What a term gives with what is open before it: its value with the sign, or that of the terms in the bracket so far.
fn applied(dialect: Dialect, opening: Open, term: Outcome) -> Outcome
    ensures { result ≡ applied dialect opening term }
{
    match opening {
        Open::Plus | Open::Bracket => term,
        Open::Minus => minus_of(dialect, term),
        Open::Complement => complement_of(dialect, term),
        Open::Operator(left, operator) => combined(dialect, operator, left, term),
    }
}

/// Closes what ends with a term, from the innermost on, up to an operator that joins another term.
fn close<N: Names>(tokens: &[Token], names: &N, stack: &mut Opened, mut read: Read) -> Closed
    ensures { Closes (N.meaning names.now) tokens.now (innermost_first stack.old) read
        (innermost_first stack.new) result }
{
    while let Some(opening) = pop(stack) {
        let answer = applied(names.dialect(), opening, read.answer);
        let end = read.end;
        if !is_bracket(opening) {
            read = Read { answer, end };
        } else if let Some(operator) = operator_at(tokens, end) {
            push(stack, Open::Operator(answer, operator));
            return Closed::Next(end + 1);
        } else if is_mark_at(tokens, end, b'>') {
            read = Read {
                answer,
                end: end + 1,
            };
        } else {
            return Closed::Nothing;
        }
    }
    Closed::Whole(read)
}

/// The term that begins at a place with signs or brackets. It calls itself only inside 16 of them.
pub(crate) fn nested<N: Names>(line: &[u8], tokens: &[Token], names: &N, at: usize) -> Option<Read>
    requires { All (IsTokenOf line.now) tokens.now }
    ensures { ReadsTerm (N.meaning names.now) (symbols_of line.now tokens.now) at result }
{
    let mut stack = ArrayVec::new();
    let mut place = at;
    loop {
        let term = match begun(line, tokens, names, place) {
            Start::Opens(opening, next) => {
                if !stack.is_full() {
                    push(&mut stack, opening);
                    place = next;
                    continue;
                }
                nested(line, tokens, names, place)
            }
            Start::Whole(term) => term,
        };
        let Some(read) = term else {
            return None;
        };
        match close(tokens, names, &mut stack, read) {
            Closed::Next(next) => place = next,
            Closed::Whole(whole) => return Some(whole),
            Closed::Nothing => return None,
        }
    }
}
