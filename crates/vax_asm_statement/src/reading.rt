// The parts of a statement.

ghost use Rattle.std.specs.Prelude.{◌≡◌, ◌<◌, ℕ, List, All, true, length, option_map};
ghost use Rattle.vax_lex.specs.Tokens.{IsTokenOf};
ghost use Rattle.vax_asm_statement.specs.Within.{Within};
ghost use Rattle.vax_asm_statement.specs.Reading.{doubled, behind_marks, headed, operation, parsed, body_seen, statement_seen, head_seen};

use crate::tokens::{is_mark, is_name_token};
use vax_lex::Token;

/// The name before `:`.
#[derive(Clone, Copy, PartialEq, Eq)]
pub struct Label {
    pub name: Token,
    /// Whether `::` makes it a name for other modules.
    pub global: bool,
}

/// What a statement is, behind its label.
#[derive(Clone, Copy)]
pub enum Body<'a> {
    Nothing,
    /// `name = e`, and with `==` for other modules.
    Assignment {
        name: Token,
        global: bool,
        expression: &'a [Token],
    },
    /// An operator and the tokens behind it.
    Operation {
        name: Token,
        operands: &'a [Token],
    },
    /// It begins with no name.
    Malformed,
}

/// A statement.
#[derive(Clone, Copy)]
pub struct Statement<'a> {
    pub label: Option<Label>,
    pub body: Body<'a>,
}

/// A name and a mark, or that mark twice, and what stands behind.
#[derive(Clone, Copy)]
struct Head<'a> {
    name: Token,
    twice: bool,
    rest: &'a [Token],
}

/// Whether the mark stands once more right behind its first.
fn is_doubled(mark: u8, first: Token, tokens: &[Token]) -> bool
    ensures value { result ≡ doubled mark first tokens.now }
    ensures some { result ≡ true → 0 < length tokens.now }
{
    match tokens.first() {
        Some(second) => is_mark(mark, *second) && second.start == first.end,
        None => false,
    }
}

fn behind_marks<'a>(mark: u8, name: Token, first: Token, tokens: &'a [Token]) -> Head<'a>
    ensures { head_seen result ≡ behind_marks mark name first tokens.now }
{
    if is_doubled(mark, first, tokens) {
        Head {
            name,
            twice: true,
            rest: &tokens[1..],
        }
    } else {
        Head {
            name,
            twice: false,
            rest: tokens,
        }
    }
}

/// A name with a mark behind it.
fn headed<'a>(mark: u8, tokens: &'a [Token]) -> Option<Head<'a>>
    ensures { option_map head_seen result ≡ headed mark tokens.now }
{
    match tokens {
        [name, first, rest @ ..] => {
            if is_name_token(*name) && is_mark(mark, *first) {
                Some(behind_marks(mark, *name, *first, rest))
            } else {
                None
            }
        }
        _ => None,
    }
}

fn operation<'a>(tokens: &'a [Token]) -> Body<'a>
    ensures { body_seen result ≡ operation tokens.now }
{
    match tokens {
        [] => Body::Nothing,
        [name, operands @ ..] => {
            if is_name_token(*name) {
                Body::Operation {
                    name: *name,
                    operands,
                }
            } else {
                Body::Malformed
            }
        }
    }
}

/// The parts of a statement: a label before `:` or `::`; an assignment, with `=` or `==`, which has no label; an operator
/// and what stands behind it (VAX MACRO and Instruction Set Reference Manual, "VAX MACRO source statement format").
#[tactic(auto, unfolding(crate::specs::Reading::parsed))]
pub fn read_statement<'a>(tokens: &'a [Token]) -> Statement<'a>
    ensures statement { statement_seen result ≡ parsed tokens.now }
    // Its parts are made of the tokens.
    ensures within { (line : List ℕ) →
        All (IsTokenOf line) tokens.now → Within line (parsed tokens.now) }
{
    if let Some(head) = headed(b':', tokens) {
        let label = Label {
            name: head.name,
            global: head.twice,
        };
        return Statement {
            label: Some(label),
            body: operation(head.rest),
        };
    }
    if let Some(head) = headed(b'=', tokens) {
        let body = Body::Assignment {
            name: head.name,
            global: head.twice,
            expression: head.rest,
        };
        return Statement { label: None, body };
    }
    Statement {
        label: None,
        body: operation(tokens),
    }
}
