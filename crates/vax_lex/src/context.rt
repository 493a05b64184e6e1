// What the tokens so far say of the next one.

ghost use Rattle.std.specs.Prelude.{◌≡◌, ◌<◌, ◌+◌};
ghost use Rattle.vax_lex.specs.Statements.{is_text_directive, operator_of, operand_place, subject_of, argument_place, argument_after, expression_after, condition_after, operand_after, is_size_letter, place_after, before_after, context_after, context_after_blank, line_start, text_due, open_brackets};
ghost use Rattle.vax_lex.specs.Words.{text_start};
ghost use Rattle.vax_lex.specs.Views.{operator_view, subject_view, place_view, before_view, context_view};

use crate::character::{is_delimiter, spells};
use crate::token::TokenKind;
use vax_dialect::Dialect;

/// What an operator is to the scanner.
#[derive(Clone, Copy, PartialEq, Eq)]
pub(crate) enum Operator {
    /// `.ASCII`, `.ASCIC`, `.ASCIZ` or `.ASCID`, whose operands are pieces of text.
    Text,
    /// `.IIF`, behind whose condition a statement stands.
    Conditional,
    /// Any other.
    Plain,
}

/// What a condition is on.
#[derive(Clone, Copy, PartialEq, Eq)]
pub(crate) enum Subject {
    TwoTexts,
    Text,
    /// An expression or a name.
    NoText,
}

/// The part of a statement that is due.
#[derive(Clone, Copy, PartialEq, Eq)]
pub(crate) enum Place {
    /// The statement itself: its label or its operator.
    Statement,
    /// What follows the statement's first name: that name is a label if a colon follows, else the operator.
    FirstName(Operator),
    /// The operator, behind the label.
    AfterLabel,
    /// A piece of text.
    Piece,
    /// The rest of a piece in angle brackets, of which so many are open.
    Bracketed(u32),
    /// The name of a condition.
    Condition,
    /// What stands right behind that name: a blank, a comma that touches it, or the argument.
    ConditionEnd(Subject),
    /// The rest of a condition's expression or name, in so many open brackets.
    Expression(u32),
    /// The rest of a condition's argument that is any text.
    Argument {
        /// No other argument follows.
        last: bool,
        /// Something of it stands before.
        begun: bool,
        /// So many of the brackets round it are open.
        depth: u32,
    },
    /// The second of two such arguments, or a comma before it: a blank ended the first.
    BetweenArguments,
    /// Operands.
    Operands,
}

/// What stands right before a place of the line, as far as it matters there.
#[derive(Clone, Copy, PartialEq, Eq)]
pub(crate) enum Before {
    /// Nothing of this.
    Other,
    /// The name `B`, `W`, `L`, `G`, `S` or `I`, behind which a `^` belongs to the operand.
    SizeLetter,
    /// A `^` whose letter follows.
    Caret,
    /// `^A`, perhaps with blanks behind it.
    TextSign,
    /// The first colon of a label.
    Colon,
}

/// Where in its statement a place of the line is, and what stands before it.
#[derive(Clone, Copy, PartialEq, Eq)]
pub(crate) struct Context {
    pub(crate) place: Place,
    pub(crate) before: Before,
}

/// Whether the operands of the directive of this name are pieces of text.
fn is_text_directive(dialect: Dialect, name: &[u8]) -> bool
    ensures { result ≡ is_text_directive dialect name.now }
{
    spells(b".ASCII", name)
        || spells(b".ASCIC", name)
        || spells(b".ASCIZ", name)
        || spells(b".ASCID", name) && dialect.has_text_descriptors()
}

/// What the operator of this name is.
fn operator_of(dialect: Dialect, name: &[u8]) -> Operator
    ensures { operator_view result ≡ operator_of dialect name.now }
{
    if is_text_directive(dialect, name) {
        Operator::Text
    } else if spells(b".IIF", name) {
        Operator::Conditional
    } else {
        Operator::Plain
    }
}

/// What is due behind an operator.
fn operand_place(operator: Operator) -> Place
    ensures { place_view result ≡ operand_place (operator_view operator) }
{
    match operator {
        Operator::Text => Place::Piece,
        Operator::Conditional => Place::Condition,
        Operator::Plain => Place::Operands,
    }
}

/// What the condition of this name is on.
fn subject_of(name: &[u8]) -> Subject
    ensures { subject_view result ≡ subject_of name.now }
{
    let two_texts = spells(b"IDN", name)
        || spells(b"DIF", name)
        || spells(b"IDENTICAL", name)
        || spells(b"DIFFERENT", name);
    let one_text = spells(b"B", name)
        || spells(b"NB", name)
        || spells(b"BLANK", name)
        || spells(b"NOT_BLANK", name);
    if two_texts {
        Subject::TwoTexts
    } else if one_text {
        Subject::Text
    } else {
        Subject::NoText
    }
}

/// What is due behind the name of a condition and what parts it from its argument.
fn argument_place(subject: Subject) -> Place
    ensures { place_view result ≡ argument_place (subject_view subject) }
{
    match subject {
        Subject::TwoTexts => Place::Argument {
            last: false,
            begun: false,
            depth: 0,
        },
        Subject::Text => Place::Argument {
            last: true,
            begun: false,
            depth: 0,
        },
        Subject::NoText => Place::Expression(0),
    }
}

/// What is due after a token of a condition's argument.
fn argument_after(last: bool, begun: bool, depth: u32, kind: TokenKind) -> Place
    requires { depth < 4096 }
    ensures { place_view result ≡ argument_after last begun depth kind }
{
    let depth = match kind {
        TokenKind::Mark(b',') if depth == 0 => {
            return if last {
                Place::Statement
            } else {
                Place::Argument {
                    last: true,
                    begun: false,
                    depth: 0,
                }
            };
        }
        TokenKind::Mark(b'<') if depth > 0 || !begun => depth + 1,
        TokenKind::Mark(b'>') if depth > 0 => depth - 1,
        _ => depth,
    };
    Place::Argument {
        last,
        begun: true,
        depth,
    }
}

/// What is due after a token of a condition's expression or name.
fn expression_after(depth: u32, kind: TokenKind) -> Place
    requires { depth < 4096 }
    ensures { place_view result ≡ expression_after depth kind }
{
    match kind {
        TokenKind::Mark(b'<') => Place::Expression(depth + 1),
        TokenKind::Mark(b'>') => Place::Expression(depth.saturating_sub(1)),
        TokenKind::Mark(b',') if depth == 0 => Place::Statement,
        _ => Place::Expression(depth),
    }
}

/// What is due after a token right behind the name of a condition.
fn condition_after(subject: Subject, kind: TokenKind) -> Place
    ensures { place_view result ≡ condition_after (subject_view subject) kind }
{
    match (subject, kind) {
        (_, TokenKind::Mark(b',')) => argument_place(subject),
        (Subject::TwoTexts, _) => argument_after(false, false, 0, kind),
        (Subject::Text, _) => argument_after(true, false, 0, kind),
        (Subject::NoText, _) => expression_after(0, kind),
    }
}

/// What is due after a token of the operands.
fn operand_after(place: Place, kind: TokenKind, text: &[u8]) -> Place
    requires { open_brackets (place_view place) < 4096 }
    ensures { place_view result ≡ operand_after (place_view place) kind text.now }
{
    match place {
        Place::Piece => match kind {
            TokenKind::Text => Place::Piece,
            TokenKind::Mark(b'<') => Place::Bracketed(1),
            _ => Place::Operands,
        },
        Place::Bracketed(depth) => match kind {
            TokenKind::Mark(b'<') => Place::Bracketed(depth + 1),
            TokenKind::Mark(b'>') if depth <= 1 => Place::Piece,
            TokenKind::Mark(b'>') => Place::Bracketed(depth - 1),
            _ => place,
        },
        Place::Condition => match kind {
            TokenKind::Name => Place::ConditionEnd(subject_of(text)),
            _ => Place::Operands,
        },
        Place::ConditionEnd(subject) => condition_after(subject, kind),
        Place::Expression(depth) => expression_after(depth, kind),
        Place::Argument { last, begun, depth } => argument_after(last, begun, depth, kind),
        Place::BetweenArguments => match kind {
            TokenKind::Mark(b',') => Place::Argument {
                last: true,
                begun: false,
                depth: 0,
            },
            _ => argument_after(true, false, 0, kind),
        },
        _ => Place::Operands,
    }
}

/// Whether a `^` right behind this name belongs to the operand.
fn is_size_letter(name: &[u8]) -> bool
    ensures { result ≡ is_size_letter name.now }
{
    spells(b"B", name)
        || spells(b"W", name)
        || spells(b"L", name)
        || spells(b"G", name)
        || spells(b"S", name)
        || spells(b"I", name)
}

impl Context {
    /// The start of a line.
    pub(crate) fn line_start() -> Context
        ensures { context_view result ≡ line_start }
    {
        Context {
            place: Place::Statement,
            before: Before::Other,
        }
    }

    /// The start of a text that is no statement.
    pub(crate) fn text_start() -> Context
        ensures { context_view result ≡ text_start }
    {
        Context {
            place: Place::Operands,
            before: Before::Other,
        }
    }

    /// The context after a token.
    pub(crate) fn after(self, dialect: Dialect, kind: TokenKind, text: &[u8]) -> Context
        requires { open_brackets (place_view self.place) < 4096 }
        ensures { context_view result ≡ context_after dialect (context_view self) kind text.now }
    {
        Context {
            place: self.place_after(dialect, kind, text),
            before: self.before_after(kind, text),
        }
    }

    fn place_after(self, dialect: Dialect, kind: TokenKind, text: &[u8]) -> Place
        requires { open_brackets (place_view self.place) < 4096 }
        ensures { place_view result ≡ place_after dialect (context_view self) kind text.now }
    {
        match (self.place, kind) {
            (Place::Statement, TokenKind::Name) => Place::FirstName(operator_of(dialect, text)),
            (Place::Statement, _) => Place::Operands,
            (Place::FirstName(_), TokenKind::Mark(b':')) => Place::AfterLabel,
            (Place::FirstName(operator), _) => operand_after(operand_place(operator), kind, text),
            (Place::AfterLabel, TokenKind::Name) => operand_place(operator_of(dialect, text)),
            (Place::AfterLabel, TokenKind::Mark(b':')) if self.before == Before::Colon =>
                Place::AfterLabel,
            (Place::AfterLabel, _) => Place::Operands,
            (place, _) => operand_after(place, kind, text),
        }
    }

    fn before_after(self, kind: TokenKind, text: &[u8]) -> Before
        ensures { before_view result ≡ before_after (context_view self) kind text.now }
    {
        match kind {
            TokenKind::Name if self.before == Before::Caret => {
                if spells(b"A", text) {
                    Before::TextSign
                } else {
                    Before::Other
                }
            }
            TokenKind::Name if is_size_letter(text) => Before::SizeLetter,
            TokenKind::Mark(b'^') if self.before != Before::SizeLetter => Before::Caret,
            TokenKind::Mark(b':') => match self.place {
                Place::FirstName(_) => Before::Colon,
                _ => Before::Other,
            },
            _ => Before::Other,
        }
    }

    /// The context after a blank.
    pub(crate) fn after_blank(self) -> Context
        ensures { context_view result ≡ context_after_blank (context_view self) }
    {
        let place = match self.place {
            Place::Argument {
                last: false,
                begun: true,
                depth: 0,
            } => Place::BetweenArguments,
            Place::ConditionEnd(subject) => argument_place(subject),
            place => place,
        };
        let before = match self.before {
            Before::TextSign => Before::TextSign,
            _ => Before::Other,
        };
        Context { place, before }
    }

    /// Whether a quoted text begins with this byte.
    pub(crate) fn text_due(self, byte: u8) -> bool
        ensures { result ≡ text_due (context_view self) byte }
    {
        let due = match self.place {
            Place::Piece => true,
            Place::FirstName(Operator::Text) => byte != b':',
            _ => false,
        };
        is_delimiter(byte) && (self.before == Before::TextSign || due)
    }
}
