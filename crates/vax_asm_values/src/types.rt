// Expressions whose names mean definitions.

ghost use Rattle.std.specs.Prelude.{◌≡◌, All, map};
ghost use Rattle.vax_lex.specs.Grammar.{symbols_of};
ghost use Rattle.vax_lex.specs.Tokens.{IsTokenOf};
ghost use Rattle.vax_asm_values.specs.TokenProps.{tokens_prop};

use crate::journal::Journal;
use std::rc::Rc;
use vax_dialect::Dialect;
use vax_lex::{Token, Value};

/// What a name means in an expression: the definition with this number.
#[derive(Drop)]
pub struct Meaning {
    /// The name as it is kept: in capitals, and a local label without zeros before its number.
    pub name: Vec<u8>,
    pub definition: usize,
}

/// An expression of a dialect: tokens of a text, which other expressions share, and what the names in it mean. A name that
/// isn't among them means nothing.
#[derive(Drop)]
pub struct Expression {
    pub(crate) dialect: Dialect,
    pub(crate) text: Rc<Vec<u8>>,
    pub(crate) tokens: Vec<Token>,
    pub(crate) names: Vec<Meaning>,
    ghost own: { All (IsTokenOf text.value.items) tokens.items } by { tokens_prop
        text.value.items tokens.items },
}

impl Expression {
    ghost use Rattle.vax_asm_values.specs.View.{meaning_of, written_of};

    /// These tokens of a text in a dialect, with what the names in them mean.
    pub fn new(
        dialect: Dialect,
        text: Rc<Vec<u8>>,
        tokens: Vec<Token>,
        names: Vec<Meaning>,
    ) -> Expression
        requires { All (IsTokenOf text.value.items) tokens.items }
        ensures { written_of result ≡ record {
          dialect = dialect;
          symbols = symbols_of text.value.items tokens.items;
          names = map meaning_of names.items;
        } }
    {
        Expression {
            dialect,
            text,
            tokens,
            names,
        }
    }

    /// The names in it, with what they mean.
    pub fn names(&self) -> &[Meaning]
        ensures { map meaning_of result.now ≡ (written_of self.now).names }
    {
        &self.names
    }
}

/// A definition.
#[derive(Drop)]
pub(crate) enum Source {
    ToCome,
    Given(Value),
    Worked(Expression),
}

/// Definitions, their values so far, for each the definitions that have it in their expressions, and the changes since the
/// mark.
#[derive(Drop)]
pub(crate) struct Board {
    pub(crate) sources: Vec<Source>,
    pub(crate) values: Vec<Option<Value>>,
    pub(crate) waiting: Vec<Vec<usize>>,
    pub(crate) journal: Journal,
}
