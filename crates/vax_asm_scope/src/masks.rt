// Masks of entries.

ghost use Rattle.std.specs.Prelude.{◌≡◌, ◌++◌, ◌∷◌, [], IfOk, OnOk, map};
ghost use Rattle.vax_lex.specs.Characters.{canonical_name};
ghost use Rattle.vax_lex.specs.Tokens.{IsTokenOf, token_text};
ghost use Rattle.vax_lex.specs.declared.token.TokenKind.TheVariants.{Name};
ghost use Rattle.vax_asm_scope.specs.Masks.{or_at, with_mask};
ghost use Rattle.vax_asm_values.specs.View.{meaning_of};

use crate::place::kept_text;
use crate::scope::Scope;
use std::alloc::Global;
use std::rc::Rc;
use vax_asm_names::LabelError;
use vax_asm_values::Meaning;
use vax_lex::{Token, TokenKind, Value};
use vax_space::NoMemory;

/// The number of the block that has the masks.
const MASKS: usize = 0;

/// The same line, which is shared.
pub(crate) fn shared(line: &Rc<Vec<u8>>) -> Result<Rc<Vec<u8>>, NoMemory>
    ensures { IfOk result (λ l. l.value.items ≡ line.now.value.items) }
{
    Rc::clone(line).map_err(|_| NoMemory)
}

/// The operator `!` in the place of a token.
fn or_at(token: Token) -> Token
    ensures { result ≡ or_at token }
{
    Token {
        kind: TokenKind::Mark(b'!'),
        start: token.start,
        end: token.end,
    }
}

/// A mask alone, or OR-ed with an expression. The token `key` stands for it.
pub(crate) fn masked_tokens(
    alloc: Global,
    tokens: &[Token],
    key: Token,
) -> Result<Vec<Token>, NoMemory>
    ensures { IfOk result (λ v. v.items ≡ with_mask tokens.now key) }
{
    let mut own = tokens.to_vec(alloc).map_err(|_| NoMemory)?;
    if let [_, ..] = tokens {
        own.push(or_at(key)).map_err(|_| NoMemory)?;
    }
    own.push(key).map_err(|_| NoMemory)?;
    Ok(own)
}

/// One more name, which the token `key` is, means a definition.
#[tactic(auto, using(crate::proofs::Masking::meaning_more))]
pub(crate) fn add_meaning(
    alloc: Global,
    names: &mut Vec<Meaning>,
    line: &[u8],
    key: Token,
    definition: usize,
) -> Result<(), NoMemory>
    requires within { IsTokenOf line.now key }
    requires kind { key.kind ≡ Name }
    ensures { OnOk result (map meaning_of names.new.items ≡ map meaning_of names.old.items
        ++ record { name = canonical_name (token_text line.now key); definition = definition }
        ∷ []) }
{
    let text = kept_text(line, key);
    let name = text.as_bytes().to_vec(alloc).map_err(|_| NoMemory)?;
    names
        .push(Meaning { name, definition })
        .map_err(|_| NoMemory)?;
    Ok(())
}

#[tactic(auto, unfolding(crate::specs::Kept::marked_scope))]
impl Scope {
    ghost use Rattle.vax_asm_scope.specs.Kept.{scope_of, KeepsMark};
    ghost use Rattle.vax_asm_scope.specs.Masks.{mask_labelled, mask_meant};
    ghost use Rattle.vax_asm_scope.specs.View.{Defines};

    /// The entry with this name has a mask.
    ///
    /// [`LabelError::Duplicate`] where it has one already, [`LabelError::NoMemory`] where memory is refused. Nothing of use is left then.
    pub fn label_mask(&mut self, alloc: Global, entry: &[u8], mask: Value) -> Result<(), LabelError>
        ensures scope { Defines result
            (scope_of self.new) (mask_labelled entry.now mask (scope_of self.old)) }
        ensures mark { KeepsMark self.old self.new }
    {
        let block = self.block();
        self.resume_block(alloc, MASKS);
        self.label_local(alloc, entry, mask)?;
        self.resume_block(alloc, block);
        Ok(())
    }

    /// The number of the definition that is the mask of the entry with this name. It may be to come.
    pub fn mask(&mut self, alloc: Global, entry: &[u8]) -> Result<usize, NoMemory>
        ensures definition { IfOk result
            (λ d. d ≡ (mask_meant entry.now (scope_of self.old)).definition) }
        ensures scope { OnOk result
            (scope_of self.new ≡ (mask_meant entry.now (scope_of self.old)).scope) }
        ensures mark { KeepsMark self.old self.new }
    {
        let block = self.block();
        self.resume_block(alloc, MASKS);
        let definition = self.local_definition(alloc, entry)?;
        self.resume_block(alloc, block);
        Ok(definition)
    }
}
