// The names of a text, wherever they stand.

ghost use Rattle.std.specs.Prelude.{◌≡◌, ◌<◌, ◌+◌, ◌≤◌, ◌++◌, List, length, IfOk, OnOk};
ghost use Rattle.vax_lex.specs.Statements.{open_brackets};
ghost use Rattle.vax_lex.specs.Words.{word, with_name, names_of};
ghost use Rattle.vax_lex.specs.Named.{HasNames};
ghost use Rattle.vax_lex.specs.Views.{context_view, place_view};
ghost use Rattle.vax_lex.specs.WordViews.{word_view};
ghost use Rattle.vax_lex.specs.declared.token.Span.{Span};

use crate::context::Context;
use crate::head::{Head, stray_kind, word_of};
use crate::token::{Span, TokenKind};
use std::alloc::{AllocError, Global};
use vax_dialect::Dialect;

/// A word of a text: its length, whether it is a name, and the context behind it.
#[derive(Clone, Copy)]
pub(crate) struct Word {
    pub(crate) length: usize,
    pub(crate) is_name: bool,
    pub(crate) context: Context,
}

/// The word that these bytes begin with.
#[tactic(auto, using(crate::proofs::Heads::word_fits_is, crate::proofs::Depth::depth_after, crate::proofs::Depth::depth_after_blank))]
fn next_word(context: Context, bytes: &[u8]) -> Word
    requires short { length bytes.now ≤ 1024 }
    requires some { 0 < length bytes.now }
    requires brackets { open_brackets (place_view context.place) < 4096 }
    ensures exact { word_view result ≡ word (context_view context) bytes.now }
    ensures room { result.length ≤ length bytes.now }
    ensures goes { 0 < result.length }
    ensures depth { open_brackets (place_view result.context.place)
        ≤ open_brackets (place_view context.place) + 1 }
{
    match word_of(context, bytes) {
        Head::Blank => Word {
            length: 1,
            is_name: false,
            context: context.after_blank(),
        },
        Head::Begins(kind, length) => Word {
            length,
            is_name: matches!(kind, TokenKind::Name),
            context: context.after(Dialect::Vax, kind, &bytes[..length]),
        },
        Head::Wide(length) => Word {
            length,
            is_name: false,
            context: context.after(Dialect::Vax, TokenKind::Number(0), &bytes[..length]),
        },
        Head::End | Head::Nothing => Word {
            length: 1,
            is_name: false,
            context: context.after(Dialect::Vax, stray_kind(bytes[0]), &bytes[..1]),
        },
    }
}

/// Adds the span of a name.
fn add(names: &mut Vec<Span>, word: Word, at: usize) -> Result<(), AllocError>
    requires { at + word.length ≤ 1024 }
    ensures { OnOk result ((spans : List Span)
        → names.new.items ++ spans ≡ names.old.items ++ with_name (word_view word) at spans) }
{
    if word.is_name {
        names.push(Span {
            start: at as u32,
            end: (at + word.length) as u32,
        })?;
    }
    Ok(())
}

/// The names of a text of at most 1,024 bytes: where they stand, in order. A quoted text and a comment are searched too.
pub fn names(alloc: Global, text: &[u8]) -> Result<Vec<Span>, AllocError>
    requires { length text.now ≤ 1024 }
    // They are those of the definition.
    ensures exact { IfOk result (λ v. v.items ≡ names_of text.now) }
    // The text has these names in the language.
    ensures found { IfOk result (λ v. HasNames text.now v.items) }
    // It has no others.
    ensures only { IfOk result
        (λ v. (spans : List Span) → HasNames text.now spans → spans ≡ v.items) }
{
    let mut names = Vec::new(alloc);
    let mut context = Context::text_start();
    let mut at: usize = 0;
    while at < text.len() {
        let word = next_word(context, &text[at..]);
        add(&mut names, word, at)?;
        context = word.context;
        at += word.length;
    }
    Ok(names)
}
