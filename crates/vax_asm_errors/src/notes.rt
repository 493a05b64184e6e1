// The messages that a source gives, as text.

ghost use Rattle.std.specs.Prelude.{◌≡◌, ◌++◌, All, IfOk, OnOk, map};
ghost use Rattle.std.specs.List.{flat_map};
ghost use Rattle.vax_asm_check.specs.Messages.{messages as messages_given};
ghost use Rattle.vax_asm_check.specs.View.{message_seen};
ghost use Rattle.vax_asm_errors.specs.Errors.{IsPlain};
ghost use Rattle.vax_asm_errors.specs.Notes.{note, note_words, own_words, tone_words};
ghost use Rattle.vax_prelude.specs.View.{title_seen};

use crate::errors::{Source, push, push_mark, push_note, push_number};
use crate::line::line_at;
use crate::said::{Said, said_of_seen};
use crate::walk::Seen;
use std::alloc::Global;
use vax_asm::FaultKind;
use vax_asm_check::{Message, Tone, messages};
use vax_asm_second::Fault;
use vax_prelude::told_in;
use vax_space::NoMemory;

/// A message that a source gives, as it is told.
#[derive(Drop)]
pub struct Noted {
    pub message: Message,
    pub said: Said,
}

/// How a message is meant, in words.
#[tactic(auto, unfolding(crate::specs::Notes::tone_words))]
fn tone_words(tone: Tone) -> &'static [u8]
    ensures { result.now ≡ tone_words tone }
{
    match tone {
        Tone::Note => b": note: ",
        Tone::Warning => b": warning: ",
    }
}

/// What is told of a message without words.
#[tactic(auto, unfolding(crate::specs::Notes::own_words))]
fn own_words(tone: Tone) -> &'static [u8]
    ensures { result.now ≡ own_words tone }
{
    match tone {
        Tone::Note => b"the source gives a message here",
        Tone::Warning => b"the source gives a warning here",
    }
}

/// Appends what a message says.
fn push_words(out: &mut Vec<u8>, tone: Tone, words: &[u8]) -> Result<(), NoMemory>
    ensures { OnOk result (out.new.items ≡ out.old.items ++ note_words tone words.now) }
{
    if words.is_empty() {
        return push(out, own_words(tone));
    }
    push(out, words)
}

/// Appends a message.
#[tactic(auto, unfolding(crate::specs::Notes::note))]
fn push_message(out: &mut Vec<u8>, source: Source<'_>, one: &Noted) -> Result<(), NoMemory>
    ensures { OnOk result (out.new.items
        ≡ out.old.items ++ note (title_seen source.entry.title) source.entry.text.now one.now) }
{
    let line = one.message.origin.line;
    let (name, number) = told_in(source.title, line as usize);
    push(out, name)?;
    push(out, b":")?;
    push_number(out, number as u64)?;
    push(out, b":")?;
    push_number(out, u64::from(one.said.column) + 1)?;
    push(out, tone_words(one.message.tone))?;
    push_words(out, one.message.tone, &one.said.cause)?;
    push(out, b"\n")?;
    push_mark(out, line_at(source.text, line as usize), one.said.column)?;
    push_note(out, source.title, line, &one.said.expansion)
}

/// Appends messages.
#[tactic(auto, using(crate::proofs::Listing::error_added, crate::proofs::Listing::errors_added))]
pub(crate) fn push_messages(
    out: &mut Vec<u8>,
    source: Source<'_>,
    all: &[Noted],
) -> Result<(), NoMemory>
    ensures { OnOk result (out.new.items ≡ out.old.items
        ++ flat_map (note (title_seen source.entry.title) source.entry.text.now) all.now) }
{
    for one in all {
        push_message(out, source, one)?;
    }
    Ok(())
}

/// A message as it is told.
fn one_noted(alloc: Global, source: Source<'_>, message: Message) -> Result<Noted, NoMemory>
    ensures message { IfOk result (λ n. message_seen n.message ≡ message_seen message) }
    ensures plain { IfOk result (λ n. IsPlain n.said) }
{
    let Message { tone, origin, text } = message;
    let fault = Fault {
        origin,
        kind: FaultKind::Message,
    };
    let seen = Seen::of(alloc, text);
    let said = said_of_seen(alloc, source, &[], &seen, fault)?;
    let Seen { text, .. } = seen;
    let message = Message { tone, origin, text };
    Ok(Noted { message, said })
}

/// The messages that a source gives, as they are told.
pub(crate) fn notes_of(alloc: Global, source: Source<'_>) -> Result<Vec<Noted>, NoMemory>
    ensures told { IfOk result (λ v. map (λ n. message_seen n.message) v.items
        ≡ messages_given source.entry.dialect source.entry.text.now) }
    ensures plain { IfOk result (λ v. All (λ n. IsPlain n.said) v.items) }
{
    let found = messages(alloc, source.dialect, source.text)?;
    let mut all = Vec::new(alloc);
    for message in found {
        let one = one_noted(alloc, source, message)?;
        all.push(one).map_err(|_| NoMemory)?;
    }
    Ok(all)
}
