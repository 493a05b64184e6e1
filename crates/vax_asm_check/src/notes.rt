// The messages that a source gives.

ghost use Rattle.std.specs.Prelude.{◌≡◌, ◌≤◌, ◌+◌, ◌++◌, [], IfOk, OnOk, length, map, option_map};
ghost use Rattle.std.specs.List.{cons_option};
ghost use Rattle.vax_asm_check.specs.Faultless.{said_at};
ghost use Rattle.vax_asm_check.specs.Messages.{message_in, messages, tone_by, tone_named, tone_of};
ghost use Rattle.vax_asm_check.specs.View.{IsKept, StandsOn, TellsOn, message_seen};
ghost use Rattle.vax_macro.specs.Heads.{head_in};

use crate::operators::{operator_of, piece_text};
use crate::survey::{Survey, is_ended};
use std::alloc::Global;
use vax_asm_first::Origin;
use vax_asm_scope::KnownNames;
use vax_dialect::Dialect;
use vax_lex::{Piece, pieces, spells};
use vax_macro::{Expander, Line, MacroError};
use vax_space::NoMemory;

/// So many messages of a source are told at most.
const MOST: usize = 100;

/// How a message is meant.
#[derive(Clone, Copy, PartialEq, Eq)]
pub enum Tone {
    /// `.PRINT`.
    Note,
    /// `.WARN`.
    Warning,
}

/// A message that a source gives: how it is meant, where its statement stands, and the text of that.
#[derive(Drop)]
pub struct Message {
    pub tone: Tone,
    pub origin: Origin,
    pub text: Vec<u8>,
}

/// How the messages of a directive with this name are meant.
#[tactic(auto, unfolding(crate::specs::Messages::tone_named))]
fn tone_named(name: &[u8]) -> Option<Tone>
    ensures { result ≡ tone_named name.now }
{
    if spells(b".WARN", name) {
        Some(Tone::Warning)
    } else if spells(b".PRINT", name) {
        Some(Tone::Note)
    } else {
        None
    }
}

/// How the message is meant that a statement of this text and these pieces is, if it is one.
fn tone_by(text: &[u8], pieces: &[Piece]) -> Option<Tone>
    ensures { result ≡ tone_by text.now (head_in pieces.now).operator }
{
    let operator = operator_of(pieces)?;
    tone_named(piece_text(text, operator))
}

/// How the message is meant that a statement is in a dialect, if it is one.
fn tone_of(alloc: Global, dialect: Dialect, said: &Line) -> Result<Option<Tone>, NoMemory>
    ensures { IfOk result (λ o. o ≡ tone_of dialect said.now.text.items) }
{
    if said.dialect == dialect {
        return Ok(tone_by(&said.text, &said.pieces));
    }
    let cut = pieces(alloc, dialect, &said.text).map_err(|_| NoMemory)?;
    Ok(tone_by(&said.text, &cut))
}

/// The message that a statement is in a dialect, if it is one.
fn message_of(
    alloc: Global,
    dialect: Dialect,
    origin: Origin,
    said: &Line,
) -> Result<Option<Message>, NoMemory>
    ensures { IfOk result (λ o. option_map message_seen o
        ≡ message_in dialect (said_at origin said.now.text.items)) }
{
    let Some(tone) = tone_of(alloc, dialect, said)? else {
        return Ok(None);
    };
    let text = said.text.to_vec(alloc).map_err(|_| NoMemory)?;
    Ok(Some(Message { tone, origin, text }))
}

/// Carries out a statement, unless its line has ended, and tells whether it has no fault.
fn stands(alloc: Global, survey: &mut Survey, origin: Origin, said: Line) -> Result<bool, NoMemory>
    requires { IsKept survey.old }
    ensures stands { IfOk result
        (λ stands. StandsOn origin said.text.items stands survey.old survey.new) }
    ensures kept { OnOk result (IsKept survey.new) }
{
    let goes = !is_ended(survey.ended, origin.place);
    let before = survey.faults.len();
    survey.state(alloc, origin, said)?;
    Ok(goes && survey.faults.len() == before)
}

/// Adds a message, if there is one.
fn add(all: &mut Vec<Message>, message: Option<Message>) -> Result<(), NoMemory>
    ensures { OnOk result (all.new.items ≡ all.old.items ++ cons_option message []) }
{
    let Some(message) = message else {
        return Ok(());
    };
    all.push(message).map_err(|_| NoMemory)?;
    Ok(())
}

/// Carries out a statement, and adds the message that it is, if it has no fault.
fn state(
    alloc: Global,
    dialect: Dialect,
    survey: &mut Survey,
    all: &mut Vec<Message>,
    origin: Origin,
    said: Line,
) -> Result<(), NoMemory>
    requires { IsKept survey.old }
    ensures tells { OnOk result (TellsOn dialect origin said.text.items survey.old survey.new
        (map message_seen all.old.items) (map message_seen all.new.items)) }
    ensures few { OnOk result (length all.new.items ≤ length all.old.items + 1) }
    ensures kept { OnOk result (IsKept survey.new) }
{
    let message = message_of(alloc, dialect, origin, &said)?;
    if stands(alloc, survey, origin, said)? {
        add(all, message)?;
    }
    Ok(())
}

/// The first hundred messages that a source in a dialect of MACRO-32 gives by `.PRINT` and `.WARN`. A statement that a condition
/// leaves out gives none, nor does one with a fault.
///
/// It takes the time that the faults of the source take.
///
/// # Errors
///
/// [`NoMemory`] where memory is refused.
pub fn messages(alloc: Global, dialect: Dialect, source: &[u8]) -> Result<Vec<Message>, NoMemory>
    ensures { IfOk result (λ v. map message_seen v.items ≡ messages dialect source.now) }
{
    let mut all = Vec::new(alloc);
    if !dialect.has_further_directives() {
        return Ok(all);
    }
    let mut expander = Expander::new(alloc, dialect, source)?;
    let mut survey = Survey::new(alloc, dialect)?;
    'statements: loop {
        if all.len() >= MOST {
            return Ok(all);
        }
        let here = survey.left.standing.here()?;
        let names = KnownNames {
            dialect: survey.left.standing.dialect,
            scope: &survey.left.standing.scope,
            here,
        };
        match expander.next(&names) {
            Ok(Some(said)) => {
                let origin = Origin {
                    line: said.number,
                    place: expander.lines_read(),
                };
                state(alloc, dialect, &mut survey, &mut all, origin, said)?;
            }
            Ok(None) => return Ok(all),
            Err(MacroError::Fault { .. }) => return Ok(all),
            Err(MacroError::NoMemory) => return Err(NoMemory),
        }
    }
}
