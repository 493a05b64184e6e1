//! Words, as they were checked and as `clap` reads them.
ghost use Rattle.std.specs.Prelude.{◌≡◌, IfOk, IsErrOf, None, Some};
ghost use Rattle.vax_cli.specs.Words.{command_of as said_of};
ghost use Rattle.vax_cli.specs.Said.{IsAskedWithin, asked, texts};

use crate::clap_words::{FILES, read};
use crate::command::Asked;
use crate::items::{names_in, value_in, values_in};
use crate::plain::{Said, plain_command};
use clap::error::ErrorKind;
use std::alloc::Global;
use thiserror::Error;

/// Why the words have no command.
#[derive(Clone, Copy, PartialEq, Eq, Debug, Error)]
pub enum WordsError {
    /// The words aren't plain words of the table of commands.
    #[error("these are no words of a command")]
    Usage,
    #[error("out of memory")]
    NoMemory,
}

/// `clap` finds the same files, and the same value of each option; none where the command has more than eight files or memory
/// was refused.
fn reads_alike(alloc: Global, words: &[String], said: &Said) -> Option<bool> {
    let files = names_in(&said.items)?;
    let matches = read(alloc, words).ok()?;
    let found = matches.subcommand_matches(said.verb.name())?;
    let found_files = found.get_strs(FILES).unwrap_or(&[]);
    if found_files != files.as_slice() {
        return Some(false);
    }
    for key in said.verb.keys() {
        if key.may_repeat() {
            let values = values_in(*key, &said.items)?;
            if found.get_strs(key.name()).unwrap_or(&[]) != values.as_slice() {
                return Some(false);
            }
        } else if found.get_str(key.name()) != value_in(*key, &said.items) {
            return Some(false);
        }
    }
    Some(true)
}

/// The command that the words name, and the files that are read before each of its sources.
pub fn command_of<'a>(alloc: Global, words: &'a [String]) -> Result<Asked<'a>, WordsError>
    ensures ok { IfOk result (λ c. said_of (texts words.entry.now) ≡ Some (asked c)) }
    ensures within { IfOk result (λ c. IsAskedWithin (asked c)) }
    ensures usage { IsErrOf result WordsError.Usage → said_of (texts words.entry.now) ≡ None }
    ensures not_plain { said_of (texts words.entry.now) ≡ None → IsErrOf result WordsError.Usage }
{
    let Some(plain) = plain_command(words) else {
        return Err(WordsError::Usage);
    };
    let Some(said) = &plain.said else {
        return Ok(plain.asked);
    };
    match reads_alike(alloc, words, said) {
        Some(true) => Ok(plain.asked),
        _ => Err(WordsError::NoMemory),
    }
}

/// The text that `clap` has for `--help`, `COMMAND --help` or `--version`. Other words have none, which counts as want of
/// memory.
pub fn about(alloc: Global, words: &[String]) -> Result<String, WordsError> {
    let Err(shown) = read(alloc, words) else {
        return Err(WordsError::NoMemory);
    };
    match shown.kind() {
        ErrorKind::DisplayHelp | ErrorKind::DisplayVersion => {
            format!(in alloc; "{shown}").map_err(|_| WordsError::NoMemory)
        }
        _ => Err(WordsError::NoMemory),
    }
}
