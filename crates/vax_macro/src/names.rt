// Names and texts.

ghost use Rattle.std.specs.Prelude.{◌≡◌, ◌-◌, length, take, drop, IfOk, codes};
ghost use Rattle.std.specs.Char.{is_ascii_digit};
ghost use Rattle.std.specs.List.{list_all};
ghost use Rattle.std.specs.Str.{bytes_eq};
ghost use Rattle.vax_lex.specs.Characters.{is_blank, is_name_character};
ghost use Rattle.vax_macro.specs.Names.{is_name};
ghost use Rattle.vax_macro.specs.Arguments.{begins_with};

use std::alloc::Global;
use vax_lex::{is_blank, is_name_character};
use vax_space::NoMemory;

/// Whether a text is a name of 1 to 31 characters, and not `.`.
pub(crate) fn is_name(text: &[u8]) -> bool
    ensures { result ≡ is_name text.now }
{
    let Some(first) = text.first() else {
        return false;
    };
    if first.is_ascii_digit() {
        return false;
    }
    if !all_name_characters(text) {
        return false;
    }
    if text.len() > 31 {
        return false;
    }
    !is_dot(text)
}

fn all_name_characters(text: &[u8]) -> bool
    ensures { result ≡ list_all is_name_character text.now }
{
    text.iter().all(|byte| is_name_character(*byte))
}

/// Whether each byte is a blank.
pub(crate) fn are_blanks(text: &[u8]) -> bool
    ensures { result ≡ list_all is_blank text.now }
{
    text.iter().all(|byte| is_blank(*byte))
}

fn is_dot(text: &[u8]) -> bool
    ensures { result ≡ bytes_eq text.now (codes ".") }
{
    text == b".".as_slice()
}

/// Whether this byte stands first.
pub(crate) fn begins_with(byte: u8, text: &[u8]) -> bool
    ensures { result ≡ begins_with byte text.now }
{
    match text.first() {
        Some(first) => *first == byte,
        None => false,
    }
}

/// A copy of a text.
pub(crate) fn copied(alloc: Global, text: &[u8]) -> Result<Vec<u8>, NoMemory>
    ensures { IfOk result (λ v. v.items ≡ text.now) }
{
    text.to_vec(alloc).map_err(|_| NoMemory)
}

/// The bytes of a text from one place up to another, as far as there are any.
pub(crate) fn part(text: &[u8], start: usize, end: usize) -> &[u8]
    ensures { result.now ≡ take (end - start) (drop start text.now) }
{
    let behind = behind(text, start);
    if start >= end {
        return &behind[..0];
    }
    let length = (end - start).min(behind.len());
    &behind[..length]
}

/// The bytes of a text from a place on.
pub(crate) fn behind(text: &[u8], start: usize) -> &[u8]
    ensures { result.now ≡ drop start text.now }
{
    if start >= text.len() {
        return &text[text.len()..];
    }
    &text[start..]
}
