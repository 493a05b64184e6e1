// Arguments that are passed by value.

ghost use Rattle.std.specs.Prelude.{◌≡◌, ◌++◌, ◌∷◌, [], IfOk, OnOk};
ghost use Rattle.vax_dialect.specs.declared.Dialect.TheVariants.{Vax};
ghost use Rattle.vax_lex.specs.Tokens.{pieces_of};
ghost use Rattle.vax_macro.specs.ArgumentViews.{argument_view, arguments_view};
ghost use Rattle.vax_macro.specs.ConditionViews.{Decides, same};
ghost use Rattle.vax_macro.specs.Conditions.{number_in};
ghost use Rattle.vax_macro.specs.Values.{all_by_value, by_value, digits, text_by_value};

use crate::arguments::Argument;
use crate::conditions::{Refusal, number_in};
use crate::names::{begins_with, behind};
use itoa::Buffer;
use std::alloc::Global;
use vax_dialect::Dialect;
use vax_lex::{Names, pieces};
use vax_space::NoMemory;

/// A number in decimal digits, behind a `-` if it is negative.
fn digits(alloc: Global, number: i64) -> Result<Vec<u8>, NoMemory>
    ensures { IfOk result (λ v. v.items ≡ digits number) }
{
    let mut text = Vec::new(alloc);
    if number < 0 {
        text.push(b'-').map_err(|_| NoMemory)?;
    }
    let mut buffer = Buffer::new();
    text.extend_from_slice(buffer.format(number.unsigned_abs()).as_bytes())
        .map_err(|_| NoMemory)?;
    Ok(text)
}

/// The one number that a text is. No text of a line has more than 1,024 bytes; one that had is answered like what there is
/// no room for.
pub(crate) fn number_of<N: Names>(alloc: Global, names: &N, text: &[u8]) -> Result<i64, Refusal>
    ensures { Decides same result
        (number_in (N.meaning names.now) text.now (pieces_of Vax text.now)) }
{
    if text.len() > 1024 {
        return Err(Refusal::NoMemory);
    }
    let Ok(pieces) = pieces(alloc, Dialect::Vax, text) else {
        return Err(Refusal::NoMemory);
    };
    number_in(alloc, names, text, &pieces)
}

/// The text of an argument, or the value for which it stands.
fn text_by_value<N: Names>(alloc: Global, names: &N, text: Vec<u8>) -> Result<Vec<u8>, Refusal>
    ensures { Decides (λ v. v.items) result (text_by_value (N.meaning names.now) text.items) }
{
    if !begins_with(b'\\', &text) {
        return Ok(text);
    }
    let number = number_of(alloc, names, behind(&text, 1))?;
    let value = digits(alloc, number)?;
    Ok(value)
}

/// An argument, or the value for which it stands.
fn by_value<N: Names>(alloc: Global, names: &N, argument: Argument) -> Result<Argument, Refusal>
    ensures { Decides argument_view result
        (by_value (N.meaning names.now) (argument_view argument)) }
{
    let Argument { keyword, text } = argument;
    match text {
        Some(text) => {
            let text = text_by_value(alloc, names, text)?;
            Ok(Argument {
                keyword,
                text: Some(text),
            })
        }
        None => Ok(Argument {
            keyword,
            text: None,
        }),
    }
}

/// Keeps an argument.
fn keep(passed: &mut Vec<Argument>, argument: Argument) -> Result<(), NoMemory>
    ensures { OnOk result (arguments_view passed.new
        ≡ arguments_view passed.old ++ argument_view argument ∷ []) }
{
    passed.push(argument).map_err(|_| NoMemory)
}

/// Arguments, or the values for which they stand.
pub(crate) fn all_by_value<N: Names>(
    alloc: Global,
    names: &N,
    arguments: Vec<Argument>,
) -> Result<Vec<Argument>, Refusal>
    ensures { Decides arguments_view result
        (all_by_value (N.meaning names.now) (arguments_view arguments)) }
{
    let mut passed = Vec::new(alloc);
    for argument in arguments {
        let argument = match by_value(alloc, names, argument) {
            Ok(argument) => argument,
            Err(refusal) => return Err(refusal),
        };
        keep(&mut passed, argument)?;
    }
    Ok(passed)
}
