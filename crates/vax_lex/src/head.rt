// The longest token at the head of what is left of a line.

ghost use Rattle.std.specs.Prelude.{◌≡◌, ◌<◌, ◌+◌, ◌≤◌, ◌^◌, ◌≢◌, length, IfSome, SomeIff, position, ◌==◌, []};
ghost use Rattle.std.specs.List.{prefix_len};
ghost use Rattle.vax_lex.specs.Characters.{is_name_character, number_of};
ghost use Rattle.vax_lex.specs.Tokens.{stray_kind, digit_run, numeral, based, caret, quoted, plain, head_of};
ghost use Rattle.vax_lex.specs.Words.{word_of};
ghost use Rattle.vax_lex.specs.Views.{context_view, head_view};

use crate::character::{digit_value, is_blank, is_name_character, radix_of};
use crate::context::{Before, Context};
use crate::token::TokenKind;

/// What a byte where no token begins counts as for those behind it: a mark, but no operator.
pub(crate) fn stray_kind(byte: u8) -> TokenKind
    ensures { result ≡ stray_kind byte }
{
    if byte == b'^' {
        TokenKind::Number(0)
    } else {
        TokenKind::Mark(byte)
    }
}

/// What stands at the head of what is left of a line.
#[derive(Clone, Copy, PartialEq, Eq)]
pub(crate) enum Head {
    /// A blank.
    Blank,
    /// The comment, or the end of the line.
    End,
    /// A token of this kind and of so many bytes.
    Begins(TokenKind, usize),
    /// A number above 64 bits, and of so many bytes.
    Wide(usize),
    /// No token.
    Nothing,
}

/// How many bytes at the head are digits of this radix.
#[tactic(auto, using(crate::proofs::Runs::runs))]
fn digit_run(radix: u8, bytes: &[u8]) -> usize
    ensures value { result ≡ digit_run radix bytes.now }
    ensures bound { result ≤ length bytes.now }
{
    let mut count = 0;
    while count < bytes.len() && digit_value(bytes[count]) < radix {
        count += 1;
    }
    count
}

/// How many bytes at the head are letters, digits, `_`, `$` and `.`.
#[tactic(auto, using(crate::proofs::Runs::runs))]
fn name_run(bytes: &[u8]) -> usize
    ensures value { result ≡ prefix_len is_name_character bytes.now }
    ensures bound { result ≤ length bytes.now }
{
    let mut count = 0;
    while count < bytes.len() && is_name_character(bytes[count]) {
        count += 1;
    }
    count
}

/// The number that digits write, if it has at most 64 bits.
#[tactic(auto, using(crate::proofs::Runs::number_more, crate::proofs::Runs::number_all, crate::proofs::Runs::number_grows))]
fn number_of(radix: u8, digits: &[u8]) -> Option<u64>
    requires { radix ≢ 0 }
    ensures { SomeIff result (number_of radix digits.now < 2 ^ 64) (number_of radix digits.now) }
{
    let mut number: u64 = 0;
    for digit in digits {
        number = number
            .checked_mul(u64::from(radix))?
            .checked_add(u64::from(digit_value(*digit)))?;
    }
    Some(number)
}

/// The number or the local label that begins with a digit.
#[tactic(auto, unfolding(crate::specs::Tokens::numeral))]
fn numeral(bytes: &[u8]) -> Head
    requires { length bytes.now ≤ 2048 }
    ensures { head_view result ≡ numeral bytes.now }
{
    let count = digit_run(10, bytes);
    let (digits, rest) = bytes.split_at(count);
    let Some(number) = number_of(10, digits) else {
        return Head::Wide(count);
    };
    match rest {
        [b'$', ..] if number >= 1 && number <= 65535 => Head::Begins(TokenKind::Name, count + 1),
        _ => Head::Begins(TokenKind::Number(number), count),
    }
}

/// The number in a radix, whose digits come behind a `^` and a letter.
#[tactic(auto, using(crate::proofs::Runs::no_digits), unfolding(crate::specs::Tokens::based))]
fn based(radix: u8, bytes: &[u8]) -> Head
    requires { length bytes.now ≤ 2048 }
    ensures { head_view result ≡ based radix bytes.now }
{
    let count = digit_run(radix, bytes);
    if count == 0 {
        return Head::Nothing;
    }
    match number_of(radix, &bytes[..count]) {
        Some(number) => Head::Begins(TokenKind::Number(number), count + 2),
        None => Head::Wide(count + 2),
    }
}

/// What a `^` begins.
fn caret(bytes: &[u8]) -> Head
    requires { length bytes.now ≤ 2048 }
    ensures { head_view result ≡ caret bytes.now }
{
    match bytes {
        [] => Head::Nothing,
        [letter, digits @ ..] => match letter.to_ascii_uppercase() {
            b'A' | b'C' | b'M' => Head::Begins(TokenKind::Mark(b'^'), 1),
            _ => based(radix_of(*letter), digits),
        },
    }
}

/// The place of the first such byte.
fn position_of(wanted: u8, bytes: &[u8]) -> Option<usize>
    ensures value { result ≡ position (λ b. b == wanted) bytes.now }
    ensures bound { IfSome result (λ k. k < length bytes.now) }
{
    bytes.iter().position(|byte| *byte == wanted)
}

/// The text up to the next byte that is its delimiter.
#[tactic(auto, unfolding(crate::specs::Tokens::quoted))]
fn quoted(delimiter: u8, bytes: &[u8]) -> Head
    requires { length bytes.now ≤ 2048 }
    ensures { head_view result ≡ quoted delimiter bytes.now }
{
    match position_of(delimiter, bytes) {
        Some(length) => Head::Begins(TokenKind::Text, length + 2),
        None => Head::Nothing,
    }
}

/// What a byte and those behind it begin where no text is due.
#[tactic(auto, unfolding(crate::specs::Tokens::plain))]
fn plain(bytes: &[u8]) -> Head
    requires { length bytes.now ≤ 2048 }
    ensures { head_view result ≡ plain bytes.now }
{
    let [first, rest @ ..] = bytes else {
        return Head::End;
    };
    let first = *first;
    if is_blank(first) {
        Head::Blank
    } else if first == b';' {
        Head::End
    } else if first.is_ascii_digit() {
        numeral(bytes)
    } else if is_name_character(first) {
        Head::Begins(TokenKind::Name, name_run(bytes).min(31))
    } else if first == b'^' {
        caret(rest)
    } else if first.is_ascii_graphic() {
        Head::Begins(TokenKind::Mark(first), 1)
    } else {
        Head::Nothing
    }
}

/// What the bytes that are left of a line begin with.
#[tactic(auto, unfolding(crate::specs::Tokens::head_of))]
pub(crate) fn head_of(context: Context, bytes: &[u8]) -> Head
    requires { length bytes.now ≤ 2048 }
    ensures { head_view result ≡ head_of (context_view context) bytes.now }
{
    let Some(first) = bytes.first().copied() else {
        return Head::End;
    };
    if context.before == Before::Caret {
        Head::Begins(TokenKind::Name, 1)
    } else if context.text_due(first) {
        quoted(first, &bytes[1..])
    } else if context.before == Before::SizeLetter && first == b'^' {
        Head::Begins(TokenKind::Mark(b'^'), 1)
    } else {
        plain(bytes)
    }
}

/// What the bytes that are left of a text begin with where no quoted text begins anywhere.
#[tactic(auto, unfolding(crate::specs::Words::word_of))]
pub(crate) fn word_of(context: Context, bytes: &[u8]) -> Head
    requires { length bytes.now ≤ 2048 }
    ensures { head_view result ≡ word_of (context_view context) bytes.now }
{
    let Some(first) = bytes.first().copied() else {
        return Head::End;
    };
    if context.before == Before::Caret {
        Head::Begins(TokenKind::Name, 1)
    } else if context.before == Before::SizeLetter && first == b'^' {
        Head::Begins(TokenKind::Mark(b'^'), 1)
    } else {
        plain(bytes)
    }
}
