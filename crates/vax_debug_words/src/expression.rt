//! Numbers, names and expressions.
ghost use Rattle.std.specs.Prelude.{◌≡◌, ◌<◌, ◌≤◌, ◌==◌, ◌||◌, map, length, IfSome};
ghost use Rattle.std.specs.List.{list_all};
ghost use Rattle.std.specs.Char.{is_ascii_hexdigit, to_ascii_uppercase};
ghost use Rattle.vax_debug_words.specs.Expressions.{IsBase, IsExpression, base_len, base_of, expression, is_hexadecimal, is_name_byte, longword, name, negative, numbered, offset, register, register_number, signs, behind_signs};

use crate::command::is_called;
use crate::request::{Base, Expression, Name};
use vax_lines::{number, number_in};

/// The most `@`s of an expression.
const MOST_SIGNS: usize = 16;

/// Whether a character is a hexadecimal digit.
fn is_digit(byte: u8) -> bool
    ensures { result ≡ is_ascii_hexdigit byte }
{
    byte.is_ascii_hexdigit()
}

/// Whether all of these characters are hexadecimal digits.
fn are_digits(word: &[u8]) -> bool
    ensures { result ≡ list_all is_ascii_hexdigit word.now }
{
    word.iter().all(|byte| is_digit(*byte))
}

/// Whether a word is hexadecimal digits, one at least.
#[tactic(auto, unfolding(crate::specs::Expressions::is_hexadecimal))]
pub fn is_hexadecimal(word: &[u8]) -> bool
    ensures { result ≡ is_hexadecimal word.now }
{
    !word.is_empty() && are_digits(word)
}

/// The number that hexadecimal digits write; none where a word is no such digits, or the number has more than 32 bits.
#[tactic(auto, unfolding(crate::specs::Expressions::longword))]
pub fn longword(word: &[u8]) -> Option<u32>
    ensures { result ≡ longword word.now }
{
    if word.is_empty() {
        return None;
    }
    number_in(16, u64::from(u32::MAX), word).map(|n| n as u32)
}

/// The number of a register.
#[tactic(auto, unfolding(crate::specs::Expressions::register_number))]
fn register_number(word: &[u8]) -> Option<u8>
    ensures value { result ≡ register_number word.now }
    ensures range { IfSome result (λ n. n < 16) }
{
    if is_called(word, b"0") {
        return Some(0);
    }
    number(15, word).map(|n| n as u8)
}

/// `R` with a number.
#[tactic(auto, unfolding(crate::specs::Expressions::numbered))]
fn numbered(word: &[u8]) -> Option<u8>
    ensures value { result ≡ numbered word.now }
    ensures range { IfSome result (λ n. n < 16) }
{
    let (letter, digits) = word.split_first()?;
    if letter.to_ascii_uppercase() != b'R' {
        return None;
    }
    register_number(digits)
}

/// A register by any of its names: `R0` to `R15`, `AP`, `FP`, `SP`, `PC`.
#[tactic(auto, unfolding(crate::specs::Expressions::register))]
pub(crate) fn register(word: &[u8]) -> Option<u8>
    ensures value { result ≡ register word.now }
    ensures range { IfSome result (λ n. n < 16) }
{
    if is_called(word, b"AP") {
        Some(12)
    } else if is_called(word, b"FP") {
        Some(13)
    } else if is_called(word, b"SP") {
        Some(14)
    } else if is_called(word, b"PC") {
        Some(15)
    } else {
        numbered(word)
    }
}

/// Whether a name may have this character.
fn is_name_byte(byte: u8) -> bool
    ensures { result ≡ is_name_byte byte }
{
    byte.is_ascii_alphanumeric() || byte == b'$' || byte == b'.' || byte == b'_'
}

/// The same characters in capitals.
fn capitals(word: &[u8]) -> Name
    requires { length word.now ≤ 31 }
    ensures { result ≡ map to_ascii_uppercase word.now }
{
    let mut name = Name::new();
    for byte in word {
        name.push(byte.to_ascii_uppercase());
    }
    name
}

/// Whether a name may have all of these characters.
fn are_name_bytes(word: &[u8]) -> bool
    ensures { result ≡ list_all is_name_byte word.now }
{
    word.iter().all(|byte| is_name_byte(*byte))
}

/// A name of 1 to 31 characters.
#[tactic(auto, unfolding(crate::specs::Expressions::name))]
fn name(word: &[u8]) -> Option<Name>
    ensures { result ≡ name word.now }
{
    if word.is_empty() || word.len() > 31 || !are_name_bytes(word) {
        return None;
    }
    Some(capitals(word))
}

/// A register, or else a name. Only the contents of a register are an address or a number, so it stands behind an `@`.
fn base(through: u8, word: &[u8]) -> Option<Base>
    ensures value { result ≡ base_of through word.now }
    ensures range { IfSome result IsBase }
{
    match register(word) {
        Some(_) if through == 0 => None,
        Some(n) => Some(Base::Register(n)),
        None => name(word).map(Base::Named),
    }
}

/// What is taken off an address.
fn negative(n: u32) -> u32
    ensures { result ≡ negative n }
{
    0u32.wrapping_sub(n)
}

/// Nothing, or a sign with a number.
#[tactic(auto, unfolding(crate::specs::Expressions::offset))]
fn offset(word: &[u8]) -> Option<u32>
    ensures { result ≡ offset word.now }
{
    match word.split_first() {
        None => Some(0),
        Some((b'+', digits)) => longword(digits),
        Some((_, digits)) => longword(digits).map(negative),
    }
}

/// How many `@`s stand in front.
fn signs(word: &[u8]) -> usize
    ensures count { result ≡ signs word.now }
    ensures within { result ≤ length word.now }
{
    for (i, byte) in word.iter().enumerate() {
        if *byte != b'@' {
            return i;
        }
    }
    word.len()
}

/// How many bytes stand before the first sign.
fn base_len(word: &[u8]) -> usize
    ensures count { result ≡ base_len word.now }
    ensures within { result ≤ length word.now }
{
    for (i, byte) in word.iter().enumerate() {
        if *byte == b'+' || *byte == b'-' {
            return i;
        }
    }
    word.len()
}

/// A base with an offset, behind so many `@`s.
fn behind_signs(through: u8, word: &[u8]) -> Option<Expression>
    requires { through ≤ 16 }
    ensures value { result ≡ behind_signs through word.now }
    ensures proper { IfSome result IsExpression }
{
    let (front, back) = word.split_at(base_len(word));
    let base = base(through, front)?;
    let offset = offset(back)?;
    Some(Expression {
        base,
        through,
        offset,
    })
}

/// An expression: at most 16 `@`s, a register or a name, and a sign with a hexadecimal number.
#[tactic(auto, unfolding(crate::specs::Expressions::expression))]
pub(crate) fn expression(word: &[u8]) -> Option<Expression>
    ensures value { result ≡ expression word.now }
    ensures proper { IfSome result IsExpression }
{
    let signs = signs(word);
    if signs > MOST_SIGNS {
        return None;
    }
    behind_signs(signs as u8, word.split_at(signs).1)
}
