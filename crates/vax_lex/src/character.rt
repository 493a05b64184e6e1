// The characters of a source.

ghost use Rattle.std.specs.Bool.{MatchBool};
ghost use Rattle.std.specs.Prelude.{◌≡◌, ◌≢◌, ◌<◌};
ghost use Rattle.std.specs.Char.{digit_value};
ghost use Rattle.std.specs.Str.{bytes_eq};
ghost use Rattle.vax_lex.specs.Characters.{is_blank, is_delimiter, is_name_character, radix_of, spells};

/// Space, tab and form feed.
#[inline]
pub fn is_blank(byte: u8) -> bool
    ensures { result ≡ is_blank byte }
{
    byte == b' ' || byte == b'\t' || byte == 12
}

/// A letter, a digit, `_`, `$` or `.`.
#[inline]
pub fn is_name_character(byte: u8) -> bool
    ensures { result ≡ is_name_character byte }
{
    byte.is_ascii_alphabetic()
        || byte.is_ascii_digit()
        || byte == b'_'
        || byte == b'$'
        || byte == b'.'
}

/// A printable character other than `<`, `=`, `;` and `-`: it may stand round a quoted text.
#[inline]
pub(crate) fn is_delimiter(byte: u8) -> bool
    ensures { result ≡ is_delimiter byte }
{
    byte.is_ascii_graphic() && byte != b'<' && byte != b'=' && byte != b';' && byte != b'-'
}

/// What a byte is worth as a digit of a radix up to 36, or 36 where it is no digit.
#[inline]
pub(crate) fn digit_value(byte: u8) -> u8
    ensures value { result ≡ digit_value byte }
    ensures bound { result < 37 }
{
    match byte {
        b'0'..=b'9' => byte - b'0',
        b'A'..=b'Z' => byte - 55,
        b'a'..=b'z' => byte - 87,
        _ => 36,
    }
}

/// The radix that a letter after `^` names, or 0 where it names none.
#[inline]
pub(crate) fn radix_of(letter: u8) -> u8
    ensures value { result ≡ radix_of letter }
    ensures bound { result < 17 }
{
    match letter.to_ascii_uppercase() {
        b'B' => 2,
        b'O' => 8,
        b'D' => 10,
        b'X' => 16,
        _ => 0,
    }
}

/// Whether a text is this word of capitals, in letters of either case.
#[tactic(auto, using(crate::proofs::Spelling::spells_more))]
pub fn spells(word: &[u8], text: &[u8]) -> bool
    ensures { result ≡ spells word.now text.now }
{
    if text.len() != word.len() {
        return false;
    }
    for i in 0..word.len() {
        if text[i].to_ascii_uppercase() != word[i] {
            return false;
        }
    }
    true
}

/// Whether a text is this word.
pub(crate) fn is_word(text: &[u8], word: &[u8]) -> bool
    ensures value { result ≡ bytes_eq text.now word.now }
    ensures is { MatchBool result (text.now ≡ word.now) (text.now ≢ word.now) }
{
    text == word
}
