//! What a line of an order says.
ghost use Rattle.std.specs.Prelude.{◌≡◌, ◌≤◌, [], ◌∷◌, true};
ghost use Rattle.std.specs.List.{list_all};
ghost use Rattle.vax_lines.specs.Words.{words};
ghost use Rattle.vax_order.specs.Orders.{is_blank, is_digit, is_number, is_proper, is_silent, line_of, pair_of};

use vax_lines::{is_trimmed, next_word, number};

/// The most attempts of a line.
const MOST_COUNT: u64 = 1_000_000_000;

/// A line of an order.
#[derive(Clone, Copy, PartialEq, Eq, Debug)]
pub struct Line {
    /// The process, from 0.
    pub job: u8,
    /// How many attempts it makes, 1 to 10^9.
    pub count: u32,
}

/// What a line of a text says.
#[derive(Clone, Copy)]
pub(crate) enum Reading {
    /// Nothing.
    Silent,
    /// A line of the order.
    Says(Line),
    /// It has the form of one, and names no process.
    Strange,
    /// It has another form.
    Malformed,
}

/// A decimal digit.
fn is_digit(byte: &u8) -> bool
    ensures { result ≡ is_digit byte.now }
{
    b'0' <= *byte && *byte <= b'9'
}

/// Decimal digits.
fn are_digits(word: &[u8]) -> bool
    ensures { result ≡ list_all is_digit word.now }
{
    word.iter().all(is_digit)
}

/// A decimal number without a leading zero, of any length.
fn is_number(word: &[u8]) -> bool
    ensures { result ≡ is_number word.now }
{
    match word {
        [] => false,
        [b'0', rest @ ..] => rest.is_empty(),
        _ => are_digits(word),
    }
}

/// What two words say.
#[tactic(auto, unfolding(crate::specs::Orders::pair_of))]
fn pair(job: &[u8], count: &[u8], jobs: u8) -> Reading
    requires { jobs ≤ 8 }
    ensures says { result ≡ pair_of jobs (job.now ∷ count.now ∷ []) }
    ensures proper { is_proper jobs result ≡ true }
{
    if !is_number(job) {
        return Reading::Malformed;
    }
    let Some(count) = number(MOST_COUNT, count) else {
        return Reading::Malformed;
    };
    match number(u64::from(jobs), job) {
        Some(job) => Reading::Says(Line {
            job: job as u8 - 1,
            count: count as u32,
        }),
        None => Reading::Strange,
    }
}

/// What the words of a line say.
#[tactic(auto, unfolding(crate::specs::Orders::pair_of))]
fn pair_of(line: &[u8], jobs: u8) -> Reading
    requires { jobs ≤ 8 }
    ensures says { result ≡ pair_of jobs (words line.now) }
    ensures proper { is_proper jobs result ≡ true }
{
    let Some((job, rest)) = next_word(line) else {
        return Reading::Malformed;
    };
    let Some((count, rest)) = next_word(rest) else {
        return Reading::Malformed;
    };
    match next_word(rest) {
        Some(_) => Reading::Malformed,
        None => pair(job, count, jobs),
    }
}

/// Spaces and tabs alone.
fn is_blank(line: &[u8]) -> bool
    ensures { result ≡ list_all is_blank line.now }
{
    line.iter().all(|byte| *byte == b' ' || *byte == b'\t')
}

/// A blank line, or one whose first byte is `;`.
fn is_silent(line: &[u8]) -> bool
    ensures { result ≡ is_silent line.now }
{
    line.first() == Some(&b';') || is_blank(line)
}

/// What a line says of so many processes.
#[tactic(auto, unfolding(crate::specs::Orders::line_of))]
pub(crate) fn line_of(line: &[u8], jobs: u8) -> Reading
    requires { jobs ≤ 8 }
    ensures says { result ≡ line_of jobs line.now }
    ensures proper { is_proper jobs result ≡ true }
{
    if is_silent(line) {
        return Reading::Silent;
    }
    if !is_trimmed(line) {
        return Reading::Malformed;
    }
    pair_of(line, jobs)
}
