//! What a line says.
ghost use Rattle.std.specs.Prelude.{◌≡◌, ◌<◌, ◌^◌, [], ◌∷◌, true, IfSome};
ghost use Rattle.std.specs.List.{list_all};
ghost use Rattle.vax_lines.specs.Words.{words};
ghost use Rattle.vax_sched.specs.Rules.{is_silent, is_blank, line_of, page, rule_of, target};
ghost use Rattle.vax_sched.specs.Kept.{is_page, is_proper, is_proper_reading};
ghost use Rattle.vax_sched.specs.Views.{reading};

use crate::rule::{Fixed, Repeated, Rule, Target};
use vax_lines::{is_trimmed, next_word, number, number_in};

/// The greatest turn.
const MOST_TURNS: u64 = 1_000_000_000_000_000;

/// The greatest number of an `each` line.
const MOST_EACH: u64 = 1_000_000_000;

/// What a line says.
#[derive(Clone, Copy)]
pub(crate) enum Line {
    Silent,
    Rule(Rule),
    Malformed,
}

/// The page that eight hexadecimal digits name.
#[tactic(auto, unfolding(crate::specs::Rules::page))]
fn page(word: &[u8]) -> Option<u32>
    ensures number { result ≡ page word.now }
    ensures range { IfSome result (λ p. p < 2 ^ 23) }
{
    if word.len() != 8 {
        return None;
    }
    match number_in(16, u64::from(u32::MAX), word) {
        Some(addr) if addr % 512 == 0 => Some((addr / 512) as u32),
        _ => None,
    }
}

/// A page or `all`.
#[tactic(auto, unfolding(crate::specs::Rules::target))]
fn target(word: &[u8]) -> Option<Target>
    ensures target { result ≡ target word.now }
    ensures proper { IfSome result (λ t. is_page t ≡ true) }
{
    match word {
        b"all" => Some(Target::All),
        _ => page(word).map(Target::Page),
    }
}

/// A rule of three words.
#[tactic(auto, unfolding(crate::specs::Rules::rule_of))]
fn rule(verb: &[u8], count: &[u8], what: &[u8]) -> Option<Rule>
    ensures rule { result ≡ rule_of (verb.now ∷ count.now ∷ what.now ∷ []) }
    ensures proper { IfSome result (λ r. is_proper r ≡ true) }
{
    match verb {
        b"at" => Some(Rule::At(Fixed {
            turn: number(MOST_TURNS, count)?,
            page: page(what)?,
        })),
        b"each" => Some(Rule::Each(Repeated {
            turns: number(MOST_EACH, count)?,
            target: target(what)?,
        })),
        _ => None,
    }
}

/// A rule of a line's words.
#[tactic(auto, unfolding(crate::specs::Rules::rule_of))]
fn rule_of(line: &[u8]) -> Option<Rule>
    ensures rule { result ≡ rule_of (words line.now) }
    ensures proper { IfSome result (λ r. is_proper r ≡ true) }
{
    let (verb, rest) = next_word(line)?;
    let (count, rest) = next_word(rest)?;
    let (what, rest) = next_word(rest)?;
    match next_word(rest) {
        Some(_) => None,
        None => rule(verb, count, what),
    }
}

/// A blank line, or one whose first byte is `;`.
fn is_silent(line: &[u8]) -> bool
    ensures { result ≡ is_silent line.now }
{
    line.first() == Some(&b';') || is_blank(line)
}

/// Spaces and tabs alone.
fn is_blank(line: &[u8]) -> bool
    ensures { result ≡ list_all is_blank line.now }
{
    line.iter().all(|byte| *byte == b' ' || *byte == b'\t')
}

/// What a line says.
#[tactic(auto, unfolding(crate::specs::Rules::line_of))]
pub(crate) fn line_of(line: &[u8]) -> Line
    ensures reads { reading result ≡ line_of line.now }
    ensures proper { is_proper_reading (reading result) ≡ true }
{
    if is_silent(line) {
        return Line::Silent;
    }
    if !is_trimmed(line) {
        return Line::Malformed;
    }
    match rule_of(line) {
        Some(rule) => Line::Rule(rule),
        None => Line::Malformed,
    }
}
