// Arguments of macros as whole texts.

ghost use Rattle.std.specs.Prelude.{◌≡◌, ◌+◌, ◌<◌, ◌≤◌, ◌^◌, ◌++◌, ◌∷◌, ◌==◌, [], List, ℕ, Bool, not, length, option_map, IfOk, OnOk, IfSome};
ghost use Rattle.std.specs.List.{prefix_len};
ghost use Rattle.vax_lex.specs.Characters.{is_blank, is_name_character};
ghost use Rattle.vax_macro.specs.Names.{is_name};
ghost use Rattle.vax_macro.specs.Arguments.{is_no_separator, is_bare, is_edge, edged, has_edge, is_at_end, behind_blanks, closing, taken, depth_after, argument, following, arguments_from, arguments};
ghost use Rattle.vax_macro.specs.ArgumentViews.{argument_view, arguments_view, taken_view, taking_view, following_view, owned_view, lent_view, IsShorter};

use crate::names::{begins_with, behind, copied};
use std::alloc::Global;
use vax_lex::{is_blank, is_name_character};
use vax_space::NoMemory;

/// The names that may stand before `=` in an argument.
pub(crate) trait Keywords {
    ghost is_keyword: { Self → (List ℕ → Bool) };

    fn is_keyword(&self, alloc: Global, name: &[u8]) -> Result<bool, NoMemory>
        ensures { IfOk result (λ b. b ≡ is_keyword self.now name.now) };
}

/// No argument has a keyword.
pub(crate) struct NoKeyword;

impl Keywords for NoKeyword {
    ghost use Rattle.vax_macro.specs.Conditions.{no_keyword};

    ghost is_keyword = { λ _. no_keyword };

    fn is_keyword(&self, _alloc: Global, _name: &[u8]) -> Result<bool, NoMemory> {
        Ok(false)
    }
}

/// Each name is a keyword.
pub(crate) struct AnyName;

impl Keywords for AnyName {
    ghost is_keyword = { λ _. is_name };

    fn is_keyword(&self, _alloc: Global, name: &[u8]) -> Result<bool, NoMemory> {
        Ok(crate::names::is_name(name))
    }
}

/// An argument: the keyword before it, if there is one, and its text, if it has one.
#[derive(Drop)]
pub(crate) struct Argument {
    pub(crate) keyword: Option<Vec<u8>>,
    pub(crate) text: Option<Vec<u8>>,
}

/// The text that stands at a place, if one does, and what is behind it.
#[derive(Drop)]
pub(crate) struct Taken<'a> {
    pub(crate) text: Option<&'a [u8]>,
    pub(crate) rest: &'a [u8],
}

/// An argument, and what is behind it.
#[derive(Drop)]
struct Taking<'a> {
    keyword: Option<&'a [u8]>,
    text: Option<&'a [u8]>,
    rest: &'a [u8],
}

/// What follows an argument.
#[derive(Drop)]
enum Following<'a> {
    Nothing,
    Another(&'a [u8]),
    /// A text right behind a bracket.
    Unparted,
}

/// How many blanks stand before.
#[tactic(auto, using(crate::proofs::Runs::runs))]
fn blanks(text: &[u8]) -> usize
    ensures value { result ≡ prefix_len is_blank text.now }
    ensures bound { result ≤ length text.now }
{
    let mut count = 0;
    while count < text.len() && is_blank(text[count]) {
        count += 1;
    }
    count
}

/// What is behind the blanks at the head.
pub(crate) fn behind_blanks(text: &[u8]) -> &[u8]
    ensures { result.now ≡ behind_blanks text.now }
{
    &text[blanks(text)..]
}

/// How many characters of a name stand before.
#[tactic(auto, using(crate::proofs::Runs::runs))]
pub(crate) fn name_length(text: &[u8]) -> usize
    ensures value { result ≡ prefix_len is_name_character text.now }
    ensures bound { result ≤ length text.now }
{
    let mut count = 0;
    while count < text.len() && is_name_character(text[count]) {
        count += 1;
    }
    count
}

/// How many bytes stand before the first blank or comma.
#[tactic(auto, using(crate::proofs::Runs::runs))]
pub(crate) fn bare_length(text: &[u8]) -> usize
    ensures value { result ≡ prefix_len is_no_separator text.now }
    ensures bound { result ≤ length text.now }
{
    let mut count = 0;
    while count < text.len() && !is_blank(text[count]) && text[count] != b',' {
        count += 1;
    }
    count
}

/// Whether a byte is one of an argument without brackets.
fn is_bare(larger: bool, byte: u8) -> bool
    ensures { result ≡ is_bare larger byte }
{
    !is_blank(byte) && byte != b',' && !(larger && byte == b';')
}

/// How many bytes stand before what ends an argument without brackets.
#[tactic(auto, using(crate::proofs::Runs::runs))]
fn argument_length(larger: bool, text: &[u8]) -> usize
    ensures value { result ≡ prefix_len (is_bare larger) text.now }
    ensures bound { result ≤ length text.now }
{
    let mut count = 0;
    while count < text.len() && is_bare(larger, text[count]) {
        count += 1;
    }
    count
}

/// Whether a byte may stand at both ends of a text.
fn is_edge(byte: u8) -> bool
    ensures { result ≡ is_edge byte }
{
    byte.is_ascii_graphic() && !byte.is_ascii_alphabetic() && byte != b'<' && byte != b';'
}

/// How many bytes stand before this one.
#[tactic(auto, using(crate::proofs::Runs::runs))]
fn length_before(edge: u8, text: &[u8]) -> usize
    ensures value { result ≡ prefix_len (λ c. not (c == edge)) text.now }
    ensures bound { result ≤ length text.now }
{
    let mut count = 0;
    while count < text.len() && text[count] != edge {
        count += 1;
    }
    count
}

/// The text between two of the byte that stands first.
pub(crate) fn edged(text: &[u8]) -> Option<Taken<'_>>
    ensures value { option_map taken_view result ≡ edged text.now }
    ensures shorter { IfSome result (λ t. length t.rest.now ≤ length text.now) }
{
    let Some((edge, inner)) = text.split_first() else {
        return None;
    };
    if !is_edge(*edge) {
        return None;
    }
    let length = length_before(*edge, inner);
    if length == inner.len() {
        return None;
    }
    Some(Taken {
        text: Some(&inner[..length]),
        rest: &inner[length + 1..],
    })
}

/// Whether a text begins with `^` and a byte that may stand at both ends of a text.
fn has_edge(text: &[u8]) -> bool
    ensures { result ≡ has_edge text.now }
{
    if !begins_with(b'^', text) {
        return false;
    }
    match behind(text, 1).first() {
        Some(edge) => is_edge(*edge),
        None => false,
    }
}

/// How many brackets are open behind a byte, unless it closes the text.
fn depth_after(depth: usize, byte: u8) -> Option<usize>
    requires { depth < 2 ^ 63 }
    ensures value { result ≡ depth_after depth byte }
    ensures bound { IfSome result (λ d. d ≤ depth + 1) }
{
    match byte {
        b'<' => Some(depth + 1),
        b'>' if depth == 0 => None,
        b'>' => Some(depth - 1),
        _ => Some(depth),
    }
}

/// Where the bracket stands that closes a text.
#[tactic(auto, using(crate::proofs::Closings::closes_here, crate::proofs::Closings::closes_later, crate::proofs::Closings::never_closes))]
pub(crate) fn closing(text: &[u8]) -> Option<usize>
    ensures value { result ≡ closing 0 text.now }
    ensures bound { IfSome result (λ k. k < length text.now) }
{
    let mut depth: usize = 0;
    let mut at: usize = 0;
    while at < text.len() {
        let Some(next) = depth_after(depth, text[at]) else {
            return Some(at);
        };
        depth = next;
        at += 1;
    }
    None
}

/// The text that stands at a place; none where a bracket isn't closed, or a text between two of a byte.
#[tactic(auto, unfolding(crate::specs::Arguments::taken))]
pub(crate) fn take_text(larger: bool, text: &[u8]) -> Option<Taken<'_>>
    ensures value { option_map taken_view result ≡ taken larger text.now }
    ensures shorter { IfSome result (λ t. length t.rest.now ≤ length text.now) }
{
    if begins_with(b'<', text) {
        let inner = behind(text, 1);
        let Some(length) = closing(inner) else {
            return None;
        };
        return Some(Taken {
            text: Some(&inner[..length]),
            rest: &inner[length + 1..],
        });
    }
    if larger && has_edge(text) {
        return edged(behind(text, 1));
    }
    let length = argument_length(larger, text);
    let (found, rest) = text.split_at(length);
    if length == 0 {
        return Some(Taken { text: None, rest });
    }
    Some(Taken {
        text: Some(found),
        rest,
    })
}

/// The argument at a place; none where a bracket isn't closed.
#[tactic(auto, unfolding(crate::specs::Arguments::argument))]
fn take_argument<'a, K: Keywords>(
    alloc: Global,
    larger: bool,
    keywords: &K,
    text: &'a [u8],
) -> Result<Option<Taking<'a>>, NoMemory>
    ensures value { IfOk result
        (λ o. option_map taking_view o ≡ argument larger (K.is_keyword keywords.now) text.now) }
    ensures shorter { IfOk result (λ o. IfSome o (λ t. length t.rest.now ≤ length text.now)) }
{
    let (name, rest) = text.split_at(name_length(text));
    if begins_with(b'=', rest) && keywords.is_keyword(alloc, name)? {
        let Some(found) = take_text(larger, behind(rest, 1)) else {
            return Ok(None);
        };
        return Ok(Some(Taking {
            keyword: Some(name),
            text: found.text,
            rest: found.rest,
        }));
    }
    let Some(found) = take_text(larger, text) else {
        return Ok(None);
    };
    Ok(Some(Taking {
        keyword: None,
        text: found.text,
        rest: found.rest,
    }))
}

/// What follows an argument.
fn what_follows(larger: bool, rest: &[u8]) -> Following<'_>
    ensures value { following_view result ≡ following larger rest.now }
    ensures shorter { IsShorter result (length rest.now) }
{
    let next = behind_blanks(rest);
    let Some(first) = next.first() else {
        return Following::Nothing;
    };
    if *first == b',' {
        Following::Another(behind_blanks(&next[1..]))
    } else if larger && *first == b';' {
        Following::Nothing
    } else if next.len() == rest.len() {
        Following::Unparted
    } else {
        Following::Another(next)
    }
}

fn copied_if(alloc: Global, text: Option<&[u8]>) -> Result<Option<Vec<u8>>, NoMemory>
    ensures { IfOk result (λ o. owned_view o ≡ lent_view text.entry) }
{
    match text {
        Some(text) => {
            let text = copied(alloc, text)?;
            Ok(Some(text))
        }
        None => Ok(None),
    }
}

fn kept(alloc: Global, found: &Taking<'_>) -> Result<Argument, NoMemory>
    ensures { IfOk result (λ a. argument_view a ≡ (taking_view found.now).argument) }
{
    let keyword = copied_if(alloc, found.keyword)?;
    let text = copied_if(alloc, found.text)?;
    Ok(Argument { keyword, text })
}

/// Adds an argument.
fn add(alloc: Global, found: &mut Vec<Argument>, taking: &Taking<'_>) -> Result<(), NoMemory>
    ensures { OnOk result (arguments_view found.new
        ≡ arguments_view found.old ++ (taking_view taking.now).argument ∷ []) }
{
    let argument = kept(alloc, taking)?;
    found.push(argument).map_err(|_| NoMemory)
}

/// The arguments of a text that begins with one.
fn arguments_in<K: Keywords>(
    alloc: Global,
    larger: bool,
    keywords: &K,
    text: &[u8],
) -> Result<Option<Vec<Argument>>, NoMemory>
    ensures { IfOk result (λ o. option_map arguments_view o
        ≡ arguments_from (length text.now + 1) larger (K.is_keyword keywords.now) text.now) }
{
    let mut found = Vec::new(alloc);
    let mut rest = text;
    loop {
        let taken = take_argument(alloc, larger, keywords, rest)?;
        let Some(taking) = taken else {
            return Ok(None);
        };
        add(alloc, &mut found, &taking)?;
        match what_follows(larger, taking.rest) {
            Following::Nothing => return Ok(Some(found)),
            Following::Unparted => return Ok(None),
            Following::Another(next) => rest = next,
        }
    }
}

/// Whether no argument stands at the head of a text.
fn is_at_end(larger: bool, text: &[u8]) -> bool
    ensures { result ≡ is_at_end larger text.now }
{
    match text.first() {
        Some(first) => larger && *first == b';',
        None => true,
    }
}

/// The arguments of a text. None where a bracket isn't closed or a text stands right behind one.
#[tactic(auto, unfolding(crate::specs::Arguments::arguments))]
pub(crate) fn arguments<K: Keywords>(
    alloc: Global,
    larger: bool,
    keywords: &K,
    text: &[u8],
) -> Result<Option<Vec<Argument>>, NoMemory>
    ensures { IfOk result
        (λ o. option_map arguments_view o ≡ arguments larger (K.is_keyword keywords.now) text.now) }
{
    let rest = behind_blanks(text);
    if is_at_end(larger, rest) {
        return Ok(Some(Vec::new(alloc)));
    }
    let found = arguments_in(alloc, larger, keywords, rest)?;
    Ok(found)
}
