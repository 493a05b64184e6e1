//! What the values of options say.
ghost use Rattle.std.specs.Prelude.{◌≡◌, ◌<◌, ◌≤◌, ◌^◌, ◌∷◌, All, IfSome, length};
ghost use Rattle.std.specs.List.{slice_split};
ghost use Rattle.std.specs.Option.{option_copied, option_map};
ghost use Rattle.vax_cli.specs.Values.{address_of, base_of, dialect_of, dump_item, dump_items, dumps_of, format_of, frames_of, is_comma, parts_behind, seed_of, size_of, steps_of, strictness, switch_of, turns_of};
ghost use Rattle.vax_cli.specs.Tracing.{breaks_of};
ghost use Rattle.vax_cli.specs.Said.{IsDump};

use crate::command::{Base, Breaks, DumpItem, Dumps, Format, Strictness};
use crate::number::{decimal_from, digits, number_of};
use arrayvec::ArrayVec;
use vax_dialect::Dialect;

/// The most steps or turns of a run that a word may ask for.
const MOST_STEPS: u64 = 1_000_000_000_000_000;

/// How many pages may be resident: 64 to 32,768.
pub(crate) fn frames_of(word: Option<&str>) -> Option<u32>
    ensures number { result ≡ frames_of (option_copied word.entry) }
    ensures least { IfSome result (λ n. 64 ≤ n) }
    ensures most { IfSome result (λ n. n ≤ 32768) }
{
    Some(number_of(256, 64, 32_768, word)? as u32)
}

/// The most steps of a run: 0 to 10^15.
pub(crate) fn steps_of(word: Option<&str>) -> Option<u64>
    ensures number { result ≡ steps_of (option_copied word.entry) }
    ensures most { IfSome result (λ n. n ≤ 10 ^ 15) }
{
    number_of(10_000_000, 0, MOST_STEPS, word)
}

/// The most turns of a run: 1 to 10^15.
pub(crate) fn turns_of(word: Option<&str>) -> Option<u64>
    ensures number { result ≡ turns_of (option_copied word.entry) }
    ensures most { IfSome result (λ n. n ≤ 10 ^ 15) }
{
    number_of(1_000_000_000_000, 1, MOST_STEPS, word)
}

/// The number that a workload is made from.
pub(crate) fn seed_of(word: Option<&str>) -> Option<u32>
    ensures { result ≡ seed_of (option_copied word.entry) }
{
    Some(number_of(1, 0, 4_294_967_295, word)? as u32)
}

/// The size of a workload: 1 to 5,000.
pub(crate) fn size_of(word: Option<&str>) -> Option<u32>
    ensures number { result ≡ size_of (option_copied word.entry) }
    ensures least { IfSome result (λ n. 1 ≤ n) }
    ensures most { IfSome result (λ n. n ≤ 5000) }
{
    Some(number_of(100, 1, 5_000, word)? as u32)
}

/// What a program is linked for.
pub(crate) fn base_of(word: Option<&str>) -> Option<Base>
    ensures { result ≡ base_of (option_copied word.entry) }
{
    match word {
        None | Some("user") => Some(Base::User),
        Some("bare") => Some(Base::Bare),
        Some(_) => None,
    }
}

/// The dialect of sources.
pub(crate) fn dialect_of(word: Option<&str>) -> Option<Dialect>
    ensures { result ≡ dialect_of (option_copied word.entry) }
{
    match word {
        None | Some("vax") => Some(Dialect::Vax),
        Some("vms") => Some(Dialect::Vms),
        Some(_) => None,
    }
}

/// The version of an image's format.
pub(crate) fn format_of(word: Option<&str>) -> Option<Format>
    ensures { result ≡ format_of (option_copied word.entry) }
{
    match word {
        None | Some("1") => Some(Format::First),
        Some("2") => Some(Format::Second),
        Some(_) => None,
    }
}

/// Whether an option is on.
pub(crate) fn switch_of(word: Option<&str>) -> Option<bool>
    ensures { result ≡ switch_of (option_copied word.entry) }
{
    match word {
        None | Some("off") => Some(false),
        Some("on") => Some(true),
        Some(_) => None,
    }
}

/// What an exit status tells of the end of a run, of which it may tell so much.
pub(crate) fn strictness(most: Strictness, asked: bool) -> Strictness
    ensures { result ≡ strictness most asked }
{
    if asked { most } else { Strictness::Off }
}

/// An address of eight hexadecimal digits.
fn address_of(word: &str) -> Option<u32>
    ensures { result ≡ address_of word.now }
{
    if word.len() != 8 {
        return None;
    }
    Some(digits(16, 4_294_967_295, word)? as u32)
}

/// An address and a count of bytes, with a colon between them.
fn dump_item(word: &str) -> Option<DumpItem>
    ensures item { result ≡ dump_item word.now }
    ensures within { IfSome result IsDump }
{
    let (address, count) = word.split_once(':')?;
    let address = address_of(address)?;
    let count = decimal_from(1, 4_096, count)? as u32;
    Some(DumpItem { address, count })
}

/// The first part of a text, and what stands behind its comma, if it has one.
#[tactic(auto, using(crate::proofs::Parts::parts_cut, crate::proofs::Parts::parts_whole))]
fn first_part(text: &str) -> (&str, Option<&str>)
    ensures parts { slice_split is_comma text.now
        ≡ result.0.now ∷ parts_behind (option_copied result.1) }
    ensures shorter { IfSome result.1 (λ rest. length rest.now < length text.now) }
{
    match text.split_once(',') {
        Some((part, rest)) => (part, Some(rest)),
        None => (text, None),
    }
}

/// Items with commas between them, at most sixteen.
#[tactic(auto, using(crate::proofs::Prefixes::few, crate::proofs::Prefixes::too_many, crate::proofs::Prefixes::cut_off))]
fn dump_items(list: &str) -> Option<Dumps>
    ensures items { option_map (λ v. v.items) result ≡ dumps_of (Some list.now) }
    ensures within { IfSome result (λ v. All IsDump v.items) }
{
    let mut items = ArrayVec::new();
    let mut rest = Some(list);
    while let Some(text) = rest {
        let (word, behind) = first_part(text);
        items.try_push(dump_item(word)?).ok()?;
        rest = behind;
    }
    Some(items)
}

/// The memory to report, none where no word says it.
pub(crate) fn dumps_of(word: Option<&str>) -> Option<Dumps>
    ensures items { option_map (λ v. v.items) result ≡ dumps_of (option_copied word.entry) }
    ensures within { IfSome result (λ v. All IsDump v.items) }
{
    match word {
        None => Some(ArrayVec::new()),
        Some(list) => dump_items(list),
    }
}

/// Addresses with commas between them, at most sixteen.
#[tactic(auto, using(crate::proofs::Prefixes::few, crate::proofs::Prefixes::too_many, crate::proofs::Prefixes::cut_off))]
fn break_list(list: &str) -> Option<Breaks>
    ensures { option_map (λ v. v.items) result ≡ breaks_of (Some list.now) }
{
    let mut breaks = ArrayVec::new();
    let mut rest = Some(list);
    while let Some(text) = rest {
        let (word, behind) = first_part(text);
        breaks.try_push(address_of(word)?).ok()?;
        rest = behind;
    }
    Some(breaks)
}

/// The addresses before which a traced run stops, none where no word says it.
pub(crate) fn breaks_of(word: Option<&str>) -> Option<Breaks>
    ensures { option_map (λ v. v.items) result ≡ breaks_of (option_copied word.entry) }
{
    match word {
        None => Some(ArrayVec::new()),
        Some(list) => break_list(list),
    }
}
