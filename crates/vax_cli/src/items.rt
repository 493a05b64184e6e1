//! Names and options in the words behind a command.
ghost use Rattle.std.specs.Prelude.{◌≡◌, ◌<◌, MatchOption, None, length};
ghost use Rattle.std.specs.Option.{option_and_then, option_copied, option_map};
ghost use Rattle.vax_cli.specs.Items.{are_distinct, is_plain, items_from, names, read_word, setting_of, value, values};
ghost use Rattle.vax_cli.specs.Values.{at_most};
ghost use Rattle.vax_cli.specs.Said.{items_of, item_of, names_of, reading_of, texts};

use crate::command::{Macros, Names};
use crate::table::{Key, key_of};
use arrayvec::ArrayVec;

/// The items behind a command: at most 8 names, each of the options, at most 25, once, and 4 preludes.
pub(crate) type Items<'a> = ArrayVec<Item<'a>, 37>;

/// A name, or an option with its value.
#[derive(Clone, Copy)]
pub(crate) enum Item<'a> {
    Name(&'a str),
    Setting(Key, &'a str),
}

impl Default for Item<'_> {
    fn default() -> Self {
        Item::Name("")
    }
}

/// What a word says: an item, or the option whose value the next word is.
#[derive(Clone, Copy)]
enum Reading<'a> {
    Whole(Item<'a>),
    Opened(Key),
}

/// It is neither empty nor begins with a dash.
fn is_plain(word: &str) -> bool
    ensures { result ≡ is_plain word.now }
{
    match word.as_bytes().first() {
        None => false,
        Some(&first) => first != b'-',
    }
}

/// An option with its value, if that is plain.
fn setting_of<'a>(key: Key, value: &'a str) -> Option<Item<'a>>
    ensures { option_map item_of result ≡ setting_of key value.entry.now }
{
    if is_plain(value) {
        Some(Item::Setting(key, value))
    } else {
        None
    }
}

/// What a word says behind an option whose value it is, or behind none.
fn read_word<'a>(keys: &[Key], pending: Option<Key>, word: &'a str) -> Option<Reading<'a>>
    ensures { option_map reading_of result ≡ read_word keys.now pending word.entry.now }
{
    if let Some(key) = pending {
        return Some(Reading::Whole(setting_of(key, word)?));
    }
    if is_plain(word) {
        return Some(Reading::Whole(Item::Name(word)));
    }
    match word.split_once('=') {
        Some((option, value)) => Some(Reading::Whole(setting_of(key_of(keys, option)?, value)?)),
        None => Some(Reading::Opened(key_of(keys, word)?)),
    }
}

/// The items that words say, names and options in any order, if there are at most 37.
#[tactic(auto, using(crate::proofs::Prefixes::few, crate::proofs::Prefixes::too_many, crate::proofs::Prefixes::cut_off))]
pub(crate) fn read_items<'a>(keys: &[Key], words: &'a [String]) -> Option<Items<'a>>
    ensures { option_map (λ v. items_of v.items) result
        ≡ option_and_then (at_most 37) (items_from keys.now None (texts words.entry.now)) }
{
    let mut items = ArrayVec::new();
    let mut pending = None;
    for word in words {
        pending = match read_word(keys, pending, word.as_str())? {
            Reading::Opened(key) => Some(key),
            Reading::Whole(item) => {
                items.try_push(item).ok()?;
                None
            }
        };
    }
    match pending {
        None => Some(items),
        Some(_) => None,
    }
}

/// The names, in order, if there are at most eight.
pub(crate) fn names_in<'a>(items: &[Item<'a>]) -> Option<Names<'a>>
    ensures { MatchOption result (8 < length (names (items_of items.now)))
        (λ v. names_of v.items ≡ names (items_of items.now)) }
{
    let mut names = ArrayVec::new();
    for item in items {
        if let Item::Name(name) = *item {
            names.try_push(name).ok()?;
        }
    }
    Some(names)
}

/// The value of an option, if it is there.
pub(crate) fn value_in<'a>(wanted: Key, items: &[Item<'a>]) -> Option<&'a str>
    ensures { option_copied result ≡ value wanted (items_of items.now) }
{
    for item in items {
        if let Item::Setting(key, value) = *item {
            if key.is(wanted) {
                return Some(value);
            }
        }
    }
    None
}

/// The values of an option that may stand there several times, in order, if there are at most four.
pub(crate) fn values_in<'a>(wanted: Key, items: &[Item<'a>]) -> Option<Macros<'a>>
    ensures { MatchOption result (4 < length (values wanted (items_of items.now)))
        (λ v. names_of v.items ≡ values wanted (items_of items.now)) }
{
    let mut all = ArrayVec::new();
    for item in items {
        if let Item::Setting(key, value) = *item {
            if key.is(wanted) {
                all.try_push(value).ok()?;
            }
        }
    }
    Some(all)
}

/// Each option is there at most once, but for one that may stand there several times.
pub(crate) fn are_distinct(items: &[Item]) -> bool
    ensures { result ≡ are_distinct (items_of items.now) }
{
    let mut rest = items;
    while let [item, behind @ ..] = rest {
        if let Item::Setting(key, _) = *item {
            if !key.may_repeat() && value_in(key, behind).is_some() {
                return false;
            }
        }
        rest = behind;
    }
    true
}
