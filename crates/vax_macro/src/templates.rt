// What macros and repeats keep of their lines, and what stands in their place.

ghost use Rattle.std.specs.Prelude.{All, ◌≡◌, ◌+◌, ◌-◌, ◌<◌, ◌≤◌, ◌^◌, ◌++◌, ◌∷◌, ◌==◌, [], None, ℕ, length, map, set, replicate, option_map, IfOk, OnOk, Some, slice_get, slice_index, unwrap_or};
ghost use Rattle.std.specs.Bool.{OnTrue, OnFalse};
ghost use Rattle.std.specs.List.{prefix_len};
ghost use Rattle.std.specs.Char.{to_ascii_uppercase};
ghost use Rattle.vax_lex.specs.Characters.{canonical_name, is_zero};
ghost use Rattle.vax_macro.specs.Names.{with_entry};
ghost use Rattle.vax_macro.specs.Directives.{is_formal};
ghost use Rattle.vax_macro.specs.Templates.{Filled, no_formals, with_formal, added, formal_of, plain_formal, keyword_formal, formals_from, slot_at, with_slot, name_at, slots_in, body_line, cut_before, cut_behind, replaced, rewritten, keyword_index, assigned, made_label, with_text, filled_with, filled, template};
ghost use Rattle.vax_macro.specs.ArgumentViews.{argument_view, arguments_view, owned_view, lent_view};
ghost use Rattle.vax_macro.specs.TemplateViews.{by_name, formal_view, formals_view, line_view, template_view, texts_view, given_view, giving_view};

use crate::arguments::{Argument, Keywords};
use crate::counts::one_more;
use crate::names::{begins_with, behind, copied, is_name, part};
use crate::template_types::{BodyLine, Formal, Formals, Giving, Slot, Template};
use itoa::Buffer;
use std::alloc::Global;
use std::collections::BTreeMap;
use vax_lex::{Span, names};
use vax_space::NoMemory;

/// How many zeros stand before.
#[tactic(auto, using(crate::proofs::Runs::runs))]
fn zeros_before(text: &[u8]) -> usize
    ensures value { result ≡ prefix_len is_zero text.now }
    ensures bound { result ≤ length text.now }
{
    let mut count = 0;
    while count < text.len() && text[count] == b'0' {
        count += 1;
    }
    count
}

/// A text in capitals.
fn capitals(alloc: Global, text: &[u8]) -> Result<Vec<u8>, NoMemory>
    ensures { IfOk result (λ v. v.items ≡ map to_ascii_uppercase text.now) }
{
    let mut kept = Vec::new(alloc);
    for byte in text {
        kept.push(byte.to_ascii_uppercase()).map_err(|_| NoMemory)?;
    }
    Ok(kept)
}

/// How a name is kept.
pub(crate) fn canonical(alloc: Global, name: &[u8]) -> Result<Vec<u8>, NoMemory>
    ensures { IfOk result (λ v. v.items ≡ canonical_name name.now) }
{
    capitals(alloc, &name[zeros_before(name)..])
}

/// Puts a place at a name.
#[tactic(auto, using(crate::proofs::Maps::name_updates))]
fn put_place(
    index: &mut BTreeMap<Vec<u8>, usize>,
    name: Vec<u8>,
    place: usize,
) -> Result<(), NoMemory>
    ensures { OnOk result
        (by_name index.new ≡ with_entry name.items (Some place) (by_name index.old)) }
{
    let Ok(_) = index.insert(name, place) else {
        return Err(NoMemory);
    };
    Ok(())
}

impl Formals {
    /// No formal arguments.
    #[tactic(auto, using(crate::proofs::Maps::nothing_named))]
    pub(crate) fn new(alloc: Global) -> Formals
        ensures { formals_view result ≡ no_formals }
    {
        Formals {
            list: Vec::new(alloc),
            index: BTreeMap::new(alloc),
        }
    }

    /// The place of a name among them.
    pub(crate) fn index_of(&self, name: &[u8]) -> Option<usize>
        ensures { result ≡ (formals_view self.now).index name.now }
    {
        self.index.get(name).copied()
    }

    /// Adds one.
    #[tactic(auto, using(crate::proofs::Slots::one_more))]
    pub(crate) fn add(&mut self, formal: Formal, name: Vec<u8>) -> Result<(), NoMemory>
        requires { name.items ≡ formal.name.items }
        ensures { OnOk result
            (formals_view self.new ≡ with_formal (formals_view self.old) (formal_view formal)) }
    {
        let place = self.list.len();
        self.list.push(formal).map_err(|_| NoMemory)?;
        put_place(&mut self.index, name, place)
    }
}

impl Keywords for Formals {
    ghost is_keyword = { λ fs name. is_formal (formals_view fs) name };

    fn is_keyword(&self, alloc: Global, name: &[u8]) -> Result<bool, NoMemory> {
        if !is_name(name) {
            return Ok(false);
        }
        let name = canonical(alloc, name)?;
        Ok(self.index_of(&name).is_some())
    }
}

/// The formal argument that a text of `.MACRO` gives: `name` or `?name`.
fn plain_formal(alloc: Global, text: &[u8]) -> Result<Option<Formal>, NoMemory>
    ensures { IfOk result (λ o. option_map formal_view o ≡ plain_formal text.now) }
{
    if is_name(text) {
        let name = canonical(alloc, text)?;
        return Ok(Some(Formal {
            name,
            default: Vec::new(alloc),
            makes_label: false,
        }));
    }
    if begins_with(b'?', text) && is_name(behind(text, 1)) {
        let name = canonical(alloc, behind(text, 1))?;
        return Ok(Some(Formal {
            name,
            default: Vec::new(alloc),
            makes_label: true,
        }));
    }
    Ok(None)
}

/// The formal argument `name=default`.
fn keyword_formal(alloc: Global, keyword: &[u8], text: Option<Vec<u8>>) -> Result<Formal, NoMemory>
    ensures { IfOk result (λ f. formal_view f ≡ keyword_formal keyword.now (owned_view text)) }
{
    let name = canonical(alloc, keyword)?;
    let default = match text {
        Some(text) => text,
        None => Vec::new(alloc),
    };
    Ok(Formal {
        name,
        default,
        makes_label: false,
    })
}

/// The formal argument that an argument of `.MACRO` is.
#[tactic(auto, unfolding(crate::specs::Templates::formal_of))]
fn formal_of(alloc: Global, argument: Argument) -> Result<Option<Formal>, NoMemory>
    ensures { IfOk result (λ o. option_map formal_view o ≡ formal_of (argument_view argument)) }
{
    let Argument { keyword, text } = argument;
    match keyword {
        Some(keyword) => {
            let formal = keyword_formal(alloc, &keyword, text)?;
            Ok(Some(formal))
        }
        None => match text {
            Some(text) => plain_formal(alloc, &text),
            None => Ok(None),
        },
    }
}

/// Adds the formal argument that an argument of `.MACRO` is; false where it is none, or there is one of its name.
fn add_formal(alloc: Global, formals: &mut Formals, argument: Argument) -> Result<bool, NoMemory>
    ensures added { IfOk result (λ b. OnTrue b
        (added (formals_view formals.old) (formal_of (argument_view argument))
        ≡ Some (formals_view formals.new))) }
    ensures refused { IfOk result (λ b. OnFalse b
        (added (formals_view formals.old) (formal_of (argument_view argument)) ≡ None)) }
{
    let Some(formal) = formal_of(alloc, argument)? else {
        return Ok(false);
    };
    if formals.index_of(&formal.name).is_some() {
        return Ok(false);
    }
    let name = copied(alloc, &formal.name)?;
    formals.add(formal, name)?;
    Ok(true)
}

/// The formal arguments of a `.MACRO`; none where one is no formal argument, or two have one name.
pub(crate) fn formals_of(
    alloc: Global,
    arguments: Vec<Argument>,
) -> Result<Option<Formals>, NoMemory>
    ensures { IfOk result
        (λ o. option_map formals_view o ≡ formals_from no_formals (arguments_view arguments)) }
{
    let mut formals = Formals::new(alloc);
    for argument in arguments {
        let is_added = add_formal(alloc, &mut formals, argument)?;
        if !is_added {
            return Ok(None);
        }
    }
    Ok(Some(formals))
}

/// Adds the place of a name, if it is that of a formal argument.
fn add_slot(slots: &mut Vec<Slot>, span: Span, formal: Option<usize>) -> Result<(), NoMemory>
    ensures { OnOk result
        (slots.new.items ≡ slots.old.items ++ with_slot (slot_at span formal) []) }
{
    if let Some(formal) = formal {
        slots
            .push(Slot {
                start: span.start,
                end: span.end,
                formal,
            })
            .map_err(|_| NoMemory)?;
    }
    Ok(())
}

/// The name in a text, as it is kept.
fn name_at(alloc: Global, text: &[u8], span: Span) -> Result<Vec<u8>, NoMemory>
    ensures { IfOk result (λ v. v.items ≡ name_at text.now span) }
{
    canonical(alloc, part(text, span.start as usize, span.end as usize))
}

/// The places of formal arguments among the names of a text.
#[tactic(auto, using(crate::proofs::Slots::with_slot_more))]
fn slots_in(
    alloc: Global,
    formals: &Formals,
    text: &[u8],
    spans: &[Span],
) -> Result<Vec<Slot>, NoMemory>
    ensures { IfOk result
        (λ v. v.items ≡ slots_in (formals_view formals.now).index text.now spans.now) }
{
    let mut slots = Vec::new(alloc);
    for span in spans {
        let name = name_at(alloc, text, *span)?;
        add_slot(&mut slots, *span, formals.index_of(&name))?;
    }
    Ok(slots)
}

/// A line of a body, with the places of formal arguments.
#[tactic(auto, unfolding(crate::specs::Templates::body_line))]
fn body_line(alloc: Global, formals: &Formals, text: Vec<u8>) -> Result<BodyLine, NoMemory>
    requires { length text.items ≤ 1024 }
    ensures { IfOk result
        (λ l. line_view l ≡ body_line (formals_view formals.now).index text.items) }
{
    let spans = names(alloc, &text).map_err(|_| NoMemory)?;
    let slots = slots_in(alloc, formals, &text, &spans)?;
    Ok(BodyLine { text, slots })
}

/// Adds a line of a body.
#[tactic(auto, using(crate::proofs::Slots::line_added))]
fn add_line(lines: &mut Vec<BodyLine>, line: BodyLine) -> Result<(), NoMemory>
    ensures { OnOk result
        (map line_view lines.new.items ≡ map line_view lines.old.items ++ line_view line ∷ []) }
{
    match lines.push(line) {
        Ok(_) => Ok(()),
        Err(_) => Err(NoMemory),
    }
}

/// Adds a text.
#[tactic(auto, using(crate::proofs::Slots::text_added))]
fn add_text(texts: &mut Vec<Vec<u8>>, text: Vec<u8>) -> Result<(), NoMemory>
    ensures { OnOk result (texts_view texts.new ≡ texts_view texts.old ++ text.items ∷ []) }
{
    match texts.push(text) {
        Ok(_) => Ok(()),
        Err(_) => Err(NoMemory),
    }
}

/// What is kept of the lines of a body.
pub(crate) fn template(
    alloc: Global,
    formals: Formals,
    texts: Vec<Vec<u8>>,
) -> Result<Template, NoMemory>
    requires { All (λ t. length t.items ≤ 1024) texts.items }
    ensures { IfOk result
        (λ t. template_view t ≡ template (formals_view formals) (texts_view texts)) }
{
    let mut lines = Vec::new(alloc);
    for text in texts {
        let line = body_line(alloc, &formals, text)?;
        add_line(&mut lines, line)?;
    }
    Ok(Template { formals, lines })
}

/// Whether an apostrophe stands at a place.
fn is_apostrophe(text: &[u8], place: usize) -> bool
    ensures { result ≡ (slice_index text.now place == 39) }
{
    match text.get(place) {
        Some(byte) => *byte == b'\'',
        None => false,
    }
}

/// Where the text before a name ends: an apostrophe there is dropped.
fn cut_before(text: &[u8], at: usize, start: usize) -> usize
    ensures { result ≡ cut_before at start text.now }
{
    if at < start && is_apostrophe(text, start - 1) {
        start - 1
    } else {
        start
    }
}

/// Where the text behind a name begins: an apostrophe there is dropped.
fn cut_behind(text: &[u8], end: usize) -> usize
    requires { end < 2 ^ 63 }
    ensures { result ≡ cut_behind end text.now }
{
    if begins_with(b'\'', behind(text, end)) {
        end + 1
    } else {
        end
    }
}

fn text_of(texts: &[Vec<u8>], formal: usize) -> &[u8]
    ensures { result.now ≡ unwrap_or (slice_get (map (λ t. t.items) texts.now) formal) [] }
{
    match texts.get(formal) {
        Some(text) => text,
        None => &[],
    }
}

/// Adds what stands before a name, and the text in its place.
fn add_replaced(
    made: &mut Vec<u8>,
    texts: &[Vec<u8>],
    text: &[u8],
    at: usize,
    slot: Slot,
) -> Result<(), NoMemory>
    ensures { OnOk result (made.new.items
        ≡ made.old.items ++ replaced (map (λ t. t.items) texts.now) text.now at slot) }
{
    let end = cut_before(text, at, slot.start as usize);
    made.extend_from_slice(part(text, at, end))
        .map_err(|_| NoMemory)?;
    made.extend_from_slice(text_of(texts, slot.formal))
        .map_err(|_| NoMemory)
}

/// A line of a body with texts in place of the formal arguments.
pub(crate) fn rewritten(
    alloc: Global,
    texts: &[Vec<u8>],
    line: &BodyLine,
) -> Result<Vec<u8>, NoMemory>
    ensures { IfOk result
        (λ v. v.items ≡ rewritten (map (λ t. t.items) texts.now) (line_view line.now)) }
{
    let mut made = Vec::new(alloc);
    let mut at = 0;
    for slot in &line.slots {
        add_replaced(&mut made, texts, &line.text, at, *slot)?;
        at = cut_behind(&line.text, slot.end as usize);
    }
    made.extend_from_slice(behind(&line.text, at))
        .map_err(|_| NoMemory)?;
    Ok(made)
}

/// A made label.
fn made_label(alloc: Global, made: u32) -> Result<Vec<u8>, NoMemory>
    ensures { IfOk result (λ v. v.items ≡ made_label made) }
{
    let mut buffer = Buffer::new();
    let mut label = Vec::from_slice(
        alloc,
        buffer.format(30_000 + u64::from(made)).as_bytes(),
    ).map_err(|_| NoMemory)?;
    label.push(b'$').map_err(|_| NoMemory)?;
    Ok(label)
}

/// Which formal argument an argument is for, if it has a keyword.
fn keyword_index(
    alloc: Global,
    formals: &Formals,
    keyword: Option<&[u8]>,
) -> Result<Option<usize>, NoMemory>
    ensures { IfOk result
        (λ o. o ≡ keyword_index (formals_view formals.now) (lent_view keyword.entry)) }
{
    match keyword {
        Some(keyword) => {
            let name = canonical(alloc, keyword)?;
            Ok(formals.index_of(&name))
        }
        None => Ok(None),
    }
}

/// No texts for so many formal arguments.
#[tactic(auto, using(crate::proofs::Slots::one_nothing))]
fn nothing_given(alloc: Global, count: usize) -> Result<Vec<Option<Vec<u8>>>, NoMemory>
    ensures { IfOk result (λ v. given_view v ≡ replicate count None) }
{
    let mut given = Vec::new(alloc);
    for _ in 0..count {
        given.push(None).map_err(|_| NoMemory)?;
    }
    Ok(given)
}

/// Puts a text at a place, if there is such a place.
#[tactic(auto, using(crate::proofs::Slots::setting, crate::proofs::Slots::setting_past))]
fn put(texts: &mut Vec<Option<Vec<u8>>>, place: usize, text: Option<Vec<u8>>)
    ensures { given_view texts.new ≡ set (given_view texts.old) place (owned_view text) }
{
    if place < texts.len() {
        texts[place] = text;
    }
}

impl Giving {
    ghost use Rattle.std.specs.Prelude.{◌≡◌, Some, None};
    ghost use Rattle.std.specs.Bool.{OnTrue, OnFalse};
    ghost use Rattle.vax_macro.specs.Templates.{given_to};
    ghost use Rattle.vax_macro.specs.ArgumentViews.{owned_view};
    ghost use Rattle.vax_macro.specs.TemplateViews.{giving_view};

    /// Gives a text to a formal argument, or to the next one; false where there is none.
    fn give(&mut self, place: Option<usize>, text: Option<Vec<u8>>) -> bool
        ensures given { OnTrue result
            (given_to place (owned_view text) (giving_view self.old)
            ≡ Some (giving_view self.new)) }
        ensures full { OnFalse result
            (given_to place (owned_view text) (giving_view self.old) ≡ None) }
    {
        match place {
            Some(place) => {
                put(&mut self.texts, place, text);
                true
            }
            None => {
                if self.next >= self.texts.len() {
                    return false;
                }
                put(&mut self.texts, self.next, text);
                self.next += 1;
                true
            }
        }
    }
}

/// What arguments give to formal ones; nothing where there are more places than formal arguments.
pub(crate) fn assigned(
    alloc: Global,
    formals: &Formals,
    arguments: Vec<Argument>,
) -> Result<Option<Giving>, NoMemory>
    ensures { IfOk result (λ o. option_map giving_view o
        ≡ assigned (formals_view formals.now) (arguments_view arguments)) }
{
    let texts = nothing_given(alloc, formals.list.len())?;
    let mut giving = Giving { next: 0, texts };
    for argument in arguments {
        let Argument { keyword, text } = argument;
        let place = keyword_index(alloc, formals, keyword.as_deref())?;
        if !giving.give(place, text) {
            return Ok(None);
        }
    }
    Ok(Some(giving))
}

/// The text of a formal argument: the one that is given, a new label, or the default.
fn fill(
    alloc: Global,
    formal: &Formal,
    text: Option<Vec<u8>>,
    made: &mut u32,
) -> Result<Vec<u8>, NoMemory>
    ensures filled { IfOk result (λ v. (next : ℕ → Filled) →
        filled_with made.old (formal_view formal.now) (owned_view text) next
        ≡ with_text v.items (next made.new)) }
{
    match text {
        Some(text) => Ok(text),
        None => {
            if formal.makes_label {
                let label = made_label(alloc, *made)?;
                *made = one_more(*made)?;
                Ok(label)
            } else {
                let text = copied(alloc, &formal.default)?;
                Ok(text)
            }
        }
    }
}

/// The texts of formal arguments.
pub(crate) fn filled(
    alloc: Global,
    formals: &[Formal],
    given: Vec<Option<Vec<u8>>>,
    made: &mut u32,
) -> Result<Vec<Vec<u8>>, NoMemory>
    ensures { IfOk result (λ v. filled made.old (map formal_view formals.now) (given_view given)
        ≡ record { texts = texts_view v; made = made.new }) }
{
    let mut texts = Vec::new(alloc);
    let mut place = 0;
    for text in given {
        if place >= formals.len() {
            return Ok(texts);
        }
        let text = fill(alloc, &formals[place], text, made)?;
        add_text(&mut texts, text)?;
        place += 1;
    }
    Ok(texts)
}
