// What the lines of a source do.

ghost use Rattle.std.specs.Prelude.{◌≡◌, ◌+◌, ◌-◌, ◌<◌, ◌∷◌, [], ◌==◌, true, length, map, option_map, IfOk, Ok};
ghost use Rattle.vax_dialect.specs.Differences.{has_negative_repeats};
ghost use Rattle.vax_macro.specs.Directives.{operands_from, negative_count, begins, ends, nested_after, listed, is_named, end_fault, body_fault, formal_name, iterated, iterated_from, iterated_in, iterated_two, two_texts, call, read, operands_fault, expansion, expansions, copies, one_formal, behind_comma, is_parted, macro_formals, argument_texts, character_texts, count_of};
ghost use Rattle.vax_macro.specs.Heads.{code_from};
ghost use Rattle.vax_macro.specs.ArgumentViews.{arguments_view, lent_arguments, lent_view};
ghost use Rattle.vax_macro.specs.Arguments.{arguments};
ghost use Rattle.vax_macro.specs.Conditions.{no_keyword};
ghost use Rattle.vax_macro.specs.ConditionViews.{Decides, iterated_view, listed_view, pair_view};
ghost use Rattle.vax_macro.specs.HeadViews.{word_view};
ghost use Rattle.vax_macro.specs.LineViews.{frame_lines, opened_lines};
ghost use Rattle.vax_macro.specs.TemplateViews.{template_view, formals_view, texts_view};
ghost use Rattle.vax_macro.specs.View.{use_view, opening_of};

use crate::arguments::{
    AnyName, Argument, NoKeyword, arguments, bare_length, behind_blanks, closing,
};
use crate::conditions::{Refusal, comma_in, text_of};
use crate::counts::one_more;
use crate::error::FaultKind;
use crate::heads::{Word, code_from, has_bad, has_unprintable, piece_text};
use crate::line_types::{Frame, Reading};
use crate::names::{begins_with, behind, copied, is_name};
use crate::state_types::{Begin, Use};
use crate::template_types::{Formal, Formals, Template};
use crate::templates::{canonical, formals_of};
use std::alloc::Global;
use std::collections::VecDeque;
use std::rc::Rc;
use vax_dialect::Dialect;
use vax_lex::{Piece, is_blank, spells};
use vax_space::NoMemory;

/// Whether a line begins a body of such a use within it.
fn begins(use_of: &Use, word: Word) -> bool
    ensures { result ≡ begins (use_view use_of.now) (word_view word) }
{
    match use_of {
        Use::Macro { .. } => matches!(word, Word::Macro),
        Use::Copies(_) | Use::Each { .. } => {
            matches!(
                word,
                Word::Repeat | Word::RepeatArguments | Word::RepeatCharacters
            )
        }
    }
}

/// Whether a line ends a body of such a use.
pub(crate) fn ends(use_of: &Use, word: Word) -> bool
    ensures { result ≡ ends (use_view use_of.now) (word_view word) }
{
    match use_of {
        Use::Macro { .. } => matches!(word, Word::EndMacro),
        Use::Copies(_) | Use::Each { .. } => matches!(word, Word::EndRepeat),
    }
}

/// How many begins in a body have no end behind a line.
pub(crate) fn nested_after(use_of: &Use, word: Word, nested: u32) -> Result<u32, NoMemory>
    ensures { IfOk result (λ n. n ≡ nested_after (use_view use_of.now) (word_view word) nested) }
{
    if begins(use_of, word) {
        let more = one_more(nested)?;
        return Ok(more);
    }
    if ends(use_of, word) {
        return Ok(nested.saturating_sub(1));
    }
    Ok(nested)
}

/// Where a line is.
pub(crate) fn begin_at(line: &Reading, read: u32) -> Begin
    ensures { opening_of result ≡ record { number = line.now.number; place = read } }
{
    Begin {
        number: line.number,
        place: read,
    }
}

/// The fault of a directive that has no operands, if it has some.
pub(crate) fn operands_fault(pieces: &[Piece], operands: &[Piece]) -> Option<FaultKind>
    ensures { result ≡ operands_fault pieces.now operands.now }
{
    if has_bad(pieces) {
        Some(FaultKind::Token)
    } else if operands.is_empty() {
        None
    } else {
        Some(FaultKind::Count)
    }
}

/// Whether the one operand of an `.ENDM` is the name of the macro that ends here, if one does.
fn is_named(text: &[u8], name: Option<&[u8]>, operands: &[Piece]) -> bool
    ensures { result ≡ is_named text.now (lent_view name.entry) operands.now }
{
    let Some(name) = name else {
        return false;
    };
    match operands {
        [piece] => spells(name, piece_text(text, *piece)),
        _ => false,
    }
}

/// The fault of the operands of an `.ENDM`, if they have one.
pub(crate) fn end_fault(
    text: &[u8],
    name: Option<&[u8]>,
    pieces: &[Piece],
    operands: &[Piece],
) -> Option<FaultKind>
    ensures { result ≡ end_fault text.now (lent_view name.entry) pieces.now operands.now }
{
    if has_bad(pieces) {
        Some(FaultKind::Token)
    } else if operands.is_empty() {
        None
    } else if comma_in(operands).is_some() {
        Some(FaultKind::Count)
    } else if is_named(text, name, operands) {
        None
    } else {
        Some(FaultKind::Form)
    }
}

/// The fault of a line that ends a body, if it has one.
pub(crate) fn body_fault(
    use_of: &Use,
    text: &[u8],
    pieces: &[Piece],
    operands: &[Piece],
) -> Option<FaultKind>
    ensures { result ≡ body_fault (use_view use_of.now) text.now pieces.now operands.now }
{
    match use_of {
        Use::Macro { name, .. } => end_fault(text, Some(name), pieces, operands),
        Use::Copies(_) | Use::Each { .. } => operands_fault(pieces, operands),
    }
}

/// These texts, each in a list of its own.
fn each_alone(alloc: Global, texts: Vec<Vec<u8>>) -> Result<VecDeque<Vec<Vec<u8>>>, NoMemory>
    ensures { IfOk result
        (λ v. map texts_view v.items ≡ map (λ text. text ∷ []) (texts_view texts)) }
{
    let mut others = VecDeque::new(alloc);
    for text in texts {
        let mut one = Vec::new(alloc);
        one.push(text).map_err(|_| NoMemory)?;
        others.push_back(one).map_err(|_| NoMemory)?;
    }
    Ok(others)
}

/// A template that expansions share.
fn kept(alloc: Global, template: Template) -> Result<Rc<Template>, NoMemory>
    ensures { IfOk result (λ rc. rc.value ≡ template) }
{
    Rc::new(alloc, template).map_err(|_| NoMemory)
}

/// A frame of copies in one text each.
pub(crate) fn copies_each(
    alloc: Global,
    template: Template,
    texts: Vec<Vec<u8>>,
    number: u32,
    depth: u32,
) -> Result<Option<Frame>, NoMemory>
    ensures { IfOk result (λ o. opened_lines o
        ≡ expansions (template_view template).lines number depth (texts_view texts)) }
{
    let mut others = each_alone(alloc, texts)?;
    let Some(first) = others.pop_front() else {
        return Ok(None);
    };
    let template = kept(alloc, template)?;
    Ok(Some(Frame {
        template,
        at: 0,
        texts: first,
        copies: 0,
        others,
        number,
        depth,
    }))
}

/// A frame of so many copies.
#[tactic(auto, using(crate::proofs::Frames::repeated))]
pub(crate) fn copies_of(
    alloc: Global,
    template: Template,
    count: u64,
    number: u32,
    depth: u32,
) -> Result<Option<Frame>, NoMemory>
    ensures { IfOk result (λ o. opened_lines o
        ≡ copies count (expansion (template_view template).lines number depth [])) }
{
    if count == 0 {
        return Ok(None);
    }
    let template = Rc::new(alloc, template).map_err(|_| NoMemory)?;
    Ok(Some(Frame {
        template,
        at: 0,
        texts: Vec::new(alloc),
        copies: count - 1,
        others: VecDeque::new(alloc),
        number,
        depth,
    }))
}

/// A frame of a call.
#[tactic(auto, using(crate::proofs::Frames::opens))]
pub(crate) fn call_frame(
    alloc: Global,
    template: Rc<Template>,
    texts: Vec<Vec<u8>>,
    number: u32,
    depth: u32,
) -> Frame
    ensures lines { frame_lines result
        ≡ expansion (template_view template.value).lines number depth (texts_view texts) }
    ensures depth { result.depth ≡ depth }
{
    Frame {
        template,
        at: 0,
        texts,
        copies: 0,
        others: VecDeque::new(alloc),
        number,
        depth,
    }
}

/// The formal argument of a repeat alone.
pub(crate) fn one_formal(alloc: Global, name: Vec<u8>) -> Result<Formals, NoMemory>
    ensures { IfOk result (λ fs. formals_view fs ≡ one_formal name.items) }
{
    let mut formals = Formals::new(alloc);
    let copy = copied(alloc, &name)?;
    formals.add(
        Formal {
            name,
            default: Vec::new(alloc),
            makes_label: false,
        },
        copy,
    )?;
    Ok(formals)
}

pub(crate) fn shared(template: &Rc<Template>) -> Result<Rc<Template>, NoMemory>
    ensures { IfOk result (λ rc. rc.value ≡ template.now.value) }
{
    template.clone().map_err(|_| NoMemory)
}

/// The text of a line's operands, from a place on. In the larger language it is the arguments that tell where a comment
/// begins.
pub(crate) fn operands_from<'a>(
    larger: bool,
    line: &'a Reading,
    operands: &[Piece],
    at: usize,
) -> &'a [u8]
    ensures { result.now ≡ operands_from larger line.now.text.items operands.now at }
{
    if larger {
        behind(&line.text, at)
    } else {
        code_from(at, operands, &line.text)
    }
}

/// The text of a line's operands, from a place on.
pub(crate) fn operand_text<'a>(line: &'a Reading, operands: &[Piece], at: usize) -> &'a [u8]
    ensures { result.now ≡ code_from at operands.now line.now.text.items }
{
    code_from(at, operands, &line.text)
}

/// What is behind the name of a macro: perhaps a comma, and then formal arguments.
fn behind_comma(text: &[u8]) -> &[u8]
    ensures { result.now ≡ behind_comma text.now }
{
    let rest = behind_blanks(text);
    if begins_with(b',', rest) {
        behind_blanks(behind(rest, 1))
    } else {
        rest
    }
}

/// Whether a text begins with a blank or a comma, or is none.
fn is_parted(text: &[u8]) -> bool
    ensures { result ≡ is_parted text.now }
{
    match text.first() {
        Some(first) => is_blank(*first) || *first == b',',
        None => true,
    }
}

/// The formal arguments of a `.MACRO`, behind its name.
pub(crate) fn macro_formals(alloc: Global, text: &[u8]) -> Result<Option<Formals>, NoMemory>
    ensures { IfOk result (λ o. option_map formals_view o ≡ macro_formals text.now) }
{
    let rest = behind_comma(text);
    if !is_parted(text) || (begins_with(b',', behind_blanks(text)) && rest.is_empty()) {
        return Ok(None);
    }
    let Some(arguments) = arguments(alloc, false, &AnyName, rest)? else {
        return Ok(None);
    };
    formals_of(alloc, arguments)
}

/// The text in brackets behind the formal argument of an `.IRP`.
#[tactic(auto, unfolding(crate::specs::Directives::listed))]
fn listed(text: &[u8]) -> Result<&[u8], FaultKind>
    ensures { listed_view result ≡ listed text.now }
{
    if !begins_with(b'<', text) {
        return Err(FaultKind::Form);
    }
    let inner = behind(text, 1);
    let Some(length) = closing(inner) else {
        return Err(FaultKind::Form);
    };
    let rest = behind_blanks(behind(inner, length + 1));
    if rest.is_empty() {
        Ok(&inner[..length])
    } else if begins_with(b',', rest) {
        Err(FaultKind::Count)
    } else {
        Err(FaultKind::Form)
    }
}

/// The texts of two arguments.
pub(crate) fn two_texts(arguments: Option<&[Argument]>) -> Result<(&[u8], &[u8]), FaultKind>
    ensures { pair_view result ≡ two_texts (lent_arguments arguments.entry) }
{
    match arguments {
        None => Err(FaultKind::Form),
        Some([name, text]) => Ok((text_of(name), text_of(text))),
        Some(_) => Err(FaultKind::Count),
    }
}

/// A formal argument with this name, and a text for it.
fn iterated_of(alloc: Global, name: &[u8], text: &[u8]) -> Result<(Vec<u8>, Vec<u8>), Refusal>
    ensures { Decides iterated_view result (iterated (formal_name name.now) (Ok text.now)) }
{
    if !is_name(name) {
        return Err(Refusal::Fault(FaultKind::Form));
    }
    let name = canonical(alloc, name)?;
    let kept = copied(alloc, text)?;
    Ok((name, kept))
}

/// The formal argument of an `.IRP` or `.IRPC`, and the text for it, both as arguments of a macro.
fn iterated_by_arguments(alloc: Global, text: &[u8]) -> Result<(Vec<u8>, Vec<u8>), Refusal>
    ensures { Decides iterated_view result
        (iterated_two (two_texts (arguments true no_keyword text.now))) }
{
    let found = arguments(alloc, true, &NoKeyword, text)?;
    match two_texts(found.as_deref()) {
        Ok((name, text)) => iterated_of(alloc, name, text),
        Err(kind) => Err(Refusal::Fault(kind)),
    }
}

/// The same where the text stands in brackets.
fn iterated_in_brackets(alloc: Global, text: &[u8]) -> Result<(Vec<u8>, Vec<u8>), Refusal>
    ensures { Decides iterated_view result (iterated_from text.now) }
{
    let (name, rest) = text.split_at(bare_length(text));
    if rest.is_empty() {
        return Err(Refusal::Fault(FaultKind::Count));
    }
    match listed(behind_comma(rest)) {
        Ok(found) => iterated_of(alloc, name, found),
        Err(kind) => Err(Refusal::Fault(kind)),
    }
}

/// The formal argument of an `.IRP` or `.IRPC`, and the text for it. In the larger language both are arguments as a macro
/// has them.
#[tactic(auto, unfolding(crate::specs::Directives::iterated_in))]
pub(crate) fn iterated_in(
    alloc: Global,
    larger: bool,
    line: &Reading,
    operands: &[Piece],
    at: usize,
) -> Result<(Vec<u8>, Vec<u8>), Refusal>
    ensures { Decides iterated_view result
        (iterated_in larger line.now.text.items operands.now at) }
{
    if has_unprintable(&line.text, operands) {
        return Err(Refusal::Fault(FaultKind::Token));
    }
    if larger {
        iterated_by_arguments(alloc, behind(&line.text, at))
    } else {
        iterated_in_brackets(alloc, behind_blanks(operand_text(line, operands, at)))
    }
}

/// The texts of arguments.
pub(crate) fn argument_texts(
    alloc: Global,
    arguments: Vec<Argument>,
) -> Result<Vec<Vec<u8>>, NoMemory>
    ensures { IfOk result (λ v. texts_view v ≡ argument_texts (arguments_view arguments)) }
{
    let mut texts = Vec::new(alloc);
    for argument in arguments {
        let Argument { text, .. } = argument;
        let text = match text {
            Some(text) => text,
            None => Vec::new(alloc),
        };
        texts.push(text).map_err(|_| NoMemory)?;
    }
    Ok(texts)
}

/// The characters of a text, one by one.
pub(crate) fn character_texts(alloc: Global, text: &[u8]) -> Result<Vec<Vec<u8>>, NoMemory>
    ensures { IfOk result (λ v. texts_view v ≡ character_texts text.now) }
{
    let mut texts = Vec::new(alloc);
    for byte in text {
        let one = copied(alloc, &[*byte])?;
        texts.push(one).map_err(|_| NoMemory)?;
    }
    Ok(texts)
}

fn negative_count(dialect: Dialect) -> Result<u64, FaultKind>
    ensures { result ≡ negative_count (has_negative_repeats dialect) }
{
    if dialect.has_negative_repeats() {
        Ok(0)
    } else {
        Err(FaultKind::Range)
    }
}

/// The count of a repeat.
pub(crate) fn count_of(dialect: Dialect, number: i64) -> Result<u64, FaultKind>
    ensures { result ≡ count_of dialect number }
{
    if number < 0 {
        return negative_count(dialect);
    }
    Ok(number.unsigned_abs())
}
