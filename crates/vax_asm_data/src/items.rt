// Items of data.

ghost use Rattle.std.specs.Prelude.{◌≡◌, ◌<◌, ◌^◌, ℕ, List, All, IfOk, length, map};
ghost use Rattle.vax_asm_data.specs.Data.{expression_stated, fixed, is_nothing, item_as, item_stated, zero_stated, items_stated, data_stated, addresses_stated, too_many};
ghost use Rattle.vax_lex.specs.Tokens.{IsTokenOf};
ghost use Rattle.vax_asm_first.specs.Progress.{begun, site_of};
ghost use Rattle.vax_asm_first.specs.View.{filling_of, progress_of, site_seen, standing_of, Advances, States, KeepsMark};
ghost use Rattle.vax_asm_statement.specs.Items.{item_seen, whole};
ghost use Rattle.vax_asm_statement.specs.Parts.{parts};
ghost use Rattle.vax_asm_statement.specs.Within.{ItemWithin};

use std::alloc::Global;
use std::rc::Rc;
use vax_asm_encode::DataKind;
use vax_asm_first::{
    Content, FaultKind, Filling, Fixup, Origin, Refused, Site, Standing, add, fault_of_value,
    filling_of, item_place, known_count, lowest, misplaces, site_of, unless_place,
};
use vax_asm_sections::Piece;
use vax_asm_statement::{Item, parts, read_item};
use vax_lex::{Token, Value};
use vax_space::NoMemory;
use vax_word::Size;

/// More items than this have more bytes than a module can have.
const MOST_ITEMS: u64 = 16_777_216;

/// The fault of more items than a module can have: in a section that only counts all are one.
fn too_many(standing: &Standing) -> FaultKind
    ensures { result ≡ too_many (standing_of standing.now) }
{
    if standing.only_counts() {
        FaultKind::Form
    } else {
        FaultKind::Large
    }
}

/// An item without a fault.
#[tactic(auto, using(crate::proofs::Limits::items_too_many, crate::proofs::Limits::bytes_fit))]
pub(crate) fn fix(
    standing: &mut Standing,
    site: Site<'_>,
    kind: DataKind,
    count: u64,
    filling: Filling,
) -> Result<Option<FaultKind>, NoMemory>
    ensures stated { Advances (fixed kind (site_seen site.entry) count (filling_of filling))
        result standing.old standing.new }
    ensures mark { KeepsMark standing.old standing.new }
{
    if count > MOST_ITEMS {
        return Ok(Some(too_many(standing)));
    }
    let count = count as u32;
    let fixup = Fixup {
        origin: site.origin,
        at: standing.section_size(),
        content: Content::Data { kind, count },
        filling,
    };
    add(standing, kind.bytes() * count, Piece::Field(fixup))
}

/// An item without an expression: zeros, so many times. Its fault, if it has one.
fn state_zero(
    standing: &mut Standing,
    alloc: Global,
    site: Site<'_>,
    kind: DataKind,
    item: Item<'_>,
) -> Result<Option<FaultKind>, NoMemory>
    requires { ItemWithin site.line.now.value.items (item_seen item) }
    ensures stated { Advances (zero_stated kind (site_seen site.entry) (item_seen item.entry))
        result standing.old standing.new }
    ensures mark { KeepsMark standing.old standing.new }
{
    match known_count(standing, alloc, site, item.count)? {
        Ok(count) => fix(
            standing,
            site,
            kind,
            count,
            Filling::Known(Value::Absolute(0)),
        ),
        Err(fault) => Ok(Some(fault)),
    }
}

/// An expression that a field of this kind holds, so many times. Its fault, if it has one.
fn state_expression(
    standing: &mut Standing,
    alloc: Global,
    site: Site<'_>,
    kind: DataKind,
    item: Item<'_>,
) -> Result<Option<FaultKind>, NoMemory>
    requires { ItemWithin site.line.now.value.items (item_seen item) }
    ensures stated { Advances (expression_stated kind (site_seen site.entry) (item_seen item.entry))
        result standing.old standing.new }
    ensures mark { KeepsMark standing.old standing.new }
{
    let misplaced = misplaces(standing.dialect, site.line, item.expression);
    let here = item_place(standing, site)?;
    let told = standing.tell(alloc, site.dialect, site.line, item.expression, here)?;
    let fault = unless_place(misplaced, fault_of_value(kind.field(), 0, 0, told.settled));
    let count = known_count(standing, alloc, site, item.count)?;
    let count = match count {
        Ok(count) => count,
        Err(other) => return Ok(lowest(fault, Some(other))),
    };
    if fault.is_some() {
        return Ok(fault);
    }
    fix(standing, site, kind, count, filling_of(told))
}

fn is_nothing(tokens: &[Token]) -> bool
    ensures { result ≡ is_nothing tokens.now }
{
    match tokens {
        [] => true,
        [_, ..] => false,
    }
}

/// One item. Its fault, if it has one.
fn state_item(
    standing: &mut Standing,
    alloc: Global,
    site: Site<'_>,
    kind: DataKind,
    item: Item<'_>,
) -> Result<Option<FaultKind>, NoMemory>
    requires { ItemWithin site.line.now.value.items (item_seen item) }
    ensures stated { Advances (item_stated kind (site_seen site.entry) (item_seen item.entry))
        result standing.old standing.new }
    ensures mark { KeepsMark standing.old standing.new }
{
    if is_nothing(item.expression) && standing.dialect.has_empty_items() {
        state_zero(standing, alloc, site, kind, item)
    } else {
        state_expression(standing, alloc, site, kind, item)
    }
}

/// The item that an operand is: `e[n]` too, or `e` alone.
fn read_as<'a>(once: bool, part: &'a [Token]) -> Item<'a>
    ensures item { item_seen result ≡ item_as once part.now }
    // It is made of these tokens.
    ensures within { (line : List ℕ) →
        All (IsTokenOf line) part.now → ItemWithin line (item_seen result) }
{
    if once {
        Item {
            expression: part,
            count: None,
        }
    } else {
        read_item(part)
    }
}

/// The item that a part of a statement is. Its fault, if it has one.
fn state_part(
    standing: &mut Standing,
    alloc: Global,
    site: Site<'_>,
    kind: DataKind,
    once: bool,
    part: &[Token],
) -> Result<Option<FaultKind>, NoMemory>
    requires { All (IsTokenOf site.line.now.value.items) part.now }
    ensures stated { Advances (item_stated kind (site_seen site.entry) (item_as once part.now))
        result standing.old standing.new }
    ensures mark { KeepsMark standing.old standing.new }
{
    let item = read_as(once, part);
    state_item(standing, alloc, site, kind, item)
}

/// An item that is written once, as a part of a statement. Its fault, if it has one.
pub fn item(
    standing: &mut Standing,
    alloc: Global,
    site: Site<'_>,
    kind: DataKind,
    tokens: &[Token],
) -> Result<Option<FaultKind>, NoMemory>
    requires { All (IsTokenOf site.line.now.value.items) tokens.now }
    ensures stated { Advances (item_stated kind (site_seen site.entry) (whole tokens.now))
        result standing.old standing.new }
    ensures mark { KeepsMark standing.old standing.new }
{
    state_part(standing, alloc, site, kind, true, tokens)
}

/// The items that operands are. The fault that counts, if one has any.
#[tactic(auto, using(crate::proofs::Folding::item_step))]
fn state_items(
    standing: &mut Standing,
    alloc: Global,
    site: Site<'_>,
    kind: DataKind,
    once: bool,
    operands: &[Token],
) -> Result<Option<FaultKind>, NoMemory>
    requires tokens { All (IsTokenOf site.line.now.value.items) operands.now }
    requires few { length operands.now < 2 ^ 32 }
    ensures stated { IfOk result (λ f. progress_of f standing.new
        ≡ items_stated kind (site_seen site.entry) (map (item_as once)
        (parts operands.now)) (begun (standing_of standing.old))) }
    ensures mark { KeepsMark standing.old standing.new }
{
    let list = parts(alloc, operands).map_err(|_| NoMemory)?;
    let mut fault = None;
    for part in &list {
        let found = state_part(standing, alloc, site, kind, once, part)?;
        fault = lowest(fault, found);
    }
    Ok(fault)
}

/// The items of a directive.
fn state(
    standing: &mut Standing,
    alloc: Global,
    origin: Origin,
    line: &Rc<Vec<u8>>,
    kind: DataKind,
    once: bool,
    operands: &[Token],
) -> Result<Option<FaultKind>, NoMemory>
    requires tokens { All (IsTokenOf line.now.value.items) operands.now }
    requires few { length operands.now < 2 ^ 32 }
    ensures stated { IfOk result (λ f. progress_of f standing.new
        ≡ items_stated kind (site_of origin line.now.value.items (standing_of standing.old))
        (map (item_as once) (parts operands.now)) (begun (standing_of standing.old))) }
    ensures mark { KeepsMark standing.old standing.new }
{
    let site = site_of(origin, line, standing)?;
    state_items(standing, alloc, site, kind, once, operands)
}

/// `.BYTE`, `.WORD`, `.LONG`, `.QUAD`, `.OCTA`, `.SIGNED_BYTE` and `.SIGNED_WORD`: items of this kind, `e` or `e[n]`.
///
/// [`Refused::Fault`] with the fault that counts: `Count` where there are no items, `Form` where an item is no expression,
/// uses a `.` that may not stand there or is a relocatable one that isn't of a longword, or where a count is no number, `Undefined` where a count isn't
/// known, `Range` where a value doesn't fit or a count is negative, `Large` where the section or the module would be too long.
/// [`Refused::NoMemory`] where memory is refused. Nothing of use is left then.
#[tactic(auto, unfolding(crate::specs::Data::data_stated))]
pub fn data(
    standing: &mut Standing,
    alloc: Global,
    origin: Origin,
    line: &Rc<Vec<u8>>,
    kind: DataKind,
    operands: &[Token],
) -> Result<(), Refused>
    requires tokens { All (IsTokenOf line.now.value.items) operands.now }
    requires few { length operands.now < 2 ^ 32 }
    ensures stands { States (data_stated kind origin line.now.value.items operands.now)
        result standing.old standing.new }
    ensures mark { KeepsMark standing.old standing.new }
{
    if operands.is_empty() {
        return Err(Refused::Fault(FaultKind::Count));
    }
    match state(standing, alloc, origin, line, kind, false, operands) {
        Ok(None) => Ok(()),
        Ok(Some(fault)) => Err(Refused::Fault(fault)),
        Err(NoMemory) => Err(Refused::NoMemory),
    }
}

/// `.ADDRESS`: longwords, each written once.
///
/// [`Refused`] as for [`data`].
#[tactic(auto, unfolding(crate::specs::Data::addresses_stated))]
pub fn addresses(
    standing: &mut Standing,
    alloc: Global,
    origin: Origin,
    line: &Rc<Vec<u8>>,
    operands: &[Token],
) -> Result<(), Refused>
    requires tokens { All (IsTokenOf line.now.value.items) operands.now }
    requires few { length operands.now < 2 ^ 32 }
    ensures stands { States (addresses_stated origin line.now.value.items operands.now)
        result standing.old standing.new }
    ensures mark { KeepsMark standing.old standing.new }
{
    if operands.is_empty() {
        return Err(Refused::Fault(FaultKind::Count));
    }
    match state(
        standing,
        alloc,
        origin,
        line,
        DataKind::Number(Size::L),
        true,
        operands,
    ) {
        Ok(None) => Ok(()),
        Ok(Some(fault)) => Err(Refused::Fault(fault)),
        Err(NoMemory) => Err(Refused::NoMemory),
    }
}
