// Items that are masks of entries.

ghost use Rattle.std.specs.Prelude.{◌≡◌, All, IfOk, OnOk};
ghost use Rattle.vax_asm_data.specs.Masks.{masked_stated, masked_told};
ghost use Rattle.vax_asm_first.specs.View.{site_seen, standing_of, told_of, Advances, ChangesScope, KeepsMark};
ghost use Rattle.vax_asm_scope.specs.Kept.{scope_of};
ghost use Rattle.vax_lex.specs.Tokens.{IsTokenOf};
ghost use Rattle.vax_lex.specs.declared.token.TokenKind.TheVariants.{Name};

use crate::items::fix;
use std::alloc::Global;
use vax_asm_encode::DataKind;
use vax_asm_first::{
    FaultKind, Site, Standing, Told, fault_of_value, filling_of, item_place, misplaces,
    unless_place,
};
use vax_lex::{Token, Value};
use vax_space::NoMemory;
use vax_word::Size;

/// The mask of an entry where it stands, alone or OR-ed with an expression.
#[tactic(auto, unfolding(vax_asm_first::specs::View::marked_standing))]
fn tell_masked(
    standing: &mut Standing,
    alloc: Global,
    site: Site<'_>,
    entry: &[u8],
    key: Token,
    tokens: &[Token],
    here: Value,
) -> Result<Told, NoMemory>
    requires tokens { All (IsTokenOf site.line.now.value.items) tokens.now }
    requires key { IsTokenOf site.line.now.value.items key }
    requires kind { key.kind ≡ Name }
    ensures told { IfOk result (λ t. told_of t (scope_of standing.new.scope)
        ≡ masked_told (site_seen site.entry) entry.now key tokens.now here
        (standing_of standing.old)) }
    ensures same { OnOk result (ChangesScope standing.old standing.new) }
    ensures mark { KeepsMark standing.old standing.new }
{
    let definition = standing.scope.mask(alloc, entry)?;
    let expression = standing.scope.masked_expression(
        alloc,
        site.dialect,
        site.line,
        tokens,
        here,
        key,
        definition,
    )?;
    Ok(standing.told_as(expression))
}

/// A word that holds the mask of the entry with this name, alone or OR-ed with an expression. The token `key` stands for the mask, with a
/// name that the expression doesn't use. Its fault, if it has one.
pub fn masked_item(
    standing: &mut Standing,
    alloc: Global,
    site: Site<'_>,
    entry: &[u8],
    key: Token,
    tokens: &[Token],
) -> Result<Option<FaultKind>, NoMemory>
    requires tokens { All (IsTokenOf site.line.now.value.items) tokens.now }
    requires key { IsTokenOf site.line.now.value.items key }
    requires kind { key.kind ≡ Name }
    ensures stated { Advances (masked_stated (site_seen site.entry) entry.now key tokens.now)
        result standing.old standing.new }
    ensures mark { KeepsMark standing.old standing.new }
{
    let kind = DataKind::Number(Size::W);
    let misplaced = misplaces(standing.dialect, site.line, tokens);
    let here = item_place(standing, site)?;
    let told = tell_masked(standing, alloc, site, entry, key, tokens, here)?;
    let fault = unless_place(misplaced, fault_of_value(kind.field(), 0, 0, told.settled));
    if fault.is_some() {
        return Ok(fault);
    }
    fix(standing, site, kind, 1, filling_of(told))
}
