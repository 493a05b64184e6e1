//! Joins modules to an image.
ghost use Rattle.std.specs.Prelude.{◌≡◌, ◌≤◌, length, All, IfOk};
ghost use Rattle.vax_module.specs.Formed.{Formed};
ghost use Rattle.vax_image.specs.declared.Base.{Base};
ghost use Rattle.vax_image.specs.Image.{IsImage, is_in};
ghost use Rattle.vax_link.specs.Placed.{IsValues};
ghost use Rattle.vax_link.specs.Linked.{linked, placed, transfer_from, Gives};

use crate::LinkError;
use crate::areas::areas_of;
use crate::fields::Values;
use crate::layout::lay_out;
use crate::leads::Leads;
use crate::names::names_of;
use std::alloc::{AllocError, Global};
use vax_image::{Base, Image};
use vax_module::Module;
use vax_space::{Area, Bytes, PAGE_BYTES};

/// A name of its own.
fn copy_of(alloc: Global, name: &[u8]) -> Result<Bytes, AllocError>
    ensures { IfOk result (λ copy. copy ≡ name.now) }
{
    Ok(Vec::from_slice(alloc, name)?.into())
}

/// The address of the first transfer name.
fn transfer_of(values: &Values, modules: &[Module]) -> Option<u32>
    requires few { length modules.now ≤ 8 }
    requires formed { All Formed modules.now }
    ensures { (region : Base) → IsValues values.now region modules.now →
        result ≡ transfer_from region modules.now 0 modules.now }
{
    for (owner, module) in modules.iter().enumerate() {
        if let Some(symbol) = &module.transfer {
            return Some(values.value_of(owner as u32, symbol.value));
        }
    }
    None
}

/// Whether an area has the byte at an address.
fn is_in(areas: &[Area], address: u32) -> bool
    ensures { result ≡ is_in areas.now address }
{
    let page = address / PAGE_BYTES;
    areas.iter().any(|area| area.has_page(page))
}

/// The image of modules whose names lead to these values, or why they have none.
fn image_of(
    alloc: Global,
    base: Base,
    modules: &[Module],
    values: &Values,
) -> Result<Image, LinkError>
    requires few { length modules.now ≤ 8 }
    requires formed { All Formed modules.now }
    requires values { IsValues values.now base modules.now }
    ensures placed { Gives result (placed base modules.now) }
    ensures image { IfOk result IsImage }
{
    let filled = values.filled(alloc, modules)?;
    let areas = areas_of(alloc, values.layout(), &filled)?;
    let Some(transfer) = transfer_of(values, modules) else {
        return Err(LinkError::NoTransfer);
    };
    if !is_in(&areas, transfer) {
        return Err(LinkError::NoTransfer);
    }
    if let Some(address) = values.unreached(modules) {
        return Err(LinkError::Reach(address));
    }
    Ok(Image {
        base,
        transfer,
        areas: areas.into(),
    })
}

/// Joins 1 to 8 modules to an image for a base, or tells why they have none.
pub fn link(alloc: Global, modules: &[Module], base: Base) -> Result<Image, LinkError>
    requires some { 1 ≤ length modules.now }
    requires few { length modules.now ≤ 8 }
    requires formed { All Formed modules.now }
    ensures linked { Gives result (linked base modules.now) }
    ensures image { IfOk result IsImage }
{
    let names = match names_of(alloc, modules)? {
        Ok(names) => names,
        Err(name) => return Err(LinkError::Duplicate(copy_of(alloc, name)?)),
    };
    let mut leads = Leads::new(alloc, names);
    if let Some(external) = leads.undefined()? {
        let name = external.name.as_slice();
        return Err(LinkError::Undefined(copy_of(alloc, name)?));
    }
    let Some(layout) = lay_out(alloc, base, modules)? else {
        return Err(LinkError::Pages);
    };
    let values = Values::new(alloc, layout, &leads)?;
    image_of(alloc, base, modules, &values)
}
