//! The fields that the linker fills in.
ghost use Rattle.std.specs.Prelude.{◌≡◌, ◌≤◌, ◌+◌, ◌++◌, length, map, List, All, IfOk, OnOk, None, Some};
ghost use Rattle.std.specs.List.{fold};
ghost use Rattle.vax_image.specs.declared.Base.{Base};
ghost use Rattle.vax_module.specs.declared.Module.{Module};
ghost use Rattle.vax_module.specs.Formed.{Formed, IsFieldOf, width_of};
ghost use Rattle.vax_link.specs.Leads.{IsLeads};
ghost use Rattle.vax_link.specs.Names.{entries_from};
ghost use Rattle.vax_link.specs.Placed.{bytes_in, IsLayout, IsValues};
ghost use Rattle.vax_link.specs.Values as spec;

use crate::leads::Leads;
use crate::names::{Chased, low_longword};
use crate::placed::Layout;
use byteorder::{ByteOrder, LittleEndian};
use std::alloc::{AllocError, Global};
use vax_module::{ExternalName, Module, Reloc, RelocKind, Section, Value};

/// The values of names and fields, where the modules lie.
#[derive(Drop)]
pub(crate) struct Values<'a> {
    layout: Layout<'a>,
    /// The value of each external name, by module and index.
    externals: Vec<Vec<u32>>,
}

/// Whether the field holds the distance to its target.
fn is_relative(kind: RelocKind) -> bool
    ensures { result ≡ spec.is_relative kind }
{
    match kind {
        RelocKind::Byte | RelocKind::Word | RelocKind::Long => false,
        RelocKind::RelByte | RelocKind::RelWord | RelocKind::RelLong => true,
    }
}

/// What a field at an address holds: its target's value, or the distance to it from past the field.
fn content(kind: RelocKind, address: u32, value: u32) -> u32
    ensures { result ≡ spec.content kind address value }
{
    if is_relative(kind) {
        value.wrapping_sub(address.wrapping_add(u32::from(kind.width())))
    } else {
        value
    }
}

/// Whether a field at an address can hold what it is to hold.
#[tactic(auto, unfolding(crate::specs::Values::is_in_reach))]
fn is_in_reach(kind: RelocKind, address: u32, value: u32) -> bool
    ensures { result ≡ spec.is_in_reach kind address value }
{
    let n = content(kind, address, value);
    match kind {
        RelocKind::Long | RelocKind::RelLong => true,
        RelocKind::Byte | RelocKind::RelByte => !(0x80..0xFFFF_FF80).contains(&n),
        RelocKind::Word | RelocKind::RelWord => !(0x8000..0xFFFF_8000).contains(&n),
    }
}

/// Puts the low bytes of a number into a field.
#[tactic(auto, unfolding(crate::specs::Values::with_field))]
fn put_field(bytes: &mut [u8], offset: u32, kind: RelocKind, n: u32)
    requires { offset + width_of kind ≤ length bytes.old }
    ensures { bytes.new ≡ spec.with_field bytes.old offset (width_of kind) n }
{
    let mut whole = [0; 4];
    LittleEndian::write_u32(&mut whole, n);
    let begin = offset as usize;
    let width = kind.width() as usize;
    bytes[begin..begin + width].copy_from_slice(&whole[..width]);
}

impl<'a> Values<'a> {
    /// The values, where every name leads to a place, or is weak.
    pub(crate) fn new(
        alloc: Global,
        layout: Layout<'a>,
        leads: &Leads<'a>,
    ) -> Result<Values<'a>, AllocError>
        ensures { let modules = leads.now.names.modules.now in (region : Base) →
            IsLayout layout.entry region modules → IsLeads leads.now (entries_from 0 modules) →
            IfOk result (λ values. IsValues values region modules) }
    {
        let mut externals = Vec::new(alloc);
        for module in leads.names.modules {
            externals.push(values_of_names(alloc, &layout, leads, module.externals.as_slice())?)?;
        }
        Ok(Values { layout, externals })
    }

    /// The low 32 bits of what a value of a module stands for.
    pub(crate) fn value_of(&self, owner: u32, value: Value) -> u32
        ensures { (region : Base) (modules : List Module) →
            IsValues self.now region modules → result ≡ spec.value_of region modules owner value }
    {
        match value {
            Value::Absolute(n) => low_longword(n),
            Value::Section { section, offset } => {
                section_address(&self.layout, owner, section).wrapping_add(low_longword(offset))
            }
            Value::External { index, offset } => self
                .external_value(owner, index)
                .wrapping_add(low_longword(offset)),
        }
    }

    /// The value of an external name of a module.
    fn external_value(&self, owner: u32, index: u32) -> u32
        ensures { (region : Base) (modules : List Module) → IsValues self.now region modules →
            result ≡ spec.value_of_external region modules owner index }
    {
        match self.externals.get(owner as usize) {
            None => 0,
            Some(values) => match values.get(index as usize) {
                None => 0,
                Some(value) => *value,
            },
        }
    }

    /// The address of a field of a module.
    fn field_address(&self, owner: u32, reloc: Reloc) -> u32
        ensures { (region : Base) (modules : List Module) → IsValues self.now region modules →
            result ≡ spec.field_address region modules owner reloc }
    {
        section_address(&self.layout, owner, reloc.section).wrapping_add(reloc.offset)
    }

    /// The lowest address of a field out of reach.
    pub(crate) fn unreached(&self, modules: &[Module]) -> Option<u32>
        requires { length modules.now ≤ 8 }
        ensures { (region : Base) → IsValues self.now region modules.now →
            result ≡ spec.unreached_from region modules.now 0 None modules.now }
    {
        let mut found = None;
        for (owner, module) in modules.iter().enumerate() {
            found = self.unreached_of(owner as u32, module.relocs.as_slice(), found);
        }
        found
    }

    /// The lowest of an address, if there is one, and of those of a module's fields out of reach.
    fn unreached_of(&self, owner: u32, relocs: &[Reloc], found: Option<u32>) -> Option<u32>
        ensures { (region : Base) (modules : List Module) → IsValues self.now region modules →
            result ≡ fold (spec.with_reach region modules owner) found relocs.now }
    {
        let mut lowest = found;
        for reloc in relocs {
            let address = self.field_address(owner, *reloc);
            let value = self.value_of(owner, reloc.target);
            if !is_in_reach(reloc.kind, address, value) {
                lowest = lower(lowest, address);
            }
        }
        lowest
    }

    /// The bytes of all sections, module by module, with the relocated fields filled in.
    pub(crate) fn filled(
        &self,
        alloc: Global,
        modules: &[Module],
    ) -> Result<Vec<Vec<u8>>, AllocError>
        requires few { length modules.now ≤ 8 }
        requires formed { All Formed modules.now }
        ensures { (region : Base) → IsValues self.now region modules.now →
            IfOk result (λ filled. bytes_in filled.items
            ≡ spec.filled_from region modules.now 0 modules.now) }
    {
        let mut filled = Vec::new(alloc);
        for (owner, module) in modules.iter().enumerate() {
            let relocs = module.relocs.as_slice();
            self.push_filled(
                alloc,
                owner as u32,
                relocs,
                module.sections.as_slice(),
                &mut filled,
            )?;
        }
        Ok(filled)
    }

    /// Appends the bytes of a module's sections, with its relocated fields filled in.
    fn push_filled(
        &self,
        alloc: Global,
        owner: u32,
        relocs: &[Reloc],
        sections: &[Section],
        filled: &mut Vec<Vec<u8>>,
    ) -> Result<(), AllocError>
        requires { All (IsFieldOf sections.now) relocs.now }
        ensures { (region : Base) (modules : List Module) → IsValues self.now region modules →
            OnOk result (bytes_in filled.new.items ≡ bytes_in filled.old.items
            ++ spec.filled_sections_from region modules owner relocs.now 0
            (map (λ s. s.bytes) sections.now)) }
    {
        for (number, section) in sections.iter().enumerate() {
            let bytes = section.bytes.as_slice();
            filled.push(self.filled_section(alloc, owner, relocs, number, bytes)?)?;
        }
        Ok(())
    }

    /// A section's bytes with the relocated fields filled in that it has.
    fn filled_section(
        &self,
        alloc: Global,
        owner: u32,
        relocs: &[Reloc],
        number: usize,
        section: &[u8],
    ) -> Result<Vec<u8>, AllocError>
        requires { All (spec.IsWithin number section.now) relocs.now }
        ensures { (region : Base) (modules : List Module) → IsValues self.now region modules →
            IfOk result (λ bytes. bytes.items
            ≡ fold (spec.with_reloc region modules owner number) section.now relocs.now) }
    {
        let mut bytes = Vec::from_slice(alloc, section)?;
        for reloc in relocs {
            if reloc.section as usize == number {
                let address = self.field_address(owner, *reloc);
                let value = self.value_of(owner, reloc.target);
                let n = content(reloc.kind, address, value);
                put_field(&mut bytes, reloc.offset, reloc.kind, n);
            }
        }
        Ok(bytes)
    }

    /// Where the modules lie.
    pub(crate) fn layout(&self) -> &Layout<'a>
        ensures { result.now ≡ self.now.layout }
    {
        &self.layout
    }
}

/// The lower of two addresses, if there are.
fn lower(found: Option<u32>, address: u32) -> Option<u32>
    ensures { result ≡ spec.lower found address }
{
    match found {
        None => Some(address),
        Some(least) => {
            if address < least {
                Some(address)
            } else {
                Some(least)
            }
        }
    }
}

/// Where a section of a module lies.
fn section_address(layout: &Layout, owner: u32, section: u32) -> u32
    ensures { (region : Base) (modules : List Module) → IsLayout layout.now region modules →
        result ≡ spec.section_address region modules owner section }
{
    match layout.firsts.get(owner as usize) {
        None => 0,
        Some(first) => match layout.addresses.get(*first..) {
            None => 0,
            Some(addresses) => match addresses.get(section as usize) {
                None => 0,
                Some(address) => *address,
            },
        },
    }
}

/// The value of a number, or of a place in a section.
fn known_value(layout: &Layout, owner: u32, value: Value) -> u32
    ensures { (region : Base) (modules : List Module) →
        IsLayout layout.now region modules → result ≡ spec.known_value region modules owner value }
{
    match value {
        Value::Absolute(n) => low_longword(n),
        Value::Section { section, offset } => {
            section_address(layout, owner, section).wrapping_add(low_longword(offset))
        }
        Value::External {
            index: _,
            offset: _,
        } => 0,
    }
}

/// The value of a name.
fn name_value<'a>(layout: &Layout<'a>, leads: &Leads<'a>, name: &'a [u8]) -> u32
    ensures { let modules = leads.now.names.modules.now in (region : Base) →
        IsLayout layout.now region modules → IsLeads leads.now (entries_from 0 modules) →
        result ≡ spec.name_value region modules name.entry.now }
{
    match leads.chase(name) {
        Chased::Ends(owner, value, offset) => {
            known_value(layout, owner, value).wrapping_add(offset)
        }
        // A weak name that no module defines is 0.
        Chased::Unknown(offset) => offset,
        Chased::Circles => 0,
    }
}

/// The values of external names.
fn values_of_names<'a>(
    alloc: Global,
    layout: &Layout<'a>,
    leads: &Leads<'a>,
    externals: &'a [ExternalName],
) -> Result<Vec<u32>, AllocError>
    ensures { let modules = leads.now.names.modules.now in (region : Base) →
        IsLayout layout.now region modules → IsLeads leads.now (entries_from 0 modules) →
        IfOk result (λ values. values.items
        ≡ map (spec.external_value region modules) externals.entry.now) }
{
    let mut values = Vec::new(alloc);
    for external in externals {
        values.push(name_value(layout, leads, external.name.as_slice()))?;
    }
    Ok(values)
}
