//! The laws of images (VAX/VMS Linker Reference Manual, "Image section generation" and "Relocation"): what modules put into their sections stands
//! in the image at the addresses that names and fields have. Each is the contract of a call that does nothing.
#![tactic(auto)]

ghost use Rattle.std.specs.Prelude.{◌≡◌, ◌+◌, ◌<◌, ℕ, ℤ, true, All, List, Ok, length, slice_index};
ghost use Rattle.byteorder.specs.Endian.{little_bytes};
ghost use Rattle.vax_image.specs.declared.Base.{Base};
ghost use Rattle.vax_image.specs.declared.Image.{Image};
ghost use Rattle.vax_image.specs.Image.{is_in};
ghost use Rattle.vax_lex.specs.declared.value.Value.TheVariants.{Section as InSection};
ghost use Rattle.vax_link.specs.Layout.{is_overlaid};
ghost use Rattle.vax_link.specs.Linked.{linked};
ghost use Rattle.vax_link.specs.Names.{low_longword, plus};
ghost use Rattle.vax_link.specs.Values.{field_content, name_value, section_address, value_of};
ghost use Rattle.vax_link_laws.specs.Holding.{AreOthers, HasField, HasName, HasSection, Holds, IsOwn, LieApart};
ghost use Rattle.vax_link_laws.specs.Leading.{leads_to};
ghost use Rattle.vax_module.specs.Formed.{Formed, width_of};
ghost use Rattle.vax_module.specs.declared.Module.{Module};
ghost use Rattle.vax_module.specs.declared.Reloc.{Reloc};
ghost use Rattle.vax_module.specs.declared.Section.{Section};
ghost use Rattle.vax_module.specs.declared.Symbol.{Symbol};

/// Each byte of a module's section stands in the image at the section's address plus its place: the module's own, or one of a field that the
/// linker fills in.
pub fn sections_stand_at_their_addresses()
    ensures own { (region : Base) → (modules : List Module) → (image : Image) →
        (owner number place : ℕ) → (s : Section) →
        All Formed modules → linked region modules ≡ Ok image → HasSection modules owner number s →
        place < length s.bytes → IsOwn modules owner number place →
        Holds image (section_address region modules owner number + place)
        (slice_index s.bytes place) }
    ensures fields { (region : Base) → (modules : List Module) → (image : Image) →
        (owner place : ℕ) → (r : Reloc) →
        All Formed modules → linked region modules ≡ Ok image → HasField modules owner r →
        place < width_of r.kind →
        Holds image (section_address region modules owner r.section + r.offset + place)
        (slice_index (little_bytes (width_of r.kind)
        (field_content region modules owner r)) place) }
{}

/// Where a processor reads a field that the linker filled in, it finds what the field's target is worth. A displacement leads there from behind the field.
pub fn fields_lead_to_their_targets()
    ensures { (region : Base) → (modules : List Module) → (image : Image) →
        (owner : ℕ) → (r : Reloc) →
        All Formed modules → linked region modules ≡ Ok image → HasField modules owner r →
        leads_to image r.kind (section_address region modules owner r.section + r.offset)
        ≡ value_of region modules owner r.target }
{}

/// Two modules' sections, or two of one module, have no address in common.
pub fn sections_lie_apart()
    ensures { (region : Base) → (modules : List Module) → (image : Image) →
        (owner number other index : ℕ) → (s t : Section) → linked region modules ≡ Ok image →
        HasSection modules owner number s → HasSection modules other index t →
        0 < length s.bytes → 0 < length t.bytes → AreOthers owner number other index →
        LieApart (section_address region modules owner number) (length s.bytes)
        (section_address region modules other index) (length t.bytes) }
{}

/// Overlaid sections of one name, of whatever modules, have one address, and each byte that one of them covers from there on is in the image.
pub fn overlaid_sections_share_their_begin()
    ensures begin { (region : Base) → (modules : List Module) → (image : Image) →
        (owner number other index : ℕ) → (s t : Section) → linked region modules ≡ Ok image →
        HasSection modules owner number s → HasSection modules other index t →
        is_overlaid s ≡ true → is_overlaid t ≡ true → s.name ≡ t.name →
        section_address region modules owner number ≡ section_address region modules other index }
    ensures room { (region : Base) → (modules : List Module) → (image : Image) →
        (owner number place : ℕ) → (s : Section) → linked region modules ≡ Ok image →
        HasSection modules owner number s → is_overlaid s ≡ true → place < s.storage →
        is_in image.areas (section_address region modules owner number + place) ≡ true }
{}

/// A name that a module defines in one of its sections leads to the byte that the module put there.
pub fn names_lead_to_their_bytes()
    ensures value { (region : Base) → (modules : List Module) → (image : Image) →
        (owner number : ℕ) → (place : ℤ) → (g : Symbol) → linked region modules ≡ Ok image →
        HasName modules owner g → g.value ≡ InSection number place →
        name_value region modules g.name
        ≡ plus (section_address region modules owner number) (low_longword place) }
    ensures byte { (region : Base) → (modules : List Module) → (image : Image) →
        (owner number place : ℕ) → (at : ℤ) →
        (g : Symbol) → (s : Section) →
        All Formed modules → linked region modules ≡ Ok image →
        HasName modules owner g → g.value ≡ InSection number at → low_longword at ≡ place →
        HasSection modules owner number s → place < length s.bytes →
        IsOwn modules owner number place →
        Holds image (name_value region modules g.name) (slice_index s.bytes place) }
{}
