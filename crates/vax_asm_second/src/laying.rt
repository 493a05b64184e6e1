// Sections with their fields filled in.

ghost use Rattle.std.specs.Prelude.{◌≡◌, ◌<◌, ◌+◌, ◌^◌, ◌++◌, ◌∷◌, [], IfOk, OnOk, length, replicate};
ghost use Rattle.vax_asm_second.specs.Contents.{before_field};
ghost use Rattle.vax_asm_second.specs.Faults.{first, first_of, fault_at};
ghost use Rattle.vax_asm_second.specs.Laid.{linked, fixed, output, outputs, laid, section_of as laid_section, storage_of};
ghost use Rattle.vax_asm_second.specs.View.{known_of, seen_part, seen_parts, seen_section, seen_sections};
ghost use Rattle.vax_asm_first.specs.View.{fixup_of};

use crate::contents::{add_relocs, before_field, field_in, write_content};
use crate::faults::{fault_at, first, value_filled};
use crate::fields::held;
use crate::types::{Found, Known, Link};
use std::alloc::Global;
use vax_asm_first::{Content, Fixup, Origin};
use vax_asm_sections::{Building, Piece};
use vax_macro::FaultKind;
use vax_module::{Bytes, Reloc, Section};
use vax_space::NoMemory;

/// More bytes than this aren't in a section.
const MOST_BYTES: usize = 0x7FFF_FFFF;

#[tactic(auto, using(crate::proofs::Repeating::zero_more, crate::proofs::Repeating::zero_done))]
fn write_zeros(out: &mut Vec<u8>, count: u32) -> Result<(), NoMemory>
    ensures { OnOk result (out.new.items ≡ out.old.items ++ replicate count 0) }
{
    for _ in 0..count {
        out.push(0).map_err(|_| NoMemory)?;
    }
    Ok(())
}

fn write_bytes(out: &mut Vec<u8>, bytes: &[u8]) -> Result<(), NoMemory>
    ensures { OnOk result (out.new.items ≡ out.old.items ++ bytes.now) }
{
    out.extend_from_slice(bytes).map_err(|_| NoMemory)
}

/// Where what comes next begins.
fn place_behind(bytes: &[u8]) -> Result<u32, NoMemory>
    ensures place { IfOk result (λ at. at ≡ length bytes.now) }
    ensures room { IfOk result (λ at. at + 6 < 2 ^ 32) }
{
    let at = bytes.len();
    if at > MOST_BYTES {
        return Err(NoMemory);
    }
    Ok(at as u32)
}

/// A section's number.
pub(crate) fn number_of(i: usize) -> Result<u32, NoMemory>
    ensures { IfOk result (λ number. number ≡ i) }
{
    u32::try_from(i).map_err(|_| NoMemory)
}

fn add_section(list: &mut Vec<Section>, section: Section) -> Result<(), NoMemory>
    ensures { OnOk result (list.new.items ≡ list.old.items ++ section ∷ []) }
{
    list.push(section).map_err(|_| NoMemory)
}

/// How many bytes a section lays over others of its name.
fn storage_of(building: &Building<Fixup>) -> u32
    ensures { result ≡ storage_of (seen_section building.now) }
{
    if building.overlaid {
        building.place()
    } else {
        0
    }
}

impl Found {
    /// What the linker fills in of a field, if it does. What has the field begins at this place of a section.
    fn link(
        &mut self,
        known: Known<'_>,
        content: Content,
        section: u32,
        at: u32,
        link: Option<Link>,
    ) -> Result<(), NoMemory>
        requires { at + 6 < 2 ^ 32 }
        ensures relocs { OnOk result (self.new.relocs.items
            ≡ self.old.relocs.items ++ linked (known_of known.entry) content section at link) }
        ensures fault { self.new.fault ≡ self.old.fault }
    {
        let Some(Link { kind, target }) = link else {
            return Ok(());
        };
        if !known.has(target) {
            return Ok(());
        }
        let first = Reloc {
            section,
            offset: at + before_field(content),
            kind,
            target,
        };
        add_relocs(&mut self.relocs, content, first)?;
        Ok(())
    }

    fn refuse(&mut self, origin: Origin, kind: Option<FaultKind>)
        ensures fault { self.new.fault ≡ first self.old.fault (first_of (fault_at origin kind)) }
        ensures relocs { self.new.relocs ≡ self.old.relocs }
    {
        self.fault = first(self.fault, fault_at(origin, kind));
    }

    /// Writes a field that is filled in.
    #[tactic(auto, using(crate::proofs::Fitting::zero_holds))]
    fn write_fixup(
        &mut self,
        out: &mut Vec<u8>,
        known: Known<'_>,
        section: u32,
        fixup: &Fixup,
    ) -> Result<(), NoMemory>
        ensures bytes { OnOk result (out.new.items ≡ out.old.items ++ (fixed (known_of known.entry)
            section (length out.old.items) (fixup_of fixup.now)).bytes) }
        ensures relocs { OnOk result (self.new.relocs.items
            ≡ self.old.relocs.items ++ (fixed (known_of known.entry) section (length out.old.items)
            (fixup_of fixup.now)).relocs) }
        ensures fault { OnOk result (self.new.fault
            ≡ first self.old.fault (first_of (fixed (known_of known.entry)
            section (length out.old.items) (fixup_of fixup.now)).faults)) }
    {
        let content = fixup.content;
        let at = place_behind(out)?;
        let field = at + before_field(content);
        let value = value_filled(known.scope, &fixup.filling);
        match held(field_in(content), section, field, value) {
            Ok(held) => {
                write_content(out, content, held.number)?;
                self.link(known, content, section, at, held.link)?;
                Ok(())
            }
            Err(kind) => {
                write_content(out, content, 0)?;
                self.refuse(fixup.origin, kind);
                Ok(())
            }
        }
    }

    /// Writes a part of a section.
    pub(crate) fn write_piece(
        &mut self,
        out: &mut Vec<u8>,
        known: Known<'_>,
        section: u32,
        piece: &Piece<Fixup>,
    ) -> Result<(), NoMemory>
        ensures bytes { OnOk result (out.new.items ≡ out.old.items ++ (output (known_of known.entry)
            section (length out.old.items) (seen_part piece.now)).bytes) }
        ensures relocs { OnOk result (self.new.relocs.items
            ≡ self.old.relocs.items ++ (output (known_of known.entry) section (length out.old.items)
            (seen_part piece.now)).relocs) }
        ensures fault { OnOk result (self.new.fault
            ≡ first self.old.fault (first_of (output (known_of known.entry)
            section (length out.old.items) (seen_part piece.now)).faults)) }
    {
        match piece {
            Piece::Zeros(count) => {
                write_zeros(out, *count)?;
                Ok(())
            }
            Piece::Bytes(bytes) => {
                write_bytes(out, bytes)?;
                Ok(())
            }
            Piece::Field(fixup) => {
                self.write_fixup(out, known, section, fixup)?;
                Ok(())
            }
        }
    }

    /// The bytes of a section.
    #[tactic(auto, using(crate::proofs::Steps::part_written, crate::proofs::Steps::parts_written))]
    fn write_pieces(
        &mut self,
        alloc: Global,
        known: Known<'_>,
        section: u32,
        pieces: &[Piece<Fixup>],
    ) -> Result<Vec<u8>, NoMemory>
        ensures bytes { IfOk result (λ b. b.items
            ≡ (outputs (known_of known.entry) section 0 (seen_parts pieces.now)).bytes) }
        ensures relocs { OnOk result (self.new.relocs.items ≡ self.old.relocs.items
            ++ (outputs (known_of known.entry) section 0 (seen_parts pieces.now)).relocs) }
        ensures fault { OnOk result (self.new.fault ≡ first self.old.fault (first_of
            (outputs (known_of known.entry) section 0 (seen_parts pieces.now)).faults)) }
    {
        let mut out = Vec::new(alloc);
        for piece in pieces {
            self.write_piece(&mut out, known, section, piece)?;
        }
        Ok(out)
    }

    /// A section of the module.
    fn lay(
        &mut self,
        alloc: Global,
        known: Known<'_>,
        number: u32,
        building: &Building<Fixup>,
    ) -> Result<Section, NoMemory>
        ensures section { IfOk result (λ s. s ≡ laid_section (seen_section building.now)
            (outputs (known_of known.entry) number 0 (seen_section building.now).parts).bytes) }
        ensures relocs { OnOk result (self.new.relocs.items ≡ self.old.relocs.items
            ++ (outputs (known_of known.entry) number 0 (seen_section building.now).parts).relocs) }
        ensures fault { OnOk result (self.new.fault ≡ first self.old.fault (first_of
            (outputs (known_of known.entry) number 0 (seen_section building.now).parts).faults)) }
    {
        let name = building.name.to_vec(alloc).map_err(|_| NoMemory)?;
        let bytes = self.write_pieces(alloc, known, number, &building.pieces)?;
        Ok(Section {
            name: Bytes::from(name),
            align: 1 << building.align,
            write: building.write,
            bytes: Bytes::from(bytes),
            storage: storage_of(building),
        })
    }

    /// The sections of the module.
    #[tactic(auto, using(crate::proofs::Steps::section_laid, crate::proofs::Steps::sections_laid))]
    pub(crate) fn lay_all(
        &mut self,
        alloc: Global,
        known: Known<'_>,
        sections: &[Building<Fixup>],
    ) -> Result<Vec<Section>, NoMemory>
        ensures sections { IfOk result (λ v. v.items
            ≡ (laid (known_of known.entry) 0 (seen_sections sections.now)).sections) }
        ensures relocs { OnOk result (self.new.relocs.items ≡ self.old.relocs.items
            ++ (laid (known_of known.entry) 0 (seen_sections sections.now)).relocs) }
        ensures fault { OnOk result (self.new.fault ≡ first self.old.fault (first_of
            (laid (known_of known.entry) 0 (seen_sections sections.now)).faults)) }
    {
        let mut list = Vec::new(alloc);
        for (i, building) in sections.iter().enumerate() {
            let number = number_of(i)?;
            let section = self.lay(alloc, known, number, building)?;
            add_section(&mut list, section)?;
        }
        Ok(list)
    }
}
