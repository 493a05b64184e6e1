// All faults that the whole source decides.

ghost use Rattle.std.specs.Prelude.{◌≡◌, ◌++◌, [], IfOk, OnOk, length, map, option_map};
ghost use Rattle.std.specs.List.{cons_option};
ghost use Rattle.vax_asm_second.specs.Faults.{assigned_faults};
ghost use Rattle.vax_asm_second.specs.Laid.{laid, output, outputs};
ghost use Rattle.vax_asm_second.specs.Modules.{faults, known_in};
ghost use Rattle.vax_asm_second.specs.View.{known_of, seen_part, seen_parts, seen_sections};
ghost use Rattle.vax_macro.specs.View.{opening_of};
ghost use Rattle.vax_asm_first.specs.View.{assignment_of, standing_of};
ghost use Rattle.vax_asm_scope.specs.Kept.{scope_of};

use crate::faults::{fault_of, unclosed_fault};
use crate::laying::number_of;
use crate::types::{Fault, Found, Known};
use std::alloc::Global;
use vax_asm_first::{Assignment, Fixup, Standing};
use vax_asm_scope::Scope;
use vax_asm_sections::{Building, Piece};
use vax_macro::Begin;
use vax_space::NoMemory;

/// The bytes of a section so far, and the faults of all that was looked at.
#[derive(Drop)]
struct Listing {
    found: Found,
    bytes: Vec<u8>,
    faults: Vec<Fault>,
}

/// Adds a fault, if there is one.
fn add(list: &mut Vec<Fault>, fault: Option<Fault>) -> Result<(), NoMemory>
    ensures { OnOk result (list.new.items ≡ list.old.items ++ cons_option fault []) }
{
    let Some(fault) = fault else {
        return Ok(());
    };
    list.push(fault).map_err(|_| NoMemory)?;
    Ok(())
}

impl Listing {
    fn new(alloc: Global) -> Listing
        ensures { result.faults.items ≡ [] }
    {
        Listing {
            found: Found {
                relocs: Vec::new(alloc),
                fault: None,
            },
            bytes: Vec::new(alloc),
            faults: Vec::new(alloc),
        }
    }

    /// The fault of a part of a section.
    #[tactic(auto, using(crate::proofs::Listing::output_one))]
    fn list_piece(
        &mut self,
        known: Known<'_>,
        section: u32,
        piece: &Piece<Fixup>,
    ) -> Result<(), NoMemory>
        ensures bytes { OnOk result (self.new.bytes.items
            ≡ self.old.bytes.items ++ (output (known_of known.entry) section
            (length self.old.bytes.items) (seen_part piece.now)).bytes) }
        ensures faults { OnOk result (self.new.faults.items
            ≡ self.old.faults.items ++ (output (known_of known.entry) section
            (length self.old.bytes.items) (seen_part piece.now)).faults) }
    {
        self.found.fault = None;
        self.found
            .write_piece(&mut self.bytes, known, section, piece)?;
        add(&mut self.faults, self.found.fault)
    }

    /// The faults of a section.
    #[tactic(auto, using(crate::proofs::Listing::piece_listed, crate::proofs::Listing::pieces_listed))]
    fn list_pieces(
        &mut self,
        known: Known<'_>,
        section: u32,
        pieces: &[Piece<Fixup>],
    ) -> Result<(), NoMemory>
        ensures { OnOk result (self.new.faults.items ≡ self.old.faults.items
            ++ (outputs (known_of known.entry) section 0 (seen_parts pieces.now)).faults) }
    {
        self.bytes.clear();
        for piece in pieces {
            self.list_piece(known, section, piece)?;
        }
        Ok(())
    }

    /// The faults of all sections.
    #[tactic(auto, using(crate::proofs::Listing::section_listed, crate::proofs::Listing::sections_listed))]
    fn list_sections(
        &mut self,
        known: Known<'_>,
        sections: &[Building<Fixup>],
    ) -> Result<(), NoMemory>
        ensures { OnOk result (self.new.faults.items ≡ self.old.faults.items
            ++ (laid (known_of known.entry) 0 (seen_sections sections.now)).faults) }
    {
        for (i, building) in sections.iter().enumerate() {
            let number = number_of(i)?;
            self.list_pieces(known, number, &building.pieces)?;
        }
        Ok(())
    }

    /// The faults of assignments.
    #[tactic(auto, using(crate::proofs::Listing::assignment_listed, crate::proofs::Listing::assignments_listed))]
    fn list_assignments(
        &mut self,
        scope: &Scope,
        assignments: &[Assignment],
    ) -> Result<(), NoMemory>
        ensures { OnOk result (self.new.faults.items ≡ self.old.faults.items
            ++ assigned_faults (scope_of scope.now).sources (map assignment_of assignments.now)) }
    {
        for assignment in assignments {
            add(&mut self.faults, fault_of(scope, assignment))?;
        }
        Ok(())
    }
}

/// All faults that the whole source decides, once its statements have left this: those of fields, section by section, those of
/// assignments, and a begin without its end. The arguments are those of [`fill_in`](crate::fill_in), which tells the first of
/// these faults.
///
/// # Errors
///
/// [`NoMemory`] where memory is refused.
pub fn all_faults(
    alloc: Global,
    standing: Standing,
    assignments: &[Assignment],
    unclosed: Option<Begin>,
) -> Result<Vec<Fault>, NoMemory>
    ensures { let s = standing_of standing in IfOk result (λ v. v.items
        ≡ faults (known_in s) s.sections.all
        (map assignment_of assignments.now) (option_map opening_of unclosed)) }
{
    let Standing { scope, layout, .. } = standing;
    let mut scope = scope;
    let externals = scope.close(alloc)?;
    let sections = layout.sections();
    let known = Known {
        scope: &scope,
        sections: sections.len(),
        externals: externals.len(),
    };
    let mut listing = Listing::new(alloc);
    listing.list_sections(known, sections)?;
    listing.list_assignments(&scope, assignments)?;
    add(&mut listing.faults, unclosed_fault(unclosed))?;
    Ok(listing.faults)
}
