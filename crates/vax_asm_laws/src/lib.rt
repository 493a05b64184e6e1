//! The laws of places (VAX MACRO and Instruction Set Reference Manual, "Location counter"): what a label is worth is where the bytes
//! behind it lie in the module. Each is the contract of a call that does nothing.
#![tactic(auto)]

ghost use Rattle.std.specs.Prelude.{◌≡◌, ◌<◌, ℕ, List, Ok, Option, Some, length, slice_get};
ghost use Rattle.vax_asm.specs.Walk.{assembled};
ghost use Rattle.vax_dialect.specs.declared.Dialect.{Dialect};
ghost use Rattle.vax_module.specs.declared.Module.{Module};
ghost use Rattle.vax_module.specs.declared.Section.{Section};
ghost use Rattle.vax_asm_first.specs.Standing.{Standing, at_start};
ghost use Rattle.vax_asm_laws.specs.Counted.{AreCounted, Keeps};
ghost use Rattle.vax_asm_laws.specs.Leading.{Halves, IsOf, IsStated, LeadsOn, LiesBehind, Line, place_in};
ghost use Rattle.vax_asm_laws.specs.Lying.{Held, IsIn, MayAllStand, StandsAt, place_of};
ghost use Rattle.vax_asm_second.specs.Modules.{known_in};
ghost use Rattle.vax_asm_laws.specs.Solving.{AreIn, Solve, Stay};
ghost use Rattle.vax_asm_values.specs.Values.{Source, value_of};
ghost use Rattle.vax_lex.specs.declared.value.Value.{Value};

/// A statement adds parts to sections one behind another, and counts their bytes: before it and behind it each section's size is the number
/// of bytes of its parts, and each part that is filled in later knows where it begins, and may stand there. What was there before stays.
pub fn statements_are_counted()
    ensures start { (dialect : Dialect) → AreCounted (at_start dialect).sections }
    ensures counted { (line : Line) (s t : Standing) →
        AreCounted s.sections → LeadsOn line s t → AreCounted t.sections }
    ensures keeps { (line : Line) (s t : Standing) →
        AreCounted s.sections → LeadsOn line s t → Keeps s.sections t.sections }
    ensures stand { (line : Line) (s t : Standing) →
        AreCounted s.sections → LeadsOn line s t → MayAllStand s.sections → MayAllStand t.sections }
{}

/// A source that assembles is a row of statements, and each section of its module has as many bytes as these have counted.
pub fn modules_have_what_was_counted()
    ensures { (dialect : Dialect) → (source : List ℕ) → (m : Module) →
        assembled dialect source ≡ Ok m → IsStated dialect m }
{}

/// Where a statement begins in a section, there the bytes begin in the module that it and those behind it put into the section. So a label,
/// whose value is the place where its statement begins, names what stands behind it. An absolute section has no bytes, and its labels are numbers; an overlaid one has none either.
pub fn labels_name_what_stands_behind()
    ensures { (halves : Halves) (m : Module) (i : ℕ) (section : Section) → IsOf halves m →
        i < length halves.middle.standing.sections.all → slice_get m.sections i ≡ Some section →
        LiesBehind i (place_in i halves) halves.middle.standing halves.end.standing section }
{}

/// Each part of a section stands in the module at the place that was counted for it. The linker fills in the fields that the part leaves, and
/// no other field has one of its bytes.
pub fn parts_stand_where_they_were_counted()
    ensures { (halves : Halves) (m : Module) (i : ℕ) (section : Section) (part : Held) →
        IsOf halves m → i < length halves.end.standing.sections.all →
        slice_get m.sections i ≡ Some section → IsIn i halves.end.standing.sections part →
        StandsAt (known_in halves.end.standing) i (place_of part) part.part section m.relocs }
{}

/// Each definition is worth what it was given, or what its expression is worth where all names have their values. A definition has a value only
/// where it has that one however the definitions are solved.
pub fn values_solve_definitions()
    ensures solve { (sources : List Source) → Solve (value_of sources) sources }
    ensures fewest { (sources : List Source) (others : ℕ → Option Value) →
        Solve others sources → AreIn (value_of sources) others }
{}

/// Statements leave each definition that isn't to come any more as it is, up to the end of the source. So an assigned name is worth in the end what
/// its expression is.
pub fn definitions_stay()
    ensures { (halves : Halves) (m : Module) → IsOf halves m →
        Stay halves.middle.standing.scope.sources (known_in halves.end.standing).sources }
{}
