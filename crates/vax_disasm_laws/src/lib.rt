//! The laws of disassembly (VAX MACRO and Instruction Set Reference Manual, "VAX MACRO source statement format" and "Addressing modes"): the
//! text of an instruction, given to the assembler as a line of a source, stands for the instruction's bytes. Each is the contract of a call that
//! does nothing.
#![tactic(auto)]

ghost use Rattle.std.specs.Prelude.{◌≡◌, ◌<◌, ◌≤◌, ◌^◌, ◌+◌, ◌∷◌, [], ◌++◌, List, Some, length, take, ℕ, Ok, slice_get};
ghost use Rattle.std.specs.List.{flat_map};
ghost use Rattle.vax_asm_first.specs.Standing.{Standing};
ghost use Rattle.vax_asm_first.specs.declared.types.Origin.{Origin};
ghost use Rattle.vax_asm_instruction.specs.Bytes.{AreHeld, HasInstruction, Held, instruction_bytes, sequence_of};
ghost use Rattle.vax_asm_first.specs.Fixups.{Fixup};
ghost use Rattle.vax_asm_sections.specs.Layout.{Section, section_limit};
ghost use Rattle.vax_asm_laws.specs.Leading.{Halves};
ghost use Rattle.vax_isa.specs.Instructions.{Instruction};
ghost use Rattle.vax_isa.specs.Rows.{row_of, with_opcode};
ghost use Rattle.vax_disasm.specs.Listed.{Listing, listed, listing};
ghost use Rattle.vax_disasm_laws.specs.Assembling.{AreBytes, BeginsWith, HasRoom, IsLinked, IsPart, IsStatement, Program, Shows, address_of};
ghost use Rattle.vax_asm.specs.Walk.{assembled};
ghost use Rattle.vax_link.specs.Values.{section_address};
ghost use Rattle.vax_dialect.specs.declared.Dialect.{Dialect};
ghost use Rattle.vax_module.specs.declared.Module.{Module};
ghost use Rattle.vax_disasm_laws.specs.Rows.{Assembles, IsSourceOf, row_line, row_texts, rows_from};
ghost use Rattle.vax_listing.specs.Listing.{lines_from};

/// Wherever a section has room for an instruction, its text is a statement without a fault, which adds as many bytes as it was listed for.
pub fn texts_are_statements()
    ensures { (bytes : List ℕ) (address : ℕ) (l : Listing) (origin : Origin) (s : Standing) →
        AreBytes bytes → listed bytes address ≡ Some l →
        s.sections.current < length s.sections.all → HasRoom l.length s.sections →
        IsStatement origin l.text l.length s }
{}

/// A source's line that is the text of an instruction puts its bytes into the image, where it comes to stand at the address that the text was
/// listed for.
pub fn texts_stand_for_their_bytes()
    ensures { (bytes : List ℕ) (l : Listing) (p : Program) (owner : ℕ) (h : Halves) →
        AreBytes bytes → IsLinked p → IsPart p owner h →
        listed bytes (address_of p owner h) ≡ Some l → BeginsWith h (l.text ∷ []) →
        Shows p.image (address_of p owner h) (take l.length bytes) }
{}

/// A listing is its lines, each an address and a text.
pub fn listings_are_rows()
    ensures { (bytes : List ℕ) (address : ℕ) →
        lines_from 0 address bytes ≡ flat_map row_line (rows_from 0 address bytes) }
{}

/// The texts of the lines that bytes are listed as, given back as lines of a source, put those bytes into the image, where they come to stand at
/// the address that was listed.
pub fn listings_stand_for_their_bytes()
    ensures { (bytes : List ℕ) (p : Program) (owner : ℕ) (h : Halves) →
        AreBytes bytes → IsLinked p → IsPart p owner h →
        address_of p owner h + length bytes ≤ 2 ^ 32 →
        BeginsWith h (row_texts (rows_from 0 (address_of p owner h) bytes)) →
        Shows p.image (address_of p owner h) bytes }
{}

/// The texts of a listing alone are a source: the module that it assembles to puts the listed bytes into the image, where its first section comes
/// to stand at the address that was listed.
pub fn sources_of_listings_give_their_bytes()
    ensures { (dialect : Dialect) (source bytes : List ℕ) (m : Module) (p : Program) (owner : ℕ) →
        AreBytes bytes → IsLinked p → slice_get p.modules owner ≡ Some m →
        assembled dialect source ≡ Ok m →
        IsSourceOf source (rows_from 0 (section_address p.region p.modules owner 0) bytes) →
        section_address p.region p.modules owner 0 + length bytes ≤ 2 ^ 32 →
        Shows p.image (section_address p.region p.modules owner 0) bytes }
{}

/// Such a source assembles, where the bytes fit a section.
pub fn listings_assemble()
    ensures { (dialect : Dialect) (source bytes : List ℕ) (address : ℕ) →
        AreBytes bytes → length bytes ≤ section_limit →
        IsSourceOf source (rows_from 0 address bytes) → Assembles dialect source }
{}

/// Every instruction that is assembled is listed at each address, whatever numbers its fields come to hold.
pub fn instructions_are_listed()
    ensures { (i : Instruction) (before after : Section Fixup) →
        (has : HasInstruction (row_of i) before after) →
        (held : List Held) (rest : List ℕ) (address : ℕ) →
        AreHeld has.operands held → with_opcode i.opcode ≡ Some i →
        listed (instruction_bytes i.opcode held ++ rest) address
        ≡ Some (listing address i (sequence_of held)) }
{}
