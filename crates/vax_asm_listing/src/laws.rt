// What rows have to do with their source, and with the laws of places.

ghost use Rattle.std.specs.Prelude.{◌≡◌, ℕ, List, [], map};
ghost use Rattle.vax_asm.specs.Walk.{Assembly};
ghost use Rattle.vax_asm_laws.specs.Leading as laws;
ghost use Rattle.vax_asm_listing.specs.Lines.{line_of};
ghost use Rattle.vax_asm_listing.specs.Listing.{source_left};
ghost use Rattle.vax_asm_listing.specs.Rows.{IsTrace, LeadAll, OpenAll};
ghost use Rattle.vax_asm_listing.specs.declared.types.Row.{Row};
ghost use Rattle.vax_asm_listing.specs.declared.types.Trace.{Trace};
ghost use Rattle.vax_dialect.specs.declared.Dialect.{Dialect};
ghost use Rattle.vax_lines.specs.Lines.{lines};
ghost use Rattle.vax_macro.specs.Rest.{Rest};

/// The rows of the statements that a source opens to are rows of statements, each of which leads on from those before it.
pub fn opened_rows_lead_on()
    ensures { (rest : Rest) → (a : Assembly) → (rows : List Row) → (end : Rest) → (b : Assembly) →
        OpenAll rest a rows end b → LeadAll a rows b }
{}

/// Each row of a source is listed behind one of its lines: a listing leaves none of them out.
pub fn all_rows_are_listed()
    ensures { (dialect : Dialect) → (source : List ℕ) → (t : Trace) → IsTrace dialect source t →
        source_left 0 (lines source) t.notes.rows.items ≡ [] }
{}

/// The statements of rows are those of which `vax_asm_laws` speaks: where they have led to a row's beginning, there begin in the module the bytes that
/// its statement and those behind it put there. A row of an absolute section has no bytes.
pub fn rows_are_statements()
    ensures { (a : Assembly) → (rows : List Row) → (b : Assembly) → LeadAll a rows b →
        laws.Leads a (map line_of rows) b }
{}
