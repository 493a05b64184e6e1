//! The laws of statements (VAX MACRO and Instruction Set Reference Manual, "VAX MACRO source statement format"): how the statements of a source follow
//! one another as its macros, repeats and conditions open. Each is the contract of a call that does nothing.
#![tactic(auto)]

ghost use Rattle.std.specs.Prelude.{◌≡◌, List, None, Option, Some, length, ℕ};
ghost use Rattle.std.specs.Str.Lines.{lines};
ghost use Rattle.vax_dialect.specs.declared.Dialect.{Dialect};
ghost use Rattle.vax_lex.specs.Values.{Sense};
ghost use Rattle.vax_macro.specs.Directives.{Statement};
ghost use Rattle.vax_macro.specs.Expansion.{Says, opened, step};
ghost use Rattle.vax_macro.specs.Lines.{Remainder};
ghost use Rattle.vax_macro.specs.Rest.{Rest, started};
ghost use Rattle.vax_macro_laws.specs.Following.{IsFollowing};
ghost use Rattle.vax_macro_laws.specs.Numbering.{GivesOfLines, IsOfLines, OpensOfLines};

/// Each statement is of what is left of the line just read, or of a later line. So two statements of one place are parts of one line, with one number.
pub fn statements_follow_their_lines()
    ensures { (names : Sense) → (before after : Rest) → (st : Statement) →
        step names before ≡ Says st after → IsFollowing before st after }
{}

/// A line hands its label out once: the statement behind that of a label leaves nothing of the line.
pub fn labels_are_handed_out_once()
    ensures { (names other : Sense) → (before between after : Rest)
        → (label st : Statement) → (line : Remainder) →
        step names before ≡ Says label between → between.again ≡ Some line →
        step other between ≡ Says st after → after.again ≡ None }
{}

/// A source of which nothing was opened is of its own lines.
pub fn sources_are_their_lines()
    ensures { (dialect : Dialect) → (source : List ℕ) →
        IsOfLines (length (lines source)) (started dialect source) }
{}

/// Each statement and each fault is of one of the source's lines, also within expansions. So is what is left to open behind it.
pub fn statements_are_of_lines()
    ensures step { (most : ℕ) → (names : Sense) → (rest : Rest) → IsOfLines most rest →
        GivesOfLines most (step names rest) }
    ensures opened { (most steps : ℕ) → (names : Sense) → (rest : Rest) → IsOfLines most rest →
        OpensOfLines most (opened steps names rest) }
{}
