// The laws of what is told of a program.

ghost use Rattle.std.specs.Prelude.{◌≡◌, ◌≤◌, List, Err, length, ℕ};
ghost use Rattle.vax_check.specs.Beginning.{BeginsAtLine};
ghost use Rattle.vax_check.specs.Told.{AreTold};
ghost use Rattle.vax_dialect.specs.declared.Dialect.{Dialect};
ghost use Rattle.vax_prelude.specs.Preludes.{Title};
ghost use Rattle.vax_program.specs.Program.{Source, modules_of};

/// Where files are refused for a source, their errors begin with one on that line of that source.
pub fn errors_begin_with_the_refusal()
    ensures { (dialect : Dialect) → (titles : List Title) → (files : List (List ℕ))
        → (before after : List ℕ) → (file line kind : ℕ) → length files ≤ length titles →
        AreTold dialect titles files before after →
        modules_of dialect 1 files ≡ Err (Source file line kind) →
        BeginsAtLine titles 1 file line before after }
{}
