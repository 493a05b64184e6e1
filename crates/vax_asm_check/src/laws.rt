// The laws of the list of faults.

ghost use Rattle.std.specs.Prelude.{◌≡◌, ℕ, List, Err};
ghost use Rattle.vax_asm.specs.Walk.{assembled};
ghost use Rattle.vax_asm_check.specs.Listed.{AreAll, Ascend, BeginAt};
ghost use Rattle.vax_asm_faults.specs.Refusal.{faults_of};
ghost use Rattle.vax_asm_second.specs.declared.types.Fault.{Fault};
ghost use Rattle.vax_dialect.specs.declared.Dialect.{Dialect};

/// The faults that lines have by themselves are found in the order of the lines.
pub fn faults_of_lines_ascend()
    ensures { (dialect : Dialect) → (source : List ℕ) → Ascend (faults_of dialect source).lines }
{}

/// The first fault of the list stands where the one does that the source is refused for. Of that line it is refused for the lowest kind.
pub fn faults_begin_with_the_refusal()
    ensures { (dialect : Dialect) → (source : List ℕ) → (told : List Fault) → (f : Fault)
        → AreAll told (faults_of dialect source) → assembled dialect source ≡ Err f
        → BeginAt f told }
{}
