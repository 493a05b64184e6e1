//! The faults of a source, and the one that it is refused for (VAX MACRO and Instruction Set Reference Manual, "Diagnostic messages").
#![tactic(auto)]

ghost use Rattle.std.specs.Prelude.{◌≡◌, List, None, Ok, Some, ℕ};
ghost use Rattle.vax_asm.specs.Walk.{assembled};
ghost use Rattle.vax_asm_faults.specs.Least.{IsFaultless, IsLeast};
ghost use Rattle.vax_asm_faults.specs.Refusal.{faults_of, first_fault, first_line, module_behind};
ghost use Rattle.vax_asm_faults.specs.Survey.{survey_of};
ghost use Rattle.vax_asm_second.specs.Faults.{first_of as least};
ghost use Rattle.vax_asm_second.specs.Modules.{unless_faulty};
ghost use Rattle.vax_asm_second.specs.declared.types.Fault.{Fault};
ghost use Rattle.vax_dialect.specs.declared.Dialect.{Dialect};
ghost use Rattle.vax_module.specs.declared.Module.{Module};

/// A source without a fault is the module of its statements. Any other is refused for the first of its faults: that of the first line that has one by
/// itself and the lines before it, with the lowest kind; where no line has, the first that the whole source decides.
pub fn sources_are_refused_for_their_first_fault()
    ensures { (dialect : Dialect) → (source : List ℕ) → assembled dialect source
        ≡ unless_faulty (first_fault (faults_of dialect source))
        (module_behind (survey_of dialect source)) }
{}

/// The first fault is one of the list, the lines' or the whole source's. None stands on an earlier line, and none on the same line is of a lower kind.
pub fn first_faults_are_the_least()
    ensures lines { (faults : List Fault) → (f : Fault) → first_line None faults ≡ Some f
        → IsLeast faults f }
    ensures whole { (faults : List Fault) → (f : Fault) → least faults ≡ Some f → IsLeast faults f }
{}

/// A source assembles exactly where it has no fault, and then to the module of its statements.
pub fn sources_without_fault_assemble()
    ensures only { (dialect : Dialect) → (source : List ℕ) → (m : Module)
        → assembled dialect source ≡ Ok m → IsFaultless dialect source m }
    ensures every { (dialect : Dialect) → (source : List ℕ) → (m : Module)
        → IsFaultless dialect source m → assembled dialect source ≡ Ok m }
{}
