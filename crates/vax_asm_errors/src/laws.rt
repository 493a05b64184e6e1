// The laws of what is told of a source.

ghost use Rattle.std.specs.Prelude.{◌≡◌, ◌++◌, false, List, Err, Ok, ℕ};
ghost use Rattle.std.specs.List.{flat_map};
ghost use Rattle.vax_asm.specs.Walk.{assembled};
ghost use Rattle.vax_asm_causes.specs.Remarks.{Asked, remarks};
ghost use Rattle.vax_asm_errors.specs.Beginning.{BeginsAt};
ghost use Rattle.vax_asm_errors.specs.Errors.{IsErrors};
ghost use Rattle.vax_asm_errors.specs.Remarks.{IsRemarked, remark};
ghost use Rattle.vax_asm_second.specs.declared.types.Fault.{Fault};
ghost use Rattle.vax_dialect.specs.Differences.{has_further_directives};
ghost use Rattle.vax_dialect.specs.declared.Dialect.{Dialect};
ghost use Rattle.vax_prelude.specs.Preludes.{Title};
ghost use Rattle.vax_module.specs.declared.Module.{Module};

/// Of a source that assembles nothing is told.
pub fn sources_that_assemble_have_no_errors()
    ensures { (dialect : Dialect) → (title : Title) → (source before after : List ℕ) → (m : Module)
        → IsErrors dialect title source before after → assembled dialect source ≡ Ok m
        → after ≡ before }
{}

/// The first error of any other stands on the line that it is refused for.
pub fn errors_begin_with_the_refusal()
    ensures { (dialect : Dialect) → (title : Title) → (source before after : List ℕ) → (f : Fault)
        → IsErrors dialect title source before after → assembled dialect source ≡ Err f
        → BeginsAt title f before after }
{}

/// Of a source in the smaller dialect remarks are told and no messages.
pub fn sources_without_further_directives_have_remarks_alone()
    ensures { (dialect : Dialect) → (title : Title) → (asked : Asked)
        → (source before after : List ℕ)
        → IsRemarked dialect title source asked before after
        → has_further_directives dialect ≡ false
        → after ≡ before ++ flat_map (remark title source asked.name)
        (remarks dialect asked source) }
{}
