// A source from its first statement to its last.

ghost use Rattle.std.specs.Prelude.{IfOk};
ghost use Rattle.vax_asm_check.specs.Listed.{AreAll};
ghost use Rattle.vax_asm_faults.specs.Refusal.{faults_of};

use crate::survey::Survey;
use std::alloc::Global;
use vax_asm_first::Origin;
use vax_asm_scope::KnownNames;
use vax_asm_second::Fault;
use vax_dialect::Dialect;
use vax_macro::{Expander, MacroError};
use vax_space::NoMemory;

/// The faults of a source in a dialect of MACRO-32: those that lines have by themselves, line by line, and then those that
/// the whole of it decides, by their lines.
///
/// After a fault that the statement's text alone doesn't decide the statements before it are carried out once more. So it takes
/// the time of an assembly for each of these. An assignment that has no value where it stands, and whose name an earlier one of
/// these uses, takes a walk over the assignments to which its names lead.
///
/// # Errors
///
/// [`NoMemory`] where memory is refused.
pub fn faults(alloc: Global, dialect: Dialect, source: &[u8]) -> Result<Vec<Fault>, NoMemory>
    ensures { IfOk result (λ v. AreAll v.items (faults_of dialect source.now)) }
{
    let mut expander = Expander::new(alloc, dialect, source)?;
    let mut survey = Survey::new(alloc, dialect)?;
    'statements: loop {
        let here = survey.left.standing.here()?;
        let names = KnownNames {
            dialect: survey.left.standing.dialect,
            scope: &survey.left.standing.scope,
            here,
        };
        match expander.next(&names) {
            Ok(Some(said)) => {
                let origin = Origin {
                    line: said.number,
                    place: expander.lines_read(),
                };
                survey.state(alloc, origin, said)?;
            }
            Ok(None) => return survey.end(alloc, None),
            Err(MacroError::Fault { line, kind }) => {
                return survey.stop(alloc, &expander, line, kind);
            }
            Err(MacroError::NoMemory) => return Err(NoMemory),
        }
    }
}
