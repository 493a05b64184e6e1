// Faults that are met while a source is read.

ghost use Rattle.std.specs.Prelude.{◌≡◌};
ghost use Rattle.vax_asm.specs.Walk.{behind_circle, least, of_another};

use vax_asm_first::{Origin, first_of};
use vax_asm_second::Fault;
use vax_macro::FaultKind;

/// The fault that counts of one that was met before and a new one.
pub(crate) fn least(met: Option<Fault>, origin: Origin, kind: FaultKind) -> Fault
    ensures { result ≡ least met origin kind }
{
    match met {
        Some(old) => {
            if old.origin.place != origin.place {
                old
            } else {
                Fault {
                    kind: first_of(old.kind, kind),
                    ..old
                }
            }
        }
        None => Fault { origin, kind },
    }
}

/// The fault that was met, if it is one of another line than that of a statement.
pub(crate) fn of_another(met: Option<Fault>, origin: Origin) -> Option<Fault>
    ensures { result ≡ of_another met origin }
{
    match met {
        Some(old) => {
            if old.origin.place == origin.place {
                None
            } else {
                Some(old)
            }
        }
        None => None,
    }
}

/// The fault that ends the walk, where this is met and an assignment may make its name come back to itself.
pub(crate) fn behind_circle(circle: Option<Origin>, fault: Fault) -> Fault
    ensures { result ≡ behind_circle circle fault }
{
    match circle {
        None => fault,
        Some(origin) => {
            if fault.origin.place == origin.place {
                Fault {
                    kind: first_of(fault.kind, FaultKind::Form),
                    ..fault
                }
            } else {
                Fault {
                    origin,
                    kind: FaultKind::Form,
                }
            }
        }
    }
}
