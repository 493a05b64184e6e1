// What fields hold.

ghost use Rattle.std.specs.Prelude.{◌≡◌, ◌<◌, ◌+◌, ◌^◌, IfOk};
ghost use Rattle.vax_asm_encode.specs.Bytes.{HoldsIn};
ghost use Rattle.vax_asm_second.specs.Laid.{is_known, link_to, holding, held};
ghost use Rattle.vax_asm_second.specs.View.{known_of};
ghost use Rattle.vax_asm_first.specs.Faults.{fault_of_filled};

use crate::types::{Held, Known, Link};
use vax_asm_encode::{Field, FieldFault, Filled, fill};
use vax_lex::Value;
use vax_macro::FaultKind;
use vax_module::RelocKind;

impl Known<'_> {
    /// Whether the section of a value is one of the module's, and its external too.
    pub(crate) fn has(self, value: Value) -> bool
        ensures { result ≡ is_known (known_of self.entry) value }
    {
        match value {
            Value::Absolute(_) => true,
            Value::Section { section, .. } => (section as usize) < self.sections,
            Value::External { index, .. } => (index as usize) < self.externals,
        }
    }
}

fn link_to(target: Value, kind: Option<RelocKind>) -> Option<Link>
    ensures { result ≡ link_to target kind }
{
    let kind = kind?;
    Some(Link { kind, target })
}

fn fault_of(fault: FieldFault) -> FaultKind
    ensures { Some result ≡ fault_of_filled (Err fault) }
{
    match fault {
        FieldFault::Form => FaultKind::Form,
        FieldFault::Range => FaultKind::Range,
    }
}

fn holding(value: Value, filled: Result<Filled, FieldFault>) -> Result<Held, Option<FaultKind>>
    ensures { result ≡ holding value filled }
{
    match filled {
        Ok(Filled { number, reloc }) => Ok(Held {
            number,
            link: link_to(value, reloc),
        }),
        Err(fault) => Err(Some(fault_of(fault))),
    }
}

/// What a field at a place of a section holds of a value, or the fault.
pub(crate) fn held(
    field: Option<Field>,
    section: u32,
    at: u32,
    value: Result<Value, Option<FaultKind>>,
) -> Result<Held, Option<FaultKind>>
    // Past the field there are more addresses.
    requires { at + 4 < 2 ^ 32 }
    ensures held { result ≡ held field section at value }
    ensures holds { IfOk result (λ h. HoldsIn field h.number) }
{
    let Some(field) = field else {
        return Ok(Held {
            number: 0,
            link: None,
        });
    };
    match value {
        Ok(value) => holding(value, fill(field, section, at, value)),
        Err(kind) => Err(kind),
    }
}
