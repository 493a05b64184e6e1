// The names of a module.

ghost use Rattle.std.specs.Prelude.{◌≡◌, IfOk, map};
ghost use Rattle.vax_asm_names.specs.View.{name_of};
ghost use Rattle.vax_asm_scope.specs.Kept.{scope_of};
ghost use Rattle.vax_asm_listing.specs.Rows.{label_of};

use crate::types::Label;
use std::alloc::{AllocError, Global};
use vax_asm_names::Name;
use vax_asm_scope::Scope;
use vax_module::Bytes;

/// A name, and what it is worth.
fn label_of(alloc: Global, scope: &Scope, name: &Name) -> Result<Label, AllocError>
    ensures { IfOk result (λ l. l ≡ label_of (scope_of scope.now) (name_of name.now)) }
{
    Ok(Label {
        name: Bytes::from(name.text.clone()?),
        global: name.global,
        value: scope.value(name.definition),
    })
}

/// The names so far, in the order in which they first appeared.
#[tactic(auto, using(crate::proofs::Naming::labels_done))]
pub(crate) fn labels_of(alloc: Global, scope: &Scope) -> Result<Vec<Label>, AllocError>
    ensures { IfOk result (λ v. v.items
        ≡ map (label_of (scope_of scope.now)) (scope_of scope.now).names.all) }
{
    let names = scope.names();
    let mut labels = Vec::new(alloc);
    for name in names {
        labels.push(label_of(alloc, scope, name)?)?;
    }
    Ok(labels)
}
