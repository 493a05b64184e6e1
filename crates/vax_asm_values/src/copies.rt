// Copies of expressions.

ghost use Rattle.std.specs.Prelude.{◌≡◌, ◌++◌, ◌∷◌, [], IfOk, OnOk, map};
ghost use Rattle.vax_asm_values.specs.View.{meaning_of, written_of};

use crate::types::{Expression, Meaning};
use std::alloc::Global;
use std::rc::Rc;
use vax_space::NoMemory;

/// One more meaning, the same as this one.
#[tactic(auto, using(crate::proofs::Copying::meaning_added))]
fn add_copy(alloc: Global, names: &mut Vec<Meaning>, meaning: &Meaning) -> Result<(), NoMemory>
    ensures { OnOk result (map meaning_of names.new.items
        ≡ map meaning_of names.old.items ++ meaning_of meaning.now ∷ []) }
{
    let name = meaning.name.to_vec(alloc).map_err(|_| NoMemory)?;
    let definition = meaning.definition;
    names
        .push(Meaning { name, definition })
        .map_err(|_| NoMemory)?;
    Ok(())
}

/// The same meanings once more.
#[tactic(auto, using(crate::proofs::Copying::copied_step))]
fn copied(alloc: Global, meanings: &[Meaning]) -> Result<Vec<Meaning>, NoMemory>
    ensures { IfOk result (λ v. map meaning_of v.items ≡ map meaning_of meanings.now) }
{
    let mut names = Vec::new(alloc);
    for meaning in meanings {
        add_copy(alloc, &mut names, meaning)?;
    }
    Ok(names)
}

impl Expression {
    /// The same expression once more, over the same text.
    pub fn try_clone(&self, alloc: Global) -> Result<Expression, NoMemory>
        ensures { IfOk result (λ e. written_of e ≡ written_of self.now) }
    {
        let names = copied(alloc, &self.names)?;
        let tokens = self.tokens.to_vec(alloc).map_err(|_| NoMemory)?;
        let text = Rc::clone(&self.text).map_err(|_| NoMemory)?;
        Ok(Expression::new(self.dialect, text, tokens, names))
    }
}
