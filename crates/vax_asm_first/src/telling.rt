// Expressions that are made.

ghost use Rattle.std.specs.Prelude.{◌≡◌};
ghost use Rattle.vax_asm_first.specs.Telling.{told_as};
ghost use Rattle.vax_asm_first.specs.View.{told_of};
ghost use Rattle.vax_asm_scope.specs.Kept.{scope_of};
ghost use Rattle.vax_asm_values.specs.View.{written_of};

use crate::standing::settled;
use crate::types::{Standing, Told};
use vax_asm_values::Expression;

impl Standing {
    /// An expression that is made, and its value by what stands before it.
    pub fn told_as(&self, expression: Expression) -> Told
        ensures { told_of result (scope_of self.now.scope)
            ≡ told_as (written_of expression) (scope_of self.now.scope) }
    {
        let value = self.scope.evaluate(&expression);
        let settled = settled(&self.scope, &expression, value);
        Told {
            expression,
            value,
            settled,
        }
    }
}
