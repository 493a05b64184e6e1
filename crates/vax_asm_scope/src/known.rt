// What names are worth where a statement stands.

ghost use Rattle.vax_asm_scope.specs.Kept.{scope_of};
ghost use Rattle.vax_asm_scope.specs.Known.{known_here};

use crate::scope::Scope;
use vax_dialect::Dialect;
use vax_lex::{Names, Value};

/// The names of a scope where a statement stands, as its conditions and counts see them: each has the value of its last
/// definition before, if that has one. `here` is what `.` is worth.
#[derive(Clone, Copy)]
pub struct KnownNames<'a> {
    pub dialect: Dialect,
    pub scope: &'a Scope,
    pub here: Value,
}

impl Names for KnownNames<'_> {
    ghost meaning = { λ k. known_here k.dialect k.here (scope_of k.scope.now) };

    #[tactic(auto, unfolding(crate::specs::Known::known_here))]
    fn dialect(&self) -> Dialect {
        self.dialect
    }

    #[tactic(auto, unfolding(crate::specs::Known::known_here))]
    fn lookup(&self, name: &[u8]) -> Option<Value> {
        self.scope.known(name, self.here)
    }
}
