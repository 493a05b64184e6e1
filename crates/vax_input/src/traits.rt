//! Where lines come from.
ghost use Rattle.std.specs.Prelude.{◌≡◌, IfOk, List, Option, is_err, ℕ};
ghost use Rattle.vax_outside.specs.Faults.{CountsFailure};
ghost use Rattle.vax_outside.specs.declared.faults.Failures.{Failures};
ghost use Rattle.vax_input.specs.Lines.{Gives};

use crate::line::Line;
use vax_outside::Failed;

/// Lines, one at a time. Nothing is read that isn't there yet, so whoever has asked may be answered before the next line is.
pub trait Lines {
    /// The lines that are still to come, where the object tells them.
    ghost rest: { Self → Option (List (List ℕ)) };

    /// How many calls have failed, and whether the last one did.
    ghost faults: { Self → Failures };

    /// Puts the next line into `line`, or answers false at the end. After a failure what the line holds is left open.
    fn read_line(&mut self, line: &mut Line) -> Result<bool, Failed>
        ensures ok { IfOk result (λ some. Gives some (rest self.old) (rest self.new) line.new) }
        ensures counts { CountsFailure (is_err result) (faults self.old) (faults self.new) }
        ensures last { (faults self.new).last ≡ is_err result };
}
