//! The law of steps up to a stop, the contract of a call that does nothing.
ghost use Rattle.std.specs.Prelude.{ℕ};
ghost use Rattle.vax_console.specs.Transcript.{Session};
ghost use Rattle.vax_debug.specs.Travel.{AreFirstSteps, Stops, travelled};

/// Steps up to a stop are the first of the flat machine's: up to the first behind which it has ended or is to stop, and else so many.
pub fn travels_are_steps()
    ensures { (count : ℕ) (stops : Stops) (s : Session)
        → AreFirstSteps count stops s (travelled count stops s) }
{}
