//! Steps (VAX Architecture Reference Manual, exceptions and interrupts).
ghost use Rattle.std.specs.Prelude.{List};
ghost use Rattle.vax_space.specs.declared.Area.{Area};
ghost use Rattle.vax_flat.specs.declared.Exception.{Exception};
ghost use Rattle.vax_flat.specs.Outcome.{outcome_of};
ghost use Rattle.vax_flat.specs.State.{State};
ghost use Rattle.vax_flat.specs.Step.{whole_delivery, whole_step};
ghost use Rattle.vax_flat_laws.specs.Steps.{IsConcluded, IsConclusive};

/// No live step stands still: an interrupt or an instruction, a string's among them, is completed with all that follows it, or ends the run, or raises
/// an exception; and the delivery of that exception is completed or ends the run. So no end is one of those after which the machine would stay.
pub fn steps_come_to_an_end()
    ensures steps { (s : State) (memory : List Area) →
        IsConclusive (outcome_of (whole_step s) memory) }
    ensures deliveries { (e : Exception) (s : State) (memory : List Area) →
        IsConcluded (outcome_of (whole_delivery e s) memory) }
{}
