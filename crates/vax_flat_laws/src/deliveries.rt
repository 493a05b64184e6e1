//! Deliveries, and REI (VAX Architecture Reference Manual, exceptions and interrupts).
ghost use Rattle.std.specs.Prelude.{◌≡◌, ◌<◌, ◌≤◌, ◌%◌, true, false, ℕ, List, length};
ghost use Rattle.vax_space.specs.declared.Area.{Area};
ghost use Rattle.vax_isa.specs.declared.actions.AccessMode.{AccessMode};
ghost use Rattle.vax_flat.specs.declared.Exception.{Exception};
ghost use Rattle.vax_word.specs.declared.Psl.{Psl};
ghost use Rattle.vax_flat.specs.declared.Ending.TheVariants.{Change, Scb, Vector};
ghost use Rattle.vax_flat.specs.Delivery.{change_mode, change_vector, delivery, interrupt, interrupt_vector, on_interrupt_stack, parameters, vector_of};
ghost use Rattle.vax_flat.specs.System.{is_refused};
ghost use Rattle.vax_flat.specs.State.{State, priority};
ghost use Rattle.vax_flat_laws.specs.Handlers.{ChangeComes, ExceptionComes, InterruptComes, IsChangedTo, IsConsistent, IsInterruptedTo, IsRaisedTo, MayFollow, EndsRun, HasVector, IsBarred, Returns, ends_there, vector_at};

/// The handler that a delivery enters: at the vector without its bits 1:0, in its mode and behind the one that was, at its priority, on the interrupt
/// stack where that was in use or the vector asks for it; all else of the status is 0.
pub fn deliveries_enter_handlers()
    ensures exceptions { (e : Exception) → (s t : State) → (memory end : List Area) →
        ExceptionComes e s memory t end → IsRaisedTo e s memory t }
    ensures interrupts { (level : ℕ) → (s t : State) → (memory end : List Area) →
        InterruptComes level s memory t end → IsInterruptedTo level s memory t }
    ensures changes { (target : AccessMode) (code : ℕ) (s t : State) (memory end : List Area) →
        ChangeComes target code s memory t end → IsChangedTo target s memory t }
{}

/// REI undoes a delivery: once the handler has taken off its stack what was pushed behind PC, it goes on with the same PC, status, registers and stack
/// pointers. So it is of exceptions, of interrupts above the priority and of changes of mode, from a status that goes together.
pub fn rei_undoes_deliveries()
    ensures exceptions { (e : Exception) → (s t : State) → (memory end : List Area) →
        IsConsistent s.core.psl → ExceptionComes e s memory t end
        → Returns (length (parameters e)) s t end }
    ensures interrupts { (level : ℕ) → (s t : State) → (memory end : List Area) →
        IsConsistent s.core.psl → priority s < level → InterruptComes level s memory t end
        → Returns 0 s t end }
    ensures changes { (target : AccessMode) (code : ℕ) (s t : State) (memory end : List Area) →
        IsConsistent s.core.psl → ChangeComes target code s memory t end → Returns 1 s t end }
{}

/// A delivery ends the run where its vector can't be read or its bits 1:0 are 2 or 3, and a change of mode also where they are 1, or on the interrupt
/// stack.
pub fn deliveries_may_end_the_run()
    ensures unread { (e : Exception) → (s : State) → (memory : List Area) →
        IsBarred (vector_of e) memory → EndsRun (delivery e s ends_there) memory Scb s }
    ensures exceptions { (e : Exception) → (s : State) → (memory : List Area) →
        HasVector (vector_of e) memory → 2 ≤ vector_at memory (vector_of e) % 4 →
        EndsRun (delivery e s ends_there) memory (Vector (vector_of e)) s }
    ensures interrupts { (level : ℕ) → (s : State) → (memory : List Area) →
        HasVector (interrupt_vector level) memory
        → 2 ≤ vector_at memory (interrupt_vector level) % 4 →
        EndsRun (interrupt level s ends_there) memory (Vector (interrupt_vector level)) s }
    ensures changes { (target : AccessMode) → (code : ℕ) → (s : State) → (memory : List Area) →
        on_interrupt_stack s.core.psl ≡ false → HasVector (change_vector target) memory →
        1 ≤ vector_at memory (change_vector target) % 4 →
        EndsRun (change_mode target code s ends_there) memory (Vector (change_vector target)) s }
    ensures inside { (target : AccessMode) → (code : ℕ) → (s : State) → (memory : List Area) →
        on_interrupt_stack s.core.psl ≡ true
        → EndsRun (change_mode target code s ends_there) memory Change s }
{}

/// REI goes to exactly the statuses that go together, with a mode that isn't more privileged, on the interrupt stack only from there, and at a priority
/// that isn't higher.
pub fn rei_refuses_all_others()
    ensures accepts { (old new : Psl) → IsConsistent new → MayFollow old new →
        is_refused old new ≡ false }
    ensures refuses { (old new : Psl) → is_refused old new ≡ false →
        IsConsistent new × MayFollow old new }
{}
