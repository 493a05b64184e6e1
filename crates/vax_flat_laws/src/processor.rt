//! The registers of the processor (VAX Architecture Reference Manual, processor registers; MTPR, MFPR).
ghost use Rattle.std.specs.Prelude.{◌≡◌, ◌≢◌, ◌+◌, ◌-◌, ◌*◌, ◌%◌, ◌^◌, ◌<◌, ◌≤◌, [], ◌∷◌, ℕ, Option, Some, if◌then◌else◌, length, map, nat_lt, slice_index};
ghost use Rattle.std.specs.Int.{bit_at};
ghost use Rattle.vax_flat.specs.declared.Exception.TheVariants.{Operand};
ghost use Rattle.vax_flat.specs.declared.Flow.{Flow};
ghost use Rattle.vax_flat.specs.declared.Flow.TheVariants.{Clocked, Done};
ghost use Rattle.vax_flat.specs.Accesses.{Accesses, Leaf, Raises};
ghost use Rattle.vax_flat.specs.State.{State, with_taken};
ghost use Rattle.vax_flat.specs.System.{get_processor, set_processor, with_priority};
ghost use Rattle.vax_flat_laws.specs.Processor.{AllEqual, IsAtLevel, IsNoneOf, read_after, readable, writable};

/// MFPR reads what MTPR wrote: a stack's pointer as it is, be it in use or not; five bits of the priority; bits 15:1 of the requests; of the clock
/// bit 6, and bit 7 as it was unless a 1 was written there.
pub fn registers_are_read_back()
    ensures pointers { (n value : ℕ) → (s : State) → (next : ℕ → Accesses Leaf) → n ≤ 4 →
        length s.core.regs ≡ 16 → length s.core.stacks ≡ 5
        → read_after n value n s next ≡ next value }
    ensures priority { (value : ℕ) → (s : State) → (next : ℕ → Accesses Leaf) →
        read_after 18 value 18 s next ≡ next (value % 2 ^ 5) }
    ensures requests { (value : ℕ) → (s : State) → (next : ℕ → Accesses Leaf) →
        read_after 21 value 21 s next ≡ next (value % 2 ^ 16 - value % 2) }
    ensures timer { (value : ℕ) → (s : State) → (next : ℕ → Accesses Leaf) →
        read_after 24 value 24 s next
        ≡ next (64 * bit_at value 6 + 128 * (bit_at s.core.iccs 7 * (1 - bit_at value 7))) }
{}

/// What MTPR wrote is in no other place: another stack's pointer stays, and so does the status beside its priority. The clock's count begins anew
/// with its control. A byte that is sent is the low one.
pub fn registers_stay_apart()
    ensures pointers { (n k value : ℕ) (s : State) (next : ℕ → Accesses Leaf) → n ≤ 4 → k ≤ 4 →
        k ≢ n →
        length s.core.regs ≡ 16 → length s.core.stacks ≡ 5 →
        read_after n value k s next ≡ get_processor k s (λ x u. next x) }
    ensures status { (level : ℕ) (s : State) → level < 32 →
        IsAtLevel level s.core.psl (with_priority level s).core.psl }
    ensures clock { (value : ℕ) → (s : State) → (next : Flow → ℕ → Accesses Leaf) →
        set_processor 24 value s (λ how t. next how t.core.clock) ≡ next Clocked 0 }
    ensures output { (value : ℕ) → (s : State) → (next : Option ℕ → Accesses Leaf) →
        set_processor 35 value s (λ how t. next t.sent) ≡ next (Some (value % 2 ^ 8)) }
{}

/// The console's registers: input is ready where bytes are left, its data is the next of these, which is then taken, or 0; output is always
/// ready. To write what tells these, or the translation buffer's registers, does nothing.
pub fn consoles_are_read()
    ensures ready { (s : State) → (next : ℕ → State → Accesses Leaf) →
        get_processor 32 s next ≡ next (if nat_lt s.taken (length s.input) then 128 else 0) s }
    ensures taken { (s : State) → (next : ℕ → State → Accesses Leaf) → s.taken < length s.input →
        get_processor 33 s next ≡ next (slice_index s.input s.taken) (with_taken s (s.taken + 1)) }
    ensures empty { (s : State) → (next : ℕ → State → Accesses Leaf) → length s.input ≤ s.taken →
        get_processor 33 s next ≡ next 0 s }
    ensures sender { (s : State) (next : ℕ → State → Accesses Leaf) →
        get_processor 34 s next ≡ next 128 s }
    ensures quiet { (value : ℕ) → (s : State) → (next : Flow → State → Accesses Leaf) →
        AllEqual (map (λ n. set_processor n value s next) (32 ∷ 34 ∷ 57 ∷ 58 ∷ [])) (next Done s) }
{}

/// Every other number is a reserved operand.
pub fn registers_are_these()
    ensures readable { (number : ℕ) → (s : State) → (next : ℕ → State → Accesses Leaf) →
        IsNoneOf readable number → get_processor number s next ≡ Raises Operand }
    ensures writable { (number value : ℕ) → (s : State) → (next : Flow → State → Accesses Leaf) →
        IsNoneOf writable number → set_processor number value s next ≡ Raises Operand }
{}
