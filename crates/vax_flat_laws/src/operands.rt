//! Operands (VAX Architecture Reference Manual, operand specifiers).
ghost use Rattle.std.specs.Prelude.{◌≡◌, ℕ};
ghost use Rattle.vax_isa.specs.declared.Letter.{Letter};
ghost use Rattle.vax_flat.specs.declared.Operand.{Operand};
ghost use Rattle.vax_flat.specs.Accesses.{Accesses, Leaf};
ghost use Rattle.vax_flat.specs.Operand.{next_operand};
ghost use Rattle.vax_flat.specs.Rows.{address_of, address_value, branch_of, branch_target, modify_of, modify_value, read_of, read_value, stored, write_place};
ghost use Rattle.vax_flat.specs.State.{State};
ghost use Rattle.vax_flat_laws.specs.Dummies.{HasForm, address_or, stored_or, target_or, value_at_or, value_or};

/// An operand has one of the forms of its letter. So what definitions give for others, whatever it is, never counts: in place of each such value there
/// may stand any other.
pub fn operands_fit()
    ensures forms { (letter : Letter) (width : ℕ) (s : State)
        (next other : Operand → State → Accesses Leaf) →
        ((o : Operand) → (t : State) → HasForm letter o → next o t ≡ other o t) →
        next_operand (record { letter = letter; width = width }) s next
        ≡ next_operand (record { letter = letter; width = width }) s other }
    ensures values { (width dummy : ℕ) → (s : State) → (next : ℕ → State → Accesses Leaf) →
        read_value width s next
        ≡ next_operand (read_of width) s (λ o t. next (value_or dummy o) t) }
    ensures addresses { (width dummy : ℕ) → (s : State) → (next : ℕ → State → Accesses Leaf) →
        address_value width s next
        ≡ next_operand (address_of width) s (λ o t. next (address_or dummy o) t) }
    ensures targets { (width dummy : ℕ) → (s : State) → (next : ℕ → State → Accesses Leaf) →
        branch_target width s next
        ≡ next_operand (branch_of width) s (λ o t. next (target_or dummy o) t) }
    ensures modified { (width : ℕ) (dummy : Accesses Leaf) (s : State)
        (next : Operand × ℕ → State → Accesses Leaf) →
        modify_value width s next
        ≡ next_operand (modify_of width) s
        (λ place t. value_at_or dummy width place t (λ x u. next (place, x) u)) }
    ensures written { (width size value : ℕ) (dummy : Accesses Leaf) (s : State)
        (next : State → Accesses Leaf) →
        write_place width s (λ place t. stored size place value t next)
        ≡ write_place width s (λ place t. stored_or dummy size place value t next) }
{}
