//! The laws of the flat machine, each the contract of a call that does nothing.
ghost use Rattle.std.specs.Prelude.{◌≡◌, ◌<◌, ◌%◌, pos, ℕ, ◌≤◌, Bool, false, None, Some, IsSome, if◌then◌else◌, ◌==◌, List, ◌++◌, length};
ghost use Rattle.std.specs.List.{list_any};
ghost use Rattle.vax_space.specs.declared.Area.{Area};
ghost use Rattle.vax_flat.specs.Accesses.{Accesses, Leaf, Went};
ghost use Rattle.vax_flat.specs.declared.Cut.TheVariants.{Absent};
ghost use Rattle.vax_flat.specs.Inside.{IsMissing};
ghost use Rattle.vax_flat.specs.Port.{View, StandsFor};
ghost use Rattle.vax_flat.specs.Outcome.{Ends, Range, first_missing, marked_by, or_else, outcome_of, touches_of, unless_absent};
ghost use Rattle.vax_flat.specs.OverPort.{Stops, marks_of, over_port};
ghost use Rattle.vax_isa.specs.declared.OperandKind.{OperandKind};
ghost use Rattle.vax_isa.specs.declared.actions.Action.{Action};
ghost use Rattle.vax_isa.specs.Actions.{operands_of};
ghost use Rattle.vax_isa.specs.Instructions.{Instruction};
ghost use Rattle.vax_flat.specs.declared.Flow.TheVariants.{Done};
ghost use Rattle.vax_flat.specs.State.{State, mode, register};
ghost use Rattle.vax_flat.specs.Operand.{next_operand};
ghost use Rattle.vax_flat.specs.Call.{entered, frame_word, linked, return_from, return_status};
ghost use Rattle.vax_flat.specs.Returned.{caller_status, with_caller};
ghost use Rattle.vax_word.specs.declared.Psl.{Psl};
ghost use Rattle.vax_word.specs.Status.{field};
ghost use Rattle.vax_flat.specs.Instruction.{acted, instruction, is_privileged};
ghost use Rattle.vax_flat.specs.declared.Exception.{Exception};
ghost use Rattle.vax_flat.specs.declared.Delivery.{Delivery};
ghost use Rattle.vax_word.specs.declared.Size.{Size};
ghost use Rattle.vax_word.specs.Arithmetic.{answer, modulus, shifted};
ghost use Rattle.vax_isa.specs.declared.actions.Unary.TheVariants.{Negate};
ghost use Rattle.vax_isa.specs.declared.actions.Binary.TheVariants.{Add, AddWithCarry, Subtract, SubtractWithCarry};
ghost use Rattle.vax_flat.specs.Integer.{of_one, of_two, rotated};
ghost use Rattle.vax_flat.specs.Quiet.{RaisesNothing};
ghost use Rattle.vax_flat.specs.Delivery.{delivery, interrupt};
ghost use Rattle.vax_flat.specs.Step.{Flat, leaf, step, whole_delivery};
ghost use Rattle.vax_flat.specs.Parts.{Partway, Place, Within, Completes, Leaves, GoesBy, touches_at, turn};
ghost use Rattle.vax_flat.specs.StringParts.{remaining_in};
ghost use Rattle.vax_flat.specs.Bound.{AreFew, LeavesNoPart, is_string};
ghost use Rattle.vax_flat.specs.Grammar.{Specifier, Reading, Reads, Sequence, read_operand, read_operands};
ghost use Rattle.vax_flat.specs.Evaluation.{Takes, comes_to, all_come_to, next_operands, next_instruction};
ghost use Rattle.vax_flat.specs.Laws.{AreAlike, Arrives, Following, Frame, IsAhead, IsFrameAt, IsInstructionAhead, IsPushed, RaisesNothingBehind, RestsOnFront, acts_on, behind_opcode, caller_goes_on};

/// The first absent page of two lists of ranges joined is the first list's, and where this has none, the second's. The pages that are marked
/// after them are those marked after the first list where this has an absent page, and else those marked after the second from there.
pub fn joined_ranges()
    ensures first { (resident : ℕ → Bool) (first second : List Range) →
        first_missing resident (first ++ second)
        ≡ or_else (first_missing resident first) (first_missing resident second) }
    ensures marks { (resident marked : ℕ → Bool) (first second : List Range) →
        marked_by resident marked (first ++ second)
        ≡ unless_absent (first_missing resident first) (marked_by resident marked first)
        (marked_by resident (marked_by resident marked first) second) }
{}

/// What the accesses of a tree come to over a port is, for every memory that the port stands for, decided by the first absent page of its
/// touches there, and else by its outcome there. The pages that it marks are those of the ranges that it writes, up to that page.
pub fn arrival_agrees()
    ensures arrival { (tree : Accesses Leaf) (view : View) (memory : List Area) →
        StandsFor view memory → Arrives tree view memory }
    ensures marks { (tree : Accesses Leaf) (view : View) (memory : List Area) →
        StandsFor view memory →
        marks_of (over_port tree view)
        ≡ marked_by view.resident view.marked (touches_of tree memory) }
{}

/// What the machine does at an operand is what the grammar reads of the bytes that stand there: it reads their pieces, and goes on with what the
/// form comes to, or takes the reserved addressing mode fault. So also for operands one behind another, and for an opcode with its operands.
pub fn grammar_agrees()
    ensures operand { (kind : OperandKind) (memory : List Area) (s : State) (reading : Reading) →
        IsAhead memory s (read_operand kind) reading →
        AreAlike memory (next_operand kind s) (comes_to kind reading s) }
    ensures operands { (kinds : List OperandKind) (memory : List Area) (s : State) →
        (operands : Sequence) → IsAhead memory s (read_operands kinds) operands →
        AreAlike memory (next_operands kinds s) (all_come_to operands s) }
    ensures instruction { (memory : List Area) (s : State) (row : Instruction) →
        (operands : Sequence) → IsInstructionAhead memory s row operands →
        AreAlike memory (next_instruction s) (behind_opcode (all_come_to operands) s) }
{}

/// Every action takes the operands that `operands_of` gives it, in order, and then does a part of its own on what they came to; a
/// privileged one takes none outside kernel mode, and raises its exception. So where the bytes at PC are an instruction whose action takes its
/// row's operands, the machine does what these come to as the grammar reads them, and then that part.
pub fn operands_are_listed()
    ensures listed { (action : Action) →
        Takes (is_privileged action) (operands_of action) (acted action) }
    ensures instruction { (memory : List Area) (s : State) (row : Instruction) →
        (operands : Sequence) → IsInstructionAhead memory s row operands →
        (privileged : Bool) (takes : Takes privileged row.operands (acted row.action)) →
        AreAlike memory (instruction s) (behind_opcode (acts_on privileged takes.rest operands) s) }
{}

/// A delivery raises no exception where what follows it raises none: it asks whether it may read the vector and push, and ends the run where it
/// may not. So the delivery of what a step raised ends in every case.
pub fn deliveries_raise_nothing()
    ensures exception { (e : Exception) (s : State) (next : Following Delivery) →
        RaisesNothingBehind next → RaisesNothing (delivery e s next) }
    ensures interrupt { (level : ℕ) (s : State) (next : Following Delivery) →
        RaisesNothingBehind next → RaisesNothing (interrupt level s next) }
    ensures step { (e : Exception) → (s : State) → RaisesNothing (whole_delivery e s) }
{}

/// Whatever the state, an attempt at a step, or at a part of one, touches ranges that lie in at most 20 windows of 512 bytes, and so in at most 40
/// pages, its delivery's among them.
/// Only a string instruction leaves a part of itself for a later attempt.
pub fn steps_are_bounded()
    ensures attempts { (place : Place) → AreFew (touches_at place) }
    ensures whole { (action : Action) → is_string action ≡ false →
        (s : State) (memory : List Area) → LeavesNoPart (outcome_of (acted action s leaf) memory) }
    ensures delivery { (e : Exception) (s : State) (memory : List Area) →
        LeavesNoPart (outcome_of (whole_delivery e s) memory) }
{}

/// A step that is made in parts comes to the step: whichever part completes it, and whether by its end, by its ending or by the delivery of an
/// exception that a later part meets. Each later part leaves less than there was, so that their number is finite.
pub fn parts_agree()
    ensures step { (m : Flat) (place : Place) (next : Flat) →
        m.ending ≡ None → GoesBy m place → turn place ≡ Completes next → step m ≡ next }
    ensures less { (m : Flat) (p : Partway) (next : Partway) →
        GoesBy m (Within p) → turn (Within p) ≡ Leaves next →
        remaining_in next.opcode next.now.core < remaining_in p.opcode p.now.core }
{}

/// Results that say something apart from how they are worked out: MNEG is SUB from 0, ADWC without a carry is ADD and SBWC without a borrow is SUB,
/// ROTL turns by its count modulo 32, and ASH by 0 leaves the value, with V and C clear.
pub fn results_agree()
    ensures negated { (size : Size) (x : ℕ) (c other : Bool) → x < modulus size →
        of_one Negate size size x c ≡ of_two Subtract size x 0 other }
    ensures added { (size : Size) (a b : ℕ) (c : Bool) →
        of_two AddWithCarry size a b false ≡ of_two Add size a b c }
    ensures subtracted { (size : Size) (a b : ℕ) (c : Bool) →
        of_two SubtractWithCarry size a b false ≡ of_two Subtract size a b c }
    ensures turned { (count x : ℕ) → rotated count x ≡ rotated (count % 32) x }
    ensures unshifted { (size : Size) (x : ℕ) → x < modulus size →
        shifted size (pos 0) x ≡ answer size x false false }
{}

/// A reading rests on the bytes at the front alone: it stays with more bytes behind, takes no more than there are, and nine bytes are enough
/// for one operand.
pub fn grammar_reads()
    ensures front { (kind : OperandKind) → RestsOnFront (read_operand kind) }
    ensures fronts { (kinds : List OperandKind) → RestsOnFront (read_operands kinds) }
    ensures within { (kind : OperandKind) (bytes : List ℕ) (specifier : Specifier) (count : ℕ) →
        read_operand kind bytes ≡ Some (Reads specifier count) → count ≤ length bytes }
    ensures enough { (kind : OperandKind) (bytes : List ℕ) → kind.width ≤ 8 → 9 ≤ length bytes →
        IsSome (read_operand kind bytes) }
{}

/// A tree stops over a port only for a page of an area that is absent, whatever memory the port stands for.
pub fn stops_for_missing_pages()
    ensures { (tree : Accesses Leaf) (view : View) (page : ℕ) (marked : ℕ → Bool) →
        over_port tree view ≡ Stops (Absent page) marked → IsMissing view page }
{}

/// RET is the inverse of a call. Where a call came to its end, its frame's longwords stand in memory at FP, one above the other. On a memory where
/// they stand there, whatever else changed, RET comes to the caller's AP, FP, PC and saved registers, behind the frame and the bytes by which SP was brought down, behind the arguments if they are on the stack,
/// and the caller's status word without trace and condition codes.
pub fn frames_are_returned()
    ensures pushed { (memory end : List Area) (procedure arguments : ℕ) (f : Frame) (t : State) →
        IsPushed memory f →
        outcome_of (entered procedure f.mask arguments f.top f.on_stack f.caller leaf) memory
        ≡ Ends (Went Done t) end →
        IsFrameAt end (mode f.caller) (register t 13) f }
    ensures frame { (memory : List Area) (f : Frame) (s : State) →
        field f.caller.core.psl.0 8 8 ≡ 0 → IsFrameAt memory (mode s) (register s 13) f →
        outcome_of (return_from s leaf) memory ≡ outcome_of (caller_goes_on f s) memory }
    ensures registers { (mask n : ℕ) (caller s : State) → length s.core.regs ≡ 16 →
        register (with_caller mask caller s) n
        ≡ if list_any (λ k. k == n) (linked mask) then register caller n else register s n }
    ensures status { (offset mask : ℕ) (on_stack : Bool) (caller psl : Psl) → offset < 4 →
        return_status (frame_word offset on_stack mask caller) psl ≡ caller_status caller psl }
{}
