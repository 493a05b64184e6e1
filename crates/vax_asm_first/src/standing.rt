// What the statements so far leave.

ghost use Rattle.std.specs.Prelude.{◌≡◌, ◌≤◌, All, IfOk, OnOk, Some, None, is_some, length, option_map, true};
ghost use Rattle.vax_asm_sections.specs.Layout.{current_of, is_absolute, only_counts, place_in, put, aligned};
ghost use Rattle.vax_asm_sections.specs.View.{part_of};
ghost use Rattle.vax_lex.specs.Grammar.{symbols_of};
ghost use Rattle.vax_lex.specs.Tokens.{IsTokenOf};
ghost use Rattle.vax_asm_first.specs.Standing.{at_start, block_of, here_in, last_of, put_aside, set_back, told, unless_certain, with_sections, without_last};
ghost use Rattle.vax_asm_first.specs.View.{saved_of, standing_of, marked_standing, told_of, part_seen, Alters, ChangesScope, KeepsMark};
ghost use Rattle.vax_asm_scope.specs.Kept.{scope_of};
ghost use Rattle.vax_asm_values.specs.Certain.{certain};
ghost use Rattle.vax_asm_values.specs.Values.{Means, Worked, value_of};
ghost use Rattle.vax_asm_values.specs.View.{written_of};

use crate::types::{Fixup, Refused, Saved, Standing, Told};
use std::alloc::Global;
use std::rc::Rc;
use vax_asm_scope::Scope;
use vax_asm_sections::{Layout, Piece, Refusal};
use vax_asm_values::Expression;
use vax_dialect::Dialect;
use vax_isa::Narrow;
use vax_lex::{ExprError, Token, Value};
use vax_macro::FaultKind;
use vax_space::NoMemory;

/// So many sections can be put aside.
const MOST_SAVED: usize = 31;

/// What is settled of an expression's value, whatever comes later.
pub(crate) fn settled(
    scope: &Scope,
    expression: &Expression,
    value: Result<Value, ExprError>,
) -> Result<Value, ExprError>
    ensures { result ≡ unless_certain (certain (value_of (scope_of scope.now).sources)
        (written_of expression.now)) value }
{
    match value {
        Err(ExprError::Unknown) => match scope.certain_fault(expression) {
            Some(fault) => Err(fault),
            None => Err(ExprError::Unknown),
        },
        known => known,
    }
}

impl Standing {
    /// No names, and the section without a name alone, for a source in this dialect.
    pub fn new(alloc: Global, dialect: Dialect) -> Result<Standing, NoMemory>
        ensures { IfOk result (λ s. standing_of s ≡ at_start dialect) }
    {
        let layout = Layout::new(alloc).map_err(|_| NoMemory)?;
        Ok(Standing {
            dialect,
            scope: Scope::new(alloc),
            keeps_block: false,
            absolute: false,
            displacement: Narrow::L,
            layout,
            saved: Vec::new(alloc),
            transfer: None,
        })
    }

    /// Sets a mark here, to which [`Standing::go_back`] goes back. A call that can't be undone removes it.
    #[tactic(auto, unfolding(crate::specs::View::marked_standing))]
    pub fn mark(&mut self)
        ensures same { standing_of self.new ≡ standing_of self.old }
        ensures marked { marked_standing self.new ≡ Some (standing_of self.old) }
    {
        self.scope.mark();
        self.layout.mark();
    }

    /// Removes the mark. Whoever changes another field than the names and the sections does this first.
    #[tactic(auto, unfolding(crate::specs::View::marked_standing))]
    pub fn unmark(&mut self)
        ensures same { standing_of self.new ≡ standing_of self.old }
        ensures marked { marked_standing self.new ≡ None }
    {
        self.scope.unmark();
        self.layout.unmark();
    }

    /// Whether there is a mark.
    #[tactic(auto, unfolding(crate::specs::View::marked_standing))]
    pub fn is_marked(&self) -> bool
        ensures { result ≡ is_some (marked_standing self.now) }
    {
        self.scope.is_marked() && self.layout.is_marked()
    }

    /// Makes all what it was at the mark, in time with what has changed since, and removes the mark. False if there is no mark; nothing
    /// of use is left then.
    #[tactic(auto, unfolding(crate::specs::View::marked_standing))]
    pub fn go_back(&mut self, alloc: Global) -> bool
        ensures back { result ≡ true → marked_standing self.old ≡ Some (standing_of self.new) }
        ensures marked { marked_standing self.new ≡ None }
    {
        self.scope.go_back(alloc) && self.layout.go_back()
    }

    /// How many bytes the section has that the next statement goes into.
    #[tactic(auto, using(crate::proofs::Seeing::size_seen))]
    pub fn section_size(&self) -> u32
        ensures value { result ≡ (current_of (standing_of self.now).sections).size }
        ensures few { result ≤ 1048576 }
    {
        self.layout.current().size
    }

    /// Where the next statement goes in that section, which may only count.
    #[tactic(auto, using(crate::proofs::Seeing::place_seen))]
    pub fn place(&self) -> u32
        ensures value { result ≡ place_in (current_of (standing_of self.now).sections) }
        ensures few { result ≤ 1048576 }
    {
        self.layout.current().place()
    }

    /// Whether that section only counts, as an absolute or an overlaid one does.
    #[tactic(auto, using(crate::proofs::Seeing::counting_seen))]
    pub fn only_counts(&self) -> bool
        ensures { result ≡ only_counts (current_of (standing_of self.now).sections) }
    {
        self.layout.current().only_counts()
    }

    /// Whether that section is absolute.
    #[tactic(auto, using(crate::proofs::Seeing::absolute_seen))]
    pub fn in_absolute(&self) -> bool
        ensures { result ≡ is_absolute (current_of (standing_of self.now).sections) }
    {
        self.layout.current().is_absolute()
    }

    /// The name of that section; empty for the one that has none.
    #[tactic(auto, using(crate::proofs::Seeing::name_seen))]
    pub fn section_name(&self) -> &[u8]
        ensures { result.now ≡ (current_of (standing_of self.now).sections).name }
    {
        &self.layout.current().name
    }

    /// The block of local labels that is put aside, if that is wanted.
    fn block_of(&self, with_block: bool) -> Option<usize>
        ensures { result ≡ block_of with_block (standing_of self.now) }
    {
        if with_block {
            Some(self.scope.block())
        } else {
            None
        }
    }

    /// Puts that section aside, with the block of local labels where that is wanted.
    ///
    /// [`Refused::Fault`] with `Depth` where 31 are put aside, [`Refused::NoMemory`] where memory is refused; all is as before
    /// then.
    #[tactic(auto, using(crate::proofs::Saving::one_more, crate::proofs::Saving::count_seen), unfolding(crate::specs::View::marked_standing))]
    pub fn put_aside(&mut self, alloc: Global, with_block: bool) -> Result<(), Refused>
        ensures stands { Alters (put_aside with_block) result self.old self.new }
        ensures mark { KeepsMark self.old self.new }
    {
        if self.saved.len() >= MOST_SAVED {
            return Err(Refused::Fault(FaultKind::Depth));
        }
        let block = self.block_of(with_block);
        let Ok(section) = self.section_name().to_vec(alloc) else {
            return Err(Refused::NoMemory);
        };
        self.unmark();
        match self.saved.push(Saved { section, block }) {
            Ok(()) => Ok(()),
            Err(_) => Err(Refused::NoMemory),
        }
    }

    /// Takes the section that was put aside last, if there is one.
    #[tactic(auto, using(crate::proofs::Saving::last_seen, crate::proofs::Saving::rest_seen), unfolding(crate::specs::View::marked_standing))]
    pub fn take_saved(&mut self) -> Option<Saved>
        ensures saved { option_map saved_of result ≡ last_of (standing_of self.old).saved }
        ensures rest { standing_of self.new ≡ without_last (standing_of self.old) }
        ensures mark { KeepsMark self.old self.new }
    {
        self.unmark();
        self.saved.pop()
    }

    /// Where the next statement stands, which is what `.` is worth in it: a number in an absolute section.
    #[tactic(auto, using(crate::proofs::Seeing::here_seen))]
    pub fn here(&self) -> Result<Value, NoMemory>
        ensures { IfOk result (λ v. v ≡ here_in (standing_of self.now).sections) }
    {
        let section = u32::try_from(self.layout.number()).map_err(|_| NoMemory)?;
        let at = self.layout.current().place();
        if self.layout.current().is_absolute() {
            return Ok(Value::Absolute(i64::from(at)));
        }
        Ok(Value::Section {
            section,
            offset: i64::from(at),
        })
    }

    /// An expression of a line in a dialect where it stands, and its value by what stands before it. `here` is what `.` is worth.
    #[tactic(auto, unfolding(crate::specs::View::marked_standing))]
    pub fn tell(
        &mut self,
        alloc: Global,
        dialect: Dialect,
        line: &Rc<Vec<u8>>,
        tokens: &[Token],
        here: Value,
    ) -> Result<Told, NoMemory>
        requires { All (IsTokenOf line.now.value.items) tokens.now }
        ensures told { IfOk result (λ t. told_of t (scope_of self.new.scope)
            ≡ told dialect here (symbols_of line.now.value.items tokens.now)
            (scope_of self.old.scope)) }
        ensures same { OnOk result (ChangesScope self.old self.new) }
        // Its names mean definitions that there are.
        ensures means { IfOk result (λ t. Means (length (scope_of self.new.scope).sources)
            (Worked (written_of t.expression))) }
        ensures mark { KeepsMark self.old self.new }
    {
        let expression = self.scope.expression(alloc, dialect, line, tokens, here)?;
        let value = self.scope.evaluate(&expression);
        let settled = settled(&self.scope, &expression, value);
        Ok(Told {
            expression,
            value,
            settled,
        })
    }

    /// Adds so many bytes to the section that the next statement goes into.
    ///
    /// [`Refused::Fault`] where an absolute or overlaid section would hold data, or the section or the module would be too long, and all is as before then;
    /// [`Refused::NoMemory`] where memory is refused.
    #[tactic(auto, using(crate::proofs::Seeing::put_stands, crate::proofs::Seeing::put_fails), unfolding(crate::specs::View::marked_standing))]
    pub fn put(&mut self, size: u32, piece: Piece<Fixup>) -> Result<(), Refused>
        ensures stands { Alters
            (λ s. with_sections s (put size (part_seen (part_of piece)) s.sections))
            result self.old self.new }
        ensures mark { KeepsMark self.old self.new }
    {
        match self.layout.put(size, piece) {
            Ok(()) => Ok(()),
            Err(Refusal::NoMemory) => Err(Refused::NoMemory),
            Err(Refusal::Absolute) => Err(Refused::Fault(FaultKind::Form)),
            Err(Refusal::TooLong | Refusal::Conflict) => Err(Refused::Fault(FaultKind::Large)),
        }
    }

    /// The section that the next statement goes into, which is absolute, goes on at a place before.
    #[tactic(auto, using(crate::proofs::Seeing::absolute_seen, crate::proofs::Seeing::place_seen, crate::proofs::Seeing::back_stands), unfolding(crate::specs::View::marked_standing))]
    pub fn set_back(&mut self, to: u32)
        requires absolute { is_absolute (current_of (standing_of self.old).sections) ≡ true }
        requires before { to ≤ place_in (current_of (standing_of self.old).sections) }
        ensures stands { standing_of self.new ≡ set_back to (standing_of self.old) }
        ensures mark { KeepsMark self.old self.new }
    {
        self.layout.set_back(to);
    }

    /// Fills the section that the next statement goes into with zero bytes up to a multiple of a power of two, and aligns
    /// it to that at least.
    ///
    /// [`Refused`] as for [`Standing::put`].
    #[tactic(auto, using(crate::proofs::Seeing::align_stands, crate::proofs::Seeing::align_fails), unfolding(crate::specs::View::marked_standing))]
    pub fn align(&mut self, align: u8) -> Result<(), Refused>
        requires { align ≤ 9 }
        ensures stands { Alters (λ s. with_sections s (aligned align s.sections))
            result self.old self.new }
        ensures mark { KeepsMark self.old self.new }
    {
        match self.layout.align(align) {
            Ok(()) => Ok(()),
            Err(Refusal::NoMemory) => Err(Refused::NoMemory),
            Err(Refusal::Absolute) => Err(Refused::Fault(FaultKind::Form)),
            Err(Refusal::TooLong | Refusal::Conflict) => Err(Refused::Fault(FaultKind::Large)),
        }
    }
}
