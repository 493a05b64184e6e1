// Definitions and their values.

ghost use Rattle.std.specs.Prelude.{◌≡◌, length};
ghost use Rattle.vax_asm_values.specs.Marks.{Restorable};
ghost use Rattle.vax_asm_values.specs.View.{sources_in, lists_in};
ghost use Rattle.vax_asm_values.specs.Waiting.{Settled};
ghost use Rattle.vax_asm_values.specs.SettledProps.{settled_prop, restorable_prop};

use crate::types::{Board, Expression, Source};
use std::alloc::Global;
use std::mem;
use vax_lex::{ExprError, Value};
use vax_space::NoMemory;

/// Definitions by their numbers, and what each is worth.
///
/// A call that adds one takes time with the expressions that wait for it. Where memory is refused, no definitions are left.
///
/// [`Definitions::mark`] sets a mark, and [`Definitions::go_back`] makes the definitions what they were there, in time with
/// what changed since then. While there is no mark, a change only tests that.
#[derive(Drop)]
pub struct Definitions {
    board: Board,
    ghost settled: { Settled (sources_in board.sources) board.values.items
        (lists_in board.waiting) } by { settled_prop (sources_in board.sources)
            board.values.items (lists_in board.waiting) },
    ghost values: { length board.values.items ≡ length board.sources.items },
    ghost waiting: { length board.waiting.items ≡ length board.sources.items },
    ghost restorable: { Restorable board } by { restorable_prop board },
}

impl Definitions {
    ghost use Rattle.std.specs.Prelude.{◌<◌, ◌++◌, ◌∷◌, [], IfOk, OnOk, Some, None, is_some, true, option_map};
    ghost use Rattle.vax_asm_values.specs.Certain.{certain};
    ghost use Rattle.vax_asm_values.specs.Definitions.{sources_of, marked_sources, KeepsMark};
    ghost use Rattle.vax_asm_values.specs.Values.{Given as given, Worked as worked, Means, expression_in, source_at, with_source, ToCome as to_come, value_of, worth};
    ghost use Rattle.vax_asm_values.specs.ToCome.{names_to_come};
    ghost use Rattle.vax_asm_values.specs.View.{source_of, written_of};

    /// No definitions.
    #[tactic(auto, unfolding(crate::specs::Definitions::marked_sources), using(crate::proofs::Stepping::nothing_settled))]
    pub fn new(alloc: Global) -> Definitions
        ensures sources { sources_of result ≡ [] }
        ensures marked { marked_sources result ≡ None }
    {
        Definitions {
            board: Board::new(alloc),
        }
    }

    /// Sets a mark here, to which [`Definitions::go_back`] goes back.
    #[tactic(auto, unfolding(crate::specs::Definitions::marked_sources))]
    pub fn mark(&mut self)
        ensures same { sources_of self.new ≡ sources_of self.old }
        ensures marked { marked_sources self.new ≡ Some (sources_of self.old) }
    {
        self.board.journal.mark();
    }

    /// Removes the mark.
    #[tactic(auto, unfolding(crate::specs::Definitions::marked_sources))]
    pub fn unmark(&mut self)
        ensures same { sources_of self.new ≡ sources_of self.old }
        ensures marked { marked_sources self.new ≡ None }
    {
        self.board.journal.marked = false;
    }

    /// Whether there is a mark. Each call that changes the definitions keeps it or, where memory is refused, removes it.
    #[tactic(auto, unfolding(crate::specs::Definitions::marked_sources))]
    pub fn is_marked(&self) -> bool
        ensures { result ≡ is_some (marked_sources self.now) }
    {
        self.board.journal.marked
    }

    /// Makes the definitions what they were at the mark, and removes it. False if there is no mark.
    #[tactic(auto, unfolding(crate::specs::Definitions::marked_sources))]
    pub fn go_back(&mut self) -> bool
        ensures found { result ≡ is_some (marked_sources self.old) }
        ensures back { result ≡ true → marked_sources self.old ≡ Some (sources_of self.new) }
        ensures marked { marked_sources self.new ≡ None }
    {
        let marked = self.board.journal.marked;
        if marked {
            self.board.go_back();
        }
        marked
    }

    /// How many there are.
    pub fn count(&self) -> usize
        ensures { result ≡ length (sources_of self.now) }
    {
        self.board.sources.len()
    }

    /// One more definition, which is to come, and its number.
    #[tactic(auto, unfolding(crate::specs::Definitions::marked_sources), using(crate::proofs::Marks::mark_kept, crate::proofs::Marks::restorable_kept))]
    pub fn open(&mut self, alloc: Global) -> Result<usize, NoMemory>
        ensures sources { OnOk result (sources_of self.new ≡ sources_of self.old ++ to_come ∷ []) }
        ensures number { IfOk result (λ number. number ≡ length (sources_of self.old)) }
        ensures mark { KeepsMark self.old self.new }
    {
        let number = self.board.sources.len();
        let Definitions { board, .. } = mem::replace(self, Definitions::new(alloc));
        let mut board = board;
        board.open(alloc)?;
        *self = Definitions { board };
        Ok(number)
    }

    #[tactic(auto, unfolding(crate::specs::Definitions::marked_sources), using(crate::proofs::Marks::mark_kept, crate::proofs::Marks::restorable_kept))]
    fn define(&mut self, alloc: Global, number: usize, source: Source) -> Result<(), NoMemory>
        requires means { Means (length (sources_of self.old)) (source_of source) }
        ensures sources { OnOk result (sources_of self.new
            ≡ with_source number (source_of source) (sources_of self.old)) }
        ensures mark { KeepsMark self.old self.new }
    {
        if !self.board.is_to_come(number) {
            return Ok(());
        }
        let Definitions { board, .. } = mem::replace(self, Definitions::new(alloc));
        let mut board = board;
        board.define(alloc, number, source)?;
        *self = Definitions { board };
        Ok(())
    }

    /// A definition that was to come has this value. One that is there already stays.
    pub fn give(&mut self, alloc: Global, number: usize, value: Value) -> Result<(), NoMemory>
        ensures sources { OnOk result (sources_of self.new
            ≡ with_source number (given value) (sources_of self.old)) }
        ensures mark { KeepsMark self.old self.new }
    {
        self.define(alloc, number, Source::Given(value))
    }

    /// A definition that was to come is this expression, whose names mean definitions that there are. One that is there
    /// already stays.
    pub fn write(
        &mut self,
        alloc: Global,
        number: usize,
        expression: Expression,
    ) -> Result<(), NoMemory>
        requires means { Means (length (sources_of self.old)) (worked (written_of expression)) }
        ensures sources { OnOk result (sources_of self.new
            ≡ with_source number (worked (written_of expression)) (sources_of self.old)) }
        ensures mark { KeepsMark self.old self.new }
    {
        self.define(alloc, number, Source::Worked(expression))
    }

    /// What a definition is worth: its value, or that of its expression, once all that it rests on has one.
    pub fn value(&self, number: usize) -> Option<Value>
        ensures { result ≡ value_of (sources_of self.now) number }
    {
        self.board.value(number)
    }

    /// The value of an expression by what the definitions are worth.
    ///
    /// [`ExprError`] as for `vax_lex`'s `evaluate`.
    pub fn evaluate(&self, expression: &Expression) -> Result<Value, ExprError>
        ensures { result ≡ worth (value_of (sources_of self.now)) (written_of expression.now) }
    {
        self.board.evaluate(expression)
    }

    /// The fault that an expression has whatever the definitions are worth that have no value yet.
    ///
    /// [`ExprError`] as for `vax_lex`'s `certain_fault`.
    pub fn certain_fault(&self, expression: &Expression) -> Option<ExprError>
        ensures { result ≡ certain (value_of (sources_of self.now)) (written_of expression.now) }
    {
        self.board.certain_fault(expression)
    }

    /// Whether a name of an expression means a definition that is still to come.
    pub fn names_to_come(&self, expression: &Expression) -> bool
        ensures { result ≡ names_to_come (sources_of self.now) (written_of expression.now) }
    {
        self.board.names_to_come(expression)
    }

    /// The expression that a definition is, if it is one.
    pub fn expression(&self, number: usize) -> Option<&Expression>
        ensures { option_map (λ e. written_of e.now) result
            ≡ expression_in (source_at (sources_of self.now) number) }
    {
        self.board.expression(number)
    }
}
