// How values come to be known.

ghost use Rattle.std.specs.Prelude.{◌≡◌, ◌<◌, ◌≤◌, ◌+◌, ◌++◌, ◌∷◌, [], All, OnOk, length, map, true, false, slice_set, option_map, nat_lt, ◌&&◌};
ghost use Rattle.std.specs.Str.{bytes_eq};
ghost use Rattle.vax_asm_values.specs.Certain.{certain};
ghost use Rattle.vax_asm_values.specs.Values.{named, worth, source_at, value_under, ToCome as to_come};
ghost use Rattle.vax_asm_values.specs.View.{meaning_of, written_of, source_of, sources_in, lists_in};
ghost use Rattle.vax_asm_values.specs.Waiting.{known, listed, waiters, Watches, Settled, Standing, Grown, weight};
ghost use Rattle.vax_asm_values.specs.Values.{Means, expression_in, is_to_come};
ghost use Rattle.vax_asm_values.specs.ToCome.{names_to_come};
ghost use Rattle.vax_asm_values.specs.Marks.{KeepsMark, source_before, value_before, wait_before, marked_sources_in, marked_values_in, marked_waiting_in};

use crate::journal::{Change, Journal};
use crate::types::{Board, Expression, Meaning, Source};
use std::alloc::Global;
use vax_dialect::Dialect;
use vax_lex::{ExprError, Names, Value, certain_fault, evaluate};
use vax_space::NoMemory;

/// The values of the names of an expression.
#[derive(Clone, Copy)]
struct Looked<'a> {
    dialect: Dialect,
    names: &'a [Meaning],
    values: &'a [Option<Value>],
}

fn is_named(meaning: &Meaning, name: &[u8]) -> bool
    ensures { result ≡ bytes_eq meaning.now.name.items name.now }
{
    meaning.name.as_slice() == name
}

fn value_at(values: &[Option<Value>], number: usize) -> Option<Value>
    ensures { result ≡ known values.now number }
{
    if number < values.len() {
        values[number]
    } else {
        None
    }
}

impl Names for Looked<'_> {
    ghost use Rattle.std.specs.Prelude.{map};

    ghost meaning = { λ s. record {
      dialect = s.dialect;
      value = named (known s.values.now) (map meaning_of s.names.now);
    } };

    fn dialect(&self) -> Dialect {
        self.dialect
    }

    fn lookup(&self, name: &[u8]) -> Option<Value> {
        for meaning in self.names {
            if is_named(meaning, name) {
                return value_at(self.values, meaning.definition);
            }
        }
        None
    }
}

pub(crate) fn add_last<T: Drop>(list: &mut Vec<T>, item: T) -> Result<(), NoMemory>
    ensures { OnOk result (list.new.items ≡ list.old.items ++ item ∷ []) }
{
    list.push(item).map_err(|_| NoMemory)?;
    Ok(())
}

fn add_all(work: &mut Vec<usize>, more: &[usize]) -> Result<(), NoMemory>
    ensures { OnOk result (work.new.items ≡ work.old.items ++ more.now) }
{
    work.extend_from_slice(more).map_err(|_| NoMemory)
}

/// One more definition waits for another.
fn add_waiting(waiting: &mut Vec<Vec<usize>>, other: usize, number: usize) -> Result<(), NoMemory>
    requires { other < length waiting.old.items }
    ensures grown { OnOk result (Grown (lists_in waiting.old) (lists_in waiting.new)) }
    ensures listed { OnOk result (listed number (waiters (lists_in waiting.new) other) ≡ true) }
    ensures length { length waiting.new.items ≡ length waiting.old.items }
{
    add_last(&mut waiting[other], number)?;
    Ok(())
}

/// A definition waits for each that these names mean.
fn wait_for_all(
    waiting: &mut Vec<Vec<usize>>,
    names: &[Meaning],
    number: usize,
) -> Result<(), NoMemory>
    requires { All (λ m. m.definition < length waiting.old.items) names.now }
    ensures grown { OnOk result (Grown (lists_in waiting.old) (lists_in waiting.new)) }
    ensures listed { OnOk result
        (All (λ m. listed number (waiters (lists_in waiting.new) m.definition) ≡ true) names.now) }
    ensures length { length waiting.new.items ≡ length waiting.old.items }
{
    for meaning in names {
        add_waiting(waiting, meaning.definition, number)?;
    }
    Ok(())
}

/// A definition waits for those in its expression.
fn wait(waiting: &mut Vec<Vec<usize>>, source: &Source, number: usize) -> Result<(), NoMemory>
    requires { Means (length waiting.old.items) (source_of source.now) }
    ensures grown { OnOk result (Grown (lists_in waiting.old) (lists_in waiting.new)) }
    ensures watches { OnOk result (Watches (lists_in waiting.new) number (source_of source.now)) }
    ensures length { length waiting.new.items ≡ length waiting.old.items }
{
    match source {
        Source::ToCome | Source::Given(_) => Ok(()),
        Source::Worked(expression) => {
            wait_for_all(waiting, &expression.names, number)?;
            Ok(())
        }
    }
}

impl Board {
    pub(crate) fn new(alloc: Global) -> Board
        ensures sources { sources_in result.sources ≡ [] }
        ensures values { result.values.items ≡ [] }
        ensures waiting { lists_in result.waiting ≡ [] }
        ensures marked { result.journal.marked ≡ false }
    {
        Board {
            sources: Vec::new(alloc),
            values: Vec::new(alloc),
            waiting: Vec::new(alloc),
            journal: Journal {
                marked: false,
                changes: Vec::new(alloc),
            },
        }
    }

    pub(crate) fn value(&self, number: usize) -> Option<Value>
        ensures { result ≡ known self.now.values.items number }
    {
        value_at(&self.values, number)
    }

    pub(crate) fn is_to_come(&self, number: usize) -> bool
        ensures { result ≡ (nat_lt number (length (sources_in self.now.sources))
            && is_to_come (source_at (sources_in self.now.sources) number)) }
    {
        match self.sources.get(number) {
            Some(Source::ToCome) => true,
            _ => false,
        }
    }

    /// Whether a name means a definition that is still to come.
    fn is_open(&self, meaning: &Meaning) -> bool
        ensures { result ≡ is_to_come (source_at (sources_in self.now.sources)
            (meaning_of meaning.now).definition) }
    {
        match self.sources.get(meaning.definition) {
            None | Some(Source::ToCome) => true,
            _ => false,
        }
    }

    /// Whether one of the names of an expression does.
    #[tactic(auto, using(crate::proofs::Open::name_found, crate::proofs::Open::name_passed, crate::proofs::Open::names_passed))]
    pub(crate) fn names_to_come(&self, expression: &Expression) -> bool
        ensures { result ≡ names_to_come (sources_in self.now.sources) (written_of expression.now) }
    {
        for meaning in &expression.names {
            if self.is_open(meaning) {
                return true;
            }
        }
        false
    }

    pub(crate) fn expression(&self, number: usize) -> Option<&Expression>
        ensures { option_map (λ e. written_of e.now) result
            ≡ expression_in (source_at (sources_in self.now.sources) number) }
    {
        match self.sources.get(number) {
            Some(Source::Worked(expression)) => Some(expression),
            _ => None,
        }
    }

    /// The value of an expression by the values so far.
    #[tactic(auto, unfolding(crate::specs::Values::value_in))]
    pub(crate) fn evaluate(&self, expression: &Expression) -> Result<Value, ExprError>
        ensures { result ≡ worth (known self.now.values.items) (written_of expression.now) }
    {
        let looked = Looked {
            dialect: expression.dialect,
            names: &expression.names,
            values: &self.values,
        };
        evaluate(&expression.text, &expression.tokens, &looked)
    }

    /// The fault that an expression has whatever the definitions are worth that have no value so far.
    #[tactic(auto, unfolding(crate::specs::Certain::certain_in))]
    pub(crate) fn certain_fault(&self, expression: &Expression) -> Option<ExprError>
        ensures { result ≡ certain (known self.now.values.items) (written_of expression.now) }
    {
        let looked = Looked {
            dialect: expression.dialect,
            names: &expression.names,
            values: &self.values,
        };
        certain_fault(&expression.text, &expression.tokens, &looked)
    }

    /// What a definition is worth by the values so far.
    fn worth(&self, number: usize) -> Option<Value>
        requires { number < length (sources_in self.now.sources) }
        ensures { result ≡ value_under (known self.now.values.items)
            (source_at (sources_in self.now.sources) number) }
    {
        match &self.sources[number] {
            Source::ToCome => None,
            Source::Given(value) => Some(*value),
            Source::Worked(expression) => self.evaluate(expression).ok(),
        }
    }

    /// Looks at a definition that is not known: where it is worth something by now, it has that value, and those that
    /// wait for it are to be looked at.
    #[tactic(auto, using(crate::proofs::Stepping::known_already, crate::proofs::Stepping::nothing_new, crate::proofs::Stepping::looked_at, crate::proofs::Stepping::resolved, crate::proofs::Stepping::weight_less))]
    fn look(&mut self, number: usize, work: &mut Vec<usize>) -> Result<(), NoMemory>
        requires standing { Standing (sources_in self.old.sources)
            self.old.values.items (lists_in self.old.waiting) (work.old.items ++ number ∷ []) }
        requires values { length self.old.values.items ≡ length self.old.sources.items }
        requires waiting { length self.old.waiting.items ≡ length self.old.sources.items }
        ensures standing { OnOk result (Standing (sources_in self.new.sources)
            self.new.values.items (lists_in self.new.waiting) work.new.items) }
        ensures fewer { OnOk result
            (weight self.new.values.items (lists_in self.new.waiting) + length work.new.items
            ≤ weight self.old.values.items (lists_in self.old.waiting) + length work.old.items) }
        ensures sources { self.new.sources ≡ self.old.sources }
        ensures waiting { self.new.waiting ≡ self.old.waiting }
        ensures values { length self.new.values.items ≡ length self.old.values.items }
        ensures mark { KeepsMark self.old self.new }
    {
        if number >= self.sources.len() {
            return Ok(());
        }
        if self.values[number].is_some() {
            return Ok(());
        }
        let Some(value) = self.worth(number) else {
            return Ok(());
        };
        self.values[number] = Some(value);
        self.journal.note(Change::Known(number));
        add_all(work, &self.waiting[number])?;
        Ok(())
    }

    /// Looks at a definition, and at all that it makes known.
    #[tactic(auto, using(crate::proofs::Stepping::at_rest, crate::proofs::Marks::kept_itself, crate::proofs::Marks::kept_through))]
    fn settle(&mut self, alloc: Global, first: usize) -> Result<(), NoMemory>
        requires standing { Standing (sources_in self.old.sources)
            self.old.values.items (lists_in self.old.waiting) (first ∷ []) }
        requires values { length self.old.values.items ≡ length self.old.sources.items }
        requires waiting { length self.old.waiting.items ≡ length self.old.sources.items }
        ensures settled { OnOk result (Settled (sources_in self.new.sources)
            self.new.values.items (lists_in self.new.waiting)) }
        ensures sources { self.new.sources ≡ self.old.sources }
        ensures waiting { self.new.waiting ≡ self.old.waiting }
        ensures values { length self.new.values.items ≡ length self.old.values.items }
        ensures mark { KeepsMark self.old self.new }
    {
        let mut work = Vec::new(alloc);
        add_all(&mut work, &[first])?;
        'work: while let Some(number) = work.pop() {
            self.look(number, &mut work)?;
        }
        Ok(())
    }

    /// A definition that was to come is there.
    pub(crate) fn define(
        &mut self,
        alloc: Global,
        number: usize,
        source: Source,
    ) -> Result<(), NoMemory>
        requires settled { Settled (sources_in self.old.sources)
            self.old.values.items (lists_in self.old.waiting) }
        requires values { length self.old.values.items ≡ length self.old.sources.items }
        requires waiting { length self.old.waiting.items ≡ length self.old.sources.items }
        requires within { number < length self.old.sources.items }
        requires first { source_at (sources_in self.old.sources) number ≡ to_come }
        requires means { Means (length self.old.sources.items) (source_of source) }
        ensures settled { OnOk result (Settled (sources_in self.new.sources)
            self.new.values.items (lists_in self.new.waiting)) }
        ensures sources { OnOk result (sources_in self.new.sources
            ≡ slice_set (sources_in self.old.sources) number (source_of source)) }
        ensures values { OnOk result (length self.new.values.items
            ≡ length self.new.sources.items) }
        ensures waiting { OnOk result (length self.new.waiting.items
            ≡ length self.new.sources.items) }
        ensures mark { OnOk result (KeepsMark self.old self.new) }
    {
        wait(&mut self.waiting, &source, number)?;
        self.sources[number] = source;
        self.journal.note(Change::Defined(number));
        self.settle(alloc, number)?;
        Ok(())
    }

    /// One more definition, which is to come.
    pub(crate) fn open(&mut self, alloc: Global) -> Result<(), NoMemory>
        requires settled { Settled (sources_in self.old.sources)
            self.old.values.items (lists_in self.old.waiting) }
        requires values { length self.old.values.items ≡ length self.old.sources.items }
        requires waiting { length self.old.waiting.items ≡ length self.old.sources.items }
        ensures settled { OnOk result (Settled (sources_in self.new.sources)
            self.new.values.items (lists_in self.new.waiting)) }
        ensures sources { OnOk result (sources_in self.new.sources
            ≡ sources_in self.old.sources ++ to_come ∷ []) }
        ensures values { OnOk result (length self.new.values.items
            ≡ length self.new.sources.items) }
        ensures waiting { OnOk result (length self.new.waiting.items
            ≡ length self.new.sources.items) }
        ensures mark { OnOk result (KeepsMark self.old self.new) }
    {
        add_last(&mut self.sources, Source::ToCome)?;
        add_last(&mut self.values, None)?;
        add_last(&mut self.waiting, Vec::new(alloc))?;
        self.journal.note(Change::Opened);
        Ok(())
    }

    /// Undoes a change.
    fn undo(&mut self, change: Change)
        ensures sources { sources_in self.new.sources
            ≡ source_before change (sources_in self.old.sources) }
        ensures values { self.new.values.items ≡ value_before change self.old.values.items }
        ensures waiting { lists_in self.new.waiting
            ≡ wait_before change (lists_in self.old.waiting) }
        ensures journal { self.new.journal ≡ self.old.journal }
    {
        match change {
            Change::Opened => {
                self.sources.pop();
                self.values.pop();
                self.waiting.pop();
            }
            Change::Defined(number) => {
                if number < self.sources.len() {
                    self.sources[number] = Source::ToCome;
                }
            }
            Change::Known(number) => {
                if number < self.values.len() {
                    self.values[number] = None;
                }
            }
        }
    }

    /// Undoes all changes since the mark, the last one first.
    pub(crate) fn go_back(&mut self)
        ensures sources { sources_in self.new.sources ≡ marked_sources_in self.old }
        ensures values { self.new.values.items ≡ marked_values_in self.old }
        ensures waiting { lists_in self.new.waiting ≡ marked_waiting_in self.old }
        ensures marked { self.new.journal.marked ≡ false }
    {
        'changes: while let Some(change) = self.journal.changes.pop() {
            self.undo(change);
        }
        self.journal.marked = false;
    }
}
