// Names, and what they mean where they stand.

ghost use Rattle.std.specs.Prelude.{◌≡◌, ◌<◌, ◌++◌, ◌∷◌, [], if◌then◌else◌, All, IfOk, OnOk, length, map};
ghost use Rattle.vax_lex.specs.Grammar.{symbol_of, symbols_of};
ghost use Rattle.vax_lex.specs.Tokens.{IsTokenOf};
ghost use Rattle.vax_asm_names.specs.View.{name_of};
ghost use Rattle.vax_asm_scope.specs.Scope.{is_external, is_local, is_missing, is_undefined, external_at, with_externals, external_names};
ghost use Rattle.vax_asm_scope.specs.View.{texts_of};
ghost use Rattle.vax_asm_values.specs.Definitions.{sources_of};
ghost use Rattle.vax_asm_values.specs.Values.{with_source};

use crate::place::{Place, behind, is_dot, kept_text};
use std::alloc::Global;
use vax_asm_names::{DefinedBy, LabelError, Linkage, Name, NameTable};
use vax_asm_values::{Definitions, Expression, Meaning};
use vax_lex::{ExprError, Token, TokenKind, Value};
use vax_space::NoMemory;

/// The names and the definitions so far.
#[derive(Drop)]
pub(crate) struct Tables {
    pub(crate) names: NameTable,
    pub(crate) definitions: Definitions,
}

/// Whether a name is a local label.
fn is_local(text: &[u8]) -> bool
    ensures { result ≡ is_local text.now }
{
    match text.first() {
        Some(first) => first.is_ascii_digit(),
        None => false,
    }
}

/// Whether a name has no definition.
fn is_undefined(name: &Name) -> bool
    ensures { result ≡ is_undefined (name_of name.now) }
{
    match name.defined_by {
        DefinedBy::Nothing => true,
        DefinedBy::Label => false,
        DefinedBy::Assignment => false,
    }
}

/// Whether a name is another module's.
fn is_external(name: &Name) -> bool
    ensures { result ≡ is_external (name_of name.now) }
{
    is_undefined(name) && name.external
}

/// Whether a name has no definition here, and may have none in another module.
fn is_missing(name: &Name) -> bool
    ensures { result ≡ is_missing (name_of name.now) }
{
    is_undefined(name) && !name.external
}

/// A definition that is to come is the next external, which has this name.
#[tactic(auto, using(crate::proofs::Seen::text_added, crate::proofs::Seen::texts_count))]
fn add_external(
    definitions: &mut Definitions,
    alloc: Global,
    definition: usize,
    text: &[u8],
    externals: &mut Vec<Vec<u8>>,
) -> Result<(), NoMemory>
    ensures sources { OnOk result (sources_of definitions.new
        ≡ with_source definition (external_at (length (texts_of externals.old)))
        (sources_of definitions.old)) }
    ensures externals { OnOk result (texts_of externals.new
        ≡ texts_of externals.old ++ text.now ∷ []) }
{
    let index = u32::try_from(externals.len()).map_err(|_| NoMemory)?;
    let text = text.to_vec(alloc).map_err(|_| NoMemory)?;
    externals.push(text).map_err(|_| NoMemory)?;
    definitions.give(alloc, definition, Value::External { index, offset: 0 })?;
    Ok(())
}

/// A name is another module's, if it is an external one.
#[tactic(auto, using(crate::proofs::Closing::no_name))]
fn close_name(
    definitions: &mut Definitions,
    alloc: Global,
    external: bool,
    definition: usize,
    text: &[u8],
    externals: &mut Vec<Vec<u8>>,
) -> Result<(), NoMemory>
    ensures sources { OnOk result (sources_of definitions.new
        ≡ (if external then with_source definition (external_at (length (texts_of externals.old)))
        (sources_of definitions.old) else sources_of definitions.old)) }
    ensures externals { OnOk result (texts_of externals.new
        ≡ texts_of externals.old ++ (if external then text.now ∷ [] else [])) }
{
    if !external {
        return Ok(());
    }
    add_external(definitions, alloc, definition, text, externals)?;
    Ok(())
}

/// Each of these names that nothing has defined, and that another module may define, is that module's. They are told in their order.
#[tactic(auto, using(crate::proofs::Closing::externals_told, crate::proofs::Closing::externals_given))]
fn close_all(
    definitions: &mut Definitions,
    alloc: Global,
    names: &[Name],
) -> Result<Vec<Vec<u8>>, NoMemory>
    ensures externals { IfOk result (λ v. texts_of v ≡ external_names (map name_of names.now)) }
    ensures sources { OnOk result (sources_of definitions.new
        ≡ with_externals 0 (map name_of names.now) (sources_of definitions.old)) }
{
    let mut externals = Vec::new(alloc);
    for name in names {
        let external = is_external(name);
        close_name(
            definitions,
            alloc,
            external,
            name.definition,
            &name.text,
            &mut externals,
        )?;
    }
    Ok(externals)
}

impl Tables {
    ghost use Rattle.vax_asm_names.specs.Names.{locals_of, name_at};
    ghost use Rattle.vax_asm_scope.specs.Known.{known};
    ghost use Rattle.vax_asm_scope.specs.PlaceView.{place_of};
    ghost use Rattle.vax_asm_scope.specs.Scope.{nothing, entry, definition_of, mean, mean_here, mean_local, bind, bind_all, bound, labelled, assigned, kept, labelled_locally, opened_if_fresh, linked, misses, closed};
    ghost use Rattle.vax_asm_scope.specs.Used.{used_by};
    ghost use Rattle.vax_asm_scope.specs.View.{scope_in, bound_in, marked_in, KeepsMark, Labels};
    ghost use Rattle.vax_asm_values.specs.Values.{Means, Worked};
    ghost use Rattle.vax_asm_values.specs.View.{written_of};
    ghost use Rattle.std.specs.Prelude.{Result, Some, None, is_some, true};
    ghost use Rattle.vax_lex.specs.declared.value.Value.{Value};
    ghost use Rattle.vax_lex.specs.declared.value.ExprError.{ExprError};

    pub(crate) fn new(alloc: Global) -> Tables
        ensures scope { scope_in result ≡ nothing }
        ensures marked { marked_in result ≡ None }
    {
        Tables {
            names: NameTable::new(alloc),
            definitions: Definitions::new(alloc),
        }
    }

    /// Sets a mark here.
    pub(crate) fn mark(&mut self)
        ensures same { scope_in self.new ≡ scope_in self.old }
        ensures marked { marked_in self.new ≡ Some (scope_in self.old) }
    {
        self.names.mark();
        self.definitions.mark();
    }

    /// Removes the mark.
    pub(crate) fn unmark(&mut self)
        ensures same { scope_in self.new ≡ scope_in self.old }
        ensures marked { marked_in self.new ≡ None }
    {
        self.names.unmark();
        self.definitions.unmark();
    }

    /// Whether there is a mark.
    pub(crate) fn is_marked(&self) -> bool
        ensures { result ≡ is_some (marked_in self.now) }
    {
        self.names.is_marked() && self.definitions.is_marked()
    }

    /// Makes the names and the definitions what they were at the mark, and removes it. False if there is no mark; nothing of use
    /// is left then.
    pub(crate) fn go_back(&mut self) -> bool
        ensures back { result ≡ true → marked_in self.old ≡ Some (scope_in self.new) }
        ensures marked { marked_in self.new ≡ None }
    {
        self.names.go_back() && self.definitions.go_back()
    }

    /// The number of a name. One that appears for the first time gets a definition that is to come.
    pub(crate) fn entry(&mut self, alloc: Global, text: &[u8]) -> Result<usize, NoMemory>
        ensures number { IfOk result (λ i. i ≡ (entry text.now (scope_in self.old)).number) }
        ensures scope { OnOk result (scope_in self.new
            ≡ (entry text.now (scope_in self.old)).scope) }
        ensures within { IfOk result (λ i. i < length (scope_in self.new).names.all) }
        ensures mark { KeepsMark self.old self.new }
    {
        if let Some(number) = self.names.number(text) {
            return Ok(number);
        }
        let number = self.names.names().len();
        let definition = self.definitions.open(alloc)?;
        self.names.add(alloc, text, definition)?;
        Ok(number)
    }

    /// The definition that a use of a name means.
    #[tactic(auto, using(crate::proofs::Seen::definition_seen))]
    pub(crate) fn definition_of(&self, number: usize) -> usize
        requires { number < length (scope_in self.now).names.all }
        ensures { result ≡ (name_at (scope_in self.now).names.all number).definition }
    {
        let all = self.names.names();
        all[number].definition
    }

    /// What a name is worth where a statement stands.
    pub(crate) fn known(&self, text: &[u8], here: Value) -> Option<Value>
        ensures { result ≡ known here (scope_in self.now) text.now }
    {
        if is_dot(text) {
            return Some(here);
        }
        if is_local(text) {
            return match self.names.local(text) {
                Some(local) => self.definitions.value(local.definition),
                None => None,
            };
        }
        match self.names.number(text) {
            Some(number) => self.definitions.value(self.definition_of(number)),
            None => None,
        }
    }

    /// What a local label means.
    pub(crate) fn local_meaning(&mut self, alloc: Global, text: &[u8]) -> Result<usize, NoMemory>
        ensures definition { IfOk result (λ d. d ≡ (mean_local text.now (scope_in self.old)
            (locals_of (scope_in self.old).names text.now)).definition) }
        ensures scope { OnOk result (scope_in self.new ≡ (mean_local text.now (scope_in self.old)
            (locals_of (scope_in self.old).names text.now)).scope) }
        ensures mark { KeepsMark self.old self.new }
    {
        if let Some(local) = self.names.local(text) {
            return Ok(local.definition);
        }
        let fresh = self.definitions.open(alloc)?;
        self.names.use_local(alloc, text, fresh)?;
        Ok(fresh)
    }

    /// What `.` means.
    fn place_meaning(&mut self, alloc: Global, here: Value) -> Result<usize, NoMemory>
        ensures definition { IfOk result (λ d. d
            ≡ (mean_here here (scope_in self.old)).definition) }
        ensures scope { OnOk result (scope_in self.new
            ≡ (mean_here here (scope_in self.old)).scope) }
        ensures mark { KeepsMark self.old self.new }
    {
        let definition = self.definitions.open(alloc)?;
        self.definitions.give(alloc, definition, here)?;
        Ok(definition)
    }

    /// What a name means where it stands.
    fn meaning(&mut self, alloc: Global, text: &[u8], here: Value) -> Result<usize, NoMemory>
        ensures definition { IfOk result (λ d. d
            ≡ (mean here text.now (scope_in self.old)).definition) }
        ensures scope { OnOk result (scope_in self.new
            ≡ (mean here text.now (scope_in self.old)).scope) }
        ensures mark { KeepsMark self.old self.new }
    {
        if is_dot(text) {
            return self.place_meaning(alloc, here);
        }
        if is_local(text) {
            return self.local_meaning(alloc, text);
        }
        let number = self.entry(alloc, text)?;
        Ok(self.definition_of(number))
    }

    /// One more name is bound.
    #[tactic(auto, using(crate::proofs::Seen::meaning_added))]
    fn bind_name(
        &mut self,
        alloc: Global,
        found: &mut Vec<Meaning>,
        text: &[u8],
        here: Value,
    ) -> Result<(), NoMemory>
        ensures bound { OnOk result (bound_in found.new self.new
            ≡ bind here text.now (bound_in found.old self.old)) }
        ensures mark { KeepsMark self.old self.new }
    {
        let definition = self.meaning(alloc, text, here)?;
        let name = text.to_vec(alloc).map_err(|_| NoMemory)?;
        found
            .push(Meaning { name, definition })
            .map_err(|_| NoMemory)?;
        Ok(())
    }

    /// The name that a token is, if it is one that the expression uses, is bound.
    fn bind_token(
        &mut self,
        alloc: Global,
        found: &mut Vec<Meaning>,
        line: &[u8],
        place: Place,
        token: Token,
        here: Value,
    ) -> Result<(), NoMemory>
        requires { IsTokenOf line.now token }
        ensures bound { OnOk result (bound_in found.new self.new
            ≡ bind_all here (bound_in found.old self.old) (used_by (place_of place)
            (symbol_of line.now token))) }
        ensures mark { KeepsMark self.old self.new }
    {
        match (place, token.kind) {
            (Place::Term, TokenKind::Name) => {
                let name = kept_text(line, token);
                self.bind_name(alloc, found, name.as_bytes(), here)?;
                Ok(())
            }
            _ => Ok(()),
        }
    }

    /// The names that an expression uses, and what they mean where it stands.
    #[tactic(auto, using(crate::proofs::Binding::token_bound))]
    pub(crate) fn bind_tokens(
        &mut self,
        alloc: Global,
        line: &[u8],
        tokens: &[Token],
        here: Value,
    ) -> Result<Vec<Meaning>, NoMemory>
        requires { All (IsTokenOf line.now) tokens.now }
        ensures bound { IfOk result (λ found. bound_in found self.new
            ≡ bound here (symbols_of line.now tokens.now) (scope_in self.old)) }
        ensures mark { KeepsMark self.old self.new }
    {
        let mut found = Vec::new(alloc);
        let mut place = Place::Term;
        for token in tokens {
            self.bind_token(alloc, &mut found, line, place, *token, here)?;
            place = behind(line, place, *token);
        }
        Ok(found)
    }

    /// A label defines a name. Where it is a second one, all is as before.
    #[tactic(auto, using(crate::proofs::Seen::within_changed, crate::proofs::Seen::second_label))]
    pub(crate) fn label(
        &mut self,
        alloc: Global,
        text: &[u8],
        value: Value,
    ) -> Result<(), LabelError>
        ensures labels { Labels result
            (scope_in self.old) (scope_in self.new) (labelled text.now value (scope_in self.old)) }
        ensures mark { KeepsMark self.old self.new }
    {
        let Ok(number) = self.entry(alloc, text) else {
            return Err(LabelError::NoMemory);
        };
        let Ok(()) = self.names.label(number) else {
            return Err(LabelError::Duplicate);
        };
        let definition = self.definition_of(number);
        let Ok(()) = self.definitions.give(alloc, definition, value) else {
            return Err(LabelError::NoMemory);
        };
        Ok(())
    }

    /// A definition is there: a value where it has one, else its expression.
    fn keep(
        &mut self,
        alloc: Global,
        definition: usize,
        value: Result<Value, ExprError>,
        expression: Expression,
    ) -> Result<(), NoMemory>
        requires { Means (length (scope_in self.old).sources) (Worked (written_of expression)) }
        ensures scope { OnOk result (scope_in self.new ≡ record (scope_in self.old) {
          sources = with_source definition (kept (written_of expression) value)
              (scope_in self.old).sources;
        }) }
        ensures mark { KeepsMark self.old self.new }
    {
        match value {
            Ok(value) => self.definitions.give(alloc, definition, value)?,
            Err(_) => self.definitions.write(alloc, definition, expression)?,
        }
        Ok(())
    }

    /// An assignment defines a name. It tells which definition the name then means. Where the name is a label, all is as before.
    #[tactic(auto, using(crate::proofs::Seen::within_changed, crate::proofs::Seen::means_more, crate::proofs::Seen::label_assigned))]
    pub(crate) fn assign(
        &mut self,
        alloc: Global,
        text: &[u8],
        expression: Expression,
    ) -> Result<usize, LabelError>
        requires { Means (length (scope_in self.old).sources) (Worked (written_of expression)) }
        ensures scope { Labels result (scope_in self.old)
            (scope_in self.new) (assigned text.now (written_of expression) (scope_in self.old)) }
        ensures definition { IfOk result (λ d. d ≡ definition_of text.now (scope_in self.new)) }
        ensures mark { KeepsMark self.old self.new }
    {
        let Ok(number) = self.entry(alloc, text) else {
            return Err(LabelError::NoMemory);
        };
        let value = self.definitions.evaluate(&expression);
        let fresh = self.definitions.count();
        let Ok(()) = self.names.assign(number, fresh) else {
            return Err(LabelError::Duplicate);
        };
        let definition = self.definition_of(number);
        let Ok(()) = self.open_if_fresh(alloc, definition) else {
            return Err(LabelError::NoMemory);
        };
        let Ok(()) = self.keep(alloc, definition, value, expression) else {
            return Err(LabelError::NoMemory);
        };
        Ok(definition)
    }

    /// A local label is defined.
    pub(crate) fn label_local(
        &mut self,
        alloc: Global,
        text: &[u8],
        value: Value,
    ) -> Result<(), LabelError>
        ensures labels { Labels result (scope_in self.old)
            (scope_in self.new) (labelled_locally text.now value (scope_in self.old)) }
        ensures mark { KeepsMark self.old self.new }
    {
        let fresh = self.definitions.count();
        let local = self.names.label_local(alloc, text, fresh)?;
        let Ok(()) = self.open_if_fresh(alloc, local.definition) else {
            return Err(LabelError::NoMemory);
        };
        let Ok(()) = self.definitions.give(alloc, local.definition, value) else {
            return Err(LabelError::NoMemory);
        };
        Ok(())
    }

    /// The next definition is to come, if this is its number.
    fn open_if_fresh(&mut self, alloc: Global, definition: usize) -> Result<(), NoMemory>
        ensures scope { OnOk result (scope_in self.new ≡ record (scope_in self.old)
            { sources = opened_if_fresh definition (scope_in self.old).sources }) }
        ensures mark { KeepsMark self.old self.new }
    {
        if definition == self.definitions.count() {
            self.definitions.open(alloc)?;
        }
        Ok(())
    }

    /// The module says of a name that other modules may use it, or that one of them may define it.
    pub(crate) fn link(
        &mut self,
        alloc: Global,
        text: &[u8],
        linkage: Linkage,
    ) -> Result<(), NoMemory>
        ensures scope { OnOk result
            (scope_in self.new ≡ linked linkage text.now (scope_in self.old)) }
        ensures mark { KeepsMark self.old self.new }
    {
        let number = self.entry(alloc, text)?;
        self.names.link(number, linkage);
        Ok(())
    }

    /// Whether the name with a number has no definition here, and may have none in another module.
    #[tactic(auto, using(crate::proofs::Seen::missing_seen))]
    fn is_missing(&self, number: usize) -> bool
        requires { number < length (scope_in self.now).names.all }
        ensures { result ≡ is_missing (name_at (scope_in self.now).names.all number) }
    {
        let all = self.names.names();
        is_missing(&all[number])
    }

    /// Whether nothing has defined a name that has appeared, and no other module may.
    pub(crate) fn misses(&self, text: &[u8]) -> bool
        ensures { result ≡ misses text.now (scope_in self.now) }
    {
        match self.names.number(text) {
            Some(number) => self.is_missing(number),
            None => false,
        }
    }

    /// Each name that nothing has defined, and that another module may define, is that module's. They are told in the order in which they first appeared.
    pub(crate) fn close(&mut self, alloc: Global) -> Result<Vec<Vec<u8>>, NoMemory>
        ensures externals { IfOk result (λ names. texts_of names
            ≡ external_names (scope_in self.old).names.all) }
        ensures scope { OnOk result (scope_in self.new ≡ closed (scope_in self.old)) }
        ensures mark { KeepsMark self.old self.new }
    {
        self.names.unmark();
        close_all(&mut self.definitions, alloc, self.names.names())
    }
}
