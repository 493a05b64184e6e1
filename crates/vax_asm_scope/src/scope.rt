// The scope.

ghost use Rattle.vax_asm_scope.specs.Scope.{IsInRange};
ghost use Rattle.vax_asm_scope.specs.View.{scope_in, IsMarkInRange};
ghost use Rattle.vax_asm_scope.specs.RangeProps.{range_prop, mark_range_prop};

use crate::masks::{add_meaning, masked_tokens, shared};
use crate::tables::Tables;
use std::alloc::Global;
use std::mem;
use std::rc::Rc;
use vax_asm_names::{LabelError, Linkage, Name};
use vax_asm_values::Expression;
use vax_dialect::Dialect;
use vax_lex::{ExprError, Token, Value};
use vax_space::NoMemory;

/// The names and the definitions so far.
///
/// Where memory is refused, nothing of them is left: whoever assembles a source ends there.
///
/// [`Scope::mark`] sets a mark, and [`Scope::go_back`] makes the names and the definitions what they were there. A call that can't be
/// undone removes the mark.
#[derive(Drop)]
pub struct Scope {
    tables: Tables,
    ghost in_range: { IsInRange (scope_in tables) } by { range_prop (scope_in tables) },
    ghost mark_in_range: { IsMarkInRange tables } by { mark_range_prop tables },
}

#[tactic(auto, unfolding(crate::specs::Kept::marked_scope))]
impl Scope {
    ghost use Rattle.std.specs.Prelude.{◌≡◌, All, IfOk, OnOk, Some, None, is_some, true, length, map};
    ghost use Rattle.vax_lex.specs.Grammar.{symbols_of, spelling, Expression as Tree};
    ghost use Rattle.vax_lex.specs.Tokens.{IsTokenOf};
    ghost use Rattle.vax_lex.specs.declared.token.TokenKind.TheVariants.{Name as NameKind};
    ghost use Rattle.vax_asm_names.specs.View.{name_of};
    ghost use Rattle.vax_asm_scope.specs.Kept.{scope_of, marked_scope, KeepsMark};
    ghost use Rattle.vax_asm_scope.specs.Known.{known};
    ghost use Rattle.vax_asm_scope.specs.Masks.{local_meant, masked};
    ghost use Rattle.vax_asm_scope.specs.Scope.{nothing, entry, definition_at, definition_of, bound, labelled, assigned, labelled_locally, begun_block, in_block, linked, assuming, misses, external_names, closed};
    ghost use Rattle.vax_asm_scope.specs.Used.{names_of};
    ghost use Rattle.vax_asm_scope.specs.View.{Defines, Labels, texts_of};
    ghost use Rattle.vax_asm_values.specs.Certain.{certain};
    ghost use Rattle.vax_asm_values.specs.Values.{Means, Worked, value_of, worth};
    ghost use Rattle.vax_asm_values.specs.ToCome.{names_to_come};
    ghost use Rattle.vax_asm_values.specs.View.{written_of};

    /// No names and no definitions.
    #[tactic(auto, using(crate::proofs::Range::nothing_in), unfolding(crate::specs::Kept::marked_scope))]
    pub fn new(alloc: Global) -> Scope
        ensures scope { scope_of result ≡ nothing }
        ensures marked { marked_scope result ≡ None }
    {
        Scope {
            tables: Tables::new(alloc),
        }
    }

    /// Sets a mark here, to which [`Scope::go_back`] goes back.
    pub fn mark(&mut self)
        ensures same { scope_of self.new ≡ scope_of self.old }
        ensures marked { marked_scope self.new ≡ Some (scope_of self.old) }
    {
        self.tables.mark();
    }

    /// Removes the mark.
    pub fn unmark(&mut self)
        ensures same { scope_of self.new ≡ scope_of self.old }
        ensures marked { marked_scope self.new ≡ None }
    {
        self.tables.unmark();
    }

    /// Whether there is a mark.
    pub fn is_marked(&self) -> bool
        ensures { result ≡ is_some (marked_scope self.now) }
    {
        self.tables.is_marked()
    }

    /// Makes the names and the definitions what they were at the mark, and removes it. False if there is no mark; nothing of them is
    /// left then.
    pub fn go_back(&mut self, alloc: Global) -> bool
        ensures back { result ≡ true → marked_scope self.old ≡ Some (scope_of self.new) }
        ensures marked { marked_scope self.new ≡ None }
    {
        let Scope { tables, .. } = mem::replace(self, Scope::new(alloc));
        let mut tables = tables;
        if !tables.go_back() {
            return false;
        }
        *self = Scope { tables };
        true
    }

    /// The names so far, in the order in which they first appeared.
    pub fn names(&self) -> &[Name]
        ensures { map name_of result.now ≡ (scope_of self.now).names.all }
    {
        self.tables.names.names()
    }

    /// The value of a definition, once it has one.
    pub fn value(&self, definition: usize) -> Option<Value>
        ensures { result ≡ value_of (scope_of self.now).sources definition }
    {
        self.tables.definitions.value(definition)
    }

    /// The value of an expression by what the definitions are worth.
    ///
    /// [`ExprError`] as for `vax_lex`'s `evaluate`.
    pub fn evaluate(&self, expression: &Expression) -> Result<Value, ExprError>
        ensures { result
            ≡ worth (value_of (scope_of self.now).sources) (written_of expression.now) }
    {
        self.tables.definitions.evaluate(expression)
    }

    /// The fault that an expression has whatever the definitions are worth that have no value yet.
    ///
    /// [`ExprError`] as for `vax_lex`'s `certain_fault`.
    pub fn certain_fault(&self, expression: &Expression) -> Option<ExprError>
        ensures { result
            ≡ certain (value_of (scope_of self.now).sources) (written_of expression.now) }
    {
        self.tables.definitions.certain_fault(expression)
    }

    /// Whether a name of an expression means a definition that is still to come. Once the source is read, that is a local
    /// label that its block doesn't define, or a name that neither this module nor another one may define.
    pub fn names_to_come(&self, expression: &Expression) -> bool
        ensures { result ≡ names_to_come (scope_of self.now).sources (written_of expression.now) }
    {
        self.tables.definitions.names_to_come(expression)
    }

    /// What a name is worth where a statement stands, by what stands before it. `here` is what `.` is worth.
    pub fn known(&self, text: &[u8], here: Value) -> Option<Value>
        ensures { result ≡ known here (scope_of self.now) text.now }
    {
        self.tables.known(text, here)
    }

    /// A name appears, which is no local label. It is told which definition a use of it means here.
    pub fn appear(&mut self, alloc: Global, text: &[u8]) -> Result<usize, NoMemory>
        ensures definition { IfOk result (λ d. d
            ≡ definition_at (entry text.now (scope_of self.old))) }
        ensures scope { OnOk result (scope_of self.new
            ≡ (entry text.now (scope_of self.old)).scope) }
        ensures mark { KeepsMark self.old self.new }
    {
        let Scope { tables, .. } = mem::replace(self, Scope::new(alloc));
        let mut tables = tables;
        let number = tables.entry(alloc, text)?;
        let definition = tables.definition_of(number);
        *self = Scope { tables };
        Ok(definition)
    }

    /// An expression of a line in a dialect, whose names mean what they mean where it stands. `here` is what `.` is worth.
    pub fn expression(
        &mut self,
        alloc: Global,
        dialect: Dialect,
        line: &Rc<Vec<u8>>,
        tokens: &[Token],
        here: Value,
    ) -> Result<Expression, NoMemory>
        requires { All (IsTokenOf line.now.value.items) tokens.now }
        ensures expression { let symbols = symbols_of line.now.value.items tokens.now in
            IfOk result (λ e. written_of e ≡ record {
              dialect = dialect;
              symbols = symbols;
              names = (bound here symbols (scope_of self.old)).names;
            }) }
        ensures scope { OnOk result (scope_of self.new
            ≡ (bound here (symbols_of line.now.value.items tokens.now) (scope_of self.old)).scope) }
        // Its names are those that are terms of the expression that the tokens spell.
        ensures tree { IfOk result (λ w. (e : Tree) →
            symbols_of line.now.value.items tokens.now ≡ spelling e →
            map (λ m. m.name) (written_of w).names ≡ names_of e) }
        // They mean definitions that there are.
        ensures means { IfOk result
            (λ e. Means (length (scope_of self.new).sources) (Worked (written_of e))) }
        ensures mark { KeepsMark self.old self.new }
    {
        let Scope { tables, .. } = mem::replace(self, Scope::new(alloc));
        let mut tables = tables;
        let names = tables.bind_tokens(alloc, line, tokens, here)?;
        let own = tokens.to_vec(alloc).map_err(|_| NoMemory)?;
        let line = Rc::clone(line).map_err(|_| NoMemory)?;
        *self = Scope { tables };
        Ok(Expression::new(dialect, line, own, names))
    }

    /// An expression as [`Scope::expression`] has it, OR-ed with the mask that a definition is, or that mask alone where there are no tokens. The
    /// token `key` stands for the mask, with a name that the expression doesn't use.
    pub fn masked_expression(
        &mut self,
        alloc: Global,
        dialect: Dialect,
        line: &Rc<Vec<u8>>,
        tokens: &[Token],
        here: Value,
        key: Token,
        definition: usize,
    ) -> Result<Expression, NoMemory>
        requires tokens { All (IsTokenOf line.now.value.items) tokens.now }
        requires key { IsTokenOf line.now.value.items key }
        requires kind { key.kind ≡ NameKind }
        ensures expression { IfOk result (λ e. written_of e
            ≡ masked dialect line.now.value.items tokens.now key definition
            (bound here (symbols_of line.now.value.items tokens.now) (scope_of self.old)).names) }
        ensures scope { OnOk result (scope_of self.new
            ≡ (bound here (symbols_of line.now.value.items tokens.now) (scope_of self.old)).scope) }
        ensures mark { KeepsMark self.old self.new }
    {
        let Scope { tables, .. } = mem::replace(self, Scope::new(alloc));
        let mut tables = tables;
        let mut names = tables.bind_tokens(alloc, line, tokens, here)?;
        add_meaning(alloc, &mut names, line, key, definition)?;
        let own = masked_tokens(alloc, tokens, key)?;
        let line = shared(line)?;
        *self = Scope { tables };
        Ok(Expression::new(dialect, line, own, names))
    }

    /// The definition that a local label means in its block.
    pub(crate) fn local_definition(&mut self, alloc: Global, text: &[u8]) -> Result<usize, NoMemory>
        ensures definition { IfOk result
            (λ d. d ≡ (local_meant text.now (scope_of self.old)).definition) }
        ensures scope { OnOk result
            (scope_of self.new ≡ (local_meant text.now (scope_of self.old)).scope) }
        ensures mark { KeepsMark self.old self.new }
    {
        let Scope { tables, .. } = mem::replace(self, Scope::new(alloc));
        let mut tables = tables;
        let definition = tables.local_meaning(alloc, text)?;
        *self = Scope { tables };
        Ok(definition)
    }

    /// A label defines a name.
    ///
    /// [`LabelError::Duplicate`] where the name has a definition, and all is as before then; [`LabelError::NoMemory`] where
    /// memory is refused.
    pub fn label(&mut self, alloc: Global, text: &[u8], value: Value) -> Result<(), LabelError>
        ensures labels { Labels result
            (scope_of self.old) (scope_of self.new) (labelled text.now value (scope_of self.old)) }
        ensures mark { KeepsMark self.old self.new }
    {
        let Scope { tables, .. } = mem::replace(self, Scope::new(alloc));
        let mut tables = tables;
        match tables.label(alloc, text, value) {
            Ok(()) => {
                *self = Scope { tables };
                Ok(())
            }
            Err(LabelError::Duplicate) => {
                *self = Scope { tables };
                Err(LabelError::Duplicate)
            }
            Err(LabelError::NoMemory) => Err(LabelError::NoMemory),
        }
    }

    /// An assignment defines a name: by the value of the expression where it has one, else by the expression, whose
    /// names may be defined later. It tells the number of the definition that the name means from here on.
    ///
    /// [`LabelError::Duplicate`] where the name is a label, [`LabelError::NoMemory`] where memory is refused.
    pub fn assign(
        &mut self,
        alloc: Global,
        text: &[u8],
        expression: Expression,
    ) -> Result<usize, LabelError>
        requires { Means (length (scope_of self.old).sources) (Worked (written_of expression)) }
        ensures scope { Defines result
            (scope_of self.new) (assigned text.now (written_of expression) (scope_of self.old)) }
        ensures definition { IfOk result (λ d. d ≡ definition_of text.now (scope_of self.new)) }
        ensures mark { KeepsMark self.old self.new }
    {
        let Scope { tables, .. } = mem::replace(self, Scope::new(alloc));
        let mut tables = tables;
        match tables.assign(alloc, text, expression) {
            Ok(definition) => {
                *self = Scope { tables };
                Ok(definition)
            }
            Err(LabelError::Duplicate) => {
                *self = Scope { tables };
                Err(LabelError::Duplicate)
            }
            Err(LabelError::NoMemory) => Err(LabelError::NoMemory),
        }
    }

    /// A local label is defined in its block.
    ///
    /// [`LabelError::Duplicate`] where it is defined in the block already, and all is as before then;
    /// [`LabelError::NoMemory`] where memory is refused.
    pub fn label_local(
        &mut self,
        alloc: Global,
        text: &[u8],
        value: Value,
    ) -> Result<(), LabelError>
        ensures labels { Labels result (scope_of self.old)
            (scope_of self.new) (labelled_locally text.now value (scope_of self.old)) }
        ensures mark { KeepsMark self.old self.new }
    {
        let Scope { tables, .. } = mem::replace(self, Scope::new(alloc));
        let mut tables = tables;
        match tables.label_local(alloc, text, value) {
            Ok(()) => {
                *self = Scope { tables };
                Ok(())
            }
            Err(LabelError::Duplicate) => {
                *self = Scope { tables };
                Err(LabelError::Duplicate)
            }
            Err(LabelError::NoMemory) => Err(LabelError::NoMemory),
        }
    }

    /// A block of local labels begins.
    pub fn begin_block(&mut self, alloc: Global) -> Result<(), NoMemory>
        ensures scope { OnOk result (scope_of self.new ≡ begun_block (scope_of self.old)) }
        ensures mark { KeepsMark self.old self.new }
    {
        let Scope { tables, .. } = mem::replace(self, Scope::new(alloc));
        let mut tables = tables;
        tables.names.begin_block(alloc)?;
        *self = Scope { tables };
        Ok(())
    }

    /// The number of the current block of local labels.
    pub fn block(&self) -> usize
        ensures { result ≡ (scope_of self.now).names.block }
    {
        self.tables.names.block()
    }

    /// The block of local labels with this number goes on, if there is one.
    pub fn resume_block(&mut self, alloc: Global, block: usize)
        ensures scope { scope_of self.new ≡ in_block block (scope_of self.old) }
        ensures mark { KeepsMark self.old self.new }
    {
        let Scope { tables, .. } = mem::replace(self, Scope::new(alloc));
        let mut tables = tables;
        tables.names.resume_block(block);
        *self = Scope { tables };
    }

    /// The module says of a name, which is no local label, that other modules may use it, or that one of them may define it.
    pub fn link(&mut self, alloc: Global, text: &[u8], linkage: Linkage) -> Result<(), NoMemory>
        ensures scope { OnOk result
            (scope_of self.new ≡ linked linkage text.now (scope_of self.old)) }
        ensures mark { KeepsMark self.old self.new }
    {
        let Scope { tables, .. } = mem::replace(self, Scope::new(alloc));
        let mut tables = tables;
        tables.link(alloc, text, linkage)?;
        *self = Scope { tables };
        Ok(())
    }

    /// Whether another module may define a name that appears from here on, where nothing more is said of it. At the start
    /// it may.
    pub fn assume_external(&mut self, alloc: Global, assumes: bool)
        ensures scope { scope_of self.new ≡ assuming assumes (scope_of self.old) }
        ensures mark { KeepsMark self.old self.new }
    {
        let Scope { tables, .. } = mem::replace(self, Scope::new(alloc));
        let mut tables = tables;
        tables.names.assume_external(assumes);
        *self = Scope { tables };
    }

    /// Whether nothing has defined a name that has appeared, and no other module may.
    pub fn misses(&self, text: &[u8]) -> bool
        ensures { result ≡ misses text.now (scope_of self.now) }
    {
        self.tables.misses(text)
    }

    /// The source is read: each name that nothing has defined, and that another module may define, is that module's. They are
    /// told in the order in which they first appeared, and each means the external with its place in that list.
    pub fn close(&mut self, alloc: Global) -> Result<Vec<Vec<u8>>, NoMemory>
        ensures externals { IfOk result (λ names. texts_of names
            ≡ external_names (scope_of self.old).names.all) }
        ensures scope { OnOk result (scope_of self.new ≡ closed (scope_of self.old)) }
        ensures mark { KeepsMark self.old self.new }
    {
        let Scope { tables, .. } = mem::replace(self, Scope::new(alloc));
        let mut tables = tables;
        let externals = tables.close(alloc)?;
        *self = Scope { tables };
        Ok(externals)
    }
}
