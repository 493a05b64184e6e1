//! The names that modules share.
ghost use Rattle.std.specs.Prelude.{◌≡◌, ◌≤◌, [], IfOk, OnOk, length, option_copied};
ghost use Rattle.vax_link.specs.Names as spec;
ghost use Rattle.vax_link.specs.Names.{Entries};
ghost use Rattle.vax_link.specs.Tables.{IsTable, Adds, DefinesAll, IsNamed};
ghost use Rattle.std.specs.List.{find};

use std::alloc::{AllocError, Global};
use std::collections::HashMap;
use vax_module::{Module, Symbol, Value};

/// What a global name stands for, and the number of its module.
#[derive(Clone, Copy)]
pub(crate) struct Definition {
    pub(crate) owner: u32,
    pub(crate) value: Value,
}

/// What a name leads to: a number or a place in a section of a module, and what is added to it; a name that no module
/// defines, and what is added to that; or a name that it has already met.
#[derive(Clone, Copy)]
pub(crate) enum Chased {
    Ends(u32, Value, u32),
    Unknown(u32),
    Circles,
}

/// The names of modules, each with its definition.
#[derive(Drop)]
pub(crate) struct Names<'a> {
    pub(crate) modules: &'a [Module],
    pub(crate) defined: HashMap<&'a [u8], Definition>,
    /// One more than there are definitions.
    pub(crate) steps: u64,
}

/// The low 32 bits.
pub(crate) fn low_longword(n: i64) -> u32
    ensures { result ≡ spec.low_longword n }
{
    (n.cast_unsigned() % 0x1_0000_0000) as u32
}

/// The name of an external of a module.
pub(crate) fn external_name<'a>(modules: &'a [Module], owner: u32, index: u32) -> &'a [u8]
    ensures { result.now ≡ spec.external_name modules.entry.now owner index }
{
    match modules.get(owner as usize) {
        None => &[],
        Some(module) => match module.externals.as_slice().get(index as usize) {
            None => &[],
            Some(external) => external.name.as_slice(),
        },
    }
}

impl<'a> Names<'a> {
    /// No names yet.
    fn new(alloc: Global, modules: &'a [Module]) -> Names<'a>
        ensures table { IsTable result [] }
        ensures modules { result.modules.now ≡ modules.entry.now }
    {
        Names {
            modules,
            defined: HashMap::new(alloc),
            steps: 1,
        }
    }

    /// Whether a name is defined.
    pub(crate) fn has(&self, name: &[u8]) -> bool
        ensures { (before : Entries) →
            IsTable self.now before → result ≡ spec.is_defined name.now before }
    {
        self.defined.get(name).is_some()
    }

    /// Defines one more name.
    fn define(&mut self, name: &'a [u8], definition: Definition) -> Result<(), AllocError>
        ensures { OnOk result (Adds self.old self.new name.entry.now definition) }
    {
        let steps = self.steps.checked_add(1).ok_or(AllocError)?;
        match self.defined.insert(name, definition) {
            Ok(_) => {
                self.steps = steps;
                Ok(())
            }
            Err(_) => Err(AllocError),
        }
    }

    /// Defines the global names of a module, up to the first that is defined already.
    fn define_all(
        &mut self,
        owner: u32,
        globals: &'a [Symbol],
    ) -> Result<Option<&'a [u8]>, AllocError>
        ensures found { (entries : Entries) → IsTable self.old entries →
            IfOk result (λ found. DefinesAll self.new entries
            (spec.entries_of owner globals.entry.now) (option_copied found)) }
        ensures modules { OnOk result (self.new.modules.now ≡ self.old.modules.now) }
    {
        for symbol in globals {
            let name = symbol.name.as_slice();
            if self.has(name) {
                return Ok(Some(name));
            }
            let value = symbol.value;
            self.define(name, Definition { owner, value })?;
        }
        Ok(None)
    }
}

/// The names of modules; or the first that is defined twice.
pub(crate) fn names_of<'a>(
    alloc: Global,
    modules: &'a [Module],
) -> Result<Result<Names<'a>, &'a [u8]>, AllocError>
    requires { length modules.now ≤ 8 }
    ensures { IfOk result (λ named. IsNamed modules.entry.now named) }
{
    let mut names = Names::new(alloc, modules);
    for (owner, module) in modules.iter().enumerate() {
        if let Some(name) = names.define_all(owner as u32, module.globals.as_slice())? {
            return Ok(Err(name));
        }
    }
    match second_transfer(modules) {
        None => Ok(Ok(names)),
        Some(name) => Ok(Err(name)),
    }
}

/// The name of the second transfer address.
fn second_transfer<'a>(modules: &'a [Module]) -> Option<&'a [u8]>
    ensures { option_copied result ≡ spec.second_transfer modules.entry.now }
{
    let mut found = false;
    for module in modules {
        if let Some(symbol) = &module.transfer {
            if found {
                return Some(symbol.name.as_slice());
            }
            found = true;
        }
    }
    None
}
