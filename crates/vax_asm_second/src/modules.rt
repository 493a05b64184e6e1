// The module that a source is.

ghost use Rattle.std.specs.Prelude.{◌≡◌, ◌++◌, [], AllPairs, IfOk, OnOk, map, option_map};
ghost use Rattle.std.specs.List.{filter_map, cons_option};
ghost use Rattle.std.specs.Option.{option_and_then};
ghost use Rattle.vax_asm_second.specs.Faults.{first_of, assigned_faults, unclosed_faults};
ghost use Rattle.vax_asm_second.specs.Laid as specs;
ghost use Rattle.vax_asm_second.specs.Laid.{laid};
ghost use Rattle.vax_asm_second.specs.Modules.{symbol, external_of, global_symbol, transfer_symbol, faults, module_of, filled_in};
ghost use Rattle.vax_asm_second.specs.View.{known_of, seen_sections, Lays, Fills};
ghost use Rattle.vax_macro.specs.View.{opening_of};
ghost use Rattle.vax_module.specs.Formed.{Formed, Precedes};
ghost use Rattle.vax_asm_names.specs.View.{name_of};
ghost use Rattle.vax_asm_first.specs.View.{assignment_of, standing_of, transfer_of};
ghost use Rattle.vax_asm_scope.specs.Scope.{is_external, is_undefined};

use crate::faults::{assigned_fault, first, unclosed_fault};
use crate::types::{Fault, FillError, Found, Known, Laid};
use std::alloc::Global;
use vax_asm_first::{Assignment, Fixup, Standing, Transfer};
use vax_asm_names::{DefinedBy, Name};
use vax_asm_sections::Building;
use vax_macro::Begin;
use vax_module::{Bytes, ExternalName, Items, Module, Symbol};
use vax_space::NoMemory;

/// Whether nothing has defined a name.
fn is_undefined(name: &Name) -> bool
    ensures { result ≡ is_undefined (name_of name.now) }
{
    match name.defined_by {
        DefinedBy::Nothing => true,
        DefinedBy::Label | DefinedBy::Assignment => false,
    }
}

/// Whether another module may define a name, and this one doesn't.
fn is_external(name: &Name) -> bool
    ensures { result ≡ is_external (name_of name.now) }
{
    is_undefined(name) && name.external
}

fn add<T: Drop>(list: &mut Vec<T>, item: Option<T>) -> Result<(), NoMemory>
    ensures { OnOk result (list.new.items ≡ list.old.items ++ cons_option item []) }
{
    let Some(item) = item else {
        return Ok(());
    };
    list.push(item).map_err(|_| NoMemory)?;
    Ok(())
}

/// A name that another module may define, and this one doesn't.
fn external(alloc: Global, name: &Name) -> Result<Option<ExternalName>, NoMemory>
    ensures { IfOk result (λ e. e ≡ external_of (name_of name.now)) }
{
    if !is_external(name) {
        return Ok(None);
    }
    let text = name.text.to_vec(alloc).map_err(|_| NoMemory)?;
    Ok(Some(ExternalName {
        name: Bytes::from(text),
        weak: name.weak,
    }))
}

/// The names that another module may define, and this one doesn't.
#[tactic(auto, using(crate::proofs::Steps::external_added, crate::proofs::Steps::externals_added))]
fn externals(alloc: Global, names: &[Name]) -> Result<Vec<ExternalName>, NoMemory>
    ensures { IfOk result (λ v. v.items ≡ filter_map external_of (map name_of names.now)) }
{
    let mut list = Vec::new(alloc);
    for name in names {
        let external = external(alloc, name)?;
        add(&mut list, external)?;
    }
    Ok(list)
}

impl Known<'_> {
    /// A name and the value of the definition that it means, if that has one.
    fn symbol(
        self,
        alloc: Global,
        name: &[u8],
        definition: usize,
    ) -> Result<Option<Symbol>, NoMemory>
        ensures { IfOk result (λ s. s ≡ symbol (known_of self.entry) name.now definition) }
    {
        let Some(value) = self.scope.value(definition) else {
            return Ok(None);
        };
        if !self.has(value) {
            return Ok(None);
        }
        let name = name.to_vec(alloc).map_err(|_| NoMemory)?;
        Ok(Some(Symbol {
            name: Bytes::from(name),
            value,
        }))
    }

    /// A name that other modules may use and this one defines.
    fn global(self, alloc: Global, name: &Name) -> Result<Option<Symbol>, NoMemory>
        ensures { IfOk result (λ s. s ≡ global_symbol (known_of self.entry) (name_of name.now)) }
    {
        if !name.global || is_undefined(name) {
            return Ok(None);
        }
        let symbol = self.symbol(alloc, &name.text, name.definition)?;
        Ok(symbol)
    }

    /// The names that other modules may use and this one defines.
    #[tactic(auto, using(crate::proofs::Steps::name_added, crate::proofs::Steps::names_added))]
    fn globals(self, alloc: Global, names: &[Name]) -> Result<Vec<Symbol>, NoMemory>
        ensures { IfOk result (λ v. v.items
            ≡ filter_map (global_symbol (known_of self.entry)) (map name_of names.now)) }
    {
        let mut list = Vec::new(alloc);
        for name in names {
            let symbol = self.global(alloc, name)?;
            add(&mut list, symbol)?;
        }
        Ok(list)
    }

    /// The name at which the program begins.
    fn transfer(self, alloc: Global, transfer: Option<Transfer>) -> Result<Option<Symbol>, NoMemory>
        ensures { IfOk result (λ s. s ≡ option_and_then (transfer_symbol (known_of self.entry))
            (option_map transfer_of transfer)) }
    {
        let Some(Transfer { name, definition }) = transfer else {
            return Ok(None);
        };
        let symbol = self.symbol(alloc, &name, definition)?;
        Ok(symbol)
    }

    /// The module with these sections, names and externals.
    fn module(
        self,
        alloc: Global,
        laid: Laid,
        names: &[Name],
        transfer: Option<Transfer>,
    ) -> Result<Module, NoMemory>
        ensures { IfOk result (λ m. (l : specs.Laid) → laid.sections.items ≡ l.sections →
            laid.relocs.items ≡ l.relocs → m ≡ module_of (known_of self.entry)
            l (map name_of names.now) (option_map transfer_of transfer)) }
    {
        let globals = self.globals(alloc, names)?;
        let externals = externals(alloc, names)?;
        let transfer = self.transfer(alloc, transfer)?;
        Ok(Module {
            sections: Items::from(laid.sections),
            globals: Items::from(globals),
            externals: Items::from(externals),
            relocs: Items::from(laid.relocs),
            transfer,
        })
    }
}

/// The first fault of assignments and of a begin without its end.
#[tactic(auto, using(crate::proofs::Order::first_of_both))]
fn other_fault(
    known: Known<'_>,
    assignments: &[Assignment],
    unclosed: Option<Begin>,
) -> Option<Fault>
    ensures { result ≡ first_of (assigned_faults (known_of known.entry).sources
        (map assignment_of assignments.now) ++ unclosed_faults (option_map opening_of unclosed)) }
{
    first(
        assigned_fault(known.scope, assignments),
        unclosed_fault(unclosed),
    )
}

/// The sections of the module, or the first fault that the whole source decides.
#[tactic(auto, using(crate::proofs::Order::first_of_both))]
fn lay(
    alloc: Global,
    known: Known<'_>,
    sections: &[Building<Fixup>],
    assignments: &[Assignment],
    unclosed: Option<Begin>,
) -> Result<Laid, FillError>
    ensures { Lays result (laid (known_of known.entry) 0 (seen_sections sections.now))
        (first_of (faults (known_of known.entry) (seen_sections sections.now)
        (map assignment_of assignments.now) (option_map opening_of unclosed))) }
{
    let mut found = Found {
        relocs: Vec::new(alloc),
        fault: None,
    };
    let Ok(list) = found.lay_all(alloc, known, sections) else {
        return Err(FillError::NoMemory);
    };
    let other = other_fault(known, assignments, unclosed);
    if let Some(fault) = first(found.fault, other) {
        return Err(FillError::Fault(fault));
    }
    Ok(Laid {
        sections: list,
        relocs: found.relocs,
    })
}

/// The module of a source, once its statements have left this and all of it is read. `assignments` are those that had no value
/// where they stood, in order, of which none makes its name come back to itself; `unclosed` is the first begin without its end.
///
/// [`FillError::Fault`] with the first fault that the whole source decides, [`FillError::NoMemory`] where memory is refused.
pub fn fill_in(
    alloc: Global,
    standing: Standing,
    assignments: &[Assignment],
    unclosed: Option<Begin>,
) -> Result<Module, FillError>
    ensures module { Fills result (filled_in (standing_of standing)
        (map assignment_of assignments.now) (option_map opening_of unclosed)) }
    // The linker may join it to others.
    ensures formed { IfOk result Formed }
    // Its relocations stand in the order of section and place.
    ensures ordered { IfOk result (λ m. AllPairs Precedes m.relocs) }
{
    let Standing {
        scope,
        layout,
        transfer,
        ..
    } = standing;
    let mut scope = scope;
    let Ok(externals) = scope.close(alloc) else {
        return Err(FillError::NoMemory);
    };
    let sections = layout.sections();
    let known = Known {
        scope: &scope,
        sections: sections.len(),
        externals: externals.len(),
    };
    let laid = match lay(alloc, known, sections, assignments, unclosed) {
        Ok(laid) => laid,
        Err(error) => return Err(error),
    };
    let Ok(module) = known.module(alloc, laid, scope.names(), transfer) else {
        return Err(FillError::NoMemory);
    };
    Ok(module)
}
