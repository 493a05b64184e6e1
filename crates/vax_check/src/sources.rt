// The sources that a refusal of the linker concerns.

ghost use Rattle.std.specs.Prelude.{◌≡◌, ◌&&◌, ◌++◌, ◌∷◌, [], IfOk, OnOk, not};
ghost use Rattle.std.specs.List.{list_any};
ghost use Rattle.std.specs.Str.{bytes_eq};
ghost use Rattle.vax_check.specs.Linking.{files_of, has_part, plays, those};
ghost use Rattle.vax_check.specs.View.{file_seen, files_seen, titles_of, with_if};
ghost use Rattle.vax_prelude.specs.View.{preludes_seen, title_seen};
ghost use Rattle.vax_program.specs.View.{texts as texts_seen};

use crate::errors::{is_linked, title_of};
use crate::text::Files;
use std::alloc::Global;
use vax_asm::{AsmError, assemble};
use vax_asm_errors::{Source, Title};
use vax_dialect::Dialect;
use vax_module::{ExternalName, Module, Symbol};
use vax_space::NoMemory;

/// The part that a source has in a refusal.
#[derive(Clone, Copy, PartialEq, Eq)]
pub(crate) enum Role {
    /// It asks other files for the name.
    Asks,
    /// It defines the name for other files.
    Defines,
    /// It says where the program begins.
    Begins,
}

/// Whether a name is among these, and must be defined.
fn is_needed(externals: &[ExternalName], name: &[u8]) -> bool
    ensures { result ≡ list_any (λ external. not external.weak && bytes_eq name.now external.name)
        externals.now }
{
    for external in externals {
        if !external.weak && name == external.name.as_slice() {
            return true;
        }
    }
    false
}

/// Whether one of these has a name.
fn is_named(symbols: &[Symbol], name: &[u8]) -> bool
    ensures { result ≡ list_any (λ symbol. bytes_eq name.now symbol.name) symbols.now }
{
    for symbol in symbols {
        if name == symbol.name.as_slice() {
            return true;
        }
    }
    false
}

/// Whether a module has a part.
fn has_part(role: Role, name: &[u8], module: &Module) -> bool
    ensures { result ≡ has_part role name.now module.now }
{
    match role {
        Role::Asks => is_needed(module.externals.as_slice(), name),
        Role::Defines => is_named(module.globals.as_slice(), name),
        Role::Begins => module.transfer.is_some(),
    }
}

/// Whether a file is a source that assembles in a dialect and has a part.
fn plays(
    alloc: Global,
    dialect: Dialect,
    role: Role,
    name: &[u8],
    source: Source<'_>,
) -> Result<bool, NoMemory>
    ensures { IfOk result (λ b. b ≡ plays dialect role name.now (file_seen source.entry)) }
{
    if is_linked(source.text) {
        return Ok(false);
    }
    match assemble(alloc, dialect, source.text) {
        Ok(module) => Ok(has_part(role, name, &module)),
        Err(AsmError::Fault { .. }) => Ok(false),
        Err(AsmError::NoMemory) => Err(NoMemory),
    }
}

/// Appends a file, if it is wanted.
fn add_if<'a>(all: &mut Vec<Source<'a>>, file: Source<'a>, wanted: bool) -> Result<(), NoMemory>
    ensures { OnOk result (all.new.items ≡ with_if wanted file.entry all.old.items) }
{
    if wanted {
        all.push(file).map_err(|_| NoMemory)?;
    }
    Ok(())
}

/// Appends a file of a dialect with its title.
fn add_named<'a>(
    all: &mut Vec<Source<'a>>,
    dialect: Dialect,
    title: Title<'a>,
    text: &'a [u8],
) -> Result<(), NoMemory>
    ensures { OnOk result (files_seen all.new.items ≡ files_seen all.old.items ++ record {
      title = title_seen title.entry;
      text = text.entry.now;
    } ∷ []) }
{
    let source = Source {
        dialect,
        title,
        text,
    };
    all.push(source).map_err(|_| NoMemory)
}

/// The files, each with its title, in their dialect.
#[tactic(auto, unfolding(crate::specs::Linking::files_of))]
pub(crate) fn files_of<'a>(alloc: Global, files: Files<'a>) -> Result<Vec<Source<'a>>, NoMemory>
    ensures { IfOk result (λ v. files_seen v.items
        ≡ files_of (titles_of (preludes_seen files.entry.preludes.now) files.entry.names.now)
        (texts_seen files.entry.texts.now)) }
{
    let mut all = Vec::new(alloc);
    let mut rest = files.texts;
    for name in files.names {
        let [text, others @ ..] = rest else {
            return Ok(all);
        };
        add_named(
            &mut all,
            files.dialect,
            title_of(files.preludes, name),
            text,
        )?;
        rest = others;
    }
    Ok(all)
}

/// The files that have a part.
#[tactic(auto, using(crate::proofs::Gathering::one_tried, crate::proofs::Gathering::all_tried))]
pub(crate) fn those<'a>(
    alloc: Global,
    dialect: Dialect,
    role: Role,
    name: &[u8],
    files: &[Source<'a>],
) -> Result<Vec<Source<'a>>, NoMemory>
    ensures { IfOk result (λ v. files_seen v.items
        ≡ those dialect role name.now (files_seen files.now)) }
{
    let mut all = Vec::new(alloc);
    for file in files {
        let wanted = plays(alloc, dialect, role, name, *file)?;
        add_if(&mut all, *file, wanted)?;
    }
    Ok(all)
}
