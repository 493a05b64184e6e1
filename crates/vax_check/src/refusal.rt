// What the linker found.

ghost use Rattle.std.specs.Prelude.{◌≡◌, ◌++◌, IfOk, OnOk};
ghost use Rattle.vax_check.specs.Linking.{first_spot, line_for, line_text, link_detail, link_text, link_words, lone_file, other_text, second_text, spot, twice_text, twice_words, undefined_text, undefined_words, unknown_words};
ghost use Rattle.vax_check.specs.View.{file_seen, files_seen};
ghost use Rattle.vax_prelude.specs.View.{title_seen};

use crate::sources::{Role, those};
use std::alloc::Global;
use vax_asm_causes::{Sought, first_line};
use vax_asm_errors::{Source, Title};
use vax_dialect::Dialect;
use vax_outside::Text;
use vax_prelude::told_in;
use vax_space::NoMemory;

/// What the linker found beside names, in words.
#[tactic(auto, unfolding(crate::specs::Linking::link_words))]
fn link_words(kind: u8) -> &'static [u8]
    ensures { result.now ≡ link_words kind }
{
    match kind {
        3 => b"the program has too many pages or sections",
        4 => b"no file says where the program begins",
        5 => b"a distance to another file's name is too long at address ",
        _ => b"the program can't be linked",
    }
}

/// Bytes of their own.
pub(crate) fn copied(alloc: Global, bytes: &[u8]) -> Result<Vec<u8>, NoMemory>
    ensures { IfOk result (λ v. v.items ≡ bytes.now) }
{
    bytes.to_vec(alloc).map_err(|_| NoMemory)
}

pub(crate) fn push(out: &mut Vec<u8>, bytes: &[u8]) -> Result<(), NoMemory>
    ensures { OnOk result (out.new.items ≡ out.old.items ++ bytes.now) }
{
    out.extend_from_slice(bytes).map_err(|_| NoMemory)
}

/// Appends the name of a file, and behind it the number of a line, if that is known.
fn push_line(out: &mut Vec<u8>, title: Title<'_>, line: Option<usize>) -> Result<(), NoMemory>
    ensures { OnOk result
        (out.new.items ≡ out.old.items ++ line_text (title_seen title.entry) line) }
{
    let Some(line) = line else {
        return push(out, title.name);
    };
    let (name, number) = told_in(title, line);
    let mut text = Text::new();
    text.push(b":");
    text.push_decimal(number as u64);
    push(out, name)?;
    push(out, text.as_slice())
}

/// The line where a name is defined; where none is, that on which it stands first.
fn definition_line(
    alloc: Global,
    dialect: Dialect,
    name: &[u8],
    source: &[u8],
) -> Result<Option<usize>, NoMemory>
    ensures { IfOk result (λ o. o ≡ line_for dialect Role.Defines name.now source.now) }
{
    match first_line(alloc, dialect, source, name, Sought::Definition)? {
        Some(line) => Ok(Some(line)),
        None => first_line(alloc, dialect, source, name, Sought::Anywhere),
    }
}

/// The line of a source where its part shows.
fn line_for(
    alloc: Global,
    dialect: Dialect,
    role: Role,
    name: &[u8],
    source: &[u8],
) -> Result<Option<usize>, NoMemory>
    ensures { IfOk result (λ o. o ≡ line_for dialect role name.now source.now) }
{
    match role {
        Role::Asks => first_line(alloc, dialect, source, name, Sought::Anywhere),
        Role::Defines => definition_line(alloc, dialect, name, source),
        Role::Begins => first_line(alloc, dialect, source, b".END", Sought::Anywhere),
    }
}

/// Appends the place where a file's part shows.
#[tactic(auto, unfolding(crate::specs::Linking::spot))]
fn push_spot(
    alloc: Global,
    out: &mut Vec<u8>,
    dialect: Dialect,
    role: Role,
    name: &[u8],
    file: Source<'_>,
) -> Result<(), NoMemory>
    ensures { OnOk result (out.new.items
        ≡ out.old.items ++ spot dialect role name.now (file_seen file.entry)) }
{
    let line = line_for(alloc, dialect, role, name, file.text)?;
    push_line(out, file.title, line)
}

/// Appends the place in the first of these files.
fn push_first(
    alloc: Global,
    out: &mut Vec<u8>,
    dialect: Dialect,
    role: Role,
    name: &[u8],
    files: &[Source<'_>],
) -> Result<(), NoMemory>
    ensures { OnOk result (out.new.items
        ≡ out.old.items ++ first_spot dialect role name.now (files_seen files.now)) }
{
    let Some(file) = files.first() else {
        return Ok(());
    };
    push_spot(alloc, out, dialect, role, name, *file)?;
    push(out, b": ")
}

/// Appends that no file defines a name.
fn push_unknown(out: &mut Vec<u8>, name: &[u8]) -> Result<(), NoMemory>
    ensures { OnOk result (out.new.items ≡ out.old.items ++ unknown_words name.now) }
{
    push(out, b"nothing defines the name ")?;
    push(out, name)
}

/// Appends what is wrong with a name without a value, which these files define: nothing defines it, or its definition waits for itself.
#[tactic(auto, unfolding(crate::specs::Linking::undefined_words))]
fn push_undefined(
    alloc: Global,
    out: &mut Vec<u8>,
    dialect: Dialect,
    name: &[u8],
    defining: &[Source<'_>],
) -> Result<(), NoMemory>
    ensures { OnOk result (out.new.items
        ≡ out.old.items ++ undefined_words dialect name.now (files_seen defining.now)) }
{
    let Some(file) = defining.first() else {
        return push_unknown(out, name);
    };
    push(out, b"the definition of the name ")?;
    push(out, name)?;
    push(out, b" goes in a circle; it is at ")?;
    push_spot(alloc, out, dialect, Role::Defines, name, *file)
}

/// The error of a name without a value.
#[tactic(auto, unfolding(crate::specs::Linking::undefined_text))]
fn undefined_text(
    alloc: Global,
    dialect: Dialect,
    name: &[u8],
    files: &[Source<'_>],
) -> Result<Vec<u8>, NoMemory>
    ensures { IfOk result (λ v. v.items ≡ undefined_text dialect name.now (files_seen files.now)) }
{
    let asking = those(alloc, dialect, Role::Asks, name, files)?;
    let mut out = Vec::new(alloc);
    push_first(alloc, &mut out, dialect, Role::Asks, name, &asking)?;
    push(&mut out, b"error: ")?;
    let defining = those(alloc, dialect, Role::Defines, name, files)?;
    push_undefined(alloc, &mut out, dialect, name, &defining)?;
    push(&mut out, b"\n")?;
    Ok(out)
}

/// Appends what is there a second time.
fn push_twice(out: &mut Vec<u8>, role: Role, name: &[u8]) -> Result<(), NoMemory>
    ensures { OnOk result (out.new.items ≡ out.old.items ++ twice_words role name.now) }
{
    match role {
        Role::Asks => Ok(()),
        Role::Defines => {
            push(out, b"a second definition of the name ")?;
            push(out, name)
        }
        Role::Begins => push(out, b"a second beginning of the program"),
    }
}

/// The error of what is there a second time.
fn second_text(
    alloc: Global,
    dialect: Dialect,
    role: Role,
    name: &[u8],
    files: &[Source<'_>],
) -> Result<Vec<u8>, NoMemory>
    ensures { IfOk result
        (λ v. v.items ≡ second_text dialect role name.now (files_seen files.now)) }
{
    let mut out = Vec::new(alloc);
    let [first, second, ..] = files else {
        push(&mut out, b"error: ")?;
        push_twice(&mut out, role, name)?;
        push(&mut out, b"\n")?;
        return Ok(out);
    };
    push_spot(alloc, &mut out, dialect, role, name, *second)?;
    push(&mut out, b": error: ")?;
    push_twice(&mut out, role, name)?;
    push(&mut out, b"; the first is at ")?;
    push_spot(alloc, &mut out, dialect, role, name, *first)?;
    push(&mut out, b"\n")?;
    Ok(out)
}

/// The error of a second definition or of a second beginning.
#[tactic(auto, unfolding(crate::specs::Linking::twice_text))]
fn twice_text(
    alloc: Global,
    dialect: Dialect,
    name: &[u8],
    files: &[Source<'_>],
) -> Result<Vec<u8>, NoMemory>
    ensures { IfOk result (λ v. v.items ≡ twice_text dialect name.now (files_seen files.now)) }
{
    let defining = those(alloc, dialect, Role::Defines, name, files)?;
    if defining.len() >= 2 {
        return second_text(alloc, dialect, Role::Defines, name, &defining);
    }
    let beginning = those(alloc, dialect, Role::Begins, name, files)?;
    second_text(alloc, dialect, Role::Begins, name, &beginning)
}

/// Appends the name of a file that stands alone.
fn push_lone(out: &mut Vec<u8>, files: &[Source<'_>]) -> Result<(), NoMemory>
    ensures { OnOk result (out.new.items ≡ out.old.items ++ lone_file (files_seen files.now)) }
{
    let [file] = files else {
        return Ok(());
    };
    push(out, file.title.name)?;
    push(out, b": ")
}

/// Appends the address that what the linker found has.
fn push_detail(out: &mut Vec<u8>, kind: u8, address: u32) -> Result<(), NoMemory>
    ensures { OnOk result (out.new.items ≡ out.old.items ++ link_detail kind address) }
{
    if kind != 5 {
        return Ok(());
    }
    let mut text = Text::new();
    text.push_hex8(address);
    push(out, text.as_slice())
}

/// The error of what the linker found beside names.
#[tactic(auto, unfolding(crate::specs::Linking::other_text))]
fn other_text(
    alloc: Global,
    kind: u8,
    address: u32,
    files: &[Source<'_>],
) -> Result<Vec<u8>, NoMemory>
    ensures { IfOk result (λ v. v.items ≡ other_text kind address (files_seen files.now)) }
{
    let mut out = Vec::new(alloc);
    push_lone(&mut out, files)?;
    push(&mut out, b"error: ")?;
    push(&mut out, link_words(kind))?;
    push_detail(&mut out, kind, address)?;
    push(&mut out, b"\n")?;
    Ok(out)
}

/// What the linker found: its kind, the name that it concerns, and an address.
#[derive(Clone, Copy)]
pub(crate) struct Found<'a> {
    pub(crate) kind: u8,
    pub(crate) name: &'a [u8],
    pub(crate) address: u32,
}

/// The error of what the linker found, where the sources are of a dialect.
#[tactic(auto, unfolding(crate::specs::Linking::link_text))]
pub(crate) fn link_text(
    alloc: Global,
    dialect: Dialect,
    found: Found<'_>,
    files: &[Source<'_>],
) -> Result<Vec<u8>, NoMemory>
    ensures { IfOk result (λ v. v.items ≡ link_text dialect found.entry.kind
        found.entry.name.now found.entry.address (files_seen files.now)) }
{
    match found.kind {
        1 => undefined_text(alloc, dialect, found.name, files),
        2 => twice_text(alloc, dialect, found.name, files),
        _ => other_text(alloc, found.kind, found.address, files),
    }
}
