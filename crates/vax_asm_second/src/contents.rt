// The bytes of items of data and of operands.

ghost use Rattle.std.specs.Prelude.{◌≡◌, ◌≤◌, ◌++◌, ◌∷◌, [], OnOk};
ghost use Rattle.std.specs.List.{repeat};
ghost use Rattle.vax_asm_encode.specs.Bytes.{HoldsIn};
ghost use Rattle.vax_asm_second.specs.Contents.{field_in, item_in, sign_of, specifiers, before_field, bytes_in, every, relocs_in};
ghost use Rattle.vax_asm_first.specs.Contents.{IsSound};

use vax_asm_encode::{DataKind, Field, Operand, field_of, write_number, write_operand};
use vax_asm_first::Content;
use vax_module::Reloc;
use vax_space::NoMemory;

/// What holds the value.
pub(crate) fn field_in(content: Content) -> Option<Field>
    ensures { result ≡ field_in content }
{
    match content {
        Content::Data { kind, .. } => Some(kind.field()),
        Content::Operand { kind, operand } => field_of(kind, operand),
    }
}

fn specifiers(operand: Operand) -> u32
    ensures value { result ≡ specifiers operand }
    ensures few { result ≤ 2 }
{
    match operand {
        Operand::Branch => 0,
        Operand::Indexed(_, _) => 2,
        Operand::Literal | Operand::Register(_) | Operand::Immediate | Operand::Memory(_) => 1,
    }
}

/// How many bytes stand before those of the field.
pub(crate) fn before_field(content: Content) -> u32
    ensures value { result ≡ before_field content }
    ensures few { result ≤ 2 }
{
    match content {
        Content::Data { .. } => 0,
        Content::Operand { operand, .. } => specifiers(operand),
    }
}

/// A quadword with the sign of a number.
fn sign_of(number: u64) -> u64
    ensures { result ≡ sign_of number }
{
    if number < 0x8000_0000_0000_0000 {
        0
    } else {
        u64::MAX
    }
}

/// Writes an item that holds a number.
fn write_item(out: &mut Vec<u8>, kind: DataKind, number: u64) -> Result<(), NoMemory>
    ensures { OnOk result (out.new.items ≡ out.old.items ++ item_in kind number) }
{
    match kind {
        DataKind::Number(size) | DataKind::Signed(size) => {
            write_number(out, size.bytes() as u8, number)
        }
        DataKind::Octaword => {
            write_number(out, 8, number)?;
            write_number(out, 8, sign_of(number))
        }
    }
}

/// Writes an item so many times.
#[tactic(auto, using(crate::proofs::Repeating::repeat_more, crate::proofs::Repeating::repeat_done))]
fn write_data(out: &mut Vec<u8>, kind: DataKind, count: u32, number: u64) -> Result<(), NoMemory>
    ensures { OnOk result (out.new.items ≡ out.old.items ++ repeat count (item_in kind number)) }
{
    for _ in 0..count {
        write_item(out, kind, number)?;
    }
    Ok(())
}

/// Writes the bytes whose field holds a number.
pub(crate) fn write_content(
    out: &mut Vec<u8>,
    content: Content,
    number: u64,
) -> Result<(), NoMemory>
    requires sound { IsSound content }
    requires holds { HoldsIn (field_in content) number }
    ensures { OnOk result (out.new.items ≡ out.old.items ++ bytes_in content number) }
{
    match content {
        Content::Data { kind, count } => {
            write_data(out, kind, count, number)?;
            Ok(())
        }
        Content::Operand { kind, operand } => {
            write_operand(out, kind, operand, number)?;
            Ok(())
        }
    }
}

fn add_reloc(relocs: &mut Vec<Reloc>, reloc: Reloc) -> Result<(), NoMemory>
    ensures { OnOk result (relocs.new.items ≡ relocs.old.items ++ reloc ∷ []) }
{
    relocs.push(reloc).map_err(|_| NoMemory)
}

/// Adds so many relocations, each so many bytes behind the one before.
#[tactic(auto, using(crate::proofs::Repeating::every_more, crate::proofs::Repeating::every_done))]
fn add_every(relocs: &mut Vec<Reloc>, count: u32, step: u32, first: Reloc) -> Result<(), NoMemory>
    ensures { OnOk result (relocs.new.items ≡ relocs.old.items ++ every count step first) }
{
    let mut reloc = first;
    for _ in 0..count {
        add_reloc(relocs, reloc)?;
        let Some(offset) = reloc.offset.checked_add(step) else {
            return Err(NoMemory);
        };
        reloc.offset = offset;
    }
    Ok(())
}

/// Adds the relocations of the fields, the first of which is this one.
pub(crate) fn add_relocs(
    relocs: &mut Vec<Reloc>,
    content: Content,
    first: Reloc,
) -> Result<(), NoMemory>
    ensures { OnOk result (relocs.new.items ≡ relocs.old.items ++ relocs_in content first) }
{
    match content {
        Content::Data { kind, count } => {
            add_every(relocs, count, kind.bytes(), first)?;
            Ok(())
        }
        Content::Operand { kind, operand } => {
            add_reloc(relocs, first)?;
            Ok(())
        }
    }
}
