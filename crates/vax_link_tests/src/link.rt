// Modules made by hand, joined.
ghost use Rattle.std.specs.Prelude.{◌≡◌, true, All, IfSome, IfOk};
ghost use Rattle.vax_module.specs.Formed.{Formed, IsAlignment, IsKnown, IsFieldOf};
ghost use Rattle.vax_image.specs.Image.{IsImage};

use std::test::Fail;
use vax_image::{Base, Image, read, start, write};
use vax_link::*;
use vax_module::{ExternalName, Module, Reloc, RelocKind, Section, Symbol, Value};
use vax_space::Bytes;

/// The start of a section.
pub(crate) const HERE: Value = Value::Section {
    section: 1,
    offset: 0,
};

/// The first external name.
const OTHER: Value = Value::External {
    index: 0,
    offset: 0,
};

pub(crate) fn text(rt: &HostRuntime, bytes: &[u8]) -> Result<Bytes, Fail> {
    Ok(Vec::from_slice(rt.alloc(), bytes)?.into())
}

pub(crate) fn section(
    rt: &HostRuntime,
    name: &[u8],
    align: u16,
    write: bool,
    bytes: &[u8],
) -> Result<Section, Fail> {
    Ok(Section {
        name: text(rt, name)?,
        align,
        write,
        bytes: text(rt, bytes)?,
        storage: 0,
    })
}

/// A module of a section in which it may begin, a global name, an external name, which may be weak, and a field.
pub(crate) fn module(
    rt: &HostRuntime,
    part: Section,
    begins: Option<Value>,
    global: Option<(&[u8], Value)>,
    external: Option<(&[u8], bool)>,
    field: Option<Reloc>,
) -> Result<Module, Fail> {
    let mut sections = Vec::new(rt.alloc());
    sections.push(section(rt, b"", 1, true, b"")?)?;
    sections.push(part)?;
    let mut globals = Vec::new(rt.alloc());
    if let Some((name, value)) = global {
        let name = text(rt, name)?;
        globals.push(Symbol { name, value })?;
    }
    let mut externals = Vec::new(rt.alloc());
    if let Some((name, weak)) = external {
        let name = text(rt, name)?;
        externals.push(ExternalName { name, weak })?;
    }
    let mut relocs = Vec::new(rt.alloc());
    if let Some(reloc) = field {
        relocs.push(reloc)?;
    }
    let transfer = match begins {
        None => None,
        Some(value) => {
            let name = text(rt, b"BEGIN")?;
            Some(Symbol { name, value })
        }
    };
    Ok(Module {
        sections: sections.into(),
        globals: globals.into(),
        externals: externals.into(),
        relocs: relocs.into(),
        transfer,
    })
}

/// `BEGIN: MOVL X,R1` and `HALT` in CODE, which is aligned to longwords. X may be weak.
fn user_of(rt: &HostRuntime, weak: bool) -> Result<Module, Fail> {
    let code = section(rt, b"CODE", 4, false, &[0xD0, 0xEF, 0, 0, 0, 0, 0x51, 0])?;
    let field = Reloc {
        section: 1,
        offset: 2,
        kind: RelocKind::RelLong,
        target: OTHER,
    };
    let x = Some((b"X".as_slice(), weak));
    module(rt, code, Some(HERE), None, x, Some(field))
}

fn user_of_x(rt: &HostRuntime) -> Result<Module, Fail> {
    user_of(rt, false)
}

/// A name at offset 1 of DATA, and one byte of CODE.
fn owner_of(rt: &HostRuntime, name: &[u8]) -> Result<Module, Fail> {
    let mut sections = Vec::new(rt.alloc());
    sections.push(section(rt, b"", 1, true, b"")?)?;
    sections.push(section(rt, b"DATA", 1, true, &[7, 8])?)?;
    sections.push(section(rt, b"CODE", 1, false, &[1])?)?;
    let mut globals = Vec::new(rt.alloc());
    globals.push(Symbol {
        name: text(rt, name)?,
        value: Value::Section {
            section: 1,
            offset: 1,
        },
    })?;
    Ok(Module {
        sections: sections.into(),
        globals: globals.into(),
        externals: Vec::new(rt.alloc()).into(),
        relocs: Vec::new(rt.alloc()).into(),
        transfer: None,
    })
}

/// Whether a number is one of the alignments of these tests.
fn is_alignment(align: u16) -> bool
    ensures { result ≡ true → IsAlignment align }
{
    if align == 1 {
        return true;
    }
    if align == 4 {
        return true;
    }
    false
}

/// Whether a value's section is one of so many, and so is its external.
fn is_known(value: Value, sections: usize, externals: usize) -> bool
    ensures { result ≡ true → IsKnown sections externals value }
{
    match value {
        Value::Absolute(_) => true,
        Value::Section { section, offset: _ } => (section as usize) < sections,
        Value::External { index, offset: _ } => (index as usize) < externals,
    }
}

/// Whether all sections are aligned.
fn are_aligned(sections: &[Section]) -> bool
    ensures { result ≡ true → All (λ s. IsAlignment s.align) sections.now }
{
    for section in sections {
        if !is_alignment(section.align) {
            return false;
        }
    }
    true
}

/// Whether all names stand for known values.
fn are_known(globals: &[Symbol], sections: usize, externals: usize) -> bool
    ensures { result ≡ true → All (λ g. IsKnown sections externals g.value) globals.now }
{
    for global in globals {
        if !is_known(global.value, sections, externals) {
            return false;
        }
    }
    true
}

/// Whether a field lies within the bytes of a section.
fn is_within(sections: &[Section], field: Reloc) -> bool
    ensures { result ≡ true → IsFieldOf sections.now field }
{
    match sections.get(field.section as usize) {
        None => false,
        Some(section) => {
            field.offset as usize + usize::from(field.kind.width())
                <= section.bytes.as_slice().len()
        }
    }
}

/// Whether all fields lie within the bytes of sections.
fn are_within(sections: &[Section], fields: &[Reloc]) -> bool
    ensures { result ≡ true → All (IsFieldOf sections.now) fields.now }
{
    for field in fields {
        if !is_within(sections, *field) {
            return false;
        }
    }
    true
}

/// Whether all fields have known values as their targets.
fn have_targets(fields: &[Reloc], sections: usize, externals: usize) -> bool
    ensures { result ≡ true → All (λ r. IsKnown sections externals r.target) fields.now }
{
    for field in fields {
        if !is_known(field.target, sections, externals) {
            return false;
        }
    }
    true
}

/// Whether a program begins at a known value, if it has a beginning.
fn begins_known(transfer: &Option<Symbol>, sections: usize, externals: usize) -> bool
    ensures { result ≡ true → IfSome transfer.now (λ t. IsKnown sections externals t.value) }
{
    match transfer {
        None => true,
        Some(symbol) => is_known(symbol.value, sections, externals),
    }
}

/// Whether a module with one field at most is well formed.
fn is_formed(module: &Module) -> bool
    ensures { result ≡ true → Formed «module».now }
{
    let sections = module.sections.as_slice();
    let externals = module.externals.as_slice();
    let globals = module.globals.as_slice();
    let relocs = module.relocs.as_slice();
    if relocs.len() > 1 {
        return false;
    }
    if !are_aligned(sections) {
        return false;
    }
    if !are_known(globals, sections.len(), externals.len()) {
        return false;
    }
    if !begins_known(&module.transfer, sections.len(), externals.len()) {
        return false;
    }
    if !are_within(sections, relocs) {
        return false;
    }
    have_targets(relocs, sections.len(), externals.len())
}

/// Whether all modules are well formed.
fn are_formed(modules: &[Module]) -> bool
    ensures { result ≡ true → All Formed modules.now }
{
    for module in modules {
        if !is_formed(module) {
            return false;
        }
    }
    true
}

/// Joins modules that are well formed.
pub(crate) fn joined(
    rt: &HostRuntime,
    modules: &[Module],
    base: Base,
) -> Result<Result<Image, LinkError>, Fail>
    ensures { IfOk result (λ linked. IfOk linked IsImage) }
{
    if modules.is_empty() || modules.len() > 8 || !are_formed(modules) {
        return Err("the modules aren't well formed".into());
    }
    Ok(link(rt.alloc(), modules, base))
}

/// Whether an image's areas have these first pages, protections and bytes, and a page each.
fn has_areas(image: &Image, areas: &[(u32, u8, &[u8])]) -> bool {
    let found = image.areas.as_slice();
    found.len() == areas.len()
        && found.iter().zip(areas).all(|(area, (first, prot, bytes))| {
            area.first == *first
                && area.pages == 1
                && area.prot == *prot
                && area.bytes.as_slice() == *bytes
        })
}

/// Whether an image was refused for this cause, by its number and its name; 0 is none.
pub(crate) fn is_refused(linked: &Result<Image, LinkError>, cause: u8, name: &[u8]) -> bool {
    match linked {
        Ok(_) => cause == 0,
        Err(LinkError::Undefined(found)) => cause == 1 && found.as_slice() == name,
        Err(LinkError::Duplicate(found)) => cause == 2 && found.as_slice() == name,
        Err(LinkError::Pages) => cause == 3,
        Err(LinkError::NoTransfer) => cause == 4,
        Err(LinkError::Reach(_)) => cause == 5,
        Err(LinkError::NoMemory) => false,
    }
}

#[test]
fn joins_two_modules(rt: HostRuntime) -> Result<(), Fail> {
    let mut modules = Vec::new(rt.alloc());
    modules.push(user_of_x(&rt)?)?;
    modules.push(owner_of(&rt, b"X")?)?;
    let image = joined(&rt, &modules, Base::User)??;
    assert!(rt; image.transfer == 0x200);
    // The displacement is 401 - 206, and the byte of the second module begins at a longword.
    let code = [0xD0, 0xEF, 0xFB, 1, 0, 0, 0x51, 0, 1];
    assert!(rt;
        has_areas(
            &image,
            &[(1, 15, code.as_slice()), (2, 4, [7, 8].as_slice())]
        )
    );
    let image = joined(&rt, &modules, Base::Bare)??;
    assert!(rt; image.transfer == 0x8000_0200);
    assert!(rt;
        has_areas(
            &image,
            &[
                (0x40_0001, 15, code.as_slice()),
                (0x40_0002, 14, [7, 8].as_slice())
            ]
        )
    );
    Ok(())
}

#[test]
fn places_the_control_block_first(rt: HostRuntime) -> Result<(), Fail> {
    let mut modules = Vec::new(rt.alloc());
    let code = section(&rt, b"CODE", 1, true, &[0])?;
    modules.push(module(&rt, code, Some(HERE), None, None, None)?)?;
    let block = [2, 0, 0, 0];
    let vectors = section(&rt, b"$SCB", 1, true, &block)?;
    modules.push(module(&rt, vectors, None, None, None, None)?)?;
    let image = joined(&rt, &modules, Base::Bare)??;
    assert!(rt;
        has_areas(
            &image,
            &[
                (0x40_0000, 2, block.as_slice()),
                (0x40_0001, 14, [0].as_slice())
            ]
        )
    );
    let image = joined(&rt, &modules, Base::User)??;
    assert!(rt; has_areas(&image, &[(1, 4, [0].as_slice()), (2, 4, block.as_slice())]));
    Ok(())
}

#[test]
fn refuses_in_order(rt: HostRuntime) -> Result<(), Fail> {
    let mut modules = Vec::new(rt.alloc());
    modules.push(owner_of(&rt, b"Y")?)?;
    assert!(rt; is_refused(&joined(&rt, &modules, Base::Bare)?, 4, b""));
    let block = section(&rt, b"$SCB", 1, true, &[0; 513])?;
    modules.push(module(&rt, block, None, None, None, None)?)?;
    assert!(rt; is_refused(&joined(&rt, &modules, Base::User)?, 4, b""));
    assert!(rt; is_refused(&joined(&rt, &modules, Base::Bare)?, 3, b""));
    modules.push(user_of_x(&rt)?)?;
    assert!(rt; is_refused(&joined(&rt, &modules, Base::Bare)?, 1, b"X"));
    modules.push(user_of_x(&rt)?)?;
    assert!(rt; is_refused(&joined(&rt, &modules, Base::Bare)?, 2, b"BEGIN"));
    modules.push(owner_of(&rt, b"Y")?)?;
    assert!(rt; is_refused(&joined(&rt, &modules, Base::Bare)?, 2, b"Y"));
    Ok(())
}

#[test]
fn refuses_names_that_lead_in_a_circle(rt: HostRuntime) -> Result<(), Fail> {
    let mut modules = Vec::new(rt.alloc());
    let code = section(&rt, b"CODE", 1, true, &[0])?;
    let x = Some((b"X".as_slice(), OTHER));
    let y = Some((b"Y".as_slice(), false));
    modules.push(module(&rt, code, Some(HERE), x, y, None)?)?;
    assert!(rt; is_refused(&joined(&rt, &modules, Base::User)?, 1, b"Y"));
    // Y stands for X, which stands for Y.
    let data = section(&rt, b"DATA", 1, true, &[0])?;
    let y = Some((b"Y".as_slice(), OTHER));
    let x = Some((b"X".as_slice(), false));
    modules.push(module(&rt, data, None, y, x, None)?)?;
    assert!(rt; is_refused(&joined(&rt, &modules, Base::User)?, 1, b"Y"));
    Ok(())
}

#[test]
fn takes_weak_names_for_0(rt: HostRuntime) -> Result<(), Fail> {
    let mut modules = Vec::new(rt.alloc());
    modules.push(user_of(&rt, true)?)?;
    // Nothing defines X: the displacement is 0 - 206.
    let image = joined(&rt, &modules, Base::User)??;
    let code = [0xD0, 0xEF, 0xFA, 0xFD, 0xFF, 0xFF, 0x51, 0];
    assert!(rt; has_areas(&image, &[(1, 15, code.as_slice())]));
    // A module that needs X refuses all the same.
    let part = section(&rt, b"OTHER", 1, true, &[0])?;
    let x = Some((b"X".as_slice(), false));
    modules.push(module(&rt, part, None, None, x, None)?)?;
    assert!(rt; is_refused(&joined(&rt, &modules, Base::User)?, 1, b"X"));
    // The definition of a module is X's: 401 - 206.
    let mut modules = Vec::new(rt.alloc());
    modules.push(user_of(&rt, true)?)?;
    modules.push(owner_of(&rt, b"X")?)?;
    let image = joined(&rt, &modules, Base::User)??;
    let code = [0xD0, 0xEF, 0xFB, 1, 0, 0, 0x51, 0, 1];
    assert!(rt;
        has_areas(
            &image,
            &[(1, 15, code.as_slice()), (2, 4, [7, 8].as_slice())]
        )
    );
    Ok(())
}

#[test]
fn adds_to_weak_names(rt: HostRuntime) -> Result<(), Fail> {
    let mut modules = Vec::new(rt.alloc());
    // X stands for a weak Y and 3.
    let beside = Value::External {
        index: 0,
        offset: 3,
    };
    let part = section(&rt, b"PART", 1, true, &[9])?;
    let x = Some((b"X".as_slice(), beside));
    let y = Some((b"Y".as_slice(), true));
    modules.push(module(&rt, part, Some(HERE), x, y, None)?)?;
    // A longword is X and 2.
    let field = Reloc {
        section: 1,
        offset: 0,
        kind: RelocKind::Long,
        target: Value::External {
            index: 0,
            offset: 2,
        },
    };
    let data = section(&rt, b"DATA", 1, true, &[0; 4])?;
    let x = Some((b"X".as_slice(), false));
    modules.push(module(&rt, data, None, None, x, Some(field))?)?;
    let image = joined(&rt, &modules, Base::User)??;
    assert!(rt;
        has_areas(
            &image,
            &[(1, 4, [9].as_slice()), (2, 4, [5, 0, 0, 0].as_slice())]
        )
    );
    Ok(())
}

#[test]
fn refuses_a_beginning_outside(rt: HostRuntime) -> Result<(), Fail> {
    for (offset, cause) in [(0, 0), (511, 0), (512, 4), (-1, 4)] {
        let mut modules = Vec::new(rt.alloc());
        let code = section(&rt, b"CODE", 1, true, &[0])?;
        let begin = Value::Section { section: 1, offset };
        modules.push(module(&rt, code, Some(begin), None, None, None)?)?;
        assert!(rt; is_refused(&joined(&rt, &modules, Base::User)?, cause, b""));
    }
    Ok(())
}

#[test]
fn tells_the_lowest_field_out_of_reach(rt: HostRuntime) -> Result<(), Fail> {
    for (kind, target, reaches) in [
        (RelocKind::Byte, 127, true),
        (RelocKind::Byte, -128, true),
        (RelocKind::Byte, 128, false),
        (RelocKind::Word, 32767, true),
        (RelocKind::Word, 32768, false),
        (RelocKind::Long, 0x1_0000_0000, true),
        (RelocKind::RelByte, 0x202 + 127, true),
        (RelocKind::RelByte, 0x202 + 128, false),
        (RelocKind::RelWord, 0x203 - 32768, true),
        (RelocKind::RelWord, 0x203 - 32769, false),
        (RelocKind::RelLong, 0x8000_0205, true),
    ] {
        let mut modules = Vec::new(rt.alloc());
        let code = section(&rt, b"CODE", 1, true, &[0; 8])?;
        let field = Reloc {
            section: 1,
            offset: 1,
            kind,
            target: Value::Absolute(target),
        };
        modules.push(module(&rt, code, Some(HERE), None, None, Some(field))?)?;
        match joined(&rt, &modules, Base::User)? {
            Ok(_) => assert!(rt; reaches),
            Err(LinkError::Reach(address)) => assert!(rt; !reaches && address == 0x201),
            Err(_) => assert!(rt; false, "there is no other refusal"),
        }
    }
    Ok(())
}

#[test]
fn has_room_for_64_sections(rt: HostRuntime) -> Result<(), Fail> {
    for (count, cause) in [(63, 0), (64, 3)] {
        let mut sections = Vec::new(rt.alloc());
        sections.push(section(&rt, b"", 1, true, &[0])?)?;
        for number in 0..count {
            sections.push(section(&rt, &[b'A', number], 1, true, &[])?)?;
        }
        let mut modules = Vec::new(rt.alloc());
        let begin = Symbol {
            name: text(&rt, b"BEGIN")?,
            value: Value::Section {
                section: 0,
                offset: 0,
            },
        };
        modules.push(Module {
            sections: sections.into(),
            globals: Vec::new(rt.alloc()).into(),
            externals: Vec::new(rt.alloc()).into(),
            relocs: Vec::new(rt.alloc()).into(),
            transfer: Some(begin),
        })?;
        assert!(rt; is_refused(&joined(&rt, &modules, Base::User)?, cause, b""));
    }
    Ok(())
}

#[test]
fn starts_what_it_joined(rt: HostRuntime) -> Result<(), Fail> {
    let mut modules = Vec::new(rt.alloc());
    modules.push(user_of_x(&rt)?)?;
    modules.push(owner_of(&rt, b"X")?)?;
    let image = joined(&rt, &modules, Base::Bare)??;
    let file = write(rt.alloc(), &image)?;
    // A header of 16 bytes, and for each area 16 and its bytes.
    assert!(rt; file.len() == 16 + (16 + 9) + (16 + 2));
    let again = read(rt.alloc(), &file)?;
    match again.base {
        Base::User => return Err("the base is bare".into()),
        Base::Bare => {}
    }
    let (space, core) = start(rt.alloc(), &again, None)?;
    assert!(rt; core.regs[15] == 0x8000_0200);
    assert!(rt; space.initial(0x40_0001, 8) == Some(1));
    assert!(rt; space.initial(0x40_0002, 1) == Some(8));
    Ok(())
}
