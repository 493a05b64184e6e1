//! Fields that are filled in, names, and faults.
ghost use Rattle.std.specs.Prelude.{◌≡◌, ◌≤◌, true, IfOk, length};
ghost use Rattle.vax_asm_first.specs.Contents.{IsSound};
ghost use Rattle.vax_asm_first.specs.declared.types.Content.TheVariants.{Operand as of_operand};
ghost use Rattle.vax_asm_scope.specs.Kept.{scope_of};
ghost use Rattle.vax_asm_values.specs.Values.{Means, Worked};
ghost use Rattle.vax_asm_values.specs.View.{written_of};

use std::alloc::Global;
use std::rc::Rc;
use std::test::Fail;
use vax_asm_encode::{Base, DataKind, Operand, may_stand};
use vax_asm_first::{Assignment, Content, Fixup, Origin, Standing, Told, Transfer, filling_of};
use vax_asm_scope::Linkage;
use vax_asm_second::*;
use vax_asm_sections::{Attributes, Piece};
use vax_dialect::Dialect;
use vax_isa::{Letter, Narrow, OperandKind};
use vax_lex::{Value, scan};
use vax_macro::{Begin, FaultKind};
use vax_module::{Module, Reloc, RelocKind};
use vax_word::Size;

const READ_LONG: OperandKind = OperandKind {
    letter: Letter::Read,
    width: 4,
};

const BRANCH: OperandKind = OperandKind {
    letter: Letter::Branch,
    width: 1,
};

/// A label of the tests: three bytes into the first section.
const M: Value = Value::Section {
    section: 0,
    offset: 3,
};

/// An expression where it stands.
fn told(standing: &mut Standing, alloc: Global, text: &[u8]) -> Result<Told, Fail>
    requires { length text.now ≤ 1024 }
    ensures { IfOk result (λ t. Means (length (scope_of standing.new.scope).sources)
        (Worked (written_of t.expression))) }
{
    let tokens = scan(alloc, text)?;
    let line = Rc::new(alloc, text.to_vec(alloc)?)?;
    let here = standing.here()?;
    let told = standing.tell(alloc, Dialect::Vax, &line, &tokens, here)?;
    Ok(told)
}

/// What is filled in later, of the statement of a line.
fn put(
    standing: &mut Standing,
    alloc: Global,
    line: u32,
    size: u32,
    content: Content,
    text: &[u8],
) -> Result<(), Fail>
    requires sound { IsSound content }
    requires short { length text.now ≤ 1024 }
{
    let told = told(standing, alloc, text)?;
    let fixup = Fixup {
        origin: Origin { line, place: line },
        at: standing.section_size(),
        content,
        filling: filling_of(told),
    };
    standing.put(size, Piece::Field(fixup))?;
    Ok(())
}

/// Longwords of a line, all with one value.
fn put_longs(
    standing: &mut Standing,
    alloc: Global,
    line: u32,
    count: u32,
    text: &[u8],
) -> Result<(), Fail>
    requires few { count ≤ 2 }
    requires short { length text.now ≤ 1024 }
{
    let content = Content::Data {
        kind: DataKind::Number(Size::L),
        count,
    };
    put(standing, alloc, line, 4 * count, content, text)
}

/// Whether an operand of a branch by a byte, or one that reads a longword, may stand.
fn stands(kind: OperandKind, operand: Operand) -> bool
    ensures { result ≡ true → IsSound (of_operand kind operand) }
{
    match (kind.letter, kind.width) {
        (Letter::Branch, 1) => may_stand(kind, operand),
        (Letter::Read, 4) => may_stand(kind, operand),
        _ => false,
    }
}

/// An operand of so many bytes.
fn put_operand(
    standing: &mut Standing,
    alloc: Global,
    size: u32,
    kind: OperandKind,
    operand: Operand,
    text: &[u8],
) -> Result<(), Fail>
    requires { length text.now ≤ 1024 }
{
    if !stands(kind, operand) {
        return Ok(());
    }
    let content = Content::Operand { kind, operand };
    put(standing, alloc, 1, size, content, text)
}

/// `BRB M` over a NOP, and M.
fn branch_to_m(alloc: Global) -> Result<Standing, Fail> {
    let mut standing = Standing::new(alloc, Dialect::Vax)?;
    standing.put(1, Piece::Bytes([0x11].to_vec(alloc)?))?;
    put_operand(&mut standing, alloc, 1, BRANCH, Operand::Branch, b"M")?;
    standing.put(1, Piece::Bytes([0x01].to_vec(alloc)?))?;
    standing.scope.label(alloc, b"M", M)?;
    Ok(standing)
}

fn reloc(section: u32, offset: u32, kind: RelocKind, target: Value) -> Reloc {
    Reloc {
        section,
        offset,
        kind,
        target,
    }
}

#[test]
fn fills_branches_and_addresses(rt: HostRuntime) -> Result<(), Fail> {
    let mut standing = branch_to_m(rt.alloc())?;
    put_longs(&mut standing, rt.alloc(), 3, 2, b"M")?;
    standing.put(2, Piece::Zeros(2))?;
    let module = fill_in(rt.alloc(), standing, &[], None)?;
    let sections = module.sections.as_slice();
    assert!(rt; sections.len() == 1);
    // the branch goes from place 2 to place 3
    let bytes = [0x11, 0x01, 0x01, 0, 0, 0, 0, 0, 0, 0, 0, 0, 0];
    assert!(rt; sections[0].bytes.as_slice() == bytes.as_slice());
    assert!(rt; sections[0].align == 1);
    assert!(rt; sections[0].write);
    let relocs = [
        reloc(0, 3, RelocKind::Long, M),
        reloc(0, 7, RelocKind::Long, M),
    ];
    assert!(rt; module.relocs.as_slice() == relocs.as_slice());
    Ok(())
}

/// Behind that, operands in a section of their own: M, X(R2) with a byte and X+4(R3) with a word, where X is defined nowhere.
fn put_operands(standing: &mut Standing, alloc: Global) -> Result<(), Fail> {
    let attributes = Attributes {
        align: Some(2),
        write: Some(false),
        absolute: None,
        overlaid: None,
    };
    standing.layout.select(alloc, b"CODE", attributes)?;
    let relative = Operand::Memory(Base::Relative(Narrow::L));
    put_operand(standing, alloc, 5, READ_LONG, relative, b"M")?;
    let byte = Operand::Memory(Base::Displaced {
        size: Narrow::B,
        register: 2,
    });
    put_operand(standing, alloc, 2, READ_LONG, byte, b"X")?;
    let word = Operand::Memory(Base::Displaced {
        size: Narrow::W,
        register: 3,
    });
    put_operand(standing, alloc, 3, READ_LONG, word, b"X+4")?;
    Ok(())
}

#[test]
fn links_operands(rt: HostRuntime) -> Result<(), Fail> {
    let mut standing = branch_to_m(rt.alloc())?;
    put_operands(&mut standing, rt.alloc())?;
    let module = fill_in(rt.alloc(), standing, &[], None)?;
    let sections = module.sections.as_slice();
    assert!(rt; sections.len() == 2);
    let bytes = [0xEF, 0, 0, 0, 0, 0xA2, 0, 0xC3, 0, 0];
    assert!(rt; sections[1].bytes.as_slice() == bytes.as_slice());
    assert!(rt; sections[1].align == 4);
    assert!(rt; !sections[1].write);
    assert!(rt; sections[1].name.as_slice() == b"CODE".as_slice());
    let external = |offset: i64| Value::External { index: 0, offset };
    let relocs = [
        reloc(1, 1, RelocKind::RelLong, M),
        reloc(1, 6, RelocKind::Byte, external(0)),
        reloc(1, 8, RelocKind::Word, external(4)),
    ];
    assert!(rt; module.relocs.as_slice() == relocs.as_slice());
    Ok(())
}

/// A module with `M::` and `.END X`, where X is defined nowhere and told to be global.
fn with_names(alloc: Global) -> Result<Module, Fail> {
    let mut standing = branch_to_m(alloc)?;
    standing.scope.link(alloc, b"M", Linkage::Global)?;
    standing.scope.link(alloc, b"X", Linkage::Global)?;
    let definition = standing.scope.appear(alloc, b"X")?;
    standing.transfer = Some(Transfer {
        name: b"X".to_vec(alloc)?,
        definition,
    });
    Ok(fill_in(alloc, standing, &[], None)?)
}

#[test]
fn tells_names(rt: HostRuntime) -> Result<(), Fail> {
    let module = with_names(rt.alloc())?;
    let globals = module.globals.as_slice();
    assert!(rt; globals.len() == 1);
    assert!(rt; globals[0].name.as_slice() == b"M".as_slice());
    assert!(rt; globals[0].value == M);
    let externals = module.externals.as_slice();
    assert!(rt; externals.len() == 1);
    assert!(rt; externals[0].name.as_slice() == b"X".as_slice());
    let x = Value::External {
        index: 0,
        offset: 0,
    };
    assert!(rt; module.transfer.map(|t| t.value) == Some(x));
    Ok(())
}

/// `Z = 1$` on the third line, and `.LONG Z` on the fourth, with no label `1$`. The assignment.
fn put_undefined(standing: &mut Standing, alloc: Global) -> Result<Assignment, Fail> {
    let first = told(standing, alloc, b"1$")?;
    let definition = standing.scope.assign(alloc, b"Z", first.expression)?;
    let second = told(standing, alloc, b"1$")?;
    put_longs(standing, alloc, 4, 1, b"Z")?;
    Ok(Assignment {
        origin: Origin { line: 3, place: 3 },
        definition,
        expression: second.expression,
    })
}

/// The fault of a source with these lines behind `.LONG X` on its second, and X a number.
fn fault_of(alloc: Global, x: i64, unclosed: Option<Begin>) -> Result<Option<FillError>, Fail> {
    let mut standing = Standing::new(alloc, Dialect::Vax)?;
    put_longs(&mut standing, alloc, 2, 1, b"X")?;
    let undefined = put_undefined(&mut standing, alloc)?;
    standing.scope.label(alloc, b"X", Value::Absolute(x))?;
    Ok(fill_in(alloc, standing, &[undefined], unclosed).err())
}

fn fault(line: u32, kind: FaultKind) -> Option<FillError> {
    let origin = Origin { line, place: line };
    Some(FillError::Fault(Fault { origin, kind }))
}

#[test]
fn tells_the_first_fault(rt: HostRuntime) -> Result<(), Fail> {
    let alloc = rt.alloc();
    let begin = |number: u32| Some(Begin {
        number,
        place: number,
    });
    let great = 0x1_0000_0000;
    assert!(rt; fault_of(alloc, 5, None)? == fault(3, FaultKind::Undefined));
    assert!(rt; fault_of(alloc, great, None)? == fault(2, FaultKind::Range));
    assert!(rt; fault_of(alloc, great, begin(2))? == fault(2, FaultKind::Range));
    assert!(rt; fault_of(alloc, great, begin(1))? == fault(1, FaultKind::Nesting));
    Ok(())
}
