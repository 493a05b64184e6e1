//! Directives of data as they are written.
ghost use Rattle.std.specs.Prelude.{◌≤◌, length};

use std::alloc::Global;
use std::process::Abort;
use std::rc::Rc;
use std::test::Fail;
use vax_asm_data::*;
use vax_asm_encode::DataKind;
use vax_asm_first::{FaultKind, Origin, Refused, Standing};
use vax_dialect::Dialect;
use vax_lex::{Token, Value, scan};
use vax_word::Size;

const ORIGIN: Origin = Origin { line: 1, place: 1 };

/// What a directive does, as the tests call it.
#[derive(Clone, Copy)]
enum Directive {
    Data(DataKind),
    Addresses,
    Text(TextForm),
    Space(DataKind),
    Align,
    Even,
}

/// A statement that is this directive. How long the section is then, or the fault.
fn stated(
    alloc: Global,
    standing: &mut Standing,
    directive: Directive,
    text: &[u8],
) -> Result<Result<u32, Refused>, Fail>
    requires { length text.now ≤ 1024 }
{
    let tokens = scan(alloc, text)?;
    if tokens.is_empty() || tokens.len() > 1024 {
        return Ok(Err(Refused::NoMemory));
    }
    let operands = &tokens[1..];
    let line = Rc::new(alloc, text.to_vec(alloc)?)?;
    let done = match directive {
        Directive::Data(kind) => data(standing, alloc, ORIGIN, &line, kind, operands),
        Directive::Addresses => addresses(standing, alloc, ORIGIN, &line, operands),
        Directive::Text(form) => vax_asm_data::text(standing, alloc, ORIGIN, &line, form, operands),
        Directive::Space(kind) => space(standing, alloc, ORIGIN, &line, kind, operands),
        Directive::Align => align(standing, alloc, ORIGIN, &line, operands),
        Directive::Even => even(standing, operands),
    };
    match done {
        Ok(()) => Ok(Ok(standing.section_size())),
        Err(refused) => Ok(Err(refused)),
    }
}

/// What directives give one behind another: how long the section is then, or the fault.
fn test_behind(
    rt: &impl Abort,
    alloc: Global,
    standing: &mut Standing,
    rows: &[(Directive, &str, Result<u32, FaultKind>)],
) -> Result<(), Fail> {
    for (directive, text, want) in rows {
        assert!(rt; text.len() <= 1024, "{text}");
        let want = match want {
            Ok(size) => Ok(*size),
            Err(kind) => Err(Refused::Fault(*kind)),
        };
        let found = stated(alloc, standing, *directive, text.as_bytes())?;
        assert!(rt; found == want, "{text}");
    }
    Ok(())
}

/// What directives give, each alone in a section.
fn test_alone(
    rt: &impl Abort,
    alloc: Global,
    rows: &[(Directive, &str, Result<u32, FaultKind>)],
) -> Result<(), Fail> {
    for row in rows {
        let mut standing = Standing::new(alloc, Dialect::Vax)?;
        test_behind(rt, alloc, &mut standing, &[*row])?;
    }
    Ok(())
}

const BYTES: Directive = Directive::Data(DataKind::Number(Size::B));

const WORDS: Directive = Directive::Data(DataKind::Number(Size::W));

const SIGNED_BYTES: Directive = Directive::Data(DataKind::Signed(Size::B));

const SIGNED_WORDS: Directive = Directive::Data(DataKind::Signed(Size::W));

const LONGWORDS: Directive = Directive::Space(DataKind::Number(Size::L));

#[test]
fn lays_out_items(rt: HostRuntime) -> Result<(), Fail> {
    let rows = [
        (BYTES, ".BYTE 1, -128, 255", Ok(3)),
        (WORDS, ".WORD 2[3], X", Ok(8)),
        (
            Directive::Data(DataKind::Number(Size::Q)),
            ".QUAD 1[0]",
            Ok(0),
        ),
        (Directive::Addresses, ".ADDRESS X, Y+2", Ok(8)),
        (BYTES, ".BYTE", Err(FaultKind::Count)),
        (BYTES, ".BYTE 256, 1", Err(FaultKind::Range)),
        (BYTES, ".BYTE 256, 1,", Err(FaultKind::Form)),
        (BYTES, ".BYTE .", Err(FaultKind::Form)),
        (BYTES, ".BYTE 1[N]", Err(FaultKind::Undefined)),
        (BYTES, ".BYTE 1[-1]", Err(FaultKind::Range)),
        (
            Directive::Data(DataKind::Number(Size::L)),
            ".LONG X+X/0",
            Err(FaultKind::Range),
        ),
        (BYTES, ".BYTE 1[X/0]", Err(FaultKind::Undefined)),
        (WORDS, ".WORD 1[600000]", Err(FaultKind::Large)),
        (Directive::Addresses, ".ADDRESS X[2]", Err(FaultKind::Form)),
    ];
    test_alone(&rt, rt.alloc(), &rows)
}

#[test]
fn lays_out_signed_items(rt: HostRuntime) -> Result<(), Fail> {
    let rows = [
        (SIGNED_BYTES, ".SIGNED_BYTE -128, 127, X", Ok(3)),
        (SIGNED_BYTES, ".SIGNED_BYTE -1[3]", Ok(3)),
        (SIGNED_WORDS, ".SIGNED_WORD -32768, 32767[2]", Ok(6)),
        (SIGNED_BYTES, ".SIGNED_BYTE 128", Err(FaultKind::Range)),
        (SIGNED_BYTES, ".SIGNED_BYTE -129", Err(FaultKind::Range)),
        (SIGNED_WORDS, ".SIGNED_WORD 32768", Err(FaultKind::Range)),
        (SIGNED_WORDS, ".SIGNED_WORD -32769", Err(FaultKind::Range)),
        (SIGNED_BYTES, ".SIGNED_BYTE .", Err(FaultKind::Form)),
        (SIGNED_WORDS, ".SIGNED_WORD .+2", Err(FaultKind::Form)),
        (SIGNED_BYTES, ".SIGNED_BYTE", Err(FaultKind::Count)),
        (SIGNED_BYTES, ".SIGNED_BYTE 1[N]", Err(FaultKind::Undefined)),
    ];
    test_alone(&rt, rt.alloc(), &rows)
}

#[test]
fn lays_out_room_and_boundaries(rt: HostRuntime) -> Result<(), Fail> {
    let alloc = rt.alloc();
    let rows = [
        (LONGWORDS, ".BLKL", Ok(4)),
        (LONGWORDS, ".BLKL 2+1", Ok(12)),
        (
            Directive::Space(DataKind::Number(Size::B)),
            ".BLKB 1,2",
            Err(FaultKind::Count),
        ),
        (Directive::Align, ".ALIGN 10", Err(FaultKind::Range)),
        (Directive::Align, ".ALIGN X", Err(FaultKind::Undefined)),
        (Directive::Align, ".ALIGN", Err(FaultKind::Count)),
        (Directive::Even, ".EVEN 1", Err(FaultKind::Count)),
    ];
    test_alone(&rt, alloc, &rows)?;
    let mut standing = Standing::new(alloc, Dialect::Vax)?;
    let rows = [
        (BYTES, ".BYTE 7", Ok(1)),
        (Directive::Even, ".EVEN", Ok(2)),
        (Directive::Align, ".ALIGN 2", Ok(4)),
        (BYTES, ".BYTE 7", Ok(5)),
        (Directive::Align, ".ALIGN Quad", Ok(8)),
    ];
    test_behind(&rt, alloc, &mut standing, &rows)?;
    assert!(rt; standing.layout.current().align == 3);
    Ok(())
}

#[test]
fn lays_out_text(rt: HostRuntime) -> Result<(), Fail> {
    let plain = Directive::Text(TextForm::Plain);
    let rows = [
        (plain, ".ASCII /ab/<13>/c/<X>", Ok(5)),
        (
            Directive::Text(TextForm::CountFirst),
            ".ASCIC /ab/<13>",
            Ok(4),
        ),
        (Directive::Text(TextForm::ZeroLast), ".ASCIZ //", Ok(1)),
        (plain, ".ASCII <256>", Err(FaultKind::Range)),
        (plain, ".ASCII -1", Err(FaultKind::Form)),
        (plain, ".ASCII", Err(FaultKind::Count)),
    ];
    test_alone(&rt, rt.alloc(), &rows)
}
