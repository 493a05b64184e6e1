//! Each specifier byte, against the reserved addressing modes as the manual lists them.
ghost use Rattle.std.specs.Prelude.{◌≢◌};
ghost use Rattle.vax_flat.specs.Operand.{IsWidth};

use std::alloc::Global;
use std::process::Abort;
use std::test::Fail;
use vax_flat::Exception;
use vax_isa::{Letter, OperandKind};
use vax_operand::*;
use vax_space::{Area, Bytes, Space};
use vax_undo::{Log, Plain, Term, Txn};
use vax_word::{Core, Psl};

/// Whether a specifier byte is a reserved addressing mode for such an operand, where a zero follows it. With `indexed` it stands behind
/// the prefix of an index by R6.
fn is_reserved_mode(byte: u8, letter: Letter, width: u8, indexed: bool) -> bool {
    let register = byte & 15;
    match byte >> 4 {
        // A literal is for operands that are read, and has no index.
        0 | 1 | 2 | 3 => indexed || letter != Letter::Read,
        // R15 is no index register, and an index has no index. Any other prefix has the zero behind it as its base, a literal.
        4 => true,
        // A register has no address and no index, is not PC, and of a quadword is below R14.
        5 => indexed
            || letter == Letter::Address
            || register == 15
            || (register == 14 && width == 8),
        6 => register == 15,
        // A register that is stepped is not its own index.
        7 => register == 15 || (indexed && register == 6),
        // An immediate is neither modified nor written, and has no index.
        8 if register == 15 => indexed || letter == Letter::Modify || letter == Letter::Write,
        8 | 9 => indexed && register == 6,
        _ => false,
    }
}

/// Each specifier byte with zeros behind it, 16 bytes a specifier; and from address 1000 hexadecimal on again, behind the prefix of an
/// index by R6.
fn specifiers(alloc: Global) -> Result<Plain, Fail> {
    let mut bytes = Vec::new(alloc);
    for byte in 0..256u32 {
        bytes.push(byte as u8)?;
        bytes.extend_from_slice(&[0; 15])?;
    }
    for byte in 0..256u32 {
        bytes.push(0x46)?;
        bytes.push(byte as u8)?;
        bytes.extend_from_slice(&[0; 14])?;
    }
    let mut areas = Vec::new(alloc);
    areas.push(Area {
        first: 0,
        pages: 32,
        prot: 4,
        bytes: Bytes::from(bytes),
    })?;
    Ok(Plain::new(alloc, Space::new(alloc, areas)?)?)
}

/// The operand of a specifier, in kernel mode, with 100 hexadecimal in each register but PC.
fn operand_at(alloc: Global, port: &mut Plain, kind: OperandKind, pc: u32) -> Result<Operand, Cut>
    requires width { IsWidth kind.width }
    requires specified { kind.letter ≢ Letter.Branch }
{
    let mut core = Core {
        regs: [0x100; 16],
        psl: Psl(0),
        stacks: [0; 5],
        sisr: 0,
        iccs: 0,
        clock: 0,
    };
    core.regs[15] = pc;
    let mut term = Term::new(Vec::new(alloc));
    let mut log = Log::new();
    let mut txn = Txn::begin(&mut core, &mut term, port, &mut log);
    let operand = match next(&mut txn, kind) {
        Ok(operand) => Ok(operand),
        Err(CutShort) => Err(txn.why()),
    };
    let _ = txn.commit();
    operand
}

/// Compares the specifiers of an operand of so many bytes.
fn compare(rt: &impl Abort, alloc: Global, port: &mut Plain, letter: Letter, width: u8)
    requires width { IsWidth width }
    requires specified { letter ≢ Letter.Branch }
{
    for place in 0..512u32 {
        let byte = (place % 256) as u8;
        let indexed = place >= 256;
        let reserved = is_reserved_mode(byte, letter, width, indexed);
        let operand = operand_at(alloc, port, OperandKind { letter, width }, 16 * place);
        let fault = matches!(&operand, Err(Cut::Event(Exception::Mode)));
        assert!(rt;
            fault == reserved,
            "byte {byte} of {width}, indexed {indexed}"
        );
        assert!(rt;
            operand.is_err() == reserved,
            "byte {byte} of {width}, indexed {indexed}"
        );
    }
}

fn compare_widths(rt: &impl Abort, alloc: Global, port: &mut Plain, letter: Letter)
    requires { letter ≢ Letter.Branch }
{
    compare(rt, alloc, port, letter, 1);
    compare(rt, alloc, port, letter, 2);
    compare(rt, alloc, port, letter, 4);
    compare(rt, alloc, port, letter, 8);
}

#[test]
fn reserved_addressing_modes(rt: HostRuntime) -> Result<(), Fail> {
    let alloc = rt.alloc();
    let mut port = specifiers(alloc)?;
    compare_widths(&rt, alloc, &mut port, Letter::Read);
    compare_widths(&rt, alloc, &mut port, Letter::Modify);
    compare_widths(&rt, alloc, &mut port, Letter::Write);
    compare_widths(&rt, alloc, &mut port, Letter::Address);
    compare_widths(&rt, alloc, &mut port, Letter::Field);
    Ok(())
}
