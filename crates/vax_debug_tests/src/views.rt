//! Tests of what is shown of a machine. Expected texts are worked by hand.
ghost use Rattle.std.specs.Prelude.{◌<◌};
ghost use Rattle.vax_debug_words.specs.Expressions.{IsExpression};

use std::test::Fail;
use vax_debug::{Breaks, Failure};
use vax_debug_views::{
    disassemble, disassemble_here, reply, reply_nowhere, show_breaks, show_frames, show_help,
    show_memory, show_queue, show_refusal, show_register, show_stack, show_status,
};
use vax_debug_words::{Base, Expression, Form, Refusal, Span};
use vax_outside::Chan;
use vax_test_machines::{machine_with, surroundings, untold};

/// BSBB to the INCL of R2, and the bytes behind it.
const CALL: [u8; 4] = [0x10, 4, 0xD6, 0x51];

/// An address that a register holds.
fn held(register: u8) -> Expression
    requires { register < 16 }
    ensures { IsExpression result }
{
    Expression {
        base: Base::Register(register),
        through: 1,
        offset: 0,
    }
}

#[test]
fn shows_registers(rt: HostRuntime) -> Result<(), Fail> {
    let machine = machine_with(rt.alloc(), &CALL)?;
    let mut a = surroundings(rt.alloc(), 100)?;
    assert!(rt; show_register(14, &machine, &a.file, &mut a.sink).is_ok());
    assert!(rt; show_status(&machine, &a.file, &mut a.sink).is_ok());
    assert!(rt;
        a.sink.bytes(Chan::Report)
            == b"R14 80000600\nPSL 001F0000 MODE KERNEL PREVIOUS KERNEL IPL 31\n".as_slice()
    );
    Ok(())
}

#[test]
fn shows_memory(rt: HostRuntime) -> Result<(), Fail> {
    let mut machine = machine_with(rt.alloc(), &CALL)?;
    let mut a = surroundings(rt.alloc(), 100)?;
    let legend = untold();
    let span = Span {
        from: held(15),
        count: 2,
    };
    let shown = show_memory(
        Form::Word,
        &span,
        &legend,
        &mut machine,
        &mut a.file,
        &mut a.sink,
    );
    assert!(rt; shown.is_ok());
    assert!(rt; show_stack(1, &legend, &mut machine, &mut a.file, &mut a.sink).is_ok());
    assert!(rt;
        a.sink.bytes(Chan::Report)
            == b"80000200: 0410\n80000202: 51D6\n80000600: --------\n".as_slice()
    );
    Ok(())
}

#[test]
fn shows_instructions(rt: HostRuntime) -> Result<(), Fail> {
    let mut machine = machine_with(rt.alloc(), &CALL)?;
    let mut a = surroundings(rt.alloc(), 100)?;
    let legend = untold();
    let span = Span {
        from: held(15),
        count: 2,
    };
    let shown = disassemble(&span, &legend, &mut machine, &mut a.file, &mut a.sink);
    assert!(rt; shown.is_ok());
    assert!(rt;
        a.sink.bytes(Chan::Report) == b"80000200: BSBB ^X80000206\n80000202: INCL R1\n".as_slice()
    );
    // there is no room for ten more
    assert!(rt; disassemble_here(&legend, &mut machine, &mut a.file, &mut a.sink).is_err());
    Ok(())
}

#[test]
fn shows_frames_and_queues(rt: HostRuntime) -> Result<(), Fail> {
    let mut machine = machine_with(rt.alloc(), &CALL)?;
    let mut a = surroundings(rt.alloc(), 100)?;
    let legend = untold();
    assert!(rt; show_frames(&legend, &mut machine, &mut a.file, &mut a.sink).is_ok());
    assert!(rt; show_queue(&held(15), &legend, &mut machine, &mut a.file, &mut a.sink).is_ok());
    assert!(rt;
        a.sink.bytes(Chan::Report)
            == b"0 80000200 FP 00000000 AP 00000000\n80000200: 51D60410\n51D60410: --------\n".as_slice()
    );
    Ok(())
}

#[test]
fn replies_without_a_machine(rt: HostRuntime) -> Result<(), Fail> {
    let mut a = surroundings(rt.alloc(), 100)?;
    let legend = untold();
    assert!(rt; reply(b"OK\n", &mut a.sink).is_ok());
    assert!(rt; reply_nowhere(&mut a.sink).is_ok());
    assert!(rt; show_breaks(&legend, &Breaks::new(), &mut a.sink).is_ok());
    assert!(rt; show_refusal(Refusal::Length, b"", &mut a.sink).is_ok());
    assert!(rt;
        a.sink.bytes(Chan::Report)
            == b"OK\n?NO SUCH NAME OR ADDRESS\nNO BREAKS\n?LENGTH\n".as_slice()
    );
    // there is no room for all of it
    assert!(rt; show_help(None, &mut a.sink) == Err(Failure::WriteFault));
    Ok(())
}
