//! Tests of frames of calls, as they are shown. Expected texts are worked by hand.
use std::alloc::Global;
use std::test::Fail;
use vax_debug::{deposit, deposit_register};
use vax_debug_views::show_frames;
use vax_machine::Machine;
use vax_outside::Chan;
use vax_test_machines::{Around, machine_with, surroundings, untold};

/// A frame at 80000200 with R2 and R3, whose caller goes on at 80000300 and has no frame; and behind it, at 8000021C, a list of three arguments.
const FRAME: [u8; 44] = [
    0, 0, 0, 0, 0, 0, 0x0C, 0, 0, 0, 0, 0, 0, 0, 0, 0, 0, 3, 0, 0x80, 1, 0, 0, 0, 0xEF, 0xCD, 0xAB,
    0x89, 3, 0xFF, 0xFF, 0xFF, 5, 0, 0, 0, 6, 0, 0, 0, 7, 0, 0, 0,
];

/// A machine with these bytes at 80000200, which is in a procedure with this frame and these arguments.
fn called(alloc: Global, a: &Around, bytes: &[u8], fp: u32, ap: u32) -> Result<Machine, Fail> {
    let mut machine = machine_with(alloc, bytes)?;
    deposit_register(12, ap, &mut machine, &a.file);
    deposit_register(13, fp, &mut machine, &a.file);
    Ok(machine)
}

#[test]
fn arguments_and_saved_registers_are_shown(rt: HostRuntime) -> Result<(), Fail> {
    let mut a = surroundings(rt.alloc(), 400)?;
    let mut machine = called(rt.alloc(), &a, &FRAME, 0x8000_0200, 0x8000_021C)?;
    assert!(rt; show_frames(&untold(), &mut machine, &mut a.file, &mut a.sink).is_ok());
    assert!(rt;
        a.sink.bytes(Chan::Report)
            == b"0 80000200 FP 80000200 AP 8000021C\n\
            \x20 ARGUMENTS 3: 00000005 00000006 00000007\n\
            \x20 SAVED R2 00000001 R3 89ABCDEF\n\
            1 80000300 FP 00000000 AP 00000000\n"
                .as_slice()
    );
    Ok(())
}

#[test]
fn without_a_frame_nothing_is_kept(rt: HostRuntime) -> Result<(), Fail> {
    let mut a = surroundings(rt.alloc(), 400)?;
    let mut machine = called(rt.alloc(), &a, &FRAME, 0, 0x8000_021C)?;
    assert!(rt; show_frames(&untold(), &mut machine, &mut a.file, &mut a.sink).is_ok());
    assert!(rt; a.sink.bytes(Chan::Report) == b"0 80000200 FP 00000000 AP 8000021C\n".as_slice());
    Ok(())
}

#[test]
fn sixteen_arguments_are_shown(rt: HostRuntime) -> Result<(), Fail> {
    // 17 arguments, all of them 1; the frame has zeros alone
    let mut list = [0; 72];
    for place in 0..72 {
        if place % 4 == 0 {
            list[place] = 1;
        }
    }
    list[0] = 17;
    let mut a = surroundings(rt.alloc(), 400)?;
    let mut machine = called(rt.alloc(), &a, &list, 0x8000_0300, 0x8000_0200)?;
    assert!(rt; show_frames(&untold(), &mut machine, &mut a.file, &mut a.sink).is_ok());
    assert!(rt;
        a.sink.bytes(Chan::Report)
            == b"0 80000200 FP 80000300 AP 80000200\n\
            \x20 ARGUMENTS 17: 00000001 00000001 00000001 00000001 00000001 00000001 00000001 00000001 \
            00000001 00000001 00000001 00000001 00000001 00000001 00000001 00000001 ..\n\
            1 00000000 FP 00000000 AP 00000000\n"
                .as_slice()
    );
    Ok(())
}

#[test]
fn an_argument_may_lie_outside_of_memory(rt: HostRuntime) -> Result<(), Fail> {
    // two arguments, of which memory has the first alone
    let mut a = surroundings(rt.alloc(), 400)?;
    let mut machine = called(rt.alloc(), &a, &[], 0x8000_0300, 0x8000_05F8)?;
    let list = [2, 0, 0, 0, 7, 0, 0, 0];
    assert!(rt; deposit(0x8000_05F8, &list, &mut machine, &mut a.file) == Ok(true));
    assert!(rt; show_frames(&untold(), &mut machine, &mut a.file, &mut a.sink).is_ok());
    assert!(rt;
        a.sink.bytes(Chan::Report)
            == b"0 80000200 FP 80000300 AP 800005F8\n\
            \x20 ARGUMENTS 2: 00000007 ?\n\
            1 00000000 FP 00000000 AP 00000000\n"
                .as_slice()
    );
    Ok(())
}

#[test]
fn a_saved_register_may_lie_outside_of_memory(rt: HostRuntime) -> Result<(), Fail> {
    // a frame with R0 and R11, behind which memory ends; no list of arguments
    let mut a = surroundings(rt.alloc(), 400)?;
    let mut machine = called(rt.alloc(), &a, &[], 0x8000_05EC, 0x8000_0700)?;
    assert!(rt; deposit(0x8000_05F2, &[1, 8], &mut machine, &mut a.file) == Ok(true));
    assert!(rt; show_frames(&untold(), &mut machine, &mut a.file, &mut a.sink).is_ok());
    assert!(rt;
        a.sink.bytes(Chan::Report)
            == b"0 80000200 FP 800005EC AP 80000700\n\
            \x20 SAVED R0 ? R11 ?\n\
            1 00000000 FP 00000000 AP 00000000\n"
                .as_slice()
    );
    Ok(())
}
