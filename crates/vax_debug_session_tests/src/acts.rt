//! Tests of what a debugger does and replies. Expected replies are worked by hand.
ghost use Rattle.std.specs.Prelude.{◌<◌, ◌^◌, ◌-◌};
ghost use Rattle.vax_debug_words.specs.Expressions.{IsExpression};

use std::alloc::Global;
use std::process::Abort;
use std::test::Fail;
use vax_debug_acts::{
    Plan, Setting, clear_all, clear_at, deposit_into_memory, deposit_into_register, evict_all,
    evict_at, go, leave, over, step, stop_at, until,
};
use vax_debug_words::{Base, Expression, Size, Value};
use vax_machine::Machine;
use vax_outside::{Chan, MemPages, MemSink};
use vax_test_machines::{CALLS, PROCEDURE, SUBROUTINE, machine_with, surroundings, untold};

/// A number, as R0 and what is added to it: R0 is 0.
fn number(offset: u32) -> Expression
    ensures { IsExpression result }
{
    Expression {
        base: Base::Register(0),
        through: 1,
        offset,
    }
}

/// What a debugger is asked for.
#[derive(Clone, Copy)]
enum Act {
    StopAt(u32),
    ClearAt(u32),
    ClearAll,
    Step(u64),
    Over,
    Until(u32),
    Leave,
    Go,
    /// A number into R2.
    IntoRegister(u32),
    /// A word into memory.
    Word(u32, u32),
    /// A byte into memory.
    Byte(u32, u32),
    /// A quadword into memory.
    Quadword(u32, u64),
    /// A number of more than 64 bits into memory.
    TooLarge(u32),
    EvictAt(u32),
    EvictAll,
}

/// Does what is asked for, and tells whether it could.
fn acts(
    act: Act,
    setting: &Setting,
    plan: &mut Plan,
    machine: &mut Machine,
    file: &mut MemPages,
    sink: &mut MemSink,
) -> bool
    requires { setting.now.limits.now.turns < 2 ^ 64 - 2 }
{
    let done = match act {
        Act::StopAt(at) => stop_at(&number(at), setting, plan, machine, file, sink),
        Act::ClearAt(at) => clear_at(&number(at), setting, plan, machine, file, sink),
        Act::ClearAll => clear_all(plan, sink),
        Act::Step(count) => step(count, setting, plan, machine, file, sink),
        Act::Over => over(setting, plan, machine, file, sink),
        Act::Until(to) => until(&number(to), setting, plan, machine, file, sink),
        Act::Leave => leave(setting, plan, machine, file, sink),
        Act::Go => go(setting, plan, machine, file, sink),
        Act::IntoRegister(given) => {
            deposit_into_register(2, &number(given), setting, machine, file, sink)
        }
        Act::Word(to, given) => {
            let given = Value::Number(Size::Word, number(given));
            deposit_into_memory(&number(to), &given, setting, machine, file, sink)
        }
        Act::Byte(to, given) => {
            let given = Value::Number(Size::Byte, number(given));
            deposit_into_memory(&number(to), &given, setting, machine, file, sink)
        }
        Act::TooLarge(to) => {
            deposit_into_memory(&number(to), &Value::TooLarge, setting, machine, file, sink)
        }
        Act::Quadword(to, given) => {
            let given = Value::Quadword(given);
            deposit_into_memory(&number(to), &given, setting, machine, file, sink)
        }
        Act::EvictAt(at) => evict_at(&number(at), setting, machine, file, sink),
        Act::EvictAll => evict_all(machine, file, sink),
    };
    done.is_ok()
}

/// Each of these acts on a machine with a program is done, and these are the replies; the answer is the plan and the machine behind them.
fn replies<R: Abort>(
    rt: &R,
    alloc: Global,
    program: &[u8],
    asked: &[Act],
    want: &str,
) -> Result<(Plan, Machine), Fail> {
    let mut machine = machine_with(alloc, program)?;
    let mut a = surroundings(alloc, 100)?;
    let legend = untold();
    let setting = Setting {
        legend: &legend,
        limits: &a.limits,
        schedule: &a.schedule,
    };
    let mut plan = Plan::new();
    for act in asked {
        let (file, sink) = (&mut a.file, &mut a.sink);
        assert!(rt; acts(*act, &setting, &mut plan, &mut machine, file, sink));
    }
    assert!(rt; a.sink.bytes(Chan::Report) == want.as_bytes());
    Ok((plan, machine))
}

#[test]
fn a_break_is_made_and_cleared(rt: HostRuntime) -> Result<(), Fail> {
    let alloc = rt.alloc();
    let asked = [Act::StopAt(SUBROUTINE), Act::Go, Act::ClearAt(SUBROUTINE)];
    let want = "BREAK 80000206\nENDING BREAK\nAT 80000206: INCL R2\nOK\n";
    let (plan, _) = replies(&rt, alloc, &CALLS, &asked, want)?;
    assert!(rt; !plan.breaks.has(SUBROUTINE));
    let asked = [
        Act::StopAt(SUBROUTINE),
        Act::Go,
        Act::ClearAt(SUBROUTINE),
        Act::ClearAll,
    ];
    let want = "BREAK 80000206\nENDING BREAK\nAT 80000206: INCL R2\nOK\nOK\n";
    replies(&rt, alloc, &CALLS, &asked, want)?;
    Ok(())
}

#[test]
fn steps_tell_where_they_stop(rt: HostRuntime) -> Result<(), Fail> {
    let asked = [Act::Step(1), Act::Over, Act::Until(0x8000_0202)];
    let want = "AT 80000206: INCL R2\nAT 80000208: RSB\nAT 80000202: INCL R1\n";
    replies(&rt, rt.alloc(), &CALLS, &asked, want)?;
    Ok(())
}

#[test]
fn a_procedure_is_left_and_told(rt: HostRuntime) -> Result<(), Fail> {
    let asked = [Act::Step(1), Act::Leave];
    let want = "AT 80000208: INCL R2\nAT 80000204: HALT\n";
    replies(&rt, rt.alloc(), &PROCEDURE, &asked, want)?;
    Ok(())
}

#[test]
fn values_are_changed(rt: HostRuntime) -> Result<(), Fail> {
    let asked = [
        Act::IntoRegister(0x2A),
        Act::Word(SUBROUTINE, 0x53D6),
        // no area has the byte
        Act::Quadword(0x8000_0600, 0),
    ];
    let want = "OK\nOK\n?NO SUCH BYTES\n";
    let (_, machine) = replies(&rt, rt.alloc(), &CALLS, &asked, want)?;
    assert!(rt; machine.core().regs.get(2) == Some(&0x2A));
    Ok(())
}

/// A byte takes 0 to FF and -80 to -1.
#[test]
fn bytes_that_have_no_room_are_refused(rt: HostRuntime) -> Result<(), Fail> {
    let at = SUBROUTINE;
    let asked = [
        Act::Byte(at, 0xFF),
        Act::Byte(at, 0xFFFF_FF80),
        Act::Byte(at, 0x1FF),
        Act::Byte(at, 0x100),
        Act::Byte(at, 0xFFFF_FF7F),
    ];
    let want = "OK\nOK\n?VALUE TOO LARGE\n?VALUE TOO LARGE\n?VALUE TOO LARGE\n";
    replies(&rt, rt.alloc(), &CALLS, &asked, want)?;
    Ok(())
}

/// A word takes 0 to FFFF and -8000 to -1.
#[test]
fn words_that_have_no_room_are_refused(rt: HostRuntime) -> Result<(), Fail> {
    let at = SUBROUTINE;
    let asked = [
        Act::Word(at, 0xFFFF),
        Act::Word(at, 0xFFFF_8000),
        Act::Word(at, 0x0001_2345),
        Act::Word(at, 0xFFFF_7FFF),
        Act::TooLarge(at),
    ];
    let want = "OK\nOK\n?VALUE TOO LARGE\n?VALUE TOO LARGE\n?VALUE TOO LARGE\n";
    replies(&rt, rt.alloc(), &CALLS, &asked, want)?;
    Ok(())
}

#[test]
fn an_address_in_no_area_is_told(rt: HostRuntime) -> Result<(), Fail> {
    let outside = 0x8000_0600;
    let asked = [
        Act::StopAt(outside),
        Act::Until(outside),
        Act::EvictAt(outside),
        Act::ClearAt(outside),
        Act::EvictAt(0x8000_05FF),
    ];
    let want = "?IN NO AREA\n?IN NO AREA\n?IN NO AREA\nOK\nOK\n";
    let (plan, machine) = replies(&rt, rt.alloc(), &CALLS, &asked, want)?;
    assert!(rt; !plan.breaks.has(outside));
    assert!(rt; machine.steps() == 0);
    Ok(())
}

#[test]
fn absent_pages_lose_no_byte(rt: HostRuntime) -> Result<(), Fail> {
    let asked = [Act::EvictAt(SUBROUTINE), Act::EvictAll, Act::Step(1)];
    let want = "OK\nOK\nAT 80000206: INCL R2\n";
    replies(&rt, rt.alloc(), &CALLS, &asked, want)?;
    Ok(())
}
