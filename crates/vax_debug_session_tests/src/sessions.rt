//! Tests of sessions with a debugger, line by line. Expected replies are worked by hand.
use std::alloc::Global;
use std::process::Abort;
use std::test::Fail;
use vax_debug_acts::Setting;
use vax_debug_session::{Plan, SessionEnd, hold};
use vax_input::MemLines;
use vax_machine::Machine;
use vax_outside::Chan;
use vax_test_machines::{CALLS, machine_with, surroundings, untold};

/// A session, and what is wanted of it.
#[derive(Clone, Copy)]
struct Talk<'a> {
    lines: &'a [u8],
    prompts: bool,
    /// How many bytes of replies there is room for.
    room: u32,
    end: SessionEnd,
    steps: u64,
    replies: &'a [u8],
}

/// Holds a session on a machine with a program, whose steps stop where a plan says; the answer is the machine behind it.
fn holds_on<R: Abort>(
    rt: &R,
    alloc: Global,
    program: &[u8],
    plan: &mut Plan,
    talk: &Talk,
) -> Result<Machine, Fail> {
    let mut machine = machine_with(alloc, program)?;
    let mut a = surroundings(alloc, talk.room)?;
    let legend = untold();
    let setting = Setting {
        legend: &legend,
        limits: &a.limits,
        schedule: &a.schedule,
    };
    let end = hold(
        &mut MemLines::new(talk.lines),
        talk.prompts,
        &setting,
        plan,
        &mut machine,
        &mut a.file,
        &mut a.sink,
    );
    assert!(rt; end == talk.end);
    assert!(rt; machine.steps() == talk.steps);
    assert!(rt; a.sink.bytes(Chan::Report) == talk.replies);
    Ok(machine)
}

/// The same, on the machine of the calls.
fn holds<R: Abort>(rt: &R, alloc: Global, plan: &mut Plan, talk: &Talk) -> Result<Machine, Fail> {
    holds_on(rt, alloc, &CALLS, plan, talk)
}

/// The same, with no stops at the start.
fn talks<R: Abort>(rt: &R, alloc: Global, talk: &Talk) -> Result<(), Fail> {
    holds(rt, alloc, &mut Plan::new(), talk)?;
    Ok(())
}

#[test]
fn each_line_is_answered(rt: HostRuntime) -> Result<(), Fail> {
    let talk = Talk {
        lines: b"step\n\nexamine r2\nbreak 80000202\nevict all\ngo\nquit now\nclear\nquit\nstep\n",
        prompts: false,
        room: 400,
        end: SessionEnd::Quit,
        steps: 3,
        replies: b"AT 80000206: INCL R2\n\
            R2 00000000\n\
            BREAK 80000202\n\
            OK\n\
            ENDING BREAK\nAT 80000202: INCL R1\n\
            ?USAGE\nQUIT                     ends\n\
            OK\n",
    };
    talks(&rt, rt.alloc(), &talk)
}

#[test]
fn a_session_ends_where_it_is_to_be_saved(rt: HostRuntime) -> Result<(), Fail> {
    let talk = Talk {
        lines: b"step\nsave\nstep\n",
        prompts: true,
        room: 400,
        end: SessionEnd::Save,
        steps: 1,
        replies: b"vax> AT 80000206: INCL R2\nvax> ",
    };
    talks(&rt, rt.alloc(), &talk)
}

#[test]
fn a_session_ends_where_its_program_is_to_begin_anew(rt: HostRuntime) -> Result<(), Fail> {
    let talk = Talk {
        lines: b"break 80000202\nstep\nr\nstep\n",
        prompts: true,
        room: 400,
        end: SessionEnd::Restart,
        steps: 1,
        replies: b"vax> BREAK 80000202\nvax> AT 80000206: INCL R2\nvax> ",
    };
    let mut plan = Plan::new();
    holds(&rt, rt.alloc(), &mut plan, &talk)?;
    assert!(rt; plan.breaks.as_slice() == [0x8000_0202].as_slice());
    Ok(())
}

#[test]
fn a_plan_from_before_stays(rt: HostRuntime) -> Result<(), Fail> {
    let talk = Talk {
        lines: b"show breaks\n",
        prompts: false,
        room: 100,
        end: SessionEnd::Read,
        steps: 0,
        replies: b"BREAK 80000206\n",
    };
    let mut plan = Plan::new();
    plan.breaks.add(0x8000_0206);
    holds(&rt, rt.alloc(), &mut plan, &talk)?;
    Ok(())
}

#[test]
fn a_prompt_stands_before_each_line(rt: HostRuntime) -> Result<(), Fail> {
    let talk = Talk {
        lines: b"ex r2\nex r3",
        prompts: true,
        room: 100,
        end: SessionEnd::Read,
        steps: 0,
        replies: b"vax> R2 00000000\nvax> R3 00000000\nvax> ",
    };
    talks(&rt, rt.alloc(), &talk)
}

#[test]
fn a_failed_write_ends_a_session(rt: HostRuntime) -> Result<(), Fail> {
    let talk = Talk {
        lines: b"deposit r2 1\ndeposit r2 2\ndeposit r2 3\n",
        prompts: false,
        room: 7,
        end: SessionEnd::WriteFault,
        steps: 0,
        replies: b"OK\nOK\nO",
    };
    let machine = holds(&rt, rt.alloc(), &mut Plan::new(), &talk)?;
    assert!(rt; machine.core().regs.get(2) == Some(&3));
    Ok(())
}

#[test]
fn attempts_and_pages_are_told(rt: HostRuntime) -> Result<(), Fail> {
    let talk = Talk {
        lines: b"pages\nturn\nturn\nturn\npages\nevict 80000200\npages\nturn\nturn\n\
            deposit psl 4100000\nexamine psl\nexamine sp\n\
            deposit psl 1f0000\nexamine sp\ndeposit psl 10\n",
        prompts: false,
        room: 700,
        end: SessionEnd::Read,
        steps: 2,
        replies: b"FRAMES 64\n\
            MISSED 80000200\n\
            MISSED 80000400\n\
            AT 80000206: INCL R2\n\
            FRAMES 64\n80000200: RESIDENT\n80000400: RESIDENT MODIFIED\n\
            OK\n\
            FRAMES 64\n80000200: KEPT\n80000400: RESIDENT MODIFIED\n\
            MISSED 80000200\n\
            AT 80000208: RSB\n\
            OK\n\
            PSL 04100000 MODE KERNEL PREVIOUS KERNEL IPL 16 IS\n\
            R14 00000000\n\
            OK\n\
            R14 800005FC\n\
            ?NO SUCH STATUS\n",
    };
    talks(&rt, rt.alloc(), &talk)
}

/// MOVC3 of 520 bytes from 80000220 to 80000300, of which a part moves the last 40: those of the source's second page; MOVC3 of 16 bytes from 80000380 to 80000500; HALT.
const MOVES: [u8; 28] = [
    0x28, 0x8F, 8, 2, 0x9F, 0x20, 2, 0, 0x80, 0x9F, 0, 3, 0, 0x80, 0x28, 0x8F, 16, 0, 0x9F, 0x80,
    3, 0, 0x80, 0x9F, 0, 5, 0, 0x80,
];

/// A string instruction that an attempt makes a part of is told, and one that it makes whole isn't.
#[test]
fn an_attempt_tells_of_parts(rt: HostRuntime) -> Result<(), Fail> {
    let talk = Talk {
        lines: b"turn\nturn\nturn\nturn\n",
        prompts: false,
        room: 400,
        end: SessionEnd::Read,
        steps: 2,
        replies: b"MISSED 80000200\n\
            MISSED 80000400\n\
            IN PARTS\nAT 8000020E: MOVC3 I^#^X0010,@#^X80000380,@#^X80000500\n\
            AT 8000021C: HALT\n",
    };
    holds_on(&rt, rt.alloc(), &MOVES, &mut Plan::new(), &talk)?;
    Ok(())
}

/// BSBB pushes 80000202; a deposit is no change; a stop and a change come together.
#[test]
fn a_watch_stops_behind_a_change(rt: HostRuntime) -> Result<(), Fail> {
    let talk = Talk {
        lines: b"show watches\nwatch 800005fc\nwatch 800005fd 1\nshow watches\nevict all\ngo\n\
            clear 800005fd\ndep pc 80000200\ndep sp 80000600\ndep 800005fc 7\nbreak 80000206\n\
            step 3\nclear\nshow watches\n",
        prompts: false,
        room: 700,
        end: SessionEnd::Read,
        steps: 2,
        replies: b"NO WATCHES\n\
            WATCH 800005FC: 4\n\
            WATCH 800005FD: 1\n\
            WATCH 800005FC: 4\nWATCH 800005FD: 1\n\
            OK\n\
            WATCH 800005FC: 00000000 -> 80000202\nWATCH 800005FD: 00 -> 02\nAT 80000206: INCL R2\n\
            OK\nOK\nOK\nOK\n\
            BREAK 80000206\n\
            ENDING BREAK\nWATCH 800005FC: 00000007 -> 80000202\nAT 80000206: INCL R2\n\
            OK\n\
            NO WATCHES\n",
    };
    talks(&rt, rt.alloc(), &talk)
}

/// Nothing is changed by a line that is refused.
#[test]
fn values_and_places_are_refused(rt: HostRuntime) -> Result<(), Fail> {
    let talk = Talk {
        lines: b"dep r2 100000000\ndep r2 0100000000\ndep r2 none\ndep r2 00000000001\ndep psl 100000000\n\
            dep/b 80000406 1ff\ndep/w 80000406 12345\ndep/q 80000406 10000000000000000\n\
            dep/b 80000406 0-1\nex/b 80000406\ndep/a 80000406 \"HELLO\"\nex/a 80000406 5\n\
            break 100\nwatch 100\nuntil 100\nevict 100\nshow\nshow watches\n\
            watch 800005fe\nex r2\n",
        prompts: false,
        room: 700,
        end: SessionEnd::Read,
        steps: 0,
        replies: b"?VALUE TOO LARGE\n?VALUE TOO LARGE\n?NO SUCH NAME OR ADDRESS\nOK\n?VALUE TOO LARGE\n\
            ?VALUE TOO LARGE\n?VALUE TOO LARGE\n?VALUE TOO LARGE\n\
            OK\n80000406: FF\nOK\n80000406: HELLO\n\
            ?IN NO AREA\n?IN NO AREA\n?IN NO AREA\n?IN NO AREA\nNO BREAKS\nNO WATCHES\n\
            WATCH 800005FE: 4\nR2 00000001\n",
    };
    talks(&rt, rt.alloc(), &talk)
}

#[test]
fn a_field_of_the_status_is_shown(rt: HostRuntime) -> Result<(), Fail> {
    let talk = Talk {
        lines: b"dep psl.previous user\ndep psl.ipl 1f\ndep psl.v 1\nex psl.ipl\nex PSL.V\nex psl.c\n\
            ex psl.mode\nex psl.previous\nex psl.is\nex psl.ipl 2\n",
        prompts: false,
        room: 400,
        end: SessionEnd::Read,
        steps: 0,
        replies: b"OK\nOK\nOK\n\
            PSL.IPL 0000001F\nPSL.V 00000001\nPSL.C 00000000\n\
            PSL.MODE KERNEL\nPSL.PREVIOUS USER\nPSL.IS 00000000\n\
            ?NO SUCH NAME OR ADDRESS\n",
    };
    talks(&rt, rt.alloc(), &talk)
}

#[test]
fn a_field_of_the_status_is_changed(rt: HostRuntime) -> Result<(), Fail> {
    let talk = Talk {
        lines: b"dep psl.n 1\ndep psl.ipl 5\ndep psl.mode user\ndep psl.ipl 20\ndep psl.t 1\nex psl\n\
            dep psl.ipl 0\ndep psl.previous user\ndep psl.mode user\ndep psl.n 0\nex psl\n",
        prompts: false,
        room: 400,
        end: SessionEnd::Read,
        steps: 0,
        replies: b"OK\nOK\n?NO SUCH STATUS\n?NO SUCH STATUS\n?NO SUCH STATUS\n\
            PSL 00050008 MODE KERNEL PREVIOUS KERNEL IPL 5 N\n\
            OK\nOK\nOK\nOK\n\
            PSL 03C00000 MODE USER PREVIOUS USER IPL 0\n",
    };
    talks(&rt, rt.alloc(), &talk)
}
