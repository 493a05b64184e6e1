//! Runs that are saved and go on. Expected values are those of the whole run, or worked by hand.
use crate::calls::{call, call_cut, call_failing, debug, move_state};
use std::process::Abort;
use std::test::Fail;
use vax_outside::{Fail as Failing, StateFile};

/// Within the move: 512 of 1024 units are done, and 1024 bytes are to be moved from 80000600.
const HALFWAY: &[u8] = b"ENDING TURNS\nSTEPS 0\nUNITS 512\n\
    R0 0E000400 80000600 02000400 80000200\n\
    R4 00000000 00000000 00000000 00000000\n\
    R8 00000000 00000000 00000000 00000000\n\
    R12 00000000 00000000 80102000 80000200\n\
    PSL 081F0000\n\
    STACKS 00000000 7FFE0800 7FFE8800 80000000 80110800\n\
    INPUT 0\n";

/// Behind the move and the HALT that it wrote.
const MOVED: &[u8] = b"ENDING HALT\nSTEPS 2\nUNITS 0\n\
    R0 00000000 80000A00 00000000 80000600\n\
    R4 00000000 00000000 00000000 00000000\n\
    R8 00000000 00000000 00000000 00000000\n\
    R12 00000000 00000000 80102000 8000020E\n\
    PSL 001F0004\n\
    STACKS 00000000 7FFE0800 7FFE8800 80000000 80110800\n\
    INPUT 0\n";

#[test]
fn goes_on_within_an_instruction(rt: HostRuntime) -> Result<(), Fail> {
    let alloc = rt.alloc();
    let saved = move_state(alloc)?;
    assert!(rt; saved.code == 8 && saved.report() == HALFWAY && saved.out() == b"".as_slice());
    assert!(rt; saved.state().len() == 1356 && saved.file() == StateFile::Kept);
    assert!(rt; saved.state().starts_with(b"VAXS\x01\0\0\0\0\0\0\0\0\0\0\0"));
    let resumed = call(alloc, "resume STATE", saved.state())?;
    assert!(rt;
        resumed.code == 0 && resumed.report() == MOVED && resumed.file() == StateFile::Untouched
    );
    let evicted = call(
        alloc,
        "resume STATE --schedule EACH --frames 64",
        saved.state(),
    )?;
    assert!(rt; evicted.code == 0 && evicted.report() == MOVED);
    let nowhere = call(alloc, "resume STATE --steps 0", saved.state())?;
    assert!(rt; nowhere.code == 0);
    assert!(rt;
        nowhere
            .report()
            .starts_with(b"ENDING STEPS\nSTEPS 0\nUNITS 512\n")
    );
    Ok(())
}

#[test]
fn saves_nothing_at_an_ending(rt: HostRuntime) -> Result<(), Fail> {
    let alloc = rt.alloc();
    let saved = call(alloc, "save MOVE --base bare", b"")?;
    assert!(rt; saved.code == 0 && saved.report() == MOVED && saved.state() == b"".as_slice());
    assert!(rt; saved.file() == StateFile::Removed);
    Ok(())
}

/// Of the first 200 steps each seventh is tried.
#[test]
fn goes_on_behind_a_step(rt: HostRuntime) -> Result<(), Fail> {
    let alloc = rt.alloc();
    let whole = call(alloc, "run WORDS --input TEXT", b"")?;
    assert!(rt; whole.code == 0 && whole.out() == b"6\n".as_slice());
    for steps in (0..200u32).step_by(7) {
        let line = format!(in alloc; "save WORDS --input TEXT --steps {steps}")?;
        let saved = call(alloc, &line, b"")?;
        assert!(rt; saved.code == 0 && saved.report().starts_with(b"ENDING STEPS\n"));
        let resumed = call(alloc, "resume STATE", saved.state())?;
        assert!(rt; resumed.code == 0 && resumed.report() == whole.report());
        let mut out = saved.out().to_vec(alloc)?;
        out.extend_from_slice(resumed.out())?;
        assert!(rt; out.as_slice() == whole.out());
    }
    Ok(())
}

/// Each call of the channels fails in turn: two writes of the state, the call that keeps it, and the write of the report.
#[test]
fn a_failed_call_keeps_no_part(rt: HostRuntime) -> Result<(), Fail> {
    let alloc = rt.alloc();
    let line = "save MOVE --base bare --turns 3";
    let rows = [
        (1, 11, 0, StateFile::Untouched),
        (2, 11, 1000, StateFile::Untouched),
        (3, 11, 1356, StateFile::Untouched),
        (4, 11, 1356, StateFile::Kept),
        (5, 8, 1356, StateFile::Kept),
    ];
    for (number, code, len, file) in rows {
        let left = call_cut(alloc, line, number)?;
        assert!(rt; left.code == code && left.state().len() == len, "{number}");
        assert!(rt; left.file() == file, "{number}");
    }
    Ok(())
}

/// The same where the run ends: the call that removes an older state, and the write of the report.
#[test]
fn a_failed_removal_is_told(rt: HostRuntime) -> Result<(), Fail> {
    let alloc = rt.alloc();
    let line = "save MOVE --base bare";
    let rows = [
        (1, 11, StateFile::Untouched),
        (2, 11, StateFile::Removed),
        (3, 0, StateFile::Removed),
    ];
    for (number, code, file) in rows {
        let left = call_cut(alloc, line, number)?;
        assert!(rt; left.code == code && left.file() == file, "{number}");
        assert!(rt; left.report().is_empty() == (code == 11), "{number}");
    }
    Ok(())
}

/// A page that is on file is read for the state, and that read fails.
#[test]
fn a_failed_read_cuts_the_state_short(rt: HostRuntime) -> Result<(), Fail> {
    let alloc = rt.alloc();
    let line = "save WIDE --base bare --frames 64 --steps 240";
    let whole = call(alloc, line, b"")?;
    assert!(rt; whole.code == 0 && whole.report().starts_with(b"ENDING STEPS\nSTEPS 240\n"));
    let saved = call_failing(alloc, line, b"", Some(Failing::Read(1)))?;
    assert!(rt; saved.code == 9 && saved.file() == StateFile::Untouched);
    assert!(rt; saved.report().starts_with(b"ENDING PAGEFAULT\nSTEPS 240\n"));
    assert!(rt; whole.state().starts_with(saved.state()));
    assert!(rt; saved.state().len() < whole.state().len());
    let cut = call(alloc, "resume STATE", saved.state())?;
    assert!(rt; cut.code == 14 && cut.report().ends_with(b" fault 8\n"));
    Ok(())
}

/// What a debugger saves behind so many steps is what `save` does, whatever it has shown or evicted; and behind a deposit the run goes on with that.
#[test]
fn goes_on_from_a_session(rt: HostRuntime) -> Result<(), Fail> {
    let alloc = rt.alloc();
    let whole = call(alloc, "run WORDS --input TEXT", b"")?;
    let line = "debug WORDS --input TEXT";
    for (typed, steps) in [
        (b"SAVE".as_slice(), 0),
        (b"step 100\nevict all\nexamine r6\nsave\nstep 2\n", 100),
        (b"step 60\nturn\nstep 139\nsa\n", 200u32),
    ] {
        let debugged = debug(alloc, line, typed, None)?;
        let by_steps = format!(in alloc; "save WORDS --input TEXT --steps {steps}")?;
        let saved = call(alloc, &by_steps, b"")?;
        assert!(rt; debugged.code == 0 && debugged.state() == saved.state());
        assert!(rt; debugged.file() == StateFile::Kept);
        assert!(rt; debugged.report().ends_with(saved.report()));
        let resumed = call(alloc, "resume STATE", debugged.state())?;
        assert!(rt; resumed.code == 0 && resumed.report() == whole.report());
        let mut out = debugged.out().to_vec(alloc)?;
        out.extend_from_slice(resumed.out())?;
        assert!(rt; out.as_slice() == whole.out());
    }
    let changed = debug(alloc, line, b"STEP 200\nDEPOSIT R6 7\nSAVE\n", None)?;
    let before = call(alloc, "save WORDS --input TEXT --steps 200", b"")?;
    assert!(rt; changed.code == 0 && changed.state().len() == before.state().len());
    assert!(rt; changed.state() != before.state());
    Ok(())
}

/// Behind an ending nothing is saved, as by `save`; and a failed read cuts a state short.
#[test]
fn a_session_saves_no_ending(rt: HostRuntime) -> Result<(), Fail> {
    let alloc = rt.alloc();
    let ended = debug(alloc, "debug MOVE --base bare", b"GO\nSAVE\n", None)?;
    assert!(rt; ended.code == 0 && ended.report().ends_with(MOVED));
    assert!(rt; ended.state() == b"".as_slice() && ended.file() == StateFile::Removed);
    let line = "debug WIDE --base bare --frames 64";
    let typed = b"STEP 240\nSAVE\n";
    let whole = debug(alloc, line, typed, None)?;
    assert!(rt; whole.code == 0);
    let cut = debug(alloc, line, typed, Some(Failing::Read(1)))?;
    assert!(rt; cut.code == 9 && cut.file() == StateFile::Untouched);
    assert!(rt; whole.state().starts_with(cut.state()));
    assert!(rt; cut.state().len() < whole.state().len());
    Ok(())
}
