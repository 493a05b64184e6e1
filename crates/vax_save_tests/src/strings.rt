//! Each string instruction, saved in each of its parts.
use crate::calls::{call, call_over};
use std::alloc::Global;
use std::process::Abort;
use std::test::Fail;

/// The string instructions, over 1100 bytes S, as many behind them at D, tables T and ONES and a string P, in the order of their codes.
const INSTRUCTIONS: [&str; 11] = [
    "MOVC3 #1100,@#S,@#D",
    "CMPC3 #1100,@#S,@#D",
    "SCANC #1100,@#S,@#T,#1",
    "SPANC #1100,@#S,@#ONES,#1",
    "MOVC5 #500,@#S,#42,#1100,@#D",
    "CMPC5 #500,@#S,#0,#1100,@#D",
    "MOVTC #1100,@#S,#0,@#T,#1100,@#D",
    "MOVTUC #1100,@#S,#2,@#ONES,#1100,@#D",
    "MATCHC #3,@#P,#1100,@#S",
    "LOCC #1,#1100,@#S",
    "SKPC #0,#1100,@#S",
];

/// The same, each of which moves the other way or ends within its strings, in the same order.
const OTHERS: [&str; 11] = [
    "MOVC3 #1000,@#S,@#S+100",
    "CMPC3 #1100,@#ONES,@#ONES+1",
    "SCANC #1100,@#ONES,@#ONES,#1",
    "SPANC #1100,@#S,@#T,#0",
    "MOVC5 #1000,@#S,#42,#1000,@#S+50",
    "CMPC5 #1100,@#S,#1,#1000,@#D",
    "MOVTC #1000,@#S,#0,@#T,#1100,@#S+100",
    "MOVTUC #1100,@#S,#1,@#T,#1000,@#D",
    "MATCHC #2,@#S,#1100,@#D",
    "LOCC #0,#1100,@#ONES",
    "SKPC #1,#1100,@#ONES",
];

/// Saves the run of an instruction at each second limit of attempts below its end, and goes on from each state: it ends as the whole run does. Gives how many of
/// the states lie within the instruction, unless the run goes on for 60 attempts.
fn parts<R: Abort>(
    rt: &R,
    alloc: Global,
    instruction: &str,
    schedule: &str,
) -> Result<Option<u32>, Fail> {
    let source = format!(in alloc;
        ".PSECT CODE\nBEGIN: {instruction}\nHALT\n.PSECT DATA,PAGE\n.BLKB 100\nS: .BLKB 1100\nD: .BLKB 1100\n\
        T: .BLKB 256\nONES: .BYTE 1[256]\nP: .BYTE 1[3]\n.BLKB 2000\n.END BEGIN\n"
    )?;
    let line = format!(in alloc; "bare A{schedule}")?;
    let whole = call_over(alloc, &line, source.as_bytes())?;
    assert!(rt;
        whole.code == 0 && whole.report().starts_with(b"ENDING HALT\n"),
        "{instruction}"
    );
    let mut within = 0u32;
    for turns in (1..60u32).step_by(2) {
        let line = format!(in alloc; "save A --base bare --turns {turns}{schedule}")?;
        let saved = call_over(alloc, &line, source.as_bytes())?;
        if saved.code == 0 {
            assert!(rt; saved.report() == whole.report(), "{instruction}");
            return Ok(Some(within));
        }
        assert!(rt; saved.code == 8, "{instruction}");
        if !saved
            .report()
            .starts_with(b"ENDING TURNS\nSTEPS 0\nUNITS 0\n")
            && !saved.report().starts_with(b"ENDING TURNS\nSTEPS 1\n")
        {
            within = within.saturating_add(1);
        }
        let resumed = call(alloc, "resume STATE", saved.state())?;
        assert!(rt; resumed.code == 0, "{instruction}");
        assert!(rt; resumed.report() == whole.report(), "{instruction}");
    }
    Ok(None)
}

#[test]
fn each_part_of_a_string_is_saved(rt: HostRuntime) -> Result<(), Fail> {
    for instruction in INSTRUCTIONS {
        let within = parts(&rt, rt.alloc(), instruction, "")?;
        assert!(rt; within.unwrap_or(0) >= 2, "{instruction}");
    }
    Ok(())
}

#[test]
fn each_part_is_saved_under_a_schedule(rt: HostRuntime) -> Result<(), Fail> {
    let schedule = " --schedule SIXTH --frames 64";
    for instruction in INSTRUCTIONS {
        let within = parts(&rt, rt.alloc(), instruction, schedule)?;
        assert!(rt; within.unwrap_or(0) >= 2, "{instruction}");
    }
    Ok(())
}

#[test]
fn each_part_is_saved_whatever_it_finds(rt: HostRuntime) -> Result<(), Fail> {
    for instruction in OTHERS {
        let within = parts(&rt, rt.alloc(), instruction, "")?;
        assert!(rt; within.is_some(), "{instruction}");
    }
    Ok(())
}
