//! Lines as they are read.
use std::test::Fail;
use vax_lines::next_line;
use vax_script::{Line, Request, read_line};

/// What a line asks for, in a word and two numbers.
fn asked(line: &[u8]) -> Option<(&str, u64, u64)> {
    let Line::Request(request) = read_line(line) else {
        return None;
    };
    Some(match &request {
        Request::ExamineRegister(register) => ("register", u64::from(*register), 0),
        Request::ExamineMemory { addr, count } => ("memory", u64::from(*addr), u64::from(*count)),
        Request::DepositRegister { register, value } => {
            ("other register", u64::from(*register), u64::from(*value))
        }
        Request::DepositMemory { addr, .. } => ("other memory", u64::from(*addr), 0),
        Request::Next(steps) => ("next", *steps, 0),
        Request::Continue => ("continue", 0, 0),
        Request::Show => ("show", 0, 0),
    })
}

#[test]
fn reads_requests(rt: HostRuntime) {
    let rows = [
        ("EXAMINE R1", ("register", 1, 0)),
        ("examine R15", ("register", 15, 0)),
        ("Examine  R0", ("register", 0, 0)),
        ("EXAMINE 800003FE", ("memory", 0x8000_03FE, 4)),
        ("EXAMINE 800003fe 16", ("memory", 0x8000_03FE, 16)),
        ("DEPOSIT R10 FFFFFFFF", ("other register", 10, 0xFFFF_FFFF)),
        ("NEXT", ("next", 1, 0)),
        ("next 1000000000000000", ("next", 1_000_000_000_000_000, 0)),
        ("CONTINUE", ("continue", 0, 0)),
        ("sHOW", ("show", 0, 0)),
    ];
    for (line, want) in rows {
        assert!(rt; asked(line.as_bytes()) == Some(want), "{line}");
    }
}

#[test]
fn reads_bytes(rt: HostRuntime) {
    let Line::Request(Request::DepositMemory { addr, bytes }) = read_line(
        b"DEPOSIT 800003FE 01aBFf",
    ) else {
        assert!(rt; false);
        return;
    };
    assert!(rt; addr == 0x8000_03FE);
    assert!(rt; bytes.as_slice() == [1u8, 0xAB, 0xFF].as_slice());
}

#[test]
fn refuses_other_lines(rt: HostRuntime) {
    let lines = [
        "BOGUS",
        "EXAMINE",
        "EXAMINE R16",
        "EXAMINE R01",
        "EXAMINE r1",
        "EXAMINE R1 4",
        "EXAMINE 8000 4",
        "EXAMINE 800003FE 17",
        "EXAMINE 800003FE 0",
        "EXAMINE 800003FE 04",
        "EXAMINE 800003FE 4 4",
        "DEPOSIT R1",
        "DEPOSIT R1 0",
        "DEPOSIT 800003FE 0",
        "DEPOSIT 800003FE 0G",
        "DEPOSIT 800003FE 01 02",
        "NEXT 0",
        "NEXT 1000000000000001",
        "NEXT 1 1",
        "CONTINUE 1",
        "SHOW\t",
        " SHOW",
        "SHOW ",
        "SHOW\r",
    ];
    for line in lines {
        assert!(rt;
            matches!(read_line(line.as_bytes()), Line::Malformed),
            "{line}"
        );
    }
    for line in ["", " \t"] {
        assert!(rt; matches!(read_line(line.as_bytes()), Line::Blank), "{line}");
    }
}

#[test]
fn goes_over_lines(rt: HostRuntime) -> Result<(), Fail> {
    let mut rest: &[u8] = b"SHOW\r\n\nNEXT\r";
    for want in [b"SHOW".as_slice(), b"", b"NEXT\r"] {
        let Some((line, behind)) = next_line(rest) else {
            assert!(rt; false);
            return Ok(());
        };
        assert!(rt; line == want);
        rest = behind;
    }
    assert!(rt; next_line(rest).is_none());
    Ok(())
}
