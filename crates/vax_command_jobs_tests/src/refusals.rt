//! Calls that are refused: each tells the first fault.
use crate::calls::call;
use std::process::Abort;
use std::test::Fail;

#[test]
fn an_order_is_refused_by_its_first_fault(rt: HostRuntime) -> Result<(), Fail> {
    let alloc = rt.alloc();
    let rows: [(&[u8], &[u8]); 8] = [
        (b"1 1\n", b"vax: order line 2 fault 3\n"),
        (b"3 1\n", b"vax: order line 1 fault 2\n"),
        (b"0 1\n", b"vax: order line 1 fault 2\n"),
        (b"1 1\n2 0\n", b"vax: order line 2 fault 1\n"),
        (b"1 1\n2 1000000001\n", b"vax: order line 2 fault 1\n"),
        (b"1 1\n\n2 1 1\n", b"vax: order line 3 fault 1\n"),
        (b"", b"vax: order line 1 fault 3\n"),
        (b"; 2 1\n1 1\n\n", b"vax: order line 4 fault 3\n"),
    ];
    for (order, line) in rows {
        let left = call(alloc, "jobs W W --input I --order O", order)?;
        assert!(rt; left.code == 13 && left.out() == b"".as_slice());
        assert!(rt; left.report() == line);
    }
    Ok(())
}

#[test]
fn words_are_refused(rt: HostRuntime) -> Result<(), Fail> {
    let alloc = rt.alloc();
    let lines = [
        "jobs",
        "jobs W W --pool 127",
        "jobs W --pool 63",
        "jobs W --pool 32769",
        "jobs W W W W W W W W W",
        "jobs W --turns 0",
        "jobs W --frames 64",
        "jobs W --schedule O",
        "jobs W --dump 0:1",
        "jobs W --order",
        "jobs W --order O --order O",
        "run W --pool 64",
        "run W --order O",
    ];
    for line in lines {
        let left = call(alloc, line, b"1 1\n")?;
        assert!(rt; left.code == 1 && left.report() == b"vax: usage\n".as_slice());
    }
    Ok(())
}

/// The files in their order, then the input and the order; then each source, and the order last.
#[test]
fn the_first_refusal_is_told(rt: HostRuntime) -> Result<(), Fail> {
    let alloc = rt.alloc();
    let rows: [(&str, u8, &[u8]); 6] = [
        ("jobs W NONE --order O", 2, b"vax: missing NONE\n"),
        ("jobs F --input NONE --order NO", 2, b"vax: missing NONE\n"),
        ("jobs F --input I --order NO", 2, b"vax: missing NO\n"),
        ("jobs W F --order O", 4, b"vax: source 2 line 2 fault 2\n"),
        ("jobs F W --order O", 4, b"vax: source 1 line 2 fault 2\n"),
        ("jobs W W --order O", 13, b"vax: order line 1 fault 1\n"),
    ];
    for (line, code, text) in rows {
        let left = call(alloc, line, b"1 x\n")?;
        assert!(rt; left.code == code && left.report() == text);
    }
    Ok(())
}
