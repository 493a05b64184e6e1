//! Orders by the rules of their lines. Expected values are worked by hand.
use std::test::Fail;
use vax_order::{Line, Order, OrderError, default_order};

/// The fault of a text for so many processes: its line and kind, and 0 and 0 where it has none.
fn fault(rt: &HostRuntime, text: &[u8], jobs: u8) -> (u32, u8) {
    if text.len() > 1000 || jobs > 8 {
        return (0, 9);
    }
    match Order::read(rt.alloc(), text, jobs) {
        Ok(_) => (0, 0),
        Err(OrderError::Fault { line, kind }) => (line, kind),
        Err(OrderError::NoMemory) => (0, 9),
    }
}

#[test]
fn tells_the_first_fault(rt: HostRuntime) -> Result<(), Fail> {
    let rows = [
        ("1 1\n2 1\n", 0, 0),
        ("; both\n\n2 1000000000\r\n1 7", 0, 0),
        ("1 1", 2, 3),
        ("1 1\n", 2, 3),
        ("2 1\n; one\n", 3, 3),
        ("", 1, 3),
        ("3 1\n1 1", 1, 2),
        ("0 1\n1 1\n2 1", 1, 2),
        ("99999999999999999999 1", 1, 2),
        ("1 1\n3 1\n4", 2, 2),
        ("3 0", 1, 1),
        ("0 0", 1, 1),
        ("1 0", 1, 1),
        ("1 1000000001", 1, 1),
        ("01 1", 1, 1),
        ("1 01", 1, 1),
        ("1", 1, 1),
        ("1 1 1", 1, 1),
        ("x 1", 1, 1),
        (" 1 1", 1, 1),
        ("1 1 ", 1, 1),
        ("1\t1", 1, 1),
        ("2 1\n1 1 ; late", 2, 1),
    ];
    for (text, line, kind) in rows {
        assert!(rt; fault(&rt, text.as_bytes(), 2) == (line, kind), "{text}");
    }
    Ok(())
}

#[test]
fn keeps_the_lines(rt: HostRuntime) -> Result<(), Fail> {
    let order = Order::read(rt.alloc(), b"2 3\n;\n1 1\n2 5\n", 2);
    let want = [
        Line { job: 1, count: 3 },
        Line { job: 0, count: 1 },
        Line { job: 1, count: 5 },
    ];
    assert!(rt; matches!(&order, Ok(order) if order.lines() == want.as_slice()));
    Ok(())
}

#[test]
fn lets_each_go_in_turn(rt: HostRuntime) -> Result<(), Fail> {
    assert!(rt; default_order(2) == b"1 1\n2 1\n".as_slice());
    assert!(rt; fault(&rt, default_order(8), 8) == (0, 0));
    Ok(())
}

#[test]
fn tells_errors(rt: HostRuntime) -> Result<(), Fail> {
    let alloc = rt.alloc();
    let shown = format!(in alloc; "{}", OrderError::Fault { line: 12, kind: 3 })?;
    assert!(rt; shown.as_str() == "order line 12: fault 3");
    let shown = format!(in alloc; "{}", OrderError::NoMemory)?;
    assert!(rt; shown.as_str() == "out of memory");
    Ok(())
}
