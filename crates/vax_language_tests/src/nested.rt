//! Expressions with signs and brackets in one another, as many as a line holds.
use crate::lex::value;
use std::alloc::Global;
use std::process::Abort;
use std::test::Fail;
use vax_lex::{ExprError, Value};

/// An expression: so many times an opening, a middle, and so many times a closing.
#[derive(Drop)]
struct Row {
    opening: &'static str,
    openings: usize,
    middle: &'static str,
    closing: &'static str,
    closings: usize,
    value: Result<i64, ExprError>,
}

/// An expression with as many closings as openings.
fn closed(
    opening: &'static str,
    times: usize,
    middle: &'static str,
    closing: &'static str,
    value: Result<i64, ExprError>,
) -> Row {
    Row {
        opening,
        openings: times,
        middle,
        closing,
        closings: times,
        value,
    }
}

/// Rows with their values.
fn rows() -> [Row; 21] {
    [
        closed("<", 500, "1", ">", Ok(1)),
        closed("-<", 339, "1", ">", Ok(-1)),
        closed("-<", 340, "1", ">", Ok(1)),
        closed("^C<", 254, "5", ">", Ok(5)),
        closed("^C<", 255, "5", ">", Ok(-6)),
        closed("1+<", 250, "1", ">", Ok(251)),
        closed("<1+", 250, "1", ">", Ok(251)),
        closed("<", 250, "1", "+1>", Ok(251)),
        closed("<", 250, "1", ">+1", Ok(251)),
        closed("-<", 300, "L", ">", Err(ExprError::Form)),
        closed("-<", 300, "Z", ">", Err(ExprError::Unknown)),
        closed("-<", 300, "1/0", ">", Err(ExprError::Range)),
        closed("-", 1000, "5", "", Ok(5)),
        closed("-", 999, "5", "", Ok(-5)),
        closed("+", 1000, "5", "", Ok(5)),
        closed("^C", 501, "5", "", Ok(-6)),
        closed("-", 1000, "", "", Err(ExprError::Form)),
        closed("<", 1000, "1", "", Err(ExprError::Form)),
        closed("", 1000, "1", ">", Err(ExprError::Form)),
        Row {
            opening: "<",
            openings: 500,
            middle: "1",
            closing: ">",
            closings: 499,
            value: Err(ExprError::Form),
        },
        Row {
            opening: "<",
            openings: 499,
            middle: "1",
            closing: ">",
            closings: 500,
            value: Err(ExprError::Form),
        },
    ]
}

/// The text of a row.
fn text_of(alloc: Global, row: &Row) -> Result<String, Fail> {
    let mut text = String::new(alloc);
    for _ in 0..row.openings {
        text.push_str(row.opening)?;
    }
    text.push_str(row.middle)?;
    for _ in 0..row.closings {
        text.push_str(row.closing)?;
    }
    Ok(text)
}

/// Compares the value of a row with what it must be.
fn test_row(rt: &impl Abort, alloc: Global, row: &Row) -> Result<(), Fail> {
    let text = text_of(alloc, row)?;
    let wanted = row.value.map(Value::Absolute);
    let found = value(rt, alloc, text.as_str())?;
    assert!(rt; found == wanted, "{} {} times", row.opening, row.openings);
    Ok(())
}

#[test]
fn long_rows_of_signs_and_brackets_are_read(rt: HostRuntime) -> Result<(), Fail> {
    for row in rows().iter() {
        test_row(&rt, rt.alloc(), row)?;
    }
    Ok(())
}

#[test]
fn each_number_of_signs_and_brackets_is_read(rt: HostRuntime) -> Result<(), Fail> {
    for times in 0..70 {
        let sum = closed("1+<", times, "1", ">", Ok(1 + times as i64));
        test_row(&rt, rt.alloc(), &sum)?;
        let sign = if times % 2 == 0 { 5 } else { -5 };
        test_row(&rt, rt.alloc(), &closed("-", times, "5", "", Ok(sign)))?;
        test_row(&rt, rt.alloc(), &closed("-<", times, "5", ">", Ok(sign)))?;
    }
    Ok(())
}
