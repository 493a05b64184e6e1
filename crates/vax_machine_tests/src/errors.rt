//! The texts that errors are shown with.
use std::test::Fail;
use vax_pager::PageFault;
use vax_sched::SchedError;

#[test]
fn tells_errors(rt: HostRuntime) -> Result<(), Fail> {
    let alloc = rt.alloc();
    let rows = [
        (
            SchedError::Fault { line: 12, kind: 3 },
            "schedule line 12: fault 3",
        ),
        (SchedError::NoMemory, "out of memory"),
    ];
    for (error, text) in rows {
        let shown = format!(in alloc; "{error}")?;
        assert!(rt; shown.as_str() == text, "{text}: {shown}");
    }
    let shown = format!(in alloc; "{}", PageFault)?;
    assert!(rt; shown.as_str() == "a call of the page file failed");
    Ok(())
}
