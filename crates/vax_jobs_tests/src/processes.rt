//! Several processes.
use std::test::Fail;
use vax_jobs::{Jobs, JobsError};

#[test]
fn there_are_one_to_eight_processes(rt: HostRuntime) -> Result<(), Fail> {
    let none = Vec::new(rt.alloc());
    assert!(rt; matches!(&Jobs::new(rt.alloc(), none, 64), Err(JobsError::Count)));
    Ok(())
}
