//! Steps that are chosen by opcode, seed and number.
use std::alloc::Global;
use std::test::Fail;
use vax_vector_cases::{Case, PAGES, start_of};
use vax_vector_runs::Workbench;
use vax_vectors::{Ends, Vector};

/// The vector of a case.
fn made(
    alloc: Global,
    bench: &mut Workbench,
    case: Case,
    absent: Vec<u32>,
) -> Result<Vector, Fail> {
    let mut start = start_of(alloc, case)?;
    start.absent = absent;
    Ok(bench.vector_of(Vec::new(alloc), start)?)
}

/// The pages of what a step read and wrote, each once, in the order in which they come.
fn pages_of(alloc: Global, told: &Vector) -> Result<Vec<u32>, Fail> {
    let mut pages = Vec::new(alloc);
    for touch in &told.end.touches {
        let mut addr = touch.addr;
        for _ in touch.bytes.as_slice() {
            if !pages.contains(&(addr / 512)) {
                pages.push(addr / 512)?;
            }
            addr = addr.wrapping_add(1);
        }
    }
    Ok(pages)
}

#[test]
fn what_is_kept_goes_through_the_pages_in_order(rt: HostRuntime) -> Result<(), Fail> {
    let alloc = rt.alloc();
    let mut bench = Workbench::new(alloc, &PAGES)?;
    let mut completed = 0u32;
    for opcode in 0..=255 {
        let case = Case {
            opcode,
            seed: 1,
            number: u32::from(opcode / 3),
            mode: opcode % 4,
        };
        let told = made(alloc, &mut bench, case, Vec::new(alloc))?;
        if let Ends::Step(_) | Ends::Part { .. } = told.end.ends {
            completed = completed.wrapping_add(1);
            assert_eq!(rt;
                pages_of(alloc, &told)?.as_slice(),
                told.touched.as_slice(),
                "opcode {opcode}"
            );
        }
    }
    assert!(rt; completed >= 230, "completed {completed}");
    Ok(())
}

#[test]
fn each_touched_page_may_be_absent(rt: HostRuntime) -> Result<(), Fail> {
    let alloc = rt.alloc();
    let mut bench = Workbench::new(alloc, &PAGES)?;
    for eighth in 0..32 {
        let case = Case {
            opcode: 8 * eighth + eighth % 8,
            seed: 2,
            number: 3,
            mode: 0,
        };
        let told = made(alloc, &mut bench, case, Vec::new(alloc))?;
        for page in &told.touched {
            let without = made(alloc, &mut bench, case, Vec::from_array(alloc, [*page])?)?;
            assert!(rt;
                without.end.ends == Ends::Absent(*page),
                "opcode {} page {page}",
                case.opcode
            );
        }
    }
    Ok(())
}
