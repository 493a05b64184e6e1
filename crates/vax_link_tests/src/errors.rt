//! The texts that errors are shown with.
use std::alloc::Global;
use std::fmt::Display;
use std::process::Abort;
use std::test::Fail;
use vax_image::{ImageError, SHORT};
use vax_link::LinkError;
use vax_program::{ProgramError, Refusal};
use vax_space::Bytes;

/// The text of an error.
fn test_text<E: Display>(
    rt: &impl Abort,
    alloc: Global,
    error: &E,
    text: &str,
) -> Result<(), Fail> {
    let shown = format!(in alloc; "{error}")?;
    assert!(rt; shown.as_str() == text, "{text}: {shown}");
    Ok(())
}

/// A name that is defined nowhere, or twice.
fn name(alloc: Global) -> Result<Bytes, Fail> {
    Ok(Bytes::from(b"NAME".to_vec(alloc)?))
}

#[test]
fn tells_errors_of_images(rt: HostRuntime) -> Result<(), Fail> {
    let alloc = rt.alloc();
    let (place, kind) = (20, SHORT);
    let fault = ImageError::Fault { place, kind };
    test_text(&rt, alloc, &fault, "byte 20: fault 8")?;
    test_text(&rt, alloc, &ImageError::NoMemory, "out of memory")?;
    let rows = [
        (LinkError::Duplicate(name(alloc)?), "NAME is defined twice"),
        (
            LinkError::Undefined(name(alloc)?),
            "NAME is defined nowhere",
        ),
        (LinkError::Pages, "the sections have no room"),
        (LinkError::NoTransfer, "the program has no beginning"),
        (
            LinkError::Reach(0x201),
            "the field at 00000201 doesn't reach its target",
        ),
        (LinkError::NoMemory, "out of memory"),
    ];
    for (error, text) in &rows {
        test_text(&rt, alloc, error, *text)?;
    }
    Ok(())
}

/// Why files are no program, and what is said of it.
fn refusals(alloc: Global) -> Result<[(Refusal, &'static str); 3], Fail> {
    let source = Refusal::Source {
        file: 2,
        line: 17,
        kind: 5,
    };
    let link = Refusal::Link {
        kind: 1,
        name: name(alloc)?,
        address: 0,
    };
    let image = Refusal::Image { place: 8, kind: 4 };
    Ok([
        (source, "source 2 line 17 fault 5"),
        (link, "link fault 1"),
        (image, "image place 8 fault 4"),
    ])
}

#[test]
fn tells_errors_of_programs(rt: HostRuntime) -> Result<(), Fail> {
    let alloc = rt.alloc();
    for (refusal, text) in refusals(alloc)? {
        test_text(&rt, alloc, &refusal, text)?;
        test_text(&rt, alloc, &ProgramError::Refused(refusal), text)?;
    }
    test_text(&rt, alloc, &ProgramError::NoMemory, "out of memory")
}
