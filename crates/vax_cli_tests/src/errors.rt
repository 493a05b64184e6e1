//! The texts that errors of words are shown with.
use std::alloc::Global;
use std::fmt::Display;
use std::process::Abort;
use std::test::Fail;
use vax_cli::WordsError;

/// The text of an error.
fn test_text<E: Display>(
    rt: &impl Abort,
    alloc: Global,
    error: &E,
    text: &str,
) -> Result<(), Fail> {
    let shown = format!(in alloc; "{error}")?;
    assert!(rt; shown.as_str() == text, "{text}: {shown}");
    Ok(())
}

#[test]
fn tells_errors_of_words(rt: HostRuntime) -> Result<(), Fail> {
    let alloc = rt.alloc();
    let usage = "these are no words of a command";
    test_text(&rt, alloc, &WordsError::Usage, usage)?;
    test_text(&rt, alloc, &WordsError::NoMemory, "out of memory")
}
