//! What rows of sources are to come to.
use std::alloc::Global;
use std::process::Abort;
use std::test::Fail;
use vax_asm::{AsmError, assemble};
use vax_dialect::Dialect;
use vax_module::Module;

/// The line and the kind of a fault, by its number.
pub(crate) type Wanted = (u32, u8);

/// The bytes of the section without a name.
pub(crate) fn bytes_of(module: &Module) -> &[u8] {
    match module.sections.as_slice().first() {
        Some(found) => found.bytes.as_slice(),
        None => &[],
    }
}

/// The line and the kind of the first fault, by its number; zeros where there is none.
pub(crate) fn fault_of(alloc: Global, dialect: Dialect, source: &str) -> Wanted {
    match assemble(alloc, dialect, source.as_bytes()) {
        Err(AsmError::Fault { line, kind }) => (line, kind.code()),
        _ => (0, 0),
    }
}

/// Each source gives these bytes in the larger dialect, and has this fault in the smaller one.
pub(crate) fn differ<R: Abort>(
    rt: &R,
    alloc: Global,
    rows: &[(&str, &[u8], Wanted)],
) -> Result<(), Fail> {
    for (source, bytes, fault) in rows {
        let module = assemble(alloc, Dialect::Vms, source.as_bytes())?;
        assert!(rt; bytes_of(&module) == *bytes, "{source}");
        assert!(rt; fault_of(alloc, Dialect::Vax, source) == *fault, "{source}");
    }
    Ok(())
}

/// Each source gives these bytes in the larger dialect.
pub(crate) fn give<R: Abort>(rt: &R, alloc: Global, rows: &[(&str, &[u8])]) -> Result<(), Fail> {
    for (source, bytes) in rows {
        let module = assemble(alloc, Dialect::Vms, source.as_bytes())?;
        assert!(rt; bytes_of(&module) == *bytes, "{source}");
    }
    Ok(())
}

/// Each source has this fault in a dialect.
pub(crate) fn are_faulty<R: Abort>(
    rt: &R,
    alloc: Global,
    dialect: Dialect,
    rows: &[(&str, Wanted)],
) {
    for (source, fault) in rows {
        assert!(rt; fault_of(alloc, dialect, source) == *fault, "{source}");
    }
}
