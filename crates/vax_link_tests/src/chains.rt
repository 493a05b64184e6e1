//! Names that lead through all modules.
use crate::link::{HERE, is_refused, joined, section, text};
use std::test::Fail;
use vax_image::Base;
use vax_link::*;
use vax_module::{ExternalName, Module, Reloc, RelocKind, Symbol, Value};
use vax_space::Bytes;

/// How many names of the chain each of the eight modules has.
const ROUNDS: u32 = 60;

/// The number of the last name.
const LAST: u32 = 8 * ROUNDS - 1;

/// A chain of names: N0 is N1 and 1 in the first module, N1 is N2 and 1 in the second, and so on.
#[derive(Drop)]
struct Chain {
    /// What the last is, if it is a number.
    number: Option<i64>,
    /// What the last is beside 1, if it is no number.
    beyond: &'static [u8],
    /// Whether that is weak.
    weak: bool,
    /// Whether each module has its last name first.
    descending: bool,
}

/// The name with a number.
fn name(rt: &HostRuntime, number: u32) -> Result<Bytes, Fail> {
    let name = format!(in rt.alloc(); "N{number}")?;
    text(rt, name.as_str().as_bytes())
}

/// The names of one of the eight modules of a chain.
fn names_of(
    rt: &HostRuntime,
    chain: &Chain,
    owner: u8,
) -> Result<(Vec<Symbol>, Vec<ExternalName>), Fail> {
    let mut globals = Vec::new(rt.alloc());
    let mut externals = Vec::new(rt.alloc());
    for index in 0..ROUNDS {
        let round = if chain.descending {
            ROUNDS - 1 - index
        } else {
            index
        };
        let number = 8 * round + u32::from(owner);
        let next = Value::External { index, offset: 1 };
        let value = match chain.number {
            Some(last) if number == LAST => Value::Absolute(last),
            _ => next,
        };
        globals.push(Symbol {
            name: name(rt, number)?,
            value,
        })?;
        externals.push(if number == LAST {
            ExternalName {
                name: text(rt, chain.beyond)?,
                weak: chain.weak,
            }
        } else {
            ExternalName {
                name: name(rt, number + 1)?,
                weak: false,
            }
        })?;
    }
    Ok((globals, externals))
}

/// One of the eight modules of a chain. The first has a longword with the value of its first external name.
fn part_of(rt: &HostRuntime, chain: &Chain, owner: u8) -> Result<Module, Fail> {
    let (globals, externals) = names_of(rt, chain, owner)?;
    let mut sections = Vec::new(rt.alloc());
    sections.push(section(rt, b"", 1, true, b"")?)?;
    let mut relocs = Vec::new(rt.alloc());
    let mut transfer = None;
    if owner == 0 {
        sections.push(section(rt, b"DATA", 1, true, &[0; 4])?)?;
        relocs.push(Reloc {
            section: 1,
            offset: 0,
            kind: RelocKind::Long,
            target: Value::External {
                index: 0,
                offset: 0,
            },
        })?;
        transfer = Some(Symbol {
            name: text(rt, b"BEGIN")?,
            value: HERE,
        });
    }
    Ok(Module {
        sections: sections.into(),
        globals: globals.into(),
        externals: externals.into(),
        relocs: relocs.into(),
        transfer,
    })
}

/// The modules of a chain, joined.
fn linked(rt: &HostRuntime, chain: &Chain) -> Result<Result<vax_image::Image, LinkError>, Fail> {
    let mut modules = Vec::new(rt.alloc());
    for owner in 0..8 {
        modules.push(part_of(rt, chain, owner)?)?;
    }
    joined(rt, &modules, Base::User)
}

#[test]
fn follows_names_through_all_modules(rt: HostRuntime) -> Result<(), Fail> {
    // The first external name is N1, and in the other order N473. From each name to the next it is 1 more.
    for (descending, number, beyond, bytes) in [
        (false, Some(7), b"N0".as_slice(), [0xE5, 1, 0, 0]),
        (true, Some(7), b"N0".as_slice(), [0x0D, 0, 0, 0]),
        (false, None, b"Z".as_slice(), [0xDF, 1, 0, 0]),
        (true, None, b"Z".as_slice(), [0x07, 0, 0, 0]),
    ] {
        let chain = Chain {
            number,
            beyond,
            weak: true,
            descending,
        };
        let image = linked(&rt, &chain)??;
        for area in image.areas.as_slice() {
            assert!(rt; area.bytes.as_slice() == bytes.as_slice());
        }
        assert!(rt; image.areas.as_slice().len() == 1);
    }
    Ok(())
}

#[test]
fn refuses_a_chain_that_ends_nowhere(rt: HostRuntime) -> Result<(), Fail> {
    for (descending, beyond, found) in [
        // Nothing defines Z.
        (false, b"Z".as_slice(), b"Z".as_slice()),
        (true, b"Z".as_slice(), b"Z".as_slice()),
        // All of them lead in a circle, or to one.
        (false, b"N0".as_slice(), b"N1".as_slice()),
        (true, b"N0".as_slice(), b"N473".as_slice()),
        (false, b"N479".as_slice(), b"N1".as_slice()),
        (false, b"N470".as_slice(), b"N1".as_slice()),
    ] {
        let chain = Chain {
            number: None,
            beyond,
            weak: false,
            descending,
        };
        assert!(rt; is_refused(&linked(&rt, &chain)?, 1, found));
    }
    Ok(())
}
