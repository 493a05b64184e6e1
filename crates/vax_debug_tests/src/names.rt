//! Tests of symbols. Expected values are worked by hand.
use std::alloc::{AllocError, Global};
use std::test::Fail;
use vax_debug_names::{Near, Symbol, is_too_large, nearest, number_of};

/// An address of a section that ends at 230.
fn place(alloc: Global, name: &[u8], value: u32) -> Result<Symbol, AllocError> {
    Ok(Symbol {
        name: Vec::from_slice(alloc, name)?.into(),
        value,
        is_place: true,
        reach: 0x230u32.saturating_sub(value),
    })
}

/// A number.
fn number(alloc: Global, name: &[u8], value: u32) -> Result<Symbol, AllocError> {
    Ok(Symbol {
        name: Vec::from_slice(alloc, name)?.into(),
        value,
        is_place: false,
        reach: 0,
    })
}

/// Five symbols: two of one address, a number, a place above, and the section's end.
fn symbols(alloc: Global) -> Result<Vec<Symbol>, AllocError> {
    let mut symbols = Vec::new(alloc);
    symbols.push(place(alloc, b"START", 0x200)?)?;
    symbols.push(place(alloc, b"AGAIN", 0x200)?)?;
    symbols.push(number(alloc, b"SIZE", 0x208)?)?;
    symbols.push(place(alloc, b"ADD", 0x220)?)?;
    symbols.push(place(alloc, b"END", 0x230)?)?;
    Ok(symbols)
}

#[test]
fn finds_names(rt: HostRuntime) -> Result<(), Fail> {
    let symbols = symbols(rt.alloc())?;
    assert!(rt; number_of(&symbols, b"START") == Some(0x200));
    assert!(rt; number_of(&symbols, b"SIZE") == Some(0x208));
    assert!(rt; number_of(&symbols, b"ADD") == Some(0x220));
    assert!(rt; number_of(&symbols, b"0ADD") == Some(0xADD));
    assert!(rt; number_of(&symbols, b"FEED") == Some(0xFEED));
    assert!(rt; number_of(&symbols, b"NONE").is_none());
    assert!(rt; number_of(&[], b"ADD") == Some(0xADD));
    assert!(rt; number_of(&symbols, b"0DEADBEEF") == Some(0xDEAD_BEEF));
    assert!(rt; number_of(&symbols, b"00000000001") == Some(1));
    assert!(rt; number_of(&symbols, b"100000000").is_none());
    Ok(())
}

/// A name that nothing has isn't a large number, and a symbol's isn't either.
#[test]
fn tells_large_numbers(rt: HostRuntime) -> Result<(), Fail> {
    let symbols = symbols(rt.alloc())?;
    assert!(rt; is_too_large(&symbols, b"100000000"));
    assert!(rt; !is_too_large(&symbols, b"FFFFFFFF"));
    assert!(rt; !is_too_large(&symbols, b"ADD"));
    assert!(rt; !is_too_large(&symbols, b"NONE"));
    Ok(())
}

#[test]
fn names_addresses(rt: HostRuntime) -> Result<(), Fail> {
    let symbols = symbols(rt.alloc())?;
    assert!(rt; nearest(&symbols, 0x1FF).is_none());
    assert!(rt;
        nearest(&symbols, 0x200)
            == Some(Near {
                index: 0,
                distance: 0
            })
    );
    assert!(rt;
        nearest(&symbols, 0x21F)
            == Some(Near {
                index: 0,
                distance: 0x1F
            })
    );
    assert!(rt;
        nearest(&symbols, 0x224)
            == Some(Near {
                index: 3,
                distance: 4
            })
    );
    assert!(rt; nearest(&[], 0x224).is_none());
    Ok(())
}

/// The section has bytes up to 22F, and 230 has a name of its own.
#[test]
fn names_reach_to_their_section_s_end(rt: HostRuntime) -> Result<(), Fail> {
    let symbols = symbols(rt.alloc())?;
    assert!(rt;
        nearest(&symbols, 0x22F)
            == Some(Near {
                index: 3,
                distance: 0xF
            })
    );
    assert!(rt;
        nearest(&symbols, 0x230)
            == Some(Near {
                index: 4,
                distance: 0
            })
    );
    assert!(rt; nearest(&symbols, 0x231).is_none());
    assert!(rt; nearest(&symbols, 0x8000_0220).is_none());
    Ok(())
}
