//! Sections as `.PSECT` and `.ALIGN` make them.
use std::test::Fail;
use vax_asm_sections::*;

const NOTHING_SAID: Attributes = Attributes {
    align: None,
    write: None,
    absolute: None,
    overlaid: None,
};

#[test]
fn builds_sections(rt: HostRuntime) -> Result<(), Fail> {
    let alloc = rt.alloc();
    let mut layout: Layout<u8> = Layout::new(alloc)?;
    layout.put(3, Piece::Bytes(b"abc".to_vec(alloc)?))?;
    let code = Attributes {
        align: Some(2),
        write: Some(false),
        absolute: None,
        overlaid: None,
    };
    layout.select(alloc, b"CODE", code)?;
    assert!(rt; layout.number() == 1);
    layout.put(1, Piece::Field(7))?;
    layout.align(3)?;
    assert!(rt; layout.current().size == 8);
    assert!(rt; layout.current().align == 3);
    layout.select(alloc, b"DATA", NOTHING_SAID)?;
    assert!(rt; layout.sections().len() == 3);
    // what `.ALIGN` made of it is not what was said first
    layout.select(alloc, b"CODE", code)?;
    assert!(rt; layout.number() == 1);
    let other = Attributes {
        align: Some(3),
        write: None,
        absolute: None,
        overlaid: None,
    };
    assert!(rt; layout.select(alloc, b"CODE", other) == Err(Refusal::Conflict));
    layout.select(alloc, b"CODE", NOTHING_SAID)?;
    assert!(rt; !layout.current().write);
    Ok(())
}

/// However many sections there are, each is found again, and the one without a name among them.
#[test]
fn finds_sections_by_their_names(rt: HostRuntime) -> Result<(), Fail> {
    let alloc = rt.alloc();
    let mut layout: Layout<u8> = Layout::new(alloc)?;
    for number in 0..100u8 {
        let name = [b'S', b'0' + number / 10, b'0' + number % 10];
        layout.select(alloc, &name, NOTHING_SAID)?;
        assert!(rt; layout.number() == 1 + number as usize);
    }
    layout.select(alloc, b"S42", NOTHING_SAID)?;
    assert!(rt; layout.number() == 43);
    layout.select(alloc, b"", NOTHING_SAID)?;
    assert!(rt; layout.number() == 0);
    assert!(rt; layout.sections().len() == 101);
    Ok(())
}

#[test]
fn refuses_what_is_too_long(rt: HostRuntime) -> Result<(), Fail> {
    let alloc = rt.alloc();
    let mut layout: Layout<u8> = Layout::new(alloc)?;
    layout.put(1_048_576, Piece::Zeros(1_048_576))?;
    assert!(rt; layout.put(1, Piece::Zeros(1)) == Err(Refusal::TooLong));
    assert!(rt; layout.align(9) == Ok(()));
    assert!(rt; layout.current().size == 1_048_576);
    Ok(())
}

/// An absolute section counts from 0 on. It has no bytes, holds no data and is aligned to nothing.
#[test]
fn counts_in_an_absolute_section(rt: HostRuntime) -> Result<(), Fail> {
    let alloc = rt.alloc();
    let mut layout: Layout<u8> = Layout::new(alloc)?;
    let absolute = Attributes {
        align: Some(2),
        write: None,
        absolute: Some(true),
        overlaid: None,
    };
    layout.select(alloc, b"OFFSETS", absolute)?;
    layout.put(5, Piece::Zeros(5))?;
    assert!(rt; layout.current().place() == 5);
    layout.align(3)?;
    assert!(rt; layout.current().place() == 8);
    assert!(rt; layout.current().size == 0);
    assert!(rt; layout.current().align == 0);
    assert!(rt; layout.current().pieces.is_empty());
    assert!(rt; layout.put(1, Piece::Field(7)) == Err(Refusal::Absolute));
    let empty = Piece::Bytes(b"".to_vec(alloc)?);
    assert!(rt; layout.put(0, empty) == Err(Refusal::Absolute));
    layout.select(alloc, b"", NOTHING_SAID)?;
    assert!(rt; layout.current().place() == 0);
    layout.select(alloc, b"OFFSETS", NOTHING_SAID)?;
    assert!(rt; layout.current().place() == 8);
    let relative = Attributes {
        align: None,
        write: None,
        absolute: Some(false),
        overlaid: None,
    };
    assert!(rt; layout.select(alloc, b"OFFSETS", relative) == Err(Refusal::Conflict));
    layout.select(alloc, b"DATA", relative)?;
    assert!(rt; layout.select(alloc, b"DATA", absolute) == Err(Refusal::Conflict));
    Ok(())
}

/// An overlaid section counts too and holds no data, but it is aligned. Of an absolute one `OVR` and `CON` say nothing.
#[test]
fn counts_in_an_overlaid_section(rt: HostRuntime) -> Result<(), Fail> {
    let alloc = rt.alloc();
    let mut layout: Layout<u8> = Layout::new(alloc)?;
    let overlaid = Attributes {
        overlaid: Some(true),
        ..NOTHING_SAID
    };
    let apart = Attributes {
        overlaid: Some(false),
        ..NOTHING_SAID
    };
    layout.select(alloc, b"SHARED", overlaid)?;
    layout.put(5, Piece::Zeros(5))?;
    layout.align(3)?;
    assert!(rt; layout.current().place() == 8);
    assert!(rt; layout.current().size == 0);
    assert!(rt; layout.current().align == 3);
    assert!(rt; layout.current().only_counts());
    assert!(rt; !layout.current().is_absolute());
    assert!(rt; layout.put(1, Piece::Field(7)) == Err(Refusal::Absolute));
    assert!(rt; layout.select(alloc, b"SHARED", apart) == Err(Refusal::Conflict));
    let absolute = Attributes {
        absolute: Some(true),
        ..overlaid
    };
    assert!(rt; layout.select(alloc, b"SHARED", absolute) == Err(Refusal::Conflict));
    layout.select(alloc, b"OFFSETS", absolute)?;
    assert!(rt; layout.current().is_absolute());
    layout.select(alloc, b"OFFSETS", apart)?;
    layout.select(alloc, b"DATA", NOTHING_SAID)?;
    assert!(rt; layout.select(alloc, b"DATA", overlaid) == Err(Refusal::Conflict));
    Ok(())
}

#[test]
fn goes_back_to_a_mark(rt: HostRuntime) -> Result<(), Fail> {
    let alloc = rt.alloc();
    let mut layout: Layout<u8> = Layout::new(alloc)?;
    layout.put(1, Piece::Zeros(1))?;
    layout.mark();
    layout.put(3, Piece::Bytes(b"abc".to_vec(alloc)?))?;
    layout.put(1, Piece::Field(7))?;
    assert!(rt; layout.go_back());
    assert!(rt; layout.current().size == 1);
    assert!(rt; layout.current().pieces.len() == 1);
    // The mark is gone.
    assert!(rt; !layout.go_back());
    // A section that only counts goes back to its place.
    let absolute = Attributes {
        align: None,
        write: None,
        absolute: Some(true),
        overlaid: None,
    };
    layout.select(alloc, b"OFFSETS", absolute)?;
    layout.put(4, Piece::Zeros(4))?;
    layout.mark();
    layout.put(2, Piece::Zeros(2))?;
    assert!(rt; layout.go_back());
    assert!(rt; layout.current().counter == Some(4));
    // What can't be undone drops the mark.
    layout.mark();
    layout.align(2)?;
    assert!(rt; !layout.is_marked());
    Ok(())
}
