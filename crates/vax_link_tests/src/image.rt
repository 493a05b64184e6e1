//! Images of both versions, byte for byte, and what is wrong with others.
use std::test::Fail;
use vax_image::*;

/// A program of four bytes at 80000200 that begins there, in version 1.
const FIRST: [u8; 36] = [
    0x56, 0x41, 0x58, 0x49, 1, 0, 0, 0, 0x00, 0x02, 0x00, 0x80, 1, 0, 0, 0, 0x01, 0x00, 0x40, 0, 1,
    0, 0, 0, 14, 0, 0, 0, 4, 0, 0, 0, 0xD0, 0x05, 0x51, 0x00,
];

/// The same in version 2: the count of texts before that of areas, the text, and its number in place of a length.
const SECOND: [u8; 44] = [
    0x56, 0x41, 0x58, 0x49, 2, 0, 0, 0, 0x00, 0x02, 0x00, 0x80, 1, 0, 0, 0, 1, 0, 0, 0, 4, 0, 0, 0,
    0xD0, 0x05, 0x51, 0x00, 0x01, 0x00, 0x40, 0, 1, 0, 0, 0, 14, 0, 0, 0, 0, 0, 0, 0,
];

#[test]
fn reads_and_writes_both_versions(rt: HostRuntime) -> Result<(), Fail> {
    let image = read(rt.alloc(), &FIRST)?;
    assert!(rt; image.base == Base::Bare);
    assert!(rt; image.transfer == 0x8000_0200);
    assert!(rt; write(rt.alloc(), &image)?.as_slice() == FIRST.as_slice());
    assert!(rt; write2(rt.alloc(), &image)?.as_slice() == SECOND.as_slice());
    let image = read(rt.alloc(), &SECOND)?;
    assert!(rt; write(rt.alloc(), &image)?.as_slice() == FIRST.as_slice());
    Ok(())
}

/// What is wrong with a file of which one byte has another value.
fn fault_with(
    rt: &HostRuntime,
    file: &[u8],
    place: usize,
    byte: u8,
) -> Result<Option<(u32, u8)>, Fail> {
    let mut bytes = Vec::from_slice(rt.alloc(), file)?;
    if let Some(cell) = bytes.get_mut(place) {
        *cell = byte;
    }
    Ok(match read(rt.alloc(), &bytes) {
        Err(ImageError::Fault { place, kind }) => Some((place, kind)),
        _ => None,
    })
}

#[test]
fn tells_the_first_fault(rt: HostRuntime) -> Result<(), Fail> {
    for (place, byte, fault) in [
        (3, 0, (0, MAGIC)),
        (4, 3, (4, VERSION)),
        (6, 2, (6, BASE)),
        (12, 0, (12, COUNT)),
        (12, 65, (12, COUNT)),
        (20, 0, (16, AREA)),
        (18, 0x3F, (16, AREA)),
        (24, 1, (24, PROTECTION)),
        (24, 16, (24, PROTECTION)),
        (29, 2, (28, LENGTH)),
        (28, 5, (32, SHORT)),
        (28, 3, (35, REST)),
        (9, 0, (8, TRANSFER)),
    ] {
        assert!(rt;
            fault_with(&rt, &FIRST, place, byte)? == Some(fault),
            "at {place}"
        );
    }
    for (place, byte, fault) in [
        (12, 2, (32, SHORT)),
        (12, 0, (20, AREA)),
        (20, 0, (20, LENGTH)),
        (40, 1, (40, TEXT)),
        (40, 0xFF, (40, TEXT)),
        (28, 2, (8, TRANSFER)),
    ] {
        assert!(rt;
            fault_with(&rt, &SECOND, place, byte)? == Some(fault),
            "at {place}"
        );
    }
    Ok(())
}

/// A user's program of two areas with the byte 7 each, of a protection code, in version 1.
fn two_areas(rt: &HostRuntime, prot: u8) -> Result<Vec<u8>, Fail> {
    let file = [
        0x56, 0x41, 0x58, 0x49, 1, 0, 1, 0, 0, 2, 0, 0, 2, 0, 0, 0, 1, 0, 0, 0, 1, 0, 0, 0, prot,
        0, 0, 0, 1, 0, 0, 0, 7, 2, 0, 0, 0, 1, 0, 0, 0, prot, 0, 0, 0, 1, 0, 0, 0, 7,
    ];
    Ok(Vec::from_slice(rt.alloc(), &file)?)
}

/// In version 2 read-only areas share their bytes, and writable ones don't: 20 bytes, 5 for each text, 16 for each area.
#[test]
fn shares_texts_of_read_only_areas(rt: HostRuntime) -> Result<(), Fail> {
    for (prot, len) in [(15, 57), (4, 62)] {
        let file = two_areas(&rt, prot)?;
        let image = read(rt.alloc(), &file)?;
        let shared = write2(rt.alloc(), &image)?;
        assert!(rt; shared.len() == len);
        let image = read(rt.alloc(), &shared)?;
        assert!(rt; write(rt.alloc(), &image)?.as_slice() == file.as_slice());
    }
    Ok(())
}

#[test]
fn starts_a_system(rt: HostRuntime) -> Result<(), Fail> {
    let image = read(rt.alloc(), &FIRST)?;
    match image.base {
        Base::User => return Err("the base is bare".into()),
        Base::Bare => {}
    }
    let (space, core) = start(rt.alloc(), &image, None)?;
    assert!(rt; space.areas().len() == 7);
    assert!(rt; space.initial(0x40_0001, 0) == Some(0xD0));
    assert!(rt; space.initial(0x40_0000, 4) == Some(2));
    assert!(rt; core.regs[15] == 0x8000_0200);
    Ok(())
}
