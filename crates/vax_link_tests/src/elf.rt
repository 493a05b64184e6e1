//! Executables: what is loaded of them, and the fault of each cut and of each byte of their headers.
use std::test::Fail;
use vax_elf::*;
use vax_image::{Base, Image};

/// A user's program that begins at 200 (hexadecimal): 200 bytes to be read from there on, and behind them 400 to be written, which have 600
/// in memory. The file has 800, from 200 on those of the two.
const HEADERS: [u8; 116] = [
    0x7F, 0x45, 0x4C, 0x46, 1, 1, 1, 0, 0, 0, 0, 0, 0, 0, 0, 0, 2, 0, 75, 0, 1, 0, 0, 0, 0, 2, 0,
    0, 52, 0, 0, 0, 0, 0, 0, 0, 0, 0, 0, 0, 52, 0, 32, 0, 2, 0, 0, 0, 0, 0, 0, 0, //
    1, 0, 0, 0, 0, 2, 0, 0, 0, 2, 0, 0, 0, 2, 0, 0, 0, 2, 0, 0, 0, 2, 0, 0, 5, 0, 0, 0, 0, 2, 0, 0, //
    1, 0, 0, 0, 0, 4, 0, 0, 0, 4, 0, 0, 0, 4, 0, 0, 0, 4, 0, 0, 0, 6, 0, 0, 6, 0, 0, 0, 0, 2, 0, 0,
];

/// The fault of a file in which one of the bytes from the first place to the last is turned: its place and its number. Turning any other
/// byte of the headers leaves an executable.
const FAULTS: [(usize, usize, u32, u8); 31] = [
    (4, 4, 4, 20),
    (5, 5, 5, 21),
    (6, 6, 6, 22),
    (16, 17, 16, 23),
    (18, 19, 18, 24),
    (20, 23, 20, 22),
    (25, 26, 24, 33),
    (27, 27, 60, 31),
    (28, 28, 44, 26),
    (29, 31, 28, 27),
    (40, 41, 40, 25),
    (42, 43, 42, 25),
    (44, 45, 44, 26),
    (52, 55, 24, 33),
    (56, 57, 80, 30),
    (58, 59, 56, 27),
    (60, 61, 80, 30),
    (62, 62, 92, 32),
    (63, 63, 60, 31),
    (68, 71, 68, 29),
    (72, 74, 92, 32),
    (75, 75, 60, 31),
    (80, 83, 80, 30),
    (88, 89, 112, 30),
    (90, 91, 88, 27),
    (92, 93, 112, 30),
    (95, 95, 92, 31),
    (100, 100, 88, 27),
    (101, 103, 100, 29),
    (107, 107, 92, 31),
    (112, 115, 112, 30),
];

/// The file, of which one byte is turned.
fn file_with(rt: &HostRuntime, place: Option<usize>) -> Result<Vec<u8>, Fail> {
    let mut file = Vec::from_slice(rt.alloc(), &HEADERS)?;
    file.resize(0x200, 0)?;
    for i in 0..0x600_u32 {
        file.push((i % 251) as u8)?;
    }
    if let Some(cell) = place.and_then(|place| file.get_mut(place)) {
        *cell ^= 0xFF;
    }
    Ok(file)
}

/// The place and the number of a file's fault.
fn fault_of(rt: &HostRuntime, file: &[u8]) -> Option<(u32, u8)> {
    match read(rt.alloc(), file) {
        Err(ElfError::Fault { place, kind }) => Some((place, kind.code())),
        _ => None,
    }
}

/// Whether an image has the two areas, with these bytes of the file.
fn has_areas(image: &Image, file: &[u8]) -> bool {
    let [text, data] = image.areas.as_slice() else {
        return false;
    };
    let (Some(first), Some(second)) = (file.get(0x200..0x400), file.get(0x400..)) else {
        return false;
    };
    text.first == 1
        && text.pages == 1
        && text.prot == 15
        && text.bytes.as_slice() == first
        && data.first == 2
        && data.pages == 3
        && data.prot == 4
        && data.bytes.as_slice() == second
}

#[test]
fn loads_segments(rt: HostRuntime) -> Result<(), Fail> {
    let file = file_with(&rt, None)?;
    assert!(rt; is_executable(&file));
    assert!(rt; !is_executable(&file[1..]));
    let image = read(rt.alloc(), &file)?;
    assert!(rt; image.base == Base::User);
    assert!(rt; image.transfer == 0x200);
    assert!(rt; has_areas(&image, &file));
    Ok(())
}

#[test]
fn tells_where_it_is_cut(rt: HostRuntime) -> Result<(), Fail> {
    let file = file_with(&rt, None)?;
    for len in 0..file.len() {
        let place = match len {
            0..52 => 0,
            52..116 => 28,
            116..0x400 => 56,
            _ => 88,
        };
        assert!(rt;
            fault_of(&rt, &file[..len]) == Some((place, 27)),
            "cut at {len}"
        );
    }
    Ok(())
}

#[test]
fn tells_which_byte_is_turned(rt: HostRuntime) -> Result<(), Fail> {
    for place in 4..HEADERS.len() {
        let file = file_with(&rt, Some(place))?;
        let fault = FAULTS
            .iter()
            .find(|row| row.0 <= place && place <= row.1)
            .map(|row| (row.2, row.3));
        assert!(rt; fault_of(&rt, &file) == fault, "turned at {place}");
    }
    Ok(())
}

#[test]
fn changes_one_byte_alone(rt: HostRuntime) -> Result<(), Fail> {
    for place in 0x200..0x800 {
        let file = file_with(&rt, Some(place))?;
        let image = read(rt.alloc(), &file)?;
        assert!(rt; has_areas(&image, &file), "turned at {place}");
    }
    Ok(())
}

/// The second segment is 0 throughout: it has no bytes in the file, and an offset behind the file's end, as linkers write it.
#[test]
fn loads_zeros_that_no_file_has(rt: HostRuntime) -> Result<(), Fail> {
    let mut file = file_with(&rt, None)?;
    file.truncate(0x400);
    for (place, byte) in [(89, 0x14), (101, 0)] {
        if let Some(cell) = file.get_mut(place) {
            *cell = byte;
        }
    }
    let image = read(rt.alloc(), &file)?;
    assert!(rt;
        matches!(image.areas.as_slice(), [_, data]
            if data.first == 2 && data.pages == 3 && data.bytes.as_slice().is_empty())
    );
    Ok(())
}

#[test]
fn refuses_an_interpreter(rt: HostRuntime) -> Result<(), Fail> {
    let mut file = file_with(&rt, None)?;
    if let Some(cell) = file.get_mut(84) {
        *cell = 3;
    }
    assert!(rt; fault_of(&rt, &file) == Some((84, 28)));
    Ok(())
}
