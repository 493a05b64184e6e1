// Sections that modules lay over one another.
use crate::link::{HERE, is_refused, joined, module, section, text};
use std::test::Fail;
use vax_image::{Base, Image, read, write, write2};
use vax_link::addresses;
use vax_module::{Module, Section};

/// An overlaid part of a section.
fn overlaid(rt: &HostRuntime, name: &[u8], storage: u32) -> Result<Section, Fail> {
    Ok(Section {
        name: text(rt, name)?,
        align: 4,
        write: true,
        bytes: text(rt, b"")?,
        storage,
    })
}

/// A program of one byte, and a module for each of these parts.
fn program(rt: &HostRuntime, parts: Vec<Section>) -> Result<Vec<Module>, Fail> {
    let mut modules = Vec::new(rt.alloc());
    let code = section(rt, b"CODE", 1, false, &[0])?;
    modules.push(module(rt, code, Some(HERE), None, None, None)?)?;
    for part in parts {
        modules.push(module(rt, part, None, None, None, None)?)?;
    }
    Ok(modules)
}

/// A program beside one overlaid part.
fn program_with(rt: &HostRuntime, name: &[u8], storage: u32) -> Result<Vec<Module>, Fail> {
    let mut parts = Vec::new(rt.alloc());
    parts.push(overlaid(rt, name, storage)?)?;
    program(rt, parts)
}

/// Whether an image's areas have these first pages, numbers of pages and bytes.
fn has_pages(image: &Image, areas: &[(u32, u32, &[u8])]) -> bool {
    let found = image.areas.as_slice();
    found.len() == areas.len()
        && found.iter().zip(areas).all(|(area, (first, pages, bytes))| {
            area.first == *first && area.pages == *pages && area.bytes.as_slice() == *bytes
        })
}

/// The overlaid parts begin where the section does; the others lie one behind the other. Two pages have room for 513 bytes.
#[test]
fn lays_overlaid_parts_from_the_begin_on(rt: HostRuntime) -> Result<(), Fail> {
    for (storage, pages) in [(12, 1), (512, 1), (513, 2)] {
        let mut parts = Vec::new(rt.alloc());
        parts.push(overlaid(&rt, b"C", 8)?)?;
        parts.push(section(&rt, b"C", 1, true, &[1, 2, 3, 4])?)?;
        parts.push(overlaid(&rt, b"C", storage)?)?;
        parts.push(section(&rt, b"C", 1, true, &[5])?)?;
        let modules = program(&rt, parts)?;
        // Each module has the section without a name first, which is empty and begins where CODE does.
        let places = [
            0x200, 0x200, 0x200, 0x400, 0x200, 0x400, 0x200, 0x400, 0x200, 0x404,
        ];
        match addresses(rt.alloc(), Base::User, &modules)? {
            None => return Err("the sections have room".into()),
            Some(found) => assert!(rt; found.as_slice() == places.as_slice()),
        }
        let image = joined(&rt, &modules, Base::User)??;
        assert!(rt;
            has_pages(
                &image,
                &[
                    (1, 1, [0].as_slice()),
                    (2, pages, [1, 2, 3, 4, 5].as_slice())
                ]
            )
        );
    }
    Ok(())
}

/// What overlaid parts alone cover has pages without bytes, which a file keeps. The next section begins behind them.
#[test]
fn gives_pages_to_overlaid_parts_alone(rt: HostRuntime) -> Result<(), Fail> {
    let mut parts = Vec::new(rt.alloc());
    parts.push(overlaid(&rt, b"C", 513)?)?;
    parts.push(overlaid(&rt, b"C", 1)?)?;
    parts.push(section(&rt, b"D", 1, true, &[7])?)?;
    let modules = program(&rt, parts)?;
    let places = [0x200, 0x200, 0x200, 0x400, 0x200, 0x400, 0x200, 0x800];
    match addresses(rt.alloc(), Base::User, &modules)? {
        None => return Err("the sections have room".into()),
        Some(found) => assert!(rt; found.as_slice() == places.as_slice()),
    }
    let areas = [
        (1, 1, [0].as_slice()),
        (2, 2, [].as_slice()),
        (4, 1, [7].as_slice()),
    ];
    let image = joined(&rt, &modules, Base::User)??;
    assert!(rt; has_pages(&image, &areas));
    let file = write(rt.alloc(), &image)?;
    assert!(rt; has_pages(&read(rt.alloc(), &file)?, &areas));
    let file = write2(rt.alloc(), &image)?;
    assert!(rt; has_pages(&read(rt.alloc(), &file)?, &areas));
    Ok(())
}

/// A part that has bytes isn't overlaid, whatever it says to cover.
#[test]
fn lays_bytes_behind_others(rt: HostRuntime) -> Result<(), Fail> {
    let mut parts = Vec::new(rt.alloc());
    parts.push(section(&rt, b"C", 1, true, &[1, 2])?)?;
    parts.push(Section {
        name: text(&rt, b"C")?,
        align: 4,
        write: true,
        bytes: text(&rt, &[3])?,
        storage: 600,
    })?;
    let image = joined(&rt, &program(&rt, parts)?, Base::User)??;
    assert!(rt;
        has_pages(
            &image,
            &[(1, 1, [0].as_slice()), (2, 1, [1, 2, 0, 0, 3].as_slice())]
        )
    );
    Ok(())
}

/// The control block has a page, and a bare program 2047 pages, of which CODE has one.
#[test]
fn refuses_parts_without_room(rt: HostRuntime) -> Result<(), Fail> {
    for (name, storage, cause) in [
        (b"$SCB".as_slice(), 512, 0),
        (b"$SCB".as_slice(), 513, 3),
        (b"C".as_slice(), 2046 * 512, 0),
        (b"C".as_slice(), 2046 * 512 + 1, 3),
        (b"C".as_slice(), 0xFFFF_FFFF, 3),
    ] {
        let modules = program_with(&rt, name, storage)?;
        assert!(rt; is_refused(&joined(&rt, &modules, Base::Bare)?, cause, b""));
    }
    let modules = program_with(&rt, b"$SCB", 512)?;
    let image = joined(&rt, &modules, Base::Bare)??;
    assert!(rt;
        has_pages(
            &image,
            &[
                (0x40_0000, 1, [].as_slice()),
                (0x40_0001, 1, [0].as_slice())
            ]
        )
    );
    Ok(())
}
