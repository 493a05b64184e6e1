// From files to images.
use std::alloc::Global;
use std::test::Fail;
use vax_dialect::Dialect;
use vax_image::{Base, Image};
use vax_program::*;

/// The bytes of files.
fn files(alloc: Global, texts: &[&[u8]]) -> Result<Vec<Vec<u8>>, Fail> {
    let mut all = Vec::new(alloc);
    for text in texts {
        all.push(text.to_vec(alloc)?)?;
    }
    Ok(all)
}

/// The image of a program; the refusal's text where it has none.
fn image_of(alloc: Global, base: Base, texts: &[&[u8]]) -> Result<Result<Image, String>, Fail> {
    let files = files(alloc, texts)?;
    if files.is_empty() || files.len() > 8 {
        return Ok(Err(String::new(alloc)));
    }
    let parts = match read_parts(alloc, Dialect::Vax, base, 1, &files) {
        Ok(parts) => parts,
        Err(error) => return Ok(Err(format!(in alloc; "{error}")?)),
    };
    match link_parts(alloc, parts) {
        Ok(image) => Ok(Ok(image)),
        Err(error) => Ok(Err(format!(in alloc; "{error}")?)),
    }
}

/// Whether a program is refused so.
fn is_refused(alloc: Global, base: Base, texts: &[&[u8]], text: &str) -> Result<bool, Fail> {
    match image_of(alloc, base, texts)? {
        Ok(_) => Ok(false),
        Err(refusal) => Ok(refusal.as_str() == text),
    }
}

/// A program of one instruction and HALT.
const SMALL: &[u8] = b"BEGIN: MOVL #5,R1\nHALT\n.END BEGIN\n";

#[test]
fn sources_and_images_are_programs(rt: HostRuntime) -> Result<(), Fail> {
    let alloc = rt.alloc();
    let Ok(image) = image_of(alloc, Base::Bare, &[SMALL])? else {
        assert!(rt; false);
        return Ok(());
    };
    assert!(rt; image.transfer == 0x8000_0200);
    assert!(rt; image.areas.as_slice().len() == 1);
    let bytes: [u8; 36] = [
        0x56, 0x41, 0x58, 0x49, 1, 0, 0, 0, 0, 2, 0, 0x80, 1, 0, 0, 0, 1, 0, 0x40, 0, 1, 0, 0, 0,
        14, 0, 0, 0, 4, 0, 0, 0, 0xD0, 5, 0x51, 0,
    ];
    let Ok(again) = image_of(alloc, Base::Bare, &[bytes.as_slice()])? else {
        assert!(rt; false);
        return Ok(());
    };
    assert!(rt; again.transfer == image.transfer);
    assert!(rt;
        is_refused(
            alloc,
            Base::User,
            &[bytes.as_slice()],
            "image place 6 fault 3"
        )?
    );
    Ok(())
}

#[test]
fn refusals_tell_the_first_cause(rt: HostRuntime) -> Result<(), Fail> {
    let alloc = rt.alloc();
    let head: &[u8] = b"VAXI";
    assert!(rt;
        is_refused(
            alloc,
            Base::Bare,
            &[SMALL, b"FROB R1\n"],
            "source 2 line 1 fault 2"
        )?
    );
    assert!(rt; is_refused(alloc, Base::Bare, &[SMALL, head], "image place 0 fault 11")?);
    assert!(rt; is_refused(alloc, Base::Bare, &[head], "image place 4 fault 8")?);
    assert!(rt; is_refused(alloc, Base::Bare, &[b"NOP\n"], "link fault 4")?);
    assert!(rt; is_refused(alloc, Base::User, &[b"X::\n", b"X::\n"], "link fault 2")?);
    Ok(())
}
