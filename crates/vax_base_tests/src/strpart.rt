//! The kernels at each end of a vector, and packed registers by their layouts.
ghost use Rattle.std.specs.Prelude.{◌<◌};

use std::process::Abort;
use std::test::Fail;
use vax_strpart::{
    Progress, compare, locate, pack, scan, skip, span, translate, translate_until, unpack,
};

/// The index is at an end of a vector of 32 bytes, or is the last.
fn is_telling(index: usize, len: usize) -> bool
    requires { index < len }
{
    index % 32 == 0 || index % 32 == 31 || len - index == 1
}

/// A table that has 4 at 9, 1 at 7 and 0 elsewhere.
fn table() -> [u8; 256] {
    let mut all = [0; 256];
    all[9] = 4;
    all[7] = 1;
    all
}

/// All searches of bytes that are 7 but for a first 9 at this index, if there is one.
fn search(rt: &impl Abort, bytes: &[u8], sevens: &[u8], found: Option<usize>) {
    if bytes.len() == sevens.len() {
        assert!(rt; compare(bytes, sevens) == found);
    }
    assert!(rt; locate(bytes, 9) == found);
    assert!(rt; skip(bytes, 7) == found);
    assert!(rt; scan(bytes, &table(), 6) == found);
    assert!(rt; span(bytes, &table(), 3) == found);
}

#[test]
fn finds_at_each_end_of_a_vector(rt: HostRuntime) -> Result<(), Fail> {
    for n in 0..132usize {
        let len = if n == 131 { 512 } else { n };
        let sevens = vec![in rt.alloc(); 7u8; len]?;
        search(&rt, &sevens, &sevens, None);
        for index in 0..len {
            if is_telling(index, len) {
                let mut bytes = sevens.clone()?;
                if let Some(byte) = bytes.get_mut(index) {
                    *byte = 9;
                }
                search(&rt, &bytes, &sevens, Some(index));
                assert!(rt; translate_until(&mut bytes, &table(), 4) == Some(index));
                assert!(rt; locate(&bytes, 9) == Some(index));
                assert!(rt; skip(&bytes, 1) == Some(index));
            }
        }
    }
    Ok(())
}

#[test]
fn translates(rt: HostRuntime) {
    let mut bytes = [7, 0, 9, 255];
    translate(&mut bytes, &table());
    assert!(rt; bytes == [1, 0, 4, 0]);
    let mut bytes = [7, 9, 7];
    assert!(rt; translate_until(&mut bytes, &table(), 5) == None);
    assert!(rt; bytes == [1, 4, 1]);
}

/// A progress with a number of its own in each field.
fn progress(op: u8) -> Progress {
    Progress {
        op,
        len1: 0x0102,
        addr1: 0x1000_0001,
        byte: 0x41,
        len2: 0x0304,
        addr2: 0x2000_0002,
        table: 0x3000_0003,
        done: 0x0506,
        delta: 0x0E,
    }
}

#[test]
fn packs_by_layout(rt: HostRuntime) {
    const OLD: [u32; 6] = [10, 11, 12, 13, 14, 15];
    const FIRST: u32 = 0x0E41_0102;
    const THIRD: u32 = 0x0506_0304;
    let rows = [
        (0x28, [FIRST, 0x1000_0001, THIRD, 0x2000_0002, 0, 0]),
        (0x2C, [FIRST, 0x1000_0001, THIRD, 0x2000_0002, 0, 0]),
        (0x2D, [FIRST, 0x1000_0001, THIRD, 0x2000_0002, 14, 15]),
        (0x39, [FIRST, 0x1000_0001, THIRD, 0x2000_0002, 14, 15]),
        (0x3A, [FIRST, 0x1000_0001, 12, 13, 14, 15]),
        (0x2B, [FIRST, 0x1000_0001, 0, 0x3000_0003, 14, 15]),
        (
            0x2F,
            [FIRST, 0x1000_0001, THIRD, 0x3000_0003, 0, 0x2000_0002],
        ),
    ];
    for (op, regs) in rows {
        assert!(rt; pack(&progress(op), &OLD) == regs);
    }
}

#[test]
fn unpacks_what_a_layout_keeps(rt: HostRuntime) {
    let whole = progress(0x2F);
    assert!(rt; unpack(0x2F, &pack(&whole, &[0; 6])) == whole);
    let search = Progress {
        len2: 0,
        addr2: 0,
        table: 0,
        done: 0,
        ..progress(0x3B)
    };
    assert!(rt; unpack(0x3B, &pack(&search, &[9; 6])) == search);
}
