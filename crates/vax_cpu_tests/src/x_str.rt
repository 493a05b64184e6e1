//! Instructions over plain memory, with results worked by hand from the manual's rules.
use std::alloc::Global;
use std::test::Fail;
use vax_flat::{Cut, Exception, Flow};
use vax_isa::Text;
use vax_space::{Area, Bytes, Space, Violation};
use vax_undo::{CutShort, Log, Plain, Term, Txn};
use vax_word::{Core, Psl};
use vax_x_str::*;

/// Where the instruction lies.
const CODE: u32 = 0x8000_0200;

/// Four pages of data.
const DATA: u32 = 0x8000_0400;

/// The page behind them, which is in no area.
const BEYOND: u32 = 0x8000_0C00;

/// A page of code, and four pages of data.
fn memory(alloc: Global, code: &[u8], data: &[u8]) -> Result<Plain, Fail> {
    let mut areas = Vec::new(alloc);
    areas.push(Area {
        first: CODE / 512,
        pages: 1,
        prot: 2,
        bytes: Bytes::from(code.to_vec(alloc)?),
    })?;
    areas.push(Area {
        first: DATA / 512,
        pages: 4,
        prot: 2,
        bytes: Bytes::from(data.to_vec(alloc)?),
    })?;
    Ok(Plain::new(alloc, Space::new(alloc, areas)?)?)
}

/// PC past the opcode, in kernel mode; R6 to R8 are addresses of data.
fn registers(r6: u32, r7: u32, r8: u32) -> Core {
    let mut core = Core {
        regs: [0; 16],
        psl: Psl(0x1F_0000),
        stacks: [0; 5],
        sisr: 0,
        iccs: 0,
        clock: 0,
    };
    core.regs[6] = r6;
    core.regs[7] = r7;
    core.regs[8] = r8;
    core.regs[15] = CODE + 1;
    core
}

/// R0 to R5.
fn low(core: &Core) -> [u32; 6] {
    [
        core.regs[0],
        core.regs[1],
        core.regs[2],
        core.regs[3],
        core.regs[4],
        core.regs[5],
    ]
}

/// Which part of an instruction.
#[derive(Clone, Copy)]
enum Part {
    First(Text),
    Later(u8),
}

/// Makes a part, and undoes what was cut short.
fn made(alloc: Global, port: &mut Plain, core: &mut Core, part: Part) -> Result<Flow, Cut> {
    let mut term = Term::new(Vec::new(alloc));
    let mut log = Log::new();
    let mut txn = Txn::begin(core, &mut term, port, &mut log);
    let mut scratch = Scratch::default();
    let result = match part {
        Part::First(text) => start(&mut txn, text, &mut scratch),
        Part::Later(opcode) => resume(&mut txn, opcode, &mut scratch),
    };
    match result {
        Ok(flow) => {
            let _ = txn.commit();
            Ok(flow)
        }
        Err(CutShort) => {
            let why = txn.why();
            txn.unwind();
            Err(why)
        }
    }
}

/// Makes an instruction in parts. Answers how many there were, and the units of all but the last.
fn run(alloc: Global, port: &mut Plain, core: &mut Core, text: Text) -> Result<(u32, u32), Cut> {
    let mut next = Part::First(text);
    let mut done = 0u32;
    for parts in 1..9 {
        match made(alloc, port, core, next)? {
            Flow::More { opcode, units } => {
                done = done.wrapping_add(units);
                next = Part::Later(opcode);
            }
            _ => return Ok((parts, done)),
        }
    }
    Ok((0, done))
}

#[test]
fn instructions_that_read(rt: HostRuntime) -> Result<(), Fail> {
    // literals and (Rn): the code with its opcode, the data, and R0 to R5 with the codes
    let rows = [
        // the third byte is 7; the first that isn't 9 is the third; and there is no 1
        (
            Text::Locate,
            [0x3A, 7, 5, 0x66, 0, 0, 0],
            [9, 9, 7, 8, 8],
            [3, DATA + 2, 0, 0, 0, 0],
            0,
        ),
        (
            Text::Skip,
            [0x3B, 9, 5, 0x66, 0, 0, 0],
            [9, 9, 7, 8, 8],
            [3, DATA + 2, 0, 0, 0, 0],
            0,
        ),
        (
            Text::Locate,
            [0x3A, 1, 5, 0x66, 0, 0, 0],
            [9, 9, 7, 8, 8],
            [0, DATA + 5, 0, 0, 0, 0],
            4,
        ),
        // the table is the data itself, which has 4 at 3 and 3 at 2
        (
            Text::Scan,
            [0x2A, 5, 0x66, 0x66, 4, 0, 0],
            [0, 1, 3, 4, 2],
            [3, DATA + 2, 0, DATA, 0, 0],
            0,
        ),
        (
            Text::Span,
            [0x2B, 5, 0x66, 0x66, 4, 0, 0],
            [3, 1, 3, 4, 2],
            [4, DATA + 1, 0, DATA, 0, 0],
            0,
        ),
        // two bytes against the next two, of which the second is less; and one with fills against three
        (
            Text::Compare,
            [0x29, 2, 0x66, 0x67, 0, 0, 0],
            [5, 6, 5, 7, 0],
            [1, DATA + 1, 1, DATA + 3, 0, 0],
            9,
        ),
        (
            Text::CompareFilled,
            [0x2D, 1, 0x66, 8, 3, 0x67, 0],
            [5, 6, 5, 8, 8],
            [0, DATA + 1, 0, DATA + 5, 0, 0],
            4,
        ),
        // two bytes in three, at the second place; two that aren't there; none; and more than there are
        (
            Text::Match,
            [0x39, 2, 0x66, 3, 0x67, 0, 0],
            [1, 2, 1, 1, 2],
            [0, DATA + 2, 0, DATA + 5, 0, 0],
            4,
        ),
        (
            Text::Match,
            [0x39, 2, 0x66, 3, 0x67, 0, 0],
            [1, 2, 1, 1, 1],
            [2, DATA, 0, DATA + 5, 0, 0],
            0,
        ),
        (
            Text::Match,
            [0x39, 0, 0x66, 3, 0x67, 0, 0],
            [1, 2, 1, 1, 1],
            [0, DATA, 3, DATA + 2, 0, 0],
            4,
        ),
        (
            Text::Match,
            [0x39, 3, 0x66, 2, 0x67, 0, 0],
            [1, 2, 1, 2, 1],
            [3, DATA, 0, DATA + 4, 0, 0],
            0,
        ),
    ];
    for (text, code, data, after, codes) in rows {
        let mut port = memory(rt.alloc(), &code, &data)?;
        let mut core = registers(DATA, DATA + 2, 0);
        assert!(rt; run(rt.alloc(), &mut port, &mut core, text) == Ok((1, 0)));
        assert!(rt; low(&core) == after);
        assert!(rt; core.psl.0 % 16 == codes);
    }
    Ok(())
}

#[test]
fn a_search_goes_on_in_the_next_page(rt: HostRuntime) -> Result<(), Fail> {
    let mut data = vec![in rt.alloc(); 9u8; 600]?;
    if let Some(byte) = data.get_mut(520) {
        *byte = 7;
    }
    let mut port = memory(rt.alloc(), &[0x3A, 7, 60, 0x66], &data)?;
    let mut core = registers(DATA + 500, 0, 0);
    let first = made(rt.alloc(), &mut port, &mut core, Part::First(Text::Locate));
    assert!(rt;
        first
            == Ok(Flow::More {
                opcode: 0x3A,
                units: 12
            })
    );
    // 48 bytes are left, the character is 7, and the instruction has 4 bytes
    assert!(rt;
        [core.regs[0], core.regs[1], core.regs[15], core.psl.0]
            == [0x0407_0030, DATA + 512, CODE, 0x081F_0000]
    );
    let second = made(rt.alloc(), &mut port, &mut core, Part::Later(0x3A));
    assert!(rt; second == Ok(Flow::Done));
    assert!(rt;
        [core.regs[0], core.regs[1], core.regs[15], core.psl.0]
            == [40, DATA + 520, CODE + 4, 0x1F_0000]
    );
    Ok(())
}

#[test]
fn a_match_goes_on_in_the_next_page(rt: HostRuntime) -> Result<(), Fail> {
    // the object is 1, 1, 2; the string is 1s from 500 on, with the 2 at 515
    let mut data = vec![in rt.alloc(); 1u8; 516]?;
    for place in [2, 515] {
        if let Some(byte) = data.get_mut(place) {
            *byte = 2;
        }
    }
    let mut port = memory(rt.alloc(), &[0x39, 3, 0x66, 16, 0x67], &data)?;
    let mut core = registers(DATA, DATA + 500, 0);
    let first = made(rt.alloc(), &mut port, &mut core, Part::First(Text::Match));
    // at the places 0 to 9 three bytes are compared each, and at place 10 two that are in this page
    assert!(rt;
        first
            == Ok(Flow::More {
                opcode: 0x39,
                units: 32
            })
    );
    assert!(rt; low(&core) == [0x0500_0003, DATA, 0x0002_0006, DATA + 510, 0, 0]);
    let second = made(rt.alloc(), &mut port, &mut core, Part::Later(0x39));
    assert!(rt; second == Ok(Flow::Done));
    assert!(rt; low(&core) == [0, DATA + 3, 0, DATA + 516, 0, 0]);
    Ok(())
}

#[test]
fn bytes_are_moved(rt: HostRuntime) -> Result<(), Fail> {
    let rows = [
        // up by one, over itself
        (
            Text::Move,
            [0x28, 4, 0x66, 0x67, 0, 0, 0],
            [1, 1, 2, 3, 4, 6],
            [0, DATA + 4, 0, DATA + 5, 0, 0],
            4,
            (1, 0),
        ),
        // three bytes of which two have a place
        (
            Text::MoveFilled,
            [0x2C, 3, 0x66, 42, 2, 0x67, 0],
            [1, 1, 2, 4, 5, 6],
            [1, DATA + 2, 0, DATA + 3, 0, 0],
            0,
            (1, 0),
        ),
        // no byte, and fills; one byte, and then fills in a part of their own
        (
            Text::MoveFilled,
            [0x2C, 0, 0x66, 42, 3, 0x67, 0],
            [1, 42, 42, 42, 5, 6],
            [0, DATA, 0, DATA + 4, 0, 0],
            9,
            (1, 0),
        ),
        (
            Text::MoveFilled,
            [0x2C, 1, 0x66, 42, 3, 0x67, 0],
            [1, 1, 42, 42, 5, 6],
            [0, DATA + 1, 0, DATA + 4, 0, 0],
            9,
            (2, 1),
        ),
    ];
    for (text, code, after, registers_after, codes, parts) in rows {
        let mut port = memory(rt.alloc(), &code, &[1, 2, 3, 4, 5, 6])?;
        let mut core = registers(DATA, DATA + 1, 0);
        assert!(rt; run(rt.alloc(), &mut port, &mut core, text) == Ok(parts));
        for (place, byte) in after.iter().enumerate() {
            assert!(rt; port.byte(DATA + place as u32) == Some(*byte));
        }
        assert!(rt; low(&core) == registers_after);
        assert!(rt; core.psl.0 % 16 == codes);
    }
    Ok(())
}

#[test]
fn long_moves_keep_the_source(rt: HostRuntime) -> Result<(), Fail> {
    let mut data = vec![in rt.alloc(); 0u8; 1300]?;
    for (place, byte) in data.iter_mut().enumerate() {
        *byte = (place % 251) as u8;
    }
    // 600 bytes from 100 on: backward, where 188 of the source are in the last one's page; forward, where 412 are in the first one's; and
    // apart, where 12 of the destination are in the first one's page, and each page ends a part
    for (to, parts) in [
        (DATA + 101, (2, 188)),
        (DATA + 99, (2, 412)),
        (DATA + 1012, (4, 524)),
    ] {
        let mut port = memory(rt.alloc(), &[0x28, 0x8F, 0x58, 2, 0x66, 0x67], &data)?;
        let mut core = registers(DATA + 100, to, 0);
        assert!(rt; run(rt.alloc(), &mut port, &mut core, Text::Move) == Ok(parts));
        for i in 0..600u32 {
            assert!(rt; port.byte(to.wrapping_add(i)) == Some(((100 + i) % 251) as u8));
        }
        assert!(rt; low(&core) == [0, DATA + 700, 0, to.wrapping_add(600), 0, 0]);
        assert!(rt; [core.regs[15], core.psl.0] == [CODE + 6, 0x1F_0004]);
    }
    Ok(())
}

/// Data of which the first 256 bytes are a table that turns each byte's bits.
fn turning_table(alloc: Global) -> Result<Vec<u8>, Fail> {
    let mut data = vec![in alloc; 0u8; 300]?;
    for (place, byte) in data.iter_mut().enumerate() {
        *byte = (place % 256) as u8 ^ 0xFF;
    }
    Ok(data)
}

#[test]
fn bytes_are_translated(rt: HostRuntime) -> Result<(), Fail> {
    let data = turning_table(rt.alloc())?;
    // the bytes at 256 are FF, FE, FD, FC, of which the table makes 0, 1, 2, 3
    let rows = [
        // two bytes, and a fill
        (
            Text::MoveTranslated,
            [0x2E, 2, 0x67, 9, 0x66, 3, 0x68],
            [0, 1, 9, 0],
            [0, DATA + 258, 0, DATA, 0, DATA + 403],
            9,
            (2, 2),
        ),
        // the third escapes; and none does
        (
            Text::MoveTranslatedUntil,
            [0x2F, 4, 0x67, 2, 0x66, 4, 0x68],
            [0, 1, 0, 0],
            [2, DATA + 258, 0, DATA, 2, DATA + 402],
            6,
            (1, 0),
        ),
        (
            Text::MoveTranslatedUntil,
            [0x2F, 4, 0x67, 63, 0x66, 3, 0x68],
            [0, 1, 2, 0],
            [1, DATA + 259, 0, DATA, 0, DATA + 403],
            0,
            (1, 0),
        ),
    ];
    for (text, code, after, registers_after, codes, parts) in rows {
        let mut port = memory(rt.alloc(), &code, &data)?;
        let mut core = registers(DATA, DATA + 256, DATA + 400);
        assert!(rt; run(rt.alloc(), &mut port, &mut core, text) == Ok(parts));
        for (place, byte) in after.iter().enumerate() {
            assert!(rt; port.byte(DATA + 400 + place as u32) == Some(*byte));
        }
        assert!(rt; low(&core) == registers_after);
        assert!(rt; core.psl.0 % 16 == codes);
    }
    Ok(())
}

#[test]
fn an_escape_needs_no_room(rt: HostRuntime) -> Result<(), Fail> {
    let data = turning_table(rt.alloc())?;
    // two bytes of the destination are in its first page; the third byte of the source escapes, or the fourth does
    let rows = [
        (2, (1, 0), [2, DATA + 258, 0, DATA, 2, DATA + 1024]),
        (3, (2, 2), [1, DATA + 259, 0, DATA, 1, DATA + 1025]),
    ];
    for (escape, parts, after) in rows {
        let code = [0x2F, 4, 0x67, escape, 0x66, 4, 0x68];
        let mut port = memory(rt.alloc(), &code, &data)?;
        let mut core = registers(DATA, DATA + 256, DATA + 1022);
        assert!(rt; run(rt.alloc(), &mut port, &mut core, Text::MoveTranslatedUntil) == Ok(parts));
        assert!(rt; low(&core) == after);
    }
    // in its own place
    let mut port = memory(rt.alloc(), &[0x2F, 4, 0x67, 3, 0x66, 4, 0x67], &data)?;
    let mut core = registers(DATA, DATA + 256, 0);
    assert!(rt; run(rt.alloc(), &mut port, &mut core, Text::MoveTranslatedUntil) == Ok((1, 0)));
    for (place, byte) in [0, 1, 2, 0xFC].iter().enumerate() {
        assert!(rt; port.byte(DATA + 256 + place as u32) == Some(*byte));
    }
    Ok(())
}

#[test]
fn overlaps_are_reserved(rt: HostRuntime) -> Result<(), Fail> {
    let data = turning_table(rt.alloc())?;
    let reserved = Err(Cut::Event(Exception::Operand));
    // the destination's last byte is the table's first; and the strings overlap
    let rows = [
        (
            Text::MoveTranslated,
            [0x2E, 1, 0x67, 9, 0x66, 3, 0x68],
            DATA + 298,
        ),
        (
            Text::MoveTranslatedUntil,
            [0x2F, 1, 0x67, 9, 0x66, 3, 0x68],
            DATA + 298,
        ),
        (
            Text::MoveTranslatedUntil,
            [0x2F, 3, 0x67, 9, 0x66, 3, 0x68],
            DATA + 2,
        ),
    ];
    for (text, code, to) in rows {
        let mut port = memory(rt.alloc(), &code, &data)?;
        let mut core = registers(DATA + 300, DATA, to);
        let before = core;
        assert!(rt; run(rt.alloc(), &mut port, &mut core, text) == reserved);
        assert!(rt; core == before);
    }
    Ok(())
}

#[test]
fn violations(rt: HostRuntime) -> Result<(), Fail> {
    // a destination that ends beyond the data is met before the first byte is moved
    let mut port = memory(rt.alloc(), &[0x28, 2, 0x66, 0x67], &[1, 2])?;
    let mut core = registers(DATA, BEYOND - 1, 0);
    let before = core;
    let beyond = Err(Cut::Event(Exception::Access(Violation {
        addr: BEYOND,
        length: false,
        write: true,
    })));
    assert!(rt; run(rt.alloc(), &mut port, &mut core, Text::Move) == beyond);
    assert!(rt; core == before);
    assert!(rt; port.byte(BEYOND - 1) == Some(0));
    // a string that ends there is met once its first part is done, at which the registers say so
    let mut port = memory(rt.alloc(), &[0x3A, 7, 9, 0x66], &[])?;
    let mut core = registers(BEYOND - 4, 0, 0);
    assert!(rt;
        made(rt.alloc(), &mut port, &mut core, Part::First(Text::Locate))
            == Ok(Flow::More {
                opcode: 0x3A,
                units: 4
            })
    );
    let between = core;
    let late = Err(Cut::Event(Exception::Access(Violation {
        addr: BEYOND,
        length: false,
        write: false,
    })));
    assert!(rt; made(rt.alloc(), &mut port, &mut core, Part::Later(0x3A)) == late);
    assert!(rt; core == between);
    Ok(())
}
