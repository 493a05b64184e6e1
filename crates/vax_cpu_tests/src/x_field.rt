//! Instructions over plain memory, with results worked by hand from the manual's rules.
use std::alloc::Global;
use std::test::Fail;
use vax_flat::{Cut, Exception, Flow};
use vax_isa::Field;
use vax_space::{Area, Bytes, Space, Violation};
use vax_undo::{Log, Plain, Port, Term, Txn};
use vax_word::{Core, Psl};
use vax_x_field::*;

/// Where the instruction's first operand lies.
const CODE: u32 = 0x8000_0200;

/// A page that may be written. Behind it is one that may be read alone.
const DATA: u32 = 0x8000_0400;

/// The quadword in which the fields lie.
const HELD: u32 = DATA + 0x100;

/// Specifiers of `R1` to `R5`, and of `(R3)`.
const R1: u8 = 0x51;

const R2: u8 = 0x52;

const R3: u8 = 0x53;

const R5: u8 = 0x55;

const AT_R3: u8 = 0x63;

fn area(alloc: Global, first: u32, prot: u8, bytes: Vec<u8>) -> Area {
    Area {
        first: first / 512,
        pages: 1,
        prot,
        bytes: Bytes::from(bytes),
    }
}

/// The code, the data with a quadword in it, and a page behind that may be read alone.
fn memory(alloc: Global, code: &[u8], held: u64) -> Result<Plain, Fail> {
    let mut data = Vec::new(alloc);
    data.resize(0x100, 0xFF)?;
    data.extend_from_slice(&held.to_le_bytes())?;
    data.resize(0x200, 0xFF)?;
    let mut areas = Vec::new(alloc);
    areas.push(area(alloc, CODE, 2, code.to_vec(alloc)?))?;
    areas.push(area(alloc, DATA, 2, data))?;
    areas.push(area(alloc, DATA + 0x200, 3, Vec::new(alloc)))?;
    Ok(Plain::new(alloc, Space::new(alloc, areas)?)?)
}

/// Registers 1 to 5, in kernel mode with these bits of the processor status word.
fn registers(r: [u32; 5], word: u32) -> Core {
    let [r1, r2, r3, r4, r5] = r;
    let mut core = Core {
        regs: [0; 16],
        psl: Psl(0x1F_0000 + word % 256),
        stacks: [0; 5],
        sisr: 0,
        iccs: 0,
        clock: 0,
    };
    core.regs[1] = r1;
    core.regs[2] = r2;
    core.regs[3] = r3;
    core.regs[4] = r4;
    core.regs[5] = r5;
    core.regs[15] = CODE;
    core
}

/// How an instruction went.
fn went(alloc: Global, port: &mut Plain, core: &mut Core, instruction: Field) -> Result<Flow, Cut> {
    let mut term = Term::new(Vec::new(alloc));
    let mut log = Log::new();
    let mut txn = Txn::begin(core, &mut term, port, &mut log);
    let done = match run(&mut txn, instruction) {
        Ok(flow) => Ok(flow),
        Err(CutShort) => Err(txn.why()),
    };
    let _ = txn.commit();
    done
}

/// The quadword at an address.
fn quadword(port: &Plain, addr: u32) -> u64 {
    let mut value = 0;
    for k in 0..8u32 {
        let byte = port.byte(addr.wrapping_add(7 - k)).unwrap_or(0);
        value = value << 8 | byte as u64;
    }
    value
}

/// Addresses from which the quadword's bits are reached, with the position of its first: at it, before it and behind it, as far as positions go.
const BASES: [(u32, u32); 5] = [
    (HELD, 0),
    (HELD - 4, 32),
    (HELD + 3, 0xFFFF_FFE8),
    (HELD - 0x0FFF_FFF0, 0x7FFF_FF80),
    (HELD + 0x1000_0000, 0x8000_0000),
];

#[test]
fn fields_are_extracted(rt: HostRuntime) -> Result<(), Fail> {
    // position and size in 0123456789ABCDEF; the field with zeros and with its sign in front
    let rows = [
        (0, 0, 0, 0),
        (31, 0, 0, 0),
        (0, 1, 1, 0xFFFF_FFFF),
        (4, 1, 0, 0),
        (0, 4, 0xF, 0xFFFF_FFFF),
        (4, 8, 0xDE, 0xFFFF_FFDE),
        (8, 16, 0xABCD, 0xFFFF_ABCD),
        (30, 1, 0, 0),
        (31, 1, 1, 0xFFFF_FFFF),
        (28, 4, 8, 0xFFFF_FFF8),
        (28, 8, 0x78, 0x78),
        (12, 9, 0xBC, 0xBC),
        (7, 25, 0x0113_579B, 0xFF13_579B),
        (1, 31, 0x44D5_E6F7, 0xC4D5_E6F7),
        (0, 32, 0x89AB_CDEF, 0x89AB_CDEF),
        (16, 32, 0x4567_89AB, 0x4567_89AB),
        (31, 32, 0x0246_8ACF, 0x0246_8ACF),
    ];
    let held = 0x0123_4567_89AB_CDEF;
    // R1,R2,R3,R5 and R1,R2,(R3),R5
    let mut in_registers = memory(rt.alloc(), &[R1, R2, R3, R5], held)?;
    let mut in_memory = memory(rt.alloc(), &[R1, R2, AT_R3, R5], held)?;
    for (position, size, unsigned, signed) in rows {
        for (is_signed, value) in [(false, unsigned), (true, signed)] {
            let instruction = Field::Extract { signed: is_signed };
            let codes = if value == 0 { 4 } else { value >> 31 << 3 };
            for carry in [0, 1] {
                let mut core = registers([position, size, 0x89AB_CDEF, 0x0123_4567, 7], carry + 14);
                let flow = went(rt.alloc(), &mut in_registers, &mut core, instruction);
                assert!(rt; (flow, core.regs[5]) == (Ok(Flow::Done), value));
                assert!(rt; core.psl == Psl(0x1F_0000 + codes + carry));
                for (base, first) in BASES {
                    let mut core = registers(
                        [first.wrapping_add(position), size, base, 0, 7],
                        carry,
                    );
                    let flow = went(rt.alloc(), &mut in_memory, &mut core, instruction);
                    assert!(rt; (flow, core.regs[5]) == (Ok(Flow::Done), value));
                    assert!(rt; core.psl == Psl(0x1F_0000 + codes + carry));
                }
            }
        }
    }
    Ok(())
}

#[test]
fn fields_are_compared(rt: HostRuntime) -> Result<(), Fail> {
    // position and size in 0123456789ABCDEF, the longword it is compared with, the codes with zeros and with its sign in front
    let rows = [
        (0, 0, 0, 4, 4),
        (0, 0, 1, 9, 9),
        (0, 0, 0xFFFF_FFFF, 1, 1),
        (4, 8, 0xDE, 4, 8),
        (4, 8, 0xFFFF_FFDE, 1, 4),
        (4, 8, 0xDD, 0, 8),
        (4, 8, 0xDF, 9, 8),
        (28, 8, 0x78, 4, 4),
        (28, 8, 0x79, 9, 9),
        (0, 32, 0x89AB_CDEF, 4, 4),
        (0, 32, 0x7FFF_FFFF, 8, 8),
        (0, 32, 0x89AB_CDF0, 9, 9),
        (16, 32, 0x8000_0000, 1, 1),
    ];
    let held = 0x0123_4567_89AB_CDEF;
    let mut in_registers = memory(rt.alloc(), &[R1, R2, R3, R5], held)?;
    let mut in_memory = memory(rt.alloc(), &[R1, R2, AT_R3, R5], held)?;
    for (position, size, source, unsigned, signed) in rows {
        for (is_signed, codes) in [(false, unsigned), (true, signed)] {
            let instruction = Field::Compare { signed: is_signed };
            let mut core = registers([position, size, 0x89AB_CDEF, 0x0123_4567, source], 0xEF);
            let flow = went(rt.alloc(), &mut in_registers, &mut core, instruction);
            assert!(rt; (flow, core.psl) == (Ok(Flow::Done), Psl(0x1F_00E0 | codes)));
            for (base, first) in BASES {
                let mut core = registers([first.wrapping_add(position), size, base, 0, source], 0);
                let flow = went(rt.alloc(), &mut in_memory, &mut core, instruction);
                assert!(rt; (flow, core.psl) == (Ok(Flow::Done), Psl(0x1F_0000 | codes)));
            }
        }
    }
    Ok(())
}

#[test]
fn fields_are_inserted(rt: HostRuntime) -> Result<(), Fail> {
    // position and size, the source, and what becomes of 0123456789ABCDEF
    let rows = [
        (0, 0, 0, 0x0123_4567_89AB_CDEF),
        (31, 0, 0xFFFF_FFFF, 0x0123_4567_89AB_CDEF),
        (0, 1, 0, 0x0123_4567_89AB_CDEE),
        (4, 1, 0xFFFF_FFFF, 0x0123_4567_89AB_CDFF),
        (4, 8, 0x1234_5678, 0x0123_4567_89AB_C78F),
        (31, 1, 0, 0x0123_4567_09AB_CDEF),
        (28, 8, 0x5A, 0x0123_4565_A9AB_CDEF),
        (16, 16, 0xFFFF_0000, 0x0123_4567_0000_CDEF),
        (0, 32, 0x1357_9BDF, 0x0123_4567_1357_9BDF),
        (16, 32, 0, 0x0123_0000_0000_CDEF),
        (31, 32, 0xFFFF_FFFF, 0x7FFF_FFFF_89AB_CDEF),
        (31, 32, 0, 0x0000_0000_09AB_CDEF),
    ];
    let held = 0x0123_4567_89AB_CDEF;
    let mut in_registers = memory(rt.alloc(), &[R5, R1, R2, R3], held)?;
    let mut in_memory = memory(rt.alloc(), &[R5, R1, R2, AT_R3], held)?;
    for (position, size, source, after) in rows {
        for word in [0x00, 0x0F] {
            let mut core = registers([position, size, 0x89AB_CDEF, 0x0123_4567, source], word);
            let flow = went(rt.alloc(), &mut in_registers, &mut core, Field::Insert);
            let pair = u64::from(core.regs[4]) << 32 | u64::from(core.regs[3]);
            assert!(rt; (flow, pair, core.psl) == (Ok(Flow::Done), after, Psl(0x1F_0000 + word)));
            for (base, first) in BASES {
                let _ = in_memory.write(HELD, 8, held, 0);
                let mut core = registers(
                    [first.wrapping_add(position), size, base, 0, source],
                    word,
                );
                let flow = went(rt.alloc(), &mut in_memory, &mut core, Field::Insert);
                assert!(rt;
                    (flow, quadword(&in_memory, HELD), core.psl)
                        == (Ok(Flow::Done), after, Psl(0x1F_0000 + word))
                );
                let beside = (in_memory.byte(HELD - 1), in_memory.byte(HELD + 8));
                assert!(rt; beside == (Some(0xFF), Some(0xFF)));
            }
        }
    }
    Ok(())
}

#[test]
fn first_bits_are_found(rt: HostRuntime) -> Result<(), Fail> {
    // position and size in 00000001F0000100; where the first 1 and the first 0 are, and whether they are found
    let rows = [
        (0, 0, 0, false, 0, false),
        (8, 0, 8, false, 8, false),
        (0, 8, 8, false, 0, true),
        (0, 9, 8, true, 0, true),
        (8, 1, 8, true, 9, false),
        (8, 2, 8, true, 9, true),
        (9, 19, 28, false, 9, true),
        (9, 20, 28, true, 9, true),
        (9, 32, 28, true, 9, true),
        (28, 5, 28, true, 33, false),
        (28, 6, 28, true, 33, true),
        (28, 32, 28, true, 33, true),
        (31, 32, 31, true, 33, true),
        (0, 32, 8, true, 0, true),
    ];
    let held = 0x0000_0001_F000_0100;
    let mut in_registers = memory(rt.alloc(), &[R1, R2, R3, R5], held)?;
    let mut in_memory = memory(rt.alloc(), &[R1, R2, AT_R3, R5], held)?;
    for (position, size, one, has_one, zero, has_zero) in rows {
        for (set, place, found) in [(true, one, has_one), (false, zero, has_zero)] {
            let instruction = Field::FindFirst { set };
            let codes = if found { 0 } else { 4 };
            let mut core = registers([position, size, 0xF000_0100, 1, 7], 0xEF);
            let flow = went(rt.alloc(), &mut in_registers, &mut core, instruction);
            assert!(rt;
                (flow, core.regs[5], core.psl) == (Ok(Flow::Done), place, Psl(0x1F_00E0 + codes))
            );
            for (base, first) in BASES {
                let mut core = registers([first.wrapping_add(position), size, base, 0, 7], 0);
                let flow = went(rt.alloc(), &mut in_memory, &mut core, instruction);
                assert!(rt;
                    (flow, core.regs[5], core.psl)
                        == (
                            Ok(Flow::Done),
                            first.wrapping_add(place),
                            Psl(0x1F_0000 + codes)
                        )
                );
            }
        }
    }
    Ok(())
}

#[test]
fn branches_on_bits(rt: HostRuntime) -> Result<(), Fail> {
    // a bit of 0123456789ABCDEF and whether it is 1; the quadword with that bit as 0 and as 1
    let rows = [
        (0, true, 0x0123_4567_89AB_CDEE, 0x0123_4567_89AB_CDEF),
        (4, false, 0x0123_4567_89AB_CDEF, 0x0123_4567_89AB_CDFF),
        (10, true, 0x0123_4567_89AB_C9EF, 0x0123_4567_89AB_CDEF),
        (30, false, 0x0123_4567_89AB_CDEF, 0x0123_4567_C9AB_CDEF),
        (31, true, 0x0123_4567_09AB_CDEF, 0x0123_4567_89AB_CDEF),
    ];
    let held = 0x0123_4567_89AB_CDEF;
    let mut in_registers = memory(rt.alloc(), &[R1, R3, 0x80], held)?;
    let mut in_memory = memory(rt.alloc(), &[R1, AT_R3, 0x80], held)?;
    for (position, is_set, clear, set) in rows {
        for wanted in [false, true] {
            for (becomes, after) in [(None, held), (Some(false), clear), (Some(true), set)] {
                let instruction = Field::Branch {
                    set: wanted,
                    becomes,
                };
                let goes_on = if is_set == wanted {
                    CODE + 3 - 0x80
                } else {
                    CODE + 3
                };
                let mut core = registers([position, 0, 0x89AB_CDEF, 0x0123_4567, 0], 0x0F);
                let flow = went(rt.alloc(), &mut in_registers, &mut core, instruction);
                let pair = u64::from(core.regs[4]) << 32 | u64::from(core.regs[3]);
                assert!(rt;
                    (flow, core.regs[15], pair, core.psl)
                        == (Ok(Flow::Done), goes_on, after, Psl(0x1F_000F))
                );
                for (base, first) in BASES {
                    let _ = in_memory.write(HELD, 8, held, 0);
                    let mut core = registers([first.wrapping_add(position), 0, base, 0, 0], 0);
                    let flow = went(rt.alloc(), &mut in_memory, &mut core, instruction);
                    assert!(rt;
                        (flow, core.regs[15], quadword(&in_memory, HELD), core.psl)
                            == (Ok(Flow::Done), goes_on, after, Psl(0x1F_0000))
                    );
                }
            }
        }
    }
    Ok(())
}

#[test]
fn reserved_operands_of_fields(rt: HostRuntime) -> Result<(), Fail> {
    let reserved = Err(Cut::Event(Exception::Operand));
    let done = Ok(Flow::Done);
    let mode = Err(Cut::Event(Exception::Mode));
    // position, size and base: R3, R14, PC, (R3)
    let rows = [
        (0, 32, R3, done),
        (0, 33, R3, reserved),
        (0, 255, R3, reserved),
        (0, 33, AT_R3, reserved),
        (0x8000_0000, 33, AT_R3, reserved),
        (31, 1, R3, done),
        (32, 1, R3, reserved),
        (0xFFFF_FFFF, 1, R3, reserved),
        (0xFFFF_FFFF, 0, R3, done),
        (32, 0, R3, done),
        (0, 32, 0x5E, done),
        (31, 1, 0x5E, done),
        (1, 32, 0x5E, reserved),
        (31, 2, 0x5E, reserved),
        (31, 0, 0x5E, done),
        (32, 0, 0x5E, done),
        (0, 0, 0x5F, mode),
        (0, 1, 0x5D, done),
        (31, 32, 0x5D, done),
    ];
    for (position, size, base, answer) in rows {
        for instruction in [
            Field::Extract { signed: true },
            Field::Compare { signed: false },
            Field::FindFirst { set: true },
        ] {
            let mut port = memory(rt.alloc(), &[R1, R2, base, R5], 0)?;
            let mut core = registers([position, size, HELD, 0, 0], 0);
            assert!(rt; went(rt.alloc(), &mut port, &mut core, instruction) == answer);
        }
        let mut port = memory(rt.alloc(), &[R5, R1, R2, base], 0)?;
        let mut core = registers([position, size, HELD, 0, 0], 0);
        assert!(rt; went(rt.alloc(), &mut port, &mut core, Field::Insert) == answer);
    }
    // a bit behind the register's last is reserved, whatever becomes of it
    for (position, answer) in [(31, done), (32, reserved), (0x8000_0000, reserved)] {
        for becomes in [None, Some(true)] {
            let mut port = memory(rt.alloc(), &[R1, R3, 0], 0)?;
            let mut core = registers([position, 0, 0, 0, 0], 0);
            let instruction = Field::Branch { set: true, becomes };
            assert!(rt; went(rt.alloc(), &mut port, &mut core, instruction) == answer);
        }
    }
    Ok(())
}

/// A use of this address that the protection doesn't allow.
fn forbidden(addr: u32, write: bool) -> Result<Flow, Cut> {
    Err(Cut::Event(Exception::Access(Violation {
        addr,
        write,
        length: false,
    })))
}

#[test]
fn fields_at_the_end_of_a_page(rt: HostRuntime) -> Result<(), Fail> {
    let done = Ok(Flow::Done);
    let behind = DATA + 0x200;
    let gone = behind + 0x200;
    // position and size from the last longword of the page that may be written, and of the one behind that may be read
    let rows = [
        (behind - 4, 0, 32, done, done),
        (behind - 4, 24, 8, done, done),
        (behind - 4, 31, 1, done, done),
        (behind - 4, 32, 0, done, done),
        (behind - 4, 32, 1, done, forbidden(behind, true)),
        (behind - 4, 1, 32, done, forbidden(behind, true)),
        (behind, 0xFFFF_FFFF, 1, done, done),
        (behind, 0xFFFF_FFFF, 2, done, forbidden(behind, true)),
        (gone - 4, 0, 32, done, forbidden(gone - 4, true)),
        (gone - 4, 8, 0, done, done),
        (
            gone - 4,
            31,
            2,
            forbidden(gone, false),
            forbidden(gone, false),
        ),
        (gone, 0, 0, done, done),
        (gone, 0, 1, forbidden(gone, false), forbidden(gone, false)),
    ];
    for (base, position, size, read, written) in rows {
        let mut port = memory(rt.alloc(), &[R1, R2, AT_R3, R5], 0)?;
        let mut core = registers([position, size, base, 0, 0], 0);
        let instruction = Field::Extract { signed: false };
        assert!(rt; went(rt.alloc(), &mut port, &mut core, instruction) == read);
        let mut port = memory(rt.alloc(), &[R5, R1, R2, AT_R3], 0)?;
        let mut core = registers([position, size, base, 0, 0], 0);
        assert!(rt; went(rt.alloc(), &mut port, &mut core, Field::Insert) == written);
        // exactly the bytes of the field are touched: without the page behind the same, but where the field reaches it
        let mut port = memory(rt.alloc(), &[R5, R1, R2, AT_R3], 0)?;
        port.hide(behind / 512);
        let mut core = registers([position, size, base, 0, 0], 0);
        let answer = if written != done && read == done {
            Err(Cut::Absent(behind / 512))
        } else {
            written
        };
        assert!(rt; went(rt.alloc(), &mut port, &mut core, Field::Insert) == answer);
    }
    Ok(())
}
