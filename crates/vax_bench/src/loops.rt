//! The loops, in machine code from 80000200 on.
ghost use Rattle.std.specs.Prelude.{◌≤◌, IfSome, length};

/// `A: SOBGTR R0,A`
const COUNT: [u8; 3] = [0xF5, 0x50, 0xFD];

/// `A: MOVL R1,R2`, `ADDL2 #1,R1`, `CMPL R1,R3`, `BLSS A`
const REGISTERS: [u8; 11] = [
    0xD0, 0x51, 0x52, 0xC0, 0x01, 0x51, 0xD1, 0x51, 0x53, 0x19, 0xF5,
];

/// `MOVL R3,4(R7)`, `A: MOVL (R7),R2`, `ADDL2 #1,(R7)`, `CMPL (R7),4(R7)`, `BLSS A`
const MEMORY: [u8; 16] = [
    0xD0, 0x53, 0xA7, 0x04, 0xD0, 0x67, 0x52, 0xC0, 0x01, 0x67, 0xD1, 0x67, 0xA7, 0x04, 0x19, 0xF4,
];

/// `A: BSBB B`, `SOBGTR R0,A`, `B: RSB`
const CALLS: [u8; 6] = [0x10, 0x03, 0xF5, 0x50, 0xFB, 0x05];

/// `A: JSB B`, `BRB A`, `B: RSB`
const SUBROUTINE: [u8; 6] = [0x16, 0xAF, 0x02, 0x11, 0xFB, 0x05];

/// `A: CALLS #0,B`, `BRB A`, `B: .WORD ^M<R2,R3>`, `RET`
const PROCEDURE: [u8; 9] = [0xFB, 0x00, 0xAF, 0x02, 0x11, 0xFA, 0x0C, 0x00, 0x04];

/// `A: EXTZV #4,#8,R1,R2`, `BRB A`
const FIELD: [u8; 7] = [0xEF, 0x04, 0x08, 0x51, 0x52, 0x11, 0xF9];

/// `A: ADDL2 R1,R2`, `BRB A`: what a field is compared with
const ADDITION: [u8; 5] = [0xC0, 0x51, 0x52, 0x11, 0xFB];

/// `MOVAB H,@#80000040`, `A: CHMK #0`, `BRB A`, `H: TSTL (SP)+`, `REI`: a change of mode to kernel and back
const CHANGE: [u8; 15] = [
    0x9E, 0xAF, 0x09, 0x9F, 0x40, 0x00, 0x00, 0x80, 0xBC, 0x00, 0x11, 0xFC, 0xD5, 0x8E, 0x02,
];

/// `MOVAB H,@#800000C0`, `A: SOBGTR R0,A`, `.BYTE 0`, `H: MTPR #^XC1,#24`, `REI`: the loop `count`, and an interrupt of the clock every 1000 steps
const INTERRUPTS: [u8; 20] = [
    0x9E, 0xAF, 0x09, 0x9F, 0xC0, 0x00, 0x00, 0x80, 0xF5, 0x50, 0xFD, 0x00, 0xDA, 0x8F, 0xC1, 0x00,
    0x00, 0x00, 0x18, 0x02,
];

/// `A: MOVL R1,(R7)`, `ADDL2 #512,R7`, `CMPL R7,R8`, `BLSS A`, `MOVL R9,R7`, `BRB A`: a write to each page from R9 to R8 in turn
const PAGES: [u8; 20] = [
    0xD0, 0x51, 0x67, 0xC0, 0x8F, 0x00, 0x02, 0x00, 0x00, 0x57, 0xD1, 0x57, 0x58, 0x19, 0xF1, 0xD0,
    0x59, 0x57, 0x11, 0xEC,
];

/// The code of a loop.
pub(crate) fn code_of(name: &str) -> Option<&'static [u8]>
    ensures { IfSome result (λ code. length code.now ≤ 20) }
{
    match name {
        "count" | "ticks" => Some(&COUNT),
        "registers" => Some(&REGISTERS),
        "memory" => Some(&MEMORY),
        "calls" => Some(&CALLS),
        "subroutine" => Some(&SUBROUTINE),
        "procedure" => Some(&PROCEDURE),
        "field" => Some(&FIELD),
        "addition" => Some(&ADDITION),
        "change" => Some(&CHANGE),
        "interrupts" => Some(&INTERRUPTS),
        "pages" => Some(&PAGES),
        _ => None,
    }
}

/// Where a loop's data begins, which is R7 at the start.
pub(crate) fn data_of(name: &str) -> u32 {
    match name {
        "pages" => 0,
        _ => 0x8010_0000,
    }
}

/// The interval clock's control at the start: in `ticks` and `interrupts` it counts, and asks for an interrupt every 1000 steps.
pub(crate) fn clock_of(name: &str) -> u8 {
    match name {
        "ticks" | "interrupts" => 0x40,
        _ => 0,
    }
}
