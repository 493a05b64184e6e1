//! Steps whose outcome rests on what the architecture leaves to a machine.
ghost use Rattle.std.specs.Prelude.{◌≡◌, ◌<◌, slice_index};
ghost use Rattle.vax_vectors.specs.Choices.{delivers, delivers_by_choice, ends_by_choice, gives_by_choice, is_other_ending, opcode_of, overflows, rests_on_choice, violates_at_page};
ghost use Rattle.vax_vectors.specs.Truth.{is_among, told};

use crate::vector::{Cell, End, Ends, Start, Touch, Vector};
use vax_flat::Ending;

/// The opcodes of instructions of which a violation may be told by another address or another reason, or later.
const DIFFERING_IN_VIOLATIONS: [u8; 32] = [
    0x28, 0x29, 0x2A, 0x2B, 0x2C, 0x2D, 0x2E, 0x2F, 0x39, 0x3A, 0x3B, 0xE2, 0xE3, 0xE4, 0xE5, 0xE6,
    0xE7, 0x0E, 0x0F, 0x58, 0x7B, 0x8F, 0xAF, 0xCF, 0xEA, 0xEB, 0xEC, 0xED, 0xEE, 0xEF, 0xF0, 0xFB,
];

/// Those with reserved operands of this machine's own.
const DIFFERING_IN_OPERANDS: [u8; 6] = [0x02, 0x04, 0x2E, 0x2F, 0xB8, 0xB9];

/// Those of strings, which may be left between two of their units.
const OF_STRINGS: [u8; 11] = [
    0x28, 0x29, 0x2A, 0x2B, 0x2C, 0x2D, 0x2E, 0x2F, 0x39, 0x3A, 0x3B,
];

/// Those whose codes N and Z are read from a result that overflowed.
const DIFFERING_IN_CODES: [u8; 15] = [
    0x78, 0x79, 0x7B, 0x84, 0x85, 0x86, 0x87, 0xA4, 0xA5, 0xA6, 0xA7, 0xC4, 0xC5, 0xC6, 0xC7,
];

/// The byte that is told of an address, and 0 where none is.
#[tactic(auto, unfolding(crate::specs::Truth::told))]
pub fn byte_told(ram: &[Cell], addr: u32) -> u8
    ensures { result ≡ told ram.now addr }
{
    for cell in ram {
        if addr == cell.addr {
            return cell.byte;
        }
    }
    0
}

/// The opcode of the instruction at PC.
pub fn opcode_of(start: &Start) -> u8
    ensures { result ≡ opcode_of start.now }
{
    byte_told(&start.ram, start.core.regs[15])
}

/// Whether an opcode is one of these.
#[tactic(auto, unfolding(crate::specs::Truth::is_among))]
fn is_listed(opcodes: &[u8], opcode: u8) -> bool
    ensures { result ≡ is_among opcodes.now opcode }
{
    for other in opcodes {
        if opcode == *other {
            return true;
        }
    }
    false
}

/// Whether the longword at an offset into the system control block is accessed.
#[tactic(auto, unfolding(crate::specs::Choices::delivers))]
fn delivers(touches: &[Touch], offset: u32) -> bool
    requires { offset < 512 }
    ensures { result ≡ delivers touches.now offset }
{
    for touch in touches {
        if touch.addr == 0x8000_0000 + offset {
            return true;
        }
    }
    false
}

/// Whether the violation that is delivered last of all is told of the first byte of a page.
fn violates_at_page(touches: &[Touch]) -> bool
    ensures { result ≡ violates_at_page touches.now }
{
    match touches.get(touches.len().saturating_sub(2)) {
        Some(touch) => {
            let bytes = touch.bytes.as_slice();
            byte_at(bytes, 0) == 0 && byte_at(bytes, 1) % 2 == 0
        }
        None => false,
    }
}

/// The byte at a place, and 0 where there is none.
fn byte_at(bytes: &[u8], place: usize) -> u8
    ensures { result ≡ slice_index bytes.now place }
{
    if place < bytes.len() { bytes[place] } else { 0 }
}

/// An ending other than HALT's, a part of a string instruction, or a string instruction that stops for a page.
fn ends_by_choice(opcode: u8, ends: Ends) -> bool
    ensures { result ≡ ends_by_choice opcode ends }
{
    match ends {
        Ends::Step(_) => false,
        Ends::Part { .. } => true,
        Ends::Absent(_) => is_listed(&OF_STRINGS, opcode),
        Ends::Ended(ending) => is_other_ending(ending),
    }
}

/// An ending other than HALT's.
fn is_other_ending(ending: Ending) -> bool
    ensures { result ≡ is_other_ending ending }
{
    match ending {
        Ending::Halt => false,
        Ending::Vector(_) | Ending::Stack | Ending::Scb | Ending::Change => true,
    }
}

/// A form of operand is reserved, or a violation or an operand differs from machine to machine.
fn delivers_by_choice(opcode: u8, touches: &[Touch]) -> bool
    ensures { result ≡ delivers_by_choice opcode touches.now }
{
    let form = delivers(touches, 0x1C);
    let violation = delivers(touches, 0x20);
    let operand = delivers(touches, 0x18);
    let told_so = is_listed(&DIFFERING_IN_VIOLATIONS, opcode) || violates_at_page(touches);
    form || (violation && told_so) || (operand && is_listed(&DIFFERING_IN_OPERANDS, opcode))
}

/// V is set, or an arithmetic trap is delivered.
fn overflows(end: &End) -> bool
    ensures { result ≡ overflows end.now }
{
    end.core.psl.0 / 2 % 2 == 1 || delivers(&end.touches, 0x34)
}

/// A register differs from machine to machine, or codes are read from a result that overflowed.
fn gives_by_choice(opcode: u8, end: &End) -> bool
    ensures { result ≡ gives_by_choice opcode end.now }
{
    is_listed(&[0xDA, 0xDB], opcode) || (is_listed(&DIFFERING_IN_CODES, opcode) && overflows(end))
}

/// Whether what a step comes to rests on what the architecture leaves to a machine.
#[tactic(auto, unfolding(crate::specs::Choices::rests_on_choice))]
pub fn rests_on_choice(v: &Vector) -> bool
    ensures { result ≡ rests_on_choice v.now }
{
    let opcode = opcode_of(&v.start);
    v.start.core.iccs != 0
        || ends_by_choice(opcode, v.end.ends)
        || delivers_by_choice(opcode, &v.end.touches)
        || gives_by_choice(opcode, &v.end)
}
