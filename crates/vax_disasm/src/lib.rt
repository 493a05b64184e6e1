//! The disassembler: the text of the instruction that bytes are (VAX MACRO and Instruction Set Reference Manual, "Addressing modes").
//!
//! The bytes are read by the grammar of operands that the machine goes by (`vax_flat`, specs/Grammar), and each form has one text, which
//! says how many bytes it has: `S^#`, `I^#`, and `B^`, `W^` and `L^` before each displacement. So the text means the same bytes whatever names
//! are defined around it. specs/Text has the texts.
#![tactic(auto)]

ghost use Rattle.std.specs.Prelude.{◌≡◌, ◌≤◌, length, drop, option_map, All, IfSome};
ghost use Rattle.vax_isa.specs.Rows.{IsKind};
ghost use Rattle.vax_flat.specs.Grammar.{read_operands};
ghost use Rattle.vax_disasm.specs.Listed.{listed, unreserved, behind, with_length, IsDecoded};
ghost use Rattle.vax_disasm.specs.Seen.{decoded_seen};

mod reading;
mod specifier;
mod text;

use crate::reading::read_operand;
use crate::text::push_specifier;
use arrayvec::ArrayString;
use vax_isa::{OperandKind, by_code};

/// An instruction: how many bytes it has, and its text.
#[derive(Clone, Copy, PartialEq)]
pub struct Decoded {
    pub length: u8,
    pub text: ArrayString<160>,
}

/// Appends operands of these kinds, each behind a separator, and gives how many bytes the instruction has with its opcode. The bytes begin
/// with the opcode, which lies at an address.
fn push_operands(
    text: &mut ArrayString<160>,
    kinds: &[OperandKind],
    bytes: &[u8],
    addr: u32,
) -> Option<u8>
    requires kinds { All IsKind kinds.now }
    requires few { length kinds.now ≤ 6 }
    requires opcode { 1 ≤ length bytes.now }
    requires room { length text.old.bytes ≤ 6 }
    ensures { option_map (with_length text.new.bytes) result
        ≡ option_map (behind 1 text.old.bytes 32 addr)
        (unreserved (read_operands kinds.now (drop 1 bytes.now))) }
{
    let mut length = 1;
    let mut separator = ' ';
    for kind in kinds {
        let read = read_operand(*kind, &bytes[length as usize..])?;
        length += read.count;
        text.push(separator);
        let next = addr.wrapping_add(u32::from(length));
        push_specifier(text, *kind, next, read.specifier);
        separator = ',';
    }
    Some(length)
}

fn instruction(bytes: &[u8], addr: u32) -> Option<Decoded>
    ensures exact { option_map decoded_seen result ≡ listed bytes.now addr }
    ensures few { IfSome result (λ d. d.length ≤ 255) }
{
    let (code, _) = bytes.split_first()?;
    let row = by_code(*code)?;
    let mut text = ArrayString::new();
    text.push_str(row.name);
    let kinds = &row.operands[..row.count as usize];
    let length = push_operands(&mut text, kinds, bytes, addr)?;
    Some(Decoded { length, text })
}

/// The instruction that the first bytes are, where these lie at an address. None exactly where no instruction begins the bytes: the first
/// is no opcode, they end too early, or an operand has a reserved addressing mode.
///
/// The text is the instruction's name, and behind a space its operands with commas between them: `R0` to `R11`, `AP`, `FP`, `SP`, `PC`;
/// `(R1)`, `-(R1)`, `(R1)+`, `@(R1)+`; `S^#^X05` for a literal, and `I^#^X00000005` for an immediate with two digits for each byte; `@#^X80000200`;
/// `B^-5(R1)` and `@B^-5(R1)` for a displacement, in decimal, of a byte, and with `W^` and `L^` of a word and a longword; `[R2]` behind a
/// form that has an index; and `^X80000200` where a branch goes. Hexadecimal digits are capitals.
pub fn decode(bytes: &[u8], addr: u32) -> Option<Decoded>
    ensures exact { option_map decoded_seen result ≡ listed bytes.now addr }
    // There is one exactly where the grammar reads an instruction.
    ensures grammar { IsDecoded bytes.now addr (option_map decoded_seen result) }
{
    instruction(bytes, addr)
}
