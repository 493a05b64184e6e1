//! Programs that are made from two numbers.
ghost use Rattle.std.specs.Prelude.{◌≡◌, ◌+◌, ◌*◌, ◌/◌, ◌%◌, ◌≤◌, ◌++◌, ◌^◌, IfOk, OnOk, string_bytes};
ghost use Rattle.vax_guest.specs.Executive.{line};
ghost use Rattle.vax_guest.specs.Workload.{following, instruction, workload};

use std::alloc::{AllocError, Global};
use vax_space::NoMemory;

/// The number after another.
fn following(x: u32) -> u32
    ensures { result ≡ following x }
{
    x.wrapping_mul(1_664_525).wrapping_add(1_013_904_223)
}

/// Appends the line of a number's instruction.
#[tactic(auto, unfolding(crate::specs::Workload::instruction))]
fn push_instruction(text: &mut String, x: u32) -> Result<(), AllocError>
    ensures { OnOk result (string_bytes text.new ≡ string_bytes text.old ++ line (instruction x)) }
{
    let v = x % 65536;
    let w = 37 * v % 65536;
    let a = 6 + x / 0x1_0000 % 4;
    let b = 6 + x / 0x4_0000 % 4;
    match x / 0x100_0000 % 8 {
        0 => writeln!(text, "ADDL2 #{v},R{a}"),
        1 => writeln!(text, "SUBL3 R{a},#{v},R{b}"),
        2 => writeln!(text, "MULL2 #{v},R{a}"),
        3 => writeln!(text, "XORL2 R{b},R{a}"),
        4 => writeln!(text, "ROTL #7,R{a},R{b}"),
        5 => writeln!(text, "MOVB R{a},BUF+{v}"),
        6 => writeln!(text, "MOVC3 #256,BUF+{v},BUF+{w}"),
        _ => writeln!(text, "EXTZV #4,#12,R{a},R{b}"),
    }
}

/// The source of a program of `size` instructions that follow from the seed, between its entry and a CHMK that ends it.
/// It is the same at each call.
#[tactic(auto, unfolding(crate::specs::Workload::workload))]
pub fn generate(alloc: Global, seed: u32, size: u32) -> Result<Vec<u8>, NoMemory>
    requires some { 1 ≤ size }
    requires most { size ≤ 5000 }
    ensures { IfOk result (λ text. text.items ≡ workload seed size) }
{
    let mut text = String::from_str(
        alloc,
        ".PSECT DATA\nBUF: .BLKB 66048\n.PSECT CODE,NOWRT\n.ENTRY START,^M<>\n",
    )?;
    let mut x = seed;
    for _ in 0..size {
        x = following(x);
        push_instruction(&mut text, x)?;
    }
    text.push_str("CHMK #0\n.END START\n")?;
    Ok(text.into_bytes())
}
