//! The text of vectors.
ghost use Rattle.std.specs.Prelude.{◌≡◌, ◌∷◌, [], ◌++◌, ◌*◌, ◌<◌, ℕ, List, OnOk, decimal};
ghost use Rattle.vax_vectors.specs.Text.{address_text, array, cell_text, character, comma_before, ending_text, ends_text, final_text, initial_text, json_text, letter, memory_text, page_text, registers, states_text, string, touch_text, touched_text, truth};

use crate::choices::rests_on_choice;
use crate::vector::{Cell, End, Ends, Page, Start, Touch, Vector};
use itoa::Buffer;
use std::alloc::AllocError;
use vax_flat::Ending;
use vax_space::Access;
use vax_word::Core;

/// An item of an array.
trait Item {
    ghost text: { Self → List ℕ };

    /// Appends its text.
    fn push_to(&self, out: &mut Vec<u8>) -> Result<(), AllocError>
        ensures { OnOk result (out.new.items ≡ out.old.items ++ text self.now) };
}

/// Appends a number in decimal digits.
fn push_number(out: &mut Vec<u8>, n: u64) -> Result<(), AllocError>
    ensures { OnOk result (out.new.items ≡ out.old.items ++ decimal n) }
{
    out.extend_from_slice(Buffer::new().format(n).as_bytes())?;
    Ok(())
}

impl Item for u8 {
    ghost text = { decimal };

    fn push_to(&self, out: &mut Vec<u8>) -> Result<(), AllocError> {
        push_number(out, u64::from(*self))
    }
}

impl Item for u32 {
    ghost text = { decimal };

    fn push_to(&self, out: &mut Vec<u8>) -> Result<(), AllocError> {
        push_number(out, u64::from(*self))
    }
}

impl Item for Cell {
    ghost text = { cell_text };

    #[tactic(auto, unfolding(crate::specs::Text::cell_text))]
    fn push_to(&self, out: &mut Vec<u8>) -> Result<(), AllocError> {
        out.extend_from_slice(b"[")?;
        push_number(out, u64::from(self.addr))?;
        out.extend_from_slice(b",")?;
        push_number(out, u64::from(self.byte))?;
        out.extend_from_slice(b"]")
    }
}

impl Item for Page {
    ghost text = { page_text };

    #[tactic(auto, unfolding(crate::specs::Text::page_text))]
    fn push_to(&self, out: &mut Vec<u8>) -> Result<(), AllocError> {
        out.extend_from_slice(b"[")?;
        push_number(out, 512 * u64::from(self.number))?;
        out.extend_from_slice(b",")?;
        push_number(out, u64::from(self.prot))?;
        out.extend_from_slice(b"]")
    }
}

impl Item for Touch {
    ghost text = { touch_text };

    #[tactic(auto, unfolding(crate::specs::Text::touch_text))]
    fn push_to(&self, out: &mut Vec<u8>) -> Result<(), AllocError> {
        out.extend_from_slice(b"[")?;
        out.extend_from_slice(letter(self.access))?;
        out.extend_from_slice(b",")?;
        push_number(out, u64::from(self.addr))?;
        out.extend_from_slice(b",")?;
        push_number(out, self.bytes.as_slice().len() as u64)?;
        out.extend_from_slice(b",")?;
        push_array(out, self.bytes.as_slice())?;
        out.extend_from_slice(b"]")
    }
}

fn letter(access: Access) -> &'static [u8]
    ensures { result.now ≡ letter access }
{
    match access {
        Access::Read => b"\"r\"",
        Access::Write => b"\"w\"",
    }
}

/// Appends a comma before each item of an array but the first.
#[tactic(auto, unfolding(crate::specs::Text::comma_before))]
fn push_comma(out: &mut Vec<u8>, before: usize) -> Result<(), AllocError>
    ensures { OnOk result (out.new.items ≡ out.old.items ++ comma_before before) }
{
    if before > 0 {
        out.extend_from_slice(b",")?;
    }
    Ok(())
}

/// Appends an array.
fn push_array<T: Item>(out: &mut Vec<u8>, items: &[T]) -> Result<(), AllocError>
    ensures { OnOk result (out.new.items ≡ out.old.items ++ array T.text items.now) }
{
    out.extend_from_slice(b"[")?;
    for (k, item) in items.iter().enumerate() {
        push_comma(out, k)?;
        item.push_to(out)?;
    }
    out.extend_from_slice(b"]")?;
    Ok(())
}

/// Appends the addresses of pages.
fn push_addresses(out: &mut Vec<u8>, pages: &[u32]) -> Result<(), AllocError>
    ensures { OnOk result (out.new.items ≡ out.old.items ++ array address_text pages.now) }
{
    out.extend_from_slice(b"[")?;
    for (k, page) in pages.iter().enumerate() {
        push_comma(out, k)?;
        push_address(out, *page)?;
    }
    out.extend_from_slice(b"]")?;
    Ok(())
}

/// Appends the address of a page.
#[tactic(auto, unfolding(crate::specs::Text::address_text))]
fn push_address(out: &mut Vec<u8>, page: u32) -> Result<(), AllocError>
    ensures { OnOk result (out.new.items ≡ out.old.items ++ address_text page) }
{
    push_number(out, 512 * u64::from(page))
}

/// Appends a string.
#[tactic(auto, unfolding(crate::specs::Text::string))]
fn push_string(out: &mut Vec<u8>, bytes: &[u8]) -> Result<(), AllocError>
    ensures { OnOk result (out.new.items ≡ out.old.items ++ string bytes.now) }
{
    out.extend_from_slice(b"\"")?;
    for byte in bytes {
        out.extend_from_slice(&[shown(*byte)])?;
    }
    out.extend_from_slice(b"\"")
}

/// A character of a string: quotes, backslashes and what isn't printable ASCII are shown as question marks.
#[tactic(auto, unfolding(crate::specs::Text::character))]
fn shown(c: u8) -> u8
    ensures { character c ≡ result ∷ [] }
{
    if c < 32 || c > 126 || c == b'"' || c == b'\\' {
        b'?'
    } else {
        c
    }
}

fn push_ending(out: &mut Vec<u8>, ending: Ending) -> Result<(), AllocError>
    ensures { OnOk result (out.new.items ≡ out.old.items ++ ending_text ending) }
{
    match ending {
        Ending::Halt => out.extend_from_slice(b"\"halt\""),
        Ending::Vector(offset) => {
            out.extend_from_slice(b"\"vector\",")?;
            push_number(out, u64::from(offset))
        }
        Ending::Stack => out.extend_from_slice(b"\"stack\""),
        Ending::Scb => out.extend_from_slice(b"\"scb\""),
        Ending::Change => out.extend_from_slice(b"\"change\""),
    }
}

/// Appends how a step ended.
fn push_ends(out: &mut Vec<u8>, ends: Ends) -> Result<(), AllocError>
    ensures { OnOk result (out.new.items ≡ out.old.items ++ ends_text ends) }
{
    match ends {
        Ends::Step(None) => return out.extend_from_slice(b"[\"step\"]"),
        Ends::Step(Some(byte)) => {
            out.extend_from_slice(b"[\"step\",")?;
            push_number(out, u64::from(byte))?;
        }
        Ends::Part { opcode, units } => {
            out.extend_from_slice(b"[\"part\",")?;
            push_number(out, u64::from(opcode))?;
            out.extend_from_slice(b",")?;
            push_number(out, u64::from(units))?;
        }
        Ends::Absent(page) => {
            out.extend_from_slice(b"[\"absent\",")?;
            push_address(out, page)?;
        }
        Ends::Ended(ending) => {
            out.extend_from_slice(b"[\"ended\",")?;
            push_ending(out, ending)?;
        }
    }
    out.extend_from_slice(b"]")
}

/// Appends the fields of the registers.
#[tactic(auto, unfolding(crate::specs::Text::registers))]
fn push_registers(out: &mut Vec<u8>, core: &Core) -> Result<(), AllocError>
    ensures { OnOk result (out.new.items ≡ out.old.items ++ registers core.now) }
{
    out.extend_from_slice(b"\"regs\":")?;
    push_array(out, &core.regs)?;
    out.extend_from_slice(b",\"psl\":")?;
    push_number(out, u64::from(core.psl.0))?;
    out.extend_from_slice(b",\"stacks\":")?;
    push_array(out, &core.stacks)?;
    out.extend_from_slice(b",\"sisr\":")?;
    push_number(out, u64::from(core.sisr))?;
    out.extend_from_slice(b",\"iccs\":")?;
    push_number(out, u64::from(core.iccs))?;
    out.extend_from_slice(b",\"clock\":")?;
    push_number(out, u64::from(core.clock))
}

/// Appends what a step begins with.
#[tactic(auto, unfolding(crate::specs::Text::initial_text))]
fn push_initial(out: &mut Vec<u8>, start: &Start) -> Result<(), AllocError>
    ensures { OnOk result (out.new.items ≡ out.old.items ++ initial_text start.now) }
{
    out.extend_from_slice(b"\"initial\":{")?;
    push_registers(out, &start.core)?;
    push_memory(out, start)?;
    out.extend_from_slice(b"}")
}

/// Appends the memory that a step begins with.
#[tactic(auto, unfolding(crate::specs::Text::memory_text))]
fn push_memory(out: &mut Vec<u8>, start: &Start) -> Result<(), AllocError>
    ensures { OnOk result (out.new.items ≡ out.old.items ++ memory_text start.now) }
{
    out.extend_from_slice(b",\"pages\":")?;
    push_array(out, start.pages.as_slice())?;
    out.extend_from_slice(b",\"absent\":")?;
    push_addresses(out, start.absent.as_slice())?;
    out.extend_from_slice(b",\"ram\":")?;
    push_array(out, start.ram.as_slice())
}

/// Appends what a step leaves.
#[tactic(auto, unfolding(crate::specs::Text::final_text))]
fn push_final(out: &mut Vec<u8>, end: &End) -> Result<(), AllocError>
    ensures { OnOk result (out.new.items ≡ out.old.items ++ final_text end.now) }
{
    out.extend_from_slice(b"\"final\":{")?;
    push_registers(out, &end.core)?;
    out.extend_from_slice(b",\"ram\":")?;
    push_array(out, end.ram.as_slice())?;
    out.extend_from_slice(b"}")
}

/// Appends what a step touches.
#[tactic(auto, unfolding(crate::specs::Text::touched_text))]
fn push_touched(out: &mut Vec<u8>, v: &Vector) -> Result<(), AllocError>
    ensures { OnOk result (out.new.items ≡ out.old.items ++ touched_text v.now) }
{
    out.extend_from_slice(b"\"touched\":")?;
    push_addresses(out, v.touched.as_slice())?;
    out.extend_from_slice(b",\"accesses\":")?;
    push_array(out, v.end.touches.as_slice())
}

/// Appends the line of a vector: one JSON object, with a line feed behind it. It fails where memory is refused.
#[tactic(auto, unfolding(crate::specs::Text::json_text))]
pub fn push_vector(out: &mut Vec<u8>, v: &Vector) -> Result<(), AllocError>
    ensures { OnOk result (out.new.items ≡ out.old.items ++ json_text v.now) }
{
    out.extend_from_slice(b"{\"name\":")?;
    push_string(out, v.name.as_slice())?;
    push_states(out, v)?;
    push_touched(out, v)?;
    out.extend_from_slice(b",\"ends\":")?;
    push_ends(out, v.end.ends)?;
    out.extend_from_slice(b",\"profile\":")?;
    out.extend_from_slice(truth(rests_on_choice(v)))?;
    out.extend_from_slice(b"}\n")
}

/// The text of a truth.
fn truth(is: bool) -> &'static [u8]
    ensures { result.now ≡ truth is }
{
    if is { b"true" } else { b"false" }
}

/// Appends what a step begins with and what it leaves.
#[tactic(auto, unfolding(crate::specs::Text::states_text))]
fn push_states(out: &mut Vec<u8>, v: &Vector) -> Result<(), AllocError>
    ensures { OnOk result (out.new.items ≡ out.old.items ++ states_text v.now) }
{
    out.extend_from_slice(b",")?;
    push_initial(out, &v.start)?;
    out.extend_from_slice(b",")?;
    push_final(out, &v.end)?;
    out.extend_from_slice(b",")
}
