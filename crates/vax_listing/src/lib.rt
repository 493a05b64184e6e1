//! The listing of a program: its areas disassembled, a line for each instruction.
//!
//! Nothing here takes memory: lines are held in a buffer of fixed size, and written when that is full.
#![tactic(auto)]

ghost use Rattle.std.specs.Prelude.{◌≡◌, ◌+◌, ◌<◌, ◌≤◌, ◌++◌, None, length, slice_index, OnErr, OnOk, is_err};
ghost use Rattle.vax_outside.specs.Channels.{Grew, GrewByPrefix, only};
ghost use Rattle.vax_outside.specs.Faults.{CountsFailure};
ghost use Rattle.vax_disasm.specs.Listed.{listed};
ghost use Rattle.vax_listing.specs.Listing.{area_lines, length_of, line, listing, text_of};
ghost use Rattle.vax_listing.specs.Writing.{GoesOn};

use arrayvec::ArrayVec;
use vax_disasm::decode;
use vax_outside::{Chan, Failed, Sink, Text, put_all};
use vax_space::{Area, PAGE_BYTES};

/// How many bytes of lines are held back.
const HELD: usize = 4_096;

/// The longest line: an address, a space, the text of an instruction and LF.
const LINE: usize = 170;

/// Lines on their way to Out.
type Lines = ArrayVec<u8, 4096>;

/// Appends the line of a text at an address.
#[tactic(auto, unfolding(crate::specs::Listing::line))]
fn push_line(lines: &mut Lines, addr: u32, text: &[u8])
    requires short { length text.now ≤ 160 }
    requires room { length lines.old.items + 170 ≤ 4096 }
    ensures { lines.new.items ≡ lines.old.items ++ line addr text.now }
{
    let mut whole = Text::new();
    whole.push_hex8(addr);
    whole.push(b" ");
    whole.push(text);
    whole.push(b"\n");
    lines.try_extend_from_slice(whole.as_slice()).unwrap();
}

/// Appends the line of a byte that begins no instruction.
fn push_byte(lines: &mut Lines, addr: u32, byte: u8)
    requires { length lines.old.items + 170 ≤ 4096 }
    ensures { lines.new.items ≡ lines.old.items ++ line addr (text_of byte None) }
{
    let mut text = Text::new();
    text.push(b".BYTE ^X");
    text.push_hex2(byte);
    push_line(lines, addr, text.as_slice());
}

/// Appends the line of the first bytes, which lie at an address, and gives how many of them it is for.
fn push_first(lines: &mut Lines, addr: u32, bytes: &[u8]) -> u8
    requires some { 0 < length bytes.now }
    requires room { length lines.old.items + 170 ≤ 4096 }
    ensures line { lines.new.items ≡ lines.old.items
        ++ line addr (text_of (slice_index bytes.now 0) (listed bytes.now addr)) }
    ensures count { result ≡ length_of (listed bytes.now addr) }
    ensures some { 0 < result }
{
    match decode(bytes, addr) {
        Some(decoded) => {
            push_line(lines, addr, decoded.text.as_str().as_bytes());
            decoded.length
        }
        None => {
            push_byte(lines, addr, bytes[0]);
            1
        }
    }
}

/// Writes the lines that are held, where there is no room for another.
fn make_room<K: Sink>(lines: &mut Lines, sink: &mut K) -> Result<(), Failed>
    ensures ok { OnOk result (GoesOn (K.contents sink.old)
        (K.contents sink.new) lines.old.items lines.new.items) }
    ensures room { OnOk result (length lines.new.items + 170 ≤ 4096) }
    ensures prefix { OnErr result (GrewByPrefix (K.contents sink.old) (K.contents sink.new)
        (only Chan.Out lines.old.items)) }
    ensures counts { CountsFailure (is_err result) (K.faults sink.old) (K.faults sink.new) }
{
    if lines.len() + LINE <= HELD {
        return Ok(());
    }
    put_all(sink, Chan::Out, lines)?;
    lines.clear();
    Ok(())
}

/// Writes the lines of an area.
fn write_area<K: Sink>(area: &Area, sink: &mut K) -> Result<(), Failed>
    ensures ok { OnOk result (Grew (K.contents sink.old) (K.contents sink.new)
        (only Chan.Out (area_lines area.now))) }
    ensures prefix { OnErr result (GrewByPrefix (K.contents sink.old) (K.contents sink.new)
        (only Chan.Out (area_lines area.now))) }
    ensures counts { CountsFailure (is_err result) (K.faults sink.old) (K.faults sink.new) }
{
    let mut lines = ArrayVec::new();
    let mut addr = area.first.wrapping_mul(PAGE_BYTES);
    let mut rest = area.bytes.as_slice();
    while !rest.is_empty() {
        make_room(&mut lines, sink)?;
        let count = push_first(&mut lines, addr, rest);
        rest = rest.split_at(usize::from(count).min(rest.len())).1;
        addr = addr.wrapping_add(u32::from(count));
    }
    put_all(sink, Chan::Out, &lines)
}

/// Writes the listing of areas to Out: for each area, from its first byte to the end of its bytes, a line for each instruction, with its address in
/// eight hexadecimal digits and, behind a space, its text ([`decode`]). A byte that begins no instruction has a line with `.BYTE ^X` and its two
/// digits. After a failure a prefix of the lines was written.
#[tactic(auto, unfolding(crate::specs::Listing::listing))]
pub fn write_listing<K: Sink>(areas: &[Area], sink: &mut K) -> Result<(), Failed>
    ensures ok { OnOk result (Grew (K.contents sink.old) (K.contents sink.new)
        (only Chan.Out (listing areas.now))) }
    ensures prefix { OnErr result (GrewByPrefix (K.contents sink.old) (K.contents sink.new)
        (only Chan.Out (listing areas.now))) }
    ensures counts { CountsFailure (is_err result) (K.faults sink.old) (K.faults sink.new) }
{
    for area in areas {
        write_area(area, sink)?;
    }
    Ok(())
}
