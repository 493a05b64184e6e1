// The bytes of a statement, as a listing shows them.

ghost use Rattle.std.specs.Prelude.{◌≡◌, ◌++◌, ◌≤◌, ◌<◌, ◌+◌, IfOk, OnOk, length, take, drop};
ghost use Rattle.std.specs.List.{flat_map};
ghost use Rattle.vax_outside.specs.Hex.{hex};
ghost use Rattle.vax_asm_listing.specs.Listing as spec;

use std::alloc::AllocError;
use vax_outside::Text;
use vax_space::{Area, PAGE_BYTES};

/// How many bytes of a statement stand on a line.
const ON_A_LINE: usize = 8;

/// So many of the bytes behind the first few.
fn part(bytes: &[u8], skipped: u64, count: u32) -> &[u8]
    ensures { result.now ≡ take count (drop skipped bytes.now) }
{
    let skipped = skipped.min(bytes.len() as u64) as usize;
    let rest = bytes.split_at(skipped).1;
    rest.split_at((count as usize).min(rest.len())).0
}

/// The bytes that areas have from an address on, at most so many.
#[tactic(auto, unfolding(crate::specs::Listing::bytes_at))]
pub(crate) fn bytes_at<'a>(areas: &'a [Area], addr: u32, count: u32) -> &'a [u8]
    ensures { result.now ≡ spec.bytes_at addr count areas.entry.now }
{
    for area in areas {
        if area.has_page(addr / PAGE_BYTES) {
            let skipped = u64::from(addr).saturating_sub(512 * u64::from(area.first));
            return part(area.bytes.as_slice(), skipped, count);
        }
    }
    &[]
}

/// Whether all bytes are 0.
fn is_zero(bytes: &[u8]) -> bool
    ensures { result ≡ spec.is_zero bytes.now }
{
    bytes.iter().all(|&byte| byte == 0)
}

/// Whether bytes are counted and not shown.
#[tactic(auto, unfolding(crate::specs::Listing::is_filler))]
pub(crate) fn is_filler(bytes: &[u8]) -> bool
    ensures { result ≡ spec.is_filler bytes.now }
{
    bytes.len() > ON_A_LINE && is_zero(bytes)
}

/// Appends a byte in two digits, behind a blank.
fn push_cell(text: &mut Text, byte: u8)
    requires { length text.old + 3 ≤ 512 }
    ensures exact { text.new ≡ text.old ++ spec.cell byte }
    ensures len { length text.new ≡ length text.old + 3 }
{
    text.push(b" ");
    text.push_hex2(byte);
}

/// Up to eight bytes, each behind a blank.
fn cells(bytes: &[u8]) -> Text
    requires { length bytes.now ≤ 8 }
    ensures { result ≡ flat_map spec.cell bytes.now }
{
    let mut text = Text::new();
    for byte in bytes {
        push_cell(&mut text, *byte);
    }
    text
}

/// What stands beside a statement: its first eight bytes, or how many it has.
#[tactic(auto, unfolding(crate::specs::Listing::column))]
pub(crate) fn column(bytes: &[u8]) -> Text
    ensures { result ≡ spec.column bytes.now }
{
    if is_filler(bytes) {
        let mut text = Text::new();
        text.push(b" 00 * ");
        text.push_decimal(bytes.len() as u64);
        return text;
    }
    cells(bytes.split_at(ON_A_LINE.min(bytes.len())).0)
}

/// Appends blanks.
pub(crate) fn push_blanks(out: &mut Vec<u8>, count: usize) -> Result<(), AllocError>
    requires { count ≤ 64 }
    ensures { OnOk result (out.new.items ≡ out.old.items ++ spec.blanks count) }
{
    out.resize(out.len() + count, b' ')
}

/// Appends an address in eight digits.
pub(crate) fn push_address(out: &mut Vec<u8>, addr: u32) -> Result<(), AllocError>
    ensures { OnOk result (out.new.items ≡ out.old.items ++ hex 8 addr) }
{
    let mut text = Text::new();
    text.push_hex8(addr);
    out.extend_from_slice(text.as_slice())
}

/// Appends what stands before a byte that is one of the rest of a statement.
fn push_begin(out: &mut Vec<u8>, place: u8, addr: u32) -> Result<(), AllocError>
    ensures { OnOk result (out.new.items ≡ out.old.items ++ spec.cell_begin place addr) }
{
    if place != 0 {
        return Ok(());
    }
    push_blanks(out, 7)?;
    push_address(out, addr)
}

/// Appends a byte that is one of the rest of a statement, and tells how many stand on its line then.
fn push_rest(out: &mut Vec<u8>, place: u8, addr: u32, byte: u8) -> Result<u8, AllocError>
    requires { place ≤ 7 }
    ensures text { OnOk result (out.new.items ≡ out.old.items
        ++ (spec.cell_begin place addr ++ (spec.cell byte ++ spec.cell_end place))) }
    ensures place { IfOk result (λ p. p ≡ spec.next_place place) }
    ensures few { IfOk result (λ p. p ≤ 7) }
{
    push_begin(out, place, addr)?;
    let mut text = Text::new();
    push_cell(&mut text, byte);
    out.extend_from_slice(text.as_slice())?;
    if place == 7 {
        out.push(b'\n')?;
        return Ok(0);
    }
    Ok(place + 1)
}

/// Appends the rest of a statement's bytes, eight a line.
#[tactic(auto, unfolding(crate::specs::Listing::more_from))]
fn push_all(out: &mut Vec<u8>, addr: u32, bytes: &[u8]) -> Result<(), AllocError>
    ensures { OnOk result (out.new.items ≡ out.old.items ++ spec.more_from 0 addr bytes.now) }
{
    let mut place = 0;
    let mut at = addr;
    for byte in bytes {
        place = push_rest(out, place, at, *byte)?;
        at = at.wrapping_add(1);
    }
    if place != 0 {
        out.push(b'\n')?;
    }
    Ok(())
}

/// Appends the bytes of a statement at an address that don't stand beside it.
pub(crate) fn push_more(out: &mut Vec<u8>, addr: u32, bytes: &[u8]) -> Result<(), AllocError>
    ensures { OnOk result (out.new.items
        ≡ out.old.items ++ spec.more_by (spec.is_filler bytes.now) addr bytes.now) }
{
    if is_filler(bytes) {
        return Ok(());
    }
    let rest = bytes.split_at(ON_A_LINE.min(bytes.len())).1;
    push_all(out, addr.wrapping_add(8), rest)
}
