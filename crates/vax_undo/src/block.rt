//! The bytes of an area, and numbers in them.
ghost use Rattle.std.specs.Prelude.{◌≡◌, ℕ, ◌+◌, ◌++◌, ◌*◌, ◌<◌, ◌≤◌, length, slice_index, IfOk};
ghost use Rattle.vax_space.specs.Areas.{end_of};
ghost use Rattle.vax_undo.specs.Blocks.{number_in, low_bytes, IsStart};

use std::alloc::Global;
use vax_space::{Area, NoMemory, PAGE_BYTES};

/// The bytes of an area.
#[derive(Drop)]
pub(crate) struct Block {
    /// The address of the first.
    pub(crate) start: u32,
    pub(crate) bytes: Vec<u8>,
}

/// The number that 1 to 8 bytes are.
#[inline(always)]
pub fn number_of(bytes: &[u8]) -> u64
    requires some { 1 ≤ length bytes.now }
    requires few { length bytes.now ≤ 8 }
    ensures value { result ≡ number_in bytes.now }
{
    match bytes {
        [a] => u64::from(*a),
        [a, b] => u64::from(u16::from_le_bytes([*a, *b])),
        [a, b, c, d] => u64::from(u32::from_le_bytes([*a, *b, *c, *d])),
        [a, b, c, d, e, f, g, h] => u64::from_le_bytes([*a, *b, *c, *d, *e, *f, *g, *h]),
        _ => number_of_parts(bytes, &[]),
    }
}

/// The byte at a place in two parts, and 0 past them.
fn byte_of(low: &[u8], high: &[u8], place: usize) -> u8
    ensures { result ≡ slice_index (low.now ++ high.now) place }
{
    if place < low.len() {
        low[place]
    } else if place - low.len() < high.len() {
        high[place - low.len()]
    } else {
        0
    }
}

/// The number that at most 8 bytes in two parts are, the lower part first.
#[cold]
pub fn number_of_parts(low: &[u8], high: &[u8]) -> u64
    requires { length low.now + length high.now ≤ 8 }
    ensures { result ≡ number_in (low.now ++ high.now) }
{
    u64::from_le_bytes([
        byte_of(low, high, 0),
        byte_of(low, high, 1),
        byte_of(low, high, 2),
        byte_of(low, high, 3),
        byte_of(low, high, 4),
        byte_of(low, high, 5),
        byte_of(low, high, 6),
        byte_of(low, high, 7),
    ])
}

/// Makes 1 to 8 bytes those of a number.
#[inline(always)]
pub fn put_number(bytes: &mut [u8], value: u64)
    requires some { 1 ≤ length bytes.old }
    requires few { length bytes.old ≤ 8 }
    ensures { bytes.new ≡ low_bytes (length bytes.old) value }
{
    let all = value.to_le_bytes();
    match bytes.len() {
        1 => bytes[0] = all[0],
        2 => {
            bytes[0] = all[0];
            bytes[1] = all[1];
        }
        4 => {
            bytes[0] = all[0];
            bytes[1] = all[1];
            bytes[2] = all[2];
            bytes[3] = all[3];
        }
        8 => {
            bytes[0] = all[0];
            bytes[1] = all[1];
            bytes[2] = all[2];
            bytes[3] = all[3];
            bytes[4] = all[4];
            bytes[5] = all[5];
            bytes[6] = all[6];
            bytes[7] = all[7];
        }
        n => bytes.copy_from_slice(&all[..n]),
    }
}

impl Block {
    #[inline]
    fn new(start: u32, bytes: Vec<u8>) -> Block
        ensures start { result.start ≡ start }
        ensures bytes { result.bytes.items ≡ bytes.items }
        ensures small { (k : ℕ) → slice_index result.bytes.items k < 256 }
    {
        Block { start, bytes }
    }
}

/// The bytes of an area at the start.
pub(crate) fn block_of(alloc: Global, area: &Area) -> Result<Block, NoMemory>
    requires placed { end_of area.now ≤ 0x401000 }
    requires bytes { length area.now.bytes ≤ 512 * area.now.pages }
    ensures { IfOk result (IsStart area.now) }
{
    let count = (PAGE_BYTES * area.pages) as usize;
    let mut bytes = Vec::with_capacity(alloc, count)?;
    bytes.extend_from_slice(area.bytes.as_slice())?;
    bytes.resize(count, 0)?;
    Ok(Block::new(PAGE_BYTES * area.first, bytes))
}
