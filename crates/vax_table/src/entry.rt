//! Page table entries.
ghost use Rattle.std.specs.Prelude.{◌≡◌, ℕ, ◌+◌, ◌*◌, ◌≤◌, ◌<◌, ◌^◌, length, IfSome};
ghost use Rattle.vax_table.specs.Entry as spec;
ghost use Rattle.vax_table.specs.Mapping.{changed, prot_said};

use crate::Walk;
use byteorder::{ByteOrder, LittleEndian};

const VALID: u32 = 0x8000_0000;

const PROTECTION: u32 = 0x0800_0000;

const MODIFIED: u32 = 0x0400_0000;

const FRAMES: u32 = 0x0020_0000;

/// The protection code of the entries of pages in no area.
pub const NO_AREA: u8 = 1;

/// The protection code in bits 30:27.
#[inline]
pub(crate) fn prot_in(entry: u32) -> u8
    ensures value { result ≡ spec.prot_in entry }
    ensures small { result ≤ 15 }
{
    (entry / PROTECTION % 16) as u8
}

/// The page frame number in bits 20:0.
#[inline]
pub(crate) fn frame_in(entry: u32) -> u32
    ensures value { result ≡ spec.frame_in entry }
    ensures small { result < 2 ^ 21 }
{
    entry % FRAMES
}

#[inline]
pub(crate) fn entry_with(valid: bool, prot: u8, modified: bool, frame: u32) -> u32
    requires prot { prot ≤ 15 }
    requires frame { frame < 2 ^ 21 }
    ensures { result ≡ spec.entry_with valid prot modified frame }
{
    let valid = if valid { VALID } else { 0 };
    let modified = if modified { MODIFIED } else { 0 };
    valid + u32::from(prot) * PROTECTION + modified + frame
}

/// What an entry says of its page.
#[inline]
#[tactic(auto, unfolding(crate::specs::Entry::said_by))]
pub(crate) fn said_by(entry: u32) -> Walk
    ensures value { result ≡ spec.said_by entry }
    ensures small { IfSome (prot_said result) (λ prot. prot ≤ 15) }
{
    let prot = prot_in(entry);
    if prot == NO_AREA {
        Walk::Outside { length: false }
    } else if entry / VALID % 2 == 1 {
        Walk::Resident {
            frame: frame_in(entry),
            prot,
            modified: entry / MODIFIED % 2 == 1,
        }
    } else {
        Walk::Absent { prot }
    }
}

/// The frame that the entry of an absent page remembers.
#[inline]
#[tactic(auto, unfolding(crate::specs::Entry::kept_by))]
pub(crate) fn kept_by(entry: u32) -> Option<u32>
    ensures value { result ≡ spec.kept_by entry }
    ensures small { IfSome result (λ frame. frame < 2 ^ 21) }
{
    if entry / VALID % 2 == 0 && entry / MODIFIED % 2 == 1 {
        Some(frame_in(entry))
    } else {
        None
    }
}

/// The entry at a place, counted in longwords.
#[inline]
#[tactic(auto, unfolding(crate::specs::Entry::entry_at))]
pub(crate) fn entry_at(bytes: &[u8], place: usize) -> u32
    requires { 4 * place + 4 ≤ length bytes.now }
    ensures { result ≡ spec.entry_at bytes.now place }
{
    LittleEndian::read_u32(&bytes[4 * place..])
}

/// Writes the entry at a place, and leaves all others.
#[inline]
pub(crate) fn put_entry(bytes: &mut [u8], place: usize, entry: u32)
    requires { 4 * place + 4 ≤ length bytes.old }
    ensures size { length bytes.new ≡ length bytes.old }
    ensures entries { (n : ℕ)
        → spec.entry_at bytes.new n ≡ changed (spec.entry_at bytes.old) place entry n }
{
    LittleEndian::write_u32(&mut bytes[4 * place..4 * place + 4], entry);
}
