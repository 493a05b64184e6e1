// The header of an executable, and its numbers.
ghost use Rattle.std.specs.Prelude.{◌≡◌, ◌≤◌, ◌<◌, ◌+◌, ◌*◌, ◌^◌, Err, IfOk, length};
ghost use Rattle.vax_elf.specs.declared.faults.ElfError.TheVariants.{Fault};
ghost use Rattle.vax_elf.specs.Executable as spec;
ghost use Rattle.vax_elf.specs.Faults.{Gives};
ghost use Rattle.vax_elf.specs.Reading as reading;

use crate::faults::{ElfError, ElfFault};
use byteorder::{ByteOrder, LittleEndian};

/// The bytes of the header.
const HEADER_BYTES: usize = 52;

/// The bytes of a program header.
pub(crate) const PROGRAM_HEADER_BYTES: u32 = 32;

/// The number in the two bytes at an offset.
pub(crate) fn half_at(file: &[u8], offset: usize) -> u16
    requires { offset + 2 ≤ length file.now }
    ensures { result ≡ spec.half_at file.now offset }
{
    LittleEndian::read_u16(&file[offset..])
}

/// The number in the four bytes at an offset.
pub(crate) fn word_at(file: &[u8], offset: usize) -> u32
    requires { offset + 4 ≤ length file.now }
    ensures { result ≡ spec.word_at file.now offset }
{
    LittleEndian::read_u32(&file[offset..])
}

/// A fault at a field of the header.
fn at(place: u32, kind: ElfFault) -> Result<u16, ElfError>
    ensures { result ≡ Err (Fault place kind) }
{
    Err(ElfError::Fault { place, kind })
}

/// 32 bits, low bytes first, the first version.
#[tactic(auto, unfolding(crate::specs::Reading::told_by))]
fn told_by(file: &[u8]) -> Result<u16, ElfError>
    requires { 52 ≤ length file.now }
    ensures { Gives (λ n. n) result (reading.told_by file.now) }
{
    if file[4] != 1 {
        return at(4, ElfFault::Class);
    }
    if file[5] != 1 {
        return at(5, ElfFault::Order);
    }
    if file[6] != 1 {
        return at(6, ElfFault::Version);
    }
    Ok(half_at(file, 44))
}

/// An executable with fixed addresses, for the VAX.
#[tactic(auto, unfolding(crate::specs::Reading::named_by))]
fn named_by(file: &[u8]) -> Result<u16, ElfError>
    requires { 52 ≤ length file.now }
    ensures { Gives (λ n. n) result (reading.named_by file.now) }
{
    if half_at(file, 16) != 2 {
        return at(16, ElfFault::Kind);
    }
    if half_at(file, 18) != 75 {
        return at(18, ElfFault::Machine);
    }
    if word_at(file, 20) != 1 {
        return at(20, ElfFault::Version);
    }
    Ok(half_at(file, 44))
}

/// 1 to 64 program headers, which stand in the file.
#[tactic(auto, unfolding(crate::specs::Reading::sized_by))]
fn sized_by(file: &[u8]) -> Result<u16, ElfError>
    requires { 52 ≤ length file.now }
    ensures gives { Gives (λ n. n) result (reading.sized_by file.now) }
    ensures few { IfOk result (λ n. n ≤ 64) }
    ensures within { IfOk result (λ n. spec.headers_begin file.now + 32 * n ≤ length file.now) }
    ensures small { IfOk result (λ n. spec.headers_begin file.now + 32 * n < 2 ^ 32) }
{
    if half_at(file, 40) != 52 {
        return at(40, ElfFault::Sizes);
    }
    if half_at(file, 42) != 32 {
        return at(42, ElfFault::Sizes);
    }
    let count = half_at(file, 44);
    if count == 0 || count > 64 {
        return at(44, ElfFault::Count);
    }
    let end = u64::from(word_at(file, 28)) + 32 * u64::from(count);
    if (file.len() as u64).min(0xFFFF_FFFF) < end {
        return at(28, ElfFault::Short);
    }
    Ok(count)
}

/// The number of the program headers, 1 to 64, or the first fault of the header.
#[tactic(auto, unfolding(crate::specs::Reading::header_of))]
pub(crate) fn header_of(file: &[u8]) -> Result<u16, ElfError>
    ensures gives { Gives (λ n. n) result (reading.header_of file.now) }
    ensures whole { IfOk result (λ n. 52 ≤ length file.now) }
    ensures few { IfOk result (λ n. n ≤ 64) }
    ensures within { IfOk result (λ n. spec.headers_begin file.now + 32 * n ≤ length file.now) }
    ensures small { IfOk result (λ n. spec.headers_begin file.now + 32 * n < 2 ^ 32) }
{
    if file.len() < HEADER_BYTES {
        return at(0, ElfFault::Short);
    }
    told_by(file)?;
    named_by(file)?;
    sized_by(file)
}
