//! The numbers of a script.
ghost use Rattle.std.specs.Prelude.{◌≡◌, ◌<◌, ◌≤◌, ◌-◌, ◌*◌, length, IfSome};
ghost use Rattle.vax_script.specs.Numbers.{byte, bytes, longword, register, register_number, some_bytes};

use crate::request::Deposit;
use vax_lines::{number, number_in};

/// The number of a register.
fn register_number(word: &[u8]) -> Option<u8>
    ensures value { result ≡ register_number word.now }
    ensures range { IfSome result (λ n. n < 16) }
{
    match word {
        b"0" => Some(0),
        _ => number(15, word).map(|n| n as u8),
    }
}

/// A register's name.
#[tactic(auto, unfolding(crate::specs::Numbers::register))]
pub(crate) fn register(word: &[u8]) -> Option<u8>
    ensures value { result ≡ register word.now }
    ensures range { IfSome result (λ n. n < 16) }
{
    let (letter, digits) = word.split_first()?;
    if *letter != b'R' {
        return None;
    }
    register_number(digits)
}

/// Eight hexadecimal digits.
#[tactic(auto, unfolding(crate::specs::Numbers::longword))]
pub(crate) fn longword(word: &[u8]) -> Option<u32>
    ensures { result ≡ longword word.now }
{
    if word.len() != 8 {
        return None;
    }
    number_in(16, u64::from(u32::MAX), word).map(|n| n as u32)
}

/// Two hexadecimal digits.
fn byte(high: u8, low: u8) -> Option<u8>
    ensures { result ≡ byte high low }
{
    number_in(16, 255, &[high, low]).map(|n| n as u8)
}

/// Bytes of two hexadecimal digits each, at most 64.
fn bytes(word: &[u8]) -> Option<Deposit>
    requires { length word.now ≤ 128 }
    ensures value { result ≡ bytes word.now }
    ensures count { IfSome result (λ found. 2 * length found ≡ length word.now) }
{
    let mut found = Deposit::new();
    let mut rest = word;
    while let Some((high, behind)) = rest.split_first() {
        let (low, behind) = behind.split_first()?;
        found.push(byte(*high, *low)?);
        rest = behind;
    }
    Some(found)
}

/// 1 to 64 bytes of two hexadecimal digits each.
#[tactic(auto, unfolding(crate::specs::Numbers::some_bytes))]
pub(crate) fn some_bytes(word: &[u8]) -> Option<Deposit>
    ensures value { result ≡ some_bytes word.now }
    ensures some { IfSome result (λ bytes. 1 ≤ length bytes) }
    ensures few { IfSome result (λ bytes. length bytes ≤ 64) }
{
    if word.is_empty() || word.len() > 128 {
        return None;
    }
    bytes(word)
}
