//! The numbers of a line.
ghost use Rattle.std.specs.Prelude.{◌≡◌, ◌<◌, ◌≤◌, ◌^◌, IfSome};
ghost use Rattle.std.specs.Char.{digit_value};
ghost use Rattle.vax_lines.specs.Numbers.{from_one, number, number_in};

/// The value of a digit, and 36 for a byte that is none.
fn digit_value(byte: u8) -> u8
    ensures { result ≡ digit_value byte }
{
    match byte {
        b'0'..=b'9' => byte - b'0',
        b'A'..=b'Z' => byte - b'A' + 10,
        b'a'..=b'z' => byte - b'a' + 10,
        _ => 36,
    }
}

/// The number that digits write, if it isn't above the greatest.
pub fn number_in(radix: u8, most: u64, word: &[u8]) -> Option<u64>
    requires low { 2 ≤ radix }
    requires high { radix ≤ 16 }
    requires small { most < 2 ^ 56 }
    ensures value { result ≡ number_in radix most word.now }
    ensures range { IfSome result (λ n. n ≤ most) }
{
    let mut value = 0u64;
    for byte in word {
        let digit = digit_value(*byte);
        if digit >= radix {
            return None;
        }
        value = value * u64::from(radix) + u64::from(digit);
        if value > most {
            return None;
        }
    }
    Some(value)
}

/// A number, if it isn't 0.
fn from_one(most: u64, number: Option<u64>) -> Option<u64>
    requires { IfSome number (λ n. n ≤ most) }
    ensures value { result ≡ from_one number }
    ensures range { IfSome result (λ n. (1 ≤ n) × (n ≤ most)) }
{
    match number {
        Some(0) | None => None,
        Some(n) => Some(n),
    }
}

/// A decimal number from 1 to the greatest.
#[tactic(auto, unfolding(crate::specs::Numbers::number))]
pub fn number(most: u64, word: &[u8]) -> Option<u64>
    requires { most < 2 ^ 56 }
    ensures value { result ≡ number most word.now }
    ensures range { IfSome result (λ n. (1 ≤ n) × (n ≤ most)) }
{
    match word {
        [] | [b'0', ..] => None,
        _ => from_one(most, number_in(10, most, word)),
    }
}
