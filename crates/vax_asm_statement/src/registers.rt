// The names of registers.

ghost use Rattle.std.specs.Prelude.{◌≡◌, ◌<◌, IfSome};
ghost use Rattle.vax_asm_statement.specs.Registers.{two_characters, three_characters, register_of};

fn two_characters(first: u8, second: u8) -> Option<u8>
    ensures value { result ≡ two_characters first second }
    ensures within { IfSome result (λ n. n < 16) }
{
    match (first.to_ascii_uppercase(), second.to_ascii_uppercase()) {
        (b'R', digit) => if digit >= b'0' && digit <= b'9' {
            Some(digit - b'0')
        } else {
            None
        },
        (b'A', b'P') => Some(12),
        (b'F', b'P') => Some(13),
        (b'S', b'P') => Some(14),
        (b'P', b'C') => Some(15),
        _ => None,
    }
}

fn three_characters(first: u8, second: u8, third: u8) -> Option<u8>
    ensures value { result ≡ three_characters first second third }
    ensures within { IfSome result (λ n. n < 16) }
{
    if first.to_ascii_uppercase() == b'R' && second == b'1' && third >= b'0' && third <= b'5' {
        Some(10 + (third - b'0'))
    } else {
        None
    }
}

/// The number of the register with this name: R0 to R15, AP, FP, SP and PC, in letters of either case
/// (VAX MACRO and Instruction Set Reference Manual, "Symbols", register symbols).
pub fn register_named(name: &[u8]) -> Option<u8>
    ensures value { result ≡ register_of name.now }
    ensures within { IfSome result (λ n. n < 16) }
{
    match name {
        [first, second] => two_characters(*first, *second),
        [first, second, third] => three_characters(*first, *second, *third),
        _ => None,
    }
}
