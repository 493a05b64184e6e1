//! Numbers.
ghost use Rattle.std.specs.Prelude.{◌≡◌, ◌<◌, ◌≤◌, ◌==◌, IfSome, slice_index};
ghost use Rattle.std.specs.Option.{option_copied};
ghost use Rattle.vax_cli.specs.Values.{decimal, digits, from_least, is_padded, number_of};

/// Its first byte is a plus, which `from_str_radix` would take.
fn has_sign(word: &str) -> bool
    ensures { result ≡ (slice_index word.now 0 == 43) }
{
    match word.as_bytes().first() {
        None => false,
        Some(&first) => first == b'+',
    }
}

/// A zero stands in front of more digits.
fn is_padded(word: &str) -> bool
    ensures { result ≡ is_padded word.now }
{
    match word.as_bytes() {
        [first, _, ..] => *first == b'0',
        _ => false,
    }
}

/// The number that digits alone write, if it isn't above the greatest.
#[tactic(auto, using(crate::proofs::NumberLaws::digits_found, crate::proofs::NumberLaws::digits_large, crate::proofs::NumberLaws::digits_none, crate::proofs::NumberLaws::digits_signed))]
pub(crate) fn digits(radix: u32, most: u64, word: &str) -> Option<u64>
    requires low { 2 ≤ radix }
    requires high { radix ≤ 36 }
    ensures number { result ≡ digits radix most word.now }
    ensures within { IfSome result (λ n. n ≤ most) }
{
    if has_sign(word) {
        return None;
    }
    match u64::from_str_radix(word, radix) {
        Ok(number) if number <= most => Some(number),
        _ => None,
    }
}

/// A decimal number, if it isn't above the greatest.
fn decimal(most: u64, word: &str) -> Option<u64>
    ensures number { result ≡ decimal most word.now }
    ensures within { IfSome result (λ n. n ≤ most) }
{
    if is_padded(word) {
        return None;
    }
    digits(10, most, word)
}

/// A decimal number from the least to the greatest.
pub(crate) fn decimal_from(least: u64, most: u64, word: &str) -> Option<u64>
    ensures number { result ≡ from_least least (decimal most word.now) }
    ensures least { IfSome result (λ n. least ≤ n) }
    ensures most { IfSome result (λ n. n ≤ most) }
{
    match decimal(most, word) {
        Some(number) if number >= least => Some(number),
        _ => None,
    }
}

/// The number of an option: its usual value where no word says it, else one from the least to the greatest.
pub(crate) fn number_of(usual: u64, least: u64, most: u64, word: Option<&str>) -> Option<u64>
    requires low { least ≤ usual }
    requires high { usual ≤ most }
    ensures number { result ≡ number_of usual least most (option_copied word.entry) }
    ensures least { IfSome result (λ n. least ≤ n) }
    ensures most { IfSome result (λ n. n ≤ most) }
{
    match word {
        None => Some(usual),
        Some(word) => decimal_from(least, most, word),
    }
}
