//! Addresses with the names of symbols.
ghost use Rattle.std.specs.Prelude.{◌≡◌, ◌+◌, ◌≤◌, ◌++◌, length, take};
ghost use Rattle.vax_debug_replies.specs.Places.{digits, distance, near, place, zeros};

use vax_debug_names::{Legend, Near, Symbol, nearest};
use vax_outside::Text;

/// The most characters of a name that are shown.
const MOST: usize = 31;

/// How many zeros stand before all else.
fn zeros(digits: &[u8]) -> usize
    ensures count { result ≡ zeros digits.now }
    ensures within { result ≤ length digits.now }
{
    for (i, digit) in digits.iter().enumerate() {
        if *digit != b'0' {
            return i;
        }
    }
    digits.len()
}

/// Appends a number in 1 to 8 hexadecimal digits.
#[tactic(auto, unfolding(crate::specs::Places::digits))]
fn push_digits(text: &mut Text, n: u32)
    requires { length text.old + 8 ≤ 512 }
    ensures exact { text.new ≡ text.old ++ digits n }
    ensures short { length text.new ≤ length text.old + 8 }
{
    let mut whole = Text::new();
    whole.push_hex8(n);
    let whole = whole.as_slice();
    text.push(&whole[zeros(&whole[..7])..]);
}

/// Appends the distance from a symbol, where there is one.
fn push_distance(text: &mut Text, n: u32)
    requires { length text.old + 9 ≤ 512 }
    ensures exact { text.new ≡ text.old ++ distance n }
    ensures short { length text.new ≤ length text.old + 9 }
{
    if n != 0 {
        text.push(b"+");
        push_digits(text, n);
    }
}

/// The first of some bytes, at most so many.
pub(crate) fn first(bytes: &[u8], most: usize) -> &[u8]
    ensures exact { result.now ≡ take most bytes.entry.now }
    ensures few { length result.now ≤ most }
{
    if bytes.len() <= most {
        bytes
    } else {
        bytes.split_at(most).0
    }
}

/// Appends the first 31 characters of a name.
fn push_name(text: &mut Text, name: &[u8])
    requires { length text.old + 31 ≤ 512 }
    ensures exact { text.new ≡ text.old ++ take 31 name.now }
    ensures short { length text.new ≤ length text.old + 31 }
{
    text.push(first(name, MOST));
}

/// Appends a symbol and the distance from it.
fn push_near(text: &mut Text, symbols: &[Symbol], found: Option<Near>)
    requires { length text.old + 41 ≤ 512 }
    ensures exact { text.new ≡ text.old ++ near symbols.now found }
    ensures short { length text.new ≤ length text.old + 41 }
{
    let Some(found) = found else {
        return;
    };
    let Some(symbol) = symbols.get(found.index) else {
        return;
    };
    text.push(b" ");
    push_name(text, symbol.name.as_slice());
    push_distance(text, found.distance);
}

/// Appends an address: its eight digits, and behind them the nearest symbol.
#[tactic(auto, unfolding(crate::specs::Places::place))]
pub fn push_place(text: &mut Text, legend: &Legend, address: u32)
    requires { length text.old + 49 ≤ 512 }
    ensures exact { text.new ≡ text.old ++ place legend.now address }
    ensures short { length text.new ≤ length text.old + 49 }
{
    let symbols = legend.symbols;
    text.push_hex8(address);
    push_near(text, symbols, nearest(symbols, address));
}
