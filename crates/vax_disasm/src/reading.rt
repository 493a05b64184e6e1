// Operands, read by the grammar of operand specifiers (VAX Architecture Reference Manual, operand specifier addressing mode formats).

ghost use Rattle.std.specs.Prelude.{◌≡◌, ◌+◌, ◌<◌, ◌≤◌, ◌^◌, length, option_map, IfSome};
ghost use Rattle.vax_isa.specs.Rows.{IsKind, IsWidth, IsBranchWidth};
ghost use Rattle.vax_flat.specs.Form.{IsForm, IsDisplacement};
ghost use Rattle.vax_flat.specs.Grammar.{value_of_bytes, placed, based, unindexed, incremented, in_a_register, read_form, read_specifier, read_displacement, read_operand};
ghost use Rattle.vax_disasm.specs.Seen.{width_of, read_seen, specifier_seen, place_seen, found, number_at, placed_by, at_place, bytes_before, literal_reading, HasPlaceRegisters, IsSound};

use crate::specifier::{Place, Specifier};
use vax_flat::{Form, decode, extend, is_no_base, is_reserved};
use vax_isa::{Letter, Narrow, OperandKind};

/// An operand, and how many bytes it has.
#[derive(Clone, Copy)]
pub(crate) struct Read {
    pub specifier: Specifier,
    pub count: u8,
}

/// The number that at most eight bytes are, the lowest first.
#[tactic(auto, using(crate::proofs::Numbers::byte_before, crate::proofs::Numbers::no_byte))]
fn number_of(bytes: &[u8]) -> u64
    requires { length bytes.now ≤ 8 }
    ensures value { result ≡ value_of_bytes bytes.now }
    ensures fits { result < 256 ^ length bytes.now }
{
    let mut value = 0;
    let mut at = bytes.len();
    while at > 0 {
        at -= 1;
        value = value * 256 + u64::from(bytes[at]);
    }
    value
}

/// The number that so many bytes at the front are.
fn number(width: u8, bytes: &[u8]) -> Option<u64>
    requires { width ≤ 8 }
    ensures value { result ≡ number_at width bytes.now }
    ensures fits { IfSome result (λ n. n < 256 ^ width) }
{
    if width as usize <= bytes.len() {
        Some(number_of(&bytes[..width as usize]))
    } else {
        None
    }
}

fn displacement_size(width: u8) -> Narrow
    requires { IsDisplacement width }
    ensures { width_of result ≡ width }
{
    match width {
        1 => Narrow::B,
        2 => Narrow::W,
        _ => Narrow::L,
    }
}

/// A place in memory, with the register of its index, where so many bytes follow the specifier byte.
#[tactic(auto, unfolding(crate::specs::Seen::specifier_seen))]
fn found_at(place: Place, index: Option<u8>, more: u8) -> Option<Read>
    requires place { HasPlaceRegisters place }
    requires index { IfSome index (λ x. x < 16) }
    requires few { more ≤ 4 }
    ensures exact { option_map read_seen result ≡ Some (at_place index (place_seen place) more) }
    ensures sound { IfSome result IsSound }
{
    Some(match index {
        Some(x) => Read {
            specifier: Specifier::Indexed(place, x),
            count: 2 + more,
        },
        None => Read {
            specifier: Specifier::InMemory(place),
            count: 1 + more,
        },
    })
}

/// A memory form, of which these bytes follow the specifier byte.
#[tactic(auto, unfolding(vax_flat::specs::Grammar::placed, vax_flat::specs::Grammar::piece, crate::specs::Seen::place_seen))]
fn placed(form: Form, index: Option<u8>, bytes: &[u8]) -> Option<Read>
    requires form { IsForm form }
    requires index { IfSome index (λ x. x < 16) }
    ensures exact { option_map read_seen result
        ≡ found (placed form (placed_by index) (bytes_before index) bytes.now) }
    ensures sound { IfSome result IsSound }
{
    match form {
        Form::Literal(_) | Form::Index(_) | Form::Register(_) => None,
        Form::Deferred(n) => found_at(Place::Deferred(n), index, 0),
        Form::Decrement(n) => found_at(Place::Decrement(n), index, 0),
        Form::Increment(n) => found_at(Place::Increment(n), index, 0),
        Form::IncrementDeferred(n) if n == 15 => {
            found_at(Place::Absolute(number(4, bytes)? as u32), index, 4)
        }
        Form::IncrementDeferred(n) => found_at(Place::IncrementDeferred(n), index, 0),
        Form::Displacement { width, register } => {
            let displacement = extend(width, number(width, bytes)?);
            let size = displacement_size(width);
            found_at(
                Place::Displaced {
                    size,
                    displacement,
                    register,
                },
                index,
                width,
            )
        }
        Form::DisplacementDeferred { width, register } => {
            let displacement = extend(width, number(width, bytes)?);
            let size = displacement_size(width);
            found_at(
                Place::DisplacedDeferred {
                    size,
                    displacement,
                    register,
                },
                index,
                width,
            )
        }
    }
}

/// The base of an index by register `x`.
#[tactic(auto, unfolding(vax_flat::specs::Grammar::based))]
fn based(x: u8, bytes: &[u8]) -> Option<Read>
    requires { x < 16 }
    ensures exact { option_map read_seen result ≡ found (based x bytes.now) }
    ensures sound { IfSome result IsSound }
{
    let (byte, rest) = bytes.split_first()?;
    let form = decode(*byte);
    if is_no_base(x, form) {
        return None;
    }
    placed(form, Some(x), rest)
}

/// A memory form without an index.
#[tactic(auto, unfolding(vax_flat::specs::Grammar::unindexed))]
fn unindexed(letter: Letter, form: Form, bytes: &[u8]) -> Option<Read>
    requires { IsForm form }
    ensures exact { option_map read_seen result ≡ found (unindexed letter form bytes.now) }
    ensures sound { IfSome result IsSound }
{
    if is_reserved(letter, form) {
        return None;
    }
    placed(form, None, bytes)
}

/// `(Rn)+`, which is an immediate with PC.
#[tactic(auto, unfolding(vax_flat::specs::Grammar::incremented, vax_flat::specs::Grammar::piece, crate::specs::Seen::specifier_seen, crate::specs::Seen::place_seen))]
fn incremented(kind: OperandKind, n: u8, bytes: &[u8]) -> Option<Read>
    requires width { IsWidth kind.width }
    requires register { n < 16 }
    ensures exact { option_map read_seen result ≡ found (incremented kind n bytes.now) }
    ensures sound { IfSome result IsSound }
{
    if is_reserved(kind.letter, Form::Increment(n)) {
        return None;
    }
    if n != 15 {
        return found_at(Place::Increment(n), None, 0);
    }
    let value = number(kind.width, bytes)?;
    Some(Read {
        specifier: Specifier::Immediate(value),
        count: 1 + kind.width,
    })
}

/// A register, where it is no part of PC and an operand of the kind may be in one.
#[tactic(auto, unfolding(vax_flat::specs::Grammar::in_a_register, crate::specs::Seen::specifier_seen))]
fn in_a_register(kind: OperandKind, n: u8) -> Option<Read>
    requires { n < 16 }
    ensures exact { option_map read_seen result ≡ found (in_a_register kind n) }
    ensures sound { IfSome result IsSound }
{
    if n == 15 || (kind.width == 8 && n == 14) {
        return None;
    }
    match kind.letter {
        Letter::Read | Letter::Modify | Letter::Write | Letter::Field => Some(Read {
            specifier: Specifier::Register(n),
            count: 1,
        }),
        Letter::Address | Letter::Branch => None,
    }
}

/// A literal, which is for an operand that is read.
#[tactic(auto, unfolding(crate::specs::Seen::specifier_seen))]
fn literal(letter: Letter, value: u8) -> Option<Read>
    ensures exact { option_map read_seen result ≡ found (literal_reading letter value) }
    ensures sound { IfSome result IsSound }
{
    match letter {
        Letter::Read => Some(Read {
            specifier: Specifier::Literal(value),
            count: 1,
        }),
        Letter::Modify | Letter::Write | Letter::Address | Letter::Field | Letter::Branch => None,
    }
}

/// An operand by its specifier.
#[tactic(auto, unfolding(vax_flat::specs::Grammar::read_specifier, vax_flat::specs::Grammar::read_form))]
fn read_specifier(kind: OperandKind, bytes: &[u8]) -> Option<Read>
    requires { IsWidth kind.width }
    ensures exact { option_map read_seen result ≡ found (read_specifier kind bytes.now) }
    ensures sound { IfSome result IsSound }
{
    let (byte, rest) = bytes.split_first()?;
    let form = decode(*byte);
    match form {
        Form::Literal(value) => literal(kind.letter, value),
        Form::Index(x) => {
            if x == 15 {
                return None;
            }
            based(x, rest)
        }
        Form::Register(n) => in_a_register(kind, n),
        Form::Increment(n) => incremented(kind, n, rest),
        Form::Deferred(_)
        | Form::Decrement(_)
        | Form::IncrementDeferred(_)
        | Form::Displacement { .. }
        | Form::DisplacementDeferred { .. } => unindexed(kind.letter, form, rest),
    }
}

/// A displacement to branch by.
#[tactic(auto, unfolding(vax_flat::specs::Grammar::read_displacement, vax_flat::specs::Grammar::piece, crate::specs::Seen::specifier_seen))]
fn read_displacement(width: u8, bytes: &[u8]) -> Option<Read>
    requires { IsBranchWidth width }
    ensures exact { option_map read_seen result ≡ found (read_displacement width bytes.now) }
    ensures sound { IfSome result IsSound }
{
    let value = number(width, bytes)?;
    Some(Read {
        specifier: Specifier::BranchBy(extend(width, value)),
        count: width,
    })
}

/// The operand of a kind that the first bytes are, and how many they are. None where they end too early or show a reserved addressing mode.
#[tactic(auto, unfolding(vax_flat::specs::Grammar::read_operand))]
pub(crate) fn read_operand(kind: OperandKind, bytes: &[u8]) -> Option<Read>
    requires { IsKind kind }
    ensures exact { option_map read_seen result ≡ found (read_operand kind bytes.now) }
    ensures sound { IfSome result IsSound }
{
    match kind.letter {
        Letter::Branch => read_displacement(kind.width, bytes),
        Letter::Read | Letter::Modify | Letter::Write | Letter::Address | Letter::Field => {
            read_specifier(kind, bytes)
        }
    }
}
