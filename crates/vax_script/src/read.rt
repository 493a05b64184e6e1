//! Reading a line.
ghost use Rattle.std.specs.Prelude.{◌≡◌, ◌||◌, ◌==◌, IfSome};
ghost use Rattle.std.specs.List.{list_all};
ghost use Rattle.std.specs.Str.{str_eq_ignore_ascii_case};
ghost use Rattle.vax_lines.specs.Words.{words};
ghost use Rattle.vax_script.specs.Requests.{IsProper, IsProperLine, alone, asked_by, command_of, deposited, else_by, examined, is_blank, line_of, put_at, put_in, request_of, shown_at, shown_from, stepped};
ghost use Rattle.vax_lines.specs.Numbers.{number};
ghost use Rattle.vax_script.specs.Numbers.{longword, register, some_bytes};

use crate::numbers::{longword, register, some_bytes};
use crate::request::{Command, Line, Request};
use vax_lines::{is_trimmed, next_word, number};

/// How many bytes `EXAMINE` shows where its line doesn't say.
const SHOWN: u8 = 4;

/// The most bytes that `EXAMINE` shows.
const MOST_SHOWN: u64 = 16;

/// The most steps of a `NEXT`.
const MOST_STEPS: u64 = 1_000_000_000_000_000;

/// Whether a word is this name, in any letter case.
fn is_called(word: &[u8], name: &[u8]) -> bool
    ensures { result ≡ str_eq_ignore_ascii_case word.now name.now }
{
    word.eq_ignore_ascii_case(name)
}

/// The command of a line's first word.
#[tactic(auto, unfolding(crate::specs::Requests::command_of))]
fn command(word: &[u8]) -> Option<Command>
    ensures { result ≡ command_of word.now }
{
    if is_called(word, b"EXAMINE") {
        Some(Command::Examine)
    } else if is_called(word, b"DEPOSIT") {
        Some(Command::Deposit)
    } else if is_called(word, b"NEXT") {
        Some(Command::Next)
    } else if is_called(word, b"CONTINUE") {
        Some(Command::Continue)
    } else if is_called(word, b"SHOW") {
        Some(Command::Show)
    } else {
        None
    }
}

/// A register, or four bytes.
#[tactic(auto, unfolding(crate::specs::Requests::IsProper))]
fn shown_at(what: &[u8]) -> Option<Request>
    ensures request { result ≡ shown_at what.now }
    ensures proper { IfSome result IsProper }
{
    match register(what) {
        Some(n) => Some(Request::ExamineRegister(n)),
        None => longword(what).map(|addr| Request::ExamineMemory { addr, count: SHOWN }),
    }
}

/// So many bytes from an address on.
#[tactic(auto, unfolding(crate::specs::Requests::IsProper))]
fn shown_from(what: &[u8], count: &[u8]) -> Option<Request>
    ensures request { result ≡ shown_from (longword what.now) (number 16 count.now) }
    ensures proper { IfSome result IsProper }
{
    let addr = longword(what)?;
    let count = number(MOST_SHOWN, count)? as u8;
    Some(Request::ExamineMemory { addr, count })
}

/// What an `EXAMINE` with these operands asks for.
fn examined(operands: &[u8]) -> Option<Request>
    ensures request { result ≡ examined (words operands.now) }
    ensures proper { IfSome result IsProper }
{
    let (what, rest) = next_word(operands)?;
    match next_word(rest) {
        None => shown_at(what),
        Some((count, rest)) => match next_word(rest) {
            None => shown_from(what, count),
            Some(_) => None,
        },
    }
}

/// Another value of a register.
#[tactic(auto, unfolding(crate::specs::Requests::IsProper))]
fn put_in(what: &[u8], value: &[u8]) -> Option<Request>
    ensures request { result ≡ put_in (register what.now) (longword value.now) }
    ensures proper { IfSome result IsProper }
{
    let register = register(what)?;
    let value = longword(value)?;
    Some(Request::DepositRegister { register, value })
}

/// Other bytes of memory.
#[tactic(auto, unfolding(crate::specs::Requests::IsProper))]
fn put_at(what: &[u8], bytes: &[u8]) -> Option<Request>
    ensures request { result ≡ put_at (longword what.now) (some_bytes bytes.now) }
    ensures proper { IfSome result IsProper }
{
    let addr = longword(what)?;
    let bytes = some_bytes(bytes)?;
    Some(Request::DepositMemory { addr, bytes })
}

/// What a `DEPOSIT` of one value at one place asks for.
fn put(what: &[u8], value: &[u8]) -> Option<Request>
    ensures request { result ≡ else_by (put_in (register what.now) (longword value.now))
        (put_at (longword what.now) (some_bytes value.now)) }
    ensures proper { IfSome result IsProper }
{
    match put_in(what, value) {
        Some(request) => Some(request),
        None => put_at(what, value),
    }
}

/// What a `DEPOSIT` with these operands asks for.
fn deposited(operands: &[u8]) -> Option<Request>
    ensures request { result ≡ deposited (words operands.now) }
    ensures proper { IfSome result IsProper }
{
    let (what, rest) = next_word(operands)?;
    let (value, rest) = next_word(rest)?;
    match next_word(rest) {
        None => put(what, value),
        Some(_) => None,
    }
}

/// What a `NEXT` with these operands asks for.
#[tactic(auto, unfolding(crate::specs::Requests::IsProper))]
fn stepped(operands: &[u8]) -> Option<Request>
    ensures request { result ≡ stepped (words operands.now) }
    ensures proper { IfSome result IsProper }
{
    match next_word(operands) {
        None => Some(Request::Next(1)),
        Some((count, rest)) => match next_word(rest) {
            None => number(MOST_STEPS, count).map(Request::Next),
            Some(_) => None,
        },
    }
}

/// A request whose line has no operands.
fn alone(request: Request, operands: &[u8]) -> Option<Request>
    requires { IsProper request }
    ensures request { result ≡ alone request (words operands.now) }
    ensures proper { IfSome result IsProper }
{
    match next_word(operands) {
        None => Some(request),
        Some(_) => None,
    }
}

/// What a command with these operands asks for.
#[tactic(auto, unfolding(crate::specs::Requests::asked_by, crate::specs::Requests::IsProper))]
fn asked_by(command: Command, operands: &[u8]) -> Option<Request>
    ensures request { result ≡ asked_by command (words operands.now) }
    ensures proper { IfSome result IsProper }
{
    match command {
        Command::Examine => examined(operands),
        Command::Deposit => deposited(operands),
        Command::Next => stepped(operands),
        Command::Continue => alone(Request::Continue, operands),
        Command::Show => alone(Request::Show, operands),
    }
}

/// What a line's words ask for.
#[tactic(auto, unfolding(crate::specs::Requests::request_of))]
fn request(line: &[u8]) -> Option<Request>
    ensures request { result ≡ request_of (words line.now) }
    ensures proper { IfSome result IsProper }
{
    let (verb, operands) = next_word(line)?;
    asked_by(command(verb)?, operands)
}

/// Spaces and tabs alone.
fn is_blank(line: &[u8]) -> bool
    ensures { result ≡ list_all is_blank line.now }
{
    line.iter().all(|byte| *byte == b' ' || *byte == b'\t')
}

/// What a line says: nothing, where it is spaces and tabs alone, or one of
///
/// - `EXAMINE Rn`, with Rn `R0` to `R15`;
/// - `EXAMINE A` or `EXAMINE A N`, with an address of eight hexadecimal digits and N from 1 to 16, else 4;
/// - `DEPOSIT Rn V`, with a value of eight hexadecimal digits;
/// - `DEPOSIT A BYTES`, with 1 to 64 bytes of two hexadecimal digits each;
/// - `NEXT` or `NEXT N`, with N from 1 to 10^15, else 1;
/// - `CONTINUE`;
/// - `SHOW`.
///
/// Words are separated by spaces, and none stands before the first or behind the last. The first is read in any letter case, and so are hexadecimal digits;
/// `R` is a capital. Decimal numbers have no sign and no leading zero. Any other line is malformed.
#[tactic(auto, unfolding(crate::specs::Requests::line_of))]
pub fn read_line(line: &[u8]) -> Line
    ensures says { result ≡ line_of line.now }
    ensures proper { IsProperLine result }
{
    if is_blank(line) {
        return Line::Blank;
    }
    if !is_trimmed(line) {
        return Line::Malformed;
    }
    match request(line) {
        Some(request) => Line::Request(request),
        None => Line::Malformed,
    }
}
