//! Reading a line.
ghost use Rattle.std.specs.Prelude.{◌≡◌, ◌≤◌, ◌∷◌, length, IfSome};
ghost use Rattle.vax_lines.specs.Words.{words};
ghost use Rattle.vax_debug_words.specs.Requests.{IsProper, IsProperLine, asked, asked_by, asked_plainly, form_behind, is_meant, line_of, may_begin, said, understood, verb_len};

use crate::command::{Command, Form, Meaning, form_of, is_same, may_mean, meaning_of};
use crate::operands::{
    alone, broken, cleared, deposited, disassembled, evicted, examined, helped, queued, shown,
    stacked, stepped, until, watched,
};
use crate::request::{Line, Refusal, Request};
use vax_lines::next_word;

/// The most bytes of a line.
const MOST: usize = 1_024;

/// What a command without a form asks for.
#[tactic(auto, unfolding(crate::specs::Requests::asked_plainly, crate::specs::Requests::IsProper))]
fn asked_plainly(command: Command, operands: &[u8]) -> Option<Request>
    ensures request { result ≡ asked_plainly command (words operands.now) }
    ensures proper { IfSome result IsProper }
{
    match command {
        Command::Examine | Command::Deposit => None,
        Command::Disassemble => disassembled(operands),
        Command::Step => stepped(operands),
        Command::Over => alone(Request::Over, operands),
        Command::Out => alone(Request::Out, operands),
        Command::Go => alone(Request::Go, operands),
        Command::Until => until(operands),
        Command::Break => broken(operands),
        Command::Watch => watched(operands),
        Command::Clear => cleared(operands),
        Command::Show => shown(operands),
        Command::Where => alone(Request::Where, operands),
        Command::Stack => stacked(operands),
        Command::Queue => queued(operands),
        Command::Pages => alone(Request::Pages, operands),
        Command::Turn => alone(Request::Turn, operands),
        Command::Evict => evicted(operands),
        Command::Restart => alone(Request::Restart, operands),
        Command::Save => alone(Request::Save, operands),
        Command::Help => helped(operands),
        Command::Quit => alone(Request::Quit, operands),
    }
}

/// What a command with these operands asks for.
#[tactic(auto, unfolding(crate::specs::Requests::asked_by))]
fn asked_by(command: Command, form: Option<Form>, operands: &[u8]) -> Option<Request>
    ensures request { result ≡ asked_by command form (words operands.now) }
    ensures proper { IfSome result IsProper }
{
    match command {
        Command::Examine => examined(form, operands),
        Command::Deposit => deposited(form, operands),
        command => match form {
            None => asked_plainly(command, operands),
            Some(_) => None,
        },
    }
}

/// How many bytes of a word stand before a slash.
fn verb_len(word: &[u8]) -> usize
    ensures count { result ≡ verb_len word.now }
    ensures within { result ≤ length word.now }
{
    for (i, byte) in word.iter().enumerate() {
        if *byte == b'/' {
            return i;
        }
    }
    word.len()
}

/// The form behind the slash, if there is one.
fn form_behind(word: &[u8]) -> Option<Option<Form>>
    ensures { result ≡ form_behind word.now }
{
    match word.split_first() {
        None => Some(None),
        Some((_, word)) => form_of(word).map(Some),
    }
}

/// What a line asks for, or that it isn't how its command is used.
fn understood(command: Command, form: Option<Option<Form>>, operands: &[u8]) -> Line
    ensures line { result ≡ understood command (asked command form (words operands.now)) }
    ensures proper { IsProperLine result }
{
    let Some(form) = form else {
        return Line::Refused(Refusal::Usage(command));
    };
    match asked_by(command, form, operands) {
        Some(request) => Line::Request(request),
        None => Line::Refused(Refusal::Usage(command)),
    }
}

/// What a line says whose first word is this one.
#[tactic(auto, unfolding(crate::specs::Requests::said))]
fn said(word: &[u8], operands: &[u8]) -> Line
    ensures line { result ≡ said (word.now ∷ words operands.now) }
    ensures proper { IsProperLine result }
{
    let (verb, slash) = word.split_at(verb_len(word));
    match meaning_of(verb) {
        Meaning::Unknown => Line::Refused(Refusal::Unknown),
        Meaning::Several => Line::Refused(Refusal::Several),
        Meaning::Only(command) => understood(command, form_behind(slash), operands),
    }
}

/// What a line says: nothing, where it has no word, or a request ([`Request`], [`crate::usage`]).
///
/// Addresses, values and offsets are hexadecimal, and counts decimal without a leading zero. A register is `R0` to `R15`, `AP`, `FP`, `SP` or `PC`.
/// An address is a symbol or a number, with `+` or `-` and a number behind it where it has an offset. An `@` before it stands for the longword there;
/// `@R3` is what R3 holds.
#[tactic(auto, unfolding(crate::specs::Requests::line_of))]
pub fn read_line(line: &[u8]) -> Line
    ensures says { result ≡ line_of line.now }
    ensures proper { IsProperLine result }
{
    if line.len() > MOST {
        return Line::Refused(Refusal::Length);
    }
    match next_word(line) {
        None => Line::Blank,
        Some((word, operands)) => said(word, operands),
    }
}

/// Whether the command's word may be meant by the first word of a line.
fn may_begin(line: &[u8], command: Command) -> bool
    ensures { result ≡ may_begin (words line.now) command }
{
    match next_word(line) {
        None => false,
        Some((word, _)) => may_mean(word.split_at(verb_len(word)).0, command),
    }
}

/// Whether a line that was refused so may have meant a command: any, where none begins so; those that begin so, where several do; or the one that was
/// used in another way.
#[tactic(auto, unfolding(crate::specs::Requests::is_meant))]
pub fn is_meant(refusal: Refusal, line: &[u8], command: Command) -> bool
    ensures { result ≡ is_meant refusal line.now command }
{
    match refusal {
        Refusal::Length => false,
        Refusal::Unknown => true,
        Refusal::Several => may_begin(line, command),
        Refusal::Usage(used) => is_same(command, used),
    }
}
