//! The operands of each command.
ghost use Rattle.std.specs.Prelude.{◌≡◌, ◌<◌, ◌≤◌, IfSome, None, Some, length, option_map};
ghost use Rattle.vax_lines.specs.Words.{words};
ghost use Rattle.vax_debug_words.specs.Expressions.{IsExpression, expression};
ghost use Rattle.vax_debug_words.specs.Commands.{meaning};
ghost use Rattle.vax_debug_words.specs.declared.request.Request.TheVariants as request;
ghost use Rattle.vax_debug_words.specs.declared.request.Value.TheVariants as value;
ghost use Rattle.vax_debug_words.specs.Requests.{IsCount, IsProper, IsSpan, IsValue, alone, before_quote, characters, cleared, count, count_or, deposited, disassembled, evicted, evicted_at, examined, field_of, field_put, field_shown, form_or_long, help_on, helped, memory_put, memory_shown, mode_number, one_expression, one_shown, put_at, quadword, quadword_value, shown, shown_at, shown_of, span, spanned, spelled, stacked, stepped, unquoted, value_of, watched};

use crate::command::{Form, Meaning, begins, is_called, meaning_of};
use crate::expression::{expression, is_hexadecimal, longword, register};
use crate::request::{Characters, Expression, Field, Request, Size, Span, Value};
use vax_lines::{next_word, number};

/// The most values, longwords, bytes or instructions of one line.
const MOST: u64 = 64;

/// The most steps of a `STEP`.
const MOST_STEPS: u64 = 1_000_000_000_000_000;

/// How many instructions are shown where a line doesn't say.
const INSTRUCTIONS: u8 = 10;

/// How many bytes are watched where a line doesn't say.
const WATCHED: u8 = 4;

/// How many longwords of the stack are shown where a line doesn't say.
const LONGWORDS: u8 = 8;

/// A count of values, longwords, bytes or instructions.
fn count(word: &[u8]) -> Option<u8>
    ensures value { result ≡ count word.now }
    ensures range { IfSome result IsCount }
{
    number(MOST, word).map(|n| n as u8)
}

/// One count, where it isn't left out.
#[tactic(auto, unfolding(crate::specs::Requests::count_or))]
fn count_or(default: u8, operands: &[u8]) -> Option<u8>
    requires { IsCount default }
    ensures value { result ≡ count_or default (words operands.now) }
    ensures range { IfSome result IsCount }
{
    match next_word(operands) {
        None => Some(default),
        Some((many, rest)) => match next_word(rest) {
            None => count(many),
            Some(_) => None,
        },
    }
}

/// The only expression.
#[tactic(auto, unfolding(crate::specs::Requests::one_expression))]
fn one_expression(operands: &[u8]) -> Option<Expression>
    ensures value { result ≡ one_expression (words operands.now) }
    ensures proper { IfSome result IsExpression }
{
    let (at, rest) = next_word(operands)?;
    match next_word(rest) {
        None => expression(at),
        Some(_) => None,
    }
}

/// From here on, so many.
fn span(from: &[u8], count: Option<u8>) -> Option<Span>
    requires { IfSome count IsCount }
    ensures value { result ≡ span (expression from.now) count }
    ensures proper { IfSome result IsSpan }
{
    let from = expression(from)?;
    let count = count?;
    Some(Span { from, count })
}

/// From where on, and how many, where that isn't left out.
#[tactic(auto, unfolding(crate::specs::Requests::spanned))]
fn spanned(default: u8, operands: &[u8]) -> Option<Span>
    requires { IsCount default }
    ensures value { result ≡ spanned default (words operands.now) }
    ensures proper { IfSome result IsSpan }
{
    let (from, rest) = next_word(operands)?;
    match next_word(rest) {
        None => span(from, Some(default)),
        Some((many, rest)) => match next_word(rest) {
            None => span(from, count(many)),
            Some(_) => None,
        },
    }
}

/// One value of this form.
#[tactic(auto, unfolding(crate::specs::Requests::IsProper))]
fn one_shown(form: Form, what: &[u8]) -> Option<Request>
    ensures request { result ≡ one_shown form what.now }
    ensures proper { IfSome result IsProper }
{
    span(what, Some(1)).map(|at| Request::ExamineMemory(form, at))
}

/// A field of the status, or a longword.
#[tactic(auto, unfolding(crate::specs::Requests::IsProper))]
fn field_shown(field: Option<Field>, what: &[u8]) -> Option<Request>
    ensures request { result ≡ field_shown field what.now }
    ensures proper { IfSome result IsProper }
{
    match field {
        Some(field) => Some(Request::ExamineField(field)),
        None => one_shown(Form::Long, what),
    }
}

/// A register, the status, one of its fields, or a longword.
#[tactic(auto, unfolding(crate::specs::Requests::IsProper))]
fn shown_plainly(what: &[u8]) -> Option<Request>
    ensures request { result ≡ shown_at None what.now }
    ensures proper { IfSome result IsProper }
{
    match register(what) {
        Some(n) => Some(Request::ExamineRegister(n)),
        None if is_called(what, b"PSL") => Some(Request::ExamineStatus),
        None => field_shown(field_of(what), what),
    }
}

/// A register, the status, one of its fields, or one value.
fn shown_at(form: Option<Form>, what: &[u8]) -> Option<Request>
    ensures request { result ≡ shown_at form what.now }
    ensures proper { IfSome result IsProper }
{
    match form {
        None => shown_plainly(what),
        Some(form) => one_shown(form, what),
    }
}

/// The form that is said, or longwords.
fn form_or_long(form: Option<Form>) -> Form
    ensures { result ≡ form_or_long form }
{
    form.unwrap_or(Form::Long)
}

/// Several values.
#[tactic(auto, unfolding(crate::specs::Requests::IsProper))]
fn several_shown(form: Option<Form>, operands: &[u8]) -> Option<Request>
    ensures request { result ≡ memory_shown (form_or_long form) (spanned 1 (words operands.now)) }
    ensures proper { IfSome result IsProper }
{
    let form = form_or_long(form);
    spanned(1, operands).map(|at| Request::ExamineMemory(form, at))
}

/// What an `EXAMINE` with these operands asks for.
#[tactic(auto, unfolding(crate::specs::Requests::examined, crate::specs::Requests::spanned))]
pub(crate) fn examined(form: Option<Form>, operands: &[u8]) -> Option<Request>
    ensures request { result ≡ examined form (words operands.now) }
    ensures proper { IfSome result IsProper }
{
    let (what, rest) = next_word(operands)?;
    match next_word(rest) {
        None => shown_at(form, what),
        Some(_) => several_shown(form, operands),
    }
}

/// 1 to 16 hexadecimal digits.
#[tactic(auto, unfolding(crate::specs::Requests::quadword))]
fn quadword(word: &[u8]) -> Option<u64>
    ensures { result ≡ quadword word.now }
{
    if word.len() <= 8 {
        return longword(word).map(u64::from);
    }
    let (high, low) = word.split_at(word.len() - 8);
    let high = longword(high)?;
    let low = longword(low)?;
    Some(u64::from(high) * 0x1_0000_0000 + u64::from(low))
}

/// A number of eight bytes, or that it is too large.
#[tactic(auto, unfolding(crate::specs::Requests::quadword_value))]
fn quadword_value(word: &[u8]) -> Option<Value>
    ensures value { result ≡ quadword_value word.now }
    ensures proper { IfSome result IsValue }
{
    match quadword(word) {
        Some(number) => Some(Value::Quadword(number)),
        None if is_hexadecimal(word) => Some(Value::TooLarge),
        None => None,
    }
}

/// What stands before the quote at the end of a text.
#[tactic(auto, unfolding(crate::specs::Requests::before_quote))]
fn before_quote(text: &[u8]) -> Option<&[u8]>
    ensures { option_map (λ w. w.now) result ≡ before_quote text.entry.now }
{
    if text.is_empty() {
        return None;
    }
    let end = text.len() - 1;
    if text[end] == b'"' {
        Some(text.split_at(end).0)
    } else {
        None
    }
}

/// What stands between quotes, where a word begins with one; then another must end it.
#[tactic(auto, unfolding(crate::specs::Requests::unquoted))]
fn unquoted(word: &[u8]) -> Option<&[u8]>
    ensures { option_map (λ w. w.now) result ≡ unquoted word.entry.now }
{
    match word.split_first() {
        Some((b'"', text)) => before_quote(text),
        _ => Some(word),
    }
}

/// 1 to 64 characters, in quotes or without.
#[tactic(auto, unfolding(crate::specs::Requests::characters))]
fn characters(word: &[u8]) -> Option<Characters>
    ensures value { result ≡ characters word.now }
    ensures some { IfSome result (λ cs. 1 ≤ length cs) }
    ensures few { IfSome result (λ cs. length cs ≤ 64) }
{
    let text = unquoted(word)?;
    if text.is_empty() || text.len() > 64 {
        return None;
    }
    Some(Characters::new(text))
}

/// A number of so many bytes.
fn sized(size: Size, word: &[u8]) -> Option<Value>
    ensures value { result ≡ option_map (value.Number size) (expression word.now) }
    ensures proper { IfSome result IsValue }
{
    expression(word).map(|e| Value::Number(size, e))
}

/// A value in its form.
#[tactic(auto, unfolding(crate::specs::Requests::value_of))]
fn value(form: Form, word: &[u8]) -> Option<Value>
    ensures value { result ≡ value_of form word.now }
    ensures proper { IfSome result IsValue }
{
    match form {
        Form::Byte => sized(Size::Byte, word),
        Form::Word => sized(Size::Word, word),
        Form::Long => sized(Size::Long, word),
        Form::Quad => quadword_value(word),
        Form::Ascii => characters(word).map(Value::Text),
        Form::Instruction => None,
    }
}

/// A value into memory.
#[tactic(auto, unfolding(crate::specs::Requests::IsProper))]
fn memory_put(form: Form, what: &[u8], given: &[u8]) -> Option<Request>
    ensures request { result ≡ memory_put (expression what.now) (value_of form given.now) }
    ensures proper { IfSome result IsProper }
{
    let to = expression(what)?;
    let value = value(form, given)?;
    Some(Request::DepositMemory { to, value })
}

/// A number into a register.
#[tactic(auto, unfolding(crate::specs::Requests::IsProper))]
fn register_put(register: u8, given: &[u8]) -> Option<Request>
    requires { register < 16 }
    ensures request { result
        ≡ option_map (request.DepositRegister register) (expression given.now) }
    ensures proper { IfSome result IsProper }
{
    expression(given).map(|value| Request::DepositRegister { register, value })
}

/// A number into the status.
#[tactic(auto, unfolding(crate::specs::Requests::IsProper))]
fn status_put(given: &[u8]) -> Option<Request>
    ensures request { result ≡ option_map request.DepositStatus (expression given.now) }
    ensures proper { IfSome result IsProper }
{
    expression(given).map(Request::DepositStatus)
}

/// The field of the status that a word names.
#[tactic(auto, unfolding(crate::specs::Requests::field_of))]
fn field_of(word: &[u8]) -> Option<Field>
    ensures { result ≡ field_of word.now }
{
    if is_called(word, b"PSL.MODE") {
        Some(Field::Mode)
    } else if is_called(word, b"PSL.PREVIOUS") {
        Some(Field::Previous)
    } else if is_called(word, b"PSL.IPL") {
        Some(Field::Priority)
    } else if is_called(word, b"PSL.IS") {
        Some(Field::InterruptStack)
    } else if is_called(word, b"PSL.FPD") {
        Some(Field::FirstPartDone)
    } else if is_called(word, b"PSL.TP") {
        Some(Field::TracePending)
    } else if is_called(word, b"PSL.DV") {
        Some(Field::DecimalOverflow)
    } else if is_called(word, b"PSL.FU") {
        Some(Field::FloatingUnderflow)
    } else if is_called(word, b"PSL.IV") {
        Some(Field::IntegerOverflow)
    } else if is_called(word, b"PSL.T") {
        Some(Field::Trace)
    } else if is_called(word, b"PSL.N") {
        Some(Field::Negative)
    } else if is_called(word, b"PSL.Z") {
        Some(Field::Zero)
    } else if is_called(word, b"PSL.V") {
        Some(Field::Overflow)
    } else if is_called(word, b"PSL.C") {
        Some(Field::Carry)
    } else {
        None
    }
}

/// The number of an access mode, where it is called by its name.
#[tactic(auto, unfolding(crate::specs::Requests::mode_number))]
fn mode_number(word: &[u8]) -> &[u8]
    ensures { result.now ≡ mode_number word.entry.now }
{
    if is_called(word, b"KERNEL") {
        b"0"
    } else if is_called(word, b"EXECUTIVE") {
        b"1"
    } else if is_called(word, b"SUPERVISOR") {
        b"2"
    } else if is_called(word, b"USER") {
        b"3"
    } else {
        word
    }
}

/// The number that a field's value is, where it may have a name.
fn spelled(field: Field, word: &[u8]) -> &[u8]
    ensures { result.now ≡ spelled field word.entry.now }
{
    match field {
        Field::Mode => mode_number(word),
        Field::Previous => mode_number(word),
        _ => word,
    }
}

/// Into a field of the status, or a longword.
#[tactic(auto, unfolding(crate::specs::Requests::IsProper))]
fn field_put(what: &[u8], given: &[u8]) -> Option<Request>
    ensures request { result ≡ field_put (field_of what.now) what.now given.now }
    ensures proper { IfSome result IsProper }
{
    match field_of(what) {
        Some(field) => {
            expression(spelled(field, given)).map(|value| Request::DepositField(field, value))
        }
        None => memory_put(Form::Long, what, given),
    }
}

/// Into a register, the status, one of its fields, or a longword.
#[tactic(auto, unfolding(crate::specs::Requests::IsProper))]
fn put_plainly(what: &[u8], given: &[u8]) -> Option<Request>
    ensures request { result ≡ put_at None what.now given.now }
    ensures proper { IfSome result IsProper }
{
    match register(what) {
        Some(n) => register_put(n, given),
        None if is_called(what, b"PSL") => status_put(given),
        None => field_put(what, given),
    }
}

/// Into a register, the status or memory.
fn put_at(form: Option<Form>, what: &[u8], given: &[u8]) -> Option<Request>
    ensures request { result ≡ put_at form what.now given.now }
    ensures proper { IfSome result IsProper }
{
    match form {
        None => put_plainly(what, given),
        Some(form) => memory_put(form, what, given),
    }
}

/// What a `DEPOSIT` with these operands asks for.
#[tactic(auto, unfolding(crate::specs::Requests::deposited))]
pub(crate) fn deposited(form: Option<Form>, operands: &[u8]) -> Option<Request>
    ensures request { result ≡ deposited form (words operands.now) }
    ensures proper { IfSome result IsProper }
{
    let (what, rest) = next_word(operands)?;
    let (given, rest) = next_word(rest)?;
    match next_word(rest) {
        None => put_at(form, what, given),
        Some(_) => None,
    }
}

/// What a `DISASSEMBLE` with these operands asks for.
#[tactic(auto, unfolding(crate::specs::Requests::disassembled, crate::specs::Requests::IsProper))]
pub(crate) fn disassembled(operands: &[u8]) -> Option<Request>
    ensures request { result ≡ disassembled (words operands.now) }
    ensures proper { IfSome result IsProper }
{
    match next_word(operands) {
        None => Some(Request::Disassemble(None)),
        Some(_) => spanned(INSTRUCTIONS, operands).map(|at| Request::Disassemble(Some(at))),
    }
}

/// What a `STEP` with these operands asks for.
#[tactic(auto, unfolding(crate::specs::Requests::stepped, crate::specs::Requests::IsProper))]
pub(crate) fn stepped(operands: &[u8]) -> Option<Request>
    ensures request { result ≡ stepped (words operands.now) }
    ensures proper { IfSome result IsProper }
{
    match next_word(operands) {
        None => Some(Request::Step(1)),
        Some((many, rest)) => match next_word(rest) {
            None => number(MOST_STEPS, many).map(Request::Step),
            Some(_) => None,
        },
    }
}

/// What a `CLEAR` with these operands asks for.
#[tactic(auto, unfolding(crate::specs::Requests::cleared, crate::specs::Requests::IsProper))]
pub(crate) fn cleared(operands: &[u8]) -> Option<Request>
    ensures request { result ≡ cleared (words operands.now) }
    ensures proper { IfSome result IsProper }
{
    match next_word(operands) {
        None => Some(Request::Clear(None)),
        Some(_) => one_expression(operands).map(|at| Request::Clear(Some(at))),
    }
}

/// What a `WATCH` with these operands asks for.
#[tactic(auto, unfolding(crate::specs::Requests::IsProper))]
pub(crate) fn watched(operands: &[u8]) -> Option<Request>
    ensures request { result ≡ watched (words operands.now) }
    ensures proper { IfSome result IsProper }
{
    spanned(WATCHED, operands).map(Request::Watch)
}

/// The stops, or what is watched.
#[tactic(auto, unfolding(crate::specs::Requests::IsProper))]
fn shown_of(what: &[u8]) -> Option<Request>
    ensures request { result ≡ shown_of what.now }
    ensures proper { IfSome result IsProper }
{
    if begins(what, b"BREAKS") {
        Some(Request::Show)
    } else if begins(what, b"WATCHES") {
        Some(Request::ShowWatches)
    } else {
        None
    }
}

/// What a `SHOW` with these operands asks for.
#[tactic(auto, unfolding(crate::specs::Requests::shown, crate::specs::Requests::IsProper))]
pub(crate) fn shown(operands: &[u8]) -> Option<Request>
    ensures request { result ≡ shown (words operands.now) }
    ensures proper { IfSome result IsProper }
{
    match next_word(operands) {
        None => Some(Request::Show),
        Some((what, rest)) => match next_word(rest) {
            None => shown_of(what),
            Some(_) => None,
        },
    }
}

/// What a `STACK` with these operands asks for.
#[tactic(auto, unfolding(crate::specs::Requests::IsProper))]
pub(crate) fn stacked(operands: &[u8]) -> Option<Request>
    ensures request { result ≡ stacked (words operands.now) }
    ensures proper { IfSome result IsProper }
{
    count_or(LONGWORDS, operands).map(Request::Stack)
}

/// All pages, or that of an address.
#[tactic(auto, unfolding(crate::specs::Requests::IsProper))]
fn evicted_at(what: &[u8]) -> Option<Request>
    ensures request { result ≡ evicted_at what.now }
    ensures proper { IfSome result IsProper }
{
    if is_called(what, b"ALL") {
        return Some(Request::EvictAll);
    }
    expression(what).map(Request::Evict)
}

/// What an `EVICT` with these operands asks for.
#[tactic(auto, unfolding(crate::specs::Requests::evicted))]
pub(crate) fn evicted(operands: &[u8]) -> Option<Request>
    ensures request { result ≡ evicted (words operands.now) }
    ensures proper { IfSome result IsProper }
{
    let (what, rest) = next_word(operands)?;
    match next_word(rest) {
        None => evicted_at(what),
        Some(_) => None,
    }
}

/// How a command is used, if a word means only one.
#[tactic(auto, unfolding(crate::specs::Requests::IsProper))]
fn help_on(word: &[u8]) -> Option<Request>
    ensures request { result ≡ help_on (meaning word.now) }
    ensures proper { IfSome result IsProper }
{
    match meaning_of(word) {
        Meaning::Only(command) => Some(Request::Help(Some(command))),
        _ => None,
    }
}

/// What a `HELP` with these operands asks for.
#[tactic(auto, unfolding(crate::specs::Requests::helped, crate::specs::Requests::IsProper))]
pub(crate) fn helped(operands: &[u8]) -> Option<Request>
    ensures request { result ≡ helped (words operands.now) }
    ensures proper { IfSome result IsProper }
{
    match next_word(operands) {
        None => Some(Request::Help(None)),
        Some((what, rest)) => match next_word(rest) {
            None => help_on(what),
            Some(_) => None,
        },
    }
}

/// A request whose line has no operands.
pub(crate) fn alone(request: Request, operands: &[u8]) -> Option<Request>
    requires { IsProper request }
    ensures request { result ≡ alone request (words operands.now) }
    ensures proper { IfSome result IsProper }
{
    match next_word(operands) {
        None => Some(request),
        Some(_) => None,
    }
}

/// What an `UNTIL` with these operands asks for.
#[tactic(auto, unfolding(crate::specs::Requests::IsProper))]
pub(crate) fn until(operands: &[u8]) -> Option<Request>
    ensures request { result ≡ option_map request.Until (one_expression (words operands.now)) }
    ensures proper { IfSome result IsProper }
{
    one_expression(operands).map(Request::Until)
}

/// What a `BREAK` with these operands asks for.
#[tactic(auto, unfolding(crate::specs::Requests::IsProper))]
pub(crate) fn broken(operands: &[u8]) -> Option<Request>
    ensures request { result ≡ option_map request.Break (one_expression (words operands.now)) }
    ensures proper { IfSome result IsProper }
{
    one_expression(operands).map(Request::Break)
}

/// What a `QUEUE` with these operands asks for.
#[tactic(auto, unfolding(crate::specs::Requests::IsProper))]
pub(crate) fn queued(operands: &[u8]) -> Option<Request>
    ensures request { result ≡ option_map request.Queue (one_expression (words operands.now)) }
    ensures proper { IfSome result IsProper }
{
    one_expression(operands).map(Request::Queue)
}
