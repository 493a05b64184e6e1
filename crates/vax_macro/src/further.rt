// What the directives of the larger language do.

ghost use Rattle.std.specs.Prelude.{◌≡◌, None, All, drop, map, IfOk, OnOk};
ghost use Rattle.vax_lex.specs.Tokens.{IsPieceOf};
ghost use Rattle.vax_macro.specs.ArgumentViews.{argument_view};
ghost use Rattle.vax_macro.specs.Directives.{assignment, assigns, calls_within, conditions_outside, count_arguments, count_characters, define_opcode, delete_all, delete_macros, innermost, leave, one_piece, read_line, with_opcode, with_value};
ghost use Rattle.vax_macro.specs.Names.{with_entry};
ghost use Rattle.vax_macro.specs.OpcodeViews.{opcode_view};
ghost use Rattle.vax_macro.specs.StringViews.{found_view, operator_view};
ghost use Rattle.vax_macro.specs.Strings.{evaluated};
ghost use Rattle.vax_macro.specs.View.{Acts, Becomes, Obeys, call_view, condition_view, head_in, line_in, macros_of, operands_at, rest_in};

use crate::arguments::{Argument, NoKeyword, arguments};
use crate::conditions::{Refusal, text_of};
use crate::directives::{operands_fault, operands_from, two_texts};
use crate::error::FaultKind;
use crate::heads::{code_end, has_bad, has_unprintable, piece_text};
use crate::names::{behind, copied, is_name, part};
use crate::opcodes::{Opcode, opcode_in, opcode_lines, operand_formals};
use crate::state::Parsed;
use crate::state_types::{Call, Done, OpenCondition, State};
use crate::strings::{Found, evaluated, last_operator};
use crate::template_types::Template;
use crate::templates::canonical;
use itoa::Buffer;
use std::alloc::Global;
use std::collections::{BTreeMap, VecDeque};
use std::rc::Rc;
use vax_lex::{Names, Piece};
use vax_space::NoMemory;

/// Closes the conditions that were opened in so many expansions or more.
fn close_conditions(conditions: &mut VecDeque<OpenCondition>, depth: u32) -> Result<(), NoMemory>
    ensures { OnOk result (map condition_view conditions.new.items
        ≡ conditions_outside depth (map condition_view conditions.old.items)) }
{
    while let Some(condition) = conditions.pop_front() {
        if condition.depth < depth {
            conditions.push_front(condition).map_err(|_| NoMemory)?;
            return Ok(());
        }
    }
    Ok(())
}

/// The calls are over whose lines stand in more expansions than so many.
pub(crate) fn close_calls(calls: &mut VecDeque<Call>, depth: u32) -> Result<(), NoMemory>
    ensures { OnOk result (map call_view calls.new.items
        ≡ calls_within depth (map call_view calls.old.items)) }
{
    while let Some(call) = calls.pop_front() {
        if call.depth <= depth {
            calls.push_front(call).map_err(|_| NoMemory)?;
            return Ok(());
        }
    }
    Ok(())
}

/// A statement that gives a number to a name.
fn assignment(alloc: Global, name: &[u8], number: usize) -> Result<Vec<u8>, NoMemory>
    ensures { IfOk result (λ v. v.items ≡ assignment name.now number) }
{
    let mut text = copied(alloc, name)?;
    text.push(b'=').map_err(|_| NoMemory)?;
    let mut buffer = Buffer::new();
    text.extend_from_slice(buffer.format(number as u64).as_bytes())
        .map_err(|_| NoMemory)?;
    Ok(text)
}

/// How many arguments the innermost call has.
fn innermost(calls: &VecDeque<Call>) -> Option<usize>
    ensures { result ≡ innermost (map call_view calls.now.items) }
{
    match calls.front() {
        Some(call) => Some(call.arguments),
        None => None,
    }
}

/// The piece, if there is one alone.
fn one_piece(pieces: &[Piece]) -> Option<Piece>
    ensures { result ≡ one_piece pieces.now }
{
    match pieces {
        [piece] => Some(*piece),
        _ => None,
    }
}

/// A macro is no longer there.
fn remove_macro(macros: &mut BTreeMap<Vec<u8>, Rc<Template>>, name: &[u8])
    ensures { macros_of macros.new ≡ with_entry name.now None (macros_of macros.old) }
{
    let _ = macros.remove(name);
}

impl State {
    /// Gives a number to a name.
    fn assigns(
        &self,
        alloc: Global,
        name: &[u8],
        number: usize,
        read: u32,
    ) -> Result<Done, NoMemory>
        ensures { IfOk result
            (λ d. Acts d read self.now (assigns name.now number (rest_in read self.now))) }
    {
        if !is_name(name) {
            return Ok(Done::Fails(FaultKind::Form));
        }
        let text = assignment(alloc, name, number)?;
        Ok(Done::Writes(text))
    }

    /// A line with the value of an operator in its place.
    fn turn<N: Names>(
        &self,
        alloc: Global,
        names: &N,
        parsed: Parsed<'_>,
        found: Found,
    ) -> Result<Done, NoMemory>
        ensures { Obeys parsed.entry (λ p. with_value (line_in p).text (found_view found)
            (evaluated (N.meaning names.now) (operator_view found.operator)
            (drop found.operands (line_in p).text))) result self.now self.now }
    {
        let text = &parsed.line.text;
        match evaluated(alloc, names, found.operator, behind(text, found.operands)) {
            Ok(value) => {
                let mut line = copied(alloc, part(text, 0, found.at))?;
                line.extend_from_slice(&value.text).map_err(|_| NoMemory)?;
                line.extend_from_slice(value.rest).map_err(|_| NoMemory)?;
                Ok(Done::Turns(line))
            }
            Err(Refusal::Fault(kind)) => Ok(Done::Fails(kind)),
            Err(Refusal::NoMemory) => Err(NoMemory),
        }
    }

    /// `.MEXIT`.
    #[tactic(auto, unfolding(crate::specs::Directives::leave))]
    pub(crate) fn leave(&mut self, parsed: Parsed<'_>) -> Result<Done, NoMemory>
        ensures { Obeys parsed.entry (λ p. leave (line_in p) p.pieces.now (head_in p))
            result self.old self.new }
    {
        if let Some(kind) = operands_fault(parsed.pieces, parsed.operands()) {
            return Ok(Done::Fails(kind));
        }
        let depth = parsed.line.depth;
        if depth == 0 {
            return Ok(Done::Fails(FaultKind::Nesting));
        }
        self.lines.leave(depth)?;
        close_conditions(&mut self.conditions, depth)?;
        Ok(Done::Goes)
    }

    /// `.NARG`.
    #[tactic(auto, unfolding(crate::specs::Directives::count_arguments))]
    pub(crate) fn count_arguments(
        &mut self,
        alloc: Global,
        parsed: Parsed<'_>,
    ) -> Result<Done, NoMemory>
        ensures { Obeys parsed.entry (λ p. count_arguments (line_in p) p.pieces.now (head_in p))
            result self.old self.new }
    {
        if has_bad(parsed.pieces) {
            return Ok(Done::Fails(FaultKind::Token));
        }
        let Some(name) = one_piece(parsed.operands()) else {
            return Ok(Done::Fails(FaultKind::Count));
        };
        close_calls(&mut self.calls, parsed.line.depth)?;
        let Some(number) = innermost(&self.calls) else {
            return Ok(Done::Fails(FaultKind::Nesting));
        };
        let name = piece_text(&parsed.line.text, name);
        self.assigns(alloc, name, number, parsed.read)
    }

    /// `.NCHR`.
    #[tactic(auto, unfolding(crate::specs::Directives::count_characters))]
    pub(crate) fn count_characters(
        &self,
        alloc: Global,
        parsed: Parsed<'_>,
    ) -> Result<Done, NoMemory>
        ensures { Obeys parsed.entry
            (λ p. count_characters (line_in p) (head_in p) (operands_at p))
            result self.now self.now }
    {
        if has_unprintable(&parsed.line.text, parsed.operands()) {
            return Ok(Done::Fails(FaultKind::Token));
        }
        let larger = self.dialect.has_argument_forms();
        let text = operands_from(larger, parsed.line, parsed.operands(), parsed.operands_at());
        let found = arguments(alloc, larger, &NoKeyword, text)?;
        match two_texts(found.as_deref()) {
            Ok((name, text)) => self.assigns(alloc, name, text.len(), parsed.read),
            Err(kind) => Ok(Done::Fails(kind)),
        }
    }

    /// The macros of these names are no longer there.
    fn delete_all(&mut self, alloc: Global, found: &[Argument], read: u32) -> Result<Done, NoMemory>
        ensures { IfOk result (λ d. Acts d read self.new
            (delete_all (map argument_view found.now) (rest_in read self.old))) }
    {
        for argument in found {
            let name = text_of(argument);
            if !is_name(name) {
                return Ok(Done::Fails(FaultKind::Form));
            }
            let name = canonical(alloc, name)?;
            remove_macro(&mut self.macros, &name);
        }
        Ok(Done::Goes)
    }

    /// `.MDELETE`.
    #[tactic(auto, unfolding(crate::specs::Directives::delete_macros))]
    pub(crate) fn delete_macros(
        &mut self,
        alloc: Global,
        parsed: Parsed<'_>,
    ) -> Result<Done, NoMemory>
        ensures { Obeys parsed.entry
            (λ p. delete_macros (line_in p) (head_in p) (operands_at p)) result self.old self.new }
    {
        if has_unprintable(&parsed.line.text, parsed.operands()) {
            return Ok(Done::Fails(FaultKind::Token));
        }
        let larger = self.dialect.has_argument_forms();
        let text = operands_from(larger, parsed.line, parsed.operands(), parsed.operands_at());
        let Some(found) = arguments(alloc, larger, &NoKeyword, text)? else {
            return Ok(Done::Fails(FaultKind::Form));
        };
        if found.is_empty() {
            return Ok(Done::Fails(FaultKind::Count));
        }
        self.delete_all(alloc, &found, parsed.read)
    }

    /// A macro that lays an opcode and its operands is defined.
    fn finish_opcode(&mut self, alloc: Global, opcode: Opcode) -> Result<(), NoMemory>
        ensures { OnOk result (Becomes (with_opcode (opcode_view opcode)) self.old self.new) }
    {
        let Opcode {
            name,
            number,
            operands,
        } = opcode;
        let formals = operand_formals(alloc, operands.len())?;
        let lines = opcode_lines(alloc, number, &operands)?;
        self.finish_macro(alloc, name, formals, lines)?;
        Ok(())
    }

    /// `.OPDEF`.
    #[tactic(auto, unfolding(crate::specs::Directives::define_opcode))]
    pub(crate) fn define_opcode<N: Names>(
        &mut self,
        alloc: Global,
        names: &N,
        parsed: Parsed<'_>,
    ) -> Result<Done, NoMemory>
        requires { All (IsPieceOf parsed.line.now.text.items) parsed.pieces.now }
        ensures { Obeys parsed.entry
            (λ p. define_opcode (N.meaning names.now) (line_in p) (head_in p))
            result self.old self.new }
    {
        match opcode_in(alloc, names, &parsed.line.text, parsed.operands()) {
            Ok(opcode) => {
                self.finish_opcode(alloc, opcode)?;
                Ok(Done::Goes)
            }
            Err(Refusal::Fault(kind)) => Ok(Done::Fails(kind)),
            Err(Refusal::NoMemory) => Err(NoMemory),
        }
    }

    /// A line that is read.
    #[tactic(auto, unfolding(crate::specs::Directives::read_line))]
    pub(crate) fn read_line<N: Names>(
        &mut self,
        alloc: Global,
        names: &N,
        parsed: Parsed<'_>,
    ) -> Result<Done, NoMemory>
        requires { All (IsPieceOf parsed.line.now.text.items) parsed.pieces.now }
        ensures { Obeys parsed.entry
            (λ p. read_line (N.meaning names.now) (line_in p) p.pieces.now (head_in p))
            result self.old self.new }
    {
        if parsed.line.depth != 0 && self.dialect.has_string_operators() {
            let end = code_end(parsed.pieces);
            if let Some(found) = last_operator(end, &parsed.line.text) {
                return self.turn(alloc, names, parsed, found);
            }
        }
        self.read(alloc, names, parsed)
    }
}
