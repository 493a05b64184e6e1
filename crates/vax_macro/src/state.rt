// What the lines of a source change.

ghost use Rattle.std.specs.Prelude.{◌≡◌, ◌+◌, ◌-◌, ◌<◌, ◌≤◌, ◌++◌, [], Some, All, length, map, nat_le, option_map, IfOk, OnOk};
ghost use Rattle.std.specs.Bool.{OnFalse};
ghost use Rattle.vax_lex.specs.Tokens.{IsPieceOf};
ghost use Rattle.vax_macro.specs.Heads.{word_in, piece_text};
ghost use Rattle.vax_macro.specs.Templates.{assigned as assigned_to, template as made_of};
ghost use Rattle.vax_macro.specs.Directives.{leave, finished, line_copies, lines_for_each, with_expansion, with_call, with_macro, collect, is_skipping, open_condition, begin_condition, switch_condition, end_condition, skip, guard, with_pending, begin_copies, begin_repeat, begin_macro, begin_arguments, begin_characters, call, call_with, passed, direct, read, done, is_deep, condition_fault};
ghost use Rattle.vax_macro.specs.Names.{with_entry};
ghost use Rattle.vax_lex.specs.Characters.{canonical_name};
ghost use Rattle.vax_dialect.specs.Differences.{has_arguments_by_value};
ghost use Rattle.vax_macro.specs.ArgumentViews.{arguments_view};
ghost use Rattle.vax_macro.specs.ConditionViews.{Decides};
ghost use Rattle.vax_macro.specs.HeadViews.{word_view, head_view};
ghost use Rattle.vax_macro.specs.LineViews.{reading_of, frame_lines, opened_lines};
ghost use Rattle.vax_macro.specs.TemplateViews.{template_view, formals_view, texts_view};
ghost use Rattle.vax_macro.specs.View.{use_view, pending_view, condition_view, macros_of, rest_in, Acts, Becomes, Obeys, line_in, head_in, operands_at};

use crate::arguments::{Argument, NoKeyword, arguments, behind_blanks, name_length};
use crate::conditions::{Refusal, condition_in, guarded_in, number_in};
use crate::directives::{
    argument_texts, begin_at, body_fault, call_frame, character_texts, copies_each, copies_of,
    count_of, end_fault, ends, iterated_in, macro_formals, nested_after, one_formal, operand_text,
    operands_fault, operands_from, shared,
};
use crate::error::FaultKind;
use crate::further::close_calls;
use crate::heads::{Head, Word, has_unprintable, known_word, piece_text, word_in};
use crate::line_types::{Frame, Reading};
use crate::names::{copied, is_name};
use crate::state_types::{Call, Done, OpenCondition, Pending, State, Use};
use crate::template_types::{Formals, Giving, Template};
use crate::templates::{assigned, canonical, filled, template};
use crate::values::all_by_value;
use std::alloc::Global;
use std::collections::BTreeMap;
use std::rc::Rc;
use vax_lex::{Names, Piece};
use vax_space::NoMemory;

/// A line that is read: its pieces and its head, and how many lines were read with it.
#[derive(Clone, Copy)]
pub(crate) struct Parsed<'a> {
    pub(crate) line: &'a Reading,
    pub(crate) pieces: &'a [Piece],
    pub(crate) head: Head,
    pub(crate) read: u32,
}

impl Parsed<'_> {
    ghost use Rattle.std.specs.Prelude.{◌≡◌, None};
    ghost use Rattle.vax_macro.specs.Heads.{word_in};
    ghost use Rattle.vax_macro.specs.Directives.{operands_fault, end_fault, has_label};
    ghost use Rattle.vax_dialect.specs.Differences.{has_arguments_by_value};
    ghost use Rattle.vax_macro.specs.ArgumentViews.{arguments_view};
    ghost use Rattle.vax_macro.specs.ConditionViews.{Decides};
    ghost use Rattle.vax_macro.specs.HeadViews.{word_view};
    ghost use Rattle.vax_macro.specs.View.{line_in, head_in, operands_at, unless};

    pub(crate) fn operands(&self) -> &[Piece]
        ensures { result.now ≡ (head_in self.now).operands }
    {
        if self.head.operands > self.pieces.len() {
            return &[];
        }
        &self.pieces[self.head.operands..]
    }

    fn word(&self) -> Word
        ensures { word_view result ≡ word_in (line_in self.now).text (head_in self.now).operator }
    {
        word_in(&self.line.text, self.head.operator)
    }

    /// Where the operands begin in the text.
    pub(crate) fn operands_at(&self) -> usize
        ensures { result ≡ operands_at self.now }
    {
        match self.head.operator {
            Some(operator) => operator.end as usize,
            None => 0,
        }
    }

    /// What a directive without operands does.
    fn unless_operands(&self, done: Done) -> Done
        ensures { result
            ≡ unless (operands_fault self.now.pieces.now (head_in self.now).operands) done }
    {
        match operands_fault(self.pieces, self.operands()) {
            Some(kind) => Done::Fails(kind),
            None => done,
        }
    }

    /// What an `.ENDM` does that ends no macro.
    fn unless_named(&self, done: Done) -> Done
        ensures { result ≡ unless (end_fault (line_in self.now).text None
            self.now.pieces.now (head_in self.now).operands) done }
    {
        match end_fault(&self.line.text, None, self.pieces, self.operands()) {
            Some(kind) => Done::Fails(kind),
            None => done,
        }
    }

    /// Whether a label stands before that was not handed out yet.
    fn has_label(&self) -> bool
        ensures { result ≡ has_label (line_in self.now) (head_in self.now) }
    {
        !self.line.labelled && self.head.label_end != 0
    }
}

/// Adds these texts.
fn add_all(alloc: Global, lines: &mut Vec<Vec<u8>>, parts: &[Vec<u8>]) -> Result<(), NoMemory>
    requires lines { All (λ t. length t.items ≤ 1024) lines.old.items }
    requires parts { All (λ t. length t.items ≤ 1024) parts.now }
    ensures exact { OnOk result
        (texts_view lines.new ≡ texts_view lines.old ++ map (λ t. t.items) parts.now) }
    ensures short { OnOk result (All (λ t. length t.items ≤ 1024) lines.new.items) }
{
    for part in parts {
        let part = copied(alloc, part)?;
        lines.push(part).map_err(|_| NoMemory)?;
    }
    Ok(())
}

/// Puts a macro at a name.
#[tactic(auto, using(crate::proofs::Maps::macro_updates))]
fn put_macro(
    macros: &mut BTreeMap<Vec<u8>, Rc<Template>>,
    name: Vec<u8>,
    template: Rc<Template>,
) -> Result<(), NoMemory>
    ensures { OnOk result (macros_of macros.new
        ≡ with_entry name.items (Some (template_view template.value)) (macros_of macros.old)) }
{
    match macros.insert(name, template) {
        Ok(_) => Ok(()),
        Err(_) => Err(NoMemory),
    }
}

impl State {
    #[tactic(auto, using(crate::proofs::Begins::condition_count))]
    fn is_deep(&self, line: &Reading) -> bool
        ensures value { result
            ≡ nat_le 64 (line.now.depth + length (map condition_view self.now.conditions.items)) }
        ensures shallow { OnFalse result (line.now.depth < 64) }
    {
        line.depth as usize + self.conditions.len() >= 64
    }

    /// Defines a macro.
    fn define(&mut self, alloc: Global, name: Vec<u8>, template: Template) -> Result<(), NoMemory>
        ensures { OnOk result
            (Becomes (with_macro name.items (template_view template)) self.old self.new) }
    {
        let template = Rc::new(alloc, template).map_err(|_| NoMemory)?;
        put_macro(&mut self.macros, name, template)
    }

    /// The lines of an expansion of this depth come next, if there is one.
    fn open_frame(&mut self, depth: u32, frame: Option<Frame>) -> Result<(), NoMemory>
        ensures { OnOk result
            (Becomes (with_expansion depth (opened_lines frame)) self.old self.new) }
    {
        close_calls(&mut self.calls, depth.saturating_sub(1))?;
        match frame {
            Some(frame) => self.lines.open(frame),
            None => Ok(()),
        }
    }

    /// The lines of a call with so many arguments come next.
    fn open_call(&mut self, arguments: usize, depth: u32, frame: Frame) -> Result<(), NoMemory>
        ensures { OnOk result (Becomes (λ rest. with_call depth arguments
            (with_expansion depth (frame_lines frame) rest)) self.old self.new) }
    {
        close_calls(&mut self.calls, depth.saturating_sub(1))?;
        self.lines.open(frame)?;
        self.calls
            .push_front(Call { depth, arguments })
            .map_err(|_| NoMemory)
    }

    /// A macro of these lines is defined.
    pub(crate) fn finish_macro(
        &mut self,
        alloc: Global,
        name: Vec<u8>,
        formals: Formals,
        lines: Vec<Vec<u8>>,
    ) -> Result<(), NoMemory>
        requires { All (λ t. length t.items ≤ 1024) lines.items }
        ensures { OnOk result
            (Becomes (with_macro name.items (made_of (formals_view formals) (texts_view lines)))
            self.old self.new) }
    {
        let kept = template(alloc, formals, lines)?;
        self.define(alloc, name, kept)?;
        Ok(())
    }

    /// So many copies of these lines come next.
    fn finish_copies(
        &mut self,
        alloc: Global,
        count: u64,
        lines: Vec<Vec<u8>>,
        number: u32,
        depth: u32,
    ) -> Result<(), NoMemory>
        requires { All (λ t. length t.items ≤ 1024) lines.items }
        ensures { OnOk result
            (Becomes (with_expansion depth (line_copies count (texts_view lines) number depth))
            self.old self.new) }
    {
        let kept = template(alloc, Formals::new(alloc), lines)?;
        let frame = copies_of(alloc, kept, count, number, depth)?;
        self.open_frame(depth, frame)?;
        Ok(())
    }

    /// A copy of these lines for each of these texts comes next.
    fn finish_each(
        &mut self,
        alloc: Global,
        formal: Vec<u8>,
        texts: Vec<Vec<u8>>,
        lines: Vec<Vec<u8>>,
        number: u32,
        depth: u32,
    ) -> Result<(), NoMemory>
        requires { All (λ t. length t.items ≤ 1024) lines.items }
        ensures { OnOk result
            (Becomes (with_expansion depth
            (lines_for_each formal.items (texts_view lines) number depth (texts_view texts)))
            self.old self.new) }
    {
        let formals = one_formal(alloc, formal)?;
        let kept = template(alloc, formals, lines)?;
        let frame = copies_each(alloc, kept, texts, number, depth)?;
        self.open_frame(depth, frame)?;
        Ok(())
    }

    /// A macro is defined; the copies of a repeat come next.
    #[tactic(auto, unfolding(crate::specs::Directives::finished))]
    fn finish(&mut self, alloc: Global, pending: Pending) -> Result<(), NoMemory>
        ensures { OnOk result (Becomes (finished (pending_view pending)) self.old self.new) }
    {
        let Pending {
            use_of,
            begin,
            depth,
            lines,
            ..
        } = pending;
        match use_of {
            Use::Macro { name, formals } => {
                self.finish_macro(alloc, name, formals, lines)?;
                Ok(())
            }
            Use::Copies(count) => {
                self.finish_copies(alloc, count, lines, begin.number, depth)?;
                Ok(())
            }
            Use::Each { formal, texts } => {
                self.finish_each(alloc, formal, texts, lines, begin.number, depth)?;
                Ok(())
            }
        }
    }

    /// A line of a body.
    #[tactic(auto, unfolding(crate::specs::Directives::collect))]
    fn collect(
        &mut self,
        alloc: Global,
        pending: Pending,
        parsed: Parsed<'_>,
    ) -> Result<Done, NoMemory>
        requires { All (IsPieceOf parsed.line.now.text.items) parsed.pieces.now }
        ensures { Obeys parsed.entry
            (λ p. collect (pending_view pending) (line_in p) p.pieces.now (head_in p))
            result self.old self.new }
    {
        let word = parsed.word();
        if pending.nested == 0 && ends(&pending.use_of, word) {
            if parsed.has_label() {
                self.collecting = Some(pending);
                return Ok(Done::Label(parsed.head.label_end));
            }
            let text = &parsed.line.text;
            if let Some(kind) = body_fault(
                &pending.use_of,
                text,
                parsed.pieces,
                parsed.operands(),
            ) {
                return Ok(Done::Fails(kind));
            }
            self.finish(alloc, pending)?;
            return Ok(Done::Goes);
        }
        let nested = nested_after(&pending.use_of, word, pending.nested)?;
        let Pending {
            use_of,
            begin,
            depth,
            mut lines,
            ..
        } = pending;
        add_all(alloc, &mut lines, &parsed.line.parts)?;
        self.collecting = Some(Pending {
            use_of,
            begin,
            depth,
            nested,
            lines,
        });
        Ok(Done::Goes)
    }

    fn is_skipping(&self) -> bool
        ensures { result ≡ is_skipping (map condition_view self.now.conditions.items) }
    {
        match self.conditions.front() {
            Some(condition) => !(condition.outer && condition.here),
            None => false,
        }
    }

    fn open_condition(
        &mut self,
        line: &Reading,
        read: u32,
        outer: bool,
        holds: bool,
    ) -> Result<Done, NoMemory>
        ensures { IfOk result (λ d. Acts d read self.new
            (open_condition (reading_of line.now) outer holds (rest_in read self.old))) }
    {
        if self.is_deep(line) {
            return Ok(Done::Fails(FaultKind::Depth));
        }
        self.conditions
            .push_front(OpenCondition {
                begin: begin_at(line, read),
                depth: line.depth,
                outer,
                holds,
                here: holds,
            })
            .map_err(|_| NoMemory)?;
        Ok(Done::Goes)
    }

    #[tactic(auto, unfolding(crate::specs::Directives::begin_condition))]
    fn begin_condition<N: Names>(
        &mut self,
        alloc: Global,
        names: &N,
        parsed: Parsed<'_>,
    ) -> Result<Done, NoMemory>
        requires { All (IsPieceOf parsed.line.now.text.items) parsed.pieces.now }
        ensures { Obeys parsed.entry
            (λ p. begin_condition (N.meaning names.now) (line_in p) (head_in p))
            result self.old self.new }
    {
        match condition_in(alloc, names, &parsed.line.text, parsed.operands()) {
            Ok(holds) => self.open_condition(parsed.line, parsed.read, true, holds),
            Err(Refusal::Fault(kind)) => Ok(Done::Fails(kind)),
            Err(Refusal::NoMemory) => Err(NoMemory),
        }
    }

    /// Whether the operands of `.IFF`, `.IFT`, `.IFTF` or `.ENDC` have a fault here.
    fn condition_fault(&self, parsed: Parsed<'_>) -> Option<FaultKind>
        ensures { result ≡ condition_fault parsed.entry.pieces.now (head_in parsed.entry)
            (map condition_view self.now.conditions.items) }
    {
        match self.conditions.front() {
            Some(condition) => {
                if condition.outer {
                    operands_fault(parsed.pieces, parsed.operands())
                } else {
                    None
                }
            }
            None => match operands_fault(parsed.pieces, parsed.operands()) {
                Some(kind) => Some(kind),
                None => Some(FaultKind::Nesting),
            },
        }
    }

    #[tactic(auto, unfolding(crate::specs::Directives::switch_condition))]
    fn switch_condition(&mut self, parsed: Parsed<'_>, word: Word) -> Result<Done, NoMemory>
        ensures { Obeys parsed.entry
            (λ p. switch_condition (word_view word) p.pieces.now (head_in p))
            result self.old self.new }
    {
        if let Some(kind) = self.condition_fault(parsed) {
            return Ok(Done::Fails(kind));
        }
        let Some(condition) = self.conditions.pop_front() else {
            return Ok(Done::Goes);
        };
        let here = match word {
            Word::IfFalse => !condition.holds,
            Word::IfTrue => condition.holds,
            _ => true,
        };
        self.conditions
            .push_front(OpenCondition {
                begin: condition.begin,
                depth: condition.depth,
                outer: condition.outer,
                holds: condition.holds,
                here,
            })
            .map_err(|_| NoMemory)?;
        Ok(Done::Goes)
    }

    #[tactic(auto, unfolding(crate::specs::Directives::end_condition))]
    fn end_condition(&mut self, parsed: Parsed<'_>) -> Done
        ensures { Acts result parsed.entry.read self.new
            (end_condition parsed.entry.pieces.now (head_in parsed.entry)
            (rest_in parsed.entry.read self.old)) }
    {
        if let Some(kind) = self.condition_fault(parsed) {
            return Done::Fails(kind);
        }
        let _ = self.conditions.pop_front();
        Done::Goes
    }

    /// A line of skipped text.
    #[tactic(auto, unfolding(crate::specs::Directives::skip))]
    fn skip(&mut self, parsed: Parsed<'_>) -> Result<Done, NoMemory>
        ensures { Obeys parsed.entry (λ p. skip (line_in p) p.pieces.now (head_in p))
            result self.old self.new }
    {
        match parsed.word() {
            Word::If => self.open_condition(parsed.line, parsed.read, false, false),
            Word::EndIf => Ok(self.end_condition(parsed)),
            Word::IfFalse => self.switch_condition(parsed, Word::IfFalse),
            Word::IfTrue => self.switch_condition(parsed, Word::IfTrue),
            Word::IfTrueFalse => self.switch_condition(parsed, Word::IfTrueFalse),
            _ => Ok(Done::Goes),
        }
    }

    #[tactic(auto, unfolding(crate::specs::Directives::guard))]
    fn guard<N: Names>(
        &self,
        alloc: Global,
        names: &N,
        parsed: Parsed<'_>,
    ) -> Result<Done, NoMemory>
        requires { All (IsPieceOf parsed.line.now.text.items) parsed.pieces.now }
        ensures { Obeys parsed.entry (λ p. guard (N.meaning names.now) (line_in p) (head_in p))
            result self.now self.now }
    {
        match guarded_in(alloc, names, &parsed.line.text, parsed.operands()) {
            Ok(guarded) => {
                if guarded.holds {
                    Ok(Done::Again(guarded.statement))
                } else {
                    Ok(Done::Goes)
                }
            }
            Err(Refusal::Fault(kind)) => Ok(Done::Fails(kind)),
            Err(Refusal::NoMemory) => Err(NoMemory),
        }
    }

    fn begin(&mut self, alloc: Global, use_of: Use, parsed: Parsed<'_>, depth: u32)
        ensures { rest_in parsed.entry.read self.new
            ≡ with_pending (use_view use_of) (line_in parsed.entry) depth
            (rest_in parsed.entry.read self.old) }
    {
        self.collecting = Some(Pending {
            use_of,
            begin: begin_at(parsed.line, parsed.read),
            depth,
            nested: 0,
            lines: Vec::new(alloc),
        });
    }

    fn begin_copies(&mut self, alloc: Global, use_of: Use, parsed: Parsed<'_>) -> Done
        ensures { Acts result parsed.entry.read self.new
            (begin_copies (use_view use_of) (line_in parsed.entry)
            (rest_in parsed.entry.read self.old)) }
    {
        if self.is_deep(parsed.line) {
            return Done::Fails(FaultKind::Depth);
        }
        self.begin(alloc, use_of, parsed, parsed.line.depth + 1);
        Done::Goes
    }

    #[tactic(auto, unfolding(crate::specs::Directives::begin_repeat))]
    fn begin_repeat<N: Names>(
        &mut self,
        alloc: Global,
        names: &N,
        parsed: Parsed<'_>,
    ) -> Result<Done, NoMemory>
        requires { All (IsPieceOf parsed.line.now.text.items) parsed.pieces.now }
        ensures { Obeys parsed.entry
            (λ p. begin_repeat (N.meaning names.now) (line_in p) (head_in p))
            result self.old self.new }
    {
        match number_in(alloc, names, &parsed.line.text, parsed.operands()) {
            Ok(number) => match count_of(self.dialect, number) {
                Ok(count) => Ok(self.begin_copies(alloc, Use::Copies(count), parsed)),
                Err(kind) => Ok(Done::Fails(kind)),
            },
            Err(Refusal::Fault(kind)) => Ok(Done::Fails(kind)),
            Err(Refusal::NoMemory) => Err(NoMemory),
        }
    }

    #[tactic(auto, unfolding(crate::specs::Directives::begin_macro))]
    fn begin_macro(&mut self, alloc: Global, parsed: Parsed<'_>) -> Result<Done, NoMemory>
        ensures { Obeys parsed.entry (λ p. begin_macro (line_in p) (head_in p) (operands_at p))
            result self.old self.new }
    {
        if has_unprintable(&parsed.line.text, parsed.operands()) {
            return Ok(Done::Fails(FaultKind::Token));
        }
        let text = behind_blanks(operand_text(
            parsed.line,
            parsed.operands(),
            parsed.operands_at(),
        ));
        if text.is_empty() {
            return Ok(Done::Fails(FaultKind::Count));
        }
        let (name, rest) = text.split_at(name_length(text));
        if !is_name(name) {
            return Ok(Done::Fails(FaultKind::Form));
        }
        let Some(formals) = macro_formals(alloc, rest)? else {
            return Ok(Done::Fails(FaultKind::Form));
        };
        let name = canonical(alloc, name)?;
        self.begin(alloc, Use::Macro { name, formals }, parsed, 0);
        Ok(Done::Goes)
    }

    #[tactic(auto, unfolding(crate::specs::Directives::begin_arguments))]
    fn begin_arguments(&mut self, alloc: Global, parsed: Parsed<'_>) -> Result<Done, NoMemory>
        ensures { Obeys parsed.entry (λ p. begin_arguments (line_in p) (head_in p) (operands_at p))
            result self.old self.new }
    {
        let larger = self.dialect.has_argument_forms();
        let (line, at) = (parsed.line, parsed.operands_at());
        let found = iterated_in(alloc, larger, line, parsed.operands(), at);
        match found {
            Ok((formal, text)) => match arguments(alloc, larger, &NoKeyword, &text)? {
                Some(found) => {
                    let texts = argument_texts(alloc, found)?;
                    Ok(self.begin_copies(alloc, Use::Each { formal, texts }, parsed))
                }
                None => Ok(Done::Fails(FaultKind::Form)),
            },
            Err(Refusal::Fault(kind)) => Ok(Done::Fails(kind)),
            Err(Refusal::NoMemory) => Err(NoMemory),
        }
    }

    #[tactic(auto, unfolding(crate::specs::Directives::begin_characters))]
    fn begin_characters(&mut self, alloc: Global, parsed: Parsed<'_>) -> Result<Done, NoMemory>
        ensures { Obeys parsed.entry (λ p. begin_characters (line_in p) (head_in p) (operands_at p))
            result self.old self.new }
    {
        let larger = self.dialect.has_argument_forms();
        let (line, at) = (parsed.line, parsed.operands_at());
        let found = iterated_in(alloc, larger, line, parsed.operands(), at);
        match found {
            Ok((formal, text)) => {
                let texts = character_texts(alloc, &text)?;
                Ok(self.begin_copies(alloc, Use::Each { formal, texts }, parsed))
            }
            Err(Refusal::Fault(kind)) => Ok(Done::Fails(kind)),
            Err(Refusal::NoMemory) => Err(NoMemory),
        }
    }

    /// The macro of a name.
    #[tactic(auto, using(crate::proofs::Maps::no_macro))]
    fn called(
        &self,
        alloc: Global,
        text: &[u8],
        operator: Piece,
    ) -> Result<Option<Rc<Template>>, NoMemory>
        ensures { IfOk result (λ o. option_map (λ rc. template_view rc.value) o
            ≡ macros_of self.now.macros (canonical_name (piece_text text.now operator))) }
    {
        if self.macros.is_empty() {
            return Ok(None);
        }
        let name = canonical(alloc, piece_text(text, operator))?;
        match self.macros.get(name.as_slice()) {
            Some(template) => {
                let template = shared(template)?;
                Ok(Some(template))
            }
            None => Ok(None),
        }
    }

    /// Arguments as they are passed.
    fn passed<N: Names>(
        &self,
        alloc: Global,
        names: &N,
        found: Vec<Argument>,
    ) -> Result<Vec<Argument>, Refusal>
        ensures { Decides arguments_view result
            (passed (has_arguments_by_value self.now.dialect) (N.meaning names.now)
            (arguments_view found)) }
    {
        if self.dialect.has_arguments_by_value() {
            all_by_value(alloc, names, found)
        } else {
            Ok(found)
        }
    }

    /// A call with these arguments.
    fn call_with(
        &mut self,
        alloc: Global,
        template: Rc<Template>,
        found: Vec<Argument>,
        parsed: Parsed<'_>,
    ) -> Result<Done, NoMemory>
        ensures { Obeys parsed.entry (λ p. call_with (template_view template.value)
            (assigned_to (formals_view template.value.formals) (arguments_view found))
            (line_in p)) result self.old self.new }
    {
        let Some(given) = assigned(alloc, &template.formals, found)? else {
            return Ok(Done::Fails(FaultKind::Count));
        };
        if self.is_deep(parsed.line) {
            return Ok(Done::Fails(FaultKind::Depth));
        }
        let Giving { next, texts } = given;
        let texts = filled(alloc, &template.formals.list, texts, &mut self.made)?;
        let frame = call_frame(
            alloc,
            template,
            texts,
            parsed.line.number,
            parsed.line.depth + 1,
        );
        self.open_call(next, parsed.line.depth + 1, frame)?;
        Ok(Done::Goes)
    }

    #[tactic(auto, unfolding(crate::specs::Directives::call))]
    fn call<N: Names>(
        &mut self,
        alloc: Global,
        names: &N,
        template: Rc<Template>,
        parsed: Parsed<'_>,
    ) -> Result<Done, NoMemory>
        requires { All (IsPieceOf parsed.line.now.text.items) parsed.pieces.now }
        ensures { Obeys parsed.entry
            (λ p. call (N.meaning names.now) (template_view template.value) (line_in p) (head_in p)
            (operands_at p))
            result self.old self.new }
    {
        if has_unprintable(&parsed.line.text, parsed.operands()) {
            return Ok(Done::Fails(FaultKind::Token));
        }
        let larger = self.dialect.has_argument_forms();
        let text = operands_from(larger, parsed.line, parsed.operands(), parsed.operands_at());
        let Some(found) = arguments(alloc, larger, &template.formals, text)? else {
            return Ok(Done::Fails(FaultKind::Form));
        };
        let found = match self.passed(alloc, names, found) {
            Ok(found) => found,
            Err(Refusal::Fault(kind)) => return Ok(Done::Fails(kind)),
            Err(Refusal::NoMemory) => return Err(NoMemory),
        };
        self.call_with(alloc, template, found, parsed)
    }

    /// A directive of the expander.
    #[tactic(auto, unfolding(crate::specs::Directives::direct))]
    fn direct<N: Names>(
        &mut self,
        alloc: Global,
        names: &N,
        word: Word,
        parsed: Parsed<'_>,
    ) -> Result<Done, NoMemory>
        requires { All (IsPieceOf parsed.line.now.text.items) parsed.pieces.now }
        ensures { Obeys parsed.entry
            (λ p. direct (N.meaning names.now) (word_view word) (line_in p) p.pieces.now (head_in p)
            (operands_at p)) result self.old self.new }
    {
        match word {
            Word::Macro => self.begin_macro(alloc, parsed),
            Word::EndMacro => Ok(parsed.unless_named(Done::Fails(FaultKind::Nesting))),
            Word::EndRepeat => Ok(parsed.unless_operands(Done::Fails(FaultKind::Nesting))),
            Word::Repeat => self.begin_repeat(alloc, names, parsed),
            Word::RepeatArguments => self.begin_arguments(alloc, parsed),
            Word::RepeatCharacters => self.begin_characters(alloc, parsed),
            Word::If => self.begin_condition(alloc, names, parsed),
            Word::IfFalse | Word::IfTrue | Word::IfTrueFalse => {
                self.switch_condition(parsed, word)
            }
            Word::EndIf => Ok(self.end_condition(parsed)),
            Word::ImmediateIf => self.guard(alloc, names, parsed),
            Word::Leave => self.leave(parsed),
            Word::CountArguments => self.count_arguments(alloc, parsed),
            Word::CountCharacters => self.count_characters(alloc, parsed),
            Word::Delete => self.delete_macros(alloc, parsed),
            Word::Opcode => self.define_opcode(alloc, names, parsed),
            Word::End | Word::Other => Ok(Done::Gives),
        }
    }

    /// A line that is read, without operators on texts.
    #[tactic(auto, unfolding(crate::specs::Directives::read))]
    pub(crate) fn read<N: Names>(
        &mut self,
        alloc: Global,
        names: &N,
        parsed: Parsed<'_>,
    ) -> Result<Done, NoMemory>
        requires { All (IsPieceOf parsed.line.now.text.items) parsed.pieces.now }
        ensures { Obeys parsed.entry
            (λ p. read (N.meaning names.now) (line_in p) p.pieces.now (head_in p))
            result self.old self.new }
    {
        let Some(operator) = parsed.head.operator else {
            return Ok(Done::Gives);
        };
        if let Some(template) = self.called(alloc, &parsed.line.text, operator)? {
            if parsed.has_label() {
                return Ok(Done::Label(parsed.head.label_end));
            }
            return self.call(alloc, names, template, parsed);
        }
        match known_word(self.dialect.has_macro_directives(), parsed.word()) {
            Word::End => {
                self.lines.clear();
                Ok(Done::Gives)
            }
            Word::Other => Ok(Done::Gives),
            word => {
                if parsed.has_label() {
                    return Ok(Done::Label(parsed.head.label_end));
                }
                self.direct(alloc, names, word, parsed)
            }
        }
    }

    /// What a line does.
    #[tactic(auto, unfolding(crate::specs::Directives::done))]
    pub(crate) fn act<N: Names>(
        &mut self,
        alloc: Global,
        names: &N,
        line: &Reading,
        pieces: &[Piece],
        head: Head,
        read: u32,
    ) -> Result<Done, NoMemory>
        requires { All (IsPieceOf line.now.text.items) pieces.now }
        ensures { IfOk result (λ d. Acts d read self.new
            (done (N.meaning names.now) (reading_of line.now) pieces.now (head_view pieces.now head)
            (rest_in read self.old))) }
    {
        let parsed = Parsed {
            line,
            pieces,
            head,
            read,
        };
        if let Some(pending) = self.collecting.take() {
            return self.collect(alloc, pending, parsed);
        }
        if self.is_skipping() {
            self.skip(parsed)
        } else {
            self.read_line(alloc, names, parsed)
        }
    }
}
