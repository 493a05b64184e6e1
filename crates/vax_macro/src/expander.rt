// The expander.

ghost use Rattle.std.specs.Prelude.{◌≡◌, ◌+◌, ◌<◌, ◌≤◌, ℕ, None, Some, IfOk, IfErr, IfSome, OnOk, length, option_map};
ghost use Rattle.vax_lex.specs.Tokens.{pieces_of};

use crate::error::{FaultKind, MacroError};
use crate::heads::head_in;
use crate::line_types::{Lines, Read, Reading, Remainder};
use crate::names::{behind, copied, part};
use crate::reader::{next_reading, whole};
use crate::state_types::{Begin, Done, OpenCondition, State};
use std::alloc::Global;
use std::collections::{BTreeMap, VecDeque};
use vax_dialect::Dialect;
use vax_lex::{Names, Piece, pieces};
use vax_space::NoMemory;

/// A statement: the number of its line in the source, or of the outermost call, its text of at most 1,024 bytes,
/// continuations joined, and the pieces of the text in its dialect.
#[derive(Drop)]
pub struct Line {
    pub dialect: Dialect,
    pub number: u32,
    pub text: Vec<u8>,
    pub pieces: Vec<Piece>,
    pub ghost short: { length text.items ≤ 1024 },
    pub ghost cut: { pieces.items ≡ pieces_of dialect text.items },
}

/// A source that is being expanded: what is left to open of it, and the error that was answered, if one was.
#[derive(Drop)]
pub struct Expander {
    alloc: Global,
    state: State,
    again: Option<Remainder>,
    read: u32,
    error: Option<MacroError>,
    unclosed: Option<Begin>,
}

/// What one step did.
#[derive(Drop)]
enum Step {
    Goes,
    Says(Line),
    Faults(u32, FaultKind),
    Ends(Option<Begin>),
}

/// Where a condition begins.
fn begin_of(condition: &OpenCondition) -> Begin
    ensures { result ≡ condition.now.begin }
{
    condition.begin
}

/// A statement of this text. None has more than 1,024 bytes; one that had is answered like what there is no room for.
fn statement(alloc: Global, dialect: Dialect, number: u32, text: Vec<u8>) -> Result<Line, NoMemory>
    ensures number { IfOk result (λ line. line.number ≡ number) }
    ensures text { IfOk result (λ line. line.text.items ≡ text.items) }
{
    if text.len() > 1024 {
        return Err(NoMemory);
    }
    let pieces = pieces(alloc, dialect, &text).map_err(|_| NoMemory)?;
    Ok(Line {
        dialect,
        number,
        text,
        pieces,
    })
}

impl Expander {
    ghost use Rattle.vax_macro.specs.Rest.{started, work, weight};
    ghost use Rattle.std.specs.Prelude.{List, Option};
    ghost use Rattle.vax_lex.specs.Values.{Sense};
    ghost use Rattle.vax_macro.specs.Directives.{done};
    ghost use Rattle.vax_macro.specs.Expansion.{AtEnd, step, line_step, cut, turned, behind_label, unclosed};
    ghost use Rattle.vax_macro.specs.Heads.{head_in};
    ghost use Rattle.vax_macro.specs.LineViews.{reading_of};
    ghost use Rattle.vax_macro.specs.Readings.{IsOf, Reads, Spares, left_of};
    ghost use Rattle.vax_macro.specs.View.{opening_of, rest_in, Acts};
    ghost use Rattle.vax_macro.specs.Expanders.{rest_of, error_of, unclosed_of, read_of, Does, Opens, OpensNext, Shrinks};

    /// A source in a dialect of which nothing was opened.
    #[tactic(auto, using(crate::proofs::Begins::fresh))]
    pub fn new(alloc: Global, dialect: Dialect, source: &[u8]) -> Result<Expander, NoMemory>
        ensures rest { IfOk result (λ e. rest_of e ≡ started dialect source.now) }
        ensures error { IfOk result (λ e. error_of e ≡ None) }
    {
        let source = copied(alloc, source)?;
        Ok(Expander {
            alloc,
            state: State {
                dialect,
                lines: Lines {
                    source,
                    at: 0,
                    number: 0,
                    frames: VecDeque::new(alloc),
                },
                macros: BTreeMap::new(alloc),
                collecting: None,
                conditions: VecDeque::new(alloc),
                calls: VecDeque::new(alloc),
                made: 0,
            },
            again: None,
            read: 0,
            error: None,
            unclosed: None,
        })
    }

    /// What is left of the line just read, or the next one.
    #[tactic(auto, using(crate::proofs::Lessening::read_again, crate::proofs::Lessening::left_at_most), unfolding(crate::specs::Expansion::step))]
    fn take_line(&mut self) -> Result<Read, NoMemory>
        ensures exact { IfOk result (λ r. (names : Sense) →
            Reads names r (rest_of self.new) (step names (rest_of self.old))) }
        ensures again { self.new.again ≡ None }
        ensures dialect { IfOk result (λ r. IsOf self.new.state.dialect r) }
        ensures error { self.new.error ≡ self.old.error }
        ensures unclosed { self.new.unclosed ≡ self.old.unclosed }
        ensures fewer { IfOk result
            (λ r. Spares r (work (rest_of self.old)) (work (rest_of self.new))) }
    {
        match self.again.take() {
            Some(left) => {
                let line = whole(self.alloc, self.state.dialect, left)?;
                Ok(Read::Line(line))
            }
            None => {
                let dialect = self.state.dialect;
                let next = next_reading(
                    self.alloc,
                    dialect,
                    &mut self.state.lines,
                    &mut self.read,
                )?;
                Ok(next)
            }
        }
    }

    /// The first begin that has no end.
    #[tactic(auto, using(crate::proofs::Begins::outermost))]
    fn first_begin(&self) -> Option<Begin>
        ensures { option_map opening_of result
            ≡ unclosed (rest_of self.now).conditions (rest_of self.now).collecting }
    {
        match self.state.conditions.back() {
            Some(condition) => Some(begin_of(condition)),
            None => match &self.state.collecting {
                Some(pending) => Some(pending.begin),
                None => None,
            },
        }
    }

    /// What is behind a place of a line is read as a line of its own. The head of a line takes a byte at least.
    #[tactic(auto, using(crate::proofs::Lessening::cut_less))]
    fn cut(&mut self, line: &Reading, at: usize) -> Result<(), NoMemory>
        ensures rest { OnOk result (rest_of self.new
            ≡ record (rest_of self.old) { again = Some (cut at (reading_of line.now)) }) }
        ensures error { self.new.error ≡ self.old.error }
        ensures unclosed { self.new.unclosed ≡ self.old.unclosed }
        ensures fewer { OnOk result (weight (rest_of self.new).again ≤ left_of line.now) }
    {
        if at == 0 || line.text.is_empty() {
            return Err(NoMemory);
        }
        let text = copied(self.alloc, behind(&line.text, at))?;
        self.again = Some(Remainder {
            number: line.number,
            depth: line.depth,
            text,
            labelled: false,
        });
        Ok(())
    }

    /// A line is read again as a shorter text.
    #[tactic(auto, using(crate::proofs::Lessening::turned_less))]
    fn turn(&mut self, line: &Reading, text: Vec<u8>) -> Result<(), NoMemory>
        ensures rest { OnOk result (rest_of self.new
            ≡ record (rest_of self.old) {
              again = Some (turned text.items (reading_of line.now));
            }) }
        ensures error { self.new.error ≡ self.old.error }
        ensures unclosed { self.new.unclosed ≡ self.old.unclosed }
        ensures fewer { OnOk result (weight (rest_of self.new).again ≤ left_of line.now) }
    {
        if text.len() >= line.text.len() {
            return Err(NoMemory);
        }
        self.again = Some(Remainder {
            number: line.number,
            depth: line.depth,
            text,
            labelled: line.labelled,
        });
        Ok(())
    }

    /// A line is read again without its label, which it hands out once.
    #[tactic(auto, using(crate::proofs::Lessening::label_less))]
    fn hand_out_label(&mut self, line: &Reading) -> Result<(), NoMemory>
        ensures rest { OnOk result (rest_of self.new
            ≡ record (rest_of self.old) { again = Some (behind_label (reading_of line.now)) }) }
        ensures error { self.new.error ≡ self.old.error }
        ensures unclosed { self.new.unclosed ≡ self.old.unclosed }
        ensures fewer { OnOk result (weight (rest_of self.new).again ≤ left_of line.now) }
    {
        if line.labelled {
            return Err(NoMemory);
        }
        let text = copied(self.alloc, &line.text)?;
        self.again = Some(Remainder {
            number: line.number,
            depth: line.depth,
            text,
            labelled: true,
        });
        Ok(())
    }

    /// What a line changes.
    fn act<N: Names>(&mut self, names: &N, line: &Reading) -> Result<Done, NoMemory>
        requires { line.now.dialect ≡ self.old.state.dialect }
        ensures exact { let pieces = pieces_of self.old.state.dialect line.now.text.items in
            IfOk result (λ d. Acts d self.old.read self.new.state
            (done (N.meaning names.now) (reading_of line.now) pieces (head_in pieces)
            (rest_in self.old.read self.old.state))) }
        ensures read { self.new.read ≡ self.old.read }
        ensures again { self.new.again ≡ self.old.again }
        ensures error { self.new.error ≡ self.old.error }
        ensures unclosed { self.new.unclosed ≡ self.old.unclosed }
    {
        let head = head_in(&line.pieces);
        let done = self
            .state
            .act(self.alloc, names, line, &line.pieces, head, self.read)?;
        Ok(done)
    }

    /// The step of a line.
    #[tactic(auto, unfolding(crate::specs::Expansion::line_step))]
    fn carry_out<N: Names>(&mut self, names: &N, line: Reading) -> Result<Step, NoMemory>
        requires again { self.old.again ≡ None }
        requires dialect { line.dialect ≡ self.old.state.dialect }
        ensures exact { IfOk result (λ s. Does s self.new
            (line_step (N.meaning names.now) (reading_of line) (rest_of self.old))) }
        ensures error { self.new.error ≡ self.old.error }
        ensures unclosed { self.new.unclosed ≡ self.old.unclosed }
        ensures fewer { IfOk result
            (λ s. work (rest_of self.new) ≤ work (rest_of self.old) + left_of line) }
    {
        let done = self.act(names, &line)?;
        match done {
            Done::Goes => Ok(Step::Goes),
            Done::Gives => {
                let Reading {
                    dialect,
                    number,
                    text,
                    pieces,
                    ..
                } = line;
                Ok(Step::Says(Line {
                    dialect,
                    number,
                    text,
                    pieces,
                }))
            }
            Done::Turns(text) => {
                self.turn(&line, text)?;
                Ok(Step::Goes)
            }
            Done::Again(at) => {
                self.cut(&line, at)?;
                Ok(Step::Goes)
            }
            Done::Label(at) => {
                self.hand_out_label(&line)?;
                let text = copied(self.alloc, part(&line.text, 0, at))?;
                let said = statement(self.alloc, line.dialect, line.number, text)?;
                Ok(Step::Says(said))
            }
            Done::Writes(text) => {
                let said = statement(self.alloc, line.dialect, line.number, text)?;
                Ok(Step::Says(said))
            }
            Done::Fails(kind) => Ok(Step::Faults(line.number, kind)),
        }
    }

    /// One step.
    fn step<N: Names>(&mut self, names: &N) -> Result<Step, NoMemory>
        ensures exact { IfOk result
            (λ s. Does s self.new (step (N.meaning names.now) (rest_of self.old))) }
        ensures error { self.new.error ≡ self.old.error }
        ensures unclosed { self.new.unclosed ≡ self.old.unclosed }
        ensures fewer { IfOk result
            (λ s. Shrinks s (work (rest_of self.old)) (work (rest_of self.new))) }
    {
        match self.take_line()? {
            Read::Line(line) => {
                let step = self.carry_out(names, line)?;
                Ok(step)
            }
            Read::Fault(number, kind) => Ok(Step::Faults(number, kind)),
            Read::Nothing => Ok(Step::Ends(self.first_begin())),
        }
    }

    /// What is answered at the end of the source.
    fn end(&mut self, begin: Option<Begin>) -> Result<Option<Line>, MacroError>
        ensures opens { Opens result self.new (AtEnd (option_map opening_of begin)) }
        ensures error { self.new.error ≡ self.old.error }
        ensures nothing { IfOk result (λ o. o ≡ None) }
    {
        match begin {
            None => Ok(None),
            Some(begin) => {
                self.unclosed = Some(begin);
                Err(MacroError::Fault {
                    line: begin.number,
                    kind: FaultKind::Nesting,
                })
            }
        }
    }

    /// The next statement of a source in which no error was found so far.
    fn advance<N: Names>(&mut self, names: &N) -> Result<Option<Line>, MacroError>
        ensures opens { OpensNext (N.meaning names.now) result self.old self.new }
        ensures error { self.new.error ≡ self.old.error }
        ensures short { IfOk result (λ o. IfSome o (λ line. length line.text.items ≤ 1024)) }
        ensures fewer { IfOk result
            (λ o. IfSome o (λ line. work (rest_of self.new) < work (rest_of self.old))) }
    {
        self.unclosed = None;
        'steps: loop {
            let Ok(step) = self.step(names) else {
                return Err(MacroError::NoMemory);
            };
            match step {
                Step::Goes => {}
                Step::Says(line) => return Ok(Some(line)),
                Step::Faults(line, kind) => return Err(MacroError::Fault { line, kind }),
                Step::Ends(begin) => return self.end(begin),
            }
        }
    }

    /// The next statement under these names; None at the end of the source and behind `.END`. After an error every
    /// later call answers the same one.
    pub fn next<N: Names>(&mut self, names: &N) -> Result<Option<Line>, MacroError>
        // What the definition gives with steps enough.
        ensures opens { error_of self.old ≡ None
            → OpensNext (N.meaning names.now) result self.old self.new }
        // After an error, the same error and nothing else.
        ensures again { IfSome (error_of self.old)
            (λ e. (result ≡ Err e) × (self.new ≡ self.old)) }
        ensures kept { IfErr result (λ e. error_of self.new ≡ Some e) }
        ensures none { OnOk result (error_of self.new ≡ None) }
        // A statement's text may be scanned.
        ensures short { IfOk result (λ o. IfSome o (λ line. length line.text.items ≤ 1024)) }
        // A statement takes a step.
        ensures fewer { IfOk result
            (λ o. IfSome o (λ line. work (rest_of self.new) < work (rest_of self.old))) }
    {
        if let Some(error) = self.error {
            return Err(error);
        }
        match self.advance(names) {
            Ok(line) => Ok(line),
            Err(error) => {
                self.error = Some(error);
                Err(error)
            }
        }
    }

    /// The begin without its end, once `next` has answered that fault.
    pub fn open_begin(&self) -> Option<Begin>
        ensures { option_map opening_of result ≡ unclosed_of self.now }
    {
        self.unclosed
    }

    /// How many lines were read, from the source and from expansions, with that of the last statement or fault.
    pub fn lines_read(&self) -> u32
        ensures { result ≡ read_of self.now }
    {
        self.read
    }
}
