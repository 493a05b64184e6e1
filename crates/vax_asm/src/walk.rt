// A source from its first statement to its last.

ghost use Rattle.std.specs.Prelude.{◌≡◌, ◌<◌, Err, IfOk, OnOk, None, map, option_map};
ghost use Rattle.vax_asm.specs.View.{assembly_of, Answers, Says, Stood};
ghost use Rattle.vax_asm.specs.Walk.{assembled, ended, resumed, stopped, unless_circle};
ghost use Rattle.vax_asm_second.specs.Modules.{filled_in};
ghost use Rattle.vax_asm_second.specs.View.{Fills};
ghost use Rattle.vax_macro.specs.Expanders.{unclosed_of, read_of, FaultIs};
ghost use Rattle.vax_macro.specs.Expansion.{Opened};
ghost use Rattle.vax_macro.specs.View.{opening_of};
ghost use Rattle.vax_module.specs.Formed.{Formed};
ghost use Rattle.vax_asm_first.specs.Circles.{first_circle};
ghost use Rattle.vax_asm_first.specs.View.{assignment_of, standing_of};

use crate::error::AsmError;
use crate::met::{behind_circle, least, of_another};
use crate::placing::{Placed, place};
use std::alloc::Global;
use vax_asm_first::{Assignment, Origin, Standing, first_circle};
use vax_asm_scope::KnownNames;
use vax_asm_second::{Fault, FillError, fill_in};
use vax_dialect::Dialect;
use vax_macro::{Begin, Expander, FaultKind, Line, MacroError};
use vax_module::Module;
use vax_space::NoMemory;

/// What the statements so far leave, and the fault that was met in the line that is being read.
#[derive(Drop)]
pub struct Walk {
    pub standing: Standing,
    /// The assignments that have no value yet, in order.
    pub assignments: Vec<Assignment>,
    pub met: Option<Fault>,
}

impl Walk {
    /// The fault that ends the walk where this one is met.
    fn stopped(&self, alloc: Global, fault: Fault) -> FillError
        ensures { Fills (Err result)
            (stopped (map assignment_of self.now.assignments.items) fault) }
    {
        match first_circle(alloc, &self.assignments) {
            Ok(circle) => FillError::Fault(behind_circle(circle, fault)),
            Err(NoMemory) => FillError::NoMemory,
        }
    }

    /// Carries out a statement.
    #[tactic(auto, using(crate::proofs::Statements::behind_stands, crate::proofs::Statements::behind_faulty, crate::proofs::Statements::behind_label), unfolding(crate::specs::Walk::said))]
    pub fn say(&mut self, alloc: Global, origin: Origin, said: Line) -> Result<(), FillError>
        ensures says { Says result origin said.text.items
            (assembly_of self.old.standing self.old.assignments)
            (assembly_of self.new.standing self.new.assignments) self.old.met self.new.met }
        // Where no fault was met, the statement stands.
        ensures stands { OnOk result (self.new.met ≡ None → (self.old.met ≡ None)
            × Stood origin said.text.items
            (assembly_of self.old.standing self.old.assignments)
            (assembly_of self.new.standing self.new.assignments)) }
    {
        if let Some(met) = of_another(self.met, origin) {
            return Err(self.stopped(alloc, met));
        }
        let Ok(placed) = place(
            &mut self.standing,
            &mut self.assignments,
            alloc,
            origin,
            said,
        ) else {
            return Err(FillError::NoMemory);
        };
        match placed {
            Placed::Stands => Ok(()),
            Placed::FaultyLabel(kind) => {
                self.met = Some(least(self.met, origin, kind));
                Ok(())
            }
            Placed::Faulty(kind) => {
                let fault = least(self.met, origin, kind);
                Err(self.stopped(alloc, fault))
            }
        }
    }

    /// The module of all that was read, unless an assignment makes its name come back to itself.
    fn fill(self, alloc: Global, begin: Option<Begin>) -> Result<Module, FillError>
        ensures module { Fills result
            (unless_circle (first_circle (map assignment_of self.assignments.items))
            (filled_in (standing_of self.standing)
            (map assignment_of self.assignments.items) (option_map opening_of begin))) }
        ensures formed { IfOk result Formed }
    {
        match first_circle(alloc, &self.assignments) {
            Ok(None) => fill_in(alloc, self.standing, &self.assignments, begin),
            Ok(Some(origin)) => Err(FillError::Fault(Fault {
                origin,
                kind: FaultKind::Form,
            })),
            Err(NoMemory) => Err(FillError::NoMemory),
        }
    }

    /// The module, once the source is read to its end.
    pub fn end(self, alloc: Global, begin: Option<Begin>) -> Result<Module, FillError>
        ensures module { Fills result (ended (assembly_of self.standing self.assignments)
            self.met (option_map opening_of begin)) }
        ensures formed { IfOk result Formed }
    {
        match self.met {
            Some(met) => Err(self.stopped(alloc, met)),
            None => self.fill(alloc, begin),
        }
    }

    /// The source ends with a fault that macros, repeats and conditions show, or with a begin without its end.
    pub fn stop(
        self,
        alloc: Global,
        expander: &Expander,
        line: u32,
        kind: FaultKind,
    ) -> Result<Module, FillError>
        ensures module { (o : Opened) →
            FaultIs (unclosed_of expander.now) (read_of expander.now) line kind o →
            Fills result (resumed o (assembly_of self.standing self.assignments) self.met) }
        ensures formed { IfOk result Formed }
    {
        match expander.open_begin() {
            Some(begin) => self.end(alloc, Some(begin)),
            None => {
                let place = expander.lines_read();
                let fault = least(self.met, Origin { line, place }, kind);
                Err(self.stopped(alloc, fault))
            }
        }
    }
}

/// The module of a source in a dialect, or its first fault.
#[tactic(auto, using(crate::proofs::Opening::walked_opened))]
fn module_of(alloc: Global, dialect: Dialect, source: &[u8]) -> Result<Module, FillError>
    ensures module { Fills result (assembled dialect source.now) }
    ensures formed { IfOk result Formed }
{
    let Ok(mut expander) = Expander::new(alloc, dialect, source) else {
        return Err(FillError::NoMemory);
    };
    let Ok(standing) = Standing::new(alloc, dialect) else {
        return Err(FillError::NoMemory);
    };
    let mut walk = Walk {
        standing,
        assignments: Vec::new(alloc),
        met: None,
    };
    'statements: loop {
        let Ok(here) = walk.standing.here() else {
            return Err(FillError::NoMemory);
        };
        let names = KnownNames {
            dialect: walk.standing.dialect,
            scope: &walk.standing.scope,
            here,
        };
        match expander.next(&names) {
            Ok(Some(said)) => {
                let origin = Origin {
                    line: said.number,
                    place: expander.lines_read(),
                };
                walk.say(alloc, origin, said)?;
            }
            Ok(None) => return walk.end(alloc, None),
            Err(MacroError::Fault { line, kind }) => return walk.stop(alloc, &expander, line, kind),
            Err(MacroError::NoMemory) => return Err(FillError::NoMemory),
        }
    }
}

/// The module of a source in a dialect of MACRO-32, or its first fault.
///
/// [`AsmError::Fault`] with the first line that has a fault, and its fault that goes before the others; [`AsmError::NoMemory`] where memory is
/// refused.
pub fn assemble(alloc: Global, dialect: Dialect, source: &[u8]) -> Result<Module, AsmError>
    ensures module { Answers result (assembled dialect source.now) }
    // The linker may join it to others.
    ensures formed { IfOk result Formed }
{
    match module_of(alloc, dialect, source) {
        Ok(module) => Ok(module),
        Err(FillError::Fault(fault)) => Err(AsmError::Fault {
            line: fault.origin.line,
            kind: fault.kind,
        }),
        Err(FillError::NoMemory) => Err(AsmError::NoMemory),
    }
}
