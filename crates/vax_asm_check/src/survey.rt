// The faults of statements one after another.

ghost use Rattle.std.specs.Prelude.{◌≡◌, ◌++◌, ◌∷◌, [], ℕ, IfOk, IfSome, List, OnOk, false, if◌then◌else◌, map, option_map};
ghost use Rattle.std.specs.List.{cons_option};
ghost use Rattle.vax_asm.specs.Refusal.{IsRefused};
ghost use Rattle.vax_asm.specs.Walk.{nothing};
ghost use Rattle.vax_asm_check.specs.Listed.{AreAll};
ghost use Rattle.vax_asm_check.specs.Restating.{resumed};
ghost use Rattle.vax_asm_check.specs.View.{left_of, GoesOn, IsKept};
ghost use Rattle.vax_asm_faults.specs.Refusal.{faults_in};
ghost use Rattle.vax_asm_faults.specs.Survey.{is_ended, with_faults};
ghost use Rattle.vax_macro.specs.Expanders.{FaultIs, read_of, unclosed_of};
ghost use Rattle.vax_macro.specs.Expansion.{AtEnd, Faulty, Opened};
ghost use Rattle.vax_macro.specs.View.{opening_of};

use crate::circles::{circle_beside, circle_fault};
use crate::left::{Left, Stated, copied};
use crate::sorting::sort;
use std::alloc::Global;
use vax_asm::{FaultKind, Placed, refusal};
use vax_asm_circles::Steps;
use vax_asm_first::Origin;
use vax_asm_second::{Fault, all_faults};
use vax_dialect::Dialect;
use vax_macro::{Begin, Expander, Line};
use vax_space::NoMemory;

/// The dialect; what the statements without a fault leave, and these statements; the assignments of them that have no value as steps;
/// the faults of the others, and the line that a fault ended.
#[derive(Drop)]
pub(crate) struct Survey {
    pub(crate) dialect: Dialect,
    pub(crate) left: Left,
    pub(crate) stood: Vec<Stated>,
    pub(crate) steps: Steps,
    pub(crate) faults: Vec<Fault>,
    pub(crate) ended: Option<u32>,
}

/// Whether the line with this place has ended.
pub(crate) fn is_ended(ended: Option<u32>, place: u32) -> bool
    ensures { result ≡ is_ended ended place }
{
    match ended {
        None => false,
        Some(ended) => ended == place,
    }
}

/// Adds a fault, if there is one.
fn add(faults: &mut Vec<Fault>, fault: Option<Fault>) -> Result<(), NoMemory>
    ensures { OnOk result (faults.new.items ≡ faults.old.items ++ cons_option fault []) }
{
    let Some(fault) = fault else {
        return Ok(());
    };
    faults.push(fault).map_err(|_| NoMemory)?;
    Ok(())
}

/// Adds a fault, unless its line has ended.
fn add_unless(faults: &mut Vec<Fault>, ended: Option<u32>, fault: Fault) -> Result<(), NoMemory>
    ensures { OnOk result (faults.new.items ≡ faults.old.items
        ++ (if is_ended ended fault.origin.place then [] else fault ∷ [])) }
{
    if is_ended(ended, fault.origin.place) {
        return Ok(());
    }
    add(faults, Some(fault))
}

/// The fault that a statement of a line has in a dialect whatever stands before it, where the line was cut in that dialect and its
/// text alone decides that it has one.
fn refusal_in(alloc: Global, dialect: Dialect, said: &Line) -> Result<Option<FaultKind>, NoMemory>
    ensures { IfOk result (λ o. IfSome o (IsRefused dialect said.now.text.items)) }
{
    if said.dialect == dialect {
        return refusal(alloc, said);
    }
    Ok(None)
}

/// Adds a statement that stands.
fn keep(list: &mut Vec<Stated>, stated: Stated) -> Result<(), NoMemory>
    ensures { OnOk result (list.new.items ≡ list.old.items ++ stated ∷ []) }
{
    list.push(stated).map_err(|_| NoMemory)?;
    Ok(())
}

impl Survey {
    #[tactic(auto, using(crate::proofs::Restating::none_kept))]
    pub(crate) fn new(alloc: Global, dialect: Dialect) -> Result<Survey, NoMemory>
        ensures left { IfOk result (λ s. left_of s.left ≡ nothing dialect) }
        ensures faults { IfOk result (λ s. s.faults.items ≡ []) }
        ensures ended { IfOk result (λ s. s.ended ≡ None) }
        ensures kept { IfOk result (λ s. IsKept s) }
    {
        let left = Left::new(alloc, dialect)?;
        Ok(Survey {
            dialect,
            left,
            stood: Vec::new(alloc),
            steps: Steps::new(alloc),
            faults: Vec::new(alloc),
            ended: None,
        })
    }

    /// Carries out a statement of a line that goes on. After a fault all is as before: what the statement has done is undone, or where
    /// that can't be, the statements that stand are carried out once more.
    fn carry_out(&mut self, alloc: Global, origin: Origin, said: Line) -> Result<(), NoMemory>
        requires kept { IsKept self.old }
        requires goes { is_ended self.old.ended origin.place ≡ false }
        ensures goes { OnOk result (GoesOn origin said.text.items self.old self.new) }
        ensures kept { OnOk result (IsKept self.new) }
    {
        let line = copied(alloc, &said)?;
        let before = self.left.assignments.len();
        let placed = self.left.place(alloc, origin, said)?;
        match placed {
            Placed::Stands => {
                let circle = circle_fault(alloc, &mut self.steps, &self.left.assignments, before)?;
                add(&mut self.faults, circle)?;
                keep(&mut self.stood, Stated { origin, line })?;
                self.ended = None;
                Ok(())
            }
            Placed::FaultyLabel(kind) => {
                add(&mut self.faults, Some(Fault { origin, kind }))?;
                self.ended = None;
                Ok(())
            }
            Placed::Faulty(kind) => {
                let circle = circle_beside(alloc, &mut self.steps, &self.left.assignments, before)?;
                add(&mut self.faults, Some(Fault { origin, kind }))?;
                add(&mut self.faults, circle)?;
                self.left.go_back(alloc, self.dialect, &self.stood, before)?;
                self.ended = Some(origin.place);
                Ok(())
            }
        }
    }

    /// Goes on behind a statement that its text alone refuses, from all that stands.
    fn refuse(&mut self, origin: Origin, kind: FaultKind) -> Result<(), NoMemory>
        requires kept { IsKept self.old }
        requires goes { is_ended self.old.ended origin.place ≡ false }
        ensures goes { OnOk result ((text : List ℕ)
            → IsRefused self.old.left.standing.dialect text kind
            → GoesOn origin text self.old self.new) }
        ensures kept { OnOk result (IsKept self.new) }
    {
        add(&mut self.faults, Some(Fault { origin, kind }))?;
        self.ended = Some(origin.place);
        Ok(())
    }

    /// Goes on with a statement. What is left of a line that has ended is passed over.
    pub(crate) fn state(
        &mut self,
        alloc: Global,
        origin: Origin,
        said: Line,
    ) -> Result<(), NoMemory>
        requires { IsKept self.old }
        ensures goes { OnOk result (GoesOn origin said.text.items self.old self.new) }
        ensures kept { OnOk result (IsKept self.new) }
    {
        if is_ended(self.ended, origin.place) {
            return Ok(());
        }
        let refused = refusal_in(alloc, self.left.standing.dialect, &said)?;
        match refused {
            Some(kind) => self.refuse(origin, kind),
            None => self.carry_out(alloc, origin, said),
        }
    }

    /// All faults, once the source is read to its end: those of the lines, and then those that the whole source decides, by
    /// their lines.
    pub(crate) fn end(self, alloc: Global, begin: Option<Begin>) -> Result<Vec<Fault>, NoMemory>
        ensures { IfOk result (λ v. AreAll v.items (faults_in (with_faults self.faults.items
            (resumed (AtEnd (option_map opening_of begin)) (left_of self.left) self.ended)))) }
    {
        let Survey {
            left,
            mut faults,
            ..
        } = self;
        let Left {
            standing,
            assignments,
        } = left;
        let mut more = all_faults(alloc, standing, &assignments, begin)?;
        sort(&mut more)?;
        faults.extend_from_slice(&more).map_err(|_| NoMemory)?;
        Ok(faults)
    }

    /// All faults, where the source ends with one that macros, repeats and conditions show, or with a begin without its end.
    pub(crate) fn stop(
        self,
        alloc: Global,
        expander: &Expander,
        line: u32,
        kind: FaultKind,
    ) -> Result<Vec<Fault>, NoMemory>
        ensures { (o : Opened) →
            FaultIs (unclosed_of expander.now) (read_of expander.now) line kind o →
            IfOk result (λ v. AreAll v.items (faults_in (with_faults self.faults.items
            (resumed o (left_of self.left) self.ended)))) }
    {
        match expander.open_begin() {
            Some(begin) => self.end(alloc, Some(begin)),
            None => self.stop_at(
                Origin {
                    line,
                    place: expander.lines_read(),
                },
                kind,
            ),
        }
    }

    /// All faults, where the source ends with one here.
    fn stop_at(self, origin: Origin, kind: FaultKind) -> Result<Vec<Fault>, NoMemory>
        ensures { IfOk result (λ v. AreAll v.items (faults_in (with_faults self.faults.items
            (resumed (Faulty origin.line origin.place kind) (left_of self.left) self.ended)))) }
    {
        let mut faults = self.faults;
        add_unless(&mut faults, self.ended, Fault { origin, kind })?;
        Ok(faults)
    }
}
