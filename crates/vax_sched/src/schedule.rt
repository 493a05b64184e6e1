//! A schedule: what it keeps of its lines, and what it asks of a turn.
ghost use Rattle.std.specs.Prelude.{◌≡◌, ◌<◌, ◌+◌, ◌^◌, List, [], ◌∷◌, ◌++◌, true, false, IfOk, length, slice_get};
ghost use Rattle.std.specs.List.{filter_map};
ghost use Rattle.vax_space.specs.declared.Area.{Area};
ghost use Rattle.vax_sched.specs.Due.{IsGap, due};
ghost use Rattle.vax_sched.specs.Faults.{ArePlaced, Denotes, fault_of, has_page, is_late, is_placed};
ghost use Rattle.vax_sched.specs.Kept.{is_late_reading, is_proper_reading};
ghost use Rattle.vax_sched.specs.Printed.{printed};
ghost use Rattle.vax_sched.specs.Rules.{rule_in};
ghost use Rattle.vax_sched.specs.Views.{reading};

use crate::due::{Targets, fixed_gap, fixed_now, repeated_at, repeated_gap};
use crate::line::Line;
use crate::print::text_of;
use crate::rule::{Fixed, Repeated, Rule, Target};
use std::alloc::{AllocError, Global};
use std::marker::Model;
use vax_space::{NoMemory, Space};

/// A schedule. Contracts see the list of its lines.
#[derive(Drop)]
pub struct Schedule {
    rules: Vec<Rule>,
    /// The `at` lines, whose turns ascend.
    fixed: Vec<Fixed>,
    /// The `each` lines.
    repeated: Vec<Repeated>,
}

impl Model for Schedule {
    ghost use Rattle.std.specs.Prelude.{List};
    ghost use Rattle.vax_sched.specs.declared.rule.Rule.{Rule};
    ghost use Rattle.vax_sched.specs.Kept.{IsKept};

    ghost Value = { List Rule };

    ghost view = { λ s. s.rules.items };

    ghost invariant = { λ s. IsKept s.rules.items s.fixed.items s.repeated.items };
}

impl Schedule {
    /// No line yet.
    #[tactic(auto, using(crate::proofs::KeptLaws::kept_nothing))]
    pub fn new(alloc: Global) -> Schedule
        ensures { result ≡ [] }
    {
        Schedule {
            rules: Vec::new(alloc),
            fixed: Vec::new(alloc),
            repeated: Vec::new(alloc),
        }
    }

    /// The lines, in the file's order.
    pub fn rules(&self) -> &[Rule]
        ensures { result.now ≡ self.now }
    {
        &self.rules
    }

    /// The target at this place, from 0, of the list of those that are due at a turn: first the `at` lines for the turn, then
    /// the `each` lines whose number divides it, both in the file's order. `None` past the list's end.
    ///
    /// The list has fewer than 2^32 targets. It takes time in the `each` lines, and in the logarithm of the number of `at` lines.
    pub fn due(&self, turn: u64, place: u32) -> Option<Target>
        ensures target { result ≡ slice_get (due self.now turn) place }
        ensures few { length (due self.now turn) < 2 ^ 32 }
    {
        let fixed = fixed_now(&self.fixed, turn);
        let place = place as usize;
        match fixed.get(place) {
            Some(rule) => Some(Target::Page(rule.page)),
            None => repeated_at(&self.repeated, turn, place - fixed.len()),
        }
    }

    /// The targets that are due at a turn, in the order of [`Schedule::due`]. All of them take time in the lines, not each of them.
    pub fn targets(&self, turn: u64) -> Targets<'_>
        ensures { result ≡ due self.now turn }
    {
        Targets::new(turn, fixed_now(&self.fixed, turn), &self.repeated)
    }

    /// The text of the schedule, without comments and blank lines. Read again it is the same schedule.
    pub fn print(&self, alloc: Global) -> Result<Vec<u8>, NoMemory>
        ensures exact { IfOk result (λ text. text.items ≡ printed self.now) }
        ensures same { IfOk result (λ text. (areas : List Area) → ArePlaced areas self.now
            → Denotes areas text.items self.now) }
    {
        Ok(text_of(alloc, &self.rules)?)
    }

    /// How many turns from this one on have nothing due. The turn behind them has something, unless it is 2^64 - 1.
    pub fn quiet(&self, turn: u64) -> u64
        ensures within { turn + result < 2 ^ 64 }
        ensures gap { IsGap (due self.now) turn result }
    {
        fixed_gap(&self.fixed, turn).min(repeated_gap(&self.repeated, turn))
    }

    /// Whether a rule is for an earlier turn than the `at` line before it.
    #[tactic(auto, using(crate::proofs::KeptLaws::late_laws))]
    fn is_late(&self, rule: &Rule) -> bool
        ensures { result ≡ is_late self.now rule.now }
    {
        let Rule::At(rule) = rule else {
            return false;
        };
        match self.fixed.last() {
            Some(last) => rule.turn < last.turn,
            None => false,
        }
    }

    /// The kind of the fault of a line behind these, if it has one.
    pub(crate) fn fault(&self, line: &Line, space: &Space) -> Option<u8>
        ensures { result ≡ fault_of space.now self.now (reading line.now) }
    {
        match line {
            Line::Silent => None,
            Line::Malformed => Some(1),
            Line::Rule(rule) if !is_placed(space, rule) => Some(2),
            Line::Rule(rule) if self.is_late(rule) => Some(3),
            Line::Rule(_) => None,
        }
    }

    /// Takes in a line without fault.
    pub(crate) fn with(self, line: Line) -> Result<Schedule, AllocError>
        requires proper { is_proper_reading (reading line) ≡ true }
        requires ordered { is_late_reading self (reading line) ≡ false }
        requires few { length self + 1 < 2 ^ 31 }
        ensures { IfOk result (λ s. s ≡ self ++ filter_map rule_in (reading line ∷ [])) }
    {
        let Line::Rule(rule) = line else {
            return Ok(self);
        };
        let Schedule {
            mut rules,
            mut fixed,
            mut repeated,
        } = self;
        rules.push(rule)?;
        match rule {
            Rule::At(rule) => fixed.push(rule)?,
            Rule::Each(rule) => repeated.push(rule)?,
        }
        Ok(Schedule {
            rules,
            fixed,
            repeated,
        })
    }
}

/// An area has the page.
fn has_page(space: &Space, page: u32) -> bool
    ensures { result ≡ has_page space.now page }
{
    space.area_of(page).is_some()
}

/// An area has the page that a rule names, if it names one.
fn is_placed(space: &Space, rule: &Rule) -> bool
    ensures { result ≡ is_placed space.now rule.now }
{
    match rule {
        Rule::At(rule) => has_page(space, rule.page),
        Rule::Each(rule) => match rule.target {
            Target::Page(page) => has_page(space, page),
            Target::All => true,
        },
    }
}
