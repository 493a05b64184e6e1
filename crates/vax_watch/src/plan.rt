//! Where a traced run is to stop, and what it watches.
ghost use Rattle.std.specs.Prelude.{◌≡◌, ◌+◌, ◌≤◌, ◌++◌, IfOk, OnErr, OnOk, true, false, is_err, length, ◌==◌, Err};
ghost use Rattle.std.specs.List.{list_all, list_any};
ghost use Rattle.vax_outside.specs.Faults.{CountsFailure};
ghost use Rattle.vax_watch.specs.Plans.{is_sized};

use crate::filling::fill;
use crate::lines::{Lines, push_watch};
use crate::watch::{Plan, Seen, Watch};
use std::alloc::{AllocError, AllocFailed, Global};
use thiserror::Error;
use vax_machine::Machine;
use vax_outside::PageFile;
use vax_pager::PageFault;

/// The most addresses, and the most watches.
const MOST: usize = 16;

/// The most bytes of a watch.
const MOST_BYTES: u32 = 4_096;

/// Why there is no plan.
#[derive(Clone, Copy, PartialEq, Eq, Debug, Error)]
pub enum PlanError {
    /// There are more than 16 addresses, or more than 16 watches.
    #[error("more than 16 addresses or watches")]
    Count,
    /// A watch has no byte, or more than 4,096.
    #[error("a watch has no byte, or more than 4096")]
    Size,
    /// Memory was refused.
    #[error("out of memory")]
    NoMemory,
}

impl From<AllocError> for PlanError {
    ghost use Rattle.std.specs.Prelude.{◌≡◌};
    ghost use Rattle.vax_watch.specs.declared.plan.PlanError.TheVariants as error;

    ghost from_gives = { λ _ e. e ≡ error.NoMemory };

    fn from(_error: AllocError) -> PlanError {
        PlanError::NoMemory
    }
}

impl<T: Drop> From<AllocFailed<T>> for PlanError {
    ghost use Rattle.std.specs.Prelude.{◌≡◌};
    ghost use Rattle.vax_watch.specs.declared.plan.PlanError.TheVariants as error;

    ghost from_gives = { λ _ e. e ≡ error.NoMemory };

    fn from(_error: AllocFailed<T>) -> PlanError {
        PlanError::NoMemory
    }
}

/// Whether a watch has 1 to 4,096 bytes.
fn is_sized(watch: &Watch) -> bool
    ensures { result ≡ is_sized watch.now }
{
    1 <= watch.count && watch.count <= MOST_BYTES
}

/// Whether each watch has 1 to 4,096 bytes.
fn are_sized(watches: &[Watch]) -> bool
    ensures { result ≡ list_all is_sized watches.now }
{
    watches.iter().all(is_sized)
}

impl Seen {
    ghost use Rattle.vax_machine.specs.Meaning.{engine};
    ghost use Rattle.vax_watch.specs.Listing.{watch_line};
    ghost use Rattle.vax_watch.specs.Plans.{IsLookedAt, LooksAgain};

    /// A watch whose bytes weren't seen yet.
    fn new(alloc: Global, watch: Watch) -> Result<Seen, AllocError>
        requires { watch.count ≤ 4096 }
        ensures { IfOk result (λ s. s.watch ≡ watch) }
    {
        let earlier = vec![in alloc; None; watch.count as usize]?;
        let latest = vec![in alloc; None; watch.count as usize]?;
        Ok(Seen {
            watch,
            earlier,
            latest,
        })
    }

    /// Looks at the bytes. Those that were seen last are then those of the time before.
    fn look<F: PageFile>(&mut self, machine: &mut Machine, file: &mut F) -> Result<(), PageFault>
        ensures again { OnOk result
            (LooksAgain (engine machine.old) (F.contents file.old) self.old self.new) }
        ensures looked { IsLookedAt (engine machine.old) (F.contents file.old)
            (engine machine.new) (F.contents file.new) }
        ensures counts { CountsFailure (is_err result) (F.faults file.old) (F.faults file.new) }
    {
        self.earlier.copy_from_slice(&self.latest);
        fill(machine, self.watch.address, &mut self.latest, file)
    }

    /// Appends the line of the watch, where its bytes differ.
    #[tactic(auto, unfolding(crate::specs::Listing::watch_line))]
    fn push_change(&self, lines: &mut Lines)
        requires { length lines.old.items + 36 ≤ 4096 }
        ensures exact { lines.new.items ≡ lines.old.items
            ++ watch_line self.now.watch self.now.earlier.items self.now.latest.items }
        ensures short { length lines.new.items ≤ length lines.old.items + 36 }
    {
        if self.earlier != self.latest {
            push_watch(lines, self.watch);
        }
    }
}

impl Plan {
    ghost use Rattle.vax_machine.specs.Meaning.{engine};
    ghost use Rattle.vax_watch.specs.Plans.{AreFew, AreLookedAt, AreMany, IsLookedAt, asked_of, breaks_of, changes_in, watches_of};
    ghost use Rattle.vax_watch.specs.declared.plan.PlanError.TheVariants as error;

    /// A plan: the addresses, and the watches of 1 to 4,096 bytes, at most 16 of each, with no texts. Of several causes the first of `PlanError` is told.
    pub fn new(alloc: Global, breaks: Vec<u32>, watches: &[Watch]) -> Result<Plan, PlanError>
        ensures breaks { IfOk result (λ p. breaks_of p ≡ breaks.items) }
        ensures watches { IfOk result (λ p. watches_of p ≡ watches.now) }
        ensures texts { IfOk result (λ p. p.texts ≡ false) }
        ensures few { OnOk result (AreFew breaks.items watches.now) }
        ensures sized { OnOk result (list_all is_sized watches.now ≡ true) }
        ensures count { result ≡ Err error.Count → AreMany breaks.items watches.now }
        ensures size { result ≡ Err error.Size → list_all is_sized watches.now ≡ false }
    {
        if breaks.len() > MOST || watches.len() > MOST {
            return Err(PlanError::Count);
        }
        if !are_sized(watches) {
            return Err(PlanError::Size);
        }
        let mut seen = Vec::with_capacity(alloc, watches.len())?;
        for watch in watches {
            seen.push(Seen::new(alloc, *watch)?)?;
        }
        Ok(Plan {
            breaks,
            seen,
            texts: false,
        })
    }

    /// The same plan, of a run that lists the text of each instruction, or that doesn't.
    pub fn with_texts(self, texts: bool) -> Plan
        ensures breaks { breaks_of result ≡ breaks_of self }
        ensures watches { watches_of result ≡ watches_of self }
        ensures texts { result.texts ≡ texts }
    {
        Plan {
            breaks: self.breaks,
            seen: self.seen,
            texts,
        }
    }

    /// Whether this is one of the addresses.
    pub(crate) fn is_break(&self, address: u32) -> bool
        ensures { result ≡ list_any (λ a. a == address) (breaks_of self.now) }
    {
        self.breaks.contains(&address)
    }

    /// Looks at all watched bytes.
    pub(crate) fn look<F: PageFile>(
        &mut self,
        machine: &mut Machine,
        file: &mut F,
    ) -> Result<(), PageFault>
        ensures asked { asked_of self.new ≡ asked_of self.old }
        ensures seen { OnOk result (AreLookedAt (engine machine.old) (F.contents file.old)
            self.old.seen.items self.new.seen.items) }
        ensures watched { OnErr result (1 ≤ length self.old.seen.items) }
        ensures looked { IsLookedAt (engine machine.old) (F.contents file.old)
            (engine machine.new) (F.contents file.new) }
        ensures counts { CountsFailure (is_err result) (F.faults file.old) (F.faults file.new) }
    {
        for seen in self.seen.iter_mut() {
            seen.look(machine, file)?;
        }
        Ok(())
    }

    /// Appends the lines of the watches whose bytes differ.
    pub(crate) fn push_changes(&self, lines: &mut Lines)
        requires { length lines.old.items + 576 ≤ 4096 }
        ensures { lines.new.items ≡ lines.old.items ++ changes_in self.now.seen.items }
    {
        for seen in &self.seen {
            seen.push_change(lines);
        }
    }
}
