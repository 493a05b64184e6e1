//! A processor over a pager, with what a run counts.
ghost use Rattle.std.specs.Prelude.{◌≡◌, ℕ, ◌+◌, ◌-◌, ◌<◌, ◌≤◌, ◌^◌, Option, None, Some, is_some, true};
ghost use Rattle.vax_outside.specs.Blocks.{BlockFile};
ghost use Rattle.vax_outside.specs.Faults.{CountsFailure, raised};
ghost use Rattle.vax_pager.specs.Meaning.{pages};
ghost use Rattle.vax_machine.specs.Conclusion.{eased_pages, settled_after, wanted_behind};

use crate::at_once::steps_at_once;
use crate::event::{Applied, Event};
use vax_cpu::{Attempt, Cpu};
use vax_flat::Ending;
use vax_outside::PageFile;
use vax_pager::Pager;

/// The most pages that may be pinned.
const MOST_PINS: u32 = 40;

/// A processor, its memory in pages, the page that the last attempt missed until it is served, how the run ended if it did, and how many
/// steps were completed and attempts made.
#[derive(Drop)]
pub struct Engine {
    pub pager: Pager,
    pub cpu: Cpu,
    pub wanted: Option<u32>,
    pub ended: Option<Ending>,
    pub steps: u64,
    pub turns: u64,
}

/// One more, or the last value.
#[inline]
fn raised(count: u64) -> u64
    ensures { result ≡ raised count }
{
    count.saturating_add(1)
}

/// Unpins all pages where as many are pinned as may be.
fn ease(pager: &mut Pager)
    ensures { pages pager.new ≡ eased_pages (pages pager.old) }
{
    if pager.pins() == MOST_PINS {
        pager.settle();
    }
}

/// Unpins all pages where steps were completed.
fn settle_after(pager: &mut Pager, steps: u64)
    ensures { pages pager.new ≡ settled_after steps (pages pager.old) }
{
    if steps > 0 {
        pager.settle();
    }
}

/// No page is wanted where steps were completed.
fn wanted_after(wanted: Option<u32>, steps: u64) -> Option<u32>
    ensures { result ≡ wanted_behind steps wanted }
{
    if steps > 0 { None } else { wanted }
}

impl Engine {
    ghost use Rattle.vax_space.specs.Areas.{area_of};
    ghost use Rattle.vax_cpu.specs.Attempt.{StopsInside};
    ghost use Rattle.vax_pager.specs.Paging.{view_of};
    ghost use Rattle.vax_machine.specs.Conclusion.{Concludes};
    ghost use Rattle.vax_machine.specs.Batch.{HasAdvanced, HasTriedSeveral};
    ghost use Rattle.vax_machine.specs.Console.{MayGoOn};
    ghost use Rattle.vax_machine.specs.Machine.{Applies, HasSpent, IsSound, Moves, has_failed, keeping};
    ghost use Rattle.vax_machine.specs.Events.{KeepsPins};
    ghost use Rattle.vax_machine.specs.declared.event.Event.TheVariants as event;

    /// Makes one attempt. It calls no page file.
    pub(crate) fn attempt(&mut self) -> Applied
        requires sound { IsSound self.old }
        ensures sound { IsSound self.new }
        ensures applies { (file : Option BlockFile)
            → Applies event.Attempt self.old file result self.new file }
    {
        if let Some(ending) = self.ended {
            return Applied::Ended(ending);
        }
        let last = self.cpu.attempt(&mut self.pager);
        self.conclude(last)
    }

    /// Makes at most `most` attempts, at least one, up to the first that doesn't complete a step with no byte sent, and answers what that
    /// one came to. The run hasn't ended. It calls no page file.
    pub(crate) fn attempts(&mut self, most: u64) -> Applied
        requires sound { IsSound self.old }
        requires going { self.old.ended ≡ None }
        requires some { 1 ≤ most }
        requires steps { self.old.steps + most < 2 ^ 64 }
        requires turns { self.old.turns + most < 2 ^ 64 }
        ensures sound { IsSound self.new }
        ensures tried { HasTriedSeveral most self.old result self.new }
        ensures goes_on { MayGoOn (self.old.steps + most) self.new }
    {
        let batch = self.cpu.attempts(&mut self.pager, most);
        settle_after(&mut self.pager, batch.steps);
        self.steps += batch.steps;
        self.turns += batch.steps;
        self.conclude(batch.last)
    }

    /// Makes at most `most` steps at once, with no byte sent, and says how many. The run hasn't ended. It calls no page file.
    pub(crate) fn advance(&mut self, most: u64) -> u64
        requires sound { IsSound self.old }
        requires going { self.old.ended ≡ None }
        requires steps { self.old.steps + most < 2 ^ 64 }
        requires turns { self.old.turns + most < 2 ^ 64 }
        ensures sound { IsSound self.new }
        ensures few { result ≤ most }
        ensures advanced { HasAdvanced result self.old self.new }
    {
        let steps = steps_at_once(&mut self.cpu, &mut self.pager, most);
        settle_after(&mut self.pager, steps);
        self.wanted = wanted_after(self.wanted, steps);
        self.steps += steps;
        self.turns += steps;
        steps
    }

    /// Counts an attempt that came to this, and drops the pins where it completed a step or a part.
    fn conclude(&mut self, last: Attempt) -> Applied
        requires sound { IsSound self.old }
        requires missing { StopsInside last (view_of (pages self.old.pager)) }
        ensures sound { IsSound self.new }
        ensures concludes { Concludes last self.old result self.new }
    {
        self.turns = raised(self.turns);
        self.wanted = None;
        match last {
            Attempt::Step(sent) => {
                self.pager.settle();
                self.steps = raised(self.steps);
                Applied::Stepped(sent)
            }
            Attempt::Part => {
                self.pager.settle();
                Applied::Parted
            }
            Attempt::Absent(page) => {
                ease(&mut self.pager);
                self.wanted = Some(page);
                Applied::Absent(page)
            }
            Attempt::Ended(ending) => {
                self.pager.settle();
                self.steps = raised(self.steps);
                self.ended = Some(ending);
                Applied::Ended(ending)
            }
        }
    }

    /// Serves the page that is wanted.
    pub(crate) fn serve<F: PageFile>(&mut self, file: &mut F) -> Applied
        requires sound { IsSound self.old }
        ensures sound { IsSound self.new }
        ensures applies { Applies event.Serve self.old (F.contents file.old) result self.new
            (F.contents file.new) }
        ensures moves { Moves event.Serve self.old (F.contents file.old) result self.new
            (F.contents file.new) }
        ensures inside { (page : ℕ) → result ≡ Applied.Served (Some page)
            → is_some (area_of (pages self.new.pager).areas page) ≡ true }
        ensures counts { CountsFailure (has_failed result) (F.faults file.old) (F.faults file.new) }
        ensures since { (start : F) → F.since start file.old → F.since start file.new }
    {
        match self.wanted {
            None => Applied::Nothing,
            Some(page) => {
                match self.pager.serve(page, file) {
                    Ok(victim) => {
                        self.wanted = None;
                        Applied::Served(victim)
                    }
                    Err(_) => Applied::Failed,
                }
            }
        }
    }

    /// Makes a page absent.
    pub(crate) fn evict<F: PageFile>(&mut self, page: u32, file: &mut F) -> Applied
        requires sound { IsSound self.old }
        ensures sound { IsSound self.new }
        ensures applies { Applies (event.Evict page) self.old (F.contents file.old) result self.new
            (F.contents file.new) }
        ensures moves { Moves (event.Evict page) self.old (F.contents file.old) result self.new
            (F.contents file.new) }
        ensures inside { result ≡ Applied.Evicted
            → is_some (area_of (pages self.new.pager).areas page) ≡ true }
        ensures counts { CountsFailure (has_failed result) (F.faults file.old) (F.faults file.new) }
        ensures since { (start : F) → F.since start file.old → F.since start file.new }
    {
        if !self.pager.has(page) {
            return Applied::Nothing;
        }
        match self.pager.evict(page, file) {
            Ok(resident) => {
                if resident {
                    Applied::Evicted
                } else {
                    Applied::Nothing
                }
            }
            Err(_) => Applied::Failed,
        }
    }

    /// Writes a modified page to its block.
    pub(crate) fn flush<F: PageFile>(&mut self, page: u32, file: &mut F) -> Applied
        requires sound { IsSound self.old }
        ensures sound { IsSound self.new }
        ensures applies { Applies (event.Flush page) self.old (F.contents file.old) result self.new
            (F.contents file.new) }
        ensures moves { Moves (event.Flush page) self.old (F.contents file.old) result self.new
            (F.contents file.new) }
        ensures counts { CountsFailure (has_failed result) (F.faults file.old) (F.faults file.new) }
        ensures since { (start : F) → F.since start file.old → F.since start file.new }
    {
        if !self.pager.has(page) {
            return Applied::Nothing;
        }
        match self.pager.flush(page, file) {
            Ok(written) => {
                if written {
                    Applied::Flushed
                } else {
                    Applied::Nothing
                }
            }
            Err(_) => Applied::Failed,
        }
    }

    /// Does what an event says.
    pub(crate) fn apply<F: PageFile>(&mut self, event: Event, file: &mut F) -> Applied
        requires sound { IsSound self.old }
        ensures sound { IsSound self.new }
        ensures applies { Applies event self.old (F.contents file.old) result self.new
            (F.contents file.new) }
        ensures moves { Moves event self.old (F.contents file.old) result self.new
            (F.contents file.new) }
        ensures unsettled { KeepsPins self.old (F.contents file.old) result self.new }
        ensures spends { HasSpent result (keeping self.old) (keeping self.new) }
        ensures counts { CountsFailure (has_failed result) (F.faults file.old) (F.faults file.new) }
        ensures since { (start : F) → F.since start file.old → F.since start file.new }
    {
        match event {
            Event::Attempt => self.attempt(),
            Event::Serve => self.serve(file),
            Event::Evict(page) => self.evict(page, file),
            Event::Flush(page) => self.flush(page, file),
        }
    }
}
