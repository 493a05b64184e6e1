//! Runs of a machine.
ghost use Rattle.std.specs.Prelude.{◌≡◌, ◌≢◌, ℕ, ◌+◌, ◌-◌, ◌<◌, ◌≤◌, ◌^◌, None, Some, [], ◌∷◌, length, take, OnOk, Option, IfSome, is_some, true};
ghost use Rattle.vax_outside.specs.Blocks.{BlockFile};
ghost use Rattle.vax_outside.specs.declared.faults.Failures.{Failures};
ghost use Rattle.vax_outside.specs.Faults.{Rose};
ghost use Rattle.vax_machine.specs.Turn.{Finishes};
ghost use Rattle.vax_machine.specs.Writing.{OnlyWrote, held_in};

use crate::engine::Engine;
use crate::event::{Applied, Fault, Limits, RunEnd};
use crate::held::Held;
use vax_outside::{PageFile, Sink};
use vax_sched::{Schedule, Target};

/// Writes what a run has held back, and ends so, or by a write fault.
fn finish<K: Sink>(held: &Held, end: RunEnd, sink: &mut K) -> RunEnd
    ensures done { Finishes end result (held_in held.now) (K.contents sink.old)
        (K.contents sink.new) (Rose (K.faults sink.old) (K.faults sink.new)) }
    ensures only { OnlyWrote held.now.listed (K.contents sink.old) (K.contents sink.new) }
    ensures later { (K.faults sink.old).count ≤ (K.faults sink.new).count }
    ensures quiet { result ≢ RunEnd.WriteFault
        → (K.faults sink.new).count ≡ (K.faults sink.old).count }
{
    match held.write(sink) {
        Ok(()) => end,
        Err(_) => RunEnd::WriteFault,
    }
}

impl Engine {
    ghost use Rattle.std.specs.List.{filter, flat_map};
    ghost use Rattle.vax_space.specs.Areas.{area_of, pages_of};
    ghost use Rattle.vax_pager.specs.Listing.{is_listed};
    ghost use Rattle.vax_pager.specs.Meaning.{pages};
    ghost use Rattle.vax_sched.specs.Due.{due};
    ghost use Rattle.vax_machine.specs.Console.{IsBetween, MayGoOn, StopsBetween};
    ghost use Rattle.vax_machine.specs.Delivery.{Delivers};
    ghost use Rattle.vax_machine.specs.Events.{KeepsRun};
    ghost use Rattle.vax_machine.specs.GoingOn.{CountsEnd, GoesOnTo, HasReason};
    ghost use Rattle.vax_machine.specs.Machine.{IsSound, keeping};
    ghost use Rattle.vax_machine.specs.Paged.{Paged, all_named, evicted, named, stops};
    ghost use Rattle.vax_machine.specs.Run.{RunsTo, Tracks, system_of};
    ghost use Rattle.vax_machine.specs.Turn.{HasGone, IsStop, MakesAbsent, MakesAttempts, MakesTurns, ServesWanted, Still, underway_of, why_stopped};
    ghost use Rattle.vax_machine.specs.Writing.{Counts, Passed, StillWrites, listed_by};

    /// Lists a page, if one was made absent before the attempt that comes, and writes what is due.
    fn list<K: Sink>(
        &self,
        evicted: Option<u32>,
        held: &mut Held,
        sink: &mut K,
    ) -> Result<(), Fault>
        requires turns { self.now.turns < 2 ^ 64 - 1 }
        requires inside { (page : ℕ) → evicted ≡ Some page
            → is_some (area_of (pages self.now.pager).areas page) ≡ true }
        ensures passes { Passed result (held_in held.old)
            (listed_by held.old.listed (self.now.turns + 1) evicted) (held_in held.new)
            (K.contents sink.old) (K.contents sink.new) }
        ensures delivers { (since : ℕ) → since ≤ self.now.steps → OnOk result
            (Delivers since self.now.steps held.old held.new
            (K.contents sink.old) (K.contents sink.new)) }
        ensures writes { StillWrites held.old held.new (K.contents sink.old) (K.contents sink.new) }
        ensures counts { (file : Failures)
            → Counts result file file (K.faults sink.old) (K.faults sink.new) }
    {
        held.list(self.turns + 1, evicted, sink)?;
        held.write_due(false, self.steps, sink)
    }

    /// Makes a page absent, and lists it where it was resident.
    fn evict_one<F: PageFile, K: Sink>(
        &mut self,
        page: u32,
        held: &mut Held,
        file: &mut F,
        sink: &mut K,
    ) -> Result<(), Fault>
        requires sound { IsSound self.old }
        requires turns { self.old.turns < 2 ^ 64 - 1 }
        ensures sound { IsSound self.new }
        ensures done { MakesAbsent result (page ∷ [])
            (underway_of self.old (F.contents file.old) (K.contents sink.old) held.old)
            (underway_of self.new (F.contents file.new) (K.contents sink.new) held.new) }
        ensures still { Still self.old self.new }
        ensures follows { KeepsRun self.old (F.contents file.old) self.new (F.contents file.new) }
        ensures delivers { OnOk result (Delivers self.old.steps self.new.steps
            held.old held.new (K.contents sink.old) (K.contents sink.new)) }
        ensures writes { StillWrites held.old held.new (K.contents sink.old) (K.contents sink.new) }
        ensures counts { Counts result (F.faults file.old) (F.faults file.new) (K.faults sink.old)
            (K.faults sink.new) }
    {
        match self.evict(page, file) {
            Applied::Failed => Err(Fault::Page),
            Applied::Evicted => self.list(Some(page), held, sink),
            _ => Ok(()),
        }
    }

    /// Makes these pages absent, in order.
    fn evict_pages<F: PageFile, K: Sink>(
        &mut self,
        pages: &[u32],
        held: &mut Held,
        file: &mut F,
        sink: &mut K,
    ) -> Result<(), Fault>
        requires sound { IsSound self.old }
        requires turns { self.old.turns < 2 ^ 64 - 1 }
        ensures sound { IsSound self.new }
        ensures done { MakesAbsent result pages.now
            (underway_of self.old (F.contents file.old) (K.contents sink.old) held.old)
            (underway_of self.new (F.contents file.new) (K.contents sink.new) held.new) }
        ensures still { Still self.old self.new }
        ensures follows { KeepsRun self.old (F.contents file.old) self.new (F.contents file.new) }
        ensures delivers { OnOk result (Delivers self.old.steps self.new.steps
            held.old held.new (K.contents sink.old) (K.contents sink.new)) }
        ensures writes { StillWrites held.old held.new (K.contents sink.old) (K.contents sink.new) }
        ensures counts { Counts result (F.faults file.old) (F.faults file.new) (K.faults sink.old)
            (K.faults sink.new) }
    {
        for page in pages {
            self.evict_one(*page, held, file, sink)?;
        }
        Ok(())
    }

    /// Writes the resident pages in ascending order, and answers how many these are.
    fn residents(&self, found: &mut [u32]) -> usize
        requires room { length found.old ≡ 32768 }
        ensures few { result ≤ 32768 }
        ensures pages { take result found.new
            ≡ filter (λ page. is_listed page (pages self.now.pager).order)
            (flat_map pages_of (pages self.now.pager).areas) }
    {
        let count = self.pager.residents(found);
        found[..count].sort_unstable();
        count
    }

    /// Makes what a target names absent: a page, or all pages in ascending order. Of these it goes to those that are resident, since it changes nothing at
    /// others.
    fn evict_target<F: PageFile, K: Sink>(
        &mut self,
        target: Target,
        found: &mut [u32],
        held: &mut Held,
        file: &mut F,
        sink: &mut K,
    ) -> Result<(), Fault>
        requires sound { IsSound self.old }
        requires turns { self.old.turns < 2 ^ 64 - 1 }
        requires room { length found.old ≡ 32768 }
        ensures sound { IsSound self.new }
        ensures done { MakesAbsent result (named (pages self.old.pager).areas target)
            (underway_of self.old (F.contents file.old) (K.contents sink.old) held.old)
            (underway_of self.new (F.contents file.new) (K.contents sink.new) held.new) }
        ensures still { Still self.old self.new }
        ensures follows { KeepsRun self.old (F.contents file.old) self.new (F.contents file.new) }
        ensures delivers { OnOk result (Delivers self.old.steps self.new.steps
            held.old held.new (K.contents sink.old) (K.contents sink.new)) }
        ensures writes { StillWrites held.old held.new (K.contents sink.old) (K.contents sink.new) }
        ensures counts { Counts result (F.faults file.old) (F.faults file.new) (K.faults sink.old)
            (K.faults sink.new) }
    {
        match target {
            Target::Page(page) => self.evict_one(page, held, file, sink),
            Target::All => {
                let count = self.residents(found);
                self.evict_pages(&found[..count], held, file, sink)
            }
        }
    }

    /// Makes what is due at the turn that comes absent.
    fn evict_due<F: PageFile, K: Sink>(
        &mut self,
        schedule: &Schedule,
        found: &mut [u32],
        held: &mut Held,
        file: &mut F,
        sink: &mut K,
    ) -> Result<(), Fault>
        requires sound { IsSound self.old }
        requires turns { self.old.turns < 2 ^ 64 - 1 }
        requires room { length found.old ≡ 32768 }
        ensures sound { IsSound self.new }
        ensures done { MakesAbsent result
            (all_named (pages self.old.pager).areas (due schedule.now (self.old.turns + 1)))
            (underway_of self.old (F.contents file.old) (K.contents sink.old) held.old)
            (underway_of self.new (F.contents file.new) (K.contents sink.new) held.new) }
        ensures still { Still self.old self.new }
        ensures follows { KeepsRun self.old (F.contents file.old) self.new (F.contents file.new) }
        ensures delivers { OnOk result (Delivers self.old.steps self.new.steps
            held.old held.new (K.contents sink.old) (K.contents sink.new)) }
        ensures writes { StillWrites held.old held.new (K.contents sink.old) (K.contents sink.new) }
        ensures counts { Counts result (F.faults file.old) (F.faults file.new) (K.faults sink.old)
            (K.faults sink.new) }
    {
        for target in schedule.targets(self.turns + 1) {
            self.evict_target(target, found, held, file, sink)?;
        }
        Ok(())
    }

    /// Makes at most `most` attempts, at least one, up to the first that doesn't complete a step with no byte sent, and serves the page that
    /// the last one missed. The byte that was sent is held for Out, the page that made room is listed, and what is due is written.
    fn attempt_and_serve<F: PageFile, K: Sink>(
        &mut self,
        most: u64,
        held: &mut Held,
        file: &mut F,
        sink: &mut K,
    ) -> Result<(), Fault>
        requires sound { IsSound self.old }
        requires going { self.old.ended ≡ None }
        requires some { 1 ≤ most }
        requires steps { self.old.steps + most < 2 ^ 64 }
        requires turns { self.old.turns + most < 2 ^ 64 - 1 }
        ensures sound { IsSound self.new }
        ensures done { MakesAttempts result most
            (underway_of self.old (F.contents file.old) (K.contents sink.old) held.old)
            (underway_of self.new (F.contents file.new) (K.contents sink.new) held.new) }
        ensures gone { HasGone most self.old self.new }
        ensures goes_on { MayGoOn (self.old.steps + most) self.new }
        ensures follows { KeepsRun self.old (F.contents file.old) self.new (F.contents file.new) }
        ensures delivers { OnOk result (Delivers self.old.steps self.new.steps
            held.old held.new (K.contents sink.old) (K.contents sink.new)) }
        ensures writes { StillWrites held.old held.new (K.contents sink.old) (K.contents sink.new) }
        ensures counts { Counts result (F.faults file.old) (F.faults file.new) (K.faults sink.old)
            (K.faults sink.new) }
    {
        match self.attempts(most) {
            Applied::Stepped(sent) => held.send(sent, self.steps, sink),
            Applied::Absent(_) => self.serve_and_list(held, file, sink),
            _ => held.write_due(false, self.steps, sink),
        }
    }

    /// Serves the page that is wanted, and lists the page that made room for it.
    fn serve_and_list<F: PageFile, K: Sink>(
        &mut self,
        held: &mut Held,
        file: &mut F,
        sink: &mut K,
    ) -> Result<(), Fault>
        requires sound { IsSound self.old }
        requires wanted { is_some self.old.wanted ≡ true }
        requires turns { self.old.turns < 2 ^ 64 - 1 }
        ensures sound { IsSound self.new }
        ensures served { ServesWanted result
            (underway_of self.old (F.contents file.old) (K.contents sink.old) held.old)
            (underway_of self.new (F.contents file.new) (K.contents sink.new) held.new) }
        ensures follows { KeepsRun self.old (F.contents file.old) self.new (F.contents file.new) }
        ensures delivers { (since : ℕ) → since ≤ self.old.steps → OnOk result
            (Delivers since self.new.steps held.old held.new
            (K.contents sink.old) (K.contents sink.new)) }
        ensures writes { StillWrites held.old held.new (K.contents sink.old) (K.contents sink.new) }
        ensures counts { Counts result (F.faults file.old) (F.faults file.new) (K.faults sink.old)
            (K.faults sink.new) }
    {
        match self.serve(file) {
            Applied::Failed => Err(Fault::Page),
            Applied::Served(victim) => self.list(victim, held, sink),
            _ => Ok(()),
        }
    }

    /// How many attempts may follow at once: up to a limit, to the next turn but one at which something is due, or to where bytes are due.
    fn most_attempts(&self, limits: &Limits, schedule: &Schedule, held: &Held) -> u64
        requires steps { self.now.steps < limits.now.steps }
        requires turns { self.now.turns < limits.now.turns }
        requires few { limits.now.turns < 2 ^ 64 - 2 }
        ensures some { 1 ≤ result }
        ensures steps { self.now.steps + result ≤ limits.now.steps }
        ensures turns { self.now.turns + result ≤ limits.now.turns }
        ensures due { self.now.steps < held.now.due → self.now.steps + result ≤ held.now.due }
        ensures quiet { (k : ℕ) → k + 1 < result → due schedule.now (self.now.turns + 2 + k) ≡ [] }
    {
        let quiet = schedule.quiet(self.turns + 2);
        let room = (limits.steps - self.steps).min(limits.turns - self.turns);
        room.min(quiet + 1).min(held.wait(self.steps))
    }

    /// Makes several turns. What is due at the first of them is made absent, and nothing is due at the others.
    fn several_turns<F: PageFile, K: Sink>(
        &mut self,
        limits: &Limits,
        schedule: &Schedule,
        found: &mut [u32],
        held: &mut Held,
        file: &mut F,
        sink: &mut K,
    ) -> Result<(), Fault>
        requires sound { IsSound self.old }
        requires going { self.old.ended ≡ None }
        requires steps { self.old.steps < limits.now.steps }
        requires turns { self.old.turns < limits.now.turns }
        requires few_steps { limits.now.steps < 2 ^ 64 }
        requires few_turns { limits.now.turns < 2 ^ 64 - 2 }
        requires room { length found.old ≡ 32768 }
        ensures sound { IsSound self.new }
        ensures done { MakesTurns result limits.now schedule.now
            (underway_of self.old (F.contents file.old) (K.contents sink.old) held.old)
            (underway_of self.new (F.contents file.new) (K.contents sink.new) held.new) }
        ensures steps { OnOk result (self.new.steps ≤ limits.now.steps) }
        ensures turns { self.new.turns ≤ limits.now.turns }
        ensures later { self.old.turns ≤ self.new.turns }
        ensures some { OnOk result (self.old.turns < self.new.turns) }
        ensures areas { OnOk result ((pages self.new.pager).areas ≡ (pages self.old.pager).areas) }
        ensures goes_on { OnOk result (MayGoOn limits.now.steps self.new) }
        ensures follows { KeepsRun self.old (F.contents file.old) self.new (F.contents file.new) }
        ensures delivers { OnOk result (Delivers self.old.steps self.new.steps
            held.old held.new (K.contents sink.old) (K.contents sink.new)) }
        ensures writes { StillWrites held.old held.new (K.contents sink.old) (K.contents sink.new) }
        ensures counts { Counts result (F.faults file.old) (F.faults file.new) (K.faults sink.old)
            (K.faults sink.new) }
    {
        self.evict_due(schedule, found, held, file, sink)?;
        let most = self.most_attempts(limits, schedule, held);
        self.attempt_and_serve(most, held, file, sink)
    }

    /// Why a run stops here, if it does.
    fn stopped(&self, limits: &Limits) -> Option<RunEnd>
        ensures stops { (file : Option BlockFile) → (p : Paged) → Tracks self.now file p
            → stops limits.now.steps limits.now.turns p ≡ why_stopped result }
        ensures none { result ≡ None → (self.now.ended ≡ None) × (self.now.steps < limits.now.steps)
            × (self.now.turns < limits.now.turns) }
        ensures reason { IfSome result (HasReason limits.now self.now) }
        ensures whole { IfSome result IsStop }
        ensures between { MayGoOn limits.now.steps self.now
            → IfSome result (λ end. StopsBetween end → IsBetween self.now) }
    {
        if let Some(ending) = self.ended {
            return Some(RunEnd::Ended(ending));
        }
        if self.steps >= limits.steps {
            return Some(RunEnd::Steps);
        }
        if self.turns >= limits.turns {
            return Some(RunEnd::Turns);
        }
        None
    }

    /// Goes on with a run up to an ending or a limit. The bytes that the program sends to its console go to Out in order, and where evictions are
    /// listed a line for each to Record; what is still to be written is held back. `found` has room for the resident pages.
    ///
    /// After a page fault the machine stands where the turns before it left it; after a write fault, a prefix of what these turns write was
    /// written.
    pub(crate) fn go_on<F: PageFile, K: Sink>(
        &mut self,
        limits: &Limits,
        schedule: &Schedule,
        found: &mut [u32],
        held: &mut Held,
        file: &mut F,
        sink: &mut K,
    ) -> RunEnd
        requires sound { IsSound self.old }
        requires few_steps { limits.now.steps < 2 ^ 64 }
        requires few_turns { limits.now.turns < 2 ^ 64 - 2 }
        requires room { length found.old ≡ 32768 }
        ensures sound { IsSound self.new }
        ensures goes { GoesOnTo result limits.now schedule.now
            (underway_of self.old (F.contents file.old) (K.contents sink.old) held.old)
            (underway_of self.new (F.contents file.new) (K.contents sink.new) held.new) }
        ensures follows { KeepsRun self.old (F.contents file.old) self.new (F.contents file.new) }
        ensures between { StopsBetween result → IsBetween self.old → IsBetween self.new }
        ensures reaches { StopsBetween result → MayGoOn limits.now.steps self.old
            → IsBetween self.new }
        ensures reason { HasReason limits.now self.new result }
        ensures steps { StopsBetween result → self.old.steps ≤ limits.now.steps
            → self.new.steps ≤ limits.now.steps }
        ensures turns { self.old.turns ≤ self.new.turns }
        ensures few { self.old.turns ≤ limits.now.turns → self.new.turns ≤ limits.now.turns }
        ensures areas { StopsBetween result
            → (keeping self.new).areas ≡ (keeping self.old).areas }
        ensures delivers { IsStop result → (Delivers self.old.steps self.new.steps
            held.old held.new (K.contents sink.old) (K.contents sink.new)) }
        ensures writes { StillWrites held.old held.new (K.contents sink.old) (K.contents sink.new) }
        ensures counts { CountsEnd result (F.faults file.old) (F.faults file.new)
            (K.faults sink.old) (K.faults sink.new) }
    {
        loop {
            if let Some(end) = self.stopped(limits) {
                return end;
            }
            match self.several_turns(limits, schedule, found, held, file, sink) {
                Ok(()) => {}
                Err(Fault::Page) => return RunEnd::PageFault,
                Err(Fault::Write) => return RunEnd::WriteFault,
            }
        }
    }

    /// Runs up to an ending or a limit. The bytes that the program sends to its console go to Out in order, and where evictions are listed a line
    /// for each to Record. `found` has room for the resident pages.
    ///
    /// After a page fault the machine stands where the turns before it left it; after a write fault, a prefix of what the whole run writes was
    /// written.
    pub(crate) fn run<F: PageFile, K: Sink>(
        &mut self,
        limits: &Limits,
        schedule: &Schedule,
        found: &mut [u32],
        file: &mut F,
        sink: &mut K,
    ) -> RunEnd
        requires sound { IsSound self.old }
        requires few_steps { limits.now.steps < 2 ^ 64 }
        requires few_turns { limits.now.turns < 2 ^ 64 - 2 }
        requires room { length found.old ≡ 32768 }
        ensures sound { IsSound self.new }
        ensures ends { RunsTo result limits.now schedule.now
            (system_of self.old (F.contents file.old) (K.contents sink.old))
            (system_of self.new (F.contents file.new) (K.contents sink.new)) }
        ensures follows { KeepsRun self.old (F.contents file.old) self.new (F.contents file.new) }
        ensures between { StopsBetween result → IsBetween self.old → IsBetween self.new }
        ensures reaches { StopsBetween result → MayGoOn limits.now.steps self.old
            → IsBetween self.new }
        ensures turns { self.old.turns ≤ self.new.turns }
        ensures few { self.old.turns ≤ limits.now.turns → self.new.turns ≤ limits.now.turns }
        ensures areas { StopsBetween result
            → (keeping self.new).areas ≡ (keeping self.old).areas }
        ensures later { (F.faults file.old).count ≤ (F.faults file.new).count }
        ensures sunk { (K.faults sink.old).count ≤ (K.faults sink.new).count }
        ensures fault { result ≡ RunEnd.PageFault → Rose (F.faults file.old) (F.faults file.new) }
        ensures cause { result ≡ RunEnd.WriteFault → Rose (K.faults sink.old) (K.faults sink.new) }
        ensures unfailed { result ≢ RunEnd.PageFault → result ≢ RunEnd.WriteFault
            → (F.faults file.new).count ≡ (F.faults file.old).count }
        ensures failed { (F.faults file.new).count ≢ (F.faults file.old).count
            → Rose (F.faults file.old) (F.faults file.new) }
        ensures written { result ≢ RunEnd.WriteFault
            → (K.faults sink.new).count ≡ (K.faults sink.old).count }
        ensures only { OnlyWrote limits.now.listed (K.contents sink.old) (K.contents sink.new) }
    {
        let mut held = Held::new(limits.listed);
        match self.go_on(limits, schedule, found, &mut held, file, sink) {
            RunEnd::WriteFault => RunEnd::WriteFault,
            end => finish(&held, end, sink),
        }
    }
}
