//! The machines of the processes and their resident pages.
ghost use Rattle.std.specs.Prelude.{◌≡◌, ◌<◌, ◌≤◌, ◌⊎◌, ◌++◌, ◌∷◌, [], Some, IfSome, OnErr, OnOk, is_err, length};
ghost use Rattle.std.specs.List.{remove};
ghost use Rattle.std.specs.VecDeque.{deque_capacity};
ghost use Rattle.vax_outside.specs.Faults.{CountsFailure};
ghost use Rattle.vax_window.specs.Windows.{first_block};
ghost use Rattle.vax_machine.specs.Machine.{has_failed};

use crate::turn::{Turn, Turned};
use std::collections::VecDeque;
use vax_machine::{Applied, Event, Machine};
use vax_outside::PageFile;
use vax_pager::PageFault;
use vax_space::PAGES;
use vax_window::Window;

/// A page of a process.
#[derive(Clone, Copy, PartialEq, Eq)]
pub struct Pair {
    /// The process, from 0.
    pub job: u8,
    pub page: u32,
}

/// The machines of the processes, and the resident pages of all of them in order of service: at most so many.
#[derive(Drop)]
pub struct Pool {
    pub(crate) machines: Vec<Machine>,
    pub(crate) residents: VecDeque<Pair>,
    pub(crate) most: u32,
}

/// The first block of a process.
fn first_block(job: u8) -> u32
    ensures { result ≡ first_block job }
{
    PAGES as u32 * u32::from(job)
}

/// Takes out the page at a place.
fn remove_at(residents: &mut VecDeque<Pair>, place: usize)
    requires { place < length residents.old.items }
    ensures items { residents.new.items ≡ remove residents.old.items place }
    ensures capacity { deque_capacity residents.new ≡ deque_capacity residents.old }
{
    residents.remove(place);
}

/// Adds a page behind the others, where there is room.
fn add(residents: &mut VecDeque<Pair>, pair: Pair)
    requires { length residents.old.items < deque_capacity residents.old }
    ensures items { residents.new.items ≡ residents.old.items ++ pair ∷ [] }
    ensures capacity { deque_capacity residents.new ≡ deque_capacity residents.old }
{
    residents.push_back(pair).unwrap();
}

impl Pool {
    ghost use Rattle.vax_jobs.specs.Pool.{AllKeep, HasApplied, IsPool, pooling_of};
    ghost use Rattle.vax_jobs.specs.Turning.{DropsNoPins, HasTurned, IsTurned, has_failed as has_not_turned};
    ghost use Rattle.vax_jobs.specs.Pooling.{IsPlace, TakesOut, came, first_free, found_at, is_pinned, wanted_at, with_room};

    /// An event of a process, on its part of the file.
    fn apply_to<F: PageFile>(&mut self, job: u8, event: Event, file: &mut F) -> Applied
        requires there { job < length self.old.machines.items }
        requires few { length self.old.machines.items ≤ 8 }
        ensures residents { self.new.residents ≡ self.old.residents }
        ensures most { self.new.most ≡ self.old.most }
        ensures applied { HasApplied job event result self.old.machines.items
            (F.contents file.old) self.new.machines.items (F.contents file.new) }
        ensures counts { CountsFailure (has_failed result) (F.faults file.old) (F.faults file.new) }
        ensures since { (start : F) → F.since start file.old → F.since start file.new }
    {
        let mut window = Window::new(file, first_block(job));
        let applied = self.machines[job as usize].apply(event, &mut window);
        window.close();
        applied
    }

    /// How many pages are resident.
    pub(crate) fn used(&self) -> u32
        requires { IsPool self.now }
        ensures count { result ≡ length self.now.residents.items }
        ensures most { result ≤ self.now.most }
    {
        self.residents.len() as u32
    }

    /// Whether a resident page is pinned.
    fn is_pinned(&self, pair: Pair) -> bool
        requires { pair.job < length self.now.machines.items }
        ensures { result ≡ is_pinned (pooling_of self.now).processes pair }
    {
        self.machines[pair.job as usize].is_pinned(pair.page)
    }

    /// The place of the resident page that was served longest ago and isn't pinned.
    fn first_free(&self) -> Option<usize>
        requires sound { IsPool self.now }
        ensures found { first_free (pooling_of self.now).processes self.now.residents.items
            ≡ found_at result self.now.residents.items }
        ensures within { IfSome result (λ place. place < length self.now.residents.items) }
    {
        for place in 0..self.residents.len() {
            let pair = self.residents[place];
            if !self.is_pinned(pair) {
                return Some(place);
            }
        }
        None
    }

    /// Where the pool is full, makes the page absent that was served longest ago and isn't pinned. After a failure everything is as it was.
    fn make_room<F: PageFile>(&mut self, file: &mut F) -> Result<(), PageFault>
        requires sound { IsPool self.old }
        ensures sound { IsPool self.new }
        ensures ok { OnOk result (pooling_of self.new ≡ with_room (pooling_of self.old)) }
        ensures room { OnOk result (length self.new.residents.items < self.new.most) }
        ensures err { OnErr result (pooling_of self.new ≡ pooling_of self.old) }
        ensures keeps { AllKeep self.old.machines.items (F.contents file.old)
            self.new.machines.items (F.contents file.new) }
        ensures counts { CountsFailure (is_err result) (F.faults file.old) (F.faults file.new) }
        ensures since { (start : F) → F.since start file.old → F.since start file.new }
    {
        if self.used() < self.most {
            return Ok(());
        }
        match self.first_free() {
            None => unreachable!(),
            Some(place) => self.take_out(place, file),
        }
    }

    /// Makes the resident page at a place absent. After a failure everything is as it was.
    fn take_out<F: PageFile>(&mut self, place: usize, file: &mut F) -> Result<(), PageFault>
        requires sound { IsPool self.old }
        requires there { place < length self.old.residents.items }
        ensures sound { IsPool self.new }
        ensures ok { OnOk result (TakesOut place (pooling_of self.old) (pooling_of self.new)) }
        ensures err { OnErr result (pooling_of self.new ≡ pooling_of self.old) }
        ensures keeps { AllKeep self.old.machines.items (F.contents file.old)
            self.new.machines.items (F.contents file.new) }
        ensures counts { CountsFailure (is_err result) (F.faults file.old) (F.faults file.new) }
        ensures since { (start : F) → F.since start file.old → F.since start file.new }
    {
        let pair = self.residents[place];
        match self.apply_to(pair.job, Event::Evict(pair.page), file) {
            Applied::Evicted => {
                remove_at(&mut self.residents, place);
                Ok(())
            }
            _ => Err(PageFault),
        }
    }

    /// The page that a process misses comes in. After a failure everything is as it was, but for the page that made room.
    pub(crate) fn bring<F: PageFile>(
        &mut self,
        job: u8,
        page: u32,
        file: &mut F,
    ) -> Result<(), PageFault>
        requires sound { IsPool self.old }
        requires there { wanted_at job (pooling_of self.old) ≡ Some page }
        ensures sound { IsPool self.new }
        ensures ok { OnOk result
            (pooling_of self.new ≡ came job page (with_room (pooling_of self.old))) }
        ensures err { OnErr result ((pooling_of self.new ≡ pooling_of self.old)
            ⊎ (pooling_of self.new ≡ with_room (pooling_of self.old))) }
        ensures keeps { AllKeep self.old.machines.items (F.contents file.old)
            self.new.machines.items (F.contents file.new) }
        ensures counts { CountsFailure (is_err result) (F.faults file.old) (F.faults file.new) }
        ensures since { (start : F) → F.since start file.old → F.since start file.new }
    {
        self.make_room(file)?;
        match self.apply_to(job, Event::Serve, file) {
            Applied::Served(_) => {
                add(&mut self.residents, Pair { job, page });
                Ok(())
            }
            _ => Err(PageFault),
        }
    }

    /// A process makes an attempt, and the page that it misses is served.
    pub(crate) fn go<F: PageFile>(&mut self, job: u8, file: &mut F) -> Turned
        requires sound { IsPool self.old }
        requires there { job < length self.old.machines.items }
        ensures sound { IsPool self.new }
        ensures turned { IsTurned (Turn.Go job) result (pooling_of self.old) (pooling_of self.new) }
        ensures goes { HasTurned (Turn.Go job) result (pooling_of self.old) self.old.machines.items
            (F.contents file.old) self.new.machines.items (F.contents file.new) }
        ensures counts { CountsFailure (has_not_turned result) (F.faults file.old)
            (F.faults file.new) }
        ensures unsettled { DropsNoPins (Turn.Go job) result self.old.machines.items
            (F.contents file.old) }
        ensures since { (start : F) → F.since start file.old → F.since start file.new }
    {
        match self.apply_to(job, Event::Attempt, file) {
            Applied::Stepped(sent) => Turned::Stepped(sent),
            Applied::Parted => Turned::Parted,
            Applied::Ended(ending) => Turned::Ended(ending),
            Applied::Absent(page) => match self.bring(job, page, file) {
                Ok(()) => Turned::Absent(page),
                Err(_) => Turned::Failed,
            },
            _ => unreachable!(),
        }
    }

    /// The place of a resident page of a process.
    fn place_of(&self, job: u8, page: u32) -> Option<usize>
        ensures { IsPlace job page self.now.residents.items result }
    {
        for place in 0..self.residents.len() {
            let pair = self.residents[place];
            if pair.job == job && pair.page == page {
                return Some(place);
            }
        }
        None
    }

    /// A page of a process is made absent.
    pub(crate) fn evict<F: PageFile>(&mut self, job: u8, page: u32, file: &mut F) -> Turned
        requires sound { IsPool self.old }
        requires there { job < length self.old.machines.items }
        ensures sound { IsPool self.new }
        ensures turned { IsTurned (Turn.Out job page) result (pooling_of self.old)
            (pooling_of self.new) }
        ensures goes { HasTurned (Turn.Out job page) result (pooling_of self.old)
            self.old.machines.items (F.contents file.old) self.new.machines.items
            (F.contents file.new) }
        ensures counts { CountsFailure (has_not_turned result) (F.faults file.old)
            (F.faults file.new) }
        ensures since { (start : F) → F.since start file.old → F.since start file.new }
    {
        let Some(place) = self.place_of(job, page) else {
            return Turned::Nothing;
        };
        match self.take_out(place, file) {
            Ok(()) => Turned::Moved,
            Err(_) => Turned::Failed,
        }
    }

    /// The page of a process that has been modified longest is written to its block.
    pub(crate) fn clean<F: PageFile>(&mut self, job: u8, file: &mut F) -> Turned
        requires sound { IsPool self.old }
        requires there { job < length self.old.machines.items }
        ensures sound { IsPool self.new }
        ensures turned { IsTurned (Turn.Clean job) result (pooling_of self.old)
            (pooling_of self.new) }
        ensures goes { HasTurned (Turn.Clean job) result (pooling_of self.old)
            self.old.machines.items (F.contents file.old) self.new.machines.items
            (F.contents file.new) }
        ensures counts { CountsFailure (has_not_turned result) (F.faults file.old)
            (F.faults file.new) }
        ensures since { (start : F) → F.since start file.old → F.since start file.new }
    {
        let Some(page) = self.machines[job as usize].next_flush() else {
            return Turned::Nothing;
        };
        match self.apply_to(job, Event::Flush(page), file) {
            Applied::Flushed => Turned::Moved,
            _ => Turned::Failed,
        }
    }
}
