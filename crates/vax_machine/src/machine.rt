//! The machine as callers have it.
ghost use Rattle.std.specs.Prelude.{is_err, ◌≡◌, ◌≢◌, ◌+◌, ◌-◌, ◌≤◌, ◌<◌, ◌^◌, ℕ, List, Option, Some, None, IfOk, IfSome, OnErr, OnOk, is_some, false, length};
ghost use Rattle.std.specs.Option.{option_copied};
ghost use Rattle.vax_outside.specs.Blocks.{BlockFile};
ghost use Rattle.vax_outside.specs.Faults.{CountsFailure, Rose};
ghost use Rattle.vax_machine.specs.Machine.{IsSound};

use crate::engine::Engine;
use crate::event::{Applied, Event, Limits, RunEnd};
use crate::held::Held;
use std::alloc::Global;
use vax_cpu::{Cpu, Open};
use vax_flat::Ending;
use vax_outside::{PageFile, Sink};
use vax_pager::{Counts, PageFault, Pager};
use vax_sched::Schedule;
use vax_space::{Access, NoMemory, Space};
use vax_undo::Term;
use vax_word::Core;

/// The most frames that a machine may have.
const MOST_FRAMES: usize = 32_768;

/// A machine: a processor over a pager. With a page file it stands for a place of the flat machine: the start of one of its steps, or between
/// two parts of one. Only `new` and `again` take memory.
#[derive(Drop)]
pub struct Machine {
    pub(crate) engine: Engine,
    /// Room for the numbers of the resident pages, which a run takes where it makes all pages absent.
    pub(crate) found: Vec<u32>,
    ghost sound: { IsSound engine },
    ghost room: { length found.items ≡ 32768 },
}

impl Machine {
    ghost use Rattle.vax_space.specs.Areas.{area_of};
    ghost use Rattle.vax_space.specs.Reference.{page_of, violation};
    ghost use Rattle.vax_flat.specs.Outcome.{is_allowed};
    ghost use Rattle.vax_flat.specs.Parts.{At, GoesBy, Place};
    ghost use Rattle.vax_flat.specs.Start.{start_memory};
    ghost use Rattle.vax_flat.specs.Step.{Flat};
    ghost use Rattle.vax_pager.specs.Calls.{IsByte};
    ghost use Rattle.vax_pager.specs.Listing.{first, is_listed};
    ghost use Rattle.vax_pager.specs.Poking.{OnlyRead, ReadsAtMost, WritesBlocks, pages_of_bytes};
    ghost use Rattle.vax_machine.specs.Batch.{HasAdvanced};
    ghost use Rattle.vax_machine.specs.Console.{AreShown, BringsPages, Deposits, DepositsCore, DepositsRegister, IsBetween, IsThereIn, MayGoOn, ShowsMemory, ShowsPage, StopsBetween, cpu_with_core, cpu_with_register, let_go, pages_in};
    ghost use Rattle.vax_machine.specs.Machine.{Applies, HasSpent, KeepsPlace, Means, Moves, has_failed, keeping, modified_of, residence};
    ghost use Rattle.vax_machine.specs.Marking.{Marks};
    ghost use Rattle.vax_machine.specs.Delivery.{Delivers};
    ghost use Rattle.vax_machine.specs.Depositing.{DepositsIn, filed};
    ghost use Rattle.vax_machine.specs.Events.{FollowsFrom, FollowsRun, KeepsPins, KeepsRun};
    ghost use Rattle.vax_machine.specs.GoingOn.{CountsEnd, GoesOnTo, HasReason};
    ghost use Rattle.vax_machine.specs.Meaning.{engine, flat_start, left_at, memory_of, resumed_at, units_of};
    ghost use Rattle.vax_machine.specs.Paged.{begun_at, fresh};
    ghost use Rattle.vax_machine.specs.Run.{RunsTo, begun, system_of};
    ghost use Rattle.vax_machine.specs.Turn.{IsStop, underway_of};
    ghost use Rattle.vax_machine.specs.Writing.{OnlyWrote, StillWrites};

    /// A machine at the start: these registers, this input of at most 4,194,304 bytes, and a space of which no page is resident, with so many
    /// frames, 64 to 32,768. With any page file it stands for the flat machine at the start.
    pub fn new(
        alloc: Global,
        space: Space,
        core: Core,
        input: Vec<u8>,
        frames: u32,
    ) -> Result<Machine, NoMemory>
        requires some { 64 ≤ frames }
        requires few { frames ≤ 32768 }
        requires short { length input.items ≤ 4194304 }
        ensures start { IfOk result (λ m. (file : BlockFile)
            → Means (engine m) (Some file) (At (flat_start core space input.items))) }
        ensures begun { IfOk result (λ m. begun (engine m) (At (flat_start core space input.items))
            ≡ fresh frames (flat_start core space input.items)) }
        ensures follows { IfOk result (λ m. (file : BlockFile)
            → FollowsRun (engine m) (Some file) (flat_start core space input.items)) }
        ensures kept { IfOk result (λ m. (keeping (engine m)).areas ≡ space) }
        ensures between { IfOk result (λ m. IsBetween (engine m)) }
    {
        Machine::again(alloc, space, core, Term::new(input), None, 0, frames)
    }

    /// A machine that goes on at a place: these registers, this console with no byte that waits to be handed out, this string instruction that is
    /// open, if one is, and so many steps counted; the memory is that of a space, of which no page is resident, with so many frames, 64 to 32,768.
    /// With any page file, and whatever was sent before, it stands for the flat machine at this place, and so for each run that leads to it.
    pub fn again(
        alloc: Global,
        space: Space,
        core: Core,
        term: Term,
        latch: Option<Open>,
        steps: u64,
        frames: u32,
    ) -> Result<Machine, NoMemory>
        requires some { 64 ≤ frames }
        requires few { frames ≤ 32768 }
        requires unsent { term.out ≡ None }
        ensures stands { IfOk result (λ m. (file : BlockFile) → (output : List ℕ) →
            Means (engine m) (Some file)
            (resumed_at (left_at core (start_memory space) term output) latch)) }
        ensures begun { IfOk result (λ m. (place : Place) →
            begun (engine m) place ≡ begun_at frames steps place) }
        ensures follows { IfOk result (λ m. (file : BlockFile) → (output : List ℕ) → (start : Flat)
            → GoesBy start (resumed_at (left_at core (start_memory space) term output) latch)
            → FollowsFrom steps (engine m) (Some file) start) }
        ensures kept { IfOk result (λ m. (keeping (engine m)).areas ≡ space) }
        ensures going { IfOk result (λ m. (engine m).ended ≡ None) }
        ensures between { IfOk result (λ m. latch ≡ None → IsBetween (engine m)) }
    {
        let pager = Pager::new(alloc, space, frames)?;
        let mut cpu = Cpu::new(core, term);
        cpu.latch = latch;
        let found = vec![in alloc; 0u32; MOST_FRAMES]?;
        Ok(Machine {
            engine: Engine {
                pager,
                cpu,
                wanted: None,
                ended: None,
                steps,
                turns: 0,
            },
            found,
        })
    }

    /// Does what an event says.
    ///
    /// `Attempt` makes one attempt; once the run has ended it answers the same ending and changes nothing. `Serve` brings in the page that the
    /// last attempt missed. A completed step or part unpins all pages, and so does an attempt that misses a page while 40 are pinned, which none does that
    /// touches each of these.
    ///
    /// `Evict` and `Flush` write a modified page to its block; `Serve` writes at most the page that makes room, and reads at most one block; an attempt
    /// calls no file. Attempts less pins less evictions of pinned pages rise by at most 41 where a part is completed, by 1 where a page is missed, and
    /// fall by 1 where it is served.
    pub fn apply<F: PageFile>(&mut self, event: Event, file: &mut F) -> Applied
        ensures applies { Applies event (engine self.old) (F.contents file.old) result
            (engine self.new) (F.contents file.new) }
        ensures moves { Moves event (engine self.old) (F.contents file.old) result (engine self.new)
            (F.contents file.new) }
        ensures unsettled { KeepsPins (engine self.old) (F.contents file.old) result
            (engine self.new) }
        ensures spends { HasSpent result (keeping (engine self.old)) (keeping (engine self.new)) }
        ensures counts { CountsFailure (has_failed result) (F.faults file.old) (F.faults file.new) }
        ensures since { (start : F) → F.since start file.old → F.since start file.new }
    {
        self.engine.apply(event, file)
    }

    /// Makes at most `most` attempts, each of which completes a step with no byte sent, and says how many: where it makes fewer, the next is left to an event
    /// `Attempt`. The run hasn't ended. It calls no page file.
    ///
    /// It does what as many events do, and spends less on each.
    pub fn advance(&mut self, most: u64) -> u64
        requires going { (engine self.old).ended ≡ None }
        requires steps { (engine self.old).steps + most < 2 ^ 64 }
        requires turns { (engine self.old).turns + most < 2 ^ 64 }
        ensures few { result ≤ most }
        ensures advanced { HasAdvanced result (engine self.old) (engine self.new) }
    {
        self.engine.advance(most)
    }

    /// Runs up to an ending or a limit: at each turn what the schedule has due is made absent, an attempt is made, and the page that it misses
    /// is served. The bytes that the program sends to its console go to Out in order. Where evictions are listed, each page that was resident and
    /// is made absent, by the schedule or to make room, gets a line `at T PAGE` in Record, in order: T is the number of the attempt that comes next,
    /// and PAGE the address of the page.
    ///
    /// Each page that is made absent is written to its block exactly where an attempt has written to it since it came in.
    pub fn run<F: PageFile, K: Sink>(
        &mut self,
        limits: &Limits,
        schedule: &Schedule,
        file: &mut F,
        sink: &mut K,
    ) -> RunEnd
        requires few_steps { limits.now.steps < 2 ^ 64 }
        requires few_turns { limits.now.turns < 2 ^ 64 - 2 }
        ensures ends { RunsTo result limits.now schedule.now
            (system_of (engine self.old) (F.contents file.old) (K.contents sink.old))
            (system_of (engine self.new) (F.contents file.new) (K.contents sink.new)) }
        ensures follows { KeepsRun (engine self.old) (F.contents file.old) (engine self.new)
            (F.contents file.new) }
        ensures between { StopsBetween result → IsBetween (engine self.old)
            → IsBetween (engine self.new) }
        ensures reaches { StopsBetween result → MayGoOn limits.now.steps (engine self.old)
            → IsBetween (engine self.new) }
        ensures turns { (engine self.old).turns ≤ (engine self.new).turns }
        ensures few { (engine self.old).turns ≤ limits.now.turns
            → (engine self.new).turns ≤ limits.now.turns }
        ensures areas { StopsBetween result
            → (keeping (engine self.new)).areas ≡ (keeping (engine self.old)).areas }
        ensures later { (F.faults file.old).count ≤ (F.faults file.new).count }
        ensures sunk { (K.faults sink.old).count ≤ (K.faults sink.new).count }
        ensures fault { result ≡ RunEnd.PageFault → Rose (F.faults file.old) (F.faults file.new) }
        ensures cause { result ≡ RunEnd.WriteFault → Rose (K.faults sink.old) (K.faults sink.new) }
        ensures unfailed { result ≢ RunEnd.PageFault → result ≢ RunEnd.WriteFault
            → (F.faults file.new).count ≡ (F.faults file.old).count }
        ensures failed { (F.faults file.new).count ≢ (F.faults file.old).count
            → Rose (F.faults file.old) (F.faults file.new) }
        ensures written { result ≢ RunEnd.WriteFault
            → (K.faults sink.new).count ≡ (K.faults sink.old).count }
        ensures only { OnlyWrote limits.now.listed (K.contents sink.old) (K.contents sink.new) }
    {
        self.engine
            .run(limits, schedule, &mut self.found, file, sink)
    }

    /// Goes on with a run up to an ending or a limit, as `run` does, but for what it still has to write: the caller lends what is held back, and
    /// writes it at the end. So runs that go on where the one before stopped make the turns of one run.
    pub fn go_on<F: PageFile, K: Sink>(
        &mut self,
        limits: &Limits,
        schedule: &Schedule,
        held: &mut Held,
        file: &mut F,
        sink: &mut K,
    ) -> RunEnd
        requires few_steps { limits.now.steps < 2 ^ 64 }
        requires few_turns { limits.now.turns < 2 ^ 64 - 2 }
        ensures goes { GoesOnTo result limits.now schedule.now
            (underway_of (engine self.old) (F.contents file.old) (K.contents sink.old) held.old)
            (underway_of (engine self.new) (F.contents file.new) (K.contents sink.new) held.new) }
        ensures follows { KeepsRun (engine self.old) (F.contents file.old) (engine self.new)
            (F.contents file.new) }
        ensures between { StopsBetween result → IsBetween (engine self.old)
            → IsBetween (engine self.new) }
        ensures reason { HasReason limits.now (engine self.new) result }
        ensures steps { StopsBetween result → (engine self.old).steps ≤ limits.now.steps
            → (engine self.new).steps ≤ limits.now.steps }
        ensures turns { (engine self.old).turns ≤ (engine self.new).turns }
        ensures few { (engine self.old).turns ≤ limits.now.turns
            → (engine self.new).turns ≤ limits.now.turns }
        ensures areas { StopsBetween result
            → (keeping (engine self.new)).areas ≡ (keeping (engine self.old)).areas }
        ensures delivers { IsStop result → (Delivers (engine self.old).steps (engine self.new).steps
            held.old held.new (K.contents sink.old) (K.contents sink.new)) }
        ensures writes { StillWrites held.old held.new (K.contents sink.old) (K.contents sink.new) }
        ensures counts { CountsEnd result (F.faults file.old) (F.faults file.new)
            (K.faults sink.old) (K.faults sink.new) }
    {
        self.engine
            .go_on(limits, schedule, &mut self.found, held, file, sink)
    }

    /// The registers.
    pub fn core(&self) -> &Core
        ensures { result.now ≡ (engine self.now).cpu.core }
    {
        &self.engine.cpu.core
    }

    /// The console: its input with how much of it is taken. Between two calls no byte waits to be handed out.
    pub fn term(&self) -> &Term
        ensures term { result.now ≡ (engine self.now).cpu.term }
        ensures unsent { result.now.out ≡ None }
    {
        &self.engine.cpu.term
    }

    /// The string instruction that is open, if one is.
    pub fn latch(&self) -> Option<&Open>
        ensures { option_copied result ≡ (engine self.now).cpu.latch }
    {
        self.engine.cpu.latch.as_ref()
    }

    /// The space: the areas of memory with what they held at the start.
    pub fn space(&self) -> &Space
        ensures { result.now ≡ (keeping (engine self.now)).areas }
    {
        self.engine.pager.space()
    }

    /// How many steps were completed.
    pub fn steps(&self) -> u64
        ensures { result ≡ (engine self.now).steps }
    {
        self.engine.steps
    }

    /// How many attempts were made.
    pub fn turns(&self) -> u64
        ensures { result ≡ (engine self.now).turns }
    {
        self.engine.turns
    }

    /// How the run ended, if it did.
    pub fn ended(&self) -> Option<Ending>
        ensures { result ≡ (engine self.now).ended }
    {
        self.engine.ended
    }

    /// How many units of the string instruction that is open are done, 0 where none is open.
    pub fn units(&self) -> u32
        ensures { result ≡ units_of (engine self.now).cpu.latch }
    {
        match self.engine.cpu.latch {
            Some(open) => open.units,
            None => 0,
        }
    }

    /// How many bytes of the input were taken.
    pub fn taken(&self) -> u32
        ensures { result ≡ (engine self.now).cpu.term.place }
    {
        self.engine.cpu.term.place
    }

    /// How many pages came in, were made absent and were written to their blocks.
    pub fn counts(&self) -> Counts
        ensures served { result.served ≡ (memory_of self.now).numbers.served }
        ensures evicted { result.evicted ≡ (memory_of self.now).numbers.evicted }
        ensures written { result.written ≡ (memory_of self.now).numbers.written }
    {
        self.engine.pager.counts()
    }

    /// How many evictions were of a pinned page.
    pub fn spoiled(&self) -> u64
        ensures { result ≡ (residence (engine self.now)).spoiled }
    {
        self.engine.pager.spoiled()
    }

    /// Whether the page is resident.
    pub fn is_resident(&self, page: u32) -> bool
        ensures { result ≡ is_listed page (memory_of self.now).order }
    {
        self.engine.pager.is_resident(page)
    }

    /// Whether the page is kept: it is absent, and still has its frame.
    pub fn is_kept(&self, page: u32) -> bool
        ensures { result ≡ is_listed page (memory_of self.now).kept }
    {
        self.engine.pager.is_kept(page)
    }

    /// Whether the page is resident, and was written to since it came in or was last written to its block.
    pub fn is_modified(&self, page: u32) -> bool
        ensures { result ≡ is_listed page (memory_of self.now).modified }
    {
        self.engine.pager.is_modified(page)
    }

    /// Whether the page is pinned: the part of a step that is under way needs it.
    pub fn is_pinned(&self, page: u32) -> bool
        ensures { result ≡ is_listed page (residence (engine self.now)).pinned }
    {
        self.engine.pager.is_pinned(page)
    }

    /// A byte of memory, with no change of what is resident; none exactly where no area has it.
    pub fn peek<F: PageFile>(&mut self, addr: u32, file: &mut F) -> Result<Option<u8>, PageFault>
        ensures none { IfOk result
            (λ r. is_some r ≡ is_some (area_of (memory_of self.old).areas (page_of addr))) }
        ensures byte { IfOk result
            (λ r. IfSome r (IsByte (memory_of self.old) (F.contents file.old) addr)) }
        ensures cpu { (engine self.new).cpu ≡ (engine self.old).cpu }
        ensures keeps { keeping (engine self.new) ≡ keeping (engine self.old) }
        ensures same { memory_of self.new ≡ memory_of self.old }
        ensures reads { OnlyRead (F.contents file.old) (F.contents file.new) }
        ensures once { ReadsAtMost 1 (F.contents file.old) (F.contents file.new) }
        ensures means { KeepsPlace (engine self.old) (F.contents file.old) (engine self.new)
            (F.contents file.new) }
        ensures err { OnErr result (F.contents file.new ≡ F.contents file.old) }
        ensures counts { CountsFailure (is_err result) (F.faults file.old) (F.faults file.new) }
    {
        self.engine.pager.peek(addr, file)
    }

    /// The bytes of a page of memory, with no change of what is resident; none exactly where no area has it.
    pub fn page<F: PageFile>(
        &mut self,
        page: u32,
        file: &mut F,
    ) -> Result<Option<[u8; 512]>, PageFault>
        ensures none { IfOk result (IsThereIn (keeping (engine self.old)).areas page) }
        ensures bytes { IfOk result
            (λ r. IfSome r (ShowsPage (engine self.old) (F.contents file.old) page)) }
        ensures cpu { (engine self.new).cpu ≡ (engine self.old).cpu }
        ensures keeps { keeping (engine self.new) ≡ keeping (engine self.old) }
        ensures same { memory_of self.new ≡ memory_of self.old }
        ensures reads { OnlyRead (F.contents file.old) (F.contents file.new) }
        ensures means { KeepsPlace (engine self.old) (F.contents file.old) (engine self.new)
            (F.contents file.new) }
        ensures err { OnErr result (F.contents file.new ≡ F.contents file.old) }
        ensures counts { CountsFailure (is_err result) (F.faults file.old) (F.faults file.new) }
    {
        match self.engine.pager.page(page, file)? {
            None => Ok(None),
            Some(bytes) => Ok(Some(bytes)),
        }
    }

    /// Fills cells with the bytes of memory from an address on, with no change of what is resident: None exactly where no area has the byte. At most
    /// one block is read for each page. After a failure what the cells hold is left open.
    pub fn dump<F: PageFile>(
        &mut self,
        addr: u32,
        cells: &mut [Option<u8>],
        file: &mut F,
    ) -> Result<(), PageFault>
        requires few { length cells.old < 2 ^ 32 }
        ensures len { length cells.new ≡ length cells.old }
        ensures none { OnOk result (AreShown (keeping (engine self.old)).areas addr cells.new) }
        ensures bytes { OnOk result (ShowsMemory (engine self.old) (F.contents file.old)
            addr (length cells.old) cells.new) }
        ensures cpu { (engine self.new).cpu ≡ (engine self.old).cpu }
        ensures keeps { keeping (engine self.new) ≡ keeping (engine self.old) }
        ensures same { memory_of self.new ≡ memory_of self.old }
        ensures reads { OnlyRead (F.contents file.old) (F.contents file.new) }
        ensures once { ReadsAtMost (pages_in addr (length cells.old)) (F.contents file.old)
            (F.contents file.new) }
        ensures means { KeepsPlace (engine self.old) (F.contents file.old) (engine self.new)
            (F.contents file.new) }
        ensures counts { CountsFailure (is_err result) (F.faults file.old) (F.faults file.new) }
    {
        self.engine.dump(addr, cells, file)
    }

    /// Whether a string instruction is open.
    pub fn is_open(&self) -> bool
        ensures { result ≡ is_some (engine self.now).cpu.latch }
    {
        self.engine.cpu.latch.is_some()
    }

    /// Changes 1 to 64 bytes of memory whatever the protection of their pages; no string instruction is open. It answers false exactly where some
    /// byte lies in no area, or in a page that no mode may write (those that some mode may write the kernel may), and changes nothing then.
    ///
    /// After any other answer no page is pinned and none is wanted. The pages of the bytes came in, by services as a run makes them; after a failure
    /// the first of them. Exactly these pages are modified anew, and none where nothing was changed. After a failure every byte is as it was.
    /// The page file is written and read for these services alone; a call that failed is the last of them.
    pub fn poke<F: PageFile>(
        &mut self,
        addr: u32,
        bytes: &[u8],
        file: &mut F,
    ) -> Result<bool, PageFault>
        requires closed { (engine self.old).cpu.latch ≡ None }
        requires some { 1 ≤ length bytes.now }
        requires few { length bytes.now ≤ 64 }
        ensures answer { IfOk result (λ r. r ≡ is_allowed
            (violation (keeping (engine self.old)).areas addr (length bytes.now) 0 Access.Write)) }
        ensures cpu { (engine self.new).cpu ≡ (engine self.old).cpu }
        ensures deposits { Deposits result addr bytes.now (engine self.old) (F.contents file.old)
            (engine self.new) (F.contents file.new) }
        ensures marks { Marks result addr (length bytes.now) (engine self.old) (engine self.new) }
        ensures brings { BringsPages result (pages_of_bytes addr (length bytes.now))
            (engine self.old) (engine self.new) }
        ensures writes { WritesBlocks (keeping (engine self.old)).areas (F.contents file.old)
            (F.contents file.new) }
        ensures paged { DepositsIn result addr bytes.now
            (filed (engine self.old) (F.contents file.old))
            (filed (engine self.new) (F.contents file.new)) }
        ensures counts { CountsFailure (is_err result) (F.faults file.old) (F.faults file.new) }
    {
        self.engine.poke(addr, bytes, file)
    }

    /// Changes a register, R0 to R15; no string instruction is open. Afterwards no page is pinned and none is wanted.
    pub fn set_reg(&mut self, n: u8, value: u32)
        requires closed { (engine self.old).cpu.latch ≡ None }
        requires number { n < 16 }
        ensures cpu { (engine self.new).cpu ≡ cpu_with_register n value (engine self.old).cpu }
        ensures keeps { keeping (engine self.new) ≡ let_go (keeping (engine self.old)) }
        ensures marks { modified_of (engine self.new) ≡ modified_of (engine self.old) }
        ensures blocks { (memory_of self.new).blocked ≡ (memory_of self.old).blocked }
        ensures deposits { DepositsRegister n value (engine self.old) (engine self.new) }
    {
        self.engine.set_reg(n, value);
    }

    /// No page is pinned afterwards, and none is wanted. Nothing else changes.
    pub fn let_go(&mut self)
        ensures cpu { (engine self.new).cpu ≡ (engine self.old).cpu }
        ensures keeps { keeping (engine self.new) ≡ let_go (keeping (engine self.old)) }
        ensures marks { modified_of (engine self.new) ≡ modified_of (engine self.old) }
        ensures means { (file : Option BlockFile) →
            KeepsPlace (engine self.old) file (engine self.new) file }
    {
        self.engine.let_go();
    }

    /// Changes the registers, with the status and the stack pointers; no string instruction is open. Afterwards no page is pinned and none is wanted.
    pub fn set_core(&mut self, core: Core)
        requires closed { (engine self.old).cpu.latch ≡ None }
        ensures cpu { (engine self.new).cpu ≡ cpu_with_core core (engine self.old).cpu }
        ensures keeps { keeping (engine self.new) ≡ let_go (keeping (engine self.old)) }
        ensures marks { modified_of (engine self.new) ≡ modified_of (engine self.old) }
        ensures deposits { DepositsCore core (engine self.old) (engine self.new) }
    {
        self.engine.set_core(core);
    }

    /// How many pages may be resident.
    pub fn frames(&self) -> u32
        ensures { result ≡ (memory_of self.now).frames }
    {
        self.engine.pager.frames()
    }

    /// The resident page that has been modified longest, none where none is modified.
    pub fn next_flush(&self) -> Option<u32>
        ensures { result ≡ first (memory_of self.now).modified }
    {
        self.engine.pager.next_flush()
    }
}
