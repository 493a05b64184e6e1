//! Saves a machine's state.
ghost use Rattle.std.specs.Prelude.{◌≡◌, ◌+◌, ◌≤◌, ◌<◌, ◌^◌, ◌++◌, ℕ, length, true, false, drop, is_some, OnErr, OnOk, is_err};
ghost use Rattle.std.specs.List.{flat_map, range_with_len};
ghost use Rattle.std.specs.Option.{option_copied};
ghost use Rattle.vax_space.specs.Areas.{area_of, pages_of};
ghost use Rattle.vax_outside.specs.Channels.{Grew, GrewByPrefix, only};
ghost use Rattle.vax_outside.specs.Faults.{CountsFailure};
ghost use Rattle.vax_flat.specs.Parts.{Place, machine_at};
ghost use Rattle.vax_machine.specs.Machine.{Means, keeping};
ghost use Rattle.vax_machine.specs.Meaning.{engine};
ghost use Rattle.vax_save.specs.Saved.{area_field, areas_field, content_field, longword, page_field, pages_field, registers_field, saved};
ghost use Rattle.vax_save.specs.Saving.{HasSaved, IsKept, Saves, first_fields, front_fields, has_page_fault, has_write_fault, is_page_fault, is_write_fault};
ghost use Rattle.vax_save.specs.Stream.{Cuts, HasBegun, HasCut, HasPut, HasWritten, Puts, stream};

use crate::fault::Fault;
use crate::fields::{Fields, push, push_area, push_core, push_longword, push_quadword, push_word};
use crate::memory::{END_MARK, is_blank};
use crate::registers::NO_OPCODE;
use crate::stream::{Held, finish, put};
use arrayvec::ArrayVec;
use vax_cpu::Open;
use vax_machine::Machine;
use vax_outside::{Chan, Failed, PageFile, Sink};
use vax_space::Area;
use vax_word::Core;

/// How saving came out.
#[derive(Clone, Copy, PartialEq, Eq)]
pub enum SaveEnd {
    /// The whole state was written, and is kept.
    Written,
    /// A call of the page file failed.
    PageFault,
    /// A write failed, or the call that keeps the state.
    WriteFault,
}

/// Appends the registers, with the string instruction that is open, if one is.
fn push_registers(fields: &mut Fields, core: &Core, latch: Option<&Open>)
    requires room { length fields.old.items + 196 ≤ 256 }
    ensures exact { fields.new.items
        ≡ fields.old.items ++ registers_field core.now (option_copied latch.entry) }
    ensures len { length fields.new.items ≤ length fields.old.items + 196 }
{
    match latch {
        None => push_core(fields, core, NO_OPCODE),
        Some(open) => {
            push_core(fields, core, u16::from(open.opcode));
            push_longword(fields, open.units);
            push_core(fields, &open.start, 0);
        }
    }
}

/// The fields that stand before the input's bytes.
fn first_fields(machine: &Machine) -> Fields
    ensures { result.items ≡ first_fields (engine machine.now) }
{
    let term = machine.term();
    let mut fields = ArrayVec::new();
    push(&mut fields, b"VAXS");
    push_word(&mut fields, 1);
    push_word(&mut fields, 0);
    push_quadword(&mut fields, machine.steps());
    push_registers(&mut fields, machine.core(), machine.latch());
    push_longword(&mut fields, term.place);
    push_longword(&mut fields, term.input.len() as u32);
    fields
}

/// Puts a number of 32 bits.
fn put_longword<K: Sink>(held: &mut Held, sink: &mut K, n: u32) -> Result<(), Failed>
    ensures ok { OnOk result (Puts (longword n) (stream (K.contents sink.old) held.old.items)
        (stream (K.contents sink.new) held.new.items)) }
    ensures cut { OnErr result (Cuts (longword n) (stream (K.contents sink.old) held.old.items)
        (K.contents sink.new)) }
    ensures counts { CountsFailure (is_err result) (K.faults sink.old) (K.faults sink.new) }
{
    let mut fields = ArrayVec::new();
    push_longword(&mut fields, n);
    put(held, sink, &fields)
}

/// Puts where an area lies, and its protection code.
fn put_area<K: Sink>(held: &mut Held, sink: &mut K, area: &Area) -> Result<(), Failed>
    ensures ok { OnOk result (Puts (area_field area.now)
        (stream (K.contents sink.old) held.old.items)
        (stream (K.contents sink.new) held.new.items)) }
    ensures cut { OnErr result (Cuts (area_field area.now)
        (stream (K.contents sink.old) held.old.items) (K.contents sink.new)) }
    ensures counts { CountsFailure (is_err result) (K.faults sink.old) (K.faults sink.new) }
{
    let mut fields = ArrayVec::new();
    push_area(&mut fields, area);
    put(held, sink, &fields)
}

/// Puts the areas.
fn put_areas<K: Sink>(held: &mut Held, sink: &mut K, areas: &[Area]) -> Result<(), Failed>
    requires { length areas.now < 2 ^ 32 }
    ensures ok { OnOk result (Puts (areas_field areas.now)
        (stream (K.contents sink.old) held.old.items)
        (stream (K.contents sink.new) held.new.items)) }
    ensures cut { OnErr result (Cuts (areas_field areas.now)
        (stream (K.contents sink.old) held.old.items) (K.contents sink.new)) }
    ensures counts { CountsFailure (is_err result) (K.faults sink.old) (K.faults sink.new) }
{
    put_longword(held, sink, areas.len() as u32)?;
    for area in areas {
        put_area(held, sink, area)?;
    }
    Ok(())
}

/// Puts a page's number and these bytes, unless all of them are 0.
fn put_content<K: Sink>(held: &mut Held, sink: &mut K, page: u32, bytes: &[u8]) -> Result<(), Fault>
    ensures ok { OnOk result (Puts (content_field page bytes.now)
        (stream (K.contents sink.old) held.old.items)
        (stream (K.contents sink.new) held.new.items)) }
    ensures cut { OnErr result (Cuts (content_field page bytes.now)
        (stream (K.contents sink.old) held.old.items) (K.contents sink.new)) }
    ensures page { is_page_fault result ≡ false }
    ensures counts { CountsFailure (is_write_fault result) (K.faults sink.old)
        (K.faults sink.new) }
{
    if is_blank(bytes) {
        return Ok(());
    }
    put_longword(held, sink, page)?;
    put(held, sink, bytes)?;
    Ok(())
}

/// Puts a page with its bytes, unless all of these are 0.
fn put_page<F: PageFile, K: Sink>(
    machine: &mut Machine,
    file: &mut F,
    held: &mut Held,
    sink: &mut K,
    page: u32,
) -> Result<(), Fault>
    requires inside { is_some (area_of (keeping (engine machine.old)).areas page) ≡ true }
    ensures kept { IsKept (engine machine.old) (F.contents file.old) (engine machine.new)
        (F.contents file.new) }
    ensures ok { OnOk result ((place : Place)
        → Means (engine machine.old) (F.contents file.old) place
        → Puts (page_field (machine_at place).memory page)
        (stream (K.contents sink.old) held.old.items)
        (stream (K.contents sink.new) held.new.items)) }
    ensures cut { OnErr result ((place : Place)
        → Means (engine machine.old) (F.contents file.old) place
        → Cuts (page_field (machine_at place).memory page)
        (stream (K.contents sink.old) held.old.items) (K.contents sink.new)) }
    ensures some { OnOk result (HasPut (stream (K.contents sink.old) held.old.items)
        (stream (K.contents sink.new) held.new.items)) }
    ensures some_cut { OnErr result (HasCut (stream (K.contents sink.old) held.old.items)
        (K.contents sink.new)) }
    ensures file { CountsFailure (is_page_fault result) (F.faults file.old) (F.faults file.new) }
    ensures sink { CountsFailure (is_write_fault result) (K.faults sink.old) (K.faults sink.new) }
{
    match machine.page(page, file)? {
        None => Ok(()),
        Some(bytes) => put_content(held, sink, page, &bytes),
    }
}

/// The pages of an area.
#[derive(Clone, Copy)]
struct Extent {
    first: u32,
    pages: u32,
}

/// The pages of the area at this place.
fn extent_at(machine: &Machine, place: usize) -> Extent
    requires { place < length (keeping (engine machine.now)).areas }
    ensures small { result.first + result.pages ≤ 0x401000 }
    ensures pages { flat_map pages_of (drop place (keeping (engine machine.now)).areas)
        ≡ range_with_len result.first result.pages
        ++ flat_map pages_of (drop (place + 1) (keeping (engine machine.now)).areas) }
    ensures inside { (k : ℕ) → k < result.pages
        → is_some (area_of (keeping (engine machine.now)).areas (result.first + k)) ≡ true }
{
    let area = &machine.space().areas()[place];
    Extent {
        first: area.first,
        pages: area.pages,
    }
}

/// Puts the pages of an area.
fn put_extent<F: PageFile, K: Sink>(
    machine: &mut Machine,
    file: &mut F,
    held: &mut Held,
    sink: &mut K,
    extent: Extent,
) -> Result<(), Fault>
    requires small { extent.first + extent.pages ≤ 0x401000 }
    requires inside { (k : ℕ) → k < extent.pages
        → is_some (area_of (keeping (engine machine.old)).areas (extent.first + k)) ≡ true }
    ensures kept { IsKept (engine machine.old) (F.contents file.old) (engine machine.new)
        (F.contents file.new) }
    ensures ok { OnOk result ((place : Place)
        → Means (engine machine.old) (F.contents file.old) place
        → Puts (flat_map (page_field (machine_at place).memory)
        (range_with_len extent.first extent.pages))
        (stream (K.contents sink.old) held.old.items)
        (stream (K.contents sink.new) held.new.items)) }
    ensures cut { OnErr result ((place : Place)
        → Means (engine machine.old) (F.contents file.old) place
        → Cuts (flat_map (page_field (machine_at place).memory)
        (range_with_len extent.first extent.pages))
        (stream (K.contents sink.old) held.old.items) (K.contents sink.new)) }
    ensures some { OnOk result (HasPut (stream (K.contents sink.old) held.old.items)
        (stream (K.contents sink.new) held.new.items)) }
    ensures some_cut { OnErr result (HasCut (stream (K.contents sink.old) held.old.items)
        (K.contents sink.new)) }
    ensures file { CountsFailure (is_page_fault result) (F.faults file.old) (F.faults file.new) }
    ensures sink { CountsFailure (is_write_fault result) (K.faults sink.old) (K.faults sink.new) }
{
    for count in 0..extent.pages {
        put_page(machine, file, held, sink, extent.first + count)?;
    }
    Ok(())
}

/// Puts the pages of all areas.
fn put_pages<F: PageFile, K: Sink>(
    machine: &mut Machine,
    file: &mut F,
    held: &mut Held,
    sink: &mut K,
) -> Result<(), Fault>
    ensures kept { IsKept (engine machine.old) (F.contents file.old) (engine machine.new)
        (F.contents file.new) }
    ensures ok { OnOk result ((place : Place)
        → Means (engine machine.old) (F.contents file.old) place
        → Puts (pages_field (machine_at place).memory (keeping (engine machine.old)).areas)
        (stream (K.contents sink.old) held.old.items)
        (stream (K.contents sink.new) held.new.items)) }
    ensures cut { OnErr result ((place : Place)
        → Means (engine machine.old) (F.contents file.old) place
        → Cuts (pages_field (machine_at place).memory (keeping (engine machine.old)).areas)
        (stream (K.contents sink.old) held.old.items) (K.contents sink.new)) }
    ensures some { OnOk result (HasPut (stream (K.contents sink.old) held.old.items)
        (stream (K.contents sink.new) held.new.items)) }
    ensures some_cut { OnErr result (HasCut (stream (K.contents sink.old) held.old.items)
        (K.contents sink.new)) }
    ensures file { CountsFailure (is_page_fault result) (F.faults file.old) (F.faults file.new) }
    ensures sink { CountsFailure (is_write_fault result) (K.faults sink.old) (K.faults sink.new) }
{
    let count = machine.space().areas().len();
    for i in 0..count {
        let pages = extent_at(machine, i);
        put_extent(machine, file, held, sink, pages)?;
    }
    Ok(())
}

/// Puts the fields that stand before the pages.
fn put_front<K: Sink>(machine: &Machine, held: &mut Held, sink: &mut K) -> Result<(), Failed>
    ensures ok { OnOk result (Puts (front_fields (engine machine.now))
        (stream (K.contents sink.old) held.old.items)
        (stream (K.contents sink.new) held.new.items)) }
    ensures cut { OnErr result (Cuts (front_fields (engine machine.now))
        (stream (K.contents sink.old) held.old.items) (K.contents sink.new)) }
    ensures counts { CountsFailure (is_err result) (K.faults sink.old) (K.faults sink.new) }
{
    put(held, sink, &first_fields(machine))?;
    put(held, sink, &machine.term().input)?;
    put_areas(held, sink, machine.space().areas())
}

/// Writes the state.
fn write_state<F: PageFile, K: Sink>(
    machine: &mut Machine,
    file: &mut F,
    sink: &mut K,
) -> Result<(), Fault>
    ensures kept { IsKept (engine machine.old) (F.contents file.old) (engine machine.new)
        (F.contents file.new) }
    ensures ok { OnOk result ((place : Place)
        → Means (engine machine.old) (F.contents file.old) place
        → Grew (K.contents sink.old) (K.contents sink.new)
        (only Chan.State (saved place (engine machine.old).steps))) }
    ensures cut { OnErr result ((place : Place)
        → Means (engine machine.old) (F.contents file.old) place
        → GrewByPrefix (K.contents sink.old) (K.contents sink.new)
        (only Chan.State (saved place (engine machine.old).steps))) }
    ensures some { OnOk result (HasWritten (K.contents sink.old) (K.contents sink.new)) }
    ensures some_cut { OnErr result (HasBegun (K.contents sink.old) (K.contents sink.new)) }
    ensures file { CountsFailure (is_page_fault result) (F.faults file.old) (F.faults file.new) }
    ensures sink { CountsFailure (is_write_fault result) (K.faults sink.old) (K.faults sink.new) }
{
    let mut held = ArrayVec::new();
    put_front(machine, &mut held, sink)?;
    put_pages(machine, file, &mut held, sink)?;
    put_longword(&mut held, sink, END_MARK)?;
    finish(&held, sink)?;
    Ok(())
}

/// Saves a machine's state: where the flat machine is for which it stands, with the string instruction that is open, and how many steps were completed. Its
/// bytes are written to State, and then they are kept as the state's file. The machine is as before. It takes no memory. After a failure a prefix of the bytes
/// was written, and nothing was kept.
pub fn save<F: PageFile, K: Sink>(machine: &mut Machine, file: &mut F, sink: &mut K) -> SaveEnd
    ensures kept { IsKept (engine machine.old) (F.contents file.old) (engine machine.new)
        (F.contents file.new) }
    ensures saves { (place : Place) → Means (engine machine.old) (F.contents file.old) place
        → Saves result (saved place (engine machine.old).steps)
        (K.contents sink.old) (K.contents sink.new) }
    ensures some { HasSaved result (K.contents sink.old) (K.contents sink.new) }
    ensures file { CountsFailure (has_page_fault result) (F.faults file.old) (F.faults file.new) }
    ensures sink { CountsFailure (has_write_fault result) (K.faults sink.old) (K.faults sink.new) }
{
    match write_state(machine, file, sink) {
        Ok(()) => match sink.keep_state() {
            Ok(()) => SaveEnd::Written,
            Err(Failed) => SaveEnd::WriteFault,
        },
        Err(Fault::Page) => SaveEnd::PageFault,
        Err(Fault::Write) => SaveEnd::WriteFault,
    }
}
