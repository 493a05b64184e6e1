//! The pages of a machine.
ghost use Rattle.std.specs.Prelude.{◌≡◌, OnErr, OnOk, is_err};
ghost use Rattle.std.specs.List.{flat_map};
ghost use Rattle.vax_outside.specs.Channels.{Grew, GrewByPrefix, only};
ghost use Rattle.vax_outside.specs.Faults.{CountsFailure};
ghost use Rattle.vax_outside.specs.declared.faults.Failures.{Failures};
ghost use Rattle.vax_machine.specs.Meaning.{engine};
ghost use Rattle.vax_debug.specs.Pages.{pages_at};
ghost use Rattle.vax_debug.specs.Sessions.{Counts};
ghost use Rattle.vax_debug_replies.specs.Pages.{frames_line};
ghost use Rattle.vax_debug_views.specs.Pages.{area_shown, page_shown, pages_shown, state_of};
ghost use Rattle.vax_debug_views.specs.Showing.{Replied};

use vax_debug::Failure;
use vax_debug_names::Legend;
use vax_debug_replies::{PageState, push_frames_line, push_page_line};
use vax_machine::Machine;
use vax_outside::{Chan, Failed, Sink, Text, put_all};
use vax_space::Area;

/// How many bytes a page has.
const PAGE_BYTES: u32 = 512;

/// How a page stands; none where it is absent and has no frame.
fn state_of(page: u32, machine: &Machine) -> Option<PageState>
    ensures { result ≡ state_of (pages_at (engine machine.now)) page }
{
    if machine.is_resident(page) {
        if machine.is_modified(page) {
            Some(PageState::Modified)
        } else {
            Some(PageState::Resident)
        }
    } else if machine.is_kept(page) {
        Some(PageState::Kept)
    } else {
        None
    }
}

/// Writes the line of a page, if it has a frame.
fn write_page<K: Sink>(
    legend: &Legend,
    page: u32,
    machine: &Machine,
    sink: &mut K,
) -> Result<(), Failed>
    ensures ok { OnOk result (Grew (K.contents sink.old) (K.contents sink.new)
        (only Chan.Report (page_shown legend.now (pages_at (engine machine.now)) page))) }
    ensures prefix { OnErr result (GrewByPrefix (K.contents sink.old) (K.contents sink.new)
        (only Chan.Report (page_shown legend.now (pages_at (engine machine.now)) page))) }
    ensures counts { CountsFailure (is_err result) (K.faults sink.old) (K.faults sink.new) }
{
    match state_of(page, machine) {
        None => Ok(()),
        Some(state) => {
            let mut text = Text::new();
            push_page_line(&mut text, legend, page.wrapping_mul(PAGE_BYTES), state);
            put_all(sink, Chan::Report, text.as_slice())
        }
    }
}

/// Writes the lines of an area's pages.
fn write_area<K: Sink>(
    legend: &Legend,
    area: &Area,
    machine: &Machine,
    sink: &mut K,
) -> Result<(), Failed>
    ensures ok { OnOk result (Grew (K.contents sink.old) (K.contents sink.new)
        (only Chan.Report (area_shown legend.now (pages_at (engine machine.now)) area.now))) }
    ensures prefix { OnErr result (GrewByPrefix (K.contents sink.old) (K.contents sink.new)
        (only Chan.Report (area_shown legend.now (pages_at (engine machine.now)) area.now))) }
    ensures counts { CountsFailure (is_err result) (K.faults sink.old) (K.faults sink.new) }
{
    for k in 0..area.pages {
        write_page(legend, area.first.wrapping_add(k), machine, sink)?;
    }
    Ok(())
}

/// Writes the lines of the pages of areas.
fn write_areas<K: Sink>(
    legend: &Legend,
    areas: &[Area],
    machine: &Machine,
    sink: &mut K,
) -> Result<(), Failed>
    ensures ok { OnOk result (Grew (K.contents sink.old) (K.contents sink.new)
        (only Chan.Report
        (flat_map (area_shown legend.now (pages_at (engine machine.now))) areas.now))) }
    ensures prefix { OnErr result (GrewByPrefix (K.contents sink.old) (K.contents sink.new)
        (only Chan.Report
        (flat_map (area_shown legend.now (pages_at (engine machine.now))) areas.now))) }
    ensures counts { CountsFailure (is_err result) (K.faults sink.old) (K.faults sink.new) }
{
    for area in areas {
        write_area(legend, area, machine, sink)?;
    }
    Ok(())
}

/// Writes how many pages may be resident.
fn write_frames<K: Sink>(machine: &Machine, sink: &mut K) -> Result<(), Failed>
    ensures ok { OnOk result (Grew (K.contents sink.old) (K.contents sink.new)
        (only Chan.Report (frames_line (pages_at (engine machine.now)).frames))) }
    ensures prefix { OnErr result (GrewByPrefix (K.contents sink.old) (K.contents sink.new)
        (only Chan.Report (frames_line (pages_at (engine machine.now)).frames))) }
    ensures counts { CountsFailure (is_err result) (K.faults sink.old) (K.faults sink.new) }
{
    let mut text = Text::new();
    push_frames_line(&mut text, machine.frames());
    put_all(sink, Chan::Report, text.as_slice())
}

/// Writes how many pages may be resident, and the lines of all pages that have a frame.
#[tactic(auto, unfolding(crate::specs::Pages::pages_shown))]
fn write_pages<K: Sink>(legend: &Legend, machine: &Machine, sink: &mut K) -> Result<(), Failed>
    ensures ok { OnOk result (Grew (K.contents sink.old) (K.contents sink.new)
        (only Chan.Report (pages_shown legend.now (pages_at (engine machine.now))))) }
    ensures prefix { OnErr result (GrewByPrefix (K.contents sink.old) (K.contents sink.new)
        (only Chan.Report (pages_shown legend.now (pages_at (engine machine.now))))) }
    ensures counts { CountsFailure (is_err result) (K.faults sink.old) (K.faults sink.new) }
{
    write_frames(machine, sink)?;
    write_areas(legend, machine.space().areas(), machine, sink)
}

/// Replies which pages of the machine's memory are resident, which of these are modified, and which absent ones are kept, in ascending order. The machine isn't
/// changed.
pub fn show_pages<K: Sink>(legend: &Legend, machine: &Machine, sink: &mut K) -> Result<(), Failure>
    ensures replied { Replied result (K.contents sink.old) (K.contents sink.new)
        (pages_shown legend.now (pages_at (engine machine.now))) }
    ensures counts { (file : Failures) →
        Counts result file file (K.faults sink.old) (K.faults sink.new) }
{
    match write_pages(legend, machine, sink) {
        Ok(()) => Ok(()),
        Err(Failed) => Err(Failure::WriteFault),
    }
}
