//! The requests that make pages absent.
ghost use Rattle.std.specs.Prelude.{Option, is_err};
ghost use Rattle.vax_outside.specs.Channels.{Channels};
ghost use Rattle.vax_outside.specs.Faults.{CountsFailure};
ghost use Rattle.vax_machine.specs.Meaning.{engine};
ghost use Rattle.vax_console.specs.Ends.{OnlyReplied, scene};
ghost use Rattle.vax_console.specs.Transcript.{Session};
ghost use Rattle.vax_debug.specs.Sessions.{Counts, StaysHere};
ghost use Rattle.vax_debug_words.specs.Expressions.{IsExpression};
ghost use Rattle.vax_debug_acts.specs.Acting.{ActsFrom, RepliesFrom};
ghost use Rattle.vax_debug_acts.specs.Acts.{done_line, evict_act};

use crate::reply::{tell_done, tell_no_value, tell_outside};
use crate::stops::Setting;
use vax_debug::{Failure, Place, evict, locate};
use vax_debug_words::Expression;
use vax_machine::Machine;
use vax_outside::{PageFile, Sink};
use vax_pager::PageFault;

/// How many bytes a page has.
const PAGE_BYTES: u32 = 512;

/// Makes a page absent.
fn evict_page<F: PageFile, K: Sink>(
    page: u32,
    machine: &mut Machine,
    file: &mut F,
    sink: &mut K,
) -> Result<(), Failure>
    ensures replies { RepliesFrom
        (scene (engine machine.old) (F.contents file.old) (K.contents sink.old))
        (scene (engine machine.new) (F.contents file.new) (K.contents sink.new)) result
        (λ (s : Session). done_line) }
    ensures counts { Counts result (F.faults file.old) (F.faults file.new) (K.faults sink.old)
        (K.faults sink.new) }
    ensures only { OnlyReplied (K.contents sink.old) (K.contents sink.new) }
{
    match evict(page, machine, file) {
        Ok(()) => tell_done(sink),
        Err(_) => Err(Failure::PageFault),
    }
}

/// Makes the page of an address absent, if an area has it.
pub fn evict_at<F: PageFile, K: Sink>(
    at: &Expression,
    setting: &Setting,
    machine: &mut Machine,
    file: &mut F,
    sink: &mut K,
) -> Result<(), Failure>
    requires { IsExpression at.now }
    ensures acts { ActsFrom
        (scene (engine machine.old) (F.contents file.old) (K.contents sink.old))
        (scene (engine machine.new) (F.contents file.new) (K.contents sink.new)) result
        setting.now.limits.now
        (evict_act setting.now.legend.now at.now) }
    ensures counts { Counts result (F.faults file.old) (F.faults file.new) (K.faults sink.old)
        (K.faults sink.new) }
    ensures only { OnlyReplied (K.contents sink.old) (K.contents sink.new) }
{
    match locate(setting.legend, at, machine, file) {
        Ok(Place::Inside(address)) => evict_page(address / PAGE_BYTES, machine, file, sink),
        Ok(Place::Outside) => tell_outside(sink),
        Ok(Place::Unknown) => tell_no_value(sink),
        Err(_) => Err(Failure::PageFault),
    }
}

/// Some pages, one behind the other.
#[derive(Clone, Copy)]
struct Pages {
    first: u32,
    count: u32,
}

/// The pages of an area of memory: none where there is no such area.
fn pages_of(machine: &Machine, area: usize) -> Pages {
    match machine.space().areas().get(area) {
        Some(area) => Pages {
            first: area.first,
            count: area.pages,
        },
        None => Pages { first: 0, count: 0 },
    }
}

/// Makes pages absent.
fn evict_pages<F: PageFile>(
    pages: Pages,
    machine: &mut Machine,
    file: &mut F,
) -> Result<(), PageFault>
    ensures stays { (sink : Option Channels) →
        StaysHere (scene (engine machine.old) (F.contents file.old) sink)
        (scene (engine machine.new) (F.contents file.new) sink) }
    ensures counts { CountsFailure (is_err result) (F.faults file.old) (F.faults file.new) }
{
    for i in 0..pages.count {
        match evict(pages.first.wrapping_add(i), machine, file) {
            Ok(()) => {}
            Err(_) => return Err(PageFault),
        }
    }
    Ok(())
}

/// Makes all pages of some areas absent.
fn evict_areas<F: PageFile>(
    count: usize,
    machine: &mut Machine,
    file: &mut F,
) -> Result<(), PageFault>
    ensures stays { (sink : Option Channels) →
        StaysHere (scene (engine machine.old) (F.contents file.old) sink)
        (scene (engine machine.new) (F.contents file.new) sink) }
    ensures counts { CountsFailure (is_err result) (F.faults file.old) (F.faults file.new) }
{
    for i in 0..count {
        match evict_pages(pages_of(machine, i), machine, file) {
            Ok(()) => {}
            Err(_) => return Err(PageFault),
        }
    }
    Ok(())
}

/// Makes all pages absent.
pub fn evict_all<F: PageFile, K: Sink>(
    machine: &mut Machine,
    file: &mut F,
    sink: &mut K,
) -> Result<(), Failure>
    ensures replies { RepliesFrom
        (scene (engine machine.old) (F.contents file.old) (K.contents sink.old))
        (scene (engine machine.new) (F.contents file.new) (K.contents sink.new)) result
        (λ (s : Session). done_line) }
    ensures counts { Counts result (F.faults file.old) (F.faults file.new) (K.faults sink.old)
        (K.faults sink.new) }
    ensures only { OnlyReplied (K.contents sink.old) (K.contents sink.new) }
{
    let count = machine.space().areas().len();
    match evict_areas(count, machine, file) {
        Ok(()) => tell_done(sink),
        Err(_) => Err(Failure::PageFault),
    }
}
