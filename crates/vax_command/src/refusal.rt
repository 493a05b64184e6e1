//! The lines of refusals.
ghost use Rattle.std.specs.Prelude.{◌≡◌, ◌≤◌, OnErr, OnOk, true, false, is_err, length};
ghost use Rattle.vax_outside.specs.Channels.{Grew, GrewByPrefix, only};
ghost use Rattle.vax_outside.specs.Faults.{CountsFailure};
ghost use Rattle.vax_command.specs.Status.{fault_at, is_named, link_fault, macros_fault, named, refusal_growth, source_fault};
ghost use Rattle.vax_command.specs.Around.{change};
ghost use Rattle.vax_command.specs.Ends.{Ends};

use crate::status::Status;
use vax_outside::{Chan, Failed, Sink, Text, put_all};

/// Writes a label and a name.
#[tactic(auto, using(vax_outside::proofs::Growth::report_first, vax_outside::proofs::Growth::report_last, vax_outside::proofs::Growth::report_grew))]
fn put_named<K: Sink>(label: &[u8], name: &[u8], sink: &mut K) -> Result<(), Failed>
    ensures ok { OnOk result (Grew (K.contents sink.old) (K.contents sink.new)
        (only Chan.Report (named label.now name.now))) }
    ensures prefix { OnErr result (GrewByPrefix (K.contents sink.old) (K.contents sink.new)
        (only Chan.Report (named label.now name.now))) }
    ensures counts { CountsFailure (is_err result) (K.faults sink.old) (K.faults sink.new) }
{
    put_all(sink, Chan::Report, label)?;
    put_all(sink, Chan::Report, name)?;
    put_all(sink, Chan::Report, b"\n")?;
    Ok(())
}

/// Writes a fault and its place, behind what the place is.
#[tactic(auto, unfolding(crate::specs::Status::fault_at))]
fn put_fault<K: Sink>(label: &[u8], place: u32, kind: u8, sink: &mut K) -> Result<(), Failed>
    requires { length label.now ≤ 64 }
    ensures ok { OnOk result (Grew (K.contents sink.old) (K.contents sink.new)
        (only Chan.Report (fault_at label.now place kind))) }
    ensures prefix { OnErr result (GrewByPrefix (K.contents sink.old) (K.contents sink.new)
        (only Chan.Report (fault_at label.now place kind))) }
    ensures counts { CountsFailure (is_err result) (K.faults sink.old) (K.faults sink.new) }
{
    let mut text = Text::new();
    text.push(label);
    text.push_decimal(place as u64);
    text.push(b" fault ");
    text.push_decimal(kind as u64);
    text.push(b"\n");
    put_all(sink, Chan::Report, text.as_slice())
}

/// Writes the place of a fault in a source.
#[tactic(auto, unfolding(crate::specs::Status::source_fault))]
fn put_source_fault<K: Sink>(file: u8, line: u32, kind: u8, sink: &mut K) -> Result<(), Failed>
    ensures ok { OnOk result (Grew (K.contents sink.old) (K.contents sink.new)
        (only Chan.Report (source_fault file line kind))) }
    ensures prefix { OnErr result (GrewByPrefix (K.contents sink.old) (K.contents sink.new)
        (only Chan.Report (source_fault file line kind))) }
    ensures counts { CountsFailure (is_err result) (K.faults sink.old) (K.faults sink.new) }
{
    let mut label = Text::new();
    label.push(b"vax: source ");
    label.push_decimal(file as u64);
    label.push(b" line ");
    put_fault(label.as_slice(), line, kind, sink)
}

/// Writes the place of a fault in a prelude of sources.
#[tactic(auto, unfolding(crate::specs::Status::macros_fault))]
fn put_macros_fault<K: Sink>(file: usize, line: u32, kind: u8, sink: &mut K) -> Result<(), Failed>
    ensures ok { OnOk result (Grew (K.contents sink.old) (K.contents sink.new)
        (only Chan.Report (macros_fault file line kind))) }
    ensures prefix { OnErr result (GrewByPrefix (K.contents sink.old) (K.contents sink.new)
        (only Chan.Report (macros_fault file line kind))) }
    ensures counts { CountsFailure (is_err result) (K.faults sink.old) (K.faults sink.new) }
{
    let mut label = Text::new();
    label.push(b"vax: macros ");
    label.push_decimal(file as u64);
    label.push(b" line ");
    put_fault(label.as_slice(), line, kind, sink)
}

/// Writes what the linker found without a name: behind kind 5 stands an address.
#[tactic(auto, unfolding(crate::specs::Status::link_fault))]
fn put_found<K: Sink>(kind: u8, name: &[u8], place: u32, sink: &mut K) -> Result<(), Failed>
    requires { is_named kind ≡ false }
    ensures ok { OnOk result (Grew (K.contents sink.old) (K.contents sink.new)
        (only Chan.Report (link_fault kind name.now place))) }
    ensures prefix { OnErr result (GrewByPrefix (K.contents sink.old) (K.contents sink.new)
        (only Chan.Report (link_fault kind name.now place))) }
    ensures counts { CountsFailure (is_err result) (K.faults sink.old) (K.faults sink.new) }
{
    let mut text = Text::new();
    text.push(b"vax: link fault ");
    text.push_decimal(kind as u64);
    if kind == 5 {
        text.push(b" ");
        text.push_hex8(place);
    }
    text.push(b"\n");
    put_all(sink, Chan::Report, text.as_slice())
}

/// Writes what the linker found with a name.
#[tactic(auto, unfolding(crate::specs::Status::link_fault))]
fn put_found_name<K: Sink>(kind: u8, name: &[u8], place: u32, sink: &mut K) -> Result<(), Failed>
    requires { is_named kind ≡ true }
    ensures ok { OnOk result (Grew (K.contents sink.old) (K.contents sink.new)
        (only Chan.Report (link_fault kind name.now place))) }
    ensures prefix { OnErr result (GrewByPrefix (K.contents sink.old) (K.contents sink.new)
        (only Chan.Report (link_fault kind name.now place))) }
    ensures counts { CountsFailure (is_err result) (K.faults sink.old) (K.faults sink.new) }
{
    let mut label = Text::new();
    label.push(b"vax: link fault ");
    label.push_decimal(kind as u64);
    label.push(b" ");
    put_named(label.as_slice(), name, sink)
}

/// Writes what the linker found.
fn put_link_fault<K: Sink>(kind: u8, name: &[u8], place: u32, sink: &mut K) -> Result<(), Failed>
    ensures ok { OnOk result (Grew (K.contents sink.old) (K.contents sink.new)
        (only Chan.Report (link_fault kind name.now place))) }
    ensures prefix { OnErr result (GrewByPrefix (K.contents sink.old) (K.contents sink.new)
        (only Chan.Report (link_fault kind name.now place))) }
    ensures counts { CountsFailure (is_err result) (K.faults sink.old) (K.faults sink.new) }
{
    if kind == 1 || kind == 2 {
        put_found_name(kind, name, place, sink)
    } else {
        put_found(kind, name, place, sink)
    }
}

/// Writes the line of a refusal; other answers have none.
fn put_refusal<K: Sink>(status: &Status, sink: &mut K) -> Result<(), Failed>
    ensures ok { OnOk result (Grew (K.contents sink.old) (K.contents sink.new)
        (refusal_growth status.now)) }
    ensures prefix { OnErr result (GrewByPrefix (K.contents sink.old) (K.contents sink.new)
        (refusal_growth status.now)) }
    ensures counts { CountsFailure (is_err result) (K.faults sink.old) (K.faults sink.new) }
{
    match status {
        Status::Usage => put_all(sink, Chan::Report, b"vax: usage\n"),
        Status::Missing(name) => put_named(b"vax: missing ", name.as_bytes(), sink),
        Status::Large(name) => put_named(b"vax: large ", name.as_bytes(), sink),
        Status::Refused { file, line, kind } => put_source_fault(*file, *line, *kind, sink),
        Status::Macros { file, line, kind } => put_macros_fault(*file, *line, *kind, sink),
        Status::Link { kind, name, place } => put_link_fault(*kind, name.as_slice(), *place, sink),
        Status::Schedule { line, kind } => put_fault(b"vax: schedule line ", *line, *kind, sink),
        Status::Order { line, kind } => put_fault(b"vax: order line ", *line, *kind, sink),
        Status::Image { place, kind } => put_fault(b"vax: image place ", *place, *kind, sink),
        Status::Saved { place, kind } => put_fault(b"vax: saved place ", *place, *kind, sink),
        Status::ReadFault => put_all(sink, Chan::Report, b"vax: read\n"),
        Status::NoMemory => put_all(sink, Chan::Report, b"vax: memory\n"),
        Status::Done
        | Status::Turns
        | Status::PageFault
        | Status::WriteFault
        | Status::Told(_)
        | Status::NotHalted
        | Status::Unsuccessful
        | Status::Unfinished
        | Status::LineFault => Ok(()),
    }
}

/// Refuses: writes the line, and answers.
pub fn refuse<K: Sink>(status: Status, sink: &mut K) -> Status
    ensures { Ends (change K.faults K.contents sink.old sink.new)
        status (refusal_growth status) result }
{
    match put_refusal(&status, sink) {
        Ok(()) => status,
        Err(Failed) => Status::WriteFault,
    }
}
