//! Writing a report.
ghost use Rattle.std.specs.Prelude.{◌≡◌, ◌+◌, ◌*◌, ◌%◌, ◌^◌, ◌<◌, length, OnErr, OnOk, is_err};
ghost use Rattle.std.specs.List.{flat_map};
ghost use Rattle.vax_outside.specs.Channels.{Grew, GrewByPrefix, only};
ghost use Rattle.vax_outside.specs.Faults.{CountsFailure};
ghost use Rattle.vax_report.specs.Report.{dump_line, dump_text, head, report, shown};

use crate::lines::{push_head, push_memory};
use crate::{Dump, Last};
use vax_outside::{Chan, Failed, Sink, Text, put_all};
use vax_word::Core;

/// Writes the report of a state to Report: why the run stopped, the steps made, the units done of an open string
/// instruction, the registers, the input bytes taken, and the dumps, which a report of a page fault leaves out. After a failure
/// a prefix of it was written.
#[tactic(auto, unfolding(crate::specs::Report::report), using(vax_outside::proofs::Growth::report_first, vax_outside::proofs::Growth::report_last, vax_outside::proofs::Growth::report_grew))]
pub fn write_report<K: Sink>(
    core: &Core,
    last: Last,
    steps: u64,
    units: u32,
    taken: u32,
    dumps: &[Dump],
    sink: &mut K,
) -> Result<(), Failed>
    ensures ok { OnOk result (Grew (K.contents sink.old) (K.contents sink.new)
        (only Chan.Report (report core.now last steps units taken dumps.now))) }
    ensures prefix { OnErr result (GrewByPrefix (K.contents sink.old) (K.contents sink.new)
        (only Chan.Report (report core.now last steps units taken dumps.now))) }
    ensures counts { CountsFailure (is_err result) (K.faults sink.old) (K.faults sink.new) }
{
    write_head(core, last, steps, units, taken, sink)?;
    write_dumps(shown(last, dumps), sink)?;
    Ok(())
}

/// The dumps that a report shows: none after a page fault.
fn shown(last: Last, dumps: &[Dump]) -> &[Dump]
    ensures { result.now ≡ shown last dumps.now }
{
    match last {
        Last::PageFault => &[],
        Last::Ending(_) | Last::Steps | Last::Break | Last::Turns => dumps,
    }
}

fn write_head<K: Sink>(
    core: &Core,
    last: Last,
    steps: u64,
    units: u32,
    taken: u32,
    sink: &mut K,
) -> Result<(), Failed>
    ensures ok { OnOk result (Grew (K.contents sink.old) (K.contents sink.new)
        (only Chan.Report (head core.now last steps units taken))) }
    ensures prefix { OnErr result (GrewByPrefix (K.contents sink.old) (K.contents sink.new)
        (only Chan.Report (head core.now last steps units taken))) }
    ensures counts { CountsFailure (is_err result) (K.faults sink.old) (K.faults sink.new) }
{
    let mut text = Text::new();
    push_head(&mut text, core, last, steps, units, taken);
    put_all(sink, Chan::Report, text.as_slice())
}

fn write_dumps<K: Sink>(dumps: &[Dump], sink: &mut K) -> Result<(), Failed>
    ensures ok { OnOk result (Grew (K.contents sink.old) (K.contents sink.new)
        (only Chan.Report (flat_map dump_text dumps.now))) }
    ensures prefix { OnErr result (GrewByPrefix (K.contents sink.old) (K.contents sink.new)
        (only Chan.Report (flat_map dump_text dumps.now))) }
    ensures counts { CountsFailure (is_err result) (K.faults sink.old) (K.faults sink.new) }
{
    for dump in dumps {
        write_dump(dump, sink)?;
    }
    Ok(())
}

/// Writes a dump, 16 bytes a line.
fn write_dump<K: Sink>(dump: &Dump, sink: &mut K) -> Result<(), Failed>
    ensures ok { OnOk result (Grew (K.contents sink.old) (K.contents sink.new)
        (only Chan.Report (dump_text dump.now))) }
    ensures prefix { OnErr result (GrewByPrefix (K.contents sink.old) (K.contents sink.new)
        (only Chan.Report (dump_text dump.now))) }
    ensures counts { CountsFailure (is_err result) (K.faults sink.old) (K.faults sink.new) }
{
    let total = dump.bytes.as_slice().len();
    for line in 0..total.div_ceil(16) {
        write_dump_line(dump, 16 * line, sink)?;
    }
    Ok(())
}

/// Writes the line of the 16 bytes from a place of a dump on, or of those that are left.
fn write_dump_line<K: Sink>(dump: &Dump, start: usize, sink: &mut K) -> Result<(), Failed>
    requires { start < length dump.now.bytes }
    ensures ok { OnOk result (Grew (K.contents sink.old) (K.contents sink.new)
        (only Chan.Report (dump_line dump.now start))) }
    ensures prefix { OnErr result (GrewByPrefix (K.contents sink.old) (K.contents sink.new)
        (only Chan.Report (dump_line dump.now start))) }
    ensures counts { CountsFailure (is_err result) (K.faults sink.old) (K.faults sink.new) }
{
    let rest = dump.bytes.as_slice().split_at(start).1;
    let bytes = rest.split_at(16usize.min(rest.len())).0;
    let mut text = Text::new();
    push_memory(&mut text, address(dump.addr, start), bytes);
    put_all(sink, Chan::Report, text.as_slice())
}

/// The address so many bytes on, which wraps at 32 bits.
fn address(addr: u32, offset: usize) -> u32
    ensures { result ≡ (addr + offset) % 2 ^ 32 }
{
    addr.wrapping_add((offset % 0x1_0000_0000) as u32)
}
