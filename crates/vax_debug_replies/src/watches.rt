//! The lines of what is watched.
ghost use Rattle.std.specs.Prelude.{◌≡◌, ◌+◌, ◌≤◌, ◌∷◌, ◌++◌, [], codes, length, OnErr, OnOk, is_err};
ghost use Rattle.vax_outside.specs.Channels.{Grew, GrewByPrefix, only};
ghost use Rattle.vax_outside.specs.Faults.{CountsFailure};
ghost use Rattle.vax_debug_replies.specs.Stops.{change_line, watch_line};
ghost use Rattle.vax_debug_replies.specs.Values.{head, value};

use crate::places::push_place;
use crate::values::{push_head, push_value};
use vax_debug_names::Legend;
use vax_outside::{Chan, Failed, Sink, Text, put_all};

/// Appends the line of bytes that are watched.
pub fn push_watch_line(text: &mut Text, legend: &Legend, address: u32, count: u8)
    requires { length text.old + 78 ≤ 512 }
    ensures exact { text.new ≡ text.old ++ watch_line legend.now address count }
    ensures short { length text.new ≤ length text.old + 78 }
{
    text.push(b"WATCH ");
    push_place(text, legend, address);
    text.push(b": ");
    text.push_decimal(u64::from(count));
    text.push(b"\n");
}

/// Writes the head of the line of a change.
fn write_head<K: Sink>(legend: &Legend, address: u32, sink: &mut K) -> Result<(), Failed>
    ensures ok { OnOk result (Grew (K.contents sink.old) (K.contents sink.new)
        (only Chan.Report (codes "WATCH " ++ head legend.now address))) }
    ensures prefix { OnErr result (GrewByPrefix (K.contents sink.old) (K.contents sink.new)
        (only Chan.Report (codes "WATCH " ++ head legend.now address))) }
    ensures counts { CountsFailure (is_err result) (K.faults sink.old) (K.faults sink.new) }
{
    let mut text = Text::new();
    text.push(b"WATCH ");
    push_head(&mut text, legend, address);
    put_all(sink, Chan::Report, text.as_slice())
}

/// Writes the digits of a value, the highest byte first. The cells are turned around.
fn write_value<K: Sink>(cells: &mut [Option<u8>], sink: &mut K) -> Result<(), Failed>
    requires { length cells.old ≤ 255 }
    ensures ok { OnOk result (Grew (K.contents sink.old) (K.contents sink.new)
        (only Chan.Report (value cells.old))) }
    ensures prefix { OnErr result (GrewByPrefix (K.contents sink.old) (K.contents sink.new)
        (only Chan.Report (value cells.old))) }
    ensures counts { CountsFailure (is_err result) (K.faults sink.old) (K.faults sink.new) }
{
    let mut text = Text::new();
    push_value(&mut text, cells);
    put_all(sink, Chan::Report, text.as_slice())
}

/// Writes the value behind a change, and the end of the line. The cells are turned around.
fn write_last<K: Sink>(cells: &mut [Option<u8>], sink: &mut K) -> Result<(), Failed>
    requires { length cells.old ≤ 255 }
    ensures ok { OnOk result (Grew (K.contents sink.old) (K.contents sink.new)
        (only Chan.Report (value cells.old ++ 10 ∷ []))) }
    ensures prefix { OnErr result (GrewByPrefix (K.contents sink.old) (K.contents sink.new)
        (only Chan.Report (value cells.old ++ 10 ∷ []))) }
    ensures counts { CountsFailure (is_err result) (K.faults sink.old) (K.faults sink.new) }
{
    write_value(cells, sink)?;
    put_all(sink, Chan::Report, b"\n")
}

/// Writes an arrow, the value behind a change, and the end of the line. The cells are turned around.
fn write_after<K: Sink>(cells: &mut [Option<u8>], sink: &mut K) -> Result<(), Failed>
    requires { length cells.old ≤ 255 }
    ensures ok { OnOk result (Grew (K.contents sink.old) (K.contents sink.new)
        (only Chan.Report (codes " -> " ++ value cells.old ++ 10 ∷ []))) }
    ensures prefix { OnErr result (GrewByPrefix (K.contents sink.old) (K.contents sink.new)
        (only Chan.Report (codes " -> " ++ value cells.old ++ 10 ∷ []))) }
    ensures counts { CountsFailure (is_err result) (K.faults sink.old) (K.faults sink.new) }
{
    put_all(sink, Chan::Report, b" -> ")?;
    write_last(cells, sink)
}

/// Writes the values before and behind a change, and the end of the line. The cells are turned around.
fn write_values<K: Sink>(
    before: &mut [Option<u8>],
    after: &mut [Option<u8>],
    sink: &mut K,
) -> Result<(), Failed>
    requires before { length before.old ≤ 255 }
    requires after { length after.old ≤ 255 }
    ensures ok { OnOk result (Grew (K.contents sink.old) (K.contents sink.new)
        (only Chan.Report (value before.old ++ codes " -> " ++ value after.old ++ 10 ∷ []))) }
    ensures prefix { OnErr result (GrewByPrefix (K.contents sink.old) (K.contents sink.new)
        (only Chan.Report (value before.old ++ codes " -> " ++ value after.old ++ 10 ∷ []))) }
    ensures counts { CountsFailure (is_err result) (K.faults sink.old) (K.faults sink.new) }
{
    write_value(before, sink)?;
    write_after(after, sink)
}

/// Writes the line of watched bytes that a step changed: where they begin, and the bytes before and behind it. The cells are turned around.
#[tactic(auto, unfolding(crate::specs::Stops::change_line))]
pub fn write_change<K: Sink>(
    legend: &Legend,
    address: u32,
    before: &mut [Option<u8>],
    after: &mut [Option<u8>],
    sink: &mut K,
) -> Result<(), Failed>
    requires before { length before.old ≤ 255 }
    requires after { length after.old ≤ 255 }
    ensures ok { OnOk result (Grew (K.contents sink.old) (K.contents sink.new)
        (only Chan.Report (change_line legend.now address before.old after.old))) }
    ensures prefix { OnErr result (GrewByPrefix (K.contents sink.old) (K.contents sink.new)
        (only Chan.Report (change_line legend.now address before.old after.old))) }
    ensures counts { CountsFailure (is_err result) (K.faults sink.old) (K.faults sink.new) }
{
    write_head(legend, address, sink)?;
    write_values(before, after, sink)
}
