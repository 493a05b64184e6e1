//! What a run has to write, held back until there is much of it.
ghost use Rattle.std.specs.Prelude.{◌≡◌, ℕ, [], ◌+◌, ◌<◌, ◌≤◌, ◌^◌, length, is_err, OnErr, OnOk, Some, None, if◌then◌else◌};
ghost use Rattle.vax_outside.specs.Channels.{Grew, GrewByPrefix, nothing, only};
ghost use Rattle.vax_outside.specs.Faults.{CountsFailure};
ghost use Rattle.vax_outside.specs.declared.faults.Failures.{Failures};
ghost use Rattle.vax_outside.specs.declared.traits.Chan.TheVariants.{Out, Record};
ghost use Rattle.vax_machine.specs.Delivery.{Delivers, Waits, WritesDue, ends_line};
ghost use Rattle.vax_machine.specs.Writing.{Counts, Passed, Puts, StillWrites};

use crate::event::Fault;
use arrayvec::ArrayVec;
use vax_outside::{Chan, Failed, Sink, Text, put_all};
use vax_sched::push_at;

/// The most bytes of lines beside which another line has room.
const MOST_LINES: usize = 479;

/// The most steps for which a byte is held back.
pub const MOST_STEPS: u64 = 1_000_000;

/// What a run holds back: bytes on their way to Out, and lines on their way to Record, where evictions are listed.
#[derive(Drop)]
pub struct Held {
    pub(crate) bytes: ArrayVec<u8, 512>,
    pub(crate) lines: Text,
    pub(crate) listed: bool,
    /// After how many steps the bytes are written.
    pub(crate) due: u64,
}

/// Writes all the bytes to a channel.
fn put<K: Sink>(sink: &mut K, chan: Chan, bytes: &[u8]) -> Result<(), Fault>
    ensures puts { Puts result (only chan bytes.now) (K.contents sink.old) (K.contents sink.new) }
    ensures counts { (file : Failures)
        → Counts result file file (K.faults sink.old) (K.faults sink.new) }
{
    match put_all(sink, chan, bytes) {
        Ok(()) => Ok(()),
        Err(_) => Err(Fault::Write),
    }
}

/// Writes bytes to Out, and holds none then.
fn write_bytes<K: Sink>(bytes: &mut ArrayVec<u8, 512>, sink: &mut K) -> Result<(), Fault>
    ensures none { OnOk result (bytes.new.items ≡ []) }
    ensures passes { Passed result (only Out bytes.old.items) nothing (only Out bytes.new.items)
        (K.contents sink.old) (K.contents sink.new) }
    ensures counts { (file : Failures)
        → Counts result file file (K.faults sink.old) (K.faults sink.new) }
{
    put(sink, Chan::Out, bytes)?;
    bytes.clear();
    Ok(())
}

/// Writes bytes to Out where another has no room beside them, and holds none then.
fn make_space<K: Sink>(bytes: &mut ArrayVec<u8, 512>, sink: &mut K) -> Result<(), Fault>
    ensures space { OnOk result (length bytes.new.items < 512) }
    ensures passes { Passed result (only Out bytes.old.items) nothing (only Out bytes.new.items)
        (K.contents sink.old) (K.contents sink.new) }
    ensures counts { (file : Failures)
        → Counts result file file (K.faults sink.old) (K.faults sink.new) }
{
    if bytes.is_full() {
        return write_bytes(bytes, sink);
    }
    Ok(())
}

/// Writes lines to Record where another has no room beside them, and holds none then.
fn make_room<K: Sink>(lines: &mut Text, sink: &mut K) -> Result<(), Fault>
    ensures room { OnOk result (length lines.new + 33 ≤ 512) }
    ensures passes { Passed result (only Record lines.old) nothing (only Record lines.new)
        (K.contents sink.old) (K.contents sink.new) }
    ensures counts { (file : Failures)
        → Counts result file file (K.faults sink.old) (K.faults sink.new) }
{
    if lines.as_slice().len() > MOST_LINES {
        put(sink, Chan::Record, lines.as_slice())?;
        *lines = Text::new();
    }
    Ok(())
}

/// Whether a byte was sent that ends a line.
fn ends_line(sent: Option<u8>) -> bool
    ensures { result ≡ ends_line sent }
{
    matches!(sent, Some(b'\n'))
}

impl Held {
    ghost use Rattle.vax_machine.specs.Writing.{held_in, listed_by, sent_by};

    /// Nothing is held back, of a run that lists its evictions or doesn't.
    pub fn new(listed: bool) -> Held
        ensures nothing { held_in result ≡ nothing }
        ensures listed { result.listed ≡ listed }
        ensures waits { (steps : ℕ) → Waits steps result }
    {
        Held {
            bytes: ArrayVec::new(),
            lines: Text::new(),
            listed,
            due: 0,
        }
    }

    /// For how many steps more none of the bytes that are held is due: at least one.
    pub(crate) fn wait(&self, steps: u64) -> u64
        ensures some { 1 ≤ result }
        ensures early { steps < self.now.due → steps + result ≤ self.now.due }
    {
        if steps < self.due {
            self.due - steps
        } else {
            MOST_STEPS
        }
    }

    /// Writes the bytes that are held, at once or where they are due after so many steps. Others are due 1,000,000 steps later then.
    pub(crate) fn write_due<K: Sink>(
        &mut self,
        at_once: bool,
        steps: u64,
        sink: &mut K,
    ) -> Result<(), Fault>
        ensures passes { Passed result (held_in self.old) nothing (held_in self.new)
            (K.contents sink.old) (K.contents sink.new) }
        ensures due { OnOk result (WritesDue at_once steps self.old self.new) }
        ensures still { StillWrites self.old self.new (K.contents sink.old) (K.contents sink.new) }
        ensures counts { (file : Failures)
            → Counts result file file (K.faults sink.old) (K.faults sink.new) }
    {
        if !at_once && steps < self.due {
            return Ok(());
        }
        write_bytes(&mut self.bytes, sink)?;
        self.due = steps.saturating_add(MOST_STEPS);
        Ok(())
    }

    /// Holds a byte more for Out, if one was sent after so many steps. Those that are held are written behind an LF, where there is no room, and where
    /// they are due: so none is held behind an LF, nor 1,000,000 steps after it was sent.
    pub(crate) fn send<K: Sink>(
        &mut self,
        sent: Option<u8>,
        steps: u64,
        sink: &mut K,
    ) -> Result<(), Fault>
        ensures passes { Passed result (held_in self.old) (sent_by sent) (held_in self.new)
            (K.contents sink.old) (K.contents sink.new) }
        ensures delivers { (since : ℕ) → since ≤ steps → OnOk result (Delivers since steps self.old
            self.new (K.contents sink.old) (K.contents sink.new)) }
        ensures still { StillWrites self.old self.new (K.contents sink.old) (K.contents sink.new) }
        ensures counts { (file : Failures)
            → Counts result file file (K.faults sink.old) (K.faults sink.new) }
    {
        self.hold_sent(sent, sink)?;
        self.write_due(ends_line(sent), steps, sink)
    }

    /// Holds a byte more for Out, if one was sent, and writes those that are held first where there is no room.
    fn hold_sent<K: Sink>(&mut self, sent: Option<u8>, sink: &mut K) -> Result<(), Fault>
        ensures passes { Passed result (held_in self.old) (sent_by sent) (held_in self.new)
            (K.contents sink.old) (K.contents sink.new) }
        ensures due { self.new.due ≡ self.old.due }
        ensures still { StillWrites self.old self.new (K.contents sink.old) (K.contents sink.new) }
        ensures counts { (file : Failures)
            → Counts result file file (K.faults sink.old) (K.faults sink.new) }
    {
        match sent {
            None => Ok(()),
            Some(byte) => self.hold(byte, sink),
        }
    }

    /// Holds a byte more for Out.
    fn hold<K: Sink>(&mut self, byte: u8, sink: &mut K) -> Result<(), Fault>
        ensures passes { Passed result (held_in self.old) (sent_by (Some byte)) (held_in self.new)
            (K.contents sink.old) (K.contents sink.new) }
        ensures due { self.new.due ≡ self.old.due }
        ensures still { StillWrites self.old self.new (K.contents sink.old) (K.contents sink.new) }
        ensures counts { (file : Failures)
            → Counts result file file (K.faults sink.old) (K.faults sink.new) }
    {
        make_space(&mut self.bytes, sink)?;
        self.bytes.push(byte);
        Ok(())
    }

    /// Holds one line more for Record, of the page that was made absent before this attempt, if one was and evictions are listed. Those that are held
    /// are written first where there is no room.
    pub(crate) fn list<K: Sink>(
        &mut self,
        turn: u64,
        evicted: Option<u32>,
        sink: &mut K,
    ) -> Result<(), Fault>
        requires small { (page : ℕ) → evicted ≡ Some page → page < 2 ^ 23 }
        ensures passes { Passed result (held_in self.old)
            (listed_by self.old.listed turn evicted) (held_in self.new)
            (K.contents sink.old) (K.contents sink.new) }
        ensures due { self.new.due ≡ self.old.due }
        ensures still { StillWrites self.old self.new (K.contents sink.old) (K.contents sink.new) }
        ensures counts { (file : Failures)
            → Counts result file file (K.faults sink.old) (K.faults sink.new) }
    {
        match evicted {
            None => Ok(()),
            Some(page) => {
                if self.listed {
                    make_room(&mut self.lines, sink)?;
                    push_at(&mut self.lines, turn, page);
                }
                Ok(())
            }
        }
    }

    /// Writes the lines that are held, where evictions are listed.
    fn write_lines<K: Sink>(&self, sink: &mut K) -> Result<(), Fault>
        ensures puts { Puts result (only Record (if self.now.listed then self.now.lines else []))
            (K.contents sink.old) (K.contents sink.new) }
        ensures counts { (file : Failures)
            → Counts result file file (K.faults sink.old) (K.faults sink.new) }
    {
        if self.listed {
            put(sink, Chan::Record, self.lines.as_slice())
        } else {
            Ok(())
        }
    }

    /// Writes all that is held.
    pub(crate) fn write<K: Sink>(&self, sink: &mut K) -> Result<(), Fault>
        ensures puts { Puts result (held_in self.now) (K.contents sink.old) (K.contents sink.new) }
        ensures still { StillWrites self.now self.now (K.contents sink.old) (K.contents sink.new) }
        ensures counts { (file : Failures)
            → Counts result file file (K.faults sink.old) (K.faults sink.new) }
    {
        put(sink, Chan::Out, &self.bytes)?;
        self.write_lines(sink)
    }

    /// Writes all that is held back, where a run that went on has ended. After a failure a prefix of it was written.
    pub fn write_all<K: Sink>(&self, sink: &mut K) -> Result<(), Failed>
        ensures ok { OnOk result
            (Grew (K.contents sink.old) (K.contents sink.new) (held_in self.now)) }
        ensures prefix { OnErr result
            (GrewByPrefix (K.contents sink.old) (K.contents sink.new) (held_in self.now)) }
        ensures counts { CountsFailure (is_err result) (K.faults sink.old) (K.faults sink.new) }
    {
        match self.write(sink) {
            Ok(()) => Ok(()),
            Err(_) => Err(Failed),
        }
    }
}
