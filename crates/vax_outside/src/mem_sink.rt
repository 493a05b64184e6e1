//! Output channels in memory.
ghost use Rattle.std.specs.Prelude.{◌≡◌, true, ◌-◌, ◌<◌, ◌≤◌, ◌++◌, [], length, take, min, is_err, vec_capacity, IfOk, OnErr, OnOk, Some};
ghost use Rattle.vax_outside.specs.Channels.{Grew, bytes_on, change_of, file_of, is_changed, kept, nothing, only, removed};
ghost use Rattle.vax_outside.specs.Faults.{CountsFailure, no_failures, raised};

use crate::fails::is_write_named;
use crate::faults::{Failures, raised};
use crate::{Chan, Fail, Failed, Sink, StateFile};
use std::alloc::Global;
use vax_space::NoMemory;

/// The bytes of one channel, and for how many there is room.
#[derive(Drop)]
struct Channel {
    bytes: Vec<u8>,
    room: usize,
    ghost reserved: { room ≤ vec_capacity bytes },
}

impl Channel {
    fn new(alloc: Global, room: u32) -> Result<Channel, NoMemory>
        ensures bytes { IfOk result (λ c. c.bytes.items ≡ []) }
        ensures room { IfOk result (λ c. c.room ≡ room) }
    {
        let bytes = Vec::with_capacity(alloc, room as usize)?;
        Ok(Channel {
            bytes,
            room: room as usize,
        })
    }

    /// Appends as many of the bytes as there is room for, at most `most`.
    fn append(&mut self, bytes: &[u8], most: u32) -> usize
        ensures count { result ≡ min (min most (length bytes.now))
            (self.old.room - length self.old.bytes.items) }
        ensures bytes { self.new.bytes.items ≡ self.old.bytes.items ++ take result bytes.now }
        ensures room { self.new.room ≡ self.old.room }
    {
        let left = self.room.saturating_sub(self.bytes.len());
        let count = bytes.len().min(most as usize).min(left);
        let front = bytes.split_at(count).0;
        self.bytes.extend_from_slice(front).unwrap();
        count
    }
}

/// Whether the state's file was changed.
fn is_changed(file: StateFile) -> bool
    ensures { result ≡ is_changed file }
{
    match file {
        StateFile::Untouched => false,
        StateFile::Removed | StateFile::Kept => true,
    }
}

/// Output channels in memory, which tell what was written.
#[derive(Drop)]
pub struct MemSink {
    out: Channel,
    report: Channel,
    recorded: Channel,
    state: Channel,
    file: StateFile,
    most: u32,
    fails: Vec<Fail>,
    calls: u64,
    faults: Failures,
    ghost some: { 1 ≤ most },
}

impl MemSink {
    ghost use Rattle.vax_outside.specs.MemSink.{change_fails, channels_of, limits_from, limits_of, calls_of, faults_of, next_named, taken};

    /// Empty channels with room for so many bytes of Out, of Report, and of Record and State each. A write takes at
    /// most `most` bytes. It fails exactly if `fails` names it or its channel's room is used up. The state's file is
    /// changed once: another change fails, and so does a write to State after it.
    pub fn new(
        alloc: Global,
        room: [u32; 3],
        most: u32,
        fails: Vec<Fail>,
    ) -> Result<MemSink, NoMemory>
        requires { 1 ≤ most }
        ensures empty { IfOk result (λ m. channels_of m ≡ nothing) }
        ensures limits { IfOk result (λ m. limits_of m ≡ limits_from room most fails.items) }
        ensures calls { IfOk result (λ m. calls_of m ≡ 0) }
        ensures faults { IfOk result (λ m. faults_of m ≡ no_failures) }
    {
        let out = Channel::new(alloc, room[0])?;
        let report = Channel::new(alloc, room[1])?;
        let recorded = Channel::new(alloc, room[2])?;
        let state = Channel::new(alloc, room[2])?;
        Ok(MemSink {
            out,
            report,
            recorded,
            state,
            file: StateFile::Untouched,
            most,
            fails,
            calls: 0,
            faults: Failures::none(),
        })
    }

    /// What was written to a channel.
    #[tactic(auto, using(crate::proofs::Saving::read_bytes))]
    pub fn bytes(&self, chan: Chan) -> &[u8]
        ensures { result.now ≡ bytes_on (channels_of self.now) chan }
    {
        match chan {
            Chan::Out => &self.out.bytes,
            Chan::Report => &self.report.bytes,
            Chan::Record => &self.recorded.bytes,
            Chan::State => &self.state.bytes,
        }
    }

    /// What became of the state's file.
    #[tactic(auto, using(crate::proofs::Saving::read_file))]
    pub fn state_file(&self) -> StateFile
        ensures { result ≡ file_of (channels_of self.now).saved }
    {
        self.file
    }

    /// Counts a call, and answers whether `fails` names it.
    fn is_named(&mut self) -> bool
        ensures named { result ≡ next_named self.old }
        ensures calls { calls_of self.new ≡ raised (calls_of self.old) }
        ensures channels { channels_of self.new ≡ channels_of self.old }
        ensures limits { limits_of self.new ≡ limits_of self.old }
        ensures faults { faults_of self.new ≡ faults_of self.old }
    {
        self.calls = raised(self.calls);
        is_write_named(&self.fails, self.calls, self.calls)
    }

    /// A call that changes the state's file.
    #[tactic(auto, using(crate::proofs::Saving::read_file))]
    fn change(&mut self, file: StateFile) -> Result<(), Failed>
        requires { is_changed file ≡ true }
        ensures failed { is_err result ≡ change_fails self.old }
        ensures ok { OnOk result (Grew (Some (channels_of self.old)) (Some (channels_of self.new))
            (record nothing { saved = change_of file })) }
        ensures err { OnErr result (channels_of self.new ≡ channels_of self.old) }
        ensures counts { CountsFailure (is_err result) (faults_of self.old) (faults_of self.new) }
        ensures last { (faults_of self.new).last ≡ is_err result }
        ensures limits { limits_of self.new ≡ limits_of self.old }
        ensures calls { calls_of self.new ≡ raised (calls_of self.old) }
    {
        let failed = self.is_named() || is_changed(self.file);
        self.faults.note(failed);
        if failed {
            return Err(Failed);
        }
        self.file = file;
        Ok(())
    }

    #[tactic(auto, using(crate::proofs::Saving::read_bytes, crate::proofs::Saving::read_file))]
    fn append(&mut self, chan: Chan, bytes: &[u8]) -> usize
        ensures count { result ≡ taken self.old chan (length bytes.now) }
        ensures bytes { Grew (Some (channels_of self.old)) (Some (channels_of self.new))
            (only chan (take result bytes.now)) }
        ensures limits { limits_of self.new ≡ limits_of self.old }
        ensures calls { calls_of self.new ≡ calls_of self.old }
        ensures faults { faults_of self.new ≡ faults_of self.old }
    {
        match chan {
            Chan::Out => self.out.append(bytes, self.most),
            Chan::Report => self.report.append(bytes, self.most),
            Chan::Record => self.recorded.append(bytes, self.most),
            Chan::State if is_changed(self.file) => 0,
            Chan::State => self.state.append(bytes, self.most),
        }
    }
}

impl Sink for MemSink {
    ghost use Rattle.vax_outside.specs.MemSink.{channels_of, limits_of, calls_of, faults_of, taken, next_fails, change_fails};

    ghost contents = { λ m. Some (channels_of m) };

    ghost faults = { λ m. faults_of m };

    fn write(&mut self, chan: Chan, bytes: &[u8]) -> Result<usize, Failed>
        requires { 0 < length bytes.now }
        ensures some { IfOk result (λ n. 1 ≤ n) }
        ensures bound { IfOk result (λ n. n ≤ length bytes.now) }
        ensures ok { IfOk result (λ n. Grew (Some (channels_of self.old))
            (Some (channels_of self.new)) (only chan (take n bytes.now))) }
        ensures err { OnErr result (Some (channels_of self.new) ≡ Some (channels_of self.old)) }
        ensures counts { CountsFailure (is_err result) (faults_of self.old) (faults_of self.new) }
        ensures last { (faults_of self.new).last ≡ is_err result }
        ensures failed { is_err result ≡ next_fails self.old chan }
        ensures count { IfOk result (λ n. n ≡ taken self.old chan (length bytes.now)) }
        ensures limits { limits_of self.new ≡ limits_of self.old }
        ensures calls { calls_of self.new ≡ raised (calls_of self.old) }
    {
        if self.is_named() {
            self.faults.note(true);
            return Err(Failed);
        }
        let count = self.append(chan, bytes);
        if count == 0 {
            self.faults.note(true);
            return Err(Failed);
        }
        self.faults.note(false);
        Ok(count)
    }

    fn keep_state(&mut self) -> Result<(), Failed>
        ensures ok { OnOk result (Grew (Some (channels_of self.old))
            (Some (channels_of self.new)) kept) }
        ensures err { OnErr result (Some (channels_of self.new) ≡ Some (channels_of self.old)) }
        ensures counts { CountsFailure (is_err result) (faults_of self.old) (faults_of self.new) }
        ensures last { (faults_of self.new).last ≡ is_err result }
        ensures failed { is_err result ≡ change_fails self.old }
        ensures limits { limits_of self.new ≡ limits_of self.old }
        ensures calls { calls_of self.new ≡ raised (calls_of self.old) }
    {
        self.change(StateFile::Kept)
    }

    fn remove_state(&mut self) -> Result<(), Failed>
        ensures ok { OnOk result (Grew (Some (channels_of self.old))
            (Some (channels_of self.new)) removed) }
        ensures err { OnErr result (Some (channels_of self.new) ≡ Some (channels_of self.old)) }
        ensures counts { CountsFailure (is_err result) (faults_of self.old) (faults_of self.new) }
        ensures last { (faults_of self.new).last ≡ is_err result }
        ensures failed { is_err result ≡ change_fails self.old }
        ensures limits { limits_of self.new ≡ limits_of self.old }
        ensures calls { calls_of self.new ≡ raised (calls_of self.old) }
    {
        self.change(StateFile::Removed)
    }
}
