//! Lines of a stream of the system. They tell no content, and count what fails.
//!
//! Nothing says that the system does what it is asked: this is the trusted edge.
ghost use Rattle.std.specs.Prelude.{◌≡◌, None, false};

use crate::line::Line;
use crate::traits::Lines;
use arrayvec::ArrayVec;
use std::io::{ErrorKind, Read};
use vax_outside::Failed;

/// The most bytes that are asked for at once.
const MOST: usize = 512;

/// The lines of a stream. A call reads on only where no whole line has come yet, and a read gives what is there.
#[derive(Drop)]
pub struct HostLines<R> {
    input: R,
    kept: [u8; 512],
    from: usize,
    end: usize,
    failed: u64,
    last: bool,
}

impl<R: Read + Drop> HostLines<R> {
    /// The lines of this stream.
    pub fn new(input: R) -> HostLines<R>
        ensures count { result.failed ≡ 0 }
        ensures last { result.last ≡ false }
    {
        HostLines {
            input,
            kept: [0; MOST],
            from: 0,
            end: 0,
            failed: 0,
            last: false,
        }
    }

    /// Reads on, behind the last byte that is kept.
    fn fill(&mut self) -> Result<(), Failed>
        ensures { self.new.failed ≡ self.old.failed }
    {
        for _ in 0..u64::MAX {
            match self.input.read(&mut self.kept) {
                Ok(count) => {
                    self.from = 0;
                    self.end = count;
                    return Ok(());
                }
                Err(e) if e.kind() == ErrorKind::Interrupted => {}
                Err(_) => return Err(Failed),
            }
        }
        Err(Failed)
    }

    /// The next byte; None at the end.
    fn next_byte(&mut self) -> Result<Option<u8>, Failed>
        ensures { self.new.failed ≡ self.old.failed }
    {
        if self.end <= self.from {
            self.fill()?;
        }
        if self.end <= self.from {
            return Ok(None);
        }
        match self.kept.get(self.from).copied() {
            Some(byte) => {
                self.from += 1;
                Ok(Some(byte))
            }
            None => Err(Failed),
        }
    }

    /// The next line, at most its first 1,025 bytes; None at the end.
    fn next_line(&mut self) -> Result<Option<ArrayVec<u8, 1025>>, Failed>
        ensures { self.new.failed ≡ self.old.failed }
    {
        let mut bytes = ArrayVec::new();
        // Whether the last byte is a CR that was kept.
        let mut is_return = false;
        for _ in 0..u64::MAX {
            match self.next_byte()? {
                None if bytes.is_empty() => return Ok(None),
                None => return Ok(Some(bytes)),
                Some(b'\n') => {
                    if is_return {
                        bytes.pop();
                    }
                    return Ok(Some(bytes));
                }
                Some(byte) => is_return = bytes.try_push(byte).is_ok() && byte == b'\r',
            }
        }
        Err(Failed)
    }
}

impl<R: Read + Drop> Lines for HostLines<R> {
    ghost rest = { λ _. None };

    ghost faults = { λ l. record { count = l.failed; last = l.last } };

    fn read_line(&mut self, line: &mut Line) -> Result<bool, Failed> {
        match self.next_line() {
            Ok(Some(bytes)) => {
                line.hold(&bytes);
                self.last = false;
                Ok(true)
            }
            Ok(None) => {
                self.last = false;
                Ok(false)
            }
            Err(Failed) => {
                self.failed = self.failed.saturating_add(1);
                self.last = true;
                Err(Failed)
            }
        }
    }
}
