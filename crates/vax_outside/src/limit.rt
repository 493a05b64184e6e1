//! The size that the system lets a file have. A write at that size or after it would end the process by a signal, so
//! the place of a write is looked at before.
use std::io::{ErrorKind, Read};
use std::{fs, rt, str};

/// The system's text of what the process may use.
const LIMITS_NAME: &str = "/proc/self/limits";

/// The bit of an open file's flags that has each write go to the file's end.
const APPEND: u64 = 0o2000;

/// How often a read is tried that a signal interrupts.
const TRIES: u32 = 16;

/// A standard stream that is written to.
#[derive(Clone, Copy, PartialEq, Eq)]
pub(crate) enum Stream {
    Out,
    Report,
}

impl Stream {
    /// What the stream is open on.
    fn file_name(self) -> &'static str {
        match self {
            Stream::Out => "/proc/self/fd/1",
            Stream::Report => "/proc/self/fd/2",
        }
    }

    /// The system's text of the open stream.
    fn info_name(self) -> &'static str {
        match self {
            Stream::Out => "/proc/self/fdinfo/1",
            Stream::Report => "/proc/self/fdinfo/2",
        }
    }
}

/// How many bytes a file may have, if the system sets a limit.
pub(crate) fn size_limit<R: rt::Files>(rt: &R) -> Option<u64> {
    let mut buffer = [0; 4096];
    word_after(read_text(rt, LIMITS_NAME, &mut buffer)?, "Max file size")?
        .parse()
        .ok()
}

/// Whether the limit lets no byte be written at this place.
pub(crate) fn is_beyond(place: u64, limit: Option<u64>) -> bool {
    limit.is_some_and(|limit| limit <= place)
}

/// Whether the limit lets no byte be written to this stream, which is a file then.
pub(crate) fn is_stream_full<R: rt::Files>(rt: &R, stream: Stream, limit: Option<u64>) -> bool {
    limit.is_some() && next_place(rt, stream).is_some_and(|place| is_beyond(place, limit))
}

/// Where the next byte of a stream goes, if the stream is a file.
fn next_place<R: rt::Files>(rt: &R, stream: Stream) -> Option<u64> {
    let file = fs::metadata(rt, stream.file_name()).ok()?;
    if !file.is_file() {
        return None;
    }
    let mut buffer = [0; 4096];
    let text = read_text(rt, stream.info_name(), &mut buffer)?;
    let flags = u64::from_str_radix(word_after(text, "flags:")?, 8).ok()?;
    if flags & APPEND != 0 {
        return Some(file.len());
    }
    word_after(text, "pos:")?.parse().ok()
}

/// The first word after this label in its line.
fn word_after<'a>(text: &'a str, label: &str) -> Option<&'a str> {
    for line in text.lines() {
        if let Some(rest) = line.strip_prefix(label) {
            return rest.split_whitespace().next();
        }
    }
    None
}

/// The start of a short text of the system.
fn read_text<'a, R: rt::Files>(rt: &R, name: &str, buffer: &'a mut [u8; 4096]) -> Option<&'a str> {
    let mut file = fs::open(rt, name).ok()?;
    for _ in 0..TRIES {
        match file.read(buffer) {
            Ok(count) => return str::from_utf8(&buffer[..count]).ok(),
            Err(e) if e.kind() == ErrorKind::Interrupted => {}
            Err(_) => return None,
        }
    }
    None
}
