//! Files of rows: calls of the program over objects in memory.
//!
//! `file NAME` and `bytes NAME` begin a file, whose text or bytes stand in the lines behind it, four blanks further in; it stays until the name
//! is given another one. `cut` takes the last end of line off it, and `blanks N` appends N blanks. `fail OBJECT read N` or `fail OBJECT write N` lets the
//! Nth such call of `files`, `channels` or `pages` fail, and `any blocks` leaves the writes of blocks uncounted, both in the next call alone.
//! `adds N` lets the page file add N to the first byte of each block that it gives in the next call, and
//! `bites N` lets the channels take N bytes at a time in the next call, in place of 7. `types NAME` lets the lines of a file come from standard input in the next
//! call. `$ vax WORDS` makes the call.
//!
//! `series fail OBJECT N` makes the next call with the first, the second, .. and the Nth call of the object failing, until the failure is met no more;
//! `series cut NAME` with the file cut to each of its lengths, and `series turn NAME` with each of its bytes changed to 255 less its value. What these calls
//! leave is shown beside what the call leaves as it is: the first two lines of the report, and how much there is of Out and Record. Lines that begin with `#`, and empty ones, are shown as they are.
use crate::pages::Pages;
use crate::series::show_series;
use crate::setup::{Change, Form, Setup};
use crate::words_of;
use anyhow::{Context, Result, bail};
use std::alloc::Global;
use std::io::Print;
use vax_input::MemLines;
use vax_outside::{Chan, MemSink, StateFile};
use vax_top::vax_main;

/// Shows what a channel was written: a text as it is, and few bytes, or their number.
fn show_channel<R: Print>(rt: &R, bytes: &[u8]) -> Result<()> {
    if bytes
        .iter()
        .all(|byte| matches!(byte, b'\t' | b'\n' | b' '..=b'~'))
    {
        let text = str::from_utf8(bytes)?;
        rt.print(text)?;
        if !text.is_empty() && !text.ends_with('\n') {
            rt.println("")?;
        }
    } else if bytes.len() <= 64 {
        for line in bytes.chunks(16) {
            for byte in line {
                print!(rt; " {byte:02X}")?;
            }
            rt.println("")?;
        }
    } else {
        println!(rt; "{} bytes", bytes.len())?;
    }
    Ok(())
}

/// What a call left.
#[derive(Drop)]
pub(crate) struct Left {
    pub(crate) status: u8,
    sink: MemSink,
    pages: Pages,
}

impl Left {
    pub(crate) fn out(&self) -> &[u8] {
        self.sink.bytes(Chan::Out)
    }

    pub(crate) fn report(&self) -> &[u8] {
        self.sink.bytes(Chan::Report)
    }

    pub(crate) fn record(&self) -> &[u8] {
        self.sink.bytes(Chan::Record)
    }
}

/// Shows what became of a saved state, if a call has written one or removed one.
fn show_state<R: Print>(rt: &R, sink: &MemSink) -> Result<()> {
    let bytes = sink.bytes(Chan::State);
    match sink.state_file() {
        StateFile::Kept => rt.println("state:")?,
        StateFile::Removed => rt.println("an older state is removed")?,
        StateFile::Untouched if bytes.is_empty() => {}
        StateFile::Untouched => rt.println("a part of a state, not kept:")?,
    }
    if bytes.is_empty() {
        return Ok(());
    }
    show_channel(rt, bytes)
}

/// Shows what a call left: Out and Report, Record where there is one, a saved state, how many blocks were written where these are counted, and its exit status.
fn show_left<R: Print>(rt: &R, left: &Left, is_counted: bool) -> Result<()> {
    show_channel(rt, left.out())?;
    show_channel(rt, left.report())?;
    if !left.record().is_empty() {
        rt.println("record:")?;
        show_channel(rt, left.record())?;
    }
    show_state(rt, &left.sink)?;
    let count = left.pages.blocks.writes().len();
    if is_counted && count > 0 {
        println!(rt; "blocks written: {count}")?;
    }
    println!(rt; "status {}", left.status)?;
    Ok(())
}

/// Makes a call, with a change if one is given.
pub(crate) fn call(
    alloc: Global,
    setup: &Setup,
    line: &str,
    change: Option<Change>,
) -> Result<Left> {
    let (mut files, mut sink, mut pages) = setup.objects(change)?;
    let words = words_of(alloc, line)?;
    let mut lines = MemLines::new(setup.typed());
    let status = vax_main(
        alloc,
        words.as_slice(),
        &mut files,
        &mut lines,
        &mut sink,
        &mut pages,
    );
    Ok(Left {
        status: status.code(),
        sink,
        pages,
    })
}

/// Makes a call, and shows what it left; then those of a series, where one was said. What was said of the call alone is taken back.
fn show_all<R: Print>(rt: &R, alloc: Global, setup: &mut Setup, line: &str) -> Result<()> {
    let left = call(alloc, setup, line, None)?;
    show_left(rt, &left, !setup.has_any_blocks)?;
    if let Some(series) = setup.series.take() {
        show_series(rt, alloc, setup, line, &series)?;
    }
    setup.take_back();
    Ok(())
}

/// Carries out a line that sets something up, and answers how the lines behind it give bytes.
fn prepare(setup: &mut Setup, line: &str) -> Result<Form> {
    if let Some(name) = line.strip_prefix("file ") {
        setup.begin(name)?;
    } else if let Some(name) = line.strip_prefix("bytes ") {
        setup.begin(name)?;
        return Ok(Form::Hexadecimal);
    } else if let Some(count) = line.strip_prefix("blanks ") {
        setup.append_blanks(count)?;
    } else if let Some(said) = line.strip_prefix("fail ") {
        setup.fail(said)?;
    } else if let Some(count) = line.strip_prefix("bites ") {
        setup.bites = count.parse::<u32>().context("no count")?;
    } else if let Some(number) = line.strip_prefix("adds ") {
        setup.added = number.parse::<u8>().context("no number")?;
    } else if let Some(name) = line.strip_prefix("types ") {
        setup.types(name)?;
    } else if let Some(said) = line.strip_prefix("series ") {
        setup.begin_series(said)?;
    } else if line == "cut" {
        setup.cut();
    } else if line == "any blocks" {
        setup.has_any_blocks = true;
    } else {
        bail!("a line of rows that has no meaning");
    }
    Ok(Form::Text)
}

/// Carries out the lines of a file of rows in their order.
pub(crate) fn show_rows<R: Print>(rt: &R, alloc: Global, text: &str) -> Result<()> {
    let mut setup = Setup::new(alloc);
    let mut form = Form::Text;
    for line in text.lines() {
        if let Some(said) = line.strip_prefix("    ") {
            setup.go_on(form, said)?;
        } else if let Some(words) = line.strip_prefix("$ ") {
            rt.println(line)?;
            show_all(rt, alloc, &mut setup, words)?;
        } else if line.is_empty() || line.starts_with('#') {
            rt.println(line)?;
        } else {
            form = prepare(&mut setup, line)?;
        }
    }
    rt.println("")?;
    Ok(())
}
