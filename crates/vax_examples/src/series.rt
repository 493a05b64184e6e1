//! Series of calls: one for each call of an object that fails, or for each length or byte of a file.
use crate::rows::{Left, call};
use crate::setup::{Change, Series, Setup};
use anyhow::Result;
use std::alloc::{AllocError, Global};
use std::io::Print;

/// Calls one behind the other that left the same.
#[derive(Drop)]
struct Group {
    first: usize,
    last: usize,
    text: String,
}

impl Group {
    fn show<R: Print>(&self, rt: &R) -> Result<()> {
        if self.first == self.last {
            println!(rt; "{}: {}", self.first, self.text)?;
        } else {
            println!(rt; "{} to {}: {}", self.first, self.last, self.text)?;
        }
        Ok(())
    }
}

/// How much there is of what the whole call wrote to a channel.
fn share(alloc: Global, channel: &str, part: &[u8], whole: &[u8]) -> Result<String, AllocError> {
    if whole.starts_with(part) {
        format!(in alloc; "{channel} {} of {}", part.len(), whole.len())
    } else {
        format!(in alloc; "{channel} differs")
    }
}

/// The first two lines of a report, or the only one.
fn heading(alloc: Global, report: &[u8]) -> Result<String> {
    let mut lines = str::from_utf8(report)?.lines();
    let first = lines.next().unwrap_or("no report");
    Ok(match lines.next() {
        Some(second) => format!(in alloc; "{first}, {second}")?,
        None => format!(in alloc; "{first}")?,
    })
}

/// What a call left, beside what it leaves whole.
fn beside(alloc: Global, left: &Left, whole: &Left) -> Result<String> {
    let heading = heading(alloc, left.report())?;
    let out = share(alloc, "Out", left.out(), whole.out())?;
    let record = share(alloc, "Record", left.record(), whole.record())?;
    Ok(format!(in alloc; "status {}, {heading}; {out}, {record}", left.status)?)
}

/// Adds a call to the last group, or begins another one.
fn add<R: Print>(rt: &R, group: &mut Option<Group>, number: usize, text: String) -> Result<()> {
    if let Some(last) = group {
        if last.text.as_str() == text.as_str() {
            last.last = number;
            return Ok(());
        }
        last.show(rt)?;
    }
    *group = Some(Group {
        first: number,
        last: number,
        text,
    });
    Ok(())
}

/// Makes the call once for each number, with what the number changes, until it leaves what the whole call does.
pub(crate) fn show_series<R: Print>(
    rt: &R,
    alloc: Global,
    setup: &mut Setup,
    line: &str,
    series: &Series,
) -> Result<()> {
    let whole = call(alloc, setup, line, None)?;
    let count = setup.count(series);
    let mut group = None;
    for number in series.first()..count {
        let left = call(alloc, setup, line, Some(Change { series, number }))?;
        let text = beside(alloc, &left, &whole)?;
        add(rt, &mut group, number, text)?;
        if series.ends() && left.status == whole.status {
            break;
        }
    }
    if let Some(last) = group {
        last.show(rt)?;
    }
    Ok(())
}
