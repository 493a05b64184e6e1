//! Runs each example over the system's files, and then each row of the files in `rows` over objects in memory, and shows what each leaves.
#![tactic(auto)]

mod pages;
mod rows;
mod series;
mod setup;

use crate::rows::show_rows;
use std::alloc::{AllocError, Global};
use std::fs;
use vax_input::HostLines;
use vax_outside::{HostFiles, HostPages, HostSink};
use vax_top::vax_main;

/// The calls that show the examples, a line each, in the order in which they are to be read.
const CALLS: &str = "calls.txt";

/// The files of rows.
const ROWS: [&str; 15] = [
    "rows/pages.txt",
    "rows/instructions.txt",
    "rows/modes.txt",
    "rows/strings.txt",
    "rows/assembly.txt",
    "rows/linking.txt",
    "rows/images.txt",
    "rows/executive.txt",
    "rows/console.txt",
    "rows/debug.txt",
    "rows/traces.txt",
    "rows/jobs.txt",
    "rows/check.txt",
    "rows/refusals.txt",
    "rows/failures.txt",
];

/// The words of a line behind the program's name, as the program is given them. A word `''` is the empty one.
fn words_of(alloc: Global, line: &str) -> Result<Vec<String>, AllocError> {
    let mut all = Vec::new(alloc);
    for word in line.split(' ').skip(1) {
        let word = if word == "''" { "" } else { word };
        all.push(String::from_str(alloc, word)?)?;
    }
    Ok(all)
}

/// Makes the call of a line over the system's files, with all that it writes on standard output.
fn show(rt: HostRuntime, line: &str) -> anyhow::Result<()> {
    println!(rt; "$ {line}")?;
    let words = words_of(rt.alloc(), line)?;
    let mut files = HostFiles::new(rt);
    let mut lines = HostLines::new(rt.stdin());
    let mut sink = HostSink::new(rt.stdout(), rt.stdout(), rt);
    let mut pages = HostPages::new(rt);
    let status = vax_main(
        rt.alloc(),
        words.as_slice(),
        &mut files,
        &mut lines,
        &mut sink,
        &mut pages,
    );
    println!(rt; "status {}\n", status.code())?;
    Ok(())
}

fn main(rt: HostRuntime) -> anyhow::Result<()> {
    let calls = fs::read_to_string(&rt, CALLS)?;
    for line in calls.lines() {
        show(rt, line)?;
    }
    for name in ROWS {
        let text = fs::read_to_string(&rt, name)?;
        show_rows(&rt, rt.alloc(), text.as_str())?;
    }
    Ok(())
}
