//! The command line, as `clap` builds and reads it.
use crate::option_texts::option_text;
use crate::summaries::summary_of;
use crate::table::{Key, VERBS, Verb};
use clap::{Arg, ArgAction, ArgMatches, Command, Error};
use std::alloc::{AllocError, Global};

/// The names of files in what `clap` finds.
pub(crate) const FILES: &str = "FILE";

/// `--help`, without clap's short form, which isn't among the plain words.
fn help<'a>(alloc: Global) -> Arg<'a> {
    Arg::new(alloc, "help")
        .long("help")
        .action(ArgAction::Help)
        .help("Print help")
}

/// An option with its value.
fn option<'a>(alloc: Global, key: Key) -> Arg<'a> {
    let name: &'a str = key.name();
    let long = name.strip_prefix("--").unwrap_or(name);
    let text = option_text(key);
    let action = if key.may_repeat() {
        ArgAction::Append
    } else {
        ArgAction::Set
    };
    Arg::new(alloc, name)
        .action(action)
        .long(long)
        .value_name(text.value)
        .required(matches!(key, Key::Script | Key::Opcode | Key::Count))
        .help(text.about)
}

/// What help says of a command's files.
fn files_help<'a>(verb: Verb) -> &'a str {
    match verb {
        Verb::Listing => "1 to 8 sources, which are linked in this order",
        Verb::Resume => "The file of a saved state",
        Verb::Jobs => "1 to 8 programs, each a source or an image",
        _ => "1 to 8 sources, which are linked in this order, or one image",
    }
}

/// The files of a command: one, or up to eight.
fn files<'a>(alloc: Global, verb: Verb) -> Arg<'a> {
    let files = Arg::new(alloc, FILES).required(true).help(files_help(verb));
    match verb {
        Verb::Resume => files.action(ArgAction::Set),
        _ => files.num_args(1..=8).action(ArgAction::Append),
    }
}

/// A command with its files and options.
fn command<'a>(alloc: Global, verb: Verb) -> Result<Command<'a>, AllocError> {
    let name: &'a str = verb.name();
    let summary = summary_of(verb);
    let mut command = Command::new(alloc, name)
        .bin_name(summary.name)?
        .about(summary.about)
        .after_help(summary.example)
        .disable_help_flag(true)
        .arg(help(alloc))?;
    for key in verb.keys() {
        command = command.arg(option(alloc, *key))?;
    }
    if verb.takes_files(1) {
        command = command.arg(files(alloc, verb))?;
    }
    Ok(command)
}

/// The whole command line.
fn command_line<'a>(alloc: Global) -> Result<Command<'a>, AllocError> {
    let version = Arg::new(alloc, "version")
        .long("version")
        .action(ArgAction::Version)
        .help("Print version");
    let mut line = Command::new(alloc, "vax")
        .version("0.1.0")
        .bin_name("vax")?
        .about("An emulator of a VAX-11, with its assembler, linker, disassembler and console")
        .after_help(
            "Example: run a source, then ask what else `vax run` takes\n  \
                vax run HELLO.MAR\n  vax run --help\n\n\
                Sources: docs/ASSEMBLER.md\n\
                Reports, exit statuses and kinds of faults: docs/MESSAGES.md",
        )
        .no_binary_name(true)
        .subcommand_required(true)
        .disable_help_subcommand(true)
        .disable_help_flag(true)
        .disable_version_flag(true)
        .arg(help(alloc))?
        .arg(version)?;
    for verb in VERBS {
        line = line.subcommand(command(alloc, verb)?)?;
    }
    Ok(line)
}

/// What `clap` makes of the words.
pub(crate) fn read<'a>(alloc: Global, words: &'a [String]) -> Result<ArgMatches<'a>, Error> {
    command_line(alloc)?.try_get_matches_from(words)
}
