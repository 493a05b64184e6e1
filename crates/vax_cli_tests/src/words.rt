//! Words that are plain, and words that aren't.
use std::test::Fail;
use vax_cli::{
    Asked, Base, Command, DumpItem, Dumps, Format, JobsOptions, Macros, Names, Options, Strictness,
    Target, WordsError, about, command_of,
};
use vax_dialect::Dialect;

/// The words of a line, between single blanks; an empty line has none.
fn words(rt: &HostRuntime, line: &str) -> Result<Vec<String>, Fail> {
    let mut made = Vec::new(rt.alloc());
    if !line.is_empty() {
        for word in line.split(' ') {
            made.push(String::from_str(rt.alloc(), word)?)?;
        }
    }
    Ok(made)
}

fn names<'a>(all: &[&'a str]) -> Names<'a> {
    let mut names = Names::new();
    for name in all {
        let _ = names.try_push(*name);
    }
    names
}

/// A command whose sources have nothing before them.
fn alone<'a>(command: Command<'a>) -> Asked<'a> {
    Asked {
        command,
        macros: Macros::new(),
    }
}

fn dumps(all: &[DumpItem]) -> Dumps {
    let mut dumps = Dumps::new();
    for item in all {
        let _ = dumps.try_push(*item);
    }
    dumps
}

/// Sources of the smaller dialect, for this base.
fn target(base: Base) -> Target {
    Target {
        dialect: Dialect::Vax,
        base,
    }
}

/// What is asked for where no word says it.
fn usual<'a>() -> Options<'a> {
    Options {
        dialect: Dialect::Vax,
        input: None,
        system: None,
        schedule: None,
        frames: 256,
        steps: 10_000_000,
        turns: 1_000_000_000_000,
        dumps: Dumps::new(),
        recorded: false,
        strict: Strictness::Off,
    }
}

/// The same for sources of the larger dialect.
fn larger<'a>() -> Options<'a> {
    Options {
        dialect: Dialect::Vms,
        ..usual()
    }
}

/// Plain words of `bare` that give one file, with the options that they ask for; clap reads them all.
#[test]
fn reads_options(rt: HostRuntime) -> Result<(), Fail> {
    let rows: [(&str, Options); 9] = [
        ("bare A", usual()),
        (
            "bare --input=B A --schedule S=T",
            Options {
                input: Some("B"),
                schedule: Some("S=T"),
                ..usual()
            },
        ),
        (
            "bare --steps=0 --frames 64 A --turns=1",
            Options {
                frames: 64,
                steps: 0,
                turns: 1,
                ..usual()
            },
        ),
        (
            "bare A --steps 1000000000000000 --turns 1000000000000000 --frames=32768",
            Options {
                frames: 32_768,
                steps: 1_000_000_000_000_000,
                turns: 1_000_000_000_000_000,
                ..usual()
            },
        ),
        (
            "bare --record on A",
            Options {
                recorded: true,
                ..usual()
            },
        ),
        ("bare --record=off A", usual()),
        (
            "bare A --strict on",
            Options {
                strict: Strictness::Halt,
                ..usual()
            },
        ),
        ("bare A --strict=off", usual()),
        (
            "bare A --dump 80000200:16,7fFFfe00:4096",
            Options {
                dumps: dumps(&[
                    DumpItem {
                        address: 0x8000_0200,
                        count: 16,
                    },
                    DumpItem {
                        address: 0x7FFF_FE00,
                        count: 4_096,
                    },
                ]),
                ..usual()
            },
        ),
    ];
    for (row, options) in rows {
        let all = words(&rt, row)?;
        let bare = Command::Bare {
            files: names(&["A"]),
            options,
        };
        assert!(rt;
            command_of(rt.alloc(), all.as_slice()) == Ok(alone(bare)),
            "{row}"
        );
    }
    Ok(())
}

/// The files of macros of each command that joins sources, in their order; clap reads them all.
#[test]
fn macros_stand_before_each_source(rt: HostRuntime) -> Result<(), Fail> {
    let rows: &[(&str, &[&str])] = &[
        ("run A --macros M.MAR", &["M.MAR"]),
        ("bare --macros=M A --macros N", &["M", "N"]),
        (
            "build --macros 1 A --macros 2 B --macros 3 --macros 4",
            &["1", "2", "3", "4"],
        ),
        ("list A --macros M --macros M", &["M", "M"]),
        ("check A --macros M", &["M"]),
        ("console A --script S --macros M", &["M"]),
        ("debug A --macros M", &["M"]),
        ("trace A --macros M", &["M"]),
        ("save A --macros M", &["M"]),
        ("jobs A --macros M", &["M"]),
    ];
    for (row, macros) in rows {
        let all = words(&rt, row)?;
        let Ok(asked) = command_of(rt.alloc(), all.as_slice()) else {
            panic!(rt; "{row}");
        };
        assert!(rt; asked.macros.as_slice() == *macros, "{row}");
    }
    Ok(())
}

/// The dialect of each command that reads sources; clap reads them all.
#[test]
fn reads_dialects(rt: HostRuntime) -> Result<(), Fail> {
    let vms = Target {
        dialect: Dialect::Vms,
        base: Base::User,
    };
    let rows: [(&str, Command); 7] = [
        (
            "run A --dialect vms",
            Command::Run {
                files: names(&["A"]),
                options: larger(),
            },
        ),
        (
            "bare --dialect=vax A",
            Command::Bare {
                files: names(&["A"]),
                options: usual(),
            },
        ),
        (
            "listing --dialect vms A",
            Command::Listing {
                files: names(&["A"]),
                target: vms,
            },
        ),
        (
            "check A --dialect=vms",
            Command::Check {
                files: names(&["A"]),
                target: vms,
                system: None,
            },
        ),
        (
            "console A --script L --dialect vms",
            Command::Console {
                files: names(&["A"]),
                base: Base::User,
                script: "L",
                options: larger(),
            },
        ),
        (
            "debug A --dialect=vms",
            Command::Debug {
                files: names(&["A"]),
                base: Base::User,
                prompt: false,
                options: larger(),
            },
        ),
        (
            "jobs A --dialect vms",
            Command::Jobs {
                files: names(&["A"]),
                options: JobsOptions {
                    dialect: Dialect::Vms,
                    order: None,
                    pool: 1_024,
                    steps: 10_000_000,
                    turns: 1_000_000_000_000,
                    input: None,
                },
            },
        ),
    ];
    for (row, command) in rows {
        let all = words(&rt, row)?;
        assert!(rt;
            command_of(rt.alloc(), all.as_slice()) == Ok(alone(command)),
            "{row}"
        );
    }
    Ok(())
}

/// Plain words of each command; clap reads them all.
#[test]
fn reads_commands(rt: HostRuntime) -> Result<(), Fail> {
    let rows: [(&str, Command); 18] = [
        (
            "run A B C D E F G H",
            Command::Run {
                files: names(&["A", "B", "C", "D", "E", "F", "G", "H"]),
                options: usual(),
            },
        ),
        (
            "run B --system S A",
            Command::Run {
                files: names(&["B", "A"]),
                options: Options {
                    system: Some("S"),
                    ..usual()
                },
            },
        ),
        (
            "build A",
            Command::Build {
                files: names(&["A"]),
                target: target(Base::User),
                format: Format::First,
            },
        ),
        (
            "build --format=2 A --base bare",
            Command::Build {
                files: names(&["A"]),
                target: target(Base::Bare),
                format: Format::Second,
            },
        ),
        (
            "list --base user A",
            Command::List {
                files: names(&["A"]),
                target: target(Base::User),
            },
        ),
        (
            "listing A B --base=bare",
            Command::Listing {
                files: names(&["A", "B"]),
                target: target(Base::Bare),
            },
        ),
        (
            "check A B --base bare",
            Command::Check {
                files: names(&["A", "B"]),
                target: target(Base::Bare),
                system: None,
            },
        ),
        (
            "check A --system=S",
            Command::Check {
                files: names(&["A"]),
                target: target(Base::User),
                system: Some("S"),
            },
        ),
        (
            "console A --script L --system=S",
            Command::Console {
                files: names(&["A"]),
                base: Base::User,
                script: "L",
                options: Options {
                    system: Some("S"),
                    ..usual()
                },
            },
        ),
        (
            "console --base=bare --script=L A --input I",
            Command::Console {
                files: names(&["A"]),
                base: Base::Bare,
                script: "L",
                options: Options {
                    input: Some("I"),
                    ..usual()
                },
            },
        ),
        (
            "debug A",
            Command::Debug {
                files: names(&["A"]),
                base: Base::User,
                prompt: false,
                options: usual(),
            },
        ),
        (
            "debug --prompt on B --base=bare A",
            Command::Debug {
                files: names(&["B", "A"]),
                base: Base::Bare,
                prompt: true,
                options: usual(),
            },
        ),
        (
            "debug A --system S --prompt=off --turns 9",
            Command::Debug {
                files: names(&["A"]),
                base: Base::User,
                prompt: false,
                options: Options {
                    system: Some("S"),
                    turns: 9,
                    ..usual()
                },
            },
        ),
        (
            "work",
            Command::Work {
                seed: 1,
                size: 100,
                options: usual(),
            },
        ),
        (
            "work --seed 4294967295 --size=5000",
            Command::Work {
                seed: 4_294_967_295,
                size: 5_000,
                options: usual(),
            },
        ),
        (
            "work --size 1 --seed=0 --record on",
            Command::Work {
                seed: 0,
                size: 1,
                options: Options {
                    recorded: true,
                    ..usual()
                },
            },
        ),
        (
            "work --strict on",
            Command::Work {
                seed: 1,
                size: 100,
                options: Options {
                    strict: Strictness::Halt,
                    ..usual()
                },
            },
        ),
        ("work --help", Command::About),
    ];
    for (row, command) in rows {
        let all = words(&rt, row)?;
        assert!(rt;
            command_of(rt.alloc(), all.as_slice()) == Ok(alone(command)),
            "{row}"
        );
    }
    Ok(())
}

#[test]
fn refuses_other_words(rt: HostRuntime) -> Result<(), Fail> {
    let rows: [&str; 71] = [
        "",
        "boot A",
        "bare",
        "bare A B C D E F G H I",
        "bare A --system S",
        "bare A --seed 1",
        "bare A --frames 63",
        "bare A --frames 32769",
        "bare A --frames 64 --frames 64",
        "bare A --turns 0",
        "bare A --turns=1000000000000001",
        "bare A --schedule",
        "bare A --input",
        "bare A --input=",
        "bare A --input=-",
        "bare A --input --steps=1",
        "bare A --input B --input=C",
        "bare A --steps 1000000000000001",
        "bare A --steps 18446744073709551616",
        "bare A --steps +1",
        "bare A --steps 1x",
        "bare A --steps 007",
        "bare A --record ON",
        "bare A --strict ON",
        "console A --script S --strict on",
        "bare A --dump 80000200",
        "bare A --dump 80000200:0",
        "bare A --dump 80000200:4097",
        "bare A --dump 80000200:016",
        "bare A --dump 8000200:16",
        "bare A --dump +8000200:16",
        "bare A --dump 80000200:16,",
        "bare A --dump ,80000200:16",
        "bare A --dump 00000000:1,00000001:1,00000002:1,00000003:1,00000004:1,00000005:1,00000006:1,00000007:1,00000008:1,00000009:1,0000000A:1,0000000B:1,0000000C:1,0000000D:1,0000000E:1,0000000F:1,00000010:1",
        "bare A --help",
        "bare -h",
        "bare A -- B",
        "bare -",
        "bare ",
        "run A --base bare",
        "build A --format 3",
        "build A --steps 1",
        "list A --base system",
        "list A --format 1",
        "list A --dialect x",
        "list A --dialect VMS",
        "list A --dialect vms --dialect vms",
        "resume A --dialect vms",
        "listing",
        "listing A --format 1",
        "check",
        "check A --format 1",
        "check A --base bare --system S",
        "console A",
        "console A --script L --dump 00000200:4",
        "console A --script L --base bare --system S",
        "console A --script L --prompt on",
        "debug",
        "debug A --script L",
        "debug A --base bare --system S",
        "debug A --prompt yes",
        "debug A --record on",
        "debug A --dump 00000200:4",
        "work A",
        "work --size 5001",
        "run A --macros",
        "run A --macros -M",
        "run A --macros 1 --macros 2 --macros 3 --macros 4 --macros 5",
        "listing A --macros M",
        "work --macros M",
        "resume A --macros M",
    ];
    for row in rows {
        let all = words(&rt, row)?;
        assert!(rt;
            matches!(
                command_of(rt.alloc(), all.as_slice()),
                Err(WordsError::Usage)
            ),
            "{row}"
        );
    }
    Ok(())
}

fn has_all(parts: &[&str], text: &str) -> bool {
    parts.iter().all(|part| text.contains(*part))
}

#[test]
fn shows_help(rt: HostRuntime) -> Result<(), Fail> {
    let rows: [(&str, &[&str]); 12] = [
        (
            "--help",
            &[
                "Usage: vax <COMMAND>",
                "  bare ",
                "  work ",
                "vax run HELLO.MAR",
            ],
        ),
        (
            "bare --help",
            &[
                "Usage: vax bare [OPTIONS] <FILE>...",
                "vax bare COUNT.MAR --steps 5000",
                "docs/MESSAGES.md",
            ],
        ),
        (
            "run --help",
            &["Usage: vax run [OPTIONS] <FILE>...", "--system <FILE>"],
        ),
        ("build --help", &["--base <user|bare>", "--format <1|2>"]),
        (
            "list --help",
            &["--base <user|bare>", "--dialect <vax|vms>"],
        ),
        (
            "listing --help",
            &["--base <user|bare>", "vax listing COUNT.MAR"],
        ),
        (
            "check --help",
            &["--base <user|bare>", "vax check COUNT.MAR"],
        ),
        ("console --help", &["--script <FILE>", "CONTINUE and SHOW"]),
        (
            "debug --help",
            &[
                "Usage: vax debug [OPTIONS] <FILE>...",
                "--prompt <on|off>",
                "vax debug COUNT.MAR",
            ],
        ),
        (
            "resume --help",
            &[
                "Usage: vax resume [OPTIONS] <FILE>\n",
                "  <FILE>  The file of a saved state\n",
            ],
        ),
        (
            "work --help",
            &["Usage: vax work [OPTIONS]\n", "--seed <N>", "--size <N>"],
        ),
        ("--version", &["vax 0.1.0\n"]),
    ];
    for (row, parts) in rows {
        let all = words(&rt, row)?;
        assert!(rt;
            command_of(rt.alloc(), all.as_slice()) == Ok(alone(Command::About)),
            "{row}"
        );
        let Ok(shown) = about(rt.alloc(), all.as_slice()) else {
            panic!(rt; "{row}");
        };
        assert!(rt; !shown.as_str().contains("-h,"), "{shown}");
        assert!(rt; !shown.as_str().contains("  help"), "{shown}");
        assert!(rt; has_all(parts, shown.as_str()), "{shown}");
    }
    Ok(())
}
