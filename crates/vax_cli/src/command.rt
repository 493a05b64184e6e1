//! What the words ask for.
use crate::jobs::JobsOptions;
use crate::vectors::VectorRequest;
use arrayvec::ArrayVec;
use vax_dialect::Dialect;

/// The names of a command's files, in order: 1 to 8.
pub type Names<'a> = ArrayVec<&'a str, 8>;

/// The memory that a report shows, in order: at most 16 items.
pub type Dumps = ArrayVec<DumpItem, 16>;

/// Addresses before which a traced run stops: at most 16.
pub type Breaks = ArrayVec<u32, 16>;

/// The names of the files that stand before each source, in order: at most 4.
pub type Macros<'a> = ArrayVec<&'a str, 4>;

/// A command, and the preludes of its sources.
#[derive(PartialEq, Eq, Drop)]
pub struct Asked<'a> {
    pub command: Command<'a>,
    /// `--macros NAME`, up to four times: the files that are read before each source.
    pub macros: Macros<'a>,
}

/// What the words ask for.
#[derive(PartialEq, Eq, Drop)]
pub enum Command<'a> {
    /// `bare FILE..`: run a program in kernel mode.
    Bare {
        files: Names<'a>,
        options: Options<'a>,
    },
    /// `run FILE..`: run a program in user mode, under a system.
    Run {
        files: Names<'a>,
        options: Options<'a>,
    },
    /// `build FILE..`: write the image of a program.
    Build {
        files: Names<'a>,
        target: Target,
        format: Format,
    },
    /// `list FILE..`: write the instructions of a program.
    List {
        files: Names<'a>,
        target: Target,
    },
    /// `listing FILE..`: write the listing of a program's sources.
    Listing {
        files: Names<'a>,
        target: Target,
    },
    /// `check FILE..`: tell all that keeps a program from being built.
    Check {
        files: Names<'a>,
        target: Target,
        /// `--system NAME`: the file of a system that is told of too.
        system: Option<&'a str>,
    },
    /// `console FILE..`: run a program as a script says.
    Console {
        files: Names<'a>,
        base: Base,
        /// `--script NAME`: the file of the script.
        script: &'a str,
        options: Options<'a>,
    },
    /// `debug FILE..`: run a program as lines say that are answered one at a time.
    Debug {
        files: Names<'a>,
        base: Base,
        /// `--prompt on` or `--prompt off`: whether a prompt stands before each line; off where no word says it.
        prompt: bool,
        options: Options<'a>,
    },
    /// `trace FILE..`: run a program and list its steps.
    Trace {
        files: Names<'a>,
        base: Base,
        tracing: Tracing,
        options: Options<'a>,
    },
    /// `save FILE..`: run a program, and save the state at which a limit stops it.
    Save {
        files: Names<'a>,
        base: Base,
        options: Options<'a>,
    },
    /// `resume FILE`: go on from a saved state.
    Resume {
        /// The file of the saved state.
        name: &'a str,
        options: Options<'a>,
    },
    /// `jobs FILE..`: run several programs in user mode, which take turns.
    Jobs {
        files: Names<'a>,
        options: JobsOptions<'a>,
    },
    /// `work`: run a workload that is made from a number.
    Work {
        /// `--seed N`: the number; 1 where no word says it.
        seed: u32,
        /// `--size N`: the size, 1 to 5,000; 100 where no word says it.
        size: u32,
        options: Options<'a>,
    },
    /// `vectors`: write test vectors for other emulators.
    Vectors(VectorRequest),
    /// `--help`, `--help` behind a command, or `--version`: a text about the program.
    About,
}

/// What a run is given beside its files. A command leaves the options that it doesn't take as no word says them.
#[derive(PartialEq, Eq, Drop)]
pub struct Options<'a> {
    /// `--dialect NAME`: the dialect of the sources.
    pub dialect: Dialect,
    /// `--input NAME`: the file of the console's input; none where there is no input.
    pub input: Option<&'a str>,
    /// `--system NAME`: the file of the system that a program in user mode runs under; none for the built-in one.
    pub system: Option<&'a str>,
    /// `--schedule NAME`: the file of the eviction schedule; none where there is no schedule.
    pub schedule: Option<&'a str>,
    /// `--frames N`: how many pages may be resident, 64 to 32,768; 256 where no word says it.
    pub frames: u32,
    /// `--steps N`: the most steps, at most 10^15; 10,000,000 where no word says it.
    pub steps: u64,
    /// `--turns N`: the most turns, 1 to 10^15; 10^12 where no word says it.
    pub turns: u64,
    /// `--dump LIST`: the memory to report.
    pub dumps: Dumps,
    /// `--record on` or `--record off`: whether evictions are recorded; off where no word says it.
    pub recorded: bool,
    /// `--strict on` or `--strict off`: what the exit status tells of the end; nothing where no word says it.
    pub strict: Strictness,
}

/// What a traced run is given beside its options.
#[derive(PartialEq, Eq, Drop)]
pub struct Tracing {
    /// `--break LIST`: the addresses before which it stops.
    pub breaks: Breaks,
    /// `--watch LIST`: the memory whose changes it lists.
    pub watches: Dumps,
    /// `--text on` or `--text off`: whether the text of each instruction is listed; off where no word says it.
    pub texts: bool,
}

/// What the exit status of a run tells of its end.
#[derive(Clone, Copy, PartialEq, Eq)]
pub enum Strictness {
    /// Nothing: `--strict off`.
    Off,
    /// Whether it was HALT: `--strict on` of a command whose program answers nothing.
    Halt,
    /// Whether it was HALT, and with success in R0: `--strict on` of `run`.
    Success,
}

/// Bytes of memory from an address on: `AAAAAAAA:N`.
#[derive(Clone, Copy, Default, PartialEq, Eq)]
pub struct DumpItem {
    pub address: u32,
    /// How many bytes, 1 to 4,096.
    pub count: u32,
}

/// What sources are assembled as, and what for.
#[derive(Clone, Copy, PartialEq, Eq)]
pub struct Target {
    /// `--dialect vax` or `--dialect vms`: the dialect of the sources; the smaller one, `vax`, where no word says it.
    pub dialect: Dialect,
    pub base: Base,
}

/// What a program is linked for: `--base user` or `--base bare`; user where no word says it.
#[derive(Clone, Copy, PartialEq, Eq)]
pub enum Base {
    /// User mode, under a system.
    User,
    /// Kernel mode, alone on the machine.
    Bare,
}

/// The version of an image's format: `--format 1` or `--format 2`; 1 where no word says it.
#[derive(Clone, Copy, PartialEq, Eq)]
pub enum Format {
    First,
    Second,
}
