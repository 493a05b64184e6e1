//! What help says of each command.
use crate::table::Verb;

/// What help says of a command.
#[derive(Clone, Copy)]
pub(crate) struct Summary<'a> {
    pub(crate) name: &'a str,
    pub(crate) about: &'a str,
    pub(crate) example: &'a str,
}

const BARE: Summary<'static> = Summary {
    name: "vax bare",
    about: "Run a program in kernel mode and report the registers on standard error",
    example: "Example: at most 5000 steps, then 16 bytes of memory in the report\n  \
        vax bare COUNT.MAR --steps 5000 --dump 80000200:16\n\n\
        Sources: docs/ASSEMBLER.md\n\
        Reports, exit statuses and kinds of faults: docs/MESSAGES.md",
};

const RUN: Summary<'static> = Summary {
    name: "vax run",
    about: "Run a program in user mode under a system and report the registers on standard error",
    example: "Example: two sources, linked in this order, read the console's input from a file\n  \
        vax run MAIN.MAR WORDS.MAR --input TEXT.TXT\n\n\
        Sources: docs/ASSEMBLER.md\n\
        Reports, exit statuses and kinds of faults: docs/MESSAGES.md",
};

const BUILD: Summary<'static> = Summary {
    name: "vax build",
    about: "Write the image of a program to standard output",
    example: "Example: an image that `vax bare` takes in place of the source\n  \
        vax build COUNT.MAR --base bare >COUNT.IMG\n\n\
        Sources: docs/ASSEMBLER.md\n\
        Images: docs/MACHINE.md\n\
        Exit statuses and kinds of faults: docs/MESSAGES.md",
};

const LIST: Summary<'static> = Summary {
    name: "vax list",
    about: "Write the instructions of a program to standard output",
    example: "Example: what a source is assembled to\n  \
        vax list COUNT.MAR --base bare\n\n\
        Sources: docs/ASSEMBLER.md\n\
        Exit statuses and kinds of faults: docs/MESSAGES.md",
};

const LISTING: Summary<'static> = Summary {
    name: "vax listing",
    about: "Write the lines of a program's sources with their addresses and bytes to standard output",
    example: "Example: what each line of a source is assembled to\n  \
        vax listing COUNT.MAR --base bare\n\n\
        Sources: docs/ASSEMBLER.md\n\
        Listings: docs/MACHINE.md\n\
        Exit statuses and kinds of faults: docs/MESSAGES.md",
};

const CHECK: Summary<'static> = Summary {
    name: "vax check",
    about: "Tell all faults of a program's sources, and what keeps it from being linked, on standard output",
    example: "Example: the faults of a source, which says nothing where it has none\n  \
        vax check COUNT.MAR --base bare\n\n\
        Sources: docs/ASSEMBLER.md\n\
        Exit statuses and kinds of faults: docs/MESSAGES.md",
};

const CONSOLE: Summary<'static> = Summary {
    name: "vax console",
    about: "Run a program as the lines of a script say, and answer each on standard error",
    example: "Example: a script of the lines EXAMINE R1, NEXT 10 and CONTINUE\n  \
        vax console COUNT.MAR --base bare --script LINES.TXT\n\n\
        Sources: docs/ASSEMBLER.md\n\
        Scripts, exit statuses and kinds of faults: docs/MESSAGES.md",
};

const DEBUG: Summary<'static> = Summary {
    name: "vax debug",
    about: "Run a program as the lines on standard input say, and answer each at once on standard error",
    example: "Example: a session at a terminal, in which HELP tells the words of a line\n  \
        vax debug COUNT.MAR --base bare --prompt on\n\n\
        Sources: docs/ASSEMBLER.md\n\
        The machine, and the options of a session: docs/MACHINE.md\n\
        Commands of a session, exit statuses and kinds of faults: docs/MESSAGES.md",
};

const TRACE: Summary<'static> = Summary {
    name: "vax trace",
    about: "Run a program, list its steps in the file vax.rec and report the registers on standard error",
    example: "Example: the steps up to an address, and those of them that change a longword\n  \
        vax trace COUNT.MAR --base bare --break 80000210 --watch 80000600:4\n\n\
        Sources: docs/ASSEMBLER.md\n\
        Listings of steps: docs/MACHINE.md\n\
        Reports, exit statuses and kinds of faults: docs/MESSAGES.md",
};

const SAVE: Summary<'static> = Summary {
    name: "vax save",
    about: "Run a program, and save its state in the file vax.rec where a limit stops it",
    example: "Example: stop after 1000 steps, and go on later\n  \
        vax save COUNT.MAR --base bare --steps 1000\n  vax resume vax.rec\n\n\
        Sources: docs/ASSEMBLER.md\n\
        Saved states: docs/MACHINE.md\n\
        Reports, exit statuses and kinds of faults: docs/MESSAGES.md",
};

const RESUME: Summary<'static> = Summary {
    name: "vax resume",
    about: "Go on from a saved state and report the registers on standard error",
    example: "Example: at most 5000 steps more, then 16 bytes of memory in the report\n  \
        vax resume vax.rec --steps 5000 --dump 80000200:16\n\n\
        Saved states: docs/MACHINE.md\n\
        Reports, exit statuses and kinds of faults: docs/MESSAGES.md",
};

const JOBS: Summary<'static> = Summary {
    name: "vax jobs",
    about: "Run several programs in user mode together and report the registers of each on standard error",
    example: "Example: two programs that take turns, with at most 128 resident pages together\n  \
        vax jobs ONE.MAR TWO.MAR --pool 128\n\n\
        Sources: docs/ASSEMBLER.md\n\
        Orders: docs/MACHINE.md\n\
        Reports, exit statuses and kinds of faults: docs/MESSAGES.md",
};

const WORK: Summary<'static> = Summary {
    name: "vax work",
    about: "Make a program from a number, run it, and report the registers on standard error",
    example: "Example: a longer program, with few pages resident\n  \
        vax work --seed 7 --size 5000 --frames 64\n\n\
        Reports, exit statuses and kinds of faults: docs/MESSAGES.md",
};

const VECTORS: Summary<'static> = Summary {
    name: "vax vectors",
    about: "Write test vectors for other emulators to standard output, a JSON object for each step",
    example: "Example: 20 vectors of MOVL in user mode, each with pages absent too\n  \
        vax vectors --opcode MOVL --count 20 --mode user --absent on\n\n\
        Vectors, and loaders for them: docs/VECTORS.md\n\
        Exit statuses: docs/MESSAGES.md",
};

/// What help says of this command.
pub(crate) fn summary_of<'a>(verb: Verb) -> Summary<'a> {
    match verb {
        Verb::Bare => BARE,
        Verb::Run => RUN,
        Verb::Build => BUILD,
        Verb::List => LIST,
        Verb::Listing => LISTING,
        Verb::Check => CHECK,
        Verb::Console => CONSOLE,
        Verb::Debug => DEBUG,
        Verb::Trace => TRACE,
        Verb::Save => SAVE,
        Verb::Resume => RESUME,
        Verb::Jobs => JOBS,
        Verb::Work => WORK,
        Verb::Vectors => VECTORS,
    }
}
