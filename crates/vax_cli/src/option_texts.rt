//! What help says of each option.
use crate::table::Key;

/// What help calls an option's value, and what it says of the option.
#[derive(Clone, Copy)]
pub(crate) struct OptionText<'a> {
    pub(crate) value: &'a str,
    pub(crate) about: &'a str,
}

const INPUT: OptionText<'static> = OptionText {
    value: "FILE",
    about: "The bytes that the console gives the program; none where it isn't given",
};

const SYSTEM: OptionText<'static> = OptionText {
    value: "FILE",
    about: "The system that the program runs under; a built-in one where it isn't given",
};

const SCHEDULE: OptionText<'static> = OptionText {
    value: "FILE",
    about: "Which pages are made absent before which attempt; none where it isn't given",
};

const FRAMES: OptionText<'static> = OptionText {
    value: "N",
    about: "So many pages may be resident, 64 to 32768; 256 where it isn't given",
};

const STEPS: OptionText<'static> = OptionText {
    value: "N",
    about: "Stop after so many steps, at most 10^15; 10000000 where it isn't given",
};

const TURNS: OptionText<'static> = OptionText {
    value: "N",
    about: "Stop after so many attempts, 1 to 10^15; 10^12 where it isn't given",
};

const DUMP: OptionText<'static> = OptionText {
    value: "LIST",
    about: "Memory for the report: 1 to 16 items AAAAAAAA:N with commas between them, each an \
        address of eight hexadecimal digits and a count of bytes, 1 to 4096",
};

const RECORD: OptionText<'static> = OptionText {
    value: "on|off",
    about: "Write the evictions to the file vax.rec or not; off where it isn't given",
};

const BASE: OptionText<'static> = OptionText {
    value: "user|bare",
    about: "Link for user mode or for the bare machine; user where it isn't given",
};

const DIALECT: OptionText<'static> = OptionText {
    value: "vax|vms",
    about: "The dialect of the sources, the smaller one or that of the manual; vax where it isn't given",
};

const MACROS: OptionText<'static> = OptionText {
    value: "FILE",
    about: "A source that is read before each source, for macros that several share; up to four times",
};

const FORMAT: OptionText<'static> = OptionText {
    value: "1|2",
    about: "The version of the image's format; 1 where it isn't given",
};

const SCRIPT: OptionText<'static> = OptionText {
    value: "FILE",
    about: "The lines of the session: EXAMINE, DEPOSIT, NEXT, CONTINUE and SHOW",
};

const SEED: OptionText<'static> = OptionText {
    value: "N",
    about: "The number that the program or the vectors are made from, 0 to 4294967295; 1 where it isn't given",
};

const SIZE: OptionText<'static> = OptionText {
    value: "N",
    about: "The size of the program, 1 to 5000; 100 where it isn't given",
};

const STRICT: OptionText<'static> = OptionText {
    value: "on|off",
    about: "Answer by an exit status how the program ended, 15 where not by HALT, and for `vax run` \
        16 where R0 has neither 0 nor 1; off where it isn't given",
};

const BREAK: OptionText<'static> = OptionText {
    value: "LIST",
    about: "Stop before a step, but for the first, at one of these addresses: 1 to 16 of eight \
        hexadecimal digits with commas between them",
};

const WATCH: OptionText<'static> = OptionText {
    value: "LIST",
    about: "Memory whose changes are listed: 1 to 16 items AAAAAAAA:N as for --dump",
};

const TEXT: OptionText<'static> = OptionText {
    value: "on|off",
    about: "Write each instruction behind its byte, as `vax list` does; off where it isn't given",
};

const OPCODE: OptionText<'static> = OptionText {
    value: "NAME|all",
    about: "The instruction, or all of them",
};

const COUNT: OptionText<'static> = OptionText {
    value: "N",
    about: "How many vectors for each instruction, 1 to 1000000",
};

const ABSENT: OptionText<'static> = OptionText {
    value: "on|off",
    about: "Write behind each vector the same with one and two of its pages absent; off where it isn't given",
};

const MODE: OptionText<'static> = OptionText {
    value: "MODE",
    about: "The access mode: kernel, executive, supervisor or user; kernel where it isn't given",
};

const ORDER: OptionText<'static> = OptionText {
    value: "FILE",
    about: "Which program makes how many attempts, line by line; one each in turn where it isn't given",
};

const POOL: OptionText<'static> = OptionText {
    value: "N",
    about: "So many pages of all programs may be resident, 64 for each to 32768; 1024 where it isn't given",
};

const PROMPT: OptionText<'static> = OptionText {
    value: "on|off",
    about: "Write a prompt before each line or not; off where it isn't given",
};

/// What help says of this option.
pub(crate) fn option_text<'a>(key: Key) -> OptionText<'a> {
    match key {
        Key::Input => INPUT,
        Key::System => SYSTEM,
        Key::Schedule => SCHEDULE,
        Key::Frames => FRAMES,
        Key::Steps => STEPS,
        Key::Turns => TURNS,
        Key::Dump => DUMP,
        Key::Record => RECORD,
        Key::Base => BASE,
        Key::Dialect => DIALECT,
        Key::Macros => MACROS,
        Key::Format => FORMAT,
        Key::Script => SCRIPT,
        Key::Seed => SEED,
        Key::Size => SIZE,
        Key::Strict => STRICT,
        Key::Break => BREAK,
        Key::Watch => WATCH,
        Key::Text => TEXT,
        Key::Opcode => OPCODE,
        Key::Count => COUNT,
        Key::Absent => ABSENT,
        Key::Mode => MODE,
        Key::Order => ORDER,
        Key::Pool => POOL,
        Key::Prompt => PROMPT,
    }
}
