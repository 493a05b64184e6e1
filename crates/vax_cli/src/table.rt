//! The table of commands and their options.
ghost use Rattle.std.specs.Prelude.{◌≡◌};
ghost use Rattle.vax_cli.specs.Table.{is_same, key_name, key_of, keys_of, may_repeat, takes_files, verb_name, verb_of};

/// A command.
#[derive(Clone, Copy, PartialEq, Eq)]
pub(crate) enum Verb {
    Bare,
    Run,
    Build,
    List,
    Listing,
    Check,
    Console,
    Debug,
    Trace,
    Save,
    Resume,
    Jobs,
    Work,
    Vectors,
}

/// An option.
#[derive(Clone, Copy, PartialEq, Eq)]
pub(crate) enum Key {
    Input,
    System,
    Schedule,
    Frames,
    Steps,
    Turns,
    Dump,
    Record,
    Base,
    Dialect,
    Macros,
    Format,
    Script,
    Seed,
    Size,
    Strict,
    Break,
    Watch,
    Text,
    Opcode,
    Count,
    Absent,
    Mode,
    Order,
    Pool,
    Prompt,
}

/// The commands.
pub(crate) const VERBS: [Verb; 14] = [
    Verb::Bare,
    Verb::Run,
    Verb::Build,
    Verb::List,
    Verb::Listing,
    Verb::Check,
    Verb::Console,
    Verb::Debug,
    Verb::Trace,
    Verb::Save,
    Verb::Resume,
    Verb::Jobs,
    Verb::Work,
    Verb::Vectors,
];

// The options of each command.
const BARE_KEYS: &[Key] = &[
    Key::Dialect,
    Key::Macros,
    Key::Input,
    Key::Schedule,
    Key::Frames,
    Key::Steps,
    Key::Turns,
    Key::Dump,
    Key::Record,
    Key::Strict,
];

const RUN_KEYS: &[Key] = &[
    Key::Dialect,
    Key::Macros,
    Key::Input,
    Key::System,
    Key::Schedule,
    Key::Frames,
    Key::Steps,
    Key::Turns,
    Key::Dump,
    Key::Record,
    Key::Strict,
];

const BUILD_KEYS: &[Key] = &[Key::Base, Key::Dialect, Key::Macros, Key::Format];

const LIST_KEYS: &[Key] = &[Key::Base, Key::Dialect, Key::Macros];

const LISTING_KEYS: &[Key] = &[Key::Base, Key::Dialect];

const CHECK_KEYS: &[Key] = &[Key::Base, Key::Dialect, Key::Macros, Key::System];

const CONSOLE_KEYS: &[Key] = &[
    Key::Script,
    Key::Base,
    Key::Dialect,
    Key::Macros,
    Key::Input,
    Key::System,
    Key::Schedule,
    Key::Frames,
    Key::Steps,
    Key::Turns,
];

const DEBUG_KEYS: &[Key] = &[
    Key::Base,
    Key::Dialect,
    Key::Macros,
    Key::Input,
    Key::System,
    Key::Schedule,
    Key::Frames,
    Key::Steps,
    Key::Turns,
    Key::Prompt,
];

const TRACE_KEYS: &[Key] = &[
    Key::Base,
    Key::Dialect,
    Key::Macros,
    Key::Input,
    Key::System,
    Key::Schedule,
    Key::Frames,
    Key::Steps,
    Key::Turns,
    Key::Dump,
    Key::Break,
    Key::Watch,
    Key::Text,
];

const SAVE_KEYS: &[Key] = &[
    Key::Base,
    Key::Dialect,
    Key::Macros,
    Key::Input,
    Key::System,
    Key::Schedule,
    Key::Frames,
    Key::Steps,
    Key::Turns,
];

const RESUME_KEYS: &[Key] = &[
    Key::Schedule,
    Key::Frames,
    Key::Steps,
    Key::Turns,
    Key::Dump,
];

const JOBS_KEYS: &[Key] = &[
    Key::Dialect,
    Key::Macros,
    Key::Order,
    Key::Pool,
    Key::Steps,
    Key::Turns,
    Key::Input,
];

const WORK_KEYS: &[Key] = &[
    Key::Dialect,
    Key::Seed,
    Key::Size,
    Key::Schedule,
    Key::Frames,
    Key::Steps,
    Key::Turns,
    Key::Dump,
    Key::Record,
    Key::Strict,
];

const VECTORS_KEYS: &[Key] = &[Key::Opcode, Key::Count, Key::Seed, Key::Absent, Key::Mode];

impl Verb {
    /// Its word.
    pub(crate) fn name(self) -> &'static str
        ensures { result.now ≡ verb_name self }
    {
        match self {
            Verb::Bare => "bare",
            Verb::Run => "run",
            Verb::Build => "build",
            Verb::List => "list",
            Verb::Listing => "listing",
            Verb::Check => "check",
            Verb::Console => "console",
            Verb::Debug => "debug",
            Verb::Trace => "trace",
            Verb::Save => "save",
            Verb::Resume => "resume",
            Verb::Jobs => "jobs",
            Verb::Work => "work",
            Verb::Vectors => "vectors",
        }
    }

    /// The options that it takes.
    pub(crate) fn keys(self) -> &'static [Key]
        ensures { result.now ≡ keys_of self }
    {
        match self {
            Verb::Bare => BARE_KEYS,
            Verb::Run => RUN_KEYS,
            Verb::Build => BUILD_KEYS,
            Verb::List => LIST_KEYS,
            Verb::Listing => LISTING_KEYS,
            Verb::Check => CHECK_KEYS,
            Verb::Console => CONSOLE_KEYS,
            Verb::Debug => DEBUG_KEYS,
            Verb::Trace => TRACE_KEYS,
            Verb::Save => SAVE_KEYS,
            Verb::Resume => RESUME_KEYS,
            Verb::Jobs => JOBS_KEYS,
            Verb::Work => WORK_KEYS,
            Verb::Vectors => VECTORS_KEYS,
        }
    }

    /// It takes so many files.
    pub(crate) fn takes_files(self, count: usize) -> bool
        ensures { result ≡ takes_files self count }
    {
        match self {
            Verb::Work | Verb::Vectors => count == 0,
            Verb::Resume => count == 1,
            Verb::Bare
            | Verb::Run
            | Verb::Build
            | Verb::List
            | Verb::Listing
            | Verb::Check
            | Verb::Console
            | Verb::Debug
            | Verb::Trace
            | Verb::Save
            | Verb::Jobs => 1 <= count && count <= 8,
        }
    }
}

impl Key {
    /// Its word.
    pub(crate) fn name(self) -> &'static str
        ensures { result.now ≡ key_name self }
    {
        match self {
            Key::Input => "--input",
            Key::System => "--system",
            Key::Schedule => "--schedule",
            Key::Frames => "--frames",
            Key::Steps => "--steps",
            Key::Turns => "--turns",
            Key::Dump => "--dump",
            Key::Record => "--record",
            Key::Base => "--base",
            Key::Dialect => "--dialect",
            Key::Macros => "--macros",
            Key::Format => "--format",
            Key::Script => "--script",
            Key::Seed => "--seed",
            Key::Size => "--size",
            Key::Strict => "--strict",
            Key::Break => "--break",
            Key::Watch => "--watch",
            Key::Text => "--text",
            Key::Opcode => "--opcode",
            Key::Count => "--count",
            Key::Absent => "--absent",
            Key::Mode => "--mode",
            Key::Order => "--order",
            Key::Pool => "--pool",
            Key::Prompt => "--prompt",
        }
    }

    /// It may stand there several times.
    pub(crate) fn may_repeat(self) -> bool
        ensures { result ≡ may_repeat self }
    {
        self == Key::Macros
    }

    /// It is the same option.
    pub(crate) fn is(self, other: Key) -> bool
        ensures { result ≡ is_same self other }
    {
        self == other
    }
}

/// The command of this name.
pub(crate) fn verb_of(word: &str) -> Option<Verb>
    ensures { result ≡ verb_of word.now }
{
    VERBS.iter().copied().find(|verb| verb.name() == word)
}

/// The option of this name, among those that a command takes.
pub(crate) fn key_of(keys: &[Key], word: &str) -> Option<Key>
    ensures { result ≡ key_of keys.now word.now }
{
    keys.iter().copied().find(|key| key.name() == word)
}
