//! The commands with their words, and the forms of values.
ghost use Rattle.std.specs.Prelude.{◌≡◌};
ghost use Rattle.std.specs.List.{filter};
ghost use Rattle.std.specs.Str.{bytes_eq};
ghost use Rattle.vax_debug_words.specs.Commands.{begins, form_of, is_called, meaning, name_of, only_one, usage_of};

/// A command of the debugger.
#[derive(Clone, Copy, PartialEq, Eq)]
pub enum Command {
    Examine,
    Deposit,
    Disassemble,
    Step,
    Over,
    Out,
    Go,
    Until,
    Break,
    Watch,
    Clear,
    Show,
    Where,
    Stack,
    Queue,
    Pages,
    Turn,
    Evict,
    Restart,
    Save,
    Help,
    Quit,
}

/// All commands.
pub const COMMANDS: [Command; 22] = [
    Command::Examine,
    Command::Deposit,
    Command::Disassemble,
    Command::Step,
    Command::Over,
    Command::Out,
    Command::Go,
    Command::Until,
    Command::Break,
    Command::Watch,
    Command::Clear,
    Command::Show,
    Command::Where,
    Command::Stack,
    Command::Queue,
    Command::Pages,
    Command::Turn,
    Command::Evict,
    Command::Restart,
    Command::Save,
    Command::Help,
    Command::Quit,
];

/// The form of a value that lies in memory.
#[derive(Clone, Copy, PartialEq, Eq)]
pub enum Form {
    Byte,
    Word,
    Long,
    Quad,
    Ascii,
    Instruction,
}

/// Whether a word is this name, in any letter case.
pub(crate) fn is_called(word: &[u8], name: &[u8]) -> bool
    ensures { result ≡ is_called name.now word.now }
{
    word.eq_ignore_ascii_case(name)
}

/// Whether a word is the beginning of this name, in any letter case, and has a letter.
#[tactic(auto, unfolding(crate::specs::Commands::begins))]
pub(crate) fn begins(word: &[u8], name: &[u8]) -> bool
    ensures { result ≡ begins name.now word.now }
{
    !word.is_empty() && word.len() <= name.len() && is_called(word, &name[..word.len()])
}

/// The word of a command.
#[tactic(auto, unfolding(crate::specs::Commands::name_of))]
fn name(command: Command) -> &'static [u8]
    ensures { result.now ≡ name_of command }
{
    match command {
        Command::Examine => b"EXAMINE",
        Command::Deposit => b"DEPOSIT",
        Command::Disassemble => b"DISASSEMBLE",
        Command::Step => b"STEP",
        Command::Over => b"OVER",
        Command::Out => b"OUT",
        Command::Go => b"GO",
        Command::Until => b"UNTIL",
        Command::Break => b"BREAK",
        Command::Watch => b"WATCH",
        Command::Clear => b"CLEAR",
        Command::Show => b"SHOW",
        Command::Where => b"WHERE",
        Command::Stack => b"STACK",
        Command::Queue => b"QUEUE",
        Command::Pages => b"PAGES",
        Command::Turn => b"TURN",
        Command::Evict => b"EVICT",
        Command::Restart => b"RESTART",
        Command::Save => b"SAVE",
        Command::Help => b"HELP",
        Command::Quit => b"QUIT",
    }
}

/// Whether a word may mean a command: it is the beginning of its name.
pub(crate) fn may_mean(word: &[u8], command: Command) -> bool
    ensures { result ≡ begins (name_of command) word.now }
{
    begins(word, name(command))
}

/// What a word comes to among the names of commands.
#[derive(Clone, Copy, PartialEq, Eq)]
pub(crate) enum Meaning {
    /// No name begins so.
    Unknown,
    /// One does.
    Only(Command),
    /// More than one does.
    Several,
}

impl Meaning {
    ghost use Rattle.std.specs.Prelude.{◌≡◌, List, ◌++◌, ◌∷◌, []};
    ghost use Rattle.vax_debug_words.specs.Commands.{only_one};

    /// One command more.
    fn and(self, command: Command) -> Meaning
        ensures { (before : List Command) → self ≡ only_one before
            → result ≡ only_one (before ++ command ∷ []) }
    {
        match self {
            Meaning::Unknown => Meaning::Only(command),
            _ => Meaning::Several,
        }
    }
}

/// What a word means among some commands.
fn meaning_among(commands: &[Command], word: &[u8]) -> Meaning
    ensures { result
        ≡ only_one (filter (λ command. begins (name_of command) word.now) commands.now) }
{
    let mut found = Meaning::Unknown;
    for command in commands {
        if may_mean(word, *command) {
            found = found.and(*command);
        }
    }
    found
}

/// The command that a word means.
#[tactic(auto, unfolding(crate::specs::Commands::commands))]
pub(crate) fn meaning_of(word: &[u8]) -> Meaning
    ensures { result ≡ meaning word.now }
{
    meaning_among(&COMMANDS, word)
}

/// The form that a word means.
#[tactic(auto, unfolding(crate::specs::Commands::form_of))]
pub(crate) fn form_of(word: &[u8]) -> Option<Form>
    ensures { result ≡ form_of word.now }
{
    if begins(word, b"BYTE") {
        Some(Form::Byte)
    } else if begins(word, b"WORD") {
        Some(Form::Word)
    } else if begins(word, b"LONG") {
        Some(Form::Long)
    } else if begins(word, b"QUAD") {
        Some(Form::Quad)
    } else if begins(word, b"ASCII") {
        Some(Form::Ascii)
    } else if begins(word, b"INSTRUCTION") {
        Some(Form::Instruction)
    } else {
        None
    }
}

/// Whether two commands have the same word.
pub(crate) fn is_same(one: Command, other: Command) -> bool
    ensures { result ≡ bytes_eq (name_of one) (name_of other) }
{
    name(one) == name(other)
}

/// How a command is used, and what it does.
#[tactic(auto, unfolding(crate::specs::Commands::usage_of))]
pub fn usage(command: Command) -> &'static [u8]
    ensures { result.now ≡ usage_of command }
{
    match command {
        Command::Examine =>
            b"EXAMINE[/FORM] x [n]     shows a register, PSL, PSL.FIELD or n values in memory",
        Command::Deposit =>
            b"DEPOSIT[/FORM] x v       puts a value into a register, PSL, PSL.FIELD or memory",
        Command::Disassemble => b"DISASSEMBLE [x [n]]      shows n instructions from x or PC on",
        Command::Step => b"STEP [n]                 makes n steps",
        Command::Over => b"OVER                     makes a step, or all of those of a call",
        Command::Out => b"OUT                      goes on to behind the procedure's return",
        Command::Go => b"GO                       goes on up to a stop",
        Command::Until => b"UNTIL x                  goes on up to an address",
        Command::Break => b"BREAK x                  stops before each step at an address",
        Command::Watch => b"WATCH x [n]              stops behind each step that changes n bytes",
        Command::Clear => b"CLEAR [x]                takes the stops at an address away, or all",
        Command::Show => b"SHOW BREAKS or WATCHES   tells where to stop, or what is watched",
        Command::Where =>
            b"WHERE                    shows the frames of calls, arguments and saved registers",
        Command::Stack => b"STACK [n]                shows n longwords of the stack",
        Command::Queue => b"QUEUE x                  follows a queue",
        Command::Pages =>
            b"PAGES                    shows which pages are resident, kept and modified",
        Command::Turn => b"TURN                     makes one attempt at a step",
        Command::Evict => b"EVICT x, EVICT ALL       makes a page absent, or all pages",
        Command::Restart => b"RESTART                  begins the program anew",
        Command::Save => b"SAVE                     puts the state into the record, and ends",
        Command::Help => b"HELP [word]              tells how commands are used",
        Command::Quit => b"QUIT                     ends",
    }
}
