//! Which words are plain, and what they say.
ghost use Rattle.std.specs.Prelude.{◌≡◌, IfSome, None, length, true};
ghost use Rattle.std.specs.Option.{option_and_then, option_copied, option_map};
ghost use Rattle.vax_cli.specs.Table.{keys_of, takes_files};
ghost use Rattle.vax_cli.specs.Items.{items_from, names};
ghost use Rattle.vax_cli.specs.Words.{asks_about, asks_help, behind, build_of, check_of, checked, command_of, console_of, debug_of, is_session, may_have_system, options_of, plain_about, resume_of, said_of, save_of, target_of, trace_of, vectors_of, work_of};
ghost use Rattle.vax_cli.specs.declared.command.Strictness.TheVariants.{Halt};
ghost use Rattle.vax_cli.specs.Said.{AreFiles, AreWithin, IsAskedWithin, IsWithin, asked, items_of, names_of, options, said, texts};
ghost use Rattle.vax_cli.specs.Words.{jobs_of};

use crate::command::{Asked, Base, Command, Names, Options, Strictness, Target, Tracing};
use crate::items::{Item, Items, are_distinct, names_in, read_items, value_in, values_in};
use crate::jobs::{JobsOptions, pool_of};
use crate::table::{Key, Verb, verb_of};
use crate::values::{
    base_of, breaks_of, dialect_of, dumps_of, format_of, frames_of, seed_of, size_of, steps_of,
    strictness, switch_of, turns_of,
};
use crate::vectors::{VectorWords, request_of};
use arrayvec::ArrayVec;

/// What the options of a run say, whose exit status may tell so much of its end.
fn options_of<'a>(most: Strictness, items: &[Item<'a>]) -> Option<Options<'a>>
    ensures options { option_map options result ≡ options_of most (items_of items.now) }
    ensures within { IfSome result (λ o. AreWithin (options o)) }
{
    let dialect = dialect_of(value_in(Key::Dialect, items))?;
    let frames = frames_of(value_in(Key::Frames, items))?;
    let steps = steps_of(value_in(Key::Steps, items))?;
    let turns = turns_of(value_in(Key::Turns, items))?;
    let dumps = dumps_of(value_in(Key::Dump, items))?;
    let recorded = switch_of(value_in(Key::Record, items))?;
    let strict = switch_of(value_in(Key::Strict, items))?;
    Some(Options {
        dialect,
        input: value_in(Key::Input, items),
        system: value_in(Key::System, items),
        schedule: value_in(Key::Schedule, items),
        frames,
        steps,
        turns,
        dumps,
        recorded,
        strict: strictness(most, strict),
    })
}

/// A session has a script, and no other system on the bare machine.
fn is_session(base: Base, given: &Options) -> bool
    ensures { result ≡ is_session base (options given.now) }
{
    match base {
        Base::User => true,
        Base::Bare => given.system.is_none(),
    }
}

/// What the sources of a command are assembled as, and what for.
fn target_of(items: &[Item]) -> Option<Target>
    ensures { result ≡ target_of (items_of items.now) }
{
    let dialect = dialect_of(value_in(Key::Dialect, items))?;
    let base = base_of(value_in(Key::Base, items))?;
    Some(Target { dialect, base })
}

fn build_of<'a>(files: Names<'a>, items: &[Item<'a>]) -> Option<Command<'a>>
    requires files { names_of files.items ≡ names (items_of items.now) }
    requires are { AreFiles (names_of files.items) }
    ensures said { option_map said result ≡ build_of (items_of items.now) }
    ensures within { IfSome result (λ c. IsWithin (said c)) }
{
    let target = target_of(items)?;
    let format = format_of(value_in(Key::Format, items))?;
    Some(Command::Build {
        files,
        target,
        format,
    })
}

/// On the bare machine there is no system.
fn may_have_system(base: Base, system: Option<&str>) -> bool
    ensures { result ≡ may_have_system base (option_copied system.entry) }
{
    match base {
        Base::User => true,
        Base::Bare => system.is_none(),
    }
}

fn check_of<'a>(files: Names<'a>, items: &[Item<'a>]) -> Option<Command<'a>>
    requires files { names_of files.items ≡ names (items_of items.now) }
    requires are { AreFiles (names_of files.items) }
    ensures said { option_map said result ≡ check_of (items_of items.now) }
    ensures within { IfSome result (λ c. IsWithin (said c)) }
{
    let target = target_of(items)?;
    let system = value_in(Key::System, items);
    if !may_have_system(target.base, system) {
        return None;
    }
    Some(Command::Check {
        files,
        target,
        system,
    })
}

fn console_of<'a>(files: Names<'a>, items: &[Item<'a>]) -> Option<Command<'a>>
    requires files { names_of files.items ≡ names (items_of items.now) }
    requires are { AreFiles (names_of files.items) }
    ensures said { option_map said result ≡ console_of (items_of items.now) }
    ensures within { IfSome result (λ c. IsWithin (said c)) }
{
    let script = value_in(Key::Script, items)?;
    let base = base_of(value_in(Key::Base, items))?;
    let options = options_of(Strictness::Halt, items)?;
    if !is_session(base, &options) {
        return None;
    }
    Some(Command::Console {
        files,
        base,
        script,
        options,
    })
}

fn debug_of<'a>(files: Names<'a>, items: &[Item<'a>]) -> Option<Command<'a>>
    requires files { names_of files.items ≡ names (items_of items.now) }
    requires are { AreFiles (names_of files.items) }
    ensures said { option_map said result ≡ debug_of (items_of items.now) }
    ensures within { IfSome result (λ c. IsWithin (said c)) }
{
    let base = base_of(value_in(Key::Base, items))?;
    let prompt = switch_of(value_in(Key::Prompt, items))?;
    let options = options_of(Strictness::Halt, items)?;
    if !is_session(base, &options) {
        return None;
    }
    Some(Command::Debug {
        files,
        base,
        prompt,
        options,
    })
}

fn trace_of<'a>(files: Names<'a>, items: &[Item<'a>]) -> Option<Command<'a>>
    requires files { names_of files.items ≡ names (items_of items.now) }
    requires are { AreFiles (names_of files.items) }
    ensures said { option_map said result ≡ trace_of (items_of items.now) }
    ensures within { IfSome result (λ c. IsWithin (said c)) }
{
    let base = base_of(value_in(Key::Base, items))?;
    let breaks = breaks_of(value_in(Key::Break, items))?;
    let watches = dumps_of(value_in(Key::Watch, items))?;
    let texts = switch_of(value_in(Key::Text, items))?;
    let options = options_of(Strictness::Halt, items)?;
    if !is_session(base, &options) {
        return None;
    }
    let tracing = Tracing {
        breaks,
        watches,
        texts,
    };
    Some(Command::Trace {
        files,
        base,
        tracing,
        options,
    })
}

fn save_of<'a>(files: Names<'a>, items: &[Item<'a>]) -> Option<Command<'a>>
    requires files { names_of files.items ≡ names (items_of items.now) }
    requires are { AreFiles (names_of files.items) }
    ensures said { option_map said result ≡ save_of (items_of items.now) }
    ensures within { IfSome result (λ c. IsWithin (said c)) }
{
    let base = base_of(value_in(Key::Base, items))?;
    let options = options_of(Strictness::Halt, items)?;
    if !is_session(base, &options) {
        return None;
    }
    Some(Command::Save {
        files,
        base,
        options,
    })
}

fn resume_of<'a>(files: &[&'a str], items: &[Item<'a>]) -> Option<Command<'a>>
    ensures said { option_map said result
        ≡ resume_of (names_of files.now) (options_of Halt (items_of items.now)) }
    ensures within { IfSome result (λ c. IsWithin (said c)) }
{
    match files {
        [name] => Some(Command::Resume {
            name: *name,
            options: options_of(Strictness::Halt, items)?,
        }),
        _ => None,
    }
}

fn jobs_of<'a>(files: Names<'a>, items: &[Item<'a>]) -> Option<Command<'a>>
    requires files { names_of files.items ≡ names (items_of items.now) }
    requires are { AreFiles (names_of files.items) }
    ensures said { option_map said result ≡ jobs_of (items_of items.now) }
    ensures within { IfSome result (λ c. IsWithin (said c)) }
{
    let dialect = dialect_of(value_in(Key::Dialect, items))?;
    let pool = pool_of(files.len(), value_in(Key::Pool, items))?;
    let steps = steps_of(value_in(Key::Steps, items))?;
    let turns = turns_of(value_in(Key::Turns, items))?;
    Some(Command::Jobs {
        files,
        options: JobsOptions {
            dialect,
            order: value_in(Key::Order, items),
            pool,
            steps,
            turns,
            input: value_in(Key::Input, items),
        },
    })
}

fn work_of<'a>(items: &[Item<'a>]) -> Option<Command<'a>>
    ensures said { option_map said result ≡ work_of (items_of items.now) }
    ensures within { IfSome result (λ c. IsWithin (said c)) }
{
    let seed = seed_of(value_in(Key::Seed, items))?;
    let size = size_of(value_in(Key::Size, items))?;
    let options = options_of(Strictness::Halt, items)?;
    Some(Command::Work {
        seed,
        size,
        options,
    })
}

fn vectors_of<'a>(items: &[Item<'a>]) -> Option<Command<'a>>
    ensures said { option_map said result ≡ vectors_of (items_of items.now) }
    ensures within { IfSome result (λ c. IsWithin (said c)) }
{
    let words = VectorWords {
        opcodes: value_in(Key::Opcode, items),
        count: value_in(Key::Count, items),
        seed: value_in(Key::Seed, items),
        absent: value_in(Key::Absent, items),
        mode: value_in(Key::Mode, items),
    };
    Some(Command::Vectors(request_of(words)?))
}

/// What a command's files and options say.
fn said_of<'a>(verb: Verb, files: Names<'a>, items: &[Item<'a>]) -> Option<Command<'a>>
    requires files { names_of files.items ≡ names (items_of items.now) }
    requires takes { takes_files verb (length (names_of files.items)) ≡ true }
    ensures said { option_map said result ≡ said_of verb (items_of items.now) }
    ensures within { IfSome result (λ c. IsWithin (said c)) }
{
    match verb {
        Verb::Bare => Some(Command::Bare {
            files,
            options: options_of(Strictness::Halt, items)?,
        }),
        Verb::Run => Some(Command::Run {
            files,
            options: options_of(Strictness::Success, items)?,
        }),
        Verb::Build => build_of(files, items),
        Verb::List => Some(Command::List {
            files,
            target: target_of(items)?,
        }),
        Verb::Listing => Some(Command::Listing {
            files,
            target: target_of(items)?,
        }),
        Verb::Check => check_of(files, items),
        Verb::Console => console_of(files, items),
        Verb::Debug => debug_of(files, items),
        Verb::Trace => trace_of(files, items),
        Verb::Save => save_of(files, items),
        Verb::Resume => resume_of(files.as_slice(), items),
        Verb::Jobs => jobs_of(files, items),
        Verb::Work => work_of(items),
        Verb::Vectors => vectors_of(items),
    }
}

/// What a command's items say: it takes so many files as it is given, each option at most once, and at most four files of macros.
fn checked<'a>(verb: Verb, items: &[Item<'a>]) -> Option<Asked<'a>>
    ensures said { option_map asked result ≡ checked verb (items_of items.now) }
    ensures within { IfSome result (λ a. IsAskedWithin (asked a)) }
{
    let files = names_in(items)?;
    if !verb.takes_files(files.len()) || !are_distinct(items) {
        return None;
    }
    let macros = values_in(Key::Macros, items)?;
    let command = said_of(verb, files, items)?;
    Some(Asked { command, macros })
}

/// One word, `--help`.
fn asks_help(words: &[String]) -> bool
    ensures { result ≡ asks_help (texts words.now) }
{
    match words {
        [word] => word.as_str() == "--help",
        _ => false,
    }
}

/// One word, `--help` or `--version`.
fn asks_about(words: &[String]) -> bool
    ensures { result ≡ asks_about (texts words.now) }
{
    match words {
        [word] => word.as_str() == "--help" || word.as_str() == "--version",
        _ => false,
    }
}

/// A command with its preludes, and the items behind its word that say it.
#[derive(Drop)]
pub(crate) struct Plain<'a> {
    pub(crate) asked: Asked<'a>,
    pub(crate) said: Option<Said<'a>>,
}

/// The items behind the word of a command.
#[derive(Drop)]
pub(crate) struct Said<'a> {
    pub(crate) verb: Verb,
    pub(crate) items: Items<'a>,
}

/// What names and options say, in any order.
#[tactic(auto, using(crate::proofs::Counted::few_checked, crate::proofs::Counted::none_checked))]
fn read_command<'a>(verb: Verb, words: &'a [String]) -> Option<Plain<'a>>
    ensures said { option_map (λ p. asked p.asked) result
        ≡ option_and_then (checked verb) (items_from (keys_of verb) None (texts words.entry.now)) }
    ensures within { IfSome result (λ p. IsAskedWithin (asked p.asked)) }
{
    let items = read_items(verb.keys(), words)?;
    let asked = checked(verb, &items)?;
    let said = Some(Said { verb, items });
    Some(Plain { asked, said })
}

/// The command that asks for a text about the program.
fn about<'a>() -> Plain<'a>
    ensures about { asked result.asked ≡ plain_about }
    ensures none { result.said ≡ None }
{
    Plain {
        asked: Asked {
            command: Command::About,
            macros: ArrayVec::new(),
        },
        said: None,
    }
}

/// What stands behind a command.
fn behind<'a>(verb: Verb, words: &'a [String]) -> Option<Plain<'a>>
    ensures said { option_map (λ p. asked p.asked) result
        ≡ behind verb (texts words.entry.now) }
    ensures within { IfSome result (λ p. IsAskedWithin (asked p.asked)) }
{
    if asks_help(words) {
        return Some(about());
    }
    read_command(verb, words)
}

/// The command that plain words name.
pub(crate) fn plain_command<'a>(words: &'a [String]) -> Option<Plain<'a>>
    ensures said { option_map (λ p. asked p.asked) result ≡ command_of (texts words.entry.now) }
    ensures within { IfSome result (λ p. IsAskedWithin (asked p.asked)) }
{
    if asks_about(words) {
        return Some(about());
    }
    let (word, words) = words.split_first()?;
    behind(verb_of(word)?, words)
}
