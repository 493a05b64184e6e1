//! What the words of `vectors` say.
ghost use Rattle.std.specs.Prelude.{◌≡◌};
ghost use Rattle.std.specs.Option.{option_copied};
ghost use Rattle.vax_cli.specs.Vectors.{count_of, mode_of, one_of, opcodes_of, request_of};

use crate::number::decimal_from;
use crate::values::{seed_of, switch_of};
use vax_isa::by_name;

/// The instructions that vectors are of.
#[derive(Clone, Copy, PartialEq, Eq)]
pub enum Opcodes {
    /// All of them: `--opcode all`.
    All,
    /// The one with this opcode: `--opcode NAME`.
    One(u8),
}

/// The vectors that are asked for.
#[derive(Clone, Copy, PartialEq, Eq)]
pub struct VectorRequest {
    pub opcodes: Opcodes,
    /// `--count N`: how many for each instruction, 1 to 1,000,000.
    pub count: u32,
    /// `--seed N`: the number that they are made from; 1 where no word says it.
    pub seed: u32,
    /// `--absent on` or `--absent off`: whether each is followed by the same with pages absent; off where no word says it.
    pub absent: bool,
    /// `--mode NAME`: the access mode at the start, 0 kernel, 1 executive, 2 supervisor, 3 user; kernel where no word says it.
    pub mode: u8,
}

/// The words of the options.
#[derive(Clone, Copy)]
pub(crate) struct VectorWords<'a> {
    pub(crate) opcodes: Option<&'a str>,
    pub(crate) count: Option<&'a str>,
    pub(crate) seed: Option<&'a str>,
    pub(crate) absent: Option<&'a str>,
    pub(crate) mode: Option<&'a str>,
}

/// The instruction with a name.
#[tactic(auto, using(crate::proofs::Named::one_named, crate::proofs::Named::none_named))]
fn one_of(word: &str) -> Option<Opcodes>
    ensures { result ≡ one_of word.now }
{
    match by_name(word) {
        Some(row) => Some(Opcodes::One(row.code)),
        None => None,
    }
}

/// All instructions, or the one with a name.
fn opcodes_of(word: &str) -> Option<Opcodes>
    ensures { result ≡ opcodes_of word.now }
{
    if word == "all" {
        return Some(Opcodes::All);
    }
    one_of(word)
}

/// How many vectors for each instruction.
fn count_of(word: &str) -> Option<u32>
    ensures { result ≡ count_of word.now }
{
    Some(decimal_from(1, 1_000_000, word)? as u32)
}

/// The number of an access mode.
fn mode_of(word: Option<&str>) -> Option<u8>
    ensures { result ≡ mode_of (option_copied word.entry) }
{
    match word {
        None | Some("kernel") => Some(0),
        Some("executive") => Some(1),
        Some("supervisor") => Some(2),
        Some("user") => Some(3),
        Some(_) => None,
    }
}

/// What the words say, of which those of the opcodes and of the count have to be there.
pub(crate) fn request_of(words: VectorWords<'_>) -> Option<VectorRequest>
    ensures { result ≡ request_of (option_copied words.entry.opcodes)
        (option_copied words.entry.count) (option_copied words.entry.seed)
        (option_copied words.entry.absent) (option_copied words.entry.mode) }
{
    let opcodes = opcodes_of(words.opcodes?)?;
    let count = count_of(words.count?)?;
    let seed = seed_of(words.seed)?;
    let absent = switch_of(words.absent)?;
    let mode = mode_of(words.mode)?;
    Some(VectorRequest {
        opcodes,
        count,
        seed,
        absent,
        mode,
    })
}
