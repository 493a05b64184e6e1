//! What the options of `jobs` say.
ghost use Rattle.std.specs.Prelude.{◌≡◌, ◌*◌, ◌≤◌, IfSome};
ghost use Rattle.std.specs.Option.{option_copied};
ghost use Rattle.vax_cli.specs.Jobs.{pool_of};

use crate::number::number_of;
use vax_dialect::Dialect;

/// What several programs are given.
#[derive(PartialEq, Eq, Drop)]
pub struct JobsOptions<'a> {
    /// `--dialect NAME`: the dialect of the sources.
    pub dialect: Dialect,
    /// `--order NAME`: the file of the order in which they go; none where each makes one attempt in turn.
    pub order: Option<&'a str>,
    /// `--pool N`: how many pages of all of them may be resident, 64 for each to 32,768; 1,024 where no word says it.
    pub pool: u32,
    /// `--steps N`: the most steps of each, at most 10^15; 10,000,000 where no word says it.
    pub steps: u64,
    /// `--turns N`: the most attempts of all, 1 to 10^15; 10^12 where no word says it.
    pub turns: u64,
    /// `--input NAME`: the file of the console's input, of which each gets all; none where there is no input.
    pub input: Option<&'a str>,
}

/// How many pages of so many programs may be resident: 64 for each to 32,768.
pub(crate) fn pool_of(count: usize, word: Option<&str>) -> Option<u32>
    requires { count ≤ 8 }
    ensures number { result ≡ pool_of count (option_copied word.entry) }
    ensures least { IfSome result (λ n. 64 * count ≤ n) }
    ensures most { IfSome result (λ n. n ≤ 32768) }
{
    Some(number_of(1_024, 64 * count as u64, 32_768, word)? as u32)
}
