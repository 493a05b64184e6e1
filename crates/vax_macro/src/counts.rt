// Counts of lines, labels and begins.

ghost use Rattle.std.specs.Prelude.{◌≡◌, ◌+◌, IfOk};

use vax_space::NoMemory;

/// One more. A source has at most 100,000 lines that are read, of at most 1,024 bytes each, so that none of its counts
/// comes near 2^32; one that did is answered like what there is no room for.
pub(crate) fn one_more(count: u32) -> Result<u32, NoMemory>
    ensures { IfOk result (λ n. n ≡ count + 1) }
{
    match count.checked_add(1) {
        Some(next) => Ok(next),
        None => Err(NoMemory),
    }
}
