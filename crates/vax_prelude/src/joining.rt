// The text that is assembled for a source.

ghost use Rattle.std.specs.Prelude.{◌≡◌, ◌≤◌, ◌++◌, ◌∷◌, [], IfOk, OnOk, length, map};
ghost use Rattle.vax_prelude.specs.Preludes.{ended, ends, joined, preludes_of};
ghost use Rattle.vax_prelude.specs.View.{preludes_seen};

use crate::types::Prelude;
use std::alloc::{AllocError, Global};

/// Whether the last line of a text ends, or it has none.
#[tactic(auto, unfolding(crate::specs::Preludes::ends), using(crate::proofs::Ending::ends_by))]
fn ends(text: &[u8]) -> bool
    ensures { result ≡ ends text.now }
{
    match text.split_last() {
        None => true,
        Some((last, _)) => *last == b'\n',
    }
}

/// A text whose last line ends too.
fn ended(alloc: Global, text: &[u8]) -> Result<Vec<u8>, AllocError>
    ensures { IfOk result (λ v. v.items ≡ ended text.now) }
{
    let mut all = Vec::from_slice(alloc, text)?;
    if !ends(text) {
        all.push(b'\n')?;
    }
    Ok(all)
}

/// Appends the prelude of a file.
fn push_prelude<'a>(
    alloc: Global,
    all: &mut Vec<Prelude<'a>>,
    name: &'a [u8],
    text: &[u8],
) -> Result<(), AllocError>
    ensures { OnOk result (preludes_seen all.new.items ≡ preludes_seen all.old.items ++ record {
      name = name.entry.now;
      text = ended text.now;
    } ∷ []) }
{
    let text = ended(alloc, text)?;
    all.push(Prelude { name, text })?;
    Ok(())
}

/// The preludes of files with these names, one for each.
#[tactic(auto, using(crate::proofs::Naming::prelude_more))]
pub fn preludes_of<'a>(
    alloc: Global,
    names: &[&'a str],
    texts: &[Vec<u8>],
) -> Result<Vec<Prelude<'a>>, AllocError>
    ensures { IfOk result (λ v. preludes_seen v.items
        ≡ preludes_of (map (λ name. name.now) names.now) (map (λ v. v.items) texts.now)) }
{
    let mut all = Vec::new(alloc);
    for i in 0..names.len().min(texts.len()) {
        push_prelude(alloc, &mut all, names[i].as_bytes(), &texts[i])?;
    }
    Ok(all)
}

/// The text that is assembled for a source: those of the preludes in their order, and then its own.
#[tactic(auto, using(crate::proofs::Naming::text_added, crate::proofs::Naming::texts_added))]
pub fn joined(alloc: Global, preludes: &[Prelude<'_>], text: &[u8]) -> Result<Vec<u8>, AllocError>
    ensures { IfOk result (λ v. v.items ≡ joined (preludes_seen preludes.now) text.now) }
{
    let mut all = Vec::new(alloc);
    for prelude in preludes {
        all.extend_from_slice(&prelude.text)?;
    }
    all.extend_from_slice(text)?;
    Ok(all)
}
