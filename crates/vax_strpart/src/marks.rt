//! The first of the places that a test marks.
ghost use Rattle.std.specs.Prelude.{◌≡◌, ◌+◌, ◌<◌, ◌≤◌, IfSome, length, take, drop, false, slice_index_or};
ghost use Rattle.std.specs.List.{position, position_or_len};
ghost use Rattle.std.specs.Simd.Lanes.{mask_l};

/// How many places a block has.
pub(crate) const BLOCK: usize = 32;

/// Places that a test marks or doesn't.
pub(crate) trait Marks {
    ghost use Rattle.std.specs.Prelude.{List, Bool};

    ghost marks: { Self → List Bool };

    /// How many places there are.
    fn len(&self) -> usize
        ensures { result ≡ length (marks self.now) };

    /// Whether a place is marked.
    fn at(&self, i: usize) -> bool
        requires { i < length (marks self.now) }
        ensures { result ≡ slice_index_or (marks self.now) i false };

    /// The marks of the 32 places from one on, the first in the lowest bit.
    fn block(&self, i: usize) -> u64
        requires { i + 32 ≤ length (marks self.now) }
        ensures { result ≡ mask_l (take 32 (drop i (marks self.now))) };
}

/// The first marked place from one on, or the number of places.
#[inline(always)]
fn first_slowly<M: Marks>(marks: &M, from: usize) -> usize
    requires { from ≤ length (M.marks marks.now) }
    ensures { result ≡ from + position_or_len (λ b. b) (drop from (M.marks marks.now)) }
{
    let mut i = from;
    while i < marks.len() && !marks.at(i) {
        i += 1;
    }
    i
}

/// The first marked place, or the number of places.
#[inline(always)]
fn first_or_len<M: Marks>(marks: &M) -> usize
    ensures { result ≡ position_or_len (λ b. b) (M.marks marks.now) }
{
    let mut i = 0;
    while marks.len() - i >= BLOCK {
        let found = marks.block(i);
        if found != 0 {
            return i + found.trailing_zeros() as usize;
        }
        i += BLOCK;
    }
    first_slowly(marks, i)
}

/// The first marked place.
#[inline(always)]
pub(crate) fn first<M: Marks>(marks: &M) -> Option<usize>
    ensures exact { result ≡ position (λ b. b) (M.marks marks.now) }
    ensures within { IfSome result (λ i. i < length (M.marks marks.now)) }
{
    let place = first_or_len(marks);
    if place < marks.len() {
        Some(place)
    } else {
        None
    }
}
