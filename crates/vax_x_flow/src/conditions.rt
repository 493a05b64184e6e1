//! What decides whether control goes on at the target.
ghost use Rattle.std.specs.Prelude.{◌≡◌, ◌^◌, ◌<◌};
ghost use Rattle.vax_word.specs.Arithmetic.{bytes_of};
ghost use Rattle.vax_flat.specs.Control.{holds, compares, within};

use vax_isa::{Condition, Relation};
use vax_word::{Codes, Size, is_negative, signed_less};

/// Whether the condition codes are those for which a branch is taken.
#[inline(always)]
#[tactic(auto, unfolding(vax_flat::specs::Control::holds))]
pub fn holds(condition: Condition, codes: Codes) -> bool
    ensures { result ≡ holds condition codes }
{
    match condition {
        Condition::Always => true,
        Condition::NotEqual => !codes.z,
        Condition::Equal => codes.z,
        Condition::Greater => !(codes.n || codes.z),
        Condition::LessOrEqual => codes.n || codes.z,
        Condition::GreaterOrEqual => !codes.n,
        Condition::Less => codes.n,
        Condition::GreaterUnsigned => !(codes.c || codes.z),
        Condition::LessOrEqualUnsigned => codes.c || codes.z,
        Condition::OverflowClear => !codes.v,
        Condition::OverflowSet => codes.v,
        Condition::CarryClear => !codes.c,
        Condition::CarrySet => codes.c,
    }
}

/// How two signed longwords compare.
#[inline(always)]
#[tactic(auto, unfolding(vax_flat::specs::Control::compares))]
pub fn compares(relation: Relation, a: u64, b: u64) -> bool
    requires a { a < 256 ^ 4 }
    requires b { b < 256 ^ 4 }
    ensures { result ≡ compares relation a b }
{
    match relation {
        Relation::Less => signed_less(Size::L, a, b),
        Relation::LessOrEqual => !signed_less(Size::L, b, a),
        Relation::Greater => signed_less(Size::L, b, a),
        Relation::GreaterOrEqual => !signed_less(Size::L, a, b),
    }
}

/// Whether an index that grew by the addend is not yet past the limit.
#[inline]
#[tactic(auto, unfolding(vax_flat::specs::Control::within))]
pub(crate) fn within(size: Size, addend: u64, limit: u64, index: u64) -> bool
    requires addend { addend < 256 ^ bytes_of size }
    requires limit { limit < 256 ^ bytes_of size }
    requires index { index < 256 ^ bytes_of size }
    ensures { result ≡ within size addend limit index }
{
    if is_negative(size, addend) {
        !signed_less(size, index, limit)
    } else {
        !signed_less(size, limit, index)
    }
}
