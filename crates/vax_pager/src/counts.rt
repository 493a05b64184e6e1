//! Counts that stand still at their last value.
ghost use Rattle.std.specs.Prelude.{◌≡◌, ◌≤◌, if◌then◌else◌, true};
ghost use Rattle.vax_outside.specs.Faults.{raised};
ghost use Rattle.vax_pager.specs.Store.{lowered_if};

/// One more, or the last value.
#[inline]
pub(crate) fn raised(count: u64) -> u64
    ensures { result ≡ raised count }
{
    count.saturating_add(1)
}

/// One more where it is so.
#[inline]
pub(crate) fn raised_if(test: bool, count: u64) -> u64
    ensures { result ≡ (if test then raised count else count) }
{
    if test { raised(count) } else { count }
}

/// One less where it is so.
#[inline]
pub(crate) fn lowered_if(test: bool, count: u32) -> u32
    requires some { test ≡ true → 1 ≤ count }
    ensures { result ≡ lowered_if test count }
{
    if test { count - 1 } else { count }
}
