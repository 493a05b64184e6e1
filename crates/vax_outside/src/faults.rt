//! The calls of an object that failed.
ghost use Rattle.std.specs.Prelude.{◌≡◌};
ghost use Rattle.vax_outside.specs.Faults.{CountsFailure, no_failures, raised};

/// How many calls of an object failed, up to the last value, and whether the last call of all did.
#[derive(Clone, Copy)]
pub struct Failures {
    pub count: u64,
    pub last: bool,
}

impl Failures {
    /// Before the first call.
    pub(crate) fn none() -> Failures
        ensures { result ≡ no_failures }
    {
        Failures {
            count: 0,
            last: false,
        }
    }

    /// Notes a call, which failed or didn't.
    pub(crate) fn note(&mut self, failed: bool)
        ensures counts { CountsFailure failed self.old self.new }
        ensures last { self.new.last ≡ failed }
    {
        if failed {
            self.count = raised(self.count);
        }
        self.last = failed;
    }
}

/// One more, or the last value.
#[inline]
pub(crate) fn raised(count: u64) -> u64
    ensures { result ≡ raised count }
{
    count.saturating_add(1)
}
