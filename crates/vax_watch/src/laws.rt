//! The law of where a traced run is to stop, the contract of a call that does nothing.
ghost use Rattle.std.specs.Prelude.{◌≡◌, ◌<◌, ℕ, List};
ghost use Rattle.vax_flat.specs.Step.{Flat};
ghost use Rattle.vax_watch.specs.Breaks.{IsFirstBreak, stop_at};

/// A run of at most so many steps is to stop at the first break, if that comes below the limit, and else at the limit.
pub fn breaks_are_least()
    ensures first { (limit : ℕ) (breaks : List ℕ) (start : Flat) (n : ℕ)
        → IsFirstBreak breaks start n → n < limit → stop_at limit breaks start ≡ n }
    ensures only { (limit : ℕ) (breaks : List ℕ) (start : Flat)
        → stop_at limit breaks start < limit
        → IsFirstBreak breaks start (stop_at limit breaks start) }
{}
