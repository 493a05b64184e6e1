//! The lines of a schedule that a turn takes.
ghost use Rattle.std.specs.Prelude.{◌≡◌, ◌<◌, ◌≤◌, ◌+◌, ◌%◌, ◌^◌, ◌==◌, ℕ, length, false, true, slice_get, map};
ghost use Rattle.std.specs.List.{list_all};
ghost use Rattle.std.specs.List.Sorted.{IsPartitionPoint};
ghost use Rattle.vax_sched.specs.Due.{IsGap, fixed_now, repeated_now};
ghost use Rattle.vax_sched.specs.Kept.{Ascends, is_divisor};

use crate::rule::{Fixed, Repeated, Target};
use std::marker::Model;

/// The targets of a turn that are still to come, in order. Contracts see their list.
#[derive(Drop)]
pub struct Targets<'a> {
    turn: u64,
    /// `at` lines for the turn.
    fixed: &'a [Fixed],
    /// `each` lines, whose numbers divide the turn or don't.
    repeated: &'a [Repeated],
}

impl<'a> Model for Targets<'a> {
    ghost use Rattle.std.specs.Prelude.{◌≡◌, true, List};
    ghost use Rattle.std.specs.List.{list_all};
    ghost use Rattle.vax_sched.specs.declared.rule.Target.{Target};
    ghost use Rattle.vax_sched.specs.Due.{targets_of};
    ghost use Rattle.vax_sched.specs.Kept.{is_divisor};

    ghost Value = { List Target };

    ghost view = { λ t. targets_of t.turn t.fixed.now t.repeated.now };

    ghost invariant = { λ t. list_all is_divisor t.repeated.now ≡ true };
}

impl<'a> Targets<'a> {
    ghost use Rattle.vax_sched.specs.Due.{targets_of};

    /// The targets of a turn: these `at` lines are for it, and the `each` lines may be.
    pub(crate) fn new(turn: u64, fixed: &'a [Fixed], repeated: &'a [Repeated]) -> Targets<'a>
        requires { list_all is_divisor repeated.now ≡ true }
        ensures { result ≡ targets_of turn fixed.entry.now repeated.entry.now }
    {
        Targets {
            turn,
            fixed,
            repeated,
        }
    }
}

impl<'a> Iterator for Targets<'a> {
    ghost use Rattle.std.specs.Iterator.{YieldsFirst, item_count};

    type Item = Target;

    ghost next_gives = { YieldsFirst (λ targets. targets) };

    ghost remaining = { item_count (λ targets. targets) };

    fn next(&mut self) -> Option<Target> {
        if let Some((rule, rest)) = self.fixed.split_first() {
            self.fixed = rest;
            return Some(Target::Page(rule.page));
        }
        while let Some((rule, rest)) = self.repeated.split_first() {
            self.repeated = rest;
            if self.turn % rule.turns == 0 {
                return Some(rule.target);
            }
        }
        None
    }
}

/// How many of the rules, which ascend, are for an earlier turn.
fn count_before(rules: &[Fixed], turn: u64) -> usize
    requires { Ascends rules.now }
    ensures within { result ≤ length rules.now }
    ensures split { IsPartitionPoint (λ rule. rule.turn < turn)
        (λ rule. turn ≤ rule.turn) rules.now result }
{
    rules.partition_point(|rule| rule.turn < turn)
}

/// How many of the rules, which ascend, are not for a later turn.
fn count_to(rules: &[Fixed], turn: u64) -> usize
    requires { Ascends rules.now }
    ensures within { result ≤ length rules.now }
    ensures split { IsPartitionPoint (λ rule. rule.turn ≤ turn)
        (λ rule. turn < rule.turn) rules.now result }
{
    rules.partition_point(|rule| rule.turn <= turn)
}

/// The rules for a turn, which stand together.
pub(crate) fn fixed_now(rules: &[Fixed], turn: u64) -> &[Fixed]
    requires { Ascends rules.now }
    ensures { result.now ≡ fixed_now turn rules.entry.now }
{
    let rest = rules.split_at(count_before(rules, turn)).1;
    rest.split_at(count_to(rest, turn)).0
}

/// The target of the rule at this place among those whose number divides the turn.
pub(crate) fn repeated_at(rules: &[Repeated], turn: u64, place: usize) -> Option<Target>
    requires { list_all is_divisor rules.now ≡ true }
    ensures { result ≡ slice_get (map (λ rule. rule.target) (repeated_now turn rules.now)) place }
{
    let mut left = place;
    for rule in rules {
        if turn % rule.turns == 0 {
            if left == 0 {
                return Some(rule.target);
            }
            left -= 1;
        }
    }
    None
}

/// How many turns from this one on no rule names.
pub(crate) fn fixed_gap(rules: &[Fixed], turn: u64) -> u64
    requires { Ascends rules.now }
    ensures { IsGap (λ t. fixed_now t rules.now) turn result }
{
    match rules.get(count_before(rules, turn)) {
        Some(next) => next.turn - turn,
        None => u64::MAX - turn,
    }
}

/// How far the next multiple of a number is.
fn distance(turns: u64, turn: u64) -> u64
    requires { 0 < turns }
    ensures here { (turn + result) % turns ≡ 0 }
    ensures before { (k : ℕ) → k < result → ((turn + k) % turns == 0) ≡ false }
{
    match turn % turns {
        0 => 0,
        past => turns - past,
    }
}

/// How many turns from this one on no rule's number divides.
pub(crate) fn repeated_gap(rules: &[Repeated], turn: u64) -> u64
    requires { list_all is_divisor rules.now ≡ true }
    ensures within { turn + result < 2 ^ 64 }
    ensures gap { IsGap (λ t. repeated_now t rules.now) turn result }
{
    let mut gap = u64::MAX - turn;
    for rule in rules {
        gap = gap.min(distance(rule.turns, turn));
    }
    gap
}
