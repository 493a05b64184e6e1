//! Where steps stop.
ghost use Rattle.std.specs.Prelude.{◌≡◌, List};
ghost use Rattle.vax_debug.specs.Travel.{reaches, is_stop, stops_at};
ghost use Rattle.vax_debug.specs.declared.watches.Seen.{Seen};

use crate::watches::{Snapshot, Watches};
use arrayvec::ArrayVec;
use std::marker::Model;
use vax_word::Core;

/// The most addresses.
const MOST: usize = 16;

/// An address with a stack pointer: steps stop there where the stack pointer is at least this, so that the same address within a deeper call is none.
#[derive(Clone, Copy, PartialEq, Eq)]
pub struct Goal {
    pub address: u32,
    pub least: u32,
}

/// At most 16 addresses before whose steps a machine stops. Contracts see the list itself.
#[derive(Drop)]
pub struct Breaks {
    items: ArrayVec<u32, 16>,
}

impl Model for Breaks {
    ghost use Rattle.std.specs.Prelude.{List, ℕ};

    ghost Value = { List ℕ };

    ghost view = { λ b. b.items.items };
}

impl Breaks {
    ghost use Rattle.std.specs.Prelude.{◌≡◌, ◌==◌, ◌<◌, [], ◌∷◌, ◌++◌, nat_le, length};
    ghost use Rattle.std.specs.List.{list_any};
    ghost use Rattle.vax_debug.specs.Travel.{without};

    /// No address.
    pub fn new() -> Breaks
        ensures { result ≡ [] }
    {
        Breaks {
            items: ArrayVec::new(),
        }
    }

    /// The addresses, in the order in which they came.
    pub fn as_slice(&self) -> &[u32]
        ensures { result.now ≡ self.now }
    {
        &self.items
    }

    /// Whether there are 16 already.
    pub fn is_full(&self) -> bool
        ensures { result ≡ nat_le 16 (length self.now) }
    {
        MOST <= self.items.len()
    }

    /// Whether this is one of them.
    pub fn has(&self, address: u32) -> bool
        ensures { result ≡ list_any (λ a. a == address) self.now }
    {
        self.items.contains(&address)
    }

    /// One more address, where there are fewer than 16.
    pub fn add(&mut self, address: u32)
        requires { length self.old < 16 }
        ensures { self.new ≡ self.old ++ address ∷ [] }
    {
        self.items.push(address);
    }

    /// All but this address.
    pub fn remove(&mut self, address: u32)
        ensures { self.new ≡ without address self.old }
    {
        let mut left = ArrayVec::new();
        for item in self.items.as_slice() {
            if *item != address {
                left.push(*item);
            }
        }
        self.items = left;
    }
}

/// Where steps are to stop, and what is watched.
#[derive(Drop)]
pub struct Plan {
    pub breaks: Breaks,
    pub watches: Watches,
}

impl Plan {
    ghost use Rattle.std.specs.Prelude.{◌≡◌};
    ghost use Rattle.vax_debug.specs.Plans.{no_plan};

    /// No address, and no watch.
    pub fn new() -> Plan
        ensures { result ≡ no_plan }
    {
        Plan {
            breaks: Breaks::new(),
            watches: Watches::new(),
        }
    }
}

/// Where steps stop: at these addresses, and where a watched byte isn't as it was seen.
#[derive(Clone, Copy)]
pub struct Marks<'a> {
    pub breaks: &'a Breaks,
    pub seen: &'a Snapshot,
}

/// Whether a goal is reached.
fn reaches(goal: Option<Goal>, core: &Core) -> bool
    ensures { result ≡ reaches goal core.now }
{
    match goal {
        None => false,
        Some(goal) => core.regs[15] == goal.address && goal.least <= core.regs[14],
    }
}

/// Whether steps are to stop here: PC is one of the addresses, or the goal is reached.
pub(crate) fn is_stop(breaks: &Breaks, goal: Option<Goal>, core: &Core) -> bool
    ensures { (seen : List Seen) → result ≡ is_stop (stops_at breaks.now seen goal) core.now }
{
    breaks.has(core.regs[15]) || reaches(goal, core)
}
