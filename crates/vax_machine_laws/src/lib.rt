//! Laws that tie a paged run to the flat machine's own, and tell how many turns are enough for it. Each is the contract of a call that does nothing.
#![tactic(auto)]

mod laws;

pub use crate::laws::{
    events_take_few_turns, evictions_are_due, fixed_rules_are_due_once, runs_are_over_after_parts,
    runs_come_by_parts, runs_stop_so, turns_suffice,
};
