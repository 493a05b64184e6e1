//! Tests of what a debugger does and replies, and of its sessions, line by line.
#![tactic(auto)]

#[cfg(test)]
mod acts;
#[cfg(test)]
mod sessions;
