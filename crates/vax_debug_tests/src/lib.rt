//! Tests of the debugger: its words, its names, its steps, and what it shows.
#![tactic(auto)]

#[cfg(test)]
mod frames;
#[cfg(test)]
mod names;
#[cfg(test)]
mod steps;
#[cfg(test)]
mod symbols;
#[cfg(test)]
mod views;
#[cfg(test)]
mod words;
