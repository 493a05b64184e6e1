//! Tests of the tables, the translation buffer, the lists of frames and the pager.
#![tactic(auto)]

#[cfg(test)]
mod lists;
#[cfg(test)]
mod pager;
#[cfg(test)]
mod table;
#[cfg(test)]
mod tb;
