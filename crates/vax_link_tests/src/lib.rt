//! Tests of images, executables, linking, programs and the executive.
#![tactic(auto)]

#[cfg(test)]
mod chains;
#[cfg(test)]
mod elf;
#[cfg(test)]
mod errors;
#[cfg(test)]
mod guest;
#[cfg(test)]
mod image;
#[cfg(test)]
mod link;
#[cfg(test)]
mod overlaid;
#[cfg(test)]
mod program;
#[cfg(test)]
mod program_listing;
