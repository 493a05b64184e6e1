//! The guests that come with the emulator: the executive under which user programs run, and programs that are made from
//! two numbers. Both are MACRO-32 sources.
#![tactic(auto)]

mod services;
mod workload;

pub use services::executive;
pub use workload::generate;
