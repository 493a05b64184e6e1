//! What a debugger does when it is asked to step, to change something, or to make pages absent, each with its reply.
//!
//! Each call takes a session of the flat machine from one place to another, and writes its reply to Report, whatever pages are absent (specs/Acting). Nothing
//! here takes memory.
#![tactic(auto)]

mod addresses;
mod attempts;
mod changes;
mod deposits;
mod evictions;
mod moves;
mod reply;
mod status;
mod stops;

pub use crate::addresses::{clear_all, clear_at, stop_at, watch};
pub use crate::attempts::turn;
pub use crate::deposits::{deposit_into_memory, deposit_into_register};
pub use crate::evictions::{evict_all, evict_at};
pub use crate::moves::{go, leave, over, step, until};
pub use crate::status::{deposit_into_field, deposit_into_status};
pub use crate::stops::Setting;
pub use vax_debug::{Failure, Plan};
