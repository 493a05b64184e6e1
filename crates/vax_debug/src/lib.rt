//! A debugger: steps up to stops, and looks at memory and changes it in between.
//!
//! Each call takes a session of the flat machine from one place to another, whatever pages are absent and were made absent in between (specs/Sessions).
//! Nothing here takes memory.
#![tactic(auto)]

mod attempts;
mod breaks;
mod calls;
mod failure;
mod frames;
mod laws;
mod memory;
mod places;
mod status;
mod travel;
mod values;
mod watches;

pub use crate::attempts::{Tried, attempt};
pub use crate::breaks::{Breaks, Goal, Marks, Plan};
pub use crate::calls::{go, go_to, over, step, until};
pub use crate::failure::Failure;
pub use crate::frames::{frame_goal, longword};
pub use crate::laws::travels_are_steps;
pub use crate::memory::{deposit, deposit_register, evict, examine};
pub use crate::places::{Place, locate};
pub use crate::status::{deposit_field, deposit_status};
pub use crate::values::{begins_too_large, evaluate};
pub use crate::watches::{Bytes, Seen, Snapshot, Watch, Watches, look};
