//! Laws of the flat machine, which hold its definitions a second time: each says of a definition something that isn't how the definition is written.
//! They are the contracts of calls that do nothing.
#![tactic(auto)]

mod deliveries;
mod fields;
mod maximal;
mod operands;
mod parts;
mod processor;
mod queues;
mod requests;
mod stacks;
mod status;
mod steps;
mod tables;

pub use crate::deliveries::{
    deliveries_enter_handlers, deliveries_may_end_the_run, rei_refuses_all_others,
    rei_undoes_deliveries,
};
pub use crate::fields::{
    comparisons_follow_extraction, fields_are_read_back, first_bits_are_found,
};
pub use crate::maximal::{parts_are_maximal, searches_write_nothing};
pub use crate::operands::operands_fit;
pub use crate::parts::{
    moves_write_their_units, parts_end_with_their_pages, parts_write_their_units,
};
pub use crate::processor::{
    consoles_are_read, registers_are_read_back, registers_are_these, registers_stay_apart,
};
pub use crate::queues::{probes_keep_the_carry, removals_tell_emptiness, removals_undo_insertions};
pub use crate::requests::{
    clocks_count_steps, interrupts_take_their_request, the_highest_request_is_taken,
};
pub use crate::stacks::{
    arguments_are_counted_by_a_byte, pops_undo_pushes, pushes_name_their_registers,
};
pub use crate::status::{masks_change_their_bits, procedures_take_their_status};
pub use crate::steps::steps_come_to_an_end;
pub use crate::tables::tables_are_the_manuals;
