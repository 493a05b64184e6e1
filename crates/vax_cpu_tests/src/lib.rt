//! Tests of the processor: transactions, operands, each kind of instruction, exceptions.
#![tactic(auto)]

#[cfg(test)]
mod cpu;
#[cfg(test)]
mod exception;
#[cfg(test)]
mod instruction;
#[cfg(test)]
mod operand;
#[cfg(test)]
mod undo;
#[cfg(test)]
mod x_call;
#[cfg(test)]
mod x_field;
#[cfg(test)]
mod x_flow;
#[cfg(test)]
mod x_int;
#[cfg(test)]
mod x_queue;
#[cfg(test)]
mod x_str;
#[cfg(test)]
mod x_sys;
