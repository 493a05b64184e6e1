//! The lines that tell where steps stopped, and where they are to stop.
ghost use Rattle.std.specs.Prelude.{◌≡◌, ◌+◌, ◌≤◌, ◌++◌, length};
ghost use Rattle.vax_debug_replies.specs.Stops.{break_line, here, reason};

use crate::instructions::push_instruction_line;
use crate::places::push_place;
use crate::sources::push_source_line;
use vax_debug_names::Legend;
use vax_outside::Text;
use vax_report::{Last, push_ending};

/// Appends the line of why the machine stands still, if there is a reason but that the steps were made.
pub fn push_reason(text: &mut Text, last: Option<Last>)
    requires { length text.old + 18 ≤ 512 }
    ensures exact { text.new ≡ text.old ++ reason last }
    ensures short { length text.new ≤ length text.old + 18 }
{
    if let Some(last) = last {
        push_ending(text, last);
    }
}

/// Appends the line of the instruction at PC, with which cells begin, and below it that of the statement that it came from, if it is known.
#[tactic(auto, unfolding(crate::specs::Stops::here))]
pub fn push_here(text: &mut Text, legend: &Legend, address: u32, cells: &[Option<u8>])
    requires few { length cells.now ≤ 64 }
    requires room { length text.old + 435 ≤ 512 }
    ensures exact { text.new ≡ text.old ++ here legend.now address cells.now }
    ensures short { length text.new ≤ length text.old + 435 }
{
    text.push(b"AT ");
    push_instruction_line(text, legend, address, cells);
    push_source_line(text, legend, address);
}

/// Appends the line of an address at which steps stop.
#[tactic(auto, unfolding(crate::specs::Stops::break_line))]
pub fn push_break_line(text: &mut Text, legend: &Legend, address: u32)
    requires { length text.old + 56 ≤ 512 }
    ensures exact { text.new ≡ text.old ++ break_line legend.now address }
    ensures short { length text.new ≤ length text.old + 56 }
{
    text.push(b"BREAK ");
    push_place(text, legend, address);
    text.push(b"\n");
}
