//! The lines of pages.
ghost use Rattle.std.specs.Prelude.{◌≡◌, ◌+◌, ◌≤◌, ◌++◌, length};
ghost use Rattle.vax_debug_replies.specs.Pages.{frames_line, missed_line, page_line, state_text};

use crate::places::push_place;
use vax_debug_names::Legend;
use vax_outside::Text;

/// How a page stands in the machine's frames.
#[derive(Clone, Copy, PartialEq, Eq)]
pub enum PageState {
    /// It is resident, as its block or the program's start has it.
    Resident,
    /// It is resident, and was written to.
    Modified,
    /// It is absent, and still has its frame.
    Kept,
}

/// How a page stands, in words.
fn state_text(state: PageState) -> &'static [u8]
    ensures text { result.now ≡ state_text state }
    ensures short { length result.now ≤ 17 }
{
    match state {
        PageState::Resident => b"RESIDENT",
        PageState::Modified => b"RESIDENT MODIFIED",
        PageState::Kept => b"KEPT",
    }
}

/// Appends the line of the page at an address.
#[tactic(auto, unfolding(crate::specs::Pages::page_line))]
pub fn push_page_line(text: &mut Text, legend: &Legend, address: u32, state: PageState)
    requires { length text.old + 69 ≤ 512 }
    ensures exact { text.new ≡ text.old ++ page_line legend.now address state }
    ensures short { length text.new ≤ length text.old + 69 }
{
    push_place(text, legend, address);
    text.push(b": ");
    text.push(state_text(state));
    text.push(b"\n");
}

/// Appends the line of how many pages may be resident.
#[tactic(auto, unfolding(crate::specs::Pages::frames_line))]
pub fn push_frames_line(text: &mut Text, frames: u32)
    requires { length text.old + 28 ≤ 512 }
    ensures exact { text.new ≡ text.old ++ frames_line frames }
    ensures short { length text.new ≤ length text.old + 28 }
{
    text.push(b"FRAMES ");
    text.push_decimal(u64::from(frames));
    text.push(b"\n");
}

/// Appends the line of the page at an address that an attempt missed.
#[tactic(auto, unfolding(crate::specs::Pages::missed_line))]
pub fn push_missed_line(text: &mut Text, legend: &Legend, address: u32)
    requires { length text.old + 57 ≤ 512 }
    ensures exact { text.new ≡ text.old ++ missed_line legend.now address }
    ensures short { length text.new ≤ length text.old + 57 }
{
    text.push(b"MISSED ");
    push_place(text, legend, address);
    text.push(b"\n");
}
