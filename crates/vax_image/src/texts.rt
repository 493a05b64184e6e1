//! The texts of a file of version 2, which areas that no mode may write share.
ghost use Rattle.std.specs.Prelude.{◌≡◌, ◌+◌, ◌≤◌, ◌<◌, OnOk, IfOk, length};
ghost use Rattle.vax_image.specs.Texts as spec;
ghost use Rattle.vax_image.specs.Views as view;
ghost use Rattle.vax_image.specs.Views.{texts};

use crate::NO_TEXT;
use std::alloc::AllocError;
use vax_space::{Access, allows};

/// The bytes of the area that a text was written for, and whether no mode may write that area.
#[derive(Clone, Copy)]
pub(crate) struct Text<'a> {
    pub(crate) bytes: &'a [u8],
    pub(crate) constant: bool,
}

/// The number of an area's text, where these are the texts before: the first that it shares, or the next new number.
#[tactic(auto, unfolding(crate::specs::Texts::number_among))]
pub(crate) fn number_among(taken: &[Text], bytes: &[u8], prot: u8) -> u32
    requires code { prot ≤ 15 }
    requires few { length taken.now ≤ 64 }
    ensures { result ≡ spec.number_among (texts taken.now) bytes.now prot }
{
    if bytes.is_empty() {
        return NO_TEXT;
    }
    for (number, text) in taken.iter().enumerate() {
        if is_shared(text, bytes, prot) {
            return number as u32;
        }
    }
    taken.len() as u32
}

/// Whether an area shares a text: no mode may write it or the text's area, and they have the same bytes.
fn is_shared(text: &Text, bytes: &[u8], prot: u8) -> bool
    requires { prot ≤ 15 }
    ensures { result ≡ spec.is_shared bytes.now prot (view.text text.now) }
{
    text.constant && !allows(prot, 0, Access::Write) && text.bytes == bytes
}

/// Takes an area's text, if it is new, and answers its number.
#[tactic(auto, unfolding(crate::specs::Texts::texts_with))]
pub(crate) fn take_text<'a>(
    taken: &mut Vec<Text<'a>>,
    bytes: &'a [u8],
    prot: u8,
) -> Result<u32, AllocError>
    requires code { prot ≤ 15 }
    requires few { length taken.old.items < 64 }
    ensures number { IfOk result (λ number. number
        ≡ spec.number_among (texts taken.old.items) bytes.entry.now prot) }
    ensures taken { OnOk result (texts taken.new.items
        ≡ spec.texts_with (texts taken.old.items) bytes.entry.now prot) }
    ensures few { OnOk result (length taken.new.items ≤ length taken.old.items + 1) }
{
    let number = number_among(taken, bytes, prot);
    if number as usize == taken.len() {
        let constant = !allows(prot, 0, Access::Write);
        taken.push(Text { bytes, constant })?;
    }
    Ok(number)
}
