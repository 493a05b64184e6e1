//! What is kept of where sections lie.
ghost use Rattle.vax_link.specs.Layout.{sections_in, names_in, IsPlaced};

use vax_image::Base;
use vax_module::Section;

/// The sections of modules, one after the other, with the addresses at which they lie.
#[derive(Drop)]
pub(crate) struct Layout<'a> {
    pub(crate) base: Base,
    pub(crate) pieces: Vec<&'a Section>,
    /// The names of the sections, in the order in which they first appear.
    pub(crate) names: Vec<&'a [u8]>,
    /// The page at which each of them begins.
    pub(crate) pages: Vec<u32>,
    /// Where each piece lies.
    pub(crate) addresses: Vec<u32>,
    /// The place of each module's first section among the pieces.
    pub(crate) firsts: Vec<usize>,
    pub ghost placed: { IsPlaced base (sections_in pieces.items) (names_in names.items)
        pages.items addresses.items },
}
