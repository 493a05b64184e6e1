//! What a machine starts with.
use vax_image::Image;

/// What a machine starts with: a system for kernel mode, and a program in user mode under it, if there is one.
#[derive(Drop)]
pub struct Programs {
    pub system: Image,
    pub user: Option<Image>,
}
