// The image of a program's parts.

ghost use Rattle.std.specs.Prelude.{◌≡◌, ◌≤◌, All, Err, IfOk, length};
ghost use Rattle.vax_image.specs.Image.{IsImage};
ghost use Rattle.vax_link.specs.Linked.{linked};
ghost use Rattle.vax_module.specs.Formed.{Formed};
ghost use Rattle.vax_program.specs.Program.{linked_of, from_link};
ghost use Rattle.vax_program.specs.View.{Answers, IsSound, base_of, parts_seen};

use crate::types::{Parts, ProgramError, Refusal};
use std::alloc::Global;
use vax_image::{Base, Image};
use vax_link::{LinkError, link};
use vax_module::Module;
use vax_space::Bytes;

/// What the linker found, by its number.
fn found(kind: u8, name: Bytes, address: u32) -> ProgramError
    ensures { result ≡ ProgramError.Refused (Refusal.Link kind name address) }
{
    ProgramError::Refused(Refusal::Link {
        kind,
        name,
        address,
    })
}

/// Why what the linker found leaves files without a program.
pub fn link_refusal(alloc: Global, error: LinkError) -> ProgramError
    ensures refusal { Answers (λ image. image) (Err result) (from_link (Err error)) }
    ensures memory { error ≡ LinkError.NoMemory → result ≡ ProgramError.NoMemory }
{
    match error {
        LinkError::Undefined(name) => found(1, name, 0),
        LinkError::Duplicate(name) => found(2, name, 0),
        LinkError::Pages => found(3, Bytes::from(Vec::new(alloc)), 0),
        LinkError::NoTransfer => found(4, Bytes::from(Vec::new(alloc)), 0),
        LinkError::Reach(address) => found(5, Bytes::from(Vec::new(alloc)), address),
        LinkError::NoMemory => ProgramError::NoMemory,
    }
}

/// The image of modules.
#[tactic(auto, using(crate::proofs::Bases::linked_base))]
fn link_modules(alloc: Global, base: Base, modules: &[Module]) -> Result<Image, ProgramError>
    requires some { 1 ≤ length modules.now }
    requires few { length modules.now ≤ 8 }
    requires formed { All Formed modules.now }
    ensures image { Answers (λ image. image) result (from_link (linked base modules.now)) }
    ensures sound { IfOk result IsImage }
    ensures base { IfOk result (λ image. image.base ≡ base) }
{
    match link(alloc, modules, base) {
        Ok(image) => Ok(image),
        Err(error) => Err(link_refusal(alloc, error)),
    }
}

/// The image of a program's parts: the image itself, or that of the modules, linked.
///
/// [`Refusal::Link`] with what the linker found; [`ProgramError::NoMemory`] where memory is refused.
#[tactic(auto, unfolding(crate::specs::Program::linked_of))]
pub fn link_parts(alloc: Global, parts: Parts) -> Result<Image, ProgramError>
    requires { IsSound parts }
    ensures image { Answers (λ image. image) result (linked_of (parts_seen parts)) }
    ensures sound { IfOk result IsImage }
    ensures base { IfOk result (λ image. image.base ≡ base_of parts) }
{
    match parts {
        Parts::Image(image) => Ok(image),
        Parts::Modules { base, list } => link_modules(alloc, base, &list),
    }
}
