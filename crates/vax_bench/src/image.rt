//! A program's file, as it starts under the executive.
ghost use Rattle.std.specs.Prelude.{◌≡◌, IfSome, length};
ghost use Rattle.vax_image.specs.Image.{IsImage};

use anyhow::{Result, bail};
use std::alloc::Global;
use vax_dialect::Dialect;
use vax_guest::executive;
use vax_image::{Base, Image, start};
use vax_program::{link_parts, read_parts};
use vax_space::Space;
use vax_word::Core;

/// The image of one file, if it is a program for this base.
fn image_of(alloc: Global, base: Base, files: &[Vec<u8>]) -> Option<Image>
    requires { length files.now ≡ 1 }
    ensures sound { IfSome result IsImage }
    ensures base { IfSome result (λ image. image.base ≡ base) }
{
    let Ok(parts) = read_parts(alloc, Dialect::Vax, base, 0, files) else {
        return None;
    };
    let Ok(image) = link_parts(alloc, parts) else {
        return None;
    };
    Some(image)
}

/// The memory and the registers with which the program of a file starts.
pub(crate) fn started(alloc: Global, file: Vec<u8>) -> Result<(Space, Core)> {
    let user = Vec::from_array(alloc, [file])?;
    let system = Vec::from_array(alloc, [Vec::from_slice(alloc, executive())?])?;
    let Some(user) = image_of(alloc, Base::User, &user) else {
        bail!("no program in user mode");
    };
    let Some(system) = image_of(alloc, Base::Bare, &system) else {
        bail!("no executive");
    };
    match start(alloc, &system, Some(&user)) {
        Ok(started) => Ok(started),
        Err(_) => bail!("no memory"),
    }
}
