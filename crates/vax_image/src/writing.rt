//! Writes an image as a file.
ghost use Rattle.std.specs.Prelude.{◌≡◌, ◌^◌, ◌<◌, ◌++◌, length, All, IfOk, OnOk};
ghost use Rattle.std.specs.List.{flat_map};
ghost use Rattle.vax_image.specs.Views as view;
ghost use Rattle.vax_image.specs.File.{File, File2, word, longword, entry, placing, counted, text_field};
ghost use Rattle.vax_image.specs.Image.{IsImage};

use crate::Image;
use crate::texts::{Text, take_text};
use byteorder::{ByteOrder, LittleEndian};
use std::alloc::{AllocError, Global};
use vax_space::{Area, NoMemory};

fn put_word(out: &mut Vec<u8>, n: u16) -> Result<(), AllocError>
    ensures { OnOk result (out.new.items ≡ out.old.items ++ word n) }
{
    let mut bytes = [0; 2];
    LittleEndian::write_u16(&mut bytes, n);
    out.extend_from_slice(&bytes)
}

fn put_longword(out: &mut Vec<u8>, n: u32) -> Result<(), AllocError>
    ensures { OnOk result (out.new.items ≡ out.old.items ++ longword n) }
{
    let mut bytes = [0; 4];
    LittleEndian::write_u32(&mut bytes, n);
    out.extend_from_slice(&bytes)
}

/// The base and the transfer address.
fn put_entry(out: &mut Vec<u8>, image: &Image) -> Result<(), AllocError>
    ensures { OnOk result (out.new.items ≡ out.old.items ++ entry image.now) }
{
    put_word(out, image.base.number())?;
    put_longword(out, image.transfer)
}

/// Where an area lies, and its protection code.
fn put_placing(out: &mut Vec<u8>, area: &Area) -> Result<(), AllocError>
    ensures { OnOk result (out.new.items ≡ out.old.items ++ placing area.now) }
{
    put_longword(out, area.first)?;
    put_longword(out, area.pages)?;
    put_longword(out, u32::from(area.prot))?;
    Ok(())
}

/// A length, and that many bytes.
fn put_counted(out: &mut Vec<u8>, bytes: &[u8]) -> Result<(), AllocError>
    requires { length bytes.now < 2 ^ 32 }
    ensures { OnOk result (out.new.items ≡ out.old.items ++ counted bytes.now) }
{
    put_longword(out, bytes.len() as u32)?;
    out.extend_from_slice(bytes)
}

/// The texts, each counted.
fn put_texts(out: &mut Vec<u8>, texts: &[Text]) -> Result<(), AllocError>
    requires { All (λ text. length text.bytes < 2 ^ 32) (view.texts texts.now) }
    ensures { OnOk result (out.new.items
        ≡ out.old.items ++ flat_map text_field (view.texts texts.now)) }
{
    for text in texts {
        put_counted(out, text.bytes)?;
    }
    Ok(())
}

/// The file of an image, in version 1.
#[tactic(auto, unfolding(crate::specs::File::fields_1))]
pub fn write(alloc: Global, image: &Image) -> Result<Vec<u8>, NoMemory>
    requires { IsImage image.now }
    ensures { IfOk result (λ bytes. File image.now bytes.items) }
{
    let areas = image.areas.as_slice();
    let mut out = Vec::from_slice(alloc, b"VAXI")?;
    put_word(&mut out, 1)?;
    put_entry(&mut out, image)?;
    put_longword(&mut out, areas.len() as u32)?;
    for area in areas {
        put_placing(&mut out, area)?;
        put_counted(&mut out, area.bytes.as_slice())?;
    }
    Ok(out)
}

/// The file of an image, in version 2, in which areas that no mode may write share their bytes.
#[tactic(auto, unfolding(crate::specs::File::fields_2))]
pub fn write2(alloc: Global, image: &Image) -> Result<Vec<u8>, NoMemory>
    requires { IsImage image.now }
    ensures { IfOk result (λ bytes. File2 image.now bytes.items) }
{
    let areas = image.areas.as_slice();
    let mut texts = Vec::new(alloc);
    let mut numbered = Vec::new(alloc);
    for area in areas {
        let number = take_text(&mut texts, area.bytes.as_slice(), area.prot)?;
        put_placing(&mut numbered, area)?;
        put_longword(&mut numbered, number)?;
    }
    let mut out = Vec::from_slice(alloc, b"VAXI")?;
    put_word(&mut out, 2)?;
    put_entry(&mut out, image)?;
    put_longword(&mut out, texts.len() as u32)?;
    put_longword(&mut out, areas.len() as u32)?;
    put_texts(&mut out, &texts)?;
    out.extend_from_slice(&numbered)?;
    Ok(out)
}
