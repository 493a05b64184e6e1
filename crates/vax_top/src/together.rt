//! The programs of the command `jobs`: several in user mode, of one file each, and the executive.
ghost use Rattle.std.specs.Prelude.{◌≡◌, ◌≤◌, IfOk, length, map};
ghost use Rattle.std.specs.List.{All};
ghost use Rattle.vax_image.specs.declared.Base.TheVariants as base;
ghost use Rattle.vax_prelude.specs.View.{preludes_seen};
ghost use Rattle.vax_program.specs.Program.{linked_of, parts_of};
ghost use Rattle.vax_program.specs.View.{IsSound, base_of, parts_seen};
ghost use Rattle.vax_together.specs.Starting.{IsUser};
ghost use Rattle.vax_command.specs.JobsView.{AreTogether, together_seen};
ghost use Rattle.vax_command.specs.ReadingView.{texts as texts_seen};
ghost use Rattle.vax_top.specs.LoadedView.{Loads};
ghost use Rattle.vax_top.specs.Together.{all_linked, all_parts, linked_under, together_for, together_loaded};
ghost use Rattle.vax_top.specs.TogetherView.{IsForUser};

use crate::preludes::{join_files, tell_at};
use crate::programs::{answer_to, read_system};
use std::alloc::Global;
use std::collections::VecDeque;
use vax_command::{Status, Together};
use vax_dialect::Dialect;
use vax_image::{Base, Image};
use vax_prelude::Prelude;
use vax_program::{Parts, link_parts, read_parts};

/// The parts of one program, whose file has this number.
fn read_one(alloc: Global, dialect: Dialect, file: u8, text: &[Vec<u8>]) -> Result<Parts, Status>
    requires one { length text.now ≡ 1 }
    requires numbers { file ≤ 254 }
    ensures parts { Loads parts_seen result
        (parts_of dialect base.User file (texts_seen text.now)) }
    ensures sound { IfOk result IsForUser }
{
    match read_parts(alloc, dialect, Base::User, file, text) {
        Ok(parts) => Ok(parts),
        Err(error) => Err(answer_to(error)),
    }
}

/// The parts of programs of one file each, which are numbered from 1.
fn read_all(alloc: Global, dialect: Dialect, texts: &[Vec<u8>]) -> Result<Vec<Parts>, Status>
    requires few { length texts.now ≤ 8 }
    ensures parts { Loads (λ v. map parts_seen v.items) result
        (all_parts dialect 1 (texts_seen texts.now)) }
    ensures sound { IfOk result (λ v. All IsForUser v.items) }
    ensures count { IfOk result (λ v. length v.items ≡ length texts.now) }
{
    let mut all = Vec::new(alloc);
    for place in 0..texts.len() {
        let parts = read_one(alloc, dialect, place as u8 + 1, &texts[place..place + 1])?;
        if all.push(parts).is_err() {
            return Err(Status::NoMemory);
        }
    }
    Ok(all)
}

/// The image of a program's parts.
fn link_one(alloc: Global, parts: Parts) -> Result<Image, Status>
    requires { IsForUser parts }
    ensures image { Loads (λ image. image) result (linked_of (parts_seen parts)) }
    ensures sound { IfOk result IsUser }
{
    match link_parts(alloc, parts) {
        Ok(image) => Ok(image),
        Err(error) => Err(answer_to(error)),
    }
}

/// The images of programs, in their order.
fn link_all(alloc: Global, programs: Vec<Parts>) -> Result<Vec<Image>, Status>
    requires { All IsForUser programs.items }
    ensures images { Loads (λ v. v.items) result (all_linked (map parts_seen programs.items)) }
    ensures sound { IfOk result (λ v. All IsUser v.items) }
    ensures count { IfOk result (λ v. length v.items ≡ length programs.items) }
{
    let mut left = VecDeque::from_vec(programs);
    let mut all = Vec::new(alloc);
    while let Some(parts) = left.pop_front() {
        let image = link_one(alloc, parts)?;
        if all.push(image).is_err() {
            return Err(Status::NoMemory);
        }
    }
    Ok(all)
}

/// The images of programs, and then that of their system.
fn link_under(alloc: Global, users: Vec<Parts>, below: Parts) -> Result<Together, Status>
    requires users { All IsForUser users.items }
    requires some { 1 ≤ length users.items }
    requires few { length users.items ≤ 8 }
    requires below { base_of below ≡ base.Bare }
    requires below_sound { IsSound below }
    ensures loads { Loads together_seen result
        (linked_under (map parts_seen users.items) (parts_seen below)) }
    ensures sound { IfOk result AreTogether }
    ensures count { IfOk result (λ t. length t.users.items ≡ length users.items) }
{
    let users = link_all(alloc, users)?;
    match link_parts(alloc, below) {
        Ok(system) => Ok(Together { system, users }),
        Err(error) => Err(answer_to(error)),
    }
}

/// Programs in user mode and the executive: all are assembled before any is linked.
fn load_together(alloc: Global, dialect: Dialect, texts: &[Vec<u8>]) -> Result<Together, Status>
    requires some { 1 ≤ length texts.now }
    requires few { length texts.now ≤ 8 }
    ensures loads { Loads together_seen result (together_loaded dialect (texts_seen texts.now)) }
    ensures sound { IfOk result AreTogether }
    ensures count { IfOk result (λ t. length t.users.items ≡ length texts.now) }
{
    let users = read_all(alloc, dialect, texts)?;
    let below = match read_system(alloc, dialect, None) {
        Ok(parts) => parts,
        Err(status) => return Err(status),
    };
    link_under(alloc, users, below)
}

/// The same of files whose sources have preludes.
#[tactic(auto, using(crate::proofs::Retelling::told_loads, crate::proofs::Retelling::told_refused))]
pub(crate) fn load_together_for(
    alloc: Global,
    preludes: &[Prelude<'_>],
    dialect: Dialect,
    texts: &[Vec<u8>],
) -> Result<Together, Status>
    requires some { 1 ≤ length texts.now }
    requires few { length texts.now ≤ 8 }
    ensures loads { Loads together_seen result
        (together_for (preludes_seen preludes.now) dialect (texts_seen texts.now)) }
    ensures sound { IfOk result AreTogether }
    ensures count { IfOk result (λ t. length t.users.items ≡ length texts.now) }
{
    let Ok(joined) = join_files(alloc, preludes, texts) else {
        return Err(Status::NoMemory);
    };
    match load_together(alloc, dialect, &joined) {
        Ok(programs) => Ok(programs),
        Err(status) => Err(tell_at(preludes, status)),
    }
}
