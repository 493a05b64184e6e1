//! The commands: each reads its files, makes what they come to, and writes what is asked for, or refuses.
ghost use Rattle.std.specs.Prelude.{◌≡◌, ◌≤◌, ◌∷◌, [], IfOk, None, length};
ghost use Rattle.vax_outside.specs.Channels.{only};
ghost use Rattle.vax_guest.specs.Workload.{workload};
ghost use Rattle.vax_image.specs.Image.{IsImage};
ghost use Rattle.vax_listing.specs.Listing.{listing};
ghost use Rattle.vax_cli.specs.Words.{bare, build, list, listing as source_listing, run, work};
ghost use Rattle.vax_cli.specs.Said.{AreWithin, names_of, options as said_options};
ghost use Rattle.vax_command.specs.Around.{around, change, outside, untouched, with_preludes};
ghost use Rattle.vax_command.specs.Ends.{Admits, Ends};
ghost use Rattle.vax_prelude.specs.View.{preludes_seen};
ghost use Rattle.vax_command.specs.Reading.{file_limit, large_limit};
ghost use Rattle.vax_command.specs.ReadingView.{bytes_of, texts as texts_seen};
ghost use Rattle.vax_top.specs.Top.{Carries, IsFile, RanOf, base_for, session_loaded};

use crate::console::load_session;
use crate::programs::{alone, load_image_for};
use crate::sources::load_listing;
use std::alloc::Global;
use vax_cli::{Base, Format, Options, Target};
use vax_command::{Given, Role, Status, load_files, load_options, load_run, refuse, run_programs};
use vax_guest::generate;
use vax_image::{Image, write, write2};
use vax_listing::write_listing;
use vax_outside::{Chan, Failed, Files, PageFile, Sink, put_all};
use vax_prelude::Prelude;
use vax_space::NoMemory;

/// Writes a text to Out.
pub(crate) fn show<K: Sink>(text: &[u8], sink: &mut K) -> Status
    ensures { Ends (change K.faults K.contents sink.old sink.new)
        Status.Done (only Chan.Out text.now) result }
{
    match put_all(sink, Chan::Out, text) {
        Ok(()) => Status::Done,
        Err(Failed) => Status::WriteFault,
    }
}

/// `bare`: runs a program in kernel mode.
pub(crate) fn run_bare<S: Files, K: Sink, F: PageFile>(
    alloc: Global,
    names: &[&str],
    preludes: &[Prelude<'_>],
    options: &Options<'_>,
    files: &mut S,
    sink: &mut K,
    pages: &mut F,
) -> Status
    requires some { 1 ≤ length names.now }
    requires few { length names.now ≤ 8 }
    requires within { AreWithin (said_options options.now) }
    ensures carries { Carries (with_preludes (preludes_seen preludes.now) (around
        (change S.faults S.contents files.old files.new)
        (change K.faults K.contents sink.old sink.new)
        (change F.faults F.contents pages.old pages.new)))
        (bare (names_of names.now) (said_options options.now)) result }
    ensures read_failed { Admits (S.faults files.old) (S.faults files.new) Status.ReadFault result }
    ensures page_failed { Admits (F.faults pages.old) (F.faults pages.new) Status.PageFault result }
{
    let (texts, given) = match load_run(alloc, names, options, None, files) {
        Ok(loaded) => loaded,
        Err(status) => return refuse(status, sink),
    };
    let Given {
        system,
        input,
        schedule,
        ..
    } = given;
    match load_session(alloc, preludes, options.dialect, Base::Bare, &texts, system) {
        Ok(programs) => run_programs(alloc, &programs, input, &schedule, options, sink, pages),
        Err(status) => refuse(status, sink),
    }
}

/// Runs a program in user mode, of the texts of its files, under a system, and refuses where they come to none.
fn run_over<K: Sink, F: PageFile>(
    alloc: Global,
    preludes: &[Prelude<'_>],
    texts: &[Vec<u8>],
    given: Given,
    options: &Options<'_>,
    sink: &mut K,
    pages: &mut F,
) -> Status
    requires some { 1 ≤ length texts.now }
    requires few { length texts.now ≤ 8 }
    requires input { length given.input.items ≤ file_limit }
    requires schedule { length given.schedule.items ≤ large_limit }
    requires within { AreWithin (said_options options.now) }
    ensures ran { RanOf
        (outside (change K.faults K.contents sink.old sink.new)
        (change F.faults F.contents pages.old pages.new))
        (session_loaded (preludes_seen preludes.now) (said_options options.now).dialect Base.User
        (texts_seen texts.now) (bytes_of given.system))
        given.input.items given.schedule.items (said_options options.now) result }
    ensures failed { Admits (F.faults pages.old) (F.faults pages.new) Status.PageFault result }
{
    let Given {
        system,
        input,
        schedule,
        ..
    } = given;
    match load_session(alloc, preludes, options.dialect, Base::User, texts, system) {
        Ok(programs) => run_programs(alloc, &programs, input, &schedule, options, sink, pages),
        Err(status) => refuse(status, sink),
    }
}

/// `run`: runs a program in user mode, under the executive or another system.
pub(crate) fn run_user<S: Files, K: Sink, F: PageFile>(
    alloc: Global,
    names: &[&str],
    preludes: &[Prelude<'_>],
    options: &Options<'_>,
    files: &mut S,
    sink: &mut K,
    pages: &mut F,
) -> Status
    requires some { 1 ≤ length names.now }
    requires few { length names.now ≤ 8 }
    requires within { AreWithin (said_options options.now) }
    ensures carries { Carries (with_preludes (preludes_seen preludes.now) (around
        (change S.faults S.contents files.old files.new)
        (change K.faults K.contents sink.old sink.new)
        (change F.faults F.contents pages.old pages.new)))
        (run (names_of names.now) (said_options options.now)) result }
    ensures read_failed { Admits (S.faults files.old) (S.faults files.new) Status.ReadFault result }
    ensures page_failed { Admits (F.faults pages.old) (F.faults pages.new) Status.PageFault result }
{
    match load_run(alloc, names, options, None, files) {
        Ok((texts, given)) => run_over(alloc, preludes, &texts, given, options, sink, pages),
        Err(status) => refuse(status, sink),
    }
}

/// The source of a workload, as the one file of a program.
fn workload_files(alloc: Global, seed: u32, size: u32) -> Result<Vec<Vec<u8>>, NoMemory>
    requires some { 1 ≤ size }
    requires few { size ≤ 5000 }
    ensures { IfOk result (λ v. texts_seen v.items ≡ workload seed size ∷ []) }
{
    let text = generate(alloc, seed, size)?;
    Ok(alone(alloc, text)?)
}

/// `work`: runs a workload in user mode, under the executive.
pub(crate) fn run_work<S: Files, K: Sink, F: PageFile>(
    alloc: Global,
    seed: u32,
    size: u32,
    options: &Options<'_>,
    files: &mut S,
    sink: &mut K,
    pages: &mut F,
) -> Status
    requires some { 1 ≤ size }
    requires few { size ≤ 5000 }
    requires within { AreWithin (said_options options.now) }
    ensures carries { Carries (around
        (change S.faults S.contents files.old files.new)
        (change K.faults K.contents sink.old sink.new)
        (change F.faults F.contents pages.old pages.new))
        (work seed size (said_options options.now)) result }
    ensures read_failed { Admits (S.faults files.old) (S.faults files.new) Status.ReadFault result }
    ensures page_failed { Admits (F.faults pages.old) (F.faults pages.new) Status.PageFault result }
{
    let given = match load_options(alloc, options, None, files) {
        Ok(given) => Given {
            system: None,
            input: given.input,
            schedule: given.schedule,
            script: given.script,
        },
        Err(status) => return refuse(status, sink),
    };
    match workload_files(alloc, seed, size) {
        Ok(texts) => run_over(alloc, &[], &texts, given, options, sink, pages),
        Err(NoMemory) => refuse(Status::NoMemory, sink),
    }
}

/// The base of a word.
pub(crate) fn base_for(base: Base) -> vax_image::Base
    ensures { result ≡ base_for base }
{
    match base {
        Base::User => vax_image::Base::User,
        Base::Bare => vax_image::Base::Bare,
    }
}

/// The bytes of an image in a version of the format.
fn image_bytes(alloc: Global, format: Format, image: &Image) -> Result<Vec<u8>, NoMemory>
    requires { IsImage image.now }
    ensures { IfOk result (λ bytes. IsFile format image.now bytes.items) }
{
    match format {
        Format::First => write(alloc, image),
        Format::Second => write2(alloc, image),
    }
}

/// `build`: writes the image of a program to Out.
pub(crate) fn build<S: Files, K: Sink>(
    alloc: Global,
    names: &[&str],
    preludes: &[Prelude<'_>],
    target: Target,
    format: Format,
    files: &mut S,
    sink: &mut K,
) -> Status
    requires some { 1 ≤ length names.now }
    requires few { length names.now ≤ 8 }
    ensures carries { Carries (with_preludes (preludes_seen preludes.now) (around
        (change S.faults S.contents files.old files.new)
        (change K.faults K.contents sink.old sink.new)
        untouched))
        (build (names_of names.now) target format) result }
    ensures read_failed { Admits (S.faults files.old) (S.faults files.new) Status.ReadFault result }
{
    let texts = match load_files(alloc, names, Role::Program, files) {
        Ok(texts) => texts,
        Err(status) => return refuse(status, sink),
    };
    let image = match load_image_for(
        alloc,
        preludes,
        target.dialect,
        base_for(target.base),
        &texts,
    ) {
        Ok(image) => image,
        Err(status) => return refuse(status, sink),
    };
    match image_bytes(alloc, format, &image) {
        Ok(bytes) => show(&bytes, sink),
        Err(NoMemory) => refuse(Status::NoMemory, sink),
    }
}

/// Writes the instructions of an image to Out.
fn show_listing<K: Sink>(image: &Image, sink: &mut K) -> Status
    ensures { Ends (change K.faults K.contents sink.old sink.new)
        Status.Done (only Chan.Out (listing image.now.areas)) result }
{
    match write_listing(image.areas.as_slice(), sink) {
        Ok(()) => Status::Done,
        Err(Failed) => Status::WriteFault,
    }
}

/// `list`: writes the instructions of a program to Out.
pub(crate) fn list<S: Files, K: Sink>(
    alloc: Global,
    names: &[&str],
    preludes: &[Prelude<'_>],
    target: Target,
    files: &mut S,
    sink: &mut K,
) -> Status
    requires some { 1 ≤ length names.now }
    requires few { length names.now ≤ 8 }
    ensures carries { Carries (with_preludes (preludes_seen preludes.now) (around
        (change S.faults S.contents files.old files.new)
        (change K.faults K.contents sink.old sink.new)
        untouched))
        (list (names_of names.now) target) result }
    ensures read_failed { Admits (S.faults files.old) (S.faults files.new) Status.ReadFault result }
{
    let texts = match load_files(alloc, names, Role::Program, files) {
        Ok(texts) => texts,
        Err(status) => return refuse(status, sink),
    };
    match load_image_for(
        alloc,
        preludes,
        target.dialect,
        base_for(target.base),
        &texts,
    ) {
        Ok(image) => show_listing(&image, sink),
        Err(status) => refuse(status, sink),
    }
}

/// `listing`: writes the listing of a program's sources to Out.
pub(crate) fn list_sources<S: Files, K: Sink>(
    alloc: Global,
    names: &[&str],
    target: Target,
    files: &mut S,
    sink: &mut K,
) -> Status
    requires some { 1 ≤ length names.now }
    requires few { length names.now ≤ 8 }
    ensures carries { Carries (around
        (change S.faults S.contents files.old files.new)
        (change K.faults K.contents sink.old sink.new)
        untouched)
        (source_listing (names_of names.now) target) result }
    ensures read_failed { Admits (S.faults files.old) (S.faults files.new) Status.ReadFault result }
{
    let texts = match load_files(alloc, names, Role::Program, files) {
        Ok(texts) => texts,
        Err(status) => return refuse(status, sink),
    };
    match load_listing(alloc, target.dialect, base_for(target.base), &texts) {
        Ok(text) => show(&text, sink),
        Err(status) => refuse(status, sink),
    }
}
