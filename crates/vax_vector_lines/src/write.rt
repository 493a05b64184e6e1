//! Vectors on their way to Out.
ghost use Rattle.std.specs.Prelude.{◌≡◌, ◌*◌, IfOk, OnErr, is_err};
ghost use Rattle.vax_outside.specs.Faults.{CountsFailure};
ghost use Rattle.vax_vector_lines.specs.Lines.{AreGroups, AreOfAll, IsGroup, Such, Wrote, WrotePrefix, instruction_at};

use crate::case_lines::lines_of;
use std::alloc::Global;
use vax_isa::by_code;
use vax_outside::{Chan, Failed, Sink, put_all};
use vax_vector_cases::{Case, PAGES};
use vax_vector_runs::Workbench;

/// How many of the vectors that are asked for were written.
#[derive(Clone, Copy, PartialEq, Eq)]
pub enum Extent {
    /// All.
    Whole,
    /// Some, and then memory was refused.
    Part,
}

/// So many vectors of the opcode of a case, and whether each is followed by the same with pages absent.
#[derive(Clone, Copy)]
struct Asked {
    case: Case,
    count: u32,
    absent: bool,
}

/// Writes the lines of a case.
#[tactic(auto, using(crate::proofs::More::wrote_lines, crate::proofs::More::wrote_none, crate::proofs::More::no_vectors, crate::proofs::More::prefix_of, crate::proofs::More::group_true))]
fn write_case<K: Sink>(
    alloc: Global,
    bench: &mut Workbench,
    case: Case,
    absent: bool,
    sink: &mut K,
) -> Result<Extent, Failed>
    ensures wrote { IfOk result
        (λ extent. Wrote (Such extent (IsGroup case.opcode case.mode absent))
        (K.contents sink.old) (K.contents sink.new)) }
    ensures prefix { OnErr result (WrotePrefix (K.contents sink.old) (K.contents sink.new)) }
    ensures counts { CountsFailure (is_err result) (K.faults sink.old) (K.faults sink.new) }
{
    match lines_of(alloc, bench, case, absent) {
        Ok(text) => {
            put_all(sink, Chan::Out, &text)?;
            Ok(Extent::Whole)
        }
        Err(_) => Ok(Extent::Part),
    }
}

/// Writes the vectors that are asked for.
fn write_asked<K: Sink>(
    alloc: Global,
    bench: &mut Workbench,
    asked: Asked,
    sink: &mut K,
) -> Result<Extent, Failed>
    ensures wrote { IfOk result (λ extent.
        Wrote (Such extent (AreGroups asked.case.opcode asked.case.mode asked.absent asked.count))
        (K.contents sink.old) (K.contents sink.new)) }
    ensures prefix { OnErr result (WrotePrefix (K.contents sink.old) (K.contents sink.new)) }
    ensures counts { CountsFailure (is_err result) (K.faults sink.old) (K.faults sink.new) }
{
    for number in 0..asked.count {
        let case = Case {
            number,
            ..asked.case
        };
        let extent = write_case(alloc, bench, case, asked.absent, sink)?;
        match extent {
            Extent::Whole => {}
            Extent::Part => return Ok(Extent::Part),
        }
    }
    Ok(Extent::Whole)
}

/// Writes so many vectors of the opcode of a case in its access mode, each true of the machine's definitions, a line each; with `absent` each is
/// followed by the same with one or two of its pages absent. Where memory is refused it stops behind a vector.
#[tactic(auto, using(crate::proofs::More::wrote_none, crate::proofs::More::no_vectors))]
pub fn write_cases<K: Sink>(
    alloc: Global,
    case: Case,
    count: u32,
    absent: bool,
    sink: &mut K,
) -> Result<Extent, Failed>
    ensures wrote { IfOk result (λ extent.
        Wrote (Such extent (AreGroups case.opcode case.mode absent count))
        (K.contents sink.old) (K.contents sink.new)) }
    ensures prefix { OnErr result (WrotePrefix (K.contents sink.old) (K.contents sink.new)) }
    ensures counts { CountsFailure (is_err result) (K.faults sink.old) (K.faults sink.new) }
{
    let asked = Asked {
        case,
        count,
        absent,
    };
    match Workbench::new(alloc, &PAGES) {
        Ok(mut bench) => write_asked(alloc, &mut bench, asked, sink),
        Err(_) => Ok(Extent::Part),
    }
}

/// How many vectors there are of an opcode: none where it has no instruction.
#[tactic(auto, using(crate::proofs::More::one_there, crate::proofs::More::none_there))]
fn count_of(opcode: u8, count: u32) -> u32
    ensures { result ≡ instruction_at opcode * count }
{
    match by_code(opcode) {
        Some(_) => count,
        None => 0,
    }
}

/// Writes so many vectors of each opcode as are asked for of one, by ascending opcodes.
fn write_each<K: Sink>(
    alloc: Global,
    bench: &mut Workbench,
    asked: Asked,
    sink: &mut K,
) -> Result<Extent, Failed>
    ensures wrote { IfOk result (λ extent.
        Wrote (Such extent (AreOfAll asked.case.mode asked.absent asked.count 256))
        (K.contents sink.old) (K.contents sink.new)) }
    ensures prefix { OnErr result (WrotePrefix (K.contents sink.old) (K.contents sink.new)) }
    ensures counts { CountsFailure (is_err result) (K.faults sink.old) (K.faults sink.new) }
{
    for code in 0..256u32 {
        let opcode = code as u8;
        let of_code = Asked {
            case: Case {
                opcode,
                ..asked.case
            },
            count: count_of(opcode, asked.count),
            absent: asked.absent,
        };
        match write_asked(alloc, bench, of_code, sink)? {
            Extent::Whole => {}
            Extent::Part => return Ok(Extent::Part),
        }
    }
    Ok(Extent::Whole)
}

/// Writes so many vectors of each opcode in the access mode of a case, by ascending opcodes.
#[tactic(auto, using(crate::proofs::More::wrote_none, crate::proofs::More::no_vectors))]
pub fn write_all<K: Sink>(
    alloc: Global,
    case: Case,
    count: u32,
    absent: bool,
    sink: &mut K,
) -> Result<Extent, Failed>
    ensures wrote { IfOk result
        (λ extent. Wrote (Such extent (AreOfAll case.mode absent count 256))
        (K.contents sink.old) (K.contents sink.new)) }
    ensures prefix { OnErr result (WrotePrefix (K.contents sink.old) (K.contents sink.new)) }
    ensures counts { CountsFailure (is_err result) (K.faults sink.old) (K.faults sink.new) }
{
    let asked = Asked {
        case,
        count,
        absent,
    };
    match Workbench::new(alloc, &PAGES) {
        Ok(mut bench) => write_each(alloc, &mut bench, asked, sink),
        Err(_) => Ok(Extent::Part),
    }
}
