//! Test vectors.
ghost use Rattle.std.specs.Prelude.{IfOk, OnErr, is_err};
ghost use Rattle.vax_outside.specs.Faults.{CountsFailure};
ghost use Rattle.vax_command.specs.Around.{change, untouched};
ghost use Rattle.vax_command.specs.Ends.{EndsSo};
ghost use Rattle.vax_vector_lines.specs.Lines.{Such, Wrote, WrotePrefix};
ghost use Rattle.vax_top.specs.Vectors.{AreAsked, VectorsDo};

use std::alloc::Global;
use vax_cli::{Opcodes, VectorRequest};
use vax_command::Status;
use vax_outside::{Failed, Sink};
use vax_vector_cases::Case;
use vax_vector_lines::{Extent, write_all, write_cases};

/// Writes the vectors that are asked for.
fn write_asked<K: Sink>(
    alloc: Global,
    request: VectorRequest,
    sink: &mut K,
) -> Result<Extent, Failed>
    ensures wrote { IfOk result (λ extent.
        Wrote (Such extent (AreAsked request.opcodes request))
        (K.contents sink.old) (K.contents sink.new)) }
    ensures prefix { OnErr result (WrotePrefix (K.contents sink.old) (K.contents sink.new)) }
    ensures counts { CountsFailure (is_err result) (K.faults sink.old) (K.faults sink.new) }
{
    let case = Case {
        opcode: 0,
        seed: request.seed,
        number: 0,
        mode: request.mode,
    };
    match request.opcodes {
        Opcodes::All => write_all(alloc, case, request.count, request.absent, sink),
        Opcodes::One(opcode) => write_cases(
            alloc,
            Case { opcode, ..case },
            request.count,
            request.absent,
            sink,
        ),
    }
}

/// `vectors`: writes test vectors to Out.
#[tactic(auto, using(crate::proofs::VectorLaws::all_written, crate::proofs::VectorLaws::some_written, crate::proofs::VectorLaws::write_failed))]
pub(crate) fn write_vectors<K: Sink>(alloc: Global, request: VectorRequest, sink: &mut K) -> Status
    ensures { EndsSo (change K.faults K.contents sink.old sink.new)
        (VectorsDo untouched request) result }
{
    match write_asked(alloc, request, sink) {
        Ok(Extent::Whole) => Status::Done,
        Ok(Extent::Part) => Status::Unfinished,
        Err(Failed) => Status::WriteFault,
    }
}
