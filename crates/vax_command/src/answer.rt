//! The answers to runs that stopped by themselves.
ghost use Rattle.std.specs.Prelude.{◌≡◌};
ghost use Rattle.vax_machine.specs.Paged.{ByEnding};
ghost use Rattle.vax_command.specs.Answer.{halted, is_success, status_of, unhalted};

use crate::status::Status;
use vax_cli::Strictness;
use vax_flat::Ending;
use vax_word::Core;

/// The answer to a run that came to its limit of steps, or to an end other than HALT.
pub(crate) fn answer_unhalted(strict: Strictness) -> Status
    ensures { result ≡ unhalted strict }
{
    match strict {
        Strictness::Off => Status::Done,
        Strictness::Halt | Strictness::Success => Status::NotHalted,
    }
}

/// R0 has 0 or 1, which programs leave there that did what they were to do.
fn is_success(core: &Core) -> bool
    ensures { result ≡ is_success core.now }
{
    core.regs[0] <= 1
}

/// The answer to a run that ended by HALT.
fn answer_halted(strict: Strictness, core: &Core) -> Status
    ensures { result ≡ halted strict core.now }
{
    match strict {
        Strictness::Off | Strictness::Halt => Status::Done,
        Strictness::Success if is_success(core) => Status::Done,
        Strictness::Success => Status::Unsuccessful,
    }
}

/// The answer to a run that ended so.
pub(crate) fn answer_ended(strict: Strictness, ending: Ending, core: &Core) -> Status
    ensures { result ≡ status_of strict core.now (ByEnding ending) }
{
    match ending {
        Ending::Halt => answer_halted(strict, core),
        Ending::Vector(_) | Ending::Stack | Ending::Scb | Ending::Change => answer_unhalted(strict),
    }
}
