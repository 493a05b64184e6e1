//! What lies at the same addresses beside each program, and its names.
ghost use Rattle.std.specs.Prelude.{◌≡◌, ◌++◌, IfOk, OnOk};
ghost use Rattle.vax_debug_symbols.specs.Fixtures as spec;

use std::alloc::{AllocError, Global};
use vax_debug_names::Symbol;
use vax_image::Base;
use vax_module::Bytes;

/// A part of memory that lies at the same addresses in each machine.
#[derive(Clone, Copy, PartialEq, Eq)]
pub(crate) enum Fixture {
    /// The stack of executive mode.
    ExecutiveStack,
    /// The stack of supervisor mode.
    SupervisorStack,
    /// The stack of user mode.
    UserStack,
    /// The system control block: the vectors of exceptions and interrupts.
    ControlBlock,
    /// The system beside a user's program: the executive, or another.
    System,
    /// The stack of kernel mode.
    KernelStack,
    /// The stack of interrupts.
    InterruptStack,
    /// The page tables of a process, which no area has.
    PageTables,
}

/// What lies beside a user's program.
const BESIDE_USER: [Fixture; 8] = [
    Fixture::ExecutiveStack,
    Fixture::SupervisorStack,
    Fixture::UserStack,
    Fixture::ControlBlock,
    Fixture::System,
    Fixture::KernelStack,
    Fixture::InterruptStack,
    Fixture::PageTables,
];

/// What lies beside a program for the bare machine, which is the system itself.
const BESIDE_BARE: [Fixture; 7] = [
    Fixture::ExecutiveStack,
    Fixture::SupervisorStack,
    Fixture::UserStack,
    Fixture::ControlBlock,
    Fixture::KernelStack,
    Fixture::InterruptStack,
    Fixture::PageTables,
];

/// The name of a fixture.
#[tactic(auto, unfolding(crate::specs::Fixtures::name_of))]
fn name(fixture: Fixture) -> &'static [u8]
    ensures { result.now ≡ spec.name_of fixture }
{
    match fixture {
        Fixture::ExecutiveStack => b"EXECUTIVE_STACK",
        Fixture::SupervisorStack => b"SUPERVISOR_STACK",
        Fixture::UserStack => b"USER_STACK",
        Fixture::ControlBlock => b"SCB",
        Fixture::System => b"SYSTEM",
        Fixture::KernelStack => b"KERNEL_STACK",
        Fixture::InterruptStack => b"INTERRUPT_STACK",
        Fixture::PageTables => b"PAGE_TABLES",
    }
}

/// The address of its first byte.
fn address(fixture: Fixture) -> u32
    ensures { result ≡ spec.address_of fixture }
{
    match fixture {
        Fixture::ExecutiveStack => 0x7FFE_0000,
        Fixture::SupervisorStack => 0x7FFE_8000,
        Fixture::UserStack => 0x7FFF_8000,
        Fixture::ControlBlock => 0x8000_0000,
        Fixture::System => 0x8000_0200,
        Fixture::KernelStack => 0x8010_0000,
        Fixture::InterruptStack => 0x8011_0000,
        Fixture::PageTables => 0x8020_0000,
    }
}

/// How many bytes it has. A system has those up to the stack of kernel mode.
fn size(fixture: Fixture) -> u32
    ensures { result ≡ spec.size_of fixture }
{
    match fixture {
        Fixture::ExecutiveStack => 0x800,
        Fixture::SupervisorStack => 0x800,
        Fixture::UserStack => 0x8000,
        Fixture::ControlBlock => 0x200,
        Fixture::System => 0xF_FE00,
        Fixture::KernelStack => 0x2000,
        Fixture::InterruptStack => 0x800,
        Fixture::PageTables => 0x4_0000,
    }
}

/// A fixture as a symbol, which reaches to its end.
fn symbol_of(alloc: Global, fixture: Fixture) -> Result<Symbol, AllocError>
    ensures { IfOk result (λ s. s ≡ spec.symbol_of fixture) }
{
    Ok(Symbol {
        name: Bytes::from(name(fixture).to_vec(alloc)?),
        value: address(fixture),
        is_place: true,
        reach: size(fixture),
    })
}

/// Appends the symbols of fixtures.
fn push_each(
    alloc: Global,
    symbols: &mut Vec<Symbol>,
    fixtures: &[Fixture],
) -> Result<(), AllocError>
    ensures { OnOk result (symbols.new.items
        ≡ symbols.old.items ++ spec.symbols_of fixtures.now) }
{
    for fixture in fixtures {
        symbols.push(symbol_of(alloc, *fixture)?)?;
    }
    Ok(())
}

/// Appends the symbols of what lies beside a program.
#[tactic(auto, unfolding(crate::specs::Fixtures::fixtures))]
pub(crate) fn push_fixtures(
    alloc: Global,
    symbols: &mut Vec<Symbol>,
    base: Base,
) -> Result<(), AllocError>
    ensures { OnOk result (symbols.new.items
        ≡ symbols.old.items ++ spec.symbols_of (spec.fixtures base)) }
{
    match base {
        Base::User => push_each(alloc, symbols, &BESIDE_USER),
        Base::Bare => push_each(alloc, symbols, &BESIDE_BARE),
    }
}
