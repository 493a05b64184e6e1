//! The processor status longword, as it is changed.
ghost use Rattle.std.specs.Prelude.{◌≡◌, ◌<◌, ◌≤◌, ◌^◌, Option};
ghost use Rattle.vax_outside.specs.Channels.{Channels};
ghost use Rattle.vax_flat.specs.Delivery.{on_interrupt_stack, stack_in_use};
ghost use Rattle.vax_flat.specs.System.{has_reserved_bits};
ghost use Rattle.vax_flat.specs.State.{State};
ghost use Rattle.vax_machine.specs.Meaning.{engine};
ghost use Rattle.vax_console.specs.Ends.{scene};
ghost use Rattle.vax_debug.specs.Status.{FieldFrom, StatusFrom, is_mixed, is_status, lowest_bit, width, with_field, with_stack_of};

use vax_debug_words::Field;
use vax_machine::Machine;
use vax_outside::PageFile;
use vax_word::{Core, Psl};

/// Whether the interrupt stack is in use.
fn on_interrupt_stack(psl: Psl) -> bool
    ensures { result ≡ on_interrupt_stack psl }
{
    let Psl(bits) = psl;
    bits >> 26 & 1 == 1
}

/// The stack in use, by its place among the kept pointers.
#[tactic(auto, unfolding(vax_flat::specs::Delivery::stack_in_use))]
fn stack_in_use(psl: Psl) -> u8
    ensures exact { result ≡ stack_in_use psl }
    ensures within { result < 5 }
{
    if on_interrupt_stack(psl) {
        4
    } else {
        psl.mode()
    }
}

/// Whether bits are set that no status has.
fn has_reserved_bits(bits: u32) -> bool
    ensures { result ≡ has_reserved_bits bits }
{
    bits / 0x100 % 0x100 != 0
        || bits / 0x20_0000 % 2 == 1
        || bits / 0x1000_0000 % 0x10 != 0
        || bits / 0x10 % 2 == 1
        || bits / 0x800_0000 % 2 == 1
}

/// Whether mode, stack and priority don't go together.
#[tactic(auto, unfolding(crate::specs::Status::is_mixed))]
fn is_mixed(psl: Psl) -> bool
    ensures { result ≡ is_mixed psl }
{
    (on_interrupt_stack(psl) && (psl.mode() != 0 || psl.ipl() == 0))
        || (0 < psl.ipl() && psl.mode() != 0)
        || psl.prev() < psl.mode()
}

/// Whether a program may have this status.
#[tactic(auto, unfolding(crate::specs::Status::is_status))]
fn is_status(psl: Psl) -> bool
    ensures { result ≡ is_status psl }
{
    !has_reserved_bits(psl.0) && !is_mixed(psl)
}

/// The registers with another status. Where it names another stack, that one's pointer goes into SP.
#[tactic(auto, unfolding(crate::specs::Status::with_stack_of, vax_flat::specs::Delivery::switched))]
fn with_stack_of(psl: Psl, core: &Core) -> Core
    ensures { (s : State) → s.core ≡ core.now → result ≡ with_stack_of psl s }
{
    let mut core = *core;
    let from = stack_in_use(core.psl) as usize;
    let to = stack_in_use(psl) as usize;
    core.psl = psl;
    if from != to {
        core.stacks[from] = core.regs[14];
        core.regs[14] = core.stacks[to];
        core.stacks[to] = 0;
    }
    core
}

/// Puts a value into the processor status longword, if it is one that a program may have. It answers false, and changes nothing, where it isn't, and where a string
/// instruction is open. Where it names another stack than the one in use, SP is put aside and the other's pointer is taken.
pub fn deposit_status<F: PageFile>(value: u32, machine: &mut Machine, file: &F) -> bool
    ensures { (sink : Option Channels) →
        StatusFrom (scene (engine machine.old) (F.contents file.now) sink)
        (scene (engine machine.new) (F.contents file.now) sink) value result }
{
    if machine.is_open() {
        return false;
    }
    if is_status(Psl(value)) {
        let core = with_stack_of(Psl(value), machine.core());
        machine.set_core(core);
        true
    } else {
        false
    }
}

/// What a field's lowest bit counts for.
fn unit(field: Field) -> u64
    ensures exact { result ≡ 2 ^ lowest_bit field }
    ensures some { 1 ≤ result }
    ensures within { result ≤ 0x4000_0000 }
{
    match field {
        Field::Mode => 0x100_0000,
        Field::Previous => 0x40_0000,
        Field::Priority => 0x1_0000,
        Field::InterruptStack => 0x400_0000,
        Field::FirstPartDone => 0x800_0000,
        Field::TracePending => 0x4000_0000,
        Field::DecimalOverflow => 0x80,
        Field::FloatingUnderflow => 0x40,
        Field::IntegerOverflow => 0x20,
        Field::Trace => 0x10,
        Field::Negative => 0x8,
        Field::Zero => 0x4,
        Field::Overflow => 0x2,
        Field::Carry => 0x1,
    }
}

/// How many values a field has.
fn value_count(field: Field) -> u64
    ensures exact { result ≡ 2 ^ width field }
    ensures some { 1 ≤ result }
{
    match field {
        Field::Mode => 4,
        Field::Previous => 4,
        Field::Priority => 32,
        _ => 2,
    }
}

/// The status with another value of a field.
fn with_field(field: Field, value: u32, psl: Psl) -> u32
    ensures { result ≡ with_field field value psl }
{
    let bits = u64::from(psl.0);
    let unit = unit(field);
    let count = value_count(field);
    let above = bits / unit / count * count + u64::from(value);
    ((above * unit + bits % unit) % 0x1_0000_0000) as u32
}

/// Puts a value into a field of the processor status longword, if the field has such a value and the status is one that a program may have. The other fields stay. It
/// answers false, and changes nothing, where it isn't, and where a string instruction is open.
pub fn deposit_field<F: PageFile>(field: Field, value: u32, machine: &mut Machine, file: &F) -> bool
    ensures { (sink : Option Channels) →
        FieldFrom (scene (engine machine.old) (F.contents file.now) sink)
        (scene (engine machine.new) (F.contents file.now) sink) field value result }
{
    if value_count(field) <= u64::from(value) {
        return false;
    }
    let status = with_field(field, value, machine.core().psl);
    deposit_status(status, machine, file)
}
