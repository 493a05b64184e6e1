//! The fields of a saved state that stand before its input: at most 220 bytes.
ghost use Rattle.std.specs.Prelude.{◌≡◌, ◌+◌, ◌*◌, ◌≤◌, ◌++◌, length};
ghost use Rattle.std.specs.List.{flat_map};
ghost use Rattle.vax_save.specs.Saved.{area_field, core_field, longword, quadword, word};

use arrayvec::ArrayVec;
use byteorder::{ByteOrder, LittleEndian};
use vax_space::Area;
use vax_word::Core;

/// Fields one behind the other.
pub(crate) type Fields = ArrayVec<u8, 256>;

/// Appends bytes.
pub(crate) fn push(fields: &mut Fields, bytes: &[u8])
    requires room { length fields.old.items + length bytes.now ≤ 256 }
    ensures exact { fields.new.items ≡ fields.old.items ++ bytes.now }
    ensures len { length fields.new.items ≡ length fields.old.items + length bytes.now }
{
    fields.try_extend_from_slice(bytes).unwrap();
}

/// Appends a number of 16 bits.
pub(crate) fn push_word(fields: &mut Fields, n: u16)
    requires room { length fields.old.items + 2 ≤ 256 }
    ensures exact { fields.new.items ≡ fields.old.items ++ word n }
    ensures len { length fields.new.items ≡ length fields.old.items + 2 }
{
    let mut bytes = [0; 2];
    LittleEndian::write_u16(&mut bytes, n);
    push(fields, &bytes);
}

/// Appends a number of 32 bits.
pub(crate) fn push_longword(fields: &mut Fields, n: u32)
    requires room { length fields.old.items + 4 ≤ 256 }
    ensures exact { fields.new.items ≡ fields.old.items ++ longword n }
    ensures len { length fields.new.items ≡ length fields.old.items + 4 }
{
    let mut bytes = [0; 4];
    LittleEndian::write_u32(&mut bytes, n);
    push(fields, &bytes);
}

/// Appends a number of 64 bits.
pub(crate) fn push_quadword(fields: &mut Fields, n: u64)
    requires room { length fields.old.items + 8 ≤ 256 }
    ensures exact { fields.new.items ≡ fields.old.items ++ quadword n }
    ensures len { length fields.new.items ≡ length fields.old.items + 8 }
{
    let mut bytes = [0; 8];
    LittleEndian::write_u64(&mut bytes, n);
    push(fields, &bytes);
}

/// Appends numbers of 32 bits.
fn push_longwords(fields: &mut Fields, numbers: &[u32])
    requires room { length fields.old.items + 4 * length numbers.now ≤ 256 }
    ensures exact { fields.new.items ≡ fields.old.items ++ flat_map longword numbers.now }
    ensures len { length fields.new.items ≡ length fields.old.items + 4 * length numbers.now }
{
    for n in numbers {
        push_longword(fields, *n);
    }
}

/// Appends the registers with an opcode.
#[tactic(auto, unfolding(crate::specs::Saved::core_field))]
pub(crate) fn push_core(fields: &mut Fields, core: &Core, opcode: u16)
    requires room { length fields.old.items + 96 ≤ 256 }
    ensures exact { fields.new.items ≡ fields.old.items ++ core_field core.now opcode }
    ensures len { length fields.new.items ≡ length fields.old.items + 96 }
{
    push_longwords(fields, &core.regs);
    push_longword(fields, core.psl.0);
    push_longwords(fields, &core.stacks);
    push_word(fields, core.sisr);
    push(fields, &[core.iccs, 0]);
    push_word(fields, core.clock);
    push_word(fields, opcode);
}

/// Appends where an area lies, and its protection code.
pub(crate) fn push_area(fields: &mut Fields, area: &Area)
    requires room { length fields.old.items + 12 ≤ 256 }
    ensures exact { fields.new.items ≡ fields.old.items ++ area_field area.now }
    ensures len { length fields.new.items ≡ length fields.old.items + 12 }
{
    push_longword(fields, area.first);
    push_longword(fields, area.pages);
    push_longword(fields, u32::from(area.prot));
}
