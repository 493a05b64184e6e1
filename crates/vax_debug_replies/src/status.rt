//! The line of the processor status longword.
ghost use Rattle.std.specs.Prelude.{◌≡◌, ◌+◌, ◌<◌, ◌≤◌, ◌++◌, ◌==◌, ◌/◌, ◌%◌, length};
ghost use Rattle.vax_outside.specs.Hex.{hex};
ghost use Rattle.vax_debug_replies.specs.Status.{codes_text, field_line, field_name, field_text, flag, flags_text, mode_text, status_line, traps_text};

use vax_debug_words::Field;
use vax_outside::Text;

/// Appends the name of an access mode.
fn push_mode(text: &mut Text, mode: u32)
    requires { length text.old + 10 ≤ 512 }
    ensures exact { text.new ≡ text.old ++ mode_text mode }
    ensures short { length text.new ≤ length text.old + 10 }
{
    match mode {
        0 => text.push(b"KERNEL"),
        1 => text.push(b"EXECUTIVE"),
        2 => text.push(b"SUPERVISOR"),
        _ => text.push(b"USER"),
    }
}

/// Appends the name of a bit, which has this value, where it is set.
fn push_flag(text: &mut Text, status: u32, bit: u32, name: &[u8])
    requires some { 0 < bit }
    requires few { length name.now ≤ 3 }
    requires room { length text.old + 4 ≤ 512 }
    ensures exact { text.new ≡ text.old ++ flag bit name.now status }
    ensures short { length text.new ≤ length text.old + 4 }
{
    if status / bit % 2 == 1 {
        text.push(b" ");
        text.push(name);
    }
}

/// Appends the bits of the stack, of a string instruction's first part and of traces.
fn push_flags(text: &mut Text, status: u32)
    requires { length text.old + 20 ≤ 512 }
    ensures exact { text.new ≡ text.old ++ flags_text status }
    ensures short { length text.new ≤ length text.old + 20 }
{
    push_flag(text, status, 0x8000_0000, b"CM");
    push_flag(text, status, 0x4000_0000, b"TP");
    push_flag(text, status, 0x0800_0000, b"FPD");
    push_flag(text, status, 0x0400_0000, b"IS");
}

/// Appends the bits that enable traps.
fn push_traps(text: &mut Text, status: u32)
    requires { length text.old + 16 ≤ 512 }
    ensures exact { text.new ≡ text.old ++ traps_text status }
    ensures short { length text.new ≤ length text.old + 16 }
{
    push_flag(text, status, 0x80, b"DV");
    push_flag(text, status, 0x40, b"FU");
    push_flag(text, status, 0x20, b"IV");
    push_flag(text, status, 0x10, b"T");
}

/// Appends the condition codes.
fn push_codes(text: &mut Text, status: u32)
    requires { length text.old + 16 ≤ 512 }
    ensures exact { text.new ≡ text.old ++ codes_text status }
    ensures short { length text.new ≤ length text.old + 16 }
{
    push_flag(text, status, 8, b"N");
    push_flag(text, status, 4, b"Z");
    push_flag(text, status, 2, b"V");
    push_flag(text, status, 1, b"C");
}

/// Appends a bit, which has this value.
fn push_bit(text: &mut Text, status: u32, bit: u32)
    requires some { 0 < bit }
    requires room { length text.old + 8 ≤ 512 }
    ensures exact { text.new ≡ text.old ++ hex 8 (status / bit % 2) }
    ensures short { length text.new ≤ length text.old + 8 }
{
    text.push_hex8(status / bit % 2);
}

/// The name of a field.
fn field_name(field: Field) -> &'static [u8]
    ensures name { result.now ≡ field_name field }
    ensures short { length result.now ≤ 8 }
{
    match field {
        Field::Mode => b"MODE",
        Field::Previous => b"PREVIOUS",
        Field::Priority => b"IPL",
        Field::InterruptStack => b"IS",
        Field::FirstPartDone => b"FPD",
        Field::TracePending => b"TP",
        Field::DecimalOverflow => b"DV",
        Field::FloatingUnderflow => b"FU",
        Field::IntegerOverflow => b"IV",
        Field::Trace => b"T",
        Field::Negative => b"N",
        Field::Zero => b"Z",
        Field::Overflow => b"V",
        Field::Carry => b"C",
    }
}

/// Appends the value of a field.
fn push_field(text: &mut Text, field: Field, status: u32)
    requires { length text.old + 10 ≤ 512 }
    ensures exact { text.new ≡ text.old ++ field_text field status }
    ensures short { length text.new ≤ length text.old + 10 }
{
    match field {
        Field::Mode => push_mode(text, status / 0x0100_0000 % 4),
        Field::Previous => push_mode(text, status / 0x0040_0000 % 4),
        Field::Priority => text.push_hex8(status / 0x0001_0000 % 32),
        Field::InterruptStack => push_bit(text, status, 0x0400_0000),
        Field::FirstPartDone => push_bit(text, status, 0x0800_0000),
        Field::TracePending => push_bit(text, status, 0x4000_0000),
        Field::DecimalOverflow => push_bit(text, status, 0x80),
        Field::FloatingUnderflow => push_bit(text, status, 0x40),
        Field::IntegerOverflow => push_bit(text, status, 0x20),
        Field::Trace => push_bit(text, status, 0x10),
        Field::Negative => push_bit(text, status, 8),
        Field::Zero => push_bit(text, status, 4),
        Field::Overflow => push_bit(text, status, 2),
        Field::Carry => push_bit(text, status, 1),
    }
}

/// Appends the line of a field of the processor status longword: its name, and its value, that of an access mode by its name.
pub fn push_field_line(text: &mut Text, field: Field, status: u32)
    requires { length text.old + 24 ≤ 512 }
    ensures exact { text.new ≡ text.old ++ field_line field status }
    ensures short { length text.new ≤ length text.old + 24 }
{
    text.push(b"PSL.");
    text.push(field_name(field));
    text.push(b" ");
    push_field(text, field, status);
    text.push(b"\n");
}

/// Appends the line of a processor status longword: its digits, the current and the previous access mode, the interrupt priority level, and the names of the
/// bits that are set.
#[tactic(auto, unfolding(crate::specs::Status::status_line))]
pub fn push_status_line(text: &mut Text, status: u32)
    requires { length text.old + 145 ≤ 512 }
    ensures exact { text.new ≡ text.old ++ status_line status }
    ensures short { length text.new ≤ length text.old + 145 }
{
    text.push(b"PSL ");
    text.push_hex8(status);
    text.push(b" MODE ");
    push_mode(text, status / 0x0100_0000 % 4);
    text.push(b" PREVIOUS ");
    push_mode(text, status / 0x0040_0000 % 4);
    text.push(b" IPL ");
    text.push_decimal(u64::from(status / 0x0001_0000 % 32));
    push_flags(text, status);
    push_traps(text, status);
    push_codes(text, status);
    text.push(b"\n");
}
