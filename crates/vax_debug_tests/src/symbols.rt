//! Tests of the symbols and the source lines of files. Expected values are worked by hand.
use std::test::Fail;
use vax_debug_names::{Legend, SourceLine, Symbol, line_at, number_of};
use vax_debug_replies::{push_place, push_source_line};
use vax_debug_symbols::{Table, table_of_files};
use vax_dialect::Dialect;
use vax_image::Base;
use vax_outside::Text;
use vax_prelude::Prelude;

/// Two places, a number, a local label, and a name of another module.
const MAIN: &str = "        .PSECT CODE,NOWRT
SIZE = 12
        .ENTRY START,0
10$:    NOP
        CALLS #0,PUTS
LAST:   RET
        .END START
";

/// A place in a section of its own.
const WORDS: &str = "        .PSECT MORE,NOWRT
        .ENTRY PUTS,0
        RET
        .END
";

/// The symbols and the lines of files.
fn table(rt: &HostRuntime, base: Base, texts: [&str; 2]) -> Result<Table, Fail> {
    let one = Vec::from_slice(rt.alloc(), texts[0].as_bytes())?;
    let other = Vec::from_slice(rt.alloc(), texts[1].as_bytes())?;
    let files = vec![in rt.alloc(); one, other]?;
    Ok(table_of_files(rt.alloc(), Dialect::Vax, base, &files)?)
}

/// The symbols and the lines of a file.
fn table_of_one(rt: &HostRuntime, text: &str) -> Result<Table, Fail> {
    let file = Vec::from_slice(rt.alloc(), text.as_bytes())?;
    let files = vec![in rt.alloc(); file]?;
    Ok(table_of_files(rt.alloc(), Dialect::Vax, Base::User, &files)?)
}

/// Whether a symbol has this name and this value, and reaches so far.
fn is(symbol: &Symbol, name: &[u8], value: u32, reach: u32) -> bool {
    symbol.name.as_slice() == name
        && symbol.value == value
        && symbol.reach == reach
        && symbol.is_place
}

/// Whether a symbol is this number.
fn is_number(symbol: &Symbol, name: &[u8], value: u32) -> bool {
    symbol.name.as_slice() == name && symbol.value == value && !symbol.is_place
}

#[test]
fn names_sources(rt: HostRuntime) -> Result<(), Fail> {
    let found = table(&rt, Base::User, [MAIN, WORDS])?;
    let [size, start, last, puts, ..] = found.symbols.as_slice() else {
        panic!(rt; "not four symbols");
    };
    assert!(rt; found.symbols.len() == 12);
    assert!(rt; is_number(size, b"SIZE", 12));
    // Of a section of 11 bytes, and of one of 3.
    assert!(rt; is(start, b"START", 0x200, 11));
    assert!(rt; is(last, b"LAST", 0x20A, 1));
    assert!(rt; is(puts, b"PUTS", 0x400, 3));
    Ok(())
}

/// Places before a section, at its end and behind it, and one in a section that is laid over another.
const EDGES: &str = "        .PSECT CODE,NOWRT
        .ENTRY START,0
        RET
END:
BEFORE = START-4
BEHIND = END+1
        .PSECT SHARED,OVR
FIRST:  .BLKL 1
SECOND: .BLKL 1
        .END START
";

#[test]
fn names_reach_to_their_section_s_end(rt: HostRuntime) -> Result<(), Fail> {
    let file = Vec::from_slice(rt.alloc(), EDGES.as_bytes())?;
    let files = vec![in rt.alloc(); file]?;
    let found = table_of_files(rt.alloc(), Dialect::Vms, Base::User, &files)?;
    let [start, end, before, behind, first, second, ..] = found.symbols.as_slice() else {
        panic!(rt; "not six symbols");
    };
    assert!(rt; is(start, b"START", 0x200, 3));
    assert!(rt; is(end, b"END", 0x203, 0));
    assert!(rt; is(before, b"BEFORE", 0x1FC, 0));
    assert!(rt; is(behind, b"BEHIND", 0x204, 0));
    assert!(rt; is(first, b"FIRST", 0x400, 8));
    assert!(rt; is(second, b"SECOND", 0x404, 4));
    Ok(())
}

/// The text of an address.
fn placed(table: &Table, address: u32) -> Text {
    let legend = Legend {
        symbols: &table.symbols,
        lines: &table.lines,
        names: &[],
        preludes: &[],
    };
    let mut text = Text::new();
    push_place(&mut text, &legend, address);
    text
}

/// Each stack and each table has a name up to its last byte, and the system up to the stack of kernel mode.
#[test]
fn names_stacks_and_tables(rt: HostRuntime) -> Result<(), Fail> {
    let rows: [(u32, &[u8]); 15] = [
        (0x203, b"00000203 START+3"),
        (0x20B, b"0000020B"),
        (0x403, b"00000403"),
        (0x7FFE_07FF, b"7FFE07FF EXECUTIVE_STACK+7FF"),
        (0x7FFE_0800, b"7FFE0800"),
        (0x7FFE_8004, b"7FFE8004 SUPERVISOR_STACK+4"),
        (0x7FFF_FFFC, b"7FFFFFFC USER_STACK+7FFC"),
        (0x8000_0040, b"80000040 SCB+40"),
        (0x8000_0220, b"80000220 SYSTEM+20"),
        (0x800F_FFFF, b"800FFFFF SYSTEM+FFDFF"),
        (0x8010_1FFC, b"80101FFC KERNEL_STACK+1FFC"),
        (0x8010_2000, b"80102000"),
        (0x8011_0000, b"80110000 INTERRUPT_STACK"),
        (0x8020_0000, b"80200000 PAGE_TABLES"),
        (0x8024_0000, b"80240000"),
    ];
    let found = table(&rt, Base::User, [MAIN, WORDS])?;
    for (address, text) in rows {
        assert!(rt; placed(&found, address).as_slice() == text);
    }
    Ok(())
}

/// A program for the bare machine is the system itself, and has no other name.
#[test]
fn a_bare_program_is_the_system(rt: HostRuntime) -> Result<(), Fail> {
    let found = table(&rt, Base::Bare, [MAIN, WORDS])?;
    assert!(rt; placed(&found, 0x8000_0203).as_slice() == b"80000203 START+3".as_slice());
    assert!(rt; placed(&found, 0x8000_020B).as_slice() == b"8000020B".as_slice());
    assert!(rt; placed(&found, 0x8010_0004).as_slice() == b"80100004 KERNEL_STACK+4".as_slice());
    assert!(rt; number_of(&found.symbols, b"SYSTEM").is_none());
    Ok(())
}

#[test]
fn names_bare_sources(rt: HostRuntime) -> Result<(), Fail> {
    let found = table(&rt, Base::Bare, [MAIN, WORDS])?;
    assert!(rt; number_of(&found.symbols, b"START") == Some(0x8000_0200));
    assert!(rt; number_of(&found.symbols, b"SIZE") == Some(12));
    Ok(())
}

#[test]
fn names_nothing_without_sources(rt: HostRuntime) -> Result<(), Fail> {
    let image = table_of_one(&rt, "VAXI")?;
    assert!(rt; image.symbols.len() == 8 && image.lines.is_empty());
    assert!(rt; number_of(&image.symbols, b"SYSTEM") == Some(0x8000_0200));
    let wrong = table_of_one(&rt, "A:      FROB\n        .END A\n")?;
    assert!(rt; wrong.symbols.len() == 8 && wrong.lines.is_empty());
    Ok(())
}

/// Whether a line is this one of this file, with its first byte at this address.
fn stands(line: &SourceLine, address: u32, file: usize, number: u32, text: &[u8]) -> bool {
    line.address == address
        && line.file == file
        && line.number == number
        && line.text.as_slice() == text
}

/// A statement without bytes is none of them: an entry mask has two bytes.
#[test]
fn tells_lines_of_sources(rt: HostRuntime) -> Result<(), Fail> {
    let found = table(&rt, Base::User, [MAIN, WORDS])?;
    let [start, nop, calls, last, puts, back] = found.lines.as_slice() else {
        panic!(rt; "not six lines");
    };
    assert!(rt; stands(start, 0x200, 0, 3, b"        .ENTRY START,0"));
    assert!(rt; stands(nop, 0x202, 0, 4, b"10$:    NOP"));
    assert!(rt; stands(calls, 0x203, 0, 5, b"        CALLS #0,PUTS"));
    assert!(rt; stands(last, 0x20A, 0, 6, b"LAST:   RET"));
    assert!(rt; stands(puts, 0x400, 1, 2, b"        .ENTRY PUTS,0"));
    assert!(rt; stands(back, 0x402, 1, 3, b"        RET"));
    Ok(())
}

/// A macro of two instructions, a repeat of two bytes, and a table of data.
const WOVEN: &str = "        .MACRO TWICE X
        INCL X
        INCL X
        .ENDM
        .ENTRY START,0
        TWICE R2
        .REPT 2
        NOP
        .ENDR
        .END START
";

/// Statements of an expansion have the line of its call, and copies that of their repeat.
#[test]
fn tells_lines_of_expansions(rt: HostRuntime) -> Result<(), Fail> {
    let found = table_of_one(&rt, WOVEN)?;
    let [_, one, two, first, second] = found.lines.as_slice() else {
        panic!(rt; "not five lines");
    };
    assert!(rt; stands(one, 0x202, 0, 6, b"        INCL R2"));
    assert!(rt; stands(two, 0x204, 0, 6, b"        INCL R2"));
    assert!(rt; stands(first, 0x206, 0, 7, b"        NOP"));
    assert!(rt; stands(second, 0x207, 0, 7, b"        NOP"));
    Ok(())
}

/// Two numbers in an absolute section, which stands where the code begins.
const NUMBERS: &str = "        .PSECT NUMBERS,ABS
ONE:    .BLKL 1
TWO:    .BLKL 1
        .PSECT CODE
        .ENTRY START,0
        RET
        .END START
";

/// What only counts has no line.
#[test]
fn tells_no_line_of_an_absolute_section(rt: HostRuntime) -> Result<(), Fail> {
    let file = Vec::from_slice(rt.alloc(), NUMBERS.as_bytes())?;
    let files = vec![in rt.alloc(); file]?;
    let found = table_of_files(rt.alloc(), Dialect::Vms, Base::User, &files)?;
    let [start, back] = found.lines.as_slice() else {
        panic!(rt; "not two lines");
    };
    assert!(rt; stands(start, 0x200, 0, 5, b"        .ENTRY START,0"));
    assert!(rt; stands(back, 0x202, 0, 6, b"        RET"));
    Ok(())
}

/// The line of the statement at an address, as it is told.
fn told(legend: &Legend, address: u32) -> Text {
    let mut text = Text::new();
    push_source_line(&mut text, legend, address);
    text
}

/// A line is found by the address of its first byte alone, and told with its file and its number there: without the lines of what stands before the sources.
#[test]
fn tells_a_line_as_one_of_its_file(rt: HostRuntime) -> Result<(), Fail> {
    let found = table(&rt, Base::User, [MAIN, WORDS])?;
    assert!(rt; line_at(&found.lines, 0x204).is_none());
    let preludes = [Prelude {
        name: b"own.mac",
        text: Vec::from_slice(rt.alloc(), b"; one\n; two\n")?,
    }];
    let legend = Legend {
        symbols: &found.symbols,
        lines: &found.lines,
        names: &["main.mar", "words.mar"],
        preludes: &preludes,
    };
    assert!(rt; told(&legend, 0x202).as_slice() == b"main.mar:2: 10$:    NOP\n".as_slice());
    assert!(rt; told(&legend, 0x204).as_slice().is_empty());
    assert!(rt;
        told(&legend, 0x400).as_slice() == b"own.mac:2:         .ENTRY PUTS,0\n".as_slice()
    );
    assert!(rt; told(&legend, 0x402).as_slice() == b"words.mar:1:         RET\n".as_slice());
    Ok(())
}
