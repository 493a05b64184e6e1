//! Listings of programs.
use std::test::Fail;
use vax_asm_listing::{ListingError, list_sources};
use vax_dialect::Dialect;
use vax_image::Base;

/// A program with a text, a macro and a call of it.
const SOURCE: &str = "        .PSECT CODE,NOWRT
; a text, and a doubling
MSG:    .ASCII /Hello, world!/
BUF:    .BLKB 20
        .MACRO TWICE X
        ADDL2 X,X
        .ENDM
        .ENTRY START,0
        TWICE R1
        RET
        .END START
";

const LISTING: &str = "MODULE 1
     1 00000200                                  .PSECT CODE,NOWRT
     2 00000200                          ; a text, and a doubling
     3 00000200 48 65 6C 6C 6F 2C 20 77  MSG:    .ASCII /Hello, world!/
       00000208 6F 72 6C 64 21
     4 0000020D 00 * 20                  BUF:    .BLKB 20
     5                                           .MACRO TWICE X
     6                                           ADDL2 X,X
     7                                           .ENDM
     8 00000221 00 00                            .ENTRY START,0
     9                                           TWICE R1
     + 00000223 C0 51 51                             ADDL2 R1,R1
    10 00000226 04                               RET
    11 00000227                                  .END START
SECTIONS
00000200      0 WRT   . BLANK .
00000200     39 NOWRT CODE
NAMES
00000200 REL        MSG
0000020D REL        BUF
00000221 REL GLOBAL START
ENTRY 00000221
";

/// A repeat with a label before its end. The label stands before the copies, which are of the line with which the repeat begins.
const REPEAT: &str = "S:      HALT
        .REPT 2
        .BYTE 1
L:      .ENDR
        .BYTE 2
        .END S
";

const REPEAT_LISTING: &str = "MODULE 1
     1 00000200 00                       S:      HALT
     2                                           .REPT 2
     3                                           .BYTE 1
     4                                   L:      .ENDR
     + 00000201                              L:
     + 00000201 01                                   .BYTE 1
     + 00000202 01                                   .BYTE 1
     5 00000203 02                               .BYTE 2
     6 00000204                                  .END S
SECTIONS
00000200      4 WRT   . BLANK .
NAMES
00000200 REL        S
00000201 REL        L
ENTRY 00000200
";

/// Offsets in an absolute section, which is at address 0, has counted 13, and has no bytes.
const OFFSETS: &str = "        .PSECT BLOCK,ABS
FIRST:  .BLKL 3
NEXT:   .BLKB
        .PSECT CODE
S:      MOVB NEXT(R1),R0
        .END S
";

const OFFSETS_LISTING: &str = "MODULE 1
     1 00000000                                  .PSECT BLOCK,ABS
     2 00000000                          FIRST:  .BLKL 3
     3 0000000C                          NEXT:   .BLKB
     4 00000200                                  .PSECT CODE
     5 00000200 90 A1 0C 50              S:      MOVB NEXT(R1),R0
     6 00000204                                  .END S
SECTIONS
00000200      0 WRT   . BLANK .
00000000     13 WRT   BLOCK
00000200      4 WRT   CODE
NAMES
00000000 ABS        FIRST
0000000C ABS        NEXT
00000200 REL        S
ENTRY 00000200
";

/// The listing of a source in a dialect.
fn listing_in(rt: &HostRuntime, dialect: Dialect, source: &str) -> Result<Vec<u8>, ListingError> {
    let file = Vec::from_slice(rt.alloc(), source.as_bytes())?;
    let files = vec![in rt.alloc(); file]?;
    list_sources(rt.alloc(), dialect, Base::User, &files)
}

/// The listing of a source.
fn listing_of(rt: &HostRuntime, source: &str) -> Result<Vec<u8>, ListingError> {
    listing_in(rt, Dialect::Vax, source)
}

#[test]
fn lists_lines_sections_and_names(rt: HostRuntime) -> Result<(), Fail> {
    let text = listing_of(&rt, SOURCE)?;
    assert!(rt; text.as_slice() == LISTING.as_bytes());
    Ok(())
}

#[test]
fn lists_what_stands_behind_a_label_before_the_end_of_a_repeat(
    rt: HostRuntime,
) -> Result<(), Fail> {
    let text = listing_of(&rt, REPEAT)?;
    assert!(rt; text.as_slice() == REPEAT_LISTING.as_bytes());
    Ok(())
}

#[test]
fn lists_offsets_without_bytes(rt: HostRuntime) -> Result<(), Fail> {
    let text = listing_in(&rt, Dialect::Vms, OFFSETS)?;
    assert!(rt; text.as_slice() == OFFSETS_LISTING.as_bytes());
    Ok(())
}

#[test]
fn tells_a_fault_by_its_line(rt: HostRuntime) -> Result<(), Fail> {
    let found = listing_of(&rt, " NOP\n FROB\n .END\n");
    assert!(rt;
        matches!(
            found,
            Err(ListingError::Source {
                file: 1,
                line: 2,
                ..
            })
        )
    );
    Ok(())
}
