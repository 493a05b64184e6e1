//! Generated programs and the executive. Numbers are worked by hand from the generator's rule.
use std::test::Fail;
use vax_guest::*;

/// The first two numbers behind the seed 1 are 1015568748 (3C88596C) and 1586005467 (5E8885DB): bits 26:24 choose ROTL and
/// MOVC3, the low words are 22892 and 34267, and 37 * 34267 is 22695 modulo 65536.
#[test]
fn makes_programs(rt: HostRuntime) -> Result<(), Fail> {
    let text = generate(rt.alloc(), 1, 2)?;
    assert!(rt;
        text.as_slice()
            == b".PSECT DATA\nBUF: .BLKB 66048\n.PSECT CODE,NOWRT\n.ENTRY START,^M<>\nROTL #7,R6,R8\nMOVC3 #256,BUF+34267,BUF+22695\nCHMK #0\n.END START\n".as_slice()
    );
    Ok(())
}

#[test]
fn begins_and_ends(rt: HostRuntime) {
    let text = executive();
    assert!(rt; text.len() == 819);
}
