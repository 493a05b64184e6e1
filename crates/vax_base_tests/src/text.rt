//! The text of a report's line, as its pieces make it.
use vax_outside::Text;

#[test]
fn builds_numbers(rt: HostRuntime) {
    let mut text = Text::new();
    text.push(b"at ");
    text.push_decimal(0);
    text.push_decimal(u64::MAX);
    text.push_hex8(0x8010_2ABC);
    text.push_hex3(0x1020);
    text.push_hex2(0xF9);
    assert!(rt; text.as_slice() == b"at 01844674407370955161580102ABC020F9".as_slice());
}
