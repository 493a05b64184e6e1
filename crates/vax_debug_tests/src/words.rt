//! Tests of the words of lines. Expected values are worked by hand.
use std::test::Fail;
use vax_debug_words::{
    Base, COMMANDS, Command, Expression, Field, Form, Line, Refusal, Request, Size, Value,
    is_meant, read_line, usage,
};

/// Why a line isn't understood; none where it is.
fn refused(text: &[u8]) -> Option<Refusal> {
    match read_line(text) {
        Line::Refused(refusal) => Some(refusal),
        _ => None,
    }
}

/// Whether a base is this name, in capitals.
fn is_named(base: &Base, name: &[u8]) -> bool {
    match base {
        Base::Named(found) => found.as_slice() == name,
        Base::Register(_) => false,
    }
}

/// Whether an expression is a name with these `@`s and this offset.
fn is_name(found: &Expression, name: &[u8], through: u8, offset: u32) -> bool {
    is_named(&found.base, name) && found.through == through && found.offset == offset
}

/// Whether an expression is what a register holds, with an offset.
fn is_held(found: &Expression, register: u8, offset: u32) -> bool {
    matches!(found.base, Base::Register(n) if n == register)
        && found.through == 1
        && found.offset == offset
}

#[test]
fn takes_unique_beginnings(rt: HostRuntime) -> Result<(), Fail> {
    assert!(rt; matches!(read_line(b"g"), Line::Request(Request::Go)));
    assert!(rt; matches!(read_line(b"  go  "), Line::Request(Request::Go)));
    assert!(rt; matches!(read_line(b"Ste 12"), Line::Request(Request::Step(12))));
    assert!(rt; matches!(read_line(b"step"), Line::Request(Request::Step(1))));
    assert!(rt; matches!(read_line(b"STA 3"), Line::Request(Request::Stack(3))));
    assert!(rt; matches!(read_line(b"ou"), Line::Request(Request::Out)));
    assert!(rt; matches!(read_line(b"ov"), Line::Request(Request::Over)));
    assert!(rt; matches!(read_line(b"show br"), Line::Request(Request::Show)));
    assert!(rt; matches!(read_line(b"cl"), Line::Request(Request::Clear(None))));
    assert!(rt; matches!(read_line(b"p"), Line::Request(Request::Pages)));
    assert!(rt; matches!(read_line(b"T"), Line::Request(Request::Turn)));
    assert!(rt; matches!(read_line(b"ev all"), Line::Request(Request::EvictAll)));
    assert!(rt;
        matches!(
            read_line(b"h ex"),
            Line::Request(Request::Help(Some(Command::Examine)))
        )
    );
    assert!(rt; matches!(read_line(b"di"), Line::Request(Request::Disassemble(None))));
    assert!(rt; matches!(read_line(b"sa"), Line::Request(Request::Save)));
    assert!(rt; matches!(read_line(b"R"), Line::Request(Request::Restart)));
    assert!(rt; matches!(read_line(b"restart"), Line::Request(Request::Restart)));
    assert!(rt; matches!(read_line(b"qui"), Line::Request(Request::Quit)));
    assert!(rt; matches!(read_line(b""), Line::Blank));
    assert!(rt; matches!(read_line(b"   "), Line::Blank));
    Ok(())
}

#[test]
fn tells_what_is_refused(rt: HostRuntime) -> Result<(), Fail> {
    assert!(rt; refused(b"s") == Some(Refusal::Several));
    assert!(rt; refused(b"st") == Some(Refusal::Several));
    assert!(rt; refused(b"e 200") == Some(Refusal::Several));
    assert!(rt; refused(b"w") == Some(Refusal::Several));
    assert!(rt; refused(b"watch 200 0") == Some(Refusal::Usage(Command::Watch)));
    assert!(rt; refused(b"show steps") == Some(Refusal::Usage(Command::Show)));
    assert!(rt; refused(b"gone") == Some(Refusal::Unknown));
    assert!(rt; refused(b"dep psl") == Some(Refusal::Usage(Command::Deposit)));
    assert!(rt; refused(b"pages 1") == Some(Refusal::Usage(Command::Pages)));
    assert!(rt; refused(b"/b 200") == Some(Refusal::Unknown));
    assert!(rt; refused(b"save state") == Some(Refusal::Usage(Command::Save)));
    assert!(rt; refused(b"restart 0") == Some(Refusal::Usage(Command::Restart)));
    assert!(rt; refused(b"restarts") == Some(Refusal::Unknown));
    assert!(rt; refused(b"go 1") == Some(Refusal::Usage(Command::Go)));
    assert!(rt; refused(b"go/b") == Some(Refusal::Usage(Command::Go)));
    assert!(rt; refused(b"step 0") == Some(Refusal::Usage(Command::Step)));
    assert!(rt; refused(b"step 01") == Some(Refusal::Usage(Command::Step)));
    assert!(rt; refused(b"ex/x 200") == Some(Refusal::Usage(Command::Examine)));
    assert!(rt; refused(b"ex 200 65") == Some(Refusal::Usage(Command::Examine)));
    assert!(rt; refused(b"ex r3 2") == Some(Refusal::Usage(Command::Examine)));
    assert!(rt; refused(b"ex r3+4") == Some(Refusal::Usage(Command::Examine)));
    assert!(rt; refused(b"break r3") == Some(Refusal::Usage(Command::Break)));
    assert!(rt; refused(b"de/in 200 1") == Some(Refusal::Usage(Command::Deposit)));
    assert!(rt; refused(b"de/q 200 1111222233334444X") == Some(Refusal::Usage(Command::Deposit)));
    assert!(rt; refused(&[b' '; 1_024]).is_none());
    assert!(rt; refused(&[b' '; 1_025]) == Some(Refusal::Length));
    Ok(())
}

#[test]
fn reads_places(rt: HostRuntime) -> Result<(), Fail> {
    assert!(rt;
        matches!(
            read_line(b"ex r0"),
            Line::Request(Request::ExamineRegister(0))
        )
    );
    assert!(rt;
        matches!(
            read_line(b"ex R15"),
            Line::Request(Request::ExamineRegister(15))
        )
    );
    assert!(rt;
        matches!(
            read_line(b"ex fp"),
            Line::Request(Request::ExamineRegister(13))
        )
    );
    assert!(rt; matches!(read_line(b"ex psl"), Line::Request(Request::ExamineStatus)));
    assert!(rt;
        matches!(
            read_line(b"ex psl.ipl"),
            Line::Request(Request::ExamineField(Field::Priority))
        )
    );
    assert!(rt; refused(b"ex psl.ipl 2").is_none());
    assert!(rt;
        matches!(
            read_line(b"ex/l psl.n"),
            Line::Request(Request::ExamineMemory(Form::Long, _))
        )
    );
    let shown = read_line(b"examine list+10");
    assert!(rt;
        matches!(&shown, Line::Request(Request::ExamineMemory(Form::Long, at))
        if at.count == 1 && is_name(&at.from, b"LIST", 0, 0x10))
    );
    let shown = read_line(b"ex/asc @@list-4 16");
    assert!(rt;
        matches!(&shown, Line::Request(Request::ExamineMemory(Form::Ascii, at))
        if at.count == 16 && is_name(&at.from, b"LIST", 2, 0xFFFF_FFFC))
    );
    let shown = read_line(b"ex/l @ap+4 2");
    assert!(rt;
        matches!(&shown, Line::Request(Request::ExamineMemory(Form::Long, at))
        if at.count == 2 && is_held(&at.from, 12, 4))
    );
    let watch = read_line(b"wa count+2");
    assert!(rt;
        matches!(&watch, Line::Request(Request::Watch(at))
        if at.count == 4 && is_name(&at.from, b"COUNT", 0, 2))
    );
    assert!(rt; matches!(read_line(b"sh w"), Line::Request(Request::ShowWatches)));
    let stop = read_line(b"break fact");
    assert!(rt; matches!(&stop, Line::Request(Request::Break(at)) if is_name(at, b"FACT", 0, 0)));
    Ok(())
}

#[test]
fn reads_values(rt: HostRuntime) -> Result<(), Fail> {
    let put = read_line(b"dep r3 @sp");
    assert!(rt;
        matches!(&put, Line::Request(Request::DepositRegister { register: 3, value })
        if is_held(value, 14, 0))
    );
    let put = read_line(b"dep psl.mode user");
    assert!(rt;
        matches!(&put, Line::Request(Request::DepositField(Field::Mode, value))
        if is_name(value, b"3", 0, 0))
    );
    let put = read_line(b"dep/l psl.n 1");
    assert!(rt;
        matches!(&put, Line::Request(Request::DepositMemory { to, .. })
        if is_name(to, b"PSL.N", 0, 0))
    );
    let put = read_line(b"dep/w 200 ffff");
    assert!(rt;
        matches!(&put, Line::Request(Request::DepositMemory {
        to,
        value: Value::Number(Size::Word, value),
    }) if is_name(to, b"200", 0, 0) && is_name(value, b"FFFF", 0, 0))
    );
    let put = read_line(b"dep/quad 200 123456789");
    assert!(rt;
        matches!(
            &put,
            Line::Request(Request::DepositMemory {
                value: Value::Quadword(0x1_2345_6789),
                ..
            })
        )
    );
    let put = read_line(b"dep/a 200 Hello");
    assert!(rt;
        matches!(&put, Line::Request(Request::DepositMemory { value: Value::Text(text), .. })
        if text.as_slice() == b"Hello".as_slice())
    );
    Ok(())
}

/// The characters that a `DEPOSIT/ASCII` of a word puts.
fn is_put(line: &[u8], text: &[u8]) -> bool {
    match read_line(line) {
        Line::Request(
            Request::DepositMemory {
                value: Value::Text(found),
                ..
            },
        ) => found.as_slice() == text,
        _ => false,
    }
}

#[test]
fn takes_quotes_off(rt: HostRuntime) -> Result<(), Fail> {
    assert!(rt; is_put(b"dep/a 200 \"HELLO\"", b"HELLO"));
    assert!(rt; is_put(b"dep/a 200 HELLO", b"HELLO"));
    assert!(rt; is_put(b"dep/a 200 \"\"\"", b"\""));
    assert!(rt; is_put(b"dep/a 200 \"\"A\"\"", b"\"A\""));
    assert!(rt; is_put(b"dep/a 200 A\"B", b"A\"B"));
    assert!(rt; is_put(b"dep/a 200 AB\"", b"AB\""));
    assert!(rt; refused(b"dep/a 200 \"") == Some(Refusal::Usage(Command::Deposit)));
    assert!(rt; refused(b"dep/a 200 \"\"") == Some(Refusal::Usage(Command::Deposit)));
    assert!(rt; refused(b"dep/a 200 \"HELLO") == Some(Refusal::Usage(Command::Deposit)));
    Ok(())
}

/// Digits of more than 64 bits are a number that is too large; zeros before a number aren't counted.
#[test]
fn tells_quadwords_from_larger_numbers(rt: HostRuntime) -> Result<(), Fail> {
    let put = read_line(b"de/q 200 11112222333344445");
    assert!(rt;
        matches!(
            &put,
            Line::Request(Request::DepositMemory {
                value: Value::TooLarge,
                ..
            })
        )
    );
    let put = read_line(b"de/q 200 00ffffffffffffffff");
    assert!(rt;
        matches!(
            &put,
            Line::Request(Request::DepositMemory {
                value: Value::Quadword(0xFFFF_FFFF_FFFF_FFFF),
                ..
            })
        )
    );
    Ok(())
}

/// How many commands a line that is refused may have meant.
fn count_of(text: &[u8]) -> usize {
    match refused(text) {
        None => 0,
        Some(refusal) => COMMANDS
            .iter()
            .filter(|command| is_meant(refusal, text, **command))
            .count(),
    }
}

#[test]
fn tells_what_would_be_understood(rt: HostRuntime) -> Result<(), Fail> {
    assert!(rt; count_of(b"frob") == 22);
    assert!(rt; count_of(b"s") == 4);
    assert!(rt; count_of(b"st") == 2);
    assert!(rt; count_of(b"go 1") == 1);
    assert!(rt; count_of(&[b' '; 1_025]) == 0);
    assert!(rt; is_meant(Refusal::Several, b"o", Command::Over));
    assert!(rt; is_meant(Refusal::Several, b"o", Command::Out));
    assert!(rt; !is_meant(Refusal::Several, b"o", Command::Go));
    assert!(rt; usage(Command::Step).starts_with(b"STEP [n]"));
    Ok(())
}
