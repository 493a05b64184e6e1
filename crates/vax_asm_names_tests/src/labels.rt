//! Statements that define names and choose sections, as they are written.
ghost use Rattle.std.specs.Prelude.{◌≤◌, length};

use std::alloc::Global;
use std::process::Abort;
use std::rc::Rc;
use std::test::Fail;
use vax_asm_encode::DataKind;
use vax_asm_first::{
    Assignment, Content, FaultKind, Filling, Fixup, Origin, Refused, Standing, first_circle,
};
use vax_asm_labels::*;
use vax_asm_scope::Linkage;
use vax_asm_sections::Piece;
use vax_asm_statement::Label;
use vax_dialect::Dialect;
use vax_lex::{TokenKind, Value, scan};
use vax_word::Size;

const ORIGIN: Origin = Origin { line: 1, place: 1 };

/// What a statement is, as the tests call it.
#[derive(Clone, Copy)]
enum Kind {
    /// The name alone, without its colons.
    Label { global: bool },
    Assignment { global: bool },
    Section,
    Entry,
    Names(Linkage),
    End,
}

const LABEL: Kind = Kind::Label { global: false };

const GLOBAL_LABEL: Kind = Kind::Label { global: true };

const ASSIGNMENT: Kind = Kind::Assignment { global: false };

const GLOBALS: Kind = Kind::Names(Linkage::Global);

const EXTERNALS: Kind = Kind::Names(Linkage::External);

/// A statement is carried out. Its name, if it begins with one, is the first token, and `=` or `==` stands behind it.
fn stated_behind(
    alloc: Global,
    standing: &mut Standing,
    assignments: &mut Vec<Assignment>,
    kind: Kind,
    text: &[u8],
) -> Result<Result<(), Refused>, Fail>
    requires { length text.now ≤ 1024 }
{
    let tokens = scan(alloc, text)?;
    if tokens.len() < 1 || tokens.len() > 1024 {
        return Ok(Err(Refused::NoMemory));
    }
    let line = Rc::new(alloc, text.to_vec(alloc)?)?;
    let name = tokens[0];
    if name.kind != TokenKind::Name {
        return Ok(Err(Refused::NoMemory));
    }
    let operands = &tokens[1..];
    let done = match kind {
        Kind::Label { global } => label(standing, alloc, &line, Label { name, global }),
        Kind::Assignment { global } => {
            let marks = if global { 2 } else { 1 };
            if operands.len() < marks {
                return Ok(Err(Refused::NoMemory));
            }
            let expression = &operands[marks..];
            assignment(
                standing,
                assignments,
                alloc,
                ORIGIN,
                &line,
                name,
                global,
                expression,
            )
        }
        Kind::Section => section(standing, alloc, &line, operands),
        Kind::Entry => entry(standing, alloc, ORIGIN, &line, operands),
        Kind::Names(linkage) => names(standing, alloc, &line, linkage, operands),
        Kind::End => end(standing, alloc, &line, operands),
    };
    Ok(done)
}

/// Statements one behind another, each with its fault if it has one.
fn test_behind(
    rt: &impl Abort,
    alloc: Global,
    standing: &mut Standing,
    assignments: &mut Vec<Assignment>,
    rows: &[(Kind, &str, Option<FaultKind>)],
) -> Result<(), Fail> {
    for (kind, text, fault) in rows {
        assert!(rt; text.len() <= 1024, "{text}");
        let want = match fault {
            Some(kind) => Err(Refused::Fault(*kind)),
            None => Ok(()),
        };
        let found = stated_behind(alloc, standing, assignments, *kind, text.as_bytes())?;
        assert!(rt; found == want, "{text}");
    }
    Ok(())
}

/// The same, whatever waits for later statements.
fn test_stated(
    rt: &impl Abort,
    alloc: Global,
    standing: &mut Standing,
    rows: &[(Kind, &str, Option<FaultKind>)],
) -> Result<(), Fail> {
    test_behind(rt, alloc, standing, &mut Vec::new(alloc), rows)
}

/// Statements each alone in a source, but for a label before it where one is told.
fn test_alone(
    rt: &impl Abort,
    alloc: Global,
    rows: &[(Option<&str>, Kind, &str, Option<FaultKind>)],
) -> Result<(), Fail> {
    for (before, kind, text, fault) in rows {
        let mut standing = Standing::new(alloc, Dialect::Vax)?;
        if let Some(name) = before {
            test_stated(rt, alloc, &mut standing, &[(LABEL, *name, None)])?;
        }
        test_stated(rt, alloc, &mut standing, &[(*kind, *text, *fault)])?;
    }
    Ok(())
}

/// What names stand for where a statement stands.
fn test_known(rt: &impl Abort, standing: &Standing, here: Value, rows: &[(&str, Option<Value>)]) {
    for (name, value) in rows {
        assert!(rt;
            standing.scope.known(name.as_bytes(), here) == *value,
            "{name}"
        );
    }
}

fn place(section: u32, offset: i64) -> Option<Value> {
    Some(Value::Section { section, offset })
}

/// Whether other modules may use the name that appeared first.
fn first_is_global(standing: &Standing) -> bool {
    match standing.scope.names().first() {
        Some(name) => name.global,
        None => false,
    }
}

#[test]
fn labels_have_the_value_of_their_place(rt: HostRuntime) -> Result<(), Fail> {
    let alloc = rt.alloc();
    let mut standing = Standing::new(alloc, Dialect::Vax)?;
    let here = standing.here()?;
    test_stated(&rt, alloc, &mut standing, &[(GLOBAL_LABEL, "first", None)])?;
    standing.put(3, Piece::Zeros(3))?;
    test_stated(&rt, alloc, &mut standing, &[(LABEL, "010$", None)])?;
    test_known(
        &rt,
        &standing,
        here,
        &[("FIRST", place(0, 0)), ("10$", place(0, 3))],
    );
    assert!(rt; first_is_global(&standing));
    let again = [(LABEL, "FIRST", Some(FaultKind::Duplicate))];
    test_stated(&rt, alloc, &mut standing, &again)?;
    // All is as before, the block of local labels too.
    test_known(&rt, &standing, here, &[("10$", place(0, 3))]);
    test_stated(&rt, alloc, &mut standing, &[(LABEL, "NEXT", None)])?;
    test_known(&rt, &standing, here, &[("10$", None)]);
    test_stated(&rt, alloc, &mut standing, &[(LABEL, "10$", None)])
}

#[test]
fn tells_the_faults_of_labels(rt: HostRuntime) -> Result<(), Fail> {
    let rows = [
        (None, GLOBAL_LABEL, "10$", Some(FaultKind::Form)),
        (None, LABEL, ".", Some(FaultKind::Form)),
        (Some("10$"), LABEL, "10$", Some(FaultKind::Duplicate)),
    ];
    test_alone(&rt, rt.alloc(), &rows)
}

#[test]
fn assignments_may_wait_for_later_ones(rt: HostRuntime) -> Result<(), Fail> {
    let alloc = rt.alloc();
    let mut standing = Standing::new(alloc, Dialect::Vax)?;
    let here = standing.here()?;
    let global = Kind::Assignment { global: true };
    let mut later = Vec::new(alloc);
    test_behind(
        &rt,
        alloc,
        &mut standing,
        &mut later,
        &[(global, "X == Y+1", None)],
    )?;
    let x = standing.scope.appear(alloc, b"X")?;
    assert!(rt; later.len() == 1 && later[0].definition == x);
    assert!(rt; first_is_global(&standing));
    test_known(&rt, &standing, here, &[("X", None)]);
    test_behind(
        &rt,
        alloc,
        &mut standing,
        &mut later,
        &[(ASSIGNMENT, "Y = 4", None)],
    )?;
    test_known(&rt, &standing, here, &[("X", Some(Value::Absolute(5)))]);
    let rows = [(ASSIGNMENT, "X = X*2", None), (ASSIGNMENT, "Z = .", None)];
    test_stated(&rt, alloc, &mut standing, &rows)?;
    let rows = [("X", Some(Value::Absolute(10))), ("Z", place(0, 0))];
    test_known(&rt, &standing, here, &rows);
    assert!(rt; later.len() == 1);
    Ok(())
}

#[test]
fn tells_the_faults_of_assignments(rt: HostRuntime) -> Result<(), Fail> {
    let rows = [
        (None, ". = 5", Some(FaultKind::UnknownOperator)),
        (None, "10$ = 5", Some(FaultKind::Form)),
        (None, "X =", Some(FaultKind::Form)),
        (None, "X = 1/0", Some(FaultKind::Range)),
        (None, "X = Y/0", Some(FaultKind::Range)),
        (Some("L"), "L = 1/0", Some(FaultKind::Duplicate)),
        (Some("L"), "L = )", Some(FaultKind::Form)),
    ];
    for (before, text, fault) in rows {
        test_alone(&rt, rt.alloc(), &[(before, ASSIGNMENT, text, fault)])?;
    }
    Ok(())
}

#[test]
fn a_circle_is_found_where_it_closes(rt: HostRuntime) -> Result<(), Fail> {
    let alloc = rt.alloc();
    let mut standing = Standing::new(alloc, Dialect::Vax)?;
    let mut later = Vec::new(alloc);
    let rows = [(ASSIGNMENT, "X = Y", None), (ASSIGNMENT, "Y = Z-Z", None)];
    test_behind(&rt, alloc, &mut standing, &mut later, &rows)?;
    assert!(rt; first_circle(alloc, &later)?.is_none());
    test_behind(
        &rt,
        alloc,
        &mut standing,
        &mut later,
        &[(ASSIGNMENT, "Z = X", None)],
    )?;
    assert!(rt; later.len() == 3);
    assert!(rt; first_circle(alloc, &later)? == Some(ORIGIN));
    Ok(())
}

#[test]
fn chooses_sections_with_their_attributes(rt: HostRuntime) -> Result<(), Fail> {
    let alloc = rt.alloc();
    let mut standing = Standing::new(alloc, Dialect::Vax)?;
    let code = [(Kind::Section, ".PSECT code,nowrt,PIC,LONG,NOWRT", None)];
    test_stated(&rt, alloc, &mut standing, &code)?;
    let section = standing.layout.current();
    assert!(rt; section.name.as_slice() == b"CODE".as_slice());
    assert!(rt; section.align == 2 && !section.write);
    let data = [
        (LABEL, "1$", None),
        (Kind::Section, ".PSECT DATA", None),
        (LABEL, "1$", None),
    ];
    test_stated(&rt, alloc, &mut standing, &data)?;
    assert!(rt; standing.layout.number() == 2);
    test_stated(
        &rt,
        alloc,
        &mut standing,
        &[(Kind::Section, ".PSECT CODE", None)],
    )?;
    assert!(rt; standing.layout.number() == 1);
    let conflict = [(Kind::Section, ".PSECT DATA,NOWRT", Some(FaultKind::Form))];
    test_stated(&rt, alloc, &mut standing, &conflict)
}

#[test]
fn tells_the_faults_of_sections(rt: HostRuntime) -> Result<(), Fail> {
    let rows = [
        (None, Kind::Section, ".PSECT", Some(FaultKind::Count)),
        (None, Kind::Section, ".PSECT 10$", Some(FaultKind::Form)),
        (None, Kind::Section, ".PSECT A,", Some(FaultKind::Form)),
        (
            None,
            Kind::Section,
            ".PSECT A,BYTE,WORD",
            Some(FaultKind::Form),
        ),
    ];
    test_alone(&rt, rt.alloc(), &rows)
}

/// Whether a section holds a word alone, with a value.
fn holds_word(pieces: &[Piece<Fixup>], value: Value) -> bool {
    let word = Content::Data {
        kind: DataKind::Number(Size::W),
        count: 1,
    };
    match pieces {
        [Piece::Field(fixup)] => match fixup.filling {
            Filling::Known(known) => fixup.content == word && known == value,
            Filling::Later(_) => false,
        },
        _ => false,
    }
}

#[test]
fn entries_have_a_word_for_their_mask(rt: HostRuntime) -> Result<(), Fail> {
    let alloc = rt.alloc();
    let mut standing = Standing::new(alloc, Dialect::Vax)?;
    let here = standing.here()?;
    let rows = [
        (LABEL, "1$", None),
        (Kind::Entry, ".ENTRY begin,^M<R2,R11>", None),
    ];
    test_stated(&rt, alloc, &mut standing, &rows)?;
    test_known(
        &rt,
        &standing,
        here,
        &[("BEGIN", place(0, 0)), ("1$", None)],
    );
    assert!(rt; first_is_global(&standing));
    let section = standing.layout.current();
    assert!(rt; section.size == 2);
    assert!(rt; holds_word(section.pieces.as_slice(), Value::Absolute(0x804)));
    Ok(())
}

#[test]
fn tells_the_faults_of_entries(rt: HostRuntime) -> Result<(), Fail> {
    let alloc = rt.alloc();
    let rows = [
        (None, Kind::Entry, ".ENTRY X", Some(FaultKind::Count)),
        (None, Kind::Entry, ".ENTRY 1$,1", Some(FaultKind::Form)),
        (None, Kind::Entry, ".ENTRY X,1[2]", Some(FaultKind::Form)),
        (
            None,
            Kind::Entry,
            ".ENTRY X,70000+X-X",
            Some(FaultKind::Range),
        ),
        (
            Some("X"),
            Kind::Entry,
            ".ENTRY X,70000",
            Some(FaultKind::Duplicate),
        ),
    ];
    test_alone(&rt, alloc, &rows)?;
    // Where the name is at fault the block of local labels is the one before.
    let mut standing = Standing::new(alloc, Dialect::Vax)?;
    let rows = [
        (LABEL, "X", None),
        (LABEL, "1$", None),
        (Kind::Entry, ".ENTRY X,1$", Some(FaultKind::Form)),
    ];
    test_stated(&rt, alloc, &mut standing, &rows)
}

#[test]
fn names_appear_in_their_order(rt: HostRuntime) -> Result<(), Fail> {
    let alloc = rt.alloc();
    let mut standing = Standing::new(alloc, Dialect::Vax)?;
    let rows = [
        (GLOBALS, ".GLOBAL b,A", None),
        (EXTERNALS, ".EXTERNAL c, b", None),
        (Kind::End, ".END a", None),
    ];
    test_stated(&rt, alloc, &mut standing, &rows)?;
    let [first, second, third] = standing.scope.names() else {
        return Err(Fail::from("other names"));
    };
    assert!(rt; first.text.as_slice() == b"B".as_slice());
    assert!(rt; second.global && !third.global);
    let Some(transfer) = &standing.transfer else {
        return Err(Fail::from("no transfer"));
    };
    assert!(rt; transfer.name.as_slice() == b"A".as_slice());
    assert!(rt; transfer.definition == second.definition);
    Ok(())
}

#[test]
fn tells_the_faults_of_names(rt: HostRuntime) -> Result<(), Fail> {
    let rows = [
        (None, GLOBALS, ".GLOBAL", Some(FaultKind::Count)),
        (None, GLOBALS, ".GLOBAL A,1$", Some(FaultKind::Form)),
        (None, EXTERNALS, ".EXTERNAL .", Some(FaultKind::Form)),
        (None, Kind::End, ".END", None),
        (None, Kind::End, ".END A,", Some(FaultKind::Count)),
        (None, Kind::End, ".END A+1", Some(FaultKind::Form)),
    ];
    test_alone(&rt, rt.alloc(), &rows)
}
