//! Tables of lines and expressions, with what the rules give for them.

ghost use Rattle.std.specs.Prelude.{◌≡◌, Some, None, pos, negsuc, codes, if◌then◌else◌};
ghost use Rattle.std.specs.Str.{bytes_eq};
ghost use Rattle.vax_lex.specs.declared.value.Value.TheVariants.{Absolute, Section, External};

use std::alloc::Global;
use std::process::Abort;
use std::test::Fail;
use vax_dialect::Dialect;
use vax_lex::{
    ExprError, LexError, Names, PieceKind, Span, TokenKind, Value, certain_fault, evaluate, names,
    pieces, scan,
};

/// Whether a text is this word.
fn is_word(text: &[u8], word: &[u8]) -> bool
    ensures value { result ≡ bytes_eq text.now word.now }
{
    text == word
}

/// Names for the tests, in a dialect: `A`, `MIN` and `.` are numbers, `L`, `M2`, `10$` and `K` places, `E` and `F` external.
#[derive(Drop)]
struct Symbols {
    dialect: Dialect,
}

impl Names for Symbols {
    ghost meaning = { λ s. record {
      dialect = s.dialect;
      value = λ name.
          if bytes_eq name (codes "A") then Some (Absolute (pos 5))
          else (if bytes_eq name (codes "MIN") then Some (Absolute (negsuc 9223372036854775807))
          else (if bytes_eq name (codes ".") then Some (Absolute (pos 512))
          else (if bytes_eq name (codes "L") then Some (Section 1 (pos 16))
          else (if bytes_eq name (codes "M2") then Some (Section 1 (pos 40))
          else (if bytes_eq name (codes "10$") then Some (Section 1 (pos 20))
          else (if bytes_eq name (codes "K") then Some (Section 2 (pos 8))
          else (if bytes_eq name (codes "E") then Some (External 0 (pos 0))
          else (if bytes_eq name (codes "F") then Some (External 1 (pos 4))
          else None))))))));
    } };

    fn dialect(&self) -> Dialect {
        self.dialect
    }

    fn lookup(&self, name: &[u8]) -> Option<Value> {
        if is_word(name, b"A") {
            Some(Value::Absolute(5))
        } else if is_word(name, b"MIN") {
            Some(Value::Absolute(i64::MIN))
        } else if is_word(name, b".") {
            Some(Value::Absolute(512))
        } else if is_word(name, b"L") {
            Some(Value::Section {
                section: 1,
                offset: 16,
            })
        } else if is_word(name, b"M2") {
            Some(Value::Section {
                section: 1,
                offset: 40,
            })
        } else if is_word(name, b"10$") {
            Some(Value::Section {
                section: 1,
                offset: 20,
            })
        } else if is_word(name, b"K") {
            Some(Value::Section {
                section: 2,
                offset: 8,
            })
        } else if is_word(name, b"E") {
            Some(Value::External {
                index: 0,
                offset: 0,
            })
        } else if is_word(name, b"F") {
            Some(Value::External {
                index: 1,
                offset: 4,
            })
        } else {
            None
        }
    }
}

/// The tokens of a line in one text: names as they stand, numbers behind `=`, marks behind `'`, texts behind `"`.
fn shown(rt: &impl Abort, alloc: Global, line: &str) -> Result<String, Fail> {
    assert!(rt; line.len() <= 1024);
    let tokens = scan(alloc, line.as_bytes())?;
    let mut out = String::new(alloc);
    for token in tokens.as_slice() {
        if !out.is_empty() {
            out.push(' ')?;
        }
        let text = line
            .get(token.start as usize..token.end as usize)
            .unwrap_or("?");
        match token.kind {
            TokenKind::Name => out.push_str(text)?,
            TokenKind::Number(number) => out.push_str(format!(in alloc; "={number}")?.as_str())?,
            TokenKind::Mark(mark) => out.push_str(format!(in alloc;
                "'{}",
                char::from(mark)
            )?.as_str())?,
            TokenKind::Text => out.push_str(format!(in alloc; "\"{text}")?.as_str())?,
        }
    }
    Ok(out)
}

/// The value of a line's tokens.
pub(crate) fn value(
    rt: &impl Abort,
    alloc: Global,
    line: &str,
) -> Result<Result<Value, ExprError>, Fail> {
    assert!(rt; line.len() <= 1024);
    let tokens = scan(alloc, line.as_bytes())?;
    Ok(evaluate(
        line.as_bytes(),
        tokens.as_slice(),
        &Symbols {
            dialect: Dialect::Vax,
        },
    ))
}

static LINES: [(&str, &str); 83] = [
    ("", ""),
    ("   ", ""),
    ("; all comment", ""),
    ("NOP", "NOP"),
    ("  nop ; x", "nop"),
    ("\tHALT\x0c", "HALT"),
    ("MOVL #5,R1", "MOVL '# =5 ', R1"),
    (
        "L: MOVL (R1)+,-(SP)",
        "L ': MOVL '( R1 ') '+ ', '- '( SP ')",
    ),
    ("A==5", "A '= '= =5"),
    ("X.Y_$Z", "X.Y_$Z"),
    ("5A", "=5 A"),
    ("1.5", "=1 .5"),
    ("007", "=7"),
    ("10$", "10$"),
    ("010$:", "010$ ':"),
    ("0$", "=0 $"),
    ("65535$", "65535$"),
    ("65536$", "=65536 $"),
    ("10$X", "10$ X"),
    ("^X1F", "=31"),
    ("^xfF", "=255"),
    ("^B101", "=5"),
    ("^b102", "=2 =2"),
    ("^O17", "=15"),
    ("^O18", "=1 =8"),
    ("^D09", "=9"),
    ("18446744073709551615", "=18446744073709551615"),
    ("^XFFFFFFFFFFFFFFFF", "=18446744073709551615"),
    ("00000000000000000000000001", "=1"),
    ("B^5", "B '^ =5"),
    ("B^X10", "B '^ X10"),
    ("b^X10(R1)", "b '^ X10 '( R1 ')"),
    ("B ^X10", "B =16"),
    ("AB^X10", "AB =16"),
    ("L^C", "L '^ C"),
    ("#^C5", "'# '^ C =5"),
    ("^CABC", "'^ C ABC"),
    ("^M<R2,R3>", "'^ M '< R2 ', R3 '>"),
    ("^A/x/", "'^ A \"/x/"),
    ("^a /x;y/", "'^ a \"/x;y/"),
    ("^AAbA", "'^ A \"AbA"),
    ("^A=x=", "'^ A '= x '="),
    ("^A", "'^ A"),
    ("S^A/x/", "S '^ A '/ x '/"),
    (".ASCII /a;b/", ".ASCII \"/a;b/"),
    (".ascii /a/ \"b c\"", ".ascii \"/a/ \"\"b c\""),
    (".ASCIZ <5>/b;c/", ".ASCIZ '< =5 '> \"/b;c/"),
    (".ASCIC <<5>+1>/b;/", ".ASCIC '< '< =5 '> '+ =1 '> \"/b;/"),
    (".ASCII :a:", ".ASCII ': a ':"),
    ("L: .ASCII :a;:", "L ': .ASCII \":a;:"),
    ("L:: .ASCII /a;/", "L ': ': .ASCII \"/a;/"),
    ("L: : .ASCII /a;/", "L ': ': .ASCII '/ a"),
    (".ASCII = 5", ".ASCII '= =5"),
    (".ASCII /a/=/b;/", ".ASCII \"/a/ '= '/ b"),
    (".ASCII /a/,/b/,", ".ASCII \"/a/ \",/b/,"),
    (".LONG /a;b/", ".LONG '/ a"),
    ("X = .ASCII /a;/", "X '= .ASCII '/ a"),
    (".IIF EQ 0, .ASCII /a;b/", ".IIF EQ =0 ', .ASCII \"/a;b/"),
    (
        ".IIF EQ ^M<R2,R3>, .ASCII /;/",
        ".IIF EQ '^ M '< R2 ', R3 '> ', .ASCII \"/;/",
    ),
    (
        ".IIF IDN a,b, .ASCII /;/",
        ".IIF IDN a ', b ', .ASCII \"/;/",
    ),
    (".IIF IDN a b, .ASCII /;/", ".IIF IDN a b ', .ASCII \"/;/"),
    (".IIF IDN a, .ASCII /;/", ".IIF IDN a ', .ASCII '/"),
    (
        ".IIF DIF <a,b>,c, .ASCII /;/",
        ".IIF DIF '< a ', b '> ', c ', .ASCII \"/;/",
    ),
    (".IIF NB x, L: .ASCIZ /;/", ".IIF NB x ', L ': .ASCIZ \"/;/"),
    (
        ".IIF EQ 0, .IIF DF X, .ASCII /;/",
        ".IIF EQ =0 ', .IIF DF X ', .ASCII \"/;/",
    ),
    (
        "L: .IIF EQ 0, .ASCII /;/",
        "L ': .IIF EQ =0 ', .ASCII \"/;/",
    ),
    // A comma that touches the name of a condition parts it from its argument.
    (".IIF EQ,0,.ASCII /;/", ".IIF EQ ', =0 ', .ASCII \"/;/"),
    (".IIF B,,.ASCII /;/", ".IIF B ', ', .ASCII \"/;/"),
    (".IIF B,.ASCII /;/", ".IIF B ', .ASCII '/"),
    (".IIF NB ,.ASCII /;/", ".IIF NB ', .ASCII \"/;/"),
    (
        ".IIF IDN, a,a,.ASCII /;/",
        ".IIF IDN ', a ', a ', .ASCII \"/;/",
    ),
    (".IIF IDN,a,.ASCII /;/", ".IIF IDN ', a ', .ASCII '/"),
    (".IIF NB<a>,.ASCII /;/", ".IIF NB '< a '> ', .ASCII \"/;/"),
    (".IIF EQ-1,.ASCII /;/", ".IIF EQ '- =1 ', .ASCII \"/;/"),
    (
        "ABCDEFGHIJKLMNOPQRSTUVWXYZ012345",
        "ABCDEFGHIJKLMNOPQRSTUVWXYZ01234 =5",
    ),
    ("~", "'~"),
    ("A;\x01\u{e9}", "A"),
    (".ASCII /\u{e9}/", ".ASCII \"/\u{e9}/"),
    (
        "MOVAB @B^10(R1)[R2],W^X",
        "MOVAB '@ B '^ =10 '( R1 ') '[ R2 '] ', W '^ X",
    ),
    ("G^SYS$X", "G '^ SYS$X"),
    (".ASCII ^a;^", ".ASCII \"^a;^"),
    (".ASCII xa;bx", ".ASCII \"xa;bx"),
    (".ASCII -/a;/", ".ASCII '- '/ a"),
];

static REFUSED: [(&str, bool, u32); 18] = [
    ("^X", false, 0),
    ("^B2", false, 0),
    ("^Q", false, 0),
    ("A+^", false, 2),
    ("^A/x", false, 2),
    (".ASCII /a", false, 7),
    (".ASCII /a/,/b/", false, 10),
    ("A\x01", false, 1),
    ("A\u{e9}", false, 1),
    ("A\x7f", false, 1),
    ("A\r", false, 1),
    ("^ A/x/", false, 0),
    ("L: .ASCII :a;b", false, 10),
    ("18446744073709551616", true, 0),
    (" ^X10000000000000000", true, 1),
    ("1,99999999999999999999,\x01", true, 2),
    ("99999999999999999999$", true, 0),
    ("\x01,99999999999999999999", false, 0),
];

static ABSOLUTE: [(&str, i64); 89] = [
    ("7", 7),
    ("007", 7),
    ("A", 5),
    ("a", 5),
    (".", 512),
    ("^X10", 16),
    ("2+3", 5),
    ("2+3*4", 20),
    ("<2+3>*4", 20),
    ("2+<3*4>", 14),
    ("2*3+4", 10),
    ("A+A*A", 50),
    ("10-2-3", 5),
    ("10-<2-3>", 11),
    ("100/5/2", 10),
    ("100/<5*2>", 10),
    ("7/2", 3),
    ("-7/2", -3),
    ("7/-2", -3),
    ("-7/-2", 3),
    ("2-7/2", -2),
    ("1@4", 16),
    ("16@-2", 4),
    ("-16@-2", -4),
    ("-1@-1", -1),
    ("-5@-1", -3),
    ("1@63", -9223372036854775808),
    ("1@64", 0),
    ("1@65", 0),
    ("-1@-64", -1),
    ("5@-64", 0),
    ("5@-63", 0),
    ("-5@-100", -1),
    ("3@A", 96),
    ("1@^X7FFFFFFFFFFFFFFF", 0),
    ("-1@MIN", -1),
    ("1@-MIN", 0),
    ("6&3", 2),
    ("6!3", 7),
    ("6\\3", 5),
    ("-1&255", 255),
    ("-1\\5", -6),
    ("-8!3", -5),
    ("^C5", -6),
    ("^C-1", 0),
    ("^C^C5", 5),
    ("-^C5", 6),
    ("^C<2+3>", -6),
    ("^C5+1", -5),
    ("- -5", 5),
    ("+5", 5),
    ("-+5", -5),
    ("--5", 5),
    ("5--5", 10),
    ("5- +2", 3),
    ("2*-3", -6),
    ("2+-3", -1),
    ("^A/A/", 65),
    ("^A/AB/", 16961),
    ("^A/12345678/", 4050765991979987505),
    ("^A*a b*", 6430817),
    ("^AxYx", 89),
    ("^M<>", 0),
    ("^M<R2,R3>", 12),
    ("^m<r0,R14>", 16385),
    ("^M<AP,FP,SP>", 28672),
    ("^M<IV>", 16384),
    ("^M<DV>", 32768),
    ("^M<R2,R2>", 4),
    ("^M<R12,AP>", 4096),
    ("^M<R2,R3>+1", 13),
    ("18446744073709551615", -1),
    ("18446744073709551615+1", 0),
    ("9223372036854775807+1", -9223372036854775808),
    ("9223372036854775808", -9223372036854775808),
    ("9223372036854775808/-1", -9223372036854775808),
    ("-MIN", -9223372036854775808),
    ("4294967296*4294967296", 0),
    ("3037000500*3037000500", -9223372036709301616),
    ("<<<5>>>", 5),
    ("<5>*<6>", 30),
    ("<-5>", -5),
    ("-<5+1>", -6),
    ("L-L", 0),
    ("M2-L", 24),
    ("10$-L", 4),
    ("010$-L", 4),
    ("M2-L*2", 48),
    ("L+4-L", 4),
];

static RELOCATABLE: [(&str, u32, i64); 12] = [
    ("L", 1, 16),
    ("l", 1, 16),
    ("L+4", 1, 20),
    ("4+L", 1, 20),
    ("L-4", 1, 12),
    ("+L", 1, 16),
    ("<L>", 1, 16),
    ("L+<M2-L>", 1, 40),
    ("L+-1", 1, 15),
    ("K-8", 2, 0),
    ("L+A", 1, 21),
    ("L-16-1", 1, -1),
];

static OUTSIDE: [(&str, u32, i64); 5] = [
    ("E", 0, 0),
    ("E+4", 0, 4),
    ("4+E", 0, 4),
    ("F-4", 1, 0),
    ("<E+1>+1", 0, 2),
];

static FORM: [&str; 54] = [
    "",
    "+",
    "5+",
    "*5",
    "5 5",
    "<5",
    "5>",
    "<>",
    "(5)",
    "5,6",
    "L+L",
    "L+K",
    "L-K",
    "5-L",
    "-L",
    "^CL",
    "L*1",
    "1*L",
    "L@1",
    "L&1",
    "E-E",
    "E-F",
    "E-L",
    "L-E",
    "E+L",
    "E*1",
    "^A//",
    "^A/123456789/",
    "^A",
    "^M",
    "^M<PC>",
    "^M<R15>",
    "^M<R02>",
    "^M<R2 R3>",
    "^M<R2,>",
    "^M<,R2>",
    "^M<R2",
    "^M R2",
    "B^5",
    "#5",
    "A A",
    "L*Z",
    "Z*L",
    "Z-E",
    "1/0*L",
    "1/0+",
    "Z+",
    "-L+Z",
    "5+(",
    "<5+>",
    "A^M",
    ".ASCII /a/",
    "^MR2",
    "^M R2+1",
];

static UNKNOWN: [&str; 14] = [
    "Z", "Z+1", "Z/0", "Z-L", "L-Z", "L+Z", "1/0+Z", "-Z", "^CZ", "<Z+L>*2", "99$", "R1", "Z*Z2",
    "5-<Z>",
];

static RANGE: [&str; 8] = [
    "1/0", "1/<A-5>", "0/0", "L+<1/0>", "-<1/0>", "1/0+1", "1/0/0", "^C<1/0>",
];

#[test]
fn lines_have_their_tokens(rt: HostRuntime) -> Result<(), Fail> {
    for (line, tokens) in LINES.iter() {
        let found = shown(&rt, rt.alloc(), line)?;
        assert!(rt; found.as_str() == *tokens, "{line}: {found}");
    }
    Ok(())
}

#[test]
fn the_first_error_of_a_line_is_found(rt: HostRuntime) -> Result<(), Fail> {
    for (line, wide, at) in REFUSED.iter() {
        assert!(rt; line.len() <= 1024);
        let expected = if *wide {
            LexError::Wide(*at)
        } else {
            LexError::Token(*at)
        };
        match scan(rt.alloc(), line.as_bytes()) {
            Ok(_) => panic!(rt; "{line} has tokens"),
            Err(error) => assert!(rt; error == expected, "{line}: {error}"),
        }
    }
    Ok(())
}

#[test]
fn a_line_of_the_greatest_length_is_scanned(rt: HostRuntime) -> Result<(), Fail> {
    let line = [b'<'; 1024];
    let tokens = scan(rt.alloc(), &line)?;
    assert!(rt; tokens.len() == 1024);
    assert!(rt;
        evaluate(
            &line,
            tokens.as_slice(),
            &Symbols {
                dialect: Dialect::Vax
            }
        ) == Err(ExprError::Form)
    );
    Ok(())
}

#[test]
fn expressions_have_absolute_values(rt: HostRuntime) -> Result<(), Fail> {
    for (line, number) in ABSOLUTE.iter() {
        let found = value(&rt, rt.alloc(), line)?;
        assert!(rt; found == Ok(Value::Absolute(*number)), "{line}");
    }
    Ok(())
}

#[test]
fn expressions_have_relocatable_values(rt: HostRuntime) -> Result<(), Fail> {
    for (line, section, offset) in RELOCATABLE.iter() {
        let found = value(&rt, rt.alloc(), line)?;
        assert!(rt;
            found
                == Ok(Value::Section {
                    section: *section,
                    offset: *offset
                }),
            "{line}"
        );
    }
    Ok(())
}

#[test]
fn expressions_have_external_values(rt: HostRuntime) -> Result<(), Fail> {
    for (line, index, offset) in OUTSIDE.iter() {
        let found = value(&rt, rt.alloc(), line)?;
        assert!(rt;
            found
                == Ok(Value::External {
                    index: *index,
                    offset: *offset
                }),
            "{line}"
        );
    }
    Ok(())
}

#[test]
fn expressions_are_refused(rt: HostRuntime) -> Result<(), Fail> {
    for line in FORM.iter() {
        let found = value(&rt, rt.alloc(), line)?;
        assert!(rt; found == Err(ExprError::Form), "{line}");
    }
    for line in UNKNOWN.iter() {
        let found = value(&rt, rt.alloc(), line)?;
        assert!(rt; found == Err(ExprError::Unknown), "{line}");
    }
    for line in RANGE.iter() {
        let found = value(&rt, rt.alloc(), line)?;
        assert!(rt; found == Err(ExprError::Range), "{line}");
    }
    Ok(())
}

/// Expressions with names without a value, and the fault that they have all the same.
static FAULTS: [(&str, Option<ExprError>); 9] = [
    ("X/0", Some(ExprError::Range)),
    ("-X/<A-5>+1", Some(ExprError::Range)),
    ("5/<1+<X/0>>", Some(ExprError::Range)),
    ("L*X", Some(ExprError::Form)),
    ("X/0*L", Some(ExprError::Form)),
    ("5/X", None),
    ("5/<X-X>", None),
    ("X-5/A", None),
    ("6/A", None),
];

static LONGWORDS: [(&str, Result<Value, ExprError>); 15] = [
    ("^MR2", Ok(Value::Absolute(4))),
    ("^M R3+1", Ok(Value::Absolute(9))),
    ("^MA", Err(ExprError::Form)),
    ("^XFFFFFFFF", Ok(Value::Absolute(4_294_967_295))),
    ("^X100000000", Ok(Value::Absolute(4_294_967_296))),
    ("^X100000000+0", Ok(Value::Absolute(0))),
    ("-^XFFFFFFFF", Ok(Value::Absolute(1))),
    ("-^X80000000", Ok(Value::Absolute(-2_147_483_648))),
    ("^X80000000/2", Ok(Value::Absolute(-1_073_741_824))),
    ("^XFFFFFFFF@-4", Ok(Value::Absolute(-1))),
    ("^C<^XFFFF0000>", Ok(Value::Absolute(65_535))),
    ("1@32", Ok(Value::Absolute(0))),
    ("^X7FFFFFFF+1", Ok(Value::Absolute(-2_147_483_648))),
    ("1/^X100000000", Err(ExprError::Range)),
    (
        "L+^XFFFFFFFF",
        Ok(Value::Section {
            section: 1,
            offset: 15,
        }),
    ),
];

#[test]
fn operators_of_the_larger_dialect_see_longwords(rt: HostRuntime) -> Result<(), Fail> {
    let names = Symbols {
        dialect: Dialect::Vms,
    };
    for (line, value) in LONGWORDS.iter() {
        assert!(rt; line.len() <= 1024);
        let tokens = scan(rt.alloc(), line.as_bytes())?;
        assert!(rt;
            evaluate(line.as_bytes(), tokens.as_slice(), &names) == *value,
            "{line}"
        );
    }
    let tokens = scan(rt.alloc(), b"X/^X100000000")?;
    let found = certain_fault(b"X/^X100000000", tokens.as_slice(), &names);
    assert!(rt; found == Some(ExprError::Range));
    Ok(())
}

#[test]
fn some_faults_stay_whatever_names_stand_for(rt: HostRuntime) -> Result<(), Fail> {
    for (line, fault) in FAULTS.iter() {
        assert!(rt; line.len() <= 1024);
        let tokens = scan(rt.alloc(), line.as_bytes())?;
        let found = certain_fault(
            line.as_bytes(),
            tokens.as_slice(),
            &Symbols {
                dialect: Dialect::Vax,
            },
        );
        assert!(rt; found == *fault, "{line}");
    }
    Ok(())
}

#[test]
fn a_faulty_line_has_its_pieces(rt: HostRuntime) -> Result<(), Fail> {
    let found = pieces(
        rt.alloc(),
        Dialect::Vax,
        b"5 99999999999999999999,^QR ^; ^R",
    )?;
    let kinds = [
        PieceKind::Token(TokenKind::Number(5)),
        PieceKind::Wide,
        PieceKind::Token(TokenKind::Mark(b',')),
        PieceKind::Bad,
        PieceKind::Token(TokenKind::Name),
        PieceKind::Bad,
    ];
    assert!(rt; found.len() == kinds.len());
    for (i, (piece, kind)) in found.iter().zip(kinds).enumerate() {
        assert!(rt; piece.kind == kind, "piece {i}");
    }
    Ok(())
}

#[test]
fn a_text_has_its_pieces_in_one_dialect(rt: HostRuntime) -> Result<(), Fail> {
    let line = b"A: .ascid /b;/ <9>";
    let found = pieces(rt.alloc(), Dialect::Vms, line)?;
    assert!(rt; found.len() == 7);
    assert!(rt; found[3].kind == PieceKind::Token(TokenKind::Text));
    assert!(rt; pieces(rt.alloc(), Dialect::Vax, line)?.len() == 5);
    assert!(rt; pieces(rt.alloc(), Dialect::Vms, b".ASCIE /b;/")?.len() == 3);
    Ok(())
}

#[test]
fn names_are_found_everywhere(rt: HostRuntime) -> Result<(), Fail> {
    let found = names(rt.alloc(), b"A5 ^XA B^XA 5C /D/ ;E 2^NUM")?;
    let spans = [
        (0, 2),
        (7, 8),
        (9, 11),
        (13, 14),
        (16, 17),
        (20, 21),
        (24, 27),
    ];
    assert!(rt; found.len() == spans.len());
    for (span, (start, end)) in found.iter().zip(spans) {
        assert!(rt; *span == Span { start, end }, "the name at {start}");
    }
    Ok(())
}
