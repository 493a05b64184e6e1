//! The errors of what the linker finds, as text.
use std::test::Fail;
use vax_check::{Files, text_of};
use vax_dialect::Dialect;
use vax_program::Refusal;
use vax_space::Bytes;

/// Two sources, what the linker found, and how what is told of them begins.
#[derive(Clone, Copy)]
struct Row<'a> {
    sources: [&'a str; 2],
    kind: u8,
    name: &'a str,
    told: &'a str,
}

fn tells(rt: &HostRuntime, row: Row<'_>) -> Result<bool, Fail> {
    let mut texts = Vec::new(rt.alloc());
    texts.push(row.sources[0].as_bytes().to_vec(rt.alloc())?)?;
    texts.push(row.sources[1].as_bytes().to_vec(rt.alloc())?)?;
    let files = Files {
        dialect: Dialect::Vax,
        preludes: &[],
        names: &["a.mar", "b.mar"],
        texts: &texts,
        bare: false,
    };
    let refusal = Refusal::Link {
        kind: row.kind,
        name: Bytes::from(row.name.as_bytes().to_vec(rt.alloc())?),
        address: 512,
    };
    let told = text_of(rt.alloc(), files, Some(&refusal))?;
    Ok(told.starts_with(row.told.as_bytes()))
}

#[test]
fn a_name_is_told_where_a_file_asks_for_it(rt: HostRuntime) -> Result<(), Fail> {
    let row = Row {
        sources: ["S: HALT\n .END S\n", " HALT\n JSB puts\n"],
        kind: 1,
        name: "PUTS",
        told: "b.mar:2: error: nothing defines the name PUTS\n",
    };
    assert!(rt; tells(&rt, row)?);
    Ok(())
}

#[test]
fn a_definition_that_comes_back_is_told(rt: HostRuntime) -> Result<(), Fail> {
    let row = Row {
        sources: ["X == Y\nS: HALT\n .END S\n", "Z: HALT\nY == X+1\n .END\n"],
        kind: 1,
        name: "Y",
        told: "a.mar:1: error: the definition of the name Y goes in a circle; it is at b.mar:2\n",
    };
    assert!(rt; tells(&rt, row)?);
    Ok(())
}

#[test]
fn what_is_there_twice_is_told_in_the_second_file(rt: HostRuntime) -> Result<(), Fail> {
    let rows = [
        Row {
            sources: ["S: JSB X\nX:: RSB\n .END S\n", " JSB X\n RSB\n.ENTRY X,0\n"],
            kind: 2,
            name: "X",
            told: "b.mar:3: error: a second definition of the name X; the first is at a.mar:2\n",
        },
        Row {
            sources: ["S: HALT\n .END S\n", "T: HALT\n .END T\n"],
            kind: 2,
            name: "T",
            told: "b.mar:2: error: a second beginning of the program; the first is at a.mar:2\n",
        },
    ];
    for row in rows {
        assert!(rt; tells(&rt, row)?);
    }
    Ok(())
}

#[test]
fn other_kinds_have_no_place(rt: HostRuntime) -> Result<(), Fail> {
    let sources = ["S: HALT\n", "T: HALT\n"];
    let rows = [
        Row {
            sources,
            kind: 4,
            name: "",
            told: "error: no file says where the program begins\n",
        },
        Row {
            sources,
            kind: 5,
            name: "",
            told: "error: a distance to another file's name is too long at address 00000200\n",
        },
    ];
    for row in rows {
        assert!(rt; tells(&rt, row)?);
    }
    Ok(())
}
