//! The objects in memory, called as a program calls them. Expected values are worked by hand.
use std::alloc::{AllocError, Global};
use std::process::Abort;
use std::test::Fail as TestFail;
use vax_outside::{
    Chan, Fail, Failed, Files, FilesFault, MemFiles, MemPages, MemSink, PageFile, Sink, StateFile,
    put_all,
};

fn named(alloc: Global, name: &str, bytes: &[u8]) -> Result<(String, Vec<u8>), AllocError> {
    Ok((
        String::from_str(alloc, name)?,
        Vec::from_slice(alloc, bytes)?,
    ))
}

#[test]
fn reads_files(rt: HostRuntime) -> Result<(), TestFail> {
    let alloc = rt.alloc();
    let mut list = Vec::new(alloc);
    list.push(named(alloc, "A", b"abc")?)?;
    list.push(named(alloc, "B", b"")?)?;
    list.push(named(alloc, "A", b"second")?)?;
    let mut files = MemFiles::new(list, vec![in alloc; Fail::Read(3), Fail::Write(1)]?);
    let a = files.read(alloc, "A", 3);
    assert!(rt; matches!(&a, Ok(a) if a.as_slice() == b"abc".as_slice()));
    assert!(rt; matches!(files.read(alloc, "A", 2), Err(FilesFault::Large)));
    assert!(rt; matches!(files.read(alloc, "A", 3), Err(FilesFault::Failed)));
    assert!(rt; matches!(files.read(alloc, "a", 3), Err(FilesFault::Missing)));
    let b = files.read(alloc, "B", 0);
    assert!(rt; matches!(&b, Ok(b) if b.is_empty()));
    Ok(())
}

#[test]
fn writes_channels(rt: HostRuntime) -> Result<(), TestFail> {
    let alloc = rt.alloc();
    let fails = vec![in alloc; Fail::Write(2), Fail::Read(3)]?;
    let mut sink = MemSink::new(alloc, [4, 2, 3], 2, fails)?;
    assert!(rt; sink.write(Chan::Out, b"abc") == Ok(2));
    assert!(rt; sink.write(Chan::Out, b"c") == Err(Failed));
    let puts = [
        (Chan::Report, "R\n", Ok(())),
        (Chan::Record, "at5", Ok(())),
        (Chan::Out, "xyz", Err(Failed)),
    ];
    for (chan, text, want) in puts {
        assert!(rt; put_all(&mut sink, chan, text.as_bytes()) == want, "{text}");
    }
    for (chan, text) in [
        (Chan::Out, "abxy"),
        (Chan::Report, "R\n"),
        (Chan::Record, "at5"),
    ] {
        assert!(rt; sink.bytes(chan) == text.as_bytes(), "{text}");
    }
    Ok(())
}

// A state is kept once, with the bytes that were written before. A call that is to fail changes nothing, and what is
// written to Record is another matter.
#[test]
fn keeps_states(rt: HostRuntime) -> Result<(), TestFail> {
    let alloc = rt.alloc();
    let fails = vec![in alloc; Fail::Call(3)]?;
    let mut sink = MemSink::new(alloc, [1, 1, 4], 3, fails)?;
    assert!(rt; put_all(&mut sink, Chan::State, b"VAXS") == Ok(()));
    assert!(rt; sink.state_file() == StateFile::Untouched);
    assert!(rt; sink.keep_state() == Err(Failed));
    assert!(rt; sink.state_file() == StateFile::Untouched);
    assert!(rt; put_all(&mut sink, Chan::Record, b"at 4") == Ok(()));
    assert!(rt; sink.keep_state() == Ok(()));
    assert!(rt; sink.state_file() == StateFile::Kept);
    assert!(rt; sink.write(Chan::State, b"V") == Err(Failed));
    assert!(rt; sink.remove_state() == Err(Failed));
    assert!(rt; sink.state_file() == StateFile::Kept);
    assert!(rt; sink.bytes(Chan::State) == b"VAXS".as_slice());
    assert!(rt; sink.bytes(Chan::Record) == b"at 4".as_slice());
    Ok(())
}

#[test]
fn removes_states(rt: HostRuntime) -> Result<(), TestFail> {
    let alloc = rt.alloc();
    let fails = vec![in alloc; Fail::Write(1)]?;
    let mut sink = MemSink::new(alloc, [1, 1, 4], 3, fails)?;
    assert!(rt; sink.remove_state() == Err(Failed));
    assert!(rt; sink.state_file() == StateFile::Untouched);
    assert!(rt; sink.remove_state() == Ok(()));
    assert!(rt; sink.state_file() == StateFile::Removed);
    assert!(rt; sink.keep_state() == Err(Failed));
    assert!(rt; sink.bytes(Chan::State).is_empty());
    Ok(())
}

/// Reads of blocks one behind another: what byte a block is full of, or none where the read fails.
fn test_reads(rt: &impl Abort, pages: &mut MemPages, rows: &[(u32, Option<u8>)]) {
    for (i, (block, byte)) in rows.iter().enumerate() {
        let mut bytes = [0xEE; 512];
        let read = pages.read_block(*block, &mut bytes);
        match byte {
            Some(byte) => assert!(rt; read == Ok(()) && bytes == [*byte; 512], "read {i}"),
            None => assert!(rt; read == Err(Failed), "read {i}"),
        }
    }
}

#[test]
fn keeps_blocks(rt: HostRuntime) -> Result<(), TestFail> {
    let alloc = rt.alloc();
    let fails = vec![in alloc; Fail::Read(2), Fail::Call(7)]?;
    let mut pages = MemPages::new(alloc, 2, 1, fails)?;
    test_reads(&rt, &mut pages, &[(0, Some(0))]);
    assert!(rt; pages.write_block(1, &[7u8; 512]) == Ok(()));
    // The list of writes is full, the second read is to fail, and there is no block 2.
    assert!(rt; pages.write_block(0, &[8u8; 512]) == Err(Failed));
    let rows = [(1, None), (2, None), (1, Some(7)), (1, None)];
    test_reads(&rt, &mut pages, &rows);
    assert!(rt; pages.reads() == 2);
    assert!(rt; pages.writes() == [(1, [7u8; 512])].as_slice());
    assert!(rt; matches!(pages.block(0), Some(zeros) if *zeros == [0u8; 512]));
    assert!(rt; pages.block(2).is_none());
    Ok(())
}
