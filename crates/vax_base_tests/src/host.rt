//! The adapters over the real files and streams. No clause says what these hold.
use std::fs;
use std::os::unix::fs::PermissionsExt;
use std::test::Fail;
use vax_outside::{
    Chan, Failed, Files, FilesFault, HostFiles, HostPages, HostSink, PageFile, Sink, put_all,
    stand_in,
};

#[test]
fn reads_host_files(rt: HostRuntime) -> Result<(), Fail> {
    let alloc = rt.alloc();
    fs::write(&rt, "host_files.tmp", "abc")?;
    let mut files = HostFiles::new(rt);
    let text = files.read(alloc, "host_files.tmp", 3);
    assert!(rt; matches!(&text, Ok(bytes) if bytes.as_slice() == b"abc".as_slice()));
    // A directory opens and can't be read.
    let rows = [
        ("host_files.tmp", 2, FilesFault::Large),
        ("no_such.tmp", 9, FilesFault::Missing),
        (".", 9, FilesFault::Failed),
    ];
    for (name, most, fault) in rows {
        assert!(rt;
            files.read(alloc, name, most).err() == Some(fault),
            "{name}"
        );
    }
    fs::remove_file(&rt, "host_files.tmp")?;
    Ok(())
}

// The record is made by the first write to it, as a new file: the one that there was keeps what it has.
#[test]
fn writes_host_channels(rt: HostRuntime) -> Result<(), Fail> {
    fs::write(&rt, "vax.rec", "stale")?;
    fs::hard_link(&rt, "vax.rec", "stale_record.tmp")?;
    let mut sink = HostSink::new(rt.stdout(), rt.stderr(), rt);
    assert!(rt; put_all(&mut sink, Chan::Out, b"out\n") == Ok(()));
    assert!(rt; sink.write(Chan::Report, b"r") == Ok(1));
    assert!(rt; fs::read_to_string(&rt, "vax.rec")?.as_str() == "stale");
    assert!(rt; put_all(&mut sink, Chan::Record, b"at 4\n") == Ok(()));
    assert!(rt; put_all(&mut sink, Chan::Record, b"at 8\n") == Ok(()));
    assert!(rt; fs::read_to_string(&rt, "vax.rec")?.as_str() == "at 4\nat 8\n");
    assert!(rt; mode_of(&rt, "vax.rec")? == 0o600);
    assert!(rt; fs::read_to_string(&rt, "stale_record.tmp")?.as_str() == "stale");
    // Another run's record is another file.
    let mut other = HostSink::new(rt.stdout(), rt.stderr(), rt);
    assert!(rt; put_all(&mut other, Chan::Record, b"at 1\n") == Ok(()));
    assert!(rt; put_all(&mut sink, Chan::Record, b"at 9\n") == Ok(()));
    assert!(rt; fs::read_to_string(&rt, "vax.rec")?.as_str() == "at 1\n");
    fs::remove_file(&rt, "stale_record.tmp")?;
    fs::remove_file(&rt, "vax.rec")?;
    // A directory isn't taken away.
    fs::create_dir(&rt, "vax.rec")?;
    let mut third = HostSink::new(rt.stdout(), rt.stderr(), rt);
    assert!(rt; third.write(Chan::Record, b"at 4\n") == Err(Failed));
    fs::remove_dir(&rt, "vax.rec")?;
    Ok(())
}

/// Who may do what with a file.
fn mode_of(rt: &HostRuntime, name: &str) -> Result<u32, Fail> {
    Ok(fs::metadata(rt, name)?.permissions().mode() & 0o777)
}

// A state takes the file's name when it is kept: whoever has the older file open keeps that, and a state that isn't
// kept, or can't be, leaves the older file. Each file that is made is its owner's alone.
#[test]
fn keeps_host_states(rt: HostRuntime) -> Result<(), Fail> {
    fs::write(&rt, "vax.rec", "older")?;
    fs::write(&rt, "vax.rec.new", "half of another one")?;
    let mut sink = HostSink::new(rt.stdout(), rt.stderr(), rt);
    assert!(rt; put_all(&mut sink, Chan::State, b"VAX") == Ok(()));
    assert!(rt; put_all(&mut sink, Chan::State, b"S") == Ok(()));
    assert!(rt; fs::read_to_string(&rt, "vax.rec")?.as_str() == "older");
    assert!(rt; fs::read_to_string(&rt, "vax.rec.new")?.as_str() == "VAXS");
    assert!(rt; mode_of(&rt, "vax.rec.new")? == 0o600);
    assert!(rt; sink.keep_state() == Ok(()));
    assert!(rt; fs::read_to_string(&rt, "vax.rec")?.as_str() == "VAXS");
    assert!(rt; mode_of(&rt, "vax.rec")? == 0o600);
    assert!(rt; !fs::exists(&rt, "vax.rec.new")?);
    // Another one that isn't kept, and one that is.
    assert!(rt; put_all(&mut sink, Chan::State, b"half") == Ok(()));
    let mut other = HostSink::new(rt.stdout(), rt.stderr(), rt);
    assert!(rt; put_all(&mut other, Chan::State, b"next") == Ok(()));
    assert!(rt; fs::read_to_string(&rt, "vax.rec")?.as_str() == "VAXS");
    assert!(rt; other.keep_state() == Ok(()));
    assert!(rt; fs::read_to_string(&rt, "vax.rec")?.as_str() == "next");
    assert!(rt; other.remove_state() == Ok(()));
    assert!(rt; !fs::exists(&rt, "vax.rec")?);
    assert!(rt; other.remove_state() == Ok(()));
    // A directory isn't taken away.
    fs::create_dir(&rt, "vax.rec")?;
    assert!(rt; put_all(&mut other, Chan::State, b"last") == Ok(()));
    assert!(rt; other.keep_state() == Err(Failed));
    assert!(rt; other.remove_state() == Err(Failed));
    fs::remove_dir(&rt, "vax.rec")?;
    fs::remove_file(&rt, "vax.rec.new")?;
    // Nor is one in the way of the new file.
    fs::create_dir(&rt, "vax.rec.new")?;
    assert!(rt; other.write(Chan::State, b"VAXS") == Err(Failed));
    assert!(rt; other.keep_state() == Err(Failed));
    fs::remove_dir(&rt, "vax.rec.new")?;
    Ok(())
}

// A page file is new, and its run's own, whatever another run does in the same folder.
#[test]
fn keeps_host_blocks(rt: HostRuntime) -> Result<(), Fail> {
    fs::write(&rt, "vax.pag", "stale")?;
    fs::hard_link(&rt, "vax.pag", "stale_pages.tmp")?;
    let mut pages = HostPages::new(rt);
    let mut block = [0u8; 512];
    assert!(rt; pages.write_block(3, &[5u8; 512]) == Ok(()));
    assert!(rt; mode_of(&rt, "vax.pag")? == 0o600);
    let mut other = HostPages::new(rt);
    assert!(rt; other.write_block(3, &[7u8; 512]) == Ok(()));
    assert!(rt; pages.read_block(3, &mut block) == Ok(()));
    assert!(rt; block == [5u8; 512]);
    assert!(rt; other.read_block(3, &mut block) == Ok(()));
    assert!(rt; block == [7u8; 512]);
    assert!(rt; pages.read_block(0, &mut block) == Ok(()));
    assert!(rt; block == [0u8; 512]);
    assert!(rt; pages.read_block(4, &mut block) == Err(Failed));
    assert!(rt; fs::read_to_string(&rt, "stale_pages.tmp")?.as_str() == "stale");
    fs::remove_file(&rt, "stale_pages.tmp")?;
    fs::remove_file(&rt, "vax.pag")?;
    // A directory isn't taken away.
    fs::create_dir(&rt, "vax.pag")?;
    let mut third = HostPages::new(rt);
    assert!(rt; third.write_block(0, &[0u8; 512]) == Err(Failed));
    assert!(rt; third.read_block(0, &mut block) == Err(Failed));
    fs::remove_dir(&rt, "vax.pag")?;
    Ok(())
}

// Nothing stands in for a stream that is open. That the null device stands in for a closed one is tried by `.ci/edges.sh`.
#[test]
fn leaves_open_streams(rt: HostRuntime) -> Result<(), Fail> {
    assert!(rt; matches!(stand_in(&rt.stdout(), &rt), Ok(None)));
    assert!(rt; matches!(stand_in(&rt.stderr(), &rt), Ok(None)));
    Ok(())
}
