//! Pagers with 64 frames over page files in memory, as tables of calls and answers. Expected values are worked by hand.
ghost use Rattle.std.specs.Prelude.{◌≤◌, length};

use std::alloc::Global;
use std::process::Abort;
use std::test::Fail;
use vax_flat::Stop;
use vax_outside::{Fail as Failing, MemPages, PageFile};
use vax_pager::{PageFault, Pager};
use vax_space::{Access, Area, Bytes, Space, Violation};
use vax_undo::Port;

const USER: u8 = 3;

/// A call of a pager or of its page file.
#[derive(Clone, Copy)]
enum Call {
    /// Brings in a page, and keeps it pinned.
    Pin(u32),
    /// Brings in a page, and unpins all.
    Serve(u32),
    Evict(u32),
    Flush(u32),
    Settle,
    Read(u32, u32),
    Write(u32, u32, u64),
    Peek(u32),
    /// Writes a page file's block that has this byte everywhere.
    Block(u32, u8),
    NextFlush,
    Kept,
    Pins,
    Spoiled,
    Hits,
    /// How many blocks were written and read.
    Blocks,
    Counts,
}

/// What a call answers.
#[derive(Clone, Copy, PartialEq, Eq)]
enum Answer {
    Done,
    Page(Option<u32>),
    Is(bool),
    Value(u64),
    Byte(Option<u8>),
    Fault,
    Stopped(Stop),
    /// So many writes and reads.
    Blocks(usize, u64),
    /// Pages that came in, were made absent and were written.
    Counts(u64, u64, u64),
    /// The call may not be made.
    Refused,
}

/// P0's pages 0 to 99, which every mode may write and of which the first begins with 1, 2, 3, and its pages 256 to 259,
/// which no mode may write and of which the first begins with 9.
fn pager(alloc: Global) -> Result<Pager, Fail> {
    let mut areas = Vec::new(alloc);
    areas.push(Area {
        first: 0,
        pages: 100,
        prot: 4,
        bytes: Bytes::from([1, 2, 3].to_vec(alloc)?),
    })?;
    areas.push(Area {
        first: 256,
        pages: 4,
        prot: 15,
        bytes: Bytes::from([9].to_vec(alloc)?),
    })?;
    Ok(Pager::new(alloc, Space::new(alloc, areas)?, 64)?)
}

/// A page file with 200 blocks of which these calls fail.
fn pages(alloc: Global, fails: Vec<Failing>) -> Result<MemPages, Fail> {
    Ok(MemPages::new(alloc, 200, 1000, fails)?)
}

/// Brings in a page.
fn serve(pager: &mut Pager, page: u32, file: &mut MemPages) -> Answer {
    if !pager.has(page) || pager.is_resident(page) || pager.pins() >= pager.frames() {
        return Answer::Refused;
    }
    match pager.serve(page, file) {
        Ok(victim) => Answer::Page(victim),
        Err(PageFault) => Answer::Fault,
    }
}

/// Makes a page absent.
fn evict(pager: &mut Pager, page: u32, file: &mut MemPages) -> Answer {
    if !pager.has(page) {
        return Answer::Refused;
    }
    match pager.evict(page, file) {
        Ok(is) => Answer::Is(is),
        Err(PageFault) => Answer::Fault,
    }
}

/// Writes a modified page to its block.
fn flush(pager: &mut Pager, page: u32, file: &mut MemPages) -> Answer {
    if !pager.has(page) {
        return Answer::Refused;
    }
    match pager.flush(page, file) {
        Ok(is) => Answer::Is(is),
        Err(PageFault) => Answer::Fault,
    }
}

/// Reads a number in user mode.
fn read(pager: &mut Pager, addr: u32, n: u32) -> Answer {
    if n < 1 || 8 < n {
        return Answer::Refused;
    }
    match pager.read(addr, n, USER) {
        Ok(value) => Answer::Value(value),
        Err(stop) => Answer::Stopped(stop),
    }
}

/// Writes a number of 1, 2 or 4 bytes in user mode. The answer is the number that was there.
fn write(pager: &mut Pager, addr: u32, n: u32, value: u64) -> Answer {
    let fits = match n {
        1 => value < 0x100,
        2 => value < 0x1_0000,
        4 => value < 0x1_0000_0000,
        _ => false,
    };
    if !fits {
        return Answer::Refused;
    }
    match pager.write(addr, n, value, USER) {
        Ok(old) => Answer::Value(old),
        Err(stop) => Answer::Stopped(stop),
    }
}

/// The byte at an address.
fn peek(pager: &mut Pager, addr: u32, file: &mut MemPages) -> Answer {
    match pager.peek(addr, file) {
        Ok(byte) => Answer::Byte(byte),
        Err(PageFault) => Answer::Fault,
    }
}

/// Makes a call.
fn make_call(pager: &mut Pager, file: &mut MemPages, call: Call) -> Answer {
    match call {
        Call::Pin(page) => serve(pager, page, file),
        Call::Serve(page) => {
            let served = serve(pager, page, file);
            pager.settle();
            served
        }
        Call::Evict(page) => evict(pager, page, file),
        Call::Flush(page) => flush(pager, page, file),
        Call::Settle => {
            pager.settle();
            Answer::Done
        }
        Call::Read(addr, n) => read(pager, addr, n),
        Call::Write(addr, n, value) => write(pager, addr, n, value),
        Call::Peek(addr) => peek(pager, addr, file),
        Call::Block(block, byte) => {
            match file.write_block(block, &[byte; 512]) {
                Ok(()) => Answer::Done,
                Err(_) => Answer::Fault,
            }
        }
        Call::NextFlush => Answer::Page(pager.next_flush()),
        Call::Kept => Answer::Value(u64::from(pager.kept())),
        Call::Pins => Answer::Value(u64::from(pager.pins())),
        Call::Spoiled => Answer::Value(pager.spoiled()),
        Call::Hits => Answer::Value(pager.hits()),
        Call::Blocks => Answer::Blocks(file.writes().len(), file.reads()),
        Call::Counts => {
            let counts = pager.counts();
            Answer::Counts(counts.served, counts.evicted, counts.written)
        }
    }
}

/// Makes calls, and compares what they answer.
fn compare(rt: &impl Abort, pager: &mut Pager, file: &mut MemPages, rows: &[(Call, Answer)]) {
    for (i, (call, want)) in rows.iter().enumerate() {
        assert!(rt; make_call(pager, file, *call) == *want, "call {i}");
    }
}

/// Brings in pages that take no resident page's frame.
fn fill(rt: &impl Abort, pager: &mut Pager, file: &mut MemPages, first: u32, end: u32) {
    for page in first..end {
        assert!(rt;
            make_call(pager, file, Call::Serve(page)) == Answer::Page(None),
            "page {page}"
        );
    }
}

/// A page that was evicted comes back as its block is then.
#[test]
fn changed_block(rt: HostRuntime) -> Result<(), Fail> {
    let mut pager = pager(rt.alloc())?;
    let mut file = pages(rt.alloc(), Vec::new(rt.alloc()))?;
    fill(&rt, &mut pager, &mut file, 0, 64);
    compare(
        &rt,
        &mut pager,
        &mut file,
        &[
            (Call::Write(5, 1, 0xA7), Answer::Value(0)),
            (Call::Blocks, Answer::Blocks(0, 0)),
            (Call::Serve(64), Answer::Page(Some(0))),
            (Call::Blocks, Answer::Blocks(1, 0)),
            (Call::Read(5, 1), Answer::Stopped(Stop::NotResident(0))),
            (Call::Peek(5), Answer::Byte(Some(0xA7))),
            (Call::Block(0, 0x5A), Answer::Done),
            (Call::Serve(0), Answer::Page(Some(1))),
            (Call::Read(5, 1), Answer::Value(0x5A)),
            (Call::Blocks, Answer::Blocks(2, 2)),
        ],
    );
    Ok(())
}

/// A page that was evicted comes back from its frame with no call, unless the frame was needed.
#[test]
fn kept_frame(rt: HostRuntime) -> Result<(), Fail> {
    let alloc = rt.alloc();
    let mut pager = pager(alloc)?;
    let mut file = pages(alloc, vec![in alloc; Failing::Read(1)]?)?;
    compare(
        &rt,
        &mut pager,
        &mut file,
        &[
            (Call::Serve(7), Answer::Page(None)),
            (Call::Write(0xE00, 1, 0x77), Answer::Value(0)),
            (Call::Evict(7), Answer::Is(true)),
            (Call::Blocks, Answer::Blocks(1, 0)),
            (Call::Kept, Answer::Value(1)),
            (Call::Peek(0xE00), Answer::Byte(Some(0x77))),
            (Call::Serve(7), Answer::Page(None)),
            (Call::Kept, Answer::Value(0)),
            (Call::Read(0xE00, 1), Answer::Value(0x77)),
            (Call::Evict(7), Answer::Is(true)),
            (Call::Evict(7), Answer::Is(false)),
            (Call::Blocks, Answer::Blocks(1, 0)),
        ],
    );
    fill(&rt, &mut pager, &mut file, 8, 72);
    compare(
        &rt,
        &mut pager,
        &mut file,
        &[
            (Call::Kept, Answer::Value(0)),
            (Call::Serve(7), Answer::Fault),
            (Call::Serve(7), Answer::Page(Some(8))),
            (Call::Read(0xE00, 1), Answer::Value(0x77)),
            (Call::Blocks, Answer::Blocks(1, 1)),
            (Call::Counts, Answer::Counts(67, 3, 1)),
        ],
    );
    Ok(())
}

/// The buffer has the entry of a page that was read, and forgets it with the page. A write over two pages marks both.
#[test]
fn reads_and_writes(rt: HostRuntime) -> Result<(), Fail> {
    let mut pager = pager(rt.alloc())?;
    let mut file = pages(rt.alloc(), Vec::new(rt.alloc()))?;
    let violation = Violation {
        addr: 0x2_0000,
        length: false,
        write: true,
    };
    compare(
        &rt,
        &mut pager,
        &mut file,
        &[
            (Call::Serve(0), Answer::Page(None)),
            (Call::Read(0, 2), Answer::Value(0x0201)),
            (Call::Hits, Answer::Value(0)),
            (Call::Read(1, 2), Answer::Value(0x0302)),
            (Call::Hits, Answer::Value(1)),
            (Call::Evict(0), Answer::Is(true)),
            (Call::Read(1, 2), Answer::Stopped(Stop::NotResident(0))),
            (Call::Peek(2), Answer::Byte(Some(3))),
            (Call::Peek(0x2_0000), Answer::Byte(Some(9))),
            (Call::Peek(0xC800), Answer::Byte(None)),
            (Call::Serve(0), Answer::Page(None)),
            (
                Call::Write(0x1FE, 4, 0x4433_2211),
                Answer::Stopped(Stop::NotResident(1)),
            ),
            (Call::NextFlush, Answer::Page(None)),
            (Call::Serve(1), Answer::Page(None)),
            (Call::Write(0x1FE, 4, 0x6655_2211), Answer::Value(0)),
            (Call::Write(0x1FF, 2, 0x3322), Answer::Value(0x5522)),
            (Call::Write(0x200, 2, 0x4433), Answer::Value(0x6633)),
            (Call::Read(0x1FE, 4), Answer::Value(0x4433_2211)),
            (Call::NextFlush, Answer::Page(Some(0))),
            (Call::Flush(0), Answer::Is(true)),
            (Call::Flush(0), Answer::Is(false)),
            (Call::NextFlush, Answer::Page(Some(1))),
            (Call::Flush(1), Answer::Is(true)),
            (Call::NextFlush, Answer::Page(None)),
            (
                Call::Write(0x2_0000, 1, 0),
                Answer::Stopped(Stop::Violated(violation)),
            ),
        ],
    );
    Ok(())
}

/// Pinned pages are not taken, and one that is evicted is counted.
#[test]
fn pinned_pages(rt: HostRuntime) -> Result<(), Fail> {
    let mut pager = pager(rt.alloc())?;
    let mut file = pages(rt.alloc(), Vec::new(rt.alloc()))?;
    fill(&rt, &mut pager, &mut file, 0, 64);
    compare(
        &rt,
        &mut pager,
        &mut file,
        &[
            (Call::Pin(64), Answer::Page(Some(0))),
            (Call::Pin(65), Answer::Page(Some(1))),
            (Call::Pin(66), Answer::Page(Some(2))),
            (Call::Pins, Answer::Value(3)),
            (Call::Spoiled, Answer::Value(0)),
            (Call::Evict(65), Answer::Is(true)),
            (Call::Pins, Answer::Value(2)),
            (Call::Spoiled, Answer::Value(1)),
            (Call::Settle, Answer::Done),
            (Call::Pins, Answer::Value(0)),
        ],
    );
    Ok(())
}

/// Runs of bytes, and what a pager tells of itself.
#[test]
fn runs(rt: HostRuntime) -> Result<(), Fail> {
    let mut pager = pager(rt.alloc())?;
    let mut file = pages(rt.alloc(), Vec::new(rt.alloc()))?;
    fill(&rt, &mut pager, &mut file, 1, 2);
    assert!(rt; pager.write_run(0x210, &[5, 6, 7], USER) == Ok(()));
    let mut run = [0; 4];
    assert!(rt; pager.read_run(0x20F, &mut run, USER) == Ok(()));
    assert!(rt; run == [0, 5, 6, 7]);
    assert!(rt; pager.check(0x2_0000, 1, USER, Access::Read) == Ok(()));
    assert!(rt; pager.space().areas().len() == 2);
    Ok(())
}

/// What is known at once of a page: nothing before it was read, and that it may be written only after it was.
#[test]
fn at_once(rt: HostRuntime) -> Result<(), Fail> {
    let mut pager = pager(rt.alloc())?;
    let mut file = pages(rt.alloc(), Vec::new(rt.alloc()))?;
    fill(&rt, &mut pager, &mut file, 0, 1);
    assert!(rt; pager.read(0, 2, USER) == Ok(0x0201));
    assert!(rt; pager.glance(1, 2, USER, Access::Read) == Some(0x0302));
    assert!(rt; pager.glance(1, 2, USER, Access::Write) == None);
    assert!(rt; !pager.write_at_once(1, 1, 7, USER));
    assert!(rt; pager.write(1, 1, 7, USER) == Ok(2));
    assert!(rt; pager.glance(1, 1, USER, Access::Read) == None);
    assert!(rt; pager.read(1, 1, USER) == Ok(7));
    assert!(rt; pager.glance(1, 1, USER, Access::Write) == Some(7));
    assert!(rt; pager.write_at_once(2, 1, 8, USER));
    assert!(rt; pager.read(0, 4, USER) == Ok(0x0008_0701));
    assert!(rt; pager.frame_of_code(0x200, USER) == None);
    if let Some(frame) = pager.frame_of_code(3, USER) {
        assert!(rt; pager.code_in(frame, 0, 1, USER) == Some(0x0807));
    }
    Ok(())
}

/// Writes bytes whatever the protection of their pages, by a pager with as many frames as any has.
fn poke(
    rt: &impl Abort,
    pager: &mut Pager,
    addr: u32,
    bytes: &[u8],
    file: &mut MemPages,
) -> Result<bool, PageFault>
    requires some { 1 ≤ length bytes.now }
    requires few { length bytes.now ≤ 64 }
{
    assert!(rt; pager.frames() >= 64);
    pager.poke(addr, bytes, file)
}

/// Bytes are written whatever the protection, also where the service of the second page takes the frame of the first.
#[test]
fn pokes(rt: HostRuntime) -> Result<(), Fail> {
    let mut pager = pager(rt.alloc())?;
    let mut file = pages(rt.alloc(), Vec::new(rt.alloc()))?;
    fill(&rt, &mut pager, &mut file, 10, 11);
    fill(&rt, &mut pager, &mut file, 20, 83);
    assert!(rt; poke(&rt, &mut pager, 0x15FE, &[1, 2, 3, 4], &mut file) == Ok(true));
    assert!(rt; pager.is_resident(10) && pager.is_resident(11));
    assert!(rt; pager.pins() == 0);
    assert!(rt; pager.peek(0x15FF, &mut file) == Ok(Some(2)));
    let Ok(Some(bytes)) = pager.page(11, &mut file) else {
        return Err(Fail::from("no page"));
    };
    assert!(rt; bytes.split_at(3).0 == [3, 4, 0].as_slice());
    // The end of the first area, and a page that no mode may write.
    assert!(rt; poke(&rt, &mut pager, 0xC7FF, &[5, 6], &mut file) == Ok(false));
    assert!(rt; poke(&rt, &mut pager, 0x2_0000, &[5], &mut file) == Ok(false));
    Ok(())
}

/// Writes to 70 pages three times, each time where the last write's number is. The answer tells how often a page had to be asked for again.
fn rounds(rt: &impl Abort, pager: &mut Pager, file: &mut MemPages) -> u64 {
    let mut faults = 0u64;
    for round in 0..3u32 {
        for page in 0..70u32 {
            let kept = pager.kept();
            if make_call(pager, file, Call::Serve(page)) == Answer::Fault {
                assert!(rt; !pager.is_resident(page), "page {page}");
                assert!(rt; pager.kept() == kept, "page {page}");
                assert!(rt;
                    make_call(pager, file, Call::Serve(page)) != Answer::Fault,
                    "page {page}"
                );
                faults = faults.saturating_add(1);
            }
            let call = Call::Write(page * 512 + 8, 4, u64::from(page + 60 * round));
            let old = if round == 0 {
                0
            } else {
                page + 60 * (round - 1)
            };
            assert!(rt;
                make_call(pager, file, call) == Answer::Value(u64::from(old)),
                "page {page}"
            );
        }
    }
    faults
}

/// Whichever call of the file fails, no byte is lost.
#[test]
fn failing_calls(rt: HostRuntime) -> Result<(), Fail> {
    let alloc = rt.alloc();
    for number in 1..=100 {
        let mut pager = pager(alloc)?;
        let mut file = pages(alloc, vec![in alloc; Failing::Call(number)]?)?;
        assert!(rt; rounds(&rt, &mut pager, &mut file) == 1, "call {number}");
        for page in 0..70u32 {
            let byte = make_call(&mut pager, &mut file, Call::Peek(page * 512 + 8));
            assert!(rt;
                byte == Answer::Byte(Some((page + 120) as u8)),
                "call {number}"
            );
        }
    }
    Ok(())
}
