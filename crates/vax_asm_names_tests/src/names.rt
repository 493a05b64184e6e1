//! Names as statements define and use them.
use std::test::Fail;
use vax_asm_names::*;

#[test]
fn numbers_names_as_they_appear(rt: HostRuntime) -> Result<(), Fail> {
    let alloc = rt.alloc();
    let mut table = NameTable::new(alloc);
    assert!(rt; table.number(b"START") == None);
    table.add(alloc, b"START", 0)?;
    table.add(alloc, b"COUNT", 1)?;
    assert!(rt; table.number(b"START") == Some(0));
    assert!(rt; table.number(b"COUNT") == Some(1));
    assert!(rt; table.number(b"STAR") == None);
    table.link(1, Linkage::Global);
    assert!(rt; !table.names()[0].global);
    assert!(rt; table.names()[1].global);
    assert!(rt; table.names()[1].text.as_slice() == b"COUNT".as_slice());
    Ok(())
}

#[test]
fn knows_what_another_module_may_define(rt: HostRuntime) -> Result<(), Fail> {
    let alloc = rt.alloc();
    let mut table = NameTable::new(alloc);
    table.add(alloc, b"BEFORE", 0)?;
    table.assume_external(false);
    table.add(alloc, b"NONE", 1)?;
    table.add(alloc, b"OTHER", 2)?;
    table.add(alloc, b"OWN", 3)?;
    table.link(2, Linkage::External);
    table.link(3, Linkage::Global);
    table.assume_external(true);
    table.add(alloc, b"BEHIND", 4)?;
    // What is said of a name stays.
    table.add(alloc, b"WEAK", 5)?;
    table.link(5, Linkage::Weak);
    table.link(5, Linkage::External);
    let may: [(bool, bool, bool); 6] = [
        (true, false, false),
        (false, false, false),
        (true, false, false),
        (true, true, false),
        (true, false, false),
        (true, true, true),
    ];
    for (name, (external, global, weak)) in table.names().iter().zip(may) {
        assert!(rt; name.external == external);
        assert!(rt; name.global == global);
        assert!(rt; name.weak == weak);
    }
    Ok(())
}

#[test]
fn tells_which_definition_a_use_means(rt: HostRuntime) -> Result<(), Fail> {
    let alloc = rt.alloc();
    let mut table = NameTable::new(alloc);
    // used before it is defined: its first definition to come
    table.add(alloc, b"X", 7)?;
    assert!(rt; table.names()[0].defined_by == DefinedBy::Nothing);
    table.assign(0, 8)?;
    assert!(rt; table.names()[0].definition == 7);
    table.assign(0, 8)?;
    assert!(rt; table.names()[0].definition == 8);
    // a name that is assigned to is no label, and the other way round
    assert!(rt; table.label(0) == Err(Duplicate));
    table.add(alloc, b"L", 9)?;
    table.label(1)?;
    assert!(rt; table.label(1) == Err(Duplicate));
    assert!(rt; table.assign(1, 10) == Err(Duplicate));
    assert!(rt; table.names()[1].definition == 9);
    assert!(rt; table.names()[1].defined_by == DefinedBy::Label);
    Ok(())
}

#[test]
fn keeps_local_labels_in_their_block(rt: HostRuntime) -> Result<(), Fail> {
    let alloc = rt.alloc();
    let mut table = NameTable::new(alloc);
    assert!(rt; table.use_local(alloc, b"10$", 3)?.definition == 3);
    assert!(rt; table.use_local(alloc, b"10$", 4)?.definition == 3);
    assert!(rt; table.label_local(alloc, b"10$", 4)?.definition == 3);
    assert!(rt; table.label_local(alloc, b"10$", 4) == Err(LabelError::Duplicate));
    assert!(rt; table.label_local(alloc, b"20$", 5)?.definition == 5);
    assert!(rt; table.local(b"20$").is_some());
    table.begin_block(alloc)?;
    assert!(rt; table.local(b"10$") == None);
    assert!(rt; table.label_local(alloc, b"10$", 6)?.definition == 6);
    // The first block goes on, and what it gets stays in it.
    assert!(rt; table.block() == 2);
    table.resume_block(1);
    assert!(rt; table.block() == 1);
    assert!(rt; table.use_local(alloc, b"10$", 7)?.definition == 3);
    assert!(rt; table.label_local(alloc, b"30$", 7)?.definition == 7);
    table.resume_block(2);
    assert!(rt; table.use_local(alloc, b"10$", 8)?.definition == 6);
    assert!(rt; table.local(b"30$") == None);
    // The block of the masks is another one.
    table.resume_block(0);
    assert!(rt; table.local(b"10$") == None);
    assert!(rt; table.label_local(alloc, b"F", 9)?.definition == 9);
    table.resume_block(1);
    assert!(rt; table.local(b"F") == None);
    assert!(rt; table.local(b"30$").is_some());
    Ok(())
}

#[test]
fn goes_back_to_a_mark(rt: HostRuntime) -> Result<(), Fail> {
    let alloc = rt.alloc();
    let mut table = NameTable::new(alloc);
    table.add(alloc, b"X", 0)?;
    table.mark();
    table.add(alloc, b"Y", 1)?;
    table.assign(0, 2)?;
    table.assign(0, 2)?;
    table.link(0, Linkage::Weak);
    table.begin_block(alloc)?;
    assert!(rt; table.is_marked());
    assert!(rt; table.go_back());
    assert!(rt; table.names().len() == 1);
    assert!(rt; table.number(b"Y") == None);
    assert!(rt; table.names()[0].definition == 0);
    assert!(rt; table.names()[0].defined_by == DefinedBy::Nothing);
    assert!(rt; !table.names()[0].weak);
    assert!(rt; table.block() == 1);
    // The mark is gone.
    assert!(rt; !table.go_back());
    Ok(())
}

#[test]
fn drops_a_mark_that_it_can_not_go_back_to(rt: HostRuntime) -> Result<(), Fail> {
    let alloc = rt.alloc();
    let mut table = NameTable::new(alloc);
    table.mark();
    table.use_local(alloc, b"10$", 0)?;
    assert!(rt; !table.is_marked());
    table.add(alloc, b"X", 1)?;
    table.mark();
    table.add(alloc, b"X", 2)?;
    assert!(rt; !table.go_back());
    assert!(rt; table.number(b"X") == Some(1));
    Ok(())
}
