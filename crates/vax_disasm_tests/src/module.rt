//! A module, made and looked at.
use std::test::Fail;
use vax_module::*;

#[test]
fn tells_its_parts(rt: HostRuntime) -> Result<(), Fail> {
    let name = Bytes::from(b"CODE".to_vec(rt.alloc())?);
    let bytes = Bytes::from([0xD0, 0xEF, 0, 0, 0, 0].to_vec(rt.alloc())?);
    let section = Section {
        name,
        align: 4,
        write: false,
        bytes,
        storage: 0,
    };
    let reloc = Reloc {
        section: 0,
        offset: 2,
        kind: RelocKind::RelLong,
        target: Value::External {
            index: 0,
            offset: 0,
        },
    };
    let external = ExternalName {
        name: Bytes::from(b"X".to_vec(rt.alloc())?),
        weak: false,
    };
    let module = Module {
        sections: Items::from(vec![in rt.alloc(); section]?),
        globals: Items::from(Vec::new(rt.alloc())),
        externals: Items::from(vec![in rt.alloc(); external]?),
        relocs: Items::from([reloc].to_vec(rt.alloc())?),
        transfer: None,
    };
    assert!(rt; matches!(module.sections.as_slice(), [s] if s.bytes.as_slice().len() == 6));
    assert!(rt; matches!(module.externals.as_slice(), [x] if x.name.as_slice() == b"X".as_slice()));
    assert!(rt; module.globals.as_slice().is_empty());
    assert!(rt; module.relocs.as_slice() == [reloc].as_slice());
    assert!(rt; module.transfer.is_none());
    Ok(())
}

#[test]
fn tells_widths(rt: HostRuntime) {
    let widths = [
        (RelocKind::Byte, 1),
        (RelocKind::Word, 2),
        (RelocKind::Long, 4),
        (RelocKind::RelByte, 1),
        (RelocKind::RelWord, 2),
        (RelocKind::RelLong, 4),
    ];
    for (kind, width) in widths {
        assert!(rt; kind.width() == width);
    }
}
