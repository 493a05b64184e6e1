//! Places and the bytes that lie there.
use std::test::Fail;
use vax_asm::assemble;
use vax_asm_laws::*;
use vax_dialect::Dialect;
use vax_module::Value;

#[test]
fn a_label_names_the_bytes_behind_it(rt: HostRuntime) -> Result<(), Fail> {
    let alloc = rt.alloc();
    statements_are_counted();
    modules_have_what_was_counted();
    labels_name_what_stands_behind();
    parts_stand_where_they_were_counted();
    values_solve_definitions();
    definitions_stay();
    let source = b".BYTE 1[3]\nMOVL #64,LATER\n.ALIGN LONG\nX:: .ASCII /here/\nLATER: .LONG E\n";
    let module = assemble(alloc, Dialect::Vax, source.as_slice())?;
    let globals = module.globals.as_slice();
    assert!(rt; globals.len() == 1);
    let place = Value::Section {
        section: 0,
        offset: 16,
    };
    assert!(rt; globals[0].value == place);
    let sections = module.sections.as_slice();
    assert!(rt; sections.len() == 1);
    let bytes = sections[0].bytes.as_slice();
    assert!(rt; bytes.len() == 24);
    assert!(rt; &bytes[16..20] == b"here".as_slice());
    Ok(())
}
