//! Scripts that are made of a number.

use cf_gen::gen_script;
use std::test::Fail;

#[test]
fn a_made_script_begins_with_a_put(rt: HostRuntime) -> Result<(), Fail> {
    let text = gen_script(rt.alloc(), 0)?;
    let begins = text.as_slice().starts_with(b"peer put /g0 5f*16425\n");
    let len = text.as_slice().len();
    drop(text);
    assert!(rt; begins);
    assert_eq!(rt; len, 17_843);
    Ok(())
}
