//! A page that wears out: in Z3 with two cells to a record, a step from one label to the other is always full.
//! So each line renews, until the wear count is 10,000.
use crate::scripts::printed;
use std::alloc::{AllocError, Global};
use std::test::Fail;

// A head, a put, and 10,001 lines that ask for a renewal.
pub fn wearing_script(heap: Global) -> Result<Vec<u8>, AllocError> {
    let mut script = Vec::new(heap);
    script.extend_from_slice(b"H Z3 2 1 2\nP 0 1\n")?;
    script.extend_from_slice(&b"S 0 2\nS 0 1\n".repeat(heap, 5000)?)?;
    script.extend_from_slice(b"S 0 2\nG 0\nL\n")?;
    Ok(script)
}

// Its text: each renewal marks one cell, and the last one meets the worn page.
pub fn wearing_text(heap: Global) -> Result<String, AllocError> {
    let mut text = String::from_str(heap, "M 1\nW 1\n")?;
    text.push_str(&"E 1\n".repeat(heap, 10000)?)?;
    text.push_str("X 22 D 10003 1\nV 1\nN 1 10000 10001 0\n")?;
    Ok(text)
}

#[test]
fn a_worn_page_is_named_in_the_script(rt: HostRuntime) -> Result<(), Fail> {
    let heap = rt.alloc();
    let script = wearing_script(heap)?;
    assert_eq!(rt; printed(heap, &script)?, wearing_text(heap)?);
    Ok(())
}
