//! What the tests ask of a script: tables of scripts, or of single lines, with the text that each prints.
//! A failure names the table, and the place in it, from 0. The checks take the runtime, the heap and the table's name:
//! a struct of the three would be made for each table.
use images::flash::MAX_IMAGE;
use script::script::print_script;
use std::alloc::{AllocError, Global};
use std::process::Abort;
use std::test::Fail;

// A script or a line, and what it prints.
pub type Case<'a> = (&'a [u8], &'a str);

// What a script prints. A fault of the writer, which is only a want of memory, fails the test.
pub fn printed(heap: Global, script: &[u8]) -> Result<String, Fail> {
    let outcome = print_script(script, &mut [0; MAX_IMAGE], Vec::new(heap));
    outcome.written?;
    Ok(String::from_utf8(outcome.writer)?)
}

// Each script prints exactly the text beside it.
pub fn check_scripts(
    rt: &impl Abort,
    heap: Global,
    table: &str,
    cases: &[Case],
) -> Result<(), Fail> {
    for (i, (script, expected)) in cases.iter().enumerate() {
        assert_eq!(rt;
            printed(heap, script)?.as_str(),
            *expected,
            "{table}: script {i}"
        );
    }
    Ok(())
}

// Where the lines of a table stand, each in a script of its own: what goes before and after the line, and what is
// printed before and after its answer.
#[derive(Clone, Copy)]
pub struct Place<'a> {
    name: &'a str,
    before: &'a [u8],
    after: &'a [u8],
    printed_before: &'a str,
    printed_after: &'a str,
}

// A head, with a get after it. It prints this, and no more: a refused head ends the script.
pub const HEAD: Place = Place {
    name: "head",
    before: b"",
    after: b"\nG 0\n",
    printed_before: "",
    printed_after: "\n",
};

// A line between a head and an `L`. It prints this, and the script goes on with nothing counted.
pub const LINE: Place = Place {
    name: "line",
    before: b"H Z7 6 1 12\n",
    after: b"\nL\n",
    printed_before: "M 2\n",
    printed_after: "\nN 0 0 0 -\n",
};

impl Place<'_> {
    pub fn check_all(
        &self,
        rt: &impl Abort,
        heap: Global,
        table: &str,
        cases: &[Case],
    ) -> Result<(), Fail> {
        for (i, (line, expected)) in cases.iter().enumerate() {
            self.check(rt, heap, table, i, line, expected)?;
        }
        Ok(())
    }

    pub fn check(
        &self,
        rt: &impl Abort,
        heap: Global,
        table: &str,
        i: usize,
        line: &[u8],
        expected: &str,
    ) -> Result<(), Fail> {
        let Place {
            name,
            before,
            after,
            printed_before,
            printed_after,
        } = self;
        let script = joined(heap, before, line, after)?;
        let text = format!(in heap; "{printed_before}{expected}{printed_after}")?;
        assert_eq!(rt; printed(heap, &script)?, text, "{table}: {name} {i}");
        Ok(())
    }
}

pub fn joined(
    heap: Global,
    before: &[u8],
    middle: &[u8],
    after: &[u8],
) -> Result<Vec<u8>, AllocError> {
    let mut bytes = Vec::new(heap);
    bytes.extend_from_slice(before)?;
    bytes.extend_from_slice(middle)?;
    bytes.extend_from_slice(after)?;
    Ok(bytes)
}
