// Holds what is told of a text against what should be.
use std::process::Abort;
use std::test::Fail;
use text::report::lint;

// Whether each text of a table has the report beside it. It is compared whole, over more lent bytes than any of them
// needs. A failure tells which line of the table it is, from 0 on.
pub(crate) fn all_told(rt: &impl Abort, table: &[(&[u8], &[u8])]) -> Result<(), Fail> {
    for (i, (text, expected)) in table.iter().enumerate() {
        let mut lent = [0u8; 4096];
        let told = lint(text, &mut lent);
        assert!(rt; told.is_ok(), "line {i}: too few bytes are lent");
        assert_eq!(rt; lent.get(..told?), Some(*expected), "line {i}");
    }
    Ok(())
}

// The same of one text.
pub(crate) fn told(rt: &impl Abort, text: &[u8], expected: &[u8]) -> Result<(), Fail> {
    all_told(rt, &[(text, expected)])
}
