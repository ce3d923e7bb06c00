//! The smallest month files and their outputs. Longer files are run by the program `vectors`.
use statement::{NoStatement, refusal_row, settle_file};
use std::process::Abort;
use std::test::Fail;

/// June 2018 without marks, windows from 14, 16 and 16, binding, price 379,000.
const JUNE: [u8; 36] = [
    0, 0, 0, 1, 0, 0, 7, 226, 0, 0, 0, 6, 0, 0, 0, 0, 0, 0, 0, 14, 0, 0, 0, 16, 0, 0, 0, 16, 0, 0,
    0, 0, 0, 5, 200, 120,
];

/// Ok with the bytes of a statement, or Err with the line of a refusal.
fn gives(
    rt: &(impl Abort + AllocGlobal),
    file: &[u8],
    expected: Result<&[u8], &[u8]>,
) -> Result<(), Fail> {
    match settle_file(rt.alloc(), file) {
        Ok(statement) => assert!(rt; expected == Ok(statement.as_slice())),
        Err(NoStatement::Refused(told)) => assert!(rt;
            expected == Err(refusal_row(told).written())
        ),
        // Handed on here, since a refusal is one of the outcomes expected.
        Err(error) => return Err(error.into()),
    }
    Ok(())
}

#[test]
fn a_month_alone_is_settled(rt: HostRuntime) -> Result<(), Fail> {
    gives(
        &rt,
        &JUNE,
        Ok(b"MONTH 2018-06 BINDING\nPOOL G 0 0 0 0\nPOOL F 0 0 0 0\n"),
    )
}

#[test]
fn the_reader_refuses_in_its_order(rt: HostRuntime) -> Result<(), Fail> {
    gives(&rt, b"", Err(b"REFUSED 40 R 0\n"))?;
    gives(&rt, &JUNE[0..35], Err(b"REFUSED 40 R 0\n"))?;
    gives(&rt, &[0, 0, 0, 4], Err(b"REFUSED 41 R 0\n"))?;
    gives(
        &rt,
        &[0, 0, 0, 2, 0, 0, 0, 0, 0, 0, 0, 0, 0, 0, 0, 0],
        Err(b"REFUSED 43 R 0\n"),
    )
}
