//! What the tests ask of a text.

use ada_text::{Cause, Kind, Place, Tree, Wanted, read};
use std::process::Abort;
use std::test::Fail;

/// The text is read.
pub fn assert_read<R: Abort + AllocGlobal>(rt: &R, text: &[u8]) {
    let fault = read(rt.alloc(), text).err();
    assert_eq!(rt; fault, None);
}

/// The text is refused for this cause, at this line and column.
pub fn assert_refused<R: Abort + AllocGlobal>(rt: &R, text: &[u8], place: Place, cause: Cause) {
    let fault = read(rt.alloc(), text).err();
    assert_eq!(rt;
        fault.map(|fault| (fault.place, fault.cause)),
        Some((place, cause))
    );
}

/// One text after another.
fn joined<R: AllocGlobal>(rt: &R, parts: [&[u8]; 3]) -> Result<Vec<u8>, Fail> {
    let mut text = Vec::new(rt.alloc());
    for part in parts {
        text.extend_from_slice(part)?;
    }
    Ok(text)
}

/// A procedure with these declarations in its second line.
pub fn with_declarations<R: AllocGlobal>(rt: &R, declarations: &[u8]) -> Result<Vec<u8>, Fail> {
    joined(
        rt,
        [b"procedure P is\n", declarations, b"\nbegin null; end P;\n"],
    )
}

/// A procedure with these statements in its second line.
pub fn with_statements<R: AllocGlobal>(rt: &R, statements: &[u8]) -> Result<Vec<u8>, Fail> {
    joined(rt, [b"procedure P is begin\n", statements, b"\nend P;\n"])
}

/// The tree of a procedure with these statements.
pub fn of_statements<R: AllocGlobal>(rt: &R, statements: &[u8]) -> Result<Option<Tree>, Fail> {
    let text = with_statements(rt, statements)?;
    Ok(read(rt.alloc(), &text).ok())
}

/// The declarations are read.
pub fn assert_declares<R: Abort + AllocGlobal>(rt: &R, declarations: &[u8]) -> Result<(), Fail> {
    assert_read(rt, &with_declarations(rt, declarations)?);
    Ok(())
}

/// The statements are read.
pub fn assert_does<R: Abort + AllocGlobal>(rt: &R, statements: &[u8]) -> Result<(), Fail> {
    assert_read(rt, &with_statements(rt, statements)?);
    Ok(())
}

/// The declarations are refused for this cause, at this column.
pub fn assert_not_declared<R: Abort + AllocGlobal>(
    rt: &R,
    declarations: &[u8],
    column: u32,
    cause: Cause,
) -> Result<(), Fail> {
    let text = with_declarations(rt, declarations)?;
    assert_refused(rt, &text, Place { line: 2, column }, cause);
    Ok(())
}

/// The statements are refused for this cause, at this column.
pub fn assert_not_done<R: Abort + AllocGlobal>(
    rt: &R,
    statements: &[u8],
    column: u32,
    cause: Cause,
) -> Result<(), Fail> {
    let text = with_statements(rt, statements)?;
    assert_refused(rt, &text, Place { line: 2, column }, cause);
    Ok(())
}

/// Such a word stands where something else is wanted.
pub fn unexpected(wanted: Wanted, found: Kind) -> Cause {
    Cause::Unexpected { wanted, found }
}

/// A word stands where another one is wanted.
pub fn wanted(wanted: Kind, found: Kind) -> Cause {
    unexpected(Wanted::Word(wanted), found)
}
