//! The limits of a text.

use crate::common::{assert_read, assert_refused};
use ada_text::{Cause, Place};
use std::test::Fail;

/// A procedure that assigns a value in so many parentheses.
fn in_parentheses<R: AllocGlobal>(rt: &R, count: usize) -> Result<Vec<u8>, Fail> {
    let mut text = Vec::new(rt.alloc());
    text.extend_from_slice(b"procedure P is begin\nA := ")?;
    for _ in 0..count {
        text.push(b'(')?;
    }
    text.push(b'1')?;
    for _ in 0..count {
        text.push(b')')?;
    }
    text.extend_from_slice(b"; end;")?;
    Ok(text)
}

/// A procedure with so many blocks within one another, a line each.
fn in_blocks<R: AllocGlobal>(rt: &R, count: usize) -> Result<Vec<u8>, Fail> {
    let mut text = Vec::new(rt.alloc());
    text.extend_from_slice(b"procedure P is begin")?;
    for _ in 0..count {
        text.extend_from_slice(b"\nbegin")?;
    }
    text.extend_from_slice(b" null;")?;
    for _ in 0..count {
        text.extend_from_slice(b" end;")?;
    }
    text.extend_from_slice(b" end;")?;
    Ok(text)
}

/// 64 levels are read, and no 65.
#[test]
fn nests_to_64_levels(rt: HostRuntime) -> Result<(), Fail> {
    assert_read(&rt, &in_parentheses(&rt, 64)?);
    let parentheses = in_parentheses(&rt, 65)?;
    assert_refused(
        &rt,
        &parentheses,
        Place {
            line: 2,
            column: 70,
        },
        Cause::NestedTooDeep,
    );
    assert_read(&rt, &in_blocks(&rt, 63)?);
    let blocks = in_blocks(&rt, 64)?;
    assert_refused(
        &rt,
        &blocks,
        Place {
            line: 65,
            column: 7,
        },
        Cause::NestedTooDeep,
    );
    Ok(())
}

/// A text has at most 1 MiB.
#[test]
fn reads_up_to_1_mib(rt: HostRuntime) -> Result<(), Fail> {
    let mut text = vec![in rt.alloc(); b' '; 1_048_576 - 30]?;
    text.extend_from_slice(b"procedure P is begin null;end;")?;
    assert_read(&rt, &text);
    text.push(b' ')?;
    let place = Place {
        line: 1,
        column: 1_048_577,
    };
    assert_refused(&rt, &text, place, Cause::TextTooLong);
    Ok(())
}

/// A text that has a part so many times between two others.
fn repeated<R: AllocGlobal>(
    rt: &R,
    before: &[u8],
    part: &[u8],
    count: usize,
    after: &[u8],
) -> Result<Vec<u8>, Fail> {
    let mut text = Vec::new(rt.alloc());
    text.extend_from_slice(before)?;
    for _ in 0..count {
        text.extend_from_slice(part)?;
    }
    text.extend_from_slice(after)?;
    Ok(text)
}

/// 65,536 expressions are read, and no more: a name, a literal, and two with each further literal.
#[test]
fn reads_65536_expressions(rt: HostRuntime) -> Result<(), Fail> {
    let before = b"procedure P is begin\nA:=1";
    let more = repeated(&rt, before, b"+1", 32_768, b"; end;")?;
    let place = Place {
        line: 2,
        column: 65_540,
    };
    assert_refused(&rt, &more, place, Cause::TooMany);
    Ok(())
}

/// 65,536 statements are read, and no more.
#[test]
fn reads_65536_statements(rt: HostRuntime) -> Result<(), Fail> {
    let before = b"procedure P is begin\n";
    let more = repeated(&rt, before, b"null;", 65_537, b"end;")?;
    let place = Place {
        line: 2,
        column: 327_681,
    };
    assert_refused(&rt, &more, place, Cause::TooMany);
    Ok(())
}

/// 65,536 declarations are read, and no more.
#[test]
fn reads_65536_declarations(rt: HostRuntime) -> Result<(), Fail> {
    let after = b"E: exception; begin null; end;";
    let more = repeated(&rt, b"procedure P is\n", b"E,", 65_536, after)?;
    let place = Place {
        line: 2,
        column: 131_073,
    };
    assert_refused(&rt, &more, place, Cause::TooMany);
    Ok(())
}
