//! What faults say.

use ada_text::{Cause, Fault, Kind, Place, Wanted};
use std::test::Fail;

/// The sentence of a fault in line 3, column 14.
fn sentence<R: AllocGlobal>(rt: &R, cause: Cause) -> Result<String, Fail> {
    let place = Place {
        line: 3,
        column: 14,
    };
    let fault = Fault { place, cause };
    Ok(format!(in rt.alloc(); "{fault}")?)
}

/// Line, column and cause, with colons between them.
#[test]
fn says_where_and_why(rt: HostRuntime) -> Result<(), Fail> {
    assert_eq!(rt;
        sentence(&rt, Cause::AccessTypes)?.as_str(),
        "3:14: access types aren't in the subset"
    );
    assert_eq!(rt;
        sentence(&rt, Cause::OutOfMemory)?.as_str(),
        "3:14: memory is wanting"
    );
    Ok(())
}

/// What is wanted, and what stands there.
#[test]
fn says_what_is_wanted(rt: HostRuntime) -> Result<(), Fail> {
    for (wanted, text) in [
        (
            Wanted::Word(Kind::Arrow),
            "3:14: `=>` is wanted here, and there is `end`",
        ),
        (
            Wanted::Expression,
            "3:14: an expression is wanted here, and there is `end`",
        ),
        (
            Wanted::Statement,
            "3:14: a statement is wanted here, and there is `end`",
        ),
        (
            Wanted::Declaration,
            "3:14: a declaration or begin is wanted here, and there is `end`",
        ),
        (
            Wanted::TypeDefinition,
            "3:14: the definition of a type is wanted here, and there is `end`",
        ),
        (
            Wanted::Alternative,
            "3:14: accept, delay, terminate or an entry call is wanted here, and there is `end`",
        ),
        (
            Wanted::Attribute,
            "3:14: an attribute of the subset is wanted here, and there is `end`",
        ),
        (
            Wanted::CallOrAssignment,
            "3:14: a call or an assignment is wanted here, and there is `end`",
        ),
    ] {
        let found = Kind::End;
        let cause = Cause::Unexpected { wanted, found };
        assert_eq!(rt; sentence(&rt, cause)?.as_str(), text);
    }
    Ok(())
}
