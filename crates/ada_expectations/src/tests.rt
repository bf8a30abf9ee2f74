//! What comments say, and what is found of plays that were worked out by hand.

use crate::{Ending, Expectation, Expected, Failing, expectations_in, judge};
use ada_events::Refusal;
use std::test::Fail;

static COMMENTS: &[u8] = b"# expect: stuck
#expect:  waits until -5
  #  expect: refused 9 NotRunning
# expect: refused EmptyList

# Here it is:
main: abort
# expect: goes
# expect: terminated now
# expected: stuck
# expect: circle
";

#[test]
fn reads_comments(rt: HostRuntime) -> Result<(), Fail> {
    let found = expectations_in(rt.alloc(), COMMENTS)?;
    let expected = [
        Expectation {
            line: 1,
            expected: Expected::Ending(Ending::Stuck),
        },
        Expectation {
            line: 2,
            expected: Expected::Ending(Ending::WaitsUntil(-5)),
        },
        Expectation {
            line: 3,
            expected: Expected::Refused {
                line: 9,
                cause: "NotRunning",
            },
        },
        Expectation {
            line: 4,
            expected: Expected::Refused {
                line: 7,
                cause: "EmptyList",
            },
        },
        Expectation {
            line: 11,
            expected: Expected::Ending(Ending::Circle),
        },
    ];
    assert_eq!(&rt; found.list.as_slice(), expected.as_slice());
    assert_eq!(&rt; found.misread.as_slice(), [8, 9].as_slice());
    Ok(())
}

// The second line is refused, since the main program isn't within an accept statement. Then it is terminated.
static REFUSED: &[u8] = b"# expect: refused NotInAccept
main: end
main: complete
# expect: terminated
";

static OTHERWISE: &[u8] = b"# expect: stuck
main: end
main: delay 5
# expect: refused 2 NotRunning
";

static SILENT: &[u8] = b"main: delay 5
";

#[test]
fn judges_plays(rt: HostRuntime) -> Result<(), Fail> {
    assert!(rt; judge(rt.alloc(), REFUSED, true)?.failing.is_empty());
    let failing = judge(rt.alloc(), OTHERWISE, true)?.failing;
    let refused = Expected::Refused {
        line: 2,
        cause: "NotRunning",
    };
    let wanted = [
        Failing::Unmet(Expectation {
            line: 1,
            expected: Expected::Ending(Ending::Stuck),
        }),
        Failing::Unmet(Expectation {
            line: 4,
            expected: refused,
        }),
        Failing::Refused {
            line: 2,
            cause: Refusal::NotInAccept,
        },
    ];
    assert_eq!(&rt; failing.as_slice(), wanted.as_slice());
    let silent = judge(rt.alloc(), SILENT, false)?.failing;
    assert_eq!(&rt; silent.as_slice(), [Failing::NothingExpected].as_slice());
    let unfinished = judge(rt.alloc(), SILENT, true)?.failing;
    assert_eq!(&rt; unfinished.as_slice(), [Failing::Unfinished].as_slice());
    Ok(())
}
