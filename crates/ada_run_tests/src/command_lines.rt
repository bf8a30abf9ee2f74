//! Command lines: what they order, and which are refused.

use ada_run::{Order, order_of};
use clap::error::ErrorKind;
use std::process::Abort;
use std::test::Fail;

/// A command line is refused, or answered with help, by an error of this kind with this status.
fn is_answered<R: Abort + AllocGlobal>(
    rt: &R,
    words: &[&str],
    kind: ErrorKind,
    status: i32,
) -> Result<(), Fail> {
    match order_of(rt.alloc(), words) {
        Ok(_) => assert!(rt; false),
        Err(fault) => {
            assert_eq!(rt; fault.kind(), kind);
            assert_eq!(rt; fault.exit_code(), status);
        }
    }
    Ok(())
}

#[test]
fn replays(rt: HostRuntime) -> Result<(), Fail> {
    let without = order_of(rt.alloc(), &["adatask"])?;
    assert_eq!(rt; without, Order::Replay);
    let with = order_of(rt.alloc(), &["adatask", "replay"])?;
    assert_eq!(rt; with, Order::Replay);
    Ok(())
}

#[test]
fn other_words_are_refused(rt: HostRuntime) -> Result<(), Fail> {
    is_answered(&rt, &["adatask", "walk"], ErrorKind::InvalidSubcommand, 2)?;
    is_answered(
        &rt,
        &["adatask", "replay", "extra"],
        ErrorKind::UnknownArgument,
        2,
    )?;
    is_answered(&rt, &["adatask", "--walk"], ErrorKind::UnknownArgument, 2)
}

#[test]
fn runs(rt: HostRuntime) -> Result<(), Fail> {
    let in_turn = order_of(rt.alloc(), &["adatask", "run"])?;
    assert_eq!(rt; in_turn, Order::Run);
    let free = order_of(rt.alloc(), &["adatask", "run", "--free"])?;
    assert_eq!(rt; free, Order::RunFree);
    Ok(())
}

// The flag is one of `run`.
#[test]
fn other_flags_are_refused(rt: HostRuntime) -> Result<(), Fail> {
    is_answered(&rt, &["adatask", "--free"], ErrorKind::UnknownArgument, 2)?;
    is_answered(
        &rt,
        &["adatask", "replay", "--free"],
        ErrorKind::UnknownArgument,
        2,
    )?;
    is_answered(
        &rt,
        &["adatask", "run", "--turn"],
        ErrorKind::UnknownArgument,
        2,
    )
}

#[test]
fn help_is_shown(rt: HostRuntime) -> Result<(), Fail> {
    is_answered(&rt, &["adatask", "--help"], ErrorKind::DisplayHelp, 0)?;
    match order_of(rt.alloc(), &["adatask", "--help"]) {
        Ok(_) => assert!(rt; false),
        Err(help) => {
            let text = format!(in rt.alloc(); "{help}")?;
            assert!(rt; text.contains("print the journal of what happens"));
            assert!(rt; text.contains("main: create S under main E"));
            assert!(rt; text.contains("T: select P [A [or A] ..] [else]"));
            assert!(rt; text.contains("2  the command line is refused"));
            assert!(rt; text.contains("write failed, thread refused"));
            assert!(rt; text.contains("4,096 lines of 200 bytes"));
            assert!(rt; text.contains("256 tasks"));
            assert!(rt; !help.use_stderr());
        }
    }
    Ok(())
}

#[test]
fn the_version_is_shown(rt: HostRuntime) -> Result<(), Fail> {
    is_answered(&rt, &["adatask", "-V"], ErrorKind::DisplayVersion, 0)?;
    match order_of(rt.alloc(), &["adatask", "--version"]) {
        Ok(_) => assert!(rt; false),
        Err(version) => {
            let text = format!(in rt.alloc(); "{version}")?;
            assert_eq!(rt; text.as_str(), "adatask 0.1.0\n");
            assert!(rt; !version.use_stderr());
        }
    }
    Ok(())
}
