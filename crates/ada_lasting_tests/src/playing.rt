//! Scripts are played, and their kernels compacted, twice.

use crate::alike::{assert_alike, assert_short};
use ada_compact::compact;
use ada_events::TaskNo;
use ada_kernel::Kernel;
use ada_script::{Line, Names, Script, read, request};
use std::process::Abort;
use std::test::Fail;

/// What a script comes to, with terminated tasks that may still be named.
#[derive(Clone, Copy)]
pub struct State {
    pub script: &'static [u8],
    pub kept: &'static [TaskNo],
}

// Every line is a request, and accepted.
fn play_line(kernel: &mut Kernel, names: &mut Names, line: &Line) -> Result<(), Fail> {
    let made = TaskNo(kernel.tasks());
    let Some(request) = request(&line.statement, names) else {
        return Err(Fail::new("no request"));
    };
    match kernel.step(request) {
        Ok(at) => names.bind(&line.statement, at, made),
        Err(cause) => return Err(Fail::new(format_args!("line {}: {cause:?}", line.line))),
    }
    Ok(())
}

fn play_lines(kernel: &mut Kernel, script: &Script) -> Result<(), Fail> {
    let mut names = script.names()?;
    for line in script.lines() {
        play_line(kernel, &mut names, line)?;
    }
    Ok(())
}

fn play<R: AllocGlobal>(rt: &R, kernel: &mut Kernel, text: &[u8]) -> Result<(), Fail> {
    let script = read(rt.alloc(), text)?;
    play_lines(kernel, &script)
}

/// Shortens a kernel, and lends what comes of it to the asserts.
pub fn check_once<R: Abort + AllocGlobal>(
    rt: &R,
    old: &Kernel,
    kept: &[TaskNo],
) -> Result<Kernel, Fail> {
    let compacted = compact(rt.alloc(), old, kept)?;
    assert_short(rt, old, kept, &compacted.kernel);
    assert_alike(rt, old, kept, &compacted);
    Ok(compacted.kernel)
}

/// Shortens a kernel, and what comes of it once more, without the tasks that were kept.
pub fn check<R: Abort + AllocGlobal>(rt: &R, old: &Kernel, kept: &[TaskNo]) -> Result<(), Fail> {
    let new = check_once(rt, old, kept)?;
    let _newest = check_once(rt, &new, &[])?;
    Ok(())
}

/// The kernel that a script comes to.
pub fn played<R: AllocGlobal>(rt: &R, text: &[u8]) -> Result<Kernel, Fail> {
    let mut kernel = Kernel::new(rt.alloc())?;
    play(rt, &mut kernel, text)?;
    Ok(kernel)
}

/// Shortens what a script comes to.
pub fn check_state<R: Abort + AllocGlobal>(rt: &R, state: State) -> Result<(), Fail> {
    let kernel = played(rt, state.script)?;
    check(rt, &kernel, state.kept)
}
