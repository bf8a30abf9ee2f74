//! The lines of a script on both kernels.

use crate::twins::Twins;
use ada_events::TaskNo;
use ada_script::{Line, Names, Script, request_of};
use anyhow::{Error, anyhow};

/// Plays the requests of a script. Fails where the two don't agree.
pub fn play(twins: &mut Twins, names: &mut Names, script: &Script) -> anyhow::Result<()> {
    for line in script.lines() {
        if !agree_on_line(twins, names, line) {
            return Err(difference(line));
        }
    }
    Ok(())
}

/// Plays a line, if it is a request: whether the two agree on its answer, on its events, and on all that is asked of
/// them behind it.
fn agree_on_line(twins: &mut Twins, names: &mut Names, line: &Line) -> bool {
    if line.statement.is_show() {
        return true;
    }
    let made = TaskNo(twins.tasks());
    let request = request_of(&line.statement, names);
    let again = request_of(&line.statement, names);
    match twins.step(request, again) {
        Some(Ok(at)) => names.bind(&line.statement, at, made),
        Some(Err(_)) => (),
        None => return false,
    }
    twins.agree()
}

fn difference(line: &Line) -> Error {
    anyhow!("the kernels differ at line {}", line.line)
}
