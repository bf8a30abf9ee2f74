//! What is written of a script that is repaired where it is certain how.

use crate::conforming::bytes_of;
use crate::input::MOST_BYTES;
use crate::obeying::STANDARD_INPUT;
use crate::order::Repairing;
use crate::output::{write_aside, write_bytes};
use crate::painting::{Kind, painted};
use ada_findings::{Finding, Form, ScopeFault, repair};
use ada_replay::RunFault;
use std::io::{Eprint, Input, Print};
use std::rt::Files;

/// Writes a script with the repairs that are certain, tells on standard error what is left, and says what that is.
pub fn tell_repairs<R: Files + Input + Print + Eprint + AllocGlobal>(
    rt: &R,
    order: &Repairing<'_>,
    is_colored: bool,
) -> Result<Finding, ScopeFault> {
    let text = bytes_of(rt, order.file)?;
    if text.len() > MOST_BYTES {
        return Err(ScopeFault::TooLong);
    }
    let form = if order.is_json {
        Form::Json
    } else {
        Form::Text(order.file.unwrap_or(STANDARD_INPUT))
    };
    let repaired = repair(rt.alloc(), form, &text, order.most)?;
    write_bytes(rt, &repaired.text)?;
    if is_colored && !order.is_json {
        let told = painted(rt.alloc(), &repaired.told, Kind::Findings);
        write_aside(rt, &told.map_err(|_| RunFault::Memory)?);
    } else {
        write_aside(rt, &repaired.told);
    }
    Ok(repaired.finding)
}
