//! What tasks are within.

use crate::standing::Standing;
use ada_events::journal::event_in;
use ada_events::{Event, Member, TaskNo};
use ada_explain::Scene;
use std::alloc::AllocError;

/// Appends what each task is within that is within something, the outermost first.
pub fn write_nests(
    out: &mut String,
    scene: Scene<'_>,
    standing: &Standing,
) -> Result<(), AllocError> {
    let mut before = "{\"";
    for (task, doing) in standing.doings.iter().enumerate() {
        if !doing.nest.is_empty() {
            out.push_str(before)?;
            out.push_str(scene.task(TaskNo((task % 65_536) as u16)))?;
            out.push_str("\":")?;
            before = ",\"";
            write_nest(out, scene, &doing.nest)?;
        }
    }
    out.push_str(if before == "{\"" { "{}" } else { "}" })
}

fn write_nest(out: &mut String, scene: Scene<'_>, nest: &[Member]) -> Result<(), AllocError> {
    let mut before = "[";
    for member in nest {
        out.push_str(before)?;
        before = ",";
        write_member(out, scene, *member)?;
    }
    out.push(']')
}

fn write_member(out: &mut String, scene: Scene<'_>, member: Member) -> Result<(), AllocError> {
    let call = match member {
        Member::Block(opened) => {
            return write!(out, "{{\"block\":\"{}\"}}", scene.block(opened));
        }
        Member::Rendezvous(call) => call,
    };
    let Some(
        Event::Called {
            by,
            callee,
            entry,
            ..
        },
    ) = event_in(scene.events, call)
    else {
        return out.push_str("{}");
    };
    out.push_str("{\"caller\":\"")?;
    out.push_str(scene.task(*by))?;
    out.push_str("\",\"entry\":\"")?;
    out.push_str(scene.family_name(*callee, entry.family))?;
    let index = entry.index;
    write!(out, "\",\"index\":{index},\"call\":{call}}}")
}
