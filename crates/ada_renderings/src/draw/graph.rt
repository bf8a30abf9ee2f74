//! Who waits for whom at the end of a play, as a graph of Graphviz.

use ada_events::TaskNo;
use ada_explain::Scene;
use ada_explain::clients::Clients;
use ada_explain::reasons::{awaited, write_reason};
use ada_replay::Account;
use ada_waiting::reason_in;
use std::alloc::{AllocError, Global};

/// A graph with a node for each task that waits or is waited for, and an edge from each to those for which it waits; a
/// dashed one from a task that waits for calls of others than it served last, to the task that it served.
pub fn write_graph(alloc: Global, account: &Account) -> Result<String, AllocError> {
    let scene = Scene::at_end(account);
    let clients = Clients::of(alloc, scene.events)?;
    let mut out = String::new(alloc);
    write!(out, "digraph waits {{\n")?;
    for task in 0..account.kernel.tasks() {
        write_waits(&mut out, scene, TaskNo(task))?;
        write_client(&mut out, scene, &clients, TaskNo(task))?;
    }
    write!(out, "}}\n")?;
    Ok(out)
}

// The node of a task that waits, and its edges.
fn write_waits(out: &mut String, scene: Scene<'_>, task: TaskNo) -> Result<(), AllocError> {
    let Some(reason) = reason_in(scene.kernel, task) else {
        return Ok(());
    };
    let name = scene.task(task);
    write!(out, "  \"{name}\" [tooltip=\"")?;
    write_reason(out, scene, task, reason)?;
    write!(out, "\"];\n")?;
    for other in &awaited(*out.allocator(), scene, task, reason)? {
        write!(out, "  \"{name}\" -> \"{}\";\n", scene.task(*other))?;
    }
    Ok(())
}

// The dashed edge of a task to the one that it served last, if it has one.
fn write_client(
    out: &mut String,
    scene: Scene<'_>,
    clients: &Clients,
    task: TaskNo,
) -> Result<(), AllocError> {
    match clients.client_of(scene, task) {
        Some(client) => write!(
            out,
            "  \"{}\" -> \"{}\" [style=dashed, label=\"last served\"];\n",
            scene.task(task),
            scene.task(client)
        ),
        None => Ok(()),
    }
}
