//! The colours of a picture, and what its stages are called.

use crate::draw::view::Scheme;
use ada_explain::lives::Stage;
use std::alloc::AllocError;

/// The forms, and the colours on a light page.
static LIGHT: &str = "svg { background: #ffffff; color: #1f2328; }
text { font: 12px ui-monospace, monospace; fill: currentColor; }
.head { font-weight: bold; text-anchor: middle; }
.entry { font-size: 10px; text-anchor: middle; }
.position { text-anchor: end; }
.forced, .line { opacity: 0.75; }
.refused { fill: #b42318; }
.grid { stroke: currentColor; stroke-opacity: 0.15; }
.tick { stroke: currentColor; stroke-opacity: 0.6; stroke-dasharray: 6 4; }
.mark { fill: currentColor; }
.step { fill: none; stroke: currentColor; stroke-width: 1.5; }
.hit { stroke: #b42318; stroke-width: 2.5; fill: none; }
.quit { stroke: currentColor; stroke-width: 2.5; fill: none; }
.call { stroke: currentColor; stroke-width: 1.5; stroke-dasharray: 3 3; fill: none; }
.met { stroke: currentColor; stroke-width: 2; fill: none; }
.served { stroke: currentColor; stroke-width: 1.5; stroke-dasharray: 8 4; fill: none; }
.block { stroke: currentColor; stroke-width: 1.5; fill: none; }
.not-started { fill: #d0d7de; }
.activating { fill: #a5d6ff; }
.running { fill: #4ac26b; }
.starting { fill: #b6e3ff; }
.calling { fill: #ffb77c; }
.in-rendezvous { fill: #d8a8ff; }
.waiting { fill: #fae17d; }
.delayed { fill: #fff1b8; }
.leaving { fill: #f0d9b5; }
.abnormal { fill: #ff8182; }
.completed { fill: #8c959f; }
.terminated { fill: none; }
";

/// The colours that are others on a dark page.
static DARK: &str = "svg { background: #0d1117; color: #e6edf3; }
.refused { fill: #ff9492; }
.hit { stroke: #ff9492; }
.not-started { fill: #484f58; }
.activating { fill: #1f6feb; }
.running { fill: #238636; }
.starting { fill: #0c4a8a; }
.calling { fill: #bd561d; }
.in-rendezvous { fill: #8957e5; }
.waiting { fill: #9e7700; }
.delayed { fill: #6b5b14; }
.leaving { fill: #76532a; }
.abnormal { fill: #da3633; }
.completed { fill: #6e7681; }
";

/// Each stage that has a colour, with the name of its class, and what it is called.
pub(crate) const STAGES: [(Stage, &str, &str); 11] = [
    (Stage::NotStarted, "not-started", "not started"),
    (Stage::Activating, "activating", "activating"),
    (Stage::Running, "running", "running"),
    (Stage::Starting, "starting", "waits for an activation"),
    (Stage::Calling, "calling", "waits in a call"),
    (Stage::InRendezvous, "in-rendezvous", "is served"),
    (Stage::Waiting, "waiting", "waits for a call"),
    (Stage::Delayed, "delayed", "delayed"),
    (Stage::Leaving, "leaving", "waits at the end of a block"),
    (Stage::Abnormal, "abnormal", "aborted"),
    (Stage::Completed, "completed", "completed"),
];

/// The class of a stage, and what it is called.
pub(crate) fn names_of(stage: Stage) -> (&'static str, &'static str) {
    match STAGES.iter().find(|(other, _, _)| *other == stage) {
        Some((_, class, name)) => (*class, *name),
        None => ("terminated", "terminated"),
    }
}

/// Appends the colours of a scheme.
pub(crate) fn write_style(out: &mut String, scheme: Scheme) -> Result<(), AllocError> {
    write!(out, "<style>\n{LIGHT}")?;
    match scheme {
        Scheme::Auto => write!(out, "@media (prefers-color-scheme: dark) {{\n{DARK}}}\n")?,
        Scheme::Light => {}
        Scheme::Dark => out.push_str(DARK)?,
    }
    write!(out, "</style>\n")
}
