//! The words of the command `draw`.

use crate::order::{What, file};
use ada_renderings::draw::{Part, Scheme, View};
use clap::{Arg, ArgAction, ArgMatches, Command, value_parser};
use std::alloc::{AllocError, Global};

static DRAW: &str = "Draw the play: tasks and events as SVG, or another format";

static DRAW_HELP: &str = "Examples:

  adascope draw design.tasks > design.svg
  adascope draw --from 12 --to 30 --no-text --scheme light design.tasks > slide.svg
  adascope draw --format mermaid design.tasks
  adascope draw --format dot design.tasks | dot -Tsvg > waits.svg
";

static FORMAT: &str =
    "svg: tasks and events; mermaid: the calls as a sequence; dot: who waits for whom at the end";

static FORMATS: [&str; 3] = ["svg", "mermaid", "dot"];

static FROM: &str = "Begin with the event at this position; not of dot";

static TO: &str = "End after the event at this position; not of dot";

static NO_TEXT: &str = "Without what was printed and the lines of the script; of svg alone";

static SCHEME: &str = "The colours: as whoever looks at it has chosen, or as is said; of svg alone";

static SCHEMES: [&str; 3] = ["auto", "light", "dark"];

/// The command `draw`.
pub(crate) fn draw<'a>(alloc: Global) -> Result<Command<'a>, AllocError> {
    let format = Arg::new(alloc, "format")
        .long("format")
        .action(ArgAction::Set)
        .value_parser(FORMATS.as_slice())
        .default_value("svg")
        .help(FORMAT);
    let scheme = Arg::new(alloc, "scheme")
        .long("scheme")
        .action(ArgAction::Set)
        .value_parser(SCHEMES.as_slice())
        .default_value("auto")
        .help(SCHEME);
    let no_text = Arg::new(alloc, "no-text")
        .long("no-text")
        .action(ArgAction::SetTrue)
        .help(NO_TEXT);
    Command::new(alloc, "draw")
        .about(DRAW)
        .after_help(DRAW_HELP)
        .arg(file(alloc, "FILE"))?
        .arg(format)?
        .arg(position_option(alloc, "from", FROM))?
        .arg(position_option(alloc, "to", TO))?
        .arg(no_text)?
        .arg(scheme)
}

// An option that has the position of an event.
fn position_option<'a>(alloc: Global, name: &'a str, help: &'a str) -> Arg<'a> {
    Arg::new(alloc, name)
        .long(name)
        .value_name("N")
        .action(ArgAction::Set)
        .value_parser(value_parser!(u32))
        .help(help)
}

/// What its words order to be drawn.
pub(crate) fn drawn_in(found: &ArgMatches<'_>) -> What {
    let part = Part {
        from: found.get_one::<u32>("from").unwrap_or(1),
        to: found.get_one::<u32>("to").unwrap_or(u32::MAX),
    };
    match found.get_str("format") {
        Some("mermaid") => What::Sequence(part),
        Some("dot") => What::Graph,
        _ => What::Picture(View {
            part,
            has_text: !found.get_flag("no-text"),
            scheme: scheme_in(found),
        }),
    }
}

fn scheme_in(found: &ArgMatches<'_>) -> Scheme {
    match found.get_str("scheme") {
        Some("light") => Scheme::Light,
        Some("dark") => Scheme::Dark,
        _ => Scheme::Auto,
    }
}
