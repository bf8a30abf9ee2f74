//! The words of the command `explain`.

use crate::order::{Job, What, color_option, file, strict_option, tell};
use clap::{Arg, ArgAction, ArgMatches, Command};
use std::alloc::{AllocError, Global};

static EXPLAIN: &str =
    "Print the journal beside the script, why lines were refused, and what stands still at the end";

static EXPLAIN_HELP: &str = "Examples:

  adascope explain design.tasks
  adascope explain --each design.tasks
  adascope explain --strict design.tasks || echo refused or stuck
";

static EACH: &str =
    "Say of each event why it came: what asked for it, or which rule forced it, by which events";

static STRICT: &str =
    "End with status 3 where a line was refused, or the end is stuck, or has a circle of tasks";

/// The command `explain`.
pub(crate) fn explain<'a>(alloc: Global) -> Result<Command<'a>, AllocError> {
    let each = Arg::new(alloc, "each")
        .long("each")
        .action(ArgAction::SetTrue)
        .help(EACH);
    Command::new(alloc, "explain")
        .about(EXPLAIN)
        .after_help(EXPLAIN_HELP)
        .arg(file(alloc, "FILE"))?
        .arg(each)?
        .arg(strict_option(alloc, STRICT))?
        .arg(color_option(alloc))
}

/// What its words order.
pub(crate) fn explained<'a>(found: &ArgMatches<'a>) -> Job<'a> {
    let what = if found.get_flag("each") {
        What::Reasons
    } else {
        What::Explanation
    };
    tell(what, found, found.get_flag("strict"))
}
