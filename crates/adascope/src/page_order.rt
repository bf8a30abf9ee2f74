//! The words of the command `page`.

use crate::order::SCRIPTS;
use clap::{Arg, ArgAction, ArgMatches, Command};
use std::alloc::{AllocError, Global};

/// A page of some plays.
#[derive(Debug, Drop, PartialEq, Eq)]
pub struct Paging<'a> {
    /// The files of the scripts, as they are named.
    pub files: Vec<&'a str>,
    /// Whether the document alone is written, without the page around it.
    pub is_json: bool,
}

static PAGE: &str = "Write a page that steps through plays in a browser: one file, with no server";

static PAGE_HELP: &str = "Examples:

  adascope page design.tasks > design.html
  adascope page homework/*.tasks > sheet.html
  adascope page --format json design.tasks | jq -r '.plays[0].rows[-1].printed'

design.html#34 opens at the row of number 34. Of a script with a faulty line the lines before it are
shown, and what is faulty; the status is 1 then.
";

static FORMAT: &str = "html: the page; json: the document in it alone";

static FORMATS: [&str; 2] = ["html", "json"];

/// The command `page`.
pub(crate) fn page<'a>(alloc: Global) -> Result<Command<'a>, AllocError> {
    let files = Arg::new(alloc, "FILE")
        .action(ArgAction::Append)
        .num_args(1..)
        .required(true)
        .help(SCRIPTS);
    let format = Arg::new(alloc, "format")
        .long("format")
        .action(ArgAction::Set)
        .value_parser(FORMATS.as_slice())
        .default_value("html")
        .help(FORMAT);
    Command::new(alloc, "page")
        .about(PAGE)
        .after_help(PAGE_HELP)
        .arg(files)?
        .arg(format)
}

/// What its words order.
pub(crate) fn paged<'a>(alloc: Global, found: &ArgMatches<'a>) -> Result<Paging<'a>, AllocError> {
    let files = found.get_strs("FILE").unwrap_or(&[]);
    Ok(Paging {
        files: Vec::from_slice(alloc, files)?,
        is_json: found.get_str("format") == Some("json"),
    })
}
