//! The command line: what its words order.

use crate::draw_order::{draw, drawn_in};
use crate::explain_order::{explain, explained};
use crate::page_order::{Paging, page, paged};
use ada_expectations::Form;
use ada_renderings::draw::{Part, View};
use clap::{Arg, ArgAction, ArgMatches, Command, Error, value_parser};
use std::alloc::{AllocError, Global};
use std::convert::AsStr;

/// What the program is to tell of a script.
#[derive(Clone, Copy, Debug, PartialEq, Eq)]
pub enum What {
    /// Its journal, why lines were refused, and what stands still at the end.
    Explanation,
    /// The same, and why each event came.
    Reasons,
    /// Its faulty lines, so many of the findings at most.
    Faults(usize),
    /// The same as JSON.
    FaultRecords(usize),
    /// A picture of its play.
    Picture(View),
    /// Its calls as a sequence diagram, of a part of the play.
    Sequence(Part),
    /// Who waits for whom at the end, as a graph.
    Graph,
    /// Its events, refusals and shown attributes as JSON.
    Events,
}

/// What the program is to do. A file is none where it is the standard input.
#[derive(Debug, Drop, PartialEq, Eq)]
pub enum Job<'a> {
    /// To tell something of a script.
    Tell {
        what: What,
        file: Option<&'a str>,
        /// Whether a refused line or a standstill has a status of its own.
        is_strict: bool,
    },
    /// To compare the plays of two scripts.
    Compare {
        first: Option<&'a str>,
        second: Option<&'a str>,
    },
    /// To check a log of what tasks did.
    Conform {
        file: Option<&'a str>,
        /// Whether a standstill at its end has a status of its own.
        is_strict: bool,
    },
    /// To search all schedules of a script.
    Explore(Exploration<'a>),
    /// To hold plays against what comments of their scripts say.
    Check(Checking<'a>),
    /// To repair a script where it is certain how.
    Fix(Repairing<'a>),
    /// To show plays as a page.
    Page(Paging<'a>),
}

/// A check of some plays.
#[derive(Debug, Drop, PartialEq, Eq)]
pub struct Checking<'a> {
    /// The files of the scripts, as they are named.
    pub files: Vec<&'a str>,
    pub form: Form,
    /// Whether a play has to end with the main program terminated, if no comment says how it ends.
    pub is_to_end: bool,
}

/// How far a search looks.
#[derive(Clone, Copy, Debug, PartialEq, Eq)]
pub struct Bounds {
    /// The most states that are gone on from.
    pub states: u32,
    /// After so many seconds the search ends.
    pub seconds: Option<u32>,
    /// When its states take so many megabytes it ends.
    pub megabytes: Option<u32>,
}

/// A search of all schedules of a script.
#[derive(Clone, Copy, Debug, PartialEq, Eq)]
pub struct Exploration<'a> {
    pub file: Option<&'a str>,
    pub bounds: Bounds,
    /// Where the schedule that is found is written as a script.
    pub script: Option<&'a str>,
    /// Where its choices are written.
    pub choices: Option<&'a str>,
    /// Whether selective waits have all picks, and not only those that are written.
    pub has_all_picks: bool,
    /// Whether time passes late, and not by the ticks that are written.
    pub is_late: bool,
}

/// The repair of a script.
#[derive(Clone, Copy, Debug, PartialEq, Eq)]
pub struct Repairing<'a> {
    pub file: Option<&'a str>,
    /// So many findings of what is left are told at most.
    pub most: usize,
    /// Whether they are told as JSON.
    pub is_json: bool,
}

/// When a text has colours.
#[derive(Clone, Copy, Debug, PartialEq, Eq)]
pub enum Color {
    /// On a terminal, if the environment doesn't say otherwise.
    Auto,
    Always,
    Never,
}

/// What the words of a command line order.
#[derive(Debug, Drop, PartialEq, Eq)]
pub struct Order<'a> {
    pub job: Job<'a>,
    pub color: Color,
}

impl Order<'_> {
    /// Whether the text has colours, by whether it may have some unless it is said.
    pub fn is_colored(&self, may_be: bool) -> bool {
        match self.color {
            Color::Auto => may_be,
            Color::Always => true,
            Color::Never => false,
        }
    }

    /// Whether what may have colours is on standard error.
    pub fn is_told_on_error(&self) -> bool {
        matches!(self.job, Job::Fix(_))
    }
}

static ABOUT: &str = "Explain and check scripts of requests to a kernel of Ada tasks";

static VERSION: &str = "0.1.0";

static LINT: &str = "Name every faulty line, with its column and what to write instead";

/// So many findings are printed if not all are asked for.
const MOST_FINDINGS: usize = 50;

static ALL: &str = "Print all findings, and not the first 50 alone";

static FIX: &str =
    "Write the script with the repairs that are certain, and tell on standard error what is left";

static LIST_FORMAT: &str = "text: as editors read it; json: a line of JSON for each finding";

static LIST_FORMATS: [&str; 2] = ["text", "json"];

static LINT_HELP: &str = "Examples:

  adascope lint design.tasks
  adascope lint < design.tasks
  adascope lint --format json design.tasks | jq -r .message
  adascope lint --fix design.tasks > fixed.tasks
";

static EVENTS: &str = "Write each event, refusal and shown attribute as a line of JSON";

static EVENTS_HELP: &str = "Examples:

  adascope events design.tasks
  adascope events design.tasks | jq 'select(.kind == \"refused\")'
";

static COMPARE: &str = "Show where two plays part, and what differs at their ends";

static COMPARE_HELP: &str = "Example:

  adascope compare design.tasks changed.tasks

The status is 0 if they don't differ, 1 if they do, and 2 if one is no script.
";

static CONFORM: &str = "Check a log of what tasks did, and name its first line that no rule allows";

static CONFORM_HELP: &str = "Examples:

  adascope conform run.log
  adascope conform < run.log || echo not as the rules say

A log is a script of any length that a kernel takes. The status is 0 if it conforms, 1 if a line is
refused, and 2 if a line is none of the language, or the log has more than 16777216 bytes.
";

static CHECK: &str = "Hold the plays of scripts against what their comments say is expected";

static CHECK_HELP: &str = "Examples:

  adascope check homework/*.tasks
  adascope check --format junit tests/*.tasks > report.xml

What is expected stands in comments: '# expect: terminated', 'stuck', 'circle', 'goes on', 'waits
until 500', and 'refused 9 NotRunning' of line 9, or 'refused NotRunning' of the line that follows.
A line that is refused otherwise isn't expected. The status is 0 if all is as expected, 1 if a file
is no script, and 3 otherwise.
";

static FINISHED: &str =
    "A play has to end with the main program terminated, if no comment says how it ends";

static REPORT: &str =
    "text: a line for each file; json: an object for each; junit: one XML document";

static REPORTS: [&str; 3] = ["text", "json", "junit"];

/// What the scripts of a command are.
pub(crate) static SCRIPTS: &str = "The files that have the scripts, or - for the standard input";

static EXPLORE: &str = "Search all schedules of a script for one that gets stuck";

static EXPLORE_HELP: &str = "Examples:

  adascope explore design.tasks
  adascope explore --script stuck.tasks design.tasks; adatask < stuck.tasks

Each task says its lines in their order, any task that runs may go on, and a tick comes where none
can. The first line is the verdict: 'none: ..' with status 0, 'stuck: ..' or 'stops: ..' with status
3, all proved, or 'unknown: ..' with status 5.
";

static STATES: &str = "The most states that are gone on from";

static SECONDS: &str = "End the search after so many seconds";

static MEMORY: &str = "End the search when its states take about so many megabytes";

static PICKS: &str = "Picks of selective waits: as they are written, or all that could matter";

static PICKINGS: [&str; 2] = ["written", "all"];

static TIME: &str =
    "How time passes where no task can act: by the ticks that are written, or to the first \
                     moment that is due";

static TIMES: [&str; 2] = ["written", "late"];

static SCHEDULE: &str = "Write the schedule that is found to this file, as a script";

static CHOICES: &str = "Write its choices to this file: whose line comes next, and its pick";

static FILE: &str = "The file that has the script, or - for the standard input, as without it";

static STRICT_LOG: &str = "End with status 3 where a log that conforms ends stuck, or has a circle";

static COLOR: &str =
    "Whether the text has colours: on a terminal alone, if NO_COLOR isn't set, or as is said";

static COLORS: [&str; 3] = ["auto", "always", "never"];

static HELP: &str = "Exit status:

  0  done, and nothing was found
  1  the input is no script: a line is faulty; of compare: the plays differ; of conform: a line is
     refused
  2  the command line is refused; of compare: an input is no script; of conform: the input is no log
  3  with --strict: a line of a script was refused, or something is stuck at the end; of explore:
     some schedule gets stuck, or tasks of it stop for good
  4  a file, memory, the input or the output was refused
  5  of explore: it isn't known whether any schedule gets stuck
";

/// What the words of a command line order, of which the first is the program's name. Other words are refused, and
/// `--help` and `--version` are answered, by an error that has the text and the status; want of memory is an error of
/// that kind.
pub fn order_of<'a, S: AsStr>(alloc: Global, words: &'a [S]) -> Result<Order<'a>, Error> {
    let command = program(alloc)?;
    let matches = command.try_get_matches_from(words)?;
    Ok(ordered(alloc, &matches)?)
}

pub(crate) fn file<'a>(alloc: Global, name: &'a str) -> Arg<'a> {
    Arg::new(alloc, name).action(ArgAction::Set).help(FILE)
}

pub(crate) fn color_option<'a>(alloc: Global) -> Arg<'a> {
    Arg::new(alloc, "color")
        .long("color")
        .value_name("WHEN")
        .action(ArgAction::Set)
        .value_parser(COLORS.as_slice())
        .default_value("auto")
        .help(COLOR)
}

pub(crate) fn strict_option<'a>(alloc: Global, help: &'a str) -> Arg<'a> {
    Arg::new(alloc, "strict")
        .long("strict")
        .action(ArgAction::SetTrue)
        .help(help)
}

fn compare<'a>(alloc: Global) -> Result<Command<'a>, AllocError> {
    Command::new(alloc, "compare")
        .about(COMPARE)
        .after_help(COMPARE_HELP)
        .arg(file(alloc, "FIRST").required(true))?
        .arg(file(alloc, "SECOND").required(true))?
        .arg(color_option(alloc))
}

fn lint<'a>(alloc: Global) -> Result<Command<'a>, AllocError> {
    let all = Arg::new(alloc, "all")
        .long("all")
        .action(ArgAction::SetTrue)
        .help(ALL);
    let fix = Arg::new(alloc, "fix")
        .long("fix")
        .action(ArgAction::SetTrue)
        .help(FIX);
    let format = Arg::new(alloc, "format")
        .long("format")
        .action(ArgAction::Set)
        .value_parser(LIST_FORMATS.as_slice())
        .default_value("text")
        .help(LIST_FORMAT);
    Command::new(alloc, "lint")
        .about(LINT)
        .after_help(LINT_HELP)
        .arg(file(alloc, "FILE"))?
        .arg(all)?
        .arg(fix)?
        .arg(format)?
        .arg(color_option(alloc))
}

fn events<'a>(alloc: Global) -> Result<Command<'a>, AllocError> {
    Command::new(alloc, "events")
        .about(EVENTS)
        .after_help(EVENTS_HELP)
        .arg(file(alloc, "FILE"))
}

fn conform<'a>(alloc: Global) -> Result<Command<'a>, AllocError> {
    Command::new(alloc, "conform")
        .about(CONFORM)
        .after_help(CONFORM_HELP)
        .arg(file(alloc, "FILE"))?
        .arg(strict_option(alloc, STRICT_LOG))
}

fn check<'a>(alloc: Global) -> Result<Command<'a>, AllocError> {
    let files = Arg::new(alloc, "FILE")
        .action(ArgAction::Append)
        .num_args(1..)
        .required(true)
        .help(SCRIPTS);
    let finished = Arg::new(alloc, "finished")
        .long("finished")
        .action(ArgAction::SetTrue)
        .help(FINISHED);
    let format = Arg::new(alloc, "format")
        .long("format")
        .action(ArgAction::Set)
        .value_parser(REPORTS.as_slice())
        .default_value("text")
        .help(REPORT);
    Command::new(alloc, "check")
        .about(CHECK)
        .after_help(CHECK_HELP)
        .arg(files)?
        .arg(finished)?
        .arg(format)
}

// An option that has a number.
fn number_option<'a>(alloc: Global, name: &'a str, help: &'a str) -> Arg<'a> {
    Arg::new(alloc, name)
        .long(name)
        .value_name("N")
        .action(ArgAction::Set)
        .value_parser(value_parser!(u32))
        .help(help)
}

// An option that names a file to write to.
fn output_option<'a>(alloc: Global, name: &'a str, help: &'a str) -> Arg<'a> {
    Arg::new(alloc, name)
        .long(name)
        .value_name("OUT")
        .action(ArgAction::Set)
        .help(help)
}

fn explore<'a>(alloc: Global) -> Result<Command<'a>, AllocError> {
    let picks = Arg::new(alloc, "picks")
        .long("picks")
        .action(ArgAction::Set)
        .value_parser(PICKINGS.as_slice())
        .default_value("written")
        .help(PICKS);
    let time = Arg::new(alloc, "time")
        .long("time")
        .action(ArgAction::Set)
        .value_parser(TIMES.as_slice())
        .default_value("written")
        .help(TIME);
    Command::new(alloc, "explore")
        .about(EXPLORE)
        .after_help(EXPLORE_HELP)
        .arg(file(alloc, "FILE"))?
        .arg(picks)?
        .arg(time)?
        .arg(number_option(alloc, "states", STATES).default_value("1000000"))?
        .arg(number_option(alloc, "seconds", SECONDS))?
        .arg(number_option(alloc, "memory", MEMORY))?
        .arg(output_option(alloc, "script", SCHEDULE))?
        .arg(output_option(alloc, "choices", CHOICES))
}

fn program<'a>(alloc: Global) -> Result<Command<'a>, AllocError> {
    let program = Command::new(alloc, "adascope")
        .about(ABOUT)
        .version(VERSION)
        .after_help(HELP)
        .subcommand_required(true);
    let program = program
        .subcommand(explain(alloc)?)?
        .subcommand(lint(alloc)?)?;
    others(alloc, program)
}

// Adds the commands that look at a play otherwise.
fn others<'a>(alloc: Global, program: Command<'a>) -> Result<Command<'a>, AllocError> {
    program
        .subcommand(draw(alloc)?)?
        .subcommand(events(alloc)?)?
        .subcommand(compare(alloc)?)?
        .subcommand(conform(alloc)?)?
        .subcommand(check(alloc)?)?
        .subcommand(page(alloc)?)?
        .subcommand(explore(alloc)?)
}

// What the subcommand that was met orders.
fn ordered<'a>(alloc: Global, matches: &ArgMatches<'a>) -> Result<Order<'a>, AllocError> {
    let order = match matches.subcommand() {
        Some(("lint", found)) => Order {
            job: linted(found),
            color: color_in(found),
        },
        Some(("draw", found)) => plain(tell(drawn_in(found), found, false)),
        Some(("events", found)) => plain(tell(What::Events, found, false)),
        Some(("compare", found)) => Order {
            job: Job::Compare {
                first: file_in(found, "FIRST"),
                second: file_in(found, "SECOND"),
            },
            color: color_in(found),
        },
        Some(("conform", found)) => plain(Job::Conform {
            file: file_in(found, "FILE"),
            is_strict: found.get_flag("strict"),
        }),
        Some(("explore", found)) => plain(Job::Explore(searched(found))),
        Some(("check", found)) => plain(Job::Check(checked(alloc, found)?)),
        Some(("page", found)) => plain(Job::Page(paged(alloc, found)?)),
        Some((_, found)) => Order {
            job: explained(found),
            color: color_in(found),
        },
        None => plain(Job::Tell {
            what: What::Explanation,
            file: None,
            is_strict: false,
        }),
    };
    Ok(order)
}

fn checked<'a>(alloc: Global, found: &ArgMatches<'a>) -> Result<Checking<'a>, AllocError> {
    let files = found.get_strs("FILE").unwrap_or(&[]);
    let form = match found.get_str("format") {
        Some("json") => Form::Json,
        Some("junit") => Form::Junit,
        _ => Form::Text,
    };
    Ok(Checking {
        files: Vec::from_slice(alloc, files)?,
        form,
        is_to_end: found.get_flag("finished"),
    })
}

fn linted<'a>(found: &ArgMatches<'a>) -> Job<'a> {
    let most = if found.get_flag("all") {
        usize::MAX
    } else {
        MOST_FINDINGS
    };
    let is_json = found.get_str("format") == Some("json");
    if found.get_flag("fix") {
        return Job::Fix(Repairing {
            file: file_in(found, "FILE"),
            most,
            is_json,
        });
    }
    let what = if is_json {
        What::FaultRecords(most)
    } else {
        What::Faults(most)
    };
    tell(what, found, false)
}

fn searched<'a>(found: &ArgMatches<'a>) -> Exploration<'a> {
    Exploration {
        file: file_in(found, "FILE"),
        bounds: Bounds {
            states: found.get_one::<u32>("states").unwrap_or(u32::MAX),
            seconds: found.get_one::<u32>("seconds"),
            megabytes: found.get_one::<u32>("memory"),
        },
        script: found.get_str("script"),
        choices: found.get_str("choices"),
        has_all_picks: found.get_str("picks") == Some("all"),
        is_late: found.get_str("time") == Some("late"),
    }
}

fn plain<'a>(job: Job<'a>) -> Order<'a> {
    Order {
        job,
        color: Color::Never,
    }
}

pub(crate) fn tell<'a>(what: What, matches: &ArgMatches<'a>, is_strict: bool) -> Job<'a> {
    Job::Tell {
        what,
        file: file_in(matches, "FILE"),
        is_strict,
    }
}

fn color_in(matches: &ArgMatches<'_>) -> Color {
    match matches.get_str("color") {
        Some("always") => Color::Always,
        Some("never") => Color::Never,
        _ => Color::Auto,
    }
}

fn file_in<'a>(matches: &ArgMatches<'a>, name: &str) -> Option<&'a str> {
    match matches.get_str(name) {
        Some("-") => None,
        file => file,
    }
}
