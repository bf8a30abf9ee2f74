//! The command line: what its words order.
ghost use Rattle.std.specs.Prelude.{◌≡◌, IfOk, map};
ghost use Rattle.clap.specs.Words.{FailsBy, app_of, found_of, rows_of, subcommand_rows_of};
ghost use Rattle.ada_run.specs.Orders.{adatask, is_free, ordered, order_named, refused_kinds};

use ada_events::limits::{MOST_EVENTS, MOST_SLOTS, MOST_TASKS};
use clap::{Arg, ArgAction, ArgMatches, Command, Error};
use std::alloc::{AllocError, Global};
use std::convert::AsStr;

/// What the program is to do.
#[derive(Clone, Copy, Debug, PartialEq, Eq)]
pub enum Order {
    /// To replay the script on standard input, line by line.
    Replay,
    /// To run it with one thread for each task, line after line as they stand in it.
    Run,
    /// To run it with one thread for each task, as the threads come.
    RunFree,
}

static ABOUT: &str =
    "Play a script of requests to a kernel of Ada tasks, and print the journal of what happens";

static VERSION: &str = "0.1.0";

static REPLAY: &str = "Replay the script on standard input, line by line (also without a command)";

static RUN: &str =
    "Run the script on standard input with one thread for each task, in the order of its lines";

static FREE: &str =
    "Let each task go on as soon as it may, whatever the order of the lines, to try the kernel";

static HELP: &str = "A first script, on standard input:

  main: create S under main E
  main: activate S
  S: up
  S: accept E
  main: call S E
  S: end

Statements, of a task T about a task N, a block B, a master M or an entry family F:

  tick M
  T: open B
  T: create N under M [F [low high]] ..
  T: activate [N ..]
  T: up
  T: fail
  T: call N F [i]
  T: call N F [i] within d
  T: try N F [i]
  T: accept F [i]
  T: select P [A [or A] ..] [else]
  T: end
  T: raise
  T: close
  T: delay d
  T: complete
  T: abort [N ..]
  T: show callable N
  T: show terminated N
  T: show count F [i]

  An alternative A is accept F [i], delay d or terminate, with closed before it if its
  guard is false. M of a tick and d are milliseconds.

Exit status:

  0  the main program is terminated at the end
  1  the input is no script, or makes too many tasks to run
  2  the command line is refused
  3  the main program isn't terminated at the end
  4  memory, the input, the output or a thread was refused: out of memory, read failed,
     write failed, thread refused

Limits:

  A script has 4,096 lines of 200 bytes at most. A request is refused, and its cause
  printed, beyond 256 tasks, the main program among them, and 1,024 entries, with all that
  is gone. A journal has room for 65,536 events, which no script reaches.
";

// The numbers of the help are those of the kernel.
const _: () = prove!(MOST_TASKS == 256);

const _: () = prove!(MOST_SLOTS == 1_024);

const _: () = prove!(MOST_EVENTS == 65_536);

/// What the words of a command line order, of which the first is the program's name: `replay`, or nothing,
/// to replay; `run` to run, with `--free` as the threads come. Any other word is refused, and `--help` and
/// `--version` are answered, by an error that has the text and the status; want of memory is an error of that kind.
pub fn order_of<'a, S: AsStr>(alloc: Global, words: &'a [S]) -> Result<Order, Error>
    ensures ok { IfOk result (λ order. order ≡ order_named (map S.text words.entry.now)) }
    ensures refused { FailsBy (refused_kinds (map S.text words.entry.now)) result }
{
    let command = program(alloc)?;
    let matches = command.try_get_matches_from(words)?;
    Ok(ordered(&matches))
}

fn program<'a>(alloc: Global) -> Result<Command<'a>, AllocError>
    ensures { IfOk result (λ command. app_of command ≡ adatask) }
{
    let replay = Command::new(alloc, "replay").about(REPLAY);
    let free = Arg::new(alloc, "free")
        .long("free")
        .action(ArgAction::SetTrue)
        .help(FREE);
    let run = Command::new(alloc, "run").about(RUN).arg(free)?;
    Command::new(alloc, "adatask")
        .about(ABOUT)
        .version(VERSION)
        .after_help(HELP)
        .subcommand(replay)?
        .subcommand(run)
}

// What the subcommand that was met orders.
fn ordered(matches: &ArgMatches<'_>) -> Order
    ensures { result ≡ ordered (subcommand_rows_of matches.now) }
{
    let Some((name, found)) = matches.subcommand() else {
        return Order::Replay;
    };
    if name != "run" {
        return Order::Replay;
    }
    if is_free(found) {
        Order::RunFree
    } else {
        Order::Run
    }
}

// Whether the flag was met.
fn is_free(matches: &ArgMatches<'_>) -> bool
    ensures { result ≡ is_free (rows_of (found_of matches.now)) }
{
    let Some(text) = matches.get_str("free") else {
        return false;
    };
    text == "true"
}
