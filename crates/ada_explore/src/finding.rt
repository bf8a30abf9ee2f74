//! What is found of all schedules of a script.
ghost use Rattle.std.specs.Prelude.{◌≡◌, true, IfOk, IfSome};
ghost use Rattle.ada_search.specs.Findings.{GetsStuck, NoneGetsStuck};
ghost use Rattle.ada_explore.specs.Findings.{NeverSays};
ghost use Rattle.ada_explore.specs.Scripts.{scripted};

use crate::search::Search;
use crate::{End, Halt, Refused, Space, Turn, Watch, is_stuck, never_says};
use ada_search::{covered_by, follow};

/// A schedule from which on some lines are never said, whatever comes.
#[derive(Drop)]
pub struct Stop {
    /// Its turns.
    pub path: Vec<Turn>,
    /// The places of the lines that are never said. Their tasks don't end.
    pub lines: Vec<u16>,
}

/// What was found of all schedules of a script.
#[derive(Drop)]
pub struct Finding {
    /// A schedule that gets stuck; none that was met is shorter.
    pub stuck: Option<Vec<Turn>>,
    /// If none was met that gets stuck, a schedule after which some tasks are held up for good; none that was met is
    /// shorter.
    pub stopped: Option<Stop>,
    /// How many states cover all that schedules come to, if it was found that no schedule gets stuck.
    pub covered: Option<u32>,
    /// How many states were met.
    pub states: u32,
    /// How many of them are stuck.
    pub stuck_states: u32,
    /// In how many of them no line may come, though the main program isn't terminated, and something could let it go
    /// on.
    pub short_states: u32,
    /// How many steps were taken.
    pub steps: u64,
    /// The lines that some schedules say in vain, the first one first.
    pub refused: Vec<Refused>,
    pub end: End,
}

// Whether a schedule gets stuck: it is followed again.
fn gets_stuck(space: Space<'_>, path: &[Turn]) -> Result<bool, Halt>
    ensures { IfOk result (λ stuck. stuck ≡ true
        → GetsStuck (scripted space.entry.freedom space.entry.script.now) path.now) }
{
    let end = follow(space.alloc, &space, path)?;
    Ok(is_stuck(&end.kernel))
}

// The schedule that leads to a state, if it gets stuck.
fn stuck_path(space: Space<'_>, path: Vec<Turn>) -> Result<Option<Vec<Turn>>, Halt>
    ensures { IfOk result (λ found. IfSome found (λ path.
        GetsStuck (scripted space.entry.freedom space.entry.script.now) path.items)) }
{
    if gets_stuck(space, &path)? {
        Ok(Some(path))
    } else {
        Ok(None)
    }
}

// The first schedule that a search met and that gets stuck.
fn first_stuck(space: Space<'_>, search: &Search) -> Result<Option<Vec<Turn>>, Halt>
    ensures { IfOk result (λ found. IfSome found (λ path.
        GetsStuck (scripted space.entry.freedom space.entry.script.now) path.items)) }
{
    match search.first {
        Some(state) => stuck_path(space, search.path(state)?),
        None => Ok(None),
    }
}

// Whether some lines are never said after a schedule; not if a limit of the kernel is met.
fn never_says_them<W: Watch>(
    space: Space<'_>,
    stop: &Stop,
    most: u32,
    watch: &mut W,
) -> Result<bool, Halt>
    ensures { IfOk result (λ never. never ≡ true
        → NeverSays space.entry.freedom space.entry.script.now stop.now.path.items
        stop.now.lines.items) }
{
    match never_says(space, &stop.path, &stop.lines, most, watch) {
        Err(Halt::Limit(_)) => Ok(false),
        found => found,
    }
}

// The schedule that a search met, if that is so after it.
fn stop_if_so<W: Watch>(
    space: Space<'_>,
    stop: Stop,
    most: u32,
    watch: &mut W,
) -> Result<Option<Stop>, Halt>
    ensures { IfOk result (λ found. IfSome found (λ stop.
        NeverSays space.entry.freedom space.entry.script.now stop.path.items stop.lines.items)) }
{
    if never_says_them(space, &stop, most, watch)? {
        Ok(Some(stop))
    } else {
        Ok(None)
    }
}

// The first schedule of a search that saw all, and met none that gets stuck, after which some lines are never said.
fn first_stop<W: Watch>(
    space: Space<'_>,
    search: &Search,
    most: u32,
    watch: &mut W,
) -> Result<Option<Stop>, Halt>
    ensures { IfOk result (λ found. IfSome found (λ stop.
        NeverSays space.entry.freedom space.entry.script.now stop.path.items stop.lines.items)) }
{
    if search.end != End::AllSeen || search.first.is_some() {
        return Ok(None);
    }
    let Some((state, lines)) = search.first_stop(space)? else {
        return Ok(None);
    };
    let stop = Stop {
        path: search.path(state)?,
        lines,
    };
    stop_if_so(space, stop, most, watch)
}

// How many states cover all that schedules of a script come to, if none that was met is stuck and none is left.
fn covered<W: Watch>(
    space: Space<'_>,
    search: &Search,
    most: u32,
    watch: &mut W,
) -> Result<Option<u32>, Halt>
    ensures { IfOk result (λ found. IfSome found (λ states.
        NoneGetsStuck (scripted space.entry.freedom space.entry.script.now))) }
{
    if search.end != End::AllSeen || search.first.is_some() {
        return Ok(None);
    }
    match covered_by(space.alloc, &space, most, watch) {
        Err(Halt::Limit(_)) => Ok(None),
        found => found,
    }
}

/// Searches all schedules of a script with these picks; so many states are gone on from, at most. A schedule that is
/// told gets stuck: it is one of these, and nothing can let go on what it comes to. If one is told that is stopped, the
/// lines are never said after it. If it is told how many states cover all, no schedule gets stuck; that isn't looked
/// for if one is stopped. If nothing of these is told, nothing is known. An `Err` is want of memory, or a script with
/// more lines than a script may have.
pub fn explore<W: Watch>(space: Space<'_>, most: u32, watch: &mut W) -> Result<Finding, Halt>
    ensures stuck { IfOk result (λ finding. IfSome finding.stuck (λ path.
        GetsStuck (scripted space.entry.freedom space.entry.script.now) path.items)) }
    ensures stopped { IfOk result (λ finding. IfSome finding.stopped (λ stop.
        NeverSays space.entry.freedom space.entry.script.now stop.path.items stop.lines.items)) }
    ensures none { IfOk result (λ finding. IfSome finding.covered (λ states.
        NoneGetsStuck (scripted space.entry.freedom space.entry.script.now))) }
{
    let search = Search::of(space, most, watch)?;
    let stuck = first_stuck(space, &search)?;
    let stopped = first_stop(space, &search, most, watch)?;
    let covered = match stopped {
        Some(_) => None,
        None => covered(space, &search, most, watch)?,
    };
    let refused = search.refused()?;
    Ok(Finding {
        stuck,
        stopped,
        covered,
        states: search.states(),
        stuck_states: search.stuck,
        short_states: search.short,
        steps: search.taken,
        refused,
        end: search.end,
    })
}
