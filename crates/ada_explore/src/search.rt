//! A search of all schedules of a script, in breadth first: it tells the shortest schedule that gets stuck. Nothing is
//! promised of it: what it tells is followed again.

use crate::ahead::Ahead;
use crate::performing::perform;
use crate::rest::asker_at;
use crate::turns::{may_have, picks_below};
use crate::{Halt, Progress, Space, Standing, Time, Turn, Watch, is_stuck};
use ada_events::Refusal;
use ada_script::Line;
use ada_search::{LOOK, TaskSet, begin, copy_of, write_key};
use ada_waiting::next_due;
use indexmap::IndexSet;
use std::alloc::Global;
use std::collections::VecDeque;

/// Of so many states that are still to be gone on from it is kept where they come to.
const MOST_WAITING: usize = 256;

/// So many bytes a state takes beside its key, a step from one to another, and where a state comes to, about.
const STATE: u64 = 136;

const LEAD: u64 = 12;

const STANDING: u64 = 150_000;

/// How a search ended.
#[derive(Clone, Copy, Debug, PartialEq, Eq)]
pub enum End {
    /// Each state that was met was gone on from.
    AllSeen,
    /// There are more states than were to be gone on from.
    Bound,
    /// Whoever watched the search ended it.
    Ended,
    /// A limit of the kernel was met: of tasks, entries or events.
    Limit(Refusal),
}

/// A line that some schedules say in vain.
#[derive(Drop)]
pub struct Refused {
    /// Its place in the script, from 0.
    pub place: u16,
    pub cause: Refusal,
    /// In how many steps it is refused for this cause.
    pub steps: u64,
    /// A schedule in which it is, which ends with that line; none that was met is shorter.
    pub path: Vec<Turn>,
}

/// What a search met.
#[derive(Drop)]
pub(crate) struct Search {
    alloc: Global,
    /// How each state was come to: from which one, and by which turn.
    steps: Vec<Step>,
    /// What tells states apart.
    keys: IndexSet<Vec<u8>>,
    /// So many bytes these have.
    bytes: u64,
    /// The key that was written last.
    key: Vec<u8>,
    /// Of the first states that are still to be gone on from, where they come to. The paths of the others are played
    /// again.
    waiting: VecDeque<Waiting>,
    /// The first stuck state.
    pub(crate) first: Option<u32>,
    /// How many states are stuck.
    pub(crate) stuck: u32,
    /// In how many no line may come, though the main program isn't terminated, and something could let it go on.
    pub(crate) short: u32,
    /// How many steps were taken.
    pub(crate) taken: u64,
    /// The steps whose lines were refused, of each line and cause the first one.
    refused: Vec<FirstRefused>,
    /// Which states lead to which, in the order of those that lead.
    leads: Vec<Lead>,
    /// The states in which no line may come, with the lines that their tasks would say if they went on.
    ends: Vec<Deadend>,
    pub(crate) end: End,
}

#[derive(Clone, Copy, Debug, PartialEq, Eq)]
struct Step {
    from: u32,
    turn: Turn,
}

// The first step at which a line was refused for a cause.
#[derive(Clone, Copy, Debug, PartialEq, Eq)]
struct FirstRefused {
    place: u16,
    cause: Refusal,
    step: Step,
    /// At how many steps it was.
    count: u64,
}

// One state leads to another.
#[derive(Clone, Copy, Debug, PartialEq, Eq)]
struct Lead {
    from: u32,
    to: u32,
}

// A state in which no line may come.
#[derive(Drop)]
struct Deadend {
    state: u32,
    /// The places of the lines that are left for good.
    left: Vec<u16>,
}

/// A state that is still to be gone on from, with where it comes to.
#[derive(Drop)]
struct Waiting {
    state: u32,
    standing: Standing,
}

impl Search {
    /// Searches all schedules of a script. So many states are gone on from, at most.
    pub(crate) fn of<W: Watch>(space: Space<'_>, most: u32, watch: &mut W) -> Result<Self, Halt> {
        let alloc = space.alloc;
        let mut search = Search {
            alloc,
            steps: Vec::new(alloc),
            keys: IndexSet::new(alloc),
            bytes: 0,
            key: Vec::new(alloc),
            waiting: VecDeque::new(alloc),
            first: None,
            stuck: 0,
            short: 0,
            taken: 0,
            refused: Vec::new(alloc),
            leads: Vec::new(alloc),
            ends: Vec::new(alloc),
            end: End::AllSeen,
        };
        search.begin(space)?;
        for state in 0..most {
            if state >= search.states() {
                return Ok(search);
            }
            if state % LOOK == 0 && !watch.goes_on(search.progress(state)) {
                search.end = End::Ended;
                return Ok(search);
            }
            search.go_on(space, state)?;
        }
        if search.states() > most {
            search.end = End::Bound;
        }
        Ok(search)
    }

    // Meets the beginning, to which no step leads.
    fn begin(&mut self, space: Space<'_>) -> Result<(), Halt> {
        let standing = begin(space.alloc, &space)?;
        let step = Step {
            from: 0,
            turn: Turn::Time,
        };
        self.meet(space, standing, step)?;
        Ok(())
    }

    fn progress(&self, done: u32) -> Progress {
        let leads = (self.leads.len() as u64).saturating_mul(LEAD);
        let states = u64::from(self.states()).saturating_mul(STATE);
        let waiting = (self.waiting.len() as u64).saturating_mul(STANDING);
        Progress {
            done,
            met: self.states(),
            bytes: self
                .bytes
                .saturating_add(states)
                .saturating_add(leads)
                .saturating_add(waiting),
        }
    }

    /// How many states were met.
    pub(crate) fn states(&self) -> u32 {
        u32::try_from(self.steps.len()).unwrap_or(u32::MAX)
    }

    /// The turns that lead to a state.
    pub(crate) fn path(&self, state: u32) -> Result<Vec<Turn>, Halt> {
        let mut path = Vec::new(self.alloc);
        let mut at = state;
        for _ in 0..=u16::MAX {
            if at == 0 {
                break;
            }
            let Some(step) = self.steps.get(at as usize) else {
                break;
            };
            path.push(step.turn).map_err(|_| Halt::Memory)?;
            at = step.from;
        }
        path.reverse();
        Ok(path)
    }

    // Where a state comes to: that is kept, or its path is played again.
    fn standing(&mut self, space: Space<'_>, state: u32, path: &[Turn]) -> Result<Standing, Halt> {
        match self.waiting.front() {
            Some(first) if first.state == state => {}
            _ => return play(space, path),
        }
        match self.waiting.pop_front() {
            Some(first) => Ok(first.standing),
            None => play(space, path),
        }
    }

    // Takes each step from a state, on a copy of where it comes to, but for the last one.
    fn go_on(&mut self, space: Space<'_>, state: u32) -> Result<(), Halt> {
        let path = self.path(state)?;
        let standing = self.standing(space, state, &path)?;
        let choices = choices(space, &standing)?;
        if choices.is_empty() {
            self.end_at(space.script.lines(), state, &standing)?;
        }
        let Some((last, others)) = choices.split_last() else {
            return Ok(());
        };
        for turn in others {
            let from = copy_of(self.alloc, &space, &standing)?;
            let step = Step {
                from: state,
                turn: *turn,
            };
            self.step(space, from, step)?;
        }
        let step = Step {
            from: state,
            turn: *last,
        };
        self.step(space, standing, step)
    }

    // Notes a state in which no line may come.
    fn end_at(&mut self, script: &[Line], state: u32, standing: &Standing) -> Result<(), Halt> {
        if is_short(standing) {
            self.short = self.short.saturating_add(1);
        }
        let left = left_for_good(self.alloc, script, standing)?;
        self.ends
            .push(Deadend { state, left })
            .map_err(|_| Halt::Memory)
    }

    // Takes a step.
    fn step(&mut self, space: Space<'_>, from: Standing, step: Step) -> Result<(), Halt> {
        self.taken = self.taken.saturating_add(1);
        let mut standing = from;
        match perform(space.script.lines(), &mut standing, step.turn) {
            Ok(None) => self.lead(space, standing, step),
            Ok(Some(cause)) => {
                if let Some(place) = step.turn.place() {
                    self.note_refused(place, cause, step)?;
                }
                self.lead(space, standing, step)
            }
            Err(Halt::Limit(cause)) => {
                self.end = End::Limit(cause);
                Ok(())
            }
            Err(halt) => Err(halt),
        }
    }

    fn note_refused(&mut self, place: u16, cause: Refusal, step: Step) -> Result<(), Halt> {
        for known in &mut self.refused {
            if known.place == place && known.cause == cause {
                known.count = known.count.saturating_add(1);
                return Ok(());
            }
        }
        let refused = FirstRefused {
            place,
            cause,
            step,
            count: 1,
        };
        self.refused.push(refused).map_err(|_| Halt::Memory)
    }

    /// The lines that were refused, the first one first.
    pub(crate) fn refused(&self) -> Result<Vec<Refused>, Halt> {
        let mut all = Vec::new(self.alloc);
        for first in &self.refused {
            let mut path = self.path(first.step.from)?;
            path.push(first.step.turn).map_err(|_| Halt::Memory)?;
            let refused = Refused {
                place: first.place,
                cause: first.cause,
                steps: first.count,
                path,
            };
            all.push(refused).map_err(|_| Halt::Memory)?;
        }
        Ok(all)
    }

    // Notes where a step leads.
    fn lead(&mut self, space: Space<'_>, standing: Standing, step: Step) -> Result<(), Halt> {
        let to = self.meet(space, standing, step)?;
        let lead = Lead {
            from: step.from,
            to,
        };
        self.leads.push(lead).map_err(|_| Halt::Memory)
    }

    // The number of a state, which is noted if it is new.
    fn meet(&mut self, space: Space<'_>, standing: Standing, step: Step) -> Result<u32, Halt> {
        write_key(&mut self.key, &space, &standing).map_err(|_| Halt::Memory)?;
        if let Some(state) = self.keys.get_index_of(self.key.as_slice()) {
            return u32::try_from(state).map_err(|_| Halt::Memory);
        }
        let state = u32::try_from(self.keys.len()).map_err(|_| Halt::Memory)?;
        self.note_key()?;
        self.steps.push(step).map_err(|_| Halt::Memory)?;
        self.note_stuck(&standing, state);
        self.keep(state, standing)?;
        Ok(state)
    }

    // Notes the key that was written last, of a new state.
    fn note_key(&mut self) -> Result<(), Halt> {
        let key = Vec::from_slice(self.alloc, &self.key).map_err(|_| Halt::Memory)?;
        self.bytes = self.bytes.saturating_add(key.len() as u64);
        self.keys.insert(key).map_err(|_| Halt::Memory)?;
        Ok(())
    }

    // Keeps where a new state comes to, if there is room.
    fn keep(&mut self, state: u32, standing: Standing) -> Result<(), Halt> {
        if self.waiting.len() < MOST_WAITING {
            let waiting = Waiting { state, standing };
            self.waiting.push_back(waiting).map_err(|_| Halt::Memory)?;
        }
        Ok(())
    }

    fn note_stuck(&mut self, standing: &Standing, state: u32) {
        if is_stuck(&standing.kernel) {
            self.stuck = self.stuck.saturating_add(1);
            self.first = self.first.or(Some(state));
        }
    }

    /// The first state in which tasks are held up for good, if one was met, with the places of the lines that they
    /// never say: the same wherever it leads. All states were seen.
    pub(crate) fn first_stop(&self, space: Space<'_>) -> Result<Option<(u32, Vec<u16>)>, Halt> {
        if self.ends.iter().all(|end| end.left.is_empty()) {
            return Ok(None);
        }
        let ahead = self.ahead(space.script.lines().len())?;
        for state in 0..self.states() {
            if ahead.is_settled(state) {
                let lines = left_ahead(space, &ahead, state)?;
                if self.are_held(space, state, &lines)? {
                    return Ok(Some((state, lines)));
                }
            }
        }
        Ok(None)
    }

    // What lies ahead of each state. Each leads to later ones alone, so the last come first.
    fn ahead(&self, lines: usize) -> Result<Ahead, Halt> {
        let mut ahead = Ahead::new(self.alloc, self.states(), lines)?;
        for end in &self.ends {
            ahead.end_at(end.state, &end.left);
        }
        for lead in self.leads.iter().rev() {
            ahead.lead(lead.from, lead.to);
        }
        Ok(ahead)
    }

    // Whether the tasks of some lines are held up in a state.
    fn are_held(&self, space: Space<'_>, state: u32, lines: &[u16]) -> Result<bool, Halt> {
        let path = self.path(state)?;
        let standing = play(space, &path)?;
        Ok(
            lines
                .iter()
                .all(|line| is_held_at(space.script.lines(), &standing, *line)),
        )
    }
}

// The places of the lines that are left wherever a state leads.
fn left_ahead(space: Space<'_>, ahead: &Ahead, state: u32) -> Result<Vec<u16>, Halt> {
    let mut places = Vec::new(space.alloc);
    for line in 0..u16::try_from(space.script.lines().len()).unwrap_or(u16::MAX) {
        if ahead.is_left(state, line) {
            places.push(line).map_err(|_| Halt::Memory)?;
        }
    }
    Ok(places)
}

// The places of the lines whose tasks are held up where no line may come; none if a moment is due, since a tick more
// might let them go on.
fn left_for_good(alloc: Global, script: &[Line], standing: &Standing) -> Result<Vec<u16>, Halt> {
    let mut left = Vec::new(alloc);
    if next_due(&standing.kernel).is_some() {
        return Ok(left);
    }
    for place in &standing.rest.left {
        if is_held_at(script, standing, *place) {
            left.push(*place).map_err(|_| Halt::Memory)?;
        }
    }
    Ok(left)
}

// Whether the task of a line is suspended, and not at an open terminate alternative (9.7.1).
fn is_held_at(script: &[Line], standing: &Standing, place: u16) -> bool {
    let task = asker_at(script, &standing.rest.names, place);
    match task.and_then(|task| standing.kernel.record(task)) {
        Some(record) => {
            !record.has_ended() && record.suspension.at > 0 && !record.suspension.quittable
        }
        None => false,
    }
}

// Where a path of the search leads. Each of its turns was found to come next.
fn play(space: Space<'_>, path: &[Turn]) -> Result<Standing, Halt> {
    let mut standing = begin(space.alloc, &space)?;
    for turn in path {
        perform(space.script.lines(), &mut standing, *turn)?;
    }
    Ok(standing)
}

// Whether the main program isn't terminated, and something could let it go on.
fn is_short(standing: &Standing) -> bool {
    !standing.kernel.finished() && !is_stuck(&standing.kernel)
}

// What may come next: the next line of each task that runs, with each of its picks; or else time passes.
fn choices(space: Space<'_>, standing: &Standing) -> Result<Vec<Turn>, Halt> {
    let script = space.script.lines();
    let mut choices = Vec::new(space.alloc);
    let mut spoken = TaskSet::new();
    let mut tick = None;
    for place in &standing.rest.left {
        match asker_at(script, &standing.rest.names, *place) {
            Some(task) if spoken.insert(task) => {
                if standing.kernel.running(task) == Some(true) {
                    add_turns(space, &mut choices, *place)?;
                }
            }
            Some(_) => {}
            None => tick = tick.or(Some(*place)),
        }
    }
    if choices.is_empty() {
        add_time(space, standing, &mut choices, tick)?;
    }
    Ok(choices)
}

// Adds that time passes, where no task may say anything: by the first tick that is left, or late.
fn add_time(
    space: Space<'_>,
    standing: &Standing,
    choices: &mut Vec<Turn>,
    tick: Option<u16>,
) -> Result<(), Halt> {
    match (space.freedom.time, tick) {
        (Time::ByTicks, Some(place)) => add_turns(space, choices, place),
        (Time::Late, _) if next_due(&standing.kernel).is_some() => {
            choices.push(Turn::Time).map_err(|_| Halt::Memory)
        }
        _ => Ok(()),
    }
}

// Adds the line at a place as it is written, and with each other pick that it may have.
fn add_turns(space: Space<'_>, choices: &mut Vec<Turn>, place: u16) -> Result<(), Halt> {
    let written = Turn::Line { place, pick: None };
    choices.push(written).map_err(|_| Halt::Memory)?;
    let script = space.script.lines();
    for pick in 0..picks_below(space.freedom.picks, script, place) {
        let pick = Some(pick);
        if may_have(space.freedom.picks, script, place, pick) {
            let turn = Turn::Line { place, pick };
            choices.push(turn).map_err(|_| Halt::Memory)?;
        }
    }
    Ok(())
}
