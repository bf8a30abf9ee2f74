//! What is left of a script, and which of its lines may come next.

ghost use Rattle.std.specs.Prelude.{◌≡◌, ◌∷◌, ◌++◌, [], false, if◌then◌else◌};
ghost use Rattle.std.specs.Prelude.{IfOk, OnOk, option_map, true, is_some};
ghost use Rattle.std.specs.Option.{option_and_then};
ghost use Rattle.ada_events.specs.declared.names.TaskNo.{TaskNo as Number};
ghost use Rattle.ada_events.specs.Asks.{asker as asks};
ghost use Rattle.ada_statements.specs.Binding.{request_of};
ghost use Rattle.ada_statements.specs.Scope.{Scope};
ghost use Rattle.ada_script.specs.Script.{scope_of};
ghost use Rattle.ada_explore.specs.Scripts as scripts;

use crate::turns::{may_have, with_pick};
use crate::{Freedom, Halt, Time, Turn};
use ada_events::{Request, TaskNo};
use ada_kernel::Kernel;
use ada_script::{Line, Names, Statement, request};
use ada_waiting::next_due;
use std::alloc::Global;
use std::marker::Model;

/// What is left of a script after a schedule.
#[derive(Drop)]
pub struct Rest {
    /// The places of the lines that nobody said yet, from 0, in their order.
    pub left: Vec<u16>,
    /// The names of the script, with what they are bound to.
    pub names: Names,
}

impl Model for Rest {
    ghost use Rattle.ada_explore.specs.Scripts.{Rest as RestValue};

    ghost Value = { RestValue };

    ghost view = { λ r. record { left = r.left.items; names = r.names } };
}

// The task that a statement names as the one that asks; none for a tick, and for an attribute that is shown.
#[tactic(auto, unfolding(ada_events::specs::Asks::asker))]
fn asker(statement: &Statement, names: &Names) -> Option<TaskNo>
    ensures { option_map (λ (t : Number). t.0) result
        ≡ option_and_then asks (request_of names.now statement.now) }
{
    match statement {
        Statement::Tick { .. }
        | Statement::ShowCallable { .. }
        | Statement::ShowTerminated { .. }
        | Statement::ShowCount { .. } => None,
        Statement::Open { by, .. }
        | Statement::Create { by, .. }
        | Statement::Activate { by, .. }
        | Statement::Up { by }
        | Statement::Fail { by }
        | Statement::Call { by, .. }
        | Statement::CallWithin { by, .. }
        | Statement::Try { by, .. }
        | Statement::Accept { by, .. }
        | Statement::Select { by, .. }
        | Statement::End { by }
        | Statement::Raise { by }
        | Statement::Close { by }
        | Statement::Delay { by, .. }
        | Statement::Complete { by }
        | Statement::Abort { by, .. } => Some(names.task(by)),
    }
}

// The task that asks at a place.
pub(crate) fn asker_at(script: &[Line], names: &Names, place: u16) -> Option<TaskNo>
    ensures { option_map (λ (t : Number). t.0) result
        ≡ scripts.asker_at script.now names.now place }
{
    match script.get(usize::from(place)) {
        Some(line) => asker(&line.statement, names),
        None => None,
    }
}

// What the line at a place asks for.
fn request_at(script: &[Line], names: &Names, place: u16) -> Option<Request>
    ensures { result ≡ scripts.request_at script.now names.now place }
{
    match script.get(usize::from(place)) {
        Some(line) => request(&line.statement, names),
        None => None,
    }
}

// Whether the line at a place is searched: it asks for something, and isn't a tick if time passes late.
#[tactic(auto, unfolding(ada_statements::specs::Binding::is_show))]
fn is_searched(script: &[Line], time: Time, place: u16) -> bool
    ensures { (names : Scope) → result
        ≡ scripts.is_searched time (scripts.request_at script.now names place) }
{
    match script.get(usize::from(place)) {
        Some(line) => match line.statement {
            Statement::ShowCallable { .. }
            | Statement::ShowTerminated { .. }
            | Statement::ShowCount { .. } => false,
            Statement::Tick { .. } => time == Time::ByTicks,
            _ => true,
        },
        None => false,
    }
}

impl Rest {
    /// What is left at the beginning.
    pub(crate) fn new(
        alloc: Global,
        script: &[Line],
        freedom: Freedom,
        names: Names,
    ) -> Result<Self, Halt>
        requires { names ≡ scope_of script.now }
        ensures { IfOk result (λ rest.
            rest ≡ (scripts.scripted freedom script.now).start) }
    {
        let left = asking(alloc, script, freedom, &names)?;
        Ok(Rest { left, names })
    }

    /// A copy, in memory of `alloc`, which goes on by itself.
    pub(crate) fn copy(&self, alloc: Global) -> Result<Self, Halt>
        ensures { IfOk result (λ copy. copy ≡ self.now) }
    {
        let left = Vec::from_slice(alloc, &self.left).map_err(|_| Halt::Memory)?;
        let names = self.names.copy().map_err(|_| Halt::Memory)?;
        Ok(Rest { left, names })
    }

    /// The places of the lines that nobody said yet, from 0, in their order.
    pub(crate) fn left(&self) -> &[u16]
        ensures { result.now ≡ self.now.left }
    {
        &self.left
    }

    /// What the names of the script are bound to.
    pub(crate) fn names(&self) -> &Names
        ensures { result.now ≡ self.now.names }
    {
        &self.names
    }

    /// Whether the same lines are left.
    pub(crate) fn leaves_same(&self, other: &Rest) -> bool
        ensures { result ≡ true → self.now.left ≡ other.now.left }
    {
        self.left == other.left
    }

    // Whether this task asks at a place; without a task whether a tick is there.
    fn asks_at(&self, script: &[Line], place: u16, by: Option<TaskNo>) -> bool
        ensures { result ≡ scripts.is_same (scripts.asker_at script.now self.now.names place)
            (option_map (λ (t : Number). t.0) by) }
    {
        match (asker_at(script, &self.names, place), by) {
            (Some(task), Some(other)) => task.0 == other.0,
            (None, None) => true,
            _ => false,
        }
    }

    // The first of the lines that are left at which this task asks; without a task the first tick.
    fn next_of(&self, script: &[Line], by: Option<TaskNo>) -> Option<u16>
        ensures { result ≡ scripts.next_of script.now self.now
            (option_map (λ (t : Number). t.0) by) }
    {
        for place in &self.left {
            if self.asks_at(script, *place, by) {
                return Some(*place);
            }
        }
        None
    }

    // Whether the line is the next one of whoever says it.
    fn is_next(&self, script: &[Line], place: u16) -> bool
        ensures { result ≡ scripts.is_next script.now self.now place }
    {
        self.next_of(script, asker_at(script, &self.names, place)) == Some(place)
    }

    // Whether a task that runs may say the line, which is its next one.
    fn may_say(&self, script: &[Line], kernel: &Kernel, place: u16) -> bool
        ensures { result ≡ scripts.may_say script.now kernel.now self.now place }
    {
        runs(kernel, asker_at(script, &self.names, place)) && self.is_next(script, place)
    }

    // Whether no task may say anything.
    fn all_silent(&self, script: &[Line], kernel: &Kernel) -> bool
        ensures { result ≡ scripts.all_silent script.now kernel.now self.now }
    {
        for place in &self.left {
            if self.may_say(script, kernel, *place) {
                return false;
            }
        }
        true
    }

    /// Whether the line at a place may come next: its task runs, and it is the next one of that; or it is the first
    /// tick that is left, and no task may say anything.
    pub fn may_come(&self, script: &[Line], kernel: &Kernel, place: u16) -> bool
        ensures { result ≡ scripts.may_come script.now kernel.now self.now place }
    {
        if asker_at(script, &self.names, place).is_some() {
            self.may_say(script, kernel, place)
        } else {
            self.is_next(script, place) && self.all_silent(script, kernel)
        }
    }

    /// Whether a turn may be taken: its line may come, and may have its pick; or no task may say anything, and time
    /// passes late.
    pub(crate) fn may_take(
        &self,
        script: &[Line],
        freedom: Freedom,
        kernel: &Kernel,
        turn: Turn,
    ) -> bool
        ensures { result ≡ scripts.may_take freedom script.now kernel.now self.now turn }
    {
        match turn {
            Turn::Line { place, pick } => {
                self.may_come(script, kernel, place) && may_have(freedom.picks, script, place, pick)
            }
            Turn::Time => freedom.time == Time::Late && self.all_silent(script, kernel),
        }
    }

    /// What a turn asks for, if it may be taken.
    pub(crate) fn request_in(&self, script: &[Line], kernel: &Kernel, turn: Turn) -> Option<Request>
        ensures { result ≡ scripts.request_in script.now kernel.now self.now turn }
    {
        match turn {
            Turn::Line { place, pick } => {
                let request = request_at(script, &self.names, place)?;
                Some(with_pick(pick, request))
            }
            Turn::Time => {
                let now = next_due(kernel)?;
                Some(Request::Tick { now })
            }
        }
    }

    /// Takes the line of a turn out of what is left.
    pub(crate) fn take(&mut self, turn: Turn)
        ensures { self.new ≡ scripts.rest (scripts.left_after turn self.old.left) self.old.names }
    {
        match turn {
            Turn::Line { place, .. } => take_out(&mut self.left, place),
            Turn::Time => {}
        }
    }

    /// Binds the names of a turn's line, whose event stands at a position.
    pub(crate) fn bind(&mut self, script: &[Line], turn: Turn, at: u32, made: TaskNo)
        ensures { self.new ≡ scripts.rest self.old.left
            (scripts.names_after script.now self.old.names turn at made) }
    {
        let line = match turn {
            Turn::Line { place, .. } => script.get(usize::from(place)),
            Turn::Time => None,
        };
        if let Some(line) = line {
            self.names.bind(&line.statement, at, made);
        }
    }
}

// Whether a task exists and runs.
fn runs(kernel: &Kernel, task: Option<TaskNo>) -> bool
    ensures { result ≡ scripts.runs kernel.now (option_map (λ (t : Number). t.0) task) }
{
    match task {
        Some(task) => kernel.running(task) == Some(true),
        None => false,
    }
}

// A place, which is below 4,096 in each script that was read.
fn short(place: usize) -> Result<u16, Halt>
    ensures { IfOk result (λ short. short ≡ place) }
{
    u16::try_from(place).map_err(|_| Halt::TooLong)
}

// Puts a place after others, if it is to be kept.
fn keep(places: &mut Vec<u16>, place: u16, is_kept: bool) -> Result<(), Halt>
    ensures { OnOk result (places.new.items
        ≡ places.old.items ++ (if is_kept then place ∷ [] else [])) }
{
    if is_kept {
        places.push(place).map_err(|_| Halt::Memory)?;
    }
    Ok(())
}

// The places of the lines that are searched.
fn asking(alloc: Global, script: &[Line], freedom: Freedom, names: &Names) -> Result<Vec<u16>, Halt>
    requires { names.now ≡ scope_of script.now }
    ensures { IfOk result (λ places. places.items ≡ scripts.asking freedom script.now) }
{
    let mut places = Vec::new(alloc);
    for place in 0..script.len() {
        let place = short(place)?;
        keep(&mut places, place, is_searched(script, freedom.time, place))?;
    }
    Ok(places)
}

// The lines without the one at a place.
fn take_out(left: &mut Vec<u16>, place: u16)
    ensures { left.new.items ≡ scripts.without place left.old.items }
{
    left.retain(|other| *other != place);
}
