//! Whether the same is left of a script after two schedules, but for names.
ghost use Rattle.std.specs.Prelude.{◌≡◌};
ghost use Rattle.std.specs.List.{list_all};
ghost use Rattle.ada_standing.specs.Names.{renaming_of};
ghost use Rattle.ada_statements.specs.Binding.{task_of, master_of};
ghost use Rattle.ada_explore.specs.Sameness as sameness;

use crate::Rest;
use ada_events::{Master, TaskNo};
use ada_script::{Line, Name, Names, Statement};
use ada_standing::Renaming;

/// A number that no task has.
const NO_TASK: u16 = 65_535;

/// What names are bound to after two schedules, and the names that lead from the one to the other.
#[derive(Clone, Copy)]
struct Scopes<'a> {
    old: &'a Names,
    new: &'a Names,
    names: &'a Renaming,
}

impl Scopes<'_> {
    // Whether the new task stands for the old one, or both are no task.
    fn is_same_task(&self, old: TaskNo, new: TaskNo) -> bool
        ensures { result ≡ sameness.same_task (renaming_of self.now.names.now) old new }
    {
        match self.names.task(old) {
            Some(named) => old.0 != NO_TASK && new.0 != NO_TASK && named.0 == new.0,
            None => old.0 == NO_TASK && new.0 == NO_TASK,
        }
    }

    // Whether the new position stands for the old one, or both are no position.
    fn is_same_position(&self, old: u32, new: u32) -> bool
        ensures { result
            ≡ sameness.stands_for (renaming_of self.now.names.now).position 0 old new }
    {
        match self.names.position(old) {
            Some(named) => old != 0 && new != 0 && named == new,
            None => old == 0 && new == 0,
        }
    }

    // Whether the new master stands for the old one.
    fn is_same_master(&self, old: Master, new: Master) -> bool
        ensures { result ≡ sameness.same_master (renaming_of self.now.names.now) old new }
    {
        match (old, new) {
            (Master::Body(task), Master::Body(body)) => self.is_same_task(task, body),
            (Master::Block(block), Master::Block(place)) => self.is_same_position(block, place),
            _ => false,
        }
    }

    // Whether a name is bound to tasks of which the new one stands for the old one.
    fn names_same_task(&self, name: &Name) -> bool
        ensures { result ≡ sameness.same_task (renaming_of self.now.names.now)
            (task_of self.now.old.now name.now) (task_of self.now.new.now name.now) }
    {
        self.is_same_task(self.old.task(name), self.new.task(name))
    }

    // The same of some names.
    fn name_same_tasks(&self, names: &[Name]) -> bool
        ensures { result ≡ list_all
            (sameness.names_same_task (renaming_of self.now.names.now) self.now.old.now
            self.now.new.now)
            names.now }
    {
        names.iter().all(|name| self.names_same_task(name))
    }

    // Whether a name is bound to masters of which the new one stands for the old one.
    fn names_same_master(&self, name: &Name) -> bool
        ensures { result ≡ sameness.same_master (renaming_of self.now.names.now)
            (master_of self.now.old.now name.now) (master_of self.now.new.now name.now) }
    {
        self.is_same_master(self.old.master(name), self.new.master(name))
    }

    // Whether the tasks that a statement names are alike.
    fn says_same_tasks(&self, statement: &Statement) -> bool
        ensures { result ≡ list_all
            (sameness.names_same_task (renaming_of self.now.names.now) self.now.old.now
            self.now.new.now)
            (sameness.tasks_named statement.now) }
    {
        match statement {
            Statement::Tick { .. }
            | Statement::ShowCallable { .. }
            | Statement::ShowTerminated { .. }
            | Statement::ShowCount { .. } => true,
            Statement::Call { by, callee, .. }
            | Statement::CallWithin { by, callee, .. }
            | Statement::Try { by, callee, .. } => {
                self.names_same_task(by) && self.names_same_task(callee)
            }
            Statement::Activate { by, tasks } | Statement::Abort { by, tasks } => {
                self.names_same_task(by) && self.name_same_tasks(tasks.as_slice())
            }
            Statement::Open { by, .. }
            | Statement::Create { by, .. }
            | Statement::Up { by }
            | Statement::Fail { by }
            | Statement::Accept { by, .. }
            | Statement::Select { by, .. }
            | Statement::End { by }
            | Statement::Raise { by }
            | Statement::Close { by }
            | Statement::Delay { by, .. }
            | Statement::Complete { by } => self.names_same_task(by),
        }
    }

    // Whether the masters under which a statement makes a task are alike.
    fn says_same_master(&self, statement: &Statement) -> bool
        ensures { result ≡ list_all
            (sameness.names_same_master (renaming_of self.now.names.now) self.now.old.now
            self.now.new.now)
            (sameness.masters_named statement.now) }
    {
        match statement {
            Statement::Create { under, .. } => self.names_same_master(under),
            _ => true,
        }
    }

    // Whether the names in a statement stand for the same.
    fn says_alike(&self, statement: &Statement) -> bool
        ensures { result ≡ sameness.says_alike (renaming_of self.now.names.now) self.now.old.now
            self.now.new.now statement.now }
    {
        self.says_same_tasks(statement) && self.says_same_master(statement)
    }

    // Whether those in the line at a place do.
    fn says_alike_at(&self, script: &[Line], place: u16) -> bool
        ensures { result ≡ sameness.says_alike_at script.now (renaming_of self.now.names.now)
            self.now.old.now self.now.new.now place }
    {
        match script.get(usize::from(place)) {
            Some(line) => self.says_alike(&line.statement),
            None => true,
        }
    }

    // Whether those in the lines at some places do.
    fn say_alike(&self, script: &[Line], places: &[u16]) -> bool
        ensures { result ≡ list_all (sameness.says_alike_at script.now
            (renaming_of self.now.names.now) self.now.old.now self.now.new.now) places.now }
    {
        places
            .iter()
            .all(|place| self.says_alike_at(script, *place))
    }
}

/// Whether the names in the lines that are left of a script stand for the same in a second rest of it, under these
/// names.
pub(crate) fn say_alike(script: &[Line], old: &Rest, new: &Rest, names: &Renaming) -> bool
    ensures { result ≡ list_all (sameness.says_alike_at script.now
        (renaming_of names.now) old.now.names new.now.names) old.now.left }
{
    let scopes = Scopes {
        old: old.names(),
        new: new.names(),
        names,
    };
    scopes.say_alike(script, old.left())
}
