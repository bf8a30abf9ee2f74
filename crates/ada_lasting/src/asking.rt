//! What a request in names that last asks of the present journal.

ghost use Rattle.std.specs.Prelude.{◌≡◌, map};
ghost use Rattle.std.specs.Option.{unwrap_or};
ghost use Rattle.ada_events.specs.Forced.{task_no};
ghost use Rattle.ada_events.specs.Asks.{body_task};
ghost use Rattle.ada_standing.specs.Asking.{asked_master, asked_task, renamed_request};
ghost use Rattle.ada_lasting.specs.Meaning.{meant, meant_master};
ghost use Rattle.ada_lasting.specs.internal.Nameable.{all_noted, noted, noted_by};
ghost use Rattle.ada_lasting.specs.Naming.{renaming_of};

use crate::names::Names;
use crate::requests::{LastingMaster, LastingRequest, LastingTasks};
use ada_events::{Master, Request, TaskNo, Tasks};

/// No task: a journal has fewer.
const NOBODY: TaskNo = TaskNo(65_535);

impl Names {
    // The task for a lasting name, nobody for one that has none. A name that was given up is noted.
    #[inline(always)]
    fn asked_task(&self, lasting: u64, given_up: &mut Option<u64>) -> TaskNo
        ensures task { result ≡ asked_task (renaming_of self.now) (task_no lasting) }
        ensures noted { given_up.new ≡ noted self.now lasting given_up.old }
    {
        if let Some(task) = self.task(lasting) {
            return task;
        }
        if lasting < self.made() {
            *given_up = Some(lasting);
        }
        NOBODY
    }

    #[tactic(auto, unfolding(ada_standing::specs::Asking::asked_master, crate::specs::internal::Nameable::all_noted))]
    #[inline(always)]
    fn asked_master(&self, lasting: LastingMaster, given_up: &mut Option<u64>) -> Master
        ensures master { result
            ≡ asked_master (renaming_of self.now) (meant_master lasting) }
        ensures noted { given_up.new
            ≡ all_noted self.now (body_task (meant_master lasting)) given_up.old }
    {
        match lasting {
            LastingMaster::Body(task) => Master::Body(self.asked_task(task, given_up)),
            LastingMaster::Block(position) => Master::Block(self.position(position).unwrap_or(0)),
        }
    }

    #[tactic(auto, unfolding(crate::specs::internal::Nameable::all_noted))]
    fn asked_tasks(&self, lasting: &LastingTasks, given_up: &mut Option<u64>) -> Tasks
        ensures tasks { result
            ≡ map (asked_task (renaming_of self.now)) (map task_no lasting.now) }
        ensures noted { given_up.new
            ≡ all_noted self.now (map task_no lasting.now) given_up.old }
    {
        let mut tasks = Tasks::new();
        for task in lasting.as_slice() {
            tasks.push(self.asked_task(*task, given_up));
        }
        tasks
    }

    /// What a request asks of the present journal. A task that it names, and that was given up, is noted.
    // No result holds the request, which would move it once more.
    #[tactic(auto, unfolding(ada_standing::specs::Asking::renamed_request, crate::specs::Meaning::meant, crate::specs::internal::Nameable::noted_by, crate::specs::internal::Nameable::all_noted, ada_events::specs::Asks::asker, ada_events::specs::Asks::named_tasks))]
    #[inline(always)]
    pub(crate) fn asked(&self, request: LastingRequest, given_up: &mut Option<u64>) -> Request
        ensures asked { result ≡ renamed_request (renaming_of self.now) (meant request) }
        ensures noted { given_up.new ≡ noted_by self.now (meant request) given_up.old }
    {
        let by = match request.by() {
            Some(by) => self.asked_task(by, given_up),
            None => NOBODY,
        };
        match request {
            LastingRequest::Open { .. } => Request::Open { by },
            LastingRequest::Create {
                master,
                families,
                ..
            } => Request::Create {
                by,
                master: self.asked_master(master, given_up),
                families,
            },
            LastingRequest::Activate { tasks, .. } => Request::Activate {
                by,
                tasks: self.asked_tasks(&tasks, given_up),
            },
            LastingRequest::Elaborated { ok, .. } => Request::Elaborated { by, ok },
            LastingRequest::Call {
                callee,
                entry,
                patience,
                ..
            } => Request::Call {
                by,
                callee: self.asked_task(callee, given_up),
                entry,
                patience,
            },
            LastingRequest::Wait {
                choices,
                tail,
                pick,
                ..
            } => Request::Wait {
                by,
                choices,
                tail,
                pick,
            },
            LastingRequest::Delay { duration, .. } => Request::Delay { by, duration },
            LastingRequest::End { raised, .. } => Request::End { by, raised },
            LastingRequest::Close { .. } => Request::Close { by },
            LastingRequest::Complete { .. } => Request::Complete { by },
            LastingRequest::Abort { tasks, .. } => Request::Abort {
                by,
                tasks: self.asked_tasks(&tasks, given_up),
            },
            LastingRequest::Tick { now } => Request::Tick { now },
        }
    }
}
