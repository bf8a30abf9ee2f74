//! A kernel and the plain one side by side: the same requests, and all that both answer compared.

use ada_events::limits::MOST_FAMILIES;
use ada_events::{Entry, Outcome, Refusal, Request, TaskNo};
use ada_kernel::Kernel;
use ada_reference::{
    PlainKernel, board, families, is_finished, known_callable, known_outcome, known_running,
    known_terminated, own_count, slot, tasks_in,
};
use ada_test_requests::SINGLE;
use std::alloc::Global;
use std::process::Abort;

/// Both kernels, of one journal.
#[derive(Drop)]
pub struct Both {
    kernel: Kernel,
    plain: PlainKernel,
}

impl Both {
    /// Both kernels with an empty journal.
    pub fn new(alloc: Global) -> Result<Self, Refusal> {
        let plain = PlainKernel::new(alloc)?;
        let kernel = Kernel::new(alloc)?;
        Ok(Both { kernel, plain })
    }

    /// The plain kernel, whose answers are those that are wanted.
    pub fn plain(&self) -> &PlainKernel {
        &self.plain
    }

    /// How many tasks there are.
    pub fn tasks(&self) -> u16 {
        self.kernel.tasks()
    }

    /// The outcome of a task.
    pub fn outcome(&self, task: TaskNo) -> Option<Outcome> {
        self.kernel.outcome(task)
    }

    /// Makes one request of both, which is given twice, and compares their answers and journals.
    pub fn step<R: Abort>(
        &mut self,
        rt: &R,
        request: Request,
        again: Request,
    ) -> Result<u32, Refusal> {
        let wanted = self.plain.step(request);
        assert_eq!(rt; self.kernel.step(again), wanted, "the answer");
        let events = self.plain.journal().as_slice();
        assert!(rt; self.kernel.journal().as_slice() == events, "the journal");
        wanted
    }

    /// Compares the answers to all questions.
    pub fn compare<R: Abort>(&self, rt: &R) {
        let events = self.plain.journal().as_slice();
        let tasks = tasks_in(events);
        assert_eq!(rt; self.kernel.tasks(), tasks, "tasks");
        assert_eq!(rt; self.kernel.finished(), is_finished(events), "finished");
        assert!(rt; self.kernel.board() == board(events), "the board");
        for number in 0..=tasks {
            let task = TaskNo(number);
            self.compare_task(rt, task);
            for place in 0..=self.families_of(task) {
                self.compare_family(rt, task, place);
            }
        }
        self.compare_task(rt, TaskNo(u16::MAX));
    }

    /// How many families of entries a task has, at most 16.
    fn families_of(&self, task: TaskNo) -> u8 {
        let declared = families(self.plain.journal().as_slice(), task);
        declared.len().min(MOST_FAMILIES) as u8
    }

    fn compare_task<R: Abort>(&self, rt: &R, task: TaskNo) {
        let events = self.plain.journal().as_slice();
        assert_eq!(rt;
            self.kernel.outcome(task),
            known_outcome(events, task),
            "outcome"
        );
        assert_eq!(rt;
            self.kernel.callable(task),
            known_callable(events, task),
            "callable"
        );
        assert_eq!(rt;
            self.kernel.terminated(task),
            known_terminated(events, task),
            "terminated"
        );
        assert_eq!(rt;
            self.kernel.running(task),
            known_running(events, task),
            "running"
        );
    }

    /// Compares what is answered about the first entries of a family, its last and those beside it.
    fn compare_family<R: Abort>(&self, rt: &R, task: TaskNo, place: u8) {
        let events = self.plain.journal().as_slice();
        let declared = families(events, task).get(usize::from(place));
        let family = declared.copied().unwrap_or(SINGLE);
        for index in [
            family.low.wrapping_sub(1),
            family.low,
            family.low.wrapping_add(1),
            family.high,
            family.high.wrapping_add(1),
        ] {
            self.compare_entry(
                rt,
                task,
                Entry {
                    family: place,
                    index,
                },
            );
        }
    }

    fn compare_entry<R: Abort>(&self, rt: &R, task: TaskNo, entry: Entry) {
        let events = self.plain.journal().as_slice();
        assert_eq!(rt;
            self.kernel.count(task, entry),
            own_count(events, task, entry),
            "count"
        );
        assert_eq!(rt;
            self.kernel.slot(task, entry),
            slot(events, task, entry),
            "slot"
        );
    }
}
