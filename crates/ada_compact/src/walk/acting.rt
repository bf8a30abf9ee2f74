//! Idle tasks do something that has the outcome of what they did last.

use crate::failure::NotCompacted;
use crate::walk::Walk;
use crate::walk::helpers::SERVICE;
use ada_events::limits::MOST_FAMILIES;
use ada_events::{
    Choice, Choices, Entry, Families, Member, Outcome, Patience, Pause, Pauses, Request, Tail,
    TaskNo,
};

// Delay alternatives of which the one of this number is open, and due at once; at most 8.
fn pauses_up_to(open: u8) -> Pauses {
    let mut pauses = Pauses::new();
    for number in 0..=open {
        if !pauses.is_full() {
            pauses.push(Pause {
                guard: number == open,
                duration: 0,
            });
        }
    }
    pauses
}

impl Walk<'_> {
    // Accepts the helper's call, and ends the rendezvous. One that isn't over was begun with the nest.
    fn serve_again(&mut self, task: TaskNo, by: TaskNo) -> Result<(), NotCompacted> {
        let Some(call) = self.old.call_over(task) else {
            return Ok(());
        };
        self.accept(task, call, self.old.choice(task, call))?;
        self.new.end(by, false)
    }

    // A conditional call: the server isn't waiting for it.
    fn be_cancelled(&mut self, by: TaskNo) -> Result<(), NotCompacted> {
        let server = self.server()?;
        self.new.call(by, server, SERVICE, Patience::Conditional)?;
        Ok(())
    }

    fn fail_to_call(&mut self, by: TaskNo) -> Result<(), NotCompacted> {
        let dead = self.dead()?;
        self.new.call(by, dead, SERVICE, Patience::Simple)?;
        Ok(())
    }

    fn be_served(&mut self, by: TaskNo, raised: bool) -> Result<(), NotCompacted> {
        let server = self.server()?;
        self.new.call(by, server, SERVICE, Patience::Simple)?;
        self.new.accept(server, SERVICE, 0)?;
        self.new.end(server, raised)
    }

    fn sleep(&mut self, by: TaskNo) -> Result<(), NotCompacted> {
        self.new.ask(Request::Delay { by, duration: 0 })?;
        Ok(())
    }

    fn leave_block(&mut self, by: TaskNo) -> Result<(), NotCompacted> {
        self.new.ask(Request::Open { by })?;
        self.new.ask(Request::Close { by })?;
        Ok(())
    }

    fn activate_helper(&mut self, by: TaskNo, ok: bool) -> Result<(), NotCompacted> {
        let frame = self.new.frame(by)?;
        let helper = self.new.create(by, frame, Families::new())?;
        self.new.activate(by, helper)?;
        self.new.elaborate(helper, ok)?;
        if ok {
            self.new.complete(helper)?;
        }
        Ok(())
    }

    // Unless the latest thing that the task did in the new kernel was to activate a helper.
    fn activate_well(&mut self, by: TaskNo) -> Result<(), NotCompacted> {
        if self.new.kernel().outcome(by) == Some(Outcome::ActivationOk) {
            return Ok(());
        }
        self.activate_helper(by, true)
    }

    // Which families of the task's entries it is in an accept statement for.
    fn served_families(&self, task: TaskNo) -> [bool; MOST_FAMILIES] {
        let mut served = [false; MOST_FAMILIES];
        for place in 0..self.old.depth(task) {
            if let Some(Member::Rendezvous(call)) = self.old.member(task, place)
                && let Some(entry) = self.old.entry(call)
                && let Some(flag) = served.get_mut(usize::from(entry.family))
            {
                *flag = true;
            }
        }
        served
    }

    // The first family that the task may wait for.
    fn free_family(&self, task: TaskNo) -> Option<u8> {
        let served = self.served_families(task);
        let families = self.old.families(task).len() as u8;
        (0..families).find(|family| served.get(usize::from(*family)) == Some(&false))
    }

    // A wait with a closed choice, whose index is never checked, ends by its tail.
    fn wait_in_vain(&mut self, task: TaskNo, by: TaskNo, tail: Tail) -> Result<(), NotCompacted> {
        let family = self.free_family(task).ok_or(NotCompacted::Unnamed)?;
        let choices = Choices::from_slice(&[Choice {
            guard: false,
            entry: Entry { family, index: 0 },
        }]);
        self.new.ask(Request::Wait {
            by,
            choices,
            tail,
            pick: 0,
        })?;
        Ok(())
    }

    fn bring_about(&mut self, task: TaskNo, outcome: Outcome) -> Result<(), NotCompacted> {
        let by = self.names.copy(task)?;
        match outcome {
            Outcome::Accepted { .. } => self.serve_again(task, by),
            Outcome::Served => self.be_served(by, false),
            Outcome::Raised => self.be_served(by, true),
            Outcome::TaskingError => self.fail_to_call(by),
            Outcome::Cancelled => self.be_cancelled(by),
            Outcome::TookElse => self.wait_in_vain(task, by, Tail::Otherwise),
            Outcome::TookDelay(number) => {
                self.wait_in_vain(task, by, Tail::Delays(pauses_up_to(number)))
            }
            Outcome::ProgramError => self.wait_in_vain(task, by, Tail::Nothing),
            Outcome::Awake => self.sleep(by),
            Outcome::ActivationOk => self.activate_well(by),
            Outcome::ActivationFailed => self.activate_helper(by, false),
            Outcome::BlockLeft => self.leave_block(by),
            Outcome::Nothing | Outcome::Held | Outcome::Done | Outcome::Dead => Ok(()),
        }
    }

    /// Brings about the outcome of the task, if it is idle, once.
    pub(crate) fn act(&mut self, task: TaskNo) -> Result<(), NotCompacted> {
        let Some(outcome) = self.old.outcome(task) else {
            return Ok(());
        };
        match self.progress.get_mut(usize::from(task.0)) {
            Some(progress) if !progress.has_acted => progress.has_acted = true,
            _ => return Ok(()),
        }
        self.bring_about(task, outcome)
    }

    /// Brings about the outcomes of all idle tasks.
    pub(crate) fn act_all(&mut self) -> Result<(), NotCompacted> {
        for number in 0..self.old.tasks() {
            self.act(TaskNo(number))?;
        }
        Ok(())
    }
}
