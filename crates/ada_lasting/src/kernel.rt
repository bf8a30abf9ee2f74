//! A kernel that lives on.

ghost use Rattle.std.specs.Prelude.{◌≡◌, ◌≢◌, ◌⊎◌, ℕ, true, IfErr, IfOk, Ok, OnErr, OnOk, List, [], None, Some, is_some, reverse};
ghost use Rattle.std.specs.Bool.{then_some};
ghost use Rattle.ada_events.specs.declared.event.Event.{Event as Happening};
ghost use Rattle.ada_events.specs.Attributes.{is_callable, is_finished, own_count};
ghost use Rattle.std.specs.Option.{option_map};
ghost use Rattle.ada_events.specs.Phases.{is_running, is_terminated};
ghost use Rattle.ada_events.specs.declared.names.TaskNo.{TaskNo as Task};
ghost use Rattle.ada_events.specs.declared.refusal.Refusal.TheVariants.{OutOfMemory};
ghost use Rattle.ada_events.specs.Limits.{is_full};
ghost use Rattle.ada_lasting.specs.declared.failure.NotDone.TheVariants.{Refused};
ghost use Rattle.ada_lasting.specs.internal.Present.{IsPresent};
ghost use Rattle.ada_lasting.specs.Following.{Follows, IsStepped, LivesOn, before_shown};
ghost use Rattle.ada_lasting.specs.LastRequest.{first_since};
ghost use Rattle.ada_lasting.specs.GivingUp.{GivesUpOnly};
ghost use Rattle.ada_lasting.specs.Meaning.{meant, meant_master};
ghost use Rattle.ada_lasting.specs.internal.Mastering.{asked_under};
ghost use Rattle.ada_lasting.specs.internal.Causes.{IsRoomless};
ghost use Rattle.ada_lasting.specs.Naming.{AreOneToOne, found};
ghost use Rattle.ada_lasting.specs.Refusing.{IsCause, IsMadeShorter, IsRefused, IsUncompacted, IsUncounted, IsUnreleased, creates};

use crate::comparing::are_same_kernels;
use crate::ended::{Flags, first_ended, read_ended, take_ended};
use crate::failure::NotDone;
use crate::masters::Masters;
use crate::moving::NotMoved;
use crate::names::Names;
use crate::requests::{LastingMaster, LastingRequest};
use ada_compact::{Compacted, NotCompacted, compact};
use ada_events::limits::{MOST_APPENDED, MOST_EVENTS, MOST_SLOTS, MOST_TASKS};
use ada_events::{Entry, Event, Family, Refusal, TaskNo};
use ada_kernel::Kernel;
use std::alloc::Global;
use std::marker::Model;

/// A kernel whose journal is without an end.
#[derive(Drop)]
pub struct LongKernel {
    kernel: Kernel,
    names: Names,
    masters: Masters,
    alloc: Global,
    // The number of events that its maker chose, and the one from which on the present journal is made shorter next.
    threshold: u32,
    due: u32,
    // How many events it had when that was tried last, memory aside; 0 if a task was released since.
    tried: u32,
    // How many events the present journal had before the last request.
    group: u32,
    // Which of its tasks were terminated before that; of no use if no events are shown. And room for those that are so
    // before the next request.
    ended: Flags,
    spare: Flags,
}

impl Model for LongKernel {
    ghost use Rattle.std.specs.Prelude.{◌≡◌, ◌≤◌, length};
    ghost use Rattle.ada_lasting.specs.Following.{LivesOn, Long, seen};
    ghost use Rattle.ada_lasting.specs.internal.Ended.{KnowsEnded};

    ghost Value = { Long };

    ghost view = { λ k. seen k.kernel k.names k.group k.masters };

    ghost invariant = { λ k. (length k.kernel ≡ k.names.until) × (k.group ≤ length k.kernel)
        × KnowsEnded k.ended k.group k.kernel
        × LivesOn (seen k.kernel k.names k.group k.masters) };
}

impl LastingRequest {
    // The master of the task that it makes.
    #[tactic(auto, unfolding(crate::specs::Meaning::meant))]
    #[inline(always)]
    fn master(&self) -> Option<LastingMaster>
        ensures made { is_some result ≡ creates (meant self.now) }
        ensures under { option_map meant_master result ≡ asked_under (meant self.now) }
    {
        match self {
            LastingRequest::Create { master, .. } => Some(*master),
            _ => None,
        }
    }

    // How many entries the task has that it makes.
    fn entries(&self) -> u64 {
        match self {
            LastingRequest::Create { families, .. } => Family::entries_in(families.as_slice()),
            _ => 0,
        }
    }
}

impl LongKernel {
    /// A kernel with an empty journal. The present journal is made shorter when it has `threshold` events, or twice as
    /// many as it had after it was made shorter last, if these are more. If that fails, it is tried again when it has
    /// twice as many, or `threshold` more. Fails with `OutOfMemory` alone.
    pub fn new(alloc: Global, threshold: u32) -> Result<Self, NotDone>
        ensures ok { IfOk result (λ kernel. Follows [] kernel) }
        ensures err { IfErr result (λ cause. cause ≡ Refused OutOfMemory) }
    {
        let kernel = match Kernel::new(alloc) {
            Ok(kernel) => kernel,
            Err(cause) => return Err(NotDone::Refused(cause)),
        };
        let Ok(names) = Names::new(alloc) else {
            return Err(NotDone::Refused(Refusal::OutOfMemory));
        };
        Ok(LongKernel {
            kernel,
            names,
            masters: Masters::new(alloc),
            alloc,
            threshold,
            due: threshold,
            tried: 0,
            group: 0,
            ended: [false; MOST_TASKS],
            spare: [false; MOST_TASKS],
        })
    }

    /// Answers a request. Accepted, its event is appended to the journal without an end, and then exactly the steps
    /// that it forces, in order, and the answer is the position of its event, from 1. Refused, nothing is changed.
    ///
    /// Before the request is asked, the present journal may be made shorter, as by [`LongKernel::compact`]. It stays so
    /// if the request is refused, for a limit too, and the tasks that were given up by that stay without names.
    // Inlined, as all that it does for each request, so that no request is copied on its way to the present kernel.
    #[inline(always)]
    pub fn step(&mut self, request: LastingRequest) -> Result<u64, NotDone>
        ensures ok { IfOk result (λ at. (journal : List Happening) → Follows journal self.old
            → IsStepped journal (meant request) at self.new) }
        ensures err { IfErr result (λ cause. (journal : List Happening)
            → Follows journal self.old
            → IsRefused journal (meant request) cause self.old self.new) }
        ensures given_up { (journal : List Happening) → Follows journal self.old
            → GivesUpOnly journal self.old.names self.new.names }
    {
        if let Err(cause) = self.make_room(&request) {
            return Err(cause);
        }
        self.ask(request)
    }

    /// Makes the present journal shorter; or longer, if little of it is over. Terminated tasks are given up whose
    /// masters are gone, and no others: a master is gone if the task is terminated whose body it is, or if no task that
    /// lives is within the block (9.4).
    ///
    /// # Errors
    ///
    /// [`NotDone::NotCompacted`] if helpers have no room, or for want of memory; [`NotDone::NoMoreNames`]. Nothing has
    /// changed then.
    #[tactic(auto, using(crate::proofs::GivingUp::same_names))]
    pub fn compact(&mut self) -> Result<(), NotDone>
        ensures follows { (journal : List Happening) → Follows journal self.old
            → Follows journal self.new }
        ensures given_up { (journal : List Happening) → Follows journal self.old
            → GivesUpOnly journal self.old.names self.new.names }
        ensures shorter { OnOk result (IsMadeShorter self.old self.new) }
        ensures err { OnErr result (self.new ≡ self.old) }
        ensures want { IfErr result (λ cause. IsUncompacted self.old.names cause) }
    {
        self.known();
        let Ok(kept) = self
            .masters
            .kept(self.alloc, &self.kernel.view(), &self.names)
        else {
            return Err(NotDone::NotCompacted(NotCompacted::OutOfMemory));
        };
        let Compacted { kernel, names } = match compact(self.alloc, &self.kernel, &kept) {
            Ok(compacted) => compacted,
            Err(cause) => return Err(NotDone::NotCompacted(cause)),
        };
        let until = kernel.journal().len();
        let names = match self.names.moved(self.alloc, &names, until) {
            Ok(names) => names,
            Err(NotMoved::NoMoreNames) => return Err(NotDone::NoMoreNames),
            Err(NotMoved::OutOfMemory) => {
                return Err(NotDone::NotCompacted(NotCompacted::OutOfMemory));
            }
        };
        self.masters.retain(&names);
        self.kernel = kernel;
        self.names = names;
        self.group = until;
        self.due = until.saturating_mul(2).max(self.threshold);
        self.tried = until;
        Ok(())
    }

    // Calls what tells of the present journal and of the names: so the prover knows it where this is called.
    pub(crate) fn known(&self)
        ensures { IsPresent self.now }
    {
        let _ = self.kernel.journal();
        let _ = self.names.made();
    }

    #[inline(always)]
    fn is_full(&self) -> bool
        ensures { result ≡ is_full self.now.present }
    {
        MOST_EVENTS < self.kernel.journal().len() as usize + MOST_APPENDED
    }

    // Whether there is no room for the task that a request makes.
    #[inline(always)]
    fn is_crowded(&self, request: &LastingRequest) -> bool {
        let view = self.kernel.view();
        let slots = u64::from(view.tables().slots()).saturating_add(request.entries());
        request.master().is_some()
            && (usize::from(self.kernel.tasks()) >= MOST_TASKS || slots > MOST_SLOTS as u64)
    }

    #[inline(always)]
    #[tactic(auto, using(crate::proofs::GivingUp::same_names))]
    fn make_room(&mut self, request: &LastingRequest) -> Result<(), NotDone>
        ensures follows { (journal : List Happening) → Follows journal self.old
            → Follows journal self.new }
        ensures given_up { (journal : List Happening) → Follows journal self.old
            → GivesUpOnly journal self.old.names self.new.names }
        ensures unchanged { (self.new ≡ self.old) ⊎ IsMadeShorter self.old self.new }
        ensures want { IfErr result (λ cause. IsRoomless self.new cause) }
    {
        let length = self.kernel.journal().len();
        let crowded = self.is_crowded(request) && length > self.tried;
        if length < self.due && !self.is_full() && !crowded {
            return Ok(());
        }
        self.shorten()
    }

    // Makes the present journal shorter, or puts it off if there is room without it.
    #[inline(never)]
    #[tactic(auto, using(crate::proofs::GivingUp::same_names))]
    fn shorten(&mut self) -> Result<(), NotDone>
        ensures follows { (journal : List Happening) → Follows journal self.old
            → Follows journal self.new }
        ensures given_up { (journal : List Happening) → Follows journal self.old
            → GivesUpOnly journal self.old.names self.new.names }
        ensures unchanged { (self.new ≡ self.old) ⊎ IsMadeShorter self.old self.new }
        ensures want { IfErr result (λ cause. IsRoomless self.new cause) }
    {
        match self.compact() {
            Err(cause) if self.is_full() => Err(cause),
            Err(cause) => {
                self.put_off(cause);
                Ok(())
            }
            Ok(()) => Ok(()),
        }
    }

    // The present journal is made shorter later, and for a new task once there is memory or something has happened.
    fn put_off(&mut self, cause: NotDone)
        ensures { self.new ≡ self.old }
    {
        let length = self.kernel.journal().len();
        self.due = length.saturating_add(length.max(self.threshold));
        if cause != NotDone::NotCompacted(NotCompacted::OutOfMemory) {
            self.tried = length;
        }
    }

    #[inline(always)]
    fn ask(&mut self, request: LastingRequest) -> Result<u64, NotDone>
        ensures ok { IfOk result (λ at. (journal : List Happening) → Follows journal self.old
            → IsStepped journal (meant request) at self.new) }
        ensures err { IfErr result (λ cause. (journal : List Happening) → Follows journal self.old
            → IsCause journal (meant request) self.old cause) }
        ensures unchanged { OnErr result (self.new ≡ self.old) }
        ensures names { (task v : ℕ) → found self.old.names.tasks task ≡ Some v
            → found self.new.names.tasks task ≡ Some v }
    {
        self.known();
        let before = self.kernel.journal().len();
        let position = self.names.next_position();
        let master = request.master();
        let mut given_up = None;
        let asked = self.names.asked(request, &mut given_up);
        if let Some(task) = given_up {
            return Err(NotDone::GivenUp(task));
        }
        let present = TaskNo(self.kernel.tasks());
        if let Err(cause) = self.masters.name_next(&mut self.names, present, master) {
            return Err(cause);
        }
        let are_read = read_ended(&mut self.spare, &self.kernel, self.group, &self.ended);
        match self.kernel.step(asked) {
            Ok(_) => {
                take_ended(&mut self.ended, &self.spare, are_read);
                self.group = before;
                self.names.grow(self.kernel.journal().len());
                Ok(position)
            }
            Err(cause) => {
                self.masters.unname_next(&mut self.names, master);
                Err(NotDone::named(cause))
            }
        }
    }

    /// Gives a terminated task up: it may not be named any more. All others keep their names.
    ///
    /// # Errors
    ///
    /// [`NotDone::Refused`] with `UnknownTask` for a task that was never made, and with `MainTask` for the main
    /// program; [`NotDone::GivenUp`]; [`NotDone::NotTerminated`].
    pub fn release(&mut self, task: u64) -> Result<(), NotDone>
        ensures follows { (journal : List Happening) → Follows journal self.old
            → Follows journal self.new }
        ensures named { OnOk result (is_some (found self.old.names.tasks task) ≡ true) }
        ensures ok { OnOk result (found self.new.names.tasks task ≡ None) }
        ensures others { (other : ℕ) → other ≢ task
            → found self.new.names.tasks other ≡ found self.old.names.tasks other }
        ensures shown { OnOk result (self.new.group ≡ []) }
        ensures err { OnErr result (self.new ≡ self.old) }
        ensures why { IfErr result (λ cause. (journal : List Happening) → Follows journal self.old
            → IsUnreleased journal self.old.names task cause) }
    {
        self.known();
        match self.names.task(task) {
            _ if task == 0 => Err(NotDone::Refused(Refusal::MainTask)),
            Some(present) if self.kernel.terminated(present) == Some(true) => {
                self.names.forget(task);
                self.group = self.kernel.journal().len();
                self.tried = 0;
                Ok(())
            }
            Some(_) => Err(NotDone::NotTerminated(task)),
            None if task < self.names.made() => Err(NotDone::GivenUp(task)),
            None => Err(NotDone::Refused(Refusal::UnknownTask)),
        }
    }

    // The events that the last accepted request appended, in their order, as the present journal has them.
    pub(crate) fn group(&self) -> &[Event]
        ensures { reverse result.now ≡ self.now.group }
    {
        let events = self.kernel.journal().as_slice();
        &events[self.group as usize..]
    }

    // The first task of a number or more of the present journal that is terminated and wasn't before the last request.
    pub(crate) fn first_ended(&self, from: TaskNo) -> Option<TaskNo>
        requires { self.now.group ≢ [] }
        ensures { option_map (λ (t : Task). t.0) result ≡ first_since is_terminated
            (before_shown self.now.present self.now) self.now.present from.0 }
    {
        self.known();
        first_ended(&self.kernel, &self.ended, from)
    }

    // What has lasting names in the present journal.
    pub(crate) fn names(&self) -> &Names
        ensures names { result.now ≡ self.now.names }
        ensures one { AreOneToOne result.now }
    {
        &self.names
    }

    // The kernel with the present journal.
    pub(crate) fn present(&self) -> &Kernel
        ensures present { result.now ≡ self.now.present }
        ensures follows { LivesOn self.now }
    {
        &self.kernel
    }

    /// The attribute TERMINATED of a task (9.9); none if it was never made or given up.
    pub fn terminated(&self, task: u64) -> Option<bool>
        ensures { (journal : List Happening) → Follows journal self.now
            → result ≡ then_some (is_some (found self.now.names.tasks task))
            (is_terminated journal task) }
    {
        self.known();
        self.kernel.terminated(self.names.task(task)?)
    }

    /// The attribute CALLABLE of a task (9.9); none if it was never made or given up.
    pub fn callable(&self, task: u64) -> Option<bool>
        ensures { (journal : List Happening) → Follows journal self.now
            → result ≡ then_some (is_some (found self.now.names.tasks task))
            (is_callable journal task) }
    {
        self.known();
        self.kernel.callable(self.names.task(task)?)
    }

    /// Whether a task is running: started, not ended, and not suspended. None if it was never made or given up.
    pub fn running(&self, task: u64) -> Option<bool>
        ensures { (journal : List Happening) → Follows journal self.now
            → result ≡ then_some (is_some (found self.now.names.tasks task))
            (is_running journal task) }
    {
        self.known();
        self.kernel.running(self.names.task(task)?)
    }

    /// The attribute COUNT of an entry of the asking task's own (9.9), at most 256. Refused for the first that applies
    /// of `UnknownTask`, `NotRunning`, `NoSuchFamily` and `ConstraintError`; [`NotDone::GivenUp`].
    pub fn count(&self, by: u64, entry: Entry) -> Result<u16, NotDone>
        ensures ok { IfOk result (λ count. (journal : List Happening) → Follows journal self.now
            → own_count journal by entry ≡ Ok count) }
        ensures err { IfErr result (λ cause. (journal : List Happening) → Follows journal self.now
            → IsUncounted self.now.names by (own_count journal by entry) cause) }
    {
        self.known();
        match self.names.task(by) {
            Some(task) => match self.kernel.count(task, entry) {
                Ok(count) => Ok(count),
                Err(cause) => Err(NotDone::Refused(cause)),
            },
            None if by < self.names.made() => Err(NotDone::GivenUp(by)),
            None => Err(NotDone::Refused(Refusal::UnknownTask)),
        }
    }

    /// Whether the main program is terminated.
    pub fn finished(&self) -> bool
        ensures { (journal : List Happening) → Follows journal self.now
            → result ≡ is_finished journal }
    {
        self.known();
        self.kernel.finished()
    }

    /// Whether two kernels keep the same: present journals, names, masters of tasks, and events that are shown; and
    /// answer alike of each task of these journals. When each journal is made shorter next isn't compared.
    pub fn keeps_the_same(&self, other: &LongKernel) -> bool
        ensures { result ≡ true → self.now ≡ other.now }
    {
        are_same_kernels(&self.kernel, &other.kernel)
            && self.names.are_same(&other.names)
            && self.masters.are_same(&other.masters)
            && self.group == other.group
    }
}
