//! What threads share.

use ada_hall::{Hall, Session};
use std::mem::ManuallyDrop;
use std::sync::{Condvar, Mutex, Wait};

/// A hall under its lock, and what wakes those who wait for a change of it. The hall is taken out again by
/// [`into_hall`](Shared::into_hall), and then has to be closed.
pub struct Shared<'s, J: Session> {
    /// A hall isn't `Drop`, since its writer has to be ended.
    pub hall: Mutex<ManuallyDrop<Hall<'s, J>>>,
    pub wake: Condvar,
}

impl<'s, J: Session> Shared<'s, J> {
    /// A hall that threads may share.
    pub fn new(hall: Hall<'s, J>) -> Shared<'s, J> {
        Shared {
            // It is taken out again by `into_hall`.
            hall: Mutex::new(unsafe { ManuallyDrop::new_unchecked(hall) }),
            wake: Condvar::new(),
        }
    }

    /// From now on no further line is played, and nobody waits.
    pub fn stop<R: Wait>(&self, rt: &R) {
        let mut guard = self.hall.lock(rt);
        let hall: &mut Hall<'s, J> = &mut guard;
        hall.stop();
        drop(guard);
        self.wake.notify_all();
    }

    /// The line at a place was played: those who wait look again.
    pub(crate) fn pass<R: Wait>(&self, rt: &R, place: u32) {
        let mut guard = self.hall.lock(rt);
        let hall: &mut Hall<'s, J> = &mut guard;
        hall.pass(place);
        drop(guard);
        self.wake.notify_all();
    }

    /// A thread is done: those who wait look again.
    pub(crate) fn leave<R: Wait>(&self, rt: &R) {
        let mut guard = self.hall.lock(rt);
        let hall: &mut Hall<'s, J> = &mut guard;
        hall.leave();
        drop(guard);
        self.wake.notify_all();
    }

    /// The hall, once no thread shares it any more.
    pub fn into_hall(self) -> Hall<'s, J> {
        let Shared { hall, wake: _wake } = self;
        ManuallyDrop::into_inner(hall.into_inner())
    }
}
