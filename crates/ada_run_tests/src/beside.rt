//! An attribute that is read while another thread holds the hall's lock.

use crate::shown::assert_answers;
use crate::together::play;
use ada_board::BoardReader;
use ada_hall::{Answer, Asking, Session};
use ada_run::{Gate, InTurn, Shared};
use ada_script::Value;
use std::sync::Wait;
use std::sync::atomic::{AtomicBool, Ordering};
use std::test::Fail;
use std::thread::yield_now;

/// A server shows how many calls are queued, and then the main program completes.
const QUEUED: &[u8] = b"main: create S under main E
main: create C under main
main: activate S C
S: up
C: up
C: call S E
S: show count E
main: complete
";

/// The place of the line that shows.
const SHOWS: usize = 6;

/// The place of the main program's last line.
const LAST: u32 = 7;

/// A thread that has looked so often gives up, which takes it some seconds.
const LOOKS: u32 = 20_000_000;

/// Lets the lines go in turn. The main program holds the lock before its last line, from when an attribute is to be
/// read until it was.
#[derive(Drop)]
struct Beside {
    is_asked: AtomicBool,
    is_held: AtomicBool,
    is_read: AtomicBool,
    /// Whether a thread gave up.
    is_late: AtomicBool,
}

impl Beside {
    fn new() -> Beside {
        Beside {
            is_asked: AtomicBool::new(false),
            is_held: AtomicBool::new(false),
            is_read: AtomicBool::new(false),
            is_late: AtomicBool::new(false),
        }
    }

    /// Looks until something has happened.
    fn expect(&self, has_happened: &AtomicBool) {
        for _ in 0..LOOKS {
            if has_happened.load(Ordering::SeqCst) {
                return;
            }
            yield_now();
        }
        self.is_late.store(true, Ordering::SeqCst);
    }

    /// Holds the lock while an attribute is read.
    fn hold<J: Session, R: Wait>(&self, rt: &R, shared: &Shared<'_, J>) {
        self.expect(&self.is_asked);
        let guard = shared.hall.lock(rt);
        self.is_held.store(true, Ordering::SeqCst);
        self.expect(&self.is_read);
        drop(guard);
    }
}

impl Gate for Beside {
    fn before<J: Session, R: Wait>(
        &self,
        rt: &R,
        shared: &Shared<'_, J>,
        speaker: u32,
        place: u32,
    ) {
        if place == LAST {
            self.hold(rt, shared);
        }
        InTurn.before(rt, shared, speaker, place);
    }

    fn read<J: Session>(&self, reader: &mut BoardReader<J>, what: Asking) -> Option<Value> {
        self.is_asked.store(true, Ordering::SeqCst);
        self.expect(&self.is_held);
        let value = InTurn.read(reader, what);
        self.is_read.store(true, Ordering::SeqCst);
        value
    }
}

// Where the line held the lock while it is read, the other thread couldn't take it: both would give up.
#[test]
fn attribute_is_read_beside_the_lock(rt: HostRuntime) -> Result<(), Fail> {
    let gate = Beside::new();
    let played = play(&rt, QUEUED, &gate)?;
    assert!(&rt;
        !gate.is_late.load(Ordering::SeqCst),
        "the lock is held while an attribute is read"
    );
    assert_answers(
        &rt,
        &played.answers,
        &[(SHOWS, Answer::Shown(Value::Number(1)))],
    );
    played.assert_reports(&rt, &[(4, 0), (1, 0), (2, 0)]);
    Ok(())
}
