//! What the check of legal orders refuses.

use crate::referee::{is_legal, replayed};
use crate::scripts::RENDEZVOUS;
use crate::together::play;
use ada_hall::{Answer, KeptAnswer};
use ada_kernel::Kernel;
use ada_run::InTurn;
use ada_script::{Script, read};
use std::process::Abort;
use std::sync::Wait;
use std::test::Fail;
use std::thread::Threads;

/// A script with the answers that threads gave in turn, and with the events of the kernel alone.
#[derive(Drop)]
struct Played {
    script: Script,
    answers: Vec<KeptAnswer>,
    kernel: Kernel,
}

/// The answers to one rendezvous.
fn answers<R: Threads + Wait + Sync + AllocGlobal>(rt: &R) -> Result<Vec<KeptAnswer>, Fail> {
    Ok(play(rt, RENDEZVOUS, &InTurn)?.answers)
}

impl Played {
    /// One rendezvous.
    fn rendezvous<R: Threads + Wait + Sync + AllocGlobal>(rt: &R) -> Result<Played, Fail> {
        let answers = answers(rt)?;
        let script = read(rt.alloc(), RENDEZVOUS)?;
        Ok(Played {
            kernel: replayed(rt.alloc(), &script)?,
            script,
            answers,
        })
    }

    fn exchange(&mut self, one: usize, other: usize) -> Result<(), Fail> {
        if one >= self.answers.len() || other >= self.answers.len() {
            return Err("answers at both".into());
        }
        self.answers.swap(one, other);
        Ok(())
    }

    fn is_legal(&self, rt: &impl AllocGlobal) -> Result<bool, Fail> {
        let events = self.kernel.journal().as_slice();
        is_legal(rt.alloc(), RENDEZVOUS, &self.script, &self.answers, events)
    }

    /// Whether the answers are legal once those at two indices are exchanged.
    fn is_legal_exchanged(
        &mut self,
        rt: &impl AllocGlobal,
        one: usize,
        other: usize,
    ) -> Result<bool, Fail> {
        self.exchange(one, other)?;
        self.is_legal(rt)
    }
}

/// Whether the answers to one rendezvous are legal, but with the answers at two indices exchanged.
fn is_legal_exchanged<R: Threads + Wait + Sync + AllocGlobal>(
    rt: &R,
    one: usize,
    other: usize,
) -> Result<bool, Fail> {
    Played::rendezvous(rt)?.is_legal_exchanged(rt, one, other)
}

// The same order is legal. A server can't accept before it is up, and two tasks that come up in another order
// have other events.
#[test]
fn other_orders_are_not_legal(rt: HostRuntime) -> Result<(), Fail> {
    assert!(rt; is_legal_exchanged(&rt, 0, 0)?);
    assert!(rt; !is_legal_exchanged(&rt, 3, 6)?);
    assert!(rt; !is_legal_exchanged(&rt, 3, 4)?);
    Ok(())
}

/// The answers are legal, without the last one not, and with another last one not.
fn assert_no_others<R: Abort + AllocGlobal>(rt: &R, played: &mut Played) -> Result<(), Fail> {
    assert!(rt; played.is_legal(rt)?);
    let _ = played.answers.pop();
    assert!(rt; !played.is_legal(rt)?);
    if let Some(last) = played.answers.last_mut() {
        last.answer = Answer::Group { first: 8, last: 8 };
    }
    assert!(rt; !played.is_legal(rt)?);
    Ok(())
}

// All lines have to be answered, each by its own events.
#[test]
fn other_answers_are_not_legal(rt: HostRuntime) -> Result<(), Fail> {
    let mut played = Played::rendezvous(&rt)?;
    assert_no_others(&rt, &mut played)
}
