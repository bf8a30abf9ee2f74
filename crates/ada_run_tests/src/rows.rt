//! The worked plays by a thread for each speaker.

use crate::all_at_once::{AllAtOnce, LOOKS};
use crate::scripts::{OWN_CALL, RENDEZVOUS, THREE};
use crate::together::{Played, play};
use ada_events::Refusal;
use ada_hall::{Answer, KeptAnswer};
use ada_run::{Free, InTurn};
use std::process::Abort;
use std::test::Fail;

/// Whether the lines were answered in the order of their places.
fn is_in_turn(answers: &[KeptAnswer]) -> bool {
    (0u32..)
        .zip(answers.iter())
        .all(|(place, kept)| kept.place == place)
}

/// The lines were answered in the order of their places, and so many requests of each speaker accepted and refused.
fn assert_in_turn<R: Abort>(rt: &R, played: &Played, counts: &[(u32, u32)]) {
    assert!(rt; is_in_turn(&played.answers));
    played.assert_reports(rt, counts);
}

// Were the lines of all speakers played by one thread, the first line would be held for good.
#[test]
fn one_thread_for_all(rt: HostRuntime) -> Result<(), Fail> {
    let gate = AllAtOnce::new(LOOKS);
    let played = play(&rt, THREE, &gate)?;
    assert!(rt; !gate.is_late());
    assert_in_turn(&rt, &played, &[(4, 0), (1, 0), (1, 0), (1, 0)]);
    Ok(())
}

#[test]
fn three_threads_report(rt: HostRuntime) -> Result<(), Fail> {
    let played = play(&rt, RENDEZVOUS, &InTurn)?;
    assert_in_turn(&rt, &played, &[(3, 0), (3, 0), (2, 0)]);
    let last = played.answers.last().map(|kept| kept.answer);
    let group = Answer::Group {
        first: 10,
        last: 10,
    };
    assert_eq!(rt; last, Some(group));
    Ok(())
}

/// The answer that was given to a place.
fn answer_at(answers: &[KeptAnswer], place: u32) -> Option<Answer> {
    let found = answers.iter().find(|kept| kept.place == place);
    found.map(|kept| kept.answer)
}

#[test]
fn own_call_waits_for_good(rt: HostRuntime) -> Result<(), Fail> {
    let played = play(&rt, OWN_CALL, &Free)?;
    played.assert_reports(&rt, &[(3, 0), (2, 1)]);
    let refused = Some(Answer::Refused(Refusal::NotRunning));
    assert_eq!(rt; answer_at(&played.answers, 4), refused);
    Ok(())
}
