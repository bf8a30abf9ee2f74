//! The attributes that lines show, read by a thread for each speaker, in turn.

use crate::scripts::{ARRIVALS, MISSING};
use crate::together::play;
use ada_events::Refusal;
use ada_hall::{Answer, KeptAnswer};
use ada_run::InTurn;
use ada_script::Value;
use std::process::Abort;
use std::test::Fail;

/// Whether the line at a place was answered as the one behind so many others, and so.
fn is_answered(answers: &[KeptAnswer], place: usize, answer: Answer) -> bool {
    let kept = answers.get(place);
    kept.is_some_and(|kept| kept.place as usize == place && kept.answer == answer)
}

/// The lines at these places were answered in their turn, and so.
pub fn assert_answers<R: Abort>(rt: &R, answers: &[KeptAnswer], wanted: &[(usize, Answer)]) {
    for (place, answer) in wanted {
        assert!(rt; is_answered(answers, *place, *answer), "place {place}");
    }
}

#[test]
fn count_of_arrivals(rt: HostRuntime) -> Result<(), Fail> {
    let played = play(&rt, ARRIVALS, &InTurn)?;
    assert_answers(
        &rt,
        &played.answers,
        &[
            (11, Answer::Shown(Value::Number(2))),
            (14, Answer::Shown(Value::Number(1))),
        ],
    );
    played.assert_reports(&rt, &[(5, 0), (4, 0), (2, 0), (2, 0)]);
    Ok(())
}

#[test]
fn attributes_of_missing_tasks(rt: HostRuntime) -> Result<(), Fail> {
    let played = play(&rt, MISSING, &InTurn)?;
    assert_answers(
        &rt,
        &played.answers,
        &[
            (1, Answer::Refused(Refusal::NotYourMaster)),
            (2, Answer::Refused(Refusal::UnknownTask)),
            (3, Answer::Shown(Value::Truth(true))),
            (4, Answer::Shown(Value::Truth(false))),
            (5, Answer::Refused(Refusal::UnknownTask)),
        ],
    );
    played.assert_reports(&rt, &[(1, 1), (0, 0), (0, 0)]);
    Ok(())
}
