//! A hall's calls that may want memory, where there is memory.
use crate::scene::{Scene, played};
use ada_board::Readers;
use ada_events::Refusal;
use ada_hall::{Answer, Hall, Session};
use ada_script::read;
use ada_test_requests::{MAIN, SINGLE, create};
use std::sync::Wait;
use std::sync::ledger::Share;
use std::test::Fail;

/// A line that asks, and one that asks what is refused.
const LINES: &[u8] = b"main: create S under main E
main: up
";

/// A first step, and the lines behind it: each has its answer, and the step a mark.
struct Opening;

impl Scene for Opening {
    fn play<J: Session, R: Wait>(
        rt: &R,
        hall: &mut Hall<'_, J>,
        share: &mut Share<J>,
        _places: &mut Readers<J>,
    ) -> Result<bool, Fail> {
        let told = hall.step(rt, share, create(0, MAIN, &[SINGLE]))?;
        hall.say(rt, share, 0)?;
        hall.say(rt, share, 1)?;
        let made = Answer::Group { first: 2, last: 2 };
        Ok(
            told.at == 1
                && told.mark.is_some()
                && !hall.behind()
                && hall.answer(0) == Some(made)
                && hall.answer(1) == Some(Answer::Refused(Refusal::NotActivating))
                && hall.total() == 2,
        )
    }
}

#[test]
fn always_out_of_memory(rt: HostRuntime) -> Result<(), Fail> {
    let script = read(rt.alloc(), LINES)?;
    assert!(rt; played::<Opening, _>(&rt, &script, 1)?);
    Ok(())
}
