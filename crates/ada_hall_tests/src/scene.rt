//! Scenes that tests play in halls.
ghost use Rattle.std.specs.Prelude.{◌≡◌, ◌<◌, ◌≤◌};

use crate::opened::{Setting, opened};
use ada_board::{History, Readers};
use ada_hall::{Hall, Session};
use ada_script::Script;
use std::marker::Brand;
use std::sync::Wait;
use std::sync::ledger::{Blank, Share};
use std::test::Fail;

/// What a test does in a hall.
pub trait Scene {
    /// Whether all came out as it must.
    fn play<J: Session, R: Wait>(
        rt: &R,
        hall: &mut Hall<'_, J>,
        share: &mut Share<J>,
        places: &mut Readers<J>,
    ) -> Result<bool, Fail>
        requires { 0 < share.old.parts };
}

fn played_in<S: Scene, J: Session, R: Wait + AllocGlobal>(
    rt: &R,
    history: History,
    blank: Blank,
    script: &Script,
    readers: usize,
) -> Result<bool, Fail>
    requires named { history ≡ J.book }
    requires script { script.now ≡ J.script }
    requires ledger { (blank.name ≡ J.name) × (blank.parts ≡ J.parts) }
    requires parts { 0 < blank.parts }
    requires readers { (0 < readers) × (readers ≤ 256) }
{
    let Setting {
        mut hall,
        mut places,
        mut share,
    } = opened::<J, R>(rt, history, blank, script, readers)?;
    let came = S::play(rt, &mut hall, &mut share, &mut places);
    hall.close(rt);
    came
}

/// Plays a scene in a hall on a script, whose board has so many places.
pub fn played<S: Scene, R: Wait + AllocGlobal>(
    rt: &R,
    script: &Script,
    readers: usize,
) -> Result<bool, Fail>
    requires { (0 < readers) × (readers ≤ 256) }
{
    played_in::<S, Brand, R>(rt, History::new(), Blank::new(1), script, readers)
}
