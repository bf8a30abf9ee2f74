//! A hall and the places of its readers.
ghost use Rattle.std.specs.Prelude.{◌≡◌, ◌<◌, ◌≤◌, IfOk};

use ada_board::{History, Readers, open_board};
use ada_hall::{Hall, Session};
use ada_script::Script;
use std::sync::Wait;
use std::sync::ledger::{Blank, Share};
use std::test::Fail;

/// What a test of a hall begins with: the hall, the places of its readers, and the whole share of its total.
pub struct Setting<'s, J: Session> {
    pub hall: Hall<'s, J>,
    pub places: Readers<J>,
    pub share: Share<J>,
}

/// A hall on a script, with so many places.
pub fn opened<'s, J: Session, R: Wait + AllocGlobal>(
    rt: &R,
    history: History,
    blank: Blank,
    script: &'s Script,
    readers: usize,
) -> Result<Setting<'s, J>, Fail>
    requires named { history ≡ J.book }
    requires script { script.now ≡ J.script }
    requires ledger { (blank.name ≡ J.name) × (blank.parts ≡ J.parts) }
    requires readers { (0 < readers) × (readers ≤ 256) }
    ensures { IfOk result (λ opened.
        (opened.share.parts ≡ J.parts) × (opened.share.amount ≡ 0)) }
{
    let (writer, places) = open_board::<J, R>(rt, rt.alloc(), history, readers)?;
    let (book, share) = blank.open::<J>();
    match Hall::new(rt.alloc(), script, writer, book) {
        Ok(hall) => Ok(Setting {
            hall,
            places,
            share,
        }),
        Err((cause, writer, _book)) => {
            writer.close(rt);
            Err(cause.into())
        }
    }
}
