//! Scripts that are played by a thread for each speaker.
ghost use Rattle.std.specs.Prelude.{◌≡◌, ◌+◌, ◌<◌, ◌≤◌, OnOk, vec_len};

use crate::crew::work_all;
use crate::referee::is_legal;
use ada_board::History;
use ada_hall::speakers::speakers;
use ada_hall::{Hall, KeptAnswer, Session};
use ada_run::{Gate, Report, Shared, open_hall};
use ada_script::{Script, read};
use std::alloc::Global;
use std::marker::Brand;
use std::process::Abort;
use std::sync::Wait;
use std::sync::ledger::{Blank, Share};
use std::test::Fail;
use std::thread::Threads;

/// What came of a script.
#[derive(Drop)]
pub struct Played {
    /// How many requests of each speaker were accepted, and how many were refused.
    pub counts: Vec<(u32, u32)>,
    /// How many were accepted in all.
    pub total: u32,
    /// The answers in the order in which they were given.
    pub answers: Vec<KeptAnswer>,
    /// Whether they are one legal order of the lines.
    pub legal: bool,
}

/// How many requests of all speakers were accepted.
fn accepted(counts: &[(u32, u32)]) -> u32 {
    counts
        .iter()
        .fold(0u32, |sum, counts| sum.saturating_add(counts.0))
}

impl Played {
    /// Whether the answers are one legal order of the lines, and what the threads report as accepted is the total.
    pub fn is_whole(&self) -> bool {
        self.legal && accepted(&self.counts) == self.total
    }

    /// It is whole, and so many requests of each speaker were accepted and refused.
    pub fn assert_reports<R: Abort>(&self, rt: &R, counts: &[(u32, u32)]) {
        assert!(rt; self.is_whole());
        assert_eq!(rt; self.counts.as_slice(), counts);
    }
}

/// Puts the shares of all reports together: what the reports say, in their order.
fn merge_all<J: Session>(
    alloc: Global,
    mut reports: Vec<Report<J>>,
    whole: &mut Share<J>,
) -> Result<Vec<(u32, u32)>, Fail>
    ensures { OnOk result (whole.new.parts ≡ whole.old.parts + vec_len reports) }
{
    let mut counts = Vec::new(alloc);
    for _ in 0..reports.len() {
        let Some(report) = reports.pop() else {
            break;
        };
        let Report {
            accepted,
            refused,
            share,
        } = report;
        whole.merge(share);
        counts.push((accepted, refused))?;
    }
    counts.reverse();
    Ok(counts)
}

/// What came of a script, by the hall and what its threads report. The shares add up to the hall's total.
fn came_of<J: Session>(
    alloc: Global,
    text: &[u8],
    script: &Script,
    hall: &mut Hall<'_, J>,
    mut reports: Vec<Report<J>>,
    speakers: u32,
) -> Result<Played, Fail>
    requires { speakers ≡ J.parts }
{
    if reports.len() != speakers as usize {
        return Err("a report of each speaker".into());
    }
    let Some(last) = reports.pop() else {
        return Err("a report".into());
    };
    let Report {
        accepted,
        refused,
        share,
    } = last;
    let mut whole = share;
    let mut counts = merge_all(alloc, reports, &mut whole)?;
    counts.push((accepted, refused))?;
    hall.audit(&mut whole);
    let mut answers = Vec::new(alloc);
    answers.extend_from_slice(hall.answers())?;
    let events = hall.journal().as_slice();
    Ok(Played {
        counts,
        total: hall.total(),
        legal: is_legal(alloc, text, script, &answers, events)?,
        answers,
    })
}

/// Plays a script, and closes the hall.
fn play_script<J: Session + Send + Sync, R: Threads + Wait + Sync + AllocGlobal, G: Gate + Sync>(
    rt: &R,
    history: History,
    blank: Blank,
    text: &[u8],
    script: &Script,
    gate: &G,
    speakers: u32,
) -> Result<Played, Fail>
    requires named { history ≡ J.book }
    requires script { script.now ≡ J.script }
    requires ledger { (blank.name ≡ J.name) × (blank.parts ≡ J.parts) }
    requires speakers { (0 < speakers) × (speakers ≤ 256) × (blank.parts ≡ speakers) }
{
    let (hall, seats) = open_hall::<J, R>(rt, history, blank, script, speakers)?;
    let shared = Shared::new(hall);
    let worked = work_all(rt, &shared, script, seats, gate);
    let mut hall = shared.into_hall();
    let came = match worked {
        Some(reports) => came_of(rt.alloc(), text, script, &mut hall, reports, speakers),
        None => Err("a thread for each speaker".into()),
    };
    hall.close(rt);
    came
}

/// Plays the script of a text, with a thread for each speaker, of whom there are at most 256.
pub fn play<R: Threads + Wait + Sync + AllocGlobal, G: Gate + Sync>(
    rt: &R,
    text: &[u8],
    gate: &G,
) -> Result<Played, Fail> {
    let script = read(rt.alloc(), text)?;
    let count = speakers(script.lines());
    if count == 0 || count > 256 {
        return Err("1 to 256 speakers".into());
    }
    let blank = Blank::new(u64::from(count));
    play_script::<Brand, _, _>(rt, History::new(), blank, text, &script, gate, count)
}
