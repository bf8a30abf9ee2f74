//! A board that a writer publishes.
ghost use Rattle.std.specs.Prelude.{◌≡◌, []};
ghost use Rattle.ada_events.specs.Boards.{AreTrue};

use crate::album::Album;
use crate::race::Race;
use crate::sights::{Watchers, look};
use crate::turns::Job;
use ada_board::{BoardFault, BoardReader, BoardWriter, History, Naming, Readers, open_board};
use ada_events::Board;
use std::marker::Brand;
use std::sync::Wait;
use std::thread::{Threads, join};
use std::time::{Clock, Duration, Instant};

/// Publishes all boards, one after another, and says whether each was.
fn publish_all<J: Naming, R: Wait>(rt: &R, writer: &mut BoardWriter<J>, boards: &[Board]) -> bool
    requires boards { AreTrue boards.now }
    requires new { writer.old ≡ record { published = []; offered = [] } }
{
    for board in boards {
        if writer.offer(*board).is_err() {
            return false;
        }
        writer.show(rt);
    }
    true
}

/// One reader that asks so often, while nothing is published.
#[derive(Drop)]
pub struct Reading {
    pub times: u32,
}

fn read_alone<J: Naming, R: Wait + Clock + AllocGlobal>(
    rt: &R,
    history: History,
    times: u32,
) -> anyhow::Result<Duration>
    requires { history ≡ J.book }
{
    let (writer, mut places) = open_board::<J, _>(rt, rt.alloc(), history, 1)?;
    let start = Instant::now(rt);
    if let Ok(mut reader) = places.take() {
        look(rt, &mut reader, times);
    }
    let end = Instant::now(rt);
    writer.close(rt);
    Ok(end?.duration_since(start?))
}

impl<R: Wait + Clock + AllocGlobal> Job<R> for Reading {
    fn turn(&mut self, rt: &R) -> anyhow::Result<Duration> {
        read_alone::<Brand, R>(rt, History::new(), self.times)
    }
}

/// All boards of an album published, and nobody who reads them.
#[derive(Drop)]
pub struct Publishing<'a> {
    pub album: &'a Album,
}

fn publish_alone<J: Naming, R: Wait + Clock + AllocGlobal>(
    rt: &R,
    history: History,
    album: &Album,
) -> anyhow::Result<Duration>
    requires { history ≡ J.book }
{
    let (mut writer, _places) = open_board::<J, _>(rt, rt.alloc(), history, 1)?;
    let start = Instant::now(rt);
    let published = publish_all(rt, &mut writer, album.boards());
    let end = Instant::now(rt);
    writer.close(rt);
    anyhow::ensure!(published, "out of memory");
    Ok(end?.duration_since(start?))
}

impl<R: Wait + Clock + AllocGlobal> Job<R> for Publishing<'_> {
    fn turn(&mut self, rt: &R) -> anyhow::Result<Duration> {
        publish_alone::<Brand, R>(rt, History::new(), self.album)
    }
}

// Three readers.
fn watchers<J: Naming>(places: &mut Readers<J>) -> Result<Watchers<BoardReader<J>>, BoardFault> {
    Ok(Watchers {
        first: places.take()?,
        second: places.take()?,
        third: places.take()?,
    })
}

// How often three readers asked until they saw the last board, each in a thread of its own.
fn watch_three<J: Naming + Send + Sync, R: Threads + Wait + Sync>(
    rt: &R,
    writer: &mut BoardWriter<J>,
    places: &mut Readers<J>,
    boards: &[Board],
) -> anyhow::Result<u64>
    requires boards { AreTrue boards.now }
    requires new { writer.old ≡ record { published = []; offered = [] } }
{
    let mut watchers = watchers(places)?;
    let (published, asked) = join(
        rt,
        || publish_all(rt, writer, boards),
        || watchers.watch(rt),
    );
    anyhow::ensure!(published, "out of memory");
    Ok(asked)
}

fn race<J: Naming + Send + Sync, R: Threads + Wait + Sync + Clock + AllocGlobal>(
    rt: &R,
    history: History,
    album: &Album,
    race: &mut Race,
) -> anyhow::Result<()>
    requires { history ≡ J.book }
{
    let (mut writer, mut places) = open_board::<J, _>(rt, rt.alloc(), history, 3)?;
    let start = Instant::now(rt);
    let asked = watch_three(rt, &mut writer, &mut places, album.boards());
    let end = Instant::now(rt);
    writer.close(rt);
    race.add(asked?, album.boards().len(), end?.duration_since(start?));
    Ok(())
}

/// So many races of three readers beside a writer that publishes all boards of an album without pause.
pub fn races<R: Threads + Wait + Sync + Clock + AllocGlobal>(
    rt: &R,
    album: &Album,
    rounds: u32,
) -> anyhow::Result<Race> {
    let mut all = Race::default();
    for _ in 0..rounds {
        race::<Brand, R>(rt, History::new(), album, &mut all)?;
    }
    Ok(all)
}
