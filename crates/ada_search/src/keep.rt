//! What of a state may still matter: tasks in the order of their numbers, and positions of calls, waits, delays,
//! starts, closes and blocks. Nothing is promised of it: searches tell states apart by it, and guess names by it.

ghost use Rattle.std.specs.Prelude.{◌<◌};
ghost use Rattle.ada_events.specs.Tasks.{task_count};

use crate::task_set::TaskSet;
use ada_events::{Event, Outcome, TaskNo};
use ada_kernel::Kernel;
use ada_tables::Layer;
use ada_view::View;
use std::alloc::{AllocError, Global};

/// The kind of what stands at a position.
#[derive(Clone, Copy, Debug, PartialEq, Eq)]
pub(crate) enum Kind {
    Call,
    Wait,
    Delay,
    Start,
    Close,
    Block,
}

/// A position that may still matter.
#[derive(Clone, Copy, Debug, PartialEq, Eq)]
pub(crate) struct Post {
    pub(crate) kind: Kind,
    pub(crate) at: u32,
    /// How many of the same kind stand before it.
    pub(crate) rank: u16,
}

/// What of a state may still matter.
#[derive(Drop)]
pub struct Kept {
    /// The tasks that aren't terminated, or that are named, by number.
    pub(crate) tasks: Vec<TaskNo>,
    /// The positions, none twice.
    pub(crate) posts: Vec<Post>,
}

fn kind_of(event: &Event) -> Option<Kind> {
    match event {
        Event::Called { .. } => Some(Kind::Call),
        Event::Waiting { .. } => Some(Kind::Wait),
        Event::Paused { .. } => Some(Kind::Delay),
        Event::Started { .. } => Some(Kind::Start),
        Event::Closed { .. } => Some(Kind::Close),
        Event::Opened { .. } => Some(Kind::Block),
        _ => None,
    }
}

impl Kept {
    /// What may still matter of a kernel, with tasks and blocks that are still to be named.
    pub fn of(
        alloc: Global,
        kernel: &Kernel,
        named: &TaskSet,
        blocks: &[u32],
    ) -> Result<Self, AllocError> {
        let mut kept = Kept {
            tasks: kept_tasks(alloc, kernel, named)?,
            posts: Vec::new(alloc),
        };
        for number in 0..kernel.tasks() {
            kept.note_task(kernel, TaskNo(number))?;
        }
        kept.note_blocks(blocks)?;
        kept.rank_posts();
        Ok(kept)
    }

    // Notes blocks.
    fn note_blocks(&mut self, blocks: &[u32]) -> Result<(), AllocError> {
        for at in blocks {
            self.note(Kind::Block, *at)?;
        }
        Ok(())
    }

    // Notes a position, if it is new.
    fn note(&mut self, kind: Kind, at: u32) -> Result<(), AllocError> {
        if self.rank(kind, at) == u16::MAX {
            self.posts.push(Post { kind, at, rank: 0 })?;
        }
        Ok(())
    }

    // Ranks the positions, kind by kind, in their order.
    fn rank_posts(&mut self) {
        self.posts
            .sort_unstable_by_key(|post| (post.kind as u8, post.at));
        let mut last = None;
        let mut rank = 0u16;
        for post in &mut self.posts {
            rank = if last == Some(post.kind) {
                rank.saturating_add(1)
            } else {
                0
            };
            last = Some(post.kind);
            post.rank = rank;
        }
    }

    // Notes what a task is suspended at, what it is within, and what it accepted, if it isn't terminated.
    fn note_task(&mut self, kernel: &Kernel, task: TaskNo) -> Result<(), AllocError> {
        let view = kernel.view();
        let record = view.record(task);
        if record.stage.terminated || task.0 >= kernel.tasks() {
            return Ok(());
        }
        let at = record.suspension.at;
        if let Some(kind) = view.event(at).and_then(kind_of) {
            self.note(kind, at)?;
        }
        if let Some(Outcome::Accepted { call, .. }) = kernel.outcome(task) {
            self.note(Kind::Call, call)?;
        }
        self.note_nest(&view, task)
    }

    // Notes what a task is within.
    fn note_nest(&mut self, view: &View<'_>, task: TaskNo) -> Result<(), AllocError>
        requires { task.0 < task_count view.now }
    {
        for layer in view.nest(task).as_slice() {
            match layer {
                Layer::Block { opening, .. } => self.note(Kind::Block, *opening)?,
                Layer::Rendezvous { call } => self.note(Kind::Call, *call)?,
            }
        }
        Ok(())
    }

    /// How many positions of the same kind stand before this one; 65,535 of a position that doesn't matter.
    pub(crate) fn rank(&self, kind: Kind, at: u32) -> u16 {
        let post = self
            .posts
            .iter()
            .find(|post| post.at == at && post.kind == kind);
        match post {
            Some(post) => post.rank,
            None => u16::MAX,
        }
    }

    /// The place of a task among those that are kept.
    pub(crate) fn place(&self, task: TaskNo) -> u16 {
        match self.tasks.iter().position(|other| *other == task) {
            Some(place) => u16::try_from(place).unwrap_or(u16::MAX),
            None => u16::MAX,
        }
    }

    /// The task at a place among those that are kept.
    pub(crate) fn task_at(&self, place: u16) -> Option<TaskNo> {
        self.tasks.get(usize::from(place)).copied()
    }
}

// The tasks that aren't terminated, or that are named.
fn kept_tasks(alloc: Global, kernel: &Kernel, named: &TaskSet) -> Result<Vec<TaskNo>, AllocError> {
    let mut tasks = Vec::new(alloc);
    for number in 0..kernel.tasks() {
        let task = TaskNo(number);
        if named.contains(task) || kernel.terminated(task) == Some(false) {
            tasks.push(task)?;
        }
    }
    Ok(tasks)
}
