//! The masters under which tasks were made by tasks that are gone.

use crate::failure::NotCompacted;
use crate::walk::source::Source;
use ada_events::{Master, TaskNo};
use std::alloc::Global;

// A master under which a helper is needed, by its rank, and the helper once it is there.
#[derive(Clone, Copy)]
struct Post {
    rank: u64,
    helper: Option<TaskNo>,
}

// Bodies by their tasks, and then blocks by their openings.
fn rank_of(master: Master) -> u64 {
    match master {
        Master::Body(task) => u64::from(task.0),
        Master::Block(opening) => u64::from(opening) + 65_536,
    }
}

/// The masters on which live tasks depend whose creator is terminated. A helper under each makes these tasks anew.
#[derive(Drop)]
pub(crate) struct Posts {
    // In the order of their ranks. A master of several such tasks stands here as often; each search finds the same one.
    posts: Vec<Post>,
}

impl Posts {
    /// The masters where helpers are needed, none of which is there yet.
    pub(crate) fn new(alloc: Global, old: Source<'_>) -> Result<Self, NotCompacted> {
        let mut posts = Vec::new(alloc);
        for number in 0..old.tasks() {
            if let Some(master) = old.orphaned(TaskNo(number)) {
                posts.push(Post {
                    rank: rank_of(master),
                    helper: None,
                })?;
            }
        }
        posts.sort_unstable_by_key(|post| post.rank);
        Ok(Posts { posts })
    }

    fn place(&self, master: Master) -> Option<usize> {
        let rank = rank_of(master);
        self.posts
            .binary_search_by_key(&rank, |post| post.rank)
            .ok()
    }

    /// Whether a helper is needed under the master.
    pub(crate) fn is_needed(&self, master: Master) -> bool {
        self.place(master).is_some()
    }

    /// The helper under the master, if it is there.
    pub(crate) fn helper(&self, master: Master) -> Option<TaskNo> {
        let post = self.posts.get(self.place(master)?)?;
        post.helper
    }

    /// The helper under the master is there now.
    pub(crate) fn fill(&mut self, master: Master, helper: TaskNo) {
        let Some(place) = self.place(master) else {
            return;
        };
        if let Some(post) = self.posts.get_mut(place) {
            post.helper = Some(helper);
        }
    }
}
