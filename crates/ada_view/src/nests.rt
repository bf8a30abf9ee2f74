//! What a task is within, its frame, and who opened a block.

ghost use Rattle.std.specs.Prelude.{◌≡◌, ◌<◌};
ghost use Rattle.std.specs.Option.{option_map};
ghost use Rattle.ada_events.specs.declared.names.TaskNo.{TaskNo as Number};
ghost use Rattle.ada_events.specs.Nests as nests;
ghost use Rattle.ada_events.specs.Says.{Opening, opening_at};
ghost use Rattle.ada_events.specs.Tasks.{task_count};
ghost use Rattle.ada_tables.specs.Layers.{members};

use crate::View;
use ada_events::{Event, Master, Member, TaskNo};
use ada_tables::{Layer, Layers};

// The last block of some members, else this master. It is looked for from the innermost member on, which mostly is it.
fn innermost_block(outer: Master, layers: &[Layer]) -> Master
    ensures { result ≡ nests.innermost_block outer (members layers.now) }
{
    let mut place = layers.len();
    while place > 0 {
        place -= 1;
        if let Layer::Block { opening, .. } = layers[place] {
            return Master::Block(opening);
        }
    }
    outer
}

impl View<'_> {
    /// The nest of a task: the blocks and the rendezvous that it is within, outermost first, at most 32.
    pub fn nest(&self, task: TaskNo) -> &Layers
        requires { task.0 < task_count self.now }
        ensures { members result.now ≡ nests.nest self.now task.0 }
    {
        self.tables().nest(task)
    }

    /// The innermost member of a task's nest; none where that is empty.
    pub fn innermost(&self, task: TaskNo) -> Option<Member>
        requires { task.0 < task_count self.now }
        ensures { result ≡ nests.innermost (nests.nest self.now task.0) }
    {
        let members = self.nest(task);
        members.get(members.len().saturating_sub(1))
    }

    /// The frame of a task: the innermost block that it is in, else its body (9.4).
    #[tactic(auto, unfolding(ada_events::specs::Nests::frame))]
    pub fn frame(&self, task: TaskNo) -> Master
        requires { task.0 < task_count self.now }
        ensures { result ≡ nests.frame self.now task.0 }
    {
        innermost_block(Master::Body(task), self.nest(task).as_slice())
    }

    /// The task that opened a block; none where no block was opened at that position.
    #[tactic(auto, unfolding(ada_events::specs::Says::opening_in))]
    pub fn opener(&self, block: u32) -> Option<TaskNo>
        ensures { option_map (λ (t : Number). t.0) result
            ≡ option_map (λ (o : Opening). o.by) (opening_at self.now block) }
    {
        match self.event(block) {
            Some(Event::Opened { by, .. }) => Some(*by),
            _ => None,
        }
    }
}
