//! The blocks and rendezvous that two tasks are within.

ghost use Rattle.std.specs.Prelude.{◌≡◌, ◌<◌, true, Option};
ghost use Rattle.std.specs.Option.{option_and_then};
ghost use Rattle.ada_events.specs.declared.names.Master.TheVariants.{Block as BlockMaster};
ghost use Rattle.ada_events.specs.Tasks.{task_count};
ghost use Rattle.ada_laws.specs.Masters.{parent_of};
ghost use Rattle.ada_tables.specs.Layers.{member_of, members};
ghost use Rattle.ada_standing.specs.Names.{renaming_of};
ghost use Rattle.ada_standing.specs.Renaming.{renamed_master};
ghost use Rattle.ada_standing.specs.StandsIn.{IsSameBlock, IsSameNest};
ghost use Rattle.ada_compact.specs.internal.Nesting.{IsSameMember, AreSameMembers};

use crate::comparison::Comparison;
use ada_events::{Event, Master, TaskNo};
use ada_tables::Layer;
use ada_view::View;

// What a block was opened in; none where no block was opened at that position.
#[tactic(auto, unfolding(ada_events::specs::Says::opening_in))]
fn opened_in(view: &View, block: u32) -> Option<Master>
    ensures { result ≡ parent_of view.now (BlockMaster block) }
{
    match view.event(block) {
        Some(Event::Opened { under, .. }) => Some(*under),
        _ => None,
    }
}

impl Comparison<'_> {
    // Whether the parents of two masters are alike.
    fn is_same_parent(&self, old: Option<Master>, new: Option<Master>) -> bool
        ensures { result ≡ true
            → new ≡ option_and_then (renamed_master (renaming_of self.now.names.now)) old }
    {
        match (old, new) {
            (Some(master), Some(other)) => self.is_same_master(master, other),
            (None, None) => true,
            _ => false,
        }
    }

    // Whether two blocks were opened within the same, and are complete or not.
    fn is_same_block(&self, old: u32, new: u32) -> bool
        ensures { result ≡ true
            → IsSameBlock self.now.old self.now.new (renaming_of self.now.names.now) old new }
    {
        let complete = self.old.is_complete(Master::Block(old))
            == self.new.is_complete(Master::Block(new));
        complete && self.is_same_parent(opened_in(&self.old, old), opened_in(&self.new, new))
    }

    // Whether two members of nests are alike.
    #[tactic(auto, unfolding(ada_standing::specs::Renaming::renamed_member))]
    fn is_same_layer(&self, old: Layer, new: Layer) -> bool
        ensures { result ≡ true → IsSameMember self.now.old self.now.new
            (renaming_of self.now.names.now) (member_of old) (member_of new) }
    {
        match (old, new) {
            (Layer::Block { opening, .. }, Layer::Block { opening: other, .. }) => {
                self.is_placed(opening, other) && self.is_same_block(opening, other)
            }
            (Layer::Rendezvous { call }, Layer::Rendezvous { call: other }) => {
                self.is_placed(call, other)
            }
            _ => false,
        }
    }

    // Whether two nests are alike.
    fn are_same_layers(&self, old: &[Layer], new: &[Layer]) -> bool
        ensures { result ≡ true → AreSameMembers self.now.old self.now.new
            (renaming_of self.now.names.now) (members old.now) (members new.now) }
    {
        if old.len() != new.len() {
            return false;
        }
        for place in 0..old.len() {
            if !self.is_same_layer(old[place], new[place]) {
                return false;
            }
        }
        true
    }

    /// Whether two tasks are within the same blocks and rendezvous.
    pub(crate) fn is_same_nest(&self, old: TaskNo, new: TaskNo) -> bool
        requires known { old.0 < task_count self.now.old }
        requires copied { new.0 < task_count self.now.new }
        ensures { result ≡ true
            → IsSameNest self.now.old self.now.new (renaming_of self.now.names.now) old.0 new.0 }
    {
        self.are_same_layers(self.old.nest(old).as_slice(), self.new.nest(new).as_slice())
    }
}
