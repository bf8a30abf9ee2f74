//! Two journals, and the names by which what matters of the first is found in the second.

pub mod holds;
pub mod kinds;
pub mod nests;
pub mod standing;
pub mod tasks;

ghost use Rattle.std.specs.Prelude.{◌≡◌, true, Some};
ghost use Rattle.ada_standing.specs.Names.{renaming_of};
ghost use Rattle.ada_standing.specs.Renaming.{renamed_master, renamed_member, renamed_outcome};

use ada_events::{Master, Member, Outcome, TaskNo};
use ada_standing::Renaming;
use ada_view::View;

/// An old journal and a new one that may stand in for it, with the names that lead from the one to the other.
#[derive(Drop)]
pub(crate) struct Comparison<'a> {
    pub(crate) old: View<'a>,
    pub(crate) new: View<'a>,
    pub(crate) names: &'a Renaming,
}

impl Comparison<'_> {
    /// Whether the new task stands for the old one.
    pub(crate) fn is_named(&self, old: TaskNo, new: TaskNo) -> bool
        ensures { result ≡ true → (renaming_of self.now.names.now).task old.0 ≡ Some new.0 }
    {
        self.names.task(old) == Some(new)
    }

    /// Whether the new position stands for the old one.
    pub(crate) fn is_placed(&self, old: u32, new: u32) -> bool
        ensures { result ≡ true → (renaming_of self.now.names.now).position old ≡ Some new }
    {
        self.names.is_placed(old, new)
    }

    /// Whether the new master stands for the old one.
    #[tactic(auto, unfolding(ada_standing::specs::Renaming::renamed_master))]
    pub(crate) fn is_same_master(&self, old: Master, new: Master) -> bool
        ensures { result ≡ true → renamed_master (renaming_of self.now.names.now) old ≡ Some new }
    {
        match (old, new) {
            (Master::Body(task), Master::Body(body)) => self.is_named(task, body),
            (Master::Block(block), Master::Block(place)) => self.is_placed(block, place),
            _ => false,
        }
    }

    /// Whether the new member of a nest stands for the old one.
    #[tactic(auto, unfolding(ada_standing::specs::Renaming::renamed_member))]
    pub(crate) fn is_same_member(&self, old: Member, new: Member) -> bool
        ensures { result ≡ true → renamed_member (renaming_of self.now.names.now) old ≡ Some new }
    {
        match (old, new) {
            (Member::Block(block), Member::Block(place)) => self.is_placed(block, place),
            (Member::Rendezvous(call), Member::Rendezvous(place)) => self.is_placed(call, place),
            _ => false,
        }
    }

    /// Whether the new outcome is the old one, in which an accepted call is renamed.
    #[tactic(auto, unfolding(ada_standing::specs::Renaming::renamed_outcome))]
    pub(crate) fn is_same_outcome(&self, old: Outcome, new: Outcome) -> bool
        ensures { result ≡ true → renamed_outcome (renaming_of self.now.names.now) old ≡ Some new }
    {
        match old {
            Outcome::Accepted { call, choice } => match new {
                Outcome::Accepted {
                    call: place,
                    choice: other,
                } => choice == other && self.is_placed(call, place),
                _ => false,
            },
            _ => old == new,
        }
    }
}
