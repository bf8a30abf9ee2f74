//! Which tasks and positions of a second journal stand for those of a first one.

ghost use Rattle.std.specs.Prelude.{◌≡◌, ◌≤◌, IfSome, true, Some, length};
ghost use Rattle.std.specs.Option.{option_map};
ghost use Rattle.ada_events.specs.declared.names.TaskNo.{TaskNo as Number};
ghost use Rattle.ada_events.specs.declared.limits.TheConstants.{MOST_TASKS};
ghost use Rattle.ada_standing.specs.Names.{named, placed, rises_from};

use ada_events::TaskNo;
use ada_events::limits::MOST_TASKS;
use std::marker::Model;

/// A position of the first journal, and the position of the second one that stands for it.
#[derive(Clone, Copy, Debug, Default, PartialEq, Eq)]
pub struct Place {
    pub old: u32,
    pub new: u32,
}

/// What a second journal has for what a first one names: for each task of the first one the task that stands for it,
/// and for positions the positions that stand for them. None stands for what may not be named any more.
#[derive(Debug, Drop)]
pub struct Renaming {
    tasks: Vec<Option<TaskNo>>,
    places: Vec<Place>,
}

impl Model for Renaming {
    ghost use Rattle.std.specs.Prelude.{◌≡◌, ◌≤◌, true, length};
    ghost use Rattle.ada_events.specs.declared.limits.TheConstants.{MOST_TASKS};
    ghost use Rattle.ada_standing.specs.Names.{Names, rises_from};

    ghost Value = { Names };

    ghost view = { λ n. record { tasks = n.tasks.items; places = n.places.items } };

    ghost invariant = { λ n. (length n.tasks.items ≤ MOST_TASKS)
        × (rises_from 0 n.places.items ≡ true) };
}

// Whether the old positions rise.
#[tactic(auto, unfolding(crate::specs::Names::rises_from))]
fn rise(places: &[Place]) -> bool
    ensures { result ≡ rises_from 0 places.now }
{
    let mut low = 0;
    for place in places {
        if u64::from(place.old) < low {
            return false;
        }
        low = u64::from(place.old) + 1;
    }
    true
}

impl Renaming {
    /// The names by these tasks, by number, and these places; none unless there are at most 256 tasks, and the old
    /// positions of the places rise.
    pub fn new(tasks: Vec<Option<TaskNo>>, places: Vec<Place>) -> Option<Self>
        ensures { IfSome result (λ names.
            names ≡ record { tasks = tasks.items; places = places.items }) }
    {
        if tasks.len() <= MOST_TASKS && rise(&places) {
            Some(Renaming { tasks, places })
        } else {
            None
        }
    }

    /// How many tasks of the first journal there are names for, at most 256: those with the least numbers.
    pub fn tasks(&self) -> u16
        ensures value { result ≡ length self.now.tasks }
        ensures fits { result ≤ MOST_TASKS }
    {
        self.tasks.len() as u16
    }

    /// The places, whose old positions rise.
    pub fn places(&self) -> &[Place]
        ensures places { result.now ≡ self.now.places }
        ensures rise { rises_from 0 self.now.places ≡ true }
    {
        &self.places
    }

    /// The task that stands for a task of the first journal.
    pub fn task(&self, task: TaskNo) -> Option<TaskNo>
        ensures { option_map (λ (t : Number). t.0) result ≡ named self.now.tasks task.0 }
    {
        match self.tasks.get(task.0 as usize) {
            Some(named) => *named,
            None => None,
        }
    }

    /// The position that stands for a position of the first journal, found by going through the places.
    #[tactic(auto, unfolding(crate::specs::Names::placed))]
    pub fn position(&self, position: u32) -> Option<u32>
        ensures { result ≡ placed self.now.places position }
    {
        for place in &self.places {
            if place.old == position {
                return Some(place.new);
            }
        }
        None
    }

    /// Whether the one position stands for the other.
    pub fn is_placed(&self, old: u32, new: u32) -> bool
        ensures { result ≡ true → placed self.now.places old ≡ Some new }
    {
        match self.places.binary_search_by_key(&old, |place| place.old) {
            Ok(at) => self.places[at].new == new,
            Err(_) => false,
        }
    }
}
