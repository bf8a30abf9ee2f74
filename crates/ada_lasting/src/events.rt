//! The events of the last request to a kernel that lives on, in names that last.

ghost use Rattle.std.specs.Prelude.{◌≡◌, List, length, reverse, slice_get};
ghost use Rattle.std.specs.Option.{option_and_then, option_copied, option_map};
ghost use Rattle.ada_events.specs.declared.event.Event.{Event as Happening};
ghost use Rattle.ada_border.specs.Events as border;
ghost use Rattle.ada_standing.specs.Renaming.{renamed_master};
ghost use Rattle.ada_lasting.specs.Events as shown;
ghost use Rattle.ada_lasting.specs.Following.{Follows};
ghost use Rattle.ada_lasting.specs.Meaning.{meant_master};
ghost use Rattle.ada_lasting.specs.internal.Events as lasting;

use crate::names::Names;
use crate::{LastingMaster, LongKernel};
use ada_border::events::{PlainEvent, plain_of};
use ada_border::lists::{PlainLengths, choices_of, dues_of, families_of, lengths_of, tasks_of};
use ada_events::{Choice, Event, Family, Master, TaskNo};

fn master_kind(master: LastingMaster) -> u32
    ensures { result ≡ border.master_kind (meant_master master) }
{
    match master {
        LastingMaster::Body(_) => 0,
        LastingMaster::Block(_) => 1,
    }
}

fn master_number(master: LastingMaster) -> u64
    ensures { result ≡ border.master_number (meant_master master) }
{
    match master {
        LastingMaster::Body(task) => task,
        LastingMaster::Block(position) => position,
    }
}

impl Names {
    // A master of the present journal in names that last; none if it has no name.
    #[tactic(auto, unfolding(ada_standing::specs::Renaming::renamed_master))]
    fn lasting_master(&self, master: Master) -> Option<LastingMaster>
        ensures { option_map meant_master result
            ≡ renamed_master (lasting.back_of self.now) master }
    {
        Some(match master {
            Master::Body(task) => LastingMaster::Body(self.lasting_task(task)?),
            Master::Block(position) => LastingMaster::Block(self.lasting_position(position)?),
        })
    }

    // An event of the present journal in names that last; none if it names what has no name. Its list isn't read.
    #[tactic(auto, unfolding(crate::specs::internal::Events::lasting_event, ada_standing::specs::Renaming::renamed_event, ada_standing::specs::Renaming::renamed_task, ada_border::specs::Events::plain_of))]
    fn lasting_event(&self, event: &Event) -> Option<PlainEvent>
        ensures { result ≡ lasting.lasting_event (lasting.back_of self.now) event.now }
    {
        let plain = plain_of(event);
        Some(match event {
            Event::Opened { by, under } => {
                let task = self.lasting_task(*by)?;
                let under = self.lasting_master(*under)?;
                PlainEvent {
                    task,
                    under_kind: master_kind(under),
                    under: master_number(under),
                    ..plain
                }
            }
            Event::Created {
                by,
                under,
                master,
                ..
            } => {
                let task = self.lasting_task(*by)?;
                let under = self.lasting_master(*under)?;
                let master = self.lasting_master(*master)?;
                PlainEvent {
                    task,
                    under_kind: master_kind(under),
                    under: master_number(under),
                    master_kind: master_kind(master),
                    master: master_number(master),
                    ..plain
                }
            }
            Event::Called { by, callee, .. } => PlainEvent {
                task: self.lasting_task(*by)?,
                callee: self.lasting_task(*callee)?,
                ..plain
            },
            Event::Started { by: task, .. }
            | Event::Elaborated { by: task, .. }
            | Event::Waiting { by: task, .. }
            | Event::Paused { by: task, .. }
            | Event::Completed { by: task }
            | Event::Aborted { by: task, .. }
            | Event::Halted { task }
            | Event::Gone { task } => PlainEvent {
                task: self.lasting_task(*task)?,
                ..plain
            },
            Event::Ended { by, call, .. } => PlainEvent {
                task: self.lasting_task(*by)?,
                call: self.lasting_position(*call)?,
                ..plain
            },
            Event::Closed { by, block } => PlainEvent {
                task: self.lasting_task(*by)?,
                position: self.lasting_position(*block)?,
                ..plain
            },
            Event::Ticked { .. } => plain,
            Event::Failed { call } | Event::Cancelled { call } => PlainEvent {
                call: self.lasting_position(*call)?,
                ..plain
            },
            Event::Met { call, wait } => PlainEvent {
                call: self.lasting_position(*call)?,
                position: self.lasting_position(*wait)?,
                ..plain
            },
            Event::Passed { wait: at, .. }
            | Event::Woken { pause: at }
            | Event::Activated { start: at, .. }
            | Event::Left { close: at } => PlainEvent {
                position: self.lasting_position(*at)?,
                ..plain
            },
            Event::Quit { master } => {
                let master = self.lasting_master(*master)?;
                PlainEvent {
                    master_kind: master_kind(master),
                    master: master_number(master),
                    ..plain
                }
            }
        })
    }
}

// The task at a place of an event's list.
fn listed(event: &Event, place: usize) -> Option<TaskNo>
    ensures { result ≡ slice_get (border.tasks_of event.now) place }
{
    tasks_of(event).get(place).copied()
}

impl LongKernel {
    // The event at a place among those that the present journal shows.
    fn shown(&self, at: usize) -> Option<&Event>
        ensures { option_copied result ≡ slice_get (reverse self.now.group) at }
    {
        self.group().get(at)
    }

    /// How many events the last accepted request appended: its own, and the steps that it forced. None after a release,
    /// and none once the journal was made shorter since then.
    pub fn events(&self) -> usize
        ensures { (journal : List Happening) → Follows journal self.now
            → result ≡ length (shown.shown journal self.now) }
    {
        self.group().len()
    }

    /// The event at a place among these, from 0, with tasks by the numbers of their creation and positions among all
    /// events there ever were; none past the last one.
    pub fn event(&self, at: usize) -> Option<PlainEvent>
        ensures { (journal : List Happening) → Follows journal self.now → result
            ≡ option_map border.plain_of (shown.shown_at journal self.now at) }
    {
        self.known();
        let event = self.shown(at)?;
        self.names().lasting_event(event)
    }

    /// How many items the lists of that event have.
    pub fn event_lengths(&self, at: usize) -> Option<PlainLengths>
        ensures { (journal : List Happening) → Follows journal self.now → result
            ≡ option_map border.lengths_of (shown.shown_at journal self.now at) }
    {
        let event = self.shown(at)?;
        Some(lengths_of(event))
    }

    /// The task at a place, from 0, among those that the event names, if it is an activation or an abort.
    pub fn event_task(&self, at: usize, place: usize) -> Option<u64>
        ensures { (journal : List Happening) → Follows journal self.now → result
            ≡ option_and_then (shown.listed place) (shown.shown_at journal self.now at) }
    {
        self.known();
        let event = self.shown(at)?;
        self.names().lasting_task(listed(event, place)?)
    }

    /// The families of the event, if it is a creation.
    pub fn event_families(&self, at: usize) -> &[Family]
        ensures { (journal : List Happening) → Follows journal self.now → result.now
            ≡ shown.list_of border.families_of (shown.shown_at journal self.now at) }
    {
        match self.shown(at) {
            Some(event) => families_of(event),
            None => &[],
        }
    }

    /// The accept alternatives of the event, if it is a wait.
    pub fn event_choices(&self, at: usize) -> &[Choice]
        ensures { (journal : List Happening) → Follows journal self.now → result.now
            ≡ shown.list_of border.choices_of (shown.shown_at journal self.now at) }
    {
        match self.shown(at) {
            Some(event) => choices_of(event),
            None => &[],
        }
    }

    /// When the delay alternatives of the event are due, if it is a wait; a closed one has no moment.
    pub fn event_delays(&self, at: usize) -> &[Option<i64>]
        ensures { (journal : List Happening) → Follows journal self.now → result.now
            ≡ shown.list_of border.dues_of (shown.shown_at journal self.now at) }
    {
        match self.shown(at) {
            Some(event) => dues_of(event),
            None => &[],
        }
    }
}
