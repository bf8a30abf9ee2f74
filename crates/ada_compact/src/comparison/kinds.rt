//! The kinds of events that names lead to, and the order of their positions.

ghost use Rattle.std.specs.Prelude.{◌≡◌, IfSome, true};
ghost use Rattle.ada_events.specs.Lawful.{IsLawful};
ghost use Rattle.ada_standing.specs.Holds.{is_timed_wait};
ghost use Rattle.ada_compact.specs.declared.comparison.kinds.Kind.{Kind as KindValue};
ghost use Rattle.ada_compact.specs.internal.Kinds.{AreAlikePlaces, ArePlacesRight, IsAlikePlace, has_kind, is_kind_at, is_no_past_wait, is_ordered};
ghost use Rattle.ada_compact.specs.internal.Kinds.{is_ordered_at, rises_among};

use crate::comparison::Comparison;
use ada_events::Event;
use ada_events::waits::tail_due;
use ada_standing::Place;
use ada_view::View;

/// What an event may be that names lead to: what holds a task up, or the opening of a block.
#[derive(Clone, Copy, Debug, PartialEq, Eq)]
pub enum Kind {
    Call,
    Wait,
    Delay,
    Start,
    Close,
    Block,
}

const KINDS: [Kind; 6] = [
    Kind::Call,
    Kind::Wait,
    Kind::Delay,
    Kind::Start,
    Kind::Close,
    Kind::Block,
];

// Whether the event is a wait with an open delay alternative.
#[tactic(auto, unfolding(ada_events::specs::Says::wait_in))]
fn is_timed_wait(event: &Event) -> bool
    ensures { result ≡ is_timed_wait event.now }
{
    match event {
        Event::Waiting { tail, .. } => tail_due(tail).is_some(),
        _ => false,
    }
}

impl Kind {
    // Whether the event is of this kind.
    #[tactic(auto, unfolding(ada_events::specs::Says::call_in, ada_events::specs::Says::wait_in, ada_events::specs::Says::delay_in, ada_events::specs::Says::start_in, ada_events::specs::Says::closing_in, ada_events::specs::Says::opening_in))]
    fn has(self, event: &Event) -> bool
        ensures { result ≡ has_kind self event.now }
    {
        match self {
            Kind::Call => matches!(event, Event::Called { .. }),
            Kind::Wait => matches!(event, Event::Waiting { .. }),
            Kind::Delay => matches!(event, Event::Paused { .. }),
            Kind::Start => matches!(event, Event::Started { .. }),
            Kind::Close => matches!(event, Event::Closed { .. }),
            Kind::Block => matches!(event, Event::Opened { .. }),
        }
    }

    // Whether the event is of this kind, and the order among those counts.
    fn is_ordered(self, event: &Event) -> bool
        ensures { result ≡ is_ordered self event.now }
    {
        match self {
            Kind::Wait => is_timed_wait(event),
            _ => self.has(event),
        }
    }

    // Whether an event of this kind stands at a position.
    #[tactic(auto, unfolding(crate::specs::internal::Kinds::is_kind_at))]
    fn is_at(self, view: &View, position: u32) -> bool
        ensures { result ≡ is_kind_at view.now self position }
    {
        match view.event(position) {
            Some(event) => self.has(event),
            None => false,
        }
    }

    // Whether an event of this kind stands at a position, and the order among those counts.
    #[tactic(auto, unfolding(crate::specs::internal::Kinds::is_ordered_at))]
    fn is_ordered_at(self, view: &View, position: u32) -> bool
        ensures { result ≡ is_ordered_at view.now self position }
    {
        match view.event(position) {
            Some(event) => self.is_ordered(event),
            None => false,
        }
    }
}

// The kind of the event at a position; none if there is none, or it is of no kind.
fn kind_at(view: &View, position: u32) -> Option<Kind>
    ensures { IfSome result (λ kind. is_kind_at view.now kind position ≡ true) }
{
    for kind in KINDS {
        if kind.is_at(view, position) {
            return Some(kind);
        }
    }
    None
}

// Whether the event at a position holds its task up, if it is a wait.
#[tactic(auto, unfolding(crate::specs::internal::Kinds::is_no_past_wait, ada_events::specs::Says::wait_in, ada_events::specs::Says::held_in))]
fn is_no_past_wait(view: &View, position: u32) -> bool
    ensures now { result ≡ is_no_past_wait view.now position }
    ensures lawful { IsLawful view.now }
{
    match view.event(position) {
        Some(Event::Waiting { by, .. }) => view.is_pending(position, *by),
        _ => true,
    }
}

impl Comparison<'_> {
    // Whether the events at a place are both of the kind, or neither.
    fn is_alike(&self, kind: Kind, place: Place) -> bool
        ensures { result ≡ true
            → is_kind_at self.now.new kind place.new ≡ is_kind_at self.now.old kind place.old }
    {
        kind.is_at(&self.old, place.old) == kind.is_at(&self.new, place.new)
    }

    // Whether the events at a place are of the same kinds.
    fn are_alike(&self, place: Place) -> bool
        ensures { result ≡ true → (kind : KindValue)
            → is_kind_at self.now.new kind place.new ≡ is_kind_at self.now.old kind place.old }
    {
        if !self.is_alike(Kind::Call, place) {
            return false;
        }
        if !self.is_alike(Kind::Wait, place) {
            return false;
        }
        if !self.is_alike(Kind::Delay, place) {
            return false;
        }
        if !self.is_alike(Kind::Start, place) {
            return false;
        }
        if !self.is_alike(Kind::Close, place) {
            return false;
        }
        self.is_alike(Kind::Block, place)
    }

    // Whether the two events at a place are of the same kind, and the first holds its task up, if it is a wait.
    fn is_alike_place(&self, place: Place) -> bool
        ensures { result ≡ true → IsAlikePlace self.now.old self.now.new place }
    {
        if !is_no_past_wait(&self.old, place.old) {
            return false;
        }
        match kind_at(&self.old, place.old) {
            Some(_) => self.are_alike(place),
            None => false,
        }
    }

    // Whether the events at each place are.
    fn are_alike_places(&self, places: &[Place]) -> bool
        ensures { result ≡ true → AreAlikePlaces self.now.old self.now.new places.now }
    {
        for place in places {
            if !self.is_alike_place(*place) {
                return false;
            }
        }
        true
    }

    // Whether among the places of a kind the order of which counts the new positions rise.
    #[tactic(auto, unfolding(crate::specs::internal::Kinds::rises_among))]
    fn rises(&self, kind: Kind, places: &[Place]) -> bool
        ensures { result ≡ rises_among (is_ordered_at self.now.old kind) 0 places.now }
    {
        let mut low = 0;
        for place in places {
            if kind.is_ordered_at(&self.old, place.old) {
                if u64::from(place.new) < low {
                    return false;
                }
                low = u64::from(place.new) + 1;
            }
        }
        true
    }

    // Whether among the places of each kind they rise.
    fn rise(&self, places: &[Place]) -> bool
        ensures { result ≡ true → (kind : KindValue)
            → rises_among (is_ordered_at self.now.old kind) 0 places.now ≡ true }
    {
        if !self.rises(Kind::Call, places) {
            return false;
        }
        if !self.rises(Kind::Wait, places) {
            return false;
        }
        if !self.rises(Kind::Delay, places) {
            return false;
        }
        if !self.rises(Kind::Start, places) {
            return false;
        }
        if !self.rises(Kind::Close, places) {
            return false;
        }
        self.rises(Kind::Block, places)
    }

    /// Whether the events at each place are alike, and the new positions rise where the order counts.
    pub(crate) fn are_places_right(&self) -> bool
        ensures { result ≡ true
            → ArePlacesRight self.now.old self.now.new self.now.names.now }
    {
        let places = self.names.places();
        if !self.are_alike_places(places) {
            return false;
        }
        self.rise(places)
    }
}
