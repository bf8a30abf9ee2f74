//! Lines that are never said after a schedule, whatever comes.

ghost use Rattle.std.specs.Prelude.{◌≡◌, true, IfOk};
ghost use Rattle.std.specs.List.{list_all};
ghost use Rattle.ada_explore.specs.Findings.{is_unsaid, NeverSays};

use crate::{Halt, Rest, Space, Standing, Turn, Watch};
use ada_search::{Wish, stays_well};

/// That the lines at some places are left.
#[derive(Drop)]
pub struct Unsaid {
    pub places: Vec<u16>,
}

// Whether the lines at some places are left.
fn are_left(rest: &Rest, places: &[u16]) -> bool
    ensures { result ≡ list_all (is_unsaid rest.now) places.now }
{
    places.iter().all(|place| rest.left.contains(place))
}

impl<'a> Wish<Space<'a>> for Unsaid {
    ghost use Rattle.ada_explore.specs.Findings.{AreUnsaid};

    ghost well = { λ wish _. AreUnsaid wish.places.items };

    fn is_met(&self, _space: &Space<'a>, standing: &Standing) -> Result<bool, Halt> {
        Ok(are_left(&standing.rest, &self.places))
    }

    fn is_kept(&self, _space: &Space<'a>) {}
}

/// Whether the lines at some places are left in whatever a schedule comes to when it goes on, so that none of them is
/// ever said. False if that isn't found: one of them may be said, there are more states than so many, or whoever
/// watches ends the search. An `Err` is that of [`ada_search::stays_well`].
pub fn never_says<W: Watch>(
    space: Space<'_>,
    path: &[Turn],
    places: &[u16],
    most: u32,
    watch: &mut W,
) -> Result<bool, Halt>
    ensures { IfOk result (λ never. never ≡ true
        → NeverSays space.entry.freedom space.entry.script.now path.now places.now) }
{
    let places = Vec::from_slice(space.alloc, places).map_err(|_| Halt::Memory)?;
    let unsaid = Unsaid { places };
    let found = stays_well(space.alloc, &space, path, &unsaid, most, watch)?;
    Ok(found.is_some())
}
