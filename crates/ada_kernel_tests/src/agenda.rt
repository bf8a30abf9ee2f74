//! What comes first in an agenda.

use ada_agenda::{Agenda, Numbers};
use ada_step_laws::Row;
use std::test::Fail;

// The first and last numbers of words on each level, and of the whole set.
const EDGES: [usize; 8] = [0, 1, 63, 64, 4_095, 4_096, 65_536, 69_631];

#[test]
fn the_least_number_comes_first(rt: HostRuntime) -> Result<(), Fail> {
    let mut numbers = Numbers::new(rt.alloc())?;
    assert_eq!(rt; numbers.least(), None);
    for number in EDGES.iter().rev() {
        numbers.insert(*number);
        numbers.insert(*number);
        assert_eq!(rt; numbers.least(), Some(*number));
    }
    for number in &EDGES {
        assert_eq!(rt; numbers.least(), Some(*number));
        numbers.remove(*number);
        numbers.remove(*number);
    }
    assert_eq!(rt; numbers.least(), None);
    Ok(())
}

#[test]
fn the_first_row_comes_first(rt: HostRuntime) -> Result<(), Fail> {
    let mut agenda = Agenda::new(rt.alloc())?;
    assert_eq!(rt; agenda.first(), None);
    agenda.insert(Row::Leaving, 0);
    agenda.insert(Row::Cancelling, 69_631);
    agenda.insert(Row::Cancelling, 4_096);
    assert_eq!(rt; agenda.first(), Some((Row::Cancelling, 4_096)));
    agenda.remove(Row::Cancelling, 4_096);
    assert_eq!(rt; agenda.first(), Some((Row::Cancelling, 69_631)));
    agenda.remove(Row::Cancelling, 69_631);
    assert_eq!(rt; agenda.first(), Some((Row::Leaving, 0)));
    agenda.remove(Row::Leaving, 0);
    assert_eq!(rt; agenda.first(), None);
    Ok(())
}
